//! Taking the groups of a text while they are read: no saved run is made of it.
ghost use Rattle.std.specs.Prelude.{◌≡◌, ◌↔◌, ◌≤◌, List, IfOk, IsTrue, length};
ghost use Rattle.std.specs.Map.{lookup};
ghost use Rattle.sym_base.specs.declared.limits.TheConstants as limit;
ghost use Rattle.sym_base.specs.declared.values.value.Key.{Key as OneKey};
ghost use Rattle.sym_check.specs.Checking.CheckedScripts.{checked_plan};
ghost use Rattle.sym_check.specs.Meaning.Conditions.{test_truth};
ghost use Rattle.sym_check.specs.Meaning.Groups.{is_key};
ghost use Rattle.sym_plain.specs.Pairs.{standing};
ghost use Rattle.sym_run.specs.Applying.{AreValid};
ghost use Rattle.sym_run.specs.Chains.{ChainFits};
ghost use Rattle.sym_file.specs.Marks.{AreMarks, IsTakenOnce};
ghost use Rattle.sym_file.specs.TakenTexts.{LeadsBody, LeadsGroups, LeadsText};
ghost use Rattle.sym_file.specs.Totals.{led_through};

use crate::reader::{group, head, script};
use crate::run_head::RunHead;
use crate::saved_err::SavedErr;
use crate::totals::{begin, take_at};
use std::alloc::Global;
use sym_base::{Key, NoMemory};
use sym_check::Checked;
use sym_plain::Groups;
use sym_run::{Chain, is_lawful_group};

/// What taking the groups of a text came to.
pub(crate) enum Led {
    /// All are taken; the number of the record after the last.
    Done(u64),
    /// The chain of this group, counted from 0, has no path for how the group stands.
    Gap(u64),
}

/// Takes a group of a text; whether each segment of its chain has a path for how the group stands.
/// `None` exactly where the text named the key before: the group at each index is marked where it
/// did. Where all is taken, the group of this key is marked, too.
fn take_once(
    alloc: Global,
    checked: &Checked,
    groups: &mut Groups,
    marks: &mut Vec<bool>,
    key: Key,
    chain: &Chain,
) -> Result<Option<bool>, NoMemory>
    requires fits { ChainFits (checked_plan checked.now) chain.now }
    requires valid { AreValid (checked_plan checked.now) groups.old }
    requires marks { length marks.old.items ≡ length groups.old }
    ensures valid { IfOk result (λ led. AreValid (checked_plan checked.now) groups.new) }
    ensures taken { (seen : List OneKey) → AreMarks seen groups.old marks.old.items →
        IfOk result (λ led. IsTakenOnce seen key groups.old
        (led_through (test_truth (checked_plan checked.now).tests) chain.now
        (standing (checked_plan checked.now) (lookup (is_key key) groups.old)))
        led groups.new marks.new.items) }
{
    match groups.index_of(&key) {
        Some(index) => {
            if marks[index] {
                return Ok(None);
            }
            marks[index] = true;
            Ok(Some(take_at(alloc, checked, groups, index, chain)?))
        }
        None => {
            marks.push(true)?;
            Ok(Some(begin(alloc, checked, groups, key, chain)?))
        }
    }
}

/// Takes so many groups, which have to be lawful; the first that is a gap, counted from 0, or the
/// bytes after all of them.
fn lead_groups<'a>(
    alloc: Global,
    checked: &Checked,
    head: &RunHead,
    bytes: &'a [u8],
    groups: &mut Groups,
) -> Result<(Option<u64>, &'a [u8]), SavedErr>
    requires valid { AreValid (checked_plan checked.now) groups.old }
    ensures valid { IfOk result (λ x. AreValid (checked_plan checked.now) groups.new) }
    ensures led { LeadsGroups (checked_plan checked.now) head.now.first head.now.next head.now.count
        bytes.now groups.old groups.new (λ x. (x.0, x.1.now)) result }
{
    let plan = checked.plan();
    let mut marks = vec![in alloc; false; groups.len()]?;
    let mut rest = bytes;
    'groups: for index in 0..head.count {
        let ((key, chain), after) = group(alloc, plan, rest)?;
        let lawful = is_lawful_group(checked, head.first, head.next, &key, &chain);
        if !lawful {
            return Err(SavedErr::Malformed);
        }
        match take_once(alloc, checked, groups, &mut marks, key, &chain)? {
            Some(true) => {}
            Some(false) => return Ok((Some(index as u64), after)),
            None => return Err(SavedErr::Malformed),
        }
        rest = after;
    }
    Ok((None, rest))
}

/// Whether records are numbered from this number on.
pub(crate) fn begins(wanted: u64, first: u64, next: u64) -> bool
    ensures { IsTrue result ↔ (first ≡ wanted) × (1 ≤ first) × (first ≤ next) }
{
    first == wanted && 1 <= first && first <= next
}

/// Takes all that comes after the script, where its first record has this number.
fn lead_body(
    alloc: Global,
    checked: &Checked,
    wanted: u64,
    bytes: &[u8],
    groups: &mut Groups,
) -> Result<Led, SavedErr>
    requires valid { AreValid (checked_plan checked.now) groups.old }
    ensures valid { IfOk result (λ x. AreValid (checked_plan checked.now) groups.new) }
    ensures led { LeadsBody (checked_plan checked.now) bytes.now wanted
        groups.old groups.new result }
{
    let ((first, next, count), rest) = head(bytes)?;
    let follows = begins(wanted, first, next);
    if !follows {
        return Err(SavedErr::Malformed);
    }
    let (gap, rest) = lead_groups(
        alloc,
        checked,
        &RunHead { first, next, count },
        rest,
        groups,
    )?;
    match gap {
        Some(group) => Ok(Led::Gap(group)),
        None => {
            let ended = rest == b"end\n".as_slice();
            if !ended {
                return Err(SavedErr::Malformed);
            }
            Ok(Led::Done(next))
        }
    }
}

/// Takes the saved run of a text, where `own` is the script in its printed form, and the first
/// record has this number. Where it isn't so, a saved run whose first record has this number isn't
/// read of the text.
pub(crate) fn lead_text(
    alloc: Global,
    checked: &Checked,
    own: &[u8],
    bytes: &[u8],
    wanted: u64,
    groups: &mut Groups,
) -> Result<Led, SavedErr>
    requires size { length bytes.now ≤ limit.FILE_MAX }
    requires valid { AreValid (checked_plan checked.now) groups.old }
    ensures valid { IfOk result (λ x. AreValid (checked_plan checked.now) groups.new) }
    ensures led { LeadsText own.now (checked_plan checked.now) bytes.now wanted
        groups.old groups.new result }
{
    let _plan = checked.plan();
    let (found, rest) = script(bytes)?;
    let same = found == own;
    if !same {
        return Err(SavedErr::Malformed);
    }
    lead_body(alloc, checked, wanted, rest, groups)
}
