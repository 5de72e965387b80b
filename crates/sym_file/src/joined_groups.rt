//! Joining the groups of a text to those of a saved run while they are read: no saved run is made of
//! the text.
ghost use Rattle.std.specs.Prelude.{◌≡◌, ◌≤◌, List, IfOk, length};
ghost use Rattle.sym_base.specs.declared.limits.TheConstants as limits;
ghost use Rattle.sym_base.specs.declared.values.value.Key.{Key as OneKey};
ghost use Rattle.sym_check.specs.Checking.CheckedScripts.{checked_plan};
ghost use Rattle.sym_file.specs.JoinedTexts.{IfJoined, IsJoinedOnce, JoinsBody, JoinsGroups, JoinsOwn, JoinsText, JoinsUnlessApart};
ghost use Rattle.sym_file.specs.Marks.{AreMarks};
ghost use Rattle.sym_file.specs.SavedTexts.{printed};
ghost use Rattle.sym_run.specs.Chains.{ChainFits, IsClosed};
ghost use Rattle.sym_run.specs.ClosedJoins.{IsJoinable};
ghost use Rattle.sym_run.specs.Runs.{AreClosed, GroupsFit};

use crate::led_groups::begins;
use crate::reader::{group, head, read_own, script};
use crate::run_head::RunHead;
use crate::saved_err::SavedErr;
use std::alloc::Global;
use sym_base::{Key, NoMemory};
use sym_check::Checked;
use sym_parse::print;
use sym_run::{Chain, RunGroups, Saved, is_lawful_group};

/// What joining the saved run of a text to another one comes to.
#[derive(Drop)]
pub enum JoinedText {
    /// The saved run of both.
    Done(Saved),
    /// The first record of the text's run isn't the one after the last of the other.
    Apart,
}

/// What chains are joined by: a script, and the path limit. Where a segment and the next one have
/// pairs, and at most so many of them, they are composed.
#[derive(Clone, Copy)]
struct Joiner<'a> {
    checked: &'a Checked,
    limit: u32,
}

/// Joins a group of a text; whether the text didn't name its key before: the group at each index is
/// marked where it did. Where it is joined, the group of this key is marked, too.
fn join_once(
    alloc: Global,
    joiner: &Joiner<'_>,
    groups: &mut RunGroups,
    marks: &mut Vec<bool>,
    key: Key,
    chain: Chain,
) -> Result<bool, NoMemory>
    requires left { GroupsFit (checked_plan joiner.now.checked.now) groups.old }
    requires closed_left { AreClosed groups.old }
    requires right { ChainFits (checked_plan joiner.now.checked.now) chain }
    requires closed_right { IsClosed chain }
    requires marks { length marks.old.items ≡ length groups.old }
    ensures { let p = checked_plan joiner.now.checked.now in
        (seen : List OneKey) → AreMarks seen groups.old marks.old.items →
        IfOk result (λ new. IsJoinedOnce p joiner.now.limit seen key chain
        groups.old new groups.new marks.new.items) }
{
    match groups.index_of(&key) {
        Some(index) => {
            if marks[index] {
                return Ok(false);
            }
            marks[index] = true;
            groups.join_at(alloc, joiner.checked, index, chain, joiner.limit)?;
            Ok(true)
        }
        None => {
            marks.push(true)?;
            groups.begin(alloc, key, chain)?;
            Ok(true)
        }
    }
}

/// Joins so many groups, which have to be lawful and distinct; the bytes after them.
fn join_groups<'a>(
    alloc: Global,
    joiner: &Joiner<'_>,
    head: &RunHead,
    bytes: &'a [u8],
    groups: &mut RunGroups,
) -> Result<&'a [u8], SavedErr>
    requires fits { GroupsFit (checked_plan joiner.now.checked.now) groups.old }
    requires closed { AreClosed groups.old }
    ensures { JoinsGroups (checked_plan joiner.now.checked.now) head.now.first head.now.next
        head.now.count joiner.now.limit bytes.now groups.old groups.new (λ rest. rest.now) result }
{
    let plan = joiner.checked.plan();
    let mut marks = vec![in alloc; false; groups.len()]?;
    let mut rest = bytes;
    'groups: for _ in 0..head.count {
        let ((key, chain), after) = group(alloc, plan, rest)?;
        let lawful = is_lawful_group(joiner.checked, head.first, head.next, &key, &chain);
        if !lawful {
            return Err(SavedErr::Malformed);
        }
        let new = join_once(alloc, joiner, groups, &mut marks, key, chain)?;
        if !new {
            return Err(SavedErr::Malformed);
        }
        rest = after;
    }
    Ok(rest)
}

/// Joins all that comes after the script, where its first record has this number; the number of the
/// record after its last.
fn join_body(
    alloc: Global,
    joiner: &Joiner<'_>,
    wanted: u64,
    bytes: &[u8],
    groups: &mut RunGroups,
) -> Result<u64, SavedErr>
    requires fits { GroupsFit (checked_plan joiner.now.checked.now) groups.old }
    requires closed { AreClosed groups.old }
    ensures { JoinsBody (checked_plan joiner.now.checked.now) bytes.now wanted joiner.now.limit
        groups.old groups.new result }
{
    let ((first, next, count), rest) = head(bytes)?;
    let follows = begins(wanted, first, next);
    if !follows {
        return Err(SavedErr::Malformed);
    }
    let rest = join_groups(alloc, joiner, &RunHead { first, next, count }, rest, groups)?;
    let ended = rest == b"end\n".as_slice();
    if !ended {
        return Err(SavedErr::Malformed);
    }
    Ok(next)
}

/// Joins the saved run of a text, where `own` is the script in its printed form, and the first
/// record has this number; the number of the record after its last. Where it isn't so, a saved run
/// whose first record has this number isn't read of the text.
fn join_own(
    alloc: Global,
    joiner: &Joiner<'_>,
    own: &[u8],
    bytes: &[u8],
    wanted: u64,
    groups: &mut RunGroups,
) -> Result<u64, SavedErr>
    requires size { length bytes.now ≤ limits.FILE_MAX }
    requires fits { GroupsFit (checked_plan joiner.now.checked.now) groups.old }
    requires closed { AreClosed groups.old }
    ensures { let p = checked_plan joiner.now.checked.now in
        JoinsOwn own.now p bytes.now wanted joiner.now.limit groups.old groups.new result }
{
    let _plan = joiner.checked.plan();
    let (found, rest) = script(bytes)?;
    let same = found == own;
    if !same {
        return Err(SavedErr::Malformed);
    }
    join_body(alloc, joiner, wanted, rest, groups)
}

/// `join_own`, where `read_saved` says why no saved run is joined; `None` where the text has one
/// whose first record has another number.
fn join_unless_apart(
    alloc: Global,
    joiner: &Joiner<'_>,
    own: &[u8],
    bytes: &[u8],
    wanted: u64,
    groups: &mut RunGroups,
) -> Result<Option<u64>, SavedErr>
    requires size { length bytes.now ≤ limits.FILE_MAX }
    requires fits { GroupsFit (checked_plan joiner.now.checked.now) groups.old }
    requires closed { AreClosed groups.old }
    ensures { let p = checked_plan joiner.now.checked.now in
        JoinsUnlessApart own.now p bytes.now wanted joiner.now.limit groups.old groups.new result }
{
    match join_own(alloc, joiner, own, bytes, wanted, groups) {
        Ok(next) => Ok(Some(next)),
        Err(SavedErr::NoMemory) => Err(SavedErr::NoMemory),
        Err(_) => {
            let _saved = read_own(alloc, joiner.checked, own, bytes)?;
            Ok(None)
        }
    }
}

/// `join_text`, where this is the script in its printed form.
fn join_by(
    alloc: Global,
    checked: &Checked,
    own: &[u8],
    before: Saved,
    bytes: &[u8],
    limit: u32,
) -> Result<JoinedText, SavedErr>
    requires size { length bytes.now ≤ limits.FILE_MAX }
    requires before { IsJoinable (checked_plan checked.now) before }
    ensures joined { JoinsText own.now (checked_plan checked.now) bytes.now limit before result }
    ensures joinable { IfOk result (λ answer.
        IfJoined answer (IsJoinable (checked_plan checked.now))) }
{
    let (first, next) = (before.first, before.next);
    let mut groups = before.into_groups();
    let joiner = Joiner { checked, limit };
    match join_unless_apart(alloc, &joiner, own, bytes, next, &mut groups) {
        Ok(Some(next)) => Ok(JoinedText::Done(Saved {
            first,
            next,
            groups,
        })),
        Ok(None) => Ok(JoinedText::Apart),
        Err(why) => Err(why),
    }
}

/// The saved run of the records of `before` and then of those of the saved run that has this text,
/// which follow: each group is joined as it is read, and no saved run is made of the text. Where a
/// segment and the next one have pairs, and at most `limit` of them, they are composed. Keys and
/// chains are moved. After an `Err`, which is that of `read_saved`, and after `Apart`, `before` is
/// dropped.
pub fn join_text(
    alloc: Global,
    checked: &Checked,
    before: Saved,
    bytes: &[u8],
    limit: u32,
) -> Result<JoinedText, SavedErr>
    requires size { length bytes.now ≤ limits.FILE_MAX }
    requires before { IsJoinable (checked_plan checked.now) before }
    ensures joined { JoinsText (printed checked.now) (checked_plan checked.now) bytes.now limit
        before result }
    ensures joinable { IfOk result (λ answer.
        IfJoined answer (IsJoinable (checked_plan checked.now))) }
{
    let own = print(alloc, checked.script())?;
    join_by(alloc, checked, &own, before, bytes, limit)
}
