//! Reading a saved run.
ghost use Rattle.std.specs.Prelude.{◌≡◌, ◌≤◌, [], IfOk, length};
ghost use Rattle.sym_base.specs.declared.limits.TheConstants as limit;
ghost use Rattle.sym_check.specs.Checking.CheckedScripts.{checked_plan};
ghost use Rattle.sym_check.specs.Plan.ScriptPlans.{script_plan};
ghost use Rattle.sym_file.specs.Reading.{Gives, at_end, body_at, group_at, groups_at, head_at, key_at, script_at};
ghost use Rattle.sym_file.specs.SavedTexts.{IsReadAs, IsReadTo, IsSaved, printed};
ghost use Rattle.sym_file.specs.Stored.{IsStored};
ghost use Rattle.sym_run.specs.declared.saved.Saved.{Saved as OneSaved};

use crate::numbers::{after, below_64, nat};
use crate::paths::chain;
use crate::saved_err::SavedErr;
use crate::values::values;
use std::alloc::Global;
use sym_base::Key;
use sym_check::{Checked, Plan};
use sym_parse::print;
use sym_run::{Chain, RunGroups, Saved};

/// A key.
#[tactic(auto, unfolding(crate::specs::Reading::key_at))]
pub(crate) fn key<'a>(
    alloc: Global,
    plan: &Plan,
    bytes: &'a [u8],
) -> Result<(Key, &'a [u8]), SavedErr>
    ensures { Gives (λ x. (x.0, x.1.now)) result (key_at (script_plan plan.now) bytes.now) }
{
    let rest = after(b"key", bytes)?;
    let (values, rest) = values(alloc, plan.group.len(), rest)?;
    let rest = after(b"\n", rest)?;
    Ok((Key { values }, rest))
}

/// A group: its key and its chain.
#[tactic(auto, unfolding(crate::specs::Reading::group_at))]
pub(crate) fn group<'a>(
    alloc: Global,
    plan: &Plan,
    bytes: &'a [u8],
) -> Result<((Key, Chain), &'a [u8]), SavedErr>
    ensures { Gives (λ x. (x.0, x.1.now)) result (group_at (script_plan plan.now) bytes.now) }
{
    let (key, rest) = key(alloc, plan, bytes)?;
    let (chain, rest) = chain(alloc, plan, rest)?;
    Ok(((key, chain), rest))
}

/// So many groups, no two of the same key.
fn groups<'a>(
    alloc: Global,
    plan: &Plan,
    count: u128,
    bytes: &'a [u8],
) -> Result<(RunGroups, &'a [u8]), SavedErr>
    ensures { Gives (λ x. (x.0, x.1.now)) result
        (groups_at (script_plan plan.now) count [] bytes.now) }
{
    let mut groups = RunGroups::new(alloc);
    let mut rest = bytes;
    'groups: for _ in 0..count {
        let ((key, chain), after) = group(alloc, plan, rest)?;
        match groups.add(alloc, key, chain)? {
            Some(more) => groups = more,
            None => return Err(SavedErr::Malformed),
        }
        rest = after;
    }
    Ok((groups, rest))
}

/// The script of the text, and the bytes after it.
#[tactic(auto, unfolding(crate::specs::Reading::script_at))]
pub(crate) fn script(bytes: &[u8]) -> Result<(&[u8], &[u8]), SavedErr>
    ensures { Gives (λ x. (x.0.now, x.1.now)) result (script_at bytes.now) }
{
    let rest = after(b"symple run 1\nscript ", bytes)?;
    let (count, rest) = nat(rest)?;
    let rest = after(b"\n", rest)?;
    if (rest.len() as u128) < count {
        return Err(SavedErr::Malformed);
    }
    Ok(rest.split_at(count as usize))
}

/// The numbers of the first record, of the record after the last, and of the groups.
#[tactic(auto, unfolding(crate::specs::Reading::head_at))]
pub(crate) fn head(bytes: &[u8]) -> Result<((u64, u64, u128), &[u8]), SavedErr>
    ensures { Gives (λ x. (x.0, x.1.now)) result (head_at bytes.now) }
{
    let rest = after(b"first ", bytes)?;
    let (first, rest) = below_64(rest)?;
    let rest = after(b"\nnext ", rest)?;
    let (next, rest) = below_64(rest)?;
    let rest = after(b"\ngroups ", rest)?;
    let (count, rest) = nat(rest)?;
    let rest = after(b"\n", rest)?;
    Ok(((first, next, count), rest))
}

/// The saved run, with which the bytes end.
fn at_end(saved: Saved, rest: &[u8]) -> Result<Saved, SavedErr>
    ensures { Gives (λ run. run) result (at_end saved rest.now) }
{
    match rest {
        [] => Ok(saved),
        [_, ..] => Err(SavedErr::Malformed),
    }
}

/// A saved run that may break rules of the script, all of the bytes.
#[tactic(auto, unfolding(crate::specs::Reading::body_at))]
fn body(alloc: Global, plan: &Plan, bytes: &[u8]) -> Result<Saved, SavedErr>
    ensures { Gives (λ saved. saved) result (body_at (script_plan plan.now) bytes.now) }
{
    let ((first, next, count), rest) = head(bytes)?;
    let (groups, rest) = groups(alloc, plan, count, rest)?;
    let rest = after(b"end\n", rest)?;
    let saved = Saved {
        first,
        next,
        groups,
    };
    at_end(saved, rest)
}

/// `read_saved`, where this is the script in its printed form.
pub(crate) fn read_own(
    alloc: Global,
    checked: &Checked,
    own: &[u8],
    bytes: &[u8],
) -> Result<Saved, SavedErr>
    requires { length bytes.now ≤ limit.FILE_MAX }
    ensures read { IsReadTo own.now (checked_plan checked.now) bytes.now result }
    ensures only { (saved : OneSaved) → IsStored saved →
        IsSaved own.now (checked_plan checked.now) bytes.now saved → IsReadAs saved result }
    ensures stored { IfOk result (λ saved. IsStored saved) }
{
    let plan = checked.plan();
    let (found, rest) = script(bytes)?;
    let same = found == own;
    if !same {
        return Err(SavedErr::OtherScript);
    }
    let saved = body(alloc, plan, rest)?;
    if saved.is_lawful(checked) {
        Ok(saved)
    } else {
        Err(SavedErr::Malformed)
    }
}

/// The lawful saved run of the script that has this text. `OtherScript` exactly where the bytes
/// begin as those of a saved run of another script: with the first two lines, and then as many
/// bytes as the second one says, which aren't this script in its printed form. `Malformed` exactly
/// where they don't, and are the text of no lawful saved run.
pub fn read_saved(alloc: Global, checked: &Checked, bytes: &[u8]) -> Result<Saved, SavedErr>
    requires size { length bytes.now ≤ limit.FILE_MAX }
    ensures read { IsReadTo (printed checked.now) (checked_plan checked.now) bytes.now result }

    // No other lawful saved run has the text.
    ensures only { (saved : OneSaved) → IsStored saved →
        IsSaved (printed checked.now) (checked_plan checked.now) bytes.now saved →
        IsReadAs saved result }

    // What is read is one of the program's runs.
    ensures stored { IfOk result (λ saved. IsStored saved) }
{
    let own = print(alloc, checked.script())?;
    read_own(alloc, checked, &own, bytes)
}
