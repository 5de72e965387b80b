//! The loop over files of saved runs.
ghost use Rattle.std.specs.Prelude.{◌≡◌, ◌≤◌, ℕ, List, IfOk, IfErr, length, map};
ghost use Rattle.std.specs.List.{All};
ghost use Rattle.std.specs.String.{string_bytes};
ghost use Rattle.sym_base.specs.declared.limits.TheConstants as limit;
ghost use Rattle.sym_check.specs.Checking.CheckedScripts.{checked_plan};
ghost use Rattle.sym_check.specs.Meaning.Validity.{IsKey};
ghost use Rattle.sym_files.specs.Passing.{May};
ghost use Rattle.sym_file.specs.SavedTexts.{printed};
ghost use Rattle.sym_reduce.specs.Reducing.{IsUnread, ReducedAll, StopsReduce};

use crate::error::ReduceErr;
use crate::one_file::{Step, take_file};
use std::alloc::Global;
use sym_base::{ReadErr, Store, read_all};
use sym_check::Checked;
use sym_file::Totals;

/// All bytes of the file with the number `file`.
pub(crate) fn read_file<F: Store>(
    alloc: Global,
    files: &mut F,
    name: &str,
    file: u64,
    max_bytes: u64,
) -> Result<Vec<u8>, ReduceErr>
    requires { max_bytes ≤ limit.FILE_MAX }
    ensures read { IfOk result (λ v. May (F.holds files.old name.now) v.items) }
    ensures fits { IfOk result (λ v. length v.items ≤ max_bytes) }
    ensures unread { let before = F.faults files.old name.now in
        let after = F.faults files.new name.now in
        IfErr result (IsUnread max_bytes file (F.holds files.old name.now) before after) }
    ensures same { F.holds files.new ≡ F.holds files.old }
    ensures later { (other : List ℕ) → F.faults files.old other ≤ F.faults files.new other }
{
    match read_all(alloc, files, name, max_bytes) {
        Ok(bytes) => Ok(bytes),
        Err(ReadErr::Failed) => Err(ReduceErr::Read { file }),
        Err(ReadErr::TooLarge) => Err(ReduceErr::TooLarge { file }),
        Err(ReadErr::NoMemory) => Err(ReduceErr::NoMemory),
    }
}

/// How each group stands after the saved runs of the files of these names, in order: the first
/// record of the first one has the number 1, and that of each other one follows the last of the one
/// before it. One file is in memory at a time, and a later one isn't read before the earlier one is
/// done.
///
/// # Errors
///
/// In the order of the files, and in each of them in this order:
///
/// - `Read` where a read of the file failed, and no file before it has a problem.
/// - `TooLarge` where it has more than `max_bytes` bytes.
/// - `OtherScript` or `Malformed` where it is that of no lawful saved run of the script.
/// - `Apart` where its first record isn't the one that follows.
/// - `Gap` where a group of it has no path for how the group stands: the first such group.
///
/// `NoMemory` where an allocation failed.
pub fn reduce_files<F: Store>(
    alloc: Global,
    checked: &Checked,
    files: &mut F,
    names: &[String],
    max_bytes: u64,
) -> Result<Totals, ReduceErr>
    requires size { max_bytes ≤ limit.FILE_MAX }
    ensures reduced { let script = printed checked.now in
        let p = checked_plan checked.now in
        let names = map string_bytes names.now in
        IfOk result (ReducedAll script p max_bytes (F.holds files.old) names) }
    ensures keys { let p = checked_plan checked.now in
        IfOk result (λ totals. All (λ pair. IsKey p pair.0) totals) }
    ensures stopped { let script = printed checked.now in
        let p = checked_plan checked.now in
        let names = map string_bytes names.now in
        let before = F.faults files.old in
        let after = F.faults files.new in
        IfErr result (StopsReduce script p max_bytes (F.holds files.old) names before after) }
    ensures same { F.holds files.new ≡ F.holds files.old }
    ensures later { (other : List ℕ) → F.faults files.old other ≤ F.faults files.new other }
{
    let mut totals = Totals::new(alloc);
    let mut next = 1;
    'files: for (file, name) in names.iter().enumerate() {
        let number = file as u64;
        let bytes = read_file(alloc, files, name.as_str(), number, max_bytes)?;
        let step = take_file(alloc, checked, bytes.as_slice(), number, next, totals)?;
        let Step {
            totals: more,
            next: following,
        } = step;
        totals = more;
        next = following;
    }
    Ok(totals)
}
