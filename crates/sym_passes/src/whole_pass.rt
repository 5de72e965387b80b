//! The pass over all files.
ghost use Rattle.std.specs.Prelude.{◌≡◌, ◌≤◌, ℕ, List, IfOk, IfErr, length, map};
ghost use Rattle.std.specs.String.{string_bytes};
ghost use Rattle.sym_base.specs.declared.limits.TheConstants as limit;
ghost use Rattle.sym_check.specs.Checking.CheckedScripts.{checked_plan};
ghost use Rattle.sym_files.specs.FileRecords.{rules_of};
ghost use Rattle.sym_files.specs.Options.{InRange};
ghost use Rattle.sym_passes.specs.Passed.{PassedAll};
ghost use Rattle.sym_files.specs.Passing.{StopsPass};

use crate::led_rounds::PassRounds;
use std::alloc::Global;
use std::sync::Wait;
use std::thread::Threads;
use sym_base::Store;
use sym_check::Checked;
use sym_files::{Options, PassErr, each_round};
use sym_plain::Groups;
use sym_workers::Gate;

/// The groups of one sequential pass over the records of the files of these names, in order. The
/// first row of each file is its header; records are numbered from 1, over all files. One file is
/// in memory at a time, and a later one isn't read before the earlier one is done. The groups come
/// from runs: that of each round is made by the gate and applied to the groups of those before it.
/// So each row but a header is read as the gate shows it.
///
/// # Errors
///
/// In the order of the files, and in each of them in this order:
///
/// - `Read` where a read of the file failed, and no file before it has a problem.
/// - `TooLarge` where it has more than `options.max_bytes` bytes.
/// - `Head` where a field of the script has no column or two: the first such field.
/// - `Bad` where a row is no record: the first one.
///
/// `NoMemory` where an allocation failed.
pub fn pass<T: Threads + Wait + Sync, F: Store, G: Gate + Sync>(
    rt: &T,
    alloc: Global,
    checked: &Checked,
    files: &mut F,
    names: &[String],
    options: &Options,
    gate: &G,
) -> Result<Groups, PassErr>
    requires options { InRange options.now }
    requires few { length names.now ≤ limit.FILES_MAX }
    ensures passed { let p = checked_plan checked.now in
        let names = map string_bytes names.now in
        let rules = rules_of options.now.max_bytes (G.shown gate.now) in
        IfOk result (λ g. PassedAll p rules (F.holds files.old) names g) }
    ensures stopped { let p = checked_plan checked.now in
        let names = map string_bytes names.now in
        let rules = rules_of options.now.max_bytes (G.shown gate.now) in
        let before = F.faults files.old in
        let after = F.faults files.new in
        IfErr result (StopsPass p rules (F.holds files.old) names before after) }
    ensures same { F.holds files.new ≡ F.holds files.old }
    ensures later { (other : List ℕ) → F.faults files.old other ≤ F.faults files.new other }
{
    let mut rounds = PassRounds::new(alloc, options.workers, gate);
    each_round(rt, alloc, checked, files, names, options, 1, &mut rounds)?;
    Ok(rounds.groups)
}
