//! The saved run of all files.
ghost use Rattle.std.specs.Prelude.{◌≡◌, ◌≤◌, ◌^◌, ℕ, List, IfOk, IfErr, length, map};
ghost use Rattle.std.specs.String.{string_bytes};
ghost use Rattle.sym_base.specs.declared.limits.TheConstants as limit;
ghost use Rattle.sym_check.specs.Checking.CheckedScripts.{checked_plan};
ghost use Rattle.sym_files.specs.FileRecords.{rules_of};
ghost use Rattle.sym_files.specs.Options.{InRange};
ghost use Rattle.sym_files.specs.Passing.{StopsFrom};
ghost use Rattle.sym_passes.specs.Saving.{SavedAll};
ghost use Rattle.sym_run.specs.Runs.{AreTight};
ghost use Rattle.sym_run.specs.SavedRuns.{IsLawfulSaved};

use crate::joined_rounds::SummedRounds;
use std::alloc::Global;
use std::sync::Wait;
use std::thread::Threads;
use sym_base::Store;
use sym_check::Checked;
use sym_files::{Options, PassErr, each_round};
use sym_run::Saved;
use sym_workers::Gate;

/// What the records of the files of these names, in order, do to each group, whatever its state is
/// before them: the joined runs of all rounds. Records are numbered from `first` on, over all files.
/// As in `pass`, each row but a header is read as the gate shows it.
///
/// # Errors
///
/// Those of `pass`, in the same order.
pub fn summarise<T: Threads + Wait + Sync, F: Store, G: Gate + Sync>(
    rt: &T,
    alloc: Global,
    checked: &Checked,
    files: &mut F,
    names: &[String],
    options: &Options,
    first: u64,
    gate: &G,
) -> Result<Saved, PassErr>
    requires options { InRange options.now }
    requires few { length names.now ≤ limit.FILES_MAX }
    requires some { 1 ≤ first }
    requires most { first ≤ 2 ^ 61 }
    ensures lawful { IfOk result (IsLawfulSaved (checked_plan checked.now)) }
    ensures tight { let p = checked_plan checked.now in
        IfOk result (λ saved. AreTight p options.now.limit saved.groups) }
    ensures saved { let p = checked_plan checked.now in
        let names = map string_bytes names.now in
        let rules = rules_of options.now.max_bytes (G.shown gate.now) in
        IfOk result (SavedAll p rules (F.holds files.old) names first) }
    ensures stopped { let p = checked_plan checked.now in
        let names = map string_bytes names.now in
        let rules = rules_of options.now.max_bytes (G.shown gate.now) in
        let before = F.faults files.old in
        let after = F.faults files.new in
        IfErr result (StopsFrom first p rules (F.holds files.old) names before after) }
    ensures same { F.holds files.new ≡ F.holds files.old }
    ensures later { (other : List ℕ) → F.faults files.old other ≤ F.faults files.new other }
{
    let _plan = checked.plan();
    let mut rounds = SummedRounds::new(alloc, options.workers, gate);
    let next = each_round(
        rt,
        alloc,
        checked,
        files,
        names,
        options,
        first,
        &mut rounds,
    )?;
    Ok(Saved {
        first,
        next,
        groups: rounds.groups,
    })
}
