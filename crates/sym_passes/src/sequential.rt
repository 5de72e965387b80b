//! The pass over all files, record by record.
ghost use Rattle.std.specs.Prelude.{◌≡◌, ◌≤◌, ℕ, List, IfOk, IfErr, length, map};
ghost use Rattle.std.specs.String.{string_bytes};
ghost use Rattle.sym_base.specs.declared.limits.TheConstants as limit;
ghost use Rattle.sym_check.specs.Checking.CheckedScripts.{checked_plan};
ghost use Rattle.sym_files.specs.FileRecords.{plain_rules};
ghost use Rattle.sym_files.specs.Options.{InRange};
ghost use Rattle.sym_passes.specs.Passed.{PassedAll};
ghost use Rattle.sym_files.specs.Passing.{StopsPass};

use crate::folded_rounds::Folded;
use std::alloc::Global;
use sym_base::Store;
use sym_check::Checked;
use sym_files::{Log, Options, PassErr, each_round_in_turn};
use sym_plain::Groups;

/// What `pass` gives, by one step of its group for each record, in order, and without runs: to
/// compare `pass` with, and to measure it beside. Its clauses are those of `pass`, and so are its
/// errors. The path limit and the workers change nothing.
pub fn sequential_pass<F: Store>(
    alloc: Global,
    checked: &Checked,
    files: &mut F,
    names: &[String],
    options: &Options,
) -> Result<Groups, PassErr>
    requires options { InRange options.now }
    requires few { length names.now ≤ limit.FILES_MAX }
    ensures passed { let p = checked_plan checked.now in
        let names = map string_bytes names.now in
        let rules = plain_rules options.now.max_bytes in
        IfOk result (λ g. PassedAll p rules (F.holds files.old) names g) }
    ensures stopped { let p = checked_plan checked.now in
        let names = map string_bytes names.now in
        let rules = plain_rules options.now.max_bytes in
        let before = F.faults files.old in
        let after = F.faults files.new in
        IfErr result (StopsPass p rules (F.holds files.old) names before after) }
    ensures same { F.holds files.new ≡ F.holds files.old }
    ensures later { (other : List ℕ) → F.faults files.old other ≤ F.faults files.new other }
{
    let mut folded = Folded::new(alloc);
    let log = Log {
        names,
        options,
        first: 1,
    };
    each_round_in_turn(alloc, checked, files, &log, &mut folded)?;
    Ok(folded.groups)
}
