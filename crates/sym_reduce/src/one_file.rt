//! Taking one file of a saved run.
ghost use Rattle.std.specs.Prelude.{◌≤◌, IfOk, length};
ghost use Rattle.sym_base.specs.declared.limits.TheConstants as limit;
ghost use Rattle.sym_check.specs.Checking.CheckedScripts.{checked_plan};
ghost use Rattle.sym_file.specs.SavedTexts.{printed};
ghost use Rattle.sym_reduce.specs.Reducing.{TakesFile};
ghost use Rattle.sym_run.specs.Applying.{AreValid};

use crate::error::ReduceErr;
use std::alloc::Global;
use sym_check::Checked;
use sym_file::{SavedErr, TakenText, Totals};

/// The totals after a file, and the number of the record that follows.
#[derive(Drop)]
pub(crate) struct Step {
    pub(crate) totals: Totals,
    pub(crate) next: u64,
}

/// Takes the saved run of a file, whose number is `file` and whose first record must have the number
/// `next`.
pub(crate) fn take_file(
    alloc: Global,
    checked: &Checked,
    bytes: &[u8],
    file: u64,
    next: u64,
    totals: Totals,
) -> Result<Step, ReduceErr>
    requires size { length bytes.now ≤ limit.FILE_MAX }
    requires valid { AreValid (checked_plan checked.now) totals }
    ensures takes { let p = checked_plan checked.now in
        TakesFile (printed checked.now) p next file totals bytes.now result }
    ensures valid { IfOk result (λ step. AreValid (checked_plan checked.now) step.totals) }
{
    match totals.take_text(alloc, checked, bytes, next) {
        Ok(TakenText::Done { totals, next }) => Ok(Step { totals, next }),
        Ok(TakenText::Apart) => Err(ReduceErr::Apart { file }),
        Ok(TakenText::Gap { group }) => Err(ReduceErr::Gap {
            file,
            group: group + 1,
        }),
        Err(SavedErr::OtherScript) => Err(ReduceErr::OtherScript { file }),
        Err(SavedErr::Malformed) => Err(ReduceErr::Malformed { file }),
        Err(SavedErr::NoMemory) => Err(ReduceErr::NoMemory),
    }
}
