//! Records that are kept as they are, stepped where the state before them is known.
ghost use Rattle.std.specs.Prelude.{◌≡◌, All, OnOk};
ghost use Rattle.sym_check.specs.Checking.CheckedScripts.{checked_plan};
ghost use Rattle.sym_check.specs.Meaning.Updates.{after};
ghost use Rattle.sym_check.specs.Meaning.Validity.{IsRecord, IsValidOutcome};

use crate::kept::Kept;
use std::alloc::Global;
use sym_base::{Fields, NoMemory, Outcome, Record};
use sym_check::Checked;
use sym_check::laws::plans::well_formed_plans_keep_states_valid;
use sym_plain::{Buffers, advance};

/// Memory that is used again for each kept record that is stepped.
#[derive(Drop)]
pub struct Stepper {
    rec: Record,
    buffers: Buffers,
}

impl Stepper {
    /// None of it. It takes no memory.
    pub fn new(alloc: Global) -> Stepper {
        Stepper {
            rec: Record {
                no: 0,
                fields: Fields::new(alloc),
            },
            buffers: Buffers::new(alloc),
        }
    }
}

/// Puts what kept records make of an outcome in its place: it makes their steps, in order. After an
/// `Err` the outcome is unspecified.
pub(crate) fn step_all(
    alloc: Global,
    checked: &Checked,
    kept: &Kept,
    outcome: &mut Outcome,
    stepper: &mut Stepper,
) -> Result<(), NoMemory>
    requires records { All (IsRecord (checked_plan checked.now)) kept.now }
    requires valid { IsValidOutcome (checked_plan checked.now) outcome.old }
    ensures valid { OnOk result (IsValidOutcome (checked_plan checked.now) outcome.new) }
    ensures value { OnOk result
        (outcome.new ≡ after (checked_plan checked.now) kept.now outcome.old) }
{
    well_formed_plans_keep_states_valid();
    let _plan = checked.plan();
    'records: for index in 0..kept.len() {
        kept.read(alloc, index, &mut stepper.rec)?;
        advance(alloc, checked, outcome, &stepper.rec, &mut stepper.buffers)?;
    }
    Ok(())
}
