//! One record's step of a group.
ghost use Rattle.std.specs.Prelude.{◌≡◌, [], IsTrue, IfOk, OnOk};
ghost use Rattle.std.specs.List.{list_all};
ghost use Rattle.sym_base.specs.declared.values.state.Outcome.TheVariants.{Going};
ghost use Rattle.sym_check.specs.Meaning.Conditions.{has_fixed_body};
ghost use Rattle.sym_check.specs.Plan.DoPlans.{dos_plan};
ghost use Rattle.sym_check.specs.Plan.ScriptPlans.{script_plan};
ghost use Rattle.sym_check.specs.Meaning.Updates.{environment, dos_step, step};
ghost use Rattle.sym_plain.specs.Running.{ComesTo};

use crate::update::buffers::Buffers;
use crate::update::statements::run_all;
use crate::update::stop::Stop;
use std::alloc::Global;
use sym_base::{Fault, FaultKind, NoMemory, Outcome, Record, State};
use sym_check::Plan;

// Runs the update on a state where it lies, and gives the fault that ends the group, if there is
// one.
fn update(
    alloc: Global,
    plan: &Plan,
    state: &mut State,
    rec: &Record,
    buffers: &mut Buffers,
) -> Result<Option<FaultKind>, NoMemory>
    requires { IsTrue (list_all has_fixed_body (script_plan plan.now).tests) }
    ensures { let p = script_plan plan.now in
        IfOk result (λ kind.
        ComesTo kind state.new (dos_step p (environment rec.now []) p.update state.old)) }
{
    if !buffers.locals.is_empty() {
        buffers.locals.truncate(0);
    }
    match run_all(alloc, plan, rec, &plan.update, buffers, state) {
        Ok(()) => Ok(None),
        Err(Stop::Fault(kind)) => Ok(Some(kind)),
        Err(Stop::NoMemory) => Err(NoMemory),
    }
}

/// Makes the group's next step, on its state where it lies. A group that has ended stays as it is.
/// After an `Err` the outcome may be any.
#[inline(always)]
pub(crate) fn advance(
    alloc: Global,
    plan: &Plan,
    outcome: &mut Outcome,
    rec: &Record,
    buffers: &mut Buffers,
) -> Result<(), NoMemory>
    requires { IsTrue (list_all has_fixed_body (script_plan plan.now).tests) }
    ensures { OnOk result (outcome.new ≡ step (script_plan plan.now) outcome.old rec.now) }
{
    match outcome {
        Outcome::Going(state) => {
            if let Some(kind) = update(alloc, plan, state, rec, buffers)? {
                *outcome = Outcome::Ended(Fault { kind, no: rec.no });
            }
        }
        Outcome::Ended(_) => {}
    }
    Ok(())
}

/// The step that a group with this state makes at a record.
pub(crate) fn step_of(
    alloc: Global,
    plan: &Plan,
    state: State,
    rec: &Record,
) -> Result<Outcome, NoMemory>
    requires { IsTrue (list_all has_fixed_body (script_plan plan.now).tests) }
    ensures { IfOk result (λ o. o ≡ step (script_plan plan.now) (Going state) rec.now) }
{
    let mut outcome = Outcome::Going(state);
    advance(alloc, plan, &mut outcome, rec, &mut Buffers::new(alloc))?;
    Ok(outcome)
}
