//! Tests on hold cells.
ghost use Rattle.std.specs.Prelude.{◌≡◌, ℕ, IfOk, OnOk};
ghost use Rattle.sym_check.specs.Plan.ScriptPlans.{script_plan};
ghost use Rattle.sym_check.specs.Plan.WellFormed.{IsWellFormed};
ghost use Rattle.sym_path.specs.Changing.{form_of};
ghost use Rattle.sym_explore.specs.Branches.{answered, AreFewBranches, CanSplit, Splits};
ghost use Rattle.sym_explore.specs.Calling.{IsTested, TestSuits, test_holds, WasTested, known_outcome};

use crate::branch::Branch;
use std::alloc::Global;
use sym_base::{NoMemory, Values};
use sym_check::laws::plans::well_formed_tests_are_fixed;
use sym_check::{Plan, answer_at};
use sym_path::{Form, Part, Path};
use sym_pred::{HoldForm, Literal};

/// A test that is called on a hold cell.
#[derive(Clone, Copy)]
pub(crate) struct TestCall<'a> {
    /// The number of the test.
    pub test: u16,
    /// The number of the cell.
    pub cell: u16,
    /// The arguments after the parts of the cell.
    pub args: &'a Values,
}

/// The outcome that is known of a test on the hold cell with this number.
fn known_outcome(path: &Path, cell: u16, test: u16, args: &Values) -> Option<bool>
    ensures { result ≡ known_outcome path.now cell (test, args.now) }
{
    match path.when.get(usize::from(cell)) {
        Some(Part::Facts(facts)) => facts.says(test, args),
        _ => None,
    }
}

/// A test with these arguments and an outcome.
fn literal(alloc: Global, test: u16, args: &Values, outcome: bool) -> Result<Literal, NoMemory>
    ensures { IfOk result (λ l. l ≡ record { test = test; args = args.now; outcome = outcome }) }
{
    let args = args.copy(alloc)?;
    Ok(Literal {
        test,
        args,
        outcome,
    })
}

/// Splits the path by the outcome of a test on the parts that the cell with this number held before
/// it.
fn split_test(
    alloc: Global,
    plan: &Plan,
    called: &TestCall,
    path: &mut Path,
    out: &mut Vec<Branch>,
) -> Result<bool, NoMemory>
    requires suits { TestSuits (script_plan plan.now)
        called.now.cell called.now.test called.now.args.now }
    requires split { CanSplit (script_plan plan.now) path.old out.old.items }
    ensures exact { IfOk result (WasTested (script_plan plan.now)
        called.now.cell called.now.test called.now.args.now
        path.old out.old.items path.new out.new.items) }
    ensures next { OnOk result (CanSplit (script_plan plan.now) path.new out.new.items) }
    ensures few { IfOk result (AreFewBranches (λ x. 1) out.old.items out.new.items) }
{
    let TestCall { test, cell, args } = *called;
    if let Some(outcome) = known_outcome(path, cell, test, args) {
        return Ok(outcome);
    }
    let mut copy = path.copy(alloc)?;
    copy.add_literal(plan, cell, literal(alloc, test, args, true)?)?;
    out.push(Branch {
        path: copy,
        truth: true,
    })?;
    path.add_literal(plan, cell, literal(alloc, test, args, false)?)?;
    Ok(false)
}

/// What a test on a hold cell comes to on a path.
pub(crate) enum Tested {
    /// The test's answer for known parts.
    Known(bool),
    /// The parts are those that the cell with this number held before the path.
    Held(u16),
    /// The path has ended.
    Ended,
}

/// What a test comes to on a path.
pub(crate) fn test_on(plan: &Plan, test: u16, cell: u16, args: &Values, path: &Path) -> Tested
    requires known { IsWellFormed (script_plan plan.now) }
    ensures { IsTested (script_plan plan.now) test args.now (form_of path.now.end cell) result }
{
    well_formed_tests_are_fixed();
    match path.form(cell) {
        Some(Form::Hold(HoldForm::Const(parts))) => {
            let (parts, args) = (parts.as_slice(), args.as_slice());
            Tested::Known(answer_at(&plan.tests, test, parts, args))
        }
        Some(Form::Hold(HoldForm::Copy(from))) => Tested::Held(*from),
        _ => Tested::Ended,
    }
}

/// Tells a test's answer for the parts of a hold cell and the arguments at the states of a path
/// that goes on. The path is split where the cell's parts aren't known, nor the outcome of this
/// test.
pub(crate) fn call(
    alloc: Global,
    plan: &Plan,
    called: &TestCall,
    path: &mut Path,
    out: &mut Vec<Branch>,
) -> Result<bool, NoMemory>
    requires known { IsWellFormed (script_plan plan.now) }
    requires suits { TestSuits (script_plan plan.now)
        called.now.cell called.now.test called.now.args.now }
    requires split { CanSplit (script_plan plan.now) path.old out.old.items }
    ensures exact { (n : ℕ) →
        let holds = test_holds (script_plan plan.now)
        called.now.cell called.now.test called.now.args.now in
        IfOk result (Splits (script_plan plan.now) (answered n holds)
        path.old out.old.items path.new out.new.items) }
    ensures next { OnOk result (CanSplit (script_plan plan.now) path.new out.new.items) }
    ensures few { IfOk result (AreFewBranches (λ x. 1) out.old.items out.new.items) }
{
    match test_on(plan, called.test, called.cell, called.args, path) {
        Tested::Known(answer) => Ok(answer),
        Tested::Held(from) => {
            let held = TestCall {
                test: called.test,
                cell: from,
                args: called.args,
            };
            split_test(alloc, plan, &held, path, out)
        }
        Tested::Ended => unreachable!(),
    }
}
