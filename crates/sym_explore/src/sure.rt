//! What is known after a path whose cells don't depend on the state before it.
ghost use Rattle.std.specs.Prelude.{◌≡◌, ◌≤◌, ℕ, IsTrue, Ok, unsigned_abs};
ghost use Rattle.std.specs.List.{All};
ghost use Rattle.sym_base.specs.Limits.{IsNumber};
ghost use Rattle.sym_base.specs.States.{label_at, number_at};
ghost use Rattle.sym_base.specs.declared.values.state.State.{State as OneState};
ghost use Rattle.sym_check.specs.Checking.KnownValues.{known_values};
ghost use Rattle.sym_check.specs.Meaning.Conditions.{test_truth, truth};
ghost use Rattle.sym_check.specs.Meaning.LineValues.{pair_at};
ghost use Rattle.sym_check.specs.Meaning.Updates.{or_fault};
ghost use Rattle.sym_check.specs.Plan.CellKinds.{IsEnumCell, IsIntCell};
ghost use Rattle.sym_check.specs.Plan.CondPlans.{cond_plan};
ghost use Rattle.sym_check.specs.Plan.ScriptPlans.{script_plan};
ghost use Rattle.sym_check.specs.Plan.WellFormed.{IsWellFormed};
ghost use Rattle.sym_int.specs.Bounds.{wide_max};
ghost use Rattle.sym_path.specs.declared.path.Path.{Path as OnePath};
ghost use Rattle.sym_plain.specs.Running.{Gives};
ghost use Rattle.sym_explore.specs.Calling.{TestSuits, test_holds};
ghost use Rattle.sym_explore.specs.Evaluating.{CellConditionFits, IsUnconnected, holds_at};
ghost use Rattle.sym_explore.specs.Knowing.{CondIsKnown};
ghost use Rattle.sym_explore.specs.Sure.{HoldsAfter, IsSure, IsSureEnd, IsSurePath};
ghost use Rattle.sym_explore.specs.Terms.{ReadyFits, ready_number};

use crate::conditions::evaluate;
use crate::hold_tests::{Tested, test_on};
use crate::labels::label_form;
use crate::parted_lists::{CellCondition, Evaluated};
use crate::terms::{Ready, number_form};
use std::alloc::Global;
use sym_base::{FaultKind, Values};
use sym_check::{Cond, Known, Pair, Plan, product};
use sym_enum::EnumForm;
use sym_int::IntForm;
use sym_path::{Form, Path, PathEnd};
use sym_plain::Stop;
use sym_pred::HoldForm;

/// Whether the form is a constant, or that of a list.
fn is_sure(form: &Form) -> bool
    ensures { IsTrue result → IsSure form.now }
{
    match form {
        Form::Enum(EnumForm::Const(_)) => true,
        Form::Int(IntForm::Const(_)) => true,
        Form::Hold(HoldForm::Const(_)) => true,
        Form::Nums(_) | Form::Words(_) => true,
        _ => false,
    }
}

fn are_sure(forms: &[Form]) -> bool
    ensures { IsTrue result → All IsSure forms.now }
{
    'cells: for form in forms {
        if !is_sure(form) {
            return false;
        }
    }
    true
}

/// Whether the path has ended, or its cells are known.
fn ends_sure(path: &Path) -> bool
    ensures { IsTrue result → IsSureEnd path.now.end }
{
    match &path.end {
        PathEnd::Next(forms) => are_sure(forms.as_slice()),
        PathEnd::Ended(_) => true,
    }
}

/// Whether this is so of the last path, if there is one.
fn last_ends_sure(paths: &[Path]) -> bool {
    match paths.last() {
        Some(path) => ends_sure(path),
        None => true,
    }
}

/// Whether this is so of all of the paths. Those that go on mostly stand last, so the last one is
/// looked at first.
pub(crate) fn all_end_sure(paths: &[Path]) -> bool
    ensures { IsTrue result → All (λ (path : OnePath). IsSureEnd path.end) paths.now }
{
    if !last_ends_sure(paths) {
        return false;
    }
    'paths: for path in paths {
        if !ends_sure(path) {
            return false;
        }
    }
    true
}

/// The number of the integer cell after the path.
fn number_on(_plan: &Plan, cell: u16, path: &Path) -> i64
    requires cell { IsIntCell (script_plan _plan.now).cells cell }
    requires sure { IsSurePath (script_plan _plan.now) path.now }
    ensures value { HoldsAfter (script_plan _plan.now) path.now (λ s. number_at s cell ≡ result) }
    ensures small { IsNumber result }
{
    match number_form(path, cell) {
        Some(IntForm::Const(number)) => number.value,
        Some(IntForm::Line(_)) => unreachable!(),
        None => unreachable!(),
    }
}

// No such number leaves 128 bits.
fn line_at(pair: &Pair, number: i64) -> i128
    ensures { result ≡ pair_at pair.now number }
{
    product(pair.a, number) + pair.b as i128
}

/// The number of a ready term after the path.
pub(crate) fn term_on(_plan: &Plan, ready: &Ready, path: &Path) -> i128
    requires ready { ReadyFits (script_plan _plan.now) ready.now }
    requires sure { IsSurePath (script_plan _plan.now) path.now }
    ensures value { HoldsAfter (script_plan _plan.now) path.now
        (λ s. ready_number ready.now s ≡ result) }
    ensures small { unsigned_abs result ≤ wide_max }
{
    match ready {
        Ready::Number(number) => i128::from(*number),
        Ready::Line(pair) => line_at(pair, number_on(_plan, pair.cell, path)),
    }
}

/// The label of the enum cell after the path.
fn label_on(_plan: &Plan, cell: u16, path: &Path) -> u8
    requires cell { (of : ℕ) × IsEnumCell (script_plan _plan.now).cells cell of }
    requires sure { IsSurePath (script_plan _plan.now) path.now }
    ensures { HoldsAfter (script_plan _plan.now) path.now (λ s. label_at s cell ≡ result) }
{
    match label_form(path, cell) {
        Some(EnumForm::Const(label)) => label,
        Some(EnumForm::Copy(_)) => unreachable!(),
        None => unreachable!(),
    }
}

/// The answer of a test for the parts of the hold cell after the path.
fn answer_on(plan: &Plan, test: u16, cell: u16, args: &Values, path: &Path) -> bool
    requires known { IsWellFormed (script_plan plan.now) }
    requires suits { TestSuits (script_plan plan.now) cell test args.now }
    requires sure { IsSurePath (script_plan plan.now) path.now }
    ensures { HoldsAfter (script_plan plan.now) path.now
        (λ s. test_holds (script_plan plan.now) cell test args.now s ≡ Ok result) }
{
    match test_on(plan, test, cell, args, path) {
        Tested::Known(answer) => answer,
        Tested::Held(_) => unreachable!(),
        Tested::Ended => unreachable!(),
    }
}

/// Whether a condition on a cell holds after the path.
fn holds_on(plan: &Plan, condition: &CellCondition, args: &Values, path: &Path) -> bool
    requires known { IsWellFormed (script_plan plan.now) }
    requires condition { CellConditionFits (script_plan plan.now) args.now condition.now }
    requires sure { IsSurePath (script_plan plan.now) path.now }
    ensures { HoldsAfter (script_plan plan.now) path.now
        (λ s. holds_at (script_plan plan.now) args.now condition.now s ≡ result) }
{
    match condition {
        CellCondition::Compare(ready, bound) => {
            let left = term_on(plan, ready, path);
            bound.compare.holds(left, i128::from(bound.number))
        }
        CellCondition::Label(cell, label) => label_on(plan, *cell, path) == *label,
        CellCondition::Call(test, cell) => answer_on(plan, *test, *cell, args, path),
    }
}

/// The truth of a condition without `not`, `and` and `or` after the path.
fn single_truth_on(
    alloc: Global,
    plan: &Plan,
    known: &Known,
    condition: &Cond,
    args: &mut Values,
    path: &Path,
) -> Result<bool, Stop>
    requires known { IsWellFormed (script_plan plan.now) }
    requires cond { CondIsKnown (script_plan plan.now) (known_values known.now)
        (cond_plan condition.now) }
    requires single { IsUnconnected (cond_plan condition.now) }
    requires sure { IsSurePath (script_plan plan.now) path.now }
    ensures { let tests = test_truth (script_plan plan.now).tests in
        let meaning = truth tests (known_values known.now) (cond_plan condition.now) in
        HoldsAfter (script_plan plan.now) path.now (λ s. Gives result (or_fault (meaning s))) }
{
    match evaluate(alloc, plan, known, condition, args)? {
        Evaluated::Known(truth) => Ok(truth),
        Evaluated::Failed => Err(Stop::Fault(FaultKind::Arith)),
        Evaluated::Open(condition) => Ok(holds_on(plan, &condition, args, path)),
    }
}

/// The truth of a condition after the path. `args` is memory for the arguments of tests.
pub(crate) fn truth_on(
    alloc: Global,
    plan: &Plan,
    known: &Known,
    condition: &Cond,
    args: &mut Values,
    path: &Path,
) -> Result<bool, Stop>
    requires known { IsWellFormed (script_plan plan.now) }
    requires cond { CondIsKnown (script_plan plan.now) (known_values known.now)
        (cond_plan condition.now) }
    requires sure { IsSurePath (script_plan plan.now) path.now }
    ensures { let tests = test_truth (script_plan plan.now).tests in
        let meaning = truth tests (known_values known.now) (cond_plan condition.now) in
        HoldsAfter (script_plan plan.now) path.now (λ s. Gives result (or_fault (meaning s))) }
{
    match condition {
        Cond::Not(condition) => Ok(!truth_on(alloc, plan, known, condition, args, path)?),
        Cond::And(left, right) => {
            if truth_on(alloc, plan, known, left, args, path)? {
                truth_on(alloc, plan, known, right, args, path)
            } else {
                Ok(false)
            }
        }
        Cond::Or(left, right) => {
            if truth_on(alloc, plan, known, left, args, path)? {
                Ok(true)
            } else {
                truth_on(alloc, plan, known, right, args, path)
            }
        }
        _ => single_truth_on(alloc, plan, known, condition, args, path),
    }
}
