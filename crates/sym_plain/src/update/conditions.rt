//! The truth of conditions at a state.
ghost use Rattle.std.specs.Prelude.{◌≡◌, ◌≤◌, ◌+◌, ◌++◌, ◌∷◌, [], IsTrue, OnOk, length, map, take, Ok};
ghost use Rattle.std.specs.List.{list_all};
ghost use Rattle.sym_check.specs.Plan.CondPlans.{cond_plan};
ghost use Rattle.sym_check.specs.Meaning.Conditions.{has_fixed_body, test_truth, truth};
ghost use Rattle.sym_check.specs.Plan.FixedPlans.{fixed_plan, num_plan};
ghost use Rattle.sym_check.specs.Meaning.FixedValues.{fixed_value, fixed_values};
ghost use Rattle.sym_check.specs.Checking.KnownValues.{known_values};
ghost use Rattle.sym_check.specs.Plan.ScriptPlans.{script_plan};
ghost use Rattle.sym_check.specs.Meaning.Updates.{or_fault};
ghost use Rattle.sym_plain.specs.Running.{Gives, Makes, with_value};

use crate::slots::{put_at, put_num, put_word};
use crate::update::stop::Stop;
use crate::update::terms::term_number;
use std::alloc::Global;
use sym_base::{FaultKind, State, Value, Values};
use sym_check::{Cond, Fixed, FixedList, FixedValue, Known, Plan, answer_at, number_of, value_of};

/// The value of a fixed expression; arithmetic that fails ends the group.
#[inline(never)]
pub fn fixed_value(alloc: Global, known: &Known, expression: &Fixed) -> Result<Value, Stop>
    ensures { let k = known_values known.now in
        Gives result (or_fault (fixed_value k (fixed_plan expression.now))) }
{
    match value_of(alloc, known, expression)? {
        FixedValue::Is(value) => Ok(value),
        FixedValue::Arith => Err(Stop::Fault(FaultKind::Arith)),
    }
}

// Puts the value of an expression at this place; those before it stay.
#[inline(always)]
fn put_value(
    alloc: Global,
    known: &Known,
    expression: &Fixed,
    values: &mut Values,
    index: usize,
) -> Result<(), Stop>
    requires { index ≤ length values.old }
    ensures values { let k = known_values known.now in
        let before = take index values.old in
        let meaning = with_value k before (fixed_plan expression.now) in
        Makes result (take (index + 1) values.new) meaning }
    ensures length { OnOk result (index + 1 ≤ length values.new) }
{
    match expression {
        Fixed::Num(number) => {
            let number = number_of(known, number)?;
            put_num(values, index, number)?;
        }
        Fixed::Word(word) => put_word(alloc, values, index, known.word(word))?,
        Fixed::Label(label) => put_at(values, index, Value::Label(known.label(label)))?,
    }
    Ok(())
}

/// Makes the list that of the values of these expressions, over the memory that it has.
#[inline(always)]
pub fn set_values(
    alloc: Global,
    known: &Known,
    expressions: &FixedList,
    values: &mut Values,
) -> Result<(), Stop>
    ensures { let meaning =
        fixed_values (known_values known.now) (map fixed_plan expressions.now) in
        Makes result values.new (or_fault meaning) }
{
    'values: for (index, expression) in expressions.as_slice().iter().enumerate() {
        put_value(alloc, known, expression, values, index)?;
    }
    if expressions.len() < values.len() {
        values.truncate(expressions.len());
    }
    Ok(())
}

/// The truth of a condition at a state. `args` is memory for the arguments of tests.
pub(crate) fn truth_of(
    alloc: Global,
    plan: &Plan,
    known: &Known,
    condition: &Cond,
    state: &State,
    args: &mut Values,
) -> Result<bool, Stop>
    requires { IsTrue (list_all has_fixed_body (script_plan plan.now).tests) }
    ensures { let tests = test_truth (script_plan plan.now).tests in
        let meaning = truth tests (known_values known.now) (cond_plan condition.now) in
        Gives result (or_fault (meaning state.now)) }
{
    match condition {
        Cond::Compare(compare, term, right) => {
            let left = term_number(known, term, state)?;
            let right = number_of(known, right)?;
            Ok(compare.holds(left, right as i128))
        }
        Cond::Words(left, right) => Ok(known.word(left) == known.word(right)),
        Cond::CellIs(cell, label) => Ok(state.label_at(*cell) == known.label(label)),
        Cond::LabelIs(left, right) => Ok(known.label(left) == known.label(right)),
        Cond::Test {
            test,
            cell,
            args: expressions,
        } => {
            set_values(alloc, known, expressions, args)?;
            Ok(answer_at(&plan.tests, *test, state.parts_at(*cell), args.as_slice()))
        }
        Cond::Not(condition) => Ok(!truth_of(alloc, plan, known, condition, state, args)?),
        Cond::And(left, right) => {
            if truth_of(alloc, plan, known, left, state, args)? {
                truth_of(alloc, plan, known, right, state, args)
            } else {
                Ok(false)
            }
        }
        Cond::Or(left, right) => {
            if truth_of(alloc, plan, known, left, state, args)? {
                Ok(true)
            } else {
                truth_of(alloc, plan, known, right, state, args)
            }
        }
    }
}
