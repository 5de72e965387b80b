//! Values of a script's kinds, and literals that suit a hold cell.
ghost use Rattle.std.specs.Prelude.{◌≡◌, ◌↔◌, All, IsTrue};
ghost use Rattle.sym_base.specs.Limits.{IsNumber};
ghost use Rattle.sym_check.specs.Plan.ScriptPlans.{script_plan};
ghost use Rattle.sym_check.specs.Meaning.Validity.{label_count, IsOfKind, AreOfKinds};
ghost use Rattle.sym_pred.specs.Literals.{literals};
ghost use Rattle.sym_path.specs.Fitting.{Suits};
ghost use Rattle.sym_path.specs.Checking.{AreParameters};

use sym_base::{NUM_MAX, Value};
use sym_check::{EnumPlan, KindPlan, Plan};
use sym_pred::{Facts, Literal};

/// How many labels an enum has; none where there is no such enum.
pub(crate) fn label_count(enums: &[EnumPlan], of: u16) -> usize
    ensures { result ≡ label_count enums.now of }
{
    match enums.get(usize::from(of)) {
        Some(found) => found.labels.len(),
        None => 0,
    }
}

/// Whether the value is of the kind.
fn is_of_kind(enums: &[EnumPlan], kind: &KindPlan, value: &Value) -> bool
    ensures { IsTrue result ↔ IsOfKind enums.now kind.now value.now }
{
    match (kind, value) {
        (KindPlan::Num, Value::Num(x)) => -NUM_MAX <= *x && *x <= NUM_MAX,
        (KindPlan::Word, Value::Word(_)) => true,
        (KindPlan::Label(of), Value::Label(label)) => usize::from(*label) < label_count(enums, *of),
        _ => false,
    }
}

/// Whether there is one value for each kind, of this kind.
pub(crate) fn are_of_kinds(enums: &[EnumPlan], kinds: &[KindPlan], values: &[Value]) -> bool
    ensures { IsTrue result ↔ AreOfKinds enums.now kinds.now values.now }
{
    if kinds.len() != values.len() {
        return false;
    }
    'values: for index in 0..kinds.len() {
        if !is_of_kind(enums, &kinds[index], &values[index]) {
            return false;
        }
    }
    true
}

pub(crate) fn same_kinds(first: &[KindPlan], second: &[KindPlan]) -> bool
    ensures { IsTrue result ↔ (first.now ≡ second.now) }
{
    first == second
}

/// Whether the parameters are of the kinds of a hold cell's parts and then those of the values.
fn are_parameters(
    enums: &[EnumPlan],
    kinds: &[KindPlan],
    params: &[KindPlan],
    values: &[Value],
) -> bool
    ensures { IsTrue result ↔ AreParameters enums.now kinds.now params.now values.now }
{
    if params.len() < kinds.len() {
        return false;
    }
    let (first, others) = params.split_at(kinds.len());
    same_kinds(first, kinds) && are_of_kinds(enums, others, values)
}

/// Whether the literal suits a hold cell whose parts are of these kinds.
fn suits(plan: &Plan, kinds: &[KindPlan], literal: &Literal) -> bool
    ensures { IsTrue result ↔ Suits (script_plan plan.now) kinds.now literal.now }
{
    match plan.tests.get(usize::from(literal.test)) {
        Some(test) => are_parameters(
            plan.enums.as_slice(),
            kinds,
            test.params.as_slice(),
            literal.args.as_slice(),
        ),
        None => false,
    }
}

/// Whether each of the facts does.
pub(crate) fn all_suit(plan: &Plan, kinds: &[KindPlan], facts: &Facts) -> bool
    ensures { IsTrue result ↔ All (Suits (script_plan plan.now) kinds.now) (literals facts.now) }
{
    'literals: for index in 0..facts.len() {
        match facts.at(index) {
            Some(literal) => {
                if !suits(plan, kinds, literal) {
                    return false;
                }
            }
            None => {}
        }
    }
    true
}
