//! Whether a path is for a state.
ghost use Rattle.std.specs.Prelude.{◌≡◌, ◌↔◌, IsTrue};
ghost use Rattle.std.specs.List.{list_all};
ghost use Rattle.sym_check.specs.Checking.CheckedScripts.{checked_plan};
ghost use Rattle.sym_check.specs.Meaning.Conditions.{has_fixed_body, test_truth};
ghost use Rattle.sym_check.specs.Plan.ScriptPlans.{script_plan};
ghost use Rattle.sym_check.specs.Plan.WellFormed.{IsWellFormed};
ghost use Rattle.sym_pred.specs.Literals.{literals};
ghost use Rattle.sym_path.specs.Admitting.{Admits, admits, gives_outcome, part_admits};

use crate::part::Part;
use crate::path::Path;
use sym_base::{Cell, State, Values};
use sym_check::laws::plans::well_formed_tests_are_fixed;
use sym_check::{Checked, Plan, answer_at};
use sym_pred::{Facts, Literal};

/// Whether the parts of a hold cell give the literal's outcome.
fn gives(plan: &Plan, parts: &Values, literal: &Literal) -> bool
    requires { IsTrue (list_all has_fixed_body (script_plan plan.now).tests) }
    ensures { result ≡
        gives_outcome (test_truth (script_plan plan.now).tests) parts.now literal.now }
{
    let args = literal.args.as_slice();
    let answer = answer_at(&plan.tests, literal.test, parts.as_slice(), args);
    if literal.outcome { answer } else { !answer }
}

/// Whether the parts of a hold cell give each literal's outcome.
pub(crate) fn give_all(plan: &Plan, parts: &Values, facts: &Facts) -> bool
    requires { IsTrue (list_all has_fixed_body (script_plan plan.now).tests) }
    ensures { result ≡
        list_all (gives_outcome (test_truth (script_plan plan.now).tests) parts.now)
        (literals facts.now) }
{
    'literals: for index in 0..facts.len() {
        match facts.at(index) {
            Some(literal) => {
                if !gives(plan, parts, literal) {
                    return false;
                }
            }
            None => {}
        }
    }
    true
}

impl Part {
    /// Whether a cell is as the part says.
    pub(crate) fn admits(&self, plan: &Plan, cell: &Cell) -> bool
        requires { IsTrue (list_all has_fixed_body (script_plan plan.now).tests) }
        ensures { result ≡
            part_admits (test_truth (script_plan plan.now).tests) self.now cell.now }
    {
        match (self, cell) {
            (Part::Set(set), Cell::Enum(label)) => set.has(*label),
            (Part::Span(span), Cell::Int(number)) => span.has(*number),
            (Part::Facts(facts), Cell::Hold(parts)) => give_all(plan, parts, facts),
            (Part::Free, Cell::Nums(_)) => true,
            (Part::Free, Cell::Words(_)) => true,
            _ => false,
        }
    }
}

/// Whether each cell is as its part says.
fn admit_all(plan: &Plan, when: &[Part], cells: &[Cell]) -> bool
    requires { IsTrue (list_all has_fixed_body (script_plan plan.now).tests) }
    ensures { result ≡
        admits (test_truth (script_plan plan.now).tests) when.now cells.now }
{
    if when.len() != cells.len() {
        return false;
    }
    'cells: for index in 0..when.len() {
        if !when[index].admits(plan, &cells[index]) {
            return false;
        }
    }
    true
}

impl Path {
    /// Whether the path is for the state: each enum cell is in its set, each integer cell in its
    /// span, and each hold cell gives each literal's outcome. It takes no memory.
    pub fn admits(&self, checked: &Checked, state: &State) -> bool
        ensures exact { IsTrue result ↔
            Admits (test_truth (checked_plan checked.now).tests) self.now.when state.now }
        ensures computed { result ≡ admits (test_truth (checked_plan checked.now).tests)
            self.now.when state.now.cells }
    {
        self.admits_by(checked.plan(), state)
    }

    /// The same by a plan alone.
    pub(crate) fn admits_by(&self, plan: &Plan, state: &State) -> bool
        requires { IsWellFormed (script_plan plan.now) }
        ensures exact { IsTrue result ↔
            Admits (test_truth (script_plan plan.now).tests) self.now.when state.now }
        ensures computed { result ≡
            admits (test_truth (script_plan plan.now).tests) self.now.when state.now.cells }
    {
        well_formed_tests_are_fixed();
        admit_all(plan, self.when.as_slice(), state.cells.as_slice())
    }
}
