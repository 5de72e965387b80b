//! Whether one path can come after another.
ghost use Rattle.std.specs.Prelude.{◌≡◌, ◌<◌, ◌≤◌, ◌+◌, ◌^◌, ◌↔◌, IsTrue, length};
ghost use Rattle.std.specs.List.{list_all};
ghost use Rattle.sym_check.specs.Checking.CheckedScripts.{checked_plan};
ghost use Rattle.sym_check.specs.Meaning.Conditions.{has_fixed_body, test_truth};
ghost use Rattle.sym_check.specs.Plan.ScriptPlans.{script_plan};
ghost use Rattle.sym_check.specs.Plan.WellFormed.{IsWellFormed};
ghost use Rattle.sym_path.specs.Fitting.{PathFits};
ghost use Rattle.sym_path.specs.Possible.{IsLeft, AllLeft, Possible, IsPossiblePair};

use crate::form::Form;
use crate::part::Part;
use crate::path::{Path, PathEnd};
use crate::preimages::{all_agree, constants_meet, labels_left, needs_agree, numbers_left};
use sym_check::laws::plans::well_formed_tests_are_fixed;
use sym_check::{Checked, Plan};

/// Whether something is left of a cell.
fn is_left(cell: u16, part: &Part, forms: &[Form], needs: &[Part]) -> bool
    requires { length forms.now ≡ length needs.now }
    ensures { IsTrue result ↔ IsLeft forms.now needs.now cell part.now }
{
    match part {
        Part::Set(set) => !labels_left(cell, *set, forms, needs).is_empty(),
        Part::Span(span) => numbers_left(cell, span, forms, needs).is_some(),
        Part::Facts(facts) => {
            all_agree(cell, facts, forms, needs) && needs_agree(cell, forms, needs)
        }
        Part::Free => true,
    }
}

/// Whether something is left of each cell.
fn all_left(when: &[Part], forms: &[Form], needs: &[Part]) -> bool
    requires lengths { length forms.now ≡ length needs.now }
    requires few { length when.now ≤ 2 ^ 16 }
    ensures { IsTrue result ↔ AllLeft when.now forms.now needs.now }
{
    'cells: for index in 0..when.len() {
        if !is_left(index as u16, &when[index], forms, needs) {
            return false;
        }
    }
    true
}

/// Whether a path can come after another one, whose constraint and forms these are.
fn can_follow(plan: &Plan, when: &[Part], forms: &[Form], needs: &[Part]) -> bool
    requires fixed { IsTrue (list_all has_fixed_body (script_plan plan.now).tests) }
    requires lengths { length forms.now ≡ length needs.now }
    requires few { length when.now ≤ 2 ^ 16 }
    ensures { IsTrue result ↔
        Possible (test_truth (script_plan plan.now).tests) when.now forms.now needs.now }
{
    constants_meet(plan, forms, needs) && all_left(when, forms, needs)
}

/// Whether the second path can come after the first: what the first one's constraint says, and
/// what the second one's says of the values that the first one gives, has no empty set, no empty
/// span and no literal against itself, and constants are as they are needed. After a fault no path
/// comes. It takes no memory.
pub fn possible(checked: &Checked, p: &Path, q: &Path) -> bool
    requires first { PathFits (checked_plan checked.now) p.now }
    requires second { PathFits (checked_plan checked.now) q.now }
    ensures { IsTrue result ↔
        IsPossiblePair (test_truth (checked_plan checked.now).tests) p.now q.now }
{
    possible_by(checked.plan(), p, q)
}

/// The same by a plan alone.
pub(crate) fn possible_by(plan: &Plan, p: &Path, q: &Path) -> bool
    requires known { IsWellFormed (script_plan plan.now) }
    requires first { PathFits (script_plan plan.now) p.now }
    requires second { PathFits (script_plan plan.now) q.now }
    ensures { IsTrue result ↔
        IsPossiblePair (test_truth (script_plan plan.now).tests) p.now q.now }
{
    well_formed_tests_are_fixed();
    match &p.end {
        PathEnd::Next(forms) => {
            can_follow(plan, p.when.as_slice(), forms.as_slice(), q.when.as_slice())
        }
        PathEnd::Ended(_) => false,
    }
}
