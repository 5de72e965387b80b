//! The answers of tests.
ghost use Rattle.std.specs.Prelude.{◌≡◌, Some, IsTrue, map};
ghost use Rattle.std.specs.List.{list_all};
ghost use Rattle.sym_check.specs.Plan.CondPlans.{cond_plan};
ghost use Rattle.sym_check.specs.Meaning.Conditions.{no_test, no_cells, truth, is_fixed, has_fixed_body, test_truth, answer};
ghost use Rattle.sym_check.specs.Meaning.FixedValues.{number};
ghost use Rattle.sym_check.specs.Checking.KnownValues.{known_values};
ghost use Rattle.sym_check.specs.Plan.LinePlans.{term_plan};
ghost use Rattle.sym_check.specs.Meaning.LineValues.{term_number};
ghost use Rattle.sym_check.specs.Plan.ScriptPlans.{test_plan};

use crate::evaluate::arithmetic::Arith;
use crate::evaluate::known::Known;
use crate::evaluate::numbers::number_of;
use crate::plan::condition::Cond;
use crate::plan::expression::{Num, Term};
use crate::plan::script::{TestPlan, TestPlans};
use sym_base::Value;

/// The truth of a condition that names no cell and calls no test.
pub(crate) fn truth_of(known: &Known, condition: &Cond) -> Result<bool, Arith>
    requires { IsTrue (is_fixed (cond_plan condition.now)) }
    ensures { result ≡ truth no_test (known_values known.now) (cond_plan condition.now) no_cells }
{
    match condition {
        Cond::Compare(compare, Term::Fixed(left), right) => {
            let left = number_of(known, left)?;
            let right = number_of(known, right)?;
            Ok(compare.holds(i128::from(left), i128::from(right)))
        }
        Cond::Words(left, right) => Ok(known.word(left) == known.word(right)),
        Cond::LabelIs(left, right) => Ok(known.label(left) == known.label(right)),
        Cond::Not(condition) => Ok(!truth_of(known, condition)?),
        Cond::And(left, right) => {
            if truth_of(known, left)? {
                truth_of(known, right)
            } else {
                Ok(false)
            }
        }
        Cond::Or(left, right) => {
            if truth_of(known, left)? {
                Ok(true)
            } else {
                truth_of(known, right)
            }
        }
        Cond::Compare(_, Term::Line(_), _) | Cond::CellIs(..) | Cond::Test { .. } => unreachable!(),
    }
}

/// The answer of a test; false where its arithmetic fails.
#[inline(always)]
pub(crate) fn answer_of(test: &TestPlan, parts: &[Value], args: &[Value]) -> bool
    requires { IsTrue (has_fixed_body (test_plan test.now)) }
    ensures { result ≡ answer (Some (test_plan test.now)) args.now parts.now }
{
    let known = Known {
        fields: &[],
        locals: &[],
        parts,
        args,
    };
    match truth_of(&known, &test.body) {
        Ok(truth) => truth,
        Err(_) => false,
    }
}

/// The answer of the test with this number, counted from 0, for the parts of a hold cell and the
/// arguments; false where there is none, and where its arithmetic fails. It takes no memory.
#[tactic(auto, using(crate::proofs::TestAnswers::found_body, crate::proofs::TestAnswers::found_answer))]
pub fn answer_at(tests: &TestPlans, test: u16, parts: &[Value], args: &[Value]) -> bool
    requires { IsTrue (list_all has_fixed_body (map test_plan tests.now)) }
    ensures { result ≡ test_truth (map test_plan tests.now) test args.now parts.now }
{
    match tests.get(usize::from(test)) {
        Some(test) => answer_of(test, parts, args),
        None => false,
    }
}
