//! What the expressions of a checked script stand for at a record. A name that stands for nothing,
//! or for a value of another kind, counts as 0, the empty word or the label 0. So these calls need
//! no condition; in a plan of a checked script no name does.
ghost use Rattle.std.specs.Prelude.{◌≡◌, IfOk};
ghost use Rattle.sym_check.specs.Checking.CheckedScripts.{checked_plan};
ghost use Rattle.sym_check.specs.Meaning.Conditions.{test_truth};
ghost use Rattle.sym_check.specs.Plan.FixedPlans.{num_plan, fixed_plan};
ghost use Rattle.sym_check.specs.Meaning.FixedValues.{number, fixed_value};
ghost use Rattle.sym_check.specs.Checking.KnownValues.{known_values, fixed_result};
ghost use Rattle.sym_check.specs.Plan.LinePlans.{line_plan};
ghost use Rattle.sym_check.specs.Meaning.LineValues.{pair};
ghost use Rattle.sym_check.specs.Meaning.Updates.{environment};

use crate::checked::Checked;
use crate::evaluate::arithmetic::Arith;
use crate::evaluate::fixed_value::{FixedValue, value_of};
use crate::evaluate::known::known_in;
use crate::evaluate::numbers::{number_of, pair_of};
use crate::evaluate::pairs::Pair;
use crate::evaluate::truth::answer_at;
use crate::plan::expression::{Fixed, Line, Num};
use std::alloc::Global;
use sym_base::{NoMemory, Record, Values};

/// The number of a fixed expression at a record. `locals` are those that were named so far, by
/// their numbers. `Arith` is returned exactly where a step of it leaves `-NUM_MAX` to `NUM_MAX`
/// or divides by zero. It takes no memory.
pub fn number(
    _checked: &Checked,
    expression: &Num,
    rec: &Record,
    locals: &Values,
) -> Result<i64, Arith>
    ensures { result ≡ number (environment rec.now locals.now) (num_plan expression.now) }
{
    number_of(&known_in(rec, locals), expression)
}

/// The pair of a line at a record: where its cell holds x, the line's number is `a * x + b`.
/// `Arith` is returned exactly where a step of the pair leaves `-NUM_MAX` to `NUM_MAX` or divides
/// by zero, whatever the cell holds. It takes no memory.
pub fn pair(_checked: &Checked, line: &Line, rec: &Record, locals: &Values) -> Result<Pair, Arith>
    ensures { result ≡ pair (environment rec.now locals.now) (line_plan line.now) }
{
    pair_of(&known_in(rec, locals), line)
}

/// The value of a fixed expression at a record; `FixedValue::Arith` is returned exactly where a
/// step of it leaves `-NUM_MAX` to `NUM_MAX` or divides by zero. A word is copied.
pub fn fixed(
    alloc: Global,
    _checked: &Checked,
    expression: &Fixed,
    rec: &Record,
    locals: &Values,
) -> Result<FixedValue, NoMemory>
    ensures { let k = environment rec.now locals.now in
        IfOk result (λ v. fixed_result v ≡ fixed_value k (fixed_plan expression.now)) }
{
    value_of(alloc, &known_in(rec, locals), expression)
}

/// The answer of the test with this number, counted from 0, for the parts of a hold cell and the
/// arguments: whether its body is true. A body whose arithmetic fails is false, and so is the
/// answer where no test has this number. It takes no memory.
pub fn test(checked: &Checked, id: u16, parts: &Values, args: &Values) -> bool
    ensures { result ≡ test_truth (checked_plan checked.now).tests id args.now parts.now }
{
    answer_at(&checked.plan().tests, id, parts.as_slice(), args.as_slice())
}
