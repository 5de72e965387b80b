//! Numbers of fixed expressions, and the pairs of lines.
ghost use Rattle.std.specs.Prelude.{◌≡◌, neg_ℤ, ◌+ℤ◌, ◌*ℤ◌, IfSome, Ok};
ghost use Rattle.sym_check.specs.Meaning.Arithmetic.{within};
ghost use Rattle.sym_check.specs.Plan.FixedPlans.{num_plan};
ghost use Rattle.sym_check.specs.Meaning.FixedValues.{number};
ghost use Rattle.sym_check.specs.Checking.KnownValues.{known_values};
ghost use Rattle.sym_check.specs.Plan.LinePlans.{line_plan};
ghost use Rattle.sym_check.specs.Meaning.LineValues.{pair, pair_within};

use crate::evaluate::arithmetic::{Arith, calculated, negative, product, sum, within};
use crate::evaluate::known::Known;
use crate::evaluate::pairs::Pair;
use crate::plan::expression::{Line, Num};

// The number of an expression without an operator.
#[inline(always)]
fn plain_number(known: &Known, expression: &Num) -> Option<i64>
    ensures { let meaning = number (known_values known.now) (num_plan expression.now) in
        IfSome result (λ x. meaning ≡ Ok x) }
{
    match expression {
        Num::Lit(number) => Some(*number),
        Num::Field(field) => Some(known.field_number(*field)),
        Num::Local(local) => Some(known.local_number(*local)),
        Num::Param(param) => Some(known.param_number(*param)),
        Num::Neg(_) | Num::Bin(..) => None,
    }
}

// The number of any expression. An operand without an operator is read without a call.
fn computed_number(known: &Known, expression: &Num) -> Result<i64, Arith>
    ensures { result ≡ number (known_values known.now) (num_plan expression.now) }
{
    match expression {
        Num::Lit(number) => Ok(*number),
        Num::Field(field) => Ok(known.field_number(*field)),
        Num::Local(local) => Ok(known.local_number(*local)),
        Num::Param(param) => Ok(known.param_number(*param)),
        Num::Neg(operand) => {
            let operand = computed_number(known, operand)?;
            within(negative(operand))
        }
        Num::Bin(operator, left, right) => {
            let left = match plain_number(known, left) {
                Some(number) => number,
                None => computed_number(known, left)?,
            };
            let right = match plain_number(known, right) {
                Some(number) => number,
                None => computed_number(known, right)?,
            };
            calculated(*operator, left, right)
        }
    }
}

/// The number of a fixed expression. `Arith` is returned exactly where a step of it leaves
/// `-NUM_MAX` to `NUM_MAX` or divides by zero. It takes no memory.
#[inline(always)]
pub fn number_of(known: &Known, expression: &Num) -> Result<i64, Arith>
    ensures { result ≡ number (known_values known.now) (num_plan expression.now) }
{
    match plain_number(known, expression) {
        Some(number) => Ok(number),
        None => computed_number(known, expression),
    }
}

fn negated(pair: &Pair) -> Result<Pair, Arith>
    ensures { result ≡ pair_within pair.now.cell (neg_ℤ pair.now.a) (neg_ℤ pair.now.b) }
{
    let a = within(negative(pair.a))?;
    let b = within(negative(pair.b))?;
    Ok(Pair {
        cell: pair.cell,
        a,
        b,
    })
}

fn raised(pair: &Pair, by: i64) -> Result<Pair, Arith>
    ensures { result ≡ pair_within pair.now.cell pair.now.a (pair.now.b +ℤ by) }
{
    let a = within(pair.a as i128)?;
    let b = within(sum(pair.b, by))?;
    Ok(Pair {
        cell: pair.cell,
        a,
        b,
    })
}

fn scaled(pair: &Pair, by: i64) -> Result<Pair, Arith>
    ensures { result ≡ pair_within pair.now.cell (by *ℤ pair.now.a) (by *ℤ pair.now.b) }
{
    let a = within(product(by, pair.a))?;
    let b = within(product(by, pair.b))?;
    Ok(Pair {
        cell: pair.cell,
        a,
        b,
    })
}

// The pair of any line.
fn computed_pair(known: &Known, line: &Line) -> Result<Pair, Arith>
    ensures { result ≡ pair (known_values known.now) (line_plan line.now) }
{
    match line {
        Line::Cell(cell) => Ok(Pair {
            cell: *cell,
            a: 1,
            b: 0,
        }),
        Line::Neg(line) => {
            let pair = computed_pair(known, line)?;
            negated(&pair)
        }
        Line::Add(line, number) => {
            let by = number_of(known, number)?;
            let pair = match &**line {
                Line::Cell(cell) => Pair {
                    cell: *cell,
                    a: 1,
                    b: 0,
                },
                _ => computed_pair(known, line)?,
            };
            raised(&pair, by)
        }
        Line::Scale(number, line) => {
            let by = number_of(known, number)?;
            let pair = computed_pair(known, line)?;
            scaled(&pair, by)
        }
    }
}

/// The pair of a line: where its cell holds x, the line's number is `a * x + b`. `Arith` is
/// returned exactly where a step of the pair leaves `-NUM_MAX` to `NUM_MAX` or divides by zero. It
/// takes no memory.
#[inline(always)]
pub fn pair_of(known: &Known, line: &Line) -> Result<Pair, Arith>
    ensures { result ≡ pair (known_values known.now) (line_plan line.now) }
{
    match line {
        Line::Cell(cell) => Ok(Pair {
            cell: *cell,
            a: 1,
            b: 0,
        }),
        Line::Neg(_) | Line::Add(..) | Line::Scale(..) => computed_pair(known, line),
    }
}
