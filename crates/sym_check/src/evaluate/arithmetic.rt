//! Arithmetic on the numbers of a script.
ghost use Rattle.std.specs.Prelude.{◌≡◌, ◌≢◌, ◌≤◌, ◌^◌, unsigned_abs, pos, neg_ℤ, ◌+ℤ◌, ◌-ℤ◌, ◌*ℤ◌, int_div, int_rem};
ghost use Rattle.sym_check.specs.Meaning.Arithmetic.{within, calculated};

use crate::plan::expression::ArithOp;
use sym_base::NUM_MAX;

/// A step of an expression left the range of numbers or divided by zero.
#[derive(Clone, Copy, Debug, PartialEq, Eq)]
pub struct Arith;

/// The number, where it is one of a script.
pub(crate) fn within(number: i128) -> Result<i64, Arith>
    ensures { result ≡ within number }
{
    if number.unsigned_abs() <= NUM_MAX.unsigned_abs() as u128 {
        Ok(number as i64)
    } else {
        Err(Arith)
    }
}

// Of two numbers of 64 bits none of these leaves 128 bits.
pub(crate) fn negative(x: i64) -> i128
    ensures { result ≡ neg_ℤ x }
{
    -(x as i128)
}

pub(crate) fn sum(x: i64, y: i64) -> i128
    ensures { result ≡ x +ℤ y }
{
    x as i128 + y as i128
}

fn difference(x: i64, y: i64) -> i128
    ensures { result ≡ x -ℤ y }
{
    x as i128 - y as i128
}

/// The product, which 128 bits hold.
#[inline(always)]
pub fn product(x: i64, y: i64) -> i128
    ensures value { result ≡ x *ℤ y }
    ensures size { unsigned_abs result ≤ 2 ^ 126 }
{
    x as i128 * y as i128
}

fn quotient(x: i64, y: i64) -> i128
    requires { y ≢ pos 0 }
    ensures { result ≡ int_div x y }
{
    x as i128 / y as i128
}

fn remainder(x: i64, y: i64) -> i128
    requires { y ≢ pos 0 }
    ensures { result ≡ int_rem x y }
{
    x as i128 % y as i128
}

/// What the operator gives for two numbers.
pub(crate) fn calculated(operator: ArithOp, x: i64, y: i64) -> Result<i64, Arith>
    ensures { result ≡ calculated operator x y }
{
    match operator {
        ArithOp::Add => within(sum(x, y)),
        ArithOp::Sub => within(difference(x, y)),
        ArithOp::Mul => within(product(x, y)),
        ArithOp::Div if y == 0 => Err(Arith),
        ArithOp::Div => within(quotient(x, y)),
        ArithOp::Rem if y == 0 => Err(Arith),
        ArithOp::Rem => within(remainder(x, y)),
    }
}
