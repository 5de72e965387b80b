//! Arithmetic of report expressions, over whole numbers of 128 bits.
ghost use Rattle.std.specs.Prelude.{◌≡◌, ◌≢◌, pos, neg_ℤ, int_rem};
ghost use Rattle.sym_plain.specs.Shown.{wide, wide_column, result_column, on_number, operated, negated, no_number};

use sym_base::{Column, ReportFault};
use sym_check::ArithOp;

fn held(number: i128) -> Column
    ensures { result ≡ wide number }
{
    Column::Num(number)
}

// `None` where 128 bits don't hold a result.
fn checked(number: Option<i128>) -> Column
    ensures { result ≡ wide_column number }
{
    match number {
        Some(number) => Column::Num(number),
        None => Column::Bad(ReportFault::Overflow),
    }
}

// By -1 every number leaves 0, also the least, whose quotient 128 bits don't hold.
fn remainder(x: i128, y: i128) -> i128
    requires { y ≢ pos 0 }
    ensures { result ≡ int_rem x y }
{
    if y == -1 { 0 } else { x % y }
}

// What the operator gives for two numbers.
#[tactic(auto, using(crate::proofs::Wide::exact))]
fn result_column(operator: ArithOp, x: i128, y: i128) -> Column
    ensures { result ≡ result_column operator x y }
{
    match operator {
        ArithOp::Add => checked(x.checked_add(y)),
        ArithOp::Sub => checked(x.checked_sub(y)),
        ArithOp::Mul => checked(x.checked_mul(y)),
        ArithOp::Div if y == 0 => Column::Bad(ReportFault::Zero),
        ArithOp::Div => checked(x.checked_div(y)),
        ArithOp::Rem if y == 0 => Column::Bad(ReportFault::Zero),
        ArithOp::Rem => held(remainder(x, y)),
    }
}

fn nothing_with(right: &Column) -> Column
    ensures { result ≡ on_number no_number right.now }
{
    match right {
        Column::Bad(fault) => Column::Bad(*fault),
        _ => Column::Nothing,
    }
}

fn number_with(operator: ArithOp, left: i128, right: &Column) -> Column
    ensures { result ≡ on_number (result_column operator left) right.now }
{
    match right {
        Column::Num(right) => result_column(operator, left, *right),
        Column::Bad(fault) => Column::Bad(*fault),
        _ => Column::Nothing,
    }
}

/// What the operator gives for two columns: an operand that is bad, the left one first; else
/// nothing where one is nothing.
pub(crate) fn operated(operator: ArithOp, left: &Column, right: &Column) -> Column
    ensures { result ≡ operated operator left.now right.now }
{
    match left {
        Column::Num(left) => number_with(operator, *left, right),
        Column::Bad(fault) => Column::Bad(*fault),
        _ => nothing_with(right),
    }
}

/// The opposite of a column's number.
#[tactic(auto, using(crate::proofs::Wide::exact))]
pub(crate) fn negated(operand: &Column) -> Column
    ensures { result ≡ negated operand.now }
{
    match operand {
        Column::Num(number) => checked(number.checked_neg()),
        Column::Bad(fault) => Column::Bad(*fault),
        _ => Column::Nothing,
    }
}
