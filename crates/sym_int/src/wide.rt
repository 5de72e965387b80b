//! Forms over products, which can be larger than the numbers of a script, and the same forms on a
//! span on which they aren't.
ghost use Rattle.std.specs.Prelude.{◌≢◌, ◌≤◌, pos, unsigned_abs};
ghost use Rattle.sym_int.specs.Bounds.{wide_slope_max, wide_max};

use crate::form::{IntForm, Line, Number};
use crate::span::Span;

/// A constant of at most 5 * 10^36 in size.
#[derive(Clone, Copy, PartialEq, Eq)]
pub struct WideNumber {
    pub value: i128,
    pub ghost value_in: { unsigned_abs value ≤ wide_max },
}

/// `a * x + b` for the number x of the cell with this number. `a` isn't 0 and is at most
/// 4 * 10^24 in size, and `b` at most 5 * 10^36.
#[derive(Clone, Copy, PartialEq, Eq)]
pub struct WideLine {
    pub cell: u16,
    pub a: i128,
    pub b: i128,
    pub ghost rises_or_falls: { a ≢ pos 0 },
    pub ghost a_in: { unsigned_abs a ≤ wide_slope_max },
    pub ghost b_in: { unsigned_abs b ≤ wide_max },
}

/// A form before it is known to stay among the numbers of a script.
#[derive(Clone, Copy, PartialEq, Eq)]
pub enum Wide {
    Const(WideNumber),
    Line(WideLine),
}

impl WideLine {
    ghost use Rattle.std.specs.Prelude.{◌≡◌, ℤ, ◌*ℤ◌, ◌+ℤ◌, Some};
    ghost use Rattle.sym_base.specs.Limits.{IsNumber};
    ghost use Rattle.sym_int.specs.Points.{HasPoint};
    ghost use Rattle.sym_int.specs.Taken.{IsTaken};

    /// The line's number where its cell holds `x`, which is at most 10^12 in size.
    pub fn at(&self, x: i64) -> i128
        requires { IsNumber x }
        ensures { result ≡ self.now.a *ℤ x +ℤ self.now.b }
    {
        self.a * x as i128 + self.b
    }

    /// The line on the span: a constant where that has one point.
    fn taken_line(&self, span: &Span) -> IntForm
        requires { (x : ℤ) → HasPoint span.now x → IsNumber (self.now.a *ℤ x +ℤ self.now.b) }
        ensures { IsTaken (λ x. self.now.a *ℤ x +ℤ self.now.b)
            (Some self.now.cell) span.now result }
    {
        if span.lo < span.hi {
            return IntForm::Line(Line::of(self.cell, self.a as i64, self.b));
        }
        let value = self.at(span.lo);
        IntForm::Const(Number {
            value: value as i64,
        })
    }
}

impl Wide {
    ghost use Rattle.std.specs.Prelude.{◌≡◌, ℤ};
    ghost use Rattle.sym_base.specs.Limits.{IsNumber};
    ghost use Rattle.sym_base.specs.declared.values.state.State.{State as OneState};
    ghost use Rattle.sym_int.specs.Lines.{form_value, wide_on, wide_cell, wide_value};
    ghost use Rattle.sym_int.specs.Points.{HasPoint};
    ghost use Rattle.sym_int.specs.Taken.{IsTaken, IsCellIn};

    /// The form on the span of its cell, at all of whose points its number is at most 10^12 in
    /// size. A span of one point gives a constant.
    pub fn taken(&self, span: &Span) -> IntForm
        requires { (x : ℤ) → HasPoint span.now x → IsNumber (wide_on self.now x) }
        ensures form { IsTaken (wide_on self.now) (wide_cell self.now) span.now result }
        ensures value { (state : OneState) → IsCellIn (wide_cell self.now) span.now state →
            form_value result state ≡ wide_value self.now state }
    {
        match self {
            Wide::Const(number) => IntForm::Const(Number {
                value: number.value as i64,
            }),
            Wide::Line(line) => line.taken_line(span),
        }
    }
}
