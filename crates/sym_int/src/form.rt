//! What an integer cell holds, as a form over an unknown state: a constant, or a line over the
//! number that a cell held.
ghost use Rattle.std.specs.Prelude.{◌≡◌, ◌≢◌, ◌≤◌, ◌<◌, ◌^◌, pos, unsigned_abs};
ghost use Rattle.sym_base.specs.Limits.{IsNumber};
ghost use Rattle.sym_int.specs.Bounds.{slope_max, offset_max};
ghost use Rattle.sym_int.specs.Offsets.{joined};

use crate::wide::{Wide, WideLine, WideNumber};
use sym_base::{NUM_MAX, State};

/// The largest slope of a line in size, 2 * 10^12.
const SLOPE_MAX: i128 = 2_000_000_000_000;

/// The largest offset of a line in size, 2 * 10^24 + 10^12.
const OFFSET_MAX: i128 = 2_000_000_000_001_000_000_000_000;

/// What the upper part of an offset counts, 2^64.
const HIGH_UNIT: i128 = 18_446_744_073_709_551_616;

/// A constant number, of at most 10^12 in size.
#[derive(Clone, Copy, PartialEq, Eq)]
pub struct Number {
    pub value: i64,
    pub ghost value_in: { IsNumber value },
}

/// `a * x + b` for the number x of the cell with this number. `a` isn't 0 and is at most
/// 2 * 10^12 in size, and `b`, the offset, at most 2 * 10^24 + 10^12. It is `high * 2^64 + low`:
/// a field of 128 bits would make each form twice as large.
#[derive(Clone, Copy, PartialEq, Eq)]
pub struct Line {
    pub cell: u16,
    pub(crate) high: i32,
    pub a: i64,
    pub(crate) low: u64,
    pub ghost rises_or_falls: { a ≢ pos 0 },
    pub ghost a_in: { unsigned_abs a ≤ slope_max },
    pub ghost b_in: { unsigned_abs (joined high low) ≤ offset_max },
    pub ghost low_in: { low < 2 ^ 64 },
}

/// What an integer cell holds after some records, over the state before them.
#[derive(Clone, Copy, PartialEq, Eq)]
pub enum IntForm {
    Const(Number),
    Line(Line),
}

impl Number {
    ghost use Rattle.std.specs.Prelude.{MatchOption};

    /// The constant; `None` exactly where `value` is more than 10^12 in size.
    pub fn new(value: i64) -> Option<Number>
        ensures { MatchOption result (IsNumber value → ⊥) (λ number. number.value ≡ value) }
    {
        if -NUM_MAX <= value && value <= NUM_MAX {
            Some(Number { value })
        } else {
            None
        }
    }
}

impl Line {
    ghost use Rattle.std.specs.Prelude.{MatchOption, ◌+ℤ◌, ◌*ℤ◌};
    ghost use Rattle.sym_int.specs.Bounds.{AreOfLine};
    ghost use Rattle.sym_int.specs.Lines.{offset};
    ghost use Rattle.sym_int.specs.declared.form.Line.{Line as OneLine};

    /// The line over this cell, with a slope and an offset within their bounds.
    pub fn of(cell: u16, a: i64, b: i128) -> Line
        requires { AreOfLine a b }
        ensures cell { result.cell ≡ cell }
        ensures a { result.a ≡ a }
        ensures b { offset result ≡ b }
    {
        let high = b >> 64;
        let low = (b - high * HIGH_UNIT) as u64;
        let high = high as i32;
        Line { cell, high, a, low }
    }

    /// The line over this cell; `None` exactly where `a` is 0, or `a` or `b` is too large.
    pub fn new(cell: u16, a: i128, b: i128) -> Option<Line>
        ensures { MatchOption result (AreOfLine a b → ⊥)
            (λ line. (line.cell ≡ cell) × (line.a ≡ a) × (offset line ≡ b)) }
    {
        let slope = a != 0 && -SLOPE_MAX <= a && a <= SLOPE_MAX;
        if slope && -OFFSET_MAX <= b && b <= OFFSET_MAX {
            Some(Line::of(cell, a as i64, b))
        } else {
            None
        }
    }

    /// What the line adds to the product.
    pub fn offset(&self) -> i128
        ensures { result ≡ offset self.now }
    {
        self.high as i128 * HIGH_UNIT + self.low as i128
    }

    /// The line's number where its cell holds `x`.
    pub fn at(&self, x: i64) -> i128
        ensures { result ≡ self.now.a *ℤ x +ℤ offset self.now }
    {
        self.a as i128 * x as i128 + self.offset()
    }
}

impl IntForm {
    ghost use Rattle.std.specs.Prelude.{◌+ℤ◌, ◌*ℤ◌, None, ℤ};
    ghost use Rattle.sym_base.specs.declared.values.state.State.{State as OneState};
    ghost use Rattle.sym_int.specs.Lines.{form_on, form_value, form_cell, wide_on, wide_value, wide_cell};

    /// The form's number at a state, at which it is at most 10^12 in size.
    pub fn value(&self, state: &State) -> i64
        requires { IsNumber (form_value self.now state.now) }
        ensures { result ≡ form_value self.now state.now }
    {
        match self {
            IntForm::Const(number) => number.value,
            IntForm::Line(line) => line.at(state.number_at(line.cell)) as i64,
        }
    }

    /// `a * self + b`, with `a` and `b` of at most 10^12 in size.
    pub fn scaled(&self, a: i64, b: i64) -> Wide
        requires a_in { IsNumber a }
        requires b_in { IsNumber b }
        ensures points { (x : ℤ) → wide_on result x ≡ a *ℤ form_on self.now x +ℤ b }
        ensures value { (state : OneState) →
            wide_value result state ≡ a *ℤ form_value self.now state +ℤ b }
        ensures constant { a ≡ pos 0 → wide_cell result ≡ None }
        ensures cell { a ≢ pos 0 → wide_cell result ≡ form_cell self.now }
    {
        if a == 0 {
            return Wide::Const(WideNumber { value: b as i128 });
        }
        self.composed(a as i128, b as i128)
    }

    /// This form with the number of the cell that it names replaced by `inner`.
    pub fn through(&self, inner: &IntForm) -> Wide
        ensures points { (x : ℤ) → wide_on result x ≡ form_on self.now (form_on inner.now x) }
        ensures value { (state : OneState) →
            wide_value result state ≡ form_on self.now (form_value inner.now state) }
        ensures constant { form_cell self.now ≡ None → wide_cell result ≡ None }
        ensures cell { form_cell self.now ≢ None → wide_cell result ≡ form_cell inner.now }
    {
        match self {
            IntForm::Const(number) => Wide::Const(WideNumber {
                value: number.value as i128,
            }),
            IntForm::Line(line) => inner.composed(line.a as i128, line.offset()),
        }
    }

    /// `a * self + b`, for the slope and the offset of a line.
    fn composed(&self, a: i128, b: i128) -> Wide
        requires rises_or_falls { a ≢ pos 0 }
        requires a_in { unsigned_abs a ≤ slope_max }
        requires b_in { unsigned_abs b ≤ offset_max }
        ensures points { (x : ℤ) → wide_on result x ≡ a *ℤ form_on self.now x +ℤ b }
        ensures value { (state : OneState) →
            wide_value result state ≡ a *ℤ form_value self.now state +ℤ b }
        ensures cell { wide_cell result ≡ form_cell self.now }
    {
        match self {
            IntForm::Const(number) => Wide::Const(WideNumber {
                value: a * number.value as i128 + b,
            }),
            IntForm::Line(line) => Wide::Line(WideLine {
                cell: line.cell,
                a: a * line.a as i128,
                b: a * line.offset() + b,
            }),
        }
    }
}
