//! The numbers of a cell at which a form is in a span.
ghost use Rattle.std.specs.Prelude.{◌≡◌, ℤ, ◌+ℤ◌, ◌*ℤ◌, ◌↔◌};
ghost use Rattle.sym_base.specs.Limits.{IsNumber};
ghost use Rattle.sym_int.specs.Lines.{form_on, form_cell, wide_on};
ghost use Rattle.sym_int.specs.Pulls.{IsPulledOver, Pulls};
ghost use Rattle.sym_int.specs.Points.{HasPoint};

use crate::cuts::between;
use crate::form::{IntForm, Line};
use crate::span::Span;
use crate::wide::{Wide, WideLine};
use sym_base::NUM_MAX;

/// The numbers at which a form is in a span.
#[derive(Clone, Copy, PartialEq, Eq)]
pub enum Pulled {
    /// All numbers.
    All,
    /// No number.
    Never,
    /// The numbers of this cell in this span.
    In { cell: u16, span: Span },
}

impl Line {
    ghost use Rattle.sym_int.specs.Lines.{offset};

    /// The same line as a wide form.
    fn widened(&self) -> Wide
        ensures { (x : ℤ) → wide_on result x ≡ self.now.a *ℤ x +ℤ offset self.now }
    {
        Wide::Line(WideLine {
            cell: self.cell,
            a: self.a as i128,
            b: self.offset(),
        })
    }
}

/// The numbers of at most 10^12 in size at which the form is in the span. A constant gives `All`
/// or `Never`, and a line `Never` exactly where there is no such number.
pub fn pull(span: &Span, form: &IntForm) -> Pulled
    ensures exact { (x : ℤ) → IsNumber x →
        (Pulls result x ↔ HasPoint span.now (form_on form.now x)) }
    ensures cell { IsPulledOver (form_cell form.now) result }
{
    match form {
        IntForm::Const(number) if span.has(number.value) => Pulled::All,
        IntForm::Const(_) => Pulled::Never,
        IntForm::Line(line) => {
            let cell = line.cell;
            let numbers = Span {
                lo: -NUM_MAX,
                hi: NUM_MAX,
            };
            match between(&numbers, &line.widened(), span.lo, span.hi) {
                None => Pulled::Never,
                Some(span) => Pulled::In { cell, span },
            }
        }
    }
}
