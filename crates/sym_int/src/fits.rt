//! A span parted by whether a form stays in a range.
ghost use Rattle.std.specs.Prelude.{◌≡◌, IfSome};
ghost use Rattle.sym_base.specs.declared.values.state.State.{State as OneState};
ghost use Rattle.sym_int.specs.Fits.{IsFitted, IsInside, inside_span};
ghost use Rattle.sym_int.specs.Parts.{IsWithin};

use crate::form::IntForm;
use crate::side::sides;
use crate::span::Span;
use crate::wide::Wide;

/// The points at which a form is in the range, and the form on them.
#[derive(Clone, Copy, PartialEq, Eq)]
pub struct Inside {
    pub span: Span,
    pub form: IntForm,
}

/// The points at which a form is below, in and above a range; each `None` where there is none.
#[derive(Clone, Copy, PartialEq, Eq)]
pub struct Fitted {
    pub below: Option<Span>,
    pub inside: Option<Inside>,
    pub above: Option<Span>,
}

/// The form on a part of its span on which it is in the range.
fn taken_inside(part: Option<Span>, wide: &Wide, range: &Span) -> Option<Inside>
    requires { IfSome part (IsWithin wide.now range.now) }
    ensures span { inside_span result ≡ part }
    ensures form { IfSome result (IsInside wide.now) }
{
    match part {
        None => None,
        Some(span) => {
            let form = wide.taken(&span);
            Some(Inside { span, form })
        }
    }
}

/// The points of the span at which the form is below, in and above the range. The form on the
/// points in the range is a constant where there is one such point.
pub fn fit(span: &Span, wide: &Wide, range: &Span) -> Fitted
    ensures { IsFitted span.now wide.now range.now result }
{
    let (below, rest) = sides(span, wide, range.lo - 1);
    let Some(rest) = rest else {
        return Fitted {
            below,
            inside: None,
            above: None,
        };
    };
    let (part, above) = sides(&rest, wide, range.hi);
    let inside = taken_inside(part, wide, range);
    Fitted {
        below,
        inside,
        above,
    }
}
