//! The two sides of a span: the points at which a form is at most a limit, and the others.
ghost use Rattle.std.specs.Prelude.{◌≤◌, ◌+◌, ◌*◌, ◌≤ℤ◌, ◌<ℤ◌, unsigned_abs};
ghost use Rattle.sym_base.specs.Limits.{num_max};
ghost use Rattle.sym_int.specs.Points.{HasPoint, IsPart};
ghost use Rattle.sym_int.specs.Parts.{AtMost, Above, IsAtAnEnd};
ghost use Rattle.sym_int.specs.declared.wide.Wide.TheVariants as wide_form;

use crate::quotient::floor_quotient;
use crate::span::Span;
use crate::wide::{Wide, WideLine};

/// The points of the span up to `last`, and those after it.
fn split_at(span: &Span, last: i128) -> (Option<Span>, Option<Span>)
    ensures before { IsPart (λ x. HasPoint span.now x × (x ≤ℤ last)) result.0 }
    ensures after { IsPart (λ x. HasPoint span.now x × (last <ℤ x)) result.1 }
    ensures begins { IsAtAnEnd span.now result.0 }
    ensures ends { IsAtAnEnd span.now result.1 }
{
    if last < span.lo as i128 {
        return (None, Some(*span));
    }
    if last >= span.hi as i128 {
        return (Some(*span), None);
    }
    let last = last as i64;
    let before = Span {
        lo: span.lo,
        hi: last,
    };
    let after = Span {
        lo: last + 1,
        hi: span.hi,
    };
    (Some(before), Some(after))
}

/// The points at which the line is at most `limit`, and those at which it is above.
fn line_sides(span: &Span, line: &WideLine, limit: i64) -> (Option<Span>, Option<Span>)
    requires { unsigned_abs limit ≤ num_max + 1 }
    ensures at_most { IsPart (AtMost span.now (wide_form.Line line.now) limit) result.0 }
    ensures above { IsPart (Above span.now (wide_form.Line line.now) limit) result.1 }
    ensures end { IsAtAnEnd span.now result.0 }
{
    let room = limit as i128 - line.b;
    if line.a > 0 {
        let last = floor_quotient(room, line.a);
        return split_at(span, last);
    }
    // The line is at most the limit where -x is at most this.
    let last = floor_quotient(room, -line.a);
    let (above, at_most) = split_at(span, -1 - last);
    (at_most, above)
}

/// The points at which the form is at most `limit`, and those at which it is above.
pub(crate) fn sides(span: &Span, wide: &Wide, limit: i64) -> (Option<Span>, Option<Span>)
    requires { unsigned_abs limit ≤ num_max + 1 }
    ensures at_most { IsPart (AtMost span.now wide.now limit) result.0 }
    ensures above { IsPart (Above span.now wide.now limit) result.1 }
    ensures end { IsAtAnEnd span.now result.0 }
{
    match wide {
        Wide::Const(number) if number.value <= limit as i128 => (Some(*span), None),
        Wide::Const(_) => (None, Some(*span)),
        Wide::Line(line) => line_sides(span, line, limit),
    }
}
