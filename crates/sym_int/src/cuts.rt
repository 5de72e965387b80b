//! A span cut where the truth of a comparison changes.
ghost use Rattle.std.specs.Prelude.{◌≡◌, ◌≤◌, ℤ, ◌<ℤ◌, ◌≤ℤ◌, ◌+ℤ◌, ◌-ℤ◌, ◌↔◌, None, pos, IfSome, MatchOption, true, false};
ghost use Rattle.sym_base.specs.Limits.{IsNumber};
ghost use Rattle.sym_int.specs.Cuts.{HasTruth, IsAfter, IsCut, InPieces, InOrder, IsOrder, TellsPart, count_with};
ghost use Rattle.sym_int.specs.Parts.{Between, IsAtAnEnd};
ghost use Rattle.sym_int.specs.Points.{HasPoint, IsPart};

use crate::pieces::{Cut, Pieces};
use crate::side::sides;
use crate::span::Span;
use crate::wide::Wide;
use sym_base::Compare;

/// The points at which the form is from `lo` to `hi`.
pub(crate) fn between(span: &Span, wide: &Wide, lo: i64, hi: i64) -> Option<Span>
    requires lo_in { IsNumber lo }
    requires hi_in { IsNumber hi }
    ensures { IsPart (Between span.now wide.now lo hi) result }
{
    match sides(span, wide, lo - 1).1 {
        None => None,
        Some(rest) => sides(&rest, wide, hi).0,
    }
}

/// The points at which the comparison has one truth, and that truth.
fn chosen(span: &Span, wide: &Wide, compare: Compare, bound: i64) -> (Option<Span>, bool)
    requires { IsNumber bound }
    ensures part { IsPart (HasTruth span.now wide.now compare bound result.1) result.0 }
    ensures order { IsOrder compare → IsAtAnEnd span.now result.0 }
    ensures equal { compare ≡ Compare.Eq → result.1 ≡ true }
    ensures unequal { compare ≡ Compare.Ne → result.1 ≡ false }
{
    match compare {
        Compare::Eq => (between(span, wide, bound, bound), true),
        Compare::Ne => (between(span, wide, bound, bound), false),
        Compare::Lt => (sides(span, wide, bound - 1).0, true),
        Compare::Le => (sides(span, wide, bound).0, true),
        Compare::Gt => (sides(span, wide, bound).0, false),
        Compare::Ge => (sides(span, wide, bound - 1).0, false),
    }
}

/// The points of the span before the part, of which there are some, with this truth.
fn before(span: &Span, part: &Span, truth: bool) -> Cut
    requires { span.now.lo <ℤ part.now.lo }
    ensures lo { result.span.lo ≡ span.now.lo }
    ensures hi { result.span.hi ≡ part.now.lo -ℤ pos 1 }
    ensures truth { result.truth ≡ truth }
{
    let span = Span {
        lo: span.lo,
        hi: part.lo - 1,
    };
    Cut { span, truth }
}

/// The points of the span after the part, with this truth.
fn after(span: &Span, part: &Span, truth: bool) -> Option<Cut>
    requires { part.now.hi ≤ℤ span.now.hi }
    ensures { IsAfter span.now part.now truth result }
{
    if part.hi < span.hi {
        let span = Span {
            lo: part.hi + 1,
            hi: span.hi,
        };
        Some(Cut { span, truth })
    } else {
        None
    }
}

/// The pieces of the span: the part with this truth, and the others with the other.
fn around(span: &Span, part: Option<Span>, truth: bool) -> Pieces
    requires { IfSome part (λ part. (span.now.lo ≤ℤ part.lo) × (part.hi ≤ℤ span.now.hi)) }
    ensures cover { (x : ℤ) → HasPoint span.now x ↔ InPieces result x }
    ensures first { TellsPart part truth result.first }
    ensures second { IfSome result.second (TellsPart part truth) }
    ensures third { IfSome result.third (TellsPart part truth) }
    ensures order { InOrder result.first result.second result.third }
    ensures one { count_with truth result ≤ 1 }
    ensures end { IsAtAnEnd span.now part → result.third ≡ None }
{
    let Some(part) = part else {
        let first = Cut {
            span: *span,
            truth: !truth,
        };
        return Pieces {
            first,
            second: None,
            third: None,
        };
    };
    let inside = Cut { span: part, truth };
    let after = after(span, &part, !truth);
    if part.lo <= span.lo {
        return Pieces {
            first: inside,
            second: after,
            third: None,
        };
    }
    let first = before(span, &part, !truth);
    Pieces {
        first,
        second: Some(inside),
        third: after,
    }
}

/// Cuts the span into the fewest pieces at all of whose points the comparison of the form with
/// `bound`, which is at most 10^12 in size, has one truth. A constant gives one piece. An order
/// gives at most one piece with each truth, `==` at most one that is true and two that are false,
/// and `!=` the other way round.
pub fn cut(span: &Span, wide: &Wide, compare: Compare, bound: i64) -> Pieces
    requires { IsNumber bound }
    ensures { IsCut span.now wide.now compare bound result }
{
    let (part, truth) = chosen(span, wide, compare, bound);
    around(span, part, truth)
}
