//! Spans of numbers.
ghost use Rattle.std.specs.Prelude.{◌≤ℤ◌};
ghost use Rattle.sym_base.specs.Limits.{IsNumber};

use sym_base::NUM_MAX;

/// The numbers from `lo` to `hi`, both among them.
#[derive(Clone, Copy, PartialEq, Eq)]
pub struct Span {
    pub lo: i64,
    pub hi: i64,
    pub ghost lo_in: { IsNumber lo },
    pub ghost ordered: { lo ≤ℤ hi },
    pub ghost hi_in: { IsNumber hi },
}

impl Span {
    ghost use Rattle.std.specs.Prelude.{◌≡◌, ◌<ℤ◌, ◌↔◌, IsTrue, MatchOption};
    ghost use Rattle.sym_int.specs.Points.{HasPoint, AreEnds, IsUnion, IsPart};
    ghost use Rattle.sym_int.specs.declared.span.Span.{Span as OneSpan};

    /// The span from `lo` to `hi`; `None` where `lo` is above `hi` or an end is no number.
    pub fn new(lo: i64, hi: i64) -> Option<Span>
        ensures { MatchOption result (AreEnds lo hi → ⊥)
            (λ span. (span.lo ≡ lo) × (span.hi ≡ hi)) }
    {
        if -NUM_MAX <= lo && lo <= hi && hi <= NUM_MAX {
            Some(Span { lo, hi })
        } else {
            None
        }
    }

    /// Whether the number is in the span.
    pub fn has(&self, x: i64) -> bool
        ensures { IsTrue result ↔ HasPoint self.now x }
    {
        self.lo <= x && x <= self.hi
    }

    /// The numbers in both spans; `None` where there are none.
    pub fn meet(&self, other: &Span) -> Option<Span>
        ensures { IsPart (λ x. HasPoint self.now x × HasPoint other.now x) result }
    {
        let lo = self.lo.max(other.lo);
        let hi = self.hi.min(other.hi);
        if lo <= hi {
            Some(Span { lo, hi })
        } else {
            None
        }
    }

    /// The span of the numbers in either; `None` where these are no span, as a number between
    /// the two is in neither.
    pub fn unite(&self, other: &Span) -> Option<Span>
        ensures { MatchOption result ((union : OneSpan) → IsUnion union self.now other.now → ⊥)
            (λ union. IsUnion union self.now other.now) }
    {
        if self.hi + 1 < other.lo || other.hi + 1 < self.lo {
            return None;
        }
        let lo = self.lo.min(other.lo);
        let hi = self.hi.max(other.hi);
        Some(Span { lo, hi })
    }

    /// The only number of the span; `None` where it has more.
    pub fn only(&self) -> Option<i64>
        ensures { MatchOption result (self.now.lo <ℤ self.now.hi)
            (λ x. (self.now.lo ≡ x) × (self.now.hi ≡ x)) }
    {
        if self.lo < self.hi {
            None
        } else {
            Some(self.lo)
        }
    }
}
