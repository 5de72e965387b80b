//! Sets of the labels of an enum.
ghost use Rattle.std.specs.Prelude.{◌≡◌, ◌≢◌, ℕ, ◌^◌, ◌<◌, ◌≤◌, ◌↔◌, ◌&&◌, ◌||◌, false, IsTrue, MatchOption};

/// A set of labels, which are numbers below 32.
#[derive(Clone, Copy, PartialEq, Eq)]
pub struct LabelSet {
    bits: u32,
    pub ghost below_32: { bits < 2 ^ 32 },
}

impl LabelSet {
    ghost use Rattle.sym_enum.specs.Labels.{has_label, IsOnlyLabel};

    /// The labels below `count`, which is 1 to 32.
    pub fn full(count: u8) -> LabelSet
        requires some { 1 ≤ count }
        requires all { count ≤ 32 }
        ensures { (label : ℕ) → IsTrue (has_label result label) ↔ (label < count) }
    {
        LabelSet {
            bits: u32::MAX >> (32 - count),
        }
    }

    /// The set of one label, which is below 32.
    pub fn one(label: u8) -> LabelSet
        requires { label < 32 }
        ensures { IsOnlyLabel result label }
    {
        LabelSet { bits: 1 << label }
    }

    /// Whether the label is in the set.
    pub fn has(&self, label: u8) -> bool
        ensures exact { result ≡ has_label self.now label }
        ensures below { IsTrue result → label < 32 }
    {
        label < 32 && (self.bits >> label) & 1 == 1
    }

    /// The part of the set with only this label, and the part without it.
    pub fn split(&self, label: u8) -> (LabelSet, LabelSet)
        ensures only { (other : ℕ) → IsTrue (has_label result.0 other) ↔
            (IsTrue (has_label self.now other) × (other ≡ label)) }
        ensures rest { (other : ℕ) → IsTrue (has_label result.1 other) ↔
            (IsTrue (has_label self.now other) × (other ≢ label)) }
    {
        if label >= 32 {
            return (LabelSet { bits: 0 }, *self);
        }
        let only = self.bits & (1 << label);
        let rest = self.bits ^ only;
        (LabelSet { bits: only }, LabelSet { bits: rest })
    }

    /// The labels in both sets.
    pub fn meet(&self, other: &LabelSet) -> LabelSet
        ensures { (label : ℕ) →
            has_label result label ≡ (has_label self.now label && has_label other.now label) }
    {
        LabelSet {
            bits: self.bits & other.bits,
        }
    }

    /// The labels in one set or both.
    pub fn unite(&self, other: &LabelSet) -> LabelSet
        ensures { (label : ℕ) →
            has_label result label ≡ (has_label self.now label || has_label other.now label) }
    {
        LabelSet {
            bits: self.bits | other.bits,
        }
    }

    /// Whether no label is in the set.
    pub fn is_empty(&self) -> bool
        ensures { IsTrue result ↔ ((label : ℕ) → has_label self.now label ≡ false) }
    {
        self.bits == 0
    }

    /// The only label of the set; `None` where it has none or more than one.
    pub fn only(&self) -> Option<u8>
        ensures { MatchOption result ((label : ℕ) → IsOnlyLabel self.now label → ⊥)
            (λ label. IsOnlyLabel self.now label) }
    {
        let lowest = self.bits.trailing_zeros();
        if lowest < 32 && self.bits == 1 << lowest {
            Some(lowest as u8)
        } else {
            None
        }
    }
}
