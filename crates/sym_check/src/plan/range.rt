//! The ranges of integer cells and of lists of numbers.
ghost use Rattle.std.specs.Prelude.{◌≡◌};
ghost use Rattle.sym_check.specs.Plan.Ranges.{kept};

/// The numbers from `lo` to `hi`, both ends among them.
#[derive(Clone, Copy, Debug, PartialEq, Eq)]
pub struct Range {
    pub lo: i64,
    pub hi: i64,
    /// Whether a number outside becomes the nearest end.
    pub clamps: bool,
}

impl Range {
    /// What is kept of a number: the number itself in the range; of any other the nearest end
    /// where the range clamps, and else nothing.
    pub fn kept(&self, number: i128) -> Option<i64>
        ensures { result ≡ kept self.now number }
    {
        if i128::from(self.lo) <= number && number <= i128::from(self.hi) {
            Some(number as i64)
        } else if !self.clamps {
            None
        } else if i128::from(self.lo) <= number {
            Some(self.hi)
        } else {
            Some(self.lo)
        }
    }
}
