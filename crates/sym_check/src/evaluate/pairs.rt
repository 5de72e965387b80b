//! Lines with known coefficients.

/// `a * x + b` for the number x in the cell with this number, counted from 0.
#[derive(Clone, Copy, Debug, PartialEq, Eq)]
pub struct Pair {
    pub cell: u16,
    pub a: i64,
    pub b: i64,
}
