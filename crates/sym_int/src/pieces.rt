//! The pieces into which a span is cut.
use crate::span::Span;

/// A span, and the truth of a comparison at all of its points.
#[derive(Clone, Copy, PartialEq, Eq)]
pub struct Cut {
    pub span: Span,
    pub truth: bool,
}

/// The pieces of a span in ascending order. `third` is `Some` only where `second` is.
#[derive(Clone, Copy, PartialEq, Eq)]
pub struct Pieces {
    pub first: Cut,
    pub second: Option<Cut>,
    pub third: Option<Cut>,
}
