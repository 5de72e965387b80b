//! Integer cells from an unknown state: spans of numbers, the forms `a * x + b` over the number x
//! that a cell held, and the parts of a span at whose points a form compares, fits or falls so.
//!
//! A number is a whole number of at most `NUM_MAX`, 10^12, in size.
#![tactic(auto)]

mod cuts;
mod element;
mod fits;
mod form;
mod pieces;
mod preimages;
mod quotient;
mod side;
mod span;
mod wide;

pub use cuts::cut;
pub use element::{FormList, IntForms, Spans};
pub use fits::{Fitted, Inside, fit};
pub use form::{IntForm, Line, Number};
pub use pieces::{Cut, Pieces};
pub use preimages::{Pulled, pull};
pub use span::Span;
pub use wide::{Wide, WideLine, WideNumber};
