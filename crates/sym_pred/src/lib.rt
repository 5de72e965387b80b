//! Hold cells: what is known of the tests on one of them, and what a path makes of it.
#![tactic(auto)]

mod facts;
mod form;
mod literal;

pub use facts::{Added, Facts};
pub use form::HoldForm;
pub use literal::Literal;
