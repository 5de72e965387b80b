//! Which fields the update of a script reads, and records that hold the values of these alone.
#![tactic(auto)]

mod blank;
mod fields;
pub mod laws;

pub use blank::blank_record;
pub use fields::read_fields;
