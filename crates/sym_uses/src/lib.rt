//! Uses of the parts, each proved and tried: what a caller writes, and what the parts promise it.
#![tactic(auto)]

pub mod hold_facts;
pub mod list_forms;
pub mod rounds;
pub mod segments;
pub mod sizes;
