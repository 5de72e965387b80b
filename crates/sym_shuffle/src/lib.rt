//! The records of a round, read by some threads and stepped by others. Each of these has groups of
//! its own, so no two make steps of one group.
#![tactic(auto)]

mod batch;
mod bounds;
mod dealt;
mod entry;
mod led_batches;
mod marked_script;
mod marks;
mod one_thread;
mod packed;
mod rounds;
mod settled;

pub use entry::{Enter, Free};
pub use one_thread::folded;
pub use rounds::shuffled;
