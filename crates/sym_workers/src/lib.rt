//! The workers of a round, who make its run or lead groups on, and the gate that has them do so.
#![tactic(auto)]

mod gates;
mod led_groups;
mod piece;
mod round_runs;
mod shares;
mod stretches;
mod workers;

pub use gates::{Gate, Hold, OpenGate};
pub use led_groups::led;
pub use round_runs::round;
pub use sym_shuffle::{Enter, Free};
pub use workers::worked;
