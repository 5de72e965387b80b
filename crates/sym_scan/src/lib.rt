//! Traces: how the group of a record stands after the record, for each record whose number a given
//! one divides. Runs tell how the groups of a part of a round stand before it, so that the parts are
//! replayed at once.
#![tactic(auto)]

pub mod laws;
mod part_starts;
mod parts;
mod replays;
mod rows;
mod scan;
mod scan_options;
mod starts;

pub use replays::{Replayed, replay, replay_all};
pub use rows::{TraceRow, TraceRows};
pub use scan::{Scanned, scan_round};
pub use starts::Starts;
