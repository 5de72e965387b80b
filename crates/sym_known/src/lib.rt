//! Segments whose paths have known cells, held as states that step. Each record makes the step of
//! a group, and where a stretch of records ends, the states are turned back into paths.
#![tactic(auto)]

mod known;
mod known_cells;
pub mod laws;
mod placed;
mod plain_paths;

pub use known::Known;
pub use known_cells::are_known;
