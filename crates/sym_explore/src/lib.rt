//! One record's update from an unknown state: what it does to every state at once.
#![tactic(auto)]

mod assignments;
mod branch;
mod comparisons;
mod conditions;
mod context;
mod ended_paths;
mod extensions;
mod forms;
mod hold_tests;
mod known_paths;
mod labels;
pub mod laws;
mod moves;
mod nearest_ends;
mod parted_lists;
mod path_limits;
mod path_lists;
mod places;
mod ranges;
mod scratch;
mod statements;
mod stores;
mod sure;
mod terms;

pub use extensions::{Grown, extend, fresh, fresh_with, grow, grow_with};
pub use path_limits::{Extension, extend_within};
pub use scratch::Scratch;
