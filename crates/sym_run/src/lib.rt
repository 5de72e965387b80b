//! Runs: what the records of some chunks do to each group, whatever its state is before them. A run
//! has a chain of segments for each key, which may end with records that are kept as they are.
//! Neighbouring runs are joined, and a run is applied to groups.
#![tactic(auto)]

mod applied_groups;
mod chain_records;
mod chains;
mod chunks;
mod closed_groups;
mod closed_joins;
mod covers;
mod joined_groups;
mod kept;
mod lawful;
pub mod laws;
mod led_groups;
mod memory;
mod open_groups;
mod open_runs;
mod opened;
mod pushed;
mod run_groups;
mod runs;
mod saved;
mod segments;
mod settings;
mod steps;
mod stored;
mod stretches;
mod unread;

pub use chains::Chain;
pub use chunks::{of_chunk, of_chunks};
pub use closed_groups::join_and_close;
pub use closed_joins::join_chain;
pub use joined_groups::{join_groups, push};
pub use lawful::is_lawful_group;
pub use run_groups::RunGroups;
pub use runs::{Applied, Run};
pub use saved::Saved;
pub use steps::Stepper;
pub use stretches::{Stretch, kept_most};
