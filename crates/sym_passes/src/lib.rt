//! The pass over files: the groups of a script, or what the records do to each group, from the run
//! of each round.
#![tactic(auto)]

mod folded_rounds;
mod joined_rounds;
mod led_rounds;
mod sequential;
mod summary;
mod whole_pass;

pub use sequential::sequential_pass;
pub use summary::summarise;
pub use whole_pass::pass;
