//! Calls that are made at once, on threads of their own, while the caller waits for them.
#![tactic(auto)]

mod claims;
mod indices;
mod jobs;

pub use claims::map_claimed;
pub use indices::map_indices;
pub use jobs::map_vec;
