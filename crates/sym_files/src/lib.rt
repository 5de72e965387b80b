//! The loop over files: their records in order, round by round, go to what takes them; or the first
//! problem of the files.
#![tactic(auto)]

mod error;
mod files;
pub mod laws;
mod next_round;
mod one_file;
mod options;
mod rounds;
mod ways;

pub use error::PassErr;
pub use files::{Log, each_round, each_round_in_turn};
pub use options::{CHUNK_DEFAULT, LIMIT_DEFAULT, LIMIT_MAX, Options, WORKERS_DEFAULT};
pub use rounds::{Rounds, SequentialRounds, Took, Work};
