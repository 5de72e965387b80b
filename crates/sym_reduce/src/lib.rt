//! Files of saved runs, taken in order to the groups of all their records, or joined to one saved
//! run.
#![tactic(auto)]

mod error;
mod joins;
pub mod laws;
mod one_file;
mod run_files;
mod window;

pub use error::ReduceErr;
pub use joins::join_files;
pub use run_files::reduce_files;
