//! The top call: arguments in, report out.
#![tactic(auto)]

mod check;
mod ends;
mod join;
pub mod laws;
mod load;
mod made;
mod make;
mod map;
mod output;
mod prepare;
mod reduce;
mod run;
mod run_file_refusal;
mod top;
mod trace;

pub use sym_message::{StartErr, Status, refuse_start};
pub use top::symple;
