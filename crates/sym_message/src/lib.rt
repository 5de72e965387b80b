//! How a call ends, as it is told: its status, why it is refused, with the line that says so, and
//! the texts of `check` and `make`.
#![tactic(auto)]

mod check_lines;
mod message;
mod number_texts;
mod refusal;
mod report;
mod status;
mod summaries;

pub use check_lines::check_line;
pub use message::{refuse_start, tell};
pub use refusal::{
    Refusal, ScriptFault, StartErr, check_refusal, parse_refusal, pass_refusal, read_refusal,
    write_refusal,
};
pub use report::{Report, report_status};
pub use status::Status;
pub use summaries::summary;
