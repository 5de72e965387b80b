//! Traces over files: their reports, whose rows go to a form round by round.
#![tactic(auto)]

mod files;
mod forms;
mod parts;
mod rounds;
mod row_writer;
mod rows;
mod shown_chunks;

pub use files::{TraceForm, Traced, trace_files};
pub use rows::{RECORD_NAME, trace_heads, trace_row};
