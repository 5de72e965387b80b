//! What the tests of several crates are given: scripts, files of saved runs, the checked script of
//! a text, the chunks and records of a log, and rows of tables, each of which says what was found
//! and what was wanted if it doesn't hold.
#![tactic(auto)]

mod acceptance;
mod bytes;
mod generator;
mod groups;
mod logs;
mod rows;
pub mod saved;
pub mod scripts;
mod texts;
mod threaded;
mod told;

pub use acceptance::accepted;
pub use bytes::bytes_differ;
pub use generator::Draws;
pub use groups::{group_text_at, groups_differ, groups_text};
pub use logs::{chunks_of, next_chunks, next_decoded, opened, passed};
pub use rows::{Case, Row, check_cases, check_rows};
pub use texts::{group_text, outcome_text};
pub use threaded::{ThreadedCase, ThreadedRow, check_threaded_cases, check_threaded_rows};
pub use told::{all_hold, difference, found_unless, refused, told_at, told_by};
