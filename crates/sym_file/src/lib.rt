//! Files of saved runs: what the records of a part of a log do to each group, as text. A saved run
//! is written, and read back as the run that it was; and saved runs of consecutive records are
//! taken, one after the other, to the groups of all of them, or joined to one.
#![tactic(auto)]

mod forms;
mod joined_groups;
mod joins;
pub mod laws;
mod led_groups;
mod numbers;
mod parts;
mod paths;
mod places;
mod reader;
mod run_head;
mod saved_err;
mod saved_text;
mod scan;
mod texts;
mod totals;
mod values;
mod writer;

pub use joined_groups::{JoinedText, join_text};
pub use reader::read_saved;
pub use saved_err::SavedErr;
pub use saved_text::write_saved;
pub use texts::join_texts;
pub use totals::{Taken, TakenText, Totals};
