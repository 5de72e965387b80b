//! Values of a script's data: texts, numbers, records, states, reports, and lists of them.

pub mod element;
pub mod memory;
pub mod record;
pub mod report;
pub mod sequence;
pub mod small_list;
pub mod state;
pub mod text;
pub mod value;
