//! Records of files: the rows that CSV gives, the columns of a script's fields, and the values that
//! the fields read.
#![tactic(auto)]

mod bad;
mod chunk;
mod columns;
mod cursor;
mod cutter;
mod field_values;
mod header;
pub mod laws;
mod mark;
mod reader;
mod records;
mod row;
mod rows;
mod source;
mod spare;

pub use bad::{Bad, BadCause, Decoded};
pub use chunk::{Chunk, Chunks};
pub use cursor::RowCursor;
pub use cutter::Cutter;
pub use header::{HeadErr, HeadFault, Header, Places};
pub use records::{decode, decode_into};
pub use row::{Row, RowView};
pub use rows::Rows;
pub use spare::Spare;
