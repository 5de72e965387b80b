//! What the text of a field is read as.
pub mod blanks;
pub mod field;
pub mod label;
pub mod number;
pub mod stop;
