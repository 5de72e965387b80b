//! The columns of a report row.
pub mod arithmetic;
pub mod lists;
pub mod shown;
