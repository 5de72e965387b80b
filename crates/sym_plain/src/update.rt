//! What one record does to a group's state.
pub mod buffers;
pub mod conditions;
pub mod statements;
pub mod stop;
pub mod terms;
