//! Where bytes come in and go out: stores of files and sinks, on any medium and in memory.

mod files;
pub mod mem_sink;
pub mod mem_store;
pub mod read;
pub mod sink;
pub mod store;
pub mod sure_sink;
pub mod sure_store;
pub mod write;
