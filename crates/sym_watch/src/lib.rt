//! Partial reports of a run that goes on: one publisher, and watchers in any threads that see what
//! it has published.
#![tactic(auto)]

mod book;
mod ends;
mod look;
mod newest;
mod observer;
mod partial;
mod publisher;
mod start;
mod watcher;

pub use ends::Watch;
pub use look::Looked;
pub use observer::Observer;
pub use partial::{Partial, ReportRows};
pub use publisher::{Publisher, Told};
pub use start::{WATCHERS_MAX, watch};
pub use watcher::Watcher;
