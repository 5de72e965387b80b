//! A publisher and its watchers.

use crate::publisher::Publisher;
use crate::watcher::Watcher;

/// A publisher and its watchers. Whoever has it ends the publisher by [`Publisher::end`].
pub struct Watch {
    pub publisher: Publisher,
    pub watchers: Vec<Watcher>,
}
