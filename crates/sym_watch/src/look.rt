//! What a look shows.

use crate::partial::Partial;

/// What a watcher sees when it looks.
#[derive(PartialEq, Eq, Drop)]
pub enum Looked {
    /// Nothing was published yet.
    Nothing,
    /// The last one that was published.
    Seen(Partial),
}
