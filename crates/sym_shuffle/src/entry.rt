//! What a worker tells before it reads a chunk.

/// A value that is told of each chunk that a worker has claimed. It may hold the worker up.
pub trait Enter {
    /// Worker `worker` has claimed the chunk of this number, and hasn't read its rows. Both are
    /// counted from 0.
    fn enter(&self, worker: u32, chunk: u32);
}

/// Holds no worker up.
#[derive(Clone, Copy, Debug, PartialEq, Eq)]
pub struct Free;

impl Enter for Free {
    fn enter(&self, _worker: u32, _chunk: u32) {}
}
