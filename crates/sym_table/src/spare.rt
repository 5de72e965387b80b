//! Memory that is used again.
ghost use Rattle.std.specs.Prelude.{◌≡◌, []};

use crate::chunk::Chunk;
use crate::rows::Rows;
use std::alloc::Global;

/// Rows that are done with, over whose memory others are read. No contract speaks of them.
pub struct Spare {
    chunks: Vec<Rows>,
}

// Written here so that the crates above don't prove it for each type inside.
impl Drop for Spare {
    fn drop(self) {
        let Spare { chunks: _chunks } = self;
    }
}

impl Spare {
    /// No rows. It takes no memory.
    pub fn new(alloc: Global) -> Spare {
        Spare {
            chunks: Vec::new(alloc),
        }
    }

    /// Keeps the rows of a chunk. Where an allocation fails, they are dropped.
    pub fn keep(&mut self, chunk: Chunk) {
        drop(self.chunks.push(chunk.into_rows()));
    }

    // No rows, over the memory of a chunk's, if one is kept.
    pub(crate) fn rows(&mut self, alloc: Global) -> Rows
        ensures { result ≡ [] }
    {
        match self.chunks.pop() {
            Some(mut rows) => {
                rows.clear();
                rows
            }
            None => Rows::new(alloc),
        }
    }
}
