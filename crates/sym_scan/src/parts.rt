//! The parts of a round, which are worked at once.
ghost use Rattle.std.specs.Prelude.{◌≡◌, ◌≤◌, ◌+◌, IfOk, length};
ghost use Rattle.sym_scan.specs.Parts.{AreParts, part_chunks};

use std::alloc::Global;
use sym_base::NoMemory;
use sym_table::Chunk;

/// Neighbouring chunks of a round: the place of the first, and how many there are.
#[derive(Clone, Copy)]
pub(crate) struct Part {
    pub(crate) first: usize,
    pub(crate) count: usize,
}

impl Part {
    /// The chunks of the part.
    pub(crate) fn of<'a>(&self, chunks: &'a [Chunk]) -> &'a [Chunk]
        requires { self.now.first + self.now.count ≤ length chunks.now }
        ensures { result.now ≡ part_chunks chunks.now self.now }
    {
        &chunks[self.first..self.first + self.count]
    }
}

/// The parts of a round of so many chunks, at most one for each worker: all of the same number of
/// chunks, but the last, which may have fewer.
pub(crate) fn parts(alloc: Global, chunks: usize, workers: u32) -> Result<Vec<Part>, NoMemory>
    requires { 1 ≤ workers }
    ensures { IfOk result (λ parts. AreParts 0 chunks parts.items) }
{
    let size = chunks.div_ceil(workers as usize);
    let mut parts = Vec::new(alloc);
    let mut first = 0;
    'parts: while first < chunks {
        let count = size.min(chunks - first);
        parts.push(Part { first, count })?;
        first += count;
    }
    Ok(parts)
}
