//! Pieces of a file.
ghost use Rattle.std.specs.Prelude.{◌≡◌, IfOk};

use crate::header::Header;
use crate::rows::Rows;
use std::alloc::Global;
use sym_base::{NoMemory, Plain, Sequence};

/// Consecutive rows of a file, with its header and the number of the first row.
pub struct Chunk {
    pub first_no: u64,
    pub header: Header,
    pub rows: Rows,
}

// Written here so that the crates above don't prove it for each type inside.
impl Drop for Chunk {
    fn drop(self) {
        let Chunk {
            first_no: _first_no,
            header: _header,
            rows: _rows,
        } = self;
    }
}

/// Chunks, in order.
pub type Chunks = Sequence<Chunk>;

impl Chunk {
    /// An equal chunk of its own.
    pub fn copy(&self, alloc: Global) -> Result<Chunk, NoMemory>
        ensures { IfOk result (λ c. c ≡ self.now) }
    {
        Ok(Chunk {
            first_no: self.first_no,
            header: self.header.copy(alloc)?,
            rows: self.rows.copy(alloc)?,
        })
    }

    /// The chunk's rows. It takes no memory.
    pub fn into_rows(self) -> Rows
        ensures { result ≡ self.rows }
    {
        let Chunk {
            first_no: _first_no,
            header: _header,
            rows,
        } = self;
        rows
    }
}

impl Plain for Chunk {
    fn copied(&self, alloc: Global) -> Result<Chunk, NoMemory> {
        self.copy(alloc)
    }
}
