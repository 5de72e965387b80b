//! Reading the rows of chunks.
ghost use Rattle.std.specs.Prelude.{◌≡◌, ◌+◌, ◌<◌, ◌^◌, IfOk, Some};
ghost use Rattle.sym_table.specs.ChunkRecords.{all_rows};
ghost use Rattle.sym_table.specs.Reading.{Reads};

use crate::chunk::Chunk;
use crate::reader::RowReader;
use crate::row::Row;
use std::alloc::Global;
use std::collections::VecDeque;
use std::marker::Model;
use sym_base::NoMemory;

/// Reads the rows of neighbouring chunks, one after the other, where they lie. A contract sees the
/// rows that are left, or `None` after memory ran out.
pub struct RowCursor<'a> {
    // Rows that are read before those of the reader.
    listed: VecDeque<Row>,
    reader: RowReader<'a>,
}

// Written here so that the crates above don't prove it for each type inside.
impl<'a> Drop for RowCursor<'a> {
    fn drop(self) {
        let RowCursor {
            listed: _listed,
            reader: _reader,
        } = self;
    }
}

impl<'a> Model for RowCursor<'a> {
    ghost use Rattle.std.specs.Prelude.{◌++◌, List, Option, option_map};
    ghost use Rattle.sym_table.specs.Reading.{Row as OneRow};

    ghost Value = { Option (List OneRow) };

    ghost view = { λ c. option_map (λ rows. c.listed.items ++ rows) c.reader };
}

// No more bytes than this are read in all.
const SIZE_MAX: u64 = 0x7FFF_FFFF_FFFF_FFFF;

// The size of bytes and more.
fn added(size: u64, more: u64) -> Result<u64, NoMemory>
    ensures { IfOk result (λ sum. (sum ≡ size + more) × (sum < 2 ^ 63)) }
{
    match size.checked_add(more) {
        Some(sum) if sum <= SIZE_MAX => Ok(sum),
        _ => Err(NoMemory),
    }
}

impl<'a> RowCursor<'a> {
    /// The rows of these chunks, in order. Those of files are read where they lie; where rows were
    /// added to a chunk, all rows of the chunks are copied first.
    pub fn over(alloc: Global, chunks: &'a [Chunk]) -> Result<RowCursor<'a>, NoMemory>
        ensures { IfOk result (λ c. c ≡ Some (all_rows chunks.now)) }
    {
        let mut pieces = Vec::with_capacity(alloc, chunks.len())?;
        let mut size = 0u64;
        'chunks: for chunk in chunks {
            match chunk.rows.raw() {
                Some(bytes) => {
                    size = added(size, bytes.len() as u64)?;
                    pieces.push(bytes)?;
                }
                None => return RowCursor::listed(alloc, chunks),
            }
        }
        Ok(RowCursor {
            listed: VecDeque::new(alloc),
            reader: RowReader::over_pieces(alloc, pieces, size),
        })
    }

    // Copies of the rows of these chunks.
    fn listed(alloc: Global, chunks: &[Chunk]) -> Result<RowCursor<'a>, NoMemory>
        ensures { IfOk result (λ c. c ≡ Some (all_rows chunks.now)) }
    {
        let mut listed = VecDeque::new(alloc);
        'chunks: for chunk in chunks {
            chunk.rows.list(alloc, &mut listed)?;
        }
        Ok(RowCursor {
            listed,
            reader: RowReader::over(alloc, &[]),
        })
    }

    /// Reads the next row over the memory of `row`: whether there was one. After an `Err` each
    /// later call answers one, and `row` may be any.
    pub fn read(&mut self, row: &mut Row) -> Result<bool, NoMemory>
        ensures { Reads self.old self.new row.new result }
    {
        if self.listed.is_empty() {
            return self.reader.read(row);
        }
        if self.reader.has_failed() {
            return Err(NoMemory);
        }
        match self.listed.pop_front() {
            Some(next) => {
                *row = next;
                Ok(true)
            }
            None => self.reader.read(row),
        }
    }
}
