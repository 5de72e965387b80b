//! The rows of a file that are left.
ghost use Rattle.std.specs.Prelude.{◌≡◌, ◌≤◌, None, Some, drop};
ghost use Rattle.sym_rows.specs.Rows.{rows_of};
ghost use Rattle.sym_table.specs.Cutting.{ReadsOnto, TakesRows};
ghost use Rattle.sym_table.specs.Reading.{Reads};

use crate::reader::RowReader;
use crate::row::Row;
use crate::rows::Rows;
use crate::spare::Spare;
use std::alloc::Global;
use std::marker::Model;
use std::mem;
use sym_base::NoMemory;
use sym_rows::next_piece;

/// The rows of a file that are left: they are cut off as bytes, or read one by one. A contract sees
/// these rows, or `None` after memory ran out.
pub struct RowSource<'a> {
    alloc: Global,
    bytes: &'a [u8],
    // Where the bytes of the rows that are left begin, with the end of the line before them.
    at: usize,
    // The rows are read one by one, or memory ran out: the reader has those that are left.
    by_reader: bool,
    reader: RowReader<'a>,
    // The row that was read last, over whose memory the next one is read.
    row: Row,
}

// Written here so that the crates above don't prove it for each type inside.
impl<'a> Drop for RowSource<'a> {
    fn drop(self) {
        let RowSource {
            alloc: _alloc,
            bytes: _bytes,
            at: _at,
            by_reader: _by_reader,
            reader: _reader,
            row: _row,
        } = self;
    }
}

impl<'a> Model for RowSource<'a> {
    ghost use Rattle.std.specs.Prelude.{List, Option, drop};
    ghost use Rattle.sym_table.specs.RawRows.{IsSource, source_rows};
    ghost use Rattle.sym_table.specs.Reading.{Row as OneRow};

    ghost Value = { Option (List OneRow) };

    ghost view = { λ s. source_rows s.by_reader s.reader (drop s.at s.bytes.now) };

    ghost invariant = { λ s. IsSource s.bytes.now s.at };
}

// Reads the next row and adds it to others: whether there was one.
fn read_onto(reader: &mut RowReader<'_>, row: &mut Row, rows: &mut Rows) -> Result<bool, NoMemory>
    ensures { ReadsOnto reader.old reader.new rows.old rows.new result }
{
    if !reader.read(row)? {
        return Ok(false);
    }
    match rows.push(row) {
        Ok(()) => Ok(true),
        Err(refused) => {
            reader.fail();
            Err(refused)
        }
    }
}

// The next rows, `count` of them or those that are left, each read over the memory of `row`.
fn take_rows(
    alloc: Global,
    reader: &mut RowReader<'_>,
    row: &mut Row,
    count: u32,
    spare: &mut Spare,
) -> Result<Rows, NoMemory>
    requires { 1 ≤ count }
    ensures { TakesRows count reader.old reader.new result }
{
    if reader.has_failed() {
        return Err(NoMemory);
    }
    let mut rows = spare.rows(alloc);
    'rows: for _row in 0..count {
        if !read_onto(reader, row, &mut rows)? {
            return Ok(rows);
        }
    }
    Ok(rows)
}

impl<'a> RowSource<'a> {
    /// The rows after the first one of a file's bytes, which have no mark. `reader` has read it.
    pub fn after_first(alloc: Global, bytes: &'a [u8], reader: RowReader<'a>) -> RowSource<'a>
        requires { reader ≡ Some (drop 1 (rows_of bytes.now)) }
        ensures { result ≡ reader.entry }
    {
        RowSource {
            alloc,
            bytes,
            at: next_piece(bytes, 0, 1).end,
            by_reader: false,
            reader,
            row: Row::new(alloc),
        }
    }

    /// Reads no row any more, as where memory ran out.
    pub fn fail(&mut self)
        ensures { self.new ≡ None }
    {
        self.by_reader = true;
        self.reader.fail();
    }

    /// Reads the next row over the memory of `row`: whether there was one. After an `Err` each
    /// later call answers one, and `row` may be any.
    pub fn read(&mut self, row: &mut Row) -> Result<bool, NoMemory>
        ensures { Reads self.old self.new row.new result }
    {
        if self.by_reader {
            return self.reader.read(row);
        }
        let mut reader = RowReader::over(self.alloc, &self.bytes[self.at..]);
        let found = reader.read(row);
        self.by_reader = true;
        drop(mem::replace(&mut self.reader, reader));
        found
    }

    /// The next rows, `count` of them or those that are left, over the memory of rows that are done
    /// with. They are cut off as bytes, unless rows were read one by one before.
    pub fn take(&mut self, count: u32, spare: &mut Spare) -> Result<Rows, NoMemory>
        requires { 1 ≤ count }
        ensures { TakesRows count self.old self.new result }
    {
        if self.by_reader {
            return take_rows(self.alloc, &mut self.reader, &mut self.row, count, spare);
        }
        let piece = next_piece(self.bytes, self.at, count);
        let mut rows = spare.rows(self.alloc);
        match rows.set_raw(&self.bytes[self.at..piece.end], piece.rows, piece.quoted) {
            Ok(()) => {
                self.at = piece.end;
                Ok(rows)
            }
            Err(refused) => {
                self.fail();
                Err(refused)
            }
        }
    }
}
