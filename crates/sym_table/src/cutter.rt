//! Cutting a file into chunks of rows.
ghost use Rattle.std.specs.Prelude.{◌≡◌, ◌≤◌, ◌+◌, ◌^◌, ◌<◌, List, IfOk, IfSome, IsSome, length};
ghost use Rattle.std.specs.List.{All};
ghost use Rattle.sym_base.specs.Limits.{max_fields};
ghost use Rattle.sym_base.specs.declared.limits.TheConstants as limit;
ghost use Rattle.sym_check.specs.Checking.CheckedScripts.{checked_plan};
ghost use Rattle.sym_check.specs.declared.plan.script.FieldPlan.{FieldPlan as OneField};
ghost use Rattle.sym_table.specs.Cutting.{Cuts, HeadsBy, Opens, Takes};
ghost use Rattle.sym_table.specs.FileRows.{file_rows};
ghost use Rattle.sym_table.specs.Rows.{FitsHeader, FitsChunk};

use crate::chunk::Chunk;
use crate::columns::columns_of;
use crate::header::{HeadErr, Header, Places};
use crate::mark::without_mark;
use crate::reader::RowReader;
use crate::row::Row;
use crate::source::RowSource;
use crate::spare::Spare;
use std::alloc::Global;
use std::marker::Model;
use sym_base::NoMemory;
use sym_check::{Checked, FieldPlan, Plan};

/// Reads a file's rows from its bytes where they lie, in chunks or one by one. A contract sees the
/// rows that are left, `None` after memory ran out; the header; the number of the next row;
/// and how many rows a full chunk has.
pub struct Cutter<'a> {
    rows: RowSource<'a>,
    header: Header,
    next_no: u64,
    chunk: u32,
}

// Written here so that the crates above don't prove it for each type inside.
impl<'a> Drop for Cutter<'a> {
    fn drop(self) {
        let Cutter {
            rows: _rows,
            header: _header,
            next_no: _next_no,
            chunk: _chunk,
        } = self;
    }
}

impl<'a> Model for Cutter<'a> {
    ghost use Rattle.sym_table.specs.Cutting.{Cutting, IsCutting};

    ghost Value = { Cutting };

    ghost view = { λ c. record {
      left = c.rows;
      header = c.header;
      next_no = c.next_no;
      chunk = c.chunk;
    } };

    ghost invariant = { λ c. IsCutting c.rows c.next_no c.chunk };
}

// The header of a file that has no rows: nothing is read by it.
fn unused_header(alloc: Global, count: usize) -> Result<Header, NoMemory>
    ensures count { IfOk result (λ h. length h.places ≡ count) }
    ensures within { IfOk result (λ h. All (λ place. place < h.columns) h.places) }
{
    let mut places = Places::new(alloc);
    'places: for _place in 0..count {
        places.push(0)?;
    }
    Ok(Header { places, columns: 1 })
}

// The header by the first row, where there is one.
fn read_header(
    alloc: Global,
    fields: &[FieldPlan],
    reader: &mut RowReader<'_>,
) -> Result<Header, HeadErr>
    requires few { length fields.now ≤ max_fields }
    requires reading { IsSome reader.old }
    ensures reads { IfSome reader.old (λ rows. HeadsBy fields.now rows reader.new result) }
    ensures fits { IfOk result (λ h. FitsHeader fields.now h) }
{
    let mut row = Row::with_room(alloc)?;
    if reader.read(&mut row)? {
        let places = columns_of(alloc, &row, fields)?;
        Ok(Header {
            places,
            columns: row.len() as u64,
        })
    } else {
        Ok(unused_header(alloc, fields.len())?)
    }
}

// Opens a file by the plan of a script.
fn open_by<'a>(
    alloc: Global,
    plan: &Plan,
    bytes: &'a [u8],
    first_no: u64,
    chunk: u32,
) -> Result<Cutter<'a>, HeadErr>
    requires fields { length plan.now.fields ≤ max_fields }
    requires size { length bytes.now ≤ limit.FILE_MAX }
    requires first { first_no ≤ 2 ^ 62 }
    requires some { 1 ≤ chunk }
    requires most { chunk ≤ limit.CHUNK_MAX }
    ensures opens { Opens plan.now.fields (file_rows bytes.now) result }
    ensures fits { IfOk result (λ c. FitsHeader plan.now.fields c.header) }
    ensures numbers { IfOk result (λ c. c.next_no ≡ first_no) }
    ensures chunk { IfOk result (λ c. c.chunk ≡ chunk) }
{
    let bytes = without_mark(bytes);
    let mut reader = RowReader::over(alloc, bytes);
    let header = read_header(alloc, plan.fields.as_slice(), &mut reader)?;
    Ok(Cutter {
        rows: RowSource::after_first(alloc, without_mark(bytes), reader),
        header,
        next_no: first_no,
        chunk,
    })
}

impl<'a> Cutter<'a> {
    /// Opens a file: its first row is the header, by which each field has its column. The rows
    /// after it are numbered from `first_no` on. A file of no rows gives a cutter of no chunks.
    pub fn open(
        alloc: Global,
        checked: &Checked,
        bytes: &'a [u8],
        first_no: u64,
        chunk: u32,
    ) -> Result<Cutter<'a>, HeadErr>
        requires size { length bytes.now ≤ limit.FILE_MAX }
        requires first { first_no ≤ 2 ^ 62 }
        requires some { 1 ≤ chunk }
        requires most { chunk ≤ limit.CHUNK_MAX }
        ensures opens { Opens (checked_plan checked.now).fields (file_rows bytes.now) result }
        ensures fits { IfOk result (λ c. FitsHeader (checked_plan checked.now).fields c.header) }
        ensures numbers { IfOk result (λ c. c.next_no ≡ first_no) }
        ensures chunk { IfOk result (λ c. c.chunk ≡ chunk) }
    {
        open_by(alloc, checked.plan(), bytes, first_no, chunk)
    }

    /// The next chunk: as many rows as a chunk has, or the fewer that are left. `None` exactly
    /// where no row is left. A chunk fits each script that the header fits. After an `Err` each
    /// later call answers one. For callers who keep the chunks: the program cuts over rows that are
    /// done with, by `next_over`.
    pub fn next(&mut self, alloc: Global) -> Result<Option<Chunk>, NoMemory>
        ensures cuts { Cuts self.old self.new result }
        ensures fits { (fields : List OneField) → FitsHeader fields self.old.header →
            IfOk result (λ found. IfSome found (λ cut. FitsChunk fields cut)) }
        ensures header { self.new.header ≡ self.old.header }
        ensures chunk { self.new.chunk ≡ self.old.chunk }
    {
        let mut spare = Spare::new(alloc);
        self.next_over(alloc, &mut spare)
    }

    /// The next chunk, as `next` gives it, read over the memory of rows that are done with. Once
    /// this has grown to the largest chunk's, none is allocated for rows.
    pub fn next_over(&mut self, alloc: Global, spare: &mut Spare) -> Result<Option<Chunk>, NoMemory>
        ensures cuts { Cuts self.old self.new result }
        ensures fits { (fields : List OneField) → FitsHeader fields self.old.header →
            IfOk result (λ found. IfSome found (λ cut. FitsChunk fields cut)) }
        ensures header { self.new.header ≡ self.old.header }
        ensures chunk { self.new.chunk ≡ self.old.chunk }
    {
        let rows = self.rows.take(self.chunk, spare)?;
        if rows.is_empty() {
            return Ok(None);
        }
        match self.header.copy(alloc) {
            Ok(header) => {
                let first_no = self.next_no;
                self.next_no += rows.len() as u64;
                Ok(Some(Chunk {
                    first_no,
                    header,
                    rows,
                }))
            }
            Err(refused) => {
                self.rows.fail();
                Err(refused)
            }
        }
    }

    /// Reads the next row over the memory of `row`: whether there was one. After an `Err` each
    /// later call answers one, and `row` may be any. For callers who take one row at a time.
    pub fn next_row(&mut self, row: &mut Row) -> Result<bool, NoMemory>
        ensures takes { Takes self.old self.new row.new result }
        ensures header { self.new.header ≡ self.old.header }
        ensures chunk { self.new.chunk ≡ self.old.chunk }
    {
        let found = self.rows.read(row)?;
        if found {
            self.next_no += 1;
        }
        Ok(found)
    }

    /// The number of the next row.
    pub fn next_no(&self) -> u64
        ensures { result ≡ self.now.next_no }
    {
        self.next_no
    }

    /// The file's header.
    pub fn header(&self) -> &Header
        ensures { result.now ≡ self.now.header }
    {
        &self.header
    }
}
