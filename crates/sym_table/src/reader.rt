//! Rows, one after the other.
ghost use Rattle.std.specs.Prelude.{◌≡◌, ◌≤◌, ◌+◌, ◌<◌, ◌^◌, length, map, Some, None, IfSome};
ghost use Rattle.std.specs.List.{All, concat, flat_map};
ghost use Rattle.std.specs.Option.{is_none};
ghost use Rattle.csv.specs.Records.{fields_of};
ghost use Rattle.csv.specs.Reading.{default_config, records_from, strip_bom};
ghost use Rattle.csv.specs.declared.parser.State.TheVariants as st;
ghost use Rattle.sym_rows.specs.Pieces.{pieces_left};
ghost use Rattle.sym_rows.specs.Rows.{IsPiece, rows_of};
ghost use Rattle.sym_table.specs.FileRows.{csv_rows};
ghost use Rattle.sym_table.specs.Reading.{IsReading, Reads, ReadsRecord, bytes_left};

use crate::mark::without_mark;
use crate::row::Row;
use csv::{ByteRecord, Reader, ReaderBuilder};
use std::alloc::Global;
use std::marker::Model;
use sym_base::NoMemory;
use sym_rows::Pieces;

/// How far a reader is.
#[derive(Clone, Copy, PartialEq, Eq)]
pub enum Stage {
    Reading,
    Ended,
    Failed,
}

/// Reads rows of CSV from bytes where they lie. A contract sees the rows that are left, or `None`
/// after memory ran out.
#[derive(Drop)]
pub struct RowReader<'a> {
    reader: Reader<Pieces<'a>>,
    stage: Stage,
    // No more rows than this are left.
    most: u64,
}

impl<'a> Model for RowReader<'a> {
    ghost use Rattle.std.specs.Prelude.{List, ℕ, Option, Some};
    ghost use Rattle.sym_table.specs.Reading.{Row as OneRow, IsReader, bytes_left, rows_left};

    ghost Value = { Option (List OneRow) };

    ghost view = { λ s. rows_left bytes_left s.stage s.most s.reader };

    ghost invariant = { λ s. IsReader bytes_left s.stage s.reader };
}

// Reads a record. Over bytes that lie in memory `csv` has no failure but a refusal of memory.
fn read_record(reader: &mut Reader<Pieces<'_>>, row: &mut ByteRecord) -> Result<bool, NoMemory>
    requires { IsReading bytes_left reader.old }
    ensures { let row = fields_of row.new in
        ReadsRecord bytes_left reader.old reader.new row result }
{
    match reader.read_byte_record(row) {
        Ok(found) => Ok(found),
        Err(_) => Err(NoMemory),
    }
}

impl<'a> RowReader<'a> {
    // At most so many rows of these bytes.
    fn of(alloc: Global, source: Pieces<'a>, most: u64) -> RowReader<'a>
        ensures { let bytes = strip_bom (pieces_left source.entry) in
            result ≡ Some (records_from default_config most st.StartRecord bytes) }
    {
        let reader = ReaderBuilder::new()
            .has_headers(false)
            .flexible(true)
            .from_reader(alloc, source);
        RowReader {
            reader,
            stage: Stage::Reading,
            most,
        }
    }

    /// The rows of these bytes. It takes no memory.
    pub fn over(alloc: Global, bytes: &'a [u8]) -> RowReader<'a>
        ensures rows { result ≡ Some (csv_rows bytes.now) }
        ensures few { IfSome result (λ rows. length rows ≤ length bytes.now + 1) }
    {
        let most = without_mark(bytes).len() as u64 + 1;
        RowReader::of(alloc, Pieces::one(alloc, bytes), most)
    }

    /// The rows of pieces, which are read one after the other. They have `size` bytes in all.
    pub fn over_pieces(alloc: Global, pieces: Vec<&'a [u8]>, size: u64) -> RowReader<'a>
        requires pieces { All IsPiece (map (λ piece. piece.now) pieces.items) }
        requires size { size ≡ length (concat (map (λ piece. piece.now) pieces.items)) }
        requires few { size < 2 ^ 63 }
        ensures { result ≡ Some (flat_map rows_of (map (λ piece. piece.now) pieces.entry.items)) }
    {
        RowReader::of(alloc, Pieces::of(pieces), size + 1)
    }

    /// Whether memory ran out, after which no row is read.
    pub fn has_failed(&self) -> bool
        ensures { result ≡ is_none self.now }
    {
        match self.stage {
            Stage::Reading | Stage::Ended => false,
            Stage::Failed => true,
        }
    }

    /// Reads no row any more, as where memory ran out.
    pub fn fail(&mut self)
        ensures { self.new ≡ None }
    {
        self.stage = Stage::Failed;
    }

    /// Reads the next row over the memory of `row`: whether there was one. After an `Err` each
    /// later call answers one, and `row` may be any.
    pub fn read(&mut self, row: &mut Row) -> Result<bool, NoMemory>
        ensures { Reads self.old self.new row.new result }
    {
        match self.stage {
            Stage::Reading => {
                if self.most == 0 {
                    self.stage = Stage::Ended;
                    return Ok(false);
                }
                match read_record(&mut self.reader, &mut row.fields) {
                    Ok(true) => {
                        self.most -= 1;
                        Ok(true)
                    }
                    Ok(false) => {
                        self.stage = Stage::Ended;
                        Ok(false)
                    }
                    Err(refused) => {
                        self.stage = Stage::Failed;
                        Err(refused)
                    }
                }
            }
            Stage::Ended => Ok(false),
            Stage::Failed => Err(NoMemory),
        }
    }
}
