//! The rows of a chunk.
ghost use Rattle.std.specs.Prelude.{◌≡◌, ◌+◌, ◌++◌, ◌∷◌, ◌==◌, [], IfOk, IfSome, OnOk, OnErr, length};
ghost use Rattle.sym_rows.specs.Pieces.{IsQuoted};
ghost use Rattle.sym_rows.specs.Rows.{BeginsLine, IsPiece, rows_of};
ghost use Rattle.sym_table.specs.RawRows.{IsClosed, IsRaw};

use crate::reader::RowReader;
use crate::row::Row;
use std::alloc::Global;
use std::collections::VecDeque;
use std::marker::Model;
use sym_base::NoMemory;

/// Rows, in order. Those of a file are kept as the bytes that they are read from, and are read by a
/// `RowCursor`. A contract sees the list of the rows, each as the list of its fields' bytes.
pub struct Rows {
    // Bytes of a file, which begin with the end of the line before their first row.
    raw: Vec<u8>,
    // How many rows the bytes have.
    count: usize,
    // The rows that were added after them.
    pushed: Vec<Row>,
}

// Written here so that the crates above don't prove it for each type inside.
impl Drop for Rows {
    fn drop(self) {
        let Rows {
            raw: _raw,
            count: _count,
            pushed: _pushed,
        } = self;
    }
}

impl Model for Rows {
    ghost use Rattle.std.specs.Prelude.{◌++◌, List, ℕ};
    ghost use Rattle.sym_rows.specs.Rows.{rows_of};
    ghost use Rattle.sym_table.specs.RawRows.{AreRaw};

    ghost Value = { List (List (List ℕ)) };

    ghost view = { λ r. rows_of r.raw.items ++ r.pushed.items };

    ghost invariant = { λ r. AreRaw r.raw.items r.count };
}

// Copies bytes over others. Where they end within quotes, these are closed.
fn copy_bytes(raw: &mut Vec<u8>, bytes: &[u8], quoted: bool) -> Result<(), NoMemory>
    requires quoted { IsQuoted quoted bytes.now }
    requires begins { BeginsLine bytes.now }
    ensures { OnOk result (IsClosed bytes.now raw.new.items) }
{
    raw.clear();
    raw.extend_from_slice(bytes)?;
    if quoted {
        raw.push(b'"')?;
    }
    Ok(())
}

// Equal rows of their own.
fn copy_rows(alloc: Global, rows: &[Row]) -> Result<Vec<Row>, NoMemory>
    ensures { IfOk result (λ copied. copied.items ≡ rows.now) }
{
    let mut copied = Vec::with_capacity(alloc, rows.len())?;
    'rows: for row in rows {
        copied.push(row.copy(alloc)?)?;
    }
    Ok(copied)
}

// Adds a copy of a row as the last one.
fn push_copy(rows: &mut Vec<Row>, row: &Row) -> Result<(), NoMemory>
    ensures { OnOk result (rows.new.items ≡ rows.old.items ++ row.now ∷ []) }
{
    let fields = row.fields.clone()?;
    rows.push(Row { fields })?;
    Ok(())
}

// Adds copies of the rows of bytes to others.
fn list_raw(
    alloc: Global,
    bytes: &[u8],
    count: usize,
    rows: &mut VecDeque<Row>,
) -> Result<(), NoMemory>
    requires begins { BeginsLine bytes.now }
    requires count { count ≡ length (rows_of bytes.now) }
    ensures { OnOk result (rows.new.items ≡ rows.old.items ++ rows_of bytes.now) }
{
    let mut reader = RowReader::over(alloc, bytes);
    let mut row = Row::new(alloc);
    'rows: for _row in 0..count {
        if !reader.read(&mut row)? {
            return Ok(());
        }
        rows.push_back(row.copy(alloc)?)?;
    }
    Ok(())
}

impl Rows {
    /// No rows. It takes no memory.
    pub fn new(alloc: Global) -> Rows
        ensures { result ≡ [] }
    {
        Rows {
            raw: Vec::new(alloc),
            count: 0,
            pushed: Vec::new(alloc),
        }
    }

    /// Equal rows of their own.
    pub fn copy(&self, alloc: Global) -> Result<Rows, NoMemory>
        ensures { IfOk result (λ rows. rows ≡ self.now) }
    {
        let mut raw = Vec::with_capacity(alloc, self.raw.len())?;
        raw.extend_from_slice(self.raw.as_slice())?;
        Ok(Rows {
            raw,
            count: self.count,
            pushed: copy_rows(alloc, self.pushed.as_slice())?,
        })
    }

    /// The number of rows.
    pub fn len(&self) -> usize
        ensures { result ≡ length self.now }
    {
        self.count + self.pushed.len()
    }

    /// Whether there are no rows.
    pub fn is_empty(&self) -> bool
        ensures { result ≡ (length self.now == 0) }
    {
        self.count == 0 && self.pushed.is_empty()
    }

    /// Adds a copy of a row as the last one. After an `Err` there are no rows.
    pub fn push(&mut self, row: &Row) -> Result<(), NoMemory>
        ensures ok { OnOk result (self.new ≡ self.old ++ row.now ∷ []) }
        ensures err { OnErr result (self.new ≡ []) }
    {
        match push_copy(&mut self.pushed, row) {
            Ok(()) => Ok(()),
            Err(refused) => {
                self.clear();
                Err(refused)
            }
        }
    }

    /// Drops all rows. The memory of those that were read from a file is kept for others.
    pub fn clear(&mut self)
        ensures { self.new ≡ [] }
    {
        self.raw.clear();
        self.count = 0;
        self.pushed.clear();
    }

    /// Puts the rows of a file's bytes in the place of all rows. After an `Err` there are no rows.
    #[tactic(auto, using(crate::proofs::Raws::no_raw, crate::proofs::Raws::nothing_there))]
    pub(crate) fn set_raw(
        &mut self,
        bytes: &[u8],
        count: usize,
        quoted: bool,
    ) -> Result<(), NoMemory>
        requires begins { BeginsLine bytes.now }
        requires quoted { IsQuoted quoted bytes.now }
        requires count { count ≡ length (rows_of bytes.now) }
        ensures ok { OnOk result (self.new ≡ rows_of bytes.now) }
        ensures err { OnErr result (self.new ≡ []) }
    {
        self.pushed.clear();
        match copy_bytes(&mut self.raw, bytes, quoted) {
            Ok(()) => {
                self.count = count;
                Ok(())
            }
            Err(refused) => {
                self.raw.clear();
                self.count = 0;
                Err(refused)
            }
        }
    }

    /// The bytes of all rows, unless some were added after those of a file.
    pub(crate) fn raw(&self) -> Option<&[u8]>
        ensures { IfSome result (λ bytes. IsRaw bytes.now self.now) }
    {
        if self.pushed.is_empty() {
            Some(self.raw.as_slice())
        } else {
            None
        }
    }

    /// Adds copies of all rows to others.
    pub(crate) fn list(&self, alloc: Global, rows: &mut VecDeque<Row>) -> Result<(), NoMemory>
        ensures { OnOk result (rows.new.items ≡ rows.old.items ++ self.now) }
    {
        list_raw(alloc, self.raw.as_slice(), self.count, rows)?;
        'rows: for row in self.pushed.as_slice() {
            rows.push_back(row.copy(alloc)?)?;
        }
        Ok(())
    }
}
