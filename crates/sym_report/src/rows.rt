//! What a report shows: names, and rows of values or faults.
ghost use Rattle.std.specs.Prelude.{◌≡◌, ◌↔◌, IfOk, IsTrue};
ghost use Rattle.std.specs.List.{list_any};
ghost use Rattle.sym_report.specs.Forms.{HasColumns, IsUnder};
ghost use Rattle.sym_report.specs.ReportRows.{is_bad, is_faulty};

use std::alloc::Global;
use sym_base::{Column, Columns, NoMemory, Plain, Text, Texts};

/// The names above a report's rows.
#[derive(PartialEq, Eq, Drop)]
pub struct Heads {
    /// The names of the fields of the group line, in the line's order; none where all records are
    /// of one group.
    pub keys: Texts,
    /// The names of the columns, in order of declaration.
    pub columns: Texts,
}

/// What a report shows of a group.
#[derive(PartialEq, Eq, Drop)]
pub struct Row {
    /// The values of the group line's fields, in the line's order; none where all records are of
    /// one group.
    pub keys: Columns,
    pub body: RowBody,
}

/// What a row shows after its keys.
#[derive(PartialEq, Eq, Drop)]
pub enum RowBody {
    /// The columns of the group's last state, in order of declaration.
    Columns(Columns),
    /// A number outside the range of the cell of this name, at the record of this number.
    Over { cell: Text, no: u64 },
    /// Arithmetic that failed, at the record of this number.
    Arith { no: u64 },
}

impl Heads {
    /// Equal heads of their own.
    pub fn copy(&self, alloc: Global) -> Result<Heads, NoMemory>
        ensures { IfOk result (λ h. h ≡ self.now) }
    {
        let keys = self.keys.copy(alloc)?;
        let columns = self.columns.copy(alloc)?;
        Ok(Heads { keys, columns })
    }
}

impl Row {
    /// An equal row of its own.
    pub fn copy(&self, alloc: Global) -> Result<Row, NoMemory>
        ensures { IfOk result (λ r. r ≡ self.now) }
    {
        let keys = self.keys.copy(alloc)?;
        let body = self.body.copy(alloc)?;
        Ok(Row { keys, body })
    }

    /// Whether the row belongs under these names: it has as many keys, and as many columns unless
    /// it shows a fault.
    pub fn is_under(&self, heads: &Heads) -> bool
        ensures { IsTrue result ↔ IsUnder heads.now self.now }
    {
        self.keys.len() == heads.keys.len() && has_columns(&heads.columns, &self.body)
    }
}

impl Plain for Row {
    fn copied(&self, alloc: Global) -> Result<Row, NoMemory> {
        self.copy(alloc)
    }
}

// Whether the body has a column for each name, unless it shows a fault.
fn has_columns(names: &Texts, body: &RowBody) -> bool
    ensures { IsTrue result ↔ HasColumns names.now body.now }
{
    match body {
        RowBody::Columns(columns) => columns.len() == names.len(),
        RowBody::Over { .. } => true,
        RowBody::Arith { .. } => true,
    }
}

// Whether a column couldn't be computed.
fn is_bad(column: &Column) -> bool
    ensures { result ≡ is_bad column.now }
{
    matches!(column, Column::Bad(_))
}

// Whether some column couldn't be computed.
fn some_bad(columns: &[Column]) -> bool
    ensures { result ≡ list_any is_bad columns.now }
{
    columns.iter().any(|column| is_bad(column))
}

impl RowBody {
    /// An equal body of its own.
    pub fn copy(&self, alloc: Global) -> Result<RowBody, NoMemory>
        ensures { IfOk result (λ b. b ≡ self.now) }
    {
        match self {
            RowBody::Columns(columns) => Ok(RowBody::Columns(columns.copy(alloc)?)),
            RowBody::Over { cell, no } => {
                let cell = cell.copy(alloc)?;
                Ok(RowBody::Over { cell, no: *no })
            }
            RowBody::Arith { no } => Ok(RowBody::Arith { no: *no }),
        }
    }

    /// Whether the row shows a fault, or a column that couldn't be computed.
    pub fn is_faulty(&self) -> bool
        ensures { result ≡ is_faulty self.now }
    {
        match self {
            RowBody::Columns(columns) => some_bad(columns.as_slice()),
            RowBody::Over { .. } => true,
            RowBody::Arith { .. } => true,
        }
    }
}
