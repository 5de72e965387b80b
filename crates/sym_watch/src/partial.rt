//! A partial report.
ghost use Rattle.std.specs.Prelude.{◌≡◌, ◌↔◌, IsTrue, IfOk};

use std::alloc::Global;
use sym_base::{NoMemory, Sequence};
use sym_report::Row;

/// Report rows, in the order of the groups.
pub type ReportRows = Sequence<Row>;

/// The report over the first records of a run, up to the last one of a round.
#[derive(PartialEq, Eq)]
pub struct Partial {
    /// The border: the number of the last record that the rows are over, counted from 1.
    pub upto: u64,
    pub rows: ReportRows,
}

impl Drop for Partial {
    fn drop(self) {
        let Partial {
            upto: _,
            rows: _rows,
        } = self;
    }
}

impl Partial {
    /// An equal partial of its own.
    pub fn copy(&self, alloc: Global) -> Result<Partial, NoMemory>
        ensures { IfOk result (λ p. p ≡ self.now) }
    {
        Ok(Partial {
            upto: self.upto,
            rows: self.rows.copy(alloc)?,
        })
    }

    /// Whether it is an equal partial: it has the same border and the same rows.
    pub fn is_same(&self, other: &Partial) -> bool
        ensures { IsTrue result ↔ (self.now ≡ other.now) }
    {
        self == other
    }
}
