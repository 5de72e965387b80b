//! The rows of a trace.
ghost use Rattle.std.specs.Prelude.{◌≡◌, IfOk};

use std::alloc::Global;
use sym_base::{Key, NoMemory, Outcome, Plain, Sequence};

/// How the group of a record stands after the record.
#[derive(PartialEq, Eq)]
pub struct TraceRow {
    /// The record's number.
    pub no: u64,
    /// The key of the record's group.
    pub key: Key,
    /// How the group stands after its records up to this one.
    pub outcome: Outcome,
}

/// Rows of a trace, in order.
pub type TraceRows = Sequence<TraceRow>;

// Written here so that the crates above don't prove it for each type inside.
impl Drop for TraceRow {
    fn drop(self) {
        let TraceRow {
            no: _no,
            key: _key,
            outcome: _outcome,
        } = self;
    }
}

impl TraceRow {
    /// An equal row of its own.
    pub fn copy(&self, alloc: Global) -> Result<TraceRow, NoMemory>
        ensures { IfOk result (λ row. row ≡ self.now) }
    {
        Ok(TraceRow {
            no: self.no,
            key: self.key.copy(alloc)?,
            outcome: self.outcome.copy(alloc)?,
        })
    }
}

impl Plain for TraceRow {
    fn copied(&self, alloc: Global) -> Result<TraceRow, NoMemory> {
        self.copy(alloc)
    }
}
