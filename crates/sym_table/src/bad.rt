//! Rows that are no records.
ghost use Rattle.std.specs.Prelude.{◌≡◌, IfOk};

use std::alloc::Global;
use sym_base::{NoMemory, Record};

/// Why a row isn't a record. A `u16` is a field of the script, counted from 0.
#[derive(Clone, Copy, Debug, PartialEq, Eq)]
pub enum BadCause {
    /// The row has this number of fields, and the header another.
    Fields(u64),
    /// The text isn't a number in the range of numbers.
    Number(u16),
    /// The text isn't the name of a label of the field's enum.
    Label(u16),
    /// The bytes aren't UTF-8.
    Utf8(u16),
}

/// A row that isn't a record: its number, counted as records are, and the first rule that it
/// breaks.
#[derive(Clone, Copy, Debug, PartialEq, Eq)]
pub struct Bad {
    pub no: u64,
    pub cause: BadCause,
}

/// What a row is.
#[derive(PartialEq, Eq, Drop)]
pub enum Decoded {
    Is(Record),
    Bad(Bad),
}

impl Decoded {
    /// An equal answer of its own.
    pub fn copy(&self, alloc: Global) -> Result<Decoded, NoMemory>
        ensures { IfOk result (λ d. d ≡ self.now) }
    {
        match self {
            Decoded::Is(rec) => Ok(Decoded::Is(rec.copy(alloc)?)),
            Decoded::Bad(bad) => Ok(Decoded::Bad(*bad)),
        }
    }
}
