//! One row of a file, read by a script's fields.
ghost use Rattle.std.specs.Prelude.{◌≡◌, IfOk};

use crate::values::memory::NoMemory;
use crate::values::value::Fields;
use std::alloc::Global;

/// A record: its number, counted from 1 over all files, and one value for each field of the
/// script, in order of declaration.
#[derive(PartialEq, Eq)]
pub struct Record {
    pub no: u64,
    pub fields: Fields,
}

impl Drop for Record {
    fn drop(self) {
        let Record {
            no: _,
            fields: _fields,
        } = self;
    }
}

impl Record {
    /// An equal record of its own.
    pub fn copy(&self, alloc: Global) -> Result<Record, NoMemory>
        ensures { IfOk result (λ r. r ≡ self.now) }
    {
        Ok(Record {
            no: self.no,
            fields: self.fields.copy(alloc)?,
        })
    }
}
