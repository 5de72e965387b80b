//! Records that are kept until the threads of their groups step them.
ghost use Rattle.std.specs.Prelude.{◌≡◌, [], IfOk};

use crate::packed::PackedValues;
use std::alloc::Global;
use sym_base::NoMemory;

/// Records in order. Of each the place of its group, its number, and the values of the fields that
/// the update reads, which stand in one list for all records.
pub(crate) struct Batch {
    pub(crate) places: Vec<usize>,
    pub(crate) numbers: Vec<u64>,
    pub(crate) values: PackedValues,
}

// Written here so that what owns one doesn't prove it again.
impl Drop for Batch {
    fn drop(self) {
        let Batch {
            places: _places,
            numbers: _numbers,
            values: _values,
        } = self;
    }
}

impl Batch {
    /// No records, and room for so many with so many values each.
    pub(crate) fn with_room(alloc: Global, count: usize, width: usize) -> Result<Batch, NoMemory>
        ensures places { IfOk result (λ batch. batch.places.items ≡ []) }
        ensures numbers { IfOk result (λ batch. batch.numbers.items ≡ []) }
        ensures values { IfOk result (λ batch. batch.values ≡ []) }
    {
        Ok(Batch {
            places: Vec::with_capacity(alloc, count)?,
            numbers: Vec::with_capacity(alloc, count)?,
            values: PackedValues::with_room(alloc, count.saturating_mul(width))?,
        })
    }
}
