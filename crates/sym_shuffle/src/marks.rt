//! The values of the fields that have a mark.
ghost use Rattle.std.specs.Prelude.{◌≡◌, ◌++◌, List, OnOk, drop, length, take};
ghost use Rattle.sym_base.specs.declared.values.value.Value.{Value as OneValue};
ghost use Rattle.sym_reads.specs.Agreement.{where_marked};
ghost use Rattle.sym_shuffle.specs.Shuffling.{marked, width_of};

use crate::packed::PackedValues;
use std::alloc::Global;
use sym_base::{Fields, NoMemory};

/// How many marks there are.
pub(crate) fn width_of(marks: &[bool]) -> usize
    ensures width { result ≡ width_of marks.now }
{
    let mut width = 0;
    'marks: for mark in marks {
        if *mark {
            width += 1;
        }
    }
    width
}

/// Puts copies of the values that have a mark after those of a list. After an `Err` there may be
/// some of them.
pub(crate) fn push_marked(
    values: &mut PackedValues,
    fields: &Fields,
    marks: &[bool],
) -> Result<(), NoMemory>
    ensures { OnOk result (values.new ≡ values.old ++ marked marks.now fields.now) }
{
    'marks: for index in 0..marks.len() {
        if marks[index] {
            if let Some(value) = fields.get(index) {
                values.push(value)?;
            }
        }
    }
    Ok(())
}

/// Makes the values that have a mark equal to those of a list from `first` on, over the memory that
/// they have. After an `Err` they are unspecified.
pub(crate) fn set_marked(
    alloc: Global,
    fields: &mut Fields,
    marks: &[bool],
    values: &PackedValues,
    first: usize,
) -> Result<(), NoMemory>
    ensures { (from : List OneValue) →
        take (width_of marks.now) (drop first values.entry.now) ≡ marked marks.now from →
        length from ≡ length fields.old →
        OnOk result (fields.new ≡ where_marked marks.now from fields.old) }
{
    // There are fewer than a `usize` counts.
    let _count = values.len();
    let mut at = first;
    'marks: for index in 0..marks.len() {
        if marks[index] {
            if let Some(field) = fields.get_mut(index) {
                values.copy_to(alloc, at, field)?;
            }
            at = at.saturating_add(1);
        }
    }
    Ok(())
}
