//! What a report shows.
ghost use Rattle.std.specs.Prelude.{◌≡◌, IfOk};

use crate::values::memory::NoMemory;
use crate::values::sequence::{Plain, Sequence};
use crate::values::text::{Text, Words};
use crate::values::value::Nums;
use std::alloc::Global;

/// Why a column has no number.
#[derive(Clone, Copy, Debug, PartialEq, Eq)]
pub enum ReportFault {
    /// A step left 128 bits.
    Overflow,
    /// A divisor was zero.
    Zero,
}

/// The value of one column of a report row.
#[derive(PartialEq, Eq)]
pub enum Column {
    Num(i128),
    Word(Text),
    Nums(Nums),
    Words(Words),
    /// An element of an empty list.
    Nothing,
    Bad(ReportFault),
}

impl Drop for Column {
    fn drop(self) {
        match self {
            Column::Num(_) => {}
            Column::Word(_held) => {}
            Column::Nums(_held) => {}
            Column::Words(_held) => {}
            Column::Nothing => {}
            Column::Bad(_) => {}
        }
    }
}

/// A list of columns.
pub type Columns = Sequence<Column>;

impl Column {
    /// An equal column of its own.
    pub fn copy(&self, alloc: Global) -> Result<Column, NoMemory>
        ensures { IfOk result (λ c. c ≡ self.now) }
    {
        match self {
            Column::Num(number) => Ok(Column::Num(*number)),
            Column::Word(text) => Ok(Column::Word(text.copy(alloc)?)),
            Column::Nums(numbers) => Ok(Column::Nums(numbers.copy(alloc)?)),
            Column::Words(words) => Ok(Column::Words(words.copy(alloc)?)),
            Column::Nothing => Ok(Column::Nothing),
            Column::Bad(fault) => Ok(Column::Bad(*fault)),
        }
    }
}

impl Plain for Column {
    fn copied(&self, alloc: Global) -> Result<Column, NoMemory> {
        self.copy(alloc)
    }
}
