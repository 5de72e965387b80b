//! The header of a file.
ghost use Rattle.std.specs.Prelude.{◌≡◌, IfOk};

use std::alloc::Global;
use sym_base::{NoMemory, Sequence};
use thiserror::Error;

/// Columns, counted from 0.
pub type Places = Sequence<u64>;

/// Where a file has the fields of a script.
#[derive(PartialEq, Eq)]
pub struct Header {
    /// For each field of the script its column, counted from 0.
    pub places: Places,
    /// The number of columns.
    pub columns: u64,
}

// Written here so that the crates above don't prove it for each type inside.
impl Drop for Header {
    fn drop(self) {
        let Header {
            places: _places,
            columns: _columns,
        } = self;
    }
}

/// What is wrong with a header. A `u16` is a field of the script, counted from 0.
#[derive(Clone, Copy, Debug, PartialEq, Eq)]
pub enum HeadFault {
    /// No column has the field's header text.
    NoField { which: u16 },
    /// Two columns have it.
    Twice { which: u16 },
}

/// Why a file isn't opened.
#[derive(Clone, Copy, Debug, PartialEq, Eq, Error)]
pub enum HeadErr {
    #[error("Fault")]
    Fault(HeadFault),
    #[error("NoMemory")]
    NoMemory,
}

impl From<NoMemory> for HeadErr {
    ghost use Rattle.sym_table.specs.declared.header.HeadErr.TheVariants as head_err;

    ghost from_gives = { λ _ e. e ≡ head_err.NoMemory };

    fn from(_refused: NoMemory) -> HeadErr {
        HeadErr::NoMemory
    }
}

impl Header {
    /// An equal header of its own.
    pub fn copy(&self, alloc: Global) -> Result<Header, NoMemory>
        ensures { IfOk result (λ h. h ≡ self.now) }
    {
        let mut places = Vec::with_capacity(alloc, self.places.len())?;
        places.extend_from_slice(self.places.as_slice())?;
        Ok(Header {
            places: Places::of(places),
            columns: self.columns,
        })
    }
}
