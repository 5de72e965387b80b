//! Names as they stand in a script's text.
ghost use Rattle.std.specs.Prelude.{◌≡◌, IfOk};

use crate::values::memory::NoMemory;
use crate::values::sequence::{Plain, Sequence};
use crate::values::text::Text;
use std::alloc::Global;

/// A name and the place of its first byte.
#[derive(PartialEq, Eq)]
pub struct Name {
    pub text: Text,
    pub at: u32,
}

impl Drop for Name {
    fn drop(self) {
        let Name { text: _text, at: _ } = self;
    }
}

/// A list of names.
pub type Names = Sequence<Name>;

impl Name {
    /// An equal name of its own.
    pub fn copy(&self, alloc: Global) -> Result<Name, NoMemory>
        ensures { IfOk result (λ n. n ≡ self.now) }
    {
        Ok(Name {
            text: self.text.copy(alloc)?,
            at: self.at,
        })
    }
}

impl Plain for Name {
    fn copied(&self, alloc: Global) -> Result<Name, NoMemory> {
        self.copy(alloc)
    }
}
