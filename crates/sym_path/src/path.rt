//! One path: which states it is for, and what the records make of them.
ghost use Rattle.std.specs.Prelude.{◌≡◌, IfOk};

use crate::form::Forms;
use crate::part::Constraint;
use std::alloc::Global;
use sym_base::{Fault, NoMemory, Plain};

/// How a path ends.
#[derive(PartialEq, Eq, Drop)]
pub enum PathEnd {
    /// The group goes on: what each cell holds then.
    Next(Forms),
    /// The group ends by this fault.
    Ended(Fault),
}

/// What some records do to the states that the constraint admits.
#[derive(PartialEq, Eq, Drop)]
pub struct Path {
    pub when: Constraint,
    pub end: PathEnd,
}

impl PathEnd {
    /// An equal end of its own.
    pub fn copy(&self, alloc: Global) -> Result<PathEnd, NoMemory>
        ensures { IfOk result (λ end. end ≡ self.now) }
    {
        match self {
            PathEnd::Next(forms) => Ok(PathEnd::Next(forms.copy(alloc)?)),
            PathEnd::Ended(fault) => Ok(PathEnd::Ended(*fault)),
        }
    }
}

impl Path {
    /// An equal path of its own.
    pub fn copy(&self, alloc: Global) -> Result<Path, NoMemory>
        ensures { IfOk result (λ path. path ≡ self.now) }
    {
        let when = self.when.copy(alloc)?;
        let end = self.end.copy(alloc)?;
        Ok(Path { when, end })
    }
}

impl Plain for Path {
    fn copied(&self, alloc: Global) -> Result<Path, NoMemory> {
        self.copy(alloc)
    }
}
