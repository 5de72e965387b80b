//! What a path says of one cell of the state before it.
ghost use Rattle.std.specs.Prelude.{◌≡◌, IfOk};

use std::alloc::Global;
use sym_base::{NoMemory, Plain, Sequence};
use sym_enum::LabelSet;
use sym_int::Span;
use sym_pred::Facts;

/// What is known of one cell.
#[derive(PartialEq, Eq, Drop)]
pub enum Part {
    /// The label of an enum cell is in the set.
    Set(LabelSet),
    /// The number of an integer cell is in the span.
    Span(Span),
    /// The parts of a hold cell give each literal's outcome.
    Facts(Facts),
    /// Nothing is known of a list cell.
    Free,
}

/// One part for each cell.
pub type Constraint = Sequence<Part>;

impl Part {
    /// An equal part of its own.
    pub fn copy(&self, alloc: Global) -> Result<Part, NoMemory>
        ensures { IfOk result (λ part. part ≡ self.now) }
    {
        match self {
            Part::Set(set) => Ok(Part::Set(*set)),
            Part::Span(span) => Ok(Part::Span(*span)),
            Part::Facts(facts) => Ok(Part::Facts(facts.copy(alloc)?)),
            Part::Free => Ok(Part::Free),
        }
    }
}

impl Plain for Part {
    fn copied(&self, alloc: Global) -> Result<Part, NoMemory> {
        self.copy(alloc)
    }
}
