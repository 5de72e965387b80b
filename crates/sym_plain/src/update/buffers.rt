//! Memory that the step of one record leaves to the next.
ghost use Rattle.std.specs.Prelude.{◌≡◌, []};

use std::alloc::Global;
use sym_base::Values;

/// Lists that a step fills.
#[derive(Drop)]
pub struct Buffers {
    /// The locals so far, by their numbers.
    pub locals: Values,
    /// The arguments of a test.
    pub args: Values,
}

impl Buffers {
    /// Empty lists. It takes no memory.
    pub fn new(alloc: Global) -> Buffers
        ensures locals { result.locals ≡ [] }
        ensures args { result.args ≡ [] }
    {
        Buffers {
            locals: Values::new(alloc),
            args: Values::new(alloc),
        }
    }
}
