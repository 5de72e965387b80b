//! What is told of the partials of a run.
ghost use Rattle.std.specs.Prelude.{◌≡◌, [], ◌∷◌, Some, OnOk, OnErr, IfSome};
ghost use Rattle.sym_watch.specs.Partials.{last_border};
ghost use Rattle.sym_watch.specs.Logs.{grown};

use crate::partial::Partial;
use std::alloc::Global;
use sym_base::NoMemory;

/// An observer, which is told of one partial after the other.
pub trait Observer: Drop {
    ghost use Rattle.std.specs.Prelude.{Option, ℕ};
    ghost use Rattle.sym_watch.specs.Logs.{Log};

    // Its log, the partials that it was told of, in order; None where contracts don't see it.
    ghost log: { Self → Log };

    // The border of the last partial that it was told of.
    ghost last: { Self → Option ℕ };

    /// Tells it of a partial. `Ok` appends that to its log. After an `Err`, for which an allocation
    /// has failed, the log and the last border are as before.
    fn tell(&mut self, alloc: Global, partial: &Partial) -> Result<(), NoMemory>
        ensures ok { OnOk result (log self.new ≡ grown (partial.now ∷ []) (log self.old)) }
        ensures err { OnErr result (log self.new ≡ log self.old) }
        ensures ok_last { OnOk result (last self.new ≡ Some partial.now.upto) }
        ensures err_last { OnErr result (last self.new ≡ last self.old) };

    /// The border of the last partial that it was told of, or `None` if it was told of none.
    fn last(&self) -> Option<u64>
        ensures value { result ≡ last self.now }
        ensures log { IfSome (log self.now) (λ l. result ≡ last_border l) };
}
