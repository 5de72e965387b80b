//! Where and why reading stops.

use crate::error::LimitKind;
use std::alloc::{AllocError, AllocFailed};
use sym_base::NoMemory as OutOfMemory;

/// Why the tokens are no script. A place is the number of tokens from there on.
#[derive(Clone, Copy, PartialEq, Eq)]
pub enum Stop {
    /// No sentence of the grammar goes on with the token at this place.
    Expected(usize),
    /// The token at this place begins a thing that passes its number.
    Limit(usize, LimitKind),
    /// An allocation failed.
    NoMemory,
}

impl From<AllocError> for Stop {
    ghost use Rattle.std.specs.Prelude.{◌≡◌};
    ghost use Rattle.sym_parse.specs.declared.stop.Stop.TheVariants.{NoMemory};

    ghost from_gives = { λ _ e. e ≡ NoMemory };

    fn from(_refused: AllocError) -> Stop {
        Stop::NoMemory
    }
}

impl<T: Drop> From<AllocFailed<T>> for Stop {
    ghost use Rattle.std.specs.Prelude.{◌≡◌};
    ghost use Rattle.sym_parse.specs.declared.stop.Stop.TheVariants.{NoMemory};

    ghost from_gives = { λ _ e. e ≡ NoMemory };

    fn from(_refused: AllocFailed<T>) -> Stop {
        Stop::NoMemory
    }
}

impl From<OutOfMemory> for Stop {
    ghost use Rattle.std.specs.Prelude.{◌≡◌};
    ghost use Rattle.sym_parse.specs.declared.stop.Stop.TheVariants.{NoMemory};

    ghost from_gives = { λ _ e. e ≡ NoMemory };

    fn from(_refused: OutOfMemory) -> Stop {
        Stop::NoMemory
    }
}
