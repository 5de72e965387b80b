//! Why a row isn't read to its end.
ghost use Rattle.std.specs.Prelude.{◌≡◌};

use crate::bad::BadCause;
use sym_base::NoMemory;

/// Why the fields of a row aren't all read.
#[derive(Clone, Copy, PartialEq, Eq)]
pub enum Stop {
    Cause(BadCause),
    NoMemory,
}

impl From<NoMemory> for Stop {
    ghost use Rattle.sym_table.specs.declared.field_values.stop.Stop.TheVariants as stop;

    ghost from_gives = { λ _ e. e ≡ stop.NoMemory };

    fn from(_refused: NoMemory) -> Stop {
        Stop::NoMemory
    }
}
