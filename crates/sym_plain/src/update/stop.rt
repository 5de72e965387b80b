//! Why an update stops.
ghost use Rattle.std.specs.Prelude.{◌≡◌};

use sym_base::{FaultKind, NoMemory};
use sym_check::Arith;

/// Why the statements of an update aren't run to their end.
#[derive(Clone, Copy, PartialEq, Eq)]
pub enum Stop {
    /// The group ends.
    Fault(FaultKind),
    NoMemory,
}

impl From<NoMemory> for Stop {
    ghost use Rattle.sym_plain.specs.declared.update.stop.Stop.TheVariants as stop;

    ghost from_gives = { λ _ e. e ≡ stop.NoMemory };

    fn from(_refused: NoMemory) -> Stop {
        Stop::NoMemory
    }
}

impl From<Arith> for Stop {
    ghost use Rattle.sym_plain.specs.declared.update.stop.Stop.TheVariants as stop;
    ghost use Rattle.sym_base.specs.declared.values.state.FaultKind.TheVariants as fault;

    ghost from_gives = { λ _ e. e ≡ stop.Fault fault.Arith };

    fn from(_failed: Arith) -> Stop {
        Stop::Fault(FaultKind::Arith)
    }
}

impl From<FaultKind> for Stop {
    ghost use Rattle.sym_plain.specs.declared.update.stop.Stop.TheVariants as stop;

    ghost from_gives = { λ kind e. e ≡ stop.Fault kind };

    fn from(kind: FaultKind) -> Stop {
        Stop::Fault(kind)
    }
}
