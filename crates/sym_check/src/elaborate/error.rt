//! The first broken rule of a script.
ghost use Rattle.std.specs.Prelude.{◌≡◌};
ghost use Rattle.sym_check.specs.declared.elaborate.error.CheckErr.TheVariants as rule_err;

use std::alloc::AllocFailed;
use sym_base::NoMemory;
use thiserror::Error;

/// Why a script isn't accepted: the first broken rule, with the place of its first byte.
#[derive(Clone, Copy, Debug, PartialEq, Eq, Error)]
pub enum CheckErr {
    /// A name that is used isn't visible there.
    #[error("Name")]
    Name { at: u32 },
    /// A name is taken.
    #[error("Twice")]
    Twice { at: u32 },
    /// Something is of a wrong kind.
    #[error("Kind")]
    Kind { at: u32 },
    /// A range, or the number of a part.
    #[error("Range")]
    Range { at: u32 },
    /// An operator over integer cells that gives no line.
    #[error("NotLinear")]
    NotLinear { at: u32 },
    /// No rule is broken but the last: the path bound, or 1,000,000 where it is more.
    #[error("Branchy")]
    Branchy { paths: u32 },
    /// An allocation failed.
    #[error("NoMemory")]
    NoMemory,
}

impl From<NoMemory> for CheckErr {
    ghost from_gives = { λ _ e. e ≡ rule_err.NoMemory };

    fn from(_refused: NoMemory) -> CheckErr {
        CheckErr::NoMemory
    }
}

impl<T: Drop> From<AllocFailed<T>> for CheckErr {
    ghost from_gives = { λ _ e. e ≡ rule_err.NoMemory };

    fn from(_refused: AllocFailed<T>) -> CheckErr {
        CheckErr::NoMemory
    }
}
