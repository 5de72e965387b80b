//! Why a text has no tokens.

use std::alloc::AllocFailed;
use sym_base::NoMemory as OutOfMemory;
use thiserror::Error;

/// The first place of a text at which no token can stand. `at` counts bytes from 0.
#[derive(Clone, Copy, Debug, PartialEq, Eq)]
pub enum LexFault {
    /// A byte that begins no token.
    BadByte { at: u32 },
    /// The first digit of a number that is more than 10^12, or that a letter or `_` follows at
    /// once.
    BadNumber { at: u32 },
    /// The first byte of a name or keyword of more than 64 bytes.
    LongName { at: u32 },
    /// The opening quote of a text that has no closing quote before LF or the end, has an escape
    /// other than `\"` and `\\`, or isn't UTF-8.
    BadText { at: u32 },
}

/// Why `lex` gives no tokens.
#[derive(Debug, PartialEq, Eq, Drop, Error)]
pub enum LexErr {
    /// The text breaks the lexical rules: here first.
    #[error("Fault")]
    Fault(LexFault),
    /// An allocation failed.
    #[error("NoMemory")]
    NoMemory,
}

impl<T: Drop> From<AllocFailed<T>> for LexErr {
    ghost use Rattle.std.specs.Prelude.{◌≡◌};
    ghost use Rattle.sym_lex.specs.declared.error.LexErr.TheVariants.{NoMemory};

    ghost from_gives = { λ _ e. e ≡ NoMemory };

    fn from(_refused: AllocFailed<T>) -> LexErr {
        LexErr::NoMemory
    }
}

impl From<OutOfMemory> for LexErr {
    ghost use Rattle.std.specs.Prelude.{◌≡◌};
    ghost use Rattle.sym_lex.specs.declared.error.LexErr.TheVariants.{NoMemory};

    ghost from_gives = { λ _ e. e ≡ NoMemory };

    fn from(_refused: OutOfMemory) -> LexErr {
        LexErr::NoMemory
    }
}
