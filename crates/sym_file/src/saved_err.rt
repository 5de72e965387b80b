//! Why bytes are no saved run.
ghost use Rattle.std.specs.Prelude.{◌≡◌};
ghost use Rattle.sym_file.specs.declared.saved_err.SavedErr.TheVariants.{NoMemory as OutOfMemory};

use std::alloc::{AllocError, AllocFailed};
use sym_base::NoMemory;

/// Why bytes are no saved run of a script.
#[derive(Clone, Copy, Debug, PartialEq, Eq)]
pub enum SavedErr {
    /// They begin as the text of a saved run of another script.
    OtherScript,
    /// They are the text of no lawful saved run.
    Malformed,
    /// An allocation failed.
    NoMemory,
}

impl From<NoMemory> for SavedErr {
    ghost from_gives = { λ _ e. e ≡ OutOfMemory };

    fn from(_refused: NoMemory) -> SavedErr {
        SavedErr::NoMemory
    }
}

impl From<AllocError> for SavedErr {
    ghost from_gives = { λ _ e. e ≡ OutOfMemory };

    fn from(_refused: AllocError) -> SavedErr {
        SavedErr::NoMemory
    }
}

impl<T: Drop> From<AllocFailed<T>> for SavedErr {
    ghost from_gives = { λ _ e. e ≡ OutOfMemory };

    fn from(_refused: AllocFailed<T>) -> SavedErr {
        SavedErr::NoMemory
    }
}
