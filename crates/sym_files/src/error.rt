//! Why files have no groups.
ghost use Rattle.std.specs.Prelude.{◌≡◌};
ghost use Rattle.sym_files.specs.declared.error.PassErr.TheVariants as pass_err;

use sym_base::NoMemory;
use sym_table::{Bad, HeadFault};
use thiserror::Error;

/// Why a pass gives no groups. `file` is the place of a name among those of the files, counted
/// from 0.
#[derive(Clone, Copy, Debug, PartialEq, Eq, Error)]
pub enum PassErr {
    /// A read of the file failed.
    #[error("Read")]
    Read { file: u64 },
    /// The file has more bytes than were allowed.
    #[error("TooLarge")]
    TooLarge { file: u64 },
    /// The file's header lacks a field's column, or has two.
    #[error("Head")]
    Head { file: u64, fault: HeadFault },
    /// A row of the file is no record.
    #[error("Bad")]
    Bad { file: u64, bad: Bad },
    /// An allocation failed.
    #[error("NoMemory")]
    NoMemory,
}

impl From<NoMemory> for PassErr {
    ghost from_gives = { λ _ e. e ≡ pass_err.NoMemory };

    fn from(_refused: NoMemory) -> PassErr {
        PassErr::NoMemory
    }
}
