//! Why the program ends without a result.
use std::alloc::{AllocError, AllocFailed};
use std::io;
use sym_base::NoMemory;

#[derive(Clone, Copy, Debug, PartialEq, Eq)]
pub(crate) enum Stop {
    /// The words aren't those of a command.
    Usage,
    NoMemory,
    /// A script, a record or a path isn't what it should be.
    Input,
    /// The clock, a file or a stream failed.
    System,
}

impl Stop {
    /// The status with which the program ends.
    pub(crate) fn number(self) -> u8 {
        match self {
            Stop::Usage => 2,
            Stop::NoMemory => 3,
            Stop::Input => 4,
            Stop::System => 5,
        }
    }
}

impl From<NoMemory> for Stop {
    fn from(_refused: NoMemory) -> Stop {
        Stop::NoMemory
    }
}

impl From<AllocError> for Stop {
    fn from(_refused: AllocError) -> Stop {
        Stop::NoMemory
    }
}

impl<T: Drop> From<AllocFailed<T>> for Stop {
    fn from(_refused: AllocFailed<T>) -> Stop {
        Stop::NoMemory
    }
}

impl From<io::Error> for Stop {
    fn from(_failed: io::Error) -> Stop {
        Stop::System
    }
}
