//! How a run ends.

/// How a run ends. The number is the program's exit status.
#[derive(Clone, Copy, Debug, PartialEq, Eq)]
pub enum Status {
    /// The report was written, and no row is faulty.
    Done,
    /// The report was written, and a row is faulty.
    Faulted,
    /// The arguments aren't a command's.
    Usage,
    /// The script isn't one that may be run.
    Script,
    /// The file can't be read as records.
    Input,
    /// A read failed.
    ReadFault,
    /// A write failed.
    WriteFault,
    /// The script or the file has too many bytes.
    TooLarge,
    /// An allocation failed.
    NoMemory,
}

impl Status {
    ghost use Rattle.std.specs.Prelude.{◌≡◌};
    ghost use Rattle.sym_message.specs.Statuses.{exit_number};

    /// The status as a process gives it: 0 to 8, in the order above.
    pub fn number(self) -> u8
        ensures { result ≡ exit_number self }
    {
        match self {
            Status::Done => 0,
            Status::Faulted => 1,
            Status::Usage => 2,
            Status::Script => 3,
            Status::Input => 4,
            Status::ReadFault => 5,
            Status::WriteFault => 6,
            Status::TooLarge => 7,
            Status::NoMemory => 8,
        }
    }
}
