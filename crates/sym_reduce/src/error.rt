//! Why files have no totals, or can't be joined.

/// Why files of saved runs have no totals, or can't be joined. Files are counted from 0, the groups
/// of a file from 1.
#[derive(Clone, Copy, Debug, PartialEq, Eq)]
pub enum ReduceErr {
    /// A read of the file failed.
    Read { file: u64 },
    /// The file has too many bytes.
    TooLarge { file: u64 },
    /// The file is that of a saved run of another script.
    OtherScript { file: u64 },
    /// The file is that of no lawful saved run.
    Malformed { file: u64 },
    /// The records of the file don't follow those of the files before it.
    Apart { file: u64 },
    /// A group of the file has no path for how the group stands after the files before it.
    Gap { file: u64, group: u64 },
    /// An allocation failed.
    NoMemory,
}
