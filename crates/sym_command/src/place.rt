//! Where a file stands among the arguments.

/// A file that the arguments name.
#[derive(Clone, Copy, Debug, PartialEq, Eq)]
pub enum Place {
    /// The script.
    Script,
    /// A file of records or of a saved run, counted from 0.
    File(u64),
}
