//! The options of a run over files.

/// The largest path limit.
pub const LIMIT_MAX: u32 = 256;

/// The records of a full chunk where a run doesn't name another number.
pub const CHUNK_DEFAULT: u32 = 3_072;

/// The path limit where a run doesn't name another one.
pub const LIMIT_DEFAULT: u32 = 16;

/// The workers of a round where a run doesn't name another number.
pub const WORKERS_DEFAULT: u32 = 4;

/// How files are cut and worked on. No option changes the groups of a pass: that all files have at
/// most so many bytes is a condition of it.
#[derive(Clone, Copy, Debug, PartialEq, Eq)]
pub struct Options {
    /// The rows of a full chunk, from 1 to `CHUNK_MAX`.
    pub chunk: u32,
    /// The path limit, from 1 to `LIMIT_MAX`: segments with at most so many pairs are composed.
    pub limit: u32,
    /// The workers of a round, from 1 to `WORKERS_MAX`.
    pub workers: u32,
    /// The most bytes of each file, at most `FILE_MAX`.
    pub max_bytes: u64,
}
