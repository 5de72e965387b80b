//! The limits of scripts, of files and of a run. Each is written here once, and code cites it by
//! name. Contracts cite those of scripts by their names in `specs/Limits.antt`, and the others as
//! these constants.

/// The largest number of a script and of its data, 10^12; the least is its opposite.
pub const NUM_MAX: i64 = 1_000_000_000_000;

/// The most bytes of a name.
pub const NAME_MAX: usize = 64;

/// The most bytes of a script.
pub const SCRIPT_MAX: u64 = 65_536;

/// The most bytes of a file that can be read, 256 MiB: no read begins after them.
pub const FILE_MAX: u64 = 268_435_456;

/// The most bytes of a file of records where a run doesn't name another limit, 64 MiB.
pub const FILE_MAX_DEFAULT: u64 = 67_108_864;

/// The most bytes that one read asks for, 64 KiB.
pub const READ_PIECE: usize = 65_536;

/// The most files of records in one run.
pub const FILES_MAX: usize = 65_536;

/// The most enums of a script.
pub const ENUMS_MAX: usize = 16;

/// The most labels of an enum.
pub const LABELS_MAX: usize = 32;

/// The most fields of a record.
pub const FIELDS_MAX: usize = 32;

/// The most fields of the group line.
pub const GROUP_FIELDS_MAX: usize = 3;

/// The most cells of a state.
pub const CELLS_MAX: usize = 32;

/// The most tests of a script.
pub const TESTS_MAX: usize = 32;

/// The most parameters of a test.
pub const PARAMETERS_MAX: usize = 8;

/// The most parts of a hold cell.
pub const PARTS_MAX: usize = 4;

/// The most columns of a report.
pub const COLUMNS_MAX: usize = 32;

/// The most statements of an update, nested ones included.
pub const STATEMENTS_MAX: usize = 512;

/// The most `if` statements, parentheses, calls, `not` and unary `-` that are open at one token.
pub const DEPTH_MAX: usize = 64;

/// The most numbers, texts and names of one expression.
pub const OPERANDS_MAX: usize = 256;

/// The largest path bound of a script that runs.
pub const PATHS_MAX: u32 = 1_024;

/// Where the sums and products of a path bound stop.
pub const PATHS_COUNTED: u32 = 1_000_000;

/// The most records of a chunk.
pub const CHUNK_MAX: usize = 65_536;

/// The most chunks of a round.
pub const CHUNKS_MAX: u32 = 64;

/// The most workers of a round.
pub const WORKERS_MAX: u32 = 64;
