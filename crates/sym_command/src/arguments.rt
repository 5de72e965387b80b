//! The arguments of the commands: of each its name, and of a number what it may be.
use crate::numbers::{NumberOption, NumberRange};
use sym_base::{CHUNK_MAX, FILE_MAX, FILE_MAX_DEFAULT, WORKERS_MAX};
use sym_files::{CHUNK_DEFAULT, LIMIT_DEFAULT, LIMIT_MAX, WORKERS_DEFAULT};

/// The command that runs a script over files.
pub const RUN_NAME: &str = "run";

/// The command that traces a script over files.
pub const TRACE_NAME: &str = "trace";

/// The command that checks a script.
pub const CHECK_NAME: &str = "check";

/// The command that runs a script of its own over a log that it makes.
pub const MAKE_NAME: &str = "make";

/// The command that summarises a part of a log.
pub const MAP_NAME: &str = "map";

/// The command that reports on summaries of parts.
pub const REDUCE_NAME: &str = "reduce";

/// The command that joins summaries of parts.
pub const JOIN_NAME: &str = "join";

/// The log that is made, as messages name it.
pub const MADE_NAME: &str = "made";

/// The script's file.
pub const SCRIPT_NAME: &str = "script";

/// The files of records.
pub const FILES_NAME: &str = "file";

/// The report's form.
pub const FORM_NAME: &str = "form";

/// The form where none is named.
pub const FORM_DEFAULT: &str = "table";

/// Which records have a row of a trace: those whose numbers this one divides.
pub const EVERY_NAME: &str = "every";

pub const EVERY: NumberOption = NumberOption {
    default: 1,
    range: NumberRange {
        least: 1,
        most: 1_000_000,
    },
};

/// The number of the first record.
pub const FIRST_NAME: &str = "first";

/// The most that it may be.
pub const FIRST_MAX: u64 = 9_999_999_999;

pub const FIRSTS: NumberOption = NumberOption {
    default: 1,
    range: NumberRange {
        least: 1,
        most: FIRST_MAX,
    },
};

/// The rows of a full chunk.
pub const CHUNK_NAME: &str = "chunk";

pub const CHUNKS: NumberOption = NumberOption {
    default: CHUNK_DEFAULT as u64,
    range: NumberRange {
        least: 1,
        most: CHUNK_MAX as u64,
    },
};

/// The path limit.
pub const LIMIT_NAME: &str = "limit";

pub const LIMITS: NumberOption = NumberOption {
    default: LIMIT_DEFAULT as u64,
    range: NumberRange {
        least: 1,
        most: LIMIT_MAX as u64,
    },
};

/// The workers of a round.
pub const WORKERS_NAME: &str = "workers";

pub const WORKERS: NumberOption = NumberOption {
    default: WORKERS_DEFAULT as u64,
    range: NumberRange {
        least: 1,
        most: WORKERS_MAX as u64,
    },
};

/// The most bytes of each file.
pub const MAX_BYTES_NAME: &str = "max-bytes";

pub const MAX_BYTES: NumberOption = NumberOption {
    default: FILE_MAX_DEFAULT,
    range: NumberRange {
        least: 1,
        most: FILE_MAX,
    },
};

/// Whether observers are told of partial reports.
pub const WATCH_NAME: &str = "watch";

/// Whether the script is printed.
pub const PRINT_NAME: &str = "print";

/// The value of a flag that is given.
pub const GIVEN: &str = "true";

/// The records of the log that is made.
pub const RECORDS_NAME: &str = "records";

/// How many there may be.
pub const RECORDS: NumberRange = NumberRange {
    least: 1,
    most: 1_000_000,
};

/// What the log is drawn from.
pub const SEED_NAME: &str = "seed";

/// What it may be.
pub const SEEDS: NumberRange = NumberRange {
    least: 0,
    most: 999_999_999,
};
