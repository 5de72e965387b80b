//! Traces over stores and sinks in memory, in chunks of several sizes and by several workers.
use crate::calls::{DONE, Run, UNREAD, USAGE, differs_by, store_of, words_of};
use crate::scripts::{BY_ALL, BY_DAY};
use std::alloc::Global;
use std::sync::Wait;
use std::test::Fail;
use std::thread::Threads;
use sym_base::NoMemory;
use sym_given::scripts::{COUNTER, QUOTIENT, SESSIONS, SHOWN, TOGGLE, TWO_HUNDRED};
use sym_given::{ThreadedRow, check_threaded_rows};
use sym_given_calls::push_words;
use sym_top::Status;

const CHUNKS: [&str; 3] = ["1", "2", "1024"];

const WORKERS: [&str; 3] = ["1", "4", "64"];

// Counts records up to a thousand.
const COUNTS: &str =
    "field x: num; state n: int [0..1000] = 0; update { n = n + 1; } report { n = n; }";

// Counts the records of each user and day, of which there may be one.
const ONCE_A_DAY: &str = "field user: word; field day: num; group user, day; \
    state n: int [0..1] = 0; update { n = n + 1; } report { n = n; twice = 2 * n; }";

// Seventy rows, of which the fiftieth is no record.
const FIFTIETH: &str = "x\n\
    1\n1\n1\n1\n1\n1\n1\n1\n1\n1\n1\n1\n1\n1\n1\n1\n1\n1\n1\n1\n1\n1\n1\n1\n1\n\
    1\n1\n1\n1\n1\n1\n1\n1\n1\n1\n1\n1\n1\n1\n1\n1\n1\n1\n1\n1\n1\n1\n1\n1\n1,1\n\
    1\n1\n1\n1\n1\n1\n1\n1\n1\n1\n1\n1\n1\n1\n1\n1\n1\n1\n1\n1\n";

// What a trace in chunks of this size and by so many workers comes to in place of what is said.
fn differs_cut<T: Threads + Wait + Sync>(
    rt: &T,
    alloc: Global,
    run: &Run,
    chunk: &'static str,
    workers: &'static str,
) -> Result<Option<String>, NoMemory> {
    let mut words = words_of(alloc, run)?;
    push_words(alloc, &mut words, &["--chunk", chunk, "--workers", workers])?;
    match differs_by(rt, alloc, &words, &mut store_of(alloc, run)?, run)? {
        Some(told) => Ok(Some(format!(in alloc; "chunk {chunk}, workers {workers}: {told}")?)),
        None => Ok(None),
    }
}

fn differs_with<T: Threads + Wait + Sync>(
    rt: &T,
    alloc: Global,
    run: &Run,
    workers: &'static str,
) -> Result<Option<String>, NoMemory> {
    'chunks: for chunk in CHUNKS {
        let told = differs_cut(rt, alloc, run, chunk, workers)?;
        if told.is_some() {
            return Ok(told);
        }
    }
    Ok(None)
}

/// A run that comes to the same however it is cut and worked on.
struct Trace(Run);

impl ThreadedRow for Trace {
    fn differs<T: Threads + Wait + Sync>(
        &self,
        rt: &T,
        alloc: Global,
    ) -> Result<Option<String>, NoMemory> {
        'workers: for workers in WORKERS {
            let told = differs_with(rt, alloc, &self.0, workers)?;
            if told.is_some() {
                return Ok(told);
            }
        }
        Ok(None)
    }
}

/// A trace of each record.
const TRACE: Run = Run {
    words: &["trace", "count.symple", "log.csv"],
    ..DONE
};

/// Scripts, the files that they are traced over, and the reports.
const TRACES: [Trace; 13] = [
    Trace(Run {
        script: COUNTER,
        files: &["x\n5\n5\n5\n5\n5\n"],
        status: Status::Faulted,
        out: "record | n\n1 | 1\n2 | 2\n3 | 3\n4 | fault: n overflows at record 4\n\
            5 | fault: n overflows at record 4\n--\n",
        ..TRACE
    }),
    Trace(Run {
        words: &["trace", "--every", "2", "count.symple", "log.csv"],
        script: COUNTER,
        files: &["x\n5\n5\n5\n5\n5\n"],
        status: Status::Faulted,
        out: "record | n\n2 | 2\n4 | fault: n overflows at record 4\n--\n",
        ..TRACE
    }),
    Trace(Run {
        words: &["trace", "--every", "5", "count.symple", "log.csv"],
        script: SESSIONS,
        files: &["ts,user\n10,a\n20,a\n60,a\n5,b\n61,a\n"],
        out: "record | user | sessions | open | longest\n5 | a | 1 | 2 | 2\n--\n",
        ..TRACE
    }),
    Trace(Run {
        words: &["trace", "--every", "9", "count.symple", "log.csv"],
        script: COUNTER,
        files: &["x\n5\n5\n5\n5\n5\n"],
        out: "record | n\n--\n",
        ..TRACE
    }),
    Trace(Run {
        script: SESSIONS,
        files: &["ts,user\n10,a\n20,a\n60,a\n5,b\n61,a\n"],
        out: "record | user | sessions | open | longest\n1 | a | 0 | 1 | none\n\
            2 | a | 0 | 2 | none\n3 | a | 1 | 1 | 2\n4 | b | 0 | 1 | none\n5 | a | 1 | 2 | 2\n--\n",
        ..TRACE
    }),
    Trace(Run {
        words: &[
            "trace",
            "--every",
            "2",
            "count.symple",
            "log.csv",
            "second.csv",
        ],
        files: &["user\na\nb\na\n", "user\nb\nc\na\n"],
        out: "record | user | n\n2 | b | 1\n4 | b | 2\n6 | a | 3\n--\n",
        ..TRACE
    }),
    Trace(Run {
        words: &["trace", "count.symple", "log.csv", "second.csv"],
        files: &["", "user\n"],
        out: "record | user | n\n--\n",
        ..TRACE
    }),
    Trace(Run {
        script: QUOTIENT,
        files: &["x\n3\n0\n5\n"],
        status: Status::Faulted,
        out: "record | n\n1 | 1\n2 | fault: arithmetic at record 2\n\
            3 | fault: arithmetic at record 2\n--\n",
        ..TRACE
    }),
    Trace(Run {
        script: SHOWN,
        files: &["user\na\n"],
        status: Status::Faulted,
        out: "record | user | q | r | m | k\n1 | a | zero divisor | -7 | none | none\n--\n",
        ..TRACE
    }),
    Trace(Run {
        words: &["trace", "--form", "csv", "count.symple", "log.csv"],
        files: &["user\na\nb\na\n"],
        out: "record,user,n,fault\n1,a,1,\n2,b,1,\n3,a,2,\n",
        ..TRACE
    }),
    Trace(Run {
        words: &["trace", "--form", "pairs", "count.symple", "log.csv"],
        files: &["user\na\nb\na\n"],
        out: "record=1 user=\"a\" n=1\nrecord=2 user=\"b\" n=1\nrecord=3 user=\"a\" n=2\n",
        ..TRACE
    }),
    Trace(Run {
        words: &["trace", "count.symple", "log.csv", "second.csv"],
        files: &["user\na\n", "user\na\na,b\na\n"],
        status: Status::Input,
        err: "symple: second.csv: record 3: 2 fields\n",
        ..TRACE
    }),
    Trace(Run {
        words: &[
            "trace",
            "--every",
            "9",
            "count.symple",
            "log.csv",
            "second.csv",
        ],
        files: &["user\na\n", "user\na\na,b\na\n"],
        status: Status::Input,
        err: "symple: second.csv: record 3: 2 fields\n",
        ..TRACE
    }),
];

/// The same with keys of two and three fields.
const KEYED_TRACES: [Trace; 6] = [
    // Values that are the same text if they are put together.
    Trace(Run {
        script: BY_DAY,
        files: &["user,day\na b,c\na,b c\na b,c\n"],
        out: "record | user | day | n\n1 | a b | c | 1\n2 | a | b c | 1\n3 | a b | c | 2\n--\n",
        ..TRACE
    }),
    // The order of the group line is that of the names and values.
    Trace(Run {
        script: BY_ALL,
        files: &["day,user,what\n3,ann,busy\n3,bob,busy\n3,ann,idle\n4,ann,busy\n3,ann,busy\n"],
        out: "record | what | user | day | n\n1 | busy | ann | 3 | 1\n2 | busy | bob | 3 | 1\n\
            3 | idle | ann | 3 | 1\n4 | busy | ann | 4 | 1\n5 | busy | ann | 3 | 2\n--\n",
        ..TRACE
    }),
    Trace(Run {
        words: &[
            "trace",
            "--every=2",
            "--form=pairs",
            "count.symple",
            "log.csv",
        ],
        script: BY_ALL,
        files: &["day,user,what\n3,ann,busy\n3,bob,busy\n3,ann,idle\n4,ann,busy\n3,ann,busy\n"],
        out: "record=2 what=\"busy\" user=\"bob\" day=3 n=1\n\
            record=4 what=\"busy\" user=\"ann\" day=4 n=1\n",
        ..TRACE
    }),
    // Groups end, one in each file.
    Trace(Run {
        words: &["trace", "count.symple", "log.csv", "second.csv"],
        script: ONCE_A_DAY,
        files: &["user,day\na,1\na,2\na,1\n", "day,user\n1,a\n2,a\n2,b\n"],
        status: Status::Faulted,
        out: "record | user | day | n | twice\n1 | a | 1 | 1 | 2\n2 | a | 2 | 1 | 2\n\
            3 | a | 1 | fault: n overflows at record 3\n\
            4 | a | 1 | fault: n overflows at record 3\n\
            5 | a | 2 | fault: n overflows at record 5\n6 | b | 2 | 1 | 2\n--\n",
        ..TRACE
    }),
    Trace(Run {
        words: &[
            "trace",
            "--every",
            "3",
            "count.symple",
            "log.csv",
            "second.csv",
        ],
        script: ONCE_A_DAY,
        files: &["user,day\na,1\na,2\na,1\n", "day,user\n1,a\n2,a\n2,b\n"],
        status: Status::Faulted,
        out: "record | user | day | n | twice\n3 | a | 1 | fault: n overflows at record 3\n\
            6 | b | 2 | 1 | 2\n--\n",
        ..TRACE
    }),
    Trace(Run {
        words: &["trace", "--form", "csv", "count.symple", "log.csv"],
        script: ONCE_A_DAY,
        files: &["user,day\na,1\na,1\n"],
        status: Status::Faulted,
        out: "record,user,day,n,twice,fault\n1,a,1,1,2,\n2,a,1,,,n overflows at record 2\n",
        ..TRACE
    }),
];

/// The same over longer logs, of which few records have a row.
const LONG_TRACES: [Trace; 9] = [
    Trace(Run {
        words: &["trace", "count.symple", "log.csv", "--every=50"],
        script: COUNTS,
        files: &[TWO_HUNDRED],
        out: "record | n\n50 | 50\n100 | 100\n150 | 150\n200 | 200\n--\n",
        ..TRACE
    }),
    Trace(Run {
        words: &["trace", "count.symple", "log.csv", "--every=70"],
        script: COUNTS,
        files: &[TWO_HUNDRED],
        out: "record | n\n70 | 70\n140 | 140\n--\n",
        ..TRACE
    }),
    Trace(Run {
        words: &["trace", "count.symple", "log.csv", "--every=64"],
        script: COUNTS,
        files: &[TWO_HUNDRED],
        out: "record | n\n64 | 64\n128 | 128\n192 | 192\n--\n",
        ..TRACE
    }),
    Trace(Run {
        words: &["trace", "count.symple", "log.csv", "--every=65"],
        script: TOGGLE,
        files: &[TWO_HUNDRED],
        out: "record | phase\n65 | busy\n130 | idle\n195 | busy\n--\n",
        ..TRACE
    }),
    Trace(Run {
        words: &["trace", "count.symple", "log.csv", "--every=97"],
        script: COUNTS,
        files: &[TWO_HUNDRED],
        out: "record | n\n97 | 97\n194 | 194\n--\n",
        ..TRACE
    }),
    Trace(Run {
        words: &["trace", "count.symple", "log.csv", "--every=25"],
        script: TOGGLE,
        files: &[TWO_HUNDRED],
        out: "record | phase\n25 | busy\n50 | idle\n75 | busy\n100 | idle\n125 | busy\n\
            150 | idle\n175 | busy\n200 | idle\n--\n",
        ..TRACE
    }),
    Trace(Run {
        words: &["trace", "count.symple", "log.csv", "--every=60"],
        script: COUNTS,
        files: &[FIFTIETH],
        status: Status::Input,
        err: "symple: log.csv: record 50: 2 fields\n",
        ..TRACE
    }),
    Trace(Run {
        words: &["trace", "count.symple", "log.csv", "--every=40"],
        script: COUNTS,
        files: &[FIFTIETH],
        status: Status::Input,
        err: "symple: log.csv: record 50: 2 fields\n",
        ..TRACE
    }),
    Trace(Run {
        words: &["trace", "count.symple", "log.csv", "--every=20"],
        script: COUNTS,
        files: &[FIFTIETH],
        status: Status::Input,
        err: "symple: log.csv: record 50: 2 fields\n",
        ..TRACE
    }),
];

#[test]
fn a_trace_is_the_same_however_it_is_worked(rt: HostRuntime) -> Result<(), Fail> {
    check_threaded_rows(&rt, rt.alloc(), &TRACES)
}

#[test]
fn a_trace_by_several_fields_is_the_same_however_it_is_worked(rt: HostRuntime) -> Result<(), Fail> {
    check_threaded_rows(&rt, rt.alloc(), &KEYED_TRACES)
}

#[test]
fn a_long_trace_is_the_same_however_it_is_worked(rt: HostRuntime) -> Result<(), Fail> {
    check_threaded_rows(&rt, rt.alloc(), &LONG_TRACES)
}

/// Traces that are refused, or cut.
const REFUSED: [Run; 8] = [
    Run {
        words: &["trace", "--form", "html", "count.symple", "log.csv"],
        ..USAGE
    },
    Run {
        words: &["trace", "--every", "0", "count.symple", "log.csv"],
        ..USAGE
    },
    Run {
        words: &["trace", "--every", "1000001", "count.symple", "log.csv"],
        ..USAGE
    },
    Run {
        words: &["trace", "count.symple", "log.csv"],
        ..UNREAD
    },
    Run {
        script: "field x num;",
        status: Status::Script,
        err: "symple: script: unexpected token at byte 8\n",
        ..TRACE
    },
    Run {
        files: &["name\na\n"],
        status: Status::Input,
        err: "symple: log.csv: header: no field user\n",
        ..TRACE
    },
    Run {
        words: &["trace", "--max-bytes", "6", "count.symple", "log.csv"],
        files: &["user\na\n"],
        status: Status::TooLarge,
        err: "symple: log.csv: too large\n",
        ..TRACE
    },
    Run {
        files: &["user\na\n"],
        write: 3,
        status: Status::WriteFault,
        out: "record |",
        err: "symple: write fault\n",
        ..TRACE
    },
];

#[test]
fn a_trace_is_refused_as_a_run_is(rt: HostRuntime) -> Result<(), Fail> {
    check_threaded_rows(&rt, rt.alloc(), &REFUSED)
}
