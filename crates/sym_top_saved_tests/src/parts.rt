//! Logs that are summarised by parts and reported on together, beside `run` over the whole.
use crate::calls::store_of;
use std::alloc::Global;
use std::sync::Wait;
use std::test::Fail;
use std::thread::Threads;
use sym_base::{MemSink, MemStore, NoMemory};
use sym_given::scripts::{BY_USER, COUNTER, SESSIONS, TOGGLE};
use sym_given::{ThreadedRow, check_threaded_rows};
use sym_given_calls::{End, call, end_differs, push_words, words_of};
use sym_top::Status;

/// A sum of each user in a range, which most users leave, and the greatest number that was added.
const SUMS: &str = "field user: word; field x: num else 0; group user; \
    state n: int [-9..9] = 0; state xs: nums [-20..20]; update { n = n + x; push xs x; } \
    report { n = n; most = max(xs); }";

/// A column whose divisor is 0.
const SHOWN: &str =
    "field user: word; group user; state n: int [0..9] = 7; update { } report { q = n / 0; n = n; }";

/// A count of each user and day, and one of each mode, user and day, which may be 2 at most.
const BY_DAY: &str = "field user: word; field day: word; group user, day; \
    state n: int [0..2] = 0; update { n = n + 1; } report { n = n; }";

const BY_ALL: &str = "enum mode { idle, busy } field user: word; field day: num; field what: mode; \
    group what, user, day; state n: int [0..2] = 0; update { n = n + 1; } report { n = n; }";

/// A part of a log: the number of its first record, and its text.
type Part = (&'static str, &'static str);

/// A log in at most four parts, and the report on it.
#[derive(Clone, Copy)]
struct Log {
    script: &'static str,
    form: &'static str,
    parts: &'static [Part],
    status: Status,
    out: &'static str,
}

/// The names of the parts, and those of their run files.
const LOGS: [&str; 4] = ["f1", "f2", "f3", "f4"];

const RUN_FILES: [&str; 4] = ["r1", "r2", "r3", "r4"];

/// Options by which parts are summarised. The report doesn't depend on them.
const HOWS: [&[&str]; 4] = [
    &[],
    &["--chunk", "1", "--limit", "1", "--workers", "1"],
    &["--chunk", "1", "--limit", "256", "--workers", "4"],
    &["--chunk", "2"],
];

fn add_logs(alloc: Global, store: &mut MemStore, log: &Log) -> Result<(), NoMemory> {
    'parts: for (name, part) in LOGS.iter().zip(log.parts.iter()) {
        store.add(alloc, name, part.1.as_bytes())?;
    }
    Ok(())
}

// A store of the log's script and parts.
fn store_with(alloc: Global, log: &Log) -> Result<MemStore, NoMemory> {
    let mut store = store_of(alloc, log.script, &[])?;
    add_logs(alloc, &mut store, log)?;
    Ok(store)
}

// The arguments that summarise a part in some way.
fn map_words(
    alloc: Global,
    name: &'static str,
    first: &'static str,
    how: &[&'static str],
) -> Result<Vec<String>, NoMemory> {
    let mut words = words_of(alloc, &["map", "s", name, "--first", first])?;
    push_words(alloc, &mut words, how)?;
    Ok(words)
}

// The arguments of a report on as many files as the log has parts.
fn report_words(
    alloc: Global,
    command: &'static str,
    names: &[&'static str],
    log: &Log,
) -> Result<Vec<String>, NoMemory> {
    let mut words = words_of(alloc, &[command, "s", "--form", log.form])?;
    'parts: for (name, _part) in names.iter().zip(log.parts.iter()) {
        words.push(String::from_str(alloc, name)?)?;
    }
    Ok(words)
}

// Writes the run file of a part; what that comes to in place of a summary.
fn map_differs<T: Threads + Wait + Sync>(
    rt: &T,
    alloc: Global,
    words: &Vec<String>,
    store: &mut MemStore,
    run_file: &str,
) -> Result<Option<String>, NoMemory> {
    let mut out = MemSink::new(alloc, 4_096);
    let mut err = MemSink::new(alloc, 100);
    let status = call(rt, alloc, words, store, &mut out, &mut err)?;
    store.add(alloc, run_file, out.bytes())?;
    let done = End {
        status: Status::Done,
        out: "",
        err: "",
    };
    end_differs(alloc, status, b"", err.bytes(), &done)
}

fn maps_differ<T: Threads + Wait + Sync>(
    rt: &T,
    alloc: Global,
    store: &mut MemStore,
    log: &Log,
    how: &[&'static str],
) -> Result<Option<String>, NoMemory> {
    'parts: for ((name, run_file), part) in LOGS
        .iter()
        .zip(RUN_FILES.iter())
        .zip(log.parts.iter())
    {
        let words = map_words(alloc, name, part.0, how)?;
        if let Some(told) = map_differs(rt, alloc, &words, store, run_file)? {
            return Ok(Some(format!(in alloc; "map of {name}: {told}")?));
        }
    }
    Ok(None)
}

// What a command over files of these names comes to in place of the report on the log.
fn report_differs<T: Threads + Wait + Sync>(
    rt: &T,
    alloc: Global,
    store: &mut MemStore,
    command: &'static str,
    names: &[&'static str],
    log: &Log,
) -> Result<Option<String>, NoMemory> {
    let words = report_words(alloc, command, names, log)?;
    let mut out = MemSink::new(alloc, 4_096);
    let mut err = MemSink::new(alloc, 100);
    let status = call(rt, alloc, &words, store, &mut out, &mut err)?;
    let end = End {
        status: log.status,
        out: log.out,
        err: "",
    };
    end_differs(alloc, status, out.bytes(), err.bytes(), &end)
}

fn how_differs<T: Threads + Wait + Sync>(
    rt: &T,
    alloc: Global,
    store: &mut MemStore,
    log: &Log,
    how: &[&'static str],
) -> Result<Option<String>, NoMemory> {
    let told = maps_differ(rt, alloc, store, log, how)?;
    if told.is_some() {
        return Ok(told);
    }
    match report_differs(rt, alloc, store, "reduce", &RUN_FILES, log)? {
        Some(told) => Ok(Some(format!(in alloc; "reduce of {how:?}: {told}")?)),
        None => Ok(None),
    }
}

// The report on the parts, summarised in each way, and the one that `run` writes.
fn log_differs<T: Threads + Wait + Sync>(
    rt: &T,
    alloc: Global,
    store: &mut MemStore,
    log: &Log,
) -> Result<Option<String>, NoMemory> {
    'hows: for how in HOWS {
        let told = how_differs(rt, alloc, store, log, how)?;
        if told.is_some() {
            return Ok(told);
        }
    }
    match report_differs(rt, alloc, store, "run", &LOGS, log)? {
        Some(told) => Ok(Some(format!(in alloc; "run: {told}")?)),
        None => Ok(None),
    }
}

impl ThreadedRow for Log {
    fn differs<T: Threads + Wait + Sync>(
        &self,
        rt: &T,
        alloc: Global,
    ) -> Result<Option<String>, NoMemory> {
        log_differs(rt, alloc, &mut store_with(alloc, self)?, self)
    }
}

/// Counts that leave their range at the fourth record.
const FIVE: Log = Log {
    script: COUNTER,
    form: "table",
    parts: &[("1", "x\n5\n5\n5\n5\n5\n")],
    status: Status::Faulted,
    out: "n\nfault: n overflows at record 4\n--\n",
};

const OF_ONE_GROUP: [Log; 8] = [
    FIVE,
    Log {
        parts: &[("1", "x\n5\n5\n"), ("3", "x\n5\n5\n5\n")],
        ..FIVE
    },
    Log {
        parts: &[("1", "x\n5\n"), ("2", "x\n5\n5\n5\n"), ("5", "x\n5\n")],
        ..FIVE
    },
    // Parts without records, first, between others and last.
    Log {
        parts: &[
            ("1", ""),
            ("1", "x\n5\n5\n5\n"),
            ("4", "x\n"),
            ("4", "x\n5\n5\n"),
        ],
        ..FIVE
    },
    Log {
        parts: &[("1", "x\n5\n5\n"), ("3", "x\n5\n"), ("4", "x\n")],
        status: Status::Done,
        out: "n\n3\n--\n",
        ..FIVE
    },
    Log {
        parts: &[("1", "x\n"), ("1", "")],
        status: Status::Done,
        out: "n\n--\n",
        ..FIVE
    },
    Log {
        script: TOGGLE,
        parts: &[
            ("1", "x\n1\n"),
            ("2", "x\n1\n1\n1\n"),
            ("5", "x\n1\n1\n1\n"),
        ],
        status: Status::Done,
        out: "phase\nbusy\n--\n",
        ..FIVE
    },
    Log {
        script: TOGGLE,
        form: "csv",
        parts: &[("1", "x\n1\n1\n1\n"), ("4", "x\n1\n")],
        status: Status::Done,
        out: "phase,fault\nidle,\n",
    },
];

#[test]
fn parts_of_one_group_are_reported_as_a_whole(rt: HostRuntime) -> Result<(), Fail> {
    check_threaded_rows(&rt, rt.alloc(), &OF_ONE_GROUP)
}

/// Sessions that go on from one part to the next.
const VISITS: Log = Log {
    script: SESSIONS,
    form: "table",
    parts: &[("1", "ts,user\n10,a\n20,a\n60,a\n5,b\n61,a\n")],
    status: Status::Done,
    out: "user | sessions | open | longest\na | 1 | 2 | 2\nb | 0 | 1 | none\n--\n",
};

const OF_USERS: [Log; 9] = [
    VISITS,
    Log {
        parts: &[
            ("1", "ts,user\n10,a\n20,a\n"),
            ("3", "user,ts\na,60\nb,5\na,61\n"),
        ],
        ..VISITS
    },
    Log {
        parts: &[
            ("1", "ts,user\n10,a\n"),
            ("2", "ts,user\n20,a\n60,a\n"),
            ("4", "ts,user\n5,b\n61,a\n"),
        ],
        ..VISITS
    },
    Log {
        script: BY_USER,
        parts: &[
            ("1", "user\nc\na\n"),
            ("3", "user\nb\nd\na\n"),
            ("6", "user\nc\n"),
        ],
        out: "user | n\nc | 2\na | 2\nb | 1\nd | 1\n--\n",
        ..VISITS
    },
    Log {
        script: BY_USER,
        form: "pairs",
        parts: &[("1", "user\n\u{e9}\n\"a\nb\"\n"), ("3", "user\n\"a\nb\"\n")],
        out: "user=\"\u{e9}\" n=1\nuser=\"a\nb\" n=2\n",
        ..VISITS
    },
    // One group ends in the first part, one in the second, and one in none.
    Log {
        script: SUMS,
        parts: &[
            ("1", "user,x\na,5\nb,-9\na,5\n"),
            ("4", "user,x\nb,-1\nc,2\na,\n"),
            ("7", "user,x\nc,7\nb,3\nd,20\n"),
        ],
        status: Status::Faulted,
        out: "user | n | most\na | fault: n overflows at record 3\n\
            b | fault: n overflows at record 4\nc | 9 | 7\n\
            d | fault: n overflows at record 9\n--\n",
        ..VISITS
    },
    // A later part leads the sum back from one end of its range to the other.
    Log {
        script: SUMS,
        parts: &[
            ("1", "user,x\na,-9\n"),
            ("2", "user,x\na,18\n"),
            ("3", "user,x\na,\n"),
        ],
        out: "user | n | most\na | 9 | 18\n--\n",
        ..VISITS
    },
    // The rows of the report are faulty, and no group is.
    Log {
        script: SHOWN,
        parts: &[("1", "user\na\n"), ("2", "user\nb\n")],
        status: Status::Faulted,
        out: "user | q | n\na | zero divisor | 7\nb | zero divisor | 7\n--\n",
        ..VISITS
    },
    Log {
        script: SHOWN,
        form: "csv",
        parts: &[("1", "user\n"), ("1", "user\n")],
        out: "user,q,n,fault\n",
        ..VISITS
    },
];

/// The third group leaves its range in the last part, at its third record.
const BY_MODES: Log = Log {
    script: BY_ALL,
    form: "table",
    parts: &[
        ("1", "day,user,what\n3,ann,busy\n3,bob,busy\n"),
        ("3", "what,day,user\nidle,3,ann\nbusy,3,ann\n"),
        ("5", "user,what,day\nann,idle,3\nann,busy,-3\nann,idle,3\n"),
    ],
    status: Status::Faulted,
    out: "what | user | day | n\nbusy | ann | 3 | 2\nbusy | bob | 3 | 1\n\
        idle | ann | 3 | fault: n overflows at record 7\nbusy | ann | -3 | 1\n--\n",
};

const OF_SEVERAL_FIELDS: [Log; 3] = [
    BY_MODES,
    Log {
        form: "csv",
        out: "what,user,day,n,fault\nbusy,ann,3,2,\nbusy,bob,3,1,\n\
            idle,ann,3,,n overflows at record 7\nbusy,ann,-3,1,\n",
        ..BY_MODES
    },
    Log {
        script: BY_DAY,
        parts: &[
            ("1", "user,day\na b,c\na,b c\n"),
            ("3", "day,user\nc,a b\nc,a\n"),
        ],
        status: Status::Done,
        out: "user | day | n\na b | c | 2\na | b c | 1\na | c | 1\n--\n",
        ..BY_MODES
    },
];

#[test]
fn parts_of_keys_of_several_fields_are_reported_as_a_whole(rt: HostRuntime) -> Result<(), Fail> {
    check_threaded_rows(&rt, rt.alloc(), &OF_SEVERAL_FIELDS)
}

#[test]
fn parts_of_users_are_reported_as_a_whole(rt: HostRuntime) -> Result<(), Fail> {
    check_threaded_rows(&rt, rt.alloc(), &OF_USERS)
}
