//! Lists of arguments, each with what it comes to by the rules of the command line.
use std::alloc::Global;
use std::sync::Wait;
use std::test::Fail;
use std::thread::Threads;
use sym_base::{MemSink, MemStore, NoMemory};
use sym_given::all_hold;
use sym_given::scripts::BY_USER;
use sym_given_calls::{End, call, end_differs, words_of};
use sym_top::Status;

// The file `f` has one record, in 7 bytes; the file `s` has the script.
const RECORDS: &str = "user\na\n";

/// The report over `f`.
const ONE: End = End {
    status: Status::Done,
    out: "user | n\na | 1\n--\n",
    err: "",
};

/// The report over `f` and `f`.
const TWO: End = End {
    status: Status::Done,
    out: "user | n\na | 2\n--\n",
    err: "",
};

const USAGE: End = End {
    status: Status::Usage,
    out: "",
    err: "symple: usage\n",
};

/// `f` has more bytes than are allowed.
const LARGE: End = End {
    status: Status::TooLarge,
    out: "",
    err: "symple: f: too large\n",
};

fn store_of(alloc: Global) -> Result<MemStore, NoMemory> {
    let mut store = MemStore::new(alloc);
    store.add(alloc, "s", BY_USER.as_bytes())?;
    store.add(alloc, "f", RECORDS.as_bytes())?;
    Ok(store)
}

fn end_differs_by<T: Threads + Wait + Sync>(
    rt: &T,
    alloc: Global,
    words: &Vec<String>,
    store: &mut MemStore,
    end: End,
) -> Result<Option<String>, NoMemory> {
    let mut out = MemSink::new(alloc, 100);
    let mut err = MemSink::new(alloc, 100);
    let status = call(rt, alloc, words, store, &mut out, &mut err)?;
    end_differs(alloc, status, out.bytes(), err.bytes(), &end)
}

// What these arguments come to in place of this end.
fn list_differs<T: Threads + Wait + Sync>(
    rt: &T,
    alloc: Global,
    given: &[&'static str],
    end: End,
) -> Result<Option<String>, NoMemory> {
    let words = words_of(alloc, given)?;
    match end_differs_by(rt, alloc, &words, &mut store_of(alloc)?, end)? {
        Some(told) => Ok(Some(format!(in alloc; "{given:?}: {told}")?)),
        None => Ok(None),
    }
}

// What the first list that comes to something else comes to.
fn lists_differ<T: Threads + Wait + Sync>(
    rt: &T,
    alloc: Global,
    lists: &[&'static [&'static str]],
    end: End,
) -> Result<Option<String>, NoMemory> {
    'lists: for list in lists {
        let told = list_differs(rt, alloc, list, end)?;
        if told.is_some() {
            return Ok(told);
        }
    }
    Ok(None)
}

/// A run over the file `f`.
const RUNS: [&[&str]; 28] = [
    &["run", "s", "f"],
    &["run", "--chunk", "5", "s", "f"],
    &["run", "--chunk=5", "s", "f"],
    &["run", "s", "--chunk", "5", "f"],
    &["run", "s", "--chunk=5", "f"],
    &["run", "s", "f", "--chunk", "5"],
    &[
        "run",
        "--chunk",
        "1",
        "--limit",
        "1",
        "--workers",
        "1",
        "s",
        "f",
    ],
    &[
        "run",
        "--workers",
        "64",
        "--limit",
        "256",
        "--chunk",
        "65536",
        "s",
        "f",
    ],
    &["run", "--chunk", "0000000001", "s", "f"],
    &["run", "--limit=007", "s", "f"],
    &["run", "--max-bytes", "7", "s", "f"],
    &["run", "--max-bytes", "268435456", "s", "f"],
    &["run", "s", "f", "--max-bytes=0000000007"],
    &["run", "--form", "table", "s", "f"],
    &["run", "--form=table", "s", "f"],
    &["run", "s", "f", "--form", "table", "--workers", "2"],
    &["run", "--", "s", "f"],
    &["run", "s", "--", "f"],
    &["run", "s", "f", "--"],
    &["run", "--chunk", "5", "--", "s", "f"],
    &["run", "s", "--chunk", "5", "--", "f"],
    &["run", "--limit=1", "s", "--workers", "3", "f", "--chunk=9"],
    &["run", "--max-bytes=8", "--form=table", "--", "s", "f"],
    &["run", "--watch", "s", "f"],
    &["run", "s", "--watch", "f"],
    &["run", "s", "f", "--watch"],
    &["run", "--watch", "--", "s", "f"],
    &["run", "--chunk=1", "--watch", "--workers", "2", "s", "f"],
];

#[test]
fn a_run_is_read_wherever_its_options_stand(rt: HostRuntime) -> Result<(), Fail> {
    all_hold(lists_differ(&rt, rt.alloc(), &RUNS, ONE))
}

/// The trace of the one record of `f`.
const TRACED: End = End {
    status: Status::Done,
    out: "record | user | n\n1 | a | 1\n--\n",
    err: "",
};

const TRACES: [&[&str]; 7] = [
    &["trace", "s", "f"],
    &["trace", "--every", "1", "s", "f"],
    &["trace", "--every=0000000001", "s", "f"],
    &["trace", "s", "f", "--every", "1", "--chunk", "5"],
    &[
        "trace",
        "--form=table",
        "--limit",
        "1",
        "s",
        "--workers=64",
        "f",
    ],
    &["trace", "--max-bytes", "7", "s", "f"],
    &["trace", "--", "s", "f"],
];

#[test]
fn a_trace_has_the_words_of_a_run_and_its_own(rt: HostRuntime) -> Result<(), Fail> {
    all_hold(lists_differ(&rt, rt.alloc(), &TRACES, TRACED))
}

/// The trace of `f` where no record is shown.
const UNSHOWN: End = End {
    status: Status::Done,
    out: "record | user | n\n--\n",
    err: "",
};

const FEW: [&[&str]; 2] = [
    &["trace", "--every", "2", "s", "f"],
    &["trace", "--every=1000000", "s", "f"],
];

#[test]
fn a_trace_shows_the_records_that_a_number_divides(rt: HostRuntime) -> Result<(), Fail> {
    all_hold(lists_differ(&rt, rt.alloc(), &FEW, UNSHOWN))
}

/// A run over the file `f`, twice.
const TWO_FILES: [&[&str]; 5] = [
    &["run", "s", "f", "f"],
    &["run", "s", "f", "--chunk", "2", "f"],
    &["run", "s", "f", "--", "f"],
    &["run", "--", "s", "f", "f"],
    &["run", "s", "--limit=2", "f", "f", "--workers=2"],
];

#[test]
fn all_words_after_the_script_are_files(rt: HostRuntime) -> Result<(), Fail> {
    all_hold(lists_differ(&rt, rt.alloc(), &TWO_FILES, TWO))
}

const TOO_SMALL: [&[&str]; 4] = [
    &["run", "--max-bytes", "6", "s", "f"],
    &["run", "--max-bytes=6", "s", "f"],
    &["run", "s", "f", "--max-bytes", "0000000006"],
    &["run", "s", "--max-bytes", "1", "f"],
];

#[test]
fn a_file_has_no_more_bytes_than_asked(rt: HostRuntime) -> Result<(), Fail> {
    all_hold(lists_differ(&rt, rt.alloc(), &TOO_SMALL, LARGE))
}

const NO_TRACES: [&[&str]; 12] = [
    &["trace"],
    &["trace", "s"],
    &["trace", "--every", "0", "s", "f"],
    &["trace", "--every", "1000001", "s", "f"],
    &["trace", "--every", "-1", "s", "f"],
    &["trace", "--every=", "s", "f"],
    &["trace", "--every", "00000000001", "s", "f"],
    &["trace", "--every", "1", "--every", "1", "s", "f"],
    &["trace", "--print", "s", "f"],
    &["trace", "--form", "html", "s", "f"],
    &["run", "--every", "1", "s", "f"],
    &["make", "--every", "1", "5", "1"],
];

#[test]
fn other_lists_are_no_trace(rt: HostRuntime) -> Result<(), Fail> {
    all_hold(lists_differ(&rt, rt.alloc(), &NO_TRACES, USAGE))
}

const NO_PARTS: [&[&str]; 22] = [
    &["map"],
    &["map", "s"],
    &["map", "--first", "0", "s", "f"],
    &["map", "--first", "10000000000", "s", "f"],
    &["map", "--first", "-1", "s", "f"],
    &["map", "--first", "1", "--first", "1", "s", "f"],
    &["map", "--form", "table", "s", "f"],
    &["map", "--every", "1", "s", "f"],
    &["reduce"],
    &["reduce", "s"],
    &["reduce", "--first", "1", "s", "f"],
    &["reduce", "--chunk", "1", "s", "f"],
    &["reduce", "--workers", "1", "s", "f"],
    &["reduce", "--max-bytes", "0", "s", "f"],
    &["reduce", "--form", "html", "s", "f"],
    &["join"],
    &["join", "s"],
    &["join", "--form", "csv", "s", "f"],
    &["join", "--first", "1", "s", "f"],
    &["join", "--limit", "0", "s", "f"],
    &["join", "--limit", "257", "s", "f"],
    &["run", "--first", "1", "s", "f"],
];

#[test]
fn other_lists_are_no_map_reduce_or_join(rt: HostRuntime) -> Result<(), Fail> {
    all_hold(lists_differ(&rt, rt.alloc(), &NO_PARTS, USAGE))
}

const NOT_WATCHED: [&[&str]; 13] = [
    &["run", "--watch", "--watch", "s", "f"],
    &["run", "--watch", "s", "f", "--watch"],
    &["run", "--watch=yes", "s", "f"],
    &["run", "--watch=", "s", "f"],
    &["run", "--Watch", "s", "f"],
    &["run", "-w", "s", "f"],
    &["--watch", "run", "s", "f"],
    &["trace", "--watch", "s", "f"],
    &["check", "--watch", "s"],
    &["make", "--watch", "5", "1"],
    &["map", "--watch", "s", "f"],
    &["reduce", "--watch", "s", "f"],
    &["join", "--watch", "s", "f"],
];

#[test]
fn other_lists_watch_no_run(rt: HostRuntime) -> Result<(), Fail> {
    all_hold(lists_differ(&rt, rt.alloc(), &NOT_WATCHED, USAGE))
}

const NONE: [&[&str]; 101] = [
    &[],
    &[""],
    &["run"],
    &["run", "s"],
    &["run", "--chunk", "5", "s"],
    &["run", "--"],
    &["run", "--", "s"],
    &["Run", "s", "f"],
    &["run ", "s", "f"],
    &["-", "s", "f"],
    &["--", "run", "s", "f"],
    &["--chunk", "5", "run", "s", "f"],
    &["s", "f"],
    &["check"],
    &["check", "--print"],
    &["check", "s", "f"],
    &["check", "--print", "--print", "s"],
    &["check", "--print=yes", "s"],
    &["check", "--print=", "s"],
    &["check", "-p", "s"],
    &["check", "--form", "table", "s"],
    &["check", "--help"],
    &["make"],
    &["make", "5"],
    &["make", "5", "1", "1"],
    &["make", "0", "1"],
    &["make", "1000001", "1"],
    &["make", "5", "1000000000"],
    &["make", "5", "-1"],
    &["make", "5", "+1"],
    &["make", "", "1"],
    &["make", "5", "x"],
    &["make", "00000000005", "1"],
    &["make", "--chunk", "0", "5", "1"],
    &["make", "--chunk", "5", "1"],
    &["make", "--form", "table", "5", "1"],
    &["make", "--max-bytes", "7", "5", "1"],
    &["make", "--print", "5", "1"],
    &["help"],
    &["help", "run"],
    &["-h"],
    &["--help"],
    &["--version"],
    &["run", "-h"],
    &["run", "--help"],
    &["run", "-V"],
    &["run", "--version"],
    &["run", "--help", "s", "f"],
    &["run", "s", "f", "-h"],
    &["run", "--chunk", "0", "s", "f"],
    &["run", "--chunk", "65537", "s", "f"],
    &["run", "--limit", "0", "s", "f"],
    &["run", "--limit", "257", "s", "f"],
    &["run", "--workers", "0", "s", "f"],
    &["run", "--workers", "65", "s", "f"],
    &["run", "--max-bytes", "0", "s", "f"],
    &["run", "--max-bytes", "268435457", "s", "f"],
    &["run", "--chunk", "00000000001", "s", "f"],
    &["run", "--chunk", "4294967297", "s", "f"],
    &["run", "--chunk", "18446744073709551617", "s", "f"],
    &["run", "--chunk=", "s", "f"],
    &["run", "--chunk", "", "s", "f"],
    &["run", "--chunk", "+5", "s", "f"],
    &["run", "--chunk", "-5", "s", "f"],
    &["run", "--chunk=-5", "s", "f"],
    &["run", "--chunk", " 5", "s", "f"],
    &["run", "--chunk", "5 ", "s", "f"],
    &["run", "--chunk", "5x", "s", "f"],
    &["run", "--chunk", "0x5", "s", "f"],
    &["run", "--chunk", "1_0", "s", "f"],
    &["run", "--chunk", "5.0", "s", "f"],
    &["run", "--chunk", "\u{665}", "s", "f"],
    &["run", "--chunk==5", "s", "f"],
    &["run", "--chunk", "5", "--chunk", "5", "s", "f"],
    &["run", "--chunk=5", "s", "f", "--chunk", "6"],
    &["run", "--form", "table", "--form", "table", "s", "f"],
    &["run", "--workers=1", "--workers=1", "s", "f"],
    &["run", "--form", "html", "s", "f"],
    &["run", "--form", "Table", "s", "f"],
    &["run", "--form=", "s", "f"],
    &["run", "--form", "s", "f"],
    &["run", "--chunk", "s", "f"],
    &["run", "s", "f", "--chunk"],
    &["run", "s", "f", "--form"],
    &["run", "--chunk", "--", "5", "s", "f"],
    &["run", "--chunk", "-", "s", "f"],
    &["run", "--chunk", "--limit", "5", "s", "f"],
    &["run", "--form", "-table", "s", "f"],
    &["run", "--verbose", "s", "f"],
    &["run", "--print", "s", "f"],
    &["run", "--chunks", "5", "s", "f"],
    &["run", "--chun", "5", "s", "f"],
    &["run", "--Chunk", "5", "s", "f"],
    &["run", "--max_bytes", "7", "s", "f"],
    &["run", "--chunk 5", "s", "f"],
    &["run", "--=5", "s", "f"],
    &["run", "-chunk", "5", "s", "f"],
    &["run", "-c", "5", "s", "f"],
    &["run", "-x", "s", "f"],
    &["run", "s", "f", "-1"],
    &["run", "s", "-f"],
];

#[test]
fn other_lists_are_no_command(rt: HostRuntime) -> Result<(), Fail> {
    all_hold(lists_differ(&rt, rt.alloc(), &NONE, USAGE))
}

/// Arguments that name a file which isn't there, and the line that names it.
type Missing = (&'static [&'static str], &'static str);

fn names_differ<T: Threads + Wait + Sync>(
    rt: &T,
    alloc: Global,
    rows: &[Missing],
) -> Result<Option<String>, NoMemory> {
    'rows: for row in rows {
        let end = End {
            status: Status::ReadFault,
            out: "",
            err: row.1,
        };
        let told = list_differs(rt, alloc, row.0, end)?;
        if told.is_some() {
            return Ok(told);
        }
    }
    Ok(None)
}

const MISSING: [Missing; 18] = [
    (&["check", "absent"], "symple: absent: read fault\n"),
    (
        &["check", "--print", "absent"],
        "symple: absent: read fault\n",
    ),
    (
        &["check", "absent", "--print"],
        "symple: absent: read fault\n",
    ),
    (&["check", "--", "--print"], "symple: --print: read fault\n"),
    (&["check", "-"], "symple: -: read fault\n"),
    (&["run", "-", "f"], "symple: -: read fault\n"),
    (&["run", "s", "-"], "symple: -: read fault\n"),
    (&["run", "", "f"], "symple: : read fault\n"),
    (&["run", "s", ""], "symple: : read fault\n"),
    (&["run", "run", "run"], "symple: run: read fault\n"),
    (&["run", "s", "f", "5"], "symple: 5: read fault\n"),
    (&["run", "help", "f"], "symple: help: read fault\n"),
    (&["run", "--", "-s", "f"], "symple: -s: read fault\n"),
    (&["run", "s", "--", "-f"], "symple: -f: read fault\n"),
    (
        &["run", "s", "f", "--", "--limit"],
        "symple: --limit: read fault\n",
    ),
    (
        &["run", "--", "s", "--help"],
        "symple: --help: read fault\n",
    ),
    (&["run", "--", "s", "--"], "symple: --: read fault\n"),
    (
        &["run", "s", "--chunk=5", "--", "--chunk=5"],
        "symple: --chunk=5: read fault\n",
    ),
];

#[test]
fn a_file_has_the_name_of_its_word(rt: HostRuntime) -> Result<(), Fail> {
    all_hold(names_differ(&rt, rt.alloc(), &MISSING))
}

/// The cells, the tests and the path bound of `s`.
const COUNTS: End = End {
    status: Status::Done,
    out: "cells 1 tests 0 paths 3\n",
    err: "",
};

const CHECKS: [&[&str]; 3] = [
    &["check", "s"],
    &["check", "--", "s"],
    &["check", "s", "--"],
];

#[test]
fn a_check_names_one_script(rt: HostRuntime) -> Result<(), Fail> {
    all_hold(lists_differ(&rt, rt.alloc(), &CHECKS, COUNTS))
}

/// The summary of five records.
const FIVE: End = End {
    status: Status::Done,
    out: "records 5\ngroups 3\nfaults 0\nsessions 0\n",
    err: "",
};

const MAKES: [&[&str]; 7] = [
    &["make", "5", "1"],
    &["make", "0000000005", "01"],
    &["make", "--chunk", "1", "--limit", "1", "5", "1"],
    &["make", "5", "--workers=64", "1"],
    &["make", "5", "1", "--chunk=7"],
    &["make", "--", "5", "1"],
    &["make", "5", "--", "1"],
];

#[test]
fn a_making_has_two_numbers(rt: HostRuntime) -> Result<(), Fail> {
    all_hold(lists_differ(&rt, rt.alloc(), &MAKES, FIVE))
}
