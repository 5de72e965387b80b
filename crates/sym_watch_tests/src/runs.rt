//! Whole runs with observers: what each comes to, and what they are told of.
use crate::calls::{Ended, call, log_of};
use crate::noter::{Borders, noter_into};
use std::alloc::Global;
use std::sync::{Arc, Wait};
use std::test::Fail;
use std::thread::Threads;
use sym_base::{MemStore, NoMemory};
use sym_engine::{Free, OpenGate};
use sym_given::scripts::BY_USER;
use sym_given_calls::words_of;
use sym_top::Status;
use sym_watch::Observer;

// A border that no run reaches.
const NEVER: u64 = 1_000_000;

const WATCHED: &[&str] = &["run", "--chunk", "1", "--watch", "s", "f"];

const TWICE: &[&str] = &["run", "--chunk", "1", "--watch", "s", "f", "f"];

// A script has no more bytes.
const SCRIPT_MOST: usize = 65_536;

/// A call over the script `s` and the log `f`: its arguments; how many spaces follow the script; how
/// many records the log has, and which of them, counted from 0, is none; which read fails, counted
/// from 1, if one does; and from which border on the observer finds no memory.
#[derive(Clone, Copy)]
struct Call {
    words: &'static [&'static str],
    script: &'static str,
    spaces: usize,
    records: usize,
    bad: Option<usize>,
    read: u64,
    refused: u64,
}

/// What it comes to: its end, the borders that the observer was told of, each with the report of
/// one group of as many records, and the last one.
#[derive(Clone, Copy)]
struct Came {
    status: Status,
    out: &'static str,
    err: &'static str,
    told: [u64; 6],
    last: Option<u64>,
}

const CALL: Call = Call {
    words: WATCHED,
    script: BY_USER,
    spaces: 0,
    records: 130,
    bad: None,
    read: 0,
    refused: NEVER,
};

/// A call that tells nothing.
const UNTOLD: Came = Came {
    status: Status::Done,
    out: "",
    err: "",
    told: [0, 0, 0, 0, 0, 0],
    last: None,
};

const CALLS: [(Call, Came); 20] = [
    (
        CALL,
        Came {
            status: Status::Done,
            out: "user | n\na | 130\n--\n",
            err: "",
            told: [64, 128, 130, 0, 0, 0],
            last: Some(130),
        },
    ),
    // A record that is none, in the second round, in the first, and in the third.
    (
        Call {
            bad: Some(99),
            ..CALL
        },
        Came {
            status: Status::Input,
            err: "symple: f: record 100: 2 fields\n",
            told: [64, 0, 0, 0, 0, 0],
            last: Some(64),
            ..UNTOLD
        },
    ),
    (
        Call {
            bad: Some(63),
            ..CALL
        },
        Came {
            status: Status::Input,
            err: "symple: f: record 64: 2 fields\n",
            ..UNTOLD
        },
    ),
    (
        Call {
            bad: Some(128),
            ..CALL
        },
        Came {
            status: Status::Input,
            err: "symple: f: record 129: 2 fields\n",
            told: [64, 128, 0, 0, 0, 0],
            last: Some(128),
            ..UNTOLD
        },
    ),
    // Without the option.
    (
        Call {
            words: &["run", "--chunk", "1", "s", "f"],
            ..CALL
        },
        Came {
            out: "user | n\na | 130\n--\n",
            ..UNTOLD
        },
    ),
    // No records.
    (
        Call { records: 0, ..CALL },
        Came {
            out: "user | n\n--\n",
            ..UNTOLD
        },
    ),
    // An observer that finds no memory: at its first partial, its second, and its last.
    (
        Call {
            refused: 64,
            ..CALL
        },
        Came {
            status: Status::NoMemory,
            err: "symple: out of memory\n",
            ..UNTOLD
        },
    ),
    (
        Call {
            refused: 128,
            ..CALL
        },
        Came {
            status: Status::NoMemory,
            err: "symple: out of memory\n",
            told: [64, 0, 0, 0, 0, 0],
            last: Some(64),
            ..UNTOLD
        },
    ),
    (
        Call {
            refused: 130,
            ..CALL
        },
        Came {
            status: Status::NoMemory,
            err: "symple: out of memory\n",
            told: [64, 128, 0, 0, 0, 0],
            last: Some(128),
            ..UNTOLD
        },
    ),
    // Two files, whose records are rounds of their own.
    (
        Call {
            words: TWICE,
            records: 70,
            ..CALL
        },
        Came {
            out: "user | n\na | 140\n--\n",
            told: [64, 70, 134, 140, 0, 0],
            last: Some(140),
            ..UNTOLD
        },
    ),
    // Reads: that of the script, of the first file and of the second fails.
    (
        Call {
            words: TWICE,
            records: 70,
            read: 1,
            ..CALL
        },
        Came {
            status: Status::ReadFault,
            err: "symple: s: read fault\n",
            ..UNTOLD
        },
    ),
    (
        Call {
            words: TWICE,
            records: 70,
            read: 3,
            ..CALL
        },
        Came {
            status: Status::ReadFault,
            err: "symple: f: read fault\n",
            ..UNTOLD
        },
    ),
    (
        Call {
            words: TWICE,
            records: 70,
            read: 5,
            ..CALL
        },
        Came {
            status: Status::ReadFault,
            err: "symple: f: read fault\n",
            told: [64, 70, 0, 0, 0, 0],
            last: Some(70),
            ..UNTOLD
        },
    ),
    // A script that isn't accepted, one that is too large, and a file that is.
    (
        Call {
            script: "field user: word",
            ..CALL
        },
        Came {
            status: Status::Script,
            err: "symple: script: unexpected token at byte 16\n",
            ..UNTOLD
        },
    ),
    (
        Call {
            spaces: SCRIPT_MOST,
            ..CALL
        },
        Came {
            status: Status::TooLarge,
            err: "symple: s: too large\n",
            ..UNTOLD
        },
    ),
    (
        Call {
            words: &[
                "run",
                "--chunk",
                "1",
                "--watch",
                "--max-bytes",
                "264",
                "s",
                "f",
            ],
            ..CALL
        },
        Came {
            status: Status::TooLarge,
            err: "symple: f: too large\n",
            ..UNTOLD
        },
    ),
    // The option twice, with another command, and another command without it.
    (
        Call {
            words: &["run", "--chunk", "1", "--watch", "--watch", "s", "f"],
            ..CALL
        },
        Came {
            status: Status::Usage,
            err: "symple: usage\n",
            ..UNTOLD
        },
    ),
    (
        Call {
            words: &["trace", "--chunk", "1", "--watch", "s", "f"],
            ..CALL
        },
        Came {
            status: Status::Usage,
            err: "symple: usage\n",
            ..UNTOLD
        },
    ),
    (
        Call {
            words: &["map", "--chunk", "1", "--watch", "s", "f"],
            ..CALL
        },
        Came {
            status: Status::Usage,
            err: "symple: usage\n",
            ..UNTOLD
        },
    ),
    (
        Call {
            words: &["trace", "--every", "200", "--chunk", "1", "s", "f"],
            ..CALL
        },
        Came {
            out: "record | user | n\n--\n",
            ..UNTOLD
        },
    ),
];

// The script's text, with so many spaces after it.
fn script_of(alloc: Global, call: &Call) -> Result<String, NoMemory> {
    let mut text = String::from_str(alloc, call.script)?;
    'spaces: for _space in 0..call.spaces {
        text.push_str(" ")?;
    }
    Ok(text)
}

fn store_of(alloc: Global, call: &Call) -> Result<MemStore, NoMemory> {
    let mut store = MemStore::new(alloc);
    store.add(alloc, "s", script_of(alloc, call)?.as_bytes())?;
    store.add(
        alloc,
        "f",
        log_of(alloc, call.records, call.bad)?.as_bytes(),
    )?;
    store.fail_at(alloc, call.read)?;
    Ok(store)
}

fn is_end(ended: &Ended, came: &Came) -> bool {
    ended.status == came.status
        && ended.out.bytes() == came.out.as_bytes()
        && ended.err.bytes() == came.err.as_bytes()
}

// Whether a call comes to this.
fn holds<T: Threads + Wait + Sync>(
    rt: &T,
    alloc: Global,
    of: &Call,
    came: &Came,
) -> Result<bool, NoMemory> {
    let words = words_of(alloc, of.words)?;
    let mut store = store_of(alloc, of)?;
    let told = Arc::new(alloc, Borders::none())?;
    let observer: Box<dyn Observer + Send> = Box::new(alloc, noter_into(&told, of.refused)?)?;
    let mut observers = Vec::from_array(alloc, [observer])?;
    let gate = OpenGate { hold: Free };
    let ended = call(rt, alloc, &words, &mut store, &mut observers, &gate)?;
    let last = match observers.as_slice() {
        [observer] => observer.last(),
        _ => Some(NEVER),
    };
    Ok(is_end(&ended, came) && told.told() == came.told && last == came.last)
}

// The place of the first call that comes to something else, counted from 0.
fn first_wrong<T: Threads + Wait + Sync>(
    rt: &T,
    alloc: Global,
    calls: &[(Call, Came)],
) -> Result<Option<usize>, NoMemory> {
    'calls: for (place, (of, came)) in calls.iter().enumerate() {
        if !holds(rt, alloc, of, came)? {
            return Ok(Some(place));
        }
    }
    Ok(None)
}

#[test]
fn observers_of_a_run_are_told_as_its_end_says(rt: HostRuntime) -> Result<(), Fail> {
    assert_eq!(rt; first_wrong(&rt, rt.alloc(), &CALLS)?, None);
    Ok(())
}
