//! Calls of the program over a script and files in memory, and what they come to.
use std::alloc::Global;
use std::sync::Wait;
use std::thread::Threads;
use sym_base::{MemSink, MemStore, NoMemory};
use sym_given::ThreadedRow;
use sym_given::scripts::BY_USER;
use sym_given_calls::{End, call, end_differs};
use sym_top::Status;

// The names of at most three files.
const NAMES: [&str; 3] = ["log.csv", "second.csv", "third.csv"];

pub(crate) const ONE_FILE: &[&str] = &["run", "count.symple", "log.csv"];

pub(crate) const TWO_FILES: &[&str] = &["run", "count.symple", "log.csv", "second.csv"];

pub(crate) const THREE_FILES: &[&str] = &[
    "run",
    "count.symple",
    "log.csv",
    "second.csv",
    "third.csv",
];

/// A run over a store of a script and of files, and what it comes to.
#[derive(Clone, Copy)]
pub(crate) struct Run {
    pub(crate) words: &'static [&'static str],
    /// How many more times the arguments name the first file.
    pub(crate) more: usize,
    pub(crate) script: &'static str,
    pub(crate) files: &'static [&'static str],
    /// The read that fails, counted from 1; 0 for none.
    pub(crate) read: u64,
    /// The write to `out` that fails. Each takes at most four bytes.
    pub(crate) write: u64,
    /// The write to `err` that fails.
    pub(crate) tell: u64,
    /// Whether a write to `err` takes all it is given, and not at most seven bytes.
    pub(crate) tells_whole: bool,
    pub(crate) status: Status,
    pub(crate) out: &'static str,
    pub(crate) err: &'static str,
    /// Whether the next read is the script's of a later run, and fails.
    pub(crate) stops: bool,
}

pub(crate) const DONE: Run = Run {
    words: ONE_FILE,
    more: 0,
    script: BY_USER,
    files: &[],
    read: 0,
    write: 0,
    tell: 0,
    tells_whole: false,
    status: Status::Done,
    out: "",
    err: "",
    stops: false,
};

/// A run whose first read fails.
pub(crate) const UNREAD: Run = Run {
    read: 1,
    status: Status::ReadFault,
    err: "symple: count.symple: read fault\n",
    ..DONE
};

/// What a faulty command line writes, where the first read would fail.
pub(crate) const USAGE: Run = Run {
    read: 1,
    status: Status::Usage,
    err: "symple: usage\n",
    ..DONE
};

fn push_more(alloc: Global, words: &mut Vec<String>, more: usize) -> Result<(), NoMemory> {
    'names: for _ in 0..more {
        words.push(String::from_str(alloc, "log.csv")?)?;
    }
    Ok(())
}

pub(crate) fn words_of(alloc: Global, run: &Run) -> Result<Vec<String>, NoMemory> {
    let mut words = sym_given_calls::words_of(alloc, run.words)?;
    push_more(alloc, &mut words, run.more)?;
    Ok(words)
}

fn add_files(alloc: Global, store: &mut MemStore, files: &[&str]) -> Result<(), NoMemory> {
    'files: for (name, bytes) in NAMES.iter().zip(files.iter()) {
        store.add(alloc, name, bytes.as_bytes())?;
    }
    Ok(())
}

/// A store of the run's script and files, of which a read may fail.
pub(crate) fn store_of(alloc: Global, run: &Run) -> Result<MemStore, NoMemory> {
    let mut store = MemStore::new(alloc);
    store.add(alloc, "count.symple", run.script.as_bytes())?;
    add_files(alloc, &mut store, run.files)?;
    store.fail_at(alloc, run.read)?;
    Ok(store)
}

// The sinks `out` and `err` of a run.
fn sinks_of(alloc: Global, run: &Run) -> Result<(MemSink, MemSink), NoMemory> {
    let mut out = MemSink::new(alloc, 4);
    out.fail_at(alloc, run.write)?;
    let mut err = MemSink::new(alloc, if run.tells_whole { 100 } else { 7 });
    err.fail_at(alloc, run.tell)?;
    Ok((out, err))
}

/// What a call with these words comes to in place of what is said of the run.
pub(crate) fn differs_by<T: Threads + Wait + Sync>(
    rt: &T,
    alloc: Global,
    words: &Vec<String>,
    store: &mut MemStore,
    run: &Run,
) -> Result<Option<String>, NoMemory> {
    let (mut out, mut err) = sinks_of(alloc, run)?;
    let status = call(rt, alloc, words, store, &mut out, &mut err)?;
    let end = End {
        status: run.status,
        out: run.out,
        err: run.err,
    };
    end_differs(alloc, status, out.bytes(), err.bytes(), &end)
}

/// What a run over this store comes to in place of what is said of it.
pub(crate) fn differs_over<T: Threads + Wait + Sync>(
    rt: &T,
    alloc: Global,
    store: &mut MemStore,
    run: &Run,
) -> Result<Option<String>, NoMemory> {
    differs_by(rt, alloc, &words_of(alloc, run)?, store, run)
}

// The run, and a later one if it is wanted.
fn differs_or_goes_on<T: Threads + Wait + Sync>(
    rt: &T,
    alloc: Global,
    store: &mut MemStore,
    run: &Run,
) -> Result<Option<String>, NoMemory> {
    let told = differs_over(rt, alloc, store, run)?;
    if told.is_some() || !run.stops {
        return Ok(told);
    }
    match differs_over(rt, alloc, store, &UNREAD)? {
        Some(told) => Ok(Some(format!(in alloc; "a later run: {told}")?)),
        None => Ok(None),
    }
}

impl ThreadedRow for Run {
    fn differs<T: Threads + Wait + Sync>(
        &self,
        rt: &T,
        alloc: Global,
    ) -> Result<Option<String>, NoMemory> {
        differs_or_goes_on(rt, alloc, &mut store_of(alloc, self)?, self)
    }
}
