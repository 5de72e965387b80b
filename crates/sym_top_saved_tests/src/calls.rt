//! Calls of the program over files in memory.
use std::alloc::Global;
use std::sync::Wait;
use std::thread::Threads;
use sym_base::{MemSink, MemStore, NoMemory};
use sym_given::ThreadedRow;
use sym_given_calls::{End, call, end_differs, words_of};
use sym_top::Status;

/// A file: its name and its text.
pub(crate) type File = (&'static str, &'static str);

/// No script: a field without its colon.
pub(crate) const NO_SCRIPT: &str = "field x num;";

/// A call over files, and what it comes to. The script is the file `s`.
#[derive(Clone, Copy)]
pub(crate) struct Call {
    pub(crate) words: &'static [&'static str],
    pub(crate) script: &'static str,
    pub(crate) files: &'static [File],
    /// The read that fails, counted from 1; 0 for none. A file takes two reads, the second of which
    /// gives nothing.
    pub(crate) read: u64,
    /// The write to `out` that fails. Each takes at most 16 bytes.
    pub(crate) write: u64,
    pub(crate) status: Status,
    pub(crate) out: &'static str,
    pub(crate) err: &'static str,
    /// Whether the read that fails is the first one of a later call: this one makes no more.
    pub(crate) stops: bool,
}

/// A call whose first read, of the script, fails.
const UNREAD: Call = Call {
    words: &["check", "s"],
    script: "",
    files: &[],
    read: 1,
    write: 0,
    status: Status::ReadFault,
    out: "",
    err: "symple: s: read fault\n",
    stops: false,
};

/// A store of a script and of files.
pub(crate) fn store_of(alloc: Global, script: &str, files: &[File]) -> Result<MemStore, NoMemory> {
    let mut store = MemStore::new(alloc);
    store.add(alloc, "s", script.as_bytes())?;
    'files: for file in files {
        store.add(alloc, file.0, file.1.as_bytes())?;
    }
    Ok(store)
}

// What the call over this store comes to in place of what is said of it.
fn differs_by<T: Threads + Wait + Sync>(
    rt: &T,
    alloc: Global,
    words: &Vec<String>,
    store: &mut MemStore,
    row: &Call,
) -> Result<Option<String>, NoMemory> {
    let mut out = MemSink::new(alloc, 16);
    out.fail_at(alloc, row.write)?;
    let mut err = MemSink::new(alloc, 100);
    let status = call(rt, alloc, words, store, &mut out, &mut err)?;
    let end = End {
        status: row.status,
        out: row.out,
        err: row.err,
    };
    end_differs(alloc, status, out.bytes(), err.bytes(), &end)
}

fn differs_over<T: Threads + Wait + Sync>(
    rt: &T,
    alloc: Global,
    store: &mut MemStore,
    row: &Call,
) -> Result<Option<String>, NoMemory> {
    differs_by(rt, alloc, &words_of(alloc, row.words)?, store, row)
}

// The call, and a later one if it is wanted.
fn differs_or_goes_on<T: Threads + Wait + Sync>(
    rt: &T,
    alloc: Global,
    store: &mut MemStore,
    row: &Call,
) -> Result<Option<String>, NoMemory> {
    store.fail_at(alloc, row.read)?;
    let told = differs_over(rt, alloc, store, row)?;
    if told.is_some() || !row.stops {
        return Ok(told);
    }
    match differs_over(rt, alloc, store, &UNREAD)? {
        Some(told) => Ok(Some(format!(in alloc; "a later call: {told}")?)),
        None => Ok(None),
    }
}

impl ThreadedRow for Call {
    fn differs<T: Threads + Wait + Sync>(
        &self,
        rt: &T,
        alloc: Global,
    ) -> Result<Option<String>, NoMemory> {
        let mut store = store_of(alloc, self.script, self.files)?;
        differs_or_goes_on(rt, alloc, &mut store, self)
    }
}
