//! Passes over one file by runs, in chunks and with limits of many sizes, and the sequential pass.
ghost use Rattle.std.specs.Prelude.{◌≤◌};
ghost use Rattle.sym_files.specs.Options.{InRange};

use std::alloc::Global;
use std::sync::Wait;
use std::thread::Threads;
use sym_base::{FILE_MAX_DEFAULT, MemStore, NoMemory};
use sym_check::Checked;
use sym_engine::{
    CHUNK_DEFAULT, Free, LIMIT_MAX, OpenGate, Options, PassErr, WORKERS_DEFAULT, pass,
    sequential_pass,
};
use sym_plain::Groups;

/// The rows of a chunk.
const CHUNKS: [u32; 5] = [1, 2, 3, 7, CHUNK_DEFAULT];

/// The path limits.
const LIMITS: [u32; 4] = [1, 2, 16, LIMIT_MAX];

/// What a pass has to come to.
pub(crate) trait Wanted {
    /// What it comes to, groups or why there are none, in place of this.
    fn differs(
        &self,
        alloc: Global,
        checked: &Checked,
        passed: &Result<Groups, PassErr>,
    ) -> Result<Option<String>, NoMemory>;
}

/// How a file is passed over: by runs of so many rows and a limit, or in sequence.
#[derive(Clone, Copy, Debug)]
enum Way {
    Runs(u32, u32),
    InSequence,
}

fn store(alloc: Global, log: &str) -> Result<MemStore, NoMemory> {
    let mut store = MemStore::new(alloc);
    store.add(alloc, "log", log.as_bytes())?;
    Ok(store)
}

fn names(alloc: Global) -> Result<Vec<String>, NoMemory> {
    let mut names = Vec::new(alloc);
    names.push(String::from_str(alloc, "log")?)?;
    Ok(names)
}

fn options(chunk: u32, limit: u32) -> Options
    requires some_rows { 1 ≤ chunk }
    requires most_rows { chunk ≤ 3072 }
    requires some_pairs { 1 ≤ limit }
    requires most_pairs { limit ≤ 256 }
    ensures { InRange result }
{
    Options {
        chunk,
        limit,
        workers: WORKERS_DEFAULT,
        max_bytes: FILE_MAX_DEFAULT,
    }
}

// The pass over at most three files; `None` where the options aren't in their ranges.
fn passed<T: Threads + Wait + Sync>(
    rt: &T,
    alloc: Global,
    checked: &Checked,
    files: &mut MemStore,
    names: &[String],
    way: Way,
) -> Option<Result<Groups, PassErr>> {
    if names.len() > 3 {
        return None;
    }
    match way {
        Way::Runs(chunk, limit)
            if chunk >= 1 && chunk <= CHUNK_DEFAULT && limit >= 1 && limit <= LIMIT_MAX => {
            let options = options(chunk, limit);
            let gate = OpenGate { hold: Free };
            Some(pass(rt, alloc, checked, files, names, &options, &gate))
        }
        Way::Runs(_, _) => None,
        Way::InSequence => {
            let options = options(CHUNK_DEFAULT, LIMIT_MAX);
            Some(sequential_pass(alloc, checked, files, names, &options))
        }
    }
}

fn passed_over<T: Threads + Wait + Sync>(
    rt: &T,
    alloc: Global,
    checked: &Checked,
    files: &mut MemStore,
    way: Way,
) -> Result<Option<Result<Groups, PassErr>>, NoMemory> {
    Ok(passed(rt, alloc, checked, files, names(alloc)?.as_slice(), way))
}

// What the pass over a log comes to in place of this, if it is made in this way.
fn way_differs<T: Threads + Wait + Sync, W: Wanted>(
    rt: &T,
    alloc: Global,
    checked: &Checked,
    log: &str,
    way: Way,
    wanted: &W,
) -> Result<Option<String>, NoMemory> {
    let told = match passed_over(rt, alloc, checked, &mut store(alloc, log)?, way)? {
        Some(passed) => wanted.differs(alloc, checked, &passed)?,
        None => Some(String::from_str(alloc, "found wrong options")?),
    };
    match told {
        Some(told) => Ok(Some(format!(in alloc; "{way:?}: {told}")?)),
        None => Ok(None),
    }
}

fn limits_differ<T: Threads + Wait + Sync, W: Wanted>(
    rt: &T,
    alloc: Global,
    checked: &Checked,
    log: &str,
    chunk: u32,
    wanted: &W,
) -> Result<Option<String>, NoMemory> {
    'limits: for limit in LIMITS {
        let told = way_differs(rt, alloc, checked, log, Way::Runs(chunk, limit), wanted)?;
        if told.is_some() {
            return Ok(told);
        }
    }
    Ok(None)
}

/// What the passes over a log, by runs of each size, come to in place of this.
pub(crate) fn runs_differ<T: Threads + Wait + Sync, W: Wanted>(
    rt: &T,
    alloc: Global,
    checked: &Checked,
    log: &str,
    wanted: &W,
) -> Result<Option<String>, NoMemory> {
    'chunks: for chunk in CHUNKS {
        let told = limits_differ(rt, alloc, checked, log, chunk, wanted)?;
        if told.is_some() {
            return Ok(told);
        }
    }
    Ok(None)
}

/// What the passes over a log, by runs of each size and in sequence, come to in place of this.
pub(crate) fn passes_differ<T: Threads + Wait + Sync, W: Wanted>(
    rt: &T,
    alloc: Global,
    checked: &Checked,
    log: &str,
    wanted: &W,
) -> Result<Option<String>, NoMemory> {
    let told = runs_differ(rt, alloc, checked, log, wanted)?;
    if told.is_some() {
        return Ok(told);
    }
    way_differs(rt, alloc, checked, log, Way::InSequence, wanted)
}

/// The groups of the sequential pass over a log; `None` where it has a problem.
pub(crate) fn sequence_of<T: Threads + Wait + Sync>(
    rt: &T,
    alloc: Global,
    checked: &Checked,
    log: &str,
) -> Result<Option<Groups>, NoMemory> {
    match passed_over(rt, alloc, checked, &mut store(alloc, log)?, Way::InSequence)? {
        Some(Ok(groups)) => Ok(Some(groups)),
        Some(Err(_)) | None => Ok(None),
    }
}
