//! Passes with several workers and other gates, beside sequential passes.
ghost use Rattle.std.specs.Prelude.{◌≤◌};
ghost use Rattle.sym_files.specs.Options.{InRange};

use crate::comparing::{names, same_groups, store};
use crate::showing::{Joins, ShowsB};
use std::alloc::Global;
use std::sync::Wait;
use std::test::Fail;
use std::thread::Threads;
use sym_base::{FILE_MAX_DEFAULT, MemStore, NoMemory};
use sym_check::Checked;
use sym_engine::{Free, Gate, LIMIT_DEFAULT, OpenGate, Options, PassErr, pass, sequential_pass};
use sym_given::accepted;
use sym_plain::Groups;

// How rows are read, and in which way: so many rows a chunk and so many workers. Where they are
// joined, each round's run is made and then applied.
#[derive(Clone, Copy, Debug)]
enum Reading {
    AsTheyAre(u32, u32),
    Joined(u32, u32),
    AsB(u32, u32),
}

fn options(chunk: u32, workers: u32) -> Options
    requires some_rows { 1 ≤ chunk }
    requires most_rows { chunk ≤ 1024 }
    requires some_workers { 1 ≤ workers }
    requires most_workers { workers ≤ 64 }
    ensures { InRange result }
{
    Options {
        chunk,
        limit: LIMIT_DEFAULT,
        workers,
        max_bytes: FILE_MAX_DEFAULT,
    }
}

// The pass over at most three files; NoMemory where chunks or workers aren't in their ranges.
fn passed<T: Threads + Wait + Sync, G: Gate + Sync>(
    rt: &T,
    alloc: Global,
    checked: &Checked,
    files: &mut MemStore,
    names: &[String],
    (chunk, workers): (u32, u32),
    gate: &G,
) -> Result<Groups, PassErr> {
    let fits = chunk >= 1 && chunk <= 1_024 && workers >= 1 && workers <= 64;
    if !fits || names.len() > 3 {
        return Err(PassErr::NoMemory);
    }
    pass(
        rt,
        alloc,
        checked,
        files,
        names,
        &options(chunk, workers),
        gate,
    )
}

fn passed_in<T: Threads + Wait + Sync>(
    rt: &T,
    alloc: Global,
    checked: &Checked,
    log: &str,
    reading: Reading,
) -> Result<Groups, PassErr> {
    let names = names(alloc)?;
    let names = names.as_slice();
    let mut files = store(alloc, log)?;
    match reading {
        Reading::AsTheyAre(chunk, workers) => {
            let gate = OpenGate { hold: Free };
            passed(
                rt,
                alloc,
                checked,
                &mut files,
                names,
                (chunk, workers),
                &gate,
            )
        }
        Reading::Joined(chunk, workers) => {
            passed(
                rt,
                alloc,
                checked,
                &mut files,
                names,
                (chunk, workers),
                &Joins,
            )
        }
        Reading::AsB(chunk, workers) => {
            passed(
                rt,
                alloc,
                checked,
                &mut files,
                names,
                (chunk, workers),
                &ShowsB,
            )
        }
    }
}

fn sequence(alloc: Global, checked: &Checked, log: &str) -> Result<Groups, PassErr> {
    let names = names(alloc)?;
    let mut files = store(alloc, log)?;
    if names.len() > 3 {
        return Err(PassErr::NoMemory);
    }
    sequential_pass(
        alloc,
        checked,
        &mut files,
        names.as_slice(),
        &options(1_024, 1),
    )
}

// Whether a pass over a log comes to what the sequential pass over another one does.
fn is_same<T: Threads + Wait + Sync>(
    rt: &T,
    alloc: Global,
    log: &str,
    reading: Reading,
    other: &str,
) -> Result<bool, NoMemory> {
    let Some(checked) = accepted(alloc, COUNT) else {
        return Ok(false);
    };
    let left = passed_in(rt, alloc, &checked, log, reading);
    let right = sequence(alloc, &checked, other);
    Ok(match (left, right) {
        (Ok(left), Ok(right)) => same_groups(&left, &right),
        (Err(PassErr::NoMemory), _) | (_, Err(PassErr::NoMemory)) => false,
        (Err(left), Err(right)) => left == right,
        _ => false,
    })
}

const COUNT: &str = "field user: word; group user; state n: int [0..1000] = 0; \
    update { n = n + 1; } report { n = n; }";

// A header, so many rows of each user in turn, and then another row.
fn log_of(alloc: Global, users: &[&str], times: usize, last: &str) -> Result<String, NoMemory> {
    let mut log = String::from_str(alloc, "user\n")?;
    'rows: for number in 0..times {
        if let Some(user) = users.get(number % users.len().max(1)) {
            log.push_str(user)?;
            log.push_str("\n")?;
        }
    }
    log.push_str(last)?;
    Ok(log)
}

/// Rows of a chunk and workers.
const WAYS: [(u32, u32); 7] = [(1, 1), (1, 2), (1, 3), (1, 64), (7, 2), (7, 64), (1_024, 4)];

#[test]
fn rows_are_read_as_the_gate_shows_them(rt: HostRuntime) -> Result<(), Fail> {
    let alloc = rt.alloc();
    let log = "user\nc\na\nb\na\n";
    'ways: for (chunk, workers) in WAYS {
        let seen = is_same(
            &rt,
            alloc,
            log,
            Reading::AsB(chunk, workers),
            "user\nb\nb\nb\nb\n",
        )?;
        assert!(rt; seen, "{chunk} rows a chunk, {workers} workers");
        let other = is_same(&rt, alloc, log, Reading::AsB(chunk, workers), log)?;
        assert!(rt; !other, "{chunk} rows a chunk, {workers} workers");
    }
    Ok(())
}

#[test]
fn several_rounds_come_to_what_one_thread_does(rt: HostRuntime) -> Result<(), Fail> {
    let alloc = rt.alloc();
    'rows: for rows in [64, 65, 200] {
        let log = log_of(alloc, &["c", "a", "b", "a"], rows, "")?;
        'ways: for (chunk, workers) in WAYS {
            'readings: for reading in [
                Reading::AsTheyAre(chunk, workers),
                Reading::Joined(chunk, workers),
            ] {
                let same = is_same(&rt, alloc, log.as_str(), reading, log.as_str())?;
                assert!(rt; same, "{rows} rows, {reading:?}");
            }
        }
    }
    Ok(())
}

#[test]
fn the_first_row_that_is_no_record_is_found(rt: HostRuntime) -> Result<(), Fail> {
    let alloc = rt.alloc();
    'rows: for rows in [0, 63, 64, 130] {
        let log = log_of(alloc, &["c", "a", "b", "a"], rows, "x,y\nd\nx,y,z\n")?;
        'ways: for (chunk, workers) in WAYS {
            'readings: for reading in [
                Reading::AsTheyAre(chunk, workers),
                Reading::Joined(chunk, workers),
            ] {
                let same = is_same(&rt, alloc, log.as_str(), reading, log.as_str())?;
                assert!(rt; same, "{rows} rows, {reading:?}");
            }
        }
    }
    Ok(())
}
