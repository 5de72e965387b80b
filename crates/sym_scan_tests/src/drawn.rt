//! Logs of records that are drawn by a fixed generator, beside folding anew for each record.
use crate::anew::trace_anew;
use crate::scanned::{Traced, Way, trace_log};
use crate::texts::text_of;
use std::alloc::Global;
use std::sync::Wait;
use std::test::Fail;
use std::thread::Threads;
use sym_base::NoMemory;
use sym_check::Checked;
use sym_given::scripts::{COUNTER, SHORT_SESSIONS, SMALL_SUMS, TOGGLE};
use sym_given::{
    Draws, ThreadedCase, bytes_differ, check_threaded_cases, difference, found_unless, told_by,
};
use sym_scan::TraceRow;

/// The records of a log.
const RECORDS: usize = 300;

const USERS: [&str; 5] = ["ann", "bob", "cy", "dee", "eve"];

/// Ways to trace a log: the rows of a chunk, workers, the path limit.
const WAYS: [(u32, u32, u32); 7] = [
    (1, 1, 16),
    (1, 64, 1),
    (2, 4, 2),
    (3, 5, 16),
    (7, 64, 256),
    (40, 3, 16),
    (1_024, 4, 16),
];

// Appends a record with the columns of all scripts.
fn push_record(alloc: Global, log: &mut String, ts: u32, drawn: u32) -> Result<(), NoMemory> {
    let user = USERS[drawn as usize % 5];
    let x = i64::from(drawn / 60 % 9) - 4;
    let line = format!(in alloc; "{ts},{user},{x}\n")?;
    log.push_str(line.as_str())?;
    Ok(())
}

// A log whose times grow by 0 to 60 from record to record.
fn log_of(alloc: Global, seed: u32) -> Result<String, NoMemory> {
    let mut draws = Draws::of(seed);
    let mut log = String::from_str(alloc, "ts,user,x\n")?;
    let mut ts: u32 = 0;
    'records: for _number in 0..RECORDS {
        ts = ts.wrapping_add(draws.next() % 61);
        push_record(alloc, &mut log, ts, draws.next())?;
    }
    Ok(log)
}

/// A script, the seed of a log, which numbers are shown, and how many rows the trace has.
#[derive(Drop)]
struct Drawn(&'static str, u32, u64, usize);

// How the rows of a trace differ from these.
fn rows_differ(
    alloc: Global,
    checked: &Checked,
    traced: &Traced,
    wanted: &[TraceRow],
) -> Result<Option<String>, NoMemory> {
    let found = text_of(alloc, checked, &traced.rows)?;
    let text = text_of(alloc, checked, wanted)?;
    match bytes_differ(alloc, found.as_bytes(), text.as_bytes())? {
        Some(told) => Ok(Some(told)),
        None => {
            let same = traced.rows.as_slice() == wanted;
            found_unless(alloc, same, "found other rows, of the text that is wanted")
        }
    }
}

// How a trace differs from these rows.
fn trace_differs(
    alloc: Global,
    checked: &Checked,
    traced: &Option<Traced>,
    wanted: &[TraceRow],
) -> Result<Option<String>, NoMemory> {
    let Some(traced) = traced else {
        return found_unless(alloc, false, "found no header of the script");
    };
    match traced.bad {
        Some(no) => Ok(Some(format!(in alloc; "found a bad row {no}, wanted none")?)),
        None => rows_differ(alloc, checked, traced, wanted),
    }
}

// The first way to trace the log that doesn't give these rows, and what it gives.
fn ways_differ<T: Threads + Sync>(
    rt: &T,
    alloc: Global,
    checked: &Checked,
    log: &str,
    every: u64,
    wanted: &[TraceRow],
) -> Result<Option<String>, NoMemory> {
    'ways: for (chunk, workers, limit) in WAYS {
        let way = Way {
            chunk,
            workers,
            limit,
            every,
        };
        let traced = trace_log(rt, alloc, checked, log, way)?;
        let told = trace_differs(alloc, checked, &traced, wanted)?;
        if told.is_some() {
            return told_by(alloc, &way, told);
        }
    }
    Ok(None)
}

fn log_differs<T: Threads + Sync>(
    rt: &T,
    alloc: Global,
    checked: &Checked,
    log: &str,
    every: u64,
    rows: usize,
) -> Result<Option<String>, NoMemory> {
    let wanted = trace_anew(alloc, checked, log, every)?;
    let told = difference(alloc, &wanted.len(), &rows)?;
    if told.is_some() {
        return Ok(told);
    }
    ways_differ(rt, alloc, checked, log, every, &wanted)
}

impl ThreadedCase for Drawn {
    fn script(&self) -> &str {
        self.0
    }

    fn differs<T: Threads + Wait + Sync>(
        &self,
        rt: &T,
        alloc: Global,
        checked: &Checked,
    ) -> Result<Option<String>, NoMemory> {
        let log = log_of(alloc, self.1)?;
        log_differs(rt, alloc, checked, log.as_str(), self.2, self.3)
    }
}

#[test]
fn every_record_of_drawn_logs_has_the_row_that_folding_anew_gives(
    rt: HostRuntime,
) -> Result<(), Fail> {
    let cases = [
        Drawn(SHORT_SESSIONS, 1, 1, 300),
        Drawn(SMALL_SUMS, 2, 1, 300),
        Drawn(TOGGLE, 3, 1, 300),
        Drawn(COUNTER, 4, 1, 300),
    ];
    check_threaded_cases(&rt, rt.alloc(), &cases)
}

#[test]
fn of_drawn_logs_the_numbers_that_are_divided_are_shown(rt: HostRuntime) -> Result<(), Fail> {
    let cases = [
        Drawn(SHORT_SESSIONS, 5, 2, 150),
        Drawn(SMALL_SUMS, 6, 7, 42),
        Drawn(TOGGLE, 7, 100, 3),
        Drawn(COUNTER, 8, 301, 0),
    ];
    check_threaded_cases(&rt, rt.alloc(), &cases)
}
