//! Watched runs over logs that a fixed generator draws: each partial has the rows of a run that isn't
//! watched over the records up to its border.
use crate::awaiter::awaiter_of;
use crate::calls::{Ended, call};
use crate::comparer::Noted;
use std::alloc::Global;
use std::sync::{Arc, Wait};
use std::test::Fail;
use std::thread::Threads;
use sym_base::{MemStore, NoMemory};
use sym_engine::{Free, OpenGate};
use sym_given::{ThreadedRow, bytes_differ, check_threaded_rows, difference};
use sym_watch::Observer;

/// The records of a log.
const RECORDS: u64 = 200;

/// The chunks of a full round.
const ROUND: u64 = 64;

const USERS: [&str; 3] = ["ann", "bob", "cy"];

const MODES: [&str; 2] = ["idle", "busy"];

/// A sum of each user, which may leave its range, and the greatest number that was added.
const SUMS: &str = "field user: word; field x: num; group user; state n: int [-20..20] = 0; \
    state xs: nums [-9..9]; update { n = n + x; push xs x; } report { n = n; most = max(xs); }";

/// Quotients of each user and day, some of which are by zero.
const QUOTIENTS: &str = "field user: word; field day: num; field x: num; group day, user; \
    state n: int [0..1000] = 0; update { n = n + 12 / (x + 4); } report { n = n; half = n / 2; }";

/// Changes of each mode, user and day, of which there may be seven.
const CHANGES: &str = "enum mode { idle, busy } field user: word; field day: num; \
    field what: mode; group what, user, day; state m: mode = idle; state n: int [0..7] = 0; \
    update { if m is idle { m = busy; n = n + 1; } else { m = idle; } } report { m = m; n = n; }";

/// A script, the records of a chunk as a number and as an argument, how many workers there are, and
/// the seed of a log.
#[derive(Clone, Copy)]
struct Drawn {
    script: &'static str,
    chunk: u64,
    rows: &'static str,
    workers: &'static str,
    seed: u32,
}

/// A linear congruential generator of numbers below 2^31, of which the upper 15 bits are used.
#[derive(Drop)]
struct Draws(u32);

impl Draws {
    fn next(&mut self) -> u32 {
        self.0 = self.0.wrapping_mul(1_103_515_245).wrapping_add(12_345) & 0x7fff_ffff;
        self.0 / 65_536
    }
}

// Appends a record with the columns of all scripts.
fn push_record(alloc: Global, log: &mut String, drawn: u32) -> Result<(), NoMemory> {
    let user = USERS[drawn as usize % 3];
    let day = drawn / 3 % 2;
    let mode = MODES[drawn as usize / 6 % 2];
    let x = i64::from(drawn / 12 % 9) - 4;
    let line = format!(in alloc; "{user},{day},{mode},{x}\n")?;
    log.push_str(line.as_str())?;
    Ok(())
}

// The first records of the log of a seed.
fn log_of(alloc: Global, seed: u32, records: u64) -> Result<String, NoMemory> {
    let mut draws = Draws(seed);
    let mut log = String::from_str(alloc, "user,day,what,x\n")?;
    'records: for _record in 0..records {
        push_record(alloc, &mut log, draws.next())?;
    }
    Ok(log)
}

// The borders of the rounds of a log in chunks of so many records.
fn borders_of(alloc: Global, chunk: u64) -> Result<Vec<u64>, NoMemory> {
    let mut borders = Vec::new(alloc);
    'records: for record in 1..=RECORDS {
        if record == RECORDS || record % ROUND.saturating_mul(chunk).max(1) == 0 {
            borders.push(record)?;
        }
    }
    Ok(borders)
}

// A run over the first records of a log.
fn run_upto<T: Threads + Wait + Sync>(
    rt: &T,
    alloc: Global,
    drawn: &Drawn,
    records: u64,
    words: &[&'static str],
    observers: &mut Vec<Box<dyn Observer + Send>>,
) -> Result<Ended, NoMemory> {
    let words = sym_given_calls::words_of(alloc, words)?;
    let mut store = MemStore::new(alloc);
    store.add(alloc, "s", drawn.script.as_bytes())?;
    store.add(alloc, "f", log_of(alloc, drawn.seed, records)?.as_bytes())?;
    let gate = OpenGate { hold: Free };
    call(rt, alloc, &words, &mut store, observers, &gate)
}

// The report of a run that isn't watched over the first records.
fn report_upto<T: Threads + Wait + Sync>(
    rt: &T,
    alloc: Global,
    drawn: &Drawn,
    records: u64,
) -> Result<Vec<u8>, NoMemory> {
    let mut observers: Vec<Box<dyn Observer + Send>> = Vec::new(alloc);
    let ended = run_upto(
        rt,
        alloc,
        drawn,
        records,
        &["run", "s", "f"],
        &mut observers,
    )?;
    let mut report = Vec::new(alloc);
    report.extend_from_slice(ended.out.bytes())?;
    Ok(report)
}

// The reports of such runs up to each border.
fn reports_at<T: Threads + Wait + Sync>(
    rt: &T,
    alloc: Global,
    drawn: &Drawn,
    borders: &[u64],
) -> Result<Vec<Vec<u8>>, NoMemory> {
    let mut reports = Vec::new(alloc);
    'borders: for border in borders {
        reports.push(report_upto(rt, alloc, drawn, *border)?)?;
    }
    Ok(reports)
}

// What the watched run over the whole log comes to in place of what is wanted: the report of a run
// that isn't watched, and an observer that was told of each of its partials.
fn watched_differs<T: Threads + Wait + Sync>(
    rt: &T,
    alloc: Global,
    drawn: &Drawn,
) -> Result<Option<String>, NoMemory> {
    let borders = borders_of(alloc, drawn.chunk)?;
    let count = borders.len() as u64;
    let reports = reports_at(rt, alloc, drawn, borders.as_slice())?;
    let noted = Arc::new(alloc, Noted::new())?;
    let observer: Box<dyn Observer + Send> = Box::new(
        alloc,
        awaiter_of(borders, reports, &noted)?,
    )?;
    let mut observers = Vec::from_array(alloc, [observer])?;
    let words = [
        "run",
        "--watch",
        "--chunk",
        drawn.rows,
        "--workers",
        drawn.workers,
        "s",
        "f",
    ];
    let ended = run_upto(rt, alloc, drawn, RECORDS, &words, &mut observers)?;
    let report = report_upto(rt, alloc, drawn, RECORDS)?;
    let told = bytes_differ(alloc, ended.out.bytes(), report.as_slice())?;
    if told.is_some() {
        return Ok(told);
    }
    difference(alloc, &noted.seen(), &(count, count))
}

impl ThreadedRow for Drawn {
    fn differs<T: Threads + Wait + Sync>(
        &self,
        rt: &T,
        alloc: Global,
    ) -> Result<Option<String>, NoMemory> {
        watched_differs(rt, alloc, self)
    }
}

const OF_ONE_ROW: Drawn = Drawn {
    script: SUMS,
    chunk: 1,
    rows: "1",
    workers: "4",
    seed: 1,
};

const OF_TWO_ROWS: Drawn = Drawn {
    script: SUMS,
    chunk: 2,
    rows: "2",
    workers: "3",
    seed: 2,
};

const DRAWN: [Drawn; 7] = [
    OF_ONE_ROW,
    OF_TWO_ROWS,
    Drawn {
        script: QUOTIENTS,
        ..OF_ONE_ROW
    },
    Drawn {
        script: QUOTIENTS,
        ..OF_TWO_ROWS
    },
    Drawn {
        script: CHANGES,
        ..OF_ONE_ROW
    },
    Drawn {
        script: CHANGES,
        ..OF_TWO_ROWS
    },
    Drawn {
        script: CHANGES,
        workers: "1",
        seed: 3,
        ..OF_ONE_ROW
    },
];

#[test]
fn partials_are_reports_of_runs_over_the_records_before(rt: HostRuntime) -> Result<(), Fail> {
    check_threaded_rows(&rt, rt.alloc(), &DRAWN)
}
