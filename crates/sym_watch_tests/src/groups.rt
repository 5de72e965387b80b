//! Runs over several groups that are watched: the rows of each partial, which are those of a run
//! over the records up to its border.
use crate::calls::{Ended, call};
use crate::comparer::{Noted, Told, comparer_of};
use crate::logged::{logged, observers_of};
use std::alloc::Global;
use std::sync::{Arc, Wait};
use std::test::Fail;
use std::thread::Threads;
use sym_base::{FILE_MAX_DEFAULT, MemStore, NoMemory};
use sym_engine::{Free, LIMIT_DEFAULT, OpenGate, Options};
use sym_given::accepted;
use sym_top::Status;
use sym_watch::Observer;

/// A script, the header of a log, its rows, each with how many times it stands there, the names of
/// the report, the partials that are told at borders of 64 records, and the status.
struct Case {
    script: &'static str,
    header: &'static str,
    rows: &'static [(&'static str, u64)],
    names: &'static str,
    told: &'static [Told],
    status: Status,
}

const CASES: [Case; 4] = [
    // A key of two fields. The third group leaves the range at its 51st record.
    Case {
        script: "field user: word; field day: num; group user, day; state n: int [0..50] = 0; \
            update { n = n + 1; } report { n = n; twice = 2 * n; }",
        header: "day,user\n",
        rows: &[("1,a\n", 40), ("1,b\n", 30), ("2,a\n", 60)],
        names: "user | day | n | twice\n",
        told: &[
            Told(64, "a | 1 | 40 | 80\nb | 1 | 24 | 48\n"),
            Told(
                128,
                "a | 1 | 40 | 80\nb | 1 | 30 | 60\na | 2 | fault: n overflows at record 121\n",
            ),
            Told(
                130,
                "a | 1 | 40 | 80\nb | 1 | 30 | 60\na | 2 | fault: n overflows at record 121\n",
            ),
        ],
        status: Status::Faulted,
    },
    // A key of a label. The state gets known.
    Case {
        script: "enum mode { idle, busy, done } field what: mode; field x: num; group what; \
            state n: int [0..99] = 0; state m: mode = idle; \
            update { n = x; m = what; } report { m = m; n = n; }",
        header: "what,x\n",
        rows: &[
            ("busy,3\n", 64),
            ("idle,4\n", 1),
            ("busy,5\n", 1),
            ("done,6\n", 64),
        ],
        names: "what | m | n\n",
        told: &[
            Told(64, "busy | busy | 3\n"),
            Told(128, "busy | busy | 5\nidle | idle | 4\ndone | done | 6\n"),
            Told(130, "busy | busy | 5\nidle | idle | 4\ndone | done | 6\n"),
        ],
        status: Status::Done,
    },
    // A key of three fields. The second group divides by zero at its first record.
    Case {
        script: "enum mode { idle, busy } field user: word; field day: num; field what: mode; \
            group what, user, day; state xs: nums [-9..9]; \
            update { push xs 9 / day; } report { n = count(xs); newest = last(xs); }",
        header: "user,day,what\n",
        rows: &[("a,3,busy\n", 2), ("a,0,busy\n", 2), ("a,3,idle\n", 61)],
        names: "what | user | day | n | newest\n",
        told: &[
            Told(
                64,
                "busy | a | 3 | 2 | 3\nbusy | a | 0 | fault: arithmetic at record 3\n\
                idle | a | 3 | 60 | 3\n",
            ),
            Told(
                65,
                "busy | a | 3 | 2 | 3\nbusy | a | 0 | fault: arithmetic at record 3\n\
                idle | a | 3 | 61 | 3\n",
            ),
        ],
        status: Status::Faulted,
    },
    // No group line.
    Case {
        script: "field x: num; state n: int [0..99] = 0; update { n = x; } report { n = n; }",
        header: "x\n",
        rows: &[("1\n", 64), ("2\n", 64)],
        names: "n\n",
        told: &[Told(64, "1\n"), Told(128, "2\n")],
        status: Status::Done,
    },
];

/// What a watched run came to: its status, whether its report is the one that is wanted, whether it
/// wrote a line, how many partials the observer was told of, how many of them were those that are
/// wanted, and the last border.
#[derive(Clone, Copy, Debug, PartialEq, Eq)]
struct Came {
    status: Status,
    whole: bool,
    silent: bool,
    told: (u64, u64),
    last: Option<u64>,
}

// The log of a case, up to this record.
fn log_of(alloc: Global, case: &Case, upto: u64) -> Result<String, NoMemory> {
    let mut log = String::from_str(alloc, case.header)?;
    let mut left = upto;
    'rows: for (row, times) in case.rows {
        let taken = left.min(*times);
        'times: for _time in 0..taken {
            log.push_str(row)?;
        }
        left -= taken;
    }
    Ok(log)
}

// The report with these rows.
fn report_of(alloc: Global, case: &Case, rows: &str) -> Result<String, NoMemory> {
    let mut report = String::from_str(alloc, case.names)?;
    report.push_str(rows)?;
    report.push_str("--\n")?;
    Ok(report)
}

// The arguments of a run by so many workers, as a number in decimal digits.
fn words_of(alloc: Global, workers: &str, watched: bool) -> Result<Vec<String>, NoMemory> {
    let mut words = Vec::new(alloc);
    'words: for word in ["run", "--chunk", "1", "--workers", workers, "s", "f"] {
        words.push(String::from_str(alloc, word)?)?;
    }
    if watched {
        words.push(String::from_str(alloc, "--watch")?)?;
    }
    Ok(words)
}

// A run over the records of a case up to this one.
fn run_upto<T: Threads + Wait + Sync>(
    rt: &T,
    alloc: Global,
    case: &Case,
    upto: u64,
    words: &Vec<String>,
    observers: &mut Vec<Box<dyn Observer + Send>>,
) -> Result<Ended, NoMemory> {
    let mut store = MemStore::new(alloc);
    store.add(alloc, "s", case.script.as_bytes())?;
    store.add(alloc, "f", log_of(alloc, case, upto)?.as_bytes())?;
    let gate = OpenGate { hold: Free };
    call(rt, alloc, words, &mut store, observers, &gate)
}

/// The partial that is wanted at a place of the case with this number.
pub(crate) fn wanted_at(case: usize, place: usize) -> Option<&'static Told> {
    match CASES.get(case) {
        Some(case) => case.told.get(place),
        None => None,
    }
}

// What the watched run of the case with this number came to, up to its last border.
fn came_of<T: Threads + Wait + Sync>(
    rt: &T,
    alloc: Global,
    number: usize,
    case: &Case,
    workers: &str,
    wanted: &Told,
) -> Result<Came, NoMemory> {
    let words = words_of(alloc, workers, true)?;
    let noted = Arc::new(alloc, Noted::new())?;
    let observer: Box<dyn Observer + Send> = Box::new(alloc, comparer_of(number, &noted)?)?;
    let mut observers = Vec::from_array(alloc, [observer])?;
    let ended = run_upto(rt, alloc, case, wanted.0, &words, &mut observers)?;
    let last = match observers.as_slice() {
        [observer] => observer.last(),
        _ => None,
    };
    let report = report_of(alloc, case, wanted.1)?;
    Ok(Came {
        status: ended.status,
        whole: ended.out.bytes() == report.as_bytes(),
        silent: ended.err.bytes().is_empty(),
        told: noted.seen(),
        last,
    })
}

// Whether a run that isn't watched reports these rows on the records up to a border.
fn reports<T: Threads + Wait + Sync>(
    rt: &T,
    alloc: Global,
    case: &Case,
    wanted: &Told,
) -> Result<bool, NoMemory> {
    let words = words_of(alloc, "1", false)?;
    let mut observers: Vec<Box<dyn Observer + Send>> = Vec::new(alloc);
    let ended = run_upto(rt, alloc, case, wanted.0, &words, &mut observers)?;
    let report = report_of(alloc, case, wanted.1)?;
    Ok(ended.out.bytes() == report.as_bytes())
}

#[test]
fn partials_have_a_row_for_each_group(rt: HostRuntime) -> Result<(), Fail> {
    'cases: for (number, case) in CASES.iter().enumerate() {
        let last = case.told.last().ok_or("a partial")?;
        let wanted = Came {
            status: case.status,
            whole: true,
            silent: true,
            told: (case.told.len() as u64, case.told.len() as u64),
            last: Some(last.0),
        };
        'workers: for workers in ["1", "2", "64"] {
            let came = came_of(&rt, rt.alloc(), number, case, workers, last)?;
            assert_eq!(rt; came, wanted, "{workers} workers, {}", case.script);
        }
    }
    Ok(())
}

#[test]
fn partials_are_reports_on_the_records_before(rt: HostRuntime) -> Result<(), Fail> {
    'cases: for case in &CASES {
        'told: for told in case.told {
            let is_so = reports(&rt, rt.alloc(), case, told)?;
            assert!(rt; is_so, "at {}, {}", told.0, case.script);
        }
    }
    Ok(())
}

/// What a watched pass comes to: how many groups there are, how many partials the observer was told
/// of whose log contracts don't see, how many of them were those that are wanted, and the last border
/// of each observer.
#[derive(Clone, Copy, Debug, PartialEq, Eq)]
struct Passed {
    groups: Option<usize>,
    told: (u64, u64),
    last: (Option<u64>, Option<u64>),
}

const OPTIONS: Options = Options {
    chunk: 1,
    limit: LIMIT_DEFAULT,
    workers: 4,
    max_bytes: FILE_MAX_DEFAULT,
};

// The groups of the rows of a partial.
fn groups_of(told: &Told) -> usize {
    told.1
        .as_bytes()
        .iter()
        .filter(|byte| **byte == b'\n')
        .count()
}

// What the pass over the records of the case with this number comes to, up to its last border.
fn passed_of<T: Threads + Wait + Sync>(
    rt: &T,
    alloc: Global,
    number: usize,
    case: &Case,
    wanted: &Told,
) -> Result<Option<Passed>, NoMemory> {
    let Some(checked) = accepted(alloc, case.script) else {
        return Ok(None);
    };
    let mut files = MemStore::new(alloc);
    files.add(alloc, "f", log_of(alloc, case, wanted.0)?.as_bytes())?;
    let name = String::from_str(alloc, "f")?;
    let names = [name];
    let noted = Arc::new(alloc, Noted::new())?;
    let mut observers = observers_of(alloc, comparer_of(number, &noted)?)?;
    let groups = logged(
        rt,
        alloc,
        &checked,
        &mut files,
        &names,
        &OPTIONS,
        &mut observers,
    );
    let last = match observers.as_slice() {
        [logger, other] => (logger.last(), other.last()),
        _ => (None, None),
    };
    Ok(Some(Passed {
        groups: groups.ok().map(|groups| groups.len()),
        told: noted.seen(),
        last,
    }))
}

#[test]
fn logs_that_contracts_see_are_of_these_partials(rt: HostRuntime) -> Result<(), Fail> {
    'cases: for (number, case) in CASES.iter().enumerate() {
        let last = case.told.last().ok_or("a partial")?;
        let count = case.told.len() as u64;
        let wanted = Passed {
            groups: Some(groups_of(last)),
            told: (count, count),
            last: (Some(last.0), Some(last.0)),
        };
        let passed = passed_of(&rt, rt.alloc(), number, case, last)?;
        assert_eq!(rt; passed, Some(wanted), "{}", case.script);
    }
    Ok(())
}
