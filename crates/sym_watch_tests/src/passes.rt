//! Passes that are watched: what observers were told of.
ghost use Rattle.std.specs.Prelude.{◌≤◌};
ghost use Rattle.sym_files.specs.Options.{InRange};

use crate::noter::{Borders, noter_into};
use std::alloc::{AllocError, Global};
use std::sync::{Arc, Wait};
use std::test::Fail;
use std::thread::Threads;
use sym_base::{FILE_MAX_DEFAULT, MemStore, NoMemory};
use sym_check::Checked;
use sym_engine::{Free, LIMIT_DEFAULT, OpenGate, Options, PassErr, pass_watched};
use sym_given::accepted;
use sym_watch::Observer;

// A count of all records.
const COUNTER: &str = "field user: word; group user; state n: int [0..1000000] = 0; \
    update { n = n + 1; } report { n = n; }";

// A pass over two files: how many records each has, which of the second one is none, if one is,
// and from which border on its first observer refuses.
#[derive(Clone, Copy, Debug, PartialEq, Eq)]
struct Course {
    first: usize,
    second: usize,
    bad: Option<usize>,
    refused: u64,
}

// What a course came to: the borders that each of two observers was told of, and the last ones.
#[derive(Clone, Copy, Debug, PartialEq, Eq)]
struct Came {
    told: ([u64; 6], [u64; 6]),
    last: (Option<u64>, Option<u64>),
    answer: Result<usize, Stopped>,
}

// Why a pass gave no groups.
#[derive(Clone, Copy, Debug, PartialEq, Eq)]
enum Stopped {
    Bad(u64),
    NoMemory,
    Other,
    // The script is refused, or workers or names are out of their ranges.
    NoPass,
}

// What comes of no pass.
const NO_PASS: Came = Came {
    told: ([0; 6], [0; 6]),
    last: (None, None),
    answer: Err(Stopped::NoPass),
};

// A file of so many records of one user, one of which has two fields.
fn log_of(alloc: Global, records: usize, bad: Option<usize>) -> Result<String, AllocError> {
    let mut log = String::from_str(alloc, "user\n")?;
    'records: for record in 0..records {
        let row = if bad == Some(record) { "a,b\n" } else { "a\n" };
        log.push_str(row)?;
    }
    Ok(log)
}

fn store_of(alloc: Global, course: &Course) -> Result<MemStore, NoMemory> {
    let mut store = MemStore::new(alloc);
    store.add(
        alloc,
        "first",
        log_of(alloc, course.first, None)?.as_bytes(),
    )?;
    store.add(
        alloc,
        "second",
        log_of(alloc, course.second, course.bad)?.as_bytes(),
    )?;
    Ok(store)
}

fn names_of(alloc: Global) -> Result<Vec<String>, NoMemory> {
    let mut names = Vec::new(alloc);
    names.push(String::from_str(alloc, "first")?)?;
    names.push(String::from_str(alloc, "second")?)?;
    Ok(names)
}

fn why_stopped(why: PassErr) -> Stopped {
    match why {
        PassErr::Bad { bad, .. } => Stopped::Bad(bad.no),
        PassErr::NoMemory => Stopped::NoMemory,
        PassErr::Read { .. } | PassErr::TooLarge { .. } | PassErr::Head { .. } => Stopped::Other,
    }
}

// Watches the pass of a course, where there are 1 to 64 workers and few names.
fn watched<T: Threads + Wait + Sync>(
    rt: &T,
    alloc: Global,
    course: &Course,
    workers: u32,
) -> Result<Came, NoMemory> {
    let Some(checked) = accepted(alloc, COUNTER) else {
        return Ok(NO_PASS);
    };
    let mut files = store_of(alloc, course)?;
    let names = names_of(alloc)?;
    let first = Arc::new(alloc, Borders::none())?;
    let second = Arc::new(alloc, Borders::none())?;
    let mut observers: Vec<Box<dyn Observer + Send>> = Vec::new(alloc);
    observers.push(Box::new(alloc, noter_into(&first, 1_000_000)?)?)?;
    observers.push(Box::new(alloc, noter_into(&second, course.refused)?)?)?;
    let options = Options {
        chunk: 1,
        limit: LIMIT_DEFAULT,
        workers,
        max_bytes: FILE_MAX_DEFAULT,
    };
    if workers < 1 || workers > 64 || names.len() > 3 {
        return Ok(NO_PASS);
    }
    let gate = OpenGate { hold: Free };
    let names = names.as_slice();
    let answer = pass_watched(
        rt,
        alloc,
        &checked,
        &mut files,
        names,
        &options,
        &mut observers,
        &gate,
    );
    let last = match observers.as_slice() {
        [one, other] => (one.last(), other.last()),
        _ => (None, None),
    };
    Ok(Came {
        told: (first.told(), second.told()),
        last,
        answer: match answer {
            Ok(groups) => Ok(groups.len()),
            Err(why) => Err(why_stopped(why)),
        },
    })
}

// Courses with what they come to, at whatever number of workers.
const COURSES: [(Course, Came); 6] = [
    (
        Course {
            first: 130,
            second: 0,
            bad: None,
            refused: 1_000_000,
        },
        Came {
            told: ([64, 128, 130, 0, 0, 0], [64, 128, 130, 0, 0, 0]),
            last: (Some(130), Some(130)),
            answer: Ok(1),
        },
    ),
    (
        Course {
            first: 70,
            second: 70,
            bad: None,
            refused: 1_000_000,
        },
        Came {
            told: ([64, 70, 134, 140, 0, 0], [64, 70, 134, 140, 0, 0]),
            last: (Some(140), Some(140)),
            answer: Ok(1),
        },
    ),
    (
        Course {
            first: 0,
            second: 130,
            bad: Some(99),
            refused: 1_000_000,
        },
        Came {
            told: ([64, 0, 0, 0, 0, 0], [64, 0, 0, 0, 0, 0]),
            last: (Some(64), Some(64)),
            answer: Err(Stopped::Bad(100)),
        },
    ),
    (
        Course {
            first: 130,
            second: 100,
            bad: Some(70),
            refused: 1_000_000,
        },
        Came {
            told: ([64, 128, 130, 194, 0, 0], [64, 128, 130, 194, 0, 0]),
            last: (Some(194), Some(194)),
            answer: Err(Stopped::Bad(201)),
        },
    ),
    (
        Course {
            first: 130,
            second: 0,
            bad: None,
            refused: 128,
        },
        Came {
            told: ([64, 128, 0, 0, 0, 0], [64, 0, 0, 0, 0, 0]),
            last: (Some(128), Some(64)),
            answer: Err(Stopped::NoMemory),
        },
    ),
    (
        Course {
            first: 130,
            second: 0,
            bad: None,
            refused: 130,
        },
        Came {
            told: ([64, 128, 130, 0, 0, 0], [64, 128, 0, 0, 0, 0]),
            last: (Some(130), Some(128)),
            answer: Err(Stopped::NoMemory),
        },
    ),
];

// The first of the courses that came to something else, and what it came to.
fn first_wrong<T: Threads + Wait + Sync>(
    rt: &T,
    alloc: Global,
    workers: u32,
) -> Result<Option<(Course, Came)>, NoMemory> {
    'courses: for (course, came) in &COURSES {
        let found = watched(rt, alloc, course, workers)?;
        if found != *came {
            return Ok(Some((*course, found)));
        }
    }
    Ok(None)
}

#[test]
fn observers_are_told_of_each_round_that_is_done(rt: HostRuntime) -> Result<(), Fail> {
    let alloc = rt.alloc();
    assert_eq!(rt; first_wrong(&rt, alloc, 1)?, None);
    assert_eq!(rt; first_wrong(&rt, alloc, 4)?, None);
    Ok(())
}
