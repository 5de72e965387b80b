//! Rounds over more groups than are led on by runs, and over new ones.
use crate::bodies::Body;
use crate::comparing::{Before, Seen, Way, Worked, seen_in};
use crate::holds::{Holder, Until};
use std::alloc::Global;
use std::sync::Wait;
use std::test::Fail;
use std::thread::Threads;
use sym_base::NoMemory;
use sym_engine::OpenGate;

/// How many rows a chunk has. Those of the first one are of 40 teams.
const ROWS: u32 = 48;

/// The rows of five chunks.
const RECORDS: u32 = 240;

const WORKERS: [u32; 5] = [1, 2, 3, 8, 64];

/// For how many turns a worker is held at most.
const TURNS: u64 = 500_000_000;

const RESULTS: [&str; 3] = ["win", "win", "draw"];

// The number of the team of a row: 40 in turn, then 60.
fn team_of(place: u32) -> u32 {
    if place < ROWS {
        place % 40
    } else {
        place % 60 * 7 % 60
    }
}

/// A log of so many rows, of up to 60 teams. The row with this number is no record; 0 is none.
pub(crate) fn log_of(alloc: Global, rows: u32, bad: u64) -> Result<String, NoMemory> {
    let mut log = String::from_str(alloc, "team,result\n")?;
    'rows: for place in 0..rows {
        let team = team_of(place);
        let result = RESULTS[place as usize % 3];
        let line = if u64::from(place) + 1 == bad {
            format!(in alloc; "team {team}\n")?
        } else {
            format!(in alloc; "team {team},{result}\n")?
        };
        log.push_str(line.as_str())?;
    }
    Ok(log)
}

// What is seen of a log in this way, and whether chunks are claimed as they have to be: each one
// once, but those after the chunk with the first bad row may be left out.
fn seen_of<T: Threads + Wait + Sync>(
    rt: &T,
    alloc: Global,
    bad: u64,
    worked: Worked,
) -> Result<(Option<Seen>, bool), NoMemory> {
    let hold = Holder::new(Until::Now, 0);
    let gate = OpenGate { hold };
    let log = log_of(alloc, RECORDS, bad)?;
    let seen = seen_in(rt, alloc, log.as_str(), ROWS, worked, &gate)?;
    let needed = if bad == 0 {
        5
    } else {
        bad.div_ceil(48) as usize
    };
    Ok((seen, gate.hold.claimed(needed.min(5), 5)))
}

const WAYS: [Way; 4] = [
    Way::Led,
    Way::HoldOfRuns,
    Way::GateOfRuns,
    Way::Run(Body::Gate),
];

const BEFORE: [Before; 3] = [Before::Nothing, Before::FirstChunk, Before::TheRound];

#[test]
fn a_round_leads_forty_groups_and_more_on(rt: HostRuntime) -> Result<(), Fail> {
    let wanted = Seen {
        chunks: 5,
        same: true,
        groups: 60,
        bad: None,
    };
    'ways: for way in WAYS {
        'before: for before in BEFORE {
            'workers: for workers in WORKERS {
                let worked = Worked {
                    way,
                    before,
                    workers,
                };
                let (seen, claimed) = seen_of(&rt, rt.alloc(), 0, worked)?;
                assert_eq!(rt; seen, Some(wanted), "{worked:?}");
                assert!(rt; claimed, "{worked:?}");
            }
        }
    }
    Ok(())
}

#[test]
fn the_first_bad_row_over_forty_groups_is_found(rt: HostRuntime) -> Result<(), Fail> {
    'rows: for bad in [49, 100, 192, 240] {
        let wanted = Seen {
            chunks: 5,
            same: true,
            groups: 0,
            bad: Some(bad),
        };
        'workers: for workers in WORKERS {
            let worked = Worked {
                way: Way::Led,
                before: Before::FirstChunk,
                workers,
            };
            let (seen, claimed) = seen_of(&rt, rt.alloc(), bad, worked)?;
            assert_eq!(rt; seen, Some(wanted), "row {bad}, {worked:?}");
            assert!(rt; claimed, "row {bad}, {worked:?}");
        }
    }
    Ok(())
}

#[test]
fn two_workers_are_at_work_on_many_groups(rt: HostRuntime) -> Result<(), Fail> {
    let alloc = rt.alloc();
    let hold = Holder::new(Until::OtherWorker, TURNS);
    let gate = OpenGate { hold };
    let worked = Worked {
        way: Way::Led,
        before: Before::TheRound,
        workers: 2,
    };
    let log = log_of(alloc, RECORDS, 0)?;
    let seen = seen_in(&rt, alloc, log.as_str(), ROWS, worked, &gate)?;
    let wanted = Seen {
        chunks: 5,
        same: true,
        groups: 60,
        bad: None,
    };
    assert_eq!(rt; seen, Some(wanted));
    assert!(rt; !gate.hold.gave_up());
    Ok(())
}
