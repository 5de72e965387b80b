//! Small rounds, by one worker and by many.
use crate::bodies::Body;
use crate::comparing::{Before, Seen, Way, Worked, seen_by};
use crate::holds::{Holder, Until};
use std::alloc::Global;
use std::sync::Wait;
use std::test::Fail;
use std::thread::Threads;
use sym_base::NoMemory;
use sym_engine::OpenGate;

/// A log of teams and results, how many chunks it has and how many groups, and the number of its
/// first row that is no record.
struct Case(&'static str, usize, usize, Option<u64>);

const CASES: [Case; 13] = [
    Case("team,result\na,win\n", 1, 1, None),
    Case("team,result\na,win\nb,loss\n", 2, 2, None),
    Case("team,result\na,win\na,loss\na,win\n", 3, 1, None),
    Case(
        "team,result\na,win\nb,win\na,win\nc,draw\nb,win\n",
        5,
        3,
        None,
    ),
    Case(
        "team,result\na,win\nb,win\nc,loss\na,win\na,win\nb,draw\nc,win\na,loss\nb,win\n",
        9,
        3,
        None,
    ),
    Case("team,result\na,tie\n", 1, 0, Some(1)),
    Case("team,result\na,win\nb,tie\n", 2, 0, Some(2)),
    Case("team,result\na,tie\nb\na,win\n", 3, 0, Some(1)),
    Case(
        "team,result\na,win\nb,win\na\nc,tie\nb,win\n",
        5,
        0,
        Some(3),
    ),
    Case(
        "team,result\na,win\nb,win\nc,loss\na,win\na,win\nb,draw\nc,win\na,tie\nb\n",
        9,
        0,
        Some(8),
    ),
    // A row of each stretch is no record.
    Case(
        "team,result\na\nb,tie\nc,tie\na\na,tie\nb\nc,tie\na\nb,tie\n",
        9,
        0,
        Some(1),
    ),
    Case(
        "team,result\na,win\nb,win\nc,win\na,win\na\nb\nc,tie\na,win\nb,tie\n",
        9,
        0,
        Some(5),
    ),
    Case(
        "team,result\na,win\nb,win\nc,win\na,win\na,win\nb,win\nc,loss\na,win\nb,tie\n",
        9,
        0,
        Some(9),
    ),
];

const WORKERS: [u32; 5] = [1, 2, 3, 8, 64];

// Whether this is seen of the log, and chunks are claimed as they have to be, with so many workers:
// each one once, unless a row is no record and no run of the round is made. Then chunks after the
// row's may be left out.
fn is_seen<T: Threads + Wait + Sync>(
    rt: &T,
    alloc: Global,
    case: &Case,
    worked: Worked,
) -> Result<bool, NoMemory> {
    let Case(log, chunks, groups, bad) = case;
    let hold = Holder::new(Until::Now, 0);
    let gate = OpenGate { hold };
    let seen = seen_by(rt, alloc, log, worked, &gate)?;
    let wanted = Seen {
        chunks: *chunks,
        same: true,
        groups: *groups,
        bad: *bad,
    };
    let needed = match (worked.way, bad) {
        (Way::Led, Some(no)) => (*chunks).min(*no as usize),
        _ => *chunks,
    };
    Ok(seen == Some(wanted) && gate.hold.claimed(needed, *chunks) && !gate.hold.gave_up())
}

// The place of the first log of which this isn't seen, with so many workers.
fn first_wrong<T: Threads + Wait + Sync>(
    rt: &T,
    alloc: Global,
    worked: Worked,
) -> Result<Option<usize>, NoMemory> {
    'cases: for (place, case) in CASES.iter().enumerate() {
        if !is_seen(rt, alloc, case, worked)? {
            return Ok(Some(place));
        }
    }
    Ok(None)
}

#[test]
fn any_workers_make_of_a_round_what_one_thread_does(rt: HostRuntime) -> Result<(), Fail> {
    'workers: for workers in WORKERS {
        let worked = Worked {
            way: Way::Run(Body::Round),
            before: Before::Nothing,
            workers,
        };
        let wrong = first_wrong(&rt, rt.alloc(), worked)?;
        assert_eq!(rt; wrong, None, "{workers} workers");
    }
    Ok(())
}

#[test]
fn a_round_that_leads_groups_on_does_what_its_run_does(rt: HostRuntime) -> Result<(), Fail> {
    'before: for before in [Before::Nothing, Before::TheRound] {
        'workers: for workers in WORKERS {
            let worked = Worked {
                way: Way::Led,
                before,
                workers,
            };
            let wrong = first_wrong(&rt, rt.alloc(), worked)?;
            assert_eq!(rt; wrong, None, "{workers} workers, {before:?}");
        }
    }
    Ok(())
}

#[test]
fn holds_and_gates_that_make_runs_lead_groups_on(rt: HostRuntime) -> Result<(), Fail> {
    'ways: for way in [Way::HoldOfRuns, Way::GateOfRuns] {
        'before: for before in [Before::Nothing, Before::TheRound] {
            'workers: for workers in WORKERS {
                let worked = Worked {
                    way,
                    before,
                    workers,
                };
                let wrong = first_wrong(&rt, rt.alloc(), worked)?;
                assert_eq!(rt; wrong, None, "{worked:?}");
            }
        }
    }
    Ok(())
}

#[test]
fn a_hold_that_always_refuses_is_seen(rt: HostRuntime) -> Result<(), Fail> {
    'workers: for workers in WORKERS {
        let worked = Worked {
            way: Way::Refused,
            before: Before::Nothing,
            workers,
        };
        let wrong = first_wrong(&rt, rt.alloc(), worked)?;
        assert_eq!(rt; wrong, Some(0), "{worked:?}");
    }
    Ok(())
}

#[test]
fn the_other_bodies_make_of_a_round_what_one_thread_does(rt: HostRuntime) -> Result<(), Fail> {
    'bodies: for body in [Body::Gate, Body::Serial, Body::Halves] {
        let worked = Worked {
            way: Way::Run(body),
            before: Before::TheRound,
            workers: 2,
        };
        let wrong = first_wrong(&rt, rt.alloc(), worked)?;
        assert_eq!(rt; wrong, None, "{body:?}");
    }
    Ok(())
}
