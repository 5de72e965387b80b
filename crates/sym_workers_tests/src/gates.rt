//! Rounds whose first chunk is held until its worker isn't the only one.
use crate::bodies::Body;
use crate::comparing::{Before, Seen, Way, Worked, seen_by};
use crate::holds::{Holder, Until};
use crate::many::log_of;
use std::alloc::Global;
use std::sync::Wait;
use std::test::Fail;
use std::thread::Threads;
use sym_base::NoMemory;
use sym_engine::OpenGate;

/// For how many turns a worker is held at most.
const TURNS: u64 = 500_000_000;

/// For how many turns a worker is held of whom it is known that the hold gives up.
const FEW_TURNS: u64 = 1_000_000;

const TWO: &str = "team,result\na,win\na,win\n";

const THREE: &str = "team,result\na,win\nb,win\na,loss\n";

// How a round goes.
#[derive(Clone, Copy, Debug, PartialEq, Eq)]
enum Course {
    // The hold ended, and the answer is the one-thread answer.
    Through,
    // The hold gave up, and the answer is the one-thread answer.
    GaveUp,
    // Another answer, or none.
    Wrong,
}

// How the round of a log goes, each row of which is a chunk, and which has so many groups.
fn course_of<T: Threads + Wait + Sync>(
    rt: &T,
    alloc: Global,
    log: &str,
    worked: Worked,
    wanted: Seen,
    hold: Holder,
) -> Result<Course, NoMemory> {
    let gate = OpenGate { hold };
    let seen = seen_by(rt, alloc, log, worked, &gate)?;
    if seen != Some(wanted) || !gate.hold.claimed_once(wanted.chunks) {
        return Ok(Course::Wrong);
    }
    if gate.hold.gave_up() {
        return Ok(Course::GaveUp);
    }
    Ok(Course::Through)
}

// A round of two chunks, the first of which is held until the other worker has claimed one.
fn of_two<T: Threads + Wait + Sync>(
    rt: &T,
    alloc: Global,
    worked: Worked,
    turns: u64,
) -> Result<Course, NoMemory> {
    let wanted = Seen {
        chunks: 2,
        same: true,
        groups: 1,
        bad: None,
    };
    let hold = Holder::new(Until::OtherWorker, turns);
    course_of(rt, alloc, TWO, worked, wanted, hold)
}

// A round of three chunks, the first of which is held until the last one is claimed.
fn of_three<T: Threads + Wait + Sync>(
    rt: &T,
    alloc: Global,
    worked: Worked,
    turns: u64,
) -> Result<Course, NoMemory> {
    let wanted = Seen {
        chunks: 3,
        same: true,
        groups: 2,
        bad: None,
    };
    let hold = Holder::new(Until::Others(2, 3), turns);
    course_of(rt, alloc, THREE, worked, wanted, hold)
}

// A round of 64 chunks, the first of which is held until each chunk from this one on is claimed.
fn of_many<T: Threads + Wait + Sync>(
    rt: &T,
    alloc: Global,
    worked: Worked,
    from: u32,
    turns: u64,
) -> Result<Course, NoMemory> {
    let wanted = Seen {
        chunks: 64,
        same: true,
        groups: 45,
        bad: None,
    };
    let hold = Holder::new(Until::Others(from, 64), turns);
    let log = log_of(alloc, 64, 0)?;
    course_of(rt, alloc, log.as_str(), worked, wanted, hold)
}

const TWO_WORKERS: Worked = Worked {
    way: Way::Run(Body::Round),
    before: Before::Nothing,
    workers: 2,
};

const BY_THE_GATE: Worked = Worked {
    way: Way::Run(Body::Gate),
    before: Before::Nothing,
    workers: 2,
};

const LED: Worked = Worked {
    way: Way::Led,
    before: Before::Nothing,
    workers: 2,
};

const LED_BY_ONE: Worked = Worked {
    way: Way::Led,
    before: Before::Nothing,
    workers: 1,
};

const ONE_WORKER: Worked = Worked {
    way: Way::Run(Body::Round),
    before: Before::Nothing,
    workers: 1,
};

const SERIAL: Worked = Worked {
    way: Way::Run(Body::Serial),
    before: Before::Nothing,
    workers: 2,
};

#[test]
fn two_workers_are_at_work_at_once(rt: HostRuntime) -> Result<(), Fail> {
    assert_eq!(rt;
        of_two(&rt, rt.alloc(), TWO_WORKERS, TURNS)?,
        Course::Through
    );
    assert_eq!(rt;
        of_two(&rt, rt.alloc(), BY_THE_GATE, TURNS)?,
        Course::Through
    );
    assert_eq!(rt; of_two(&rt, rt.alloc(), LED, TURNS)?, Course::Through);
    Ok(())
}

#[test]
fn a_body_on_one_thread_is_seen(rt: HostRuntime) -> Result<(), Fail> {
    assert_eq!(rt; of_two(&rt, rt.alloc(), SERIAL, FEW_TURNS)?, Course::GaveUp);
    assert_eq!(rt;
        of_two(&rt, rt.alloc(), ONE_WORKER, FEW_TURNS)?,
        Course::GaveUp
    );
    assert_eq!(rt;
        of_two(&rt, rt.alloc(), LED_BY_ONE, FEW_TURNS)?,
        Course::GaveUp
    );
    Ok(())
}

#[test]
fn the_other_worker_takes_the_next_stretch(rt: HostRuntime) -> Result<(), Fail> {
    assert_eq!(rt;
        of_three(&rt, rt.alloc(), TWO_WORKERS, TURNS)?,
        Course::Through
    );
    assert_eq!(rt;
        of_three(&rt, rt.alloc(), BY_THE_GATE, TURNS)?,
        Course::Through
    );
    assert_eq!(rt; of_three(&rt, rt.alloc(), LED, TURNS)?, Course::Through);
    assert_eq!(rt;
        of_three(&rt, rt.alloc(), SERIAL, FEW_TURNS)?,
        Course::GaveUp
    );
    Ok(())
}

/// How many workers work a round of 64 chunks, and from which chunk on the others claim each one
/// while the worker of the first stretch is held, where there is one stretch for each worker, where
/// there are two, and where there are four.
const FIRST_STRETCHES: [(u32, u32, u32, u32); 4] = [
    (2, 32, 16, 8),
    (3, 22, 11, 6),
    (8, 8, 4, 2),
    (64, 1, 1, 1),
];

// The first way of working a round of 64 chunks by so many workers that doesn't go through.
fn stopped<T: Threads + Wait + Sync>(
    rt: &T,
    alloc: Global,
    (workers, one, two, four): (u32, u32, u32, u32),
) -> Result<Option<Worked>, NoMemory> {
    let ways = [
        (Way::Run(Body::Round), Before::Nothing, one),
        (Way::Run(Body::Gate), Before::Nothing, one),
        // By the runs of stretches.
        (Way::Led, Before::Nothing, two),
        // By the threads of the 45 groups.
        (Way::Led, Before::TheRound, four),
    ];
    'ways: for (way, before, from) in ways {
        let worked = Worked {
            way,
            before,
            workers,
        };
        if of_many(rt, alloc, worked, from, TURNS)? != Course::Through {
            return Ok(Some(worked));
        }
    }
    Ok(None)
}

#[test]
fn other_workers_take_all_chunks_but_those_of_the_first_stretch(
    rt: HostRuntime,
) -> Result<(), Fail> {
    'workers: for row in FIRST_STRETCHES {
        let wrong = stopped(&rt, rt.alloc(), row)?;
        assert!(rt; wrong.is_none(), "{wrong:?}");
    }
    Ok(())
}

#[test]
fn bodies_that_work_many_chunks_on_one_thread_are_seen(rt: HostRuntime) -> Result<(), Fail> {
    'ways: for way in [
        Way::Run(Body::Serial),
        Way::Run(Body::FewHalves),
        Way::Run(Body::Idle),
        Way::LedFew,
        Way::LedIdle,
    ] {
        'before: for before in [Before::Nothing, Before::TheRound] {
            let worked = Worked {
                way,
                before,
                workers: 2,
            };
            let course = of_many(&rt, rt.alloc(), worked, 63, 1_000)?;
            assert_eq!(rt; course, Course::GaveUp, "{worked:?}");
        }
    }
    Ok(())
}
