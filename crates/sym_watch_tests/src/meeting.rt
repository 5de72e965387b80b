//! A `tell` that is held until the next round is worked, and a round that is held until then.
use crate::calls::{call, log_of};
use std::alloc::Global;
use std::sync::atomic::{AtomicBool, AtomicU64, Ordering};
use std::sync::{Arc, Wait};
use std::test::Fail;
use std::thread::Threads;
use sym_base::{MemStore, NoMemory};
use sym_engine::{Enter, Hold, OpenGate, Work, worked};
use sym_given::scripts::BY_USER;
use sym_given_calls::words_of;
use sym_run::Run;
use sym_top::Status;
use sym_watch::{Observer, Partial};

/// For how many turns an observer or a worker is held at most.
const TURNS: u64 = 500_000_000;

/// For how many turns a worker is held that waits for what never comes.
const FEW_TURNS: u64 = 1_000_000;

// Which `tell` is held, and from which chunk on a worker is: the first of the third round, where a
// full round has 64 chunks. Both are counted from 0.
const SECOND_TELL: u64 = 1;

const THIRD_ROUND: u64 = 128;

/// What an observer and the workers of a gate know of each other. A hold ends by itself after so
/// many turns, and that is noted.
#[derive(Drop)]
struct Meeting {
    turns: u64,
    chunks: AtomicU64,
    tells: AtomicU64,
    entered: AtomicBool,
    begun: AtomicBool,
    gave_up: AtomicBool,
}

impl Meeting {
    fn new(turns: u64) -> Meeting {
        Meeting {
            turns,
            chunks: AtomicU64::new(0),
            tells: AtomicU64::new(0),
            entered: AtomicBool::new(false),
            begun: AtomicBool::new(false),
            gave_up: AtomicBool::new(false),
        }
    }

    // Holds a thread until the other side has come.
    fn hold(&self, other: &AtomicBool) {
        'turns: for _turn in 0..self.turns {
            if other.load(Ordering::SeqCst) {
                return;
            }
        }
        if !other.load(Ordering::SeqCst) {
            self.gave_up.store(true, Ordering::SeqCst);
        }
    }

    // An observer is told; the second time, it is held until a chunk of the third round has come.
    fn told(&self) {
        if self.tells.fetch_add(1, Ordering::SeqCst) == SECOND_TELL {
            self.begun.store(true, Ordering::SeqCst);
            self.hold(&self.entered);
        }
    }

    // A chunk enters; one of the third round is held until the second `tell` has begun.
    fn chunk_enters(&self) {
        if self.chunks.fetch_add(1, Ordering::SeqCst) >= THIRD_ROUND {
            self.entered.store(true, Ordering::SeqCst);
            self.hold(&self.begun);
        }
    }

    // How many chunks have entered, how often the observer was told, and whether a hold gave up.
    fn seen(&self) -> (u64, u64, bool) {
        (
            self.chunks.load(Ordering::SeqCst),
            self.tells.load(Ordering::SeqCst),
            self.gave_up.load(Ordering::SeqCst),
        )
    }
}

// Meets workers in its second `tell`.
#[derive(Drop)]
struct Held {
    meeting: Arc<Meeting>,
    last: Option<u64>,
}

impl Observer for Held {
    ghost use Rattle.std.specs.Prelude.{None};

    ghost log = { λ _. None };

    ghost last = { λ o. o.last };

    fn tell(&mut self, _alloc: Global, partial: &Partial) -> Result<(), NoMemory> {
        self.meeting.told();
        self.last = Some(partial.upto);
        Ok(())
    }

    fn last(&self) -> Option<u64> {
        self.last
    }
}

// Holds workers of the third round.
#[derive(Drop)]
struct Gated {
    meeting: Arc<Meeting>,
}

impl Enter for Gated {
    fn enter(&self, _worker: u32, _chunk: u32) {
        self.meeting.chunk_enters();
    }
}

impl Hold for Gated {
    fn hold_round<T: Threads + Wait + Sync>(
        &self,
        rt: &T,
        alloc: Global,
        work: &Work,
        workers: u32,
    ) -> Result<Run, NoMemory> {
        worked(rt, alloc, work, workers, self)
    }
}

/// What a run of 130 records in rounds of 64 came to: its status and report, the last border that
/// the observer was told of, how many chunks have entered, how often it was told, and whether a hold
/// gave up.
#[derive(Clone, Copy, Debug, PartialEq, Eq)]
struct Came {
    status: Status,
    whole: bool,
    last: Option<u64>,
    seen: (u64, u64, bool),
}

fn came_of<T: Threads + Wait + Sync>(
    rt: &T,
    alloc: Global,
    given: &[&'static str],
    turns: u64,
) -> Result<Came, NoMemory> {
    let words = words_of(alloc, given)?;
    let mut store = MemStore::new(alloc);
    store.add(alloc, "s", BY_USER.as_bytes())?;
    store.add(alloc, "f", log_of(alloc, 130, None)?.as_bytes())?;
    let meeting = Arc::new(alloc, Meeting::new(turns))?;
    let observer: Box<dyn Observer + Send> = Box::new(
        alloc,
        Held {
            meeting: Arc::clone(&meeting)?,
            last: None,
        },
    )?;
    let mut observers = Vec::from_array(alloc, [observer])?;
    let gate = OpenGate {
        hold: Gated {
            meeting: Arc::clone(&meeting)?,
        },
    };
    let ended = call(rt, alloc, &words, &mut store, &mut observers, &gate)?;
    let last = match observers.as_slice() {
        [observer] => observer.last(),
        _ => None,
    };
    Ok(Came {
        status: ended.status,
        whole: ended.out.bytes() == b"user | n\na | 130\n--\n".as_slice(),
        last,
        seen: meeting.seen(),
    })
}

#[test]
fn observers_are_told_while_the_next_round_is_worked(rt: HostRuntime) -> Result<(), Fail> {
    let came = came_of(
        &rt,
        rt.alloc(),
        &["run", "--chunk", "1", "--watch", "s", "f"],
        TURNS,
    )?;
    let wanted = Came {
        status: Status::Done,
        whole: true,
        last: Some(130),
        seen: (130, 3, false),
    };
    assert_eq!(rt; came, wanted);
    Ok(())
}

#[test]
fn a_hold_on_workers_whom_no_observer_meets_gives_up(rt: HostRuntime) -> Result<(), Fail> {
    let came = came_of(
        &rt,
        rt.alloc(),
        &["run", "--chunk", "1", "s", "f"],
        FEW_TURNS,
    )?;
    let wanted = Came {
        status: Status::Done,
        whole: true,
        last: None,
        seen: (130, 0, true),
    };
    assert_eq!(rt; came, wanted);
    Ok(())
}
