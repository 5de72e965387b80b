//! What is noted of the workers of a round, and a hold on the one that has the first chunk; two
//! holds and a gate that tell it of chunks, and lead groups on in ways of their own.
use std::alloc::Global;
use std::sync::Wait;
use std::sync::atomic::{AtomicBool, AtomicU64, Ordering};
use std::thread::Threads;
use sym_base::NoMemory;
use sym_engine::{Enter, Gate, Hold, OpenGate, Work, led, worked};
use sym_plain::Groups;
use sym_run::{Applied, Run};

/// Until when the worker of the first chunk is held.
#[derive(Clone, Copy)]
pub(crate) enum Until {
    /// It isn't held.
    Now,
    /// Until the other one of two workers has claimed a chunk.
    OtherWorker,
    /// Until each chunk from the first number up to but without the second one is claimed.
    Others(u32, u32),
}

/// Notes the chunks that are claimed, and holds the worker of the first one. A hold ends by itself
/// after so many turns, and that is noted.
#[derive(Drop)]
pub(crate) struct Holder {
    until: Until,
    turns: u64,
    // Four bits for each of 64 chunks, 16 in each number: how many times it was claimed.
    claims: [AtomicU64; 4],
    // Whether a worker with an even number, or an odd one, has claimed a chunk.
    even: AtomicBool,
    odd: AtomicBool,
    gave_up: AtomicBool,
}

impl Holder {
    /// A hold before any chunk is claimed.
    pub(crate) fn new(until: Until, turns: u64) -> Holder {
        Holder {
            until,
            turns,
            claims: [
                AtomicU64::new(0),
                AtomicU64::new(0),
                AtomicU64::new(0),
                AtomicU64::new(0),
            ],
            even: AtomicBool::new(false),
            odd: AtomicBool::new(false),
            gave_up: AtomicBool::new(false),
        }
    }

    // The number that has how many times this chunk was claimed.
    fn claims_of(&self, chunk: u32) -> &AtomicU64 {
        &self.claims[(chunk / 16 % 4) as usize]
    }

    // How many times a chunk was claimed; never more than 15 times.
    fn count(&self, chunk: u32) -> u64 {
        self.claims_of(chunk).load(Ordering::SeqCst) >> (4 * (chunk % 16)) & 15
    }

    /// Whether each of so many chunks, of at most 64, was claimed once, and no other one.
    pub(crate) fn claimed_once(&self, chunks: usize) -> bool {
        self.claimed(chunks, chunks)
    }

    /// Whether each of the first `needed` chunks was claimed once, each other one of so many at
    /// most once, and no further one.
    pub(crate) fn claimed(&self, needed: usize, chunks: usize) -> bool {
        'chunks: for chunk in 0..64 {
            let count = self.count(chunk);
            let least = u64::from((chunk as usize) < needed);
            let most = u64::from((chunk as usize) < chunks);
            if count < least || count > most {
                return false;
            }
        }
        true
    }

    /// Whether a worker was held for all turns.
    pub(crate) fn gave_up(&self) -> bool {
        self.gave_up.load(Ordering::SeqCst)
    }

    // Whether each chunk from the first of these numbers up to but without the second is claimed.
    fn are_claimed(&self, first: u32, end: u32) -> bool {
        'chunks: for chunk in first..end {
            if self.count(chunk) == 0 {
                return false;
            }
        }
        true
    }

    // Whether a worker may go on.
    fn is_over(&self, worker: u32) -> bool {
        match self.until {
            Until::Now => true,
            Until::OtherWorker if worker % 2 == 0 => self.odd.load(Ordering::SeqCst),
            Until::OtherWorker => self.even.load(Ordering::SeqCst),
            Until::Others(first, end) => self.are_claimed(first, end),
        }
    }

    // Holds a worker; whether it may go on before all turns are over.
    fn holds(&self, worker: u32) -> bool {
        'turns: for _turn in 0..self.turns {
            if self.is_over(worker) {
                return true;
            }
        }
        self.is_over(worker)
    }
}

impl Enter for Holder {
    fn enter(&self, worker: u32, chunk: u32) {
        self.claims_of(chunk)
            .fetch_add(1 << (4 * (chunk % 16)), Ordering::SeqCst);
        if worker % 2 == 0 {
            self.even.store(true, Ordering::SeqCst);
        } else {
            self.odd.store(true, Ordering::SeqCst);
        }
        if chunk == 0 && !self.holds(worker) {
            self.gave_up.store(true, Ordering::SeqCst);
        }
    }
}

impl Hold for Holder {
    fn hold_round<T: Threads + Wait + Sync>(
        &self,
        rt: &T,
        alloc: Global,
        work: &Work,
        workers: u32,
    ) -> Result<Run, NoMemory> {
        worked(rt, alloc, work, workers, self)
    }

    fn hold_lead<T: Threads + Wait + Sync>(
        &self,
        rt: &T,
        alloc: Global,
        work: &Work,
        workers: u32,
        groups: Groups,
    ) -> Result<Applied, NoMemory> {
        led(rt, alloc, work, workers, groups, self)
    }
}

/// A hold that has the run of each round made, and no more: that is how it leads groups on.
#[derive(Drop)]
pub(crate) struct Makes<'a> {
    pub(crate) holder: &'a Holder,
}

impl<'a> Enter for Makes<'a> {
    fn enter(&self, worker: u32, chunk: u32) {
        self.holder.enter(worker, chunk)
    }
}

impl<'a> Hold for Makes<'a> {
    fn hold_round<T: Threads + Wait + Sync>(
        &self,
        rt: &T,
        alloc: Global,
        work: &Work,
        workers: u32,
    ) -> Result<Run, NoMemory> {
        worked(rt, alloc, work, workers, self.holder)
    }
}

/// A hold that has the run of each round made, and leads no groups on: it says that there is no
/// memory.
#[derive(Drop)]
pub(crate) struct Refuses<'a> {
    pub(crate) holder: &'a Holder,
}

impl<'a> Enter for Refuses<'a> {
    fn enter(&self, worker: u32, chunk: u32) {
        self.holder.enter(worker, chunk)
    }
}

impl<'a> Hold for Refuses<'a> {
    fn hold_round<T: Threads + Wait + Sync>(
        &self,
        rt: &T,
        alloc: Global,
        work: &Work,
        workers: u32,
    ) -> Result<Run, NoMemory> {
        worked(rt, alloc, work, workers, self.holder)
    }

    fn hold_lead<T: Threads + Wait + Sync>(
        &self,
        _rt: &T,
        _alloc: Global,
        _work: &Work,
        _workers: u32,
        _groups: Groups,
    ) -> Result<Applied, NoMemory> {
        Err(NoMemory)
    }
}

/// A gate that has the run of each round made, and no more: that is how it leads groups on.
#[derive(Drop)]
pub(crate) struct MakesRuns<'a> {
    pub(crate) open: &'a OpenGate<Holder>,
}

impl<'a> Gate for MakesRuns<'a> {
    ghost shown = { λ _ row. row };

    fn enter(&self, worker: u32, chunk: u32) {
        self.open.enter(worker, chunk)
    }

    fn work_round<T: Threads + Wait + Sync>(
        &self,
        rt: &T,
        alloc: Global,
        work: &Work,
        workers: u32,
    ) -> Result<Run, NoMemory> {
        self.open.work_round(rt, alloc, work, workers)
    }
}
