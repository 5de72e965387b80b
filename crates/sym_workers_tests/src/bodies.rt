//! Ways to have a round worked: as the program does, and others with the same contract, which the
//! tests of workers have to tell from it.
ghost use Rattle.std.specs.Prelude.{◌≡◌, ◌≤◌, ◌<◌, IfOk, IsTrue, length};
ghost use Rattle.sym_check.specs.Checking.CheckedScripts.{checked_plan};
ghost use Rattle.sym_files.specs.Rounds.{AreWorkers, IsLimit, IsRound};
ghost use Rattle.sym_workers.specs.RoundRuns.{StandsForAll};
ghost use Rattle.sym_workers.specs.Pieces.{StandsFrom};

use crate::holds::Holder;
use std::alloc::Global;
use std::sync::Wait;
use std::thread::{Threads, join};
use sym_base::NoMemory;
use sym_engine::{Enter, Gate, OpenGate, Work, round};
use sym_run::{Run, of_chunk};

/// How a round is worked.
#[derive(Clone, Copy, Debug, PartialEq, Eq)]
pub(crate) enum Body {
    /// By `round`.
    Round,
    /// By the gate's `work_round`.
    Gate,
    /// All chunks on one thread.
    Serial,
    /// The first half of the chunks by one worker, and the others by a second one.
    Halves,
    /// The same of up to nine chunks, and more of them on one thread.
    FewHalves,
    /// All chunks on one thread, after a thread that does nothing.
    Idle,
}

// A value that lends the work of a round, so that two workers share it by its bound.
trait LendsWork {
    ghost use Rattle.sym_files.specs.declared.rounds.Work.{Work as OneWork};

    ghost lent: { Self → OneWork };

    fn work(&self) -> &Work
        ensures { result.now ≡ lent self.now };
}

impl LendsWork for Work {
    ghost lent = { λ work. work };

    fn work(&self) -> &Work {
        self
    }
}

// The run of the chunks from `first` up to but without `end`, by one worker, who enters each.
fn part<E: Enter>(
    alloc: Global,
    work: &Work,
    worker: u32,
    first: u32,
    end: u32,
    hold: &E,
) -> Result<Run, NoMemory>
    requires round { IsRound (checked_plan work.now.checked).fields work.now.chunks }
    requires limit { IsLimit work.now.limit }
    requires some { first < end }
    requires within { end ≤ length work.now.chunks }
    ensures { IfOk result (StandsFrom work.now first end) }
{
    let chunks = work.chunks.as_slice();
    hold.enter(worker, first);
    let mut run = of_chunk(
        alloc,
        &work.checked,
        &chunks[first as usize],
        first,
        work.limit,
    )?;
    'chunks: for number in first + 1..end {
        hold.enter(worker, number);
        run = run.extend(alloc, &work.checked, &chunks[number as usize], work.limit)?;
    }
    Ok(run)
}

// Two parts at once, the first of which isn't the shorter one.
fn two_parts<T: Threads + Sync, W: LendsWork + Sync, E: Enter + Sync>(
    rt: &T,
    alloc: Global,
    lender: &W,
    hold: &E,
) -> Result<Run, NoMemory>
    requires round { let work = W.lent lender.now in
        IsRound (checked_plan work.checked).fields work.chunks }
    requires limit { IsLimit (W.lent lender.now).limit }
    requires some { 2 ≤ length (W.lent lender.now).chunks }
    ensures { let work = W.lent lender.now in
        IfOk result (StandsForAll (checked_plan work.checked) work.limit work.chunks) }
{
    let work = lender.work();
    let end = work.chunks.len() as u32;
    let middle = end - end / 2;
    let (left, right) = join(
        rt,
        || -> Result<Run, NoMemory>
            requires { let work = W.lent lender.now in
                IsRound (checked_plan work.checked).fields work.chunks × IsLimit work.limit
                × (0 < middle) × (middle ≤ length work.chunks) }
            ensures { IfOk result (StandsFrom (W.lent lender.entry.now) 0 middle) }
        { part(alloc, lender.work(), 0, 0, middle, hold) },
        || -> Result<Run, NoMemory>
            requires { let work = W.lent lender.now in
                IsRound (checked_plan work.checked).fields work.chunks × IsLimit work.limit
                × (middle < end) × (end ≤ length work.chunks) }
            ensures { IfOk result (StandsFrom (W.lent lender.entry.now) middle end) }
        { part(alloc, lender.work(), 1, middle, end, hold) },
    );
    let left = left?;
    let right = right?;
    left.join(alloc, &work.checked, right, work.limit)
}

/// Starts a thread that does nothing, and waits for it.
pub(crate) fn start_idle<T: Threads + Sync>(rt: &T) {
    let ((), ()) = join(rt, || {}, || {});
}

// Whether so many chunks are worked in two parts.
fn is_halved(body: Body, chunks: u32) -> bool
    ensures { IsTrue result → 2 ≤ chunks }
{
    match body {
        Body::Halves => chunks > 1,
        Body::FewHalves => chunks > 1 && chunks <= 9,
        Body::Round | Body::Gate | Body::Serial | Body::Idle => false,
    }
}

/// The run of a round, which is worked in this way and enters the gate.
pub(crate) fn made<T: Threads + Wait + Sync>(
    rt: &T,
    alloc: Global,
    work: &Work,
    workers: u32,
    gate: &OpenGate<Holder>,
    body: Body,
) -> Result<Run, NoMemory>
    requires round { IsRound (checked_plan work.now.checked).fields work.now.chunks }
    requires limit { IsLimit work.now.limit }
    requires workers { AreWorkers workers }
    ensures { let p = checked_plan work.now.checked in
        IfOk result (StandsForAll p work.now.limit work.now.chunks) }
{
    let chunks = work.chunks.len() as u32;
    if body == Body::Idle {
        start_idle(rt);
    }
    match body {
        Body::Round => round(rt, alloc, work, workers, gate),
        Body::Gate => gate.work_round(rt, alloc, work, workers),
        Body::Halves | Body::FewHalves if is_halved(body, chunks) => {
            two_parts(rt, alloc, work, &gate.hold)
        }
        Body::Halves | Body::FewHalves | Body::Serial | Body::Idle => {
            part(alloc, work, 0, 0, chunks, &gate.hold)
        }
    }
}
