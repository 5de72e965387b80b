//! What stands between the files and the workers.
ghost use Rattle.std.specs.Prelude.{◌≡◌, IfOk};
ghost use Rattle.std.specs.Thread.{IsSync};
ghost use Rattle.sym_check.specs.Checking.CheckedScripts.{checked_plan};
ghost use Rattle.sym_run.specs.Applying.{AreValid, IfDone, applied_to};
ghost use Rattle.sym_table.specs.ChunkRecords.{all_records};
ghost use Rattle.sym_table.specs.Reading.{Row as OneRow};
ghost use Rattle.sym_files.specs.Rounds.{AreWorkers, IsLimit, IsRound, round_records, shown_chunks};
ghost use Rattle.sym_workers.specs.RoundRuns.{StandsForAll};

use crate::led_groups::{apply_run, led};
use crate::workers::worked;
use std::alloc::Global;
use std::sync::Wait;
use std::thread::Threads;
use sym_base::NoMemory;
use sym_files::Work;
use sym_plain::Groups;
use sym_run::{Applied, Run};
use sym_shuffle::{Enter, Free};

/// What stands between the files and the workers: it has the run of each round made, or groups led on
/// by a round, is told of each chunk that is claimed, and says which row is read in place of a row.
pub trait Gate {
    // The row that the workers read in place of a row.
    ghost shown: { Self → OneRow → OneRow };

    /// Worker `worker` has claimed the chunk of this number, and hasn't read its rows. Both are
    /// counted from 0. It may hold the worker up.
    fn enter(&self, worker: u32, chunk: u32);

    /// The run of all chunks of a round, each row as it is shown. The conditions are those of
    /// `round`.
    fn work_round<T: Threads + Wait + Sync>(
        &self,
        rt: &T,
        alloc: Global,
        work: &Work,
        workers: u32,
    ) -> Result<Run, NoMemory>
        requires sync { IsSync T.row }
        requires round { IsRound (checked_plan work.now.checked).fields work.now.chunks }
        requires limit { IsLimit work.now.limit }
        requires workers { AreWorkers workers }
        ensures { let p = checked_plan work.now.checked in
            let chunks = shown_chunks (shown self.now) work.now.chunks in
            IfOk result (StandsForAll p work.now.limit chunks) };

    /// What a round's records, each row as it is shown, make of groups: the groups after them, or
    /// the first row that is no record. The conditions are those of `round`. The round's run is
    /// applied, unless a gate knows a shorter way.
    fn lead_round<T: Threads + Wait + Sync>(
        &self,
        rt: &T,
        alloc: Global,
        work: &Work,
        workers: u32,
        groups: Groups,
    ) -> Result<Applied, NoMemory>
        requires sync { IsSync T.row }
        requires round { IsRound (checked_plan work.now.checked).fields work.now.chunks }
        requires limit { IsLimit work.now.limit }
        requires workers { AreWorkers workers }
        requires valid { AreValid (checked_plan work.now.checked) groups }
        ensures applied { let p = checked_plan work.now.checked in
            let read = round_records p (shown self.now) work.now.chunks in
            IfOk result (λ applied. applied ≡ applied_to p read groups) }
        ensures valid { let p = checked_plan work.now.checked in
            IfOk result (λ applied. IfDone applied (AreValid p)) }
    {
        let run = self.work_round(rt, alloc, work, workers)?;
        apply_run(rt, alloc, work, run, groups, workers)
    }
}

/// A value that is told of each chunk and has rounds worked with itself. A type implements it by one
/// call, `worked(rt, alloc, work, workers, self)`, and so makes an `OpenGate` a gate. A second one,
/// `led(rt, alloc, work, workers, groups, self)`, makes its passes faster.
pub trait Hold: Enter {
    /// The run of all chunks of a round, whose workers tell this value of each chunk.
    fn hold_round<T: Threads + Wait + Sync>(
        &self,
        rt: &T,
        alloc: Global,
        work: &Work,
        workers: u32,
    ) -> Result<Run, NoMemory>
        requires sync { IsSync T.row }
        requires round { IsRound (checked_plan work.now.checked).fields work.now.chunks }
        requires limit { IsLimit work.now.limit }
        requires workers { AreWorkers workers }
        ensures { let p = checked_plan work.now.checked in
            IfOk result (StandsForAll p work.now.limit work.now.chunks) };

    /// What a round's records make of groups. The workers tell this value of each chunk. The
    /// round's run is applied, unless a type has `led` do it.
    fn hold_lead<T: Threads + Wait + Sync>(
        &self,
        rt: &T,
        alloc: Global,
        work: &Work,
        workers: u32,
        groups: Groups,
    ) -> Result<Applied, NoMemory>
        requires sync { IsSync T.row }
        requires round { IsRound (checked_plan work.now.checked).fields work.now.chunks }
        requires limit { IsLimit work.now.limit }
        requires workers { AreWorkers workers }
        requires valid { AreValid (checked_plan work.now.checked) groups }
        ensures applied { let p = checked_plan work.now.checked in
            let read = all_records p work.now.chunks in
            IfOk result (λ applied. applied ≡ applied_to p read groups) }
        ensures valid { let p = checked_plan work.now.checked in
            IfOk result (λ applied. IfDone applied (AreValid p)) }
    {
        let run = self.hold_round(rt, alloc, work, workers)?;
        apply_run(rt, alloc, work, run, groups, workers)
    }
}

impl Hold for Free {
    fn hold_round<T: Threads + Wait + Sync>(
        &self,
        rt: &T,
        alloc: Global,
        work: &Work,
        workers: u32,
    ) -> Result<Run, NoMemory> {
        worked(rt, alloc, work, workers, self)
    }

    fn hold_lead<T: Threads + Wait + Sync>(
        &self,
        rt: &T,
        alloc: Global,
        work: &Work,
        workers: u32,
        groups: Groups,
    ) -> Result<Applied, NoMemory> {
        led(rt, alloc, work, workers, groups, self)
    }
}

/// The gate of a program: it shows each row as it is, and tells its hold of each chunk.
#[derive(Drop)]
pub struct OpenGate<E> {
    pub hold: E,
}

impl<E: Hold + Sync> Gate for OpenGate<E> {
    ghost shown = { λ _ row. row };

    fn enter(&self, worker: u32, chunk: u32) {
        self.hold.enter(worker, chunk)
    }

    fn work_round<T: Threads + Wait + Sync>(
        &self,
        rt: &T,
        alloc: Global,
        work: &Work,
        workers: u32,
    ) -> Result<Run, NoMemory> {
        self.hold.hold_round(rt, alloc, work, workers)
    }

    fn lead_round<T: Threads + Wait + Sync>(
        &self,
        rt: &T,
        alloc: Global,
        work: &Work,
        workers: u32,
        groups: Groups,
    ) -> Result<Applied, NoMemory> {
        self.hold.hold_lead(rt, alloc, work, workers, groups)
    }
}
