//! The run of a round.
ghost use Rattle.std.specs.Prelude.{IfOk};
ghost use Rattle.sym_check.specs.Checking.CheckedScripts.{checked_plan};
ghost use Rattle.sym_files.specs.Rounds.{AreWorkers, IsLimit, IsRound};
ghost use Rattle.sym_workers.specs.RoundRuns.{StandsForAll};

use crate::gates::Gate;
use crate::workers::worked;
use std::alloc::Global;
use std::sync::Wait;
use std::thread::Threads;
use sym_base::NoMemory;
use sym_files::Work;
use sym_run::Run;
use sym_shuffle::Enter;

// Has a gate told of the chunks that workers claim.
#[derive(Drop)]
struct Through<'a, G> {
    gate: &'a G,
}

impl<'a, G: Gate + Sync> Enter for Through<'a, G> {
    fn enter(&self, worker: u32, chunk: u32) {
        self.gate.enter(worker, chunk)
    }
}

/// The run of all chunks of a round, which are the work's, each row as it is: it has the first row
/// that is no record, or each key's chain. Of the gate it calls `enter` alone, for each chunk after a
/// worker has claimed it and before the worker reads it. The result doesn't depend on the number of
/// workers.
///
/// `NoMemory` where an allocation failed.
pub fn round<T: Threads + Wait + Sync, G: Gate + Sync>(
    rt: &T,
    alloc: Global,
    work: &Work,
    workers: u32,
    gate: &G,
) -> Result<Run, NoMemory>
    requires round { IsRound (checked_plan work.now.checked).fields work.now.chunks }
    requires limit { IsLimit work.now.limit }
    requires workers { AreWorkers workers }
    ensures { let p = checked_plan work.now.checked in
        IfOk result (StandsForAll p work.now.limit work.now.chunks) }
{
    worked(rt, alloc, work, workers, &Through { gate })
}
