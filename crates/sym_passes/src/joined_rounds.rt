//! Rounds whose runs are joined.
ghost use Rattle.std.specs.Prelude.{◌≡◌, []};
ghost use Rattle.sym_passes.specs.Saving.{AreSummed};

use std::alloc::Global;
use std::mem;
use std::sync::Wait;
use std::thread::Threads;
use sym_base::NoMemory;
use sym_files::{Rounds, Took, Work};
use sym_run::{RunGroups, join_and_close};
use sym_workers::Gate;

/// The groups of the runs of the rounds so far, whose chains keep no records, the gate that has the
/// run of each round made, and how many workers make it.
#[derive(Drop)]
pub(crate) struct SummedRounds<'a, G> {
    gate: &'a G,
    pub(crate) groups: RunGroups,
    workers: u32,
}

impl<'a, G> SummedRounds<'a, G> {
    /// No groups. It takes no memory.
    pub(crate) fn new(alloc: Global, workers: u32, gate: &'a G) -> SummedRounds<'a, G>
        ensures groups { result.groups ≡ [] }
        ensures workers { result.workers ≡ workers }
        ensures gate { result.gate.now ≡ gate.now }
    {
        SummedRounds {
            gate,
            groups: RunGroups::new(alloc),
            workers,
        }
    }
}

impl<'a, G: Gate + Sync> Rounds for SummedRounds<'a, G> {
    ghost shown = { λ rounds. G.shown rounds.gate.now };

    ghost stands = { λ rounds p limit records.
        AreSummed p limit rounds.groups rounds.workers records };

    // It tells no one of rounds.
    ghost told = { λ _ _ _ _ _. Unit {0} };

    fn take<T: Threads + Wait + Sync>(
        &mut self,
        rt: &T,
        alloc: Global,
        work: &Work,
    ) -> Result<Took, NoMemory> {
        let mut run = self.gate.work_round(rt, alloc, work, self.workers)?;
        if let Some(bad) = run.bad {
            return Ok(Took::Bad(bad));
        }
        let next = mem::replace(&mut run.groups, RunGroups::new(alloc));
        let earlier = mem::replace(&mut self.groups, RunGroups::new(alloc));
        self.groups = join_and_close(
            rt,
            alloc,
            &work.checked,
            earlier,
            next,
            work.limit,
            self.workers,
        )?;
        Ok(Took::Done)
    }
}
