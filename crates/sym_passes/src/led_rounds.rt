//! Rounds whose records lead groups on.
ghost use Rattle.std.specs.Prelude.{◌≡◌, []};
ghost use Rattle.sym_files.specs.Rounds.{AreWorkers};
ghost use Rattle.sym_passes.specs.Passed.{AreLedBy};

use std::alloc::Global;
use std::mem;
use std::sync::Wait;
use std::thread::Threads;
use sym_base::NoMemory;
use sym_files::{Rounds, Took, Work};
use sym_plain::Groups;
use sym_run::Applied;
use sym_workers::Gate;

/// The groups of the rounds so far, the gate that has each round lead them on, and how many workers
/// do it.
#[derive(Drop)]
pub(crate) struct PassRounds<'a, G> {
    gate: &'a G,
    pub(crate) groups: Groups,
    workers: u32,
}

impl<'a, G> PassRounds<'a, G> {
    /// No groups. It takes no memory.
    pub(crate) fn new(alloc: Global, workers: u32, gate: &'a G) -> PassRounds<'a, G>
        ensures groups { result.groups ≡ [] }
        ensures workers { result.workers ≡ workers }
        ensures gate { result.gate.now ≡ gate.now }
    {
        PassRounds {
            gate,
            groups: Groups::new(alloc),
            workers,
        }
    }
}

impl<'a, G: Gate + Sync> Rounds for PassRounds<'a, G> {
    ghost shown = { λ rounds. G.shown rounds.gate.now };

    ghost stands = { λ rounds p _ records. AreWorkers rounds.workers
        × AreLedBy p rounds.groups records };

    // It tells no one of rounds.
    ghost told = { λ _ _ _ _ _. Unit {0} };

    fn take<T: Threads + Wait + Sync>(
        &mut self,
        rt: &T,
        alloc: Global,
        work: &Work,
    ) -> Result<Took, NoMemory> {
        let groups = mem::replace(&mut self.groups, Groups::new(alloc));
        let applied = self.gate.lead_round(rt, alloc, work, self.workers, groups)?;
        match applied {
            Applied::Done(groups) => {
                self.groups = groups;
                Ok(Took::Done)
            }
            Applied::Bad(bad) => Ok(Took::Bad(bad)),
        }
    }
}
