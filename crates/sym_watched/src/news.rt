//! What is published of a pass, and told to observers.
ghost use Rattle.std.specs.Prelude.{◌≡◌, ◌++◌, [], ◌∷◌, Some, None, map, OnOk, OnErr, IfOk};
ghost use Rattle.std.specs.Thread.{IsSync};
ghost use Rattle.sym_check.specs.Checking.CheckedScripts.{checked_plan};
ghost use Rattle.sym_report.specs.Appending.{listed};
ghost use Rattle.sym_run.specs.Applying.{AreValid, IfDone, applied_to};
ghost use Rattle.sym_watch.specs.Partials.{MayFollow};
ghost use Rattle.sym_watched.specs.Partials.{AllGrew, AllGrewPart};
ghost use Rattle.sym_files.specs.Rounds.{AreWorkers, IsLimit, IsRound, round_records};

use crate::observers::tell_seen;
use std::alloc::Global;
use std::mem;
use std::sync::Wait;
use std::thread::{Threads, join_mut};
use sym_base::NoMemory;
use sym_files::Work;
use sym_plain::Groups;
use sym_run::Applied;
use sym_watch::{Observer, Partial, Publisher, Watcher};
use sym_workers::Gate;

/// What publishes partials, a watcher of them, the partial that isn't told yet, and the observers.
/// Whoever has it ends the publisher.
pub(crate) struct News {
    pub(crate) publisher: Publisher,
    pub(crate) watcher: Watcher,
    pub(crate) untold: Option<Partial>,
    pub(crate) observers: Vec<Box<dyn Observer + Send>>,
    ghost same: { watcher.of ≡ publisher.of },
}

// What the telling came to, and what the round made of the groups beside it.
#[derive(Drop)]
struct Beside {
    told: Result<(), NoMemory>,
    applied: Result<Applied, NoMemory>,
}

// A round with the gate that works on it, and by how many workers.
#[derive(Drop)]
struct GatedRound<'a, G> {
    gate: &'a G,
    work: &'a Work,
    workers: u32,
}

// Has groups led on by a round while another thread tells the observers of a partial.
fn lead_and_tell<T: Threads + Wait + Sync, G: Gate>(
    rt: &T,
    alloc: Global,
    round: &GatedRound<'_, G>,
    groups: &mut Groups,
    watcher: &mut Watcher,
    observers: &mut Vec<Box<dyn Observer + Send>>,
    copy: &Partial,
) -> Beside
    requires sync { IsSync T.row }
    requires round { let work = round.now.work.now in
        IsRound (checked_plan work.checked).fields work.chunks }
    requires limit { IsLimit round.now.work.now.limit }
    requires workers { AreWorkers round.now.workers }
    requires valid { AreValid (checked_plan round.now.work.now.checked) groups.old }
    ensures applied { let p = checked_plan round.now.work.now.checked in
        let read = round_records p (G.shown round.now.gate.now) round.now.work.now.chunks in
        IfOk result.applied (λ applied. applied ≡ applied_to p read groups.old) }
    ensures valid { let p = checked_plan round.now.work.now.checked in
        IfOk result.applied (λ applied. IfDone applied (AreValid p)) }
    ensures of { watcher.new.of ≡ watcher.old.of }
    ensures ok { let olds = map (λ o. log o) observers.old.items in
        let news = map (λ o. log o) observers.new.items in
        OnOk result.told (AllGrew olds news (copy.now ∷ [])) }
    ensures err { let olds = map (λ o. log o) observers.old.items in
        let news = map (λ o. log o) observers.new.items in
        OnErr result.told (AllGrewPart olds news (copy.now ∷ [])) }
{
    let gate = round.gate;
    let work = round.work;
    let workers = round.workers;
    let (told, applied) = join_mut(
        rt,
        &mut || -> Result<(), NoMemory>
            ensures of { watcher.exit.now.of ≡ watcher.entry.now.of }
            ensures ok { let olds = map (λ o. log o) observers.entry.now.items in
                let news = map (λ o. log o) observers.exit.now.items in
                OnOk result (AllGrew olds news (copy.entry.now ∷ [])) }
            ensures err { let olds = map (λ o. log o) observers.entry.now.items in
                let news = map (λ o. log o) observers.exit.now.items in
                OnErr result (AllGrewPart olds news (copy.entry.now ∷ [])) }
        { tell_seen(alloc, watcher, observers, copy) },
        &mut || -> Result<Applied, NoMemory>
            requires { let p = checked_plan work.now.checked in IsSync T.row
                × IsRound p.fields work.now.chunks × IsLimit work.now.limit
                × AreWorkers workers × AreValid p groups.now }
            ensures applied { let p = checked_plan work.entry.now.checked in
                let read = round_records p (G.shown gate.entry.now) work.entry.now.chunks in
                IfOk result (λ applied. applied ≡ applied_to p read groups.entry.now) }
            ensures valid { let p = checked_plan work.entry.now.checked in
                IfOk result (λ applied. IfDone applied (AreValid p)) }
        {
            let taken = mem::replace(groups, Groups::new(alloc));
            gate.lead_round(rt, alloc, work, workers, taken)
        },
    );
    Beside { told, applied }
}

impl News {
    /// Tells the observers of the partial that isn't told yet, if there is one.
    pub(crate) fn tell_rest(&mut self, alloc: Global) -> Result<(), NoMemory>
        ensures list { self.new.publisher.list ≡ self.old.publisher.list }
        ensures ok { let olds = map (λ o. log o) self.old.observers.items in
            let news = map (λ o. log o) self.new.observers.items in
            OnOk result (AllGrew olds news (listed self.old.untold)) }
        ensures err { let olds = map (λ o. log o) self.old.observers.items in
            let news = map (λ o. log o) self.new.observers.items in
            OnErr result (AllGrewPart olds news (listed self.old.untold)) }
    {
        match self.untold.take() {
            None => Ok(()),
            Some(copy) => {
                self.watcher.learn(self.publisher.tell());
                tell_seen(alloc, &mut self.watcher, &mut self.observers, &copy)
            }
        }
    }

    /// What a round makes of groups. Beside it the observers are told of the partial of the round
    /// before.
    pub(crate) fn lead_round<T: Threads + Wait + Sync, G: Gate>(
        &mut self,
        rt: &T,
        alloc: Global,
        gate: &G,
        work: &Work,
        workers: u32,
        groups: Groups,
    ) -> Result<Applied, NoMemory>
        requires sync { IsSync T.row }
        requires round { IsRound (checked_plan work.now.checked).fields work.now.chunks }
        requires limit { IsLimit work.now.limit }
        requires workers { AreWorkers workers }
        requires valid { AreValid (checked_plan work.now.checked) groups }
        ensures applied { let p = checked_plan work.now.checked in
            let read = round_records p (G.shown gate.now) work.now.chunks in
            IfOk result (λ applied. applied ≡ applied_to p read groups) }
        ensures valid { let p = checked_plan work.now.checked in
            IfOk result (λ applied. IfDone applied (AreValid p)) }
        ensures list { self.new.publisher.list ≡ self.old.publisher.list }
        ensures untold { self.new.untold ≡ None }
        ensures ok { let olds = map (λ o. log o) self.old.observers.items in
            let news = map (λ o. log o) self.new.observers.items in
            OnOk result (AllGrew olds news (listed self.old.untold)) }
        ensures err { let olds = map (λ o. log o) self.old.observers.items in
            let news = map (λ o. log o) self.new.observers.items in
            OnErr result (AllGrewPart olds news (listed self.old.untold)) }
    {
        match self.untold.take() {
            None => gate.lead_round(rt, alloc, work, workers, groups),
            Some(copy) => {
                self.watcher.learn(self.publisher.tell());
                let mut groups = groups;
                let watcher = &mut self.watcher;
                let observers = &mut self.observers;
                let round = GatedRound {
                    gate,
                    work,
                    workers,
                };
                let Beside { told, applied } = lead_and_tell(
                    rt,
                    alloc,
                    &round,
                    &mut groups,
                    watcher,
                    observers,
                    &copy,
                );
                told?;
                applied
            }
        }
    }

    /// Publishes a partial, and keeps a copy of it, which isn't told yet.
    pub(crate) fn publish<T: Wait>(
        &mut self,
        rt: &T,
        alloc: Global,
        partial: Partial,
    ) -> Result<(), NoMemory>
        requires follows { MayFollow self.old.publisher.list partial }
        ensures list { OnOk result
            (self.new.publisher.list ≡ self.old.publisher.list ++ partial ∷ []) }
        ensures untold { OnOk result (self.new.untold ≡ Some partial) }
        ensures logs { map (λ o. log o) self.new.observers.items
            ≡ map (λ o. log o) self.old.observers.items }
    {
        let copy = partial.copy(alloc)?;
        self.publisher.publish(rt, alloc, partial)?;
        self.untold = Some(copy);
        Ok(())
    }
}
