//! A round that several workers work, beside the same round on one thread.
ghost use Rattle.std.specs.Prelude.{IfOk};
ghost use Rattle.sym_check.specs.Checking.CheckedScripts.{checked_plan};
ghost use Rattle.sym_files.specs.Rounds.{AreWorkers, IsLimit, IsRound, round_records};
ghost use Rattle.sym_workers.specs.RoundRuns.{StandsForAll};
ghost use Rattle.sym_run.specs.Applying.{AreValid, IfDone};
ghost use Rattle.sym_workers_tests.specs.Comparing.{ComesTo};

use crate::bodies::{Body, made, start_idle};
use crate::holds::{Holder, Makes, MakesRuns, Refuses};
use std::alloc::Global;
use std::sync::Wait;
use std::thread::Threads;
use sym_base::{FILE_MAX_DEFAULT, MemStore, NoMemory};
use sym_check::Checked;
use sym_engine::{
    Gate, Hold, LIMIT_DEFAULT, OpenGate, Options, Rounds, Took, WORKERS_DEFAULT, Work, each_round,
};
use sym_given::accepted;
use sym_plain::Groups;
use sym_run::{Applied, Run, of_chunk, of_chunks};

/// What is seen of a round: how many chunks it has, whether the workers make of it what one thread
/// does, how many groups come of it, and the number of its first row that is no record.
#[derive(Clone, Copy, Debug, PartialEq, Eq)]
pub(crate) struct Seen {
    pub(crate) chunks: usize,
    pub(crate) same: bool,
    pub(crate) groups: usize,
    pub(crate) bad: Option<u64>,
}

fn same_group(left: &Groups, right: &Groups, place: usize) -> bool {
    match (left.at(place), right.at(place)) {
        (Some((key, outcome)), Some((other, stands))) => key == other && outcome == stands,
        _ => false,
    }
}

pub(crate) fn same_groups(left: &Groups, right: &Groups) -> bool {
    'groups: for place in 0..left.len() {
        if !same_group(left, right, place) {
            return false;
        }
    }
    left.len() == right.len()
}

fn seen_of(chunks: usize, met: &Applied, alone: &Applied) -> Seen {
    let same = match (met, alone) {
        (Applied::Done(left), Applied::Done(right)) => same_groups(left, right),
        (Applied::Bad(left), Applied::Bad(right)) => left == right,
        _ => false,
    };
    let (groups, bad) = match alone {
        Applied::Done(groups) => (groups.len(), None),
        Applied::Bad(bad) => (0, Some(bad.no)),
    };
    Seen {
        chunks,
        same,
        groups,
        bad,
    }
}

// What the run of a round makes of groups.
fn applied(alloc: Global, work: &Work, run: Run, groups: Groups) -> Result<Applied, NoMemory>
    requires run { let p = checked_plan work.now.checked in
        StandsForAll p work.now.limit work.now.chunks run }
    requires valid { AreValid (checked_plan work.now.checked) groups }
    ensures comes_to { let p = checked_plan work.now.checked in
        IfOk result (ComesTo (round_records p (λ row. row) work.now.chunks)) }
    ensures valid { let p = checked_plan work.now.checked in
        IfOk result (λ applied. IfDone applied (AreValid p)) }
{
    run.apply(alloc, &work.checked, groups)
}

// What one thread makes of groups.
fn alone(alloc: Global, work: &Work, groups: Groups) -> Result<Applied, NoMemory>
    requires round { IsRound (checked_plan work.now.checked).fields work.now.chunks }
    requires limit { IsLimit work.now.limit }
    requires valid { AreValid (checked_plan work.now.checked) groups }
    ensures comes_to { let p = checked_plan work.now.checked in
        IfOk result (ComesTo (round_records p (λ row. row) work.now.chunks)) }
    ensures valid { let p = checked_plan work.now.checked in
        IfOk result (λ applied. IfDone applied (AreValid p)) }
{
    let run = of_chunks(alloc, &work.checked, work.chunks.as_slice(), work.limit)?;
    applied(alloc, work, run, groups)
}

// The groups of the records of a round's first chunk. Where a row of it is no record, none.
fn of_first_chunk(alloc: Global, work: &Work) -> Result<Groups, NoMemory>
    requires round { IsRound (checked_plan work.now.checked).fields work.now.chunks }
    ensures { IfOk result (AreValid (checked_plan work.now.checked)) }
{
    let chunks = work.chunks.as_slice();
    let run = of_chunk(alloc, &work.checked, &chunks[0], 0, work.limit)?;
    match run.apply(alloc, &work.checked, Groups::new(alloc))? {
        Applied::Done(groups) => Ok(groups),
        Applied::Bad(_bad) => Ok(Groups::new(alloc)),
    }
}

/// Which groups are there before a round.
#[derive(Clone, Copy, Debug)]
pub(crate) enum Before {
    /// None.
    Nothing,
    /// Those of the records of its first chunk. Where a row of it is no record, none.
    FirstChunk,
    /// Those of the round's own records. Where a row is no record, none.
    TheRound,
}

// The groups before a round.
fn groups_before(alloc: Global, work: &Work, before: Before) -> Result<Groups, NoMemory>
    requires round { IsRound (checked_plan work.now.checked).fields work.now.chunks }
    requires limit { IsLimit work.now.limit }
    ensures { IfOk result (AreValid (checked_plan work.now.checked)) }
{
    let nothing = Groups::new(alloc);
    match before {
        Before::Nothing => Ok(nothing),
        Before::FirstChunk => of_first_chunk(alloc, work),
        Before::TheRound => match alone(alloc, work, nothing)? {
            Applied::Done(groups) => Ok(groups),
            Applied::Bad(_bad) => Ok(Groups::new(alloc)),
        },
    }
}

/// What makes a round lead groups on.
#[derive(Clone, Copy, Debug)]
pub(crate) enum Way {
    /// The gate's `lead_round`.
    Led,
    /// The same of up to nine chunks, and of more of them by one worker.
    LedFew,
    /// The same by one worker, after a thread that does nothing.
    LedIdle,
    /// `hold_lead` of a hold that has the run of each round made, and no more.
    HoldOfRuns,
    /// `lead_round` of a gate that has the run of each round made, and no more.
    GateOfRuns,
    /// `hold_lead` of a hold that always says that there is no memory.
    Refused,
    /// The round's run, which is made in this way and then applied.
    Run(Body),
}

/// How a round leads groups on, and by how many workers, 1 to 64.
#[derive(Clone, Copy, Debug)]
pub(crate) struct Worked {
    pub(crate) way: Way,
    pub(crate) before: Before,
    pub(crate) workers: u32,
}

// What several workers make of groups, in this way.
fn met<T: Threads + Wait + Sync>(
    rt: &T,
    alloc: Global,
    work: &Work,
    worked: Worked,
    gate: &OpenGate<Holder>,
    groups: Groups,
) -> Result<Applied, NoMemory>
    requires round { IsRound (checked_plan work.now.checked).fields work.now.chunks }
    requires limit { IsLimit work.now.limit }
    requires workers { AreWorkers worked.workers }
    requires valid { AreValid (checked_plan work.now.checked) groups }
{
    match worked.way {
        Way::Led => gate.lead_round(rt, alloc, work, worked.workers, groups),
        Way::LedFew => {
            let workers = if work.chunks.len() > 9 {
                1
            } else {
                worked.workers
            };
            gate.lead_round(rt, alloc, work, workers, groups)
        }
        Way::LedIdle => {
            start_idle(rt);
            gate.lead_round(rt, alloc, work, 1, groups)
        }
        Way::HoldOfRuns => {
            let holder = &gate.hold;
            Makes { holder }.hold_lead(rt, alloc, work, worked.workers, groups)
        }
        Way::GateOfRuns => {
            MakesRuns { open: gate }.lead_round(rt, alloc, work, worked.workers, groups)
        }
        Way::Refused => {
            let holder = &gate.hold;
            Refuses { holder }.hold_lead(rt, alloc, work, worked.workers, groups)
        }
        Way::Run(body) => {
            let run = made(rt, alloc, work, worked.workers, gate, body)?;
            applied(alloc, work, run, groups)
        }
    }
}

// Has each round lead groups on in both ways, and notes what is seen of the last one.
#[derive(Drop)]
struct Compared<'a> {
    gate: &'a OpenGate<Holder>,
    worked: Worked,
    seen: Option<Seen>,
}

impl<'a> Rounds for Compared<'a> {
    ghost shown = { λ _ row. row };

    // It stands for any records.
    ghost stands = { λ compared _ _ _. AreWorkers compared.worked.workers };

    // It tells no one of rounds.
    ghost told = { λ _ _ _ _ _. Unit {0} };

    fn take<T: Threads + Wait + Sync>(
        &mut self,
        rt: &T,
        alloc: Global,
        work: &Work,
    ) -> Result<Took, NoMemory> {
        let groups = groups_before(alloc, work, self.worked.before)?;
        let met = met(rt, alloc, work, self.worked, self.gate, groups.copy(alloc)?)?;
        let alone = alone(alloc, work, groups)?;
        self.seen = Some(seen_of(work.chunks.len(), &met, &alone));
        match alone {
            Applied::Done(_groups) => Ok(Took::Done),
            Applied::Bad(bad) => Ok(Took::Bad(bad)),
        }
    }
}

pub(crate) fn store(alloc: Global, log: &str) -> Result<MemStore, NoMemory> {
    let mut store = MemStore::new(alloc);
    store.add(alloc, "log", log.as_bytes())?;
    Ok(store)
}

pub(crate) fn names(alloc: Global) -> Result<Vec<String>, NoMemory> {
    let mut names = Vec::new(alloc);
    names.push(String::from_str(alloc, "log")?)?;
    Ok(names)
}

// Has the rounds of the file worked, where there are 1 to 64 workers, 1 to 1,024 rows a chunk and
// few names.
fn compare<T: Threads + Wait + Sync>(
    rt: &T,
    alloc: Global,
    checked: &Checked,
    files: &mut MemStore,
    names: &[String],
    chunk: u32,
    compared: &mut Compared<'_>,
) {
    if compared.worked.workers < 1 || compared.worked.workers > 64 || names.len() > 3 {
        return;
    }
    if chunk < 1 || chunk > 1_024 {
        return;
    }
    let options = Options {
        chunk,
        limit: LIMIT_DEFAULT,
        workers: WORKERS_DEFAULT,
        max_bytes: FILE_MAX_DEFAULT,
    };
    let _taken = each_round(rt, alloc, checked, files, names, &options, 1, compared);
}

// A script whose report tells the order of the records of a group.
const STREAKS: &str = "enum outcome { win, draw, loss } field team: word; field result: outcome; \
    group team; state streak: int [0..10000] = 0; state lengths: nums [1..10000]; \
    update { if result is win { streak = streak + 1; push lengths streak; } \
    else { streak = 0; } } report { streak = streak; longest = max(lengths); }";

/// What is seen of the last round of a log, each row of which is a chunk, worked in this way.
/// `None` where there is no round, or an allocation failed before it was worked.
pub(crate) fn seen_by<T: Threads + Wait + Sync>(
    rt: &T,
    alloc: Global,
    log: &str,
    worked: Worked,
    gate: &OpenGate<Holder>,
) -> Result<Option<Seen>, NoMemory> {
    seen_in(rt, alloc, log, 1, worked, gate)
}

/// The same of a log whose chunks have so many rows.
pub(crate) fn seen_in<T: Threads + Wait + Sync>(
    rt: &T,
    alloc: Global,
    log: &str,
    rows: u32,
    worked: Worked,
    gate: &OpenGate<Holder>,
) -> Result<Option<Seen>, NoMemory> {
    let Some(checked) = accepted(alloc, STREAKS) else {
        return Ok(None);
    };
    let mut compared = Compared {
        gate,
        worked,
        seen: None,
    };
    let names = names(alloc)?;
    compare(
        rt,
        alloc,
        &checked,
        &mut store(alloc, log)?,
        names.as_slice(),
        rows,
        &mut compared,
    );
    Ok(compared.seen)
}
