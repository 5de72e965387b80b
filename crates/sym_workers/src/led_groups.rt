//! What a round makes of groups: they are led on by its records, or by the runs of its stretches.
ghost use Rattle.std.specs.Prelude.{◌≡◌, ◌≤◌, ◌<◌, ◌+◌, ◌*◌, ℕ, List, Result, IfOk, length, vec_len};
ghost use Rattle.sym_base.specs.declared.limits.TheConstants as limit;
ghost use Rattle.sym_base.specs.declared.values.record.Record.{Record as OneRecord};
ghost use Rattle.sym_base.specs.declared.values.state.Outcome.{Outcome as OneOutcome};
ghost use Rattle.sym_base.specs.declared.values.value.Key.{Key as OneKey};
ghost use Rattle.sym_check.specs.Checking.CheckedScripts.{checked_plan};
ghost use Rattle.sym_check.specs.Plan.ScriptPlans.{ScriptPlan};
ghost use Rattle.sym_run.specs.Applying.{AreValid, IfDone, applied_to};
ghost use Rattle.sym_run.specs.Runs.{GroupsFit, StandsForChunks};
ghost use Rattle.sym_shuffle.specs.Begun.{groups_after};
ghost use Rattle.sym_table.specs.ChunkRecords.{all_records};
ghost use Rattle.sym_table.specs.declared.bad.Bad.{Bad as OneBad};
ghost use Rattle.sym_table.specs.declared.chunk.Chunk.{Chunk as OneChunk};
ghost use Rattle.sym_workers.specs.Leading.{AreRunsOf, run_records};
ghost use Rattle.sym_workers.specs.Pieces.{AreStretches, StandsBetween};
ghost use Rattle.sym_files.specs.Rounds.{AreWorkers, IsLimit, IsRound};

use crate::shares::are_shared_out;
use crate::stretches::{LendsStretches, Stretches};
use crate::workers::{ChunkRange, run_between};
use std::alloc::Global;
use std::thread::Threads;
use sym_base::NoMemory;
use sym_files::Work;
use sym_fork::map_claimed;
use sym_plain::Groups;
use sym_run::{Applied, Run, kept_most};
use sym_shuffle::{Enter, folded, shuffled};
use sym_table::Bad;

// Into how many stretches a round is cut for each worker. A worker takes the next one as it gets on.
const STRETCHES_LED: u32 = 2;

// What a round came to, as what its run does to groups.
fn as_applied(led: Result<Groups, Bad>) -> Applied
    ensures applied { (p : ScriptPlan) (read : Result (List OneRecord) OneBad)
        (groups : List (OneKey × OneOutcome)) →
        led ≡ groups_after p read groups → result ≡ applied_to p read groups }
    ensures valid { (p : ScriptPlan) → IfOk led (AreValid p) → IfDone result (AreValid p) }
{
    match led {
        Ok(groups) => Applied::Done(groups),
        Err(bad) => Applied::Bad(bad),
    }
}

/// What the records of a run's chunks make of groups. As many threads as there are workers, at
/// most, lead the groups on.
pub(crate) fn apply_run<T: Threads + Sync>(
    rt: &T,
    alloc: Global,
    work: &Work,
    run: Run,
    groups: Groups,
    workers: u32,
) -> Result<Applied, NoMemory>
    requires fits { GroupsFit (checked_plan work.now.checked) run.groups }
    requires valid { AreValid (checked_plan work.now.checked) groups }
    ensures applied { let p = checked_plan work.now.checked in
        (limit : ℕ) (chunks : List OneChunk) → StandsForChunks p limit chunks run →
        IfOk result (λ applied. applied ≡ applied_to p (run_records p chunks run) groups) }
    ensures valid { let p = checked_plan work.now.checked in
        IfOk result (λ applied. IfDone applied (AreValid p)) }
{
    run.apply_by(rt, alloc, &work.checked, groups, workers)
}

// The run of the stretch with this number, made on this thread.
fn run_of<S: LendsStretches, E: Enter>(
    alloc: Global,
    stretches: &S,
    thread: usize,
    number: usize,
    hold: &E,
) -> Result<Run, NoMemory>
    requires round { let work = S.lent stretches.now in
        IsRound (checked_plan work.checked).fields work.chunks }
    requires some { 1 ≤ S.size stretches.now }
    requires few { S.size stretches.now ≤ limit.CHUNKS_MAX }
    requires filled { let s = stretches.now in
        number * S.size s < length (S.lent s).chunks }
    ensures { let s = stretches.now in
        IfOk result (StandsBetween (S.lent s) (S.size s) number (number + 1)) }
{
    let work = stretches.work();
    let each = stretches.chunks_each();
    let chunks = work.chunks.len() as u32;
    let worker = thread.min(u32::MAX as usize) as u32;
    let first = number as u32 * each;
    let end = chunks.min(first + each);
    let range = ChunkRange { first, end };
    run_between(alloc, work, worker, range, kept_most(work.limit), hold)
}

// The runs of all stretches of a round, made by so many threads.
fn runs_of<T: Threads + Sync, S: LendsStretches + Sync, E: Enter + Sync>(
    rt: &T,
    alloc: Global,
    stretches: &S,
    count: usize,
    workers: u32,
    hold: &E,
) -> Result<Vec<Result<Run, NoMemory>>, NoMemory>
    requires round { let work = S.lent stretches.now in
        IsRound (checked_plan work.checked).fields work.chunks }
    requires few { S.size stretches.now ≤ limit.CHUNKS_MAX }
    requires stretches { let s = stretches.now in
        AreStretches (length (S.lent s).chunks) (S.size s) count }
    ensures count { IfOk result (λ runs. vec_len runs ≡ count) }
    ensures runs { let s = stretches.now in
        IfOk result (λ runs. AreRunsOf (S.lent s) (S.size s) runs.items) }
{
    let runs = map_claimed(
        rt,
        alloc,
        count,
        workers as usize,
        &|thread: usize, number: usize| -> Result<Run, NoMemory>
            requires { let s = stretches.now in
                IsRound (checked_plan (S.lent s).checked).fields (S.lent s).chunks
                × (1 ≤ S.size s) × (S.size s ≤ limit.CHUNKS_MAX)
                × (number * S.size s < length (S.lent s).chunks) }
            ensures { let s = stretches.entry.now in
                IfOk result (StandsBetween (S.lent s) (S.size s) number (number + 1)) }
        { run_of(alloc, stretches, thread, number, hold) },
    )?;
    Ok(runs)
}

// What the runs of all stretches of a round make of groups, which they lead on one after the other.
// The first row that is no record ends it.
fn apply_in_order<T: Threads + Sync, S: LendsStretches>(
    rt: &T,
    alloc: Global,
    stretches: &S,
    runs: Vec<Result<Run, NoMemory>>,
    groups: Groups,
    workers: u32,
) -> Result<Applied, NoMemory>
    requires stretches { let s = stretches.now in
        AreStretches (length (S.lent s).chunks) (S.size s) (vec_len runs) }
    requires runs { let s = stretches.now in AreRunsOf (S.lent s) (S.size s) runs.items }
    requires valid { AreValid (checked_plan (S.lent stretches.now).checked) groups }
    ensures applied { let work = S.lent stretches.now in let p = checked_plan work.checked in
        IfOk result (λ applied. applied ≡ applied_to p (all_records p work.chunks) groups) }
    ensures valid { let p = checked_plan (S.lent stretches.now).checked in
        IfOk result (λ applied. IfDone applied (AreValid p)) }
{
    let work = stretches.work();
    let mut groups = groups;
    'runs: for run in runs {
        match apply_run(rt, alloc, work, run?, groups, workers)? {
            Applied::Done(next) => groups = next,
            Applied::Bad(bad) => return Ok(Applied::Bad(bad)),
        }
    }
    Ok(Applied::Done(groups))
}

// What a round makes of groups, by several workers.
fn led_by<T: Threads + Sync, S: LendsStretches + Sync, E: Enter + Sync>(
    rt: &T,
    alloc: Global,
    stretches: &S,
    workers: u32,
    groups: Groups,
    hold: &E,
) -> Result<Applied, NoMemory>
    requires round { let work = S.lent stretches.now in
        IsRound (checked_plan work.checked).fields work.chunks }
    requires some { 1 ≤ S.size stretches.now }
    requires few { S.size stretches.now ≤ limit.CHUNKS_MAX }
    requires valid { AreValid (checked_plan (S.lent stretches.now).checked) groups }
    ensures applied { let work = S.lent stretches.now in let p = checked_plan work.checked in
        IfOk result (λ applied. applied ≡ applied_to p (all_records p work.chunks) groups) }
    ensures valid { let p = checked_plan (S.lent stretches.now).checked in
        IfOk result (λ applied. IfDone applied (AreValid p)) }
{
    let chunks = stretches.work().chunks.len();
    let count = chunks.div_ceil(stretches.chunks_each() as usize);
    let runs = runs_of(rt, alloc, stretches, count, workers, hold)?;
    apply_in_order(rt, alloc, stretches, runs, groups, workers)
}

/// What the records of a round, which is the work's, make of groups: the groups after them, or the
/// first row that is no record. With one worker, or one chunk, no thread is made: each record makes
/// its step as it is read (`folded` of `sym_shuffle`). Where there are many groups before the
/// round, or, where there is none, in its first chunk, some threads read the records, and then
/// others step them, each those of its own groups (`shuffled`). The same holds of a script with a
/// cell that is never set to a value in which no cell takes part. No record is explored in either
/// way. Else the chunks are cut into stretches, two for each worker. A worker takes the next stretch
/// as it gets on, and makes its run, whatever the states of the groups are. The runs then lead the
/// groups on in order. They aren't joined: how the groups stand is known here, and so leading them
/// costs less than composing what the runs do. In each way `hold` is told of each chunk. The result
/// doesn't depend on the number of workers.
///
/// `NoMemory` where an allocation failed.
pub fn led<T: Threads + Sync, E: Enter + Sync>(
    rt: &T,
    alloc: Global,
    work: &Work,
    workers: u32,
    groups: Groups,
    hold: &E,
) -> Result<Applied, NoMemory>
    requires round { IsRound (checked_plan work.now.checked).fields work.now.chunks }
    requires limit { IsLimit work.now.limit }
    requires workers { AreWorkers workers }
    requires valid { AreValid (checked_plan work.now.checked) groups }
    ensures applied { let p = checked_plan work.now.checked in
        let read = all_records p work.now.chunks in
        IfOk result (λ applied. applied ≡ applied_to p read groups) }
    ensures valid { let p = checked_plan work.now.checked in
        IfOk result (λ applied. IfDone applied (AreValid p)) }
{
    let chunks = work.chunks.len() as u32;
    if workers.min(chunks) == 1 {
        let chunks = work.chunks.as_slice();
        let led = folded(alloc, &work.checked, chunks, groups, hold)?;
        return Ok(as_applied(led));
    }
    if are_shared_out(alloc, work, &groups)? {
        let chunks = work.chunks.as_slice();
        let led = shuffled(rt, alloc, &work.checked, chunks, groups, workers, hold)?;
        return Ok(as_applied(led));
    }
    let each = chunks.div_ceil(workers * STRETCHES_LED);
    led_by(rt, alloc, &Stretches { work, each }, workers, groups, hold)
}
