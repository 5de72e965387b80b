//! How rounds are taken: with the threads of a runtime, or on one thread.
ghost use Rattle.std.specs.Prelude.{◌≡◌, ◌≤◌, ◌<◌, ℕ, List, [], Some, IfOk, IsSome, length};
ghost use Rattle.std.specs.List.{All};
ghost use Rattle.std.specs.Thread.{IsSync};
ghost use Rattle.sym_base.specs.declared.limits.TheConstants as limit;
ghost use Rattle.sym_base.specs.declared.values.record.Record.{Record as OneRecord};
ghost use Rattle.sym_check.specs.Checking.CheckedScripts.{checked_plan};
ghost use Rattle.sym_check.specs.declared.plan.script.FieldPlan.{FieldPlan as OneField};
ghost use Rattle.sym_check.specs.Plan.ScriptPlans.{ScriptPlan};
ghost use Rattle.sym_table.specs.Reading.{Row as OneRow};
ghost use Rattle.sym_table.specs.Rows.{FitsChunk, FitsHeader};
ghost use Rattle.sym_files.specs.Rounds.{IsLimit, IsRound, Takes, round_records, stands_by};
ghost use Rattle.sym_files.specs.Taking.{AreCut, CutsRound, IfTaken, full_round, rows_of};
ghost use Rattle.sym_files.specs.Telling.{Point, TellsRound, tells_by};

use crate::next_round::{next_round, replace_chunks, then_cut};
use crate::rounds::{Rounds, SequentialRounds, Took, Work};
use std::alloc::Global;
use std::sync::Wait;
use std::thread::{Threads, join_mut};
use sym_base::{CHUNKS_MAX, NoMemory};
use sym_table::{Chunks, Cutter, Spare};

/// A way to have rounds taken by a value of type `R`. Its meanings are those of `Rounds`.
pub(crate) trait Way<R> {
    // The row that is read in place of a row.
    ghost shown: { R → OneRow → OneRow };

    // Whether a value stands for these records, by a script and a path limit.
    ghost stands: { R → ScriptPlan → ℕ → List OneRecord → Type 0 };

    // What a value has told others of these rounds since it was another one, by a script and where
    // it stands.
    ghost told: { R → R → ScriptPlan → Point → List (List OneRecord) → Type 0 };

    // What a caller knows of the way's own types.
    ghost ready: { Type 0 };

    /// Takes the records of a round's rows, as `Rounds::take` does, and then has the next round of
    /// the file in its place. The script and the path limit of the work stay.
    fn take_on(
        &self,
        alloc: Global,
        rounds: &mut R,
        work: &mut Work,
        cutter: &mut Cutter<'_>,
        spare: &mut Spare,
    ) -> Result<Took, NoMemory>
        requires ready { ready }
        requires round { IsRound (checked_plan work.old.checked).fields work.old.chunks }
        requires limit { IsLimit work.old.limit }
        requires left { IsSome cutter.old.left }
        requires stands { let p = checked_plan work.old.checked in
            (records : List OneRecord) × stands rounds.old p work.old.limit records }
        ensures shown { shown rounds.new ≡ shown rounds.old }
        ensures takes { let p = checked_plan work.old.checked in
            let read = round_records p (shown rounds.old) work.old.chunks in
            let stood = stands_by stands p work.old.limit in
            IfOk result (Takes stood read rounds.old rounds.new) }
        ensures tells { let p = checked_plan work.old.checked in
            let read = round_records p (shown rounds.old) work.old.chunks in
            (start : R) (before : List (List OneRecord)) →
            told start rounds.old p Point.between before →
            TellsRound (tells_by told p start) read before rounds.new result }
        ensures next { IfOk result (λ took.
            IfTaken took (CutsRound cutter.old cutter.new work.new.chunks)) }
        ensures checked { checked_plan work.new.checked ≡ checked_plan work.old.checked }
        ensures same { work.new.limit ≡ work.old.limit };
}

/// With the threads of a runtime, so many workers in all.
#[derive(Drop)]
pub(crate) struct Threaded<'a, T> {
    pub(crate) rt: &'a T,
    pub(crate) workers: u32,
}

// Has a round taken. What the value has told of it is known by what it came to.
fn take_round<T: Threads + Wait + Sync, R: Rounds>(
    rt: &T,
    alloc: Global,
    rounds: &mut R,
    work: &Work,
) -> Result<Took, NoMemory>
    requires sync { IsSync T.row }
    requires round { IsRound (checked_plan work.now.checked).fields work.now.chunks }
    requires limit { IsLimit work.now.limit }
    requires stands { let p = checked_plan work.now.checked in
        (records : List OneRecord) × R.stands rounds.old p work.now.limit records }
    ensures shown { R.shown rounds.new ≡ R.shown rounds.old }
    ensures takes { let p = checked_plan work.now.checked in
        let read = round_records p (R.shown rounds.old) work.now.chunks in
        let stood = stands_by R.stands p work.now.limit in
        IfOk result (Takes stood read rounds.old rounds.new) }
    ensures tells { let p = checked_plan work.now.checked in
        let read = round_records p (R.shown rounds.old) work.now.chunks in
        (start : R) (before : List (List OneRecord)) →
        R.told start rounds.old p Point.between before →
        TellsRound (tells_by R.told p start) read before rounds.new result }
{
    rounds.take(rt, alloc, work)
}

// What a round came to, and the round after it, which was cut beside it.
#[derive(Drop)]
struct Beside {
    took: Result<Took, NoMemory>,
    next: Result<Chunks, NoMemory>,
}

// Has a round taken while another thread cuts the next one.
fn take_beside<T: Threads + Wait + Sync, R: Rounds>(
    rt: &T,
    alloc: Global,
    rounds: &mut R,
    work: &Work,
    cutter: &mut Cutter<'_>,
    spare: &mut Spare,
) -> Beside
    requires round { IsRound (checked_plan work.now.checked).fields work.now.chunks }
    requires limit { IsLimit work.now.limit }
    requires left { IsSome cutter.old.left }
    requires stands { let p = checked_plan work.now.checked in
        (records : List OneRecord) × R.stands rounds.old p work.now.limit records }
    ensures shown { R.shown rounds.new ≡ R.shown rounds.old }
    ensures takes { let p = checked_plan work.now.checked in
        let read = round_records p (R.shown rounds.old) work.now.chunks in
        let stood = stands_by R.stands p work.now.limit in
        IfOk result.took (Takes stood read rounds.old rounds.new) }
    ensures tells { let p = checked_plan work.now.checked in
        let read = round_records p (R.shown rounds.old) work.now.chunks in
        (start : R) (before : List (List OneRecord)) →
        R.told start rounds.old p Point.between before →
        TellsRound (tells_by R.told p start) read before rounds.new result.took }
    ensures cut { IfOk result.next (λ chunks. AreCut cutter.old cutter.new chunks) }
    ensures most { IfOk result.next (λ chunks. length chunks ≤ limit.CHUNKS_MAX) }
    ensures ended { IfOk result.next (λ chunks. chunks ≡ [] → cutter.old.left ≡ Some []) }
    ensures fit { (fields : List OneField) → FitsHeader fields cutter.old.header →
        IfOk result.next (λ chunks. All (FitsChunk fields) chunks) }
    ensures header { cutter.new.header ≡ cutter.old.header }
    ensures chunk { cutter.new.chunk ≡ cutter.old.chunk }
    ensures rows { IfOk result.next (λ chunks.
        length (rows_of chunks) ≤ full_round cutter.old.chunk) }
    ensures full { IfOk result.next (λ chunks.
        length (rows_of chunks) < full_round cutter.old.chunk → cutter.new.left ≡ Some []) }
{
    let (next, took) = join_mut(
        rt,
        &mut || next_round(alloc, cutter, spare),
        &mut || -> Result<Took, NoMemory>
            requires { let p = checked_plan work.now.checked in IsSync T.row
                × IsRound p.fields work.now.chunks × IsLimit work.now.limit
                × ((records : List OneRecord) × R.stands rounds.now p work.now.limit records) }
            ensures shown { R.shown rounds.exit.now ≡ R.shown rounds.entry.now }
            ensures takes { let p = checked_plan work.entry.now.checked in
                let read = round_records p (R.shown rounds.entry.now) work.entry.now.chunks in
                let stood = stands_by R.stands p work.entry.now.limit in
                IfOk result (Takes stood read rounds.entry.now rounds.exit.now) }
            ensures tells { let p = checked_plan work.entry.now.checked in
                let read = round_records p (R.shown rounds.entry.now) work.entry.now.chunks in
                (start : R) (before : List (List OneRecord)) →
                R.told start rounds.entry.now p Point.between before →
                TellsRound (tells_by R.told p start) read before rounds.exit.now result }
        { take_round(rt, alloc, rounds, work) },
    );
    Beside { took, next }
}

impl<'a, T: Threads + Wait + Sync, R: Rounds> Way<R> for Threaded<'a, T> {
    ghost shown = { R.shown };

    ghost stands = { R.stands };

    ghost told = { R.told };

    ghost ready = { IsSync T.row };

    // With one worker, and where a round isn't full and so is the file's last, no thread is made.
    fn take_on(
        &self,
        alloc: Global,
        rounds: &mut R,
        work: &mut Work,
        cutter: &mut Cutter<'_>,
        spare: &mut Spare,
    ) -> Result<Took, NoMemory> {
        if self.workers == 1 || work.chunks.len() < CHUNKS_MAX as usize {
            let took = take_round(self.rt, alloc, rounds, work)?;
            return then_cut(alloc, took, work, cutter, spare);
        }
        let Beside { took, next } = take_beside(self.rt, alloc, rounds, work, cutter, spare);
        match took? {
            Took::Done => {
                replace_chunks(work, next?, spare);
                Ok(Took::Done)
            }
            Took::Bad(bad) => Ok(Took::Bad(bad)),
        }
    }
}

/// On this thread alone.
pub(crate) struct Alone;

impl<R: SequentialRounds> Way<R> for Alone {
    ghost shown = { λ _ row. row };

    ghost stands = { λ rounds p _ records. R.stands rounds p records };

    ghost told = { λ _ _ _ _ _. Unit {0} };

    ghost ready = { Unit {0} };

    fn take_on(
        &self,
        alloc: Global,
        rounds: &mut R,
        work: &mut Work,
        cutter: &mut Cutter<'_>,
        spare: &mut Spare,
    ) -> Result<Took, NoMemory> {
        let took = rounds.take_round(alloc, work)?;
        then_cut(alloc, took, work, cutter, spare)
    }
}
