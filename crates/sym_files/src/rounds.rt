//! Rounds of chunks, and what takes them.
ghost use Rattle.std.specs.Prelude.{◌≡◌, ◌≤◌, ℕ, List, IfOk, length, slice_range};
ghost use Rattle.std.specs.Thread.{IsSync};
ghost use Rattle.sym_base.specs.declared.values.record.Record.{Record as OneRecord};
ghost use Rattle.sym_check.specs.Checking.CheckedScripts.{checked_plan, checked_tree};
ghost use Rattle.sym_check.specs.Plan.ScriptPlans.{ScriptPlan};
ghost use Rattle.sym_table.specs.ChunkRecords.{all_records};
ghost use Rattle.sym_table.specs.Reading.{Row as OneRow};
ghost use Rattle.sym_files.specs.Rounds.{IsLimit, IsRound, Takes, round_records, stands_by, stands_in};
ghost use Rattle.sym_files.specs.Telling.{HasTold, Point, tells_by};

use std::alloc::Global;
use std::sync::Wait;
use std::thread::Threads;
use sym_base::NoMemory;
use sym_check::Checked;
use sym_table::{Bad, Chunk, Chunks};

/// What is shared by those who work on a round: the script, the round's chunks, and the path
/// limit.
pub struct Work {
    pub checked: Checked,
    pub chunks: Chunks,
    pub limit: u32,
}

// Written here so that the crates above don't prove it for each type inside.
impl Drop for Work {
    fn drop(self) {
        let Work {
            checked: _checked,
            chunks: _chunks,
            limit: _limit,
        } = self;
    }
}

// Equal chunks of their own.
fn copy_chunks(alloc: Global, chunks: &[Chunk]) -> Result<Chunks, NoMemory>
    ensures { IfOk result (λ copied. copied ≡ chunks.now) }
{
    let mut copied = Vec::with_capacity(alloc, chunks.len())?;
    'chunks: for chunk in chunks {
        copied.push(chunk.copy(alloc)?)?;
    }
    Ok(Chunks::of(copied))
}

impl Work {
    /// An equal work of its own.
    pub fn copy(&self, alloc: Global) -> Result<Work, NoMemory>
        ensures script { IfOk result (λ w. checked_tree w.checked ≡ checked_tree self.now.checked) }
        ensures plan { IfOk result (λ w. checked_plan w.checked ≡ checked_plan self.now.checked) }
        ensures chunks { IfOk result (λ w. w.chunks ≡ self.now.chunks) }
        ensures limit { IfOk result (λ w. w.limit ≡ self.now.limit) }
    {
        Ok(Work {
            checked: self.checked.copy(alloc)?,
            chunks: self.chunks.copy(alloc)?,
            limit: self.limit,
        })
    }

    /// The chunks from `first` up to but without `end`, counted from 0.
    pub fn chunks_between(&self, first: usize, end: usize) -> &[Chunk]
        requires some { first ≤ end }
        requires within { end ≤ length self.now.chunks }
        ensures { result.now ≡ slice_range self.now.chunks first end }
    {
        let (_, rest) = self.chunks.as_slice().split_at(first);
        let (part, _) = rest.split_at(end - first);
        part
    }

    /// A work of its own over copies of the chunks from `first` up to but without `end`, counted
    /// from 0.
    pub fn part(&self, alloc: Global, first: usize, end: usize) -> Result<Work, NoMemory>
        requires some { first ≤ end }
        requires within { end ≤ length self.now.chunks }
        ensures script { IfOk result (λ w. checked_tree w.checked ≡ checked_tree self.now.checked) }
        ensures plan { IfOk result (λ w. checked_plan w.checked ≡ checked_plan self.now.checked) }
        ensures chunks { IfOk result (λ w. w.chunks ≡ slice_range self.now.chunks first end) }
        ensures limit { IfOk result (λ w. w.limit ≡ self.now.limit) }
    {
        Ok(Work {
            checked: self.checked.copy(alloc)?,
            chunks: copy_chunks(alloc, self.chunks_between(first, end))?,
            limit: self.limit,
        })
    }
}

/// What a round came to.
#[derive(Clone, Copy, Debug, PartialEq, Eq)]
pub enum Took {
    /// Its records were taken.
    Done,
    /// This row is the first that is no record.
    Bad(Bad),
}

/// A value that takes the records of files, round by round.
pub trait Rounds {
    // The row that is read in place of a row.
    ghost shown: { Self → OneRow → OneRow };

    // Whether the value stands for these records, by a script and a path limit.
    ghost stands: { Self → ScriptPlan → ℕ → List OneRecord → Type 0 };

    // What the second value has told others of these rounds since it was the first one, by a script
    // and where it stands. A value that tells no one of rounds says `λ _ _ _ _ _. Unit {0}`.
    ghost told: { Self → Self → ScriptPlan → Point → List (List OneRecord) → Type 0 };

    /// Takes the records of a round's rows, each row as it is shown, after those for which the
    /// value stands; or `Bad` exactly where one of the rows is no record: the first such row.
    /// After `Bad` and after an `Err` nothing is known of the value but what it shows, which stays,
    /// and what it has told.
    fn take<T: Threads + Wait + Sync>(
        &mut self,
        rt: &T,
        alloc: Global,
        work: &Work,
    ) -> Result<Took, NoMemory>
        requires sync { IsSync T.row }
        requires round { IsRound (checked_plan work.now.checked).fields work.now.chunks }
        requires limit { IsLimit work.now.limit }
        requires stands { let p = checked_plan work.now.checked in
            (records : List OneRecord) × stands self.old p work.now.limit records }
        ensures shown { shown self.new ≡ shown self.old }
        ensures takes { let p = checked_plan work.now.checked in
            let read = round_records p (shown self.old) work.now.chunks in
            let stood = stands_by stands p work.now.limit in
            IfOk result (Takes stood read self.old self.new) }
        ensures tells { let p = checked_plan work.now.checked in
            let read = round_records p (shown self.old) work.now.chunks in
            (start : Self) (before : List (List OneRecord)) →
            told start self.old p Point.between before →
            HasTold (tells_by told p start) read before self.new result };
}

/// A value that takes the records of files, round by round, on one thread and each row as it is.
pub trait SequentialRounds {
    // Whether the value stands for these records, by a script.
    ghost stands: { Self → ScriptPlan → List OneRecord → Type 0 };

    /// Takes the records of a round's rows, after those for which the value stands; or `Bad` exactly
    /// where one of the rows is no record: the first such row. After `Bad` and after an `Err` nothing
    /// is known of the value.
    fn take_round(&mut self, alloc: Global, work: &Work) -> Result<Took, NoMemory>
        requires round { IsRound (checked_plan work.now.checked).fields work.now.chunks }
        requires stands { (records : List OneRecord) ×
            stands self.old (checked_plan work.now.checked) records }
        ensures takes { let p = checked_plan work.now.checked in
            IfOk result (Takes (stands_in stands p) (all_records p work.now.chunks)
            self.old self.new) };
}
