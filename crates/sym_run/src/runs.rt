//! Runs of chunks: their groups, or the first of their rows that is no record.
ghost use Rattle.std.specs.Prelude.{◌≡◌, ◌<◌, ◌+◌, ◌++◌, [], List, None, Some, Ok, IfErr, IfOk, OnOk, slice_get};
ghost use Rattle.std.specs.Option.{option_or};
ghost use Rattle.sym_base.specs.declared.values.record.Record.{Record as OneRecord};
ghost use Rattle.sym_check.specs.Checking.CheckedScripts.{checked_plan};
ghost use Rattle.sym_plain.specs.Pairs.{after_records};
ghost use Rattle.sym_table.specs.declared.chunk.Chunk.{Chunk as OneChunk};
ghost use Rattle.sym_table.specs.ChunkRecords.{chunk_records};
ghost use Rattle.sym_table.specs.Rows.{FitsChunk};
ghost use Rattle.sym_run.specs.Applying.{AreValid, IfDone, IsApplied, bad_of};
ghost use Rattle.sym_run.specs.Runs.{AreClosed, AreTight, GroupsAreExtended, GroupsFit, GroupsStandFor, IsFromTo, StandsForChunks};

use crate::applied_groups::apply_all;
use crate::joined_groups::join_groups;
use crate::led_groups::{apply_beside, threads_for};
use crate::memory::Memory;
use crate::open_runs::OpenRun;
use crate::run_groups::RunGroups;
use crate::settings::Settings;
use std::alloc::Global;
use std::slice;
use std::thread::Threads;
use sym_base::NoMemory;
use sym_check::Checked;
use sym_plain::Groups;
use sym_table::{Bad, Chunk, RowCursor};

/// What the records of neighbouring chunks do to each group, or the first of their rows that is no
/// record.
pub struct Run {
    /// The number of the first chunk.
    pub lo: u32,
    /// The number of the chunk after the last.
    pub hi: u32,
    /// The chains by group. Where there is a bad row, they fit the script and are otherwise
    /// unspecified.
    pub groups: RunGroups,
    /// The first row that is no record.
    pub bad: Option<Bad>,
}

// Written here so that the crates above don't prove it for each type inside.
impl Drop for Run {
    fn drop(self) {
        let Run {
            lo: _lo,
            hi: _hi,
            groups: _groups,
            bad: _bad,
        } = self;
    }
}

/// What a run comes to on groups. Callers take it apart, so its `Drop` is derived.
#[derive(Drop)]
pub enum Applied {
    /// The groups after the run's records.
    Done(Groups),
    /// The run's first row that is no record.
    Bad(Bad),
}

impl Applied {
    /// An equal answer of its own.
    pub fn copy(&self, alloc: Global) -> Result<Applied, NoMemory>
        ensures { IfOk result (λ applied. applied ≡ self.now) }
    {
        match self {
            Applied::Done(groups) => Ok(Applied::Done(groups.copy(alloc)?)),
            Applied::Bad(bad) => Ok(Applied::Bad(*bad)),
        }
    }
}

impl Run {
    /// The run of no chunks, before the one with this number. It takes no memory.
    pub(crate) fn none(alloc: Global, number: u32) -> Run
        ensures ends { IsFromTo number number result }
        ensures groups { result.groups ≡ [] }
        ensures bad { result.bad ≡ None }
    {
        Run {
            lo: number,
            hi: number,
            groups: RunGroups::new(alloc),
            bad: None,
        }
    }

    /// An equal run of its own.
    pub fn copy(&self, alloc: Global) -> Result<Run, NoMemory>
        ensures { IfOk result (λ run. run ≡ self.now) }
    {
        Ok(Run {
            lo: self.lo,
            hi: self.hi,
            groups: self.groups.copy(alloc)?,
            bad: self.bad,
        })
    }

    /// The run of this one's chunks and then the right one's. The left's bad row comes before the
    /// right's, and so do its keys; the chains of a key in both are joined. What the left one keeps
    /// of a key is explored only where the right one has segments of it. Keys and chains are moved.
    pub fn join(
        self,
        alloc: Global,
        checked: &Checked,
        right: Run,
        limit: u32,
    ) -> Result<Run, NoMemory>
        requires meet { self.hi ≡ right.lo }
        requires left { GroupsFit (checked_plan checked.now) self.groups }
        requires right { GroupsFit (checked_plan checked.now) right.groups }
        requires tight { self.bad ≡ None → right.bad ≡ None →
            AreTight (checked_plan checked.now) limit self.groups
            × AreTight (checked_plan checked.now) limit right.groups }
        ensures chunks { IfOk result (IsFromTo self.lo right.hi) }
        ensures bad { IfOk result (λ run. run.bad ≡ option_or self.bad right.bad) }
        ensures fits { IfOk result (λ run. GroupsFit (checked_plan checked.now) run.groups) }
        ensures tight { self.bad ≡ None → right.bad ≡ None →
            IfOk result (λ run. AreTight (checked_plan checked.now) limit run.groups) }
        ensures stands { (chunks : List OneChunk) →
            StandsForChunks (checked_plan checked.now) limit chunks self →
            StandsForChunks (checked_plan checked.now) limit chunks right →
            IfOk result (StandsForChunks (checked_plan checked.now) limit chunks) }
        ensures closed { AreClosed self.groups → AreClosed right.groups →
            IfOk result (λ run. AreClosed run.groups) }
    {
        let Run {
            lo,
            hi: _hi,
            groups,
            bad,
        } = self;
        let Run {
            lo: _lo,
            hi,
            groups: next,
            bad: next_bad,
        } = right;
        let bad = bad.or(next_bad);
        if bad.is_some() {
            return Ok(Run {
                lo,
                hi,
                groups,
                bad,
            });
        }
        Ok(Run {
            lo,
            hi,
            groups: join_groups(alloc, checked, groups, next, limit)?,
            bad: None,
        })
    }

    /// The run of this one's chunks and then the next chunk: `join` with that chunk's run, which
    /// isn't made. The chains take on the chunk's records where they are, so that no segment begins
    /// anew with the chunk, and a key that is there isn't copied. A chain that keeps records keeps
    /// more of them, and no other chain does. Where the run has a bad row, the chunk isn't read.
    pub fn extend(
        self,
        alloc: Global,
        checked: &Checked,
        chunk: &Chunk,
        limit: u32,
    ) -> Result<Run, NoMemory>
        requires chunk { FitsChunk (checked_plan checked.now).fields chunk.now }
        requires number { self.hi < 64 }
        requires fits { GroupsFit (checked_plan checked.now) self.groups }
        requires tight { self.bad ≡ None → AreTight (checked_plan checked.now) limit self.groups }
        ensures chunks { IfOk result (IsFromTo self.lo (self.hi + 1)) }
        ensures fits { IfOk result (λ run. GroupsFit (checked_plan checked.now) run.groups) }
        ensures stands { (chunks : List OneChunk) →
            StandsForChunks (checked_plan checked.now) limit chunks self →
            slice_get chunks self.hi ≡ Some chunk.now →
            IfOk result (StandsForChunks (checked_plan checked.now) limit chunks) }
        ensures closed { AreClosed self.groups → IfOk result (λ run. AreClosed run.groups) }
        ensures extends { (before records : List OneRecord) → self.bad ≡ None →
            chunk_records (checked_plan checked.now) chunk.now ≡ Ok records →
            GroupsAreExtended (checked_plan checked.now) limit before self.groups →
            IfOk result (λ run.
            GroupsAreExtended (checked_plan checked.now) limit (before ++ records) run.groups) }
    {
        let Run {
            lo,
            hi,
            groups,
            bad,
        } = self;
        let mut cursor = RowCursor::over(alloc, slice::from_ref(chunk))?;
        let memory = &mut Memory::new(alloc);
        let settings = &Settings {
            checked,
            limit,
            most: 0,
        };
        OpenRun::of(alloc, lo, hi, groups, bad)?
            .take(alloc, settings, &mut cursor, chunk, memory)?
            .close(alloc, checked, limit)
    }

    /// The chains by group, or the run's bad row. It takes no memory.
    fn chains_or_bad(self) -> Result<RunGroups, Bad>
        ensures chains { IfOk result (λ chains. chains ≡ self.groups) }
        ensures none { OnOk result (self.bad ≡ None) }
        ensures bad { IfErr result (λ bad. self.bad ≡ Some bad) }
    {
        let Run {
            lo: _lo,
            hi: _hi,
            groups,
            bad,
        } = self;
        match bad {
            None => Ok(groups),
            Some(bad) => Err(bad),
        }
    }

    /// The groups after the run's records; `Bad` exactly where the run has a bad row. A group that
    /// is there is led on in place, a new one goes last from the initial state, and all others stay.
    pub fn apply(
        self,
        alloc: Global,
        checked: &Checked,
        groups: Groups,
    ) -> Result<Applied, NoMemory>
        requires fits { GroupsFit (checked_plan checked.now) self.groups }
        requires valid { AreValid (checked_plan checked.now) groups }
        ensures bad { IfOk result (λ applied. bad_of applied ≡ self.bad) }
        ensures valid { IfOk result (λ applied.
            IfDone applied (AreValid (checked_plan checked.now))) }
        ensures groups { (records : List OneRecord) →
            GroupsStandFor (checked_plan checked.now) records self.groups →
            IfOk result (λ applied. IfDone applied (λ g.
            g ≡ after_records (checked_plan checked.now) records groups)) }
        ensures applied { IfOk result (IsApplied (checked_plan checked.now) self groups) }
    {
        let chains = match self.chains_or_bad() {
            Ok(chains) => chains,
            Err(bad) => return Ok(Applied::Bad(bad)),
        };
        let mut groups = groups;
        apply_all(alloc, checked, &chains, &mut groups)?;
        Ok(Applied::Done(groups))
    }

    /// `apply` by as many threads as there are workers, at most. The run's groups are cut into slices
    /// with about as much to lead, each of which one thread leads on. With few groups a worker that
    /// keep few records, and with one worker, no thread is made.
    pub fn apply_by<T: Threads + Sync>(
        self,
        rt: &T,
        alloc: Global,
        checked: &Checked,
        groups: Groups,
        workers: u32,
    ) -> Result<Applied, NoMemory>
        requires fits { GroupsFit (checked_plan checked.now) self.groups }
        requires valid { AreValid (checked_plan checked.now) groups }
        ensures bad { IfOk result (λ applied. bad_of applied ≡ self.bad) }
        ensures valid { IfOk result (λ applied.
            IfDone applied (AreValid (checked_plan checked.now))) }
        ensures groups { (records : List OneRecord) →
            GroupsStandFor (checked_plan checked.now) records self.groups →
            IfOk result (λ applied. IfDone applied (λ g.
            g ≡ after_records (checked_plan checked.now) records groups)) }
        ensures applied { IfOk result (IsApplied (checked_plan checked.now) self groups) }
    {
        let chains = match self.chains_or_bad() {
            Ok(chains) => chains,
            Err(bad) => return Ok(Applied::Bad(bad)),
        };
        let mut groups = groups;
        let threads = threads_for(&chains, workers);
        if threads < 2 {
            apply_all(alloc, checked, &chains, &mut groups)?;
        } else {
            apply_beside(rt, alloc, checked, &chains, &mut groups, threads)?;
        }
        Ok(Applied::Done(groups))
    }
}
