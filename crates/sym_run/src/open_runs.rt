//! Runs to which chunks are added.
ghost use Rattle.std.specs.Prelude.{◌≡◌, ◌<◌, ◌+◌, ◌++◌, List, None, Some, Ok, IfOk, slice_get};
ghost use Rattle.sym_base.specs.declared.values.record.Record.{Record as OneRecord};
ghost use Rattle.sym_check.specs.Checking.CheckedScripts.{checked_plan};
ghost use Rattle.sym_table.specs.declared.chunk.Chunk.{Chunk as OneChunk};
ghost use Rattle.sym_table.specs.ChunkRecords.{chunk_records};
ghost use Rattle.sym_table.specs.Reading.{HasNext, Passes};
ghost use Rattle.sym_table.specs.Rows.{FitsChunk};
ghost use Rattle.sym_run.specs.OpenRuns.{IsOpenFromTo, OpenStandsForChunks, no_chunks, opened_run};
ghost use Rattle.sym_run.specs.Opened.{OpenGroupsAreExtended, OpenGroupsAreTight, OpenGroupsFit, OpenGroupsKeepNone};
ghost use Rattle.sym_run.specs.Runs.{AreClosed, AreTight, GroupsAreExtended, GroupsFit, IsFromTo, StandsForChunks};

use crate::chunks::take_rows;
use crate::memory::Memory;
use crate::open_groups::{close_all, open_all};
use crate::opened::Open;
use crate::run_groups::RunGroups;
use crate::runs::Run;
use crate::settings::Settings;
use indexmap::IndexMap;
use std::alloc::Global;
use std::marker::Model;
use sym_base::{Key, NoMemory};
use sym_check::Checked;
use sym_table::{Bad, Chunk, RowCursor};

/// A run to which chunks are added: the chains of its groups are open. A contract sees its numbers,
/// the open chains by group, whose keys are distinct, and the first row that is no record.
pub(crate) struct OpenRun {
    lo: u32,
    hi: u32,
    groups: IndexMap<Key, Open>,
    bad: Option<Bad>,
}

// Written here so that the crates above don't prove it for each type inside.
impl Drop for OpenRun {
    fn drop(self) {
        let OpenRun {
            lo: _lo,
            hi: _hi,
            groups: _groups,
            bad: _bad,
        } = self;
    }
}

impl Model for OpenRun {
    ghost use Rattle.sym_plain.specs.Pairs.{HaveDistinctKeys};
    ghost use Rattle.sym_run.specs.OpenRuns.{OpenedRun, open_run_code};

    ghost Value = { OpenedRun };

    ghost coded = { open_run_code };

    ghost view = { λ run.
        record { lo = run.lo; hi = run.hi; groups = run.groups.entries; bad = run.bad } };

    ghost invariant = { λ run. HaveDistinctKeys run.groups.entries };
}

impl OpenRun {
    /// The run of no chunks, before the one with this number. It takes no memory.
    pub(crate) fn none(alloc: Global, number: u32) -> OpenRun
        ensures { result ≡ no_chunks number }
    {
        OpenRun {
            lo: number,
            hi: number,
            groups: IndexMap::new(alloc),
            bad: None,
        }
    }

    /// The run of these numbers, groups and bad row, with its chains as they stand. Keys and chains
    /// are moved.
    pub(crate) fn of(
        alloc: Global,
        lo: u32,
        hi: u32,
        groups: RunGroups,
        bad: Option<Bad>,
    ) -> Result<OpenRun, NoMemory>
        ensures { IfOk result (λ run. run ≡ opened_run lo hi groups bad) }
    {
        Ok(OpenRun {
            lo,
            hi,
            groups: open_all(alloc, groups)?,
            bad,
        })
    }

    /// The run of this one's chunks and then the next chunk, whose rows the cursor has next, up to
    /// the first row that is no record. A key's first records are kept as they are, as many as the
    /// settings say. Where the run has a bad row, the chunk isn't read.
    pub(crate) fn take(
        self,
        alloc: Global,
        settings: &Settings<'_>,
        cursor: &mut RowCursor<'_>,
        chunk: &Chunk,
        memory: &mut Memory,
    ) -> Result<OpenRun, NoMemory>
        requires chunk { FitsChunk (checked_plan settings.now.checked.now).fields chunk.now }
        requires rows { self.bad ≡ None → HasNext chunk.now.rows cursor.old }
        requires number { self.hi < 64 }
        requires fits { OpenGroupsFit (checked_plan settings.now.checked.now) self.groups }
        requires tight { self.bad ≡ None →
            OpenGroupsAreTight (checked_plan settings.now.checked.now) settings.now.limit
            self.groups }
        ensures chunks { IfOk result (IsOpenFromTo self.lo (self.hi + 1)) }
        ensures fits { IfOk result (λ run.
            OpenGroupsFit (checked_plan settings.now.checked.now) run.groups) }
        ensures tight { IfOk result (λ run. run.bad ≡ None →
            OpenGroupsAreTight (checked_plan settings.now.checked.now) settings.now.limit
            run.groups) }
        ensures stands { (chunks : List OneChunk) →
            OpenStandsForChunks (checked_plan settings.now.checked.now) settings.now.limit
            chunks self →
            slice_get chunks self.hi ≡ Some chunk.now →
            IfOk result
            (OpenStandsForChunks (checked_plan settings.now.checked.now) settings.now.limit
            chunks) }
        ensures closed { settings.now.most ≡ 0 → OpenGroupsKeepNone self.groups →
            IfOk result (λ run. OpenGroupsKeepNone run.groups) }
        ensures extends { let p = checked_plan settings.now.checked.now in
            (before records : List OneRecord) → settings.now.most ≡ 0 → self.bad ≡ None →
            chunk_records p chunk.now ≡ Ok records →
            OpenGroupsAreExtended p settings.now.limit before self.groups →
            IfOk result (λ run. (run.bad ≡ None)
            × OpenGroupsAreExtended p settings.now.limit (before ++ records) run.groups) }
        ensures passes { IfOk result (λ run. run.bad ≡ None →
            (self.bad ≡ None) × Passes chunk.now.rows cursor.old cursor.new) }
    {
        let OpenRun {
            lo,
            hi,
            groups,
            bad,
        } = self;
        if bad.is_some() {
            return Ok(OpenRun {
                lo,
                hi: hi + 1,
                groups,
                bad,
            });
        }
        let mut groups = groups;
        let bad = take_rows(alloc, settings, cursor, chunk, &mut groups, memory)?;
        Ok(OpenRun {
            lo,
            hi: hi + 1,
            groups,
            bad,
        })
    }

    /// The run with its chains closed, and with none where there is a bad row.
    pub(crate) fn close(self, alloc: Global, checked: &Checked, limit: u32) -> Result<Run, NoMemory>
        requires fits { OpenGroupsFit (checked_plan checked.now) self.groups }
        requires tight { self.bad ≡ None →
            OpenGroupsAreTight (checked_plan checked.now) limit self.groups }
        ensures chunks { IfOk result (IsFromTo self.lo self.hi) }
        ensures fits { IfOk result (λ run. GroupsFit (checked_plan checked.now) run.groups) }
        ensures tight { IfOk result (λ run. run.bad ≡ None →
            AreTight (checked_plan checked.now) limit run.groups) }
        ensures stands { (chunks : List OneChunk) →
            OpenStandsForChunks (checked_plan checked.now) limit chunks self →
            IfOk result (StandsForChunks (checked_plan checked.now) limit chunks) }
        ensures closed { OpenGroupsKeepNone self.groups →
            IfOk result (λ run. AreClosed run.groups) }
        ensures extends { (records : List OneRecord) → self.bad ≡ None →
            OpenGroupsAreExtended (checked_plan checked.now) limit records self.groups →
            IfOk result (λ run.
            GroupsAreExtended (checked_plan checked.now) limit records run.groups) }
    {
        let OpenRun {
            lo,
            hi,
            groups,
            bad,
        } = self;
        if bad.is_some() {
            return Ok(Run {
                lo,
                hi,
                groups: RunGroups::new(alloc),
                bad,
            });
        }
        Ok(Run {
            lo,
            hi,
            groups: close_all(alloc, checked, groups, limit)?,
            bad,
        })
    }
}
