//! Runs that grow chunk by chunk.
ghost use Rattle.std.specs.Prelude.{◌≡◌, ◌<◌, ◌≤◌, ◌+◌, ◌*◌, ℕ, List, None, Some, IfOk, OnOk, length, max, slice_get};
ghost use Rattle.sym_check.specs.Checking.CheckedScripts.{checked_plan};
ghost use Rattle.sym_check.specs.Plan.ScriptPlans.{ScriptPlan};
ghost use Rattle.sym_table.specs.declared.chunk.Chunk.{Chunk as OneChunk};
ghost use Rattle.sym_table.specs.Reading.{HasNext, Passes};
ghost use Rattle.sym_table.specs.Rows.{FitsChunk};
ghost use Rattle.sym_run.specs.OpenRuns.{IsOpenFromTo, OpenStandsForChunks};
ghost use Rattle.sym_run.specs.Opened.{OpenGroupsAreTight, OpenGroupsFit, OpenGroupsKeepNone};
ghost use Rattle.sym_run.specs.Runs.{AreClosed, AreTight, GroupsFit, IsFromTo, StandsForChunks};

use crate::memory::Memory;
use crate::open_runs::OpenRun;
use crate::runs::Run;
use crate::settings::Settings;
use std::alloc::Global;
use std::marker::Model;
use std::mem;
use sym_base::NoMemory;
use sym_check::Checked;
use sym_table::{Chunk, RowCursor};

/// The least number of records of a key that are kept where several threads make runs.
const KEPT_LEAST: u32 = 32;

/// How many records of a key a stretch keeps as they are, before it explores them, where several
/// threads make runs under this path limit: stepping them is left to the one who applies the runs.
/// They are twice as many as a segment may have paths: a script that has a path more for every
/// second record then is over the limit before a segment covers them, so that its records aren't
/// explored.
pub fn kept_most(limit: u32) -> u32
    ensures { limit ≤ 256 → result ≡ max 32 (limit * 2) }
{
    limit.saturating_mul(2).max(KEPT_LEAST)
}

/// The run of neighbouring chunks, which are taken one after the other. A contract sees the numbers
/// of those so far, an open chain for each key, and the first row that is no record.
///
/// Where the cells of a chain's last segment are known, and it has no more paths than the limit, the
/// records after it are stepped. A key's first records are kept as they are, since exploring so few
/// costs more than stepping them. The next one has them explored all, unless their segment is over
/// the limit before it covers them, or leaves cells unknown where there are many groups: then they
/// stay kept, and the key is explored no more. After four such keys no key is.
pub struct Stretch {
    run: OpenRun,
    most: u32,
    memory: Memory,
}

// Written here so that the crates above don't prove it for each type inside.
impl Drop for Stretch {
    fn drop(self) {
        let Stretch {
            run: _run,
            most: _,
            memory: _memory,
        } = self;
    }
}

impl Model for Stretch {
    ghost use Rattle.sym_run.specs.OpenRuns.{OpenedRun, open_run_code};

    ghost Value = { OpenedRun };

    ghost coded = { open_run_code };

    ghost view = { λ stretch. stretch.run };
}

impl Stretch {
    /// No chunks yet; the first one to be taken has this number. At most `most` records of a key
    /// are kept before they are explored. What the run comes to doesn't depend on it.
    pub fn new(alloc: Global, first: u32, most: u32) -> Stretch
        ensures chunks { IsOpenFromTo first first result }
        ensures fits { (p : ScriptPlan) → OpenGroupsFit p result.groups }
        ensures tight { (p : ScriptPlan) (limit : ℕ) → OpenGroupsAreTight p limit result.groups }
        ensures stands { (p : ScriptPlan) (limit : ℕ) (chunks : List OneChunk) →
            first ≤ length chunks → OpenStandsForChunks p limit chunks result }
        ensures closed { OpenGroupsKeepNone result.groups }
    {
        Stretch {
            run: OpenRun::none(alloc, first),
            most,
            memory: Memory::new(alloc),
        }
    }

    /// Takes the next chunk, whose rows the cursor has next. Each row that is a record is taken into
    /// the chain of its key, up to the first that is none. Unless there is such a row, the cursor has
    /// the rows after the chunk's next. After an `Err` the stretch and the cursor are unspecified.
    pub fn take(
        &mut self,
        alloc: Global,
        checked: &Checked,
        cursor: &mut RowCursor<'_>,
        chunk: &Chunk,
        limit: u32,
    ) -> Result<(), NoMemory>
        requires chunk { FitsChunk (checked_plan checked.now).fields chunk.now }
        requires rows { self.old.bad ≡ None → HasNext chunk.now.rows cursor.old }
        requires number { self.old.hi < 64 }
        requires fits { OpenGroupsFit (checked_plan checked.now) self.old.groups }
        requires tight { self.old.bad ≡ None →
            OpenGroupsAreTight (checked_plan checked.now) limit self.old.groups }
        ensures chunks { OnOk result (IsOpenFromTo self.old.lo (self.old.hi + 1) self.new) }
        ensures fits { OnOk result (OpenGroupsFit (checked_plan checked.now) self.new.groups) }
        ensures tight { OnOk result (self.new.bad ≡ None →
            OpenGroupsAreTight (checked_plan checked.now) limit self.new.groups) }
        ensures stands { (chunks : List OneChunk) →
            OpenStandsForChunks (checked_plan checked.now) limit chunks self.old →
            slice_get chunks self.old.hi ≡ Some chunk.now →
            OnOk result (OpenStandsForChunks (checked_plan checked.now) limit chunks self.new) }
        ensures passes { OnOk result (self.new.bad ≡ None →
            (self.old.bad ≡ None) × Passes chunk.now.rows cursor.old cursor.new) }
    {
        let run = mem::replace(&mut self.run, OpenRun::none(alloc, 0));
        let settings = &Settings {
            checked,
            limit,
            most: self.most,
        };
        self.run = run.take(alloc, settings, cursor, chunk, &mut self.memory)?;
        Ok(())
    }

    /// The run of the chunks that were taken: its chains are closed, but for the records that they
    /// keep. Where there is a bad row, it has none.
    pub fn finish(self, alloc: Global, checked: &Checked, limit: u32) -> Result<Run, NoMemory>
        requires fits { OpenGroupsFit (checked_plan checked.now) self.groups }
        requires tight { self.bad ≡ None →
            OpenGroupsAreTight (checked_plan checked.now) limit self.groups }
        ensures chunks { IfOk result (IsFromTo self.lo self.hi) }
        ensures fits { IfOk result (λ run. GroupsFit (checked_plan checked.now) run.groups) }
        ensures tight { IfOk result (λ run. run.bad ≡ None →
            AreTight (checked_plan checked.now) limit run.groups) }
        ensures stands { (chunks : List OneChunk) →
            OpenStandsForChunks (checked_plan checked.now) limit chunks self →
            IfOk result (StandsForChunks (checked_plan checked.now) limit chunks) }
        ensures closed { OpenGroupsKeepNone self.groups →
            IfOk result (λ run. AreClosed run.groups) }
    {
        let Stretch {
            run,
            most: _,
            memory: _memory,
        } = self;
        run.close(alloc, checked, limit)
    }
}
