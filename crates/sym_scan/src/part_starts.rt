//! How groups stand before each part of a round.
ghost use Rattle.std.specs.Prelude.{ℕ, List, IfOk, length};
ghost use Rattle.std.specs.List.{All};
ghost use Rattle.sym_check.specs.Checking.CheckedScripts.{checked_plan};
ghost use Rattle.sym_table.specs.declared.chunk.Chunk.{Chunk as OneChunk};
ghost use Rattle.sym_table.specs.ChunkRecords.{all_records};
ghost use Rattle.sym_run.specs.Applying.{AreValid};
ghost use Rattle.sym_run.specs.Runs.{IsFromTo, GroupsFit, StandsForChunks};
ghost use Rattle.sym_scan.specs.Parts.{AreRuns, StartsAll, StartsFrom};

use crate::parts::Part;
use crate::starts::Starts;
use std::alloc::Global;
use std::mem;
use sym_base::NoMemory;
use sym_check::Checked;
use sym_plain::Groups;
use sym_run::{Applied, Run};
use sym_table::Bad;

/// A part and the run of its chunks.
#[derive(Drop)]
pub(crate) struct PartRun {
    pub(crate) part: Part,
    pub(crate) run: Run,
}

/// A part, and how the groups of its keys stand before it.
#[derive(Drop)]
pub(crate) struct PartStarts {
    pub(crate) part: Part,
    pub(crate) starts: Starts,
}

/// Where a part starts from, or its first row that is no record.
#[derive(Drop)]
enum Started {
    From(Starts),
    Bad(Bad),
}

/// Where all parts start from, or their first row that is no record.
#[derive(Drop)]
pub(crate) enum AllStarted {
    From(Vec<PartStarts>),
    Bad(Bad),
}

// Takes the starts of a run's keys, and then applies the run to the groups.
fn start(
    alloc: Global,
    checked: &Checked,
    run: Run,
    groups: &mut Groups,
) -> Result<Started, NoMemory>
    requires fits { GroupsFit (checked_plan checked.now) run.groups }
    requires valid { AreValid (checked_plan checked.now) groups.old }
    ensures valid { IfOk result (λ started. AreValid (checked_plan checked.now) groups.new) }
    ensures starts { (limit : ℕ) (chunks : List OneChunk) → IsFromTo 0 (length chunks) run →
        StandsForChunks (checked_plan checked.now) limit chunks run →
        let found = all_records (checked_plan checked.now) chunks in
        IfOk result (λ started.
        StartsFrom (checked_plan checked.now) found groups.old started groups.new) }
{
    let starts = Starts::of(alloc, &run, groups)?;
    let before = mem::replace(groups, Groups::new(alloc));
    match run.apply(alloc, checked, before)? {
        Applied::Done(after) => {
            *groups = after;
            Ok(Started::From(starts))
        }
        Applied::Bad(bad) => Ok(Started::Bad(bad)),
    }
}

/// Takes the starts of each part's keys while the runs are applied to the groups in order.
pub(crate) fn start_all(
    alloc: Global,
    checked: &Checked,
    runs: Vec<PartRun>,
    groups: &mut Groups,
) -> Result<AllStarted, NoMemory>
    requires fits { All (λ ran. GroupsFit (checked_plan checked.now) ran.run.groups) runs.items }
    requires valid { AreValid (checked_plan checked.now) groups.old }
    ensures valid { IfOk result (λ started. AreValid (checked_plan checked.now) groups.new) }
    ensures starts { (limit every : ℕ) (chunks : List OneChunk) →
        AreRuns (checked_plan checked.now) limit chunks 0 (length chunks) runs.items →
        let p = checked_plan checked.now in
        IfOk result (λ started.
        StartsAll p every chunks (all_records p chunks) groups.old started groups.new) }
{
    let mut parts = Vec::with_capacity(alloc, runs.len())?;
    'parts: for ran in runs {
        let PartRun { part, run } = ran;
        match start(alloc, checked, run, groups)? {
            Started::From(starts) => parts.push(PartStarts { part, starts })?,
            Started::Bad(bad) => return Ok(AllStarted::Bad(bad)),
        }
    }
    Ok(AllStarted::From(parts))
}
