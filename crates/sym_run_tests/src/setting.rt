//! The run of a chunk, and how what a run gives differs from what is wanted.
ghost use Rattle.std.specs.Prelude.{◌≡◌, ◌<◌, ◌+◌, List, None, Some, IfOk, slice_get};
ghost use Rattle.sym_check.specs.Checking.CheckedScripts.{checked_plan};
ghost use Rattle.sym_table.specs.Rows.{FitsChunk};
ghost use Rattle.sym_table.specs.declared.chunk.Chunk.{Chunk as OneChunk};
ghost use Rattle.sym_run.specs.Runs.{AreTight, GroupsFit, IsFromTo, StandsForChunks};

use std::alloc::Global;
use std::slice;
use sym_base::NoMemory;
use sym_check::Checked;
use sym_given::{difference, groups_differ};
use sym_plain::Groups;
use sym_run::{Applied, Run, Stretch};
use sym_table::{Chunk, RowCursor};

/// The run of the chunk with this number, of which up to `most` records of a key are kept before
/// they are explored.
pub(crate) fn stretched(
    alloc: Global,
    checked: &Checked,
    chunk: &Chunk,
    number: u32,
    limit: u32,
    most: u32,
) -> Result<Run, NoMemory>
    requires chunk { FitsChunk (checked_plan checked.now).fields chunk.now }
    requires number { number < 64 }
    ensures chunks { IfOk result (IsFromTo number (number + 1)) }
    ensures fits { IfOk result (λ run. GroupsFit (checked_plan checked.now) run.groups) }
    ensures tight { IfOk result (λ run. run.bad ≡ None →
        AreTight (checked_plan checked.now) limit run.groups) }
    ensures stands { (chunks : List OneChunk) → slice_get chunks number ≡ Some chunk.now →
        IfOk result (StandsForChunks (checked_plan checked.now) limit chunks) }
{
    let mut cursor = RowCursor::over(alloc, slice::from_ref(chunk))?;
    let mut stretch = Stretch::new(alloc, number, most);
    stretch.take(alloc, checked, &mut cursor, chunk, limit)?;
    stretch.finish(alloc, checked, limit)
}

/// What is said of the chunks of a log that has to have one.
pub(crate) fn not_one(alloc: Global, chunks: &[Chunk]) -> Result<Option<String>, NoMemory> {
    let count = chunks.len();
    Ok(Some(format!(in alloc; "found {count} chunks, wanted 1")?))
}

/// How what a run gives differs from the groups that are wanted.
pub(crate) fn given_differs(
    alloc: Global,
    given: &Applied,
    wanted: &Groups,
) -> Result<Option<String>, NoMemory> {
    match given {
        Applied::Done(groups) => groups_differ(alloc, groups, wanted),
        Applied::Bad(bad) => Ok(Some(format!(in alloc; "found {bad:?}, wanted groups")?)),
    }
}

/// How what a run gives differs from what another gives.
pub(crate) fn applied_differs(
    alloc: Global,
    given: &Applied,
    other: &Applied,
) -> Result<Option<String>, NoMemory> {
    match other {
        Applied::Done(groups) => given_differs(alloc, given, groups),
        Applied::Bad(wanted) => match given {
            Applied::Bad(bad) => difference(alloc, bad, wanted),
            Applied::Done(_) => Ok(Some(format!(in alloc; "found groups, wanted {wanted:?}")?)),
        },
    }
}
