//! The next round of a file.
ghost use Rattle.std.specs.Prelude.{◌≡◌, ◌≤◌, ◌<◌, List, [], Some, IfOk, IsSome, OnOk, OnErr, length};
ghost use Rattle.std.specs.List.{All};
ghost use Rattle.sym_base.specs.declared.limits.TheConstants as limit;
ghost use Rattle.sym_check.specs.Checking.CheckedScripts.{checked_plan};
ghost use Rattle.sym_check.specs.declared.plan.script.FieldPlan.{FieldPlan as OneField};
ghost use Rattle.sym_table.specs.Rows.{FitsChunk, FitsHeader};
ghost use Rattle.sym_files.specs.Taking.{AreCut, CutsRound, IfTaken, full_round, rows_of};

use crate::rounds::{Took, Work};
use std::alloc::Global;
use std::mem;
use sym_base::{CHUNKS_MAX, NoMemory};
use sym_table::{Chunks, Cutter, Spare};

/// The chunks of the next round: as many as a round may have, or the fewer that are left. There are
/// none exactly where no row is left.
pub(crate) fn next_round(
    alloc: Global,
    cutter: &mut Cutter<'_>,
    spare: &mut Spare,
) -> Result<Chunks, NoMemory>
    requires { IsSome cutter.old.left }
    ensures cut { IfOk result (λ chunks. AreCut cutter.old cutter.new chunks) }
    ensures most { IfOk result (λ chunks. length chunks ≤ limit.CHUNKS_MAX) }
    ensures ended { IfOk result (λ chunks. chunks ≡ [] → cutter.old.left ≡ Some []) }
    ensures fit { (fields : List OneField) → FitsHeader fields cutter.old.header →
        IfOk result (λ chunks. All (FitsChunk fields) chunks) }
    ensures header { cutter.new.header ≡ cutter.old.header }
    ensures chunk { cutter.new.chunk ≡ cutter.old.chunk }
    ensures rows { IfOk result (λ chunks. length (rows_of chunks) ≤ full_round cutter.old.chunk) }
    ensures full { IfOk result (λ chunks.
        length (rows_of chunks) < full_round cutter.old.chunk → cutter.new.left ≡ Some []) }
{
    let mut chunks = Chunks::new(alloc);
    'chunks: for _number in 0..CHUNKS_MAX {
        match cutter.next_over(alloc, spare)? {
            Some(chunk) => chunks.push(chunk)?,
            None => return Ok(chunks),
        }
    }
    Ok(chunks)
}

/// Gives a work other chunks, and keeps the rows of those that it had.
pub(crate) fn replace_chunks(work: &mut Work, chunks: Chunks, spare: &mut Spare)
    ensures chunks { work.new.chunks ≡ chunks }
    ensures checked { checked_plan work.new.checked ≡ checked_plan work.old.checked }
    ensures limit { work.new.limit ≡ work.old.limit }
{
    let done = mem::replace(&mut work.chunks, chunks);
    'chunks: for chunk in done.into_vec() {
        spare.keep(chunk);
    }
}

/// Gives a work the next round of a file, over the rows of the one that it had.
pub(crate) fn cut_round(
    alloc: Global,
    work: &mut Work,
    cutter: &mut Cutter<'_>,
    spare: &mut Spare,
) -> Result<(), NoMemory>
    requires { IsSome cutter.old.left }
    ensures cut { OnOk result (CutsRound cutter.old cutter.new work.new.chunks) }
    ensures checked { checked_plan work.new.checked ≡ checked_plan work.old.checked }
    ensures limit { work.new.limit ≡ work.old.limit }
{
    replace_chunks(work, Chunks::new(alloc), spare);
    let chunks = next_round(alloc, cutter, spare)?;
    work.chunks = chunks;
    Ok(())
}

/// What a round came to; and where its records were taken, the next round in its place.
pub(crate) fn then_cut(
    alloc: Global,
    took: Took,
    work: &mut Work,
    cutter: &mut Cutter<'_>,
    spare: &mut Spare,
) -> Result<Took, NoMemory>
    requires { IsSome cutter.old.left }
    ensures took { IfOk result (λ t. t ≡ took) }
    ensures done { OnErr result (took ≡ Took.Done) }
    ensures next { IfOk result (λ t.
        IfTaken t (CutsRound cutter.old cutter.new work.new.chunks)) }
    ensures checked { checked_plan work.new.checked ≡ checked_plan work.old.checked }
    ensures limit { work.new.limit ≡ work.old.limit }
{
    match took {
        Took::Done => cut_round(alloc, work, cutter, spare)?,
        Took::Bad(_) => {}
    }
    Ok(took)
}
