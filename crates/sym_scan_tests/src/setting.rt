//! The rounds of a log.
ghost use Rattle.std.specs.Prelude.{IfOk};
ghost use Rattle.std.specs.List.{All};
ghost use Rattle.sym_check.specs.Checking.CheckedScripts.{checked_plan};
ghost use Rattle.sym_table.specs.Rows.{FitsChunk, FitsHeader};

use std::alloc::Global;
use sym_base::NoMemory;
use sym_check::Checked;
use sym_given::{chunks_of, next_chunks};
use sym_table::{Chunks, Cutter};

/// The most chunks of a round.
const CHUNKS: usize = 64;

/// The next round of a log; none if no row is left.
pub(crate) fn next_round(
    alloc: Global,
    checked: &Checked,
    cutter: &mut Cutter<'_>,
) -> Result<Chunks, NoMemory>
    requires header { FitsHeader (checked_plan checked.now).fields cutter.old.header }
    ensures header { FitsHeader (checked_plan checked.now).fields cutter.new.header }
    ensures fit { IfOk result (All (FitsChunk (checked_plan checked.now).fields)) }
{
    Ok(Chunks::of(next_chunks(alloc, checked, cutter, CHUNKS)?))
}

/// The first round of a log; none if the log has no header of the script.
pub(crate) fn round_of(
    alloc: Global,
    checked: &Checked,
    log: &str,
    rows: u32,
) -> Result<Chunks, NoMemory>
    ensures { IfOk result (All (FitsChunk (checked_plan checked.now).fields)) }
{
    Ok(Chunks::of(chunks_of(alloc, checked, log, rows, CHUNKS)?))
}
