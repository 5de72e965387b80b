//! The rounds of a log, of which each has some chunks of rows.
ghost use Rattle.std.specs.Prelude.{◌≡◌, ◌≤◌, List, IfOk, length};
ghost use Rattle.std.specs.List.{All};
ghost use Rattle.sym_check.specs.declared.plan.script.FieldPlan.{FieldPlan as OneField};
ghost use Rattle.sym_table.specs.Rows.{FitsChunk, FitsHeader};

use std::alloc::Global;
use sym_base::NoMemory;
use sym_table::{Chunks, Cutter, Spare};

/// How many rows a full chunk has.
pub(crate) const CHUNK: u32 = 3_072;

/// How many chunks a round has at most.
pub(crate) const CHUNKS: u32 = 64;

/// How many rounds are taken at most.
pub(crate) const ROUNDS: u32 = 65_536;

/// The next chunks, at most so many, of which there are none after the last row.
pub(crate) fn next_round(
    alloc: Global,
    cutter: &mut Cutter<'_>,
    spare: &mut Spare,
    most: u32,
) -> Result<Chunks, NoMemory>
    requires { most ≤ 64 }
    ensures few { IfOk result (λ chunks. length chunks ≤ 64) }
    ensures fit { (fields : List OneField) → FitsHeader fields cutter.old.header →
        IfOk result (λ chunks. All (FitsChunk fields) chunks) }
    ensures header { cutter.new.header ≡ cutter.old.header }
{
    let mut chunks = Chunks::new(alloc);
    'chunks: for _number in 0..most {
        match cutter.next_over(alloc, spare)? {
            Some(chunk) => chunks.push(chunk)?,
            None => return Ok(chunks),
        }
    }
    Ok(chunks)
}

/// Keeps the memory of a round's rows.
pub(crate) fn keep_rows(chunks: Chunks, spare: &mut Spare) {
    'chunks: for chunk in chunks.into_vec() {
        spare.keep(chunk);
    }
}
