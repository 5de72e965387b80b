//! Passes over a log: record by record, and by the runs of its rounds.
ghost use Rattle.std.specs.Prelude.{◌≤◌, All, IfOk, length};
ghost use Rattle.sym_check.specs.Checking.CheckedScripts.{checked_plan};
ghost use Rattle.sym_table.specs.Rows.{FitsChunk, FitsHeader};
ghost use Rattle.sym_run.specs.Applying.{AreValid};
ghost use Rattle.sym_run.specs.Runs.{StandsForChunks};

use crate::rounds::{CHUNKS, ROUNDS, keep_rows, next_round};
use crate::stop::Stop;
use std::alloc::Global;
use std::mem;
use sym_base::{Fields, NoMemory, Record};
use sym_check::Checked;
use sym_plain::{Groups, fold_into};
use sym_run::{Applied, Run, of_chunk, of_chunks};
use sym_table::{Chunk, Cutter, Row, RowCursor, Spare, decode_into};

/// Only cuts the rows: how many there are.
pub(crate) fn cut_rows(alloc: Global, cutter: &mut Cutter<'_>) -> Result<usize, Stop> {
    let mut spare = Spare::new(alloc);
    let mut count = 0usize;
    'rounds: for _round in 0..ROUNDS {
        let chunks = next_round(alloc, cutter, &mut spare, CHUNKS)?;
        if chunks.is_empty() {
            return Ok(count);
        }
        count = count.wrapping_add(chunks.len());
        keep_rows(chunks, &mut spare);
    }
    Err(Stop::Input)
}

/// The memory that rows and their records are read over.
#[derive(Drop)]
struct Buffers {
    row: Row,
    rec: Record,
}

/// Folds the rows of a chunk, which the cursor has next, over the memory of a row and of a record.
fn fold_chunk(
    alloc: Global,
    checked: &Checked,
    cursor: &mut RowCursor<'_>,
    chunk: &Chunk,
    groups: &mut Groups,
    buffers: &mut Buffers,
) -> Result<(), Stop>
    requires { FitsChunk (checked_plan checked.now).fields chunk.now }
{
    let Buffers { row, rec } = buffers;
    'rows: for index in 0..chunk.rows.len() {
        let no = chunk.first_no.wrapping_add(index as u64);
        if !cursor.read(row)? {
            return Err(Stop::Input);
        }
        if decode_into(alloc, checked, &chunk.header, &row.view(), no, rec)?.is_some() {
            return Err(Stop::Input);
        }
        fold_into(alloc, checked, groups, rec)?;
    }
    Ok(())
}

fn fold_chunks(
    alloc: Global,
    checked: &Checked,
    chunks: &[Chunk],
    groups: &mut Groups,
    buffers: &mut Buffers,
) -> Result<(), Stop>
    requires { All (FitsChunk (checked_plan checked.now).fields) chunks.now }
{
    let mut cursor = RowCursor::over(alloc, chunks)?;
    'chunks: for chunk in chunks {
        fold_chunk(alloc, checked, &mut cursor, chunk, groups, buffers)?;
    }
    Ok(())
}

/// The groups of the rows that are left, folded record by record.
pub(crate) fn fold_rows(
    alloc: Global,
    checked: &Checked,
    cutter: &mut Cutter<'_>,
) -> Result<Groups, Stop>
    requires { FitsHeader (checked_plan checked.now).fields cutter.old.header }
{
    let mut spare = Spare::new(alloc);
    let mut groups = Groups::new(alloc);
    let mut buffers = Buffers {
        row: Row::with_room(alloc)?,
        rec: Record {
            no: 0,
            fields: Fields::new(alloc),
        },
    };
    'rounds: for _round in 0..ROUNDS {
        let chunks = next_round(alloc, cutter, &mut spare, CHUNKS)?;
        if chunks.is_empty() {
            return Ok(groups);
        }
        fold_chunks(alloc, checked, chunks.as_slice(), &mut groups, &mut buffers)?;
        keep_rows(chunks, &mut spare);
    }
    Err(Stop::Input)
}

/// The run of a round: that of each chunk, joined to the right of those before it.
fn joined_run(
    alloc: Global,
    checked: &Checked,
    chunks: &[Chunk],
    limit: u32,
) -> Result<Run, NoMemory>
    requires fit { All (FitsChunk (checked_plan checked.now).fields) chunks.now }
    requires few { length chunks.now ≤ 64 }
    requires some { 1 ≤ length chunks.now }
    ensures { IfOk result (StandsForChunks (checked_plan checked.now) limit chunks.now) }
{
    let mut run = of_chunk(alloc, checked, &chunks[0], 0, limit)?;
    'chunks: for number in 1..chunks.len() {
        let next = of_chunk(alloc, checked, &chunks[number], number as u32, limit)?;
        run = run.join(alloc, checked, next, limit)?;
    }
    Ok(run)
}

/// The groups after a round's run.
fn led_by(
    alloc: Global,
    checked: &Checked,
    chunks: &[Chunk],
    groups: Groups,
    limit: u32,
    joins: bool,
) -> Result<Groups, Stop>
    requires fit { All (FitsChunk (checked_plan checked.now).fields) chunks.now }
    requires few { length chunks.now ≤ 64 }
    requires some { 1 ≤ length chunks.now }
    requires valid { AreValid (checked_plan checked.now) groups }
    ensures { IfOk result (AreValid (checked_plan checked.now)) }
{
    let run = if joins {
        joined_run(alloc, checked, chunks, limit)?
    } else {
        of_chunks(alloc, checked, chunks, limit)?
    };
    let mut applied = run.apply(alloc, checked, groups)?;
    match &mut applied {
        Applied::Done(groups) => Ok(mem::replace(groups, Groups::new(alloc))),
        Applied::Bad(_) => Err(Stop::Input),
    }
}

/// The groups of the rows that are left, by the runs of rounds of at most so many chunks, of which
/// each is extended or joined chunk by chunk.
pub(crate) fn run_rows(
    alloc: Global,
    checked: &Checked,
    cutter: &mut Cutter<'_>,
    limit: u32,
    most: u32,
    joins: bool,
) -> Result<Groups, Stop>
    requires { FitsHeader (checked_plan checked.now).fields cutter.old.header }
{
    let most = most.min(CHUNKS);
    let mut spare = Spare::new(alloc);
    let mut groups = Groups::new(alloc);
    'rounds: for _round in 0..ROUNDS {
        let chunks = next_round(alloc, cutter, &mut spare, most)?;
        if chunks.is_empty() {
            return Ok(groups);
        }
        groups = led_by(alloc, checked, chunks.as_slice(), groups, limit, joins)?;
        keep_rows(chunks, &mut spare);
    }
    Err(Stop::Input)
}
