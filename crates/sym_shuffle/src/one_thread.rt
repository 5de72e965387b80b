//! A round on one thread, record by record.
ghost use Rattle.std.specs.Prelude.{◌≡◌, IfNone, IfOk};
ghost use Rattle.std.specs.List.{All};
ghost use Rattle.sym_check.specs.Checking.CheckedScripts.{checked_plan};
ghost use Rattle.sym_shuffle.specs.Begun.{AreValid, groups_after};
ghost use Rattle.sym_shuffle.specs.Folding.{Folds};
ghost use Rattle.sym_table.specs.ChunkRecords.{all_records, chunk_records};
ghost use Rattle.sym_table.specs.Reading.{HasNext, Passes};
ghost use Rattle.sym_table.specs.Rows.{FitsChunk};

use crate::entry::Enter;
use std::alloc::Global;
use sym_base::{Fields, NoMemory, Record};
use sym_check::Checked;
use sym_plain::laws::records_keep_groups_valid;
use sym_plain::{Groups, fold_into};
use sym_table::{Bad, Chunk, Row, RowCursor, decode_into};

// Memory that is used again for each row.
#[derive(Drop)]
struct Memory {
    row: Row,
    rec: Record,
}

impl Memory {
    // Room for a row; a record takes its own as it comes.
    fn new(alloc: Global) -> Result<Memory, NoMemory> {
        Ok(Memory {
            row: Row::with_room(alloc)?,
            rec: Record {
                no: 0,
                fields: Fields::new(alloc),
            },
        })
    }
}

// Folds the rows of a chunk, which the cursor has next, up to the first that is no record.
fn fold_chunk(
    alloc: Global,
    checked: &Checked,
    cursor: &mut RowCursor<'_>,
    chunk: &Chunk,
    groups: &mut Groups,
    memory: &mut Memory,
) -> Result<Option<Bad>, NoMemory>
    requires chunk { FitsChunk (checked_plan checked.now).fields chunk.now }
    requires rows { HasNext chunk.now.rows cursor.old }
    ensures folds { let p = checked_plan checked.now in
        let read = chunk_records p chunk.now in
        IfOk result (λ bad. Folds p read groups.old bad groups.new) }
    ensures passes { IfOk result (λ bad.
        IfNone bad (Passes chunk.now.rows cursor.old cursor.new)) }
{
    let mut no = chunk.first_no;
    'rows: for _index in 0..chunk.rows.len() {
        if !cursor.read(&mut memory.row)? {
            return Ok(None);
        }
        let view = memory.row.view();
        let bad = decode_into(alloc, checked, &chunk.header, &view, no, &mut memory.rec)?;
        if bad.is_some() {
            return Ok(bad);
        }
        fold_into(alloc, checked, groups, &memory.rec)?;
        no += 1;
    }
    Ok(None)
}

/// The groups after the records of chunks, or the first of their rows that is no record. Each
/// record makes one step of its group, in order, on this thread, which tells `hold` of each chunk.
///
/// `NoMemory` where an allocation failed.
pub fn folded<E: Enter>(
    alloc: Global,
    checked: &Checked,
    chunks: &[Chunk],
    groups: Groups,
    hold: &E,
) -> Result<Result<Groups, Bad>, NoMemory>
    requires fit { All (FitsChunk (checked_plan checked.now).fields) chunks.now }
    requires valid { AreValid (checked_plan checked.now) groups }
    ensures groups { let p = checked_plan checked.now in
        let read = all_records p chunks.now in
        IfOk result (λ led. led ≡ groups_after p read groups) }
    ensures valid { IfOk result (λ led. IfOk led (AreValid (checked_plan checked.now))) }
{
    records_keep_groups_valid();
    let _plan = checked.plan();
    let mut groups = groups;
    let mut cursor = RowCursor::over(alloc, chunks)?;
    let mut memory = Memory::new(alloc)?;
    let mut number: u32 = 0;
    'chunks: for chunk in chunks {
        hold.enter(0, number);
        let bad = fold_chunk(alloc, checked, &mut cursor, chunk, &mut groups, &mut memory)?;
        if let Some(bad) = bad {
            return Ok(Err(bad));
        }
        number = number.saturating_add(1);
    }
    Ok(Ok(groups))
}
