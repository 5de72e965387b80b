//! Rounds that are folded row by row.
ghost use Rattle.std.specs.Prelude.{◌≡◌, [], IfOk};
ghost use Rattle.std.specs.List.{All};
ghost use Rattle.sym_check.specs.Checking.CheckedScripts.{checked_plan};
ghost use Rattle.sym_table.specs.ChunkRecords.{all_records, chunk_records};
ghost use Rattle.sym_table.specs.Reading.{HasNext, Passes};
ghost use Rattle.sym_table.specs.Rows.{FitsChunk};
ghost use Rattle.sym_files.specs.Rounds.{Takes};
ghost use Rattle.sym_passes.specs.Passed.{ArePassed};
ghost use Rattle.sym_files.specs.Taking.{IfTaken};

use std::alloc::Global;
use sym_base::{Fields, NoMemory, Record};
use sym_check::Checked;
use sym_files::{SequentialRounds, Took, Work};
use sym_plain::{Groups, fold_into};
use sym_table::{Chunk, Row, RowCursor, decode_into};

/// The groups of the rounds so far, and the record that was read last, over whose memory the next
/// one is made.
#[derive(Drop)]
pub(crate) struct Folded {
    pub(crate) groups: Groups,
    rec: Record,
}

impl Folded {
    /// No groups. It takes no memory.
    pub(crate) fn new(alloc: Global) -> Folded
        ensures { result.groups ≡ [] }
    {
        let fields = Fields::new(alloc);
        Folded {
            groups: Groups::new(alloc),
            rec: Record { no: 0, fields },
        }
    }
}

// Folds the rows of a chunk, which the cursor has next, each read over the memory of `row`.
fn fold_chunk(
    alloc: Global,
    checked: &Checked,
    cursor: &mut RowCursor<'_>,
    row: &mut Row,
    chunk: &Chunk,
    folded: &mut Folded,
) -> Result<Took, NoMemory>
    requires chunk { FitsChunk (checked_plan checked.now).fields chunk.now }
    requires rows { HasNext chunk.now.rows cursor.old }
    ensures takes { let p = checked_plan checked.now in
        let read = chunk_records p chunk.now in
        IfOk result (Takes (ArePassed p) read folded.old.groups folded.new.groups) }
    ensures passes { IfOk result (λ took.
        IfTaken took (Passes chunk.now.rows cursor.old cursor.new)) }
{
    let mut no = chunk.first_no;
    'rows: for _index in 0..chunk.rows.len() {
        if !cursor.read(row)? {
            return Ok(Took::Done);
        }
        let rec = &mut folded.rec;
        match decode_into(alloc, checked, &chunk.header, &row.view(), no, rec)? {
            Some(bad) => return Ok(Took::Bad(bad)),
            None => fold_into(alloc, checked, &mut folded.groups, &folded.rec)?,
        }
        no += 1;
    }
    Ok(Took::Done)
}

// Folds the rows of chunks, in order.
fn fold_chunks(
    alloc: Global,
    checked: &Checked,
    chunks: &[Chunk],
    folded: &mut Folded,
) -> Result<Took, NoMemory>
    requires { All (FitsChunk (checked_plan checked.now).fields) chunks.now }
    ensures { let p = checked_plan checked.now in
        let read = all_records p chunks.now in
        IfOk result (Takes (ArePassed p) read folded.old.groups folded.new.groups) }
{
    let mut cursor = RowCursor::over(alloc, chunks)?;
    let mut row = Row::with_room(alloc)?;
    'chunks: for chunk in chunks {
        match fold_chunk(alloc, checked, &mut cursor, &mut row, chunk, folded)? {
            Took::Done => {}
            Took::Bad(bad) => return Ok(Took::Bad(bad)),
        }
    }
    Ok(Took::Done)
}

impl SequentialRounds for Folded {
    ghost stands = { λ folded p records. ArePassed p folded.groups records };

    fn take_round(&mut self, alloc: Global, work: &Work) -> Result<Took, NoMemory> {
        fold_chunks(alloc, &work.checked, work.chunks.as_slice(), self)
    }
}
