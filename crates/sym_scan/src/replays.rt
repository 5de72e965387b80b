//! Chunks that are replayed from how groups stand before them.
ghost use Rattle.std.specs.Prelude.{◌≡◌, ◌≤◌, ◌++◌, [], IfNone, IfOk, OnOk, if◌then◌else◌};
ghost use Rattle.std.specs.List.{All};
ghost use Rattle.std.specs.Map.{lookup};
ghost use Rattle.sym_check.specs.Checking.CheckedScripts.{checked_plan};
ghost use Rattle.sym_check.specs.Meaning.Groups.{is_key, key_of};
ghost use Rattle.sym_plain.specs.Pairs.{after_record};
ghost use Rattle.sym_table.specs.ChunkRecords.{all_records, chunk_records};
ghost use Rattle.sym_table.specs.Reading.{HasNext, Passes};
ghost use Rattle.sym_table.specs.Rows.{FitsChunk};
ghost use Rattle.sym_scan.specs.Replays.{GoesOn, replayed_to, row_of};
ghost use Rattle.sym_scan.specs.Traces.{is_shown};

use crate::rows::{TraceRow, TraceRows};
use crate::starts::Starts;
use std::alloc::Global;
use std::slice;
use sym_base::{Fields, Key, NoMemory, Record, Values};
use sym_check::Checked;
use sym_plain::{Groups, fold_into, key_into};
use sym_table::{Bad, Chunk, Row, RowCursor, decode_into};

/// What chunks come to.
#[derive(Drop)]
pub enum Replayed {
    /// The rows of those of their records that are shown.
    Rows(TraceRows),
    /// Their first row that is no record.
    Bad(Bad),
}

impl Replayed {
    /// An equal answer of its own.
    pub fn copy(&self, alloc: Global) -> Result<Replayed, NoMemory>
        ensures { IfOk result (λ replayed. replayed ≡ self.now) }
    {
        match self {
            Replayed::Rows(rows) => Ok(Replayed::Rows(rows.copy(alloc)?)),
            Replayed::Bad(bad) => Ok(Replayed::Bad(*bad)),
        }
    }
}

/// The groups as they stand, and the rows so far. The record and the key are those that were made
/// last, over whose memory the next ones are made.
#[derive(Drop)]
pub(crate) struct Progress {
    pub(crate) groups: Groups,
    pub(crate) rows: Vec<TraceRow>,
    rec: Record,
    key: Key,
}

impl Progress {
    /// No rows yet. It takes no memory.
    pub(crate) fn new(alloc: Global, groups: Groups) -> Progress
        ensures groups { result.groups ≡ groups }
        ensures rows { result.rows.items ≡ [] }
    {
        Progress {
            groups,
            rows: Vec::new(alloc),
            rec: Record {
                no: 0,
                fields: Fields::new(alloc),
            },
            key: Key {
                values: Values::new(alloc),
            },
        }
    }

    /// The rows, and the groups as they stand. It takes no memory.
    pub(crate) fn into_parts(self) -> (TraceRows, Groups)
        ensures rows { result.0 ≡ self.rows.items }
        ensures groups { result.1 ≡ self.groups }
    {
        let Progress {
            groups,
            rows,
            rec: _rec,
            key: _key,
        } = self;
        (TraceRows::of(rows), groups)
    }
}

// A script, and every how many records a row is shown.
#[derive(Clone, Copy)]
struct TracedScript<'a> {
    checked: &'a Checked,
    every: u64,
}

// Adds the row of a record with this number and key. The key and the group are copied.
fn push_row(
    alloc: Global,
    no: u64,
    key: &Key,
    groups: &Groups,
    rows: &mut Vec<TraceRow>,
) -> Result<(), NoMemory>
    ensures { let found = lookup (is_key key.now) groups.now in
        OnOk result (rows.new.items ≡ rows.old.items ++ row_of no key.now found) }
{
    if let Some(outcome) = groups.find(key) {
        rows.push(TraceRow {
            no,
            key: key.copy(alloc)?,
            outcome: outcome.copy(alloc)?,
        })?;
    }
    Ok(())
}

// Takes the record that was read: its group makes its step and, if the record is shown, there is a
// row more.
fn take_record(
    alloc: Global,
    script: &TracedScript<'_>,
    progress: &mut Progress,
) -> Result<(), NoMemory>
    requires { 1 ≤ script.now.every }
    ensures groups { let p = checked_plan script.now.checked.now in
        OnOk result (progress.new.groups ≡ after_record p progress.old.rec progress.old.groups) }
    ensures rows { let rec = progress.old.rec in
        let key = key_of (checked_plan script.now.checked.now) rec in
        let row = row_of rec.no key (lookup (is_key key) progress.new.groups) in
        OnOk result (progress.new.rows.items
        ≡ progress.old.rows.items ++ (if is_shown script.now.every rec then row else [])) }
{
    fold_into(alloc, script.checked, &mut progress.groups, &progress.rec)?;
    if progress.rec.no % script.every == 0 {
        key_into(alloc, script.checked, &progress.rec, &mut progress.key)?;
        push_row(
            alloc,
            progress.rec.no,
            &progress.key,
            &progress.groups,
            &mut progress.rows,
        )?;
    }
    Ok(())
}

// Takes the records of a chunk's rows, which the cursor has next, up to the first row that is none.
// Each is read over the memory of `row`.
fn take_rows(
    alloc: Global,
    script: &TracedScript<'_>,
    cursor: &mut RowCursor<'_>,
    row: &mut Row,
    chunk: &Chunk,
    progress: &mut Progress,
) -> Result<Option<Bad>, NoMemory>
    requires chunk { FitsChunk (checked_plan script.now.checked.now).fields chunk.now }
    requires rows { HasNext chunk.now.rows cursor.old }
    requires every { 1 ≤ script.now.every }
    ensures goes { let p = checked_plan script.now.checked.now in
        let read = chunk_records p chunk.now in
        IfOk result (λ bad. GoesOn p script.now.every read progress.old bad progress.new) }
    ensures passes { IfOk result (λ bad.
        IfNone bad (Passes chunk.now.rows cursor.old cursor.new)) }
{
    'rows: for index in 0..chunk.rows.len() {
        let no = chunk.first_no + index as u64;
        if !cursor.read(row)? {
            return Ok(None);
        }
        let rec = &mut progress.rec;
        let bad = decode_into(alloc, script.checked, &chunk.header, &row.view(), no, rec)?;
        if bad.is_some() {
            return Ok(bad);
        }
        take_record(alloc, script, progress)?;
    }
    Ok(None)
}

/// Takes the records of chunks in order, up to the first row that is none.
pub(crate) fn take_chunks(
    alloc: Global,
    checked: &Checked,
    chunks: &[Chunk],
    every: u64,
    progress: &mut Progress,
) -> Result<Option<Bad>, NoMemory>
    requires chunks { All (FitsChunk (checked_plan checked.now).fields) chunks.now }
    requires every { 1 ≤ every }
    ensures { let p = checked_plan checked.now in
        let found = all_records p chunks.now in
        IfOk result (λ bad. GoesOn p every found progress.old bad progress.new) }
{
    let script = TracedScript { checked, every };
    let mut cursor = RowCursor::over(alloc, chunks)?;
    let mut row = Row::with_room(alloc)?;
    'chunks: for chunk in chunks {
        let taken = take_rows(alloc, &script, &mut cursor, &mut row, chunk, progress)?;
        if let Some(bad) = taken {
            return Ok(Some(bad));
        }
    }
    Ok(None)
}

/// The rows of those of the chunks' records whose numbers `every` divides, in order: how the
/// record's group stands after it, which began with its start or, if it has none, with the initial
/// state. `Bad` exactly where a row is no record: the first such row. The starts are led on where
/// they are; a row that is shown gets copies of its key and of how its group stands.
///
/// `NoMemory` where an allocation failed.
pub fn replay_all(
    alloc: Global,
    checked: &Checked,
    chunks: &[Chunk],
    every: u64,
    starts: Starts,
) -> Result<Replayed, NoMemory>
    requires chunks { All (FitsChunk (checked_plan checked.now).fields) chunks.now }
    requires every { 1 ≤ every }
    ensures { let p = checked_plan checked.now in
        IfOk result (λ replayed. replayed ≡ replayed_to p every starts (all_records p chunks.now)) }
{
    let mut progress = Progress::new(alloc, starts.into_groups());
    match take_chunks(alloc, checked, chunks, every, &mut progress)? {
        Some(bad) => Ok(Replayed::Bad(bad)),
        None => Ok(Replayed::Rows(progress.into_parts().0)),
    }
}

/// `replay_all` of one chunk, from starts that stay and are copied.
pub fn replay(
    alloc: Global,
    checked: &Checked,
    chunk: &Chunk,
    every: u64,
    starts: &Starts,
) -> Result<Replayed, NoMemory>
    requires chunk { FitsChunk (checked_plan checked.now).fields chunk.now }
    requires every { 1 ≤ every }
    ensures { let p = checked_plan checked.now in
        let found = chunk_records p chunk.now in
        IfOk result (λ replayed. replayed ≡ replayed_to p every starts.now found) }
{
    let starts = starts.copy(alloc)?;
    replay_all(alloc, checked, slice::from_ref(chunk), every, starts)
}
