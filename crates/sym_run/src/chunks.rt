//! Runs that take on the rows of a chunk.
ghost use Rattle.std.specs.Prelude.{◌≡◌, ◌<◌, ◌≤◌, ◌+◌, ◌++◌, All, List, None, Some, Ok, IfNone, IfOk, length, slice_get};
ghost use Rattle.sym_base.specs.declared.values.record.Record.{Record as OneRecord};
ghost use Rattle.sym_check.specs.Checking.CheckedScripts.{checked_plan};
ghost use Rattle.sym_plain.specs.Pairs.{HaveDistinctKeys};
ghost use Rattle.sym_table.specs.ChunkRecords.{all_records, chunk_records};
ghost use Rattle.sym_table.specs.Reading.{HasNext, Passes};
ghost use Rattle.sym_table.specs.Rows.{FitsChunk};
ghost use Rattle.sym_table.specs.declared.chunk.Chunk.{Chunk as OneChunk};
ghost use Rattle.sym_run.specs.Growing.{TakesOn};
ghost use Rattle.sym_run.specs.Opened.{OpenGroupsAreExtended, OpenGroupsAreTight, OpenGroupsFit, OpenGroupsKeepNone};
ghost use Rattle.sym_run.specs.Runs.{AreClosed, GroupsAreExtended, GroupsFit, IsFromTo, StandsForChunks};

use crate::chain_records::take_record;
use crate::memory::Memory;
use crate::opened::Open;
use crate::runs::Run;
use crate::settings::Settings;
use indexmap::IndexMap;
use std::alloc::Global;
use sym_base::{Key, NoMemory};
use sym_check::Checked;
use sym_reads::read_fields;
use sym_table::{Bad, Chunk, Row, RowCursor, decode_into};

/// Takes the records of a chunk's rows, which the cursor has next, into the chains of their keys,
/// after those that these stand for, up to the first row that is no record. A key's first records
/// are kept as they are, as many as the settings say.
pub(crate) fn take_rows(
    alloc: Global,
    settings: &Settings<'_>,
    cursor: &mut RowCursor<'_>,
    chunk: &Chunk,
    map: &mut IndexMap<Key, Open>,
    memory: &mut Memory,
) -> Result<Option<Bad>, NoMemory>
    requires chunk { FitsChunk (checked_plan settings.now.checked.now).fields chunk.now }
    requires rows { HasNext chunk.now.rows cursor.old }
    requires fits { OpenGroupsFit (checked_plan settings.now.checked.now) map.old.entries }
    requires tight { OpenGroupsAreTight (checked_plan settings.now.checked.now) settings.now.limit
        map.old.entries }
    requires distinct { HaveDistinctKeys map.old.entries }
    ensures found { let p = checked_plan settings.now.checked.now in IfOk result (λ bad.
        TakesOn p settings.now.limit (chunk_records p chunk.now)
        map.old.entries bad map.new.entries) }
    ensures fits { IfOk result (λ bad.
        OpenGroupsFit (checked_plan settings.now.checked.now) map.new.entries) }
    ensures closed { settings.now.most ≡ 0 → OpenGroupsKeepNone map.old.entries →
        IfOk result (λ bad. OpenGroupsKeepNone map.new.entries) }
    ensures extends { let p = checked_plan settings.now.checked.now in
        (before records : List OneRecord) → settings.now.most ≡ 0 →
        chunk_records p chunk.now ≡ Ok records →
        OpenGroupsAreExtended p settings.now.limit before map.old.entries →
        IfOk result (λ bad.
        OpenGroupsAreExtended p settings.now.limit (before ++ records) map.new.entries) }
    ensures distinct { HaveDistinctKeys map.new.entries }
    ensures passes { IfOk result (λ bad.
        IfNone bad (Passes chunk.now.rows cursor.old cursor.new)) }
{
    let mut row = Row::with_room(alloc)?;
    let reads = read_fields(alloc, settings.checked)?;
    'rows: for index in 0..chunk.rows.len() {
        let no = chunk.first_no + index as u64;
        if !cursor.read(&mut row)? {
            return Ok(None);
        }
        let bad = decode_into(
            alloc,
            settings.checked,
            &chunk.header,
            &row.view(),
            no,
            &mut memory.rec,
        )?;
        if bad.is_some() {
            return Ok(bad);
        }
        take_record(alloc, settings, map, reads.as_slice(), memory)?;
    }
    Ok(None)
}

/// The run of the chunk with this number. Each row that is a record is taken into the chain of its
/// key: the last segment is extended, or, if that gives more than `limit` paths, the record's own
/// is pushed. The first row that is no record ends the run. Rows are read where they are. No record
/// is kept as it is.
pub fn of_chunk(
    alloc: Global,
    checked: &Checked,
    chunk: &Chunk,
    number: u32,
    limit: u32,
) -> Result<Run, NoMemory>
    requires chunk { FitsChunk (checked_plan checked.now).fields chunk.now }
    requires number { number < 64 }
    ensures chunks { IfOk result (IsFromTo number (number + 1)) }
    ensures fits { IfOk result (λ run. GroupsFit (checked_plan checked.now) run.groups) }
    ensures stands { (chunks : List OneChunk) → slice_get chunks number ≡ Some chunk.now →
        IfOk result (StandsForChunks (checked_plan checked.now) limit chunks) }
    ensures closed { IfOk result (λ run. AreClosed run.groups) }
    ensures extends { (records : List OneRecord) →
        chunk_records (checked_plan checked.now) chunk.now ≡ Ok records →
        IfOk result (λ run.
        GroupsAreExtended (checked_plan checked.now) limit records run.groups) }
{
    Run::none(alloc, number).extend(alloc, checked, chunk, limit)
}

/// The run of all of the chunks: that of the first one, which takes on the others in turn. For
/// callers who have the chunks in one list: other workers join the runs of theirs.
pub fn of_chunks(
    alloc: Global,
    checked: &Checked,
    chunks: &[Chunk],
    limit: u32,
) -> Result<Run, NoMemory>
    requires fit { All (FitsChunk (checked_plan checked.now).fields) chunks.now }
    requires some { 1 ≤ length chunks.now }
    requires few { length chunks.now ≤ 64 }
    ensures chunks { IfOk result (IsFromTo 0 (length chunks.now)) }
    ensures stands { IfOk result (StandsForChunks (checked_plan checked.now) limit chunks.now) }
    ensures closed { IfOk result (λ run. AreClosed run.groups) }
    ensures extends { (records : List OneRecord) →
        all_records (checked_plan checked.now) chunks.now ≡ Ok records →
        IfOk result (λ run.
        GroupsAreExtended (checked_plan checked.now) limit records run.groups) }
{
    let mut run = of_chunk(alloc, checked, &chunks[0], 0, limit)?;
    'chunks: for number in 1..chunks.len() {
        run = run.extend(alloc, checked, &chunks[number], limit)?;
    }
    Ok(run)
}
