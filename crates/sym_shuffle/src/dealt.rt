//! Rows that are read into batches, each record with the place of its group.
ghost use Rattle.std.specs.Prelude.{◌≡◌, ◌+◌, ◌++◌, ◌∷◌, [], IfNone, IfOk, OnOk, List, Some, Ok, slice_get};
ghost use Rattle.std.specs.List.{All};
ghost use Rattle.std.specs.Map.{keys_of};
ghost use Rattle.sym_base.specs.declared.values.record.Record.{Record as OneRecord};
ghost use Rattle.sym_check.specs.Checking.CheckedScripts.{checked_plan};
ghost use Rattle.sym_check.specs.Meaning.Validity.{IsRecord};
ghost use Rattle.sym_shuffle.specs.Dealing.{with_new};
ghost use Rattle.sym_shuffle.specs.Settled.{HasDealt};
ghost use Rattle.sym_table.specs.ChunkRecords.{all_records, chunk_records};
ghost use Rattle.sym_table.specs.Reading.{HasNext, Passes};
ghost use Rattle.sym_table.specs.RowRecords.{in_turn};
ghost use Rattle.sym_table.specs.Rows.{FitsChunk};

use crate::batch::Batch;
use crate::entry::Enter;
use crate::marks::{push_marked, width_of};
use indexmap::IndexMap;
use std::alloc::Global;
use sym_base::{Fields, Key, NoMemory, Record, Values};
use sym_check::Checked;
use sym_plain::{Groups, key_into};
use sym_table::{Bad, Chunk, Row, RowCursor, decode_into};

/// What records are dealt by: a script, the marks of the fields that its update reads, and the
/// groups that there are.
#[derive(Clone, Copy)]
pub(crate) struct Dealer<'a> {
    pub(crate) checked: &'a Checked,
    pub(crate) marks: &'a [bool],
    pub(crate) groups: &'a Groups,
}

/// The records of neighbouring chunks, up to the first row that is none.
#[derive(Drop)]
pub(crate) struct Dealt {
    /// Their places go on from those of the groups to those of the new keys.
    pub(crate) batch: Batch,
    /// The keys of which there is no group yet, in order of first appearance.
    pub(crate) new: IndexMap<Key, ()>,
    /// The first row that is no record.
    pub(crate) bad: Option<Bad>,
}

// Memory that is used again for each row.
#[derive(Drop)]
struct Memory {
    row: Row,
    rec: Record,
    key: Key,
}

impl Memory {
    // Room for a row; a record and a key take theirs as they come.
    fn new(alloc: Global) -> Result<Memory, NoMemory> {
        Ok(Memory {
            row: Row::with_room(alloc)?,
            rec: Record {
                no: 0,
                fields: Fields::new(alloc),
            },
            key: Key {
                values: Values::new(alloc),
            },
        })
    }
}

// How many rows chunks have, for which a batch gets room.
fn rows_of(chunks: &[Chunk]) -> usize {
    let mut rows: usize = 0;
    'chunks: for chunk in chunks {
        rows = rows.saturating_add(chunk.rows.len());
    }
    rows
}

// The place of an index after so many others. `NoMemory` where that is no `usize`.
fn place_after(count: usize, index: usize) -> Result<usize, NoMemory>
    ensures { IfOk result (λ place. place ≡ count + index) }
{
    match count.checked_add(index) {
        Some(place) => Ok(place),
        None => Err(NoMemory),
    }
}

// The index of a key among new ones, where it goes last unless it is there.
fn index_in(alloc: Global, new: &mut IndexMap<Key, ()>, key: &Key) -> Result<usize, NoMemory>
    ensures index { let keys = keys_of new.new.entries in
        IfOk result (λ index. slice_get keys index ≡ Some key.now) }
    ensures keys { let keys = keys_of new.old.entries in
        OnOk result (keys_of new.new.entries ≡ with_new [] keys key.now) }
{
    match new.get_index_of(key) {
        Some(index) => Ok(index),
        None => {
            let index = new.len();
            new.insert(key.copy(alloc)?, ())?;
            Ok(index)
        }
    }
}

// The place of a key among those of groups and, after them, new ones, where it goes last unless it
// is there.
fn place_of(
    alloc: Global,
    groups: &Groups,
    new: &mut IndexMap<Key, ()>,
    key: &Key,
) -> Result<usize, NoMemory>
    ensures place { let keys = keys_of groups.now ++ keys_of new.new.entries in
        IfOk result (λ place. slice_get keys place ≡ Some key.now) }
    ensures keys { let keys = keys_of new.old.entries in
        OnOk result (keys_of new.new.entries ≡ with_new (keys_of groups.now) keys key.now) }
{
    match groups.index_of(key) {
        Some(place) => Ok(place),
        None => place_after(groups.len(), index_in(alloc, new, key)?),
    }
}

// Puts the record that was read after those of a batch, with the place of its group.
fn push(
    alloc: Global,
    dealer: &Dealer<'_>,
    memory: &mut Memory,
    dealt: &mut Dealt,
) -> Result<(), NoMemory>
    requires { IsRecord (checked_plan dealer.now.checked.now) memory.old.rec }
    ensures { let p = checked_plan dealer.now.checked.now in (done : List OneRecord) →
        HasDealt p dealer.now.marks.now dealer.now.groups.now (Ok done) dealt.old →
        let read = done ++ memory.old.rec ∷ [] in
        OnOk result
        (HasDealt p dealer.now.marks.now dealer.now.groups.now (Ok read) dealt.exit.now) }
{
    key_into(alloc, dealer.checked, &memory.rec, &mut memory.key)?;
    let place = place_of(alloc, dealer.groups, &mut dealt.new, &memory.key)?;
    dealt.batch.places.push(place)?;
    dealt.batch.numbers.push(memory.rec.no)?;
    push_marked(&mut dealt.batch.values, &memory.rec.fields, dealer.marks)
}

// Deals the rows of a chunk, which the cursor has next, up to the first that is no record.
fn deal_chunk(
    alloc: Global,
    dealer: &Dealer<'_>,
    cursor: &mut RowCursor<'_>,
    chunk: &Chunk,
    memory: &mut Memory,
    dealt: &mut Dealt,
) -> Result<(), NoMemory>
    requires chunk { FitsChunk (checked_plan dealer.now.checked.now).fields chunk.now }
    requires rows { HasNext chunk.now.rows cursor.old }
    ensures dealt { let p = checked_plan dealer.now.checked.now in (done : List OneRecord) →
        HasDealt p dealer.now.marks.now dealer.now.groups.now (Ok done) dealt.old →
        let read = in_turn (Ok done) (chunk_records p chunk.now) in
        OnOk result (HasDealt p dealer.now.marks.now dealer.now.groups.now read dealt.exit.now) }
    ensures passes { OnOk result
        (IfNone dealt.exit.now.bad (Passes chunk.now.rows cursor.old cursor.new)) }
{
    let mut no = chunk.first_no;
    'rows: for _index in 0..chunk.rows.len() {
        if !cursor.read(&mut memory.row)? {
            return Ok(());
        }
        let view = memory.row.view();
        let bad = decode_into(
            alloc,
            dealer.checked,
            &chunk.header,
            &view,
            no,
            &mut memory.rec,
        )?;
        if bad.is_some() {
            dealt.bad = bad;
            return Ok(());
        }
        push(alloc, dealer, memory, dealt)?;
        no += 1;
    }
    Ok(())
}

/// The records of neighbouring chunks, of which the first has this number, with the places of their
/// groups. The worker tells `hold` of each chunk before it reads its rows.
pub(crate) fn deal<E: Enter>(
    alloc: Global,
    dealer: &Dealer<'_>,
    chunks: &[Chunk],
    worker: u32,
    first: u32,
    hold: &E,
) -> Result<Dealt, NoMemory>
    requires { All (FitsChunk (checked_plan dealer.now.checked.now).fields) chunks.now }
    ensures { let p = checked_plan dealer.now.checked.now in
        let read = all_records p chunks.now in
        IfOk result (HasDealt p dealer.now.marks.now dealer.now.groups.now read) }
{
    let mut cursor = RowCursor::over(alloc, chunks)?;
    let mut memory = Memory::new(alloc)?;
    let mut dealt = Dealt {
        batch: Batch::with_room(alloc, rows_of(chunks), width_of(dealer.marks))?,
        new: IndexMap::new(alloc),
        bad: None,
    };
    let mut number = first;
    'chunks: for chunk in chunks {
        hold.enter(worker, number);
        deal_chunk(alloc, dealer, &mut cursor, chunk, &mut memory, &mut dealt)?;
        if dealt.bad.is_some() {
            return Ok(dealt);
        }
        number = number.saturating_add(1);
    }
    Ok(dealt)
}
