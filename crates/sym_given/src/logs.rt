//! The chunks and the records of a log, and the groups of the sequential pass over it.
ghost use Rattle.std.specs.Prelude.{IfOk, IfSome};
ghost use Rattle.std.specs.List.{All};
ghost use Rattle.sym_check.specs.Checking.CheckedScripts.{checked_plan};
ghost use Rattle.sym_check.specs.Meaning.Validity.{IsRecord};
ghost use Rattle.sym_table.specs.Decoding.{IfRecord};
ghost use Rattle.sym_table.specs.Rows.{FitsChunk, FitsHeader};

use std::alloc::Global;
use sym_base::NoMemory;
use sym_check::Checked;
use sym_plain::{Groups, fold_into};
use sym_table::{Chunk, Cutter, Decoded, Row, decode};

/// The most records of a log that are passed over.
const RECORDS: u64 = 100_000;

/// Reads the chunks of a log, of so many rows each; `None` if the log has no header of the script,
/// or is too long for a test.
pub fn opened<'a>(alloc: Global, checked: &Checked, log: &'a str, rows: u32) -> Option<Cutter<'a>>
    ensures { IfSome result (λ c. FitsHeader (checked_plan checked.now).fields c.header) }
{
    if log.len() >= 10_000_000 || rows < 1 || rows > 1_024 {
        return None;
    }
    Cutter::open(alloc, checked, log.as_bytes(), 1, rows).ok()
}

// The next chunk, if there is one, goes last.
fn push_chunk(
    alloc: Global,
    checked: &Checked,
    cutter: &mut Cutter<'_>,
    chunks: &mut Vec<Chunk>,
) -> Result<(), NoMemory>
    requires header { FitsHeader (checked_plan checked.now).fields cutter.old.header }
    requires fit { All (FitsChunk (checked_plan checked.now).fields) chunks.old.items }
    ensures header { FitsHeader (checked_plan checked.now).fields cutter.new.header }
    ensures fit { All (FitsChunk (checked_plan checked.now).fields) chunks.new.items }
{
    if let Some(chunk) = cutter.next(alloc)? {
        chunks.push(chunk)?;
    }
    Ok(())
}

/// The next chunks, at most so many; none if no row is left.
pub fn next_chunks(
    alloc: Global,
    checked: &Checked,
    cutter: &mut Cutter<'_>,
    most: usize,
) -> Result<Vec<Chunk>, NoMemory>
    requires header { FitsHeader (checked_plan checked.now).fields cutter.old.header }
    ensures header { FitsHeader (checked_plan checked.now).fields cutter.new.header }
    ensures fit { IfOk result (λ chunks.
        All (FitsChunk (checked_plan checked.now).fields) chunks.items) }
{
    let mut chunks = Vec::new(alloc);
    'chunks: for _place in 0..most {
        push_chunk(alloc, checked, cutter, &mut chunks)?;
    }
    Ok(chunks)
}

/// The first chunks of a log, at most so many, of so many rows each; none if the log has no header
/// of the script.
pub fn chunks_of(
    alloc: Global,
    checked: &Checked,
    log: &str,
    rows: u32,
    most: usize,
) -> Result<Vec<Chunk>, NoMemory>
    ensures { IfOk result (λ chunks.
        All (FitsChunk (checked_plan checked.now).fields) chunks.items) }
{
    match opened(alloc, checked, log, rows) {
        Some(cutter) => {
            let mut cutter = cutter;
            next_chunks(alloc, checked, &mut cutter, most)
        }
        None => Ok(Vec::new(alloc)),
    }
}

/// What the next row decodes to, under this number; `None` if no row is left.
pub fn next_decoded(
    alloc: Global,
    checked: &Checked,
    cutter: &mut Cutter<'_>,
    no: u64,
) -> Result<Option<Decoded>, NoMemory>
    requires header { FitsHeader (checked_plan checked.now).fields cutter.old.header }
    ensures header { FitsHeader (checked_plan checked.now).fields cutter.new.header }
    ensures fits { IfOk result (λ found.
        IfSome found (λ d. IfRecord d (IsRecord (checked_plan checked.now)))) }
{
    let mut row = Row::new(alloc);
    if !cutter.next_row(&mut row)? {
        return Ok(None);
    }
    Ok(Some(decode(alloc, checked, cutter.header(), &row.view(), no)?))
}

fn passed_by(alloc: Global, checked: &Checked, cutter: Cutter<'_>) -> Result<Groups, NoMemory>
    requires { FitsHeader (checked_plan checked.now).fields cutter.header }
{
    let mut cutter = cutter;
    let mut groups = Groups::new(alloc);
    'records: for place in 0..RECORDS {
        match next_decoded(alloc, checked, &mut cutter, place + 1)? {
            Some(Decoded::Is(rec)) => fold_into(alloc, checked, &mut groups, &rec)?,
            Some(Decoded::Bad(_)) | None => break,
        }
    }
    Ok(groups)
}

/// The groups of the sequential pass over the records of a log, up to the first row that is none.
pub fn passed(alloc: Global, checked: &Checked, log: &str) -> Result<Groups, NoMemory> {
    match opened(alloc, checked, log, 1) {
        Some(cutter) => passed_by(alloc, checked, cutter),
        None => Ok(Groups::new(alloc)),
    }
}
