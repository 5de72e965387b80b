//! Rounds that are worked in two steps: the runs of their parts, and the rows of each part from how
//! the groups stand before it.
ghost use Rattle.std.specs.Prelude.{◌≡◌, ◌≤◌, List, IfOk, length, map, Ok};
ghost use Rattle.std.specs.List.{All, flat_map};
ghost use Rattle.sym_base.specs.declared.values.record.Record.{Record as OneRecord};
ghost use Rattle.sym_check.specs.Checking.CheckedScripts.{checked_plan};
ghost use Rattle.sym_check.specs.Meaning.Groups.{pass};
ghost use Rattle.sym_table.specs.ChunkRecords.{all_records};
ghost use Rattle.sym_table.specs.Rows.{FitsChunk};
ghost use Rattle.sym_run.specs.Applying.{AreValid};
ghost use Rattle.sym_run.specs.Runs.{IsFromTo, StandsForChunks};
ghost use Rattle.sym_scan.specs.Parts.{AreParts, AreRuns, IsPart, IsReady, IsRunOf, part_rows};
ghost use Rattle.sym_scan.specs.Scans.{IfDone, scanned_to, traced_to};

use crate::part_starts::{AllStarted, PartRun, PartStarts, start_all};
use crate::parts::{Part, parts};
use crate::replays::{Progress, Replayed, replay_all, take_chunks};
use crate::rows::{TraceRow, TraceRows};
use crate::scan_options::ScanOptions;
use std::alloc::Global;
use std::thread::Threads;
use sym_base::NoMemory;
use sym_check::Checked;
use sym_fork::map_vec;
use sym_plain::Groups;
use sym_run::{Run, Stretch, kept_most};
use sym_table::{Bad, Chunk, Chunks, RowCursor};

/// What a round comes to.
#[derive(Drop)]
pub enum Scanned {
    /// The rows of those of its records that are shown, and the groups after all of them.
    Done { rows: TraceRows, groups: Groups },
    /// Its first row that is no record.
    Bad(Bad),
}

impl Scanned {
    /// An equal answer of its own.
    pub fn copy(&self, alloc: Global) -> Result<Scanned, NoMemory>
        ensures { IfOk result (λ scanned. scanned ≡ self.now) }
    {
        match self {
            Scanned::Done { rows, groups } => Ok(Scanned::Done {
                rows: rows.copy(alloc)?,
                groups: groups.copy(alloc)?,
            }),
            Scanned::Bad(bad) => Ok(Scanned::Bad(*bad)),
        }
    }
}

// A value that lends a checked script. Workers share it by its bound: that a checked script may be
// shared is then shown once, where the round is handed in.
trait LendsScript {
    ghost use Rattle.sym_check.specs.declared.checked.accepted.Checked.{Checked as OneChecked};

    ghost lent: { Self → OneChecked };

    fn script(&self) -> &Checked
        ensures { result.now ≡ lent self.now };
}

impl LendsScript for Checked {
    ghost lent = { λ checked. checked };

    fn script(&self) -> &Checked {
        self
    }
}

// The run of chunks, which are taken one after the other. Of a key so many records are kept before
// they are explored.
fn run_chunks(
    alloc: Global,
    checked: &Checked,
    chunks: &[Chunk],
    limit: u32,
    most: u32,
) -> Result<Run, NoMemory>
    requires fit { All (FitsChunk (checked_plan checked.now).fields) chunks.now }
    requires few { length chunks.now ≤ 64 }
    ensures ends { IfOk result (IsFromTo 0 (length chunks.now)) }
    ensures stands { let p = checked_plan checked.now in
        IfOk result (StandsForChunks p limit chunks.now) }
{
    let mut cursor = RowCursor::over(alloc, chunks)?;
    let mut stretch = Stretch::new(alloc, 0, most);
    'chunks: for chunk in chunks {
        stretch.take(alloc, checked, &mut cursor, chunk, limit)?;
    }
    stretch.finish(alloc, checked, limit)
}

// The run of a part.
fn run_part(
    alloc: Global,
    checked: &Checked,
    chunks: &[Chunk],
    part: Part,
    limit: u32,
    most: u32,
) -> Result<PartRun, NoMemory>
    requires fit { All (FitsChunk (checked_plan checked.now).fields) chunks.now }
    requires few { length chunks.now ≤ 64 }
    requires part { IsPart (length chunks.now) part }
    ensures { IfOk result (IsRunOf (checked_plan checked.now) limit chunks.now part) }
{
    let run = run_chunks(alloc, checked, part.of(chunks), limit, most)?;
    Ok(PartRun { part, run })
}

// The rows of a part from its starts.
fn replay_part(
    alloc: Global,
    checked: &Checked,
    chunks: &[Chunk],
    ready: PartStarts,
    every: u64,
) -> Result<TraceRows, NoMemory>
    requires fit { All (FitsChunk (checked_plan checked.now).fields) chunks.now }
    requires ready { IsReady (checked_plan checked.now) chunks.now ready }
    requires every { 1 ≤ every }
    ensures { let p = checked_plan checked.now in
        IfOk result (λ rows. rows ≡ part_rows p every chunks.now ready) }
{
    let PartStarts { part, starts } = ready;
    match replay_all(alloc, checked, part.of(chunks), every, starts)? {
        Replayed::Rows(rows) => Ok(rows),
        Replayed::Bad(_) => unreachable!(),
    }
}

// The values of results, or the first refusal.
fn values_of<X: Drop>(alloc: Global, results: Vec<Result<X, NoMemory>>) -> Result<Vec<X>, NoMemory>
    ensures { IfOk result (λ values. map Ok values.items ≡ results.items) }
{
    let mut values = Vec::with_capacity(alloc, results.len())?;
    'results: for found in results {
        values.push(found?)?;
    }
    Ok(values)
}

// The rows of parts, one after the other. They are moved.
fn rows_in_turn(alloc: Global, parts: Vec<TraceRows>) -> Result<TraceRows, NoMemory>
    ensures { IfOk result (λ rows. rows ≡ flat_map (λ of. of) parts.items) }
{
    let mut rows: Vec<TraceRow> = Vec::new(alloc);
    'parts: for part in parts {
        rows.append(&mut part.into_vec())?;
    }
    Ok(TraceRows::of(rows))
}

// The runs of parts, made at once.
fn run_all<T: Threads + Sync, S: LendsScript + Sync>(
    rt: &T,
    alloc: Global,
    lender: &S,
    chunks: &[Chunk],
    parts: Vec<Part>,
    limit: u32,
    most: u32,
) -> Result<Vec<PartRun>, NoMemory>
    requires fit { All (FitsChunk (checked_plan (S.lent lender.now)).fields) chunks.now }
    requires few { length chunks.now ≤ 64 }
    requires parts { AreParts 0 (length chunks.now) parts.items }
    ensures { let p = checked_plan (S.lent lender.now) in
        IfOk result (λ runs. AreRuns p limit chunks.now 0 (length chunks.now) runs.items) }
{
    let done = map_vec(
        rt,
        alloc,
        parts,
        &|part: Part| -> Result<PartRun, NoMemory>
            requires { All (FitsChunk (checked_plan (S.lent lender.now)).fields) chunks.now
                × (length chunks.now ≤ 64) × IsPart (length chunks.now) part }
            ensures { let p = checked_plan (S.lent lender.entry.now) in
                IfOk result (IsRunOf p limit chunks.entry.now part) }
        { run_part(alloc, lender.script(), chunks, part, limit, most) },
    )?;
    values_of(alloc, done)
}

// The rows of parts from their starts, replayed at once.
fn replay_parts<T: Threads + Sync, S: LendsScript + Sync>(
    rt: &T,
    alloc: Global,
    lender: &S,
    chunks: &[Chunk],
    parts: Vec<PartStarts>,
    every: u64,
) -> Result<TraceRows, NoMemory>
    requires fit { All (FitsChunk (checked_plan (S.lent lender.now)).fields) chunks.now }
    requires ready { All (IsReady (checked_plan (S.lent lender.now)) chunks.now) parts.items }
    requires every { 1 ≤ every }
    ensures { let p = checked_plan (S.lent lender.now) in
        IfOk result (λ rows. rows ≡ flat_map (part_rows p every chunks.now) parts.items) }
{
    let done = map_vec(
        rt,
        alloc,
        parts,
        &|ready: PartStarts| -> Result<TraceRows, NoMemory>
            requires { All (FitsChunk (checked_plan (S.lent lender.now)).fields) chunks.now
                × IsReady (checked_plan (S.lent lender.now)) chunks.now ready × (1 ≤ every) }
            ensures { let p = checked_plan (S.lent lender.entry.now) in
                IfOk result (λ rows. rows ≡ part_rows p every chunks.entry.now ready) }
        { replay_part(alloc, lender.script(), chunks, ready, every) },
    )?;
    rows_in_turn(alloc, values_of(alloc, done)?)
}

// The rows of a round and the groups after it, by parts that are worked at once.
fn scan_parts<T: Threads + Sync, S: LendsScript + Sync>(
    rt: &T,
    alloc: Global,
    lender: &S,
    chunks: &[Chunk],
    options: ScanOptions,
    groups: Groups,
) -> Result<Scanned, NoMemory>
    requires fit { All (FitsChunk (checked_plan (S.lent lender.now)).fields) chunks.now }
    requires few { length chunks.now ≤ 64 }
    requires workers { 1 ≤ options.workers }
    requires every { 1 ≤ options.every }
    requires valid { AreValid (checked_plan (S.lent lender.now)) groups }
    ensures scanned { let p = checked_plan (S.lent lender.now) in
        let read = all_records p chunks.now in
        IfOk result (λ scanned. scanned ≡ scanned_to p options.every groups read) }
    ensures valid { let p = checked_plan (S.lent lender.now) in
        IfOk result (λ scanned. IfDone scanned (AreValid p)) }
{
    let ScanOptions {
        workers,
        limit,
        every,
    } = options;
    let parts = parts(alloc, chunks.len(), workers)?;
    let most = kept_most(limit);
    let runs = run_all(rt, alloc, lender, chunks, parts, limit, most)?;
    let mut groups = groups;
    match start_all(alloc, lender.script(), runs, &mut groups)? {
        AllStarted::From(parts) => {
            let rows = replay_parts(rt, alloc, lender, chunks, parts, every)?;
            Ok(Scanned::Done { rows, groups })
        }
        AllStarted::Bad(bad) => Ok(Scanned::Bad(bad)),
    }
}

// The rows of a round and the groups after it, on this thread. Each record makes its step when it
// is read, and nothing else is copied than what is shown.
fn scan_alone(
    alloc: Global,
    checked: &Checked,
    chunks: &[Chunk],
    every: u64,
    groups: Groups,
) -> Result<Scanned, NoMemory>
    requires fit { All (FitsChunk (checked_plan checked.now).fields) chunks.now }
    requires every { 1 ≤ every }
    requires valid { AreValid (checked_plan checked.now) groups }
    ensures scanned { let p = checked_plan checked.now in
        IfOk result (λ scanned. scanned ≡ scanned_to p every groups (all_records p chunks.now)) }
    ensures valid { let p = checked_plan checked.now in
        IfOk result (λ scanned. IfDone scanned (AreValid p)) }
{
    let _plan = checked.plan();
    let mut progress = Progress::new(alloc, groups);
    match take_chunks(alloc, checked, chunks, every, &mut progress)? {
        Some(bad) => Ok(Scanned::Bad(bad)),
        None => {
            let (rows, groups) = progress.into_parts();
            Ok(Scanned::Done { rows, groups })
        }
    }
}

/// The rows of those of the round's records whose numbers `every` divides, in order, and the groups
/// after all of its records; `Bad` exactly where a row is no record: the first such row. Where the
/// groups are the pass over some records, the rows are the part of the trace that belongs to the
/// round's, and the groups the pass over all.
///
/// The chunks are cut into as many parts as there are workers, or fewer. The parts' runs are made
/// at once and applied in order; before each, how the groups of its keys stand is copied. From
/// there the parts are replayed at once. With one worker, or one chunk, no thread is made: each
/// record makes its step when it is read. The result doesn't depend on the number of workers or on
/// the path limit.
///
/// `NoMemory` where an allocation failed. Then the groups are dropped, as they are with `Bad`.
pub fn scan_round<T: Threads + Sync>(
    rt: &T,
    alloc: Global,
    checked: &Checked,
    chunks: &Chunks,
    workers: u32,
    limit: u32,
    every: u64,
    groups: Groups,
) -> Result<Scanned, NoMemory>
    requires fit { All (FitsChunk (checked_plan checked.now).fields) chunks.now }
    requires few { length chunks.now ≤ 64 }
    requires workers { 1 ≤ workers }
    requires every { 1 ≤ every }
    requires valid { AreValid (checked_plan checked.now) groups }
    ensures scanned { let p = checked_plan checked.now in
        IfOk result (λ scanned. scanned ≡ scanned_to p every groups (all_records p chunks.now)) }
    ensures trace { let p = checked_plan checked.now in
        (before : List OneRecord) → groups ≡ pass p before →
        IfOk result (λ scanned. scanned ≡ traced_to p every before (all_records p chunks.now)) }
    ensures valid { let p = checked_plan checked.now in
        IfOk result (λ scanned. IfDone scanned (AreValid p)) }
{
    let chunks = chunks.as_slice();
    if workers == 1 || chunks.len() == 1 {
        return scan_alone(alloc, checked, chunks, every, groups);
    }
    let options = ScanOptions {
        workers,
        limit,
        every,
    };
    scan_parts(rt, alloc, checked, chunks, options, groups)
}
