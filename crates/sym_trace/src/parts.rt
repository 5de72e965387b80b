//! Rounds whose records are led on where none is shown, and scanned where some are.
ghost use Rattle.std.specs.Prelude.{◌≡◌, ◌≤◌, IfOk, drop, length, slice_range};
ghost use Rattle.std.specs.List.{All};
ghost use Rattle.sym_check.specs.Checking.CheckedScripts.{checked_plan};
ghost use Rattle.sym_files.specs.Rounds.{AreWorkers, IsLimit, IsRound};
ghost use Rattle.sym_run.specs.Applying.{AreValid, IfDone as IfLed, applied_to};
ghost use Rattle.sym_scan.specs.Scans.{IfDone, scanned_to};
ghost use Rattle.sym_table.specs.ChunkRecords.{all_records};
ghost use Rattle.sym_trace.specs.Showing.{ShowsNone};

use crate::shown_chunks::{ShownPart, shown_part};
use std::alloc::Global;
use std::thread::Threads;
use sym_base::NoMemory;
use sym_files::Work;
use sym_plain::Groups;
use sym_run::Applied;
use sym_scan::{Scanned, TraceRows, scan_round};
use sym_workers::{Free, led};

// What the records of the chunks from `first` up to but without `end` make of groups.
fn lead_part<T: Threads + Sync>(
    rt: &T,
    alloc: Global,
    work: &Work,
    first: usize,
    end: usize,
    workers: u32,
    groups: Groups,
) -> Result<Applied, NoMemory>
    requires round { IsRound (checked_plan work.now.checked).fields work.now.chunks }
    requires limit { IsLimit work.now.limit }
    requires workers { AreWorkers workers }
    requires some { first ≤ end }
    requires within { end ≤ length work.now.chunks }
    requires valid { AreValid (checked_plan work.now.checked) groups }
    ensures applied { let p = checked_plan work.now.checked in
        let read = all_records p (slice_range work.now.chunks first end) in
        IfOk result (λ applied. applied ≡ applied_to p read groups) }
    ensures valid { let p = checked_plan work.now.checked in
        IfOk result (λ applied. IfLed applied (AreValid p)) }
{
    if first == end {
        return Ok(Applied::Done(groups));
    }
    if first == 0 && end == work.chunks.len() {
        return led(rt, alloc, work, workers, groups, &Free);
    }
    let part = work.part(alloc, first, end)?;
    led(rt, alloc, &part, workers, groups, &Free)
}

// The rows of a round, which is the work's, and the groups after it.
fn scan_work<T: Threads + Sync>(
    rt: &T,
    alloc: Global,
    work: &Work,
    workers: u32,
    every: u64,
    groups: Groups,
) -> Result<Scanned, NoMemory>
    requires round { IsRound (checked_plan work.now.checked).fields work.now.chunks }
    requires workers { 1 ≤ workers }
    requires every { 1 ≤ every }
    requires valid { AreValid (checked_plan work.now.checked) groups }
    ensures scanned { let p = checked_plan work.now.checked in
        let read = all_records p work.now.chunks in
        IfOk result (λ scanned. scanned ≡ scanned_to p every groups read) }
    ensures valid { let p = checked_plan work.now.checked in
        IfOk result (λ scanned. IfDone scanned (AreValid p)) }
{
    scan_round(
        rt,
        alloc,
        &work.checked,
        &work.chunks,
        workers,
        work.limit,
        every,
        groups,
    )
}

// The rows of the chunks of a part, and the groups after them.
fn scan_part<T: Threads + Sync>(
    rt: &T,
    alloc: Global,
    work: &Work,
    part: ShownPart,
    workers: u32,
    every: u64,
    groups: Groups,
) -> Result<Scanned, NoMemory>
    requires round { IsRound (checked_plan work.now.checked).fields work.now.chunks }
    requires workers { AreWorkers workers }
    requires every { 1 ≤ every }
    requires some { part.first ≤ part.end }
    requires within { part.end ≤ length work.now.chunks }
    requires valid { AreValid (checked_plan work.now.checked) groups }
    ensures scanned { let p = checked_plan work.now.checked in
        let read = all_records p (slice_range work.now.chunks part.first part.end) in
        IfOk result (λ scanned. scanned ≡ scanned_to p every groups read) }
    ensures valid { let p = checked_plan work.now.checked in
        IfOk result (λ scanned. IfDone scanned (AreValid p)) }
{
    let ShownPart { first, end } = part;
    if first == end {
        let rows = TraceRows::new(alloc);
        return Ok(Scanned::Done { rows, groups });
    }
    if first == 0 && end == work.chunks.len() {
        return scan_work(rt, alloc, work, workers, every, groups);
    }
    scan_work(
        rt,
        alloc,
        &work.part(alloc, first, end)?,
        workers,
        every,
        groups,
    )
}

// What the records of the shown part and of the chunks after it come to.
fn scan_rest<T: Threads + Sync>(
    rt: &T,
    alloc: Global,
    work: &Work,
    shown: ShownPart,
    workers: u32,
    every: u64,
    groups: Groups,
) -> Result<Scanned, NoMemory>
    requires round { IsRound (checked_plan work.now.checked).fields work.now.chunks }
    requires limit { IsLimit work.now.limit }
    requires workers { AreWorkers workers }
    requires every { 1 ≤ every }
    requires some { shown.first ≤ shown.end }
    requires within { shown.end ≤ length work.now.chunks }
    requires after { All (ShowsNone every) (drop shown.end work.now.chunks) }
    requires valid { AreValid (checked_plan work.now.checked) groups }
    ensures scanned { let p = checked_plan work.now.checked in
        let read = all_records p (drop shown.first work.now.chunks) in
        IfOk result (λ scanned. scanned ≡ scanned_to p every groups read) }
    ensures valid { let p = checked_plan work.now.checked in
        IfOk result (λ scanned. IfDone scanned (AreValid p)) }
{
    let end = shown.end;
    let count = work.chunks.len();
    match scan_part(rt, alloc, work, shown, workers, every, groups)? {
        Scanned::Done { rows, groups } => {
            match lead_part(rt, alloc, work, end, count, workers, groups)? {
                Applied::Done(groups) => Ok(Scanned::Done { rows, groups }),
                Applied::Bad(bad) => Ok(Scanned::Bad(bad)),
            }
        }
        Scanned::Bad(bad) => Ok(Scanned::Bad(bad)),
    }
}

/// What the records of a round, which is the work's, come to: the rows of those whose numbers
/// `every` divides, and the groups after all; or the first row that is no record. The chunks before
/// the first one that shows a row, and those after the last such one, are led on by `led` of
/// `sym_engine`, as in a run. The chunks from the first such one to the last are worked by
/// `scan_round` of `sym_scan`. A part that isn't the whole round is copied for it.
///
/// `NoMemory` where an allocation failed.
pub(crate) fn scan_shown<T: Threads + Sync>(
    rt: &T,
    alloc: Global,
    work: &Work,
    workers: u32,
    every: u64,
    groups: Groups,
) -> Result<Scanned, NoMemory>
    requires round { IsRound (checked_plan work.now.checked).fields work.now.chunks }
    requires limit { IsLimit work.now.limit }
    requires workers { AreWorkers workers }
    requires every { 1 ≤ every }
    requires valid { AreValid (checked_plan work.now.checked) groups }
    ensures scanned { let p = checked_plan work.now.checked in
        let read = all_records p work.now.chunks in
        IfOk result (λ scanned. scanned ≡ scanned_to p every groups read) }
    ensures valid { let p = checked_plan work.now.checked in
        IfOk result (λ scanned. IfDone scanned (AreValid p)) }
{
    let shown = shown_part(work.chunks.as_slice(), every);
    match lead_part(rt, alloc, work, 0, shown.first, workers, groups)? {
        Applied::Done(groups) => scan_rest(rt, alloc, work, shown, workers, every, groups),
        Applied::Bad(bad) => Ok(Scanned::Bad(bad)),
    }
}
