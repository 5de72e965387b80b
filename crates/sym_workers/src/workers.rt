//! The workers of a round, who meet on a board.
ghost use Rattle.std.specs.Prelude.{◌≡◌, ◌≤◌, ◌<◌, true, None, All, IfOk, IfSome, IfNone, length, vec_len};
ghost use Rattle.sym_base.specs.declared.limits.TheConstants as limit;
ghost use Rattle.sym_board.specs.Passes.{board_input, board_leaves, board_seats, hand, has_ended, IsFree, IsNewPassOf, IsPassOf};
ghost use Rattle.sym_check.specs.Checking.CheckedScripts.{checked_plan};
ghost use Rattle.sym_workers.specs.Pieces.{IsBoardOf, IsDone, StandsBetween, StandsFrom};
ghost use Rattle.sym_files.specs.Rounds.{AreWorkers, IsLimit, IsRound};
ghost use Rattle.sym_workers.specs.RoundRuns.{StandsForAll};

use crate::piece::RunPiece;
use crate::stretches::{LendsStretches, Stretches};
use std::alloc::Global;
use std::marker::PhantomData;
use std::thread::Threads;
use sym_base::NoMemory;
use sym_board::{Board, Made, Pass, Piece};
use sym_files::Work;
use sym_fork::map_vec;
use sym_run::{Run, Stretch, kept_most};
use sym_shuffle::Enter;
use sym_table::RowCursor;

/// Into how many stretches a round is cut for each worker.
const STRETCHES: u32 = 1;

/// Neighbouring chunks of a round: those from `first` up to but without `end`, counted from 0.
#[derive(Clone, Copy)]
pub(crate) struct ChunkRange {
    pub(crate) first: u32,
    pub(crate) end: u32,
}

/// The run of the chunks in a range, which takes them one after the other. Of a key so many records
/// are kept before they are explored.
pub(crate) fn run_between<E: Enter>(
    alloc: Global,
    work: &Work,
    worker: u32,
    range: ChunkRange,
    most: u32,
    hold: &E,
) -> Result<Run, NoMemory>
    requires round { IsRound (checked_plan work.now.checked).fields work.now.chunks }
    requires some { range.first < range.end }
    requires within { range.end ≤ length work.now.chunks }
    ensures { IfOk result (StandsFrom work.now range.first range.end) }
{
    let ChunkRange { first, end } = range;
    let chunks = work.chunks.as_slice();
    let mut cursor = RowCursor::over(alloc, work.chunks_between(first as usize, end as usize))?;
    let mut stretch = Stretch::new(alloc, first, most);
    'chunks: for number in first..end {
        hold.enter(worker, number);
        let chunk = &chunks[number as usize];
        stretch.take(alloc, &work.checked, &mut cursor, chunk, work.limit)?;
    }
    stretch.finish(alloc, &work.checked, work.limit)
}

// A worker's number and its pass to the board.
#[derive(Drop)]
struct Worker<P: Piece> {
    number: u32,
    pass: Pass<P>,
}

// Claims stretches and carries their runs up, until every one is claimed or an allocation fails. In
// the first case the pass comes back with an empty hand and has ended, in the second one with a
// node in its hand.
fn work_stretches<S: LendsStretches + Send, E: Enter>(
    alloc: Global,
    board: &Board<RunPiece<S>>,
    stretches: &S,
    worker: Worker<RunPiece<S>>,
    hold: &E,
) -> Pass<RunPiece<S>>
    requires pass { IsPassOf board.now worker.pass × IsFree worker.pass }
    requires board { let s = stretches.now in IsBoardOf s (S.lent s) (S.size s) board.now }
    ensures of { IsPassOf board.now result }
    ensures ended { hand result ≡ None → has_ended result ≡ true }
{
    let Worker { number, mut pass } = worker;
    let work = stretches.work();
    let each = stretches.chunks_each();
    let chunks = work.chunks.len() as u32;
    let most = kept_most(work.limit);
    'stretches: while let Some(stretch) = board.claim(&mut pass) {
        let first = stretch * each;
        let end = chunks.min(first + each);
        let range = ChunkRange { first, end };
        let Ok(run) = run_between(alloc, work, number, range, most, hold) else {
            return pass;
        };
        let piece = RunPiece {
            run,
            of: PhantomData,
        };
        if board.carry(alloc, stretches, &mut pass, piece).is_err() {
            return pass;
        }
    }
    pass
}

// The passes with their numbers, from 0 on.
fn numbered<S: LendsStretches + Send>(
    alloc: Global,
    board: &Board<RunPiece<S>>,
    mut passes: Vec<Pass<RunPiece<S>>>,
) -> Result<Vec<Worker<RunPiece<S>>>, NoMemory>
    requires passes { All (λ p. IsNewPassOf board.now p) passes.items }
    requires few { vec_len passes ≤ limit.WORKERS_MAX }
    ensures len { IfOk result (λ workers. vec_len workers ≡ vec_len passes) }
    ensures each { IfOk result (λ workers.
        All (λ w. IsNewPassOf board.now w.pass) workers.items) }
{
    let mut workers = Vec::with_capacity(alloc, passes.len())?;
    'passes: while let Some(pass) = passes.pop() {
        let number = passes.len() as u32;
        workers.push(Worker { number, pass })?;
    }
    Ok(workers)
}

// A board over the stretches of a round, and passes for the workers, but no more than there are
// stretches.
fn board_over<S: LendsStretches + Send>(
    alloc: Global,
    stretches: &S,
    workers: u32,
) -> Result<Made<RunPiece<S>>, NoMemory>
    requires round { let work = S.lent stretches.now in
        IsRound (checked_plan work.checked).fields work.chunks }
    requires some { 1 ≤ S.size stretches.now }
    requires few { S.size stretches.now ≤ limit.CHUNKS_MAX }
    requires workers { AreWorkers workers }
    ensures board { let s = stretches.now in
        IfOk result (λ m. IsBoardOf s (S.lent s) (S.size s) m.board) }
    ensures passes { IfOk result (λ m. All (λ p. IsNewPassOf m.board p) m.passes.items) }
    ensures all { IfOk result (λ m. vec_len m.passes ≡ board_seats m.board) }
{
    let work = stretches.work();
    let each = stretches.chunks_each();
    let chunks = work.chunks.len() as u32;
    let leaves = chunks.div_ceil(each);
    let made: Made<RunPiece<S>> = Board::new(alloc, stretches, leaves, workers.min(leaves))?;
    Ok(made)
}

// The run of the whole round. There is one wherever all workers got to the end.
fn closed<S: LendsStretches + Send>(
    board: Board<RunPiece<S>>,
    passes: Vec<Pass<RunPiece<S>>>,
) -> Option<Run>
    requires of { All (λ p. IsPassOf board p) passes.items }
    requires all { vec_len passes ≡ board_seats board }
    ensures some { let s = board_input board in
        IfSome result (StandsBetween (S.lent s) (S.size s) 0 (board_leaves board)) }
    ensures none { IfNone result (¬ All (λ p. IsDone p) passes.items) }
{
    match board.close(passes) {
        Some(RunPiece { run, of: _of }) => Some(run),
        None => None,
    }
}

// The run of a round, by several workers. Each has a pass to one board.
fn by_workers<T: Threads + Sync, S: LendsStretches + Send + Sync, E: Enter + Sync>(
    rt: &T,
    alloc: Global,
    stretches: &S,
    workers: u32,
    hold: &E,
) -> Result<Run, NoMemory>
    requires round { let work = S.lent stretches.now in
        IsRound (checked_plan work.checked).fields work.chunks }
    requires some { 1 ≤ S.size stretches.now }
    requires few { S.size stretches.now ≤ limit.CHUNKS_MAX }
    requires workers { AreWorkers workers }
    ensures { let work = S.lent stretches.now in
        IfOk result (StandsForAll (checked_plan work.checked) work.limit work.chunks) }
{
    let made = board_over(alloc, stretches, workers)?;
    let Made { board, passes } = made;
    let numbered = numbered(alloc, &board, passes)?;
    let done = map_vec(
        rt,
        alloc,
        numbered,
        &|worker: Worker<RunPiece<S>>| -> Pass<RunPiece<S>>
            requires { let s = stretches.now in
                IsNewPassOf board worker.pass × IsBoardOf s (S.lent s) (S.size s) board }
            ensures { IsPassOf board result }
        { work_stretches(alloc, &board, stretches, worker, hold) },
    )?;
    match closed(board, done) {
        Some(run) => Ok(run),
        None => Err(NoMemory),
    }
}

/// The run of all chunks of a round, which is the work's: the first row that is no record, or each
/// key's chain. As many workers as are asked for, but no more than there are chunks, work at once.
/// The chunks are cut into a stretch for each worker, of neighbouring chunks. A worker claims
/// a stretch, tells `hold` of each of its chunks, makes the stretch's run and joins it with
/// neighbouring ones that are there, until no stretch is left. With one worker no thread is made, and
/// no record is explored: there is nobody to work beside.
/// The result doesn't depend on the number of workers or on who claimed what.
///
/// `NoMemory` where an allocation failed.
pub fn worked<T: Threads + Sync, E: Enter + Sync>(
    rt: &T,
    alloc: Global,
    work: &Work,
    workers: u32,
    hold: &E,
) -> Result<Run, NoMemory>
    requires round { IsRound (checked_plan work.now.checked).fields work.now.chunks }
    requires limit { IsLimit work.now.limit }
    requires workers { AreWorkers workers }
    ensures { let p = checked_plan work.now.checked in
        IfOk result (StandsForAll p work.now.limit work.now.chunks) }
{
    let chunks = work.chunks.len() as u32;
    if workers.min(chunks) == 1 {
        let whole = ChunkRange {
            first: 0,
            end: chunks,
        };
        return run_between(alloc, work, 0, whole, u32::MAX, hold);
    }
    let each = chunks.div_ceil(workers * STRETCHES);
    by_workers(rt, alloc, &Stretches { work, each }, workers, hold)
}
