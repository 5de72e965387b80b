//! A round on a board: workers claim the chunks of an input, each makes its piece and carries it up,
//! and one piece stands for the whole input in the end. The input here is a number of chunks, and a
//! piece lists the numbers of its chunks, so a round gives 0 to n - 1 in order, whatever worker
//! claimed which chunk.
ghost use Rattle.std.specs.Prelude.{◌≡◌, ℕ, ◌+◌, ◌-◌, ◌*◌, ◌/◌, ◌<◌, ◌≤◌, All, IfOk, IfSome, IfNone, vec_len};
ghost use Rattle.std.specs.Thread.{IsSync};
ghost use Rattle.sym_board.specs.Passes.{board_leaves, board_seats, board_input, IsPassOf, IsFree, IsNewPassOf};
ghost use Rattle.sym_uses.specs.Rounds.{Counts, IsDone};

use std::alloc::Global;
use std::thread;
use std::thread::Threads;
use sym_base::NoMemory;
use sym_board::{Board, LEAVES_MAX, Made, Pass, Piece, SEATS_MAX};

/// An input: so many chunks.
#[derive(Drop)]
pub struct Work {
    pub chunks: u32,
}

/// The numbers of neighbouring chunks.
#[derive(Drop)]
pub struct Row {
    pub numbers: Vec<u32>,
}

impl Piece for Row {
    ghost use Rattle.sym_uses.specs.Rounds.{Stands};

    type Input = Work;

    ghost stands_for = { Stands };

    fn join(self, _alloc: Global, _input: &Work, right: Row) -> Result<Row, NoMemory> {
        let Row { mut numbers } = self;
        numbers.extend_from_slice(right.numbers.as_slice())?;
        Ok(Row { numbers })
    }
}

// The piece of one chunk.
fn leaf(alloc: Global, chunk: u32) -> Result<Row, NoMemory>
    ensures { IfOk result (λ row. Counts chunk (chunk + 1) row.numbers.items) }
{
    let mut numbers = Vec::new(alloc);
    numbers.push(chunk)?;
    Ok(Row { numbers })
}

// A worker claims chunks and carries their pieces up, until every chunk is claimed or an allocation
// fails.
fn run_worker(alloc: Global, board: &Board<Row>, input: &Work, mut pass: Pass<Row>) -> Pass<Row>
    requires pass { IsPassOf board.now pass × IsFree pass }
    requires input { board_input board.now ≡ input.now }
    requires leaves { board_leaves board.now ≡ input.now.chunks }
    ensures { IsPassOf board.now result }
{
    'chunks: while let Some(chunk) = board.claim(&mut pass) {
        let Ok(piece) = leaf(alloc, chunk) else {
            return pass;
        };
        if board.carry(alloc, input, &mut pass, piece).is_err() {
            return pass;
        }
    }
    pass
}

// The numbers of the piece that stands for the whole input. There is one wherever all workers got to
// the end.
fn numbers_of(board: Board<Row>, passes: Vec<Pass<Row>>) -> Option<Vec<u32>>
    requires of { All (λ p. IsPassOf board p) passes.items }
    requires all { vec_len passes ≡ board_seats board }
    ensures some { IfSome result (λ numbers. Counts 0 (board_leaves board) numbers.items) }
    ensures none { IfNone result (¬ All (λ p. IsDone p) passes.items) }
{
    match board.close(passes) {
        Some(row) => Some(row.numbers),
        None => None,
    }
}

/// A round whose workers are the calls of one `map_vec`.
pub fn by_map<R: Threads + Sync>(
    rt: &R,
    alloc: Global,
    chunks: u32,
    workers: u32,
) -> Result<Vec<u32>, NoMemory>
    requires chunks { (1 ≤ chunks) × (chunks ≤ LEAVES_MAX) }
    requires workers { (1 ≤ workers) × (workers ≤ SEATS_MAX) }
    ensures { IfOk result (λ numbers. Counts 0 chunks numbers.items) }
{
    let input = Work { chunks };
    let Made { board, passes } = Board::new(alloc, &input, chunks, workers)?;
    let done = thread::map_vec(
        rt,
        passes,
        &|pass: Pass<Row>| -> Pass<Row>
            requires { IsNewPassOf board pass × (board_input board ≡ input)
                × (board_leaves board ≡ input.chunks) }
            ensures { IsPassOf board result }
        { run_worker(alloc, &board, &input, pass) },
    )?;
    numbers_of(board, done).ok_or(NoMemory)
}

// The passes are worked in two halves at once, and each half likewise, down to one pass.
fn work_halves<R: Threads + Sync>(
    rt: &R,
    alloc: Global,
    board: &Board<Row>,
    input: &Work,
    mut passes: Vec<Pass<Row>>,
) -> Result<Vec<Pass<Row>>, NoMemory>
    requires passes { All (λ p. IsNewPassOf board.now p) passes.items }
    requires input { board_input board.now ≡ input.now }
    requires leaves { board_leaves board.now ≡ input.now.chunks }
    ensures len { IfOk result (λ done. vec_len done ≡ vec_len passes) }
    ensures of { IfOk result (λ done. All (λ p. IsPassOf board.now p) done.items) }
{
    if passes.len() <= 1 {
        let mut done = Vec::new(alloc);
        if let Some(pass) = passes.pop() {
            done.push(run_worker(alloc, board, input, pass))?;
        }
        return Ok(done);
    }
    let rest = passes.split_off(passes.len() / 2)?;
    let (left, right) = thread::join(
        rt,
        move || -> Result<Vec<Pass<Row>>, NoMemory>
            requires { IsSync R.row × All (λ p. IsNewPassOf board.now p) passes.items
                × (board_input board.now ≡ input.now)
                × (board_leaves board.now ≡ input.now.chunks) }
            ensures len { IfOk result (λ done. vec_len done ≡ vec_len passes) }
            ensures of { IfOk result (λ done. All (λ p. IsPassOf board.entry.now p) done.items) }
        { work_halves(rt, alloc, board, input, passes) },
        move || -> Result<Vec<Pass<Row>>, NoMemory>
            requires { IsSync R.row × All (λ p. IsNewPassOf board.now p) rest.items
                × (board_input board.now ≡ input.now)
                × (board_leaves board.now ≡ input.now.chunks) }
            ensures len { IfOk result (λ done. vec_len done ≡ vec_len rest) }
            ensures of { IfOk result (λ done. All (λ p. IsPassOf board.entry.now p) done.items) }
        { work_halves(rt, alloc, board, input, rest) },
    );
    let mut done = left?;
    let mut more = right?;
    done.append(&mut more)?;
    Ok(done)
}

/// A round whose workers are the two closures of a `join`, halves by halves.
pub fn by_halves<R: Threads + Sync>(
    rt: &R,
    alloc: Global,
    chunks: u32,
    workers: u32,
) -> Result<Vec<u32>, NoMemory>
    requires chunks { (1 ≤ chunks) × (chunks ≤ LEAVES_MAX) }
    requires workers { (1 ≤ workers) × (workers ≤ SEATS_MAX) }
    ensures { IfOk result (λ numbers. Counts 0 chunks numbers.items) }
{
    let input = Work { chunks };
    let Made { board, passes } = Board::new(alloc, &input, chunks, workers)?;
    let done = work_halves(rt, alloc, &board, &input, passes)?;
    numbers_of(board, done).ok_or(NoMemory)
}

#[cfg(test)]
mod tests {
    use super::*;
    use std::test::Fail;

    // Whether these are the numbers from 0 up to `chunks`.
    fn count_up(numbers: &[u32], chunks: u32) -> bool {
        let mut same = numbers.len() == chunks as usize;
        for (number, expected) in numbers.iter().zip(0..chunks) {
            same = same && *number == expected;
        }
        same
    }

    // Whether both rounds give the numbers of all chunks in order.
    fn rounds_agree<R: Threads + Sync>(
        rt: &R,
        alloc: Global,
        chunks: u32,
        workers: u32,
    ) -> Result<bool, NoMemory>
        requires chunks { (1 ≤ chunks) × (chunks ≤ LEAVES_MAX) }
        requires workers { (1 ≤ workers) × (workers ≤ SEATS_MAX) }
    {
        let mapped = by_map(rt, alloc, chunks, workers)?;
        let halved = by_halves(rt, alloc, chunks, workers)?;
        Ok(count_up(mapped.as_slice(), chunks) && count_up(halved.as_slice(), chunks))
    }

    #[test]
    fn any_number_of_workers_gives_all_chunks_in_order(rt: HostRuntime) -> Result<(), Fail> {
        assert!(rt; rounds_agree(&rt, rt.alloc(), 1, 1)?);
        assert!(rt; rounds_agree(&rt, rt.alloc(), 5, 2)?);
        assert!(rt; rounds_agree(&rt, rt.alloc(), 2, 3)?);
        assert!(rt; rounds_agree(&rt, rt.alloc(), LEAVES_MAX, 1)?);
        assert!(rt; rounds_agree(&rt, rt.alloc(), LEAVES_MAX, 8)?);
        assert!(rt; rounds_agree(&rt, rt.alloc(), LEAVES_MAX, SEATS_MAX)?);
        Ok(())
    }
}
