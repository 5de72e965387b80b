//! Which chunks of a round have a row in a trace.
ghost use Rattle.std.specs.Prelude.{◌≡◌, ◌≤◌, ◌<◌, ◌+◌, ◌-◌, ◌%◌, ℕ, true, false, drop, length, take};
ghost use Rattle.std.specs.List.{All};
ghost use Rattle.sym_trace.specs.Showing.{IsShownPart, ShowsNone, ShowsOne, ShowsOneAt};

use sym_table::Chunk;

/// Neighbouring chunks of a round: those from `first` up to but without `end`, counted from 0.
#[derive(Clone, Copy)]
pub(crate) struct ShownPart {
    pub(crate) first: usize,
    pub(crate) end: usize,
}

// How many numbers there are, from this one on, before the first that `every` divides.
fn before_shown(no: u64, every: u64) -> u64
    requires { 1 ≤ every }
    ensures shown { (no + result) % every ≡ 0 }
    ensures first { (other : ℕ) → no ≤ other → other < no + result → ¬ (other % every ≡ 0) }
{
    let over = no % every;
    if over == 0 { 0 } else { every - over }
}

// Whether `every` divides the number of one of the chunk's rows.
fn shows_one(chunk: &Chunk, every: u64) -> bool
    requires { 1 ≤ every }
    ensures some { result ≡ true → ShowsOne every chunk.now }
    ensures none { result ≡ false → ShowsNone every chunk.now }
{
    before_shown(chunk.first_no, every) < chunk.rows.len() as u64
}

// How many chunks there are before the first one with a row.
fn first_shown(chunks: &[Chunk], every: u64) -> usize
    requires { 1 ≤ every }
    ensures within { result ≤ length chunks.now }
    ensures before { All (ShowsNone every) (take result chunks.now) }
    ensures first { result < length chunks.now → ShowsOneAt every chunks.now result }
{
    'chunks: for (number, chunk) in chunks.iter().enumerate() {
        if shows_one(chunk, every) {
            return number;
        }
    }
    chunks.len()
}

// How many chunks there are up to the last one with a row, that one included, but at least `first`.
fn end_shown(chunks: &[Chunk], first: usize, every: u64) -> usize
    requires every { 1 ≤ every }
    requires first { first ≤ length chunks.now }
    ensures some { first ≤ result }
    ensures within { result ≤ length chunks.now }
    ensures after { All (ShowsNone every) (drop result chunks.now) }
    ensures last { first < result → ShowsOneAt every chunks.now (result - 1) }
{
    let mut end = chunks.len();
    'chunks: while end > first {
        if shows_one(&chunks[end - 1], every) {
            return end;
        }
        end -= 1;
    }
    end
}

/// The chunks from the first one with a row to the last, that one included. Where none has one,
/// they are none, and all chunks are before them.
pub(crate) fn shown_part(chunks: &[Chunk], every: u64) -> ShownPart
    requires { 1 ≤ every }
    ensures { IsShownPart every chunks.now result }
{
    let first = first_shown(chunks, every);
    let end = end_shown(chunks, first, every);
    ShownPart { first, end }
}
