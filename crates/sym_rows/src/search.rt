//! Where pieces of whole rows end.
ghost use Rattle.std.specs.Prelude.{◌≡◌, ◌≤◌, ◌<◌, ◌+◌, not, true, length, slice_index};
ghost use Rattle.sym_rows.specs.Pieces.{IsNextPiece, IsPassed};
ghost use Rattle.sym_rows.specs.Places.{is_between, one_if, place_of};
ghost use Rattle.sym_rows.specs.Rows.{is_line_end};

use crate::blocks::{BLOCK, ends_in};
use crate::place::{Place, is_between, is_line_end, is_quoted, next_step, place_of};

/// A piece of whole rows: where it ends, how many rows it has, and whether it ends within quotes.
#[derive(Clone, Copy)]
pub struct Piece {
    pub end: usize,
    pub rows: usize,
    pub quoted: bool,
}

/// How far bytes are passed over: where reading stands, and how many rows have ended.
#[derive(Clone, Copy)]
pub struct Passed {
    pub at: usize,
    pub rows: usize,
    pub place: Place,
}

// After the byte at `last`, which was read outside quotes.
fn after_byte(bytes: &[u8], last: usize, rows: usize) -> Passed
    requires { last < length bytes.now }
    ensures { let place = place_of (slice_index bytes.now last) in
        result ≡ record { at = last + 1; rows = rows; place = place } }
{
    Passed {
        at: last + 1,
        rows,
        place: place_of(bytes[last]),
    }
}

// Passes over the end of a line and over the blocks after it that have no quote, as long as fewer
// rows than `count` have ended.
fn pass_blocks(bytes: &[u8], from: usize, count: u32) -> Passed
    requires within { from < length bytes.now }
    requires begins { is_line_end (slice_index bytes.now from) ≡ true }
    requires some { 1 ≤ count }
    ensures { IsPassed bytes.now from count result }
{
    let most = count as usize;
    let mut last = from;
    let mut rows = 0;
    'block: while BLOCK < bytes.len() - last {
        let block = ends_in(&bytes[last..last + BLOCK + 1]);
        if block.quoted || most <= rows + block.rows {
            return after_byte(bytes, last, rows);
        }
        rows += block.rows;
        last += BLOCK;
    }
    after_byte(bytes, last, rows)
}

// Passes over what can be passed over block by block.
fn pass_plain(bytes: &[u8], from: usize, count: u32) -> Passed
    requires within { from ≤ length bytes.now }
    requires some { 1 ≤ count }
    ensures { IsPassed bytes.now from count result }
{
    if from < bytes.len() && is_line_end(bytes[from]) {
        return pass_blocks(bytes, from, count);
    }
    Passed {
        at: from,
        rows: 0,
        place: Place::Between,
    }
}

// 1 where a row is begun, else 0.
fn begun(place: Place) -> usize
    ensures { result ≡ one_if (not (is_between place)) }
{
    if is_between(place) { 0 } else { 1 }
}

/// The next piece from a place on: the next `count` rows, or those that are left. Bytes without a
/// quote are searched block by block; from a block with a quote on, each byte is read. A piece that
/// begins with the end of a line is one that can be read after others (`IsPiece`), unless it ends
/// within quotes.
pub fn next_piece(bytes: &[u8], from: usize, count: u32) -> Piece
    requires within { from ≤ length bytes.now }
    requires some { 1 ≤ count }
    ensures { IsNextPiece bytes.now from count result }
{
    let most = count as usize;
    let start = pass_plain(bytes, from, count);
    let mut at = start.at;
    let mut rows = start.rows;
    let mut place = start.place;
    'bytes: while at < bytes.len() {
        let step = next_step(place, bytes[at]);
        if step.ends {
            rows += 1;
            if rows == most {
                return Piece {
                    end: at,
                    rows,
                    quoted: false,
                };
            }
        }
        place = step.at;
        at += 1;
    }
    Piece {
        end: at,
        rows: rows + begun(place),
        quoted: is_quoted(place),
    }
}
