//! Counting where rows end in a block of bytes without a quote.
ghost use Rattle.std.specs.Prelude.{◌≡◌, ◌==◌, ◌&&◌, not, length};
ghost use Rattle.sym_rows.specs.Pieces.{AreEnds};
ghost use Rattle.sym_rows.specs.Places.{one_if};
ghost use Rattle.sym_rows.specs.Rows.{is_line_end};

use crate::place::is_line_end;

/// How many bytes are counted in one go: so many that a count of them fits into a byte.
pub const BLOCK: usize = 128;

/// How many rows end in a block, and whether it has a quote.
#[derive(Clone, Copy)]
pub struct Ends {
    pub rows: usize,
    pub quoted: bool,
}

// 1 where a line ends after a byte that ends none, else 0.
fn one_end(before: u8, byte: u8) -> u8
    ensures { result ≡ one_if (is_line_end byte && not (is_line_end before)) }
{
    (is_line_end(byte) & !is_line_end(before)) as u8
}

fn one_quote(byte: u8) -> u8
    ensures { result ≡ one_if (byte == 34) }
{
    (byte == b'"') as u8
}

/// How many rows end in a block. `window` has the byte before it and then the block's. The loop has
/// no branch, so the compiler makes vectors of it.
pub fn ends_in(window: &[u8]) -> Ends
    requires { length window.now ≡ 129 }
    ensures { AreEnds window.now result }
{
    let mut rows = 0u8;
    let mut quotes = 0u8;
    'bytes: for index in 0..BLOCK {
        let byte = window[index + 1];
        rows += one_end(window[index], byte);
        quotes += one_quote(byte);
    }
    Ends {
        rows: rows as usize,
        quoted: quotes != 0,
    }
}
