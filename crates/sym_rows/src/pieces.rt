//! Reading pieces one after the other.
ghost use Rattle.std.specs.Prelude.{◌≡◌, [], map};
ghost use Rattle.std.specs.List.{concat};
ghost use Rattle.sym_rows.specs.Pieces.{pieces_left};

use std::alloc::Global;
use std::io;
use std::io::Read;

/// Pieces of bytes that are read one after the other, where they lie.
#[derive(Drop)]
pub struct Pieces<'a> {
    // What is left of the piece that is read.
    now: &'a [u8],
    all: Vec<&'a [u8]>,
    // How many pieces were begun.
    begun: usize,
}

impl<'a> Pieces<'a> {
    /// One piece. It takes no memory.
    pub fn one(alloc: Global, bytes: &'a [u8]) -> Pieces<'a>
        ensures { pieces_left result ≡ bytes.now }
    {
        Pieces {
            now: bytes,
            all: Vec::new(alloc),
            begun: 0,
        }
    }

    /// These pieces, in order.
    pub fn of(pieces: Vec<&'a [u8]>) -> Pieces<'a>
        ensures { pieces_left result ≡ concat (map (λ piece. piece.now) pieces.entry.items) }
    {
        Pieces {
            now: &[],
            all: pieces,
            begun: 0,
        }
    }

    // Goes on with the next piece that has bytes, where the one that is read has none left.
    fn go_on(&mut self)
        ensures left { pieces_left self.new ≡ pieces_left self.old }
        ensures end { self.new.now.now ≡ [] → pieces_left self.new ≡ [] }
    {
        'pieces: while self.now.is_empty() && self.begun < self.all.len() {
            self.now = self.all[self.begun];
            self.begun += 1;
        }
    }
}

impl<'a> Read for Pieces<'a> {
    ghost use Rattle.std.specs.Prelude.{Some};
    ghost use Rattle.sym_rows.specs.Pieces.{pieces_left};

    ghost remaining = { λ p. Some (pieces_left p) };

    fn read(&mut self, buf: &mut [u8]) -> io::Result<usize> {
        self.go_on();
        self.now.read(buf)
    }
}
