//! An observer whose log contracts see: the log of a book of `logbook`, which takes no bytes.
ghost use Rattle.std.specs.Prelude.{◌≡◌, ◌+◌, ◌++◌, ◌∷◌, [], length, None, Some, MatchBool};
ghost use Rattle.sym_watch.specs.Partials.{last_border};
ghost use Rattle.sym_watch_tests.specs.Books.{length_of};

use logbook::{Gain, Offer, Plain, Play, Rule, Seen, Start, Word};
use std::alloc::Global;
use sym_base::NoMemory;
use sym_watch::{Observer, Partial};

/// The rule of the book.
pub(crate) struct Law;

impl Rule<Partial, u64> for Law {
    ghost use Rattle.std.specs.Prelude.{[]};
    ghost use base.Fml.{ftrue};
    ghost use Rattle.sym_watch_tests.specs.Books.{IsCounted};

    ghost holds = { λ cells log. IsCounted cells log };

    ghost first = { [] };

    ghost hinted = { λ n log. Unit {0} };

    ghost shows = { λ log. [] };

    ghost keeps = { λ names log. ftrue };

    ghost moves = { λ ask before after answer. Unit {0} };
}

/// What is traded for an entry: nothing.
pub(crate) struct Free;

impl Gain<Partial, u64> for Free {
    ghost use base.Fml.{ftrue};

    ghost after = { λ names about answer. ftrue };
}

/// The step that appends a partial.
pub(crate) struct Appending;

impl Play<Partial, u64> for Appending {
    ghost use Rattle.sym_watch_tests.specs.Books.{Appends};

    ghost then = { Appends };
}

impl Plain<Partial, Partial, u64> for Appending {
    ghost use Rattle.std.specs.Prelude.{None};

    ghost ask = { λ partial. partial };

    ghost state = { λ partial. None };
}

/// A list that the book has reached. It takes no bytes.
type Reached = Seen<Partial, u64, Law>;

/// The word that is the length of the list.
type Length = Word<Partial, u64, Law>;

// A book with an empty list, and the word of its length.
fn open() -> (Length, Reached)
    ensures { (result.0 ≡ length_of result.1.book) × (result.1.log ≡ []) }
{
    let (seen, mut first, _second) = Reached::open(Start::alone(), 0, 0);
    (Word::tracked(0, &mut first), seen)
}

// Appends a partial to a list of this length; whether it did.
fn append(head: &Length, seen: &mut Reached, count: u64, next: u64, partial: &Partial) -> bool
    requires head { head.now ≡ length_of seen.old.book }
    requires count { (count ≡ length seen.old.log) × (next ≡ count + 1) }
    ensures book { seen.new.book ≡ seen.old.book }
    ensures log { MatchBool result (seen.new.log ≡ seen.old.log ++ partial.now ∷ []) (Unit {0}) }
{
    let mut offer: Offer<Partial, u64, Law, Free> = seen.plain::<Free, Partial, Appending>(partial);
    let mut pen = seen.no_pen();
    let found = head.compare_exchange::<Appending, Free>(count, next, seen, &mut offer, &mut pen);
    found == count
}

/// An observer whose log contracts see. It keeps no partial: what it was told of is the log of a
/// book, which is there in proofs alone, but for its length.
pub(crate) struct Logger {
    head: Length,
    told: Reached,
    count: u64,
    last: Option<u64>,
    ghost head_is: { head ≡ length_of told.book },
    ghost count_is: { count ≡ length told.log },
    ghost last_is: { last ≡ last_border told.log },
}

impl Drop for Logger {
    fn drop(self) {
        let Logger {
            head: _head,
            told: _told,
            count: _,
            last: _,
        } = self;
    }
}

impl Logger {
    /// An observer that was told of nothing.
    pub(crate) fn new() -> Logger
        ensures told { result.told.log ≡ [] }
    {
        let (head, told) = open();
        Logger {
            head,
            told,
            count: 0,
            last: None,
        }
    }
}

impl Observer for Logger {
    ghost use Rattle.std.specs.Prelude.{Some};

    ghost log = { λ o. Some o.told.log };

    ghost last = { λ o. o.last };

    fn tell(&mut self, _alloc: Global, partial: &Partial) -> Result<(), NoMemory> {
        let next = self.count.checked_add(1).ok_or(NoMemory)?;
        let mut told = self.told.again();
        if !append(&self.head, &mut told, self.count, next, partial) {
            return Err(NoMemory);
        }
        self.told = told;
        self.count = next;
        self.last = Some(partial.upto);
        Ok(())
    }

    fn last(&self) -> Option<u64> {
        self.last
    }
}
