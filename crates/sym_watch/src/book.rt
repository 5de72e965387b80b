//! The list of what was published, as the log of a book. It is there in proofs alone; its length is
//! one word, which the publisher has.
ghost use Rattle.std.specs.Prelude.{◌≡◌, ◌+◌, ◌≤◌, ◌++◌, ◌∷◌, [], length, MatchBool};
ghost use mathlib.Core.List.{IsPrefix};
ghost use Rattle.sym_watch.specs.Partials.{Rises, MayFollow};
ghost use Rattle.sym_watch.specs.Books.{length_of};

use crate::partial::Partial;
use logbook::{Gain, Offer, Plain, Play, Rule, Seen, Start, Word};

/// The rule of the book.
pub struct Law;

impl Rule<Partial, u64> for Law {
    ghost use Rattle.std.specs.Prelude.{[]};
    ghost use base.Fml.{ftrue};
    ghost use Rattle.sym_watch.specs.Books.{IsKept};

    ghost holds = { λ cells log. IsKept cells log };

    ghost first = { [] };

    ghost hinted = { λ n log. Unit {0} };

    ghost shows = { λ log. [] };

    ghost keeps = { λ names log. ftrue };

    ghost moves = { λ ask before after answer. Unit {0} };
}

/// What is traded for an entry: nothing.
pub struct Free;

impl Gain<Partial, u64> for Free {
    ghost use base.Fml.{ftrue};

    ghost after = { λ names about answer. ftrue };
}

/// The step that appends a partial.
pub struct Appending;

impl Play<Partial, u64> for Appending {
    ghost use Rattle.sym_watch.specs.Books.{Appends};

    ghost then = { Appends };
}

impl Plain<Partial, Partial, u64> for Appending {
    ghost use Rattle.std.specs.Prelude.{None};

    ghost ask = { λ partial. partial };

    ghost state = { λ partial. None };
}

/// A list that the book has reached. It takes no bytes.
pub(crate) type Reached = Seen<Partial, u64, Law>;

/// The word that is the length of the list.
pub(crate) type Length = Word<Partial, u64, Law>;

/// A book with an empty list, and the word of its length.
pub(crate) fn open() -> (Length, Reached)
    ensures { (result.0 ≡ length_of result.1.book) × (result.1.log ≡ []) }
{
    let (seen, mut first, _second) = Reached::open(Start::alone(), 0, 0);
    (Word::tracked(0, &mut first), seen)
}

/// Appends a partial to a list of this length; whether it did.
pub(crate) fn append(
    head: &Length,
    seen: &mut Reached,
    count: u64,
    next: u64,
    partial: &Partial,
) -> bool
    requires head { head.now ≡ length_of seen.old.book }
    requires count { (count ≡ length seen.old.log) × (next ≡ count + 1) }
    requires follows { MayFollow seen.old.log partial.now }
    ensures book { seen.new.book ≡ seen.old.book }
    ensures log { MatchBool result (seen.new.log ≡ seen.old.log ++ partial.now ∷ []) (Unit {0}) }
{
    let mut offer: Offer<Partial, u64, Law, Free> = seen.plain::<Free, Partial, Appending>(partial);
    let mut pen = seen.no_pen();
    let found = head.compare_exchange::<Appending, Free>(count, next, seen, &mut offer, &mut pen);
    found == count
}

/// Two lists of one book, of which the first is no longer than the second. It does nothing: it is a
/// lemma.
pub(crate) fn compare(short: &Reached, long: &Reached)
    requires book { long.now.book ≡ short.now.book }
    requires shorter { length short.now.log ≤ length long.now.log }
    ensures prefix { IsPrefix short.now.log long.now.log }
    ensures rises { Rises long.now.log }
{
    let mut both = short.again();
    both.learn(long);
}
