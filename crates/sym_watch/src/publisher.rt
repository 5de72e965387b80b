//! The one that publishes partials, and what it tells of its list.
ghost use Rattle.std.specs.Prelude.{◌≡◌, ◌++◌, ◌∷◌, [], true, false, length, drop, Some, IsErr, OnOk, OnErr};
ghost use Rattle.sym_plain.specs.Shown.{last};
ghost use Rattle.sym_watch.specs.Partials.{MayFollow};
ghost use Rattle.sym_watch.specs.declared.newest.Entry.{Entry};

use crate::book::{Length, Reached, append};
use crate::newest::{Adding, BookName, Course, Entry, Newest};
use crate::partial::Partial;
use core::mem::replace_with;
use left_right::writer::Writer;
use std::alloc::{AllocError, Global};
use std::marker::Model;
use std::sync::Wait;
use sym_base::NoMemory;

/// What shows the newest partial to watchers.
pub(crate) type Board = Writer<Newest, Entry, Option<BookName>, Course>;

/// Publishes partials, one after the other. Contracts see the list of what it has published, which
/// publisher it is, and whether a publish has failed. It isn't `Drop`: whoever called
/// [`watch`](crate::watch) ends it by [`end`](Publisher::end).
pub struct Publisher {
    pub(crate) board: Board,
    pub(crate) head: Length,
    pub(crate) seen: Reached,
    pub(crate) count: u64,
    pub(crate) failed: bool,
}

impl Model for Publisher {
    ghost use Rattle.std.specs.Prelude.{◌≡◌, false, [], length, drop};
    ghost use Rattle.sym_watch.specs.Books.{length_of};
    ghost use Rattle.sym_watch.specs.Lists.{PublishedList};

    ghost Value = { PublishedList };

    ghost view = { λ p. record { of = p.seen.book; list = p.seen.log; failed = p.failed } };

    ghost invariant = { λ p. (p.count ≡ length p.seen.log) × (p.head ≡ length_of p.seen.book)
        × (p.board.desk.shown.value.seen.book ≡ p.seen.book)
        × (p.failed ≡ false → drop p.board.behind p.board.log.items ≡ []) };
}

/// A list that was published so far, which a watcher is told of. Contracts see the list, and of
/// which publisher it is. It has a number and no partial.
pub struct Told {
    pub(crate) seen: Reached,
    pub(crate) count: u64,
}

impl Drop for Told {
    fn drop(self) {
        let Told {
            seen: _seen,
            count: _,
        } = self;
    }
}

impl Model for Told {
    ghost use Rattle.std.specs.Prelude.{◌≡◌, length};
    ghost use Rattle.sym_watch.specs.Lists.{ToldList};

    ghost Value = { ToldList };

    ghost view = { λ t. record { of = t.seen.book; list = t.seen.log } };

    ghost invariant = { λ t. t.count ≡ length t.seen.log };
}

impl Told {
    // The list that the book has reached, and how many it has.
    pub(crate) fn into_parts(self) -> (Reached, u64)
        ensures list { (result.0.book ≡ self.of) × (result.0.log ≡ self.list) }
        ensures count { result.1 ≡ length self.list }
    {
        let Told { seen, count } = self;
        (seen, count)
    }
}

// Shows the one entry that is pending.
fn show<T: Wait>(board: Board, rt: &T) -> (Board, Result<(), AllocError>)
    requires pending { (e : Entry) × (drop board.behind board.log.items ≡ e ∷ [])
        × (e.seen.book ≡ board.desk.shown.value.seen.book) × (length e.seen.log ≡ e.count)
        × (last e.seen.log ≡ Some e.partial) }
    ensures book { result.0.desk.shown.value.seen.book ≡ board.desk.shown.value.seen.book }
    ensures ok { OnOk result.1 (drop result.0.behind result.0.log.items ≡ []) }
{
    board.publish_as::<Adding, T>(rt)
}

impl Publisher {
    // Appends a partial to the list, and shows it. After an `Err` the list is as before.
    fn add<T: Wait>(&mut self, rt: &T, alloc: Global, partial: Partial) -> Result<(), NoMemory>
        requires follows { MayFollow self.old.list partial }
        requires going { self.old.failed ≡ false }
        ensures of { self.new.of ≡ self.old.of }
        ensures ok { OnOk result ((self.new.list ≡ self.old.list ++ partial ∷ [])
            × (self.new.failed ≡ false)) }
        ensures err { OnErr result ((self.new.list ≡ self.old.list)
            × (self.new.failed ≡ true)) }
    {
        self.failed = true;
        let count = self.count.checked_add(1).ok_or(NoMemory)?;
        let mut seen = self.seen.again();
        if !append(&self.head, &mut seen, self.count, count, &partial) {
            return Err(NoMemory);
        }
        let entry = Entry {
            alloc,
            partial,
            count,
            seen: seen.again(),
        };
        if self.board.append(entry).is_err() {
            return Err(NoMemory);
        }
        replace_with(&mut self.board, rt, show::<T>)?;
        self.seen = seen;
        self.count = count;
        self.failed = false;
        Ok(())
    }

    /// Publishes a partial: `Ok` appends it to the list. After an `Err`, for which an allocation has
    /// failed, the list is as before, and every later call gives an `Err` too. It may wait for
    /// watchers that are looking.
    ///
    /// Condition: the border isn't below that of the last one published.
    pub fn publish<T: Wait>(
        &mut self,
        rt: &T,
        alloc: Global,
        partial: Partial,
    ) -> Result<(), NoMemory>
        requires { MayFollow self.old.list partial }
        ensures of { self.new.of ≡ self.old.of }
        ensures ok { OnOk result (self.new.list ≡ self.old.list ++ partial ∷ []) }
        ensures err { OnErr result (self.new.list ≡ self.old.list) }
        ensures going { OnOk result (self.new.failed ≡ false) }
        ensures failed { OnErr result (self.new.failed ≡ true) }
        ensures fails { self.old.failed ≡ true → IsErr result }
    {
        if self.failed {
            return Err(NoMemory);
        }
        self.add(rt, alloc, partial)
    }

    /// The list that was published so far, for a watcher to learn of. It takes no memory.
    pub fn tell(&self) -> Told
        ensures { result ≡ record { of = self.now.of; list = self.now.list } }
    {
        Told {
            seen: self.seen.again(),
            count: self.count,
        }
    }

    /// Ends the publisher. It takes no memory, and it may wait for watchers that are looking.
    /// Afterwards a [`look`](crate::Watcher::look) may give an `Err` in place of any other answer.
    pub fn end<T: Wait>(self, rt: &T) {
        let Publisher {
            board,
            head: _head,
            seen: _seen,
            count: _,
            failed: _,
        } = self;
        board.take(rt);
    }
}
