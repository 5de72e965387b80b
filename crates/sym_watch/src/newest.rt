//! What is shown to watchers: the newest partial, with the list that it is the last one of.
ghost use Rattle.std.specs.Prelude.{◌≡◌};

use crate::book::Reached;
use crate::partial::Partial;
use atomic_table::{Join, Split};
use crossbeam_utils::rule::{Outcome, Protocol};
use left_right::Absorb;
use std::alloc::{AllocError, Global};

/// The last partial of a list that the book has reached, and how many the list has.
#[derive(Drop)]
pub(crate) struct Newest {
    pub(crate) count: u64,
    pub(crate) last: Option<Partial>,
    pub(crate) seen: Reached,
}

/// A partial that is shown next: the last one of a list with so many.
#[derive(Drop)]
pub(crate) struct Entry {
    pub(crate) alloc: Global,
    pub(crate) partial: Partial,
    pub(crate) count: u64,
    pub(crate) seen: Reached,
}

impl Absorb<Entry> for Newest {
    ghost use Rattle.sym_watch.specs.Newests.{put};

    type State = Newest;

    ghost state = { λ newest. newest };

    ghost applied = { put };

    fn absorb_first(&mut self, entry: &Entry, _other: &Newest) -> Result<(), AllocError> {
        let partial = entry.partial.copy(entry.alloc).map_err(|_| AllocError)?;
        self.count = entry.count;
        self.last = Some(partial);
        self.seen = entry.seen.again();
        Ok(())
    }

    fn absorb_second(&mut self, entry: Entry, _other: &Newest) -> Result<(), Entry> {
        let Entry {
            alloc: _,
            partial,
            count,
            seen,
        } = entry;
        self.count = count;
        self.last = Some(partial);
        self.seen = seen;
        Ok(())
    }
}

/// The numbers that tell a book from others. No value of it is made.
pub struct BookName {
    pub number: u64,
    pub log_name: u64,
    pub cells_name: u64,
}

/// The rule over what is shown. A thread knows the book, or not yet.
pub(crate) struct Course;

impl Protocol<Newest, Option<BookName>> for Course {
    ghost use Rattle.std.specs.Prelude.{None};
    ghost use Rattle.sym_watch.specs.Newests.{Shows};

    ghost holds = { Shows };

    ghost first = { None };
}

/// A look.
pub(crate) struct Looking;

impl Outcome<Newest, Option<BookName>> for Looking {
    ghost use Rattle.sym_watch.specs.Newests.{Looks};

    ghost then = { Looks };
}

/// A publish.
pub(crate) struct Adding;

impl Outcome<Newest, Option<BookName>> for Adding {
    ghost use Rattle.sym_watch.specs.Newests.{Adds};

    ghost then = { Adds };
}

/// The first publish, of nothing new.
pub(crate) struct Beginning;

impl Outcome<Newest, Option<BookName>> for Beginning {
    ghost use Rattle.sym_watch.specs.Newests.{Begins};

    ghost then = { Begins };
}

/// The publisher tells which book it is.
pub(crate) struct Sharing;

impl Split<Option<BookName>> for Sharing {
    ghost left = { λ view. view };

    ghost right = { λ view. view };
}

/// A watcher learns which book it is.
pub(crate) struct Hearing;

impl Join<Option<BookName>> for Hearing {
    ghost use Rattle.std.specs.Prelude.{None};

    ghost both = { λ old told. told };

    ghost spent = { None };
}
