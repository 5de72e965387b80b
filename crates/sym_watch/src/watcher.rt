//! What looks at the partials that are published.
ghost use Rattle.std.specs.Prelude.{◌≡◌, ◌↔◌, ◌⊎◌, [], length, Some, OnOk, OnErr, IfOk, IfSome, MatchBool};
ghost use mathlib.Core.List.{IsPrefix};
ghost use Rattle.logbook.specs.Pages.{Book};
ghost use Rattle.left_right.specs.Sides.{view};
ghost use Rattle.sym_plain.specs.Shown.{last};
ghost use Rattle.sym_watch.specs.Partials.{Rises};
ghost use Rattle.sym_watch.specs.Looks.{shown};
ghost use Rattle.sym_watch.specs.Newests.{name_of};

use crate::book::{Reached, compare};
use crate::look::Looked;
use crate::newest::{BookName, Course, Looking, Newest};
use crate::partial::Partial;
use crate::publisher::{Publisher, Told};
use core::mem::replace_with;
use left_right::reader::Reader;
use std::alloc::Global;
use std::marker::Model;
use sym_base::NoMemory;

/// What a watcher reads from.
pub(crate) type Seat = Reader<Newest, Option<BookName>, Course>;

/// Looks at what a publisher has published, in any thread. Contracts see the list of what it has
/// seen, the longest list that it was told of, and of which publisher it is.
pub struct Watcher {
    pub(crate) seat: Seat,
    pub(crate) seen: Reached,
    pub(crate) count: u64,
    pub(crate) told: Reached,
    pub(crate) told_count: u64,
}

impl Drop for Watcher {
    fn drop(self) {
        let Watcher {
            seat: _seat,
            seen: _seen,
            count: _,
            told: _told,
            told_count: _,
        } = self;
    }
}

impl Model for Watcher {
    ghost use Rattle.std.specs.Prelude.{◌≡◌, Some, length};
    ghost use Rattle.left_right.specs.Sides.{view as known};
    ghost use Rattle.sym_watch.specs.Lists.{SeenList};
    ghost use Rattle.sym_watch.specs.Newests.{name_of};

    ghost Value = { SeenList };

    ghost view = { λ w. record { of = w.seen.book; seen = w.seen.log; told = w.told.log } };

    ghost invariant = { λ w. (known w.seat.place ≡ Some (name_of w.seen.book))
        × (w.told.book ≡ w.seen.book)
        × (w.count ≡ length w.seen.log) × (w.told_count ≡ length w.told.log) };
}

// What one look found: the list, how many it has, and a copy of its last partial.
#[derive(Drop)]
struct Found {
    seen: Reached,
    count: u64,
    looked: Result<Looked, NoMemory>,
}

// A copy of the newest partial, if there is one.
fn copy_last(alloc: Global, newest: &Option<Partial>) -> Result<Looked, NoMemory>
    ensures { IfOk result (λ l. shown l ≡ newest.now) }
{
    match newest {
        Some(partial) => Ok(Looked::Seen(partial.copy(alloc)?)),
        None => Ok(Looked::Nothing),
    }
}

// Looks once; None where the publisher has ended.
fn find(seat: Seat, alloc: Global) -> (Seat, Option<Found>)
    ensures kept { view result.0.place ≡ view seat.place }
    ensures book { IfSome result.1
        (λ f. (b : Book) → view seat.place ≡ Some (name_of b) → f.seen.book ≡ b) }
    ensures count { IfSome result.1 (λ f. f.count ≡ length f.seen.log) }
    ensures last { IfSome result.1 (λ f. IfOk f.looked (λ l. shown l ≡ last f.seen.log)) }
{
    match seat.enter_as::<Looking>() {
        Ok(reading) => {
            let newest = reading.get();
            let found = Found {
                seen: newest.seen.again(),
                count: newest.count,
                looked: copy_last(alloc, &newest.last),
            };
            (reading.leave(), Some(found))
        }
        Err(seat) => (seat, None),
    }
}

impl Watcher {
    /// Looks at the list of what was published. What was seen before is a prefix of what is seen
    /// now, along which borders never fall. After `Ok` each list that the watcher was told of is a
    /// prefix of it too, and the answer shows its last partial: it is `Nothing` exactly where the
    /// list is empty. It waits for nobody. An `Err` says that an allocation failed, or that the
    /// publisher has ended, and leaves the watcher as before.
    pub fn look(&mut self, alloc: Global) -> Result<Looked, NoMemory>
        ensures of { self.new.of ≡ self.old.of }
        ensures told { self.new.told ≡ self.old.told }
        ensures seen { IsPrefix self.old.seen self.new.seen }
        ensures all_told { OnOk result (IsPrefix self.old.told self.new.seen) }
        ensures rises { OnOk result (Rises self.new.seen) }
        ensures last { IfOk result (λ l. shown l ≡ last self.new.seen) }
        ensures nothing { IfOk result (λ l. (l ≡ Looked.Nothing) ↔ (self.new.seen ≡ [])) }
        ensures err { OnErr result (self.new ≡ self.old) }
    {
        let found = replace_with(&mut self.seat, alloc, find).ok_or(NoMemory)?;
        let Found {
            seen,
            count,
            looked,
        } = found;
        let looked = looked?;
        if count < self.count || count < self.told_count {
            return Err(NoMemory);
        }
        compare(&self.seen, &seen);
        compare(&self.told, &seen);
        self.seen = seen;
        self.count = count;
        Ok(looked)
    }

    /// Whether the publisher has published all that the watcher has seen. Then what was seen is a
    /// prefix of its list; else its list is a prefix of what was seen. So as far as both go they are
    /// one list, and a watcher has seen no partial in the place of one that was published.
    pub fn is_within(&self, publisher: &Publisher) -> bool
        requires { publisher.now.of ≡ self.now.of }
        ensures { MatchBool result (IsPrefix self.now.seen publisher.now.list)
            (IsPrefix publisher.now.list self.now.seen) }
    {
        if self.count <= publisher.count {
            compare(&self.seen, &publisher.seen);
            return true;
        }
        compare(&publisher.seen, &self.seen);
        false
    }

    /// The watcher is told of a list, of the same publisher: it is a prefix of what each later look
    /// sees. What was seen stays. It takes no memory.
    pub fn learn(&mut self, told: Told)
        requires { told.of ≡ self.old.of }
        ensures of { self.new.of ≡ self.old.of }
        ensures seen { self.new.seen ≡ self.old.seen }
        ensures before { IsPrefix self.old.told self.new.told }
        ensures told { IsPrefix told.list self.new.told }
        ensures one { (self.new.told ≡ told.list) ⊎ (self.new.told ≡ self.old.told) }
    {
        let (list, count) = told.into_parts();
        if count < self.told_count {
            compare(&list, &self.told);
            return;
        }
        compare(&self.told, &list);
        self.told = list;
        self.told_count = count;
    }
}
