//! A new publisher and its watchers.
ghost use Rattle.std.specs.Prelude.{◌≡◌, ◌≤◌, false, [], drop, vec_len, All, Some, IfOk};
ghost use Rattle.left_right.specs.Sides.{view as known};
ghost use Rattle.sym_watch.specs.Newests.{name_of, IsNewest};
ghost use Rattle.sym_watch.specs.declared.start.TheConstants.{WATCHERS_MAX};

use crate::book::{Reached, open};
use crate::ends::Watch;
use crate::newest::{Beginning, Hearing, Newest, Sharing};
use crate::publisher::{Board, Publisher};
use crate::watcher::Watcher;
use left_right::writer::Writer;
use std::alloc::Global;
use std::sync::Wait;
use sym_base::NoMemory;

/// The most watchers that a publisher may have.
pub const WATCHERS_MAX: u32 = 64;

// What shows nothing yet, to so many watchers.
fn open_board(alloc: Global, seen: &Reached, watchers: u32) -> Result<Board, NoMemory>
    requires watchers { (1 ≤ watchers) × (watchers ≤ WATCHERS_MAX) }
    requires empty { seen.now.log ≡ [] }
    ensures book { IfOk result (λ b. b.desk.shown.value.seen.book ≡ seen.now.book) }
    ensures shown { IfOk result (λ b. IsNewest b.desk.shown.value) }
    ensures pending { IfOk result (λ b. drop b.behind b.log.items ≡ []) }
{
    let first = Newest {
        count: 0,
        last: None,
        seen: seen.again(),
    };
    let second = Newest {
        count: 0,
        last: None,
        seen: seen.again(),
    };
    Ok(Writer::new(alloc, first, second, watchers as usize)?)
}

// A watcher, which learns which book it is.
fn seat_watcher(board: &mut Board, seen: &Reached) -> Result<Watcher, NoMemory>
    requires known { known board.old.desk.place ≡ Some (name_of seen.now.book) }
    requires empty { seen.now.log ≡ [] }
    ensures shown { board.new.desk.shown ≡ board.old.desk.shown }
    ensures pending { drop board.new.behind board.new.log.items
        ≡ drop board.old.behind board.old.log.items }
    ensures known { known board.new.desk.place ≡ known board.old.desk.place }
    ensures watcher { IfOk result (λ w. w ≡ record { of = seen.now.book; seen = []; told = [] }) }
{
    let mut seat = board.factory().reader()?;
    seat.learn::<Hearing>(board.tell::<Sharing>());
    Ok(Watcher {
        seat,
        seen: seen.again(),
        count: 0,
        told: seen.again(),
        told_count: 0,
    })
}

// So many watchers.
fn seat_watchers(
    alloc: Global,
    board: &mut Board,
    seen: &Reached,
    watchers: u32,
) -> Result<Vec<Watcher>, NoMemory>
    requires known { known board.old.desk.place ≡ Some (name_of seen.now.book) }
    requires empty { seen.now.log ≡ [] }
    ensures shown { board.new.desk.shown ≡ board.old.desk.shown }
    ensures pending { drop board.new.behind board.new.log.items
        ≡ drop board.old.behind board.old.log.items }
    ensures count { IfOk result (λ v. vec_len v ≡ watchers) }
    ensures each { IfOk result (λ v.
        All (λ w. w ≡ record { of = seen.now.book; seen = []; told = [] }) v.items) }
{
    let mut seated = Vec::with_capacity(alloc, watchers as usize)?;
    'watchers: for _watcher in 0..watchers {
        seated.push(seat_watcher(board, seen)?)?;
    }
    Ok(seated)
}

/// A publisher that has published nothing, and so many watchers of it, which have seen nothing and
/// were told of nothing.
///
/// Conditions: 1 to [`WATCHERS_MAX`] watchers. It may wait, though nobody is looking yet. `Err` says
/// that an allocation failed.
pub fn watch<T: Wait>(rt: &T, alloc: Global, watchers: u32) -> Result<Watch, NoMemory>
    requires { (1 ≤ watchers) × (watchers ≤ WATCHERS_MAX) }
    ensures publisher { IfOk result (λ w. (w.publisher.list ≡ []) × (w.publisher.failed ≡ false)) }
    ensures count { IfOk result (λ w. vec_len w.watchers ≡ watchers) }
    ensures of { IfOk result (λ w. All (λ v. v.of ≡ w.publisher.of) w.watchers.items) }
    ensures seen { IfOk result (λ w. All (λ v. v.seen ≡ []) w.watchers.items) }
    ensures told { IfOk result (λ w. All (λ v. v.told ≡ []) w.watchers.items) }
{
    let (head, seen) = open();
    let board = open_board(alloc, &seen, watchers)?;
    let (mut board, begun) = board.publish_as::<Beginning, T>(rt);
    if begun.is_err() {
        board.take(rt);
        return Err(NoMemory);
    }
    let watchers = match seat_watchers(alloc, &mut board, &seen, watchers) {
        Ok(watchers) => watchers,
        Err(why) => {
            board.take(rt);
            return Err(why);
        }
    };
    let publisher = Publisher {
        board,
        head,
        seen,
        count: 0,
        failed: false,
    };
    Ok(Watch {
        publisher,
        watchers,
    })
}
