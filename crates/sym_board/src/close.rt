//! The end of a board.
ghost use Rattle.std.specs.Prelude.{◌≡◌, ◌≢◌, ℕ, ◌+◌, ◌-◌, ◌<◌, ◌≤◌, ◌⊎◌, true, false, None, Some, All, IfSome, IfNone, MatchOption, vec_len, sum_by};
ghost use mathlib.Core.Option.{some};
ghost use lib.ListN.{get_elem?};
ghost use Rattle.std.specs.Slots.{slots_items, slots_len, IsFull};
ghost use Rattle.sym_board.specs.Tree.{nodes, root};

use crate::board::Board;
use crate::law::Merge;
use crate::limits::LEAVES_MAX;
use crate::pass::Pass;
use crate::piece::Piece;
use crate::tree::number_of;
use crate::view::View;
use atomic_table::{Closed, Seat};
use std::alloc::Global;

// Takes what lies in each slot of a closed table, and keeps what was in one of them.
fn collect<T: Drop>(mut closed: Closed<Option<T>, Global>, kept: usize) -> Option<T>
    requires full { IsFull closed.slots }
    requires near { kept < slots_len closed.slots }
    ensures { get_elem? (slots_items closed.slots) kept ≡ some result }
{
    let mut found = None;
    let mut slot = 0;
    'slots: while slot < closed.slot_count() {
        let value = closed.take(slot);
        if slot == kept {
            found = value;
        }
        slot += 1;
    }
    closed.free();
    found
}

// The root's piece, where the root was crowned.
fn settle<T: Drop>(closed: Closed<Option<T>, Global>, leaves: u64) -> Option<T>
    requires full { IsFull closed.words × IsFull closed.slots }
    requires leaves { (0 < leaves) × (leaves ≤ LEAVES_MAX) }
    requires words { slots_len closed.words ≡ leaves + 1 }
    requires slots { slots_len closed.slots ≡ nodes leaves }
    ensures some { IfSome result (λ x. (get_elem? (slots_items closed.words) leaves ≡ some 1)
        × (get_elem? (slots_items closed.slots) (root leaves) ≡ some (Some x))) }
    ensures none { IfNone result (
        ((w : ℕ) × (get_elem? (slots_items closed.words) leaves ≡ some w) × (w ≢ 1))
        ⊎ (get_elem? (slots_items closed.slots) (root leaves) ≡ some None)) }
{
    let crowned = closed.word(leaves as usize) == 1;
    let piece = collect(closed, number_of(0, leaves) as usize);
    if crowned { piece } else { None }
}

impl<P: Piece> Board<P> {
    ghost use Rattle.sym_board.specs.Passes.{hand, has_ended, claims, board_leaves, board_seats, board_input, IsPassOf};

    // One seat with the counts of all passes whose hands are empty, and of one more.
    fn gather(&self, mut passes: Vec<Pass<P>>) -> Option<Seat<Option<P>, View<P::Input>>>
        requires { All (λ p. IsPassOf self.now p) passes.items }
        ensures table { IfSome result (λ s. s.table_id ≡ self.now.table.shared.table_id) }
        ensures counts { All (λ p. hand p ≡ None) passes.items
            → MatchOption result (vec_len passes ≡ 0) (λ s. (s.me.0.hand ≡ None)
            × (s.me.0.passes ≡ vec_len passes) × (s.me.0.claimed ≡ sum_by claims passes.items)
            × (s.me.0.ended ≡ 0 → All (λ p. has_ended p ≡ false) passes.items)) }
    {
        let Some(first) = passes.pop() else {
            return None;
        };
        let Pass {
            mut seat,
            leaves: _,
            hand: _,
            over: _,
        } = first;
        'passes: while let Some(pass) = passes.pop() {
            let Pass {
                seat: other,
                leaves: _,
                hand,
                over: _,
            } = pass;
            if hand.is_none() {
                self.table.shared.join_seat::<Merge>(&mut seat, other);
            }
        }
        Some(seat)
    }

    /// Ends the board. `Some` is a piece that stands for the board's whole input.
    ///
    /// Condition: the passes are of this board. `None` is returned only when a pass that was handed
    /// in has a node in its hand, a pass is missing, or a leaf is unclaimed. No leaf is unclaimed
    /// where a pass that was handed in has ended.
    pub fn close(self, passes: Vec<Pass<P>>) -> Option<P>
        requires { All (λ p. IsPassOf self p) passes.items }
        ensures some { IfSome result (λ x.
            P.stands_for (board_input self) 0 (board_leaves self) x) }
        ensures none { IfNone result (
            All (λ p. hand p ≡ None) passes.items → vec_len passes ≡ board_seats self
            → (sum_by claims passes.items < board_leaves self)
            × All (λ p. has_ended p ≡ false) passes.items) }
    {
        let seat = self.gather(passes);
        let Board {
            table,
            leaves,
            seats: _,
        } = self;
        match seat {
            Some(seat) => settle(table.close_with(seat), leaves),
            None => settle(table.close(), leaves),
        }
    }
}
