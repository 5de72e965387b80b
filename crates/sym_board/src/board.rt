//! The board: leaves to claim, and a tree on which pieces meet.
ghost use Rattle.std.specs.Prelude.{◌≡◌, ℕ, ◌+◌, ◌-◌, ◌*◌, ◌<◌, ◌≤◌, None, Some, IfOk, IfSome, IfNone, OnSome, All, vec_len, true, false, [], length, slice_index};
ghost use Rattle.sym_board.specs.Tree.{nodes};
ghost use Rattle.sym_board.specs.Rule.{first_view};
ghost use Rattle.sym_board.specs.declared.limits.TheConstants.{LEAVES_MAX, SEATS_MAX};

use crate::law::{Claim, Cut, Law};
use crate::limits::WORDS_MAX;
use crate::pass::Pass;
use crate::piece::Piece;
use crate::view::{About, View};
use atomic_table::{Seat, Table};
use std::alloc::Global;
use std::snapshot::Snapshot;
use sym_base::NoMemory;

// Of these a smaller board takes the first.
static NO_STEPS: [u64; WORDS_MAX] = [0; WORDS_MAX];

// The words of a new board.
fn blank_words(count: usize) -> &'static [u64]
    requires { count ≤ WORDS_MAX }
    ensures long { length result.now ≡ count }
    ensures blank { (i : ℕ) → slice_index result.now i ≡ 0 }
{
    &NO_STEPS[..count]
}

/// A board for one round over an input, which its workers share by reference.
#[derive(Drop)]
pub struct Board<P: Piece> {
    pub(crate) table: Table<Option<P>, View<P::Input>, About<P::Input>, Law<P>, Global>,
    pub(crate) leaves: u64,
    pub(crate) seats: u64,
    ghost sizes: { (0 < leaves) × (leaves ≤ LEAVES_MAX) × (0 < seats) × (seats ≤ SEATS_MAX) },
    ghost key_is: { (table.shared.key.leaves ≡ leaves) × (table.shared.key.seats ≡ seats) },
    ghost counts: { (table.shared.table_id.words ≡ leaves + 1)
        × (table.shared.table_id.slots ≡ nodes leaves) },
}

/// A new board and its passes.
#[derive(Drop)]
pub struct Made<P: Piece> {
    pub board: Board<P>,
    pub passes: Vec<Pass<P>>,
}

impl<P: Piece> Board<P> {
    ghost use Rattle.sym_board.specs.Passes.{hand, has_ended, claims, claim_found, board_leaves, board_seats, board_input, IsPassOf, IsFree, IsNewPassOf, interval};

    /// A board over `n` leaves with `seats` passes. It takes all the memory that the board needs.
    ///
    /// Conditions: `n` is 1 to [`LEAVES_MAX`](crate::LEAVES_MAX), and `seats` is 1 to
    /// [`SEATS_MAX`](crate::SEATS_MAX). Each pass is of this board, its hand is empty, it hasn't
    /// ended, and it has claimed nothing. `Err` says that an allocation failed, and nothing else.
    pub fn new(alloc: Global, input: &P::Input, n: u32, seats: u32) -> Result<Made<P>, NoMemory>
        requires leaves { (1 ≤ n) × (n ≤ LEAVES_MAX) }
        requires seats { (1 ≤ seats) × (seats ≤ SEATS_MAX) }
        ensures sizes { IfOk result (λ m. (board_leaves m.board ≡ n) × (board_seats m.board ≡ seats)
            × (vec_len m.passes ≡ seats)) }
        ensures input { IfOk result (λ m. board_input m.board ≡ input.now) }
        ensures passes { IfOk result (λ m. All (λ p. IsNewPassOf m.board p) m.passes.items) }
    {
        let leaves = u64::from(n);
        let about = About {
            input: Snapshot::of(input),
            leaves,
            seats: u64::from(seats),
        };
        let (table, seat) = Table::vacant(
            alloc,
            blank_words(n as usize + 1),
            2 * n as usize - 1,
            &about,
        )?;
        let board = Board {
            table,
            leaves,
            seats: u64::from(seats),
        };
        let passes = board.hand_out(alloc, seat)?;
        Ok(Made { board, passes })
    }

    // One pass for each of the board's seats, all of them cut from the first one.
    fn hand_out(
        &self,
        alloc: Global,
        mut seat: Seat<Option<P>, View<P::Input>>,
    ) -> Result<Vec<Pass<P>>, NoMemory>
        requires table { seat.table_id ≡ self.now.table.shared.table_id }
        requires first { seat.me ≡ (first_view self.now.table.shared.key, []) }
        ensures len { IfOk result (λ v. vec_len v ≡ board_seats self.now) }
        ensures each { IfOk result (λ v. All (λ p. IsNewPassOf self.now p) v.items) }
    {
        let mut passes = Vec::with_capacity(alloc, self.seats as usize)?;
        'passes: for _pass in 1..self.seats {
            let next = self.table.shared.split_seat::<Cut>(&mut seat);
            passes.push(Pass {
                seat: next,
                leaves: self.leaves,
                hand: None,
                over: false,
            })?;
        }
        passes.push(Pass {
            seat,
            leaves: self.leaves,
            hand: None,
            over: false,
        })?;
        Ok(passes)
    }

    /// Claims a leaf, by one atomic step.
    ///
    /// Conditions: the pass is of this board, its hand is empty, and it hasn't ended. `Some(i)`
    /// says that the claim word stood at i at this step, so that no other claim is given i; leaf i
    /// is then in the hand. `None` says that it stood at the number of leaves or more, so that
    /// every leaf is claimed; the pass has then ended.
    pub fn claim(&self, pass: &mut Pass<P>) -> Option<u32>
        requires of { IsPassOf self.now pass.old }
        requires free { IsFree pass.old }
        ensures of { IsPassOf self.now pass.new }

        ensures found { IfSome result (λ i. claim_found pass.new ≡ i) }
        ensures within { IfSome result (λ i. i < board_leaves self.now) }
        ensures leaf { IfSome result (λ i. hand pass.new ≡ Some (interval i (i + 1))) }
        ensures going { OnSome result (has_ended pass.new ≡ false) }
        ensures counted { OnSome result (claims pass.new ≡ claims pass.old + 1) }
        ensures few { OnSome result (claims pass.new ≤ board_leaves self.now) }

        ensures past { IfNone result (board_leaves self.now ≤ claim_found pass.new) }
        ensures ended { IfNone result ((has_ended pass.new ≡ true) × (hand pass.new ≡ None)) }
        ensures uncounted { IfNone result (claims pass.new ≡ claims pass.old) }
    {
        let found = self.table.shared.fetch_add::<Claim>(&mut pass.seat, 0, 1);
        if found < self.leaves {
            pass.hand = Some(2 * found);
            Some(found as u32)
        } else {
            pass.over = true;
            None
        }
    }
}
