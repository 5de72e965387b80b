//! How pieces meet: a delivery, and the way up the tree.
ghost use Rattle.std.specs.Prelude.{◌≡◌, ◌≢◌, ℕ, ◌+◌, ◌-◌, ◌*◌, ◌<◌, ◌≤◌, ◌++◌, [], ◌∷◌, true, false, None, Some, Ok, OnOk, OnErr, IfOk, IfSome, MatchOption};
ghost use Rattle.atomic_table.specs.Table.{rest};
ghost use Rattle.sym_board.specs.Tree.{inner, root};
ghost use Rattle.sym_board.specs.Steps.{bit, with_hand};
ghost use Rattle.sym_board.specs.Plays.{Paired};
ghost use Rattle.sym_board.specs.Hands.{IsChildAt, HoldsNode, HoldsPiece, TakesBoth};

use crate::board::Board;
use crate::law::{Arrive, Crown};
use crate::pass::Pass;
use crate::piece::Piece;
use crate::tree::{Spot, find, number_of};
use crate::view::View;
use atomic_table::Seat;
use std::alloc::Global;
use sym_base::NoMemory;

/// What became of a delivered piece.
#[derive(Drop)]
pub enum Arrived<P> {
    /// The sibling's piece hadn't arrived. This one waits for it on the board.
    Left,
    /// The pieces of the left and the right child of the node that is now in the hand.
    Pair(P, P),
    /// The piece stands for the whole input, and it rests on the board.
    Crowned,
}

/// Where the way of a piece up the tree ended.
#[derive(Clone, Copy, Debug, PartialEq, Eq)]
pub enum Carried {
    /// At a node whose sibling's piece hadn't arrived.
    Left,
    /// At the root.
    Crowned,
}

// What a child's arrival sets in its parent's word.
fn bit_of(is_left: bool) -> u64
    ensures { result ≡ bit is_left }
{
    if is_left { 1 } else { 2 }
}

impl<P: Piece> Board<P> {
    ghost use Rattle.sym_board.specs.Passes.{hand, board_leaves, board_input, IsPassOf, StandsForHand, KeepsClaims, delivered};
    ghost use Rattle.sym_board.specs.Arrived.{MatchArrived, LeavesAlone, FindsSibling, CrownsRoot};

    // What lies in the slot that the seat took last, which goes behind the others with nothing in
    // it.
    fn take(&self, seat: &mut Seat<Option<P>, View<P::Input>>, slot: u64) -> Option<P>
        requires table { seat.old.table_id ≡ self.now.table.shared.table_id }
        requires first { (o : _) × (seat.old.me.1 ≡ (slot, o) ∷ rest seat.old.me.1) }
        ensures seat { (seat.new.table_id ≡ seat.old.table_id) × (seat.new.id ≡ seat.old.id) }
        ensures value { seat.old.me.1 ≡ (slot, result) ∷ rest seat.old.me.1 }
        ensures turned { seat.new.me ≡ (seat.old.me.0, rest seat.old.me.1 ++ (slot, None) ∷ []) }
    {
        let value = self.table.shared.exchange(seat, slot as usize, None);
        seat.turn();
        value
    }

    // The node arrives at its parent's word. Returns what this step found there: 0 where the
    // sibling hasn't arrived.
    fn set_bit(&self, seat: &mut Seat<Option<P>, View<P::Input>>, node: u64, at: Spot) -> u64
        requires table { seat.old.table_id ≡ self.now.table.shared.table_id }
        requires node { IsChildAt self.now.leaves node at }
        requires view { HoldsNode (board_input self.now) self.now.leaves node seat.old.me.0 }
        requires piece { HoldsPiece P.stands_for (board_input self.now)
            self.now.leaves node at.lo at.hi seat.old.me.1 }
        ensures seat { (seat.new.table_id ≡ seat.old.table_id) × (seat.new.id ≡ seat.old.id) }
        ensures parent { (0 < at.above) × (at.above < self.now.leaves) }
        ensures alone { result ≡ 0 → seat.new.me ≡ (with_hand seat.old.me.0 None 0, []) }
        ensures met { result ≢ 0 → Paired P.stands_for
            self.now.leaves at.above at.is_left seat.old.me.0 result seat.new.me }
    {
        self.table
            .shared
            .fetch_or::<Arrive>(seat, at.above as usize, bit_of(at.is_left))
    }

    // The node arrives, and the two pieces of its parent come back where its sibling has arrived.
    fn arrive(
        &self,
        seat: &mut Seat<Option<P>, View<P::Input>>,
        node: u64,
        at: Spot,
    ) -> Option<(P, P)>
        requires table { seat.old.table_id ≡ self.now.table.shared.table_id }
        requires node { IsChildAt self.now.leaves node at }
        requires view { HoldsNode (board_input self.now) self.now.leaves node seat.old.me.0 }
        requires piece { HoldsPiece P.stands_for (board_input self.now)
            self.now.leaves node at.lo at.hi seat.old.me.1 }
        ensures seat { (seat.new.table_id ≡ seat.old.table_id) × (seat.new.id ≡ seat.old.id) }
        ensures parent { (0 < at.above) × (at.above < self.now.leaves) }
        ensures met { MatchOption result
            (seat.new.me ≡ (with_hand seat.old.me.0 None 0, []))
            (λ p. TakesBoth P.stands_for (board_input self.now) self.now.leaves at.above at.is_left
            seat.old.me.0 seat.new.me p.0 p.1) }
    {
        let found = self.set_bit(seat, node, at);
        if found == 0 {
            return None;
        }
        let parent = find(self.leaves, 2 * at.above - 1);
        let left = self.take(seat, number_of(parent.lo, at.above));
        let right = self.take(seat, number_of(at.above, parent.hi));
        match (left, right) {
            (Some(left), Some(right)) => Some((left, right)),
            _ => unreachable!(),
        }
    }

    // The root's piece goes home.
    fn crown(&self, seat: &mut Seat<Option<P>, View<P::Input>>, node: u64)
        requires table { seat.old.table_id ≡ self.now.table.shared.table_id }
        requires node { node ≡ root self.now.leaves }
        requires view { HoldsNode (board_input self.now) self.now.leaves node seat.old.me.0 }
        requires piece { HoldsPiece P.stands_for (board_input self.now)
            self.now.leaves node 0 self.now.leaves seat.old.me.1 }
        ensures seat { (seat.new.table_id ≡ seat.old.table_id) × (seat.new.id ≡ seat.old.id) }
        ensures emptied { seat.new.me
            ≡ (with_hand seat.old.me.0 None seat.new.me.0.arrival_found, []) }
    {
        self.table
            .shared
            .fetch_or::<Crown>(seat, self.leaves as usize, 1);
    }

    /// Brings the piece of the node in the hand to the board, by one atomic step.
    ///
    /// Conditions: the pass is of this board, its hand isn't empty, and the piece stands for the
    /// hand's interval of the board's input.
    ///
    /// `Crowned` is returned exactly when the hand was the root. Otherwise it is `Left` exactly
    /// when the parent's word lacked the sibling's arrival at this step, and `Pair` exactly when it
    /// had it. With `Pair` the hand is the parent, whose children's pieces come back, and else it
    /// is empty.
    pub fn deliver(&self, pass: &mut Pass<P>, piece: P) -> Arrived<P>
        requires of { IsPassOf self.now pass.old }
        requires held { StandsForHand P.stands_for self.now pass.old piece }
        ensures of { IsPassOf self.now pass.new }
        ensures claims { KeepsClaims pass.old pass.new }
        ensures delivered { delivered pass.new ≡ hand pass.old }
        ensures arrived { MatchArrived result
            (LeavesAlone self.now pass.old pass.new)
            (FindsSibling P.stands_for self.now pass.old pass.new)
            (CrownsRoot self.now pass.old pass.new) }
    {
        let Some(node) = pass.hand else {
            unreachable!()
        };
        let at = find(self.leaves, node);
        let _nothing = self
            .table
            .shared
            .exchange(&mut pass.seat, node as usize, Some(piece));
        if at.hi - at.lo == self.leaves {
            self.crown(&mut pass.seat, node);
            pass.hand = None;
            return Arrived::Crowned;
        }
        match self.arrive(&mut pass.seat, node, at) {
            None => {
                pass.hand = None;
                Arrived::Left
            }
            Some((left, right)) => {
                pass.hand = Some(2 * at.above - 1);
                Arrived::Pair(left, right)
            }
        }
    }
}

impl<P: Piece> Board<P> {
    ghost use Rattle.sym_board.specs.Passes.{hand, whole, board_input, IsPassOf, StandsForHand, KeepsClaims};
    ghost use Rattle.sym_board.specs.Arrived.{MatchCarried, EndsAlone, EndsAtRoot, IsAbove};

    /// Delivers the piece of the node in the hand and joins what it meets, up to `Left` or
    /// `Crowned`: the hand is then empty.
    ///
    /// Conditions: those of [`Board::deliver`], and `input` is the board's. `Crowned` is returned
    /// exactly when the node that was delivered last was the root, and `Left` exactly when it
    /// wasn't and its parent's word lacked the sibling's arrival at that step. `Err` says that an
    /// allocation failed, and nothing else. The hand then holds a node further up, whose piece is
    /// lost.
    pub fn carry(
        &self,
        alloc: Global,
        input: &P::Input,
        pass: &mut Pass<P>,
        piece: P,
    ) -> Result<Carried, NoMemory>
        requires of { IsPassOf self.now pass.old }
        requires input { input.now ≡ board_input self.now }
        requires held { StandsForHand P.stands_for self.now pass.old piece }
        ensures of { IsPassOf self.now pass.new }
        ensures claims { KeepsClaims pass.old pass.new }
        ensures emptied { OnOk result (hand pass.new ≡ None) }
        ensures end { IfOk result (λ r. MatchCarried r
            (EndsAlone self.now pass.new)
            (EndsAtRoot self.now pass.new)) }
        ensures root { hand pass.old ≡ Some (whole self.now) → result ≡ Ok Carried.Crowned }
        ensures err { OnErr result (IsAbove (hand pass.old) (hand pass.new)) }
    {
        let mut piece = piece;
        'levels: loop {
            match self.deliver(pass, piece) {
                Arrived::Left => return Ok(Carried::Left),
                Arrived::Crowned => return Ok(Carried::Crowned),
                Arrived::Pair(left, right) => piece = left.join(alloc, input, right)?,
            }
        }
    }
}
