//! A pass to a board, which one worker holds.
ghost use Rattle.std.specs.Prelude.{◌≡◌, ℕ, ◌<◌, ◌≤◌, Some, None, true, if◌then◌else◌};
ghost use Rattle.sym_board.specs.Tree.{nodes};
ghost use Rattle.sym_board.specs.Plays.{slots_of};
ghost use Rattle.sym_board.specs.declared.limits.TheConstants.{LEAVES_MAX};

use crate::piece::Piece;
use crate::tree::{Interval, find};
use crate::view::View;
use atomic_table::Seat;

/// A pass to a board. With it a worker claims leaves and delivers pieces. It may hold a node of the
/// tree in its hand.
#[derive(Drop)]
pub struct Pass<P: Piece> {
    pub(crate) seat: Seat<Option<P>, View<P::Input>>,
    pub(crate) leaves: u64,
    pub(crate) hand: Option<u64>,
    pub(crate) over: bool,
    ghost few_leaves: { (0 < leaves) × (leaves ≤ LEAVES_MAX) },
    ghost leaves_is: { seat.me.0.leaves ≡ leaves },
    ghost hand_is: { seat.me.0.hand ≡ hand },
    ghost over_is: { seat.me.0.ended ≡ (if over then 1 else 0) },
    ghost one_pass: { seat.me.0.passes ≡ 1 },
    ghost hand_near: { (k : ℕ) → hand ≡ Some k → k < nodes leaves },
    ghost slots_are: { seat.me.1 ≡ slots_of leaves hand },
}

impl<P: Piece> Pass<P> {
    ghost use Rattle.sym_board.specs.Passes.{hand, has_ended};

    /// The chunks of the node in the hand, or nothing where the hand is empty.
    pub fn hand(&self) -> Option<Interval>
        ensures { result ≡ hand self.now }
    {
        let node = self.hand?;
        let spot = find(self.leaves, node);
        Some(Interval {
            lo: spot.lo as u32,
            hi: spot.hi as u32,
        })
    }

    /// Whether a claim of this pass found no leaf.
    pub fn ended(&self) -> bool
        ensures { result ≡ has_ended self.now }
    {
        self.over
    }
}
