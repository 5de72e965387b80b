//! The tree over a board's leaves, whose nodes are numbered in order from the left: leaf i is 2i,
//! and the inner node whose children meet at m is 2m - 1. So a node is found by its number as in a
//! search tree.

ghost use Rattle.std.specs.Prelude.{◌≡◌, ℕ, ◌*◌, ◌<◌, ◌≤◌};
ghost use Rattle.sym_board.specs.Tree.{number, spot, place};

use crate::limits::LEAVES_MAX;

/// The chunks from `lo` up to but without `hi`.
#[derive(Clone, Copy, Debug, PartialEq, Eq)]
pub struct Interval {
    pub lo: u32,
    pub hi: u32,
}

/// Where a node is: its interval, the number at which its parent's children meet, and whether it is
/// the left one. At the root the last two mean nothing.
#[derive(Clone, Copy)]
pub(crate) struct Spot {
    pub(crate) lo: u64,
    pub(crate) hi: u64,
    pub(crate) above: u64,
    pub(crate) is_left: bool,
}

/// The number of the node from `lo` to `hi`.
pub(crate) fn number_of(lo: u64, hi: u64) -> u64
    requires { (lo ≤ hi) × (0 < hi) × (hi ≤ LEAVES_MAX) }
    ensures { result ≡ number lo hi }
{
    if hi == lo + 1 {
        2 * lo
    } else {
        2 * (lo + (hi - lo + 1) / 2) - 1
    }
}

/// Where the node of that number is in the tree over so many leaves.
pub(crate) fn find(leaves: u64, node: u64) -> Spot
    requires { (0 < leaves) × (leaves ≤ LEAVES_MAX) }
    ensures small { (result.lo ≤ LEAVES_MAX) × (result.hi ≤ LEAVES_MAX) }
    ensures found { spot result.lo result.hi result.above result.is_left ≡ place leaves node }
{
    let mut at = Spot {
        lo: 0,
        hi: leaves,
        above: 0,
        is_left: false,
    };
    'levels: for _level in 0..8u64 {
        let here = number_of(at.lo, at.hi);
        if here == node {
            return at;
        }
        let middle = at.lo + (at.hi - at.lo + 1) / 2;
        at = if node < here {
            Spot {
                lo: at.lo,
                hi: middle,
                above: middle,
                is_left: true,
            }
        } else {
            Spot {
                lo: middle,
                hi: at.hi,
                above: middle,
                is_left: false,
            }
        };
    }
    at
}
