//! A board, on which workers claim chunks and their pieces meet on a tree, with no lock.
//!
//! A worker with a [`Pass`] claims a leaf, makes its piece and carries it up: where the sibling's
//! piece has arrived, it joins the two and goes on with the parent's, and else it leaves its piece
//! for the sibling's worker. The root's piece stands for the whole input, and [`Board::close`]
//! gives it.
//!
//! Each claim and each arrival is one atomic step on one word. No call waits, and none tries
//! anything again. After [`Board::new`] only `join` takes memory.
#![tactic(auto)]

mod arrive;
mod board;
mod close;
mod law;
pub mod laws;
mod limits;
mod pass;
mod piece;
mod tree;
mod view;

pub use arrive::{Arrived, Carried};
pub use board::{Board, Made};
pub use limits::{LEAVES_MAX, SEATS_MAX};
pub use pass::Pass;
pub use piece::Piece;
pub use tree::Interval;
