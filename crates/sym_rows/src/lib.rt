//! The rows of CSV's bytes, and where the bytes can be cut between them.
#![tactic(auto)]

mod blocks;
pub mod laws;
mod pieces;
mod place;
mod search;

pub use pieces::Pieces;
pub use search::{Piece, next_piece};
