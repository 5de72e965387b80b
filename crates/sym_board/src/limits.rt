//! How large a board can be.
use sym_base::{CHUNKS_MAX, WORKERS_MAX};

/// The most leaves of a board: one for each chunk of a round.
pub const LEAVES_MAX: u32 = CHUNKS_MAX;

/// The most passes of a board: one for each worker of a round.
pub const SEATS_MAX: u32 = WORKERS_MAX;

// The most words of a board: one for the claims, one for each inner node, and one for the crown.
pub(crate) const WORDS_MAX: usize = LEAVES_MAX as usize + 1;
