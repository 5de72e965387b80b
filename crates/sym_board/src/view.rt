//! What a pass knows of its board. No value of these is read: they are for the proof alone.

use std::snapshot::Snapshot;

/// What the board's table keeps of a pass.
pub struct View<I> {
    /// The board's input, or nothing where the pass was spent.
    pub input: Option<I>,
    pub leaves: u64,
    pub seats: u64,
    /// The number of the node in the hand.
    pub hand: Option<u64>,
    /// What the claim word held at the last claim, as that step found it.
    pub claim_found: u64,
    /// The number of the node that was delivered last.
    pub delivered: Option<u64>,
    /// What the word at which that node arrived held, as that step found it.
    pub arrival_found: u64,
    /// How many leaves it has claimed.
    pub claimed: u64,
    /// How many of its passes have ended.
    pub ended: u64,
    /// How many passes it counts as.
    pub passes: u64,
}

/// What a board is told when it is made: its input, how many leaves it has and how many passes.
#[derive(Drop)]
pub struct About<I> {
    pub input: Snapshot<I>,
    pub leaves: u64,
    pub seats: u64,
}
