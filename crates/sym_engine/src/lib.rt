//! The pass over files, as its callers know it: the loop over files, the workers of a round and
//! their gate, the passes, and the pass that is watched.
#![tactic(auto)]

pub use sym_files::{
    CHUNK_DEFAULT, LIMIT_DEFAULT, LIMIT_MAX, Log, Options, PassErr, Rounds, SequentialRounds, Took,
    WORKERS_DEFAULT, Work, each_round, each_round_in_turn, laws,
};
pub use sym_passes::{pass, sequential_pass, summarise};
pub use sym_watched::pass_watched;
pub use sym_workers::{Enter, Free, Gate, Hold, OpenGate, led, round, worked};
