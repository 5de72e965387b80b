//! What the tests of the top call are given: its arguments, the call as the program makes it, and
//! how its end differs from the one that is wanted.
#![tactic(auto)]

mod calls;
mod ends;
mod words;

pub use calls::{call, no_observers};
pub use ends::{End, end_differs};
pub use words::{push_words, words_of};
