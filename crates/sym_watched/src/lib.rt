//! The pass over files whose partial reports are told to observers.
#![tactic(auto)]

pub mod laws;
mod news;
mod observers;
mod passes;
mod watched;

pub use passes::pass_watched;
