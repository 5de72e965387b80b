//! Reads and writes that a signal interrupts.

/// How often such a call is tried, so that each call ends.
pub(crate) const TRIES: u32 = 1_000;
