//! Tests of calls that are made at once, over the public calls of `sym_fork`.
#![tactic(auto)]

#[cfg(test)]
mod calls;
#[cfg(test)]
mod meeting;
