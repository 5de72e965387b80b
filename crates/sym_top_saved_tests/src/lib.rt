//! Tests of `map`, `reduce` and `join` over files in memory, through the top call.
#![tactic(auto)]

#[cfg(test)]
mod calls;
#[cfg(test)]
mod keyed;
#[cfg(test)]
mod mapped;
#[cfg(test)]
mod parts;
#[cfg(test)]
mod reduced;
