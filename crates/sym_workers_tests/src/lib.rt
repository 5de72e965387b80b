//! Tests of rounds that several workers work at once and of gates, over the public calls of
//! `sym_engine` and `sym_top`.
#![tactic(auto)]

#[cfg(test)]
mod agreement;
#[cfg(test)]
mod bodies;
#[cfg(test)]
mod comparing;
#[cfg(test)]
mod gates;
#[cfg(test)]
mod holds;
#[cfg(test)]
mod many;
#[cfg(test)]
mod passing;
#[cfg(test)]
mod runs;
#[cfg(test)]
mod showing;
