//! Tests of chains and runs, over the public calls of `sym_run`.
#![tactic(auto)]

#[cfg(test)]
mod beside;
#[cfg(test)]
mod chains;
#[cfg(test)]
mod kept;
#[cfg(test)]
mod logs;
#[cfg(test)]
mod orders;
#[cfg(test)]
mod pushes;
#[cfg(test)]
mod setting;
#[cfg(test)]
mod stretches;
