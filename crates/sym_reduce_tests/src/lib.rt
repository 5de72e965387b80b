//! Tests of files of saved runs in order, over the public calls of `sym_reduce`.
#![tactic(auto)]

#[cfg(test)]
mod copies;
#[cfg(test)]
mod files;
#[cfg(test)]
mod joined;
#[cfg(test)]
mod setting;
