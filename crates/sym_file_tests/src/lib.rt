//! Tests of files of saved runs, over the public calls of `sym_file`.
#![tactic(auto)]

#[cfg(test)]
mod changes;
#[cfg(test)]
mod scripts;
#[cfg(test)]
mod setting;
#[cfg(test)]
mod taking;
#[cfg(test)]
mod texts;
#[cfg(test)]
mod together;
#[cfg(test)]
mod trips;
