//! Tests of paths and of exploring, over the public calls of `sym_path` and `sym_explore`.
#![tactic(auto)]

#[cfg(test)]
mod clamping;
#[cfg(test)]
mod comparing;
#[cfg(test)]
mod composing;
#[cfg(test)]
mod copies;
#[cfg(test)]
mod exploring;
#[cfg(test)]
mod joining;
#[cfg(test)]
mod kinds;
#[cfg(test)]
mod rows;
#[cfg(test)]
mod scripts;
#[cfg(test)]
mod setting;
#[cfg(test)]
mod states;
#[cfg(test)]
mod table;
#[cfg(test)]
mod texts;
