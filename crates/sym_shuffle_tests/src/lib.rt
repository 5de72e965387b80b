//! Tests of rounds whose records are handed to the threads of their groups, over the public calls
//! of `sym_shuffle`.
#![tactic(auto)]

#[cfg(test)]
mod alone;
#[cfg(test)]
mod comparing;
#[cfg(test)]
mod drawn;
#[cfg(test)]
mod logs;
#[cfg(test)]
mod noted;
#[cfg(test)]
mod scripts;
#[cfg(test)]
mod stopped;
#[cfg(test)]
mod texts;
#[cfg(test)]
mod words;
#[cfg(test)]
mod worked;
