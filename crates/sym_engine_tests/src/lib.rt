//! Tests of passes over files and of rounds, over the public calls of `sym_engine`.
#![tactic(auto)]

#[cfg(test)]
mod agreement;
#[cfg(test)]
mod drawn;
#[cfg(test)]
mod passes;
#[cfg(test)]
mod rounds;
#[cfg(test)]
mod summaries;
#[cfg(test)]
mod texts;
#[cfg(test)]
mod worked;
#[cfg(test)]
mod working;
