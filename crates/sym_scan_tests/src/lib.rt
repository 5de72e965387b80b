//! Tests of traces, over the public calls of `sym_scan`.
#![tactic(auto)]

#[cfg(test)]
mod anew;
#[cfg(test)]
mod drawn;
#[cfg(test)]
mod logs;
#[cfg(test)]
mod replays;
#[cfg(test)]
mod scanned;
#[cfg(test)]
mod setting;
#[cfg(test)]
mod texts;
#[cfg(test)]
mod worked;
