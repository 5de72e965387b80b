//! Tests of partial reports, over the public calls of `sym_watch`, of passes that are watched, and
//! of whole runs with observers.
#![tactic(auto)]

#[cfg(test)]
mod awaiter;
#[cfg(test)]
mod calls;
#[cfg(test)]
mod comparer;
#[cfg(test)]
mod courses;
#[cfg(test)]
mod drawn;
#[cfg(test)]
mod given;
#[cfg(test)]
mod groups;
#[cfg(test)]
mod logged;
#[cfg(test)]
mod logger;
#[cfg(test)]
mod meeting;
#[cfg(test)]
mod noter;
#[cfg(test)]
mod passes;
#[cfg(test)]
mod runs;
#[cfg(test)]
mod shown;
#[cfg(test)]
mod threads;
