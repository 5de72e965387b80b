//! Tests of the forms of reports, over the public calls of `sym_report`.
#![tactic(auto)]

#[cfg(test)]
mod given;
#[cfg(test)]
mod marks;
#[cfg(test)]
mod reports;
#[cfg(test)]
mod rows;
