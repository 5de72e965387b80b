//! Tests of the sequential pass, of copies and of expressions, over the public calls of `sym_plain`
//! and `sym_check`.
#![tactic(auto)]

#[cfg(test)]
mod copies;
#[cfg(test)]
mod plain;
#[cfg(test)]
mod walk;
