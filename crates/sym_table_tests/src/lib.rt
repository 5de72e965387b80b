//! Tests of the rows and records of files, over the public calls of `sym_table`.
#![tactic(auto)]

#[cfg(test)]
mod files;
