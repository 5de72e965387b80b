//! Tests of the parts, over the public calls of `sym_base`, `sym_lex`, `sym_enum`, `sym_int`,
//! `sym_pred`, `sym_vector` and `sym_board`.
#![tactic(auto)]

#[cfg(test)]
mod board;
#[cfg(test)]
mod copies;
#[cfg(test)]
mod facts;
#[cfg(test)]
mod files;
#[cfg(test)]
mod holds;
#[cfg(test)]
mod labels;
#[cfg(test)]
mod lists;
#[cfg(test)]
mod numbers;
#[cfg(test)]
mod small_lists;
#[cfg(test)]
mod texts;
#[cfg(test)]
mod tokens;
