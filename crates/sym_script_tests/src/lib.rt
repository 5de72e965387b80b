//! Tests of reading, printing and checking scripts, over the public calls of `sym_parse` and
//! `sym_check`.
#![tactic(auto)]

#[cfg(test)]
mod arithmetic;
#[cfg(test)]
mod calls;
#[cfg(test)]
mod cells;
#[cfg(test)]
mod conditions;
#[cfg(test)]
mod declarations;
#[cfg(test)]
mod names;
#[cfg(test)]
mod parsing;
#[cfg(test)]
mod paths;
#[cfg(test)]
mod printing;
#[cfg(test)]
mod reads;
#[cfg(test)]
mod repeated;
#[cfg(test)]
mod reports;
#[cfg(test)]
mod rows;
#[cfg(test)]
mod statements;
#[cfg(test)]
mod tests_of_cells;
#[cfg(test)]
mod values;
#[cfg(test)]
mod whole;
