//! Reading a script, from the bytes of its text to its syntax tree, and printing it back.
#![tactic(auto)]

mod build;
mod cursor;
mod declaration;
mod error;
mod expression;
mod kept;
mod laws;
mod operators;
mod parser;
mod printer;
mod script;
mod state;
mod statement;
mod stop;

pub use error::{LimitKind, ParseErr};
pub use laws::limits_change_nothing_before_them;
pub use parser::parse;
pub use printer::script::print;
