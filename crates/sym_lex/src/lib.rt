//! The tokens of a script's text, or the first place at which no token can stand.
#![tactic(auto)]

mod error;
mod find;
mod found;
mod keyword;
pub mod laws;
mod lexer;
mod scan;
mod symbol;
mod token;

pub use error::{LexErr, LexFault};
pub use keyword::Keyword;
pub use lexer::lex;
pub use symbol::Symbol;
pub use token::{Token, TokenKind};
