//! Printing a script in its one form. Each function appends to the text.

mod declaration;
mod expression;
mod item;
pub mod script;
mod statement;
mod token;
