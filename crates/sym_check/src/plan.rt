//! The plan of a script: names are numbers, and each expression has one form.
pub mod condition;
pub mod expression;
pub mod range;
pub mod script;
pub mod show;
pub mod statement;
