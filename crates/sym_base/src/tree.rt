//! The syntax tree of a script. Places are byte offsets into the script's text, counted from 0.

pub mod compare;
pub mod declaration;
pub mod expression;
pub mod name;
pub mod script;
pub mod statement;
