//! Laws of the definitions that contracts cite.

pub mod groups;
pub mod plans;
pub mod rules;
pub mod scripts;
pub mod values;
