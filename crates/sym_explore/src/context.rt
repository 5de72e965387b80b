//! What statements and conditions are run over, beside paths.
use sym_check::{Cond, Dos, Known, Plan};

/// The plan of a script, and what the names of its expressions stand for at a record.
#[derive(Clone, Copy)]
pub(crate) struct Context<'a> {
    pub plan: &'a Plan,
    pub known: &'a Known<'a>,
    /// The number of the record.
    pub no: u64,
}

/// An `if`: its condition, and the statements where it is true and where it is false.
#[derive(Clone, Copy)]
pub(crate) struct Choice<'a> {
    pub condition: &'a Cond,
    pub then: &'a Dos,
    pub otherwise: &'a Dos,
}
