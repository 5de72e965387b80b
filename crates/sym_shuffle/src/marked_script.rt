//! A script with what its update reads.

use sym_check::Checked;

/// A script, and the marks of the fields that its update reads.
#[derive(Clone, Copy)]
pub(crate) struct MarkedScript<'a> {
    pub(crate) checked: &'a Checked,
    pub(crate) marks: &'a [bool],
}
