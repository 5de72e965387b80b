//! What is the same for all records that a run takes.

use sym_check::Checked;

/// How records are taken into chains.
#[derive(Clone, Copy)]
pub(crate) struct Settings<'a> {
    /// The script of the records.
    pub(crate) checked: &'a Checked,
    /// How many paths a segment may have, unless it is that of one record.
    pub(crate) limit: u32,
    /// How many records of a key are kept as they are, before they are explored.
    pub(crate) most: u32,
}
