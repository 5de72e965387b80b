//! The head of a saved run.

/// The numbers of a saved run's first record, of the record after its last, and of its groups.
#[derive(Clone, Copy)]
pub(crate) struct RunHead {
    pub(crate) first: u64,
    pub(crate) next: u64,
    pub(crate) count: u128,
}
