//! How rounds are scanned.

/// By how many workers a round is scanned, with which path limit, and every how many records a row
/// is shown.
#[derive(Clone, Copy)]
pub(crate) struct ScanOptions {
    pub(crate) workers: u32,
    pub(crate) limit: u32,
    pub(crate) every: u64,
}
