//! Laws of the definitions that contracts cite.
pub mod chains;
pub mod chunks;
pub mod keys;
pub mod runs;
pub mod saved;
