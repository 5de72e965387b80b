//! The lists of paths that an update is run on.
use crate::branch::Branch;
use sym_path::Path;

/// The paths that the statements of an update are run on, with those that have ended.
#[derive(Drop)]
pub(crate) struct PathLists {
    /// Those that go on.
    pub paths: Vec<Path>,
    /// Those that have ended.
    pub ended: Vec<Path>,
    /// Memory for what a split adds to the paths. What is in it between two splits has no meaning.
    pub pieces: Vec<Branch>,
}
