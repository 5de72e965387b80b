//! The branches of a path: parts of its states on which a condition has one truth.
ghost use Rattle.std.specs.Prelude.{◌≡◌, ◌∷◌, ◌++◌, [], OnOk};
ghost use Rattle.sym_explore.specs.Branches.{paths_false, paths_true};

use sym_base::NoMemory;
use sym_path::Path;

/// A path with the truth that a condition has on it.
#[derive(Drop)]
pub struct Branch {
    pub path: Path,
    pub truth: bool,
}

/// Puts the path of a branch after those of its truth.
pub(crate) fn put(
    branch: Branch,
    trues: &mut Vec<Path>,
    falses: &mut Vec<Path>,
) -> Result<(), NoMemory>
    ensures trues { OnOk result (trues.new.items ≡ trues.old.items ++ paths_true (branch ∷ [])) }
    ensures falses { OnOk result (
        falses.new.items ≡ falses.old.items ++ paths_false (branch ∷ [])) }
{
    let Branch { path, truth } = branch;
    if truth {
        trues.push(path)?;
    } else {
        falses.push(path)?;
    }
    Ok(())
}

/// Moves the paths of branches after those of their truth, in order.
pub(crate) fn put_all(
    branches: &mut Vec<Branch>,
    trues: &mut Vec<Path>,
    falses: &mut Vec<Path>,
) -> Result<(), NoMemory>
    ensures trues { OnOk result (
        trues.new.items ≡ trues.old.items ++ paths_true branches.old.items) }
    ensures falses { OnOk result (
        falses.new.items ≡ falses.old.items ++ paths_false branches.old.items) }
{
    'branches: for branch in branches.drain(..) {
        put(branch, trues, falses)?;
    }
    Ok(())
}
