//! Paths that move from one list into another.
ghost use Rattle.std.specs.Prelude.{◌≡◌, ◌≤◌, ◌++◌, ◌-◌, [], OnOk, drop, length, take};

use std::mem;
use sym_base::NoMemory;
use sym_path::Path;

/// Puts all of the paths after the others. It takes no memory where there are no others.
pub(crate) fn move_all(from: &mut Vec<Path>, to: &mut Vec<Path>) -> Result<(), NoMemory>
    ensures from { OnOk result (from.new.items ≡ []) }
    ensures to { OnOk result (to.new.items ≡ to.old.items ++ from.old.items) }
{
    if to.is_empty() {
        mem::swap(from, to);
    } else {
        to.append(from)?;
    }
    Ok(())
}

/// Puts the last path after the others.
fn move_last(paths: &mut Vec<Path>, to: &mut Vec<Path>) -> Result<(), NoMemory>
    requires { 1 ≤ length paths.old.items }
    ensures paths { let count = length paths.old.items - 1 in
        OnOk result (paths.new.items ≡ take count paths.old.items) }
    ensures to { let count = length paths.old.items - 1 in
        OnOk result (to.new.items ≡ to.old.items ++ drop count paths.old.items) }
{
    match paths.pop() {
        Some(path) => {
            to.push(path)?;
            Ok(())
        }
        None => unreachable!(),
    }
}

/// Puts the paths from this place on after the others. It takes no memory where none move, all move
/// and there are no others, or one moves and there is room for it.
pub(crate) fn move_from(
    paths: &mut Vec<Path>,
    place: usize,
    to: &mut Vec<Path>,
) -> Result<(), NoMemory>
    requires { place ≤ length paths.old.items }
    ensures paths { OnOk result (paths.new.items ≡ take place paths.old.items) }
    ensures to { OnOk result (to.new.items ≡ to.old.items ++ drop place paths.old.items) }
{
    if place == 0 {
        move_all(paths, to)
    } else if place >= paths.len() {
        Ok(())
    } else if paths.len() - place == 1 {
        move_last(paths, to)
    } else {
        let mut rest = paths.split_off(place)?;
        move_all(&mut rest, to)
    }
}
