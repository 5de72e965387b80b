//! Paths beside the places of their outcomes, in a list that they share.
ghost use Rattle.std.specs.Prelude.{◌≡◌, IfOk, IfSome, IsTrue, OnOk, Some, slice_get};
ghost use Rattle.std.specs.List.{AllZip};
ghost use Rattle.sym_known.specs.Placing.{AreKept, HoldsKnown, IsPlaced};

use crate::known_cells::known_state;
use std::alloc::Global;
use sym_base::{NoMemory, Outcome};
use sym_path::{Path, PathEnd};

/// A path, and the place of its outcome. For one that has ended the place says nothing.
#[derive(Drop)]
pub(crate) struct Placed {
    pub(crate) path: Path,
    pub(crate) place: usize,
}

fn is_same(outcome: &Outcome, other: &Outcome) -> bool
    ensures { IsTrue result → outcome.now ≡ other.now }
{
    outcome == other
}

/// The first place of an equal outcome.
fn place_among(outcomes: &[Outcome], outcome: &Outcome) -> Option<usize>
    ensures { IfSome result (λ place. slice_get outcomes.now place ≡ Some outcome.now) }
{
    'outcomes: for index in 0..outcomes.len() {
        if is_same(&outcomes[index], outcome) {
            return Some(index);
        }
    }
    None
}

/// The place of an equal outcome, which is put last if there is none.
fn share(outcome: Outcome, outcomes: &mut Vec<Outcome>) -> Result<usize, NoMemory>
    ensures place { IfOk result (λ place. slice_get outcomes.new.items place ≡ Some outcome) }
    ensures kept { OnOk result (AreKept outcomes.old.items outcomes.new.items) }
{
    match place_among(outcomes, &outcome) {
        Some(place) => Ok(place),
        None => {
            let place = outcomes.len();
            outcomes.push(outcome)?;
            Ok(place)
        }
    }
}

/// The place of what is known by a path's end. Ends with equal known cells have one place.
fn place_of(alloc: Global, end: &PathEnd, outcomes: &mut Vec<Outcome>) -> Result<usize, NoMemory>
    ensures place { IfOk result (HoldsKnown outcomes.new.items end.now) }
    ensures kept { OnOk result (AreKept outcomes.old.items outcomes.new.items) }
{
    match end {
        PathEnd::Next(forms) => {
            let state = known_state(alloc, forms.as_slice())?;
            share(Outcome::Going(state), outcomes)
        }
        PathEnd::Ended(_) => Ok(0),
    }
}

/// The paths, which are moved, beside the places of what is known by them.
pub(crate) fn place_all(
    alloc: Global,
    paths: Vec<Path>,
    outcomes: &mut Vec<Outcome>,
) -> Result<Vec<Placed>, NoMemory>
    ensures { IfOk result (λ placed.
        AllZip (IsPlaced outcomes.new.items) paths.items placed.items) }
{
    let mut placed = Vec::with_capacity(alloc, paths.len())?;
    'paths: for path in paths {
        let place = place_of(alloc, &path.end, outcomes)?;
        placed.push(Placed { path, place })?;
    }
    Ok(placed)
}
