//! Groups that begin, so that each record of a batch has the place of its group.
ghost use Rattle.std.specs.Prelude.{◌≡◌, ◌++◌, Bool, IfOk, OnOk, List, Some, length, map, slice_get};
ghost use Rattle.std.specs.Map.{keys_of};
ghost use Rattle.sym_base.specs.declared.values.record.Record.{Record as OneRecord};
ghost use Rattle.sym_base.specs.declared.values.state.Outcome.{Outcome as OneOutcome};
ghost use Rattle.sym_base.specs.declared.values.value.Key.{Key as OneKey};
ghost use Rattle.sym_check.specs.Checking.CheckedScripts.{checked_plan};
ghost use Rattle.sym_shuffle.specs.Begun.{begun, begun_one};
ghost use Rattle.sym_shuffle.specs.Places.{ArePlaces, moved_place};
ghost use Rattle.sym_shuffle.specs.Settled.{Holds, IsDealt};

use crate::batch::Batch;
use indexmap::IndexMap;
use std::alloc::Global;
use sym_base::{Key, NoMemory, Outcome};
use sym_check::Checked;
use sym_plain::{Groups, initial};

// The place of the group with this key, which begins at the initial state where there is none.
fn place_of(
    alloc: Global,
    checked: &Checked,
    groups: &mut Groups,
    key: Key,
) -> Result<usize, NoMemory>
    ensures groups { OnOk result (groups.new
        ≡ begun_one (checked_plan checked.now) key groups.old) }
    ensures place { IfOk result (λ place. slice_get (keys_of groups.new) place ≡ Some key) }
{
    if let Some(place) = groups.index_of(&key) {
        return Ok(place);
    }
    let place = groups.len();
    let outcome = Outcome::Going(initial(alloc, checked)?);
    groups.begin(alloc, key, outcome)?;
    Ok(place)
}

// Where the groups of these keys are, which begin where they aren't there. Keys are moved.
fn places_of(
    alloc: Global,
    checked: &Checked,
    groups: &mut Groups,
    new: IndexMap<Key, ()>,
) -> Result<Vec<usize>, NoMemory>
    ensures groups { OnOk result (groups.new
        ≡ begun (checked_plan checked.now) (keys_of new.entries) groups.old) }
    ensures places { IfOk result (λ places.
        ArePlaces (keys_of groups.new) places.items (keys_of new.entries)) }
{
    let mut places = Vec::with_capacity(alloc, new.len())?;
    'keys: for (key, _) in new {
        places.push(place_of(alloc, checked, groups, key)?)?;
    }
    Ok(places)
}

// Where a place goes: the first `count` stay, and those after them take theirs from the list.
fn moved_place(count: usize, moved: &[usize], place: usize) -> usize
    ensures { result ≡ moved_place count moved.now place }
{
    if place < count {
        return place;
    }
    match moved.get(place - count) {
        Some(there) => *there,
        None => place,
    }
}

// Moves each place to where it goes.
fn move_places(places: &mut [usize], count: usize, moved: &[usize])
    ensures { places.new ≡ map (moved_place count moved.now) places.old }
{
    'places: for index in 0..places.len() {
        places[index] = moved_place(count, moved, places[index]);
    }
}

/// Begins the groups of the new keys of a batch that was read beside the first `count` of these
/// groups, and makes the batch's places those among the groups that there are then. Keys are moved.
pub(crate) fn settle(
    alloc: Global,
    checked: &Checked,
    groups: &mut Groups,
    count: usize,
    batch: Batch,
    new: IndexMap<Key, ()>,
) -> Result<Batch, NoMemory>
    ensures groups { OnOk result (groups.new
        ≡ begun (checked_plan checked.now) (keys_of new.entries) groups.old) }
    ensures holds { let p = checked_plan checked.now in
        (marks : List Bool) (base more : List (OneKey × OneOutcome)) (records : List OneRecord) →
        length base ≡ count → groups.old ≡ base ++ more →
        IsDealt p marks base records batch (keys_of new.entries) →
        IfOk result (Holds p marks (keys_of groups.new) records) }
{
    let mut batch = batch;
    if new.is_empty() {
        return Ok(batch);
    }
    let moved = places_of(alloc, checked, groups, new)?;
    move_places(batch.places.as_mut_slice(), count, moved.as_slice());
    Ok(batch)
}
