//! Groups as texts, and how they differ.
use crate::texts::group_text;
use std::alloc::Global;
use sym_base::NoMemory;
use sym_plain::Groups;

/// The text of the group at a place.
pub fn group_text_at(alloc: Global, groups: &Groups, place: usize) -> Result<String, NoMemory> {
    match groups.at(place) {
        Some((key, outcome)) => group_text(alloc, key, outcome),
        None => Ok(String::from_str(alloc, "no group")?),
    }
}

/// The text of groups, in order.
pub fn groups_text(alloc: Global, groups: &Groups) -> Result<String, NoMemory> {
    let mut text = String::new(alloc);
    'groups: for place in 0..groups.len() {
        text.push_str(group_text_at(alloc, groups, place)?.as_str())?;
        text.push_str("; ")?;
    }
    Ok(text)
}

// Whether there is a group at this place in both, and they are the same.
fn same_group(left: &Groups, right: &Groups, place: usize) -> bool {
    match (left.at(place), right.at(place)) {
        (Some((key, outcome)), Some((other, stands))) => key == other && outcome == stands,
        _ => false,
    }
}

/// The first group that isn't the one that is wanted at its place, if they are not the same in the
/// same order.
pub fn groups_differ(
    alloc: Global,
    found: &Groups,
    wanted: &Groups,
) -> Result<Option<String>, NoMemory> {
    'groups: for place in 0..found.len().max(wanted.len()) {
        if !same_group(found, wanted, place) {
            let found = group_text_at(alloc, found, place)?;
            let wanted = group_text_at(alloc, wanted, place)?;
            return Ok(Some(format!(in alloc; "group {place}: found {found}, wanted {wanted}")?));
        }
    }
    Ok(None)
}
