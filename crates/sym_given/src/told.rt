//! What is said of a row that doesn't hold: what was found, and what was wanted.
use std::alloc::Global;
use std::fmt::Debug;
use std::test::Fail;
use sym_base::NoMemory;

/// What is found and what is wanted, if they differ.
pub fn difference<T: Debug + PartialEq>(
    alloc: Global,
    found: &T,
    wanted: &T,
) -> Result<Option<String>, NoMemory> {
    if found == wanted {
        return Ok(None);
    }
    Ok(Some(format!(in alloc; "found {found:?}, wanted {wanted:?}")?))
}

/// What is found in the place of what is wanted, in these words, if it doesn't hold. For values
/// that have no text.
pub fn found_unless(alloc: Global, holds: bool, found: &str) -> Result<Option<String>, NoMemory> {
    if holds {
        return Ok(None);
    }
    Ok(Some(String::from_str(alloc, found)?))
}

/// What is said of a row that is tried in this way, if anything is.
pub fn told_by<W: Debug>(
    alloc: Global,
    way: &W,
    told: Option<String>,
) -> Result<Option<String>, NoMemory> {
    match told {
        Some(told) => Ok(Some(format!(in alloc; "{way:?}: {told}")?)),
        None => Ok(None),
    }
}

/// What is said of a text that is refused, in place of its script.
pub fn refused(alloc: Global, text: &str) -> Result<Option<String>, NoMemory> {
    Ok(Some(format!(in alloc; "found a text that is refused, wanted a script: {text}")?))
}

/// What is said of the row at this place, counted from 0, if anything is.
pub fn told_at(
    alloc: Global,
    place: usize,
    told: Option<String>,
) -> Result<Option<String>, NoMemory> {
    match told {
        Some(told) => Ok(Some(format!(in alloc; "row {place}: {told}")?)),
        None => Ok(None),
    }
}

/// Fails the test if anything is said.
pub fn all_hold(told: Result<Option<String>, NoMemory>) -> Result<(), Fail> {
    match told? {
        Some(told) => Err(Fail::new(told)),
        None => Ok(()),
    }
}
