//! Files in memory and their names.
use std::alloc::Global;
use sym_base::{MemStore, NoMemory};

/// The names of files.
pub(crate) fn names_of(alloc: Global, given: &[&'static str]) -> Result<Vec<String>, NoMemory> {
    let mut names = Vec::new(alloc);
    'names: for name in given {
        names.push(String::from_str(alloc, name)?)?;
    }
    Ok(names)
}

/// A store of files, each with its name and its text.
pub(crate) fn store_of(
    alloc: Global,
    files: &[(&'static str, &'static str)],
) -> Result<MemStore, NoMemory> {
    let mut store = MemStore::new(alloc);
    'files: for file in files {
        store.add(alloc, file.0, file.1.as_bytes())?;
    }
    Ok(store)
}
