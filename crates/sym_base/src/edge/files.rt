//! Files that a store in memory keeps.
ghost use Rattle.std.specs.Prelude.{◌≡◌, ◌≢◌, ◌-◌, ◌≤◌, List, ℕ, Some, length, min, OnOk, OnErr, option_map};
ghost use Rattle.sym_base.specs.InMemory.{bytes_of, file_at, files_of};
ghost use Rattle.sym_base.specs.Transfers.{ReadsAt};

use crate::limits::FILE_MAX;
use crate::values::memory::NoMemory;
use crate::values::sequence::Sequence;
use std::alloc::Global;
use std::collections::BTreeMap;

/// The bytes of each file, by its name.
pub(crate) type Files = BTreeMap<String, Sequence<u8>>;

// Sets the file of this name to a copy of these bytes. After an `Err` the files are as before.
pub(crate) fn put(
    files: &mut Files,
    alloc: Global,
    name: &str,
    bytes: &[u8],
) -> Result<(), NoMemory>
    ensures set { OnOk result (file_at (files_of files.new.entries) name.now ≡ Some bytes.now) }
    ensures others { OnOk result ((other : List ℕ) → other ≢ name.now →
        file_at (files_of files.new.entries) other ≡ file_at (files_of files.old.entries) other) }
    ensures err { OnErr result (files.new.entries ≡ files.old.entries) }
{
    let name = String::from_str(alloc, name)?;
    let bytes = Sequence::of(Vec::from_slice(alloc, bytes)?);
    let _older = files.insert(name, bytes)?;
    Ok(())
}

// The bytes of the file of this name.
pub(crate) fn find<'a>(files: &'a Files, name: &str) -> Option<&'a [u8]>
    ensures { option_map (λ bytes. bytes.now) result ≡
        file_at (files_of files.now.entries) name.now }
{
    let bytes = files.get(name)?;
    Some(bytes.as_slice())
}

// The number of a file's bytes; 0 where there is no file.
pub(crate) fn size_of(files: &Files, name: &str) -> u64
    ensures { result ≡ length (bytes_of (files_of files.now.entries) name.now) }
{
    match find(files, name) {
        Some(bytes) => bytes.len() as u64,
        None => 0,
    }
}

// Copies the bytes from a place on to the start of a buffer, at most so many of them.
pub(crate) fn copy_from(bytes: &[u8], at: u64, into: &mut [u8], most: usize) -> usize
    requires at { at ≤ FILE_MAX }
    requires room { most ≤ length into.old }
    requires some { most ≡ 0 → length into.old ≡ 0 }
    ensures most { result ≡ min most (length bytes.now - at) }
    ensures reads { ReadsAt bytes.now at result into.old into.new }
{
    let start = (at as usize).min(bytes.len());
    let rest = &bytes[start..];
    let count = rest.len().min(most);
    into[..count].copy_from_slice(&rest[..count]);
    count
}
