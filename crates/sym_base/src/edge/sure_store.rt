//! A store in memory whose reads never fail.
ghost use Rattle.std.specs.Prelude.{◌≡◌, ◌≢◌, ℕ, ◌-◌, ◌≤◌, List, [], length, drop, min, IfOk, OnOk, OnErr};
ghost use Rattle.sym_base.specs.Counts.{Rose};
ghost use Rattle.sym_base.specs.Transfers.{ReadsAt};
ghost use Rattle.sym_base.specs.InMemory.{bytes_of, visible_bytes};

use crate::edge::files::{Files, copy_from, find, put, size_of};
use crate::edge::store::{Failed, Store};
use crate::limits::FILE_MAX;
use crate::values::memory::NoMemory;
use std::alloc::Global;
use std::collections::BTreeMap;
use std::marker::Model;

/// A store of files in memory, which never fails. A name that was not added is a file of no bytes.
/// A contract sees the files.
#[derive(Drop)]
pub struct SureStore {
    files: Files,
}

impl Model for SureStore {
    ghost use Rattle.std.specs.Prelude.{List};
    ghost use Rattle.sym_base.specs.InMemory.{File, files_of};

    ghost Value = { List File };

    ghost view = { λ s. files_of s.files.entries };
}

impl SureStore {
    /// A store with no files. It takes no memory until a file is added.
    pub fn new(alloc: Global) -> SureStore
        ensures { result ≡ [] }
    {
        SureStore {
            files: BTreeMap::new(alloc),
        }
    }

    /// Sets the file of this name to a copy of these bytes, in place of an older file of that
    /// name. After an `Err` the store is as before.
    pub fn add(&mut self, alloc: Global, name: &str, bytes: &[u8]) -> Result<(), NoMemory>
        ensures set { OnOk result (bytes_of self.new name.now ≡ bytes.now) }
        ensures others { OnOk result ((other : List ℕ) → other ≢ name.now →
            bytes_of self.new other ≡ bytes_of self.old other) }
        ensures err { OnErr result (self.new ≡ self.old) }
    {
        put(&mut self.files, alloc, name, bytes)
    }
}

impl Store for SureStore {
    ghost holds = { visible_bytes };

    ghost faults = { λ _ _. 0 };

    /// Reads as many bytes as there are and `into` has room for.
    fn read_at(&mut self, name: &str, at: u64, into: &mut [u8]) -> Result<usize, Failed>
        requires { at ≤ FILE_MAX }
        ensures bound { IfOk result (λ k. k ≤ length into.old) }
        ensures rest { IfOk result (λ k. drop k into.new ≡ drop k into.old) }
        ensures bytes { IfOk result (λ k.
            ReadsAt (bytes_of self.old name.now) at k into.old into.new) }
        ensures same { visible_bytes self.new ≡ visible_bytes self.old }
        ensures later { (other : List ℕ) → 0 ≤ 0 }
        ensures failed { OnErr result (Rose 0 0) }
        ensures sure { OnErr result ⊥ }
        ensures most { IfOk result (λ k.
            k ≡ min (length into.old) (length (bytes_of self.old name.now) - at)) }
        ensures kept { self.new ≡ self.old }
    {
        let room = into.len();
        match find(&self.files, name) {
            Some(bytes) => Ok(copy_from(bytes, at, into, room)),
            None => Ok(copy_from(&[], at, into, room)),
        }
    }

    /// The number of its bytes.
    fn size_hint(&self, name: &str) -> u64
        ensures { result ≡ length (bytes_of self.now name.now) }
    {
        size_of(&self.files, name)
    }
}
