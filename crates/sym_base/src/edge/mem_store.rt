//! A store in memory, whose reads can be made to fail.
ghost use Rattle.std.specs.Prelude.{◌≡◌, ◌≢◌, ℕ, ◌-◌, ◌≤◌, ◌↔◌, List, [], ◌∷◌, ◌++◌, None, Some, length, drop, min, IfOk, IfSome, OnOk, OnErr, IsErr, IsTrue, Contains};
ghost use Rattle.sym_base.specs.Counts.{Rose};
ghost use Rattle.sym_base.specs.Transfers.{ReadsAt};
ghost use Rattle.sym_base.specs.InMemory.{bytes_of, file_at, FailsNext, after_read, after_fault, at_most};

use crate::edge::files::{Files, copy_from, find, put, size_of};
use crate::edge::store::{Failed, Store};
use crate::limits::FILE_MAX;
use crate::values::memory::NoMemory;
use std::alloc::Global;
use std::collections::BTreeMap;
use std::marker::Model;

/// A store of files in memory. Its reads are counted from 1, and a read fails where its number was
/// set by `fail_at` or where there is no file of the name; it has one count of faults, for every
/// name. After `set_piece` a read gives at most so many bytes. A contract sees the files, the
/// numbers and the counts.
#[derive(Drop)]
pub struct MemStore {
    files: Files,
    piece: Option<usize>,
    failing: Vec<u64>,
    reads: u64,
    faults: u64,
}

impl Model for MemStore {
    ghost use Rattle.std.specs.Prelude.{◌≤◌, IfSome};
    ghost use Rattle.sym_base.specs.InMemory.{StoreInMemory, files_of};

    ghost Value = { StoreInMemory };

    ghost view = { λ s. record {
      files = files_of s.files.entries;
      piece = s.piece;
      failing = s.failing.items;
      reads = s.reads;
      faults = s.faults;
    } };

    ghost invariant = { λ s. IfSome s.piece (λ piece. 1 ≤ piece) };
}

impl MemStore {
    /// A store with no files and no reads that fail. It takes no memory until a file is added.
    pub fn new(alloc: Global) -> MemStore
        ensures { result ≡
            record { files = []; piece = None; failing = []; reads = 0; faults = 0 } }
    {
        MemStore {
            files: BTreeMap::new(alloc),
            piece: None,
            failing: Vec::new(alloc),
            reads: 0,
            faults: 0,
        }
    }

    /// Sets the file of this name to a copy of these bytes, in place of an older file of that
    /// name. After an `Err` the store is as before.
    pub fn add(&mut self, alloc: Global, name: &str, bytes: &[u8]) -> Result<(), NoMemory>
        ensures set { OnOk result (file_at self.new.files name.now ≡ Some bytes.now) }
        ensures others { OnOk result ((other : List ℕ) → other ≢ name.now →
            file_at self.new.files other ≡ file_at self.old.files other) }
        ensures counts { OnOk result (self.new ≡ record self.old { files = self.new.files }) }
        ensures err { OnErr result (self.new ≡ self.old) }
    {
        put(&mut self.files, alloc, name, bytes)
    }

    /// Makes the read of this number fail. Reads are counted from 1, over all names. After an
    /// `Err` the store is as before.
    pub fn fail_at(&mut self, _alloc: Global, call: u64) -> Result<(), NoMemory>
        ensures ok { OnOk result
            (self.new ≡ record self.old { failing = self.old.failing ++ call ∷ [] }) }
        ensures err { OnErr result (self.new ≡ self.old) }
    {
        self.failing.push(call)?;
        Ok(())
    }

    /// Lets each read from now on give at most `piece` bytes. Before, a read gives as many as it
    /// can.
    pub fn set_piece(&mut self, piece: usize)
        requires { 1 ≤ piece }
        ensures { self.new ≡ record self.old { piece = Some piece } }
    {
        self.piece = Some(piece);
    }
}

impl Store for MemStore {
    ghost holds = { λ s. file_at s.files };

    ghost faults = { λ s _. s.faults };

    /// Reads as many bytes as there are and `into` has room for, and at most a piece. A read that
    /// fails leaves `into`.
    fn read_at(&mut self, name: &str, at: u64, into: &mut [u8]) -> Result<usize, Failed>
        requires { at ≤ FILE_MAX }
        ensures bound { IfOk result (λ k. k ≤ length into.old) }
        ensures rest { IfOk result (λ k. drop k into.new ≡ drop k into.old) }
        ensures bytes { IfOk result (λ k. IfSome (file_at self.old.files name.now) (λ bytes.
            ReadsAt bytes at k into.old into.new)) }
        ensures same { file_at self.new.files ≡ file_at self.old.files }
        ensures later { (other : List ℕ) → self.old.faults ≤ self.new.faults }
        ensures failed { OnErr result (Rose self.old.faults self.new.faults) }
        ensures fails { IsErr result ↔ FailsNext self.old name.now }
        ensures most { IfOk result (λ k. IfSome (file_at self.old.files name.now) (λ bytes.
            k ≡ min (at_most self.old.piece (length into.old)) (length bytes - at))) }
        ensures read { OnOk result (self.new ≡ after_read self.old) }
        ensures fault { OnErr result (self.new ≡ after_fault self.old) }
        ensures kept { OnErr result (into.new ≡ into.old) }
    {
        self.reads = self.reads.saturating_add(1);
        if !is_listed(self.failing.as_slice(), self.reads) {
            if let Some(bytes) = find(&self.files, name) {
                let most = most_of(self.piece, into.len());
                return Ok(copy_from(bytes, at, into, most));
            }
        }
        self.faults = self.faults.saturating_add(1);
        Err(Failed)
    }

    /// The number of its bytes.
    fn size_hint(&self, name: &str) -> u64
        ensures { result ≡ length (bytes_of self.now.files name.now) }
    {
        size_of(&self.files, name)
    }
}

// How many bytes a read may give where there is room for so many.
fn most_of(piece: Option<usize>, room: usize) -> usize
    ensures { result ≡ at_most piece room }
{
    match piece {
        Some(piece) => piece.min(room),
        None => room,
    }
}

// Whether a call's number is among those that are to fail.
pub(crate) fn is_listed(failing: &[u64], call: u64) -> bool
    ensures { IsTrue result ↔ Contains failing.now call }
{
    failing.contains(&call)
}
