//! A sink in memory, whose writes can be made short and to fail.
ghost use Rattle.std.specs.Prelude.{◌≡◌, ℕ, ◌≤◌, ◌↔◌, List, [], ◌∷◌, ◌++◌, Some, length, take, min, IfOk, OnOk, OnErr, IsErrOf, Contains};
ghost use Rattle.sym_base.specs.Counts.{Rose, counted};
ghost use Rattle.sym_base.specs.Transfers.{appended};
ghost use Rattle.sym_base.specs.InMemory.{after_write, after_failed_write, after_short_write};

use crate::edge::mem_store::is_listed;
use crate::edge::sink::{Sink, SinkErr};
use crate::values::memory::NoMemory;
use std::alloc::Global;
use std::marker::Model;

/// A sink in memory. A write takes at most a fixed number of bytes. Writes are counted from 1, and a
/// write fails where its number was set by `fail_at`. A contract sees the bytes, the numbers and the
/// counts.
#[derive(Drop)]
pub struct MemSink {
    bytes: Vec<u8>,
    piece: usize,
    failing: Vec<u64>,
    writes: u64,
    faults: u64,
    short: u64,
}

impl Model for MemSink {
    ghost use Rattle.std.specs.Prelude.{◌≤◌};
    ghost use Rattle.sym_base.specs.InMemory.{SinkInMemory};

    ghost Value = { SinkInMemory };

    ghost view = { λ s. record {
      bytes = s.bytes.items;
      piece = s.piece;
      failing = s.failing.items;
      writes = s.writes;
      faults = s.faults;
      short = s.short;
    } };

    ghost invariant = { λ s. 1 ≤ s.piece };
}

impl MemSink {
    /// A sink with no bytes and no writes that fail, of which each write takes at most `piece`
    /// bytes. It takes no memory until something is written.
    pub fn new(alloc: Global, piece: usize) -> MemSink
        requires { 1 ≤ piece }
        ensures { result ≡ record {
          bytes = [];
          piece = piece;
          failing = [];
          writes = 0;
          faults = 0;
          short = 0;
        } }
    {
        MemSink {
            bytes: Vec::new(alloc),
            piece,
            failing: Vec::new(alloc),
            writes: 0,
            faults: 0,
            short: 0,
        }
    }

    /// Makes the write of this number fail. Writes are counted from 1. After an `Err` the sink is
    /// as before.
    pub fn fail_at(&mut self, _alloc: Global, call: u64) -> Result<(), NoMemory>
        ensures ok { OnOk result
            (self.new ≡ record self.old { failing = self.old.failing ++ call ∷ [] }) }
        ensures err { OnErr result (self.new ≡ self.old) }
    {
        self.failing.push(call)?;
        Ok(())
    }

    /// All bytes that were written.
    pub fn bytes(&self) -> &[u8]
        ensures { result.now ≡ self.now.bytes }
    {
        self.bytes.as_slice()
    }
}

impl Sink for MemSink {
    ghost written = { λ s. Some s.bytes };

    ghost faults = { λ s. s.faults };

    ghost short = { λ s. s.short };

    /// Takes as many bytes as there are, and at most a piece.
    fn write_some(&mut self, bytes: &[u8]) -> Result<usize, SinkErr>
        ensures bound { IfOk result (λ k. k ≤ length bytes.now) }
        ensures some { IfOk result (λ k. k ≡ 0 → length bytes.now ≡ 0) }
        ensures ok { IfOk result (λ k.
            Some self.new.bytes ≡ appended (Some self.old.bytes) (take k bytes.now)) }
        ensures err { OnErr result (Some self.new.bytes ≡ Some self.old.bytes) }
        ensures later { self.old.faults ≤ self.new.faults }
        ensures later_short { self.old.short ≤ self.new.short }
        ensures failed { IsErrOf result SinkErr.Failed → Rose self.old.faults self.new.faults }
        ensures no_memory { IsErrOf result SinkErr.NoMemory → Rose self.old.short self.new.short }
        ensures fails { IsErrOf result SinkErr.Failed ↔
            Contains self.old.failing (counted self.old.writes) }
        ensures piece { IfOk result (λ k. k ≡ min self.old.piece (length bytes.now)) }
        ensures taken { IfOk result (λ k. self.new ≡ after_write self.old (take k bytes.now)) }
        ensures fault { IsErrOf result SinkErr.Failed → self.new ≡ after_failed_write self.old }
        ensures refused { IsErrOf result SinkErr.NoMemory → self.new ≡ after_short_write self.old }
    {
        self.writes = self.writes.saturating_add(1);
        if is_listed(self.failing.as_slice(), self.writes) {
            self.faults = self.faults.saturating_add(1);
            return Err(SinkErr::Failed);
        }
        let count = self.piece.min(bytes.len());
        if self.bytes.extend_from_slice(&bytes[..count]).is_err() {
            self.short = self.short.saturating_add(1);
            return Err(SinkErr::NoMemory);
        }
        Ok(count)
    }
}
