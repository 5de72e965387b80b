//! A sink in memory whose writes never fail.
ghost use Rattle.std.specs.Prelude.{◌≡◌, ℕ, ◌≤◌, [], ◌++◌, Some, length, take, IfOk, OnOk, OnErr, IsErrOf};
ghost use Rattle.sym_base.specs.Counts.{Rose, counted};
ghost use Rattle.sym_base.specs.Transfers.{appended};

use crate::edge::sink::{Sink, SinkErr};
use std::alloc::Global;
use std::marker::Model;

/// A sink in memory, which takes all bytes of a write at once. Only its own memory may run out,
/// which it counts. A contract sees the bytes and that count.
#[derive(Drop)]
pub struct SureSink {
    bytes: Vec<u8>,
    short: u64,
}

impl Model for SureSink {
    ghost use Rattle.sym_base.specs.InMemory.{SureSinkInMemory};

    ghost Value = { SureSinkInMemory };

    ghost view = { λ s. record { bytes = s.bytes.items; short = s.short } };
}

impl SureSink {
    /// A sink with no bytes. It takes no memory until something is written.
    pub fn new(alloc: Global) -> SureSink
        ensures { result ≡ record { bytes = []; short = 0 } }
    {
        SureSink {
            bytes: Vec::new(alloc),
            short: 0,
        }
    }

    /// All bytes that were written.
    pub fn bytes(&self) -> &[u8]
        ensures { result.now ≡ self.now.bytes }
    {
        self.bytes.as_slice()
    }
}

impl Sink for SureSink {
    ghost written = { λ s. Some s.bytes };

    ghost faults = { λ _. 0 };

    ghost short = { λ s. s.short };

    /// Takes all bytes.
    fn write_some(&mut self, bytes: &[u8]) -> Result<usize, SinkErr>
        ensures bound { IfOk result (λ k. k ≤ length bytes.now) }
        ensures some { IfOk result (λ k. k ≡ 0 → length bytes.now ≡ 0) }
        ensures ok { IfOk result (λ k.
            Some self.new.bytes ≡ appended (Some self.old.bytes) (take k bytes.now)) }
        ensures err { OnErr result (Some self.new.bytes ≡ Some self.old.bytes) }
        ensures later { 0 ≤ 0 }
        ensures later_short { self.old.short ≤ self.new.short }
        ensures failed { IsErrOf result SinkErr.Failed → Rose 0 0 }
        ensures no_memory { IsErrOf result SinkErr.NoMemory → Rose self.old.short self.new.short }
        ensures sure { IsErrOf result SinkErr.Failed → ⊥ }
        ensures all { IfOk result (λ k. k ≡ length bytes.now) }
        ensures taken { OnOk result
            (self.new ≡ record self.old { bytes = self.old.bytes ++ bytes.now }) }
        ensures refused { OnErr result
            (self.new ≡ record self.old { short = counted self.old.short }) }
    {
        if self.bytes.extend_from_slice(bytes).is_err() {
            self.short = self.short.saturating_add(1);
            return Err(SinkErr::NoMemory);
        }
        Ok(bytes.len())
    }
}
