//! Where bytes go to: a sink that takes them piece by piece.
ghost use Rattle.std.specs.Prelude.{◌≡◌, ℕ, ◌≤◌, List, Option, length, take, IfOk, OnErr, IsErrOf};
ghost use Rattle.sym_base.specs.Counts.{Rose};
ghost use Rattle.sym_base.specs.Transfers.{appended};

/// Why a write took nothing.
#[derive(Clone, Copy, Debug, PartialEq, Eq)]
pub enum SinkErr {
    /// The write failed, which the sink counts.
    Failed,
    /// A sink in memory had no more of it, which the sink counts.
    NoMemory,
}

/// A sink of bytes. What was written to it may be visible to contracts, or not, as on a stream.
pub trait Sink {
    // All bytes that were written, where they are visible.
    ghost written: { Self → Option (List ℕ) };

    // How many writes have failed.
    ghost faults: { Self → ℕ };

    // How many writes found the sink's own memory full: 0 where the sink isn't in memory.
    ghost short: { Self → ℕ };

    /// Appends the first of these bytes and gives their number, which is 0 only where there are
    /// no bytes. After an `Err` what was written is as before.
    ///
    /// # Errors
    ///
    /// `Failed` where the write failed, `NoMemory` where the sink's own memory ended; the sink
    /// counts each of the two.
    fn write_some(&mut self, bytes: &[u8]) -> Result<usize, SinkErr>
        ensures bound { IfOk result (λ k. k ≤ length bytes.now) }
        ensures some { IfOk result (λ k. k ≡ 0 → length bytes.now ≡ 0) }
        ensures ok { IfOk result (λ k.
            written self.new ≡ appended (written self.old) (take k bytes.now)) }
        ensures err { OnErr result (written self.new ≡ written self.old) }
        ensures later { faults self.old ≤ faults self.new }
        ensures later_short { short self.old ≤ short self.new }
        ensures failed { IsErrOf result SinkErr.Failed → Rose (faults self.old) (faults self.new) }
        ensures no_memory { IsErrOf result SinkErr.NoMemory →
            Rose (short self.old) (short self.new) };
}
