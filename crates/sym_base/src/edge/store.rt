//! Where bytes come from: named files that are read piece by piece.
ghost use Rattle.std.specs.Prelude.{◌≡◌, ℕ, ◌≤◌, List, Option, length, drop, IfOk, IfSome, OnErr};
ghost use Rattle.sym_base.specs.Counts.{Rose};
ghost use Rattle.sym_base.specs.Transfers.{ReadsAt};

use crate::limits::FILE_MAX;

/// A read or a write failed.
#[derive(Clone, Copy, Debug, PartialEq, Eq)]
pub struct Failed;

/// A store of named files. What a file holds may be visible to contracts, or not, as on a disk.
pub trait Store {
    // The bytes of the file of each name, where they are visible.
    ghost holds: { Self → List ℕ → Option (List ℕ) };

    // How many reads of each name have failed. A store with one counter has it for every name.
    ghost faults: { Self → List ℕ → ℕ };

    /// Reads bytes of the file of this name, from the place `at` (counted from 0) on, into the
    /// first bytes of `into`, and gives their number. It gives 0 only where `into` is empty or the
    /// file ends at `at` or before. No read changes what the store holds.
    ///
    /// # Errors
    ///
    /// `Failed` where the read failed, which the store counts; `into` may then hold any bytes.
    fn read_at(&mut self, name: &str, at: u64, into: &mut [u8]) -> Result<usize, Failed>
        requires { at ≤ FILE_MAX }
        ensures bound { IfOk result (λ k. k ≤ length into.old) }
        ensures rest { IfOk result (λ k. drop k into.new ≡ drop k into.old) }
        ensures bytes { IfOk result (λ k. IfSome (holds self.old name.now) (λ bytes.
            ReadsAt bytes at k into.old into.new)) }
        ensures same { holds self.new ≡ holds self.old }
        ensures later { (other : List ℕ) → faults self.old other ≤ faults self.new other }
        ensures failed { OnErr result
            (Rose (faults self.old name.now) (faults self.new name.now)) };

    /// About how many bytes the file of this name has, so that a reader can take their memory at
    /// once; 0 where that isn't known. It is a guess: who reads the file has to get by with any.
    fn size_hint(&self, name: &str) -> u64;
}
