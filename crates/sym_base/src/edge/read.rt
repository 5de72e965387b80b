//! Whole files.
ghost use Rattle.std.specs.Prelude.{◌≡◌, ℕ, ◌≤◌, ◌<◌, List, length, IfOk, IfSome, IsErrOf};
ghost use Rattle.sym_base.specs.Counts.{Rose};
ghost use Rattle.sym_base.specs.declared.edge.read.ReadErr.TheVariants as read_error;

use crate::edge::store::{Failed, Store};
use crate::limits::{FILE_MAX, READ_PIECE};
use crate::values::memory::NoMemory;
use std::alloc::{AllocError, Global};

/// Why a file was not read whole.
#[derive(Clone, Copy, Debug, PartialEq, Eq)]
pub enum ReadErr {
    /// A read failed.
    Failed,
    /// The file has more bytes than were allowed.
    TooLarge,
    /// An allocation failed.
    NoMemory,
}

impl From<AllocError> for ReadErr {
    ghost from_gives = { λ _ e. e ≡ read_error.NoMemory };

    fn from(_refused: AllocError) -> ReadErr {
        ReadErr::NoMemory
    }
}

/// All bytes of the file of this name, of which there are at most `max`. A read that gives no
/// bytes ends the file. The store holds what it held before.
///
/// # Errors
///
/// `Failed` where a read failed, `TooLarge` where the file has more than `max` bytes, `NoMemory`.
pub fn read_all<F: Store>(
    alloc: Global,
    store: &mut F,
    name: &str,
    max: u64,
) -> Result<Vec<u8>, ReadErr>
    requires { max ≤ FILE_MAX }
    ensures ok { IfOk result (λ v. IfSome (F.holds store.old name.now) (λ bytes. v.items ≡ bytes)) }
    ensures fits { IfOk result (λ v. length v.items ≤ max) }
    ensures too_large { IsErrOf result ReadErr.TooLarge →
        IfSome (F.holds store.old name.now) (λ bytes. max < length bytes) }
    ensures failed { IsErrOf result ReadErr.Failed →
        Rose (F.faults store.old name.now) (F.faults store.new name.now) }
    ensures same { F.holds store.new ≡ F.holds store.old }
    ensures later { (other : List ℕ) → F.faults store.old other ≤ F.faults store.new other }
{
    let mut bytes = Vec::new(alloc);
    let about = store.size_hint(name);
    if about <= max {
        bytes.reserve(about as usize + READ_PIECE)?;
    }
    'pieces: loop {
        let start = bytes.len();
        bytes.resize(start + READ_PIECE, 0)?;
        let count = match store.read_at(name, start as u64, &mut bytes[start..]) {
            Ok(count) => count,
            Err(Failed) => return Err(ReadErr::Failed),
        };
        bytes.truncate(start + count);
        if count == 0 {
            return Ok(bytes);
        }
        if bytes.len() as u64 > max {
            return Err(ReadErr::TooLarge);
        }
    }
}
