//! Numbers among the texts that the program writes.
ghost use Rattle.std.specs.Prelude.{◌≡◌, ◌++◌, OnOk};
ghost use Rattle.std.specs.Fmt.{decimal};

use itoa::Buffer;
use sym_base::NoMemory;

/// Appends a text and a number after it.
#[tactic(auto, using(std::proofs::Common::append_assoc))]
pub(crate) fn push_number(into: &mut Vec<u8>, before: &str, number: u128) -> Result<(), NoMemory>
    ensures { OnOk result (into.new.items ≡ into.old.items ++ (before.now ++ decimal number)) }
{
    let mut buffer = Buffer::new();
    into.extend_from_slice(before.as_bytes())?;
    into.extend_from_slice(buffer.format(number).as_bytes())?;
    Ok(())
}
