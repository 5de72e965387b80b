//! Scripts and logs that are read from files.
ghost use Rattle.std.specs.Prelude.{◌≤◌, IfOk, length};
ghost use Rattle.sym_base.specs.declared.limits.TheConstants as limits;

use crate::stop::Stop;
use std::fs;
use std::rt::Files;
use sym_base::FILE_MAX;

/// All bytes of a file; an error where it has more than a file may have.
pub(crate) fn bytes_of<R: Files + AllocGlobal>(rt: &R, name: &str) -> Result<Vec<u8>, Stop>
    ensures { IfOk result (λ bytes. length bytes.items ≤ limits.FILE_MAX) }
{
    let bytes = fs::read(rt, name)?;
    if bytes.len() as u64 > FILE_MAX {
        return Err(Stop::Input);
    }
    Ok(bytes)
}
