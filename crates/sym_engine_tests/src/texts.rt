//! What passes come to, as texts.
use std::alloc::Global;
use sym_base::NoMemory;
use sym_engine::PassErr;
use sym_given::groups_text;
use sym_plain::Groups;

/// The text of the groups that a pass comes to, or why there are none.
pub(crate) fn passed_text(
    alloc: Global,
    passed: &Result<Groups, PassErr>,
) -> Result<String, NoMemory> {
    match passed {
        Ok(groups) => groups_text(alloc, groups),
        Err(why) => Ok(format!(in alloc; "{why:?}")?),
    }
}
