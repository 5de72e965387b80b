//! The records of a log, folded one by one.
ghost use Rattle.sym_check.specs.Checking.CheckedScripts.{checked_plan};
ghost use Rattle.sym_table.specs.Rows.{FitsHeader};

use crate::texts::{text_of_bad, text_of_groups};
use std::alloc::Global;
use sym_base::NoMemory;
use sym_check::Checked;
use sym_given::{next_decoded, opened};
use sym_plain::{Groups, fold_into};
use sym_table::{Bad, Cutter, Decoded};

/// The most records of a log in these tests.
const RECORDS: u64 = 100_000;

// Folds the records that a cutter has next, up to the first row that is none.
fn fold_all(
    alloc: Global,
    checked: &Checked,
    cutter: Cutter<'_>,
    groups: &mut Groups,
) -> Result<Option<Bad>, NoMemory>
    requires { FitsHeader (checked_plan checked.now).fields cutter.header }
{
    let mut cutter = cutter;
    'records: for place in 0..RECORDS {
        match next_decoded(alloc, checked, &mut cutter, place + 1)? {
            Some(Decoded::Is(rec)) => fold_into(alloc, checked, groups, &rec)?,
            Some(Decoded::Bad(bad)) => return Ok(Some(bad)),
            None => return Ok(None),
        }
    }
    Ok(None)
}

/// The text of what groups come to by the records of a log, one by one.
pub(crate) fn text_alone(
    alloc: Global,
    checked: &Checked,
    log: &str,
    groups: Groups,
) -> Result<String, NoMemory> {
    let Some(cutter) = opened(alloc, checked, log, 1) else {
        return Ok(String::from_str(alloc, "the log has no header of the script\n")?);
    };
    let mut groups = groups;
    match fold_all(alloc, checked, cutter, &mut groups)? {
        Some(bad) => text_of_bad(alloc, &bad),
        None => text_of_groups(alloc, &groups),
    }
}
