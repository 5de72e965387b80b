//! The trace of a log, by folding anew for each record that is shown.
ghost use Rattle.sym_check.specs.Checking.CheckedScripts.{checked_plan};
ghost use Rattle.sym_table.specs.Rows.{FitsHeader};

use std::alloc::Global;
use sym_base::{NoMemory, Record};
use sym_check::Checked;
use sym_given::{next_decoded, opened};
use sym_plain::{Groups, fold_into, key_of};
use sym_scan::TraceRow;
use sym_table::{Cutter, Decoded};

/// The most records of a log in these tests.
const RECORDS: u64 = 400;

fn records_by(alloc: Global, checked: &Checked, cutter: Cutter<'_>) -> Result<Vec<Record>, NoMemory>
    requires { FitsHeader (checked_plan checked.now).fields cutter.header }
{
    let mut cutter = cutter;
    let mut records = Vec::new(alloc);
    'records: for place in 0..RECORDS {
        match next_decoded(alloc, checked, &mut cutter, place + 1)? {
            Some(Decoded::Is(rec)) => records.push(rec)?,
            Some(Decoded::Bad(_)) | None => break,
        }
    }
    Ok(records)
}

/// The records of a log, up to the first row that is none.
fn records_of(alloc: Global, checked: &Checked, log: &str) -> Result<Vec<Record>, NoMemory> {
    match opened(alloc, checked, log, 1) {
        Some(cutter) => records_by(alloc, checked, cutter),
        None => Ok(Vec::new(alloc)),
    }
}

/// The groups after these records.
fn folded(alloc: Global, checked: &Checked, records: &[Record]) -> Result<Groups, NoMemory> {
    let mut groups = Groups::new(alloc);
    'records: for rec in records {
        fold_into(alloc, checked, &mut groups, rec)?;
    }
    Ok(groups)
}

/// The row of the last of these records; `None` where there is none.
fn row_of(
    alloc: Global,
    checked: &Checked,
    records: &[Record],
) -> Result<Option<TraceRow>, NoMemory> {
    let groups = folded(alloc, checked, records)?;
    let Some(rec) = records.last() else {
        return Ok(None);
    };
    let key = key_of(alloc, checked, rec)?;
    match groups.find(&key) {
        Some(outcome) => Ok(Some(TraceRow {
            no: rec.no,
            outcome: outcome.copy(alloc)?,
            key,
        })),
        None => Ok(None),
    }
}

/// The trace of a log, record by record.
pub(crate) fn trace_anew(
    alloc: Global,
    checked: &Checked,
    log: &str,
    every: u64,
) -> Result<Vec<TraceRow>, NoMemory> {
    let records = records_of(alloc, checked, log)?;
    let mut rows = Vec::new(alloc);
    'records: for (place, rec) in records.iter().enumerate() {
        if every > 0 && rec.no % every == 0 {
            if let Some(row) = row_of(alloc, checked, &records[..=place])? {
                rows.push(row)?;
            }
        }
    }
    Ok(rows)
}
