//! The records that are explored: a thousand, which are used in turn under running numbers.
ghost use Rattle.std.specs.Prelude.{All, IfOk};
ghost use Rattle.sym_check.specs.Checking.CheckedScripts.{checked_plan};
ghost use Rattle.sym_check.specs.Plan.ScriptPlans.{ScriptPlan};
ghost use Rattle.sym_check.specs.Meaning.Validity.{IsRecord};

use crate::stop::Stop;
use std::alloc::{AllocError, Global};
use sym_base::Record;
use sym_check::Checked;
use sym_table::{Cutter, Decoded, Row, decode};

/// How many records there are.
pub(crate) const RECORDS: u64 = 1_000;

/// The text of a log of one user with the columns of all scripts, by a generator of numbers. Of
/// eight visits one comes after more than the 30 that end a session.
fn log_text(alloc: Global) -> Result<String, AllocError> {
    let mut text = String::from_str(alloc, "ts,user,x\n")?;
    let mut seed = 1u64;
    let mut time = 0u64;
    'records: for _ in 0..RECORDS {
        seed = seed.wrapping_mul(1_103_515_245).wrapping_add(12_345) % 2_147_483_648;
        let drawn = seed / 65_536;
        let pause = if drawn % 8 == 0 { 31 } else { 1 };
        time = time.wrapping_add(pause);
        write!(text, "{time},u,{drawn}\n")?;
    }
    Ok(text)
}

/// The records of the log, by the script's fields.
pub(crate) fn records_of(alloc: Global, checked: &Checked) -> Result<Vec<Record>, Stop>
    ensures { IfOk result (λ records. All (IsRecord (checked_plan checked.now)) records.items) }
{
    let text = log_text(alloc)?;
    if text.len() > 100_000 {
        return Err(Stop::Input);
    }
    let Ok(opened) = Cutter::open(alloc, checked, text.as_bytes(), 1, 1) else {
        return Err(Stop::Input);
    };
    let mut cutter = opened;
    let mut row = Row::new(alloc);
    let mut records = Vec::new(alloc);
    'rows: for no in 0..RECORDS {
        if !cutter.next_row(&mut row)? {
            return Err(Stop::Input);
        }
        match decode(alloc, checked, cutter.header(), &row.view(), no)? {
            Decoded::Is(record) => records.push(record)?,
            Decoded::Bad(_) => return Err(Stop::Input),
        }
    }
    Ok(records)
}

/// Gives the records the numbers after `before`, in order.
pub(crate) fn number(records: &mut [Record], before: u64)
    ensures { (p : ScriptPlan) → All (IsRecord p) records.old → All (IsRecord p) records.new }
{
    let mut no = before;
    'records: for rec in records.iter_mut() {
        no = no.wrapping_add(1);
        rec.no = no;
    }
}
