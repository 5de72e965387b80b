//! The names above the rows of a trace, and its rows as a report shows them.
ghost use Rattle.std.specs.Prelude.{◌≡◌, ◌∷◌, pos, IfOk};
ghost use Rattle.sym_base.specs.declared.values.report.Column.TheVariants as column;
ghost use Rattle.sym_check.specs.Checking.CheckedScripts.{checked_plan, checked_tree};
ghost use Rattle.sym_trace.specs.TraceReports.{trace_heads, trace_row};

use std::alloc::Global;
use sym_base::{Column, Columns, NoMemory, Text, Texts};
use sym_check::Checked;
use sym_report::{Heads, Row, heads, report_row};
use sym_scan::TraceRow;

/// The name above the numbers of records.
pub const RECORD_NAME: &str = "record";

// The names after the one above the numbers of records.
fn record_first(alloc: Global, names: Texts) -> Result<Texts, NoMemory>
    ensures { IfOk result (λ all. all ≡ RECORD_NAME.now ∷ names) }
{
    let mut all = Vec::with_capacity(alloc, names.len() + 1)?;
    all.push(Text::from_str(alloc, RECORD_NAME)?)?;
    all.append(&mut names.into_vec())?;
    Ok(Texts::of(all))
}

// The values after a record's number.
fn number_first(alloc: Global, number: u64, values: Columns) -> Result<Columns, NoMemory>
    ensures { IfOk result (λ all. all ≡ column.Num (pos number) ∷ values) }
{
    let mut all = Vec::with_capacity(alloc, values.len() + 1)?;
    all.push(Column::Num(number as i128))?;
    all.append(&mut values.into_vec())?;
    Ok(Columns::of(all))
}

/// The names above the rows of a trace of the script: that of the records' numbers, and then those
/// of a report.
pub fn trace_heads(alloc: Global, checked: &Checked) -> Result<Heads, NoMemory>
    ensures { let tree = checked_tree checked.now in
        IfOk result (λ h. h ≡ trace_heads tree (checked_plan checked.now)) }
{
    let Heads { keys, columns } = heads(alloc, checked)?;
    let keys = record_first(alloc, keys)?;
    Ok(Heads { keys, columns })
}

/// The report row of a row of a trace: the record's number as a first key value, and then what the
/// row of its group shows, as the group stands after the record.
pub fn trace_row(alloc: Global, checked: &Checked, row: &TraceRow) -> Result<Row, NoMemory>
    ensures { let tree = checked_tree checked.now in
        IfOk result (λ r. r ≡ trace_row tree (checked_plan checked.now) row.now) }
{
    let Row { keys, body } = report_row(alloc, checked, &row.key, &row.outcome)?;
    let keys = number_first(alloc, row.no, keys)?;
    Ok(Row { keys, body })
}
