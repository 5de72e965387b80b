//! Rows of a trace that go to a form.
ghost use Rattle.std.specs.Prelude.{◌≡◌, ◌++◌, map, IfOk, OnOk};
ghost use Rattle.std.specs.List.{All};
ghost use Rattle.sym_check.specs.Checking.CheckedScripts.{checked_plan, checked_tree};
ghost use Rattle.sym_report.specs.Forms.{IsUnder, rows_text};
ghost use Rattle.sym_report.specs.ReportRows.{is_faulty, some_faulty};
ghost use Rattle.sym_trace.specs.TraceReports.{trace_row};

use crate::forms::add_row;
use crate::rows::trace_row;
use std::alloc::Global;
use sym_base::NoMemory;
use sym_check::Checked;
use sym_report::{Heads, ReportForm};
use sym_scan::TraceRow;

// Appends a row; whether it is faulty.
fn write_row(
    alloc: Global,
    checked: &Checked,
    heads: &Heads,
    row: &TraceRow,
    form: &mut Box<dyn ReportForm>,
) -> Result<bool, NoMemory>
    requires { let shown = trace_row (checked_tree checked.now) (checked_plan checked.now) in
        IsUnder heads.now (shown row.now) }
    ensures text { let shown = trace_row (checked_tree checked.now) (checked_plan checked.now) in
        let text = (texts form.old).row heads.now (shown row.now) in
        OnOk result (gathered form.new ≡ gathered form.old ++ text) }
    ensures faulty { let shown = trace_row (checked_tree checked.now) (checked_plan checked.now) in
        IfOk result (λ faulty. faulty ≡ is_faulty (shown row.now).body) }
    ensures texts { texts form.new ≡ texts form.old }
{
    let shown = trace_row(alloc, checked, row)?;
    add_row(alloc, form, heads, &shown)?;
    Ok(shown.body.is_faulty())
}

/// Appends rows, in order; whether one of them is faulty. Each report row is made when it is
/// written.
pub(crate) fn write_rows(
    alloc: Global,
    checked: &Checked,
    heads: &Heads,
    rows: &[TraceRow],
    form: &mut Box<dyn ReportForm>,
) -> Result<bool, NoMemory>
    requires { let shown = trace_row (checked_tree checked.now) (checked_plan checked.now) in
        All (λ row. IsUnder heads.now (shown row)) rows.now }
    ensures text { let shown = trace_row (checked_tree checked.now) (checked_plan checked.now) in
        let text = rows_text (texts form.old) heads.now (map shown rows.now) in
        OnOk result (gathered form.new ≡ gathered form.old ++ text) }
    ensures faulty { let shown = trace_row (checked_tree checked.now) (checked_plan checked.now) in
        IfOk result (λ faulty. faulty ≡ some_faulty (map shown rows.now)) }
    ensures texts { texts form.new ≡ texts form.old }
{
    let mut faulty = false;
    'rows: for row in rows {
        let found = write_row(alloc, checked, heads, row, form)?;
        faulty |= found;
    }
    Ok(faulty)
}
