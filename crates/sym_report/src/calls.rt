//! The names above a report's rows and the row of a group, for checked scripts.
ghost use Rattle.std.specs.Prelude.{◌≡◌, IfOk, map};
ghost use Rattle.sym_base.specs.Trees.{script_tree};
ghost use Rattle.sym_check.specs.Checking.CheckedScripts.{checked_tree, checked_plan};
ghost use Rattle.sym_check.specs.Plan.ScriptPlans.{ColumnOf, column_plan, script_plan};
ghost use Rattle.sym_report.specs.ReportRows.{heads_of, cell_name, fault_body, row_of};

use crate::keys::{key_columns, key_names};
use crate::rows::{Heads, Row, RowBody};
use std::alloc::Global;
use sym_base::{Fault, FaultKind, Key, NoMemory, Outcome, Script, Text, Texts};
use sym_check::{Checked, ColumnPlans, Plan};
use sym_plain::columns;

fn column_names(alloc: Global, columns: &ColumnPlans) -> Result<Texts, NoMemory>
    ensures { IfOk result (λ n. n ≡ map (λ (c : ColumnOf). c.name) (map column_plan columns.now)) }
{
    let mut names = Vec::with_capacity(alloc, columns.len())?;
    'columns: for column in columns.as_slice() {
        let name = column.name.copy(alloc)?;
        names.push(name)?;
    }
    Ok(Texts::of(names))
}

/// The names above the rows of a script's report.
pub(crate) fn script_heads(alloc: Global, script: &Script, plan: &Plan) -> Result<Heads, NoMemory>
    ensures { IfOk result (λ h. h ≡ heads_of (script_tree script.now) (script_plan plan.now)) }
{
    let keys = key_names(alloc, &script.group)?;
    let columns = column_names(alloc, &plan.columns)?;
    Ok(Heads { keys, columns })
}

// The name of the cell with this number, counted from 0.
fn cell_name(script: &Script, cell: u16) -> &str
    ensures { result.now ≡ cell_name (script_tree script.now) cell }
{
    match script.states.get(usize::from(cell)) {
        Some(state) => state.name.text.as_str(),
        None => "",
    }
}

/// What a row shows of a fault.
pub(crate) fn fault_body(alloc: Global, script: &Script, fault: &Fault) -> Result<RowBody, NoMemory>
    ensures { let tree = script_tree script.now in
        IfOk result (λ b. b ≡ fault_body tree fault.now.kind fault.now.no) }
{
    let no = fault.no;
    match fault.kind {
        FaultKind::Over(cell) => {
            let cell = Text::from_str(alloc, cell_name(script, cell))?;
            Ok(RowBody::Over { cell, no })
        }
        FaultKind::Arith => Ok(RowBody::Arith { no }),
    }
}

/// The names above the rows of the script's report: of the fields of the group line, and of the
/// columns, in order.
pub fn heads(alloc: Global, checked: &Checked) -> Result<Heads, NoMemory>
    ensures { let tree = checked_tree checked.now in
        IfOk result (λ h. h ≡ heads_of tree (checked_plan checked.now)) }
{
    script_heads(alloc, checked.script(), checked.plan())
}

/// The row of a group with this key that stands so. A label is shown by its name, and a cell whose
/// range was left by its name.
pub fn report_row(
    alloc: Global,
    checked: &Checked,
    key: &Key,
    outcome: &Outcome,
) -> Result<Row, NoMemory>
    ensures { let tree = checked_tree checked.now in
        IfOk result (λ r. r ≡ row_of tree (checked_plan checked.now) (key.now, outcome.now)) }
{
    let keys = key_columns(alloc, checked.plan(), key)?;
    let body = match outcome {
        Outcome::Going(state) => RowBody::Columns(columns(alloc, checked, state)?),
        Outcome::Ended(fault) => fault_body(alloc, checked.script(), fault)?,
    };
    Ok(Row { keys, body })
}
