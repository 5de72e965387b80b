//! What report expressions show of a state.
ghost use Rattle.std.specs.Prelude.{◌≡◌, ◌-◌, [], IfOk, option_copied, slice_get, slice_index_or};
ghost use Rattle.sym_base.specs.States.{parts_at};
ghost use Rattle.sym_check.specs.Plan.ScriptPlans.{script_plan};
ghost use Rattle.sym_check.specs.Plan.ShowPlans.{show_plan};
ghost use Rattle.sym_plain.specs.Shown.{cell_labels, kind_labels, part_kind, label_column, value_column, cell_column, call_column, show_column, columns};

use crate::report::arithmetic::{negated, operated};
use crate::report::lists::{of_nums, of_words};
use std::alloc::Global;
use sym_base::{Cell, Column, Columns, NoMemory, State, Text, Value};
use sym_check::{CellPlan, KindPlan, Plan, Show, ShowFn, enum_labels};

fn cell_labels<'a>(plan: &'a Plan, cell: Option<&CellPlan>) -> &'a [Text]
    ensures { result.now ≡ cell_labels (script_plan plan.now).enums (option_copied cell.entry) }
{
    match cell {
        Some(CellPlan::Enum { of, .. }) => enum_labels(plan.enums.as_slice(), *of),
        _ => &[],
    }
}

/// The names of the labels of a kind; none of any other kind, or of none.
pub fn kind_labels<'a>(plan: &'a Plan, kind: Option<&KindPlan>) -> &'a [Text]
    ensures { result.now ≡ kind_labels (script_plan plan.now).enums (option_copied kind.entry) }
{
    match kind {
        Some(KindPlan::Label(of)) => enum_labels(plan.enums.as_slice(), *of),
        _ => &[],
    }
}

fn part_kind(cell: Option<&CellPlan>, part: usize) -> Option<&KindPlan>
    ensures { option_copied result ≡ part_kind (option_copied cell.entry) part }
{
    match cell {
        Some(CellPlan::Hold { kinds, .. }) => kinds.get(part),
        _ => None,
    }
}

fn label_text(labels: &[Text], label: u8) -> &str
    ensures { result.now ≡ slice_index_or labels.now label [] }
{
    match labels.get(usize::from(label)) {
        Some(text) => text.as_str(),
        None => "",
    }
}

fn label_column(alloc: Global, labels: &[Text], label: u8) -> Result<Column, NoMemory>
    ensures { IfOk result (λ c. c ≡ label_column labels.now label) }
{
    let text = Text::from_str(alloc, label_text(labels, label))?;
    Ok(Column::Word(text))
}

/// What a value shows: a label its name, which is the one with its number among these. Nothing
/// where there is no value.
pub fn value_column(
    alloc: Global,
    labels: &[Text],
    value: Option<&Value>,
) -> Result<Column, NoMemory>
    ensures { IfOk result (λ c. c ≡ value_column labels.now (option_copied value.entry)) }
{
    match value {
        Some(Value::Num(number)) => Ok(Column::Num(*number as i128)),
        Some(Value::Word(text)) => Ok(Column::Word(text.copy(alloc)?)),
        Some(Value::Label(label)) => label_column(alloc, labels, *label),
        None => Ok(Column::Nothing),
    }
}

fn cell_column(alloc: Global, labels: &[Text], cell: Option<&Cell>) -> Result<Column, NoMemory>
    ensures { IfOk result (λ c. c ≡ cell_column labels.now (option_copied cell.entry)) }
{
    match cell {
        Some(Cell::Enum(label)) => label_column(alloc, labels, *label),
        Some(Cell::Int(number)) => Ok(Column::Num(*number as i128)),
        Some(Cell::Nums(numbers)) => Ok(Column::Nums(numbers.copy(alloc)?)),
        Some(Cell::Words(words)) => Ok(Column::Words(words.copy(alloc)?)),
        Some(Cell::Hold(_)) | None => Ok(Column::Nothing),
    }
}

fn call_column(alloc: Global, function: ShowFn, cell: Option<&Cell>) -> Result<Column, NoMemory>
    ensures { IfOk result (λ c. c ≡ call_column function (option_copied cell.entry)) }
{
    match cell {
        Some(Cell::Nums(numbers)) => Ok(of_nums(function, numbers.as_slice())),
        Some(Cell::Words(words)) => of_words(alloc, function, words.as_slice()),
        _ => Ok(Column::Nothing),
    }
}

fn show_cell(alloc: Global, plan: &Plan, state: &State, cell: u16) -> Result<Column, NoMemory>
    ensures { let p = script_plan plan.now in
        let labels = cell_labels p.enums (slice_get p.cells cell) in
        IfOk result (λ c. c ≡ cell_column labels (slice_get state.now.cells cell)) }
{
    let cell = usize::from(cell);
    let labels = cell_labels(plan, plan.cells.get(cell));
    cell_column(alloc, labels, state.cells.get(cell))
}

fn show_part(
    alloc: Global,
    plan: &Plan,
    state: &State,
    cell: u16,
    part: u16,
) -> Result<Column, NoMemory>
    ensures { let p = script_plan plan.now in
        let of = part_kind (slice_get p.cells cell) (part - 1) in
        let value = slice_get (parts_at state.now cell) (part - 1) in
        IfOk result (λ c. c ≡ value_column (kind_labels p.enums of) value) }
{
    let part = usize::from(part).saturating_sub(1);
    let kind = part_kind(plan.cells.get(usize::from(cell)), part);
    value_column(
        alloc,
        kind_labels(plan, kind),
        state.parts_at(cell).get(part),
    )
}

fn show_column(alloc: Global, plan: &Plan, state: &State, show: &Show) -> Result<Column, NoMemory>
    ensures { let p = script_plan plan.now in
        IfOk result (λ c. c ≡ show_column p state.now (show_plan show.now)) }
{
    match show {
        Show::Num(number) => Ok(Column::Num(*number as i128)),
        Show::Text(text) => Ok(Column::Word(text.copy(alloc)?)),
        Show::Cell(cell) => show_cell(alloc, plan, state, *cell),
        Show::Part(cell, part) => show_part(alloc, plan, state, *cell, *part),
        Show::Call(function, cell) => {
            call_column(alloc, *function, state.cells.get(usize::from(*cell)))
        }
        Show::Neg(operand) => {
            let operand = show_column(alloc, plan, state, operand)?;
            Ok(negated(&operand))
        }
        Show::Bin(operator, left, right) => {
            let left = show_column(alloc, plan, state, left)?;
            let right = show_column(alloc, plan, state, right)?;
            Ok(operated(*operator, &left, &right))
        }
    }
}

/// The columns of a plan's report for a state, in order.
pub(crate) fn shown_columns(alloc: Global, plan: &Plan, state: &State) -> Result<Columns, NoMemory>
    ensures { IfOk result (λ c. c ≡ columns (script_plan plan.now) state.now) }
{
    let mut columns = Vec::with_capacity(alloc, plan.columns.len())?;
    'columns: for column in plan.columns.as_slice() {
        let column = show_column(alloc, plan, state, &column.value)?;
        columns.push(column)?;
    }
    Ok(Columns::of(columns))
}
