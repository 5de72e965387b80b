//! Rows and starts as texts: a line for each, with the key and then the columns or the fault.
use std::alloc::Global;
use sym_base::{Column, FaultKind, Key, NoMemory, Outcome, Value};
use sym_check::Checked;
use sym_plain::columns;
use sym_scan::{Starts, TraceRow};

fn push_value(alloc: Global, text: &mut String, value: &Value) -> Result<(), NoMemory> {
    match value {
        Value::Num(number) => text.push_str(format!(in alloc; " {number}")?.as_str())?,
        Value::Word(word) => {
            text.push_str(" ")?;
            text.push_str(word.as_str())?;
        }
        Value::Label(label) => text.push_str(format!(in alloc; " label {label}")?.as_str())?,
    }
    Ok(())
}

fn push_key(alloc: Global, text: &mut String, key: &Key) -> Result<(), NoMemory> {
    'values: for value in key.values.as_slice() {
        push_value(alloc, text, value)?;
    }
    text.push_str(":")?;
    Ok(())
}

fn push_column(alloc: Global, text: &mut String, column: &Column) -> Result<(), NoMemory> {
    match column {
        Column::Num(number) => text.push_str(format!(in alloc; " {number}")?.as_str())?,
        Column::Nothing => text.push_str(" none")?,
        _ => text.push_str(" other")?,
    }
    Ok(())
}

fn push_outcome(
    alloc: Global,
    checked: &Checked,
    text: &mut String,
    outcome: &Outcome,
) -> Result<(), NoMemory> {
    match outcome {
        Outcome::Going(state) => {
            let columns = columns(alloc, checked, state)?;
            push_columns(alloc, text, columns.as_slice())?;
        }
        Outcome::Ended(fault) => match fault.kind {
            FaultKind::Over(cell) => {
                let no = fault.no;
                text.push_str(format!(in alloc; " over {cell} at {no}")?.as_str())?;
            }
            FaultKind::Arith => text.push_str(" arithmetic")?,
        },
    }
    text.push_str("\n")?;
    Ok(())
}

fn push_columns(alloc: Global, text: &mut String, columns: &[Column]) -> Result<(), NoMemory> {
    'columns: for column in columns {
        push_column(alloc, text, column)?;
    }
    Ok(())
}

/// The text of rows, each with its number first.
pub(crate) fn text_of(
    alloc: Global,
    checked: &Checked,
    rows: &[TraceRow],
) -> Result<String, NoMemory> {
    let mut text = String::new(alloc);
    'rows: for row in rows {
        let no = row.no;
        text.push_str(format!(in alloc; "{no}")?.as_str())?;
        push_key(alloc, &mut text, &row.key)?;
        push_outcome(alloc, checked, &mut text, &row.outcome)?;
    }
    Ok(text)
}

/// The text of starts.
pub(crate) fn text_of_starts(
    alloc: Global,
    checked: &Checked,
    starts: &Starts,
) -> Result<String, NoMemory> {
    let mut text = String::new(alloc);
    'starts: for index in 0..starts.len() {
        if let Some((key, outcome)) = starts.at(index) {
            push_key(alloc, &mut text, key)?;
            push_outcome(alloc, checked, &mut text, outcome)?;
        }
    }
    Ok(text)
}
