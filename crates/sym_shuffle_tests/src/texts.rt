//! What groups come to as a text: a line for each group, with the key and then the cells or the
//! fault, or the first row that is no record.
use std::alloc::Global;
use sym_base::{Cell, FaultKind, Key, NoMemory, Outcome, Value};
use sym_plain::Groups;
use sym_table::Bad;

fn push_number(alloc: Global, text: &mut String, number: i64) -> Result<(), NoMemory> {
    text.push_str(format!(in alloc; " {number}")?.as_str())?;
    Ok(())
}

fn push_word(text: &mut String, word: &str) -> Result<(), NoMemory> {
    text.push_str(" ")?;
    text.push_str(word)?;
    Ok(())
}

fn push_label(alloc: Global, text: &mut String, label: u8) -> Result<(), NoMemory> {
    text.push_str(format!(in alloc; " #{label}")?.as_str())?;
    Ok(())
}

fn push_values(alloc: Global, text: &mut String, values: &[Value]) -> Result<(), NoMemory> {
    'values: for value in values {
        match value {
            Value::Num(number) => push_number(alloc, text, *number)?,
            Value::Word(word) => push_word(text, word.as_str())?,
            Value::Label(label) => push_label(alloc, text, *label)?,
        }
    }
    Ok(())
}

fn push_numbers(alloc: Global, text: &mut String, numbers: &[i64]) -> Result<(), NoMemory> {
    'numbers: for number in numbers {
        push_number(alloc, text, *number)?;
    }
    Ok(())
}

fn push_cell(alloc: Global, text: &mut String, cell: &Cell) -> Result<(), NoMemory> {
    match cell {
        Cell::Enum(label) => return push_label(alloc, text, *label),
        Cell::Int(number) => return push_number(alloc, text, *number),
        Cell::Hold(parts) => {
            text.push_str(" (")?;
            push_values(alloc, text, parts.as_slice())?;
            text.push_str(" )")?;
        }
        Cell::Nums(numbers) => {
            text.push_str(" [")?;
            push_numbers(alloc, text, numbers.as_slice())?;
            text.push_str(" ]")?;
        }
        Cell::Words(words) => {
            text.push_str(" [")?;
            'words: for word in words.as_slice() {
                push_word(text, word.as_str())?;
            }
            text.push_str(" ]")?;
        }
    }
    Ok(())
}

fn push_outcome(alloc: Global, text: &mut String, outcome: &Outcome) -> Result<(), NoMemory> {
    match outcome {
        Outcome::Going(state) => {
            'cells: for cell in state.cells.as_slice() {
                push_cell(alloc, text, cell)?;
            }
        }
        Outcome::Ended(fault) => {
            let no = fault.no;
            let line = match fault.kind {
                FaultKind::Over(cell) => format!(in alloc; " over {cell} at {no}")?,
                FaultKind::Arith => format!(in alloc; " arithmetic at {no}")?,
            };
            text.push_str(line.as_str())?;
        }
    }
    Ok(())
}

fn push_group(
    alloc: Global,
    text: &mut String,
    key: &Key,
    outcome: &Outcome,
) -> Result<(), NoMemory> {
    push_values(alloc, text, key.values.as_slice())?;
    text.push_str(":")?;
    push_outcome(alloc, text, outcome)?;
    text.push_str("\n")?;
    Ok(())
}

/// The text of groups, in order. A group that isn't found by its key has no line.
pub(crate) fn text_of_groups(alloc: Global, groups: &Groups) -> Result<String, NoMemory> {
    let mut text = String::new(alloc);
    'groups: for place in 0..groups.len() {
        if let Some((key, outcome)) = groups.at(place) {
            if groups.index_of(key) == Some(place) {
                push_group(alloc, &mut text, key, outcome)?;
            }
        }
    }
    Ok(text)
}

/// The text of a row that is no record.
pub(crate) fn text_of_bad(alloc: Global, bad: &Bad) -> Result<String, NoMemory> {
    let no = bad.no;
    let cause = bad.cause;
    Ok(format!(in alloc; "row {no}: {cause:?}\n")?)
}
