//! Keys and how a group stands, as texts.
use std::alloc::Global;
use sym_base::{Cell, Key, NoMemory, Outcome};

fn push_cell(alloc: Global, text: &mut String, cell: &Cell) -> Result<(), NoMemory> {
    let said = match cell {
        Cell::Enum(label) => format!(in alloc; " #{label}")?,
        Cell::Int(number) => format!(in alloc; " {number}")?,
        Cell::Hold(parts) => {
            let parts = parts.as_slice();
            format!(in alloc; " {parts:?}")?
        }
        Cell::Nums(numbers) => {
            let numbers = numbers.as_slice();
            format!(in alloc; " {numbers:?}")?
        }
        Cell::Words(words) => {
            let words = words.as_slice();
            format!(in alloc; " {words:?}")?
        }
    };
    text.push_str(said.as_str())?;
    Ok(())
}

/// The cells of a group that goes on, or the fault at which it ended.
pub fn outcome_text(alloc: Global, outcome: &Outcome) -> Result<String, NoMemory> {
    match outcome {
        Outcome::Going(state) => {
            let mut text = String::new(alloc);
            'cells: for cell in state.cells.as_slice() {
                push_cell(alloc, &mut text, cell)?;
            }
            Ok(text)
        }
        Outcome::Ended(fault) => Ok(format!(in alloc; " {fault:?}")?),
    }
}

/// A group: its key, and how it stands.
pub fn group_text(alloc: Global, key: &Key, outcome: &Outcome) -> Result<String, NoMemory> {
    let values = key.values.as_slice();
    let text = outcome_text(alloc, outcome)?;
    Ok(format!(in alloc; "{values:?}:{text}")?)
}
