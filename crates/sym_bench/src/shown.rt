//! A short line on an outcome.
use std::alloc::{AllocError, Global};
use sym_base::{Cell, Outcome};

/// A cell's number, or how many elements it has.
fn push_cell(text: &mut String, cell: &Cell) -> Result<(), AllocError> {
    match cell {
        Cell::Enum(label) => write!(text, " {label}"),
        Cell::Int(number) => write!(text, " {number}"),
        Cell::Hold(parts) => write!(text, " ({})", parts.len()),
        Cell::Nums(numbers) => write!(text, " [{}]", numbers.len()),
        Cell::Words(words) => write!(text, " [{}]", words.len()),
    }
}

/// The cells of a group that goes on, or the record at which it ended.
pub(crate) fn shown(alloc: Global, outcome: &Outcome) -> Result<String, AllocError> {
    let mut text = String::new(alloc);
    match outcome {
        Outcome::Going(state) => {
            text.push_str("at")?;
            'cells: for cell in state.cells.as_slice() {
                push_cell(&mut text, cell)?;
            }
        }
        Outcome::Ended(fault) => write!(text, "ended {}", fault.no)?,
    }
    Ok(text)
}
