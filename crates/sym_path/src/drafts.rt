//! The cells of a state, changed where they lie: a draft of each is made of the state as it was, and
//! is then put into the cell.
ghost use Rattle.std.specs.Prelude.{◌≡◌, ◌≤◌, ◌+◌, ◌++◌, ◌∷◌, [], OnOk, Some, length, take};
ghost use Rattle.sym_base.specs.States.{cell_parts};
ghost use Rattle.sym_path.specs.Writing.{AreFinished, finished, finished_at, is_written_over};

use crate::form::Form;
use std::alloc::Global;
use sym_base::{Cell, Cells, NoMemory, State, Value, Values};
use sym_pred::HoldForm;

/// Puts a copy of a part at this place, over the memory of the value there. The place is one of the
/// list's, or the next after them; the values before it stay.
fn put_part(alloc: Global, values: &mut Values, index: usize, part: &Value) -> Result<(), NoMemory>
    requires { index ≤ length values.old }
    ensures values { let before = take index values.old in
        OnOk result (take (index + 1) values.new ≡ before ++ part.now ∷ []) }
    ensures length { OnOk result (index + 1 ≤ length values.new) }
{
    match values.get_mut(index) {
        Some(held) => held.copy_from(alloc, part)?,
        None => values.push(part.copy(alloc)?)?,
    }
    Ok(())
}

/// Makes the list that of these parts, over the memory that it has.
fn set_parts(alloc: Global, parts: &Values, values: &mut Values) -> Result<(), NoMemory>
    ensures { OnOk result (values.new ≡ parts.now) }
{
    'parts: for (index, part) in parts.as_slice().iter().enumerate() {
        put_part(alloc, values, index, part)?;
    }
    if parts.len() < values.len() {
        *values = parts.copy(alloc)?;
    }
    Ok(())
}

/// Makes the cell one with these parts, over those that it has.
fn put_parts(alloc: Global, parts: &Values, cell: &mut Cell) -> Result<(), NoMemory>
    ensures { OnOk result (cell.new ≡ Cell.Hold parts.now) }
{
    match cell {
        Cell::Hold(held) => set_parts(alloc, parts, held),
        Cell::Enum(_) | Cell::Int(_) | Cell::Nums(_) | Cell::Words(_) => {
            *cell = Cell::Hold(parts.copy(alloc)?);
            Ok(())
        }
    }
}

/// Makes the cell one with the parts that it has; a cell of another kind has none.
fn keep_parts(alloc: Global, cell: &mut Cell)
    ensures { cell.new ≡ Cell.Hold (cell_parts (Some cell.old)) }
{
    match cell {
        Cell::Hold(_) => {}
        Cell::Enum(_) | Cell::Int(_) | Cell::Nums(_) | Cell::Words(_) => {
            *cell = Cell::Hold(Values::new(alloc));
        }
    }
}

impl Form {
    /// Whether the form gives constant parts or those of its own cell, which has this number.
    pub(crate) fn is_written_over(&self, cell: usize) -> bool
        ensures { result ≡ is_written_over cell self.now }
    {
        match self {
            Form::Hold(HoldForm::Const(_)) => true,
            Form::Hold(HoldForm::Copy(own)) => usize::from(*own) == cell,
            Form::Enum(_) | Form::Int(_) | Form::Nums(_) | Form::Words(_) => false,
        }
    }

    /// Puts the draft of the cell with this number into it, or writes over its parts.
    fn finish(
        &self,
        alloc: Global,
        number: usize,
        draft: Cell,
        cell: &mut Cell,
    ) -> Result<(), NoMemory>
        ensures { OnOk result (cell.new ≡ finished number self.now draft (Some cell.old)) }
    {
        if !self.is_written_over(number) {
            *cell = draft;
            return Ok(());
        }
        match self {
            Form::Hold(HoldForm::Const(parts)) => put_parts(alloc, parts, cell),
            _ => {
                keep_parts(alloc, cell);
                Ok(())
            }
        }
    }
}

/// Does so at the cell of a state with this number.
fn finish_at(
    alloc: Global,
    form: &Form,
    number: usize,
    draft: Cell,
    state: &mut State,
) -> Result<(), NoMemory>
    ensures { OnOk result (state.new ≡ finished_at number form.now draft state.old) }
{
    match state.cells.get_mut(number) {
        Some(cell) => form.finish(alloc, number, draft, cell),
        None => Ok(()),
    }
}

/// Does so at all cells of a state.
pub(crate) fn finish_all(
    alloc: Global,
    forms: &[Form],
    drafts: Cells,
    state: &mut State,
) -> Result<(), NoMemory>
    requires { length drafts ≡ length forms.now }
    ensures { OnOk result (AreFinished forms.now drafts state.old (length forms.now) state.new) }
{
    let mut left = drafts;
    'cells: for index in 0..forms.len() {
        match left.replace(index, Cell::Enum(0)) {
            Some(draft) => finish_at(alloc, &forms[index], index, draft, state)?,
            None => unreachable!(),
        }
    }
    Ok(())
}
