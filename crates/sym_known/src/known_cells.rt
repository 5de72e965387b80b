//! Which paths have known cells, and the state of these cells.
ghost use Rattle.std.specs.Prelude.{◌≡◌, ◌↔◌, IfOk, IsTrue};
ghost use Rattle.std.specs.List.{All};
ghost use Rattle.sym_known.specs.Knowing.{AreKnown, HasKnownCells, IsKnown, known_cell, known_state};

use std::alloc::Global;
use sym_base::{Cell, Cells, NoMemory, Nums, State, Values, Words};
use sym_enum::EnumForm;
use sym_int::IntForm;
use sym_path::{Form, Path, PathEnd, Segment};
use sym_pred::HoldForm;

/// Whether the form is a constant, or that of a list.
fn is_known(form: &Form) -> bool
    ensures { IsTrue result ↔ IsKnown form.now }
{
    match form {
        Form::Enum(EnumForm::Const(_)) => true,
        Form::Enum(EnumForm::Copy(_)) => false,
        Form::Int(IntForm::Const(_)) => true,
        Form::Int(IntForm::Line(_)) => false,
        Form::Hold(HoldForm::Const(_)) => true,
        Form::Hold(HoldForm::Copy(_)) => false,
        Form::Nums(_) => true,
        Form::Words(_) => true,
    }
}

fn all_known(forms: &[Form]) -> bool
    ensures { IsTrue result ↔ All IsKnown forms.now }
{
    'cells: for form in forms {
        if !is_known(form) {
            return false;
        }
    }
    true
}

/// Whether the path has ended, or its cells are known.
fn has_known_cells(path: &Path) -> bool
    ensures { IsTrue result ↔ HasKnownCells path.now.end }
{
    match &path.end {
        PathEnd::Next(forms) => all_known(forms.as_slice()),
        PathEnd::Ended(_) => true,
    }
}

fn all_have_known_cells(paths: &[Path]) -> bool
    ensures { IsTrue result ↔ AreKnown paths.now }
{
    'paths: for path in paths {
        if !has_known_cells(path) {
            return false;
        }
    }
    true
}

/// Whether each path of the segment has ended or has known cells: constants, or lists with elements
/// added, whatever these are.
pub fn are_known(segment: &Segment) -> bool
    ensures { IsTrue result ↔ AreKnown segment.now }
{
    all_have_known_cells(segment.paths())
}

/// What is known of a cell by its form.
fn known_cell(alloc: Global, form: &Form) -> Result<Cell, NoMemory>
    ensures { IfOk result (λ c. c ≡ known_cell form.now) }
{
    match form {
        Form::Enum(EnumForm::Const(label)) => Ok(Cell::Enum(*label)),
        Form::Enum(EnumForm::Copy(_)) => Ok(Cell::Enum(0)),
        Form::Int(IntForm::Const(number)) => Ok(Cell::Int(number.value)),
        Form::Int(IntForm::Line(_)) => Ok(Cell::Int(0)),
        Form::Hold(HoldForm::Const(parts)) => Ok(Cell::Hold(parts.copy(alloc)?)),
        Form::Hold(HoldForm::Copy(_)) => Ok(Cell::Hold(Values::new(alloc))),
        Form::Nums(_) => Ok(Cell::Nums(Nums::new(alloc))),
        Form::Words(_) => Ok(Cell::Words(Words::new(alloc))),
    }
}

/// The state of the known cells, whose lists are empty.
pub(crate) fn known_state(alloc: Global, forms: &[Form]) -> Result<State, NoMemory>
    ensures { IfOk result (λ s. s ≡ known_state forms.now) }
{
    let mut cells = Vec::with_capacity(alloc, forms.len())?;
    'cells: for index in 0..forms.len() {
        cells.push(known_cell(alloc, &forms[index])?)?;
    }
    Ok(State {
        cells: Cells::of(cells),
    })
}
