//! Known paths turned back into paths.
ghost use Rattle.std.specs.Prelude.{◌≡◌, ◌++◌, IfOk, length, map};
ghost use Rattle.std.specs.List.{All, AllZip};
ghost use Rattle.sym_base.specs.Limits.{IsNumber};
ghost use Rattle.sym_int.specs.Elements.{IsConstant};
ghost use Rattle.sym_path.specs.declared.path.PathEnd.TheVariants.{Next};
ghost use Rattle.sym_known.specs.Closing.{AreFormsOf, CanBeClosed, CanClose, HasScriptNumbers, IsClosed, IsEndOf};
ghost use Rattle.sym_known.specs.Closing.{IsFormOf, IsLonger, added_nums, added_words, forms_of};
ghost use Rattle.sym_known.specs.Placing.{AllPlaced, IsPlaceOf, known_in, outcome_in};

use crate::placed::Placed;
use std::alloc::Global;
use sym_base::{Cell, NoMemory, Outcome, Sequence, Text};
use sym_enum::EnumForm;
use sym_int::{IntForm, Number};
use sym_path::{Form, Forms, Path, PathEnd};
use sym_pred::HoldForm;
use sym_vector::ListForm;

/// The constant of a number of a script.
fn constant(number: i64) -> IntForm
    requires { IsNumber number }
    ensures { IsConstant number result }
{
    match Number::new(number) {
        Some(number) => IntForm::Const(number),
        None => unreachable!(),
    }
}

/// The numbers with these after them, as constants.
fn add_numbers(
    alloc: Global,
    added: ListForm<IntForm>,
    numbers: &[i64],
) -> Result<ListForm<IntForm>, NoMemory>
    requires { All IsNumber numbers.now }
    ensures { IfOk result (IsLonger added numbers.now) }
{
    let mut longer = added;
    'numbers: for index in 0..numbers.len() {
        longer = longer.push(alloc, constant(numbers[index]))?;
    }
    Ok(longer)
}

/// The words with these after them.
fn add_words(
    alloc: Global,
    added: ListForm<Text>,
    words: &[Text],
) -> Result<ListForm<Text>, NoMemory>
    ensures { IfOk result (λ longer. longer ≡ added ++ words.now) }
{
    let mut longer = added;
    'words: for index in 0..words.len() {
        longer = longer.push(alloc, words[index].copy(alloc)?)?;
    }
    Ok(longer)
}

/// The numbers that the form adds, which are moved.
fn nums_of(alloc: Global, form: Form) -> ListForm<IntForm>
    ensures { result ≡ added_nums form }
{
    match form {
        Form::Nums(added) => added,
        _ => ListForm::same(alloc),
    }
}

/// The words that the form adds, which are moved.
fn words_of(alloc: Global, form: Form) -> ListForm<Text>
    ensures { result ≡ added_words form }
{
    match form {
        Form::Words(added) => added,
        _ => ListForm::same(alloc),
    }
}

/// The form of a cell that holds this now.
fn form_of(alloc: Global, form: Form, cell: &Cell) -> Result<Form, NoMemory>
    requires { HasScriptNumbers cell.now }
    ensures { IfOk result (IsFormOf form cell.now) }
{
    match cell {
        Cell::Enum(label) => Ok(Form::Enum(EnumForm::Const(*label))),
        Cell::Int(number) => Ok(Form::Int(constant(*number))),
        Cell::Hold(parts) => Ok(Form::Hold(HoldForm::Const(parts.copy(alloc)?))),
        Cell::Nums(numbers) => {
            let added = nums_of(alloc, form);
            Ok(Form::Nums(add_numbers(alloc, added, numbers.as_slice())?))
        }
        Cell::Words(words) => {
            let added = words_of(alloc, form);
            Ok(Form::Words(add_words(alloc, added, words.as_slice())?))
        }
    }
}

/// The forms of cells that hold these now.
fn forms_of(alloc: Global, forms: Forms, cells: &[Cell]) -> Result<Forms, NoMemory>
    requires lengths { length forms ≡ length cells.now }
    requires numbers { All HasScriptNumbers cells.now }
    ensures { IfOk result (AreFormsOf forms cells.now) }
{
    let mut closed = Vec::with_capacity(alloc, cells.len())?;
    'cells: for form in forms.into_vec() {
        match cells.get(closed.len()) {
            Some(cell) => closed.push(form_of(alloc, form, cell)?)?,
            None => unreachable!(),
        }
    }
    Ok(Sequence::of(closed))
}

/// The end of a path with these forms whose group stands like this now.
fn end_of(alloc: Global, forms: Forms, outcome: &Outcome) -> Result<PathEnd, NoMemory>
    requires { CanClose (length forms) outcome.now }
    ensures { IfOk result (IsEndOf (Next forms) outcome.now) }
{
    match outcome {
        Outcome::Going(state) => {
            let closed = forms_of(alloc, forms, state.cells.as_slice())?;
            Ok(PathEnd::Next(closed))
        }
        Outcome::Ended(fault) => Ok(PathEnd::Ended(*fault)),
    }
}

/// The end of a path whose outcome has this place. An end by a fault stays.
fn end_at(
    alloc: Global,
    end: PathEnd,
    place: usize,
    outcomes: &[Outcome],
) -> Result<PathEnd, NoMemory>
    requires place { IsPlaceOf (length outcomes.now) end place }
    requires can { CanClose (length (forms_of end)) (outcome_in outcomes.now place end) }
    ensures { IfOk result (IsEndOf end (outcome_in outcomes.now place end)) }
{
    match end {
        PathEnd::Next(forms) => end_of(alloc, forms, &outcomes[place]),
        PathEnd::Ended(fault) => Ok(PathEnd::Ended(fault)),
    }
}

/// The path into which a known one turns back. Its lists are moved, and what its outcome pushed
/// goes after their elements.
fn closed(alloc: Global, placed: Placed, outcomes: &[Outcome]) -> Result<Path, NoMemory>
    requires place { IsPlaceOf (length outcomes.now) placed.path.end placed.place }
    requires can { CanBeClosed (known_in outcomes.now placed) }
    ensures { IfOk result (IsClosed (known_in outcomes.now placed)) }
{
    let Placed { path, place } = placed;
    let Path { when, end } = path;
    let end = end_at(alloc, end, place, outcomes)?;
    Ok(Path { when, end })
}

/// The paths into which known ones turn back.
pub(crate) fn close_all(
    alloc: Global,
    placed: Vec<Placed>,
    outcomes: &[Outcome],
) -> Result<Vec<Path>, NoMemory>
    requires places { AllPlaced (length outcomes.now) placed.items }
    requires can { All CanBeClosed (map (known_in outcomes.now) placed.items) }
    ensures { IfOk result (λ paths.
        AllZip IsClosed (map (known_in outcomes.now) placed.items) paths.items) }
{
    let mut paths = Vec::with_capacity(alloc, placed.len())?;
    'paths: for one in placed {
        paths.push(closed(alloc, one, outcomes)?)?;
    }
    Ok(paths)
}
