//! The forms of a path's cells, changed where they lie.
ghost use Rattle.std.specs.Prelude.{◌≡◌, ◌++◌, ◌∷◌, [], OnOk, Some, slice_get, slice_set};
ghost use Rattle.sym_path.specs.Changing.{form_of, with_form};
ghost use Rattle.sym_explore.specs.Assigning.{one_number_more, one_word_more, with_parts};

use std::alloc::Global;
use std::mem;
use sym_base::{Element, NoMemory, Text, Values};
use sym_enum::EnumForm;
use sym_int::IntForm;
use sym_path::{Form, Forms, Path, PathEnd};
use sym_pred::HoldForm;
use sym_vector::ListForm;

/// Makes it the form of an integer cell. One that it was before has no memory to give up.
#[inline(always)]
fn write_number(old: &mut Form, form: IntForm)
    ensures { old.new ≡ Form.Int form }
{
    match old {
        Form::Int(held) => *held = form,
        Form::Enum(_) | Form::Hold(_) | Form::Nums(_) | Form::Words(_) => {
            *old = Form::Int(form);
        }
    }
}

/// Makes it the form of an enum cell. One that it was before has no memory to give up.
#[inline(always)]
fn write_label(old: &mut Form, form: EnumForm)
    ensures { old.new ≡ Form.Enum form }
{
    match old {
        Form::Enum(held) => *held = form,
        Form::Int(_) | Form::Hold(_) | Form::Nums(_) | Form::Words(_) => {
            *old = Form::Enum(form);
        }
    }
}

/// Makes it the form of a hold cell with these parts. Known parts that it had are given for them;
/// else they are copied, which takes no more memory than they need.
#[inline(always)]
fn write_parts(alloc: Global, old: &mut Form, parts: &mut Values) -> Result<(), NoMemory>
    ensures { OnOk result (old.new ≡ Form.Hold (HoldForm.Const parts.old)) }
{
    match old {
        Form::Hold(HoldForm::Const(held)) => mem::swap(held, parts),
        Form::Hold(HoldForm::Copy(_))
        | Form::Enum(_)
        | Form::Int(_)
        | Form::Nums(_)
        | Form::Words(_) => *old = Form::Hold(HoldForm::Const(parts.copy(alloc)?)),
    }
    Ok(())
}

/// Adds an element where the list lies. After an `Err` the list is empty.
#[inline(always)]
fn push_to<E: Element>(alloc: Global, added: &mut ListForm<E>, element: E) -> Result<(), NoMemory>
    ensures { OnOk result (added.new ≡ added.old ++ element ∷ []) }
{
    let old = mem::replace(added, ListForm::same(alloc));
    *added = old.push(alloc, element)?;
    Ok(())
}

/// Adds a number to the list; a form of another kind becomes the list of this number.
#[inline(always)]
fn push_number(alloc: Global, old: &mut Form, number: IntForm) -> Result<(), NoMemory>
    ensures { OnOk result (old.new ≡ one_number_more (Some old.old) number) }
{
    match old {
        Form::Nums(added) => push_to(alloc, added, number),
        Form::Enum(_) | Form::Int(_) | Form::Hold(_) | Form::Words(_) => {
            *old = Form::Nums(ListForm::same(alloc).push(alloc, number)?);
            Ok(())
        }
    }
}

/// Adds a word to the list; a form of another kind becomes the list of this word.
fn push_word(alloc: Global, old: &mut Form, word: Text) -> Result<(), NoMemory>
    ensures { OnOk result (old.new ≡ one_word_more (Some old.old) word) }
{
    match old {
        Form::Words(added) => push_to(alloc, added, word),
        Form::Enum(_) | Form::Int(_) | Form::Hold(_) | Form::Nums(_) => {
            *old = Form::Words(ListForm::same(alloc).push(alloc, word)?);
            Ok(())
        }
    }
}

#[inline(always)]
fn put_number_at(forms: &mut Forms, cell: u16, form: IntForm)
    ensures { forms.new ≡ slice_set forms.old cell (Form.Int form) }
{
    if let Some(old) = forms.get_mut(usize::from(cell)) {
        write_number(old, form);
    }
}

#[inline(always)]
fn put_label_at(forms: &mut Forms, cell: u16, form: EnumForm)
    ensures { forms.new ≡ slice_set forms.old cell (Form.Enum form) }
{
    if let Some(old) = forms.get_mut(usize::from(cell)) {
        write_label(old, form);
    }
}

#[inline(always)]
fn put_parts_at(
    alloc: Global,
    forms: &mut Forms,
    cell: u16,
    parts: &mut Values,
) -> Result<(), NoMemory>
    ensures { let form = Form.Hold (HoldForm.Const parts.old) in
        OnOk result (forms.new ≡ slice_set forms.old cell form) }
{
    match forms.get_mut(usize::from(cell)) {
        Some(old) => write_parts(alloc, old, parts),
        None => Ok(()),
    }
}

#[inline(always)]
fn add_number_at(
    alloc: Global,
    forms: &mut Forms,
    cell: u16,
    number: IntForm,
) -> Result<(), NoMemory>
    ensures { let more = one_number_more (slice_get forms.old cell) number in
        OnOk result (forms.new ≡ slice_set forms.old cell more) }
{
    match forms.get_mut(usize::from(cell)) {
        Some(old) => push_number(alloc, old, number),
        None => Ok(()),
    }
}

fn add_word_at(alloc: Global, forms: &mut Forms, cell: u16, word: Text) -> Result<(), NoMemory>
    ensures { let more = one_word_more (slice_get forms.old cell) word in
        OnOk result (forms.new ≡ slice_set forms.old cell more) }
{
    match forms.get_mut(usize::from(cell)) {
        Some(old) => push_word(alloc, old, word),
        None => Ok(()),
    }
}

/// Puts a form in the place of that of the integer cell with this number; after a fault the path is
/// as before.
#[inline(always)]
pub(crate) fn put_number(path: &mut Path, cell: u16, form: IntForm)
    ensures { path.new ≡ with_form path.old cell (Form.Int form) }
{
    match &mut path.end {
        PathEnd::Next(forms) => put_number_at(forms, cell, form),
        PathEnd::Ended(_) => {}
    }
}

/// The same of an enum cell.
#[inline(always)]
pub(crate) fn put_label(path: &mut Path, cell: u16, form: EnumForm)
    ensures { path.new ≡ with_form path.old cell (Form.Enum form) }
{
    match &mut path.end {
        PathEnd::Next(forms) => put_label_at(forms, cell, form),
        PathEnd::Ended(_) => {}
    }
}

/// The same of the known parts of a hold cell. The values get the memory of parts that were known
/// before.
#[inline(always)]
pub(crate) fn put_parts(
    alloc: Global,
    path: &mut Path,
    cell: u16,
    parts: &mut Values,
) -> Result<(), NoMemory>
    ensures { OnOk result (path.new ≡ with_parts path.old cell parts.old) }
{
    match &mut path.end {
        PathEnd::Next(forms) => put_parts_at(alloc, forms, cell, parts),
        PathEnd::Ended(_) => Ok(()),
    }
}

/// Adds a number to the list of the cell with this number; after a fault the path is as before.
#[inline(always)]
pub(crate) fn add_number(
    alloc: Global,
    path: &mut Path,
    cell: u16,
    number: IntForm,
) -> Result<(), NoMemory>
    ensures { let more = one_number_more (form_of path.old.end cell) number in
        OnOk result (path.new ≡ with_form path.old cell more) }
{
    match &mut path.end {
        PathEnd::Next(forms) => add_number_at(alloc, forms, cell, number),
        PathEnd::Ended(_) => Ok(()),
    }
}

/// The same of a word.
pub(crate) fn add_word(
    alloc: Global,
    path: &mut Path,
    cell: u16,
    word: Text,
) -> Result<(), NoMemory>
    ensures { let more = one_word_more (form_of path.old.end cell) word in
        OnOk result (path.new ≡ with_form path.old cell more) }
{
    match &mut path.end {
        PathEnd::Next(forms) => add_word_at(alloc, forms, cell, word),
        PathEnd::Ended(_) => Ok(()),
    }
}
