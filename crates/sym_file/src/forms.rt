//! Reading what becomes of the cells.
ghost use Rattle.std.specs.Prelude.{◌≡◌, ℤ};
ghost use Rattle.sym_check.specs.Plan.ScriptPlans.{script_plan};
ghost use Rattle.sym_file.specs.Making.{line_of, number_of};
ghost use Rattle.sym_file.specs.Reading.{Gives, added_at, apart, constant_at, each, form_at, hold_form_at, label_form_at, line_at, many, number_at, word_at};

use crate::numbers::{after, below_8, below_16, int, nat, small};
use crate::saved_err::SavedErr;
use crate::values::{values, word};
use std::alloc::Global;
use sym_base::{Sequence, Text};
use sym_check::{CellPlan, Plan};
use sym_enum::EnumForm;
use sym_int::{IntForm, Line, Number};
use sym_path::{Form, Forms};
use sym_pred::HoldForm;
use sym_vector::ListForm;

fn number_of(value: i64) -> Option<Number>
    ensures { result ≡ number_of value }
{
    Number::new(value)
}

fn line_of(cell: u16, a: i128, b: i128) -> Option<Line>
    ensures { result ≡ line_of cell a b }
{
    Line::new(cell, a, b)
}

fn constant(bytes: &[u8]) -> Result<(IntForm, &[u8]), SavedErr>
    ensures { Gives (λ x. (x.0, x.1.now)) result (constant_at bytes.now) }
{
    let (value, rest) = small(bytes)?;
    match number_of(value) {
        Some(number) => Ok((IntForm::Const(number), rest)),
        None => Err(SavedErr::Malformed),
    }
}

fn line(bytes: &[u8]) -> Result<(IntForm, &[u8]), SavedErr>
    ensures { Gives (λ x. (x.0, x.1.now)) result (line_at bytes.now) }
{
    let (cell, rest) = below_16(bytes)?;
    let rest = after(b",", rest)?;
    let (a, rest) = int(rest)?;
    let rest = after(b",", rest)?;
    let (b, rest) = int(rest)?;
    match line_of(cell, a, b) {
        Some(line) => Ok((IntForm::Line(line), rest)),
        None => Err(SavedErr::Malformed),
    }
}

/// A number's form.
#[tactic(auto, unfolding(crate::specs::Reading::number_at))]
fn number(bytes: &[u8]) -> Result<(IntForm, &[u8]), SavedErr>
    ensures { Gives (λ x. (x.0, x.1.now)) result (number_at bytes.now) }
{
    match bytes {
        [b'n', rest @ ..] => constant(rest),
        [b'x', rest @ ..] => line(rest),
        _ => Err(SavedErr::Malformed),
    }
}

/// An enum cell's form.
#[tactic(auto, unfolding(crate::specs::Reading::label_form_at))]
fn label_form(bytes: &[u8]) -> Result<(Form, &[u8]), SavedErr>
    ensures { Gives (λ x. (x.0, x.1.now)) result (label_form_at bytes.now) }
{
    match bytes {
        [b'c', rest @ ..] => {
            let (label, rest) = below_8(rest)?;
            Ok((Form::Enum(EnumForm::Const(label)), rest))
        }
        [b'k', rest @ ..] => {
            let (cell, rest) = below_16(rest)?;
            Ok((Form::Enum(EnumForm::Copy(cell)), rest))
        }
        _ => Err(SavedErr::Malformed),
    }
}

/// The form of a hold cell of so many parts.
#[tactic(auto, unfolding(crate::specs::Reading::hold_form_at))]
fn hold_form(alloc: Global, parts: usize, bytes: &[u8]) -> Result<(Form, &[u8]), SavedErr>
    ensures { Gives (λ x. (x.0, x.1.now)) result (hold_form_at parts bytes.now) }
{
    match bytes {
        [b'h', rest @ ..] => {
            let (values, rest) = values(alloc, parts, rest)?;
            Ok((Form::Hold(HoldForm::Const(values)), rest))
        }
        [b'k', rest @ ..] => {
            let (cell, rest) = below_16(rest)?;
            Ok((Form::Hold(HoldForm::Copy(cell)), rest))
        }
        _ => Err(SavedErr::Malformed),
    }
}

/// A number's form after a space.
fn next_number(bytes: &[u8]) -> Result<(IntForm, &[u8]), SavedErr>
    ensures { Gives (λ x. (x.0, x.1.now)) result (apart number_at bytes.now) }
{
    let rest = after(b" ", bytes)?;
    number(rest)
}

/// A word after a space.
fn next_word(alloc: Global, bytes: &[u8]) -> Result<(Text, &[u8]), SavedErr>
    ensures { Gives (λ x. (x.0, x.1.now)) result (apart word_at bytes.now) }
{
    let rest = after(b" ", bytes)?;
    word(alloc, rest)
}

/// So many numbers, each after a space.
fn numbers(alloc: Global, count: u128, bytes: &[u8]) -> Result<(ListForm<IntForm>, &[u8]), SavedErr>
    ensures { Gives (λ x. (x.0, x.1.now)) result (many (apart number_at) count bytes.now) }
{
    let mut added = ListForm::same(alloc);
    let mut rest = bytes;
    'numbers: for _ in 0..count {
        let (number, after) = next_number(rest)?;
        added = added.push(alloc, number)?;
        rest = after;
    }
    Ok((added, rest))
}

/// So many words, each after a space.
fn words(alloc: Global, count: u128, bytes: &[u8]) -> Result<(ListForm<Text>, &[u8]), SavedErr>
    ensures { Gives (λ x. (x.0, x.1.now)) result (many (apart word_at) count bytes.now) }
{
    let mut added = ListForm::same(alloc);
    let mut rest = bytes;
    'words: for _ in 0..count {
        let (word, after) = next_word(alloc, rest)?;
        added = added.push(alloc, word)?;
        rest = after;
    }
    Ok((added, rest))
}

/// The numbers that are added to a list.
#[tactic(auto, unfolding(crate::specs::Reading::added_at))]
fn added_numbers(alloc: Global, bytes: &[u8]) -> Result<(ListForm<IntForm>, &[u8]), SavedErr>
    ensures { Gives (λ x. (x.0, x.1.now)) result (added_at number_at bytes.now) }
{
    let rest = after(b"a", bytes)?;
    let (count, rest) = nat(rest)?;
    numbers(alloc, count, rest)
}

/// The words that are added to a list.
#[tactic(auto, unfolding(crate::specs::Reading::added_at))]
fn added_words(alloc: Global, bytes: &[u8]) -> Result<(ListForm<Text>, &[u8]), SavedErr>
    ensures { Gives (λ x. (x.0, x.1.now)) result (added_at word_at bytes.now) }
{
    let rest = after(b"a", bytes)?;
    let (count, rest) = nat(rest)?;
    words(alloc, count, rest)
}

/// What becomes of a cell.
#[tactic(auto, unfolding(crate::specs::Reading::form_at))]
fn form<'a>(alloc: Global, cell: &CellPlan, bytes: &'a [u8]) -> Result<(Form, &'a [u8]), SavedErr>
    ensures { Gives (λ x. (x.0, x.1.now)) result (form_at cell.now bytes.now) }
{
    match cell {
        CellPlan::Enum { .. } => label_form(bytes),
        CellPlan::Int { .. } => {
            let (form, rest) = number(bytes)?;
            Ok((Form::Int(form), rest))
        }
        CellPlan::Hold { kinds, .. } => hold_form(alloc, kinds.len(), bytes),
        CellPlan::Nums { .. } => {
            let (form, rest) = added_numbers(alloc, bytes)?;
            Ok((Form::Nums(form), rest))
        }
        CellPlan::Words => {
            let (form, rest) = added_words(alloc, bytes)?;
            Ok((Form::Words(form), rest))
        }
    }
}

/// What becomes of a cell, after a space.
fn next_form<'a>(
    alloc: Global,
    cell: &CellPlan,
    bytes: &'a [u8],
) -> Result<(Form, &'a [u8]), SavedErr>
    ensures { Gives (λ x. (x.0, x.1.now)) result (apart (form_at cell.now) bytes.now) }
{
    let rest = after(b" ", bytes)?;
    form(alloc, cell, rest)
}

/// What becomes of each cell.
pub(crate) fn forms<'a>(
    alloc: Global,
    plan: &Plan,
    bytes: &'a [u8],
) -> Result<(Forms, &'a [u8]), SavedErr>
    ensures { Gives (λ x. (x.0, x.1.now)) result
        (each (λ cell. apart (form_at cell)) (script_plan plan.now).cells bytes.now) }
{
    let mut forms = Vec::with_capacity(alloc, plan.cells.len())?;
    let mut rest = bytes;
    'cells: for cell in plan.cells.as_slice() {
        let (form, after) = next_form(alloc, cell, rest)?;
        forms.push(form)?;
        rest = after;
    }
    Ok((Sequence::of(forms), rest))
}
