//! Whether a path fits a script.
ghost use Rattle.std.specs.Prelude.{◌≡◌, ◌↔◌, ℤ, All, IsTrue};
ghost use Rattle.std.specs.List.{AllZip};
ghost use Rattle.sym_check.specs.Checking.CheckedScripts.{checked_plan};
ghost use Rattle.sym_check.specs.Plan.CellKinds.{IsHoldCell, IsEnumCell};
ghost use Rattle.sym_check.specs.Meaning.Fitting.{FitsFault};
ghost use Rattle.sym_check.specs.Plan.ScriptPlans.{script_plan};
ghost use Rattle.sym_check.specs.Plan.Ranges.{InRange};
ghost use Rattle.sym_check.specs.Plan.WellFormed.{IsCell, IsWellFormed};
ghost use Rattle.sym_int.specs.Lines.{form_on};
ghost use Rattle.sym_int.specs.Points.{HasPoint};
ghost use Rattle.sym_path.specs.Checking.{FitsPart, FitsForm, FitsLabelForm, FitsHoldForm};
ghost use Rattle.sym_path.specs.Fitting.{FitsEnum, FitsRange, NumberFits, PartFits, FormFits, FormsFit, EndFits, PathFits};

use crate::form::{Form, Forms};
use crate::joins::are_taken;
use crate::kinds::{all_suit, are_of_kinds, label_count, same_kinds};
use crate::part::{Constraint, Part};
use crate::path::{Path, PathEnd};
use sym_base::FaultKind;
use sym_check::{CellPlan, Checked, KindPlan, Plan};
use sym_enum::{EnumForm, LabelSet};
use sym_int::{IntForm, Pulled, Span, pull};
use sym_pred::HoldForm;
use sym_vector::ListForm;

/// Whether the set has a label, and only labels of an enum of so many.
fn labels_fit(count: usize, set: &LabelSet) -> bool
    ensures { IsTrue result ↔ FitsEnum count set.now }
{
    let mut some = false;
    'labels: for label in 0..32 {
        if set.has(label) {
            if usize::from(label) >= count {
                return false;
            }
            some = true;
        }
    }
    some
}

/// Whether the span lies in the range.
fn span_fits(range: &Span, span: &Span) -> bool
    ensures { IsTrue result ↔ FitsRange range.now.lo range.now.hi span.now }
{
    range.lo <= span.lo && span.hi <= range.hi
}

/// Whether the part is one that the cell may have.
fn part_fits(plan: &Plan, cell: &CellPlan, part: &Part) -> bool
    requires { IsCell (script_plan plan.now).enums cell.now }
    ensures { IsTrue result ↔ FitsPart (script_plan plan.now) cell.now part.now }
{
    match (cell, part) {
        (CellPlan::Enum { of, .. }, Part::Set(set)) => {
            labels_fit(label_count(plan.enums.as_slice(), *of), set)
        }
        (CellPlan::Int { lo, hi, .. }, Part::Span(span)) => {
            span_fits(&Span { lo: *lo, hi: *hi }, span)
        }
        (CellPlan::Hold { kinds, .. }, Part::Facts(facts)) => {
            all_suit(plan, kinds.as_slice(), facts)
        }
        (CellPlan::Nums { .. }, Part::Free) => true,
        (CellPlan::Words, Part::Free) => true,
        _ => false,
    }
}

/// Whether the form lies in the range at every number of the span.
fn stays_within(range: &Span, span: &Span, form: &IntForm) -> bool
    ensures { IsTrue result ↔ ((x : ℤ) → HasPoint span.now x →
        InRange range.now.lo range.now.hi (form_on form.now x)) }
{
    match pull(range, form) {
        Pulled::In {
            cell: _,
            span: within,
        } => span_fits(&within, span),
        Pulled::All => true,
        Pulled::Never => false,
    }
}

/// Whether the number lies in the range wherever the constraint admits the state.
fn number_fits(range: &Span, when: &Constraint, form: &IntForm) -> bool
    ensures { IsTrue result ↔ NumberFits range.now.lo range.now.hi when.now form.now }
{
    match form {
        IntForm::Const(number) => range.has(number.value),
        IntForm::Line(line) => match when.get(usize::from(line.cell)) {
            Some(Part::Span(span)) => stays_within(range, span, form),
            _ => false,
        },
    }
}

/// Whether each of the numbers does.
fn numbers_fit(range: &Span, when: &Constraint, added: &ListForm<IntForm>) -> bool
    ensures { IsTrue result ↔ All (NumberFits range.now.lo range.now.hi when.now) added.now }
{
    'added: for index in 0..added.len() {
        match added.at(index) {
            Some(form) => {
                if !number_fits(range, when, form) {
                    return false;
                }
            }
            None => {}
        }
    }
    true
}

/// Whether the cell with this number is one of this enum.
fn is_enum_cell(plan: &Plan, cell: u16, of: u16) -> bool
    ensures { IsTrue result ↔ IsEnumCell (script_plan plan.now).cells cell of }
{
    match plan.cells.get(usize::from(cell)) {
        Some(CellPlan::Enum { of: other, .. }) => *other == of,
        _ => false,
    }
}

/// Whether the cell with this number is a hold cell whose parts are of these kinds.
fn is_hold_cell(plan: &Plan, cell: u16, kinds: &[KindPlan]) -> bool
    ensures { IsTrue result ↔ IsHoldCell (script_plan plan.now).cells cell kinds.now }
{
    match plan.cells.get(usize::from(cell)) {
        Some(CellPlan::Hold { kinds: others, .. }) => same_kinds(others.as_slice(), kinds),
        _ => false,
    }
}

fn label_form_fits(plan: &Plan, of: u16, form: &EnumForm) -> bool
    ensures { IsTrue result ↔ FitsLabelForm (script_plan plan.now) of form.now }
{
    match form {
        EnumForm::Const(label) => usize::from(*label) < label_count(plan.enums.as_slice(), of),
        EnumForm::Copy(cell) => is_enum_cell(plan, *cell, of),
    }
}

fn hold_form_fits(plan: &Plan, kinds: &[KindPlan], form: &HoldForm) -> bool
    ensures { IsTrue result ↔ FitsHoldForm (script_plan plan.now) kinds.now form.now }
{
    match form {
        HoldForm::Const(parts) => are_of_kinds(plan.enums.as_slice(), kinds, parts.as_slice()),
        HoldForm::Copy(cell) => is_hold_cell(plan, *cell, kinds),
    }
}

/// Whether the form is one that the cell may have.
fn form_fits(plan: &Plan, when: &Constraint, cell: &CellPlan, form: &Form) -> bool
    requires { IsCell (script_plan plan.now).enums cell.now }
    ensures { IsTrue result ↔ FitsForm (script_plan plan.now) when.now cell.now form.now }
{
    match (cell, form) {
        (CellPlan::Enum { of, .. }, Form::Enum(form)) => label_form_fits(plan, *of, form),
        (CellPlan::Int { lo, hi, .. }, Form::Int(form)) => {
            number_fits(&Span { lo: *lo, hi: *hi }, when, form)
        }
        (CellPlan::Hold { kinds, .. }, Form::Hold(form)) => {
            hold_form_fits(plan, kinds.as_slice(), form)
        }
        (CellPlan::Nums { lo, hi, .. }, Form::Nums(added)) => {
            numbers_fit(&Span { lo: *lo, hi: *hi }, when, added)
        }
        (CellPlan::Words, Form::Words(_)) => true,
        _ => false,
    }
}

/// Whether there is one part for each cell, which it may have.
fn parts_fit(plan: &Plan, when: &Constraint) -> bool
    requires { IsWellFormed (script_plan plan.now) }
    ensures { IsTrue result ↔
        AllZip (FitsPart (script_plan plan.now)) (script_plan plan.now).cells when.now }
{
    let (cells, parts) = (plan.cells.as_slice(), when.as_slice());
    if cells.len() != parts.len() {
        return false;
    }
    'cells: for index in 0..cells.len() {
        if !part_fits(plan, &cells[index], &parts[index]) {
            return false;
        }
    }
    true
}

/// Whether there is one form for each cell, which it may have.
fn forms_fit(plan: &Plan, when: &Constraint, forms: &Forms) -> bool
    requires { IsWellFormed (script_plan plan.now) }
    ensures { IsTrue result ↔
        AllZip (FitsForm (script_plan plan.now) when.now) (script_plan plan.now).cells forms.now }
{
    let (cells, items) = (plan.cells.as_slice(), forms.as_slice());
    if cells.len() != items.len() {
        return false;
    }
    'cells: for index in 0..cells.len() {
        if !form_fits(plan, when, &cells[index], &items[index]) {
            return false;
        }
    }
    true
}

/// Whether a group of the script may end by a fault of this kind.
fn fault_fits(plan: &Plan, kind: &FaultKind) -> bool
    ensures { IsTrue result ↔ FitsFault (script_plan plan.now) kind.now }
{
    match kind {
        FaultKind::Over(cell) => plan.range_at(*cell).is_some(),
        FaultKind::Arith => true,
    }
}

fn end_fits(plan: &Plan, when: &Constraint, end: &PathEnd) -> bool
    requires { IsWellFormed (script_plan plan.now) }
    ensures { IsTrue result ↔ EndFits (script_plan plan.now) when.now end.now }
{
    match end {
        PathEnd::Next(forms) => {
            forms_fit(plan, when, forms) && are_taken(when, forms.as_slice(), forms.as_slice())
        }
        PathEnd::Ended(fault) => fault_fits(plan, &fault.kind),
    }
}

impl Path {
    /// Whether the path fits the script: one part and, where it goes on, one form for each cell,
    /// which it may have, with the forms taken on the constraint. It takes no memory.
    pub fn fits(&self, checked: &Checked) -> bool
        ensures { IsTrue result ↔ PathFits (checked_plan checked.now) self.now }
    {
        self.fits_by(checked.plan())
    }

    /// The same by a plan alone.
    fn fits_by(&self, plan: &Plan) -> bool
        requires { IsWellFormed (script_plan plan.now) }
        ensures { IsTrue result ↔ PathFits (script_plan plan.now) self.now }
    {
        parts_fit(plan, &self.when) && end_fits(plan, &self.when, &self.end)
    }
}
