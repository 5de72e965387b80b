//! What a path needs of the state before an earlier one, cell by cell.
ghost use Rattle.std.specs.Prelude.{◌≡◌, ◌&&◌, ◌↔◌, ℕ, ℤ, IsTrue, length};
ghost use Rattle.std.specs.List.{list_all};
ghost use Rattle.sym_check.specs.Meaning.Conditions.{has_fixed_body, test_truth};
ghost use Rattle.sym_check.specs.Plan.ScriptPlans.{script_plan};
ghost use Rattle.sym_enum.specs.Labels.{has_label};
ghost use Rattle.sym_int.specs.Points.{HasPoint, IsPart};
ghost use Rattle.sym_path.specs.Pulling.{zip_all, constant_meets, label_passes, int_passes, number_passes, Agrees, AllAgree, OthersAgree, NeedsAgree};
ghost use Rattle.sym_path.specs.declared.part.Part.TheVariants as part;

use crate::admission::give_all;
use crate::form::Form;
use crate::part::Part;
use sym_check::Plan;
use sym_enum::{EnumForm, LabelSet};
use sym_int::{IntForm, Pulled, Span, pull};
use sym_pred::{Facts, HoldForm};

/// Whether a constant is as it is needed.
fn constant_meets(plan: &Plan, form: &Form, need: &Part) -> bool
    requires { IsTrue (list_all has_fixed_body (script_plan plan.now).tests) }
    ensures { result ≡
        constant_meets (test_truth (script_plan plan.now).tests) form.now need.now }
{
    match form {
        Form::Enum(EnumForm::Const(label)) => match need {
            Part::Set(set) => set.has(*label),
            _ => false,
        },
        Form::Int(IntForm::Const(number)) => match need {
            Part::Span(span) => span.has(number.value),
            _ => false,
        },
        Form::Hold(HoldForm::Const(parts)) => match need {
            Part::Facts(facts) => give_all(plan, parts, facts),
            _ => false,
        },
        _ => true,
    }
}

/// Whether each constant is as it is needed.
pub(crate) fn constants_meet(plan: &Plan, forms: &[Form], needs: &[Part]) -> bool
    requires fixed { IsTrue (list_all has_fixed_body (script_plan plan.now).tests) }
    requires lengths { length forms.now ≡ length needs.now }
    ensures { result ≡ zip_all (constant_meets (test_truth (script_plan plan.now).tests))
        forms.now needs.now }
{
    'cells: for index in 0..forms.len() {
        if !constant_meets(plan, &forms[index], &needs[index]) {
            return false;
        }
    }
    true
}

/// The labels of an enum cell that are in the set needed of a form.
fn labels_passed(cell: u16, set: LabelSet, form: &Form, need: &Part) -> LabelSet
    ensures { (l : ℕ) →
        has_label result l ≡ (has_label set l && label_passes cell l form.now need.now) }
{
    match form {
        Form::Enum(EnumForm::Copy(own)) if *own == cell => match need {
            Part::Set(needed) => set.meet(needed),
            _ => set,
        },
        _ => set,
    }
}

/// The labels of an enum cell that are in all sets needed of its copies.
pub(crate) fn labels_left(cell: u16, set: LabelSet, forms: &[Form], needs: &[Part]) -> LabelSet
    requires { length forms.now ≡ length needs.now }
    ensures { (l : ℕ) → has_label result l ≡
        (has_label set l && zip_all (label_passes cell l) forms.now needs.now) }
{
    let mut left = set;
    'cells: for index in 0..forms.len() {
        left = labels_passed(cell, left, &forms[index], &needs[index]);
    }
    left
}

/// The numbers of an integer cell at which a form over it is in the span needed of it.
fn numbers_passed(cell: u16, span: &Span, form: &Form, need: &Part) -> Option<Span>
    ensures { IsPart (λ x. HasPoint span.now x
        × IsTrue (number_passes cell x form.now need.now)) result }
{
    match form {
        Form::Int(line) => match need {
            Part::Span(needed) => line_passed(cell, span, line, needed),
            _ => Some(*span),
        },
        _ => Some(*span),
    }
}

fn line_passed(cell: u16, span: &Span, form: &IntForm, need: &Span) -> Option<Span>
    ensures { IsPart (λ x. HasPoint span.now x
        × IsTrue (int_passes cell x (part.Span need.now) form.now)) result }
{
    match form {
        IntForm::Line(line) if line.cell == cell => match pull(need, form) {
            Pulled::In {
                cell: _,
                span: pulled,
            } => span.meet(&pulled),
            Pulled::All => Some(*span),
            Pulled::Never => None,
        },
        _ => Some(*span),
    }
}

/// The numbers of an integer cell at which all forms over it are in the spans needed of them.
pub(crate) fn numbers_left(cell: u16, span: &Span, forms: &[Form], needs: &[Part]) -> Option<Span>
    requires { length forms.now ≡ length needs.now }
    ensures { IsPart (λ x. HasPoint span.now x
        × IsTrue (zip_all (number_passes cell x) forms.now needs.now)) result }
{
    let mut left = *span;
    'cells: for index in 0..forms.len() {
        match numbers_passed(cell, &left, &forms[index], &needs[index]) {
            Some(span) => left = span,
            None => return None,
        }
    }
    Some(left)
}

/// Whether no literal of the facts stands with the other outcome in what is needed of a form that
/// copies the hold cell.
fn agrees(cell: u16, facts: &Facts, form: &Form, need: &Part) -> bool
    ensures { IsTrue result ↔ Agrees cell facts.now form.now need.now }
{
    match form {
        Form::Hold(HoldForm::Copy(own)) => match need {
            Part::Facts(needed) => *own != cell || !facts.clashes(needed),
            _ => true,
        },
        _ => true,
    }
}

/// Whether it is so of all forms.
pub(crate) fn all_agree(cell: u16, facts: &Facts, forms: &[Form], needs: &[Part]) -> bool
    requires { length forms.now ≡ length needs.now }
    ensures { IsTrue result ↔ AllAgree cell facts.now forms.now needs.now }
{
    'cells: for index in 0..forms.len() {
        if !agrees(cell, facts, &forms[index], &needs[index]) {
            return false;
        }
    }
    true
}

/// Whether what is needed of a form that copies the hold cell agrees with what is needed of the
/// others.
fn others_agree(cell: u16, form: &Form, need: &Part, forms: &[Form], needs: &[Part]) -> bool
    requires { length forms.now ≡ length needs.now }
    ensures { IsTrue result ↔ OthersAgree cell forms.now needs.now form.now need.now }
{
    match form {
        Form::Hold(HoldForm::Copy(own)) => match need {
            Part::Facts(needed) => *own != cell || all_agree(cell, needed, forms, needs),
            _ => true,
        },
        _ => true,
    }
}

/// Whether it is so of all forms.
pub(crate) fn needs_agree(cell: u16, forms: &[Form], needs: &[Part]) -> bool
    requires { length forms.now ≡ length needs.now }
    ensures { IsTrue result ↔ NeedsAgree cell forms.now needs.now }
{
    'cells: for index in 0..forms.len() {
        if !others_agree(cell, &forms[index], &needs[index], forms, needs) {
            return false;
        }
    }
    true
}
