//! One path after another: what is left of the first one's constraint, and the forms of both.
ghost use Rattle.std.specs.Prelude.{◌≡◌, ◌≤◌, ◌<◌, ◌^◌, ◌↔◌, ◌⊎◌, Bool, IfOk, IfSome, IsSome, IsTrue, None, OnOk, Some, All, length, slice_get};
ghost use Rattle.std.specs.List.{AllZip};
ghost use Rattle.sym_check.specs.Checking.CheckedScripts.{checked_plan};
ghost use Rattle.sym_check.specs.Meaning.Conditions.{test_truth};
ghost use Rattle.sym_check.specs.Plan.ScriptPlans.{script_plan};
ghost use Rattle.sym_check.specs.Plan.WellFormed.{IsWellFormed};
ghost use Rattle.sym_int.specs.declared.element.IntForms.{IntForms as OneContext};
ghost use Rattle.sym_pred.specs.Facts.{Atom};
ghost use Rattle.sym_pred.specs.Meaning.{Stands};
ghost use Rattle.sym_path.specs.Fitting.{PathFits};
ghost use Rattle.sym_path.specs.Following.{IsFollowed};
ghost use Rattle.sym_path.specs.FormsAfter.{IsNumberOf, IsSpanOf, IsContext, AddsConstants, part_spans, CanLead, LedTo, CanComeAfter, FormAfter, NumsAfter, WordsAfter, IsNums, IsWords, IsCopied, Copies, CopiedFrom, LacksOnly, KeepsNeeded, KeepsOthers, AllCanComeAfter, AreAfter, CanEndAfter, EndsAfter};
ghost use Rattle.sym_path.specs.Left.{PartLeft, CopyNeeds, NeedsHere, AreLeft, HasLeft, LeftAt, LeftIsPut, CanPutLeft, CanPutAllLeft, IsShape, CanNarrow, NarrowedAt};
ghost use Rattle.sym_path.specs.Possible.{IsLeft, IsSaid, AllLeft, IsPossiblePair};
ghost use Rattle.sym_path.specs.Pulling.{Agrees, HoldAgrees};
ghost use Rattle.sym_path.specs.Taking.{AreTakenTo, IsTakenOn};
ghost use Rattle.sym_int.specs.Elements.{CanGoThrough, IsOnSpans, StaysOn};
ghost use Rattle.sym_int.specs.Lines.{form_cell, wide_cell, wide_on};
ghost use Rattle.sym_path.specs.declared.part.Part.TheVariants as part;
ghost use Rattle.sym_path.specs.declared.path.PathEnd.TheVariants.{Ended};

use crate::cell_constraints::{labels_put, numbers_put};
use crate::form::{Form, Forms};
use crate::joins::same_part;
use crate::part::{Constraint, Part};
use crate::path::{Path, PathEnd};
use crate::possible_pairs::possible_by;
use crate::preimages::{labels_left, numbers_left};
use std::alloc::Global;
use sym_base::{Fault, NoMemory, Sequence, Text};
use sym_check::{Checked, Plan};
use sym_enum::EnumForm;
use sym_int::{FormList, IntForm, IntForms, Number, Span, Spans, Wide};
use sym_pred::{Facts, HoldForm};
use sym_vector::ListForm;

/// The facts with the literals that are needed of a hold form, where that copies the cell.
fn hold_passed(
    alloc: Global,
    cell: u16,
    facts: Facts,
    form: &HoldForm,
    need: &Part,
) -> Result<Facts, NoMemory>
    requires { HoldAgrees cell facts need.now form.now }
    ensures { IfOk result (λ left. (atom : Atom) (outcome : Bool) →
        Stands left atom outcome ↔
        (Stands facts atom outcome ⊎ CopyNeeds cell need.now atom outcome form.now)) }
{
    match form {
        HoldForm::Copy(own) if *own == cell => match need {
            Part::Facts(needed) => match facts.met_with(alloc, needed)? {
                Some(met) => Ok(met),
                None => unreachable!(),
            },
            _ => Ok(facts),
        },
        _ => Ok(facts),
    }
}

/// The facts with the literals that are needed of a form, where that copies the hold cell.
fn facts_passed(
    alloc: Global,
    cell: u16,
    facts: Facts,
    form: &Form,
    need: &Part,
) -> Result<Facts, NoMemory>
    requires { Agrees cell facts form.now need.now }
    ensures { IfOk result (λ left. (atom : Atom) (outcome : Bool) →
        Stands left atom outcome ↔
        (Stands facts atom outcome ⊎ NeedsHere cell form.now need.now atom outcome)) }
{
    match form {
        Form::Hold(copy) => hold_passed(alloc, cell, facts, copy, need),
        _ => Ok(facts),
    }
}

/// The facts with the literals that are needed of all copies of the hold cell.
fn facts_left(
    alloc: Global,
    cell: u16,
    facts: Facts,
    forms: &[Form],
    needs: &[Part],
) -> Result<Facts, NoMemory>
    requires lengths { length forms.now ≡ length needs.now }
    requires left { IsLeft forms.now needs.now cell (part.Facts facts) }
    ensures { IfOk result (λ left. (atom : Atom) (outcome : Bool) →
        Stands left atom outcome ↔ IsSaid facts forms.now needs.now cell atom outcome) }
{
    let mut facts = facts;
    'cells: for index in 0..forms.len() {
        facts = facts_passed(alloc, cell, facts, &forms[index], &needs[index])?;
    }
    Ok(facts)
}

/// What is left of a cell of which something is.
fn left_of(
    alloc: Global,
    cell: u16,
    part: Part,
    forms: &[Form],
    needs: &[Part],
) -> Result<Part, NoMemory>
    requires lengths { length forms.now ≡ length needs.now }
    requires left { IsLeft forms.now needs.now cell part }
    ensures { IfOk result (PartLeft forms.now needs.now cell part) }
{
    match part {
        Part::Set(set) => Ok(Part::Set(labels_left(cell, set, forms, needs))),
        Part::Span(span) => match numbers_left(cell, &span, forms, needs) {
            Some(left) => Ok(Part::Span(left)),
            None => unreachable!(),
        },
        Part::Facts(facts) => Ok(Part::Facts(facts_left(alloc, cell, facts, forms, needs)?)),
        Part::Free => Ok(Part::Free),
    }
}

/// The set or the span of a cell; `Free` of any other cell.
fn shape(part: &Part) -> Part
    ensures { IsShape part.now result }
{
    match part {
        Part::Set(set) => Part::Set(*set),
        Part::Span(span) => Part::Span(*span),
        Part::Facts(_) => Part::Free,
        Part::Free => Part::Free,
    }
}

/// Puts what is left of a cell in its place in the forms, where that is one label or one number.
fn put_left(forms: Forms, cell: u16, old: &Part, left: &Part) -> Forms
    requires { CanPutLeft cell left.now forms }
    ensures { ((old.now ≡ left.now) × (result ≡ forms)) ⊎ LeftIsPut cell left.now forms result }
{
    if same_part(old, left) {
        return forms;
    }
    match left {
        Part::Set(set) => match set.only() {
            Some(label) => labels_put(forms, cell, label),
            None => forms,
        },
        Part::Span(span) => {
            if span.lo < span.hi {
                return forms;
            }
            numbers_put(forms, cell, span.lo)
        }
        Part::Facts(_) => forms,
        Part::Free => forms,
    }
}

/// Puts what is left of the cell at `index` in the place of its part, and gives the forms on it.
/// After an `Err` the part is lost.
fn narrow_at(
    alloc: Global,
    when: &mut Constraint,
    index: usize,
    forms: Forms,
    needs: &[Part],
) -> Result<Forms, NoMemory>
    requires lengths { length forms ≡ length needs.now }
    requires few { index < 2 ^ 16 }
    requires left { CanNarrow forms needs.now index when.old }
    ensures { IfOk result (NarrowedAt forms needs.now index when.old when.new) }
{
    match when.replace(index, Part::Free) {
        Some(part) => {
            let cell = index as u16;
            let old = shape(&part);
            let left = left_of(alloc, cell, part, forms.as_slice(), needs)?;
            let after = put_left(forms, cell, &old, &left);
            when.set(index, left);
            Ok(after)
        }
        None => unreachable!(),
    }
}

/// Puts what is left of all cells in the place of their parts, and gives the forms on it.
fn narrow_all(
    alloc: Global,
    when: &mut Constraint,
    forms: Forms,
    needs: &[Part],
) -> Result<Forms, NoMemory>
    requires lengths { length forms ≡ length needs.now }
    requires parts { length when.old ≡ length needs.now }
    requires few { length when.old ≤ 2 ^ 16 }
    requires left { AllLeft when.old forms needs.now }
    requires taken { All (IsTakenOn when.old) forms }
    requires numbers { CanPutAllLeft forms needs.now when.old }
    ensures { IfOk result (λ after.
        AreLeft forms needs.now when.old when.new × AreTakenTo when.new forms after) }
{
    let mut forms = forms;
    'cells: for index in 0..needs.len() {
        forms = narrow_at(alloc, when, index, forms, needs)?;
    }
    Ok(forms)
}

/// Puts what is left of the cell at `index` in the place of its part. After an `Err` the part is
/// lost.
fn leave_at(
    alloc: Global,
    when: &mut Constraint,
    index: usize,
    forms: &[Form],
    needs: &[Part],
) -> Result<(), NoMemory>
    requires lengths { length forms.now ≡ length needs.now }
    requires few { index < 2 ^ 16 }
    requires left { HasLeft forms.now needs.now index when.old }
    ensures { OnOk result (LeftAt forms.now needs.now index when.old when.new) }
{
    match when.replace(index, Part::Free) {
        Some(part) => {
            let left = left_of(alloc, index as u16, part, forms, needs)?;
            when.set(index, left);
            Ok(())
        }
        None => unreachable!(),
    }
}

/// Puts what is left of all cells in the place of their parts.
fn leave_all(
    alloc: Global,
    when: &mut Constraint,
    forms: &[Form],
    needs: &[Part],
) -> Result<(), NoMemory>
    requires lengths { length forms.now ≡ length needs.now }
    requires parts { length when.old ≡ length needs.now }
    requires few { length when.old ≤ 2 ^ 16 }
    requires left { AllLeft when.old forms.now needs.now }
    ensures { OnOk result (AreLeft forms.now needs.now when.old when.new) }
{
    'cells: for index in 0..needs.len() {
        leave_at(alloc, when, index, forms, needs)?;
    }
    Ok(())
}

/// The form of an integer cell; the constant 0 of any other cell.
fn number_of(form: &Form) -> IntForm
    ensures { IsNumberOf form.now result }
{
    match form {
        Form::Int(number) => *number,
        _ => IntForm::Const(Number { value: 0 }),
    }
}

/// The span of an integer cell; that of 0 alone of any other cell.
fn span_of(part: &Part) -> Span
    ensures { IsSpanOf part.now result }
{
    match part {
        Part::Span(span) => *span,
        _ => Span { lo: 0, hi: 0 },
    }
}

fn numbers_of(alloc: Global, forms: &[Form]) -> Result<FormList, NoMemory>
    ensures { IfOk result (λ numbers. AllZip IsNumberOf forms.now numbers) }
{
    let mut numbers = Vec::with_capacity(alloc, forms.len())?;
    'cells: for index in 0..forms.len() {
        numbers.push(number_of(&forms[index]))?;
    }
    Ok(Sequence::of(numbers))
}

fn spans_of(alloc: Global, parts: &[Part]) -> Result<Spans, NoMemory>
    ensures { IfOk result (λ spans. AllZip IsSpanOf parts.now spans) }
{
    let mut spans = Vec::with_capacity(alloc, parts.len())?;
    'cells: for index in 0..parts.len() {
        spans.push(span_of(&parts[index]))?;
    }
    Ok(Sequence::of(spans))
}

/// Whether the added numbers name no integer cell.
fn are_constants(added: &ListForm<IntForm>) -> bool
    ensures { IsTrue result → All (λ f. form_cell f ≡ None) added.now }
{
    'added: for index in 0..added.len() {
        if let Some(IntForm::Line(_)) = added.at(index) {
            return false;
        }
    }
    true
}

/// Whether the numbers that a list form adds name no integer cell.
fn adds_constants(form: &Form) -> bool
    ensures { IsTrue result → AddsConstants form.now }
{
    match form {
        Form::Nums(added) => are_constants(added),
        _ => true,
    }
}

/// Whether this is so of all forms.
fn all_add_constants(forms: &[Form]) -> bool
    ensures { IsTrue result → All AddsConstants forms.now }
{
    'cells: for index in 0..forms.len() {
        if !adds_constants(&forms[index]) {
            return false;
        }
    }
    true
}

/// The forms of the integer cells, and the spans in which these lie, for the numbers that are added
/// to lists; where these name no integer cell, nothing, which takes no memory.
fn context_of(
    alloc: Global,
    forms: &[Form],
    lefts: &[Part],
    others: &[Form],
) -> Result<IntForms, NoMemory>
    ensures { IfOk result (λ context.
        All AddsConstants others.now ⊎ IsContext forms.now lefts.now context) }
{
    if all_add_constants(others) {
        return Ok(IntForms {
            forms: Sequence::new(alloc),
            spans: Sequence::new(alloc),
        });
    }
    let numbers = numbers_of(alloc, forms)?;
    let spans = spans_of(alloc, lefts)?;
    Ok(IntForms {
        forms: numbers,
        spans,
    })
}

/// What stands in the place of a form that is moved out.
fn no_form() -> Form {
    Form::Enum(EnumForm::Const(0))
}

/// Whether the form copies the cell with this number.
fn copies(form: &Form, cell: u16) -> bool
    ensures { Copies cell form.now → IsTrue result }
{
    match form {
        Form::Enum(EnumForm::Copy(own)) => *own == cell,
        Form::Hold(HoldForm::Copy(own)) => *own == cell,
        _ => false,
    }
}

/// Whether a form from the one at `index` on does.
fn is_copied(forms: &[Form], index: usize, cell: u16) -> bool
    ensures { CopiedFrom forms.now index cell → IsTrue result }
{
    'cells: for at in index..forms.len() {
        if copies(&forms[at], cell) {
            return true;
        }
    }
    false
}

/// A copy of the form of the cell with this number.
fn form_at(alloc: Global, forms: &Forms, cell: u16) -> Result<Form, NoMemory>
    requires { IsCopied (slice_get forms.now cell) }
    ensures { IfOk result (λ form. slice_get forms.now cell ≡ Some form) }
{
    match forms.get(cell as usize) {
        Some(form) => form.copy(alloc),
        None => unreachable!(),
    }
}

/// The form of the cell with this number, which is moved out.
fn form_out(forms: &mut Forms, cell: u16) -> Form
    requires { IsCopied (slice_get forms.old cell) }
    ensures form { slice_get forms.old cell ≡ Some result }
    ensures others { LacksOnly cell forms.old forms.new }
{
    match forms.replace(cell as usize, no_form()) {
        Some(form) => form,
        None => unreachable!(),
    }
}

/// The form of the cell with this number, for a copy at `index` of the other forms: moved out where
/// no later one copies the cell.
fn copy_after(
    alloc: Global,
    forms: &mut Forms,
    index: usize,
    others: &[Form],
    cell: u16,
) -> Result<Form, NoMemory>
    requires within { index < length others.now }
    requires there { IsCopied (slice_get forms.old cell) }
    ensures form { IfOk result (λ form. slice_get forms.old cell ≡ Some form) }
    ensures others { KeepsNeeded others.now index forms.old forms.new }
{
    if is_copied(others, index + 1, cell) {
        form_at(alloc, forms, cell)
    } else {
        Ok(form_out(forms, cell))
    }
}

/// Numbers that are added after those of the form of the cell at `index`, which is moved out.
fn nums_after(
    alloc: Global,
    forms: &mut Forms,
    index: usize,
    added: &ListForm<IntForm>,
    context: &IntForms,
) -> Result<Form, NoMemory>
    requires list { IsNums (slice_get forms.old index) }
    requires numbers { All (λ f. CanGoThrough f context.now) added.now }
    ensures form { IfOk result (NumsAfter context.now added.now (slice_get forms.old index)) }
    ensures others { KeepsOthers index forms.old forms.new }
{
    match forms.replace(index, no_form()) {
        Some(Form::Nums(first)) => {
            Ok(Form::Nums(added.copy(alloc)?.go_through(first, context)?))
        }
        _ => unreachable!(),
    }
}

/// Words that are added after those of the form of the cell at `index`, which is moved out.
fn words_after(
    alloc: Global,
    forms: &mut Forms,
    index: usize,
    added: &ListForm<Text>,
) -> Result<Form, NoMemory>
    requires { IsWords (slice_get forms.old index) }
    ensures form { IfOk result (WordsAfter added.now (slice_get forms.old index)) }
    ensures others { KeepsOthers index forms.old forms.new }
{
    match forms.replace(index, no_form()) {
        Some(Form::Words(first)) => Ok(Form::Words(added.copy(alloc)?.go_through(first, &())?)),
        _ => unreachable!(),
    }
}

/// The form on what is left of the cell that it names.
fn taken_on(wide: &Wide, lefts: &[Part]) -> IntForm
    requires { StaysOn (wide_on wide.now) (wide_cell wide.now) (part_spans lefts.now) }
    ensures { IsOnSpans (wide_on wide.now) (wide_cell wide.now) (part_spans lefts.now) result }
{
    match wide {
        Wide::Const(number) => IntForm::Const(Number {
            value: number.value as i64,
        }),
        Wide::Line(line) => match lefts.get(line.cell as usize) {
            Some(Part::Span(span)) => wide.taken(span),
            _ => unreachable!(),
        },
    }
}

/// What an integer form becomes after the form of the cell that it names.
fn number_after(number: &IntForm, forms: &Forms, lefts: &[Part]) -> IntForm
    requires { CanLead forms.now lefts.now number.now }
    ensures { LedTo forms.now lefts.now number.now result }
{
    match number {
        IntForm::Const(_) => *number,
        IntForm::Line(line) => match forms.get(line.cell as usize) {
            Some(Form::Int(inner)) => {
                let wide = IntForm::through(number, inner);
                taken_on(&wide, lefts)
            }
            _ => unreachable!(),
        },
    }
}

/// What a form of the cell at `index`, one of `others`, becomes after the forms. A list form of
/// this cell is moved out of these, and a form that it copies and no later one does.
fn form_after(
    alloc: Global,
    forms: &mut Forms,
    index: usize,
    form: &Form,
    others: &[Form],
    lefts: &[Part],
    context: &IntForms,
) -> Result<Form, NoMemory>
    requires within { index < length others.now }
    requires can { CanComeAfter forms.old lefts.now context.now index form.now }
    ensures form { IfOk result (FormAfter forms.old lefts.now context.now index form.now) }
    ensures others { KeepsNeeded others.now index forms.old forms.new }
{
    match form {
        Form::Enum(EnumForm::Const(label)) => Ok(Form::Enum(EnumForm::Const(*label))),
        Form::Enum(EnumForm::Copy(cell)) => copy_after(alloc, forms, index, others, *cell),
        Form::Int(number) => Ok(Form::Int(number_after(number, forms, lefts))),
        Form::Hold(HoldForm::Const(parts)) => {
            Ok(Form::Hold(HoldForm::Const(parts.copy(alloc)?)))
        }
        Form::Hold(HoldForm::Copy(cell)) => copy_after(alloc, forms, index, others, *cell),
        Form::Nums(added) => nums_after(alloc, forms, index, added, context),
        Form::Words(added) => words_after(alloc, forms, index, added),
    }
}

/// What other forms become after the forms, whose lists are moved, and the last copy of each.
fn forms_after(
    alloc: Global,
    forms: Forms,
    others: &[Form],
    lefts: &[Part],
    context: &IntForms,
) -> Result<Forms, NoMemory>
    requires { AllCanComeAfter forms lefts.now context.now others.now }
    ensures { IfOk result (AreAfter forms lefts.now context.now others.now) }
{
    let mut forms = forms;
    let mut after = Vec::with_capacity(alloc, others.len())?;
    'cells: for index in 0..others.len() {
        let other = &others[index];
        let form = form_after(alloc, &mut forms, index, other, others, lefts, context)?;
        after.push(form)?;
    }
    Ok(Sequence::of(after))
}

/// The end of a path after the forms of another one, which are on what is left of its constraint.
fn end_after(
    alloc: Global,
    lefts: &[Part],
    forms: Forms,
    end: &PathEnd,
) -> Result<PathEnd, NoMemory>
    requires { CanEndAfter forms lefts.now end.now }
    ensures { IfOk result (EndsAfter forms lefts.now end.now) }
{
    match end {
        PathEnd::Ended(fault) => Ok(PathEnd::Ended(*fault)),
        PathEnd::Next(others) => {
            let context = context_of(alloc, forms.as_slice(), lefts, others.as_slice())?;
            let after = forms_after(alloc, forms, others.as_slice(), lefts, &context)?;
            Ok(PathEnd::Next(after))
        }
    }
}

/// The path of one and then another that can come after it. What it has is moved.
pub(crate) fn path_after(
    alloc: Global,
    _plan: &Plan,
    path: Path,
    next: &Path,
) -> Result<Path, NoMemory>
    requires known { IsWellFormed (script_plan _plan.now) }
    requires first { PathFits (script_plan _plan.now) path }
    requires second { PathFits (script_plan _plan.now) next.now }
    requires possible { IsPossiblePair (test_truth (script_plan _plan.now).tests) path next.now }
    ensures { IfOk result (IsFollowed (script_plan _plan.now) path next.now) }
{
    let Path { when, end } = path;
    match end {
        PathEnd::Next(forms) => {
            let mut when = when;
            let after = narrow_all(alloc, &mut when, forms, next.when.as_slice())?;
            let end = end_after(alloc, when.as_slice(), after, &next.end)?;
            Ok(Path { when, end })
        }
        PathEnd::Ended(_) => unreachable!(),
    }
}

/// The path of one and then a next one that has ended, which can come after it. The lists of the
/// first one aren't copied.
fn ended_after(
    alloc: Global,
    _plan: &Plan,
    path: &Path,
    next: &Path,
    fault: Fault,
) -> Result<Path, NoMemory>
    requires known { IsWellFormed (script_plan _plan.now) }
    requires first { PathFits (script_plan _plan.now) path.now }
    requires second { PathFits (script_plan _plan.now) next.now }
    requires possible { IsPossiblePair (test_truth (script_plan _plan.now).tests)
        path.now next.now }
    requires ended { next.now.end ≡ Ended fault }
    ensures { IfOk result (IsFollowed (script_plan _plan.now) path.now next.now) }
{
    match &path.end {
        PathEnd::Next(forms) => {
            let mut when = path.when.copy(alloc)?;
            leave_all(alloc, &mut when, forms.as_slice(), next.when.as_slice())?;
            let end = PathEnd::Ended(fault);
            Ok(Path { when, end })
        }
        PathEnd::Ended(_) => unreachable!(),
    }
}

/// The path of one and then a next one, which can come after it. The first one is copied, its lists
/// only if the next one goes on.
fn path_of_both(alloc: Global, plan: &Plan, path: &Path, next: &Path) -> Result<Path, NoMemory>
    requires known { IsWellFormed (script_plan plan.now) }
    requires first { PathFits (script_plan plan.now) path.now }
    requires second { PathFits (script_plan plan.now) next.now }
    requires possible { IsPossiblePair (test_truth (script_plan plan.now).tests)
        path.now next.now }
    ensures { IfOk result (IsFollowed (script_plan plan.now) path.now next.now) }
{
    match &next.end {
        PathEnd::Next(_) => path_after(alloc, plan, path.copy(alloc)?, next),
        PathEnd::Ended(fault) => ended_after(alloc, plan, path, next, *fault),
    }
}

/// The path of p and then q; `None` exactly where q can't come after p. It admits the states that p
/// admits and whose outcome by p q admits, and gives there what q gives of it.
pub fn follow(
    alloc: Global,
    checked: &Checked,
    p: &Path,
    q: &Path,
) -> Result<Option<Path>, NoMemory>
    requires first { PathFits (checked_plan checked.now) p.now }
    requires second { PathFits (checked_plan checked.now) q.now }
    ensures possible { IfOk result (λ found. IsSome found ↔
        IsPossiblePair (test_truth (checked_plan checked.now).tests) p.now q.now) }
    ensures path { IfOk result (λ found.
        IfSome found (IsFollowed (checked_plan checked.now) p.now q.now)) }
{
    follow_by(alloc, checked.plan(), p, q)
}

/// The same by a plan alone.
pub(crate) fn follow_by(
    alloc: Global,
    plan: &Plan,
    p: &Path,
    q: &Path,
) -> Result<Option<Path>, NoMemory>
    requires known { IsWellFormed (script_plan plan.now) }
    requires first { PathFits (script_plan plan.now) p.now }
    requires second { PathFits (script_plan plan.now) q.now }
    ensures possible { IfOk result (λ found. IsSome found ↔
        IsPossiblePair (test_truth (script_plan plan.now).tests) p.now q.now) }
    ensures path { IfOk result (λ found.
        IfSome found (IsFollowed (script_plan plan.now) p.now q.now)) }
{
    if !possible_by(plan, p, q) {
        return Ok(None);
    }
    let path = path_of_both(alloc, plan, p, q)?;
    Ok(Some(path))
}

impl Path {
    /// `follow` of a path that is given away: its lists and forms are moved. After an `Err`, and
    /// where the next path can't come after it, it is dropped.
    pub fn followed_by(
        self,
        alloc: Global,
        checked: &Checked,
        next: &Path,
    ) -> Result<Option<Path>, NoMemory>
        requires first { PathFits (checked_plan checked.now) self }
        requires second { PathFits (checked_plan checked.now) next.now }
        ensures possible { IfOk result (λ found. IsSome found ↔
            IsPossiblePair (test_truth (checked_plan checked.now).tests) self next.now) }
        ensures path { IfOk result (λ found.
            IfSome found (IsFollowed (checked_plan checked.now) self next.now)) }
    {
        self.go_on(alloc, checked.plan(), next)
    }

    /// The same by a plan alone.
    fn go_on(self, alloc: Global, plan: &Plan, next: &Path) -> Result<Option<Path>, NoMemory>
        requires known { IsWellFormed (script_plan plan.now) }
        requires first { PathFits (script_plan plan.now) self }
        requires second { PathFits (script_plan plan.now) next.now }
        ensures possible { IfOk result (λ found. IsSome found ↔
            IsPossiblePair (test_truth (script_plan plan.now).tests) self next.now) }
        ensures path { IfOk result (λ found.
            IfSome found (IsFollowed (script_plan plan.now) self next.now)) }
    {
        if !possible_by(plan, &self, next) {
            return Ok(None);
        }
        let path = path_after(alloc, plan, self, next)?;
        Ok(Some(path))
    }
}
