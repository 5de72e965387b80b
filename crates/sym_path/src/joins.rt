//! Which paths can be joined, and the paths that they become.
ghost use Rattle.std.specs.Prelude.{◌≡◌, ◌≤◌, ◌<◌, ◌-◌, ◌↔◌, ℕ, ℤ, IfOk, IsTrue, MatchOption, length};
ghost use Rattle.std.specs.List.{AllZip};
ghost use Rattle.sym_int.specs.Points.{IsUnion};
ghost use Rattle.sym_int.specs.declared.span.Span.{Span as OneSpan};
ghost use Rattle.sym_pred.specs.Meaning.{Unite};
ghost use Rattle.sym_path.specs.Joining.{PartsUnite, ConstraintsUnite, EndsAgree, Joinable};
ghost use Rattle.sym_path.specs.Joins.{AddAsMany, AddedIsTaken, AreUnited, AreUnitedFacts, EndIsTakenTo, IsDifference, IsJoin, IsJoinedEnd, IsUnitedPart, added_count};
ghost use Rattle.sym_path.specs.Taking.{HasOneLabel, HasOneNumber, LabelIsTakenTo, NumberIsTakenTo, IsTakenTo, AreTakenTo};

use crate::form::Form;
use crate::part::{Constraint, Part};
use crate::path::{Path, PathEnd};
use std::alloc::Global;
use sym_base::{Fault, NoMemory, Text};
use sym_enum::EnumForm;
use sym_int::{IntForm, Number, Span};
use sym_pred::{Facts, HoldForm};
use sym_vector::ListForm;

/// The only label that the constraint leaves the enum cell with this number; `None` where there is
/// none.
fn only_label(when: &Constraint, cell: u16) -> Option<u8>
    ensures { MatchOption result ((l : ℕ) → HasOneLabel when.now cell l → ⊥)
        (λ l. HasOneLabel when.now cell l) }
{
    match when.get(usize::from(cell)) {
        Some(Part::Set(set)) => set.only(),
        Some(Part::Span(_)) => None,
        Some(Part::Facts(_)) => None,
        Some(Part::Free) => None,
        None => None,
    }
}

/// The only number that the constraint leaves the integer cell with this number; `None` where there
/// is none.
fn only_number(when: &Constraint, cell: u16) -> Option<i64>
    ensures { MatchOption result ((x : ℤ) → HasOneNumber when.now cell x → ⊥)
        (λ x. HasOneNumber when.now cell x) }
{
    match when.get(usize::from(cell)) {
        Some(Part::Set(_)) => None,
        Some(Part::Span(span)) => span.only(),
        Some(Part::Facts(_)) => None,
        Some(Part::Free) => None,
        None => None,
    }
}

/// Whether the second label form is the first one on the constraint.
fn label_is_taken(when: &Constraint, form: &EnumForm, other: &EnumForm) -> bool
    ensures { IsTrue result ↔ LabelIsTakenTo when.now form.now other.now }
{
    match form {
        EnumForm::Const(_) => other == form,
        EnumForm::Copy(cell) => match only_label(when, *cell) {
            Some(label) => *other == EnumForm::Const(label),
            None => other == form,
        },
    }
}

fn is_number(number: &Number, x: i128) -> bool
    ensures { IsTrue result ↔ (number.now.value ≡ x) }
{
    i128::from(number.value) == x
}

/// Whether the second integer form is the first one on the constraint.
fn number_is_taken(when: &Constraint, form: &IntForm, other: &IntForm) -> bool
    ensures { IsTrue result ↔ NumberIsTakenTo when.now form.now other.now }
{
    match form {
        IntForm::Const(_) => other == form,
        IntForm::Line(line) => match only_number(when, line.cell) {
            Some(x) => match other {
                IntForm::Const(number) => is_number(number, line.at(x)),
                IntForm::Line(_) => false,
            },
            None => other == form,
        },
    }
}

/// Whether the added number at `index` of the second list is that of the first one on the
/// constraint.
fn added_is_taken(
    when: &Constraint,
    form: &ListForm<IntForm>,
    other: &ListForm<IntForm>,
    index: usize,
) -> bool
    ensures { IsTrue result ↔ AddedIsTaken when.now form.now other.now index }
{
    match form.at(index) {
        Some(one) => match other.at(index) {
            Some(taken) => number_is_taken(when, one, taken),
            None => true,
        },
        None => true,
    }
}

/// Whether this is so of the added numbers at `index` and, counted from the end, at `index`.
fn both_are_taken(
    when: &Constraint,
    form: &ListForm<IntForm>,
    other: &ListForm<IntForm>,
    index: usize,
) -> bool
    requires { index < length form.now }
    ensures { IsTrue result ↔ (AddedIsTaken when.now form.now other.now index
        × AddedIsTaken when.now form.now other.now (length form.now - 1 - index)) }
{
    added_is_taken(when, form, other, index)
        && added_is_taken(when, form, other, form.len() - 1 - index)
}

/// Whether the added numbers of the second list are those of the first one on the constraint. They
/// are compared from both ends: where two runs of one group differ, it is mostly near one of them.
fn numbers_are_taken(when: &Constraint, form: &ListForm<IntForm>, other: &ListForm<IntForm>) -> bool
    ensures { IsTrue result ↔ AllZip (NumberIsTakenTo when.now) form.now other.now }
{
    if form.len() != other.len() {
        return false;
    }
    'added: for index in 0..form.len() - form.len() / 2 {
        if !both_are_taken(when, form, other, index) {
            return false;
        }
    }
    true
}

fn same_parts(form: &HoldForm, other: &HoldForm) -> bool
    ensures { IsTrue result ↔ (other.now ≡ form.now) }
{
    other == form
}

fn same_words(form: &ListForm<Text>, other: &ListForm<Text>) -> bool
    ensures { IsTrue result ↔ (other.now ≡ form.now) }
{
    other == form
}

/// Whether the second form is the first one on the constraint.
fn is_taken(when: &Constraint, form: &Form, other: &Form) -> bool
    ensures { IsTrue result ↔ IsTakenTo when.now form.now other.now }
{
    match (form, other) {
        (Form::Enum(form), Form::Enum(other)) => label_is_taken(when, form, other),
        (Form::Int(form), Form::Int(other)) => number_is_taken(when, form, other),
        (Form::Hold(form), Form::Hold(other)) => same_parts(form, other),
        (Form::Nums(form), Form::Nums(other)) => numbers_are_taken(when, form, other),
        (Form::Words(form), Form::Words(other)) => same_words(form, other),
        _ => false,
    }
}

/// Whether the second form is the first one on the constraint, unless both are lists.
fn may_be_taken(when: &Constraint, form: &Form, other: &Form) -> bool
    ensures { IsTakenTo when.now form.now other.now → IsTrue result }
{
    match (form, other) {
        (Form::Nums(_), Form::Nums(_)) => true,
        (Form::Words(_), Form::Words(_)) => true,
        _ => is_taken(when, form, other),
    }
}

/// Whether the second forms are the first ones on the constraint, but for lists, which may be long.
fn may_all_be_taken(when: &Constraint, forms: &[Form], others: &[Form]) -> bool
    requires { length forms.now ≡ length others.now }
    ensures { AreTakenTo when.now forms.now others.now → IsTrue result }
{
    'cells: for index in 0..forms.len() {
        if !may_be_taken(when, &forms[index], &others[index]) {
            return false;
        }
    }
    true
}

/// Whether the second forms are the first ones on the constraint. Lists are looked at last.
pub(crate) fn are_taken(when: &Constraint, forms: &[Form], others: &[Form]) -> bool
    ensures { IsTrue result ↔ AreTakenTo when.now forms.now others.now }
{
    if forms.len() != others.len() || !may_all_be_taken(when, forms, others) {
        return false;
    }
    'cells: for index in 0..forms.len() {
        if !is_taken(when, &forms[index], &others[index]) {
            return false;
        }
    }
    true
}

fn same_fault(fault: &Fault, other: &Fault) -> bool
    ensures { IsTrue result ↔ (fault.now ≡ other.now) }
{
    fault == other
}

/// Whether the second end is the first one on the constraint: the same fault, or its forms. It
/// takes no memory.
pub(crate) fn end_is_taken(when: &Constraint, end: &PathEnd, other: &PathEnd) -> bool
    ensures { IsTrue result ↔ EndIsTakenTo when.now end.now other.now }
{
    match (end, other) {
        (PathEnd::Next(forms), PathEnd::Next(others)) => {
            are_taken(when, forms.as_slice(), others.as_slice())
        }
        (PathEnd::Ended(fault), PathEnd::Ended(other)) => same_fault(fault, other),
        _ => false,
    }
}

/// Whether the ends are the same fault, or the forms of one path, taken on the other's constraint,
/// are the other's forms.
fn ends_agree(p: &Path, q: &Path) -> bool
    ensures { IsTrue result ↔ EndsAgree p.now q.now }
{
    end_is_taken(&q.when, &p.end, &q.end) || end_is_taken(&p.when, &q.end, &p.end)
}

/// Whether two parts unite.
fn parts_unite(first: &Part, second: &Part) -> bool
    ensures { IsTrue result ↔ PartsUnite first.now second.now }
{
    match (first, second) {
        (Part::Set(_), Part::Set(_)) => true,
        (Part::Span(left), Part::Span(right)) => left.unite(right).is_some(),
        (Part::Facts(left), Part::Facts(right)) => left.unites(right),
        (Part::Free, Part::Free) => true,
        _ => false,
    }
}

pub(crate) fn same_part(first: &Part, second: &Part) -> bool
    ensures { IsTrue result ↔ (first.now ≡ second.now) }
{
    first == second
}

/// The first cell, from this one on, in which two constraints differ; their length where there is
/// none.
pub(crate) fn difference(v: &[Part], w: &[Part], from: usize) -> usize
    requires lengths { length v.now ≡ length w.now }
    requires within { from ≤ length v.now }
    ensures { IsDifference v.now w.now from result }
{
    'cells: for index in from..v.len() {
        if !same_part(&v[index], &w[index]) {
            return index;
        }
    }
    v.len()
}

/// Whether two constraints are equal, or equal but for one cell whose parts unite.
fn constraints_unite(v: &[Part], w: &[Part]) -> bool
    ensures { IsTrue result ↔ ConstraintsUnite v.now w.now }
{
    if v.len() != w.len() {
        return false;
    }
    let cell = difference(v, w, 0);
    if cell == v.len() {
        return true;
    }
    if difference(v, w, cell + 1) != v.len() {
        return false;
    }
    parts_unite(&v[cell], &w[cell])
}

/// How many elements a list form adds; none where it isn't one.
fn added_count(form: &Form) -> usize
    ensures { result ≡ added_count form.now }
{
    match form {
        Form::Nums(added) => added.len(),
        Form::Words(added) => added.len(),
        Form::Enum(_) | Form::Int(_) | Form::Hold(_) => 0,
    }
}

/// Whether the forms add as many elements to each list as the others.
fn add_as_many(forms: &[Form], others: &[Form]) -> bool
    ensures { AddAsMany forms.now others.now → IsTrue result }
{
    if forms.len() != others.len() {
        return false;
    }
    'cells: for index in 0..forms.len() {
        if added_count(&forms[index]) != added_count(&others[index]) {
            return false;
        }
    }
    true
}

/// Whether the ends are the same fault, or both go on with lists of one length. Ends that agree are
/// so, and most that don't aren't.
fn ends_are_alike(p: &Path, q: &Path) -> bool
    ensures { EndsAgree p.now q.now → IsTrue result }
{
    match (&p.end, &q.end) {
        (PathEnd::Next(forms), PathEnd::Next(others)) => {
            add_as_many(forms.as_slice(), others.as_slice())
        }
        (PathEnd::Ended(fault), PathEnd::Ended(other)) => same_fault(fault, other),
        _ => false,
    }
}

/// Whether the two paths can be joined: their constraints are equal in all cells or in all but one,
/// in which the parts unite; and their ends are the same fault, or the forms of one path, taken on
/// the other's constraint, are the other's forms. It takes no memory.
pub fn joinable(p: &Path, q: &Path) -> bool
    ensures { IsTrue result ↔ Joinable p.now q.now }
{
    ends_are_alike(p, q)
        && constraints_unite(p.when.as_slice(), q.when.as_slice())
        && ends_agree(p, q)
}

fn united_span(left: &Span, right: &Span) -> Span
    requires { (union : OneSpan) × IsUnion union left.now right.now }
    ensures { IsUnion result left.now right.now }
{
    match left.unite(right) {
        Some(span) => span,
        None => unreachable!(),
    }
}

/// The facts of two that unite. It takes no memory.
fn united_facts(left: Facts, right: &Facts) -> Facts
    requires { Unite left right.now }
    ensures { AreUnitedFacts left right.now result }
{
    match left.united_with(right) {
        Some(facts) => facts,
        None => unreachable!(),
    }
}

/// The union of two parts that unite. It takes no memory.
fn united_part(first: Part, second: &Part) -> Part
    requires { PartsUnite first second.now }
    ensures { IsUnitedPart first second.now result }
{
    match (first, second) {
        (Part::Set(left), Part::Set(right)) => Part::Set(left.unite(right)),
        (Part::Span(left), Part::Span(right)) => Part::Span(united_span(&left, right)),
        (Part::Facts(left), Part::Facts(right)) => Part::Facts(united_facts(left, right)),
        (Part::Free, Part::Free) => Part::Free,
        _ => unreachable!(),
    }
}

/// The union of a constraint and another one, with which it unites. The part in which they differ
/// is taken out, united and put back, which takes no memory.
fn united(v: Constraint, w: &[Part]) -> Constraint
    requires { ConstraintsUnite v w.now }
    ensures { AreUnited v w.now result }
{
    let mut when = v;
    let cell = difference(when.as_slice(), w, 0);
    match when.replace(cell, Part::Free) {
        Some(part) => {
            when.set(cell, united_part(part, &w[cell]));
            when
        }
        None => when,
    }
}

/// The end of the path that two joinable paths become.
fn joined_end(alloc: Global, p: &Path, q: &Path) -> Result<PathEnd, NoMemory>
    requires { Joinable p.now q.now }
    ensures { IfOk result (IsJoinedEnd p.now q.now) }
{
    if end_is_taken(&q.when, &p.end, &q.end) {
        p.end.copy(alloc)
    } else {
        q.end.copy(alloc)
    }
}

/// The path that two joinable paths become: it admits the states that either admits, and gives
/// there what they give.
pub fn join_paths(alloc: Global, p: &Path, q: &Path) -> Result<Path, NoMemory>
    requires { Joinable p.now q.now }
    ensures { IfOk result (IsJoin p.now q.now) }
{
    let when = united(p.when.copy(alloc)?, q.when.as_slice());
    let end = joined_end(alloc, p, q)?;
    Ok(Path { when, end })
}

impl Path {
    /// `join_paths` of paths that are given away: what they have is moved. It takes no memory.
    pub fn join(self, other: Path) -> Path
        requires { Joinable self other }
        ensures { IsJoin self other result }
    {
        let first = end_is_taken(&other.when, &self.end, &other.end);
        let Path { when, end } = self;
        let when = united(when, other.when.as_slice());
        if first {
            Path { when, end }
        } else {
            Path {
                when,
                end: other.end,
            }
        }
    }
}
