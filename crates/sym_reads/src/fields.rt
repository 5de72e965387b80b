//! The fields that the update of a script reads, by one walk over its plan.
ghost use Rattle.std.specs.Prelude.{◌≡◌, ◌↔◌, [], ◌∷◌, ℕ, true, IfOk, Some, length, map, slice_get};
ghost use Rattle.sym_check.specs.Checking.CheckedScripts.{checked_plan};
ghost use Rattle.sym_check.specs.Plan.FixedPlans.{num_plan, fixed_plan};
ghost use Rattle.sym_check.specs.Plan.LinePlans.{line_plan, term_plan};
ghost use Rattle.sym_check.specs.Plan.CondPlans.{cond_plan};
ghost use Rattle.sym_check.specs.Plan.DoPlans.{do_plan, dos_plan};
ghost use Rattle.sym_reads.specs.NamedFields.{with_marks, num_fields, word_fields, label_fields, fixed_fields, fields_of_all, line_fields, term_fields, cond_fields, do_fields, dos_fields};
ghost use Rattle.sym_reads.specs.Naming.{NamesField};

use std::alloc::Global;
use sym_base::{NoMemory, Sequence};
use sym_check::{Checked, Cond, Do, Dos, Fixed, FixedList, LabelOf, Line, Num, Term, WordOf};

// A mark for each field.
type Marks = Sequence<bool>;

fn mark(reads: &mut Marks, field: u16)
    ensures { reads.new ≡ with_marks (field ∷ []) reads.old }
{
    reads.set(usize::from(field), true);
}

#[tactic(auto, using(crate::proofs::MarksAppended::marks_append))]
fn mark_num(reads: &mut Marks, number: &Num)
    ensures { reads.new ≡ with_marks (num_fields (num_plan number.now)) reads.old }
{
    match number {
        Num::Field(field) => mark(reads, *field),
        Num::Lit(_) | Num::Local(_) | Num::Param(_) => {}
        Num::Neg(operand) => mark_num(reads, operand),
        Num::Bin(_, left, right) => {
            mark_num(reads, left);
            mark_num(reads, right);
        }
    }
}

fn mark_word(reads: &mut Marks, word: &WordOf)
    ensures { reads.new ≡ with_marks (word_fields word.now) reads.old }
{
    match word {
        WordOf::Field(field) => mark(reads, *field),
        WordOf::Lit(_) | WordOf::Local(_) | WordOf::Param(_) => {}
    }
}

fn mark_label(reads: &mut Marks, label: LabelOf)
    ensures { reads.new ≡ with_marks (label_fields label) reads.old }
{
    match label {
        LabelOf::Field(field) => mark(reads, field),
        LabelOf::Lit(_) | LabelOf::Local(_) | LabelOf::Param(_) => {}
    }
}

fn mark_fixed(reads: &mut Marks, value: &Fixed)
    ensures { reads.new ≡ with_marks (fixed_fields (fixed_plan value.now)) reads.old }
{
    match value {
        Fixed::Num(number) => mark_num(reads, number),
        Fixed::Word(word) => mark_word(reads, word),
        Fixed::Label(label) => mark_label(reads, *label),
    }
}

fn mark_all(reads: &mut Marks, values: &FixedList)
    ensures { reads.new ≡ with_marks (fields_of_all (map fixed_plan values.now)) reads.old }
{
    'values: for value in values.as_slice() {
        mark_fixed(reads, value);
    }
}

#[tactic(auto, using(crate::proofs::MarksAppended::marks_append))]
fn mark_line(reads: &mut Marks, line: &Line)
    ensures { reads.new ≡ with_marks (line_fields (line_plan line.now)) reads.old }
{
    match line {
        Line::Cell(_) => {}
        Line::Neg(line) => mark_line(reads, line),
        Line::Add(line, number) => {
            mark_line(reads, line);
            mark_num(reads, number);
        }
        Line::Scale(number, line) => {
            mark_num(reads, number);
            mark_line(reads, line);
        }
    }
}

fn mark_term(reads: &mut Marks, term: &Term)
    ensures { reads.new ≡ with_marks (term_fields (term_plan term.now)) reads.old }
{
    match term {
        Term::Fixed(number) => mark_num(reads, number),
        Term::Line(line) => mark_line(reads, line),
    }
}

#[tactic(auto, using(crate::proofs::MarksAppended::marks_append))]
fn mark_cond(reads: &mut Marks, condition: &Cond)
    ensures { reads.new ≡ with_marks (cond_fields (cond_plan condition.now)) reads.old }
{
    match condition {
        Cond::Compare(_, term, number) => {
            mark_term(reads, term);
            mark_num(reads, number);
        }
        Cond::Words(left, right) => {
            mark_word(reads, left);
            mark_word(reads, right);
        }
        Cond::CellIs(_, label) => mark_label(reads, *label),
        Cond::LabelIs(left, right) => {
            mark_label(reads, *left);
            mark_label(reads, *right);
        }
        Cond::Test { args, .. } => mark_all(reads, args),
        Cond::Not(condition) => mark_cond(reads, condition),
        Cond::And(left, right) | Cond::Or(left, right) => {
            mark_cond(reads, left);
            mark_cond(reads, right);
        }
    }
}

#[cycle(reading)]
#[tactic(auto, using(crate::proofs::MarksAppended::marks_append))]
fn mark_do(reads: &mut Marks, statement: &Do)
    ensures { reads.new ≡ with_marks (do_fields (do_plan statement.now)) reads.old }
{
    match statement {
        Do::Let(_, value) => mark_fixed(reads, value),
        Do::SetInt(_, term) | Do::PushNum(_, term) => mark_term(reads, term),
        Do::SetEnum(_, label) => mark_label(reads, *label),
        Do::CopyEnum(..) | Do::KeepFrom(..) => {}
        Do::Keep(_, values) => mark_all(reads, values),
        Do::PushWord(_, word) => mark_word(reads, word),
        Do::If(condition, then, otherwise) => {
            mark_cond(reads, condition);
            mark_dos(reads, then);
            mark_dos(reads, otherwise);
        }
    }
}

#[cycle(reading)]
#[tactic(auto, using(crate::proofs::MarksAppended::marks_append))]
fn mark_dos(reads: &mut Marks, statements: &Dos)
    ensures { reads.new ≡ with_marks (dos_fields (dos_plan statements.now)) reads.old }
{
    match statements {
        Dos::End => {}
        Dos::More(first, rest) => {
            mark_do(reads, first);
            mark_dos(reads, rest);
        }
    }
}

/// For each field of the script, in order of declaration, whether the update names it. It is found
/// by one walk over the update.
pub fn read_fields(alloc: Global, checked: &Checked) -> Result<Vec<bool>, NoMemory>
    ensures len { IfOk result (λ reads.
        length reads.items ≡ length (checked_plan checked.now).fields) }
    ensures names { IfOk result (λ reads. (i : ℕ) →
        (slice_get reads.items i ≡ Some true) ↔ NamesField (checked_plan checked.now) i) }
{
    let plan = checked.plan();
    let mut reads = Sequence::of(vec![in alloc; false; plan.fields.len()]?);
    mark_dos(&mut reads, &plan.update);
    Ok(reads.into_vec())
}
