//! What operators make of their operands.
ghost use Rattle.std.specs.Prelude.{◌≡◌, IfOk};
ghost use Rattle.sym_check.specs.Plan.CondPlans.{cond_plan};
ghost use Rattle.sym_check.specs.Plan.CondPlans as plan;
ghost use Rattle.sym_check.specs.Elaborate.Expressions.{negated, inverted, both, opposite, added, subtracted, multiplied, quotient_of, compared, arithmetic, ordered, equal, different, labels_joined, joined};
ghost use Rattle.sym_check.specs.Plan.FixedPlans.{num_plan};
ghost use Rattle.sym_check.specs.Plan.FixedPlans as fixed;
ghost use Rattle.sym_check.specs.Plan.LinePlans.{line_plan, term_plan};
ghost use Rattle.sym_check.specs.Plan.LinePlans as lines;
ghost use Rattle.sym_check.specs.Rules.Operators.{rule_of, words_joined, truth_plan};
ghost use Rattle.sym_check.specs.Checking.TypedPlans.{typed_plan, Answers};
ghost use Rattle.sym_check.specs.Rules.Typing.{turned};
ghost use Rattle.sym_check.specs.Rules.Typing as typing;

use crate::elaborate::error::CheckErr;
use crate::elaborate::typed::Typed;
use crate::plan::condition::Cond;
use crate::plan::expression::{ArithOp, LabelOf, Line, Num, Term, WordOf};
use std::alloc::Global;
use sym_base::{BinOp, Compare, NoMemory};

fn negative_number(alloc: Global, number: Num) -> Result<Num, NoMemory>
    ensures { IfOk result (λ n. num_plan n ≡ fixed.Neg (num_plan number)) }
{
    Ok(Num::Neg(Box::new(alloc, number)?))
}

fn calculation(alloc: Global, operator: ArithOp, left: Num, right: Num) -> Result<Num, NoMemory>
    ensures { IfOk result (λ n. num_plan n ≡ fixed.Bin operator (num_plan left) (num_plan right)) }
{
    let left = Box::new(alloc, left)?;
    Ok(Num::Bin(operator, left, Box::new(alloc, right)?))
}

fn negative_line(alloc: Global, line: Line) -> Result<Line, NoMemory>
    ensures { IfOk result (λ k. line_plan k ≡ lines.Neg (line_plan line)) }
{
    Ok(Line::Neg(Box::new(alloc, line)?))
}

fn raised(alloc: Global, line: Line, by: Num) -> Result<Line, NoMemory>
    ensures { IfOk result (λ k. line_plan k ≡ lines.Add (line_plan line) (num_plan by)) }
{
    Ok(Line::Add(Box::new(alloc, line)?, by))
}

fn scaled(alloc: Global, by: Num, line: Line) -> Result<Line, NoMemory>
    ensures { IfOk result (λ k. line_plan k ≡ lines.Scale (num_plan by) (line_plan line)) }
{
    Ok(Line::Scale(by, Box::new(alloc, line)?))
}

fn negation(alloc: Global, condition: Cond) -> Result<Cond, NoMemory>
    ensures { IfOk result (λ c. cond_plan c ≡ plan.Not (cond_plan condition)) }
{
    Ok(Cond::Not(Box::new(alloc, condition)?))
}

fn conjunction(alloc: Global, left: Cond, right: Cond) -> Result<Cond, NoMemory>
    ensures { IfOk result (λ c. cond_plan c ≡ plan.And (cond_plan left) (cond_plan right)) }
{
    let left = Box::new(alloc, left)?;
    Ok(Cond::And(left, Box::new(alloc, right)?))
}

fn disjunction(alloc: Global, left: Cond, right: Cond) -> Result<Cond, NoMemory>
    ensures { IfOk result (λ c. cond_plan c ≡ plan.Or (cond_plan left) (cond_plan right)) }
{
    let left = Box::new(alloc, left)?;
    Ok(Cond::Or(left, Box::new(alloc, right)?))
}

fn opposite(alloc: Global, term: Term) -> Result<Term, NoMemory>
    ensures { IfOk result (λ t. term_plan t ≡ opposite (term_plan term)) }
{
    match term {
        Term::Fixed(number) => Ok(Term::Fixed(negative_number(alloc, number)?)),
        Term::Line(line) => Ok(Term::Line(negative_line(alloc, line)?)),
    }
}

fn added(alloc: Global, at: u32, left: Term, right: Term) -> Result<Term, CheckErr>
    ensures { Answers term_plan (added at (term_plan left) (term_plan right)) result }
{
    match (left, right) {
        (Term::Fixed(left), Term::Fixed(right)) => Ok(Term::Fixed(calculation(
            alloc,
            ArithOp::Add,
            left,
            right,
        )?)),
        (Term::Fixed(by), Term::Line(line)) | (Term::Line(line), Term::Fixed(by)) => {
            Ok(Term::Line(raised(alloc, line, by)?))
        }
        (Term::Line(_), Term::Line(_)) => Err(CheckErr::NotLinear { at }),
    }
}

fn subtracted(alloc: Global, at: u32, left: Term, right: Term) -> Result<Term, CheckErr>
    ensures { Answers term_plan (subtracted at (term_plan left) (term_plan right)) result }
{
    match (left, right) {
        (Term::Fixed(left), Term::Fixed(right)) => Ok(Term::Fixed(calculation(
            alloc,
            ArithOp::Sub,
            left,
            right,
        )?)),
        (Term::Fixed(from), Term::Line(line)) => {
            let line = negative_line(alloc, line)?;
            Ok(Term::Line(raised(alloc, line, from)?))
        }
        (Term::Line(line), Term::Fixed(by)) => {
            let by = negative_number(alloc, by)?;
            Ok(Term::Line(raised(alloc, line, by)?))
        }
        (Term::Line(_), Term::Line(_)) => Err(CheckErr::NotLinear { at }),
    }
}

fn multiplied(alloc: Global, at: u32, left: Term, right: Term) -> Result<Term, CheckErr>
    ensures { Answers term_plan (multiplied at (term_plan left) (term_plan right)) result }
{
    match (left, right) {
        (Term::Fixed(left), Term::Fixed(right)) => Ok(Term::Fixed(calculation(
            alloc,
            ArithOp::Mul,
            left,
            right,
        )?)),
        (Term::Fixed(by), Term::Line(line)) | (Term::Line(line), Term::Fixed(by)) => {
            Ok(Term::Line(scaled(alloc, by, line)?))
        }
        (Term::Line(_), Term::Line(_)) => Err(CheckErr::NotLinear { at }),
    }
}

fn quotient_of(
    alloc: Global,
    operator: ArithOp,
    at: u32,
    left: Term,
    right: Term,
) -> Result<Term, CheckErr>
    ensures { Answers term_plan
        (quotient_of operator at (term_plan left) (term_plan right)) result }
{
    match (left, right) {
        (Term::Fixed(left), Term::Fixed(right)) => {
            Ok(Term::Fixed(calculation(alloc, operator, left, right)?))
        }
        (Term::Fixed(_), Term::Line(_))
        | (Term::Line(_), Term::Fixed(_))
        | (Term::Line(_), Term::Line(_)) => Err(CheckErr::NotLinear { at }),
    }
}

fn turned(compare: Compare) -> Compare
    ensures { result ≡ turned compare }
{
    match compare {
        Compare::Eq => Compare::Eq,
        Compare::Ne => Compare::Ne,
        Compare::Lt => Compare::Gt,
        Compare::Le => Compare::Ge,
        Compare::Gt => Compare::Lt,
        Compare::Ge => Compare::Le,
    }
}

fn compared(compare: Compare, at: u32, left: Term, right: Term) -> Result<Cond, CheckErr>
    ensures { Answers cond_plan (compared compare at (term_plan left) (term_plan right)) result }
{
    match (left, right) {
        (Term::Fixed(left), Term::Fixed(right)) => {
            Ok(Cond::Compare(compare, Term::Fixed(left), right))
        }
        (Term::Fixed(number), Term::Line(line)) => {
            Ok(Cond::Compare(turned(compare), Term::Line(line), number))
        }
        (Term::Line(line), Term::Fixed(number)) => {
            Ok(Cond::Compare(compare, Term::Line(line), number))
        }
        (Term::Line(_), Term::Line(_)) => Err(CheckErr::NotLinear { at }),
    }
}

fn calculated(
    alloc: Global,
    operator: ArithOp,
    at: u32,
    left: Term,
    right: Term,
) -> Result<Term, CheckErr>
    ensures { Answers term_plan (rule_of operator at (term_plan left) (term_plan right)) result }
{
    match operator {
        ArithOp::Add => added(alloc, at, left, right),
        ArithOp::Sub => subtracted(alloc, at, left, right),
        ArithOp::Mul => multiplied(alloc, at, left, right),
        ArithOp::Div | ArithOp::Rem => quotient_of(alloc, operator, at, left, right),
    }
}

fn arithmetic(
    alloc: Global,
    operator: ArithOp,
    at: u32,
    left: Typed,
    right: Typed,
) -> Result<Typed, CheckErr>
    ensures { Answers typed_plan
        (arithmetic (rule_of operator) at (typed_plan left) (typed_plan right)) result }
{
    let left = left.term(at)?;
    let right = right.term(at)?;
    Ok(Typed::Number(calculated(alloc, operator, at, left, right)?))
}

fn ordered(compare: Compare, at: u32, left: Typed, right: Typed) -> Result<Typed, CheckErr>
    ensures { Answers typed_plan (ordered compare at (typed_plan left) (typed_plan right)) result }
{
    let left = left.term(at)?;
    let right = right.term(at)?;
    Ok(Typed::Truth(compared(compare, at, left, right)?))
}

fn both(alloc: Global, at: u32, left: Typed, right: Typed) -> Result<Typed, CheckErr>
    ensures { Answers typed_plan (both plan.And at (typed_plan left) (typed_plan right)) result }
{
    let left = left.condition(at)?;
    let right = right.condition(at)?;
    Ok(Typed::Truth(conjunction(alloc, left, right)?))
}

fn either(alloc: Global, at: u32, left: Typed, right: Typed) -> Result<Typed, CheckErr>
    ensures { Answers typed_plan (both plan.Or at (typed_plan left) (typed_plan right)) result }
{
    let left = left.condition(at)?;
    let right = right.condition(at)?;
    Ok(Typed::Truth(disjunction(alloc, left, right)?))
}

fn equal(at: u32, left: Typed, right: Typed) -> Result<Typed, CheckErr>
    ensures { Answers typed_plan (equal at (typed_plan left) (typed_plan right)) result }
{
    match left {
        Typed::Word(left) => Ok(Typed::Truth(same_words(at, left, right)?)),
        Typed::Number(left) => {
            let right = right.term(at)?;
            Ok(Typed::Truth(compared(Compare::Eq, at, left, right)?))
        }
        Typed::Label(..) | Typed::EnumCell(..) | Typed::HoldCell(..) | Typed::Truth(_) => {
            Err(CheckErr::Kind { at })
        }
    }
}

fn different(alloc: Global, at: u32, left: Typed, right: Typed) -> Result<Typed, CheckErr>
    ensures { Answers typed_plan (different at (typed_plan left) (typed_plan right)) result }
{
    match left {
        Typed::Word(left) => {
            let same = same_words(at, left, right)?;
            Ok(Typed::Truth(negation(alloc, same)?))
        }
        Typed::Number(left) => {
            let right = right.term(at)?;
            Ok(Typed::Truth(compared(Compare::Ne, at, left, right)?))
        }
        Typed::Label(..) | Typed::EnumCell(..) | Typed::HoldCell(..) | Typed::Truth(_) => {
            Err(CheckErr::Kind { at })
        }
    }
}

fn same_words(at: u32, left: WordOf, right: Typed) -> Result<Cond, CheckErr>
    ensures { Answers cond_plan (words_joined at left (typed_plan right)) result }
{
    match right {
        Typed::Word(right) => Ok(Cond::Words(left, right)),
        Typed::Number(_)
        | Typed::Label(..)
        | Typed::EnumCell(..)
        | Typed::HoldCell(..)
        | Typed::Truth(_) => Err(CheckErr::Kind { at }),
    }
}

fn label_is(at: u32, of: u16, left: LabelOf, right: &Typed) -> Result<Cond, CheckErr>
    ensures { Answers truth_plan
        (labels_joined at (typing.Label of left) (typed_plan right.now)) result }
{
    match right {
        Typed::Label(other, right) if of == *other => Ok(Cond::LabelIs(left, *right)),
        Typed::Label(..)
        | Typed::Number(_)
        | Typed::Word(_)
        | Typed::EnumCell(..)
        | Typed::HoldCell(..)
        | Typed::Truth(_) => Err(CheckErr::Kind { at }),
    }
}

fn cell_is(at: u32, cell: u16, of: u16, right: &Typed) -> Result<Cond, CheckErr>
    ensures { Answers truth_plan
        (labels_joined at (typing.EnumCell cell of) (typed_plan right.now)) result }
{
    match right {
        Typed::Label(other, label) if of == *other => Ok(Cond::CellIs(cell, *label)),
        Typed::Label(..)
        | Typed::Number(_)
        | Typed::Word(_)
        | Typed::EnumCell(..)
        | Typed::HoldCell(..)
        | Typed::Truth(_) => Err(CheckErr::Kind { at }),
    }
}

fn labels_joined(at: u32, left: &Typed, right: &Typed) -> Result<Typed, CheckErr>
    ensures { Answers typed_plan
        (labels_joined at (typed_plan left.now) (typed_plan right.now)) result }
{
    match left {
        Typed::Label(of, label) => Ok(Typed::Truth(label_is(at, *of, *label, right)?)),
        Typed::EnumCell(cell, of) => Ok(Typed::Truth(cell_is(at, *cell, *of, right)?)),
        Typed::Number(_) | Typed::Word(_) | Typed::HoldCell(..) | Typed::Truth(_) => {
            Err(CheckErr::Kind { at })
        }
    }
}

/// What unary `-` makes of its operand.
pub(crate) fn negated(alloc: Global, at: u32, operand: Typed) -> Result<Typed, CheckErr>
    ensures { Answers typed_plan (negated at (typed_plan operand)) result }
{
    let term = operand.term(at)?;
    Ok(Typed::Number(opposite(alloc, term)?))
}

/// What `not` makes of its operand.
pub(crate) fn inverted(alloc: Global, at: u32, operand: Typed) -> Result<Typed, CheckErr>
    ensures { Answers typed_plan (inverted at (typed_plan operand)) result }
{
    let condition = operand.condition(at)?;
    Ok(Typed::Truth(negation(alloc, condition)?))
}

/// What an operator makes of its operands.
pub(crate) fn joined(
    alloc: Global,
    operator: BinOp,
    at: u32,
    left: Typed,
    right: Typed,
) -> Result<Typed, CheckErr>
    ensures { Answers typed_plan (joined operator at (typed_plan left) (typed_plan right)) result }
{
    match operator {
        BinOp::Or => either(alloc, at, left, right),
        BinOp::And => both(alloc, at, left, right),
        BinOp::Eq => equal(at, left, right),
        BinOp::Ne => different(alloc, at, left, right),
        BinOp::Lt => ordered(Compare::Lt, at, left, right),
        BinOp::Le => ordered(Compare::Le, at, left, right),
        BinOp::Gt => ordered(Compare::Gt, at, left, right),
        BinOp::Ge => ordered(Compare::Ge, at, left, right),
        BinOp::Is => labels_joined(at, &left, &right),
        BinOp::Add => arithmetic(alloc, ArithOp::Add, at, left, right),
        BinOp::Sub => arithmetic(alloc, ArithOp::Sub, at, left, right),
        BinOp::Mul => arithmetic(alloc, ArithOp::Mul, at, left, right),
        BinOp::Div => arithmetic(alloc, ArithOp::Div, at, left, right),
        BinOp::Rem => arithmetic(alloc, ArithOp::Rem, at, left, right),
    }
}
