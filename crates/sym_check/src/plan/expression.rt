//! Fixed expressions and lines. Contracts see them as the plain data of `specs/FixedPlans.antt` and
//! `specs/LinePlans.antt`, which leave the boxes out.
ghost use Rattle.std.specs.Prelude.{◌≡◌, IfOk, map};
ghost use Rattle.sym_check.specs.Plan.FixedPlans.{num_plan, fixed_plan};
ghost use Rattle.sym_check.specs.Plan.LinePlans.{line_plan, term_plan};

use std::alloc::Global;
use sym_base::{NoMemory, Sequence, Text};

/// An operator of arithmetic.
#[derive(Clone, Copy, PartialEq, Eq)]
pub enum ArithOp {
    Add,
    Sub,
    Mul,
    /// Rounds towards zero.
    Div,
    /// Has the sign of the left operand.
    Rem,
}

/// A number that no cell takes part in. Fields, locals and parameters stand by their numbers,
/// counted from 0.
#[derive(Drop)]
pub enum Num {
    Lit(i64),
    Field(u16),
    Local(u16),
    Param(u16),
    Neg(Box<Num>),
    Bin(ArithOp, Box<Num>, Box<Num>),
}

/// A word that no cell takes part in.
#[derive(Drop)]
pub enum WordOf {
    Lit(Text),
    Field(u16),
    Local(u16),
    Param(u16),
}

/// A label that no cell takes part in.
#[derive(Clone, Copy, PartialEq, Eq)]
pub enum LabelOf {
    /// The number of the label in its enum, counted from 0.
    Lit(u8),
    Field(u16),
    Local(u16),
    Param(u16),
}

/// A value that no cell takes part in.
#[derive(Drop)]
pub enum Fixed {
    Num(Num),
    Word(WordOf),
    Label(LabelOf),
}

/// A list of such values: the arguments of a test, or what a hold cell keeps.
pub type FixedList = Sequence<Fixed>;

/// A number that is linear in one integer cell.
#[derive(Drop)]
pub enum Line {
    /// The cell with this number, counted from 0.
    Cell(u16),
    Neg(Box<Line>),
    Add(Box<Line>, Num),
    Scale(Num, Box<Line>),
}

/// A number that may be linear in one integer cell.
#[derive(Drop)]
pub enum Term {
    Fixed(Num),
    Line(Line),
}

impl Num {
    /// An equal expression of its own.
    pub fn copy(&self, alloc: Global) -> Result<Num, NoMemory>
        ensures { IfOk result (λ n. num_plan n ≡ num_plan self.now) }
    {
        match self {
            Num::Lit(number) => Ok(Num::Lit(*number)),
            Num::Field(field) => Ok(Num::Field(*field)),
            Num::Local(local) => Ok(Num::Local(*local)),
            Num::Param(param) => Ok(Num::Param(*param)),
            Num::Neg(operand) => {
                let operand = operand.copy(alloc)?;
                Ok(Num::Neg(Box::new(alloc, operand)?))
            }
            Num::Bin(operator, left, right) => {
                let left = Box::new(alloc, left.copy(alloc)?)?;
                let right = right.copy(alloc)?;
                Ok(Num::Bin(*operator, left, Box::new(alloc, right)?))
            }
        }
    }
}

impl WordOf {
    /// An equal expression of its own.
    pub fn copy(&self, alloc: Global) -> Result<WordOf, NoMemory>
        ensures { IfOk result (λ w. w ≡ self.now) }
    {
        match self {
            WordOf::Lit(text) => Ok(WordOf::Lit(text.copy(alloc)?)),
            WordOf::Field(field) => Ok(WordOf::Field(*field)),
            WordOf::Local(local) => Ok(WordOf::Local(*local)),
            WordOf::Param(param) => Ok(WordOf::Param(*param)),
        }
    }
}

impl Fixed {
    /// An equal expression of its own.
    pub fn copy(&self, alloc: Global) -> Result<Fixed, NoMemory>
        ensures { IfOk result (λ f. fixed_plan f ≡ fixed_plan self.now) }
    {
        match self {
            Fixed::Num(number) => Ok(Fixed::Num(number.copy(alloc)?)),
            Fixed::Word(word) => Ok(Fixed::Word(word.copy(alloc)?)),
            Fixed::Label(label) => Ok(Fixed::Label(*label)),
        }
    }
}

/// An equal list of its own.
pub fn copy_fixed_list(alloc: Global, values: &FixedList) -> Result<FixedList, NoMemory>
    ensures { IfOk result (λ v. map fixed_plan v ≡ map fixed_plan values.now) }
{
    let mut copied = Vec::with_capacity(alloc, values.len())?;
    'values: for value in values.as_slice() {
        let value = value.copy(alloc)?;
        copied.push(value)?;
    }
    Ok(Sequence::of(copied))
}

impl Line {
    /// An equal line of its own.
    pub fn copy(&self, alloc: Global) -> Result<Line, NoMemory>
        ensures { IfOk result (λ l. line_plan l ≡ line_plan self.now) }
    {
        match self {
            Line::Cell(cell) => Ok(Line::Cell(*cell)),
            Line::Neg(line) => {
                let line = line.copy(alloc)?;
                Ok(Line::Neg(Box::new(alloc, line)?))
            }
            Line::Add(line, number) => {
                let line = Box::new(alloc, line.copy(alloc)?)?;
                Ok(Line::Add(line, number.copy(alloc)?))
            }
            Line::Scale(number, line) => {
                let number = number.copy(alloc)?;
                let line = line.copy(alloc)?;
                Ok(Line::Scale(number, Box::new(alloc, line)?))
            }
        }
    }
}

impl Term {
    /// An equal term of its own.
    pub fn copy(&self, alloc: Global) -> Result<Term, NoMemory>
        ensures { IfOk result (λ t. term_plan t ≡ term_plan self.now) }
    {
        match self {
            Term::Fixed(number) => Ok(Term::Fixed(number.copy(alloc)?)),
            Term::Line(line) => Ok(Term::Line(line.copy(alloc)?)),
        }
    }
}
