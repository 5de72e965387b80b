//! What an expression stands for.
ghost use Rattle.std.specs.Prelude.{◌≡◌};
ghost use Rattle.sym_check.specs.Plan.CondPlans.{cond_plan};
ghost use Rattle.sym_check.specs.Elaborate.Expressions.{no_cell, left_of, first_of, condition, term_of};
ghost use Rattle.sym_check.specs.Plan.LinePlans.{term_plan};
ghost use Rattle.sym_check.specs.Checking.TypedPlans.{typed_plan, Answers};
ghost use Rattle.sym_base.specs.declared.tree.expression.BinOp.TheVariants.{Is};

use crate::elaborate::error::CheckErr;
use crate::plan::condition::Cond;
use crate::plan::expression::{LabelOf, Term, WordOf};
use crate::plan::script::KindPlans;
use sym_base::BinOp;

/// What an expression may stand for. The name of an enum cell or of a hold cell is no value by
/// itself.
#[derive(Drop)]
pub enum Typed {
    Number(Term),
    Word(WordOf),
    /// A label and its enum.
    Label(u16, LabelOf),
    /// An enum cell and its enum.
    EnumCell(u16, u16),
    /// A hold cell and the kinds of its parts.
    HoldCell(u16, KindPlans),
    Truth(Cond),
}

/// What an expression stands for, with its place.
#[derive(Drop)]
pub struct Located {
    pub at: u32,
    pub typed: Typed,
}

/// The arguments of a call.
#[derive(Drop)]
pub struct Arguments {
    pub first: Located,
    pub others: Vec<Located>,
}

impl Typed {
    /// What stands here, where a value is wanted.
    pub(crate) fn no_cell(self, at: u32) -> Result<Typed, CheckErr>
        ensures { Answers typed_plan (no_cell at (typed_plan self)) result }
    {
        match self {
            Typed::EnumCell(..) | Typed::HoldCell(..) => Err(CheckErr::Kind { at }),
            Typed::Number(term) => Ok(Typed::Number(term)),
            Typed::Word(word) => Ok(Typed::Word(word)),
            Typed::Label(of, label) => Ok(Typed::Label(of, label)),
            Typed::Truth(condition) => Ok(Typed::Truth(condition)),
        }
    }

    /// What stands to the left of an operator: a value, or an enum cell where that is `is`.
    pub(crate) fn left_of(self, operator: BinOp, at: u32) -> Result<Typed, CheckErr>
        ensures { Answers typed_plan (left_of operator at (typed_plan self)) result }
    {
        match operator {
            BinOp::Is => self.left_of_is(at),
            BinOp::Or
            | BinOp::And
            | BinOp::Eq
            | BinOp::Ne
            | BinOp::Lt
            | BinOp::Le
            | BinOp::Gt
            | BinOp::Ge
            | BinOp::Add
            | BinOp::Sub
            | BinOp::Mul
            | BinOp::Div
            | BinOp::Rem => self.no_cell(at),
        }
    }

    fn left_of_is(self, at: u32) -> Result<Typed, CheckErr>
        ensures { Answers typed_plan (left_of Is at (typed_plan self)) result }
    {
        match self {
            Typed::EnumCell(cell, of) => Ok(Typed::EnumCell(cell, of)),
            Typed::HoldCell(..) => Err(CheckErr::Kind { at }),
            Typed::Number(term) => Ok(Typed::Number(term)),
            Typed::Word(word) => Ok(Typed::Word(word)),
            Typed::Label(of, label) => Ok(Typed::Label(of, label)),
            Typed::Truth(condition) => Ok(Typed::Truth(condition)),
        }
    }

    /// What stands as the first argument of a call: a value, or a hold cell.
    pub(crate) fn first_of(self, at: u32) -> Result<Typed, CheckErr>
        ensures { Answers typed_plan (first_of at (typed_plan self)) result }
    {
        match self {
            Typed::EnumCell(..) => Err(CheckErr::Kind { at }),
            Typed::HoldCell(cell, kinds) => Ok(Typed::HoldCell(cell, kinds)),
            Typed::Number(term) => Ok(Typed::Number(term)),
            Typed::Word(word) => Ok(Typed::Word(word)),
            Typed::Label(of, label) => Ok(Typed::Label(of, label)),
            Typed::Truth(condition) => Ok(Typed::Truth(condition)),
        }
    }

    /// The condition, where this is one.
    pub(crate) fn condition(self, at: u32) -> Result<Cond, CheckErr>
        ensures { Answers cond_plan (condition at (typed_plan self)) result }
    {
        match self {
            Typed::Truth(condition) => Ok(condition),
            Typed::Number(_)
            | Typed::Word(_)
            | Typed::Label(..)
            | Typed::EnumCell(..)
            | Typed::HoldCell(..) => Err(CheckErr::Kind { at }),
        }
    }

    /// The number, where this is one.
    pub(crate) fn term(self, at: u32) -> Result<Term, CheckErr>
        ensures { Answers term_plan (term_of at (typed_plan self)) result }
    {
        match self {
            Typed::Number(term) => Ok(term),
            Typed::Word(_)
            | Typed::Label(..)
            | Typed::EnumCell(..)
            | Typed::HoldCell(..)
            | Typed::Truth(_) => Err(CheckErr::Kind { at }),
        }
    }
}
