//! Expressions. Contracts see them as the plain data of `specs/Trees.antt`, which leaves the
//! boxes out.
ghost use Rattle.std.specs.Prelude.{◌≡◌, IfOk, map};
ghost use Rattle.sym_base.specs.Trees.{End, expr_tree, exprs_tree, exprs_before};

use crate::tree::name::Name;
use crate::values::memory::NoMemory;
use crate::values::text::Text;
use std::alloc::Global;

/// An operator of two operands.
#[derive(Clone, Copy, PartialEq, Eq)]
pub enum BinOp {
    Or,
    And,
    Eq,
    Ne,
    Lt,
    Le,
    Gt,
    Ge,
    Is,
    Add,
    Sub,
    Mul,
    Div,
    Rem,
}

/// An expression. A leaf's place is that of its token, an operator's that of its sign or word,
/// a call's that of its name.
#[cycle(expression)]
#[derive(Drop)]
pub enum Expr {
    Num(i64, u32),
    Text(Text, u32),
    Named(Name),
    Call(Name, Exprs),
    Neg(Box<Expr>, u32),
    Not(Box<Expr>, u32),
    Bin(BinOp, Box<Expr>, Box<Expr>, u32),
}

/// A list of expressions: its end, or the first one with the rest. A `keep` may have any number of
/// them, so what goes along a list is a loop.
#[cycle(expression)]
pub enum Exprs {
    End,
    More(Box<Expr>, Box<Exprs>),
}

impl Drop for Exprs {
    #[cycle(expression)]
    fn drop(mut self) {
        'expressions: loop {
            match self {
                Exprs::End => return,
                Exprs::More(_, rest) => self = Box::into_inner(rest),
            }
        }
    }
}

impl Expr {
    /// An equal expression of its own.
    #[cycle(copy_expression)]
    pub fn copy(&self, alloc: Global) -> Result<Expr, NoMemory>
        ensures { IfOk result (λ e. expr_tree e ≡ expr_tree self.now) }
    {
        match self {
            Expr::Num(number, at) => Ok(Expr::Num(*number, *at)),
            Expr::Text(text, at) => Ok(Expr::Text(text.copy(alloc)?, *at)),
            Expr::Named(name) => Ok(Expr::Named(name.copy(alloc)?)),
            Expr::Call(name, arguments) => {
                let name = name.copy(alloc)?;
                Ok(Expr::Call(name, arguments.copy(alloc)?))
            }
            Expr::Neg(operand, at) => {
                let operand = operand.copy(alloc)?;
                Ok(Expr::Neg(Box::new(alloc, operand)?, *at))
            }
            Expr::Not(operand, at) => {
                let operand = operand.copy(alloc)?;
                Ok(Expr::Not(Box::new(alloc, operand)?, *at))
            }
            Expr::Bin(operator, left, right, at) => {
                let left = Box::new(alloc, left.copy(alloc)?)?;
                let right = right.copy(alloc)?;
                Ok(Expr::Bin(*operator, left, Box::new(alloc, right)?, *at))
            }
        }
    }
}

impl Exprs {
    /// The list of a vector's expressions.
    pub fn of(alloc: Global, mut items: Vec<Expr>) -> Result<Exprs, NoMemory>
        ensures { IfOk result (λ es. exprs_tree es ≡ exprs_before (map expr_tree items.items) End) }
    {
        let mut list = Exprs::End;
        'expressions: while let Some(last) = items.pop() {
            let first = Box::new(alloc, last)?;
            list = Exprs::More(first, Box::new(alloc, list)?);
        }
        Ok(list)
    }

    // Equal expressions of their own, in order.
    #[cycle(copy_expression)]
    fn copies(&self, alloc: Global) -> Result<Vec<Expr>, NoMemory>
        ensures { IfOk result (λ es.
            exprs_before (map expr_tree es.items) End ≡ exprs_tree self.now) }
    {
        let mut copied = Vec::new(alloc);
        let mut left = self;
        'expressions: while let Exprs::More(first, rest) = left {
            let copy = first.copy(alloc)?;
            copied.push(copy)?;
            left = rest;
        }
        Ok(copied)
    }

    /// An equal list of its own.
    #[cycle(copy_expression)]
    pub fn copy(&self, alloc: Global) -> Result<Exprs, NoMemory>
        ensures { IfOk result (λ e. exprs_tree e ≡ exprs_tree self.now) }
    {
        let copied = self.copies(alloc)?;
        Exprs::of(alloc, copied)
    }
}
