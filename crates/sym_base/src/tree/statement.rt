//! Statements of an update. Contracts see them as the plain data of `specs/Trees.antt`.
ghost use Rattle.std.specs.Prelude.{◌≡◌, IfOk};
ghost use Rattle.sym_base.specs.Trees.{stmt_tree, stmts_tree};

use crate::tree::expression::{Expr, Exprs};
use crate::tree::name::Name;
use crate::values::memory::NoMemory;
use std::alloc::Global;

/// A statement.
#[cycle(statement)]
#[derive(Drop)]
pub enum Stmt {
    /// Names the value of an expression until the end of the block.
    Let(Name, Expr),
    /// Assigns to an integer cell or an enum cell.
    Set(Name, Expr),
    /// Adds an element to a list cell as its last one.
    Push(Name, Expr),
    /// Gives a hold cell's parts new values.
    Keep(Name, Exprs),
    /// Copies the parts of the second hold cell into the first.
    KeepFrom(Name, Name),
    /// The statements where the condition is true, and those where it isn't; an absent `else` is
    /// an empty list.
    If(Expr, Stmts, Stmts),
}

/// A list of statements: its end, or the first one with the rest.
#[cycle(statement)]
#[derive(Drop)]
pub enum Stmts {
    End,
    More(Box<Stmt>, Box<Stmts>),
}

impl Stmt {
    /// An equal statement of its own.
    #[cycle(copy_statement)]
    pub fn copy(&self, alloc: Global) -> Result<Stmt, NoMemory>
        ensures { IfOk result (λ s. stmt_tree s ≡ stmt_tree self.now) }
    {
        match self {
            Stmt::Let(name, value) => {
                let name = name.copy(alloc)?;
                Ok(Stmt::Let(name, value.copy(alloc)?))
            }
            Stmt::Set(name, value) => {
                let name = name.copy(alloc)?;
                Ok(Stmt::Set(name, value.copy(alloc)?))
            }
            Stmt::Push(name, value) => {
                let name = name.copy(alloc)?;
                Ok(Stmt::Push(name, value.copy(alloc)?))
            }
            Stmt::Keep(name, values) => {
                let name = name.copy(alloc)?;
                Ok(Stmt::Keep(name, values.copy(alloc)?))
            }
            Stmt::KeepFrom(name, source) => {
                let name = name.copy(alloc)?;
                Ok(Stmt::KeepFrom(name, source.copy(alloc)?))
            }
            Stmt::If(condition, then, otherwise) => {
                let condition = condition.copy(alloc)?;
                let then = then.copy(alloc)?;
                Ok(Stmt::If(condition, then, otherwise.copy(alloc)?))
            }
        }
    }
}

impl Stmts {
    /// An equal list of its own.
    #[cycle(copy_statement)]
    pub fn copy(&self, alloc: Global) -> Result<Stmts, NoMemory>
        ensures { IfOk result (λ s. stmts_tree s ≡ stmts_tree self.now) }
    {
        match self {
            Stmts::End => Ok(Stmts::End),
            Stmts::More(first, rest) => {
                let first = Box::new(alloc, first.copy(alloc)?)?;
                let rest = rest.copy(alloc)?;
                Ok(Stmts::More(first, Box::new(alloc, rest)?))
            }
        }
    }
}
