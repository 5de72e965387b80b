//! Statements. Contracts see them as the plain data of `specs/DoPlans.antt`.
ghost use Rattle.std.specs.Prelude.{◌≡◌, IfOk};
ghost use Rattle.sym_check.specs.Plan.DoPlans.{do_plan, dos_plan};

use crate::plan::condition::Cond;
use crate::plan::expression::{Fixed, FixedList, LabelOf, Term, WordOf, copy_fixed_list};
use std::alloc::Global;
use sym_base::NoMemory;

/// A statement of the update. Cells and locals stand by their numbers, counted from 0; locals are
/// numbered in the order of the text.
#[cycle(statement_plan)]
#[derive(Drop)]
pub enum Do {
    /// Gives a local its value.
    Let(u16, Fixed),
    /// Assigns to an integer cell.
    SetInt(u16, Term),
    /// Assigns to an enum cell.
    SetEnum(u16, LabelOf),
    /// Assigns the label of the second enum cell to the first.
    CopyEnum(u16, u16),
    /// Gives a hold cell's parts new values.
    Keep(u16, FixedList),
    /// Copies the parts of the second hold cell into the first.
    KeepFrom(u16, u16),
    /// Puts a number after the others of a `nums` cell.
    PushNum(u16, Term),
    /// Puts a word after the others of a `words` cell.
    PushWord(u16, WordOf),
    /// The statements where the condition is true, and those where it is false.
    If(Cond, Dos, Dos),
}

/// A list of statements: its end, or the first one with the rest.
#[cycle(statement_plan)]
#[derive(Drop)]
pub enum Dos {
    End,
    More(Box<Do>, Box<Dos>),
}

impl Do {
    /// An equal statement of its own.
    #[cycle(copy_statement_plan)]
    pub fn copy(&self, alloc: Global) -> Result<Do, NoMemory>
        ensures { IfOk result (λ d. do_plan d ≡ do_plan self.now) }
    {
        match self {
            Do::Let(local, value) => Ok(Do::Let(*local, value.copy(alloc)?)),
            Do::SetInt(cell, term) => Ok(Do::SetInt(*cell, term.copy(alloc)?)),
            Do::SetEnum(cell, label) => Ok(Do::SetEnum(*cell, *label)),
            Do::CopyEnum(cell, from) => Ok(Do::CopyEnum(*cell, *from)),
            Do::Keep(cell, values) => Ok(Do::Keep(*cell, copy_fixed_list(alloc, values)?)),
            Do::KeepFrom(cell, from) => Ok(Do::KeepFrom(*cell, *from)),
            Do::PushNum(cell, term) => Ok(Do::PushNum(*cell, term.copy(alloc)?)),
            Do::PushWord(cell, word) => Ok(Do::PushWord(*cell, word.copy(alloc)?)),
            Do::If(condition, then, otherwise) => {
                let condition = condition.copy(alloc)?;
                let then = then.copy(alloc)?;
                Ok(Do::If(condition, then, otherwise.copy(alloc)?))
            }
        }
    }
}

impl Dos {
    /// An equal list of its own.
    #[cycle(copy_statement_plan)]
    pub fn copy(&self, alloc: Global) -> Result<Dos, NoMemory>
        ensures { IfOk result (λ d. dos_plan d ≡ dos_plan self.now) }
    {
        match self {
            Dos::End => Ok(Dos::End),
            Dos::More(first, rest) => {
                let first = Box::new(alloc, first.copy(alloc)?)?;
                let rest = rest.copy(alloc)?;
                Ok(Dos::More(first, Box::new(alloc, rest)?))
            }
        }
    }
}
