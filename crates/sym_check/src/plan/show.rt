//! Expressions of the report. Contracts see them as the plain data of `specs/ShowPlans.antt`.
ghost use Rattle.std.specs.Prelude.{◌≡◌, IfOk};
ghost use Rattle.sym_check.specs.Plan.ShowPlans.{show_plan};

use crate::plan::expression::ArithOp;
use std::alloc::Global;
use sym_base::{NoMemory, Text};

/// What a report function gives of a list cell.
#[derive(Clone, Copy, PartialEq, Eq)]
pub enum ShowFn {
    /// The number of elements.
    Count,
    /// The sum of the numbers.
    Sum,
    /// The least number.
    Min,
    /// The greatest number.
    Max,
    /// The oldest element.
    First,
    /// The newest element.
    Last,
}

/// A report expression.
#[derive(Drop)]
pub enum Show {
    Num(i64),
    Text(Text),
    /// The cell with this number, counted from 0.
    Cell(u16),
    /// The hold cell with this number, counted from 0, and the number of its part, counted from 1.
    Part(u16, u16),
    /// The function of the list cell with this number, counted from 0.
    Call(ShowFn, u16),
    Neg(Box<Show>),
    Bin(ArithOp, Box<Show>, Box<Show>),
}

impl Show {
    /// An equal expression of its own.
    pub fn copy(&self, alloc: Global) -> Result<Show, NoMemory>
        ensures { IfOk result (λ s. show_plan s ≡ show_plan self.now) }
    {
        match self {
            Show::Num(number) => Ok(Show::Num(*number)),
            Show::Text(text) => Ok(Show::Text(text.copy(alloc)?)),
            Show::Cell(cell) => Ok(Show::Cell(*cell)),
            Show::Part(cell, part) => Ok(Show::Part(*cell, *part)),
            Show::Call(function, cell) => Ok(Show::Call(*function, *cell)),
            Show::Neg(operand) => {
                let operand = operand.copy(alloc)?;
                Ok(Show::Neg(Box::new(alloc, operand)?))
            }
            Show::Bin(operator, left, right) => {
                let left = Box::new(alloc, left.copy(alloc)?)?;
                let right = right.copy(alloc)?;
                Ok(Show::Bin(*operator, left, Box::new(alloc, right)?))
            }
        }
    }
}
