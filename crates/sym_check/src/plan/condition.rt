//! Conditions. Contracts see them as the plain data of `specs/CondPlans.antt`.
ghost use Rattle.std.specs.Prelude.{◌≡◌, IfOk};
ghost use Rattle.sym_check.specs.Plan.CondPlans.{cond_plan};

use crate::plan::expression::{FixedList, LabelOf, Num, Term, WordOf, copy_fixed_list};
use std::alloc::Global;
use sym_base::{Compare, NoMemory};

/// A condition.
#[derive(Drop)]
pub enum Cond {
    /// The term compares so with the number.
    Compare(Compare, Term, Num),
    /// Two words are equal.
    Words(WordOf, WordOf),
    /// An enum cell holds the label.
    CellIs(u16, LabelOf),
    /// Two labels are equal.
    LabelIs(LabelOf, LabelOf),
    /// The test answers true for the parts of the hold cell and the arguments after them.
    Test {
        test: u16,
        cell: u16,
        args: FixedList,
    },
    Not(Box<Cond>),
    And(Box<Cond>, Box<Cond>),
    Or(Box<Cond>, Box<Cond>),
}

impl Cond {
    /// An equal condition of its own.
    pub fn copy(&self, alloc: Global) -> Result<Cond, NoMemory>
        ensures { IfOk result (λ c. cond_plan c ≡ cond_plan self.now) }
    {
        match self {
            Cond::Compare(compare, term, number) => {
                let term = term.copy(alloc)?;
                Ok(Cond::Compare(*compare, term, number.copy(alloc)?))
            }
            Cond::Words(left, right) => {
                let left = left.copy(alloc)?;
                Ok(Cond::Words(left, right.copy(alloc)?))
            }
            Cond::CellIs(cell, label) => Ok(Cond::CellIs(*cell, *label)),
            Cond::LabelIs(left, right) => Ok(Cond::LabelIs(*left, *right)),
            Cond::Test { test, cell, args } => Ok(Cond::Test {
                test: *test,
                cell: *cell,
                args: copy_fixed_list(alloc, args)?,
            }),
            Cond::Not(condition) => {
                let condition = condition.copy(alloc)?;
                Ok(Cond::Not(Box::new(alloc, condition)?))
            }
            Cond::And(left, right) => {
                let left = Box::new(alloc, left.copy(alloc)?)?;
                let right = right.copy(alloc)?;
                Ok(Cond::And(left, Box::new(alloc, right)?))
            }
            Cond::Or(left, right) => {
                let left = Box::new(alloc, left.copy(alloc)?)?;
                let right = right.copy(alloc)?;
                Ok(Cond::Or(left, Box::new(alloc, right)?))
            }
        }
    }
}
