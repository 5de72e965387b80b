//! One test on a hold cell, with its outcome.
ghost use Rattle.std.specs.Prelude.{◌≡◌, IfOk};
ghost use Rattle.sym_pred.specs.Facts.{atom_cmp};

use std::alloc::Global;
use std::cmp::Ordering;
use sym_base::{NoMemory, Plain, Values};

/// A test on a hold cell, with arguments, and the outcome that it has.
#[derive(PartialEq, Eq, Drop)]
pub struct Literal {
    /// The number of the test, counted from 0 in order of declaration.
    pub test: u16,
    pub args: Values,
    pub outcome: bool,
}

impl Literal {
    /// An equal literal of its own.
    pub fn copy(&self, alloc: Global) -> Result<Literal, NoMemory>
        ensures { IfOk result (λ literal. literal ≡ self.now) }
    {
        Ok(Literal {
            test: self.test,
            args: self.args.copy(alloc)?,
            outcome: self.outcome,
        })
    }

    /// How the literal's test and arguments stand to these in the order of facts: by test, and
    /// then by arguments, numbers before words and words before labels.
    pub fn order(&self, test: u16, args: &Values) -> Ordering
        ensures { result ≡ atom_cmp (self.now.test, self.now.args) (test, args.now) }
    {
        match self.test.cmp(&test) {
            Ordering::Equal => self.args.cmp(args),
            other => other,
        }
    }
}

impl Plain for Literal {
    fn copied(&self, alloc: Global) -> Result<Literal, NoMemory> {
        self.copy(alloc)
    }
}
