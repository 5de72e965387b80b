//! Values of fixed expressions.
ghost use Rattle.std.specs.Prelude.{◌≡◌, IfOk};
ghost use Rattle.sym_check.specs.Plan.FixedPlans.{fixed_plan};
ghost use Rattle.sym_check.specs.Meaning.FixedValues.{fixed_value};
ghost use Rattle.sym_check.specs.Checking.KnownValues.{known_values, fixed_result};

use crate::evaluate::known::Known;
use crate::evaluate::numbers::number_of;
use crate::plan::expression::Fixed;
use std::alloc::Global;
use sym_base::{NoMemory, Text, Value};

/// What a fixed expression comes to.
#[derive(PartialEq, Eq, Drop)]
pub enum FixedValue {
    Is(Value),
    /// A step of it left the range of numbers or divided by zero.
    Arith,
}

impl FixedValue {
    /// An equal value of its own.
    pub fn copy(&self, alloc: Global) -> Result<FixedValue, NoMemory>
        ensures { IfOk result (λ v. v ≡ self.now) }
    {
        match self {
            FixedValue::Is(value) => Ok(FixedValue::Is(value.copy(alloc)?)),
            FixedValue::Arith => Ok(FixedValue::Arith),
        }
    }
}

/// The value of a fixed expression; `FixedValue::Arith` is returned exactly where a step of it
/// leaves `-NUM_MAX` to `NUM_MAX` or divides by zero. A word is copied.
pub fn value_of(alloc: Global, known: &Known, expression: &Fixed) -> Result<FixedValue, NoMemory>
    ensures { let k = known_values known.now in
        IfOk result (λ v. fixed_result v ≡ fixed_value k (fixed_plan expression.now)) }
{
    match expression {
        Fixed::Num(number) => match number_of(known, number) {
            Ok(number) => Ok(FixedValue::Is(Value::Num(number))),
            Err(_) => Ok(FixedValue::Arith),
        },
        Fixed::Word(word) => {
            let word = Text::from_str(alloc, known.word(word))?;
            Ok(FixedValue::Is(Value::Word(word)))
        }
        Fixed::Label(label) => Ok(FixedValue::Is(Value::Label(known.label(label)))),
    }
}
