//! What is known of a hold cell after one more test on it.
ghost use Rattle.std.specs.Prelude.{◌≡◌, ◌≢◌, ◌↔◌, List, IfOk, MatchOption};
ghost use Rattle.sym_base.specs.declared.values.value.Value.{Value as OneValue};
ghost use Rattle.sym_base.specs.Tests.{Truth};
ghost use Rattle.sym_pred.specs.Meaning.{Admits};

use sym_base::NoMemory;
use sym_pred::{Facts, Literal};

/// The facts where a test with these arguments has the outcome of `literal`; `None` where it can't
/// have it. Where the literal stands already, the facts stay as they are.
pub fn narrowed(facts: Facts, literal: Literal) -> Result<Option<Facts>, NoMemory>
    ensures { IfOk result (λ narrowed. MatchOption narrowed
        ((truth : Truth) (parts : List OneValue) → Admits truth facts parts →
        truth literal.test literal.args parts ≢ literal.outcome)
        (λ more. (truth : Truth) (parts : List OneValue) → Admits truth more parts ↔
        (Admits truth facts parts ×
        (truth literal.test literal.args parts ≡ literal.outcome)))) }
{
    match facts.says(literal.test, &literal.args) {
        None => Ok(Some(facts.with(literal)?)),
        Some(outcome) => {
            if outcome == literal.outcome {
                Ok(Some(facts))
            } else {
                Ok(None)
            }
        }
    }
}

#[cfg(test)]
mod tests {
    use super::*;
    use std::alloc::Global;
    use std::test::Fail;
    use sym_base::{Value, Values};

    fn gap(alloc: Global, value: i64, outcome: bool) -> Result<Literal, NoMemory> {
        let mut args = Values::new(alloc);
        args.push(Value::Num(value))?;
        Ok(Literal {
            test: 0,
            args,
            outcome,
        })
    }

    #[test]
    fn a_test_narrows_what_is_known_once(rt: HostRuntime) -> Result<(), Fail> {
        let alloc = rt.alloc();
        let facts = narrowed(Facts::none(alloc), gap(alloc, 60, true)?)?.ok_or("open")?;
        assert!(rt; facts.len() == 1);
        let other = narrowed(Facts::none(alloc), gap(alloc, 60, false)?)?.ok_or("open")?;
        assert!(rt; facts.clashes(&other) && facts.unites(&other));
        let same = narrowed(facts, gap(alloc, 60, true)?)?.ok_or("known")?;
        assert!(rt; same.len() == 1);
        assert!(rt; narrowed(same, gap(alloc, 60, false)?)?.is_none());
        Ok(())
    }
}
