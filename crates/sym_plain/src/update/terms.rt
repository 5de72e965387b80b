//! Numbers that may depend on a cell.
ghost use Rattle.std.specs.Prelude.{◌≡◌};
ghost use Rattle.sym_check.specs.Checking.KnownValues.{known_values};
ghost use Rattle.sym_check.specs.Plan.LinePlans.{term_plan};
ghost use Rattle.sym_check.specs.Meaning.LineValues.{pair_at, term_number};

use sym_base::State;
use sym_check::{Arith, Known, Pair, Term, number_of, pair_of, product};

// No such number leaves 128 bits.
fn line_at(pair: &Pair, number: i64) -> i128
    ensures { result ≡ pair_at pair.now number }
{
    product(pair.a, number) + pair.b as i128
}

/// The number of a term at a state.
#[inline(always)]
pub(crate) fn term_number(known: &Known, term: &Term, state: &State) -> Result<i128, Arith>
    ensures { result ≡ term_number (known_values known.now) (term_plan term.now) state.now }
{
    match term {
        Term::Fixed(number) => {
            let number = number_of(known, number)?;
            Ok(number as i128)
        }
        Term::Line(line) => {
            let pair = pair_of(known, line)?;
            Ok(line_at(&pair, state.number_at(pair.cell)))
        }
    }
}
