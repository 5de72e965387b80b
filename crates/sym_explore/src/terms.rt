//! Numbers that may depend on a cell, over the state before a path.
ghost use Rattle.std.specs.Prelude.{◌≡◌};
ghost use Rattle.sym_base.specs.Limits.{IsNumber};
ghost use Rattle.sym_check.specs.Checking.KnownValues.{known_values};
ghost use Rattle.sym_check.specs.Plan.LinePlans.{term_plan};
ghost use Rattle.sym_check.specs.Plan.ScriptPlans.{script_plan};
ghost use Rattle.sym_path.specs.Fitting.{PathFits};
ghost use Rattle.sym_explore.specs.Terms.{IsPairOver, IsReadyForm, ReadyFits, number_form, ready_of, span_of};

use sym_check::{Arith, Known, Pair, Plan, Term, number_of, pair_of};
use sym_int::{IntForm, Span, Wide, WideNumber};
use sym_path::{Form, Part, Path};

/// A term at a record: what its expressions without cells come to.
#[derive(Clone, Copy)]
pub enum Ready {
    Number(i64),
    Line(Pair),
}

/// The term with its fixed expressions evaluated; `Arith` exactly where that fails.
pub(crate) fn ready_of(known: &Known, term: &Term) -> Result<Ready, Arith>
    ensures { result ≡ ready_of (known_values known.now) (term_plan term.now) }
{
    match term {
        Term::Fixed(number) => Ok(Ready::Number(number_of(known, number)?)),
        Term::Line(line) => Ok(Ready::Line(pair_of(known, line)?)),
    }
}

/// The form of the integer cell with this number; `None` where there is none, as after a fault.
pub(crate) fn number_form(path: &Path, cell: u16) -> Option<IntForm>
    ensures { result ≡ number_form path.now cell }
{
    match path.form(cell) {
        Some(Form::Int(form)) => Some(*form),
        _ => None,
    }
}

/// The span of the integer cell with this number before the path; `None` where there is none.
pub(crate) fn span_of(path: &Path, cell: u16) -> Option<Span>
    ensures { result ≡ span_of path.now cell }
{
    match path.when.get(usize::from(cell)) {
        Some(Part::Span(span)) => Some(*span),
        _ => None,
    }
}

/// The number of the pair where its cell has this form.
fn scaled(form: &IntForm, pair: &Pair) -> Wide
    requires a_in { IsNumber pair.now.a }
    requires b_in { IsNumber pair.now.b }
    ensures { IsPairOver form.now pair.now result }
{
    form.scaled(pair.a, pair.b)
}

/// The ready term's number over the state before the path; `None` where the path has ended.
pub(crate) fn ready_form(_plan: &Plan, ready: &Ready, path: &Path) -> Option<Wide>
    requires ready { ReadyFits (script_plan _plan.now) ready.now }
    requires fits { PathFits (script_plan _plan.now) path.now }
    ensures { IsReadyForm (script_plan _plan.now) ready.now path.now result }
{
    match ready {
        Ready::Number(number) => {
            if path.goes_on() {
                let value = i128::from(*number);
                Some(Wide::Const(WideNumber { value }))
            } else {
                None
            }
        }
        Ready::Line(pair) => match number_form(path, pair.cell) {
            Some(form) => Some(scaled(&form, pair)),
            None => None,
        },
    }
}
