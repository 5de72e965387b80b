//! For which states a path is, and what it makes of them, at the ends of its constraint.
ghost use Rattle.std.specs.Prelude.{IfOk};
ghost use Rattle.sym_check.specs.Checking.CheckedScripts.{checked_plan};
ghost use Rattle.sym_check.specs.Meaning.Validity.{IsValid};

use crate::setting::{Stop, facts_of, number, path_of, span, state_by, told_of};
use std::alloc::Global;
use std::test::Fail;
use sym_base::{NoMemory, Outcome, Sequence, State, Value, Values};
use sym_check::Checked;
use sym_enum::{EnumForm, LabelSet};
use sym_given::{Row, check_rows, outcome_text};
use sym_path::{Form, Part, Path, PathEnd};
use sym_pred::{HoldForm, Literal};

const THREE: &str =
    "enum mode { low, mid, high } field x: num; state n: int [-5..5] = 0; state m: mode = low; \
                     state h: hold(num = 0); test far(a: num, b: num) = b - a > 3; \
                     update { } report { n = n; }";

/// A path for every state, after which the cells hold these.
fn held(alloc: Global, checked: &Checked, n: i64, label: u8, part: i64) -> Result<Path, Stop> {
    let mut parts = Values::new(alloc);
    parts.push(Value::Num(part))?;
    let mut forms = Vec::new(alloc);
    forms.push(Form::Int(number(alloc, 0, 0, n)?))?;
    forms.push(Form::Enum(EnumForm::Const(label)))?;
    forms.push(Form::Hold(HoldForm::Const(parts)))?;
    let mut path = Path::all(alloc, checked)?;
    path.end = PathEnd::Next(Sequence::of(forms));
    Ok(path)
}

/// n in -2 to 4, the label mid or high, and a held number from which 9 is far and 5 isn't; n
/// becomes `1 - n`, and the others stay.
fn middle(alloc: Global) -> Result<Path, Stop> {
    let mut literals = Vec::new(alloc);
    'numbers: for (b, outcome) in [(5, false), (9, true)] {
        let mut args = Values::new(alloc);
        args.push(Value::Num(b))?;
        literals.push(Literal {
            test: 0,
            args,
            outcome,
        })?;
    }
    let mut when = Vec::new(alloc);
    when.push(Part::Span(span(alloc, -2, 4)?))?;
    when.push(Part::Set(LabelSet::full(3).split(0).1))?;
    when.push(Part::Facts(facts_of(alloc, literals)?))?;
    let mut forms = Vec::new(alloc);
    forms.push(Form::Int(number(alloc, 0, -1, 1)?))?;
    forms.push(Form::Enum(EnumForm::Copy(1)))?;
    forms.push(Form::Hold(HoldForm::Copy(2)))?;
    Ok(path_of(when, forms))
}

/// The state after which the cells hold these.
fn state(alloc: Global, checked: &Checked, n: i64, label: u8, part: i64) -> Result<State, Stop>
    ensures { IfOk result (IsValid (checked_plan checked.now)) }
{
    match state_by(alloc, checked, &held(alloc, checked, n, label, part)?)? {
        Some(state) => Ok(state),
        None => Err(Stop::Differs(format!(in alloc;
            "found no state with {n}, {label} and {part}"
        )?)),
    }
}

/// What a path gives of a state; `None` where it isn't for it.
fn gives(
    alloc: Global,
    checked: &Checked,
    path: &Path,
    before: &State,
) -> Result<Option<Outcome>, Stop>
    requires { IsValid (checked_plan checked.now) before.now }
{
    if !path.fits(checked) {
        return Err(Stop::Differs(String::from_str(
            alloc,
            "found a path that doesn't fit the script",
        )?));
    }
    if !path.admits(checked, before) {
        return Ok(None);
    }
    Ok(Some(path.gives(alloc, checked, before)?))
}

fn text_of(alloc: Global, outcome: &Option<Outcome>) -> Result<String, NoMemory> {
    match outcome {
        Some(outcome) => outcome_text(alloc, outcome),
        None => Ok(String::from_str(alloc, " no path for the state")?),
    }
}

/// Stops where the outcome isn't the wanted one.
fn same_outcomes(
    alloc: Global,
    found: &Option<Outcome>,
    wanted: &Option<Outcome>,
) -> Result<(), Stop> {
    if found == wanted {
        return Ok(());
    }
    let found = text_of(alloc, found)?;
    let wanted = text_of(alloc, wanted)?;
    Err(Stop::Differs(format!(in alloc; "found{found}, wanted{wanted}")?))
}

/// The contents of a state, and the number n that the path in the middle gives of it, where it is
/// for it.
#[derive(Clone, Copy)]
struct Given(i64, u8, i64, Option<i64>);

const GIVEN: [Given; 9] = [
    Given(-2, 1, 3, Some(3)),
    Given(-3, 1, 3, None),
    Given(4, 2, 2, Some(-3)),
    Given(5, 2, 2, None),
    Given(0, 1, 5, Some(1)),
    Given(0, 0, 5, None),
    Given(0, 2, 6, None),
    Given(0, 2, 2, Some(1)),
    Given(0, 2, 1, None),
];

fn wanted_outcome(alloc: Global, checked: &Checked, row: &Given) -> Result<Option<Outcome>, Stop> {
    match row.3 {
        Some(n) => Ok(Some(Outcome::Going(state(alloc, checked, n, row.1, row.2)?))),
        None => Ok(None),
    }
}

fn given_of(
    alloc: Global,
    checked: &Checked,
    path: &Path,
    row: &Given,
) -> Result<Option<Outcome>, Stop> {
    let before = state(alloc, checked, row.0, row.1, row.2)?;
    gives(alloc, checked, path, &before)
}

fn gives_wanted(alloc: Global, checked: &Checked, path: &Path, row: &Given) -> Result<(), Stop> {
    let found = given_of(alloc, checked, path, row)?;
    same_outcomes(alloc, &found, &wanted_outcome(alloc, checked, row)?)
}

fn middle_gives(alloc: Global, checked: &Checked, row: &Given) -> Result<(), Stop> {
    gives_wanted(alloc, checked, &middle(alloc)?, row)
}

impl Row for Given {
    fn differs(&self, alloc: Global, checked: &Checked) -> Result<Option<String>, NoMemory> {
        told_of(middle_gives(alloc, checked, self))
    }
}

#[test]
fn a_path_is_for_the_states_within_its_constraint(rt: HostRuntime) -> Result<(), Fail> {
    check_rows(rt.alloc(), THREE, &GIVEN)
}

/// The contents of a state that the path of all states leaves as it is.
struct Same(i64, u8, i64);

const SAME: [Same; 9] = [
    Same(-2, 1, 3),
    Same(-3, 1, 3),
    Same(4, 2, 2),
    Same(5, 2, 2),
    Same(0, 1, 5),
    Same(0, 0, 5),
    Same(0, 2, 6),
    Same(0, 2, 2),
    Same(0, 2, 1),
];

fn all_gives(alloc: Global, checked: &Checked, row: &Given) -> Result<(), Stop> {
    gives_wanted(alloc, checked, &Path::all(alloc, checked)?, row)
}

impl Row for Same {
    fn differs(&self, alloc: Global, checked: &Checked) -> Result<Option<String>, NoMemory> {
        let row = Given(self.0, self.1, self.2, Some(self.0));
        told_of(all_gives(alloc, checked, &row))
    }
}

#[test]
fn the_path_of_all_states_leaves_them_as_they_are(rt: HostRuntime) -> Result<(), Fail> {
    check_rows(rt.alloc(), THREE, &SAME)
}
