//! Rows that stop where they don't hold, the values that they are made of, and the checks that
//! several tables share.
ghost use Rattle.std.specs.Prelude.{◌≡◌, IfOk, IfSome};
ghost use Rattle.sym_check.specs.Checking.CheckedScripts.{checked_plan};
ghost use Rattle.sym_check.specs.Meaning.Validity.{IsValid};

use crate::texts::{path_text, paths_differ, segment_text};
use std::alloc::{AllocError, AllocFailed, Global};
use sym_base::{NoMemory, Outcome, Sequence, State};
use sym_check::Checked;
use sym_check::laws::plans::well_formed_plans_keep_states_valid;
use sym_given::{difference, found_unless};
use sym_int::{IntForm, Line, Number, Span};
use sym_path::{Form, Part, Path, PathEnd, Segment, follow, join_paths, joinable, possible};
use sym_plain::initial;
use sym_pred::{Facts, Literal};

/// Why a row isn't tried to its end.
#[derive(Drop)]
pub(crate) enum Stop {
    NoMemory,
    /// What is found in the place of what is wanted.
    Differs(String),
}

impl From<NoMemory> for Stop {
    fn from(_refused: NoMemory) -> Stop {
        Stop::NoMemory
    }
}

impl From<AllocError> for Stop {
    fn from(_refused: AllocError) -> Stop {
        Stop::NoMemory
    }
}

impl<T: Drop> From<AllocFailed<T>> for Stop {
    fn from(_refused: AllocFailed<T>) -> Stop {
        Stop::NoMemory
    }
}

/// Stops where something is told.
pub(crate) fn none_told(told: Result<Option<String>, NoMemory>) -> Result<(), Stop> {
    match told? {
        Some(told) => Err(Stop::Differs(told)),
        None => Ok(()),
    }
}

/// Stops where something doesn't hold, with what is found in its place.
pub(crate) fn holds(alloc: Global, holds: bool, found: &str) -> Result<(), Stop> {
    none_told(found_unless(alloc, holds, found))
}

/// What is told of a row that was tried.
pub(crate) fn told_of(tried: Result<(), Stop>) -> Result<Option<String>, NoMemory> {
    match tried {
        Ok(()) => Ok(None),
        Err(Stop::Differs(told)) => Ok(Some(told)),
        Err(Stop::NoMemory) => Err(NoMemory),
    }
}

/// The span from `lo` to `hi`.
pub(crate) fn span(alloc: Global, lo: i64, hi: i64) -> Result<Span, Stop> {
    match Span::new(lo, hi) {
        Some(span) => Ok(span),
        None => Err(Stop::Differs(format!(in alloc; "found {lo} to {hi}, wanted a span")?)),
    }
}

fn made(alloc: Global, form: Option<IntForm>, a: i128, b: i64) -> Result<IntForm, Stop> {
    match form {
        Some(form) => Ok(form),
        None => Err(Stop::Differs(format!(in alloc; "found {a} * x + {b}, wanted a form")?)),
    }
}

/// The number `a * x + b` of this cell's number x, which is the constant `b` where `a` is 0.
pub(crate) fn number(alloc: Global, cell: u16, a: i128, b: i64) -> Result<IntForm, Stop> {
    let form = if a == 0 {
        Number::new(b).map(IntForm::Const)
    } else {
        Line::new(cell, a, i128::from(b)).map(IntForm::Line)
    };
    made(alloc, form, a, b)
}

/// The facts of these literals.
pub(crate) fn facts_of(alloc: Global, literals: Vec<Literal>) -> Result<Facts, Stop> {
    match Facts::of(literals) {
        Some(facts) => Ok(facts),
        None => Err(Stop::Differs(String::from_str(
            alloc,
            "found literals out of order, wanted facts",
        )?)),
    }
}

/// The path with these parts that goes on with these forms.
pub(crate) fn path_of(when: Vec<Part>, forms: Vec<Form>) -> Path {
    let end = PathEnd::Next(Sequence::of(forms));
    Path {
        when: Sequence::of(when),
        end,
    }
}

/// Stops where the two aren't the same path.
pub(crate) fn same_paths(
    alloc: Global,
    found: &Option<Path>,
    wanted: &Option<Path>,
) -> Result<(), Stop> {
    none_told(paths_differ(alloc, found, wanted))
}

/// Stops where the segment doesn't have this path.
pub(crate) fn has_path(alloc: Global, segment: &Segment, wanted: &Path) -> Result<(), Stop> {
    if segment.paths().contains(wanted) {
        return Ok(());
    }
    let found = segment_text(alloc, segment)?;
    let wanted = path_text(alloc, Some(wanted))?;
    Err(Stop::Differs(format!(in alloc; "found{found} wanted{wanted}")?))
}

fn fits_if_any(checked: &Checked, path: &Option<Path>) -> bool {
    match path {
        Some(path) => path.fits(checked),
        None => true,
    }
}

// What a copy of the first path is, followed by the second.
fn moved(
    alloc: Global,
    checked: &Checked,
    first: &Path,
    second: &Path,
) -> Result<Option<Path>, Stop> {
    let moved = first.copy(alloc)?;
    if !moved.fits(checked) || !second.fits(checked) {
        holds(alloc, false, "found paths that don't fit the script")?;
        return Ok(None);
    }
    Ok(moved.followed_by(alloc, checked, second)?)
}

// What the second path makes of the first.
fn followed(
    alloc: Global,
    checked: &Checked,
    first: &Path,
    second: &Path,
    wanted: &Option<Path>,
) -> Result<Option<Path>, Stop> {
    if !first.fits(checked) || !second.fits(checked) {
        holds(alloc, false, "found paths that don't fit the script")?;
        return Ok(None);
    }
    let found = possible(checked, first, second);
    none_told(difference(alloc, &found, &wanted.is_some()))?;
    Ok(follow(alloc, checked, first, second)?)
}

/// Stops where the path of two isn't as wanted, by each of the calls, or doesn't fit the script.
pub(crate) fn follows(
    alloc: Global,
    checked: &Checked,
    first: &Path,
    second: &Path,
    wanted: &Option<Path>,
) -> Result<(), Stop> {
    let found = followed(alloc, checked, first, second, wanted)?;
    same_paths(alloc, &found, wanted)?;
    let fits = fits_if_any(checked, &found);
    holds(alloc, fits, "found a path that doesn't fit the script")?;
    same_paths(alloc, &moved(alloc, checked, first, second)?, wanted)
}

// The path that the two join to, if they do.
fn joined(alloc: Global, first: &Path, second: &Path) -> Result<Option<Path>, NoMemory> {
    if !joinable(first, second) {
        return Ok(None);
    }
    Ok(Some(join_paths(alloc, first, second)?))
}

/// Stops where the two paths don't join to the wanted one, both ways round.
pub(crate) fn join_to(
    alloc: Global,
    first: &Path,
    second: &Path,
    wanted: &Option<Path>,
) -> Result<(), Stop> {
    same_paths(alloc, &joined(alloc, first, second)?, wanted)?;
    same_paths(alloc, &joined(alloc, second, first)?, wanted)
}

/// The declared state.
fn first_state(alloc: Global, checked: &Checked) -> Result<State, NoMemory>
    ensures { IfOk result (IsValid (checked_plan checked.now)) }
{
    well_formed_plans_keep_states_valid();
    let _plan = checked.plan();
    initial(alloc, checked)
}

/// The state that a path makes of the declared one; `None` where the path doesn't fit, isn't for
/// that state or ends.
pub(crate) fn state_by(
    alloc: Global,
    checked: &Checked,
    path: &Path,
) -> Result<Option<State>, NoMemory>
    ensures { IfOk result (λ made. IfSome made (IsValid (checked_plan checked.now))) }
{
    let first = first_state(alloc, checked)?;
    if !path.fits(checked) || !path.admits(checked, &first) {
        return Ok(None);
    }
    match path.gives(alloc, checked, &first)? {
        Outcome::Going(state) => Ok(Some(state)),
        Outcome::Ended(_) => Ok(None),
    }
}
