//! One path after another, over a cell n from 0 to 10.
use crate::setting::{Stop, follows, holds, number, same_paths, span, told_of};
use std::alloc::Global;
use std::test::Fail;
use sym_base::{Fault, FaultKind, NoMemory, Sequence};
use sym_check::Checked;
use sym_given::{Row, check_rows, difference};
use sym_path::{Form, Forms, Part, Path, PathEnd};

const COUNTER: &str = "field x: num; state n: int [0..10] = 0; update { } report { n = n; }";

/// A span of n, and what n is after the path.
#[derive(Clone, Copy)]
enum Said {
    /// `a * n + b` of the last two numbers, which is the constant `b` where `a` is 0.
    Next(i64, i64, i128, i64),
    /// n overflows at record 2.
    Over(i64, i64),
}

fn forms(alloc: Global, a: i128, b: i64) -> Result<Forms, Stop> {
    let mut forms = Sequence::new(alloc);
    forms.push(Form::Int(number(alloc, 0, a, b)?))?;
    Ok(forms)
}

fn end(alloc: Global, said: Said) -> Result<PathEnd, Stop> {
    match said {
        Said::Next(_, _, a, b) => Ok(PathEnd::Next(forms(alloc, a, b)?)),
        Said::Over(_, _) => Ok(PathEnd::Ended(Fault {
            kind: FaultKind::Over(0),
            no: 2,
        })),
    }
}

fn path(alloc: Global, said: Said) -> Result<Path, Stop> {
    let (lo, hi) = match said {
        Said::Next(lo, hi, _, _) => (lo, hi),
        Said::Over(lo, hi) => (lo, hi),
    };
    let mut when = Sequence::new(alloc);
    when.push(Part::Span(span(alloc, lo, hi)?))?;
    let end = end(alloc, said)?;
    Ok(Path { when, end })
}

fn wanted_path(alloc: Global, said: Option<Said>) -> Result<Option<Path>, Stop> {
    match said {
        Some(said) => Ok(Some(path(alloc, said)?)),
        None => Ok(None),
    }
}

/// One path, one that comes after it, and the path of both.
struct Pair(Said, Said, Option<Said>);

fn comes_to(
    alloc: Global,
    checked: &Checked,
    pair: &Pair,
    wanted: &Option<Path>,
) -> Result<(), Stop> {
    let first = path(alloc, pair.0)?;
    follows(alloc, checked, &first, &path(alloc, pair.1)?, wanted)
}

fn pair_holds(alloc: Global, checked: &Checked, pair: &Pair) -> Result<(), Stop> {
    comes_to(alloc, checked, pair, &wanted_path(alloc, pair.2)?)
}

impl Row for Pair {
    fn differs(&self, alloc: Global, checked: &Checked) -> Result<Option<String>, NoMemory> {
        told_of(pair_holds(alloc, checked, self))
    }
}

/// One more where n is at most 2.
const MORE: Said = Said::Next(0, 2, 1, 1);
/// n stays 0.
const ZERO: Said = Said::Next(0, 0, 0, 0);
/// An overflow where n is 3.
const OVER: Said = Said::Over(3, 3);

const PAIRS: [Pair; 5] = [
    Pair(MORE, MORE, Some(Said::Next(0, 1, 1, 2))),
    Pair(MORE, OVER, Some(Said::Over(2, 2))),
    Pair(ZERO, OVER, None),
    Pair(ZERO, Said::Next(3, 3, 0, 3), None),
    Pair(OVER, ZERO, None),
];

#[test]
fn a_path_after_another_is_for_what_the_other_leaves(rt: HostRuntime) -> Result<(), Fail> {
    check_rows(rt.alloc(), COUNTER, &PAIRS)
}

/// n itself.
const SAME: Said = Said::Next(0, 10, 1, 0);

/// A path, and whether it fits.
struct Fitting(Said, bool);

const FITTING: [Fitting; 10] = [
    Fitting(SAME, true),
    Fitting(Said::Over(0, 10), true),
    Fitting(Said::Next(0, 9, 1, 1), true),
    Fitting(Said::Next(0, 10, -1, 10), true),
    // Past the range of n, and forms that aren't taken on their constraint.
    Fitting(Said::Next(0, 10, 1, 1), false),
    Fitting(Said::Next(0, 10, -1, 9), false),
    Fitting(Said::Next(0, 11, 0, 0), false),
    Fitting(Said::Next(-1, 3, 0, 0), false),
    Fitting(Said::Next(3, 3, 1, 0), false),
    Fitting(Said::Next(3, 4, 0, 11), false),
];

fn fits(alloc: Global, checked: &Checked, said: Said) -> Result<bool, Stop> {
    Ok(path(alloc, said)?.fits(checked))
}

impl Row for Fitting {
    fn differs(&self, alloc: Global, checked: &Checked) -> Result<Option<String>, NoMemory> {
        match fits(alloc, checked, self.0) {
            Ok(found) => difference(alloc, &found, &self.1),
            Err(stop) => told_of(Err(stop)),
        }
    }
}

#[test]
fn a_path_that_fits_is_within_its_cells(rt: HostRuntime) -> Result<(), Fail> {
    check_rows(rt.alloc(), COUNTER, &FITTING)
}

/// The path of all states.
struct All(Said);

const ALL: [All; 1] = [All(SAME)];

fn is_all(alloc: Global, checked: &Checked, said: Said) -> Result<(), Stop> {
    let all = Path::all(alloc, checked)?;
    let fits = all.fits(checked);
    same_paths(alloc, &Some(all), &Some(path(alloc, said)?))?;
    holds(
        alloc,
        fits,
        "found a path of all states that doesn't fit the script",
    )
}

impl Row for All {
    fn differs(&self, alloc: Global, checked: &Checked) -> Result<Option<String>, NoMemory> {
        told_of(is_all(alloc, checked, self.0))
    }
}

#[test]
fn the_path_of_all_states_is_the_number_itself(rt: HostRuntime) -> Result<(), Fail> {
    check_rows(rt.alloc(), COUNTER, &ALL)
}
