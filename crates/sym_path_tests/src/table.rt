//! Pairs of small paths of a number n and a label, against a plain walk over all states.
use crate::setting::{Stop, none_told, number as form_of, path_of, told_of};
use crate::texts::path_text;
use std::alloc::Global;
use std::test::Fail;
use sym_base::{Fault, FaultKind, NoMemory};
use sym_check::Checked;
use sym_enum::{EnumForm, LabelSet};
use sym_given::{Row, check_rows, difference};
use sym_int::{IntForm, Span};
use sym_path::{Form, Part, Path, PathEnd, follow, join_paths, joinable, possible};

const SMALL: &str =
    "enum mode { low, high } field x: num; state n: int [-3..3] = 0; state m: mode = low; \
                     update { } report { n = n; }";

/// What a path makes of a number and a label.
#[derive(Clone, Copy, PartialEq, Eq)]
enum Point {
    Going { number: i64, label: u8 },
    Ended { record: u64 },
}

fn number(form: &IntForm, x: i64) -> Option<i64> {
    match form {
        IntForm::Const(number) => Some(number.value),
        IntForm::Line(line) => i64::try_from(line.at(x)).ok(),
    }
}

fn label_by(form: &EnumForm, label: u8) -> u8 {
    match form {
        EnumForm::Const(constant) => *constant,
        EnumForm::Copy(_) => label,
    }
}

/// What the path makes of a number and a label, whether or not it is for them.
fn made(path: &Path, x: i64, label: u8) -> Option<Point> {
    match &path.end {
        PathEnd::Ended(fault) => Some(Point::Ended { record: fault.no }),
        PathEnd::Next(forms) => match (forms.get(0), forms.get(1)) {
            (Some(Form::Int(form)), Some(Form::Enum(other))) => Some(Point::Going {
                number: number(form, x)?,
                label: label_by(other, label),
            }),
            _ => None,
        },
    }
}

/// The span and the set of a path.
fn parts(path: &Path) -> Option<(Span, LabelSet)> {
    match (path.when.get(0), path.when.get(1)) {
        (Some(Part::Span(span)), Some(Part::Set(set))) => Some((*span, *set)),
        _ => None,
    }
}

/// What the path gives of a number and a label; `None` where it isn't for them.
fn given(path: &Path, x: i64, label: u8) -> Option<Point> {
    let (span, set) = parts(path)?;
    if span.has(x) && set.has(label) {
        made(path, x, label)
    } else {
        None
    }
}

/// What the two paths give, one after the other.
fn given_by_two(first: &Path, second: &Path, x: i64, label: u8) -> Option<Point> {
    match given(first, x, label)? {
        Point::Going { number, label } => given(second, number, label),
        Point::Ended { .. } => None,
    }
}

/// Whether the two paths give something at a number; `None` where the path of both gives other
/// than they do.
fn give_at(first: &Path, second: &Path, both: &Option<Path>, x: i64) -> Option<bool> {
    let mut some = false;
    'labels: for label in 0..2 {
        let wanted = given_by_two(first, second, x, label);
        let found = match both {
            Some(path) => given(path, x, label),
            None => None,
        };
        if found != wanted {
            return None;
        }
        some = some || wanted.is_some();
    }
    Some(some)
}

/// The same at all numbers.
fn give(first: &Path, second: &Path, both: &Option<Path>) -> Option<bool> {
    let mut some = false;
    'numbers: for x in -3..4 {
        let here = give_at(first, second, both, x)?;
        some = some || here;
    }
    Some(some)
}

/// Whether `possible` and `follow` are as the walk.
fn is_followed(
    alloc: Global,
    checked: &Checked,
    first: &Path,
    second: &Path,
) -> Result<bool, NoMemory> {
    if !first.fits(checked) || !second.fits(checked) {
        return Ok(false);
    }
    let both = follow(alloc, checked, first, second)?;
    let some = Some(possible(checked, first, second));
    Ok(give(first, second, &both) == some && Some(both.is_some()) == some)
}

/// Whether the first path makes what the second one makes wherever the second one is for the
/// number.
fn agrees_at(first: &Path, second: &Path, x: i64) -> bool {
    let mut agrees = true;
    'labels: for label in 0..2 {
        let wanted = given(second, x, label);
        agrees = agrees && (wanted.is_none() || made(first, x, label) == wanted);
    }
    agrees
}

fn agrees(first: &Path, second: &Path) -> bool {
    let mut agrees = true;
    'numbers: for x in -3..4 {
        agrees = agrees && agrees_at(first, second, x);
    }
    agrees
}

/// Whether the constraints are equal but for one cell, and the spans have no gap between them.
fn are_beside(first: &Path, second: &Path) -> bool {
    match (parts(first), parts(second)) {
        (Some((left, set)), Some((right, other))) => {
            let no_gap = left.lo - 1 <= right.hi && right.lo - 1 <= left.hi;
            (set == other && no_gap) || left == right
        }
        _ => false,
    }
}

/// Whether the joined path gives at a number what either gives there.
fn is_joined_at(first: &Path, second: &Path, joined: &Path, x: i64) -> bool {
    let mut same = true;
    'labels: for label in 0..2 {
        let wanted = match given(first, x, label) {
            Some(point) => Some(point),
            None => given(second, x, label),
        };
        same = same && given(joined, x, label) == wanted;
    }
    same
}

fn is_join(first: &Path, second: &Path, joined: &Path) -> bool {
    let mut same = true;
    'numbers: for x in -3..4 {
        same = same && is_joined_at(first, second, joined, x);
    }
    same
}

/// Whether `joinable` and `join_paths` are as the walk.
fn joins(alloc: Global, first: &Path, second: &Path) -> Result<bool, NoMemory> {
    let wanted = are_beside(first, second) && (agrees(first, second) || agrees(second, first));
    if !joinable(first, second) {
        return Ok(!wanted);
    }
    let joined = join_paths(alloc, first, second)?;
    Ok(wanted && is_join(first, second, &joined))
}

fn small_path(
    alloc: Global,
    span: Span,
    set: LabelSet,
    number: IntForm,
    label: EnumForm,
) -> Result<Path, NoMemory> {
    let mut when = Vec::new(alloc);
    when.push(Part::Span(span))?;
    when.push(Part::Set(set))?;
    let mut forms = Vec::new(alloc);
    forms.push(Form::Int(number))?;
    forms.push(Form::Enum(label))?;
    Ok(path_of(when, forms))
}

fn push_fitting(checked: &Checked, paths: &mut Vec<Path>, path: Path) -> Result<(), NoMemory> {
    if path.fits(checked) {
        paths.push(path)?;
    }
    Ok(())
}

/// Adds the paths with this constraint and this number, one for each label form.
fn push_labels(
    alloc: Global,
    checked: &Checked,
    paths: &mut Vec<Path>,
    span: Span,
    set: LabelSet,
    number: IntForm,
) -> Result<(), Stop> {
    'labels: for label in [EnumForm::Const(0), EnumForm::Const(1), EnumForm::Copy(1)] {
        let path = small_path(alloc, span, set, number, label)?;
        push_fitting(checked, paths, path)?;
    }
    Ok(())
}

/// Adds the paths with this constraint whose number is `a * n + b`, one for each b from -2 to 2.
fn push_numbers(
    alloc: Global,
    checked: &Checked,
    paths: &mut Vec<Path>,
    span: Span,
    set: LabelSet,
    a: i128,
) -> Result<(), Stop> {
    'offsets: for b in [-2, -1, 0, 1, 2] {
        let form = form_of(alloc, 0, a, b)?;
        push_labels(alloc, checked, paths, span, set, form)?;
    }
    Ok(())
}

/// Adds the paths with this constraint, and one that ends at record 4.
fn push_constraint(
    alloc: Global,
    checked: &Checked,
    paths: &mut Vec<Path>,
    span: Span,
    set: LabelSet,
) -> Result<(), Stop> {
    'slopes: for a in [-2, -1, 0, 1, 2] {
        push_numbers(alloc, checked, paths, span, set, a)?;
    }
    let mut path = small_path(
        alloc,
        span,
        set,
        form_of(alloc, 0, 0, 0)?,
        EnumForm::Const(0),
    )?;
    path.end = PathEnd::Ended(Fault {
        kind: FaultKind::Over(0),
        no: 4,
    });
    push_fitting(checked, paths, path)?;
    Ok(())
}

/// Adds the paths of this span.
fn push_span(
    alloc: Global,
    checked: &Checked,
    paths: &mut Vec<Path>,
    span: Span,
) -> Result<(), Stop> {
    'sets: for set in [LabelSet::one(0), LabelSet::one(1), LabelSet::full(2)] {
        push_constraint(alloc, checked, paths, span, set)?;
    }
    Ok(())
}

/// All small paths that fit the script.
fn small_paths(alloc: Global, checked: &Checked) -> Result<Vec<Path>, Stop> {
    let mut paths = Vec::new(alloc);
    let numbers = [-3, -2, -1, 0, 1, 2, 3];
    'low: for lo in numbers {
        'high: for hi in numbers {
            if let Some(span) = Span::new(lo, hi) {
                push_span(alloc, checked, &mut paths, span)?;
            }
        }
    }
    Ok(paths)
}

/// Stops at two paths of which calls make other than a walk does.
fn found_others(alloc: Global, first: &Path, second: &Path) -> Result<(), Stop> {
    let first = path_text(alloc, Some(first))?;
    let second = path_text(alloc, Some(second))?;
    Err(Stop::Differs(format!(in alloc;
        "found other than a walk gives, wanted the same, of{first} and{second}"
    )?))
}

fn is_followed_by_all(
    alloc: Global,
    checked: &Checked,
    paths: &[Path],
    first: &Path,
) -> Result<(), Stop> {
    'second: for second in paths {
        if !is_followed(alloc, checked, first, second)? {
            return found_others(alloc, first, second);
        }
    }
    Ok(())
}

fn all_are_followed(alloc: Global, checked: &Checked, paths: &[Path]) -> Result<(), Stop> {
    'first: for first in paths {
        is_followed_by_all(alloc, checked, paths, first)?;
    }
    Ok(())
}

fn joins_all(alloc: Global, paths: &[Path], first: &Path) -> Result<(), Stop> {
    'second: for second in paths {
        if !joins(alloc, first, second)? {
            return found_others(alloc, first, second);
        }
    }
    Ok(())
}

fn all_join(alloc: Global, paths: &[Path]) -> Result<(), Stop> {
    'first: for first in paths {
        joins_all(alloc, paths, first)?;
    }
    Ok(())
}

/// What is tried of each two small paths.
enum Tried {
    Followed,
    Joined,
}

fn are_tried(alloc: Global, checked: &Checked, paths: &[Path], tried: &Tried) -> Result<(), Stop> {
    none_told(difference(alloc, &paths.len(), &2_352))?;
    match tried {
        Tried::Followed => all_are_followed(alloc, checked, paths),
        Tried::Joined => all_join(alloc, paths),
    }
}

fn small_paths_are_tried(alloc: Global, checked: &Checked, tried: &Tried) -> Result<(), Stop> {
    let paths = small_paths(alloc, checked)?;
    are_tried(alloc, checked, paths.as_slice(), tried)
}

impl Row for Tried {
    fn differs(&self, alloc: Global, checked: &Checked) -> Result<Option<String>, NoMemory> {
        told_of(small_paths_are_tried(alloc, checked, self))
    }
}

#[test]
fn small_paths_follow_as_a_walk_does(rt: HostRuntime) -> Result<(), Fail> {
    check_rows(rt.alloc(), SMALL, &[Tried::Followed])
}

#[test]
fn small_paths_join_as_a_walk_does(rt: HostRuntime) -> Result<(), Fail> {
    check_rows(rt.alloc(), SMALL, &[Tried::Joined])
}
