//! Paths that are joined and settled.
use crate::setting::{Stop, has_path, join_to, none_told, number, same_paths, span, told_of};
use std::alloc::Global;
use std::test::Fail;
use sym_base::{Fault, FaultKind, NoMemory, Sequence};
use sym_enum::{EnumForm, LabelSet};
use sym_given::{all_hold, difference, told_at};
use sym_path::{Form, Forms, Part, Path, PathEnd, Segment, joinable, settle};

/// What a path says of its only cell.
#[derive(Clone, Copy)]
enum Said {
    /// The span of a number n, and after it `a * n + b` of the last two numbers, which is the
    /// constant `b` where `a` is 0.
    Number(i64, i64, i128, i64),
    /// The span of a number, and the record whose fault ends the group.
    Fault(i64, i64, u64),
    /// The one label that it is for, or both, and what it makes of it.
    Label(Option<u8>, EnumForm),
}

/// Two paths, and the one that they join to.
struct Joining(Said, Said, Option<Said>);

fn part(alloc: Global, said: Said) -> Result<Part, Stop> {
    match said {
        Said::Number(lo, hi, _, _) | Said::Fault(lo, hi, _) => {
            Ok(Part::Span(span(alloc, lo, hi)?))
        }
        Said::Label(Some(label), _) if label < 32 => Ok(Part::Set(LabelSet::one(label))),
        Said::Label(Some(label), _) => {
            Err(Stop::Differs(format!(in alloc; "found {label}, wanted a label")?))
        }
        Said::Label(None, _) => Ok(Part::Set(LabelSet::full(2))),
    }
}

fn next(alloc: Global, form: Form) -> Result<PathEnd, NoMemory> {
    let mut forms = Forms::new(alloc);
    forms.push(form)?;
    Ok(PathEnd::Next(forms))
}

fn end(alloc: Global, said: Said) -> Result<PathEnd, Stop> {
    match said {
        Said::Number(_, _, a, b) => Ok(next(alloc, Form::Int(number(alloc, 0, a, b)?))?),
        Said::Fault(_, _, no) => Ok(PathEnd::Ended(Fault {
            kind: FaultKind::Arith,
            no,
        })),
        Said::Label(_, form) => Ok(next(alloc, Form::Enum(form))?),
    }
}

fn path(alloc: Global, said: Said) -> Result<Path, Stop> {
    let mut when = Sequence::new(alloc);
    when.push(part(alloc, said)?)?;
    let end = end(alloc, said)?;
    Ok(Path { when, end })
}

fn wanted_path(alloc: Global, said: Option<Said>) -> Result<Option<Path>, Stop> {
    match said {
        Some(said) => Ok(Some(path(alloc, said)?)),
        None => Ok(None),
    }
}

// The path that the second one joins with the first one to, where both are given away.
fn moved(first: Path, second: Path) -> Option<Path> {
    if joinable(&second, &first) {
        Some(second.join(first))
    } else {
        None
    }
}

fn join_as_wanted(alloc: Global, row: &Joining, wanted: &Option<Path>) -> Result<(), Stop> {
    let first = path(alloc, row.0)?;
    let second = path(alloc, row.1)?;
    join_to(alloc, &first, &second, wanted)?;
    same_paths(alloc, &moved(first, second), wanted)
}

fn row_holds(alloc: Global, row: &Joining) -> Result<(), Stop> {
    join_as_wanted(alloc, row, &wanted_path(alloc, row.2)?)
}

// What is said of the first row that doesn't hold.
fn first_of(alloc: Global, rows: &[Joining]) -> Result<Option<String>, NoMemory> {
    'rows: for (place, row) in rows.iter().enumerate() {
        let told = told_of(row_holds(alloc, row))?;
        if told.is_some() {
            return told_at(alloc, place, told);
        }
    }
    Ok(None)
}

const NUMBERS: [Joining; 10] = [
    Joining(
        Said::Number(0, 4, 1, 0),
        Said::Number(5, 10, 1, 0),
        Some(Said::Number(0, 10, 1, 0)),
    ),
    Joining(Said::Number(0, 3, 1, 0), Said::Number(5, 10, 1, 0), None),
    Joining(
        Said::Number(3, 3, 0, 3),
        Said::Number(4, 10, 1, 0),
        Some(Said::Number(3, 10, 1, 0)),
    ),
    Joining(Said::Number(3, 3, 0, 4), Said::Number(4, 10, 1, 0), None),
    Joining(
        Said::Number(3, 3, 0, 4),
        Said::Number(4, 10, 1, 1),
        Some(Said::Number(3, 10, 1, 1)),
    ),
    Joining(
        Said::Number(3, 3, 0, 3),
        Said::Number(4, 4, 0, 3),
        Some(Said::Number(3, 4, 0, 3)),
    ),
    Joining(Said::Number(3, 3, 0, 3), Said::Number(4, 4, 0, 4), None),
    Joining(
        Said::Number(-2, 1, -2, 1),
        Said::Number(2, 2, 0, -3),
        Some(Said::Number(-2, 2, -2, 1)),
    ),
    Joining(Said::Number(-2, 1, -2, 1), Said::Number(2, 3, -2, 2), None),
    Joining(
        Said::Number(-2, 1, 0, 1),
        Said::Number(0, 3, 0, 1),
        Some(Said::Number(-2, 3, 0, 1)),
    ),
];

#[test]
fn numbers_join_where_spans_touch_and_forms_agree(rt: HostRuntime) -> Result<(), Fail> {
    all_hold(first_of(rt.alloc(), &NUMBERS))
}

/// Leaves the label as it is.
const WIDE: Said = Said::Label(None, EnumForm::Copy(0));

const LABELS: [Joining; 4] = [
    Joining(Said::Label(Some(0), EnumForm::Const(0)), WIDE, Some(WIDE)),
    Joining(Said::Label(Some(0), EnumForm::Const(1)), WIDE, None),
    Joining(
        Said::Label(Some(0), EnumForm::Const(1)),
        Said::Label(Some(1), EnumForm::Const(1)),
        Some(Said::Label(None, EnumForm::Const(1))),
    ),
    Joining(
        Said::Label(Some(0), EnumForm::Const(0)),
        Said::Label(Some(1), EnumForm::Const(1)),
        None,
    ),
];

#[test]
fn labels_join_where_forms_agree(rt: HostRuntime) -> Result<(), Fail> {
    all_hold(first_of(rt.alloc(), &LABELS))
}

const FAULTS: [Joining; 3] = [
    Joining(Said::Fault(0, 4, 3), Said::Number(5, 9, 1, 0), None),
    Joining(Said::Fault(0, 4, 3), Said::Fault(5, 9, 4), None),
    Joining(
        Said::Fault(0, 4, 3),
        Said::Fault(5, 9, 3),
        Some(Said::Fault(0, 9, 3)),
    ),
];

#[test]
fn paths_with_the_same_fault_join(rt: HostRuntime) -> Result<(), Fail> {
    all_hold(first_of(rt.alloc(), &FAULTS))
}

const UNSETTLED: [Said; 4] = [
    Said::Number(0, 0, 0, 0),
    Said::Number(7, 9, 1, 0),
    Said::Number(2, 5, 1, 0),
    Said::Number(1, 1, 0, 1),
];

/// What they settle to.
const SETTLED: [Said; 2] = [Said::Number(0, 5, 1, 0), Said::Number(7, 9, 1, 0)];

fn paths(alloc: Global) -> Result<Vec<Path>, Stop> {
    let mut paths = Vec::new(alloc);
    'paths: for said in &UNSETTLED {
        paths.push(path(alloc, *said)?)?;
    }
    Ok(paths)
}

fn is_settled(alloc: Global, segment: &Segment) -> Result<(), Stop> {
    'paths: for said in &SETTLED {
        has_path(alloc, segment, &path(alloc, *said)?)?;
    }
    none_told(difference(alloc, &segment.paths().len(), &SETTLED.len()))
}

fn settles(alloc: Global) -> Result<(), Stop> {
    is_settled(alloc, &settle(alloc, paths(alloc)?)?)
}

#[test]
fn a_joined_path_is_tried_against_all_others(rt: HostRuntime) -> Result<(), Fail> {
    all_hold(told_of(settles(rt.alloc())))
}
