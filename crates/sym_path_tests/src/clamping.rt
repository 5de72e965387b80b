//! Records explored where the cell takes the nearest end of its range in place of a number outside.
ghost use Rattle.sym_check.specs.Checking.CheckedScripts.{checked_plan};
ghost use Rattle.sym_check.specs.Meaning.Validity.{IsRecord};

use crate::comparing::{fits, record};
use crate::setting::{Stop, has_path, none_told, number, path_of, span, told_of};
use std::alloc::Global;
use std::test::Fail;
use sym_base::{NoMemory, Record};
use sym_check::Checked;
use sym_explore::{Grown, extend, fresh};
use sym_given::{Case, check_cases, difference};
use sym_path::{Form, Part, Path, Segment};

/// A path of n from the first number to the second one. There n becomes `a * n + b` of the last two
/// numbers, which is the constant `b` where `a` is 0.
#[derive(Clone, Copy)]
struct Piece(i64, i64, i128, i64);

/// A script of a cell n with its path bound, and the paths of the one segment of so many records.
struct Clamping {
    script: &'static str,
    bound: u32,
    records: u32,
    limit: u32,
    paths: &'static [Piece],
}

const COUNTER: &str =
    "field x: num; state n: int [0..3] = 0 clamp; update { n = n + 1; } report { n = n; }";

const ROWS: [Clamping; 4] = [
    Clamping {
        script: COUNTER,
        bound: 3,
        records: 1,
        limit: 2,
        paths: &[Piece(0, 2, 1, 1), Piece(3, 3, 0, 3)],
    },
    Clamping {
        script: COUNTER,
        bound: 3,
        records: 3,
        limit: 3,
        paths: &[Piece(0, 3, 0, 3)],
    },
    // Below the range, in it and above it.
    Clamping {
        script: "field x: num; state n: int [0..3] = 0 clamp; \
            update { n = -2 * n + 4; } report { n = n; }",
        bound: 3,
        records: 1,
        limit: 3,
        paths: &[Piece(0, 0, 0, 3), Piece(1, 2, -2, 4), Piece(3, 3, 0, 0)],
    },
    Clamping {
        script: "field x: num; state n: int [0..1000000000000] = 0 clamp; \
            update { n = 2 * n; } report { n = n; }",
        bound: 3,
        records: 200,
        limit: 2,
        paths: &[
            Piece(0, 0, 0, 0),
            Piece(1, 1_000_000_000_000, 0, 1_000_000_000_000),
        ],
    },
];

fn path(alloc: Global, piece: Piece) -> Result<Path, Stop> {
    let Piece(lo, hi, a, b) = piece;
    let mut when = Vec::new(alloc);
    when.push(Part::Span(span(alloc, lo, hi)?))?;
    let mut forms = Vec::new(alloc);
    forms.push(Form::Int(number(alloc, 0, a, b)?))?;
    Ok(path_of(when, forms))
}

fn has_paths(alloc: Global, segment: &Segment, pieces: &[Piece]) -> Result<(), Stop> {
    'pieces: for piece in pieces {
        has_path(alloc, segment, &path(alloc, *piece)?)?;
    }
    none_told(difference(alloc, &segment.paths().len(), &pieces.len()))
}

/// The segment of one record more.
fn longer(
    alloc: Global,
    checked: &Checked,
    segment: &Segment,
    rec: &Record,
    limit: u32,
) -> Result<Segment, Stop>
    requires { IsRecord (checked_plan checked.now) rec.now }
{
    if !fits(checked, segment) {
        return Err(Stop::Differs(String::from_str(
            alloc,
            "found a segment that doesn't fit the script",
        )?));
    }
    match extend(alloc, checked, segment, rec, limit)? {
        Grown::Fits(segment) => Ok(segment),
        Grown::Over(_found) => {
            Err(Stop::Differs(format!(in alloc; "found more paths than {limit}")?))
        }
    }
}

/// The segment of so many records like this one.
fn explored(alloc: Global, checked: &Checked, rec: &Record, row: &Clamping) -> Result<Segment, Stop>
    requires { IsRecord (checked_plan checked.now) rec.now }
{
    let mut segment = fresh(alloc, checked, rec)?;
    'records: for _ in 1..row.records {
        segment = longer(alloc, checked, &segment, rec, row.limit)?;
    }
    Ok(segment)
}

fn is_clamped(alloc: Global, checked: &Checked, row: &Clamping) -> Result<(), Stop> {
    none_told(difference(alloc, &checked.path_bound(), &row.bound))?;
    let rec = record(alloc, checked, "x", "1", 1)?;
    has_paths(alloc, &explored(alloc, checked, &rec, row)?, row.paths)
}

impl Case for Clamping {
    fn script(&self) -> &str {
        self.script
    }

    fn differs(&self, alloc: Global, checked: &Checked) -> Result<Option<String>, NoMemory> {
        told_of(is_clamped(alloc, checked, self))
    }
}

#[test]
fn numbers_outside_a_range_become_its_nearest_end(rt: HostRuntime) -> Result<(), Fail> {
    check_cases(rt.alloc(), &ROWS)
}
