//! Two segments in one: the same paths as of the records explored one after the other.
ghost use Rattle.sym_check.specs.Checking.CheckedScripts.{checked_plan};
ghost use Rattle.sym_check.specs.Meaning.Validity.{IsRecord};
ghost use Rattle.sym_path.specs.Fitting.{SegmentFits};

use crate::comparing::record;
use crate::exploring::has_both;
use crate::setting::{Stop, holds, none_told, told_of};
use std::alloc::Global;
use std::test::Fail;
use sym_base::{NoMemory, Record};
use sym_check::Checked;
use sym_explore::fresh;
use sym_given::scripts::SESSIONS;
use sym_given::{Row, check_rows, difference};
use sym_path::{Composition, Segment, compose, compose_within, pairs};

/// The two in one, if they have at most so many pairs.
fn within(
    alloc: Global,
    checked: &Checked,
    first: &Segment,
    second: &Segment,
    limit: u32,
) -> Result<Composition, NoMemory>
    requires first { SegmentFits (checked_plan checked.now) first.now }
    requires second { SegmentFits (checked_plan checked.now) second.now }
{
    compose_within(
        alloc,
        checked,
        first.copy(alloc)?,
        second.copy(alloc)?,
        limit,
    )
}

/// Stops where the two aren't in one exactly if a limit of three pairs or of four is kept.
fn is_told(
    alloc: Global,
    checked: &Checked,
    first: &Segment,
    second: &Segment,
    both: Segment,
) -> Result<(), Stop>
    requires first { SegmentFits (checked_plan checked.now) first.now }
    requires second { SegmentFits (checked_plan checked.now) second.now }
{
    let apart = Composition::Apart(first.copy(alloc)?, second.copy(alloc)?);
    let same = within(alloc, checked, first, second, 3)? == apart;
    holds(
        alloc,
        same,
        "found one segment for at most 3 pairs, wanted both apart",
    )?;
    let same = within(alloc, checked, first, second, 4)? == Composition::One(both);
    holds(
        alloc,
        same,
        "found both apart for at most 4 pairs, wanted one segment",
    )
}

/// Stops where two segments don't have three paths each and four pairs, or don't come to the paths
/// of both records.
fn comes_to(alloc: Global, checked: &Checked, first: &Segment, second: &Segment) -> Result<(), Stop>
    requires first { SegmentFits (checked_plan checked.now) first.now }
    requires second { SegmentFits (checked_plan checked.now) second.now }
{
    let found = (first.paths().len(), second.paths().len());
    none_told(difference(alloc, &found, &(3, 3)))?;
    if found != (3, 3) {
        return Ok(());
    }
    none_told(difference(alloc, &pairs(checked, first, second), &4))?;
    let both = compose(alloc, checked, first, second)?;
    has_both(alloc, &both)?;
    is_told(alloc, checked, first, second, both)
}

fn of_records(alloc: Global, checked: &Checked, first: &Record, second: &Record) -> Result<(), Stop>
    requires first { IsRecord (checked_plan checked.now) first.now }
    requires second { IsRecord (checked_plan checked.now) second.now }
{
    let left = fresh(alloc, checked, first)?;
    let right = fresh(alloc, checked, second)?;
    comes_to(alloc, checked, &left, &right)
}

fn compose_records(alloc: Global, checked: &Checked) -> Result<(), Stop> {
    let first = record(alloc, checked, "ts,user", "60,a", 3)?;
    let second = record(alloc, checked, "ts,user", "61,a", 5)?;
    of_records(alloc, checked, &first, &second)
}

/// The segments of two records of one user.
struct Records;

impl Row for Records {
    fn differs(&self, alloc: Global, checked: &Checked) -> Result<Option<String>, NoMemory> {
        told_of(compose_records(alloc, checked))
    }
}

#[test]
fn segments_compose_to_those_of_both_records(rt: HostRuntime) -> Result<(), Fail> {
    check_rows(rt.alloc(), SESSIONS, &[Records])
}
