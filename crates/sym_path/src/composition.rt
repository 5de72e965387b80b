//! Two segments in one: the paths of the first and then of the second.
ghost use Rattle.std.specs.Prelude.{IfOk, IfSome, OnOk};
ghost use Rattle.sym_check.specs.Checking.CheckedScripts.{checked_plan};
ghost use Rattle.sym_check.specs.Meaning.Conditions.{test_truth};
ghost use Rattle.sym_path.specs.Composing.{AreComposed, GrowsBy, GrowsByAll, GrowsByPath, IsComposition};
ghost use Rattle.sym_path.specs.Composing.{CanComeAt};
ghost use Rattle.sym_path.specs.Fitting.{PathFits, SegmentFits};

use crate::path::Path;
use crate::possible_pairs::possible;
use crate::segment::Segment;
use crate::settled::settle;
use crate::succession::{follow, path_after};
use std::alloc::Global;
use sym_base::NoMemory;
use sym_check::Checked;

/// Adds the path of this one and the next, where that can come after it.
fn add_next(
    alloc: Global,
    checked: &Checked,
    path: &Path,
    next: &Path,
    out: &mut Vec<Path>,
) -> Result<(), NoMemory>
    requires first { PathFits (checked_plan checked.now) path.now }
    requires second { PathFits (checked_plan checked.now) next.now }
    ensures { OnOk result (GrowsBy (checked_plan checked.now)
        path.now next.now out.old.items out.new.items) }
{
    match follow(alloc, checked, path, next)? {
        Some(both) => {
            out.push(both)?;
            Ok(())
        }
        None => Ok(()),
    }
}

/// Adds the paths of this one and each of the others that can come after it.
fn add_each(
    alloc: Global,
    checked: &Checked,
    path: &Path,
    others: &[Path],
    out: &mut Vec<Path>,
) -> Result<(), NoMemory>
    requires first { PathFits (checked_plan checked.now) path.now }
    requires others { SegmentFits (checked_plan checked.now) others.now }
    ensures { OnOk result (GrowsByAll (checked_plan checked.now)
        path.now others.now out.old.items out.new.items) }
{
    'others: for next in others {
        add_next(alloc, checked, path, next, out)?;
    }
    Ok(())
}

/// The index of the last of the others that goes on and can come after the path; `None` where none
/// does. It takes no memory.
fn last_going_on(checked: &Checked, path: &Path, others: &[Path]) -> Option<usize>
    requires first { PathFits (checked_plan checked.now) path.now }
    requires others { SegmentFits (checked_plan checked.now) others.now }
    ensures { IfSome result
        (CanComeAt (test_truth (checked_plan checked.now).tests) path.now others.now) }
{
    let mut end = others.len();
    'others: while end > 0 {
        end -= 1;
        let next = &others[end];
        if next.goes_on() && possible(checked, path, next) {
            return Some(end);
        }
    }
    None
}

/// Adds the paths of this one and each of the others that can come after it, among which is the one
/// at this index. It is moved into that one's, which goes to its place last.
fn add_around(
    alloc: Global,
    checked: &Checked,
    path: Path,
    others: &[Path],
    at: usize,
    out: &mut Vec<Path>,
) -> Result<(), NoMemory>
    requires first { PathFits (checked_plan checked.now) path }
    requires others { SegmentFits (checked_plan checked.now) others.now }
    requires can { CanComeAt (test_truth (checked_plan checked.now).tests) path others.now at }
    ensures { OnOk result (GrowsByAll (checked_plan checked.now)
        path others.now out.old.items out.new.items) }
{
    add_each(alloc, checked, &path, &others[..at], out)?;
    let place = out.len();
    add_each(alloc, checked, &path, &others[at + 1..], out)?;
    let both = path_after(alloc, checked.plan(), path, &others[at])?;
    out.insert(place, both)?;
    Ok(())
}

/// Adds the paths of this one and each of the others that can come after it. Its lists are moved
/// into the last of them that goes on: where one alone does, they aren't copied.
fn add_followed(
    alloc: Global,
    checked: &Checked,
    path: Path,
    others: &[Path],
    out: &mut Vec<Path>,
) -> Result<(), NoMemory>
    requires first { PathFits (checked_plan checked.now) path }
    requires others { SegmentFits (checked_plan checked.now) others.now }
    ensures { OnOk result (GrowsByAll (checked_plan checked.now)
        path others.now out.old.items out.new.items) }
{
    match last_going_on(checked, &path, others) {
        Some(at) => add_around(alloc, checked, path, others, at, out),
        None => add_each(alloc, checked, &path, others, out),
    }
}

/// Adds what becomes of a path before the others: one that has ended stays.
fn add_path(
    alloc: Global,
    checked: &Checked,
    path: Path,
    others: &[Path],
    out: &mut Vec<Path>,
) -> Result<(), NoMemory>
    requires first { PathFits (checked_plan checked.now) path }
    requires others { SegmentFits (checked_plan checked.now) others.now }
    ensures { OnOk result (GrowsByPath (checked_plan checked.now)
        path others.now out.old.items out.new.items) }
{
    if path.goes_on() {
        return add_followed(alloc, checked, path, others, out);
    }
    out.push(path)?;
    Ok(())
}

/// The paths of the left ones and then the right ones, which aren't settled.
fn composed(
    alloc: Global,
    checked: &Checked,
    left: Vec<Path>,
    right: &[Path],
) -> Result<Vec<Path>, NoMemory>
    requires left { SegmentFits (checked_plan checked.now) left.items }
    requires right { SegmentFits (checked_plan checked.now) right.now }
    ensures { IfOk result (λ paths.
        AreComposed (checked_plan checked.now) left.items right.now paths.items) }
{
    let mut paths = Vec::with_capacity(alloc, left.len())?;
    'paths: for path in left {
        add_path(alloc, checked, path, right, &mut paths)?;
    }
    Ok(paths)
}

/// The segment of the left one's records and then the right one's: settled, with at most as many
/// paths as the two have pairs. An ended path of the left stays, and each other path is followed by
/// each of the right that can come after it.
pub fn compose(
    alloc: Global,
    checked: &Checked,
    left: &Segment,
    right: &Segment,
) -> Result<Segment, NoMemory>
    requires left { SegmentFits (checked_plan checked.now) left.now }
    requires right { SegmentFits (checked_plan checked.now) right.now }
    ensures { IfOk result (IsComposition (checked_plan checked.now) left.now right.now) }
{
    left.copy(alloc)?.composed_with(alloc, checked, right)
}

impl Segment {
    /// `compose` of a segment that is given away: its paths are moved. After an `Err` it is
    /// dropped.
    pub fn composed_with(
        self,
        alloc: Global,
        checked: &Checked,
        right: &Segment,
    ) -> Result<Segment, NoMemory>
        requires left { SegmentFits (checked_plan checked.now) self }
        requires right { SegmentFits (checked_plan checked.now) right.now }
        ensures { IfOk result (IsComposition (checked_plan checked.now) self right.now) }
    {
        let paths = composed(alloc, checked, self.into_vec(), right.paths())?;
        settle(alloc, paths)
    }
}
