//! Two segments in one, where they have few pairs.
ghost use Rattle.std.specs.Prelude.{◌≡◌, ◌+◌, ◌≤◌, ◌∷◌, [], IfOk, MatchBool, MatchOption};
ghost use Rattle.sym_check.specs.Checking.CheckedScripts.{checked_plan};
ghost use Rattle.sym_check.specs.Meaning.Conditions.{test_truth};
ghost use Rattle.sym_path.specs.Fitting.{PathFits, SegmentFits};
ghost use Rattle.sym_path.specs.Pairs.{AreFollowers, ArePairs};
ghost use Rattle.sym_path.specs.Within.{HasFollowers, HaveFewPairs, HaveMorePairs, HavePairs, IsComposedWithin};

use crate::path::Path;
use crate::possible_pairs::possible;
use crate::segment::Segment;
use std::alloc::Global;
use sym_base::NoMemory;
use sym_check::Checked;

/// Two segments in one, where they have at most as many pairs as a limit says.
#[derive(PartialEq, Eq, Drop)]
pub enum Composition {
    /// The segment of both.
    One(Segment),
    /// The two as they were given, which have more pairs.
    Apart(Segment, Segment),
}

impl Composition {
    /// An equal answer of its own.
    pub fn copy(&self, alloc: Global) -> Result<Composition, NoMemory>
        ensures { IfOk result (λ composition. composition ≡ self.now) }
    {
        match self {
            Composition::One(segment) => Ok(Composition::One(segment.copy(alloc)?)),
            Composition::Apart(left, right) => {
                let left = left.copy(alloc)?;
                let right = right.copy(alloc)?;
                Ok(Composition::Apart(left, right))
            }
        }
    }
}

/// How many of the others can come after the path; `None` where there are more than `most`.
fn followers_within(checked: &Checked, path: &Path, others: &[Path], most: u32) -> Option<u32>
    requires first { PathFits (checked_plan checked.now) path.now }
    requires others { SegmentFits (checked_plan checked.now) others.now }
    ensures { let truth = test_truth (checked_plan checked.now).tests in
        MatchOption result (HasFollowers truth path.now others.now (most + 1))
        (λ n. AreFollowers truth path.now others.now n × (n ≤ most)) }
{
    let mut count = 0;
    'others: for next in others {
        if possible(checked, path, next) {
            if count == most {
                return None;
            }
            count += 1;
        }
    }
    Some(count)
}

/// The number of pairs of one path and others, where an ended path counts once; `None` where there
/// are more than `most`.
fn pairs_of_within(checked: &Checked, path: &Path, others: &[Path], most: u32) -> Option<u32>
    requires first { PathFits (checked_plan checked.now) path.now }
    requires others { SegmentFits (checked_plan checked.now) others.now }
    ensures { let truth = test_truth (checked_plan checked.now).tests in
        MatchOption result (HavePairs truth (path.now ∷ []) others.now (most + 1))
        (λ n. ArePairs truth (path.now ∷ []) others.now n × (n ≤ most)) }
{
    if path.goes_on() {
        return followers_within(checked, path, others, most);
    }
    if most == 0 { None } else { Some(1) }
}

/// Whether two segments have at most this many pairs. More than one above aren't counted.
fn have_few_pairs(checked: &Checked, left: &Segment, right: &Segment, limit: u32) -> bool
    requires left { SegmentFits (checked_plan checked.now) left.now }
    requires right { SegmentFits (checked_plan checked.now) right.now }
    ensures { let truth = test_truth (checked_plan checked.now).tests in
        MatchBool result (HaveFewPairs truth left.now right.now limit)
        (HaveMorePairs truth left.now right.now limit) }
{
    let mut count = 0;
    'paths: for path in left.paths() {
        match pairs_of_within(checked, path, right.paths(), limit - count) {
            Some(more) => count += more,
            None => return false,
        }
    }
    true
}

/// `compose` of two segments that are given away, if they have at most `limit` pairs, ended paths
/// of the left among them: the paths of the left are moved. Else both are given back as they were,
/// and no pair is looked at after the first one over the limit. After an `Err` both are dropped.
pub fn compose_within(
    alloc: Global,
    checked: &Checked,
    left: Segment,
    right: Segment,
    limit: u32,
) -> Result<Composition, NoMemory>
    requires left { SegmentFits (checked_plan checked.now) left }
    requires right { SegmentFits (checked_plan checked.now) right }
    ensures { IfOk result (IsComposedWithin (checked_plan checked.now) left right limit) }
{
    if !have_few_pairs(checked, &left, &right, limit) {
        return Ok(Composition::Apart(left, right));
    }
    Ok(Composition::One(left.composed_with(alloc, checked, &right)?))
}
