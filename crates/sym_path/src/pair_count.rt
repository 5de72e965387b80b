//! How many pairs two segments have.
ghost use Rattle.std.specs.Prelude.{◌≤◌, ◌<◌, ◌^◌, ◌∷◌, [], length};
ghost use Rattle.sym_check.specs.Checking.CheckedScripts.{checked_plan};
ghost use Rattle.sym_check.specs.Meaning.Conditions.{test_truth};
ghost use Rattle.sym_path.specs.Fitting.{PathFits, SegmentFits};
ghost use Rattle.sym_path.specs.Pairs.{AreFollowers, ArePairs};

use crate::path::Path;
use crate::possible_pairs::possible;
use crate::segment::Segment;
use sym_check::Checked;

/// How many of the others can come after the path.
fn followers(checked: &Checked, path: &Path, others: &[Path]) -> u64
    requires first { PathFits (checked_plan checked.now) path.now }
    requires others { SegmentFits (checked_plan checked.now) others.now }
    requires few { length others.now < 2 ^ 32 }
    ensures number { AreFollowers (test_truth (checked_plan checked.now).tests)
        path.now others.now result }
    ensures few { result ≤ length others.now }
{
    let mut count = 0;
    'others: for next in others {
        if possible(checked, path, next) {
            count += 1;
        }
    }
    count
}

/// The number of pairs of one path and others: an ended path counts once.
fn pairs_of(checked: &Checked, path: &Path, others: &[Path]) -> u64
    requires first { PathFits (checked_plan checked.now) path.now }
    requires others { SegmentFits (checked_plan checked.now) others.now }
    requires few { length others.now < 2 ^ 32 }
    ensures number { ArePairs (test_truth (checked_plan checked.now).tests)
        (path.now ∷ []) others.now result }
    ensures few { result ≤ 2 ^ 32 }
{
    if path.goes_on() {
        followers(checked, path, others)
    } else {
        1
    }
}

/// The number of paths of the left segment that have ended, and of pairs of a path of the left that
/// goes on and a path of the right that can come after it.
pub fn pairs(checked: &Checked, left: &Segment, right: &Segment) -> u64
    requires left { SegmentFits (checked_plan checked.now) left.now }
    requires right { SegmentFits (checked_plan checked.now) right.now }
    requires few_left { length left.now < 2 ^ 32 }
    requires few_right { length right.now < 2 ^ 32 }
    ensures { ArePairs (test_truth (checked_plan checked.now).tests) left.now right.now result }
{
    let mut count = 0;
    'paths: for path in left.paths() {
        count += pairs_of(checked, path, right.paths());
    }
    count
}
