//! Segments of one record, and segments that are taken a record further.
ghost use Rattle.std.specs.Prelude.{◌≡◌, ◌≤◌, IfOk, length};
ghost use Rattle.sym_check.specs.Checking.CheckedScripts.{checked_plan};
ghost use Rattle.sym_check.specs.Plan.ScriptPlans.{script_plan};
ghost use Rattle.sym_check.specs.Meaning.Validity.{IsRecord};
ghost use Rattle.sym_check.specs.Plan.WellFormed.{IsWellFormed};
ghost use Rattle.sym_path.specs.Fitting.{SegmentFits};
ghost use Rattle.sym_explore.specs.Counting.{made_paths, most_grown};
ghost use Rattle.sym_explore.specs.Growing.{IsExplored, IsLonger, IsSegmentOf, IsToldBy, grown_paths};

use crate::ended_paths::take_going;
use crate::known_paths::step_each;
use crate::moves::move_all;
use crate::scratch::Scratch;
use crate::statements::run_block;
use crate::sure::all_end_sure;
use std::alloc::Global;
use sym_base::{NoMemory, Record};
use sym_check::{Checked, Plan};
use sym_path::{Path, Segment, settle};

/// A segment that was taken a record further.
#[derive(PartialEq, Eq, Drop)]
pub enum Grown {
    /// It has at most as many paths as the limit says.
    Fits(Segment),
    /// It has more.
    Over(Segment),
}

impl Grown {
    /// An equal answer of its own.
    pub fn copy(&self, alloc: Global) -> Result<Grown, NoMemory>
        ensures { IfOk result (λ grown. grown ≡ self.now) }
    {
        match self {
            Grown::Fits(segment) => Ok(Grown::Fits(segment.copy(alloc)?)),
            Grown::Over(segment) => Ok(Grown::Over(segment.copy(alloc)?)),
        }
    }
}

/// Takes the paths that go on through the update of a record. Those that have ended stay as they
/// are.
pub(crate) fn explore_going(
    alloc: Global,
    plan: &Plan,
    rec: &Record,
    scratch: &mut Scratch,
    paths: Vec<Path>,
) -> Result<Vec<Path>, NoMemory>
    requires known { IsWellFormed (script_plan plan.now) }
    requires rec { IsRecord (script_plan plan.now) rec.now }
    requires fits { SegmentFits (script_plan plan.now) paths.items }
    ensures explored { IfOk result (λ new.
        IsExplored (script_plan plan.now) rec.now paths.items new.items) }
    ensures each_few { let most = made_paths (script_plan plan.now) in
        IfOk result (λ new. length new.items ≤ most_grown most paths.items) }
{
    let mut lists = scratch.take_lists(alloc, paths);
    take_going(&mut lists.ended, &mut lists.paths)?;
    scratch.locals.truncate(0);
    run_block(alloc, plan, rec, &plan.update, scratch, &mut lists)?;
    move_all(&mut lists.paths, &mut lists.ended)?;
    Ok(scratch.keep_lists(lists))
}

/// The same. Where the cells of all paths that go on are known, each makes the step of a group where
/// it lies.
pub(crate) fn explore_each(
    alloc: Global,
    plan: &Plan,
    rec: &Record,
    scratch: &mut Scratch,
    paths: Vec<Path>,
) -> Result<Vec<Path>, NoMemory>
    requires known { IsWellFormed (script_plan plan.now) }
    requires rec { IsRecord (script_plan plan.now) rec.now }
    requires fits { SegmentFits (script_plan plan.now) paths.items }
    ensures explored { IfOk result (λ new.
        IsExplored (script_plan plan.now) rec.now paths.items new.items) }
    ensures each_few { let most = made_paths (script_plan plan.now) in
        IfOk result (λ new. length new.items ≤ most_grown most paths.items) }
{
    if all_end_sure(&paths) {
        let mut paths = paths;
        step_each(alloc, plan, rec, scratch, &mut paths)?;
        return Ok(paths);
    }
    explore_going(alloc, plan, rec, scratch, paths)
}

/// Whether a segment is within the limit.
fn told(segment: Segment, limit: u32) -> Grown
    ensures same { grown_paths result ≡ segment }
    ensures limit { IsToldBy limit result }
{
    if segment.paths().len() <= limit as usize {
        Grown::Fits(segment)
    } else {
        Grown::Over(segment)
    }
}

/// The segment of one record: what its update does to every valid state, whether or not a run can
/// reach it. It is settled, has at most as many paths as the script's path bound says, and stands
/// for the record.
pub fn fresh(alloc: Global, checked: &Checked, rec: &Record) -> Result<Segment, NoMemory>
    requires { IsRecord (checked_plan checked.now) rec.now }
    ensures { IfOk result (IsSegmentOf (checked_plan checked.now) rec.now) }
{
    let mut scratch = Scratch::new(alloc);
    fresh_with(alloc, checked, rec, &mut scratch)
}

/// `fresh` with memory that is used again, whatever is in it.
pub fn fresh_with(
    alloc: Global,
    checked: &Checked,
    rec: &Record,
    scratch: &mut Scratch,
) -> Result<Segment, NoMemory>
    requires { IsRecord (checked_plan checked.now) rec.now }
    ensures { IfOk result (IsSegmentOf (checked_plan checked.now) rec.now) }
{
    let whole = Path::all(alloc, checked)?;
    let mut paths = Vec::with_capacity(alloc, 1)?;
    paths.push(whole)?;
    let explored = explore_each(alloc, checked.plan(), rec, scratch, paths)?;
    settle(alloc, explored)
}

/// The segment taken through the update of one more record: it stands for the records for which the
/// segment stands and then this one. Wherever at most one path of the segment admits a state, it
/// gives what the record makes of what that path gives, so what has ended stays so. It is settled,
/// and has at most as many paths as those of the segment times the script's path bound. The answer
/// is `Fits` exactly where there are at most `limit` paths.
pub fn extend(
    alloc: Global,
    checked: &Checked,
    segment: &Segment,
    rec: &Record,
    limit: u32,
) -> Result<Grown, NoMemory>
    requires fits { SegmentFits (checked_plan checked.now) segment.now }
    requires rec { IsRecord (checked_plan checked.now) rec.now }
    ensures longer { IfOk result (λ grown.
        IsLonger (checked_plan checked.now) rec.now segment.now (grown_paths grown)) }
    ensures limit { IfOk result (IsToldBy limit) }
{
    grow(alloc, checked, segment.copy(alloc)?, rec, limit)
}

/// `extend` of a segment that is given away: its paths are changed where they lie. After an `Err`
/// it is dropped.
pub fn grow(
    alloc: Global,
    checked: &Checked,
    segment: Segment,
    rec: &Record,
    limit: u32,
) -> Result<Grown, NoMemory>
    requires fits { SegmentFits (checked_plan checked.now) segment }
    requires rec { IsRecord (checked_plan checked.now) rec.now }
    ensures longer { IfOk result (λ grown.
        IsLonger (checked_plan checked.now) rec.now segment (grown_paths grown)) }
    ensures limit { IfOk result (IsToldBy limit) }
{
    let mut scratch = Scratch::new(alloc);
    grow_with(alloc, checked, segment, rec, limit, &mut scratch)
}

/// `grow` with memory that is used again, whatever is in it.
pub fn grow_with(
    alloc: Global,
    checked: &Checked,
    segment: Segment,
    rec: &Record,
    limit: u32,
    scratch: &mut Scratch,
) -> Result<Grown, NoMemory>
    requires fits { SegmentFits (checked_plan checked.now) segment }
    requires rec { IsRecord (checked_plan checked.now) rec.now }
    ensures longer { IfOk result (λ grown.
        IsLonger (checked_plan checked.now) rec.now segment (grown_paths grown)) }
    ensures limit { IfOk result (IsToldBy limit) }
{
    let explored = explore_each(alloc, checked.plan(), rec, scratch, segment.into_vec())?;
    let settled = settle(alloc, explored)?;
    Ok(told(settled, limit))
}
