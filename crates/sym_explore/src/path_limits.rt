//! Segments that are taken a record further where a limit of paths allows it.
ghost use Rattle.std.specs.List.{All};
ghost use Rattle.std.specs.Prelude.{◌≡◌, ◌≤◌, ◌++◌, ◌∷◌, [], true, false, List, IfOk, IfSome, IsTrue, length};
ghost use Rattle.sym_check.specs.Checking.CheckedScripts.{checked_plan};
ghost use Rattle.sym_check.specs.Meaning.Validity.{IsRecord};
ghost use Rattle.sym_path.specs.declared.path.Path.{Path as OnePath};
ghost use Rattle.sym_path.specs.Fitting.{SegmentFits};
ghost use Rattle.sym_path.specs.Joining.{IsSettled};
ghost use Rattle.sym_explore.specs.Counting.{most_grown, most_paths};
ghost use Rattle.sym_explore.specs.Growing.{IsLonger};
ghost use Rattle.sym_explore.specs.Limiting.{AreInTurn, IsExtended, IsExtendedBy, chosen, is_chosen};
ghost use Rattle.sym_explore.specs.Sure.{IsSureEnd};

use crate::extensions::explore_going;
use crate::known_paths::step_each;
use crate::scratch::Scratch;
use crate::sure::all_end_sure;
use std::alloc::Global;
use sym_base::{NoMemory, Record};
use sym_check::Checked;
use sym_path::{Path, PathEnd, Segment, settle};

/// A segment that was taken a record further, if the limit of paths allows it.
#[derive(PartialEq, Eq, Drop)]
pub enum Extension {
    /// The longer segment, which has at most as many paths as the limit says.
    Fits(Segment),
    /// The segment as it was given, since the longer one has more paths.
    Over(Segment),
}

impl Extension {
    /// An equal answer of its own.
    pub fn copy(&self, alloc: Global) -> Result<Extension, NoMemory>
        ensures { IfOk result (λ extension. extension ≡ self.now) }
    {
        match self {
            Extension::Fits(segment) => Ok(Extension::Fits(segment.copy(alloc)?)),
            Extension::Over(segment) => Ok(Extension::Over(segment.copy(alloc)?)),
        }
    }
}

/// At most how many paths a path becomes where one that goes on becomes at most `most`.
fn most_of(path: &Path, most: u32) -> u32
    ensures { result ≡ most_paths path.now.end most }
{
    if path.goes_on() { most } else { 1 }
}

/// Whether the paths are within the limit after any record: those that have ended stay, and each
/// other one becomes at most `most`.
fn surely_fit(paths: &[Path], most: u32, limit: u32) -> bool
    ensures { IsTrue result → most_grown most paths.now ≤ limit }
{
    let mut left = limit;
    'paths: for path in paths {
        let more = most_of(path, most);
        if left < more {
            return false;
        }
        left -= more;
    }
    true
}

/// Whether the path has ended, or goes on.
fn is_chosen(path: &Path, ended: bool) -> bool
    ensures { result ≡ is_chosen ended path.now }
{
    if ended {
        !path.goes_on()
    } else {
        path.goes_on()
    }
}

/// The number of paths that have ended.
fn count_ended(paths: &[Path]) -> usize
    ensures { result ≡ length (chosen true paths.now) }
{
    let mut count = 0;
    'paths: for path in paths {
        if is_chosen(path, true) {
            count += 1;
        }
    }
    count
}

/// Copies of the paths that have ended, or of those that go on.
fn copies_of(alloc: Global, paths: &[Path], ended: bool) -> Result<Vec<Path>, NoMemory>
    ensures { IfOk result (λ copies. copies.items ≡ chosen ended paths.now) }
{
    let mut copies = Vec::new(alloc);
    'paths: for path in paths {
        if is_chosen(path, ended) {
            copies.push(path.copy(alloc)?)?;
        }
    }
    Ok(copies)
}

/// Lets the paths that go on go.
fn keep_ended(paths: &mut Vec<Path>)
    ensures { paths.new.items ≡ chosen true paths.old.items }
{
    paths.retain(|path| is_chosen(path, true));
}

/// How far paths are that end in turn: the number of the record at which the last one ended, or 0,
/// and whether one of them goes on.
#[derive(Clone, Copy)]
pub struct Turn {
    pub last: u64,
    pub going: bool,
}

/// How far paths are with this one after them; `None` where it ended at no later record, or is the
/// second one that goes on.
fn next_in_turn(path: &Path, turn: Turn) -> Option<Turn>
    ensures { (before : List OnePath) → AreInTurn turn before →
        IfSome result (λ next. AreInTurn next (before ++ path.now ∷ [])) }
{
    let Turn { last, going } = turn;
    match &path.end {
        PathEnd::Ended(fault) if last < fault.no => {
            let last = fault.no;
            Some(Turn { last, going })
        }
        PathEnd::Next(_) if !going => {
            let going = true;
            Some(Turn { last, going })
        }
        _ => None,
    }
}

/// How far the paths are that have ended, where they did so in turn.
fn turn_of_ended(paths: &[Path]) -> Option<Turn>
    ensures { IfSome result (λ turn. AreInTurn turn (chosen true paths.now)) }
{
    let mut turn = Turn {
        last: 0,
        going: false,
    };
    'paths: for path in paths {
        if is_chosen(path, true) {
            turn = next_in_turn(path, turn)?;
        }
    }
    Some(turn)
}

/// How far paths are with these after them, where they end in turn.
fn turn_after(paths: &[Path], turn: Turn) -> Option<Turn>
    ensures { (before : List OnePath) → AreInTurn turn before →
        IfSome result (λ next. AreInTurn next (before ++ paths.now)) }
{
    let mut turn = turn;
    'paths: for path in paths {
        turn = next_in_turn(path, turn)?;
    }
    Some(turn)
}

/// Whether the paths that have ended, and others after them, end in turn, so that no two of them
/// can be joined.
fn end_in_turn(paths: &[Path], others: &[Path]) -> bool
    ensures { IsTrue result → IsSettled (chosen true paths.now ++ others.now) }
{
    match turn_of_ended(paths) {
        Some(turn) => turn_after(others, turn).is_some(),
        None => false,
    }
}

/// Settles the segment's paths that have ended with what those that go on became. They are moved
/// where the limit can't be passed, and copied where it may be. Where no two can be joined, the
/// limit is passed without either.
fn extend_by(
    alloc: Global,
    segment: Segment,
    grown: Vec<Path>,
    limit: u32,
) -> Result<Extension, NoMemory>
    ensures { IfOk result (IsExtendedBy segment grown.items limit) }
{
    let mut grown = grown;
    if count_ended(segment.paths()).saturating_add(grown.len()) <= limit as usize {
        let mut paths = segment.into_vec();
        keep_ended(&mut paths);
        paths.append(&mut grown)?;
        return Ok(Extension::Fits(settle(alloc, paths)?));
    }
    if end_in_turn(segment.paths(), &grown) {
        return Ok(Extension::Over(segment));
    }
    let mut paths = copies_of(alloc, segment.paths(), true)?;
    paths.append(&mut grown)?;
    let settled = settle(alloc, paths)?;
    if settled.paths().len() <= limit as usize {
        Ok(Extension::Fits(settled))
    } else {
        Ok(Extension::Over(segment))
    }
}

/// The segment taken a record further, or as it was: the paths that go on are copied before.
fn extend_copied(
    alloc: Global,
    checked: &Checked,
    segment: Segment,
    rec: &Record,
    limit: u32,
    scratch: &mut Scratch,
) -> Result<Extension, NoMemory>
    requires fits { SegmentFits (checked_plan checked.now) segment }
    requires rec { IsRecord (checked_plan checked.now) rec.now }
    ensures { IfOk result (IsExtended (checked_plan checked.now) rec.now segment limit) }
{
    let plan = checked.plan();
    let going = copies_of(alloc, segment.paths(), false)?;
    let grown = explore_going(alloc, plan, rec, scratch, going)?;
    extend_by(alloc, segment, grown, limit)
}

/// The segment taken a record further, where each path has ended or its cells are known: each makes
/// the step of a group where it stands, and stays one path.
fn extend_sure(
    alloc: Global,
    checked: &Checked,
    segment: Segment,
    rec: &Record,
    scratch: &mut Scratch,
) -> Result<Segment, NoMemory>
    requires fits { SegmentFits (checked_plan checked.now) segment }
    requires sure { All (λ (path : OnePath). IsSureEnd path.end) segment }
    requires rec { IsRecord (checked_plan checked.now) rec.now }
    ensures longer { IfOk result (IsLonger (checked_plan checked.now) rec.now segment) }
    ensures few { IfOk result (λ longer. length longer ≤ length segment) }
{
    let mut paths = segment.into_vec();
    step_each(alloc, checked.plan(), rec, scratch, &mut paths)?;
    settle(alloc, paths)
}

/// Whether there are no more paths than the limit says, each of which has ended or has known cells.
fn stays_within(paths: &[Path], limit: u32) -> bool
    ensures few { IsTrue result → length paths.now ≤ limit }
    ensures sure { IsTrue result → All (λ (path : OnePath). IsSureEnd path.end) paths.now }
{
    paths.len() <= limit as usize && all_end_sure(paths)
}

/// `grow_with` if the longer segment is within the limit; else the segment is given back as it was.
/// The paths are changed where they lie if their cells are known, or the path bound keeps them
/// within the limit. Else those that go on are copied before. After an `Err` the segment is
/// dropped.
pub fn extend_within(
    alloc: Global,
    checked: &Checked,
    segment: Segment,
    rec: &Record,
    limit: u32,
    scratch: &mut Scratch,
) -> Result<Extension, NoMemory>
    requires fits { SegmentFits (checked_plan checked.now) segment }
    requires rec { IsRecord (checked_plan checked.now) rec.now }
    ensures { IfOk result (IsExtended (checked_plan checked.now) rec.now segment limit) }
{
    if stays_within(segment.paths(), limit) {
        let longer = extend_sure(alloc, checked, segment, rec, scratch)?;
        return Ok(Extension::Fits(longer));
    }
    let plan = checked.plan();
    if surely_fit(segment.paths(), checked.path_bound(), limit) {
        let grown = explore_going(alloc, plan, rec, scratch, segment.into_vec())?;
        return Ok(Extension::Fits(settle(alloc, grown)?));
    }
    extend_copied(alloc, checked, segment, rec, limit, scratch)
}
