//! A chain joined to that of its group, where neither keeps records. Unlike those of `join_groups`,
//! the chains needn't be tight, and they may stand for no records.
ghost use Rattle.std.specs.Prelude.{◌≡◌, ◌≤◌, ◌++◌, false, List, IfOk, OnOk, Some, length, slice_get};
ghost use Rattle.std.specs.Map.{keys_of};
ghost use Rattle.sym_base.specs.declared.values.record.Record.{Record as OneRecord};
ghost use Rattle.sym_base.specs.declared.values.value.Key.{Key as OneKey};
ghost use Rattle.sym_check.specs.Checking.CheckedScripts.{checked_plan};
ghost use Rattle.sym_check.specs.Meaning.Conditions.{test_truth};
ghost use Rattle.sym_path.specs.Fitting.{PathFits, SegmentFits};
ghost use Rattle.sym_path.specs.Standing.{StandsFor};
ghost use Rattle.sym_plain.specs.Pairs.{HaveDistinctKeys};
ghost use Rattle.sym_run.specs.Chains.{ChainFits, HasFewPaths, IsClosed, SegmentsAreTight, SegmentsFit, SegmentsStandFor};
ghost use Rattle.sym_run.specs.ClosedJoins.{GrowsByClosed, HasNoFollower, HaveNoPairs, IsChainJoin, IsComposedUnlessApart};
ghost use Rattle.sym_run.specs.Runs.{AreClosed, GroupsFit};

use crate::chains::Chain;
use crate::run_groups::RunGroups;
use crate::segments::{Held, Segments};
use indexmap::IndexMap;
use std::alloc::Global;
use std::mem;
use sym_base::{Key, NoMemory};
use sym_check::Checked;
use sym_path::{Composition, Path, Segment, compose_within, possible};

/// Whether one of the others can come after the path.
fn has_follower(checked: &Checked, path: &Path, others: &[Path]) -> bool
    requires first { PathFits (checked_plan checked.now) path.now }
    requires others { SegmentFits (checked_plan checked.now) others.now }
    ensures { result ≡ false →
        HasNoFollower (test_truth (checked_plan checked.now).tests) path.now others.now }
{
    'others: for next in others {
        if possible(checked, path, next) {
            return true;
        }
    }
    false
}

/// Whether two segments have a pair: a path of the left one has ended, or one of the right one can
/// come after it.
fn have_pairs(checked: &Checked, left: &Segment, right: &Segment) -> bool
    requires left { SegmentFits (checked_plan checked.now) left.now }
    requires right { SegmentFits (checked_plan checked.now) right.now }
    ensures { result ≡ false →
        HaveNoPairs (test_truth (checked_plan checked.now).tests) left.now right.now }
{
    'paths: for path in left.paths() {
        if !path.goes_on() {
            return true;
        }
        if has_follower(checked, path, right.paths()) {
            return true;
        }
    }
    false
}

/// Two segments in one where they have pairs, and at most `limit` of them; else both as they are. A
/// composition without pairs would have no path.
fn compose_unless_apart(
    alloc: Global,
    checked: &Checked,
    left: Segment,
    right: Segment,
    limit: u32,
) -> Result<Composition, NoMemory>
    requires left { SegmentFits (checked_plan checked.now) left }
    requires right { SegmentFits (checked_plan checked.now) right }
    ensures { IfOk result (IsComposedUnlessApart (checked_plan checked.now) left right limit) }
{
    let _plan = checked.plan();
    if !have_pairs(checked, &left, &right) {
        return Ok(Composition::Apart(left, right));
    }
    compose_within(alloc, checked, left, right, limit)
}

/// One segment and another.
fn push_after_one(
    alloc: Global,
    checked: &Checked,
    left: Segment,
    right: Segment,
    limit: u32,
) -> Result<Segments, NoMemory>
    requires left { SegmentFits (checked_plan checked.now) left }
    requires right { SegmentFits (checked_plan checked.now) right }
    ensures some { IfOk result (λ pushed. 1 ≤ length pushed) }
    ensures fits { IfOk result (SegmentsFit (checked_plan checked.now)) }
    ensures stands { (first rest : List OneRecord) →
        StandsFor (checked_plan checked.now) first left →
        StandsFor (checked_plan checked.now) rest right →
        IfOk result (SegmentsStandFor (checked_plan checked.now) (first ++ rest)) }
    ensures tight { (first rest : List OneRecord) →
        StandsFor (checked_plan checked.now) first left →
        StandsFor (checked_plan checked.now) rest right →
        HasFewPaths (checked_plan checked.now) limit left →
        HasFewPaths (checked_plan checked.now) limit right →
        IfOk result (SegmentsAreTight (checked_plan checked.now) limit) }
{
    match compose_unless_apart(alloc, checked, left, right, limit)? {
        Composition::One(both) => Ok(Segments::of_one(both)),
        Composition::Apart(left, right) => {
            let mut segments = Vec::with_capacity(alloc, 2)?;
            segments.push(left)?;
            segments.push(right)?;
            Ok(Segments::of(segments))
        }
    }
}

/// These segments and one more, of which there may be none.
fn push_after(
    alloc: Global,
    checked: &Checked,
    segments: Vec<Segment>,
    segment: Segment,
    limit: u32,
) -> Result<Segments, NoMemory>
    requires segments { SegmentsFit (checked_plan checked.now) segments.items }
    requires segment { SegmentFits (checked_plan checked.now) segment }
    ensures some { IfOk result (λ pushed. 1 ≤ length pushed) }
    ensures fits { IfOk result (SegmentsFit (checked_plan checked.now)) }
    ensures stands { (first rest : List OneRecord) →
        SegmentsStandFor (checked_plan checked.now) first segments.items →
        StandsFor (checked_plan checked.now) rest segment →
        IfOk result (SegmentsStandFor (checked_plan checked.now) (first ++ rest)) }
    ensures tight { (first rest : List OneRecord) →
        SegmentsStandFor (checked_plan checked.now) first segments.items →
        StandsFor (checked_plan checked.now) rest segment →
        SegmentsAreTight (checked_plan checked.now) limit segments.items →
        HasFewPaths (checked_plan checked.now) limit segment →
        IfOk result (SegmentsAreTight (checked_plan checked.now) limit) }
{
    let mut segments = segments;
    let mut last = segment;
    'ends: while let Some(left) = segments.pop() {
        match compose_unless_apart(alloc, checked, left, last, limit)? {
            Composition::One(both) => last = both,
            Composition::Apart(left, right) => {
                segments.push(left)?;
                segments.push(right)?;
                return Ok(Segments::of(segments));
            }
        }
    }
    Ok(Segments::of_one(last))
}

/// The segments and one more. Those at the end are composed while two neighbours have pairs, and at
/// most `limit` of them.
fn push_next(
    alloc: Global,
    checked: &Checked,
    segments: Segments,
    segment: Segment,
    limit: u32,
) -> Result<Segments, NoMemory>
    requires segments { SegmentsFit (checked_plan checked.now) segments }
    requires segment { SegmentFits (checked_plan checked.now) segment }
    ensures some { IfOk result (λ pushed. 1 ≤ length pushed) }
    ensures fits { IfOk result (SegmentsFit (checked_plan checked.now)) }
    ensures stands { (first rest : List OneRecord) →
        SegmentsStandFor (checked_plan checked.now) first segments →
        StandsFor (checked_plan checked.now) rest segment →
        IfOk result (SegmentsStandFor (checked_plan checked.now) (first ++ rest)) }
    ensures tight { (first rest : List OneRecord) →
        SegmentsStandFor (checked_plan checked.now) first segments →
        StandsFor (checked_plan checked.now) rest segment →
        SegmentsAreTight (checked_plan checked.now) limit segments →
        HasFewPaths (checked_plan checked.now) limit segment →
        IfOk result (SegmentsAreTight (checked_plan checked.now) limit) }
{
    match segments.into_held() {
        Held::One(left) => push_after_one(alloc, checked, left, segment, limit),
        Held::More(segments) => push_after(alloc, checked, segments, segment, limit),
    }
}

/// Some segments and then others, which are pushed one after the other.
fn push_others(
    alloc: Global,
    checked: &Checked,
    left: Segments,
    right: Vec<Segment>,
    limit: u32,
) -> Result<Segments, NoMemory>
    requires left { SegmentsFit (checked_plan checked.now) left }
    requires right { SegmentsFit (checked_plan checked.now) right.items }
    ensures some { 1 ≤ length right.items → IfOk result (λ joined. 1 ≤ length joined) }
    ensures fits { IfOk result (SegmentsFit (checked_plan checked.now)) }
    ensures stands { (first rest : List OneRecord) →
        SegmentsStandFor (checked_plan checked.now) first left →
        SegmentsStandFor (checked_plan checked.now) rest right.items →
        IfOk result (SegmentsStandFor (checked_plan checked.now) (first ++ rest)) }
    ensures tight { (first rest : List OneRecord) →
        SegmentsStandFor (checked_plan checked.now) first left →
        SegmentsStandFor (checked_plan checked.now) rest right.items →
        SegmentsAreTight (checked_plan checked.now) limit left →
        SegmentsAreTight (checked_plan checked.now) limit right.items →
        IfOk result (SegmentsAreTight (checked_plan checked.now) limit) }
{
    let mut joined = left;
    'segments: for segment in right {
        joined = push_next(alloc, checked, joined, segment, limit)?;
    }
    Ok(joined)
}

/// Some segments and then others, of which there is one at least.
fn push_all(
    alloc: Global,
    checked: &Checked,
    left: Segments,
    right: Segments,
    limit: u32,
) -> Result<Segments, NoMemory>
    requires left { SegmentsFit (checked_plan checked.now) left }
    requires right { SegmentsFit (checked_plan checked.now) right }
    requires there { 1 ≤ length right }
    ensures some { IfOk result (λ joined. 1 ≤ length joined) }
    ensures fits { IfOk result (SegmentsFit (checked_plan checked.now)) }
    ensures stands { (first rest : List OneRecord) →
        SegmentsStandFor (checked_plan checked.now) first left →
        SegmentsStandFor (checked_plan checked.now) rest right →
        IfOk result (SegmentsStandFor (checked_plan checked.now) (first ++ rest)) }
    ensures tight { (first rest : List OneRecord) →
        SegmentsStandFor (checked_plan checked.now) first left →
        SegmentsStandFor (checked_plan checked.now) rest right →
        SegmentsAreTight (checked_plan checked.now) limit left →
        SegmentsAreTight (checked_plan checked.now) limit right →
        IfOk result (SegmentsAreTight (checked_plan checked.now) limit) }
{
    match right.into_held() {
        Held::One(segment) => push_next(alloc, checked, left, segment, limit),
        Held::More(segments) => push_others(alloc, checked, left, segments, limit),
    }
}

/// Puts the right chain's records after the left one's, where neither keeps records. They needn't be
/// tight, and may stand for no records. Neighbours are composed where they have pairs, and at most
/// `limit` of them. After an `Err` the left chain is unspecified.
pub fn join_chain(
    alloc: Global,
    checked: &Checked,
    left: &mut Chain,
    right: Chain,
    limit: u32,
) -> Result<(), NoMemory>
    requires left { ChainFits (checked_plan checked.now) left.old }
    requires right { ChainFits (checked_plan checked.now) right }
    requires closed_left { IsClosed left.old }
    requires closed_right { IsClosed right }
    ensures { OnOk result (IsChainJoin (checked_plan checked.now) limit left.old right left.new) }
{
    let none = Chain::of_one(alloc, Segment::of(Vec::new(alloc)));
    let (segments, _none) = mem::replace(left, none).into_parts();
    let (others, _none) = right.into_parts();
    let joined = push_all(alloc, checked, segments, others, limit)?;
    *left = Chain::of_segments(alloc, joined);
    Ok(())
}

/// Joins the right chain to that of the group at an index.
fn join_at(
    alloc: Global,
    checked: &Checked,
    map: &mut IndexMap<Key, Chain>,
    index: usize,
    right: Chain,
    limit: u32,
) -> Result<(), NoMemory>
    requires left { GroupsFit (checked_plan checked.now) map.old.entries }
    requires right { ChainFits (checked_plan checked.now) right }
    requires closed_left { AreClosed map.old.entries }
    requires closed_right { IsClosed right }
    ensures joins { (key : OneKey) → slice_get (keys_of map.old.entries) index ≡ Some key →
        OnOk result (GrowsByClosed (checked_plan checked.now) limit key right map.old.entries
        map.new.entries) }
    ensures distinct { HaveDistinctKeys map.new.entries }
{
    match map.get_index_mut(index) {
        Some(chain) => join_chain(alloc, checked, chain, right, limit),
        None => Ok(()),
    }
}

impl RunGroups {
    /// Puts the right chain's records after those of the group at `index`, where no chain keeps
    /// records. Unlike those of `join_groups`, the chains needn't be tight, and they may stand for
    /// no records. Neighbours in the chain are composed where they have pairs, and at most `limit`
    /// of them. After an `Err` the groups are unspecified.
    pub fn join_at(
        &mut self,
        alloc: Global,
        checked: &Checked,
        index: usize,
        right: Chain,
        limit: u32,
    ) -> Result<(), NoMemory>
        requires left { GroupsFit (checked_plan checked.now) self.old }
        requires right { ChainFits (checked_plan checked.now) right }
        requires closed_left { AreClosed self.old }
        requires closed_right { IsClosed right }
        ensures { (key : OneKey) → slice_get (keys_of self.old) index ≡ Some key →
            OnOk result (GrowsByClosed (checked_plan checked.now) limit key right self.old
            self.new) }
    {
        join_at(alloc, checked, &mut self.map, index, right, limit)
    }
}
