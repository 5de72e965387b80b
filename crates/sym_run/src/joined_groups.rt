//! The groups of two runs in one.
ghost use Rattle.std.specs.Prelude.{◌≡◌, ◌≤◌, ◌++◌, ℕ, List, IfOk, OnOk, length};
ghost use Rattle.sym_base.specs.declared.values.record.Record.{Record as OneRecord};
ghost use Rattle.sym_check.specs.Checking.CheckedScripts.{checked_plan};
ghost use Rattle.sym_path.specs.Fitting.{SegmentFits};
ghost use Rattle.sym_path.specs.Standing.{StandsFor};
ghost use Rattle.sym_plain.specs.Pairs.{HaveDistinctKeys};
ghost use Rattle.sym_run.specs.Chains.{ChainFits, ChainStandsFor, HasFewPaths, IsClosed, IsTight, SegmentsAreTight, SegmentsFit, SegmentsStandFor};
ghost use Rattle.sym_run.specs.Growing.{AreBoth, GrowsByChain, IsKeptAfter, JoinsUnless};
ghost use Rattle.sym_run.specs.Keeping.{AreWide};
ghost use Rattle.sym_run.specs.Pushing.{IsPushedOnto};
ghost use Rattle.sym_run.specs.Runs.{AreClosed, AreTight, GroupsFit, GroupsStandFor};

use crate::chains::Chain;
use crate::pushed::push_segment;
use crate::run_groups::RunGroups;
use crate::segments::{Held, Segments};
use indexmap::IndexMap;
use std::alloc::Global;
use std::mem;
use sym_base::{Key, NoMemory};
use sym_check::Checked;
use sym_path::Segment;

/// The chain of a chain's records and then a segment's. What the chain keeps is explored before.
/// Segments at the end are composed as long as two neighbours have at most `limit` pairs, and no
/// others are.
pub fn push(
    alloc: Global,
    checked: &Checked,
    chain: Chain,
    segment: Segment,
    limit: u32,
) -> Result<Chain, NoMemory>
    requires chain { ChainFits (checked_plan checked.now) chain }
    requires tight { IsTight (checked_plan checked.now) limit chain }
    requires segment { SegmentFits (checked_plan checked.now) segment }
    requires few { HasFewPaths (checked_plan checked.now) limit segment }
    ensures fits { IfOk result (ChainFits (checked_plan checked.now)) }
    ensures tight { IfOk result (IsTight (checked_plan checked.now) limit) }
    ensures stands { (first rest : List OneRecord) →
        ChainStandsFor (checked_plan checked.now) first chain →
        StandsFor (checked_plan checked.now) rest segment →
        IfOk result (ChainStandsFor (checked_plan checked.now) (first ++ rest)) }
    ensures closed { IfOk result IsClosed }
    ensures pushed { IfOk result (IsPushedOnto (checked_plan checked.now) limit chain segment) }
{
    let chain = chain.closed(alloc, checked, limit)?;
    let (segments, _kept) = chain.into_parts();
    let segments = push_segment(alloc, checked, segments, segment, limit)?;
    Ok(Chain::of_segments(alloc, segments))
}

/// Some segments and then others, which are pushed one after the other.
fn push_others(
    alloc: Global,
    checked: &Checked,
    left: Segments,
    right: Vec<Segment>,
    limit: u32,
) -> Result<Segments, NoMemory>
    requires left { SegmentsFit (checked_plan checked.now) left }
    requires right { SegmentsFit (checked_plan checked.now) right.items }
    requires tight_left { SegmentsAreTight (checked_plan checked.now) limit left }
    requires tight_right { SegmentsAreTight (checked_plan checked.now) limit right.items }
    ensures some { 1 ≤ length right.items → IfOk result (λ joined. 1 ≤ length joined) }
    ensures fits { IfOk result (SegmentsFit (checked_plan checked.now)) }
    ensures tight { IfOk result (SegmentsAreTight (checked_plan checked.now) limit) }
    ensures stands { (first rest : List OneRecord) →
        SegmentsStandFor (checked_plan checked.now) first left →
        SegmentsStandFor (checked_plan checked.now) rest right.items →
        IfOk result (SegmentsStandFor (checked_plan checked.now) (first ++ rest)) }
{
    let mut joined = left;
    'segments: for segment in right {
        joined = push_segment(alloc, checked, joined, segment, limit)?;
    }
    Ok(joined)
}

/// Some segments and then others, of which there is one at least.
fn push_all(
    alloc: Global,
    checked: &Checked,
    left: Segments,
    right: Segments,
    limit: u32,
) -> Result<Segments, NoMemory>
    requires left { SegmentsFit (checked_plan checked.now) left }
    requires right { SegmentsFit (checked_plan checked.now) right }
    requires tight_left { SegmentsAreTight (checked_plan checked.now) limit left }
    requires tight_right { SegmentsAreTight (checked_plan checked.now) limit right }
    requires there { 1 ≤ length right }
    ensures some { IfOk result (λ joined. 1 ≤ length joined) }
    ensures fits { IfOk result (SegmentsFit (checked_plan checked.now)) }
    ensures tight { IfOk result (SegmentsAreTight (checked_plan checked.now) limit) }
    ensures stands { (first rest : List OneRecord) →
        SegmentsStandFor (checked_plan checked.now) first left →
        SegmentsStandFor (checked_plan checked.now) rest right →
        IfOk result (SegmentsStandFor (checked_plan checked.now) (first ++ rest)) }
{
    match right.into_held() {
        Held::One(segment) => push_segment(alloc, checked, left, segment, limit),
        Held::More(segments) => push_others(alloc, checked, left, segments, limit),
    }
}

/// The chain of the left one's records and then the right one's, which has a segment: what the left
/// one keeps is explored before.
fn join_segments(
    alloc: Global,
    checked: &Checked,
    left: Chain,
    right: Chain,
    limit: u32,
) -> Result<Chain, NoMemory>
    requires left { ChainFits (checked_plan checked.now) left }
    requires right { ChainFits (checked_plan checked.now) right }
    requires tight_left { IsTight (checked_plan checked.now) limit left }
    requires tight_right { IsTight (checked_plan checked.now) limit right }
    requires there { 1 ≤ length right.segments }
    ensures fits { IfOk result (ChainFits (checked_plan checked.now)) }
    ensures tight { IfOk result (IsTight (checked_plan checked.now) limit) }
    ensures stands { (first rest : List OneRecord) →
        ChainStandsFor (checked_plan checked.now) first left →
        ChainStandsFor (checked_plan checked.now) rest right →
        IfOk result (ChainStandsFor (checked_plan checked.now) (first ++ rest)) }
    ensures kept { IfOk result (λ chain. chain.kept ≡ right.kept) }
{
    let left = left.closed(alloc, checked, limit)?;
    let (segments, _none) = left.into_parts();
    let (others, kept) = right.into_parts();
    let segments = push_all(alloc, checked, segments, others, limit)?;
    Ok(Chain::of_parts(segments, kept))
}

/// Puts the right chain's records after the left one's. What the right one keeps is moved after what
/// the left one keeps, where the right one has no segments.
pub(crate) fn join_chain(
    alloc: Global,
    checked: &Checked,
    left: &mut Chain,
    right: Chain,
    limit: u32,
) -> Result<(), NoMemory>
    requires left { ChainFits (checked_plan checked.now) left.old }
    requires right { ChainFits (checked_plan checked.now) right }
    requires tight_left { IsTight (checked_plan checked.now) limit left.old }
    requires tight_right { IsTight (checked_plan checked.now) limit right }
    ensures fits { OnOk result (ChainFits (checked_plan checked.now) left.new) }
    ensures tight { OnOk result (IsTight (checked_plan checked.now) limit left.new) }
    ensures stands { (first rest : List OneRecord) →
        ChainStandsFor (checked_plan checked.now) first left.old →
        ChainStandsFor (checked_plan checked.now) rest right →
        OnOk result (ChainStandsFor (checked_plan checked.now) (first ++ rest) left.new) }
    ensures closed { IsClosed left.old → IsClosed right → OnOk result (IsClosed left.new) }
{
    if right.segments().is_empty() {
        return left.keep_all(alloc, right);
    }
    let none = Chain::of_one(alloc, Segment::of(Vec::new(alloc)));
    let old = mem::replace(left, none);
    *left = join_segments(alloc, checked, old, right, limit)?;
    Ok(())
}

/// Joins the right chain to that of the key, or gives it back if there is none.
fn join_there(
    alloc: Global,
    checked: &Checked,
    map: &mut IndexMap<Key, Chain>,
    key: &Key,
    right: Chain,
    limit: u32,
) -> Result<Option<Chain>, NoMemory>
    requires left { GroupsFit (checked_plan checked.now) map.old.entries }
    requires right { ChainFits (checked_plan checked.now) right }
    requires tight_left { AreTight (checked_plan checked.now) limit map.old.entries }
    requires tight_right { IsTight (checked_plan checked.now) limit right }
    ensures joins { IfOk result (λ back. JoinsUnless (checked_plan checked.now) limit key.now
        right map.old.entries back map.new.entries) }
    ensures distinct { HaveDistinctKeys map.new.entries }
{
    match map.get_mut(key) {
        Some(chain) => {
            join_chain(alloc, checked, chain, right, limit)?;
            Ok(None)
        }
        None => Ok(Some(right)),
    }
}

/// Joins the right chain to that of the key, or puts it last as a new group.
fn join_group(
    alloc: Global,
    checked: &Checked,
    map: &mut IndexMap<Key, Chain>,
    key: Key,
    right: Chain,
    limit: u32,
) -> Result<(), NoMemory>
    requires left { GroupsFit (checked_plan checked.now) map.old.entries }
    requires right { ChainFits (checked_plan checked.now) right }
    requires tight_left { AreTight (checked_plan checked.now) limit map.old.entries }
    requires tight_right { IsTight (checked_plan checked.now) limit right }
    ensures joins { let p = checked_plan checked.now in
        OnOk result (GrowsByChain p limit key right map.old.entries map.new.entries) }
    ensures distinct { HaveDistinctKeys map.new.entries }
{
    if let Some(right) = join_there(alloc, checked, map, &key, right, limit)? {
        map.insert(key, right)?;
    }
    Ok(())
}

/// The groups of the left ones' records and then the right ones': the left's keys and then the
/// right's new ones. Keys and chains are moved.
pub fn join_groups(
    alloc: Global,
    checked: &Checked,
    left: RunGroups,
    right: RunGroups,
    limit: u32,
) -> Result<RunGroups, NoMemory>
    requires left { GroupsFit (checked_plan checked.now) left }
    requires right { GroupsFit (checked_plan checked.now) right }
    requires tight_left { AreTight (checked_plan checked.now) limit left }
    requires tight_right { AreTight (checked_plan checked.now) limit right }
    ensures fits { IfOk result (GroupsFit (checked_plan checked.now)) }
    ensures tight { IfOk result (AreTight (checked_plan checked.now) limit) }
    ensures both { IfOk result (AreBoth (checked_plan checked.now) left right) }
    ensures stands { (first rest : List OneRecord) →
        GroupsStandFor (checked_plan checked.now) first left →
        GroupsStandFor (checked_plan checked.now) rest right →
        IfOk result (GroupsStandFor (checked_plan checked.now) (first ++ rest)) }
    ensures closed { AreClosed left → AreClosed right → IfOk result AreClosed }
{
    let mut map = left.into_map();
    'groups: for (key, chain) in right.into_map() {
        join_group(alloc, checked, &mut map, key, chain, limit)?;
    }
    Ok(RunGroups::of_map(map))
}
