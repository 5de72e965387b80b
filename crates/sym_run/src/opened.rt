//! Chains to which records are added.
ghost use Rattle.std.specs.Prelude.{◌≤◌, ◌++◌, List, IfOk, IsTrue, length};
ghost use Rattle.sym_base.specs.declared.values.record.Record.{Record as OneRecord};
ghost use Rattle.sym_check.specs.Checking.CheckedScripts.{checked_plan};
ghost use Rattle.sym_known.specs.Knowing.{AreKnown};
ghost use Rattle.sym_path.specs.Fitting.{SegmentFits};
ghost use Rattle.sym_path.specs.Standing.{StandsFor};
ghost use Rattle.sym_run.specs.Chains.{ChainFits, ChainStandsFor, HasFewPaths, IsClosed, IsTight, SegmentsAreTight, SegmentsFit, SegmentsStandFor};
ghost use Rattle.sym_run.specs.Extended.{AreExtended, AreExtendedBefore, ChainIsExtended};
ghost use Rattle.sym_run.specs.Opened.{EndsKnown, KeepsNone, OpenFits, OpenIsExtended, OpenIsTight, OpenStandsFor};

use crate::chains::Chain;
use crate::pushed::push_segment;
use crate::segments::{Held, Segments};
use std::alloc::Global;
use sym_base::NoMemory;
use sym_check::Checked;
use sym_known::{Known, are_known};
use sym_path::Segment;

/// A chain to which records are added: where the cells of its last segment are known, that one is
/// held as states that step.
#[derive(Drop)]
pub(crate) enum Open {
    /// The chain as it stands.
    Chain(Chain),
    /// Segments, and after them the last one.
    Known(Segments, Known),
}

/// Whether there is a last segment with no more paths than the limit, and its cells are known. One
/// with more is explored: as long as the limit is kept, a record extends it, else its own segment
/// is pushed.
fn ends_known(segments: &Segments, limit: u32) -> bool
    ensures { IsTrue result → EndsKnown segments.now }
{
    match segments.as_slice().last() {
        Some(last) => last.paths().len() <= limit as usize && are_known(last),
        None => false,
    }
}

/// Segments, and after them one whose cells are known.
fn known_after(
    alloc: Global,
    checked: &Checked,
    before: Segments,
    last: Segment,
    _limit: u32,
) -> Result<Open, NoMemory>
    requires before { SegmentsFit (checked_plan checked.now) before }
    requires tight { SegmentsAreTight (checked_plan checked.now) _limit before }
    requires last { SegmentFits (checked_plan checked.now) last }
    requires few { HasFewPaths (checked_plan checked.now) _limit last }
    requires known { AreKnown last }
    ensures fits { IfOk result (OpenFits (checked_plan checked.now)) }
    ensures tight { IfOk result (OpenIsTight (checked_plan checked.now) _limit) }
    ensures stands { (first rest : List OneRecord) →
        SegmentsStandFor (checked_plan checked.now) first before →
        StandsFor (checked_plan checked.now) rest last →
        IfOk result (OpenStandsFor (checked_plan checked.now) (first ++ rest)) }
    ensures extends { (first rest : List OneRecord) → 1 ≤ length rest →
        AreExtendedBefore (checked_plan checked.now) _limit first rest before →
        StandsFor (checked_plan checked.now) rest last →
        IfOk result (OpenIsExtended (checked_plan checked.now) _limit (first ++ rest)) }
    ensures none { IfOk result KeepsNone }
{
    Ok(Open::Known(before, Known::of(alloc, checked, last)?))
}

/// The chain of segments alone, whose last one is held as states where its cells are known and it
/// has no more paths than the limit.
pub(crate) fn open_last(
    alloc: Global,
    checked: &Checked,
    segments: Segments,
    limit: u32,
) -> Result<Open, NoMemory>
    requires some { 1 ≤ length segments }
    requires fits { SegmentsFit (checked_plan checked.now) segments }
    requires tight { SegmentsAreTight (checked_plan checked.now) limit segments }
    ensures fits { IfOk result (OpenFits (checked_plan checked.now)) }
    ensures tight { IfOk result (OpenIsTight (checked_plan checked.now) limit) }
    ensures stands { (records : List OneRecord) →
        SegmentsStandFor (checked_plan checked.now) records segments →
        IfOk result (OpenStandsFor (checked_plan checked.now) records) }
    ensures extends { (records : List OneRecord) →
        AreExtended (checked_plan checked.now) limit records segments →
        IfOk result (OpenIsExtended (checked_plan checked.now) limit records) }
    ensures none { IfOk result KeepsNone }
{
    if !ends_known(&segments, limit) {
        return Ok(Open::Chain(Chain::of_segments(alloc, segments)));
    }
    match segments.into_held() {
        Held::One(last) => known_after(alloc, checked, Segments::none(alloc), last, limit),
        Held::More(segments) => {
            let mut segments = segments;
            match segments.pop() {
                Some(last) => known_after(alloc, checked, Segments::of(segments), last, limit),
                None => unreachable!(),
            }
        }
    }
}

impl Open {
    /// The chain, with its states turned back into paths.
    pub(crate) fn close(
        self,
        alloc: Global,
        checked: &Checked,
        limit: u32,
    ) -> Result<Chain, NoMemory>
        requires fits { OpenFits (checked_plan checked.now) self }
        requires tight { OpenIsTight (checked_plan checked.now) limit self }
        ensures fits { IfOk result (ChainFits (checked_plan checked.now)) }
        ensures tight { IfOk result (IsTight (checked_plan checked.now) limit) }
        ensures stands { (records : List OneRecord) →
            OpenStandsFor (checked_plan checked.now) records self →
            IfOk result (ChainStandsFor (checked_plan checked.now) records) }
        ensures extends { (records : List OneRecord) →
            OpenIsExtended (checked_plan checked.now) limit records self →
            IfOk result (ChainIsExtended (checked_plan checked.now) limit records) }
        ensures closed { KeepsNone self → IfOk result IsClosed }
    {
        match self {
            Open::Chain(chain) => Ok(chain),
            Open::Known(before, known) => {
                let last = known.close(alloc, checked)?;
                let segments = push_segment(alloc, checked, before, last, limit)?;
                Ok(Chain::of_segments(alloc, segments))
            }
        }
    }
}
