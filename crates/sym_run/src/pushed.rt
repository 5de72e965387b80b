//! Segments that are pushed onto others.
ghost use Rattle.std.specs.Prelude.{◌++◌, ◌∷◌, ◌≤◌, [], List, IfOk, length};
ghost use Rattle.sym_base.specs.declared.values.record.Record.{Record as OneRecord};
ghost use Rattle.sym_check.specs.Checking.CheckedScripts.{checked_plan};
ghost use Rattle.sym_path.specs.Fitting.{SegmentFits};
ghost use Rattle.sym_path.specs.Standing.{StandsFor};
ghost use Rattle.sym_run.specs.Chains.{HasFewPaths, SegmentsAreTight, SegmentsFit, SegmentsStandFor};
ghost use Rattle.sym_run.specs.Pushing.{IsPushed};

use crate::segments::{Held, Segments};
use std::alloc::Global;
use sym_base::NoMemory;
use sym_check::Checked;
use sym_path::{Composition, Segment, compose_within};

/// One segment and another: both in one where they have few pairs.
fn push_onto_one(
    alloc: Global,
    checked: &Checked,
    left: Segment,
    right: Segment,
    limit: u32,
) -> Result<Segments, NoMemory>
    requires left { SegmentFits (checked_plan checked.now) left }
    requires right { SegmentFits (checked_plan checked.now) right }
    requires few_left { HasFewPaths (checked_plan checked.now) limit left }
    requires few_right { HasFewPaths (checked_plan checked.now) limit right }
    ensures some { IfOk result (λ pushed. 1 ≤ length pushed) }
    ensures fits { IfOk result (SegmentsFit (checked_plan checked.now)) }
    ensures tight { IfOk result (SegmentsAreTight (checked_plan checked.now) limit) }
    ensures pushed { IfOk result (IsPushed (checked_plan checked.now) limit (left ∷ []) right) }
    ensures stands { (first rest : List OneRecord) →
        StandsFor (checked_plan checked.now) first left →
        StandsFor (checked_plan checked.now) rest right →
        IfOk result (SegmentsStandFor (checked_plan checked.now) (first ++ rest)) }
{
    match compose_within(alloc, checked, left, right, limit)? {
        Composition::One(both) => Ok(Segments::of_one(both)),
        Composition::Apart(left, right) => {
            let mut segments = Vec::with_capacity(alloc, 2)?;
            segments.push(left)?;
            segments.push(right)?;
            Ok(Segments::of(segments))
        }
    }
}

/// These segments and one more, of which there may be none.
pub(crate) fn push_onto(
    alloc: Global,
    checked: &Checked,
    segments: Vec<Segment>,
    segment: Segment,
    limit: u32,
) -> Result<Segments, NoMemory>
    requires chain { SegmentsFit (checked_plan checked.now) segments.items }
    requires tight { SegmentsAreTight (checked_plan checked.now) limit segments.items }
    requires segment { SegmentFits (checked_plan checked.now) segment }
    requires few { HasFewPaths (checked_plan checked.now) limit segment }
    ensures some { IfOk result (λ pushed. 1 ≤ length pushed) }
    ensures fits { IfOk result (SegmentsFit (checked_plan checked.now)) }
    ensures tight { IfOk result (SegmentsAreTight (checked_plan checked.now) limit) }
    ensures pushed { IfOk result
        (IsPushed (checked_plan checked.now) limit segments.items segment) }
    ensures stands { (first rest : List OneRecord) →
        SegmentsStandFor (checked_plan checked.now) first segments.items →
        StandsFor (checked_plan checked.now) rest segment →
        IfOk result (SegmentsStandFor (checked_plan checked.now) (first ++ rest)) }
{
    let mut segments = segments;
    let mut last = segment;
    'ends: while let Some(left) = segments.pop() {
        match compose_within(alloc, checked, left, last, limit)? {
            Composition::One(both) => last = both,
            Composition::Apart(left, right) => {
                segments.push(left)?;
                segments.push(right)?;
                return Ok(Segments::of(segments));
            }
        }
    }
    Ok(Segments::of_one(last))
}

/// The segments and one more. Those at the end are composed while two neighbours have at most
/// `limit` pairs.
pub(crate) fn push_segment(
    alloc: Global,
    checked: &Checked,
    segments: Segments,
    segment: Segment,
    limit: u32,
) -> Result<Segments, NoMemory>
    requires segments { SegmentsFit (checked_plan checked.now) segments }
    requires tight { SegmentsAreTight (checked_plan checked.now) limit segments }
    requires segment { SegmentFits (checked_plan checked.now) segment }
    requires few { HasFewPaths (checked_plan checked.now) limit segment }
    ensures some { IfOk result (λ pushed. 1 ≤ length pushed) }
    ensures fits { IfOk result (SegmentsFit (checked_plan checked.now)) }
    ensures tight { IfOk result (SegmentsAreTight (checked_plan checked.now) limit) }
    ensures pushed { IfOk result (IsPushed (checked_plan checked.now) limit segments segment) }
    ensures stands { (first rest : List OneRecord) →
        SegmentsStandFor (checked_plan checked.now) first segments →
        StandsFor (checked_plan checked.now) rest segment →
        IfOk result (SegmentsStandFor (checked_plan checked.now) (first ++ rest)) }
{
    match segments.into_held() {
        Held::One(left) => push_onto_one(alloc, checked, left, segment, limit),
        Held::More(segments) => push_onto(alloc, checked, segments, segment, limit),
    }
}
