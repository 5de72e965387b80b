//! Records that are explored, so that segments cover them.
ghost use Rattle.std.specs.Prelude.{◌≡◌, ◌≤◌, ◌++◌, ◌∷◌, [], All, List, IfOk, IfSome, length};
ghost use Rattle.sym_base.specs.declared.values.record.Record.{Record as OneRecord};
ghost use Rattle.sym_check.specs.Checking.CheckedScripts.{checked_plan};
ghost use Rattle.sym_check.specs.Meaning.Validity.{IsRecord};
ghost use Rattle.sym_run.specs.Chains.{SegmentsAreTight, SegmentsFit, SegmentsStandFor};
ghost use Rattle.sym_run.specs.Covering.{Covers};
ghost use Rattle.sym_run.specs.Extended.{AreExtended};

use crate::kept::Kept;
use crate::pushed::push_onto;
use crate::segments::{Held, Segments};
use crate::settings::Settings;
use std::alloc::Global;
use sym_base::{Fields, NoMemory, Record};
use sym_check::Checked;
use sym_explore::{Extension, Scratch, extend_within, fresh_with};
use sym_path::Segment;

/// Memory that is used again for each record that is explored.
#[derive(Drop)]
pub(crate) struct Exploring {
    pub(crate) scratch: Scratch,
    /// A kept record.
    again: Record,
}

impl Exploring {
    /// None of it. It takes no memory.
    pub(crate) fn new(alloc: Global) -> Exploring {
        Exploring {
            scratch: Scratch::new(alloc),
            again: Record {
                no: 0,
                fields: Fields::new(alloc),
            },
        }
    }
}

/// Some segments and one more, which is extended by the record, or after which the record's own
/// segment is pushed.
fn extend_last(
    alloc: Global,
    settings: &Settings<'_>,
    segments: Vec<Segment>,
    last: Segment,
    rec: &Record,
    scratch: &mut Scratch,
) -> Result<Segments, NoMemory>
    requires rec { IsRecord (checked_plan settings.now.checked.now) rec.now }
    requires chain { SegmentsFit (checked_plan settings.now.checked.now)
        (segments.items ++ last ∷ []) }
    requires tight { SegmentsAreTight (checked_plan settings.now.checked.now) settings.now.limit
        (segments.items ++ last ∷ []) }
    ensures some { IfOk result (λ longer. 1 ≤ length longer) }
    ensures fits { IfOk result (SegmentsFit (checked_plan settings.now.checked.now)) }
    ensures tight { IfOk result
        (SegmentsAreTight (checked_plan settings.now.checked.now) settings.now.limit) }
    ensures stands { (records : List OneRecord) →
        SegmentsStandFor (checked_plan settings.now.checked.now) records
        (segments.items ++ last ∷ []) →
        IfOk result
        (SegmentsStandFor (checked_plan settings.now.checked.now) (records ++ rec.now ∷ [])) }
    ensures extends { (records : List OneRecord) →
        AreExtended (checked_plan settings.now.checked.now) settings.now.limit records
        (segments.items ++ last ∷ []) →
        IfOk result
        (AreExtended (checked_plan settings.now.checked.now) settings.now.limit
        (records ++ rec.now ∷ [])) }
{
    let mut segments = segments;
    match extend_within(alloc, settings.checked, last, rec, settings.limit, scratch)? {
        Extension::Fits(longer) => {
            push_onto(alloc, settings.checked, segments, longer, settings.limit)
        }
        Extension::Over(last) => {
            segments.push(last)?;
            let own = fresh_with(alloc, settings.checked, rec, scratch)?;
            push_onto(alloc, settings.checked, segments, own, settings.limit)
        }
    }
}

/// The record's own segment.
fn begin(
    alloc: Global,
    settings: &Settings<'_>,
    rec: &Record,
    scratch: &mut Scratch,
) -> Result<Segments, NoMemory>
    requires rec { IsRecord (checked_plan settings.now.checked.now) rec.now }
    ensures some { IfOk result (λ longer. 1 ≤ length longer) }
    ensures fits { IfOk result (SegmentsFit (checked_plan settings.now.checked.now)) }
    ensures tight { IfOk result
        (SegmentsAreTight (checked_plan settings.now.checked.now) settings.now.limit) }
    ensures stands { IfOk result
        (SegmentsStandFor (checked_plan settings.now.checked.now) (rec.now ∷ [])) }
    ensures extends { IfOk result
        (AreExtended (checked_plan settings.now.checked.now) settings.now.limit (rec.now ∷ [])) }
{
    let own = fresh_with(alloc, settings.checked, rec, scratch)?;
    Ok(Segments::of_one(own))
}

/// The segments of the records of some segments and one record more.
pub(crate) fn take_on(
    alloc: Global,
    settings: &Settings<'_>,
    segments: Segments,
    rec: &Record,
    scratch: &mut Scratch,
) -> Result<Segments, NoMemory>
    requires rec { IsRecord (checked_plan settings.now.checked.now) rec.now }
    requires segments { SegmentsFit (checked_plan settings.now.checked.now) segments }
    requires tight { SegmentsAreTight (checked_plan settings.now.checked.now) settings.now.limit
        segments }
    ensures some { IfOk result (λ longer. 1 ≤ length longer) }
    ensures fits { IfOk result (SegmentsFit (checked_plan settings.now.checked.now)) }
    ensures tight { IfOk result
        (SegmentsAreTight (checked_plan settings.now.checked.now) settings.now.limit) }
    ensures stands { (records : List OneRecord) →
        SegmentsStandFor (checked_plan settings.now.checked.now) records segments →
        IfOk result
        (SegmentsStandFor (checked_plan settings.now.checked.now) (records ++ rec.now ∷ [])) }
    ensures extends { (records : List OneRecord) →
        AreExtended (checked_plan settings.now.checked.now) settings.now.limit records segments →
        IfOk result
        (AreExtended (checked_plan settings.now.checked.now) settings.now.limit
        (records ++ rec.now ∷ [])) }
{
    match segments.into_held() {
        Held::One(last) => {
            let none = Vec::new(alloc);
            extend_last(alloc, settings, none, last, rec, scratch)
        }
        Held::More(segments) => {
            let mut segments = segments;
            match segments.pop() {
                Some(last) => extend_last(alloc, settings, segments, last, rec, scratch),
                None => begin(alloc, settings, rec, scratch),
            }
        }
    }
}

/// The segments of the records of some segments and of these kept ones.
pub(crate) fn cover_all(
    alloc: Global,
    checked: &Checked,
    segments: Segments,
    kept: &Kept,
    limit: u32,
) -> Result<Segments, NoMemory>
    requires kept { All (IsRecord (checked_plan checked.now)) kept.now }
    requires some { 1 ≤ length kept.now }
    requires segments { SegmentsFit (checked_plan checked.now) segments }
    requires tight { SegmentsAreTight (checked_plan checked.now) limit segments }
    ensures some { IfOk result (λ longer. 1 ≤ length longer) }
    ensures fits { IfOk result (SegmentsFit (checked_plan checked.now)) }
    ensures tight { IfOk result (SegmentsAreTight (checked_plan checked.now) limit) }
    ensures stands { (records : List OneRecord) →
        SegmentsStandFor (checked_plan checked.now) records segments →
        IfOk result (SegmentsStandFor (checked_plan checked.now) (records ++ kept.now)) }
{
    let settings = &Settings {
        checked,
        limit,
        most: 0,
    };
    let mut exploring = Exploring::new(alloc);
    let mut covering = segments;
    'records: for index in 0..kept.len() {
        kept.read(alloc, index, &mut exploring.again)?;
        let scratch = &mut exploring.scratch;
        covering = take_on(alloc, settings, covering, &exploring.again, scratch)?;
    }
    Ok(covering)
}

/// One segment of all of these kept records, or `None` if it is over the limit before it has
/// covered them.
pub(crate) fn cover(
    alloc: Global,
    settings: &Settings<'_>,
    kept: &Kept,
    exploring: &mut Exploring,
) -> Result<Option<Segment>, NoMemory>
    requires kept { All (IsRecord (checked_plan settings.now.checked.now)) kept.now }
    requires some { 1 ≤ length kept.now }
    ensures { IfOk result (λ segment.
        IfSome segment
        (Covers (checked_plan settings.now.checked.now) settings.now.limit kept.now)) }
{
    kept.read(alloc, 0, &mut exploring.again)?;
    let mut segment = fresh_with(
        alloc,
        settings.checked,
        &exploring.again,
        &mut exploring.scratch,
    )?;
    'records: for index in 1..kept.len() {
        kept.read(alloc, index, &mut exploring.again)?;
        match extend_within(
            alloc,
            settings.checked,
            segment,
            &exploring.again,
            settings.limit,
            &mut exploring.scratch,
        )? {
            Extension::Fits(longer) => segment = longer,
            Extension::Over(_) => return Ok(None),
        }
    }
    Ok(Some(segment))
}
