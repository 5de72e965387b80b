//! Segments of one group, in order.
ghost use Rattle.std.specs.Prelude.{◌≡◌, ◌≤◌, ◌∷◌, [], List, IfOk, OnOk, length};
ghost use Rattle.sym_base.specs.declared.values.record.Record.{Record as OneRecord};
ghost use Rattle.sym_check.specs.Checking.CheckedScripts.{checked_plan};
ghost use Rattle.sym_check.specs.Meaning.Updates.{after};
ghost use Rattle.sym_check.specs.Meaning.Validity.{IsValidOutcome};
ghost use Rattle.sym_run.specs.Chains.{SegmentsFit, SegmentsStandFor};

use std::alloc::Global;
use std::marker::Model;
use std::slice;
use sym_base::{NoMemory, Outcome};
use sym_check::Checked;
use sym_path::Segment;

/// How segments are held: one alone takes no vector.
#[derive(Drop)]
pub(crate) enum Held {
    One(Segment),
    More(Vec<Segment>),
}

/// Segments of one group, in order, of which there may be none. A contract sees their list.
pub(crate) struct Segments {
    held: Held,
}

// Written here so that the crates above don't prove it for each type inside.
impl Drop for Segments {
    fn drop(self) {
        let Segments { held: _held } = self;
    }
}

impl Model for Segments {
    ghost use Rattle.std.specs.Prelude.{List};
    ghost use Rattle.sym_path.specs.declared.path.Path.{Path as OnePath};
    ghost use Rattle.sym_path.specs.contracts.path.Path as path;
    ghost use Rattle.std.specs.Coded.{coded_list};
    ghost use Rattle.sym_run.specs.Holding.{held_segments};

    ghost Value = { List (List OnePath) };

    ghost coded = { coded_list (coded_list (path.the_row).coded) };

    ghost view = { λ segments. held_segments segments.held };
}

/// Equal segments of their own.
fn copy_all(alloc: Global, segments: &[Segment]) -> Result<Vec<Segment>, NoMemory>
    ensures { IfOk result (λ copied. copied.items ≡ segments.now) }
{
    let mut copied = Vec::with_capacity(alloc, segments.len())?;
    'segments: for segment in segments {
        copied.push(segment.copy(alloc)?)?;
    }
    Ok(copied)
}

impl Segments {
    ghost use Rattle.sym_run.specs.Holding.{held_segments};

    /// How the segments are held.
    pub(crate) fn into_held(self) -> Held
        ensures { held_segments result ≡ self }
    {
        let Segments { held } = self;
        held
    }

    /// No segments. It takes no memory.
    pub(crate) fn none(alloc: Global) -> Segments
        ensures { result ≡ [] }
    {
        Segments {
            held: Held::More(Vec::new(alloc)),
        }
    }

    /// One segment. It takes no memory.
    pub(crate) fn of_one(segment: Segment) -> Segments
        ensures { result ≡ segment ∷ [] }
    {
        Segments {
            held: Held::One(segment),
        }
    }

    /// The segments of a vector. It takes no memory.
    pub(crate) fn of(segments: Vec<Segment>) -> Segments
        ensures { result ≡ segments.items }
    {
        Segments {
            held: Held::More(segments),
        }
    }

    /// The segments in order.
    pub(crate) fn as_slice(&self) -> &[Segment]
        ensures { result.now ≡ self.now }
    {
        match &self.held {
            Held::One(segment) => slice::from_ref(segment),
            Held::More(segments) => segments.as_slice(),
        }
    }

    /// Equal segments of their own.
    pub(crate) fn copy(&self, alloc: Global) -> Result<Segments, NoMemory>
        ensures { IfOk result (λ segments. segments ≡ self.now) }
    {
        let held = match &self.held {
            Held::One(segment) => Held::One(segment.copy(alloc)?),
            Held::More(segments) => Held::More(copy_all(alloc, segments)?),
        };
        Ok(Segments { held })
    }

    /// Puts what the segments' records make of an outcome in its place: each segment in turn leads
    /// it on. The lists of its state are moved. After an `Err` the outcome is unspecified.
    pub(crate) fn lead(
        &self,
        alloc: Global,
        checked: &Checked,
        outcome: &mut Outcome,
    ) -> Result<(), NoMemory>
        requires fits { SegmentsFit (checked_plan checked.now) self.now }
        requires valid { IsValidOutcome (checked_plan checked.now) outcome.old }
        ensures valid { OnOk result (IsValidOutcome (checked_plan checked.now) outcome.new) }
        ensures value { (records : List OneRecord) →
            SegmentsStandFor (checked_plan checked.now) records self.now →
            OnOk result (outcome.new ≡ after (checked_plan checked.now) records outcome.old) }
    {
        'segments: for segment in self.as_slice() {
            segment.lead(alloc, checked, outcome)?;
        }
        Ok(())
    }
}
