//! Segments of one group, in order, and records after them that no segment covers yet.
ghost use Rattle.std.specs.Prelude.{◌≡◌, ◌↔◌, ◌≤◌, ◌+◌, ◌∷◌, ◌++◌, [], ℕ, true, false, List, IsTrue, IfOk, OnOk, OnErr, length};
ghost use Rattle.sym_base.specs.declared.values.record.Record.{Record as OneRecord};
ghost use Rattle.sym_check.specs.Checking.CheckedScripts.{checked_plan};
ghost use Rattle.sym_check.specs.Meaning.Updates.{after};
ghost use Rattle.sym_check.specs.Meaning.Validity.{IsValidOutcome};
ghost use Rattle.sym_run.specs.Chains.{ChainFits, ChainStandsFor, IsClosed, IsTight, chain_of, closed_chain};
ghost use Rattle.sym_run.specs.Growing.{IsKeptAfter};
ghost use Rattle.sym_run.specs.Keeping.{AreAsWide, AreWide};

use crate::covers::cover_all;
use crate::kept::Kept;
use crate::segments::Segments;
use crate::steps::{Stepper, step_all};
use std::alloc::Global;
use std::marker::Model;
use sym_base::{NoMemory, Outcome, Record};
use sym_check::Checked;
use sym_path::Segment;

/// Segments of one group, in order, and after their records those that are kept as they are, since
/// no segment covers them yet. There is a segment or a kept record at least.
pub struct Chain {
    segments: Segments,
    kept: Kept,
}

// Written here so that the crates above don't prove it for each type inside.
impl Drop for Chain {
    fn drop(self) {
        let Chain {
            segments: _segments,
            kept: _kept,
        } = self;
    }
}

impl Model for Chain {
    ghost use Rattle.sym_run.specs.Chained.{Chained, chained_code};
    ghost use Rattle.sym_run.specs.Chains.{HasSome};

    ghost Value = { Chained };

    ghost coded = { chained_code };

    ghost view = { λ chain. record { segments = chain.segments; kept = chain.kept } };

    ghost invariant = { λ chain. HasSome (record { segments = chain.segments; kept = chain.kept }) };
}

impl Chain {
    ghost use Rattle.sym_run.specs.Chains.{HasSome};

    /// The segments, and the records that are kept.
    pub(crate) fn into_parts(self) -> (Segments, Kept)
        ensures segments { result.0 ≡ self.segments }
        ensures kept { result.1 ≡ self.kept }
        ensures some { HasSome self }
    {
        let Chain { segments, kept } = self;
        (segments, kept)
    }

    /// The chain of segments, and of kept records after them. It takes no memory.
    pub(crate) fn of_parts(segments: Segments, kept: Kept) -> Chain
        requires { 1 ≤ length segments + length kept }
        ensures segments { result.segments ≡ segments }
        ensures kept { result.kept ≡ kept }
    {
        Chain { segments, kept }
    }

    /// The chain of segments alone. It takes no memory.
    pub(crate) fn of_segments(alloc: Global, segments: Segments) -> Chain
        requires { 1 ≤ length segments }
        ensures { result ≡ closed_chain segments }
    {
        Chain {
            segments,
            kept: Kept::none(alloc),
        }
    }

    /// The chain of one segment. It takes no memory.
    pub(crate) fn of_one(alloc: Global, segment: Segment) -> Chain
        ensures { result ≡ closed_chain (segment ∷ []) }
    {
        Chain::of_segments(alloc, Segments::of_one(segment))
    }

    /// The chain that keeps one record.
    pub(crate) fn of_record(alloc: Global, rec: &Record) -> Result<Chain, NoMemory>
        ensures segments { IfOk result (λ chain. chain.segments ≡ []) }
        ensures kept { IfOk result (λ chain. chain.kept ≡ rec.now ∷ []) }
    {
        let mut kept = Kept::none(alloc);
        kept.push(alloc, rec)?;
        Ok(Chain {
            segments: Segments::none(alloc),
            kept,
        })
    }

    /// The records that are kept.
    pub(crate) fn kept_records(&self) -> &Kept
        ensures { result.now ≡ self.now.kept }
    {
        &self.kept
    }

    /// Keeps one record more. After an `Err` the chain is as before.
    pub(crate) fn keep(&mut self, alloc: Global, rec: &Record) -> Result<(), NoMemory>
        requires { AreAsWide rec.now self.old.kept }
        ensures segments { self.new.segments ≡ self.old.segments }
        ensures kept { OnOk result (self.new.kept ≡ self.old.kept ++ rec.now ∷ []) }
        ensures err { OnErr result (self.new ≡ self.old) }
    {
        self.kept.push(alloc, rec)
    }

    /// Keeps after its own records those of another chain, which has no segments. After an `Err` the
    /// chain is as before.
    pub(crate) fn keep_all(&mut self, alloc: Global, right: Chain) -> Result<(), NoMemory>
        requires { (count : ℕ) × AreWide count self.old.kept × AreWide count right.kept }
        ensures ok { OnOk result (IsKeptAfter self.old right self.new) }
        ensures err { OnErr result (self.new ≡ self.old) }
    {
        let (_none, more) = right.into_parts();
        self.kept.append(alloc, more)
    }

    /// The chain of one segment.
    pub fn one(alloc: Global, segment: Segment) -> Result<Chain, NoMemory>
        ensures { IfOk result (λ chain. chain ≡ closed_chain (segment ∷ [])) }
    {
        Ok(Chain::of_one(alloc, segment))
    }

    /// The chain of these segments as they stand, which keeps no records; `None` exactly where
    /// there are none. It takes no memory.
    pub fn of(segments: Vec<Segment>) -> Option<Chain>
        ensures { result ≡ chain_of segments.items }
    {
        if segments.is_empty() {
            return None;
        }
        let alloc = *segments.allocator();
        Some(Chain::of_segments(alloc, Segments::of(segments)))
    }

    /// The segments in order. There are none where the chain keeps all of its records.
    pub fn segments(&self) -> &[Segment]
        ensures same { result.now ≡ self.now.segments }
        ensures some { 1 ≤ length self.now.segments + length self.now.kept }
    {
        self.segments.as_slice()
    }

    /// How many records are kept after those that the segments cover.
    pub fn kept(&self) -> usize
        ensures same { result ≡ length self.now.kept }
        ensures some { 1 ≤ length self.now.segments + length self.now.kept }
    {
        self.kept.len()
    }

    /// Whether the chain keeps no records: segments cover all of them.
    pub fn is_closed(&self) -> bool
        ensures closed { IsTrue result ↔ IsClosed self.now }
        ensures some { result ≡ false → 1 ≤ length self.now.kept }
        ensures segments { result ≡ true → 1 ≤ length self.now.segments }
    {
        self.kept.is_empty()
    }

    /// An equal chain of its own.
    pub fn copy(&self, alloc: Global) -> Result<Chain, NoMemory>
        ensures { IfOk result (λ chain. chain ≡ self.now) }
    {
        Ok(Chain {
            segments: self.segments.copy(alloc)?,
            kept: self.kept.copy(alloc)?,
        })
    }

    /// The chain with its kept records explored, so that segments cover them: the last segment is
    /// extended by each of them, or the record's own is pushed. A chain that keeps none is given
    /// back as it is.
    pub fn closed(self, alloc: Global, checked: &Checked, limit: u32) -> Result<Chain, NoMemory>
        requires fits { ChainFits (checked_plan checked.now) self }
        requires tight { IsTight (checked_plan checked.now) limit self }
        ensures closed { IfOk result IsClosed }
        ensures fits { IfOk result (ChainFits (checked_plan checked.now)) }
        ensures tight { IfOk result (IsTight (checked_plan checked.now) limit) }
        ensures stands { (records : List OneRecord) →
            ChainStandsFor (checked_plan checked.now) records self →
            IfOk result (ChainStandsFor (checked_plan checked.now) records) }
        ensures same { IsClosed self → IfOk result (λ chain. chain ≡ self) }
    {
        if self.is_closed() {
            return Ok(self);
        }
        let (segments, kept) = self.into_parts();
        let segments = cover_all(alloc, checked, segments, &kept, limit)?;
        Ok(Chain::of_segments(alloc, segments))
    }

    /// Puts what the chain's records make of an outcome in its place: each segment in turn leads it
    /// on, and then it makes the steps of the kept records. The lists of its state are moved. After
    /// an `Err` the outcome is unspecified. For callers who lead one outcome: those who lead many
    /// call `lead_with`.
    pub fn lead(
        &self,
        alloc: Global,
        checked: &Checked,
        outcome: &mut Outcome,
    ) -> Result<(), NoMemory>
        requires fits { ChainFits (checked_plan checked.now) self.now }
        requires valid { IsValidOutcome (checked_plan checked.now) outcome.old }
        ensures valid { OnOk result (IsValidOutcome (checked_plan checked.now) outcome.new) }
        ensures value { (records : List OneRecord) →
            ChainStandsFor (checked_plan checked.now) records self.now →
            OnOk result (outcome.new ≡ after (checked_plan checked.now) records outcome.old) }
    {
        let mut stepper = Stepper::new(alloc);
        self.lead_with(alloc, checked, outcome, &mut stepper)
    }

    /// `lead` with memory that is used again, whatever is in it.
    pub fn lead_with(
        &self,
        alloc: Global,
        checked: &Checked,
        outcome: &mut Outcome,
        stepper: &mut Stepper,
    ) -> Result<(), NoMemory>
        requires fits { ChainFits (checked_plan checked.now) self.now }
        requires valid { IsValidOutcome (checked_plan checked.now) outcome.old }
        ensures valid { OnOk result (IsValidOutcome (checked_plan checked.now) outcome.new) }
        ensures value { (records : List OneRecord) →
            ChainStandsFor (checked_plan checked.now) records self.now →
            OnOk result (outcome.new ≡ after (checked_plan checked.now) records outcome.old) }
    {
        self.segments.lead(alloc, checked, outcome)?;
        step_all(alloc, checked, &self.kept, outcome, stepper)
    }

    /// `lead` of an outcome that is given away.
    pub fn apply(
        &self,
        alloc: Global,
        checked: &Checked,
        outcome: Outcome,
    ) -> Result<Outcome, NoMemory>
        requires fits { ChainFits (checked_plan checked.now) self.now }
        requires valid { IsValidOutcome (checked_plan checked.now) outcome }
        ensures valid { IfOk result (IsValidOutcome (checked_plan checked.now)) }
        ensures value { (records : List OneRecord) →
            ChainStandsFor (checked_plan checked.now) records self.now →
            IfOk result (λ o. o ≡ after (checked_plan checked.now) records outcome) }
    {
        let mut outcome = outcome;
        self.lead(alloc, checked, &mut outcome)?;
        Ok(outcome)
    }
}
