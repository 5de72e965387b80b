//! Records explored from an unknown state, as a chain of segments.
ghost use Rattle.std.specs.Prelude.{◌≡◌, ◌++◌, ◌∷◌, [], List, All, IfOk};
ghost use Rattle.sym_base.specs.declared.values.record.Record.{Record as OneRecord};
ghost use Rattle.sym_base.specs.declared.values.state.Outcome.TheVariants.{Going};
ghost use Rattle.sym_check.specs.Checking.CheckedScripts.{checked_plan};
ghost use Rattle.sym_check.specs.Meaning.Updates.{after, initial};
ghost use Rattle.sym_check.specs.Meaning.Validity.{IsRecord, IsValid, IsValidOutcome};
ghost use Rattle.sym_path.specs.Standing.{StandsFor};
ghost use Rattle.sym_bench.specs.Chains.{IsChainOf};

use std::alloc::Global;
use sym_base::{NoMemory, Outcome, Record, State};
use sym_check::Checked;
use sym_check::laws::plans::well_formed_plans_keep_states_valid;
use sym_explore::{Grown, fresh, grow};
use sym_path::Segment;
use sym_plain::initial;

/// Segments for neighbouring parts of the records, in order.
#[derive(Drop)]
pub(crate) struct Chain {
    /// Those that went over the limit.
    pub(crate) whole: Vec<Segment>,
    /// The one that the next record extends.
    pub(crate) last: Option<Segment>,
}

/// The chain of no records.
pub(crate) fn no_chain(alloc: Global, _checked: &Checked) -> Chain
    ensures { IsChainOf (checked_plan _checked.now) [] result }
{
    Chain {
        whole: Vec::new(alloc),
        last: None,
    }
}

/// The chain of the records and one more. A segment that goes over the limit of paths is put away,
/// and the next record begins a new one.
fn extended(
    alloc: Global,
    checked: &Checked,
    chain: Chain,
    rec: &Record,
    limit: u32,
) -> Result<Chain, NoMemory>
    requires rec { IsRecord (checked_plan checked.now) rec.now }
    requires stands { (before : List OneRecord) ×
        IsChainOf (checked_plan checked.now) before chain }
    ensures { (before : List OneRecord) → IsChainOf (checked_plan checked.now) before chain →
        IfOk result (IsChainOf (checked_plan checked.now) (before ++ rec.now ∷ [])) }
{
    let Chain { whole, last } = chain;
    let mut whole = whole;
    let Some(segment) = last else {
        let segment = fresh(alloc, checked, rec)?;
        return Ok(Chain {
            whole,
            last: Some(segment),
        });
    };
    match grow(alloc, checked, segment, rec, limit)? {
        Grown::Fits(segment) => Ok(Chain {
            whole,
            last: Some(segment),
        }),
        Grown::Over(segment) => {
            whole.push(segment)?;
            Ok(Chain { whole, last: None })
        }
    }
}

/// The chain of the records and these.
pub(crate) fn explored(
    alloc: Global,
    checked: &Checked,
    chain: Chain,
    records: &[Record],
    limit: u32,
) -> Result<Chain, NoMemory>
    requires records { All (IsRecord (checked_plan checked.now)) records.now }
    requires stands { (before : List OneRecord) ×
        IsChainOf (checked_plan checked.now) before chain }
    ensures { (before : List OneRecord) → IsChainOf (checked_plan checked.now) before chain →
        IfOk result (IsChainOf (checked_plan checked.now) (before ++ records.now)) }
{
    let mut chain = chain;
    'records: for rec in records {
        chain = extended(alloc, checked, chain, rec, limit)?;
    }
    Ok(chain)
}

/// What the segment's path for this state gives there.
fn given(
    alloc: Global,
    checked: &Checked,
    segment: &Segment,
    state: &State,
) -> Result<Outcome, NoMemory>
    requires valid { IsValid (checked_plan checked.now) state.now }
    requires stands { (records : List OneRecord) ×
        StandsFor (checked_plan checked.now) records segment.now }
    ensures valid { IfOk result (IsValidOutcome (checked_plan checked.now)) }
    ensures value { (records : List OneRecord) →
        StandsFor (checked_plan checked.now) records segment.now →
        IfOk result (λ o. o ≡ after (checked_plan checked.now) records (Going state.now)) }
{
    'paths: for path in segment.paths() {
        if path.admits(checked, state) {
            return path.gives(alloc, checked, state);
        }
    }
    unreachable!()
}

/// What a segment's records make of an outcome: one that has ended stays.
fn led(
    alloc: Global,
    checked: &Checked,
    segment: &Segment,
    outcome: Outcome,
) -> Result<Outcome, NoMemory>
    requires valid { IsValidOutcome (checked_plan checked.now) outcome }
    requires stands { (records : List OneRecord) ×
        StandsFor (checked_plan checked.now) records segment.now }
    ensures valid { IfOk result (IsValidOutcome (checked_plan checked.now)) }
    ensures value { (records : List OneRecord) →
        StandsFor (checked_plan checked.now) records segment.now →
        IfOk result (λ o. o ≡ after (checked_plan checked.now) records outcome) }
{
    match outcome {
        Outcome::Going(state) => given(alloc, checked, segment, &state),
        Outcome::Ended(fault) => Ok(Outcome::Ended(fault)),
    }
}

/// The outcome of the chain's records from the declared state: that of the sequential pass.
pub(crate) fn outcome_of(
    alloc: Global,
    checked: &Checked,
    chain: &Chain,
) -> Result<Outcome, NoMemory>
    requires { (records : List OneRecord) ×
        IsChainOf (checked_plan checked.now) records chain.now }
    ensures { (records : List OneRecord) →
        IsChainOf (checked_plan checked.now) records chain.now → IfOk result (λ o.
        o ≡ after (checked_plan checked.now) records (Going (initial (checked_plan checked.now)))) }
{
    well_formed_plans_keep_states_valid();
    let _plan = checked.plan();
    let mut outcome = Outcome::Going(initial(alloc, checked)?);
    'segments: for segment in &chain.whole {
        outcome = led(alloc, checked, segment, outcome)?;
    }
    match &chain.last {
        Some(segment) => led(alloc, checked, segment, outcome),
        None => Ok(outcome),
    }
}
