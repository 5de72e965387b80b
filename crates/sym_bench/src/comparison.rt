//! Exploring beside the sequential step, over the same records.
ghost use Rattle.std.specs.Prelude.{◌≡◌, ◌*◌, All, IfOk, length};
ghost use Rattle.sym_check.specs.Checking.CheckedScripts.{checked_plan};
ghost use Rattle.sym_check.specs.Meaning.Updates.{after};
ghost use Rattle.sym_check.specs.Meaning.Validity.{IsRecord};
ghost use Rattle.sym_bench.specs.Comparing.{Agree};

use crate::chain::{Chain, explored, no_chain, outcome_of};
use crate::log::number;
use crate::stop::Stop;
use std::alloc::Global;
use std::time::{CpuClock, Duration};
use sym_base::{NoMemory, Outcome, Record};
use sym_check::Checked;
use sym_plain::{initial, step};

/// What the records come to in both ways, and the processor time of each.
#[derive(Drop)]
pub(crate) struct Found {
    pub(crate) stepped: Outcome,
    pub(crate) explored: Outcome,
    pub(crate) segments: usize,
    pub(crate) paths: usize,
    pub(crate) step_time: Duration,
    pub(crate) explore_time: Duration,
}

/// The outcome of these records after an outcome, one step each.
fn stepped(
    alloc: Global,
    checked: &Checked,
    outcome: Outcome,
    records: &[Record],
) -> Result<Outcome, NoMemory>
    ensures { IfOk result (λ o. o ≡ after (checked_plan checked.now) records.now outcome) }
{
    let mut outcome = outcome;
    'records: for rec in records {
        outcome = match outcome {
            Outcome::Going(state) => step(alloc, checked, state, rec)?,
            Outcome::Ended(fault) => Outcome::Ended(fault),
        };
    }
    Ok(outcome)
}

/// How many paths the segments have.
fn paths_of(chain: &Chain) -> usize {
    let mut paths = 0usize;
    'segments: for segment in &chain.whole {
        paths = paths.wrapping_add(segment.paths().len());
    }
    match &chain.last {
        Some(segment) => paths.wrapping_add(segment.paths().len()),
        None => paths,
    }
}

/// Takes the records in turn so many times, under running numbers, by the step and by exploring
/// within a limit of paths.
pub(crate) fn compare<R: CpuClock>(
    rt: &R,
    alloc: Global,
    checked: &Checked,
    records: &mut [Record],
    rounds: u32,
    limit: u32,
) -> Result<Found, Stop>
    requires { All (IsRecord (checked_plan checked.now)) records.old }
    ensures { IfOk result (λ found. Agree (checked_plan checked.now)
        (rounds * length records.old) found.stepped found.explored) }
{
    let mut outcome = Outcome::Going(initial(alloc, checked)?);
    let mut chain = no_chain(alloc, checked);
    let mut step_time = Duration::ZERO;
    let mut explore_time = Duration::ZERO;
    'rounds: for round in 0..rounds {
        number(records, u64::from(round) * 1_000);
        let start = rt.process_cpu_time()?;
        outcome = stepped(alloc, checked, outcome, records)?;
        let between = rt.process_cpu_time()?;
        chain = explored(alloc, checked, chain, records, limit)?;
        let end = rt.process_cpu_time()?;
        step_time = step_time.saturating_add(between.saturating_sub(start));
        explore_time = explore_time.saturating_add(end.saturating_sub(between));
    }
    let explored = outcome_of(alloc, checked, &chain)?;
    Ok(Found {
        stepped: outcome,
        explored,
        segments: chain
            .whole
            .len()
            .wrapping_add(usize::from(chain.last.is_some())),
        paths: paths_of(&chain),
        step_time,
        explore_time,
    })
}
