//! Segments that are pushed onto a chain one after the other, and what the chain makes of the
//! initial state.
ghost use Rattle.std.specs.Prelude.{◌≡◌, IsTrue, IfOk, IfSome};
ghost use Rattle.std.specs.List.{All};
ghost use Rattle.sym_check.specs.Checking.CheckedScripts.{checked_plan};
ghost use Rattle.sym_path.specs.Fitting.{SegmentFits};
ghost use Rattle.sym_run.specs.Chains.{ChainFits, HasFewPaths, IsTight};
ghost use Rattle.sym_table.specs.Rows.{FitsChunk};

use crate::chains::{fits, paths_of};
use crate::logs::MAXES;
use std::alloc::Global;
use std::test::Fail;
use sym_base::{NoMemory, Outcome};
use sym_check::Checked;
use sym_check::laws::plans::well_formed_plans_keep_states_valid;
use sym_given::scripts::TOGGLE;
use sym_given::{Case, check_cases, chunks_of, difference, outcome_text, passed};
use sym_path::Segment;
use sym_plain::initial;
use sym_run::{Chain, of_chunk, push};
use sym_table::Chunk;

/// Segments of one group, one for each row of a log, which are pushed one after the other.
#[derive(Drop)]
struct Pushes {
    script: &'static str,
    log: &'static str,
    limit: u32,
    /// How many paths each segment of the chain has.
    paths: &'static [usize],
}

/// The only segment of the first group of a chunk.
fn segment_of(
    alloc: Global,
    checked: &Checked,
    chunk: &Chunk,
    limit: u32,
) -> Result<Option<Segment>, NoMemory>
    requires { FitsChunk (checked_plan checked.now).fields chunk.now }
{
    let run = of_chunk(alloc, checked, chunk, 0, limit)?;
    let Some((_key, chain)) = run.groups.at(0) else {
        return Ok(None);
    };
    match chain.segments() {
        [segment] => Ok(Some(segment.copy(alloc)?)),
        _ => Ok(None),
    }
}

/// Whether the segment fits the script and has as few paths as a segment of a chain may have.
fn may_push(checked: &Checked, segment: &Segment, limit: u32) -> bool
    ensures fits { IsTrue result → SegmentFits (checked_plan checked.now) segment.now }
    ensures few { IsTrue result → HasFewPaths (checked_plan checked.now) limit segment.now }
{
    segment.paths().len() <= limit.max(checked.path_bound()) as usize && fits(checked, segment)
}

/// The chain with the segment after it, or the chain of the segment alone.
fn pushed(
    alloc: Global,
    checked: &Checked,
    chain: Option<Chain>,
    segment: Segment,
    limit: u32,
) -> Result<Chain, NoMemory>
    requires segment { SegmentFits (checked_plan checked.now) segment }
    requires few { HasFewPaths (checked_plan checked.now) limit segment }
    requires chain { IfSome chain (ChainFits (checked_plan checked.now)) }
    requires tight { IfSome chain (IsTight (checked_plan checked.now) limit) }
    ensures fits { IfOk result (ChainFits (checked_plan checked.now)) }
    ensures tight { IfOk result (IsTight (checked_plan checked.now) limit) }
{
    match chain {
        Some(chain) => push(alloc, checked, chain, segment, limit),
        None => Chain::one(alloc, segment),
    }
}

/// The chain of the chunks' segments; `None` where one of them has no segment that may be pushed.
fn pushed_all(
    alloc: Global,
    checked: &Checked,
    chunks: &[Chunk],
    limit: u32,
) -> Result<Option<Chain>, NoMemory>
    requires { All (FitsChunk (checked_plan checked.now).fields) chunks.now }
    ensures { IfOk result (λ chain. IfSome chain (ChainFits (checked_plan checked.now))) }
{
    let mut chain = None;
    'chunks: for chunk in chunks {
        match segment_of(alloc, checked, chunk, limit)? {
            Some(segment) if may_push(checked, &segment, limit) => {
                chain = Some(pushed(alloc, checked, chain, segment, limit)?);
            }
            _ => return Ok(None),
        }
    }
    Ok(chain)
}

/// How what the chain makes of the initial state differs from what the records of the log do.
fn outcome_differs(
    alloc: Global,
    checked: &Checked,
    chain: &Chain,
    log: &str,
) -> Result<Option<String>, NoMemory>
    requires { ChainFits (checked_plan checked.now) chain.now }
{
    well_formed_plans_keep_states_valid();
    let _plan = checked.plan();
    let outcome = chain.apply(alloc, checked, Outcome::Going(initial(alloc, checked)?))?;
    let found = outcome_text(alloc, &outcome)?;
    match passed(alloc, checked, log)?.at(0) {
        Some((_key, wanted)) if outcome == *wanted => Ok(None),
        Some((_key, wanted)) => {
            let wanted = outcome_text(alloc, wanted)?;
            Ok(Some(format!(in alloc; "found{found}, wanted{wanted}")?))
        }
        None => Ok(Some(format!(in alloc; "found{found}, wanted a group in the log")?)),
    }
}

/// How the chain differs from that of the row.
fn chain_differs(
    alloc: Global,
    checked: &Checked,
    chain: &Chain,
    case: &Pushes,
) -> Result<Option<String>, NoMemory>
    requires { ChainFits (checked_plan checked.now) chain.now }
{
    let paths = paths_of(alloc, chain.segments())?;
    let told = difference(alloc, &paths.as_slice(), &case.paths)?;
    if told.is_some() {
        return Ok(told);
    }
    outcome_differs(alloc, checked, chain, case.log)
}

impl Case for Pushes {
    fn script(&self) -> &str {
        self.script
    }

    fn differs(&self, alloc: Global, checked: &Checked) -> Result<Option<String>, NoMemory> {
        let chunks = chunks_of(alloc, checked, self.log, 1, 8)?;
        match pushed_all(alloc, checked, chunks.as_slice(), self.limit)? {
            Some(chain) => chain_differs(alloc, checked, &chain, self),
            None => {
                let wanted = self.paths;
                Ok(Some(format!(in alloc; "found no chain, wanted {wanted:?}")?))
            }
        }
    }
}

// Where records rise, each has three pairs with the one before it: at a limit of 2 they stay apart,
// though a record that a chunk takes extends the last segment.
#[test]
fn segments_are_composed_up_to_the_limit(rt: HostRuntime) -> Result<(), Fail> {
    let toggles = "x\n1\n1\n1\n";
    let rising = "x\n5\n7\n3\n8\n";
    let cases = [
        Pushes {
            script: TOGGLE,
            log: toggles,
            limit: 1,
            paths: &[2, 2, 2],
        },
        Pushes {
            script: TOGGLE,
            log: toggles,
            limit: 2,
            paths: &[2],
        },
        Pushes {
            script: MAXES,
            log: rising,
            limit: 2,
            paths: &[2, 2, 2],
        },
        Pushes {
            script: MAXES,
            log: rising,
            limit: 3,
            paths: &[2],
        },
    ];
    check_cases(rt.alloc(), &cases)
}
