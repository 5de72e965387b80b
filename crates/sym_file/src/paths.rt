//! Reading paths, segments and chains.
ghost use Rattle.std.specs.Prelude.{◌≡◌, codes};
ghost use Rattle.sym_check.specs.Plan.ScriptPlans.{script_plan};
ghost use Rattle.sym_file.specs.Reading.{Gives, arith_at, chain_at, chain_in, end_at, listed_at, many, next_at, over_at, path_at, segment_at};

use crate::forms::forms;
use crate::numbers::{after, below_16, below_64, nat};
use crate::parts::parts;
use crate::saved_err::SavedErr;
use std::alloc::Global;
use sym_base::{Fault, FaultKind};
use sym_check::Plan;
use sym_path::{Path, PathEnd, Segment};
use sym_run::Chain;

fn next<'a>(alloc: Global, plan: &Plan, bytes: &'a [u8]) -> Result<(PathEnd, &'a [u8]), SavedErr>
    ensures { Gives (λ x. (x.0, x.1.now)) result (next_at (script_plan plan.now) bytes.now) }
{
    let rest = after(b"next", bytes)?;
    let (forms, rest) = forms(alloc, plan, rest)?;
    Ok((PathEnd::Next(forms), rest))
}

fn over(bytes: &[u8]) -> Result<(PathEnd, &[u8]), SavedErr>
    ensures { Gives (λ x. (x.0, x.1.now)) result (over_at bytes.now) }
{
    let rest = after(b"over ", bytes)?;
    let (cell, rest) = below_16(rest)?;
    let rest = after(b" ", rest)?;
    let (no, rest) = below_64(rest)?;
    let kind = FaultKind::Over(cell);
    Ok((PathEnd::Ended(Fault { kind, no }), rest))
}

fn arith(bytes: &[u8]) -> Result<(PathEnd, &[u8]), SavedErr>
    ensures { Gives (λ x. (x.0, x.1.now)) result (arith_at bytes.now) }
{
    let rest = after(b"arith ", bytes)?;
    let (no, rest) = below_64(rest)?;
    let kind = FaultKind::Arith;
    Ok((PathEnd::Ended(Fault { kind, no }), rest))
}

/// How a path ends.
#[tactic(auto, unfolding(crate::specs::Reading::end_at))]
fn end<'a>(alloc: Global, plan: &Plan, bytes: &'a [u8]) -> Result<(PathEnd, &'a [u8]), SavedErr>
    ensures { Gives (λ x. (x.0, x.1.now)) result (end_at (script_plan plan.now) bytes.now) }
{
    match bytes {
        [] => Err(SavedErr::Malformed),
        [b'n', ..] => next(alloc, plan, bytes),
        [b'o', ..] => over(bytes),
        [_, ..] => arith(bytes),
    }
}

/// A path.
#[tactic(auto, unfolding(crate::specs::Reading::path_at))]
fn path<'a>(alloc: Global, plan: &Plan, bytes: &'a [u8]) -> Result<(Path, &'a [u8]), SavedErr>
    ensures { Gives (λ x. (x.0, x.1.now)) result (path_at (script_plan plan.now) bytes.now) }
{
    let rest = after(b"when", bytes)?;
    let (when, rest) = parts(alloc, plan, rest)?;
    let rest = after(b"\n", rest)?;
    let (end, rest) = end(alloc, plan, rest)?;
    let rest = after(b"\n", rest)?;
    Ok((Path { when, end }, rest))
}

/// So many paths.
fn paths<'a>(
    alloc: Global,
    plan: &Plan,
    count: u128,
    bytes: &'a [u8],
) -> Result<(Vec<Path>, &'a [u8]), SavedErr>
    ensures { Gives (λ x. (x.0.items, x.1.now)) result
        (many (path_at (script_plan plan.now)) count bytes.now) }
{
    let mut paths = Vec::new(alloc);
    let mut rest = bytes;
    'paths: for _ in 0..count {
        let (path, after) = path(alloc, plan, rest)?;
        paths.push(path)?;
        rest = after;
    }
    Ok((paths, rest))
}

/// A segment.
#[tactic(auto, unfolding(crate::specs::Reading::segment_at, crate::specs::Reading::listed_at))]
fn segment<'a>(alloc: Global, plan: &Plan, bytes: &'a [u8]) -> Result<(Segment, &'a [u8]), SavedErr>
    ensures { Gives (λ x. (x.0, x.1.now)) result (segment_at (script_plan plan.now) bytes.now) }
{
    let rest = after(b"segment ", bytes)?;
    let (count, rest) = nat(rest)?;
    let rest = after(b"\n", rest)?;
    let (paths, rest) = paths(alloc, plan, count, rest)?;
    Ok((Segment::of(paths), rest))
}

/// So many segments.
fn segments<'a>(
    alloc: Global,
    plan: &Plan,
    count: u128,
    bytes: &'a [u8],
) -> Result<(Vec<Segment>, &'a [u8]), SavedErr>
    ensures { Gives (λ x. (x.0.items, x.1.now)) result
        (many (segment_at (script_plan plan.now)) count bytes.now) }
{
    let mut segments = Vec::new(alloc);
    let mut rest = bytes;
    'segments: for _ in 0..count {
        let (segment, after) = segment(alloc, plan, rest)?;
        segments.push(segment)?;
        rest = after;
    }
    Ok((segments, rest))
}

/// A chain of one segment.
fn one_segment<'a>(
    alloc: Global,
    plan: &Plan,
    bytes: &'a [u8],
) -> Result<(Chain, &'a [u8]), SavedErr>
    ensures { Gives (λ x. (x.0, x.1.now)) result (chain_in (script_plan plan.now) 1 bytes.now) }
{
    let (segment, rest) = segment(alloc, plan, bytes)?;
    let chain = Chain::one(alloc, segment)?;
    Ok((chain, rest))
}

/// A chain of so many segments.
fn chain_in<'a>(
    alloc: Global,
    plan: &Plan,
    count: u128,
    bytes: &'a [u8],
) -> Result<(Chain, &'a [u8]), SavedErr>
    ensures { Gives (λ x. (x.0, x.1.now)) result
        (chain_in (script_plan plan.now) count bytes.now) }
{
    if count == 1 {
        return one_segment(alloc, plan, bytes);
    }
    let (segments, rest) = segments(alloc, plan, count, bytes)?;
    match Chain::of(segments) {
        Some(chain) => Ok((chain, rest)),
        None => Err(SavedErr::Malformed),
    }
}

/// A chain, of one segment or more.
#[tactic(auto, unfolding(crate::specs::Reading::chain_at, crate::specs::Reading::listed_at))]
pub(crate) fn chain<'a>(
    alloc: Global,
    plan: &Plan,
    bytes: &'a [u8],
) -> Result<(Chain, &'a [u8]), SavedErr>
    ensures { Gives (λ x. (x.0, x.1.now)) result (chain_at (script_plan plan.now) bytes.now) }
{
    let rest = after(b"chain ", bytes)?;
    let (count, rest) = nat(rest)?;
    let rest = after(b"\n", rest)?;
    chain_in(alloc, plan, count, rest)
}
