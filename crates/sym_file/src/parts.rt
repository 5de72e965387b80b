//! Reading what is known of the cells.
ghost use Rattle.std.specs.Prelude.{◌≡◌, ◌∷◌, [], IfOk, Some, slice_get};
ghost use Rattle.sym_check.specs.Plan.ScriptPlans.{script_plan};
ghost use Rattle.sym_file.specs.Making.{facts_of, set_of, span_of};
ghost use Rattle.sym_file.specs.Reading.{Gives, apart, arguments_in, each, facts_at, facts_in, free_at, literal_at, many, outcome_at, part_at, set_at, span_at};

use crate::numbers::{after, below_16, nat, rest_after, small};
use crate::saved_err::SavedErr;
use crate::values::values;
use std::alloc::Global;
use sym_base::{NoMemory, Sequence};
use sym_check::{CellPlan, Plan};
use sym_enum::LabelSet;
use sym_int::Span;
use sym_path::{Constraint, Part};
use sym_pred::{Facts, Literal};

/// The outcome of a test.
#[tactic(auto, unfolding(crate::specs::Reading::outcome_at))]
fn outcome(bytes: &[u8]) -> Result<(bool, &[u8]), SavedErr>
    ensures { Gives (λ x. (x.0, x.1.now)) result (outcome_at bytes.now) }
{
    match rest_after(b" yes", bytes) {
        Some(rest) => Ok((true, rest)),
        None => {
            let rest = after(b" no", bytes)?;
            Ok((false, rest))
        }
    }
}

/// How many arguments a test takes beside so many parts of a hold cell.
fn argument_count(plan: &Plan, test: u16, parts: usize) -> usize
    ensures { result ≡ arguments_in parts (slice_get (script_plan plan.now).tests test) }
{
    match plan.tests.get(usize::from(test)) {
        Some(test) => test.params.len().saturating_sub(parts),
        None => 0,
    }
}

/// A literal after a space, on a hold cell of so many parts.
#[tactic(auto, unfolding(crate::specs::Reading::literal_at))]
fn next_literal<'a>(
    alloc: Global,
    plan: &Plan,
    parts: usize,
    bytes: &'a [u8],
) -> Result<(Literal, &'a [u8]), SavedErr>
    ensures { Gives (λ x. (x.0, x.1.now)) result
        (apart (literal_at (script_plan plan.now) parts) bytes.now) }
{
    let rest = after(b" ", bytes)?;
    let rest = after(b"t", rest)?;
    let (test, rest) = below_16(rest)?;
    let (outcome, rest) = outcome(rest)?;
    let (args, rest) = values(alloc, argument_count(plan, test, parts), rest)?;
    let literal = Literal {
        test,
        args,
        outcome,
    };
    Ok((literal, rest))
}

/// So many literals, each after a space.
fn literals<'a>(
    alloc: Global,
    plan: &Plan,
    parts: usize,
    count: u128,
    bytes: &'a [u8],
) -> Result<(Vec<Literal>, &'a [u8]), SavedErr>
    ensures { Gives (λ x. (x.0.items, x.1.now)) result
        (many (apart (literal_at (script_plan plan.now) parts)) count bytes.now) }
{
    let mut literals = Vec::new(alloc);
    let mut rest = bytes;
    'literals: for _ in 0..count {
        let (literal, after) = next_literal(alloc, plan, parts, rest)?;
        literals.push(literal)?;
        rest = after;
    }
    Ok((literals, rest))
}

/// The set of the labels whose sum of powers of 2 this is.
fn set_of(number: u128) -> Option<LabelSet>
    ensures { result ≡ set_of number }
{
    if number >= 1 << 32 {
        return None;
    }
    let bits = number as u32;
    let mut set = LabelSet::one(0).split(0).1;
    'labels: for label in 0..32u8 {
        if (bits >> label) & 1 == 1 {
            set = set.unite(&LabelSet::one(label));
        }
    }
    Some(set)
}

#[tactic(auto, unfolding(crate::specs::Reading::set_at))]
fn set(bytes: &[u8]) -> Result<(Part, &[u8]), SavedErr>
    ensures { Gives (λ x. (x.0, x.1.now)) result (set_at bytes.now) }
{
    let rest = after(b"e", bytes)?;
    let (number, rest) = nat(rest)?;
    match set_of(number) {
        Some(set) => Ok((Part::Set(set), rest)),
        None => Err(SavedErr::Malformed),
    }
}

fn span_of(lo: i64, hi: i64) -> Option<Span>
    ensures { result ≡ span_of lo hi }
{
    Span::new(lo, hi)
}

#[tactic(auto, unfolding(crate::specs::Reading::span_at))]
fn span(bytes: &[u8]) -> Result<(Part, &[u8]), SavedErr>
    ensures { Gives (λ x. (x.0, x.1.now)) result (span_at bytes.now) }
{
    let rest = after(b"i", bytes)?;
    let (lo, rest) = small(rest)?;
    let rest = after(b"..", rest)?;
    let (hi, rest) = small(rest)?;
    match span_of(lo, hi) {
        Some(span) => Ok((Part::Span(span), rest)),
        None => Err(SavedErr::Malformed),
    }
}

fn facts_of(literals: Vec<Literal>) -> Option<Facts>
    ensures { result ≡ facts_of literals.items }
{
    Facts::of(literals)
}

/// The facts of one literal, which lies inline.
fn facts_of_one(alloc: Global, literal: Literal) -> Result<Facts, NoMemory>
    ensures { IfOk result (λ facts. facts_of (literal ∷ []) ≡ Some facts) }
{
    Facts::none(alloc).with(literal)
}

/// Facts of one literal, after a space.
fn one_fact<'a>(
    alloc: Global,
    plan: &Plan,
    parts: usize,
    bytes: &'a [u8],
) -> Result<(Part, &'a [u8]), SavedErr>
    ensures { Gives (λ x. (x.0, x.1.now)) result
        (facts_in (script_plan plan.now) parts 1 bytes.now) }
{
    let (literal, rest) = next_literal(alloc, plan, parts, bytes)?;
    let facts = facts_of_one(alloc, literal)?;
    Ok((Part::Facts(facts), rest))
}

/// Facts of so many literals, each after a space.
fn facts_in<'a>(
    alloc: Global,
    plan: &Plan,
    parts: usize,
    count: u128,
    bytes: &'a [u8],
) -> Result<(Part, &'a [u8]), SavedErr>
    ensures { Gives (λ x. (x.0, x.1.now)) result
        (facts_in (script_plan plan.now) parts count bytes.now) }
{
    if count == 1 {
        return one_fact(alloc, plan, parts, bytes);
    }
    let (literals, rest) = literals(alloc, plan, parts, count, bytes)?;
    match facts_of(literals) {
        Some(facts) => Ok((Part::Facts(facts), rest)),
        None => Err(SavedErr::Malformed),
    }
}

/// Facts on a hold cell of so many parts.
#[tactic(auto, unfolding(crate::specs::Reading::facts_at))]
fn facts<'a>(
    alloc: Global,
    plan: &Plan,
    parts: usize,
    bytes: &'a [u8],
) -> Result<(Part, &'a [u8]), SavedErr>
    ensures { Gives (λ x. (x.0, x.1.now)) result
        (facts_at (script_plan plan.now) parts bytes.now) }
{
    let rest = after(b"f", bytes)?;
    let (count, rest) = nat(rest)?;
    facts_in(alloc, plan, parts, count, rest)
}

fn free(bytes: &[u8]) -> Result<(Part, &[u8]), SavedErr>
    ensures { Gives (λ x. (x.0, x.1.now)) result (free_at bytes.now) }
{
    let rest = after(b"v", bytes)?;
    Ok((Part::Free, rest))
}

/// What is known of a cell.
#[tactic(auto, unfolding(crate::specs::Reading::part_at))]
fn part<'a>(
    alloc: Global,
    plan: &Plan,
    cell: &CellPlan,
    bytes: &'a [u8],
) -> Result<(Part, &'a [u8]), SavedErr>
    ensures { Gives (λ x. (x.0, x.1.now)) result
        (part_at (script_plan plan.now) cell.now bytes.now) }
{
    match cell {
        CellPlan::Enum { .. } => set(bytes),
        CellPlan::Int { .. } => span(bytes),
        CellPlan::Hold { kinds, .. } => facts(alloc, plan, kinds.len(), bytes),
        CellPlan::Nums { .. } | CellPlan::Words => free(bytes),
    }
}

/// What is known of a cell, after a space.
fn next_part<'a>(
    alloc: Global,
    plan: &Plan,
    cell: &CellPlan,
    bytes: &'a [u8],
) -> Result<(Part, &'a [u8]), SavedErr>
    ensures { Gives (λ x. (x.0, x.1.now)) result
        (apart (part_at (script_plan plan.now) cell.now) bytes.now) }
{
    let rest = after(b" ", bytes)?;
    part(alloc, plan, cell, rest)
}

/// What is known of each cell.
pub(crate) fn parts<'a>(
    alloc: Global,
    plan: &Plan,
    bytes: &'a [u8],
) -> Result<(Constraint, &'a [u8]), SavedErr>
    ensures { Gives (λ x. (x.0, x.1.now)) result
        (each (λ cell. apart (part_at (script_plan plan.now) cell))
        (script_plan plan.now).cells bytes.now) }
{
    let mut parts = Vec::with_capacity(alloc, plan.cells.len())?;
    let mut rest = bytes;
    'cells: for cell in plan.cells.as_slice() {
        let (part, after) = next_part(alloc, plan, cell, rest)?;
        parts.push(part)?;
        rest = after;
    }
    Ok((Sequence::of(parts), rest))
}
