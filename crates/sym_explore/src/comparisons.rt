//! Comparisons of numbers that may depend on a cell.
ghost use Rattle.std.specs.Prelude.{ℕ, IfOk, OnOk, slice_get};
ghost use Rattle.sym_base.specs.Limits.{IsNumber};
ghost use Rattle.sym_check.specs.Plan.ScriptPlans.{script_plan};
ghost use Rattle.sym_check.specs.Plan.WellFormed.{IsWellFormed};
ghost use Rattle.sym_int.specs.Cuts.{IsCut, count_with, most_with};
ghost use Rattle.sym_int.specs.Lines.{wide_cell};
ghost use Rattle.sym_path.specs.Fitting.{PathFits};
ghost use Rattle.sym_path.specs.Narrowing.{NarrowsNumbers};
ghost use Rattle.sym_explore.specs.Branches.{answered, AreFewBranches, CanSplit, Splits};
ghost use Rattle.sym_explore.specs.Comparing.{ArePiecesOf, CutsPath, IsPiecePushed, WasCompared, number_compares};
ghost use Rattle.sym_explore.specs.Terms.{HasSpan, ReadyFits};

use crate::branch::Branch;
use crate::terms::{Ready, ready_form, span_of};
use std::alloc::Global;
use sym_base::{Compare, NoMemory};
use sym_check::Plan;
use sym_int::{Cut, Pieces, Span, Wide, cut};
use sym_path::Path;

/// A comparison with a known number.
#[derive(Clone, Copy)]
pub struct Bound {
    pub compare: Compare,
    pub number: i64,
}

/// Puts a branch of the path on one piece of the cell's span after the others.
fn push_piece(
    alloc: Global,
    plan: &Plan,
    cell: u16,
    piece: &Cut,
    path: &Path,
    out: &mut Vec<Branch>,
) -> Result<(), NoMemory>
    requires known { IsWellFormed (script_plan plan.now) }
    requires fits { PathFits (script_plan plan.now) path.now }
    requires narrower { NarrowsNumbers piece.now.span (slice_get path.now.when cell) }
    ensures { OnOk result (IsPiecePushed (script_plan plan.now) cell piece.now path.now
        out.old.items out.new.items) }
{
    let mut copy = path.copy(alloc)?;
    copy.narrow_numbers(plan, cell, &piece.span);
    out.push(Branch {
        path: copy,
        truth: piece.truth,
    })?;
    Ok(())
}

/// Narrows the path to the last of the pieces of the cell's span, and puts a branch on each other
/// one after the others.
fn cut_path(
    alloc: Global,
    plan: &Plan,
    cell: u16,
    pieces: &Pieces,
    path: &mut Path,
    out: &mut Vec<Branch>,
) -> Result<bool, NoMemory>
    requires known { IsWellFormed (script_plan plan.now) }
    requires split { CanSplit (script_plan plan.now) path.old out.old.items }
    requires pieces { ArePiecesOf (slice_get path.old.when cell) pieces.now }
    ensures exact { IfOk result (CutsPath (script_plan plan.now) cell pieces.now
        path.old out.old.items path.new out.new.items) }
    ensures next { OnOk result (CanSplit (script_plan plan.now) path.new out.new.items) }
    ensures few { IfOk result (AreFewBranches (λ x. count_with x pieces.now)
        out.old.items out.new.items) }
{
    let Some(second) = pieces.second else {
        return Ok(pieces.first.truth);
    };
    push_piece(alloc, plan, cell, &pieces.first, path, out)?;
    let Some(third) = pieces.third else {
        path.narrow_numbers(plan, cell, &second.span);
        return Ok(second.truth);
    };
    push_piece(alloc, plan, cell, &second, path, out)?;
    path.narrow_numbers(plan, cell, &third.span);
    Ok(third.truth)
}

/// The pieces of the span of the line's cell by the comparison.
fn pieces_of(span: &Span, wide: &Wide, bound: &Bound) -> Pieces
    requires { IsNumber bound.now.number }
    ensures { IsCut span.now wide.now bound.now.compare bound.now.number result }
{
    cut(span, wide, bound.compare, bound.number)
}

/// Compares a number over the state before the path. The path is cut where the comparison is true
/// for some of its states and false for others; a number that is known is compared, and nothing is
/// cut.
fn compare_wide(
    alloc: Global,
    plan: &Plan,
    wide: &Wide,
    bound: &Bound,
    path: &mut Path,
    out: &mut Vec<Branch>,
) -> Result<bool, NoMemory>
    requires known { IsWellFormed (script_plan plan.now) }
    requires span { HasSpan path.old (wide_cell wide.now) }
    requires number { IsNumber bound.now.number }
    requires split { CanSplit (script_plan plan.now) path.old out.old.items }
    ensures exact { IfOk result (WasCompared (script_plan plan.now) wide.now bound.now
        path.old out.old.items path.new out.new.items) }
    ensures next { OnOk result (CanSplit (script_plan plan.now) path.new out.new.items) }
    ensures few { IfOk result (AreFewBranches (most_with bound.now.compare)
        out.old.items out.new.items) }
{
    match wide {
        Wide::Const(number) => Ok(bound.compare.holds(number.value, i128::from(bound.number))),
        Wide::Line(line) => match span_of(path, line.cell) {
            Some(span) => {
                let pieces = pieces_of(&span, wide, bound);
                cut_path(alloc, plan, line.cell, &pieces, path, out)
            }
            None => unreachable!(),
        },
    }
}

/// Compares the number of a term with a known one on a path that goes on.
pub(crate) fn compare_ready(
    alloc: Global,
    plan: &Plan,
    ready: &Ready,
    bound: &Bound,
    path: &mut Path,
    out: &mut Vec<Branch>,
) -> Result<bool, NoMemory>
    requires known { IsWellFormed (script_plan plan.now) }
    requires ready { ReadyFits (script_plan plan.now) ready.now }
    requires number { IsNumber bound.now.number }
    requires split { CanSplit (script_plan plan.now) path.old out.old.items }
    ensures exact { (n : ℕ) → let meaning = answered n (number_compares ready.now bound.now) in
        IfOk result (Splits (script_plan plan.now) meaning
        path.old out.old.items path.new out.new.items) }
    ensures next { OnOk result (CanSplit (script_plan plan.now) path.new out.new.items) }
    ensures few { IfOk result (AreFewBranches (most_with bound.now.compare)
        out.old.items out.new.items) }
{
    match ready_form(plan, ready, path) {
        Some(wide) => compare_wide(alloc, plan, &wide, bound, path, out),
        None => unreachable!(),
    }
}
