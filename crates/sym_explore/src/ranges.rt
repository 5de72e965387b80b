//! Numbers that are stored in cells that have a range.
ghost use Rattle.std.specs.Prelude.{◌≡◌, ◌≤◌, ◌+◌, ◌+ℤ◌, ◌*ℤ◌, IfOk, OnOk, IfSome, IsTrue, Some, false, length, slice_get};
ghost use Rattle.sym_check.specs.Meaning.Fitting.{FitsFault};
ghost use Rattle.sym_check.specs.Plan.Ranges.{kept};
ghost use Rattle.sym_check.specs.Plan.ScriptPlans.{script_plan};
ghost use Rattle.sym_check.specs.Plan.WellFormed.{IsWellFormed};
ghost use Rattle.sym_int.specs.Lines.{wide_cell};
ghost use Rattle.sym_int.specs.Parts.{IsWithin};
ghost use Rattle.sym_int.specs.Points.{HasPoint};
ghost use Rattle.sym_path.specs.Changing.{GoesOn};
ghost use Rattle.sym_path.specs.Fitting.{PathFits, SegmentFits};
ghost use Rattle.sym_path.specs.Narrowing.{GivesWhere, IsSubspan, NarrowsNumbers};
ghost use Rattle.sym_path.specs.declared.part.Part.TheVariants as part;
ghost use Rattle.sym_explore.specs.Faulting.{FaultsCameAt};
ghost use Rattle.sym_explore.specs.Placing.{AllAreStored, TargetFits, TargetRanges};
ghost use Rattle.sym_explore.specs.Ranging.{IsFailedPushed, IsPartPushed, IsWholeOn, KnownRanges, NumberFitsOn, ranged};
ghost use Rattle.sym_explore.specs.Storing.{ReadyStores};
ghost use Rattle.sym_explore.specs.Terms.{HasSpan, ReadyFits};

use crate::nearest_ends::clamp_line;
use crate::places::{Target, TargetLine};
use crate::terms::{Ready, ready_form, span_of};
use std::alloc::Global;
use sym_base::{Fault, NoMemory};
use sym_check::{Plan, Range};
use sym_int::{IntForm, Number, Span, Wide, WideLine, WideNumber, fit};
use sym_path::{Part, Path};

/// A path on which the number is known goes on with what the target's range keeps of it; where that
/// is nothing, it ends.
pub(crate) fn range_known(target: &Target, number: &WideNumber, path: &mut Path) -> Option<IntForm>
    requires { GoesOn path.old.end }
    ensures { KnownRanges (kept (ranged target.now.clamps target.now.ends) number.now.value)
        target.now.fault path.old path.new result }
{
    let range = Range {
        lo: target.ends.lo,
        hi: target.ends.hi,
        clamps: target.clamps,
    };
    match range.kept(number.value) {
        Some(value) => Some(IntForm::Const(Number { value })),
        None => {
            path.fail(target.fault);
            None
        }
    }
}

/// Narrows a path that has ended to a span within that of the cell: no form is taken on it.
fn narrow_ended(_plan: &Plan, cell: u16, span: &Span, path: &mut Path)
    requires fits { PathFits (script_plan _plan.now) path.old }
    requires narrower { NarrowsNumbers span.now (slice_get path.old.when cell) }
    requires ended { ¬ (GoesOn path.old.end) }
    ensures fits { PathFits (script_plan _plan.now) path.new }
    ensures gives { GivesWhere path.old cell (part.Span span.now) path.new }
    ensures end { path.new.end ≡ path.old.end }
{
    path.when.set(usize::from(cell), Part::Span(*span));
}

/// Puts the part of the path on this span of the cell, ended by the fault, after the other paths.
fn push_failed(
    alloc: Global,
    line: &TargetLine,
    span: &Span,
    path: &Path,
    out: &mut Vec<Path>,
) -> Result<(), NoMemory>
    requires known { IsWellFormed (script_plan line.now.plan.now) }
    requires fits { PathFits (script_plan line.now.plan.now) path.now }
    requires fault { FitsFault (script_plan line.now.plan.now) line.now.target.now.fault.kind }
    requires narrower { NarrowsNumbers span.now (slice_get path.now.when line.now.cell) }
    ensures { OnOk result (IsFailedPushed (script_plan line.now.plan.now) line.now.cell
        span.now line.now.target.now.fault path.now out.old.items out.new.items) }
{
    let mut copy = path.failed(alloc, line.target.fault)?;
    narrow_ended(line.plan, line.cell, span, &mut copy);
    out.push(copy)?;
    Ok(())
}

/// Puts the part of the path on this part of the cell's span, ended by the fault, after the other
/// paths. Where there is no such part, nothing changes.
fn push_part(
    alloc: Global,
    line: &TargetLine,
    part: Option<Span>,
    path: &Path,
    out: &mut Vec<Path>,
) -> Result<(), NoMemory>
    requires known { IsWellFormed (script_plan line.now.plan.now) }
    requires fits { PathFits (script_plan line.now.plan.now) path.now }
    requires fault { FitsFault (script_plan line.now.plan.now) line.now.target.now.fault.kind }
    requires narrower { IfSome part (λ span.
        NarrowsNumbers span (slice_get path.now.when line.now.cell)) }
    ensures { OnOk result (IsPartPushed (script_plan line.now.plan.now) line.now.cell
        part line.now.target.now.fault path.now out.old.items out.new.items) }
{
    if let Some(span) = part {
        push_failed(alloc, line, &span, path, out)?;
    }
    Ok(())
}

/// Narrows the path to a span within that of the cell, if it isn't the same one.
pub(crate) fn narrow_within(plan: &Plan, cell: u16, own: &Span, span: &Span, path: &mut Path)
    requires known { IsWellFormed (script_plan plan.now) }
    requires fits { PathFits (script_plan plan.now) path.old }
    requires own { slice_get path.old.when cell ≡ Some (part.Span own.now) }
    requires within { IsSubspan own.now span.now }
    ensures fits { PathFits (script_plan plan.now) path.new }
    ensures gives { GivesWhere path.old cell (part.Span span.now) path.new }
    ensures next { GoesOn path.old.end → GoesOn path.new.end }
    ensures span { slice_get path.new.when cell ≡ Some (part.Span span.now) }
{
    if span.lo != own.lo || span.hi != own.hi {
        path.narrow_numbers(plan, cell, span);
    }
}

/// Parts the path by whether a number over the span of the cell is in the target's range. Where it
/// isn't the path ends; where it is in some of the states the path goes on with these.
#[inline(never)]
fn end_line(
    alloc: Global,
    line: &TargetLine,
    path: &mut Path,
    out: &mut Vec<Path>,
) -> Result<Option<IntForm>, NoMemory>
    requires known { IsWellFormed (script_plan line.now.plan.now) }
    requires fits { PathFits (script_plan line.now.plan.now) path.old }
    requires others { SegmentFits (script_plan line.now.plan.now) out.old.items }
    requires goes_on { GoesOn path.old.end }
    requires fault { FitsFault (script_plan line.now.plan.now) line.now.target.now.fault.kind }
    requires ends { line.now.target.now.clamps ≡ false }
    requires cell { wide_cell line.now.wide.now ≡ Some line.now.cell }
    requires span { HasSpan path.old (Some line.now.cell) }
    ensures exact { IfOk result (TargetRanges (script_plan line.now.plan.now)
        line.now.target.now line.now.wide.now path.old out.old.items path.new out.new.items) }
    ensures fits { OnOk result (PathFits (script_plan line.now.plan.now) path.new) }
    ensures others { OnOk result (SegmentFits (script_plan line.now.plan.now) out.new.items) }
    ensures number { let ends = line.now.target.now.ends in
        IfOk result (λ number. IfSome number (NumberFitsOn ends.lo ends.hi path.new)) }
    ensures few { OnOk result (length out.new.items ≤ length out.old.items + 2) }
    ensures faults { OnOk result (FaultsCameAt line.now.target.now.fault.no
        path.old out.old.items path.new out.new.items) }
{
    let Some(span) = span_of(path, line.cell) else {
        unreachable!()
    };
    let fitted = fit(&span, line.wide, &line.target.ends);
    let Some(inside) = fitted.inside else {
        path.fail(line.target.fault);
        return Ok(None);
    };
    push_part(alloc, line, fitted.below, path, out)?;
    push_part(alloc, line, fitted.above, path, out)?;
    narrow_within(line.plan, line.cell, &span, &inside.span, path);
    Ok(Some(inside.form))
}

/// Parts the path by whether a number over the span of the cell is in the target's range.
fn part_line(
    alloc: Global,
    line: &TargetLine,
    path: &mut Path,
    out: &mut Vec<Path>,
) -> Result<Option<IntForm>, NoMemory>
    requires known { IsWellFormed (script_plan line.now.plan.now) }
    requires target { TargetFits (script_plan line.now.plan.now) line.now.target.now }
    requires fits { PathFits (script_plan line.now.plan.now) path.old }
    requires others { SegmentFits (script_plan line.now.plan.now) out.old.items }
    requires goes_on { GoesOn path.old.end }
    requires cell { wide_cell line.now.wide.now ≡ Some line.now.cell }
    requires span { HasSpan path.old (Some line.now.cell) }
    ensures exact { IfOk result (TargetRanges (script_plan line.now.plan.now)
        line.now.target.now line.now.wide.now path.old out.old.items path.new out.new.items) }
    ensures fits { OnOk result (PathFits (script_plan line.now.plan.now) path.new) }
    ensures others { OnOk result (SegmentFits (script_plan line.now.plan.now) out.new.items) }
    ensures number { let ends = line.now.target.now.ends in
        IfOk result (λ number. IfSome number (NumberFitsOn ends.lo ends.hi path.new)) }
    ensures few { OnOk result (length out.new.items ≤ length out.old.items + 2) }
    ensures faults { OnOk result (FaultsCameAt line.now.target.now.fault.no
        path.old out.old.items path.new out.new.items) }
    ensures stored { IfOk result (λ number. AllAreStored line.now.target.now.clamps number
        out.old.items out.new.items) }
{
    if line.target.clamps {
        let form = clamp_line(alloc, line, path, out)?;
        Ok(Some(form))
    } else {
        end_line(alloc, line, path, out)
    }
}

/// Whether the line's number at the first point of the span is in the range.
fn begins_in(line: &WideLine, span: &Span, range: &Span) -> bool
    ensures { IsTrue result → HasPoint range.now (line.now.a *ℤ span.now.lo +ℤ line.now.b) }
{
    let number = line.at(span.lo);
    range.lo as i128 <= number && number <= range.hi as i128
}

/// Whether the line's number at the last point of the span is in the range.
fn ends_in(line: &WideLine, span: &Span, range: &Span) -> bool
    ensures { IsTrue result → HasPoint range.now (line.now.a *ℤ span.now.hi +ℤ line.now.b) }
{
    let number = line.at(span.hi);
    range.lo as i128 <= number && number <= range.hi as i128
}

/// Whether the line's number is in the range at each point of the span: so it is where it is in the
/// range at both ends.
fn is_within(line: &WideLine, span: &Span, range: &Span) -> bool
    ensures { IsTrue result → IsWithin (Wide.Line line.now) range.now span.now }
{
    begins_in(line, span, range) && ends_in(line, span, range)
}

/// The form of a line on the path, where its number is in the range at all of the path's states;
/// `None` anywhere else.
fn whole_form(wide: &Wide, line: &WideLine, range: &Span, path: &Path) -> Option<IntForm>
    requires { wide.now ≡ Wide.Line line.now }
    ensures { IfSome result (IsWholeOn wide.now line.now.cell range.now path.now) }
{
    let Some(span) = span_of(path, line.cell) else {
        return None;
    };
    if is_within(line, &span, range) {
        return Some(wide.taken(&span));
    }
    None
}

/// Parts the path by whether a number over the state before it is in the target's range.
#[inline(always)]
fn range_wide(
    alloc: Global,
    plan: &Plan,
    wide: &Wide,
    target: &Target,
    path: &mut Path,
    out: &mut Vec<Path>,
) -> Result<Option<IntForm>, NoMemory>
    requires known { IsWellFormed (script_plan plan.now) }
    requires target { TargetFits (script_plan plan.now) target.now }
    requires fits { PathFits (script_plan plan.now) path.old }
    requires others { SegmentFits (script_plan plan.now) out.old.items }
    requires goes_on { GoesOn path.old.end }
    requires span { HasSpan path.old (wide_cell wide.now) }
    ensures exact { IfOk result (TargetRanges (script_plan plan.now) target.now wide.now
        path.old out.old.items path.new out.new.items) }
    ensures fits { OnOk result (PathFits (script_plan plan.now) path.new) }
    ensures others { OnOk result (SegmentFits (script_plan plan.now) out.new.items) }
    ensures number { IfOk result (λ number. IfSome number
        (NumberFitsOn target.now.ends.lo target.now.ends.hi path.new)) }
    ensures few { OnOk result (length out.new.items ≤ length out.old.items + 2) }
    ensures faults { OnOk result (FaultsCameAt target.now.fault.no
        path.old out.old.items path.new out.new.items) }
    ensures stored { IfOk result (λ number. AllAreStored target.now.clamps number
        out.old.items out.new.items) }
{
    match wide {
        Wide::Const(number) => Ok(range_known(target, number, path)),
        Wide::Line(line) => match whole_form(wide, line, &target.ends, path) {
            Some(form) => Ok(Some(form)),
            None => {
                let cell = line.cell;
                let line = TargetLine {
                    plan,
                    cell,
                    wide,
                    target,
                };
                part_line(alloc, &line, path, out)
            }
        },
    }
}

/// The form of the number that is to be stored at the target for a ready term. The path goes on
/// where there is one; where the term's number is outside a range that doesn't clamp, it ends.
#[inline(always)]
pub(crate) fn range_ready(
    alloc: Global,
    plan: &Plan,
    ready: &Ready,
    target: &Target,
    path: &mut Path,
    out: &mut Vec<Path>,
) -> Result<Option<IntForm>, NoMemory>
    requires known { IsWellFormed (script_plan plan.now) }
    requires ready { ReadyFits (script_plan plan.now) ready.now }
    requires target { TargetFits (script_plan plan.now) target.now }
    requires fits { PathFits (script_plan plan.now) path.old }
    requires others { SegmentFits (script_plan plan.now) out.old.items }
    requires goes_on { GoesOn path.old.end }
    ensures exact { IfOk result (ReadyStores (script_plan plan.now) target.now ready.now
        path.old out.old.items path.new out.new.items) }
    ensures fits { OnOk result (PathFits (script_plan plan.now) path.new) }
    ensures others { OnOk result (SegmentFits (script_plan plan.now) out.new.items) }
    ensures number { IfOk result (λ number. IfSome number
        (NumberFitsOn target.now.ends.lo target.now.ends.hi path.new)) }
    ensures few { OnOk result (length out.new.items ≤ length out.old.items + 2) }
    ensures faults { OnOk result (FaultsCameAt target.now.fault.no
        path.old out.old.items path.new out.new.items) }
    ensures stored { IfOk result (λ number. AllAreStored target.now.clamps number
        out.old.items out.new.items) }
{
    let Some(wide) = ready_form(plan, ready, path) else {
        unreachable!()
    };
    range_wide(alloc, plan, &wide, target, path, out)
}
