//! Numbers outside the range of a cell that takes the nearest end.
ghost use Rattle.std.specs.Prelude.{◌≡◌, ◌≤◌, ◌+◌, IfOk, IfSome, None, OnOk, Some, length, slice_get, true};
ghost use Rattle.sym_check.specs.Plan.ScriptPlans.{script_plan};
ghost use Rattle.sym_check.specs.Plan.WellFormed.{IsWellFormed};
ghost use Rattle.sym_int.specs.Fits.{IsFitted};
ghost use Rattle.sym_int.specs.Lines.{wide_cell};
ghost use Rattle.sym_path.specs.Changing.{GoesOn};
ghost use Rattle.sym_path.specs.Fitting.{PathFits, SegmentFits};
ghost use Rattle.sym_path.specs.Narrowing.{NarrowsNumbers};
ghost use Rattle.sym_path.specs.declared.part.Part.TheVariants as part;
ghost use Rattle.sym_explore.specs.Faulting.{FaultsCameAt};
ghost use Rattle.sym_explore.specs.Parting.{AllGoOn};
ghost use Rattle.sym_explore.specs.Placing.{IsConstant, IsConstantIn, IsPartStored, IsStoredPushed, TargetFits, TargetRanges};
ghost use Rattle.sym_explore.specs.Ranging.{NumberFitsOn};
ghost use Rattle.sym_explore.specs.Terms.{HasSpan};

use crate::places::{TargetLine, put};
use crate::ranges::narrow_within;
use crate::terms::span_of;
use std::alloc::Global;
use sym_base::NoMemory;
use sym_check::Plan;
use sym_int::{Fitted, IntForm, Number, Span, Wide, fit};
use sym_path::Path;

/// The least number of a range.
fn least(ends: &Span) -> IntForm
    ensures is { IsConstant result ends.now.lo }
    ensures within { IsConstantIn ends.now result }
{
    IntForm::Const(Number { value: ends.lo })
}

/// The greatest number of a range.
fn greatest(ends: &Span) -> IntForm
    ensures is { IsConstant result ends.now.hi }
    ensures within { IsConstantIn ends.now result }
{
    IntForm::Const(Number { value: ends.hi })
}

/// Puts the part of the path on this span of the cell, with an end of the range stored at the
/// target, after the other paths.
fn push_stored(
    alloc: Global,
    line: &TargetLine,
    span: &Span,
    end: IntForm,
    path: &Path,
    out: &mut Vec<Path>,
) -> Result<(), NoMemory>
    requires known { IsWellFormed (script_plan line.now.plan.now) }
    requires target { TargetFits (script_plan line.now.plan.now) line.now.target.now }
    requires end { IsConstantIn line.now.target.now.ends end }
    requires fits { PathFits (script_plan line.now.plan.now) path.now }
    requires goes_on { GoesOn path.now.end }
    requires narrower { NarrowsNumbers span.now (slice_get path.now.when line.now.cell) }
    ensures { OnOk result (IsStoredPushed (script_plan line.now.plan.now) line.now.cell
        span.now line.now.target.now.place end path.now out.old.items out.new.items) }
{
    let mut copy = path.copy(alloc)?;
    copy.narrow_numbers(line.plan, line.cell, span);
    put(alloc, line.plan, line.target.place, end, &mut copy)?;
    out.push(copy)?;
    Ok(())
}

/// The same of a part of the cell's span. Where there is no such part, nothing changes.
fn push_part(
    alloc: Global,
    line: &TargetLine,
    part: Option<Span>,
    end: IntForm,
    path: &Path,
    out: &mut Vec<Path>,
) -> Result<(), NoMemory>
    requires known { IsWellFormed (script_plan line.now.plan.now) }
    requires target { TargetFits (script_plan line.now.plan.now) line.now.target.now }
    requires end { IsConstantIn line.now.target.now.ends end }
    requires fits { PathFits (script_plan line.now.plan.now) path.now }
    requires goes_on { GoesOn path.now.end }
    requires narrower { IfSome part (λ span.
        NarrowsNumbers span (slice_get path.now.when line.now.cell)) }
    ensures { OnOk result (IsPartStored (script_plan line.now.plan.now) line.now.cell
        part line.now.target.now.place end path.now out.old.items out.new.items) }
{
    if let Some(span) = part {
        push_stored(alloc, line, &span, end, path, out)?;
    }
    Ok(())
}

/// Stores the ends of the range where no number over the span of the cell is in it. The path takes
/// the numbers above the range, if there are any; the answer is the end that it gets.
fn clamp_outside(
    alloc: Global,
    line: &TargetLine,
    own: &Span,
    fitted: &Fitted,
    path: &mut Path,
    out: &mut Vec<Path>,
) -> Result<IntForm, NoMemory>
    requires known { IsWellFormed (script_plan line.now.plan.now) }
    requires target { TargetFits (script_plan line.now.plan.now) line.now.target.now }
    requires clamps { line.now.target.now.clamps ≡ true }
    requires fits { PathFits (script_plan line.now.plan.now) path.old }
    requires others { SegmentFits (script_plan line.now.plan.now) out.old.items }
    requires goes_on { GoesOn path.old.end }
    requires cell { wide_cell line.now.wide.now ≡ Some line.now.cell }
    requires own { slice_get path.old.when line.now.cell ≡ Some (part.Span own.now) }
    requires fitted { IsFitted own.now line.now.wide.now line.now.target.now.ends fitted.now }
    requires outside { fitted.now.inside ≡ None }
    ensures exact { IfOk result (λ number. TargetRanges (script_plan line.now.plan.now)
        line.now.target.now line.now.wide.now
        path.old out.old.items path.new out.new.items (Some number)) }
    ensures fits { OnOk result (PathFits (script_plan line.now.plan.now) path.new) }
    ensures others { OnOk result (SegmentFits (script_plan line.now.plan.now) out.new.items) }
    ensures number { let ends = line.now.target.now.ends in
        IfOk result (NumberFitsOn ends.lo ends.hi path.new) }
    ensures few { OnOk result (length out.new.items ≤ length out.old.items + 2) }
    ensures faults { OnOk result (FaultsCameAt line.now.target.now.fault.no
        path.old out.old.items path.new out.new.items) }
    ensures next { AllGoOn out.old.items → OnOk result (AllGoOn out.new.items) }
{
    let Some(above) = fitted.above else {
        return Ok(least(&line.target.ends));
    };
    push_part(
        alloc,
        line,
        fitted.below,
        least(&line.target.ends),
        path,
        out,
    )?;
    narrow_within(line.plan, line.cell, own, &above, path);
    Ok(greatest(&line.target.ends))
}

/// Parts the path by whether a number over the span of the cell is below the target's range, in it
/// or above it. Below it the least number of the range is stored at the target, above it the
/// greatest one. The answer is the number of the path itself.
#[inline(never)]
pub(crate) fn clamp_line(
    alloc: Global,
    line: &TargetLine,
    path: &mut Path,
    out: &mut Vec<Path>,
) -> Result<IntForm, NoMemory>
    requires known { IsWellFormed (script_plan line.now.plan.now) }
    requires target { TargetFits (script_plan line.now.plan.now) line.now.target.now }
    requires clamps { line.now.target.now.clamps ≡ true }
    requires fits { PathFits (script_plan line.now.plan.now) path.old }
    requires others { SegmentFits (script_plan line.now.plan.now) out.old.items }
    requires goes_on { GoesOn path.old.end }
    requires cell { wide_cell line.now.wide.now ≡ Some line.now.cell }
    requires span { HasSpan path.old (Some line.now.cell) }
    ensures exact { IfOk result (λ number. TargetRanges (script_plan line.now.plan.now)
        line.now.target.now line.now.wide.now
        path.old out.old.items path.new out.new.items (Some number)) }
    ensures fits { OnOk result (PathFits (script_plan line.now.plan.now) path.new) }
    ensures others { OnOk result (SegmentFits (script_plan line.now.plan.now) out.new.items) }
    ensures number { let ends = line.now.target.now.ends in
        IfOk result (NumberFitsOn ends.lo ends.hi path.new) }
    ensures few { OnOk result (length out.new.items ≤ length out.old.items + 2) }
    ensures faults { OnOk result (FaultsCameAt line.now.target.now.fault.no
        path.old out.old.items path.new out.new.items) }
    ensures next { AllGoOn out.old.items → OnOk result (AllGoOn out.new.items) }
{
    let Some(span) = span_of(path, line.cell) else {
        unreachable!()
    };
    let fitted = fit(&span, line.wide, &line.target.ends);
    let Some(inside) = fitted.inside else {
        return clamp_outside(alloc, line, &span, &fitted, path, out);
    };
    push_part(
        alloc,
        line,
        fitted.below,
        least(&line.target.ends),
        path,
        out,
    )?;
    push_part(
        alloc,
        line,
        fitted.above,
        greatest(&line.target.ends),
        path,
        out,
    )?;
    narrow_within(line.plan, line.cell, &span, &inside.span, path);
    Ok(inside.form)
}
