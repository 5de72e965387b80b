//! Numbers that are stored in the cells of paths.
ghost use Rattle.std.specs.Prelude.{◌≡◌, ◌≤◌, ◌+◌, ◌*◌, List, IfOk, OnOk, IsTrue, false, length, true};
ghost use Rattle.sym_base.specs.declared.values.record.Record.{Record as OneRecord};
ghost use Rattle.sym_check.specs.Checking.KnownValues.{known_values};
ghost use Rattle.sym_check.specs.Plan.LinePlans.{term_plan};
ghost use Rattle.sym_check.specs.Plan.Ranges.{is_clamped};
ghost use Rattle.sym_check.specs.Plan.ScriptPlans.{script_plan};
ghost use Rattle.sym_check.specs.Plan.WellFormed.{IsWellFormed};
ghost use Rattle.sym_int.specs.Points.{AreEnds};
ghost use Rattle.sym_path.specs.Composing.{HaveFaultsAmong};
ghost use Rattle.sym_path.specs.Changing.{GoesOn};
ghost use Rattle.sym_path.specs.Fitting.{PathFits, SegmentFits};
ghost use Rattle.sym_path.specs.declared.path.Path.{Path as OnePath};
ghost use Rattle.sym_explore.specs.Ending.{AreParted};
ghost use Rattle.sym_explore.specs.Faulting.{FaultsCameAt, HasNumber};
ghost use Rattle.sym_explore.specs.Knowing.{DoIsKnown};
ghost use Rattle.sym_explore.specs.Parting.{AllGoOn};
ghost use Rattle.sym_explore.specs.Placing.{PlaceFits, TargetFits, place_cell};
ghost use Rattle.sym_explore.specs.Running.{CanRun, DoWasRun, WereRun};
ghost use Rattle.sym_explore.specs.Storing.{IsParted, StoresAll, after_store, store_do};
ghost use Rattle.sym_explore.specs.Terms.{ReadyFits};

use crate::context::Context;
use crate::ended_paths::{arith, fail_all, move_ended};
use crate::moves::move_all;
use crate::path_lists::PathLists;
use crate::places::{Place, Target, put};
use crate::ranges::range_ready;
use crate::terms::{Ready, ready_of};
use std::alloc::Global;
use sym_base::{Fault, FaultKind, NoMemory};
use sym_check::{Plan, Range, Term};
use sym_int::Span;
use sym_path::Path;

/// The span with the ends of a range.
fn span_of_range(range: &Range) -> Span
    requires { AreEnds range.now.lo range.now.hi }
    ensures lo { result.lo ≡ range.now.lo }
    ensures hi { result.hi ≡ range.now.hi }
{
    Span {
        lo: range.lo,
        hi: range.hi,
    }
}

/// The place with the range of its cell.
pub(crate) fn target_of(plan: &Plan, no: u64, place: Place) -> Target
    requires known { IsWellFormed (script_plan plan.now) }
    requires place { PlaceFits (script_plan plan.now) place }
    ensures fits { TargetFits (script_plan plan.now) result }
    ensures place { result.place ≡ place }
    ensures number { result.fault.no ≡ no }
    ensures clamps { result.clamps ≡ is_clamped (script_plan plan.now).cells (place_cell place) }
{
    let cell = place.cell();
    let Some(range) = plan.range_at(cell) else {
        unreachable!()
    };
    Target {
        place,
        ends: span_of_range(&range),
        clamps: range.clamps,
        fault: Fault {
            kind: FaultKind::Over(cell),
            no,
        },
    }
}

/// Stores the number of a ready term at a target of a path. The parts of the path on which the
/// number is outside the range are put into `out`; where there is no other part, the path itself is
/// one of them.
fn store(
    alloc: Global,
    plan: &Plan,
    target: &Target,
    ready: &Ready,
    path: &mut Path,
    out: &mut Vec<Path>,
) -> Result<(), NoMemory>
    requires known { IsWellFormed (script_plan plan.now) }
    requires ready { ReadyFits (script_plan plan.now) ready.now }
    requires target { TargetFits (script_plan plan.now) target.now }
    requires fits { PathFits (script_plan plan.now) path.old }
    requires goes_on { GoesOn path.old.end }
    requires others { SegmentFits (script_plan plan.now) out.old.items }
    ensures exact { OnOk result (IsParted (script_plan plan.now) target.now.clamps
        (after_store (script_plan plan.now) target.now.fault.no target.now.place ready.now)
        path.old out.old.items path.new out.new.items) }
    ensures fits { OnOk result (PathFits (script_plan plan.now) path.new) }
    ensures others { OnOk result (SegmentFits (script_plan plan.now) out.new.items) }
    ensures few { OnOk result (length out.new.items ≤ length out.old.items + 2) }
    ensures faults { OnOk result (FaultsCameAt target.now.fault.no
        path.old out.old.items path.new out.new.items) }
    ensures stored { OnOk result (StoresAll target.now.clamps
        path.new out.old.items out.new.items) }
{
    if let Some(form) = range_ready(alloc, plan, ready, target, path, out)? {
        put(alloc, plan, target.place, form, path)?;
    }
    Ok(())
}

/// Whether the path goes on, and those before it did.
#[inline(always)]
fn still_going(before: bool, path: &Path) -> bool
    ensures { IsTrue result → IsTrue before × GoesOn path.now.end }
{
    before && path.goes_on()
}

/// Does so on each of the paths, where they stand. Where the answer is true, all of them go on.
pub(crate) fn store_each(
    alloc: Global,
    plan: &Plan,
    target: &Target,
    ready: &Ready,
    paths: &mut [Path],
    out: &mut Vec<Path>,
) -> Result<bool, NoMemory>
    requires known { IsWellFormed (script_plan plan.now) }
    requires ready { ReadyFits (script_plan plan.now) ready.now }
    requires target { TargetFits (script_plan plan.now) target.now }
    requires fits { SegmentFits (script_plan plan.now) paths.old }
    requires going { AllGoOn paths.old }
    requires others { SegmentFits (script_plan plan.now) out.old.items }
    ensures exact { OnOk result (AreParted (script_plan plan.now) target.now.clamps
        (after_store (script_plan plan.now) target.now.fault.no target.now.place ready.now)
        paths.old paths.new out.old.items out.new.items) }
    ensures fits { OnOk result (SegmentFits (script_plan plan.now) paths.new) }
    ensures next { IfOk result (λ all. IsTrue all → AllGoOn paths.new) }
    ensures others { OnOk result (SegmentFits (script_plan plan.now) out.new.items) }
    ensures few { OnOk result
        (length out.new.items ≤ length out.old.items + length paths.old * 2) }
    ensures faults { (records : List OneRecord) → HasNumber target.now.fault.no records →
        HaveFaultsAmong records out.old.items →
        OnOk result (HaveFaultsAmong records paths.new × HaveFaultsAmong records out.new.items) }
    ensures stored { target.now.clamps ≡ true → AllGoOn out.old.items →
        OnOk result (AllGoOn paths.new × AllGoOn out.new.items) }
{
    let mut all_go_on = true;
    'paths: for path in paths.iter_mut() {
        store(alloc, plan, target, ready, path, out)?;
        all_go_on = still_going(all_go_on, path);
    }
    Ok(all_go_on)
}

/// Stores the number of a ready term at a target that clamps: the paths that are added for numbers
/// outside the range go on too.
fn clamp_each(
    alloc: Global,
    plan: &Plan,
    target: &Target,
    ready: &Ready,
    paths: &mut Vec<Path>,
) -> Result<(), NoMemory>
    requires known { IsWellFormed (script_plan plan.now) }
    requires ready { ReadyFits (script_plan plan.now) ready.now }
    requires target { TargetFits (script_plan plan.now) target.now }
    requires clamps { target.now.clamps ≡ true }
    requires fits { SegmentFits (script_plan plan.now) paths.old.items }
    requires going { AllGoOn paths.old.items }
    ensures { (ended : List OnePath) → SegmentFits (script_plan plan.now) ended →
        let n = target.now.fault.no in
        let step = after_store (script_plan plan.now) n target.now.place ready.now in
        OnOk result (WereRun (script_plan plan.now) step n 3 0
        paths.old.items paths.new.items ended ended) }
{
    let mut more = Vec::new(alloc);
    store_each(alloc, plan, target, ready, paths, &mut more)?;
    move_all(&mut more, paths)
}

/// Stores it at a target that doesn't: paths that end go into `ended`.
fn end_each(
    alloc: Global,
    plan: &Plan,
    target: &Target,
    ready: &Ready,
    paths: &mut Vec<Path>,
    ended: &mut Vec<Path>,
) -> Result<(), NoMemory>
    requires known { IsWellFormed (script_plan plan.now) }
    requires ready { ReadyFits (script_plan plan.now) ready.now }
    requires target { TargetFits (script_plan plan.now) target.now }
    requires ends { target.now.clamps ≡ false }
    requires paths { CanRun (script_plan plan.now) paths.old.items ended.old.items }
    ensures { let n = target.now.fault.no in
        let step = after_store (script_plan plan.now) n target.now.place ready.now in
        OnOk result (WereRun (script_plan plan.now) step n 1 2
        paths.old.items paths.new.items ended.old.items ended.new.items) }
{
    if store_each(alloc, plan, target, ready, paths, ended)? {
        return Ok(());
    }
    move_ended(paths, ended)
}

/// Stores the number of a term at a place of all of the paths: those that go on stay in
/// `lists.paths`, and those that end go into `lists.ended`. What names no cell is evaluated once.
pub(crate) fn store_all(
    alloc: Global,
    context: &Context,
    place: Place,
    term: &Term,
    lists: &mut PathLists,
) -> Result<(), NoMemory>
    requires known { IsWellFormed (script_plan context.now.plan.now) }
    requires well { let c = context.now in
        DoIsKnown (script_plan c.plan.now) (known_values c.known.now)
        (store_do place (term_plan term.now)) }
    requires paths { CanRun (script_plan context.now.plan.now)
        lists.old.paths.items lists.old.ended.items }
    ensures { let c = context.now in
        let d = store_do place (term_plan term.now) in
        OnOk result (DoWasRun (script_plan c.plan.now) (known_values c.known.now) c.no d
        lists.old.paths.items lists.new.paths.items
        lists.old.ended.items lists.new.ended.items) }
{
    let Ok(ready) = ready_of(context.known, term) else {
        return fail_all(arith(context.no), &mut lists.paths, &mut lists.ended);
    };
    let target = target_of(context.plan, context.no, place);
    if target.clamps {
        clamp_each(alloc, context.plan, &target, &ready, &mut lists.paths)
    } else {
        end_each(
            alloc,
            context.plan,
            &target,
            &ready,
            &mut lists.paths,
            &mut lists.ended,
        )
    }
}
