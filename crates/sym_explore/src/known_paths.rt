//! Paths whose cells are known step as groups do: each record makes one path of each.
ghost use Rattle.std.specs.Prelude.{◌≡◌, OnOk, IfSome, None, [], length, map, take};
ghost use Rattle.std.specs.List.{All, AllZip};
ghost use Rattle.sym_check.specs.Checking.KnownValues.{known_values};
ghost use Rattle.sym_check.specs.Meaning.Updates.{environment};
ghost use Rattle.sym_check.specs.Meaning.Validity.{IsRecord};
ghost use Rattle.sym_check.specs.Plan.DoPlans.{If, Keep, Let, do_plan, dos_plan};
ghost use Rattle.sym_check.specs.Plan.CondPlans.{cond_plan};
ghost use Rattle.sym_check.specs.Plan.FixedPlans.{fixed_plan};
ghost use Rattle.sym_check.specs.Plan.LinePlans.{term_plan};
ghost use Rattle.sym_check.specs.Plan.ScriptPlans.{ScriptPlan, script_plan};
ghost use Rattle.sym_check.specs.Plan.WellFormed.{IsWellFormed};
ghost use Rattle.sym_int.specs.Lines.{form_cell};
ghost use Rattle.sym_path.specs.Fitting.{PathFits, SegmentFits};
ghost use Rattle.sym_path.specs.declared.path.Path.{Path as OnePath};
ghost use Rattle.sym_plain.specs.Running.{IsAssignment};
ghost use Rattle.sym_explore.specs.Knowing.{DoIsKnown, DosAreKnown};
ghost use Rattle.sym_explore.specs.Placing.{TargetFits};
ghost use Rattle.sym_explore.specs.Ranging.{NumberFitsOn};
ghost use Rattle.sym_explore.specs.Stepping.{after_do, after_dos};
ghost use Rattle.sym_explore.specs.Storing.{ReadyStores, after_store, store_do};
ghost use Rattle.sym_explore.specs.Sure.{EndsAt, IsNamedOn, IsStepped, IsSteppedOn, IsSureEnd, IsSurePath};
ghost use Rattle.sym_explore.specs.Terms.{ReadyFits};

use crate::assignments::change;
use crate::context::{Choice, Context};
use crate::ended_paths::arith;
use crate::forms::put_parts;
use crate::places::{Place, Target, put};
use crate::ranges::range_known;
use crate::scratch::Scratch;
use crate::stores::target_of;
use crate::sure::{term_on, truth_on};
use crate::terms::{Ready, ready_of};
use std::alloc::Global;
use sym_base::{NoMemory, Record, Values};
use sym_check::{Cond, Do, Dos, Fixed, FixedList, Known, Plan, Term, known_in};
use sym_int::{IntForm, WideNumber};
use sym_path::Path;
use sym_plain::{Stop, fixed_value, name_local, set_values};

/// The number that is to be stored at the target for a ready term; where the target's range keeps
/// none, the path ends.
fn range_on(plan: &Plan, ready: &Ready, target: &Target, path: &mut Path) -> Option<IntForm>
    requires ready { ReadyFits (script_plan plan.now) ready.now }
    requires target { TargetFits (script_plan plan.now) target.now }
    requires sure { IsSurePath (script_plan plan.now) path.old }
    ensures exact { ReadyStores (script_plan plan.now) target.now ready.now
        path.old [] path.new [] result }
    ensures fits { PathFits (script_plan plan.now) path.new }
    ensures sure { IsSureEnd path.new.end }
    ensures ends { EndsAt target.now.fault.no path.new.end }
    ensures number { IfSome result
        (NumberFitsOn target.now.ends.lo target.now.ends.hi path.new) }
    ensures constant { IfSome result (λ form. form_cell form ≡ None) }
{
    let value = term_on(plan, ready, path);
    range_known(target, &WideNumber { value }, path)
}

/// Stores the number of a ready term at a target of the path.
fn store_at(
    alloc: Global,
    plan: &Plan,
    target: &Target,
    ready: &Ready,
    path: &mut Path,
) -> Result<(), NoMemory>
    requires ready { ReadyFits (script_plan plan.now) ready.now }
    requires target { TargetFits (script_plan plan.now) target.now }
    requires sure { IsSurePath (script_plan plan.now) path.old }
    ensures { let n = target.now.fault.no in
        OnOk result (IsStepped (script_plan plan.now)
        (after_store (script_plan plan.now) n target.now.place ready.now) n path.old path.new) }
{
    if let Some(form) = range_on(plan, ready, target, path) {
        put(alloc, plan, target.place, form, path)?;
    }
    Ok(())
}

/// Stores the number of a term at a place of the path; arithmetic that fails ends it.
fn store_on(
    alloc: Global,
    context: &Context,
    place: Place,
    term: &Term,
    path: &mut Path,
) -> Result<(), NoMemory>
    requires known { IsWellFormed (script_plan context.now.plan.now) }
    requires well { let c = context.now in
        DoIsKnown (script_plan c.plan.now) (known_values c.known.now)
        (store_do place (term_plan term.now)) }
    requires sure { IsSurePath (script_plan context.now.plan.now) path.old }
    ensures { let c = context.now in
        let d = store_do place (term_plan term.now) in
        let step = after_do (script_plan c.plan.now) (known_values c.known.now) c.no d in
        OnOk result (IsStepped (script_plan c.plan.now) step c.no path.old path.new) }
{
    let Ok(ready) = ready_of(context.known, term) else {
        path.fail(arith(context.no));
        return Ok(());
    };
    let target = target_of(context.plan, context.no, place);
    store_at(alloc, context.plan, &target, &ready, path)
}

/// Gives the parts of a hold cell new values. They are evaluated over the memory of `spare`, which
/// gets that of the old parts.
fn keep_in(
    alloc: Global,
    context: &Context,
    cell: u16,
    values: &FixedList,
    spare: &mut Values,
    path: &mut Path,
) -> Result<(), NoMemory>
    requires known { IsWellFormed (script_plan context.now.plan.now) }
    requires well { let c = context.now in
        DoIsKnown (script_plan c.plan.now) (known_values c.known.now)
        (Keep cell (map fixed_plan values.now)) }
    requires sure { IsSurePath (script_plan context.now.plan.now) path.old }
    ensures { let c = context.now in
        let d = Keep cell (map fixed_plan values.now) in
        let step = after_do (script_plan c.plan.now) (known_values c.known.now) c.no d in
        OnOk result (IsStepped (script_plan c.plan.now) step c.no path.old path.new) }
{
    match set_values(alloc, context.known, values, spare) {
        Ok(()) => put_parts(alloc, path, cell, spare),
        Err(Stop::Fault(_)) => {
            path.fail(arith(context.no));
            Ok(())
        }
        Err(Stop::NoMemory) => Err(NoMemory),
    }
}

/// An assignment.
fn assign_on(
    alloc: Global,
    context: &Context,
    statement: &Do,
    spare: &mut Values,
    path: &mut Path,
) -> Result<(), NoMemory>
    requires known { IsWellFormed (script_plan context.now.plan.now) }
    requires assignment { IsAssignment (do_plan statement.now) }
    requires well { let c = context.now in
        DoIsKnown (script_plan c.plan.now) (known_values c.known.now) (do_plan statement.now) }
    requires sure { IsSurePath (script_plan context.now.plan.now) path.old }
    ensures { let c = context.now in
        let d = do_plan statement.now in
        let step = after_do (script_plan c.plan.now) (known_values c.known.now) c.no d in
        OnOk result (IsStepped (script_plan c.plan.now) step c.no path.old path.new) }
{
    match statement {
        Do::SetInt(cell, term) => { store_on(alloc, context, Place::Cell(*cell), term, path) }
        Do::PushNum(cell, term) => { store_on(alloc, context, Place::End(*cell), term, path) }
        Do::Keep(cell, values) => { keep_in(alloc, context, *cell, values, spare, path) }
        _ => change(alloc, context.plan, context.known, statement, path),
    }
}

/// Gives a local its value; arithmetic that fails ends the path.
fn name_on(
    alloc: Global,
    rec: &Record,
    local: u16,
    value: &Fixed,
    scratch: &mut Scratch,
    path: &mut Path,
) -> Result<(), NoMemory>
    ensures stepped { (p : ScriptPlan) → IsSurePath p path.old →
        let d = Let local (fixed_plan value.now) in
        let step = after_do p (environment rec.now scratch.old.locals) rec.now.no d in
        OnOk result (IsStepped p step rec.now.no path.old path.new) }
    ensures named { let k = environment rec.now scratch.old.locals in
        OnOk result (IsNamedOn rec.now k (Let local (fixed_plan value.now))
        scratch.new.locals path.new) }
    ensures locals { let count = length scratch.old.locals in
        OnOk result (take count scratch.new.locals ≡ scratch.old.locals) }
{
    match fixed_value(alloc, &known_in(rec, &scratch.locals), value) {
        Ok(value) => name_local(&mut scratch.locals, local, value),
        Err(Stop::Fault(_)) => {
            path.fail(arith(rec.no));
            Ok(())
        }
        Err(Stop::NoMemory) => Err(NoMemory),
    }
}

/// Runs the statements of a block on the path. Locals that were there before are there after it.
#[cycle(stepping)]
fn step_all(
    alloc: Global,
    plan: &Plan,
    rec: &Record,
    statements: &Dos,
    scratch: &mut Scratch,
    path: &mut Path,
) -> Result<(), NoMemory>
    requires known { IsWellFormed (script_plan plan.now) }
    requires well { DosAreKnown (script_plan plan.now) (environment rec.now scratch.old.locals)
        (dos_plan statements.now) }
    requires sure { IsSurePath (script_plan plan.now) path.old }
    ensures stepped { let k = environment rec.now scratch.old.locals in
        OnOk result (IsStepped (script_plan plan.now)
        (after_dos (script_plan plan.now) k rec.now.no (dos_plan statements.now))
        rec.now.no path.old path.new) }
    ensures locals { let count = length scratch.old.locals in
        OnOk result (take count scratch.new.locals ≡ scratch.old.locals) }
{
    match statements {
        Dos::End => Ok(()),
        Dos::More(first, rest) => {
            step(alloc, plan, rec, first, scratch, path)?;
            if !path.goes_on() {
                return Ok(());
            }
            step_all(alloc, plan, rec, rest, scratch, path)
        }
    }
}

/// Runs a block on the path; its locals are gone after it.
#[cycle(stepping)]
fn step_block(
    alloc: Global,
    plan: &Plan,
    rec: &Record,
    statements: &Dos,
    scratch: &mut Scratch,
    path: &mut Path,
) -> Result<(), NoMemory>
    requires known { IsWellFormed (script_plan plan.now) }
    requires well { DosAreKnown (script_plan plan.now) (environment rec.now scratch.old.locals)
        (dos_plan statements.now) }
    requires sure { IsSurePath (script_plan plan.now) path.old }
    ensures stepped { let k = environment rec.now scratch.old.locals in
        OnOk result (IsStepped (script_plan plan.now)
        (after_dos (script_plan plan.now) k rec.now.no (dos_plan statements.now))
        rec.now.no path.old path.new) }
    ensures locals { OnOk result (scratch.new.locals ≡ scratch.old.locals) }
{
    let count = scratch.locals.len();
    step_all(alloc, plan, rec, statements, scratch, path)?;
    if count < scratch.locals.len() {
        scratch.locals.truncate(count);
    }
    Ok(())
}

/// Runs a statement on the path.
#[cycle(stepping)]
fn step(
    alloc: Global,
    plan: &Plan,
    rec: &Record,
    statement: &Do,
    scratch: &mut Scratch,
    path: &mut Path,
) -> Result<(), NoMemory>
    requires known { IsWellFormed (script_plan plan.now) }
    requires well { DoIsKnown (script_plan plan.now) (environment rec.now scratch.old.locals)
        (do_plan statement.now) }
    requires sure { IsSurePath (script_plan plan.now) path.old }
    ensures stepped { let k = environment rec.now scratch.old.locals in
        OnOk result (IsStepped (script_plan plan.now)
        (after_do (script_plan plan.now) k rec.now.no (do_plan statement.now))
        rec.now.no path.old path.new) }
    ensures named { let k = environment rec.now scratch.old.locals in
        OnOk result (IsNamedOn rec.now k (do_plan statement.now) scratch.new.locals path.new) }
    ensures locals { let count = length scratch.old.locals in
        OnOk result (take count scratch.new.locals ≡ scratch.old.locals) }
{
    match statement {
        Do::Let(local, value) => name_on(alloc, rec, *local, value, scratch, path),
        Do::If(condition, then, otherwise) => {
            let choice = Choice {
                condition,
                then,
                otherwise,
            };
            choose(alloc, plan, rec, &choice, scratch, path)
        }
        _ => {
            let known = known_in(rec, &scratch.locals);
            let context = Context {
                plan,
                known: &known,
                no: rec.no,
            };
            assign_on(alloc, &context, statement, &mut scratch.args, path)
        }
    }
}

/// Runs that side of an `if` on the path that its condition says; arithmetic that fails ends it.
#[cycle(stepping)]
fn choose(
    alloc: Global,
    plan: &Plan,
    rec: &Record,
    choice: &Choice,
    scratch: &mut Scratch,
    path: &mut Path,
) -> Result<(), NoMemory>
    requires known { IsWellFormed (script_plan plan.now) }
    requires well { DoIsKnown (script_plan plan.now) (environment rec.now scratch.old.locals)
        (If (cond_plan choice.now.condition.now)
        (dos_plan choice.now.then.now) (dos_plan choice.now.otherwise.now)) }
    requires sure { IsSurePath (script_plan plan.now) path.old }
    ensures stepped { let k = environment rec.now scratch.old.locals in
        let d = If (cond_plan choice.now.condition.now)
        (dos_plan choice.now.then.now) (dos_plan choice.now.otherwise.now) in
        OnOk result (IsStepped (script_plan plan.now)
        (after_do (script_plan plan.now) k rec.now.no d) rec.now.no path.old path.new) }
    ensures locals { OnOk result (scratch.new.locals ≡ scratch.old.locals) }
{
    let known = known_in(rec, &scratch.locals);
    match truth_on(
        alloc,
        plan,
        &known,
        choice.condition,
        &mut scratch.args,
        path,
    ) {
        Ok(true) => step_block(alloc, plan, rec, choice.then, scratch, path),
        Ok(false) => step_block(alloc, plan, rec, choice.otherwise, scratch, path),
        Err(Stop::Fault(_)) => {
            path.fail(arith(rec.no));
            Ok(())
        }
        Err(Stop::NoMemory) => Err(NoMemory),
    }
}

/// Makes the step of the record on the path; one that has ended stays as it is.
fn step_path(
    alloc: Global,
    plan: &Plan,
    rec: &Record,
    scratch: &mut Scratch,
    path: &mut Path,
) -> Result<(), NoMemory>
    requires known { IsWellFormed (script_plan plan.now) }
    requires rec { IsRecord (script_plan plan.now) rec.now }
    requires fits { PathFits (script_plan plan.now) path.old }
    requires sure { IsSureEnd path.old.end }
    ensures { OnOk result (IsSteppedOn (script_plan plan.now) rec.now path.old path.new) }
{
    if path.goes_on() {
        scratch.locals.truncate(0);
        step_block(alloc, plan, rec, &plan.update, scratch, path)
    } else {
        Ok(())
    }
}

/// Makes it on each of the paths, where they stand.
pub(crate) fn step_each(
    alloc: Global,
    plan: &Plan,
    rec: &Record,
    scratch: &mut Scratch,
    paths: &mut [Path],
) -> Result<(), NoMemory>
    requires known { IsWellFormed (script_plan plan.now) }
    requires rec { IsRecord (script_plan plan.now) rec.now }
    requires fits { SegmentFits (script_plan plan.now) paths.old }
    requires sure { All (λ (path : OnePath). IsSureEnd path.end) paths.old }
    ensures { OnOk result
        (AllZip (IsSteppedOn (script_plan plan.now) rec.now) paths.old paths.new) }
{
    'paths: for path in paths.iter_mut() {
        step_path(alloc, plan, rec, scratch, path)?;
    }
    Ok(())
}
