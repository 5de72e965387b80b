//! Statements of the update, run on all the paths that reach them. Those that go on stay in their
//! list, and those that end are put into another. Each expression without cells is evaluated once.
ghost use Rattle.std.specs.Prelude.{◌≡◌, OnOk, length, take};
ghost use Rattle.sym_check.specs.Plan.CondPlans.{cond_plan};
ghost use Rattle.sym_check.specs.Plan.DoPlans.{do_plan, dos_plan, If, Let};
ghost use Rattle.sym_check.specs.Plan.FixedPlans.{fixed_plan};
ghost use Rattle.sym_check.specs.Plan.ScriptPlans.{ScriptPlan, script_plan};
ghost use Rattle.sym_check.specs.Meaning.Updates.{environment};
ghost use Rattle.sym_check.specs.Plan.WellFormed.{IsWellFormed};
ghost use Rattle.sym_explore.specs.Knowing.{DoIsKnown, DosAreKnown};
ghost use Rattle.sym_explore.specs.Running.{CanRun, DoWasRun, DosWereRun, IsNamed};

use crate::assignments::assign_all;
use crate::conditions::part;
use crate::context::{Choice, Context};
use crate::ended_paths::fail_all;
use crate::moves::move_all;
use crate::path_lists::PathLists;
use crate::scratch::Scratch;
use std::alloc::Global;
use std::mem;
use sym_base::{Fault, NoMemory, Record};
use sym_check::{Do, Dos, Fixed, Plan, known_in};
use sym_plain::{Stop, fixed_value, name_local};

/// Gives a local its value, which is evaluated once; arithmetic that fails ends all of the paths.
fn name(
    alloc: Global,
    rec: &Record,
    local: u16,
    value: &Fixed,
    scratch: &mut Scratch,
    lists: &mut PathLists,
) -> Result<(), NoMemory>
    ensures run { (p : ScriptPlan) → CanRun p lists.old.paths.items lists.old.ended.items →
        let k = environment rec.now scratch.old.locals in
        let d = Let local (fixed_plan value.now) in
        OnOk result (DoWasRun p k rec.now.no d lists.old.paths.items lists.new.paths.items
        lists.old.ended.items lists.new.ended.items) }
    ensures named { let k = environment rec.now scratch.old.locals in
        let d = Let local (fixed_plan value.now) in
        OnOk result (IsNamed rec.now k d scratch.new.locals lists.new.paths.items) }
    ensures locals { let count = length scratch.old.locals in
        OnOk result (take count scratch.new.locals ≡ scratch.old.locals) }
{
    match fixed_value(alloc, &known_in(rec, &scratch.locals), value) {
        Ok(value) => name_local(&mut scratch.locals, local, value),
        Err(Stop::Fault(kind)) => {
            let fault = Fault { kind, no: rec.no };
            fail_all(fault, &mut lists.paths, &mut lists.ended)
        }
        Err(Stop::NoMemory) => Err(NoMemory),
    }
}

/// Runs the statements of a block on all of the paths: those that go on stay in `lists.paths`, and
/// those that end are put into `lists.ended`. Locals that were there before are there after it.
#[cycle(exploring)]
fn run_all(
    alloc: Global,
    plan: &Plan,
    rec: &Record,
    statements: &Dos,
    scratch: &mut Scratch,
    lists: &mut PathLists,
) -> Result<(), NoMemory>
    requires known { IsWellFormed (script_plan plan.now) }
    requires well { DosAreKnown (script_plan plan.now) (environment rec.now scratch.old.locals)
        (dos_plan statements.now) }
    requires paths { CanRun (script_plan plan.now) lists.old.paths.items lists.old.ended.items }
    ensures run { let k = environment rec.now scratch.old.locals in
        OnOk result (DosWereRun (script_plan plan.now) k rec.now.no (dos_plan statements.now)
        lists.old.paths.items lists.new.paths.items
        lists.old.ended.items lists.new.ended.items) }
    ensures locals { let count = length scratch.old.locals in
        OnOk result (take count scratch.new.locals ≡ scratch.old.locals) }
{
    match statements {
        Dos::End => Ok(()),
        Dos::More(first, rest) => {
            run(alloc, plan, rec, first, scratch, lists)?;
            if lists.paths.is_empty() {
                return Ok(());
            }
            run_all(alloc, plan, rec, rest, scratch, lists)
        }
    }
}

/// Runs a block on all of the paths; its locals are gone after it.
#[cycle(exploring)]
pub(crate) fn run_block(
    alloc: Global,
    plan: &Plan,
    rec: &Record,
    statements: &Dos,
    scratch: &mut Scratch,
    lists: &mut PathLists,
) -> Result<(), NoMemory>
    requires known { IsWellFormed (script_plan plan.now) }
    requires well { DosAreKnown (script_plan plan.now) (environment rec.now scratch.old.locals)
        (dos_plan statements.now) }
    requires paths { CanRun (script_plan plan.now) lists.old.paths.items lists.old.ended.items }
    ensures run { let k = environment rec.now scratch.old.locals in
        OnOk result (DosWereRun (script_plan plan.now) k rec.now.no (dos_plan statements.now)
        lists.old.paths.items lists.new.paths.items
        lists.old.ended.items lists.new.ended.items) }
    ensures locals { OnOk result (scratch.new.locals ≡ scratch.old.locals) }
{
    if lists.paths.is_empty() {
        return Ok(());
    }
    let count = scratch.locals.len();
    run_all(alloc, plan, rec, statements, scratch, lists)?;
    if count < scratch.locals.len() {
        scratch.locals.truncate(count);
    }
    Ok(())
}

/// Runs a statement on all of the paths. Where its local has no value, no path goes on.
#[cycle(exploring)]
fn run(
    alloc: Global,
    plan: &Plan,
    rec: &Record,
    statement: &Do,
    scratch: &mut Scratch,
    lists: &mut PathLists,
) -> Result<(), NoMemory>
    requires known { IsWellFormed (script_plan plan.now) }
    requires well { DoIsKnown (script_plan plan.now) (environment rec.now scratch.old.locals)
        (do_plan statement.now) }
    requires paths { CanRun (script_plan plan.now) lists.old.paths.items lists.old.ended.items }
    ensures run { let k = environment rec.now scratch.old.locals in
        OnOk result (DoWasRun (script_plan plan.now) k rec.now.no (do_plan statement.now)
        lists.old.paths.items lists.new.paths.items
        lists.old.ended.items lists.new.ended.items) }
    ensures named { let k = environment rec.now scratch.old.locals in
        OnOk result (IsNamed rec.now k (do_plan statement.now)
        scratch.new.locals lists.new.paths.items) }
    ensures locals { let count = length scratch.old.locals in
        OnOk result (take count scratch.new.locals ≡ scratch.old.locals) }
{
    match statement {
        Do::Let(local, value) => name(alloc, rec, *local, value, scratch, lists),
        Do::If(condition, then, otherwise) => {
            let choice = Choice {
                condition,
                then,
                otherwise,
            };
            choose(alloc, plan, rec, &choice, scratch, lists)
        }
        _ => {
            let known = known_in(rec, &scratch.locals);
            let context = Context {
                plan,
                known: &known,
                no: rec.no,
            };
            assign_all(alloc, &context, statement, &mut scratch.args, lists)
        }
    }
}

/// Runs an `if` on all of the paths: those on which the condition is true take the first side, and
/// those on which it is false the second one. Those on which it has no truth have ended.
#[cycle(exploring)]
fn choose(
    alloc: Global,
    plan: &Plan,
    rec: &Record,
    choice: &Choice,
    scratch: &mut Scratch,
    lists: &mut PathLists,
) -> Result<(), NoMemory>
    requires known { IsWellFormed (script_plan plan.now) }
    requires well { DoIsKnown (script_plan plan.now) (environment rec.now scratch.old.locals)
        (If (cond_plan choice.now.condition.now)
        (dos_plan choice.now.then.now) (dos_plan choice.now.otherwise.now)) }
    requires paths { CanRun (script_plan plan.now) lists.old.paths.items lists.old.ended.items }
    ensures run { let k = environment rec.now scratch.old.locals in
        let d = If (cond_plan choice.now.condition.now)
        (dos_plan choice.now.then.now) (dos_plan choice.now.otherwise.now) in
        OnOk result (DoWasRun (script_plan plan.now) k rec.now.no d
        lists.old.paths.items lists.new.paths.items
        lists.old.ended.items lists.new.ended.items) }
    ensures locals { OnOk result (scratch.new.locals ≡ scratch.old.locals) }
{
    let mut falses = Vec::new(alloc);
    let known = known_in(rec, &scratch.locals);
    let context = Context {
        plan,
        known: &known,
        no: rec.no,
    };
    let args = &mut scratch.args;
    part(alloc, &context, choice.condition, args, lists, &mut falses)?;
    run_block(alloc, plan, rec, choice.then, scratch, lists)?;
    mem::swap(&mut lists.paths, &mut falses);
    run_block(alloc, plan, rec, choice.otherwise, scratch, lists)?;
    mem::swap(&mut lists.paths, &mut falses);
    move_all(&mut falses, &mut lists.paths)
}
