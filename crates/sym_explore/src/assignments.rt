//! Statements that change cells alone.
ghost use Rattle.std.specs.Prelude.{◌≡◌, ℕ, OnOk, map, option_copied};
ghost use Rattle.std.specs.List.{AllZip};
ghost use Rattle.sym_base.specs.declared.values.state.Cell.TheVariants as one;
ghost use Rattle.sym_base.specs.States.{label_at, parts_at, with_cell, with_word};
ghost use Rattle.sym_check.specs.Plan.CellKinds.{IsWordsCell};
ghost use Rattle.sym_check.specs.Plan.DoPlans.{Keep, do_plan};
ghost use Rattle.sym_check.specs.Plan.FixedPlans.{fixed_plan};
ghost use Rattle.sym_check.specs.Checking.KnownValues.{known_values};
ghost use Rattle.sym_check.specs.Plan.ScriptPlans.{script_plan};
ghost use Rattle.sym_check.specs.Plan.WellFormed.{AreOfOneEnum, HaveSameKinds, IsWellFormed};
ghost use Rattle.sym_path.specs.Changing.{GoesOn, changed};
ghost use Rattle.sym_path.specs.Fitting.{PathFits, SegmentFits};
ghost use Rattle.sym_path.specs.declared.path.Path.{Path as OnePath};
ghost use Rattle.sym_plain.specs.Running.{IsAssignment};
ghost use Rattle.sym_explore.specs.Assigning.{EndsNone, HasLabel, parts_form, with_parts};
ghost use Rattle.sym_explore.specs.Ending.{IsChanged};
ghost use Rattle.sym_explore.specs.Faulting.{EndsSo};
ghost use Rattle.sym_explore.specs.Knowing.{DoIsKnown};
ghost use Rattle.sym_explore.specs.Parting.{AllGoOn};
ghost use Rattle.sym_explore.specs.Running.{CanRun, DoWasRun};
ghost use Rattle.sym_explore.specs.Stepping.{Becomes, after_do};
ghost use Rattle.sym_explore.specs.Sure.{IsSureEnd};

use crate::context::Context;
use crate::ended_paths::fail_all;
use crate::forms::{add_word, put_label, put_parts};
use crate::labels::label_form;
use crate::path_lists::PathLists;
use crate::places::Place;
use crate::stores::store_all;
use std::alloc::Global;
use sym_base::{Fault, NoMemory, Text, Values};
use sym_check::{Do, FixedList, Known, Plan};
use sym_enum::EnumForm;
use sym_path::{Form, Path};
use sym_plain::{Stop, set_values};
use sym_pred::HoldForm;

/// Pushes a word to a `words` cell.
fn push_word(
    alloc: Global,
    _plan: &Plan,
    cell: u16,
    word: &str,
    path: &mut Path,
) -> Result<(), NoMemory>
    requires known { IsWellFormed (script_plan _plan.now) }
    requires cell { IsWordsCell (script_plan _plan.now).cells cell }
    requires goes_on { GoesOn path.old.end }
    requires fits { PathFits (script_plan _plan.now) path.old }
    ensures exact { OnOk result (Becomes (script_plan _plan.now)
        (changed (λ s. with_word s cell word.now)) path.old path.new) }
    ensures fits { OnOk result (PathFits (script_plan _plan.now) path.new) }
    ensures same { OnOk result (EndsSo path.old.end path.new.end) }
    ensures sure { IsSureEnd path.old.end → OnOk result (IsSureEnd path.new.end) }
{
    add_word(alloc, path, cell, Text::from_str(alloc, word)?)?;
    Ok(())
}

/// Assigns a label to an enum cell.
fn set_label(_plan: &Plan, cell: u16, label: u8, path: &mut Path)
    requires cell { HasLabel (script_plan _plan.now) cell label }
    requires fits { PathFits (script_plan _plan.now) path.old }
    ensures exact { Becomes (script_plan _plan.now)
        (changed (λ s. with_cell s cell (one.Enum label))) path.old path.new }
    ensures fits { PathFits (script_plan _plan.now) path.new }
    ensures same { EndsSo path.old.end path.new.end }
    ensures sure { IsSureEnd path.old.end → IsSureEnd path.new.end }
{
    put_label(path, cell, EnumForm::Const(label));
}

/// Assigns the label of one enum cell to another.
fn copy_label(_plan: &Plan, cell: u16, from: u16, path: &mut Path)
    requires cells { AreOfOneEnum (script_plan _plan.now).cells cell from }
    requires fits { PathFits (script_plan _plan.now) path.old }
    ensures exact { Becomes (script_plan _plan.now)
        (changed (λ s. with_cell s cell (one.Enum (label_at s from)))) path.old path.new }
    ensures fits { PathFits (script_plan _plan.now) path.new }
    ensures same { EndsSo path.old.end path.new.end }
    ensures sure { IsSureEnd path.old.end → IsSureEnd path.new.end }
{
    if let Some(form) = label_form(path, from) {
        put_label(path, cell, form);
    }
}

/// The form of the hold cell with this number; `None` where the path has ended.
fn parts_form(path: &Path, cell: u16) -> Option<&HoldForm>
    ensures { option_copied result ≡ parts_form path.now cell }
{
    match path.form(cell) {
        Some(Form::Hold(form)) => Some(form),
        _ => None,
    }
}

/// Copies the parts of one hold cell into another.
fn keep_from(
    alloc: Global,
    _plan: &Plan,
    cell: u16,
    from: u16,
    path: &mut Path,
) -> Result<(), NoMemory>
    requires cells { HaveSameKinds (script_plan _plan.now).cells cell from }
    requires fits { PathFits (script_plan _plan.now) path.old }
    ensures exact { OnOk result (Becomes (script_plan _plan.now)
        (changed (λ s. with_cell s cell (one.Hold (parts_at s from)))) path.old path.new) }
    ensures fits { OnOk result (PathFits (script_plan _plan.now) path.new) }
    ensures same { OnOk result (EndsSo path.old.end path.new.end) }
    ensures sure { IsSureEnd path.old.end → OnOk result (IsSureEnd path.new.end) }
{
    if let Some(form) = parts_form(path, from) {
        let form = form.copy(alloc)?;
        path.set_form(cell, Form::Hold(form));
    }
    Ok(())
}

/// Runs a statement after which the path goes on: a label, parts or a word are stored.
pub(crate) fn change(
    alloc: Global,
    plan: &Plan,
    known: &Known,
    statement: &Do,
    path: &mut Path,
) -> Result<(), NoMemory>
    requires known { IsWellFormed (script_plan plan.now) }
    requires change { EndsNone (do_plan statement.now) }
    requires well { DoIsKnown (script_plan plan.now) (known_values known.now)
        (do_plan statement.now) }
    requires goes_on { GoesOn path.old.end }
    requires fits { PathFits (script_plan plan.now) path.old }
    ensures exact { (n : ℕ) → OnOk result (IsChanged (script_plan plan.now)
        (after_do (script_plan plan.now) (known_values known.now) n (do_plan statement.now))
        path.old path.new) }
    ensures sure { IsSureEnd path.old.end → OnOk result (IsSureEnd path.new.end) }
{
    match statement {
        Do::SetEnum(cell, label) => set_label(plan, *cell, known.label(label), path),
        Do::CopyEnum(cell, from) => copy_label(plan, *cell, *from, path),
        Do::KeepFrom(cell, from) => keep_from(alloc, plan, *cell, *from, path)?,
        Do::PushWord(cell, word) => push_word(alloc, plan, *cell, known.word(word), path)?,
        _ => unreachable!(),
    }
    Ok(())
}

/// Does so on each of the paths, where they stand.
fn change_each(
    alloc: Global,
    plan: &Plan,
    known: &Known,
    statement: &Do,
    paths: &mut [Path],
) -> Result<(), NoMemory>
    requires known { IsWellFormed (script_plan plan.now) }
    requires change { EndsNone (do_plan statement.now) }
    requires well { DoIsKnown (script_plan plan.now) (known_values known.now)
        (do_plan statement.now) }
    requires going { AllGoOn paths.old }
    requires fits { SegmentFits (script_plan plan.now) paths.old }
    ensures { (n : ℕ) → OnOk result (AllZip (IsChanged (script_plan plan.now)
        (after_do (script_plan plan.now) (known_values known.now) n (do_plan statement.now)))
        paths.old paths.new) }
{
    'paths: for path in paths.iter_mut() {
        change(alloc, plan, known, statement, path)?;
    }
    Ok(())
}

/// Puts a copy of the values into a hold cell of a path.
fn keep_copy(alloc: Global, cell: u16, values: &Values, path: &mut Path) -> Result<(), NoMemory>
    ensures { OnOk result (path.new ≡ with_parts path.old cell values.now) }
{
    let parts = values.copy(alloc)?;
    path.set_form(cell, Form::Hold(HoldForm::Const(parts)));
    Ok(())
}

/// Does so on each of the paths, where they stand.
fn keep_each(alloc: Global, cell: u16, values: &Values, paths: &mut [Path]) -> Result<(), NoMemory>
    ensures { OnOk result
        (paths.new ≡ map (λ (path : OnePath). with_parts path cell values.now) paths.old) }
{
    'paths: for path in paths.iter_mut() {
        keep_copy(alloc, cell, values, path)?;
    }
    Ok(())
}

/// Puts the values into a hold cell of each path. The last one takes them, and gives the memory of
/// its old parts for them.
fn keep_all(
    alloc: Global,
    cell: u16,
    values: &mut Values,
    paths: &mut Vec<Path>,
) -> Result<(), NoMemory>
    ensures { OnOk result (paths.new.items
        ≡ map (λ (path : OnePath). with_parts path cell values.old) paths.old.items) }
{
    let Some(mut last) = paths.pop() else {
        return Ok(());
    };
    keep_each(alloc, cell, values, paths)?;
    put_parts(alloc, &mut last, cell, values)?;
    paths.push(last)?;
    Ok(())
}

/// Gives the parts of a hold cell new values on all of the paths. They are evaluated once, over the
/// memory of `spare`. Arithmetic that fails ends the paths.
fn keep_on(
    alloc: Global,
    context: &Context,
    cell: u16,
    values: &FixedList,
    spare: &mut Values,
    lists: &mut PathLists,
) -> Result<(), NoMemory>
    requires known { IsWellFormed (script_plan context.now.plan.now) }
    requires well { let c = context.now in
        DoIsKnown (script_plan c.plan.now) (known_values c.known.now)
        (Keep cell (map fixed_plan values.now)) }
    requires paths { CanRun (script_plan context.now.plan.now)
        lists.old.paths.items lists.old.ended.items }
    ensures { let c = context.now in
        let d = Keep cell (map fixed_plan values.now) in
        OnOk result (DoWasRun (script_plan c.plan.now) (known_values c.known.now) c.no d
        lists.old.paths.items lists.new.paths.items
        lists.old.ended.items lists.new.ended.items) }
{
    match set_values(alloc, context.known, values, spare) {
        Ok(()) => keep_all(alloc, cell, spare, &mut lists.paths),
        Err(Stop::Fault(kind)) => {
            let fault = Fault {
                kind,
                no: context.no,
            };
            fail_all(fault, &mut lists.paths, &mut lists.ended)
        }
        Err(Stop::NoMemory) => Err(NoMemory),
    }
}

/// An assignment, run on all of the paths: paths that go on stay in `lists.paths`, those that end go
/// into `lists.ended`. What names no cell is evaluated once.
pub(crate) fn assign_all(
    alloc: Global,
    context: &Context,
    statement: &Do,
    spare: &mut Values,
    lists: &mut PathLists,
) -> Result<(), NoMemory>
    requires known { IsWellFormed (script_plan context.now.plan.now) }
    requires assignment { IsAssignment (do_plan statement.now) }
    requires well { let c = context.now in
        DoIsKnown (script_plan c.plan.now) (known_values c.known.now)
        (do_plan statement.now) }
    requires paths { CanRun (script_plan context.now.plan.now)
        lists.old.paths.items lists.old.ended.items }
    ensures { let c = context.now in
        let d = do_plan statement.now in
        OnOk result (DoWasRun (script_plan c.plan.now) (known_values c.known.now) c.no d
        lists.old.paths.items lists.new.paths.items
        lists.old.ended.items lists.new.ended.items) }
{
    match statement {
        Do::SetInt(cell, term) => {
            let place = Place::Cell(*cell);
            store_all(alloc, context, place, term, lists)
        }
        Do::PushNum(cell, term) => {
            let place = Place::End(*cell);
            store_all(alloc, context, place, term, lists)
        }
        Do::Keep(cell, values) => { keep_on(alloc, context, *cell, values, spare, lists) }
        _ => change_each(
            alloc,
            context.plan,
            context.known,
            statement,
            &mut lists.paths,
        ),
    }
}
