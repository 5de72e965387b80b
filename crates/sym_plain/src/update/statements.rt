//! Statements of the update, run on a state's cells where they lie.
ghost use Rattle.std.specs.Prelude.{◌≡◌, ◌≤◌, ◌+◌, ◌++◌, ◌∷◌, [], ◌-◌, IsTrue, IfOk, OnOk, Some, length, map, pos, replicate, take};
ghost use Rattle.std.specs.List.{list_all};
ghost use Rattle.sym_check.specs.Meaning.Conditions.{has_fixed_body};
ghost use Rattle.sym_check.specs.Plan.DoPlans.{do_plan, dos_plan};
ghost use Rattle.sym_check.specs.Plan.FixedPlans.{fixed_plan};
ghost use Rattle.sym_check.specs.Checking.KnownValues.{known_values};
ghost use Rattle.sym_check.specs.Plan.ScriptPlans.{script_plan};
ghost use Rattle.sym_check.specs.Meaning.Updates.{environment, environment_after, do_step, dos_step};
ghost use Rattle.sym_base.specs.States.{cell_nums, parts_at, cell_parts, cell_words, with_cell, with_num, with_word};
ghost use Rattle.sym_plain.specs.Running.{IsAssignment, Makes, kept, kept_cell};

use crate::slots::put_copy;
use crate::update::buffers::Buffers;
use crate::update::conditions::{fixed_value, set_values, truth_of};
use crate::update::stop::Stop;
use crate::update::terms::term_number;
use std::alloc::Global;
use sym_base::{Cell, NoMemory, Nums, Record, State, Text, Value, Values, Words};
use sym_check::{Do, Dos, FixedList, Known, Plan, known_in};

// A cell of another kind becomes a list of this number.
fn push_to(alloc: Global, cell: &mut Cell, number: i64) -> Result<(), NoMemory>
    ensures { OnOk result (cell.new ≡ Cell.Nums (cell_nums (Some cell.old) ++ number ∷ [])) }
{
    match cell {
        Cell::Nums(numbers) => numbers.push(number),
        Cell::Enum(_) | Cell::Int(_) | Cell::Hold(_) | Cell::Words(_) => {
            let mut numbers = Nums::new(alloc);
            numbers.push(number)?;
            *cell = Cell::Nums(numbers);
            Ok(())
        }
    }
}

fn push_num(alloc: Global, state: &mut State, cell: u16, number: i64) -> Result<(), NoMemory>
    ensures { OnOk result (state.new ≡ with_num state.old cell number) }
{
    match state.cells.get_mut(usize::from(cell)) {
        Some(cell) => push_to(alloc, cell, number),
        None => Ok(()),
    }
}

fn words_of(alloc: Global, cell: Option<Cell>) -> Words
    ensures { result ≡ cell_words cell }
{
    match cell {
        Some(Cell::Words(words)) => words,
        _ => Words::new(alloc),
    }
}

// A cell of another kind becomes a list of this word.
#[inline(never)]
fn push_word(alloc: Global, state: &mut State, cell: u16, word: &str) -> Result<(), NoMemory>
    ensures { OnOk result (state.new ≡ with_word state.old cell word.now) }
{
    let cell = usize::from(cell);
    let mut words = words_of(alloc, state.cells.replace(cell, Cell::Enum(0)));
    words.push(Text::from_str(alloc, word)?)?;
    state.cells.set(cell, Cell::Words(words));
    Ok(())
}

// Makes the list that of these parts, over the memory that it has.
fn set_parts(alloc: Global, parts: &[Value], values: &mut Values) -> Result<(), NoMemory>
    ensures { OnOk result (values.new ≡ parts.now) }
{
    'parts: for (index, part) in parts.iter().enumerate() {
        put_copy(alloc, values, index, part)?;
    }
    if parts.len() < values.len() {
        values.truncate(parts.len());
    }
    Ok(())
}

fn parts_of(alloc: Global, cell: Option<Cell>) -> Values
    ensures { result ≡ cell_parts cell }
{
    match cell {
        Some(Cell::Hold(parts)) => parts,
        _ => Values::new(alloc),
    }
}

// The parts of a cell are written over those of another. A cell keeps its own where they are one.
#[inline(never)]
fn keep_from(alloc: Global, state: &mut State, cell: u16, from: u16) -> Result<(), NoMemory>
    ensures { let kept = Cell.Hold (parts_at state.old from) in
        OnOk result (state.new ≡ with_cell state.old cell kept) }
{
    let index = usize::from(cell);
    let mut parts = parts_of(alloc, state.cells.replace(index, Cell::Enum(0)));
    if cell != from {
        set_parts(alloc, state.parts_at(from), &mut parts)?;
    }
    state.cells.set(index, Cell::Hold(parts));
    Ok(())
}

fn push_zeros(locals: &mut Values, count: usize) -> Result<(), NoMemory>
    ensures { OnOk result (locals.new ≡ locals.old ++ replicate count (Value.Num (pos 0))) }
{
    'zeros: for _ in 0..count {
        locals.push(Value::Num(0))?;
    }
    Ok(())
}

/// Names the value of the local with this number. The numbers between the last local and this one
/// are those of locals that are gone; they hold 0.
#[inline(never)]
pub fn name_local(locals: &mut Values, local: u16, value: Value) -> Result<(), NoMemory>
    ensures { let gap = replicate (local - length locals.old) (Value.Num (pos 0)) in
        OnOk result (locals.new ≡ locals.old ++ (gap ++ value ∷ [])) }
{
    push_zeros(locals, usize::from(local).saturating_sub(locals.len()))?;
    locals.push(value)?;
    Ok(())
}

// The parts are written over those that the cell has.
fn keep_in(alloc: Global, known: &Known, values: &FixedList, cell: &mut Cell) -> Result<(), Stop>
    ensures { let meaning = kept_cell (known_values known.now) (map fixed_plan values.now) in
        Makes result cell.new meaning }
{
    match cell {
        Cell::Hold(parts) => set_values(alloc, known, values, parts),
        Cell::Enum(_) | Cell::Int(_) | Cell::Nums(_) | Cell::Words(_) => {
            let mut parts = Values::new(alloc);
            set_values(alloc, known, values, &mut parts)?;
            *cell = Cell::Hold(parts);
            Ok(())
        }
    }
}

fn keep(
    alloc: Global,
    known: &Known,
    cell: u16,
    values: &FixedList,
    state: &mut State,
) -> Result<(), Stop>
    ensures { let meaning = kept (known_values known.now) cell (map fixed_plan values.now) in
        Makes result state.new (meaning state.old) }
{
    match state.cells.get_mut(usize::from(cell)) {
        Some(cell) => keep_in(alloc, known, values, cell),
        None => set_values(alloc, known, values, &mut Values::new(alloc)),
    }
}

// A statement that changes cells alone. Apart, so that its locals cost other statements nothing.
#[inline(never)]
fn assign(
    alloc: Global,
    plan: &Plan,
    known: &Known,
    statement: &Do,
    state: &mut State,
) -> Result<(), Stop>
    requires { IsAssignment (do_plan statement.now) }
    ensures { let p = script_plan plan.now in
        Makes result state.new
        (do_step p (known_values known.now) (do_plan statement.now) state.old) }
{
    match statement {
        Do::SetInt(cell, term) => {
            let number = term_number(known, term, state)?;
            let number = plan.landed(*cell, number)?;
            state.set_int(*cell, number);
        }
        Do::SetEnum(cell, label) => state
            .cells
            .set(usize::from(*cell), Cell::Enum(known.label(label))),
        Do::CopyEnum(cell, from) => {
            let label = state.label_at(*from);
            state.cells.set(usize::from(*cell), Cell::Enum(label));
        }
        Do::Keep(cell, values) => {
            keep(alloc, known, *cell, values, state)?;
        }
        Do::KeepFrom(cell, from) => keep_from(alloc, state, *cell, *from)?,
        Do::PushNum(cell, term) => {
            let number = term_number(known, term, state)?;
            let number = plan.landed(*cell, number)?;
            push_num(alloc, state, *cell, number)?;
        }
        Do::PushWord(cell, word) => push_word(alloc, state, *cell, known.word(word))?,
        Do::Let(..) | Do::If(..) => unreachable!(),
    }
    Ok(())
}

// The statements of a block. Locals that were there before it are there after it.
#[cycle(running)]
pub(crate) fn run_all(
    alloc: Global,
    plan: &Plan,
    rec: &Record,
    statements: &Dos,
    buffers: &mut Buffers,
    state: &mut State,
) -> Result<(), Stop>
    requires { IsTrue (list_all has_fixed_body (script_plan plan.now).tests) }
    ensures state { let p = script_plan plan.now in
        let k = environment rec.now buffers.old.locals in
        Makes result state.new (dos_step p k (dos_plan statements.now) state.old) }
    ensures locals { let count = length buffers.old.locals in
        OnOk result (take count buffers.new.locals ≡ buffers.old.locals) }
{
    match statements {
        Dos::End => Ok(()),
        Dos::More(first, rest) => {
            run(alloc, plan, rec, first, buffers, state)?;
            match &**rest {
                Dos::End => Ok(()),
                Dos::More(..) => run_all(alloc, plan, rec, rest, buffers, state),
            }
        }
    }
}

// The locals of a block are gone after it.
#[cycle(running)]
#[inline(always)]
fn run_block(
    alloc: Global,
    plan: &Plan,
    rec: &Record,
    statements: &Dos,
    buffers: &mut Buffers,
    state: &mut State,
) -> Result<(), Stop>
    requires { IsTrue (list_all has_fixed_body (script_plan plan.now).tests) }
    ensures state { let p = script_plan plan.now in
        let k = environment rec.now buffers.old.locals in
        Makes result state.new (dos_step p k (dos_plan statements.now) state.old) }
    ensures locals { OnOk result (buffers.new.locals ≡ buffers.old.locals) }
{
    let count = buffers.locals.len();
    run_all(alloc, plan, rec, statements, buffers, state)?;
    if count < buffers.locals.len() {
        buffers.locals.truncate(count);
    }
    Ok(())
}

#[cycle(running)]
fn run(
    alloc: Global,
    plan: &Plan,
    rec: &Record,
    statement: &Do,
    buffers: &mut Buffers,
    state: &mut State,
) -> Result<(), Stop>
    requires { IsTrue (list_all has_fixed_body (script_plan plan.now).tests) }
    ensures state { let p = script_plan plan.now in
        let k = environment rec.now buffers.old.locals in
        Makes result state.new (do_step p k (do_plan statement.now) state.old) }
    ensures locals { let k = environment rec.now buffers.old.locals in
        OnOk result (environment rec.now buffers.new.locals
        ≡ environment_after k (do_plan statement.now)) }
{
    let known = known_in(rec, &buffers.locals);
    match statement {
        Do::Let(local, value) => {
            let value = fixed_value(alloc, &known, value)?;
            name_local(&mut buffers.locals, *local, value)?;
            Ok(())
        }
        Do::If(condition, then, otherwise) => {
            if truth_of(alloc, plan, &known, condition, state, &mut buffers.args)? {
                run_block(alloc, plan, rec, then, buffers, state)
            } else {
                run_block(alloc, plan, rec, otherwise, buffers, state)
            }
        }
        _ => assign(alloc, plan, &known, statement, state),
    }
}
