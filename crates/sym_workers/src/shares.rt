//! Whether the records of a round are shared out by their groups.
ghost use Rattle.sym_check.specs.Checking.CheckedScripts.{checked_plan};
ghost use Rattle.sym_files.specs.Rounds.{IsRound};

use std::alloc::Global;
use sym_base::{NoMemory, Sequence};
use sym_check::{CellPlan, Do, Dos, Line, Plan, Term};
use sym_files::Work;
use sym_plain::Groups;
use sym_shuffle::{Free, folded};

// With so many groups, these are what several threads work on at once. With fewer, the runs of a
// round's stretches let several threads work on one group.
const GROUPS_MANY: usize = 32;

// The cell that takes part in a number.
fn cell_of(line: &Line) -> u16 {
    match line {
        Line::Cell(cell) => *cell,
        Line::Neg(line) => cell_of(line),
        Line::Add(line, _) => cell_of(line),
        Line::Scale(_, line) => cell_of(line),
    }
}

// Marks a cell if the one that takes part in its value has a mark.
fn mark_as(sets: &mut Sequence<bool>, cell: u16, from: u16) {
    if sets.get(usize::from(from)) == Some(&true) {
        sets.set(usize::from(cell), true);
    }
}

// Marks the cell that a statement sets to a value in which no cell takes part, or to that of a cell
// with a mark, and those that the statements inside set so.
#[cycle(setting)]
fn mark_set(sets: &mut Sequence<bool>, statement: &Do) {
    match statement {
        Do::SetInt(cell, Term::Fixed(_)) | Do::SetEnum(cell, _) | Do::Keep(cell, _) => {
            sets.set(usize::from(*cell), true);
        }
        Do::SetInt(cell, Term::Line(line)) => mark_as(sets, *cell, cell_of(line)),
        Do::CopyEnum(cell, from) | Do::KeepFrom(cell, from) => mark_as(sets, *cell, *from),
        Do::If(_, then, otherwise) => {
            mark_all_set(sets, then);
            mark_all_set(sets, otherwise);
        }
        _ => {}
    }
}

// Marks the cells that statements set so.
#[cycle(setting)]
fn mark_all_set(sets: &mut Sequence<bool>, statements: &Dos) {
    match statements {
        Dos::End => {}
        Dos::More(first, rest) => {
            mark_set(sets, first);
            mark_all_set(sets, rest);
        }
    }
}

// Whether a cell is a list. What a list held before is never asked.
fn is_list(cell: Option<&CellPlan>) -> bool {
    match cell {
        Some(CellPlan::Nums { .. }) | Some(CellPlan::Words) => true,
        _ => false,
    }
}

// Whether each cell but the lists is set somewhere to a value in which no cell takes part, or to
// that of a cell of which this is so. Where one isn't, no record lets a stretch that begins with an
// unknown state know it, and the stretch explores all of its records, which costs several steps of
// each.
fn may_get_known(alloc: Global, plan: &Plan) -> Result<bool, NoMemory> {
    let mut sets = Sequence::of(vec![in alloc; false; plan.cells.len()]?);
    // A copy may stand before the statement that marks what is copied.
    'copies: for _copy in 0..plan.cells.len() {
        mark_all_set(&mut sets, &plan.update);
    }
    'cells: for index in 0..plan.cells.len() {
        if !is_list(plan.cells.get(index)) && sets.get(index) != Some(&true) {
            return Ok(false);
        }
    }
    Ok(true)
}

// Whether there are many groups before a round, or, where there is none, in its first chunk.
fn are_many(alloc: Global, work: &Work, groups: &Groups) -> Result<bool, NoMemory>
    requires { IsRound (checked_plan work.now.checked).fields work.now.chunks }
{
    if groups.len() > 0 {
        return Ok(groups.len() >= GROUPS_MANY);
    }
    let chunks = work.chunks.as_slice();
    let (first, _) = chunks.split_at(chunks.len().min(1));
    match folded(alloc, &work.checked, first, Groups::new(alloc), &Free)? {
        Ok(begun) => Ok(begun.len() >= GROUPS_MANY),
        Err(_) => Ok(false),
    }
}

/// Whether several threads get on faster with a round's records where each makes the steps of groups
/// of its own than where each makes the run of a stretch. What the round comes to doesn't depend on
/// it.
pub(crate) fn are_shared_out(alloc: Global, work: &Work, groups: &Groups) -> Result<bool, NoMemory>
    requires { IsRound (checked_plan work.now.checked).fields work.now.chunks }
{
    if !may_get_known(alloc, work.checked.plan())? {
        return Ok(true);
    }
    are_many(alloc, work, groups)
}
