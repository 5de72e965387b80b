//! The state with which a group begins.
ghost use Rattle.std.specs.Prelude.{◌≡◌, IfOk};
ghost use Rattle.sym_check.specs.Plan.ScriptPlans.{script_plan};
ghost use Rattle.sym_check.specs.Meaning.Updates.{first_cell, initial};

use std::alloc::Global;
use sym_base::{Cell, Cells, NoMemory, Nums, State, Words};
use sym_check::{CellPlan, Plan};

// What a cell holds at first.
fn first_cell(alloc: Global, cell: &CellPlan) -> Result<Cell, NoMemory>
    ensures { IfOk result (λ c. c ≡ first_cell cell.now) }
{
    match cell {
        CellPlan::Int { first, .. } => Ok(Cell::Int(*first)),
        CellPlan::Nums { .. } => Ok(Cell::Nums(Nums::new(alloc))),
        CellPlan::Words => Ok(Cell::Words(Words::new(alloc))),
        CellPlan::Hold { first, .. } => Ok(Cell::Hold(first.copy(alloc)?)),
        CellPlan::Enum { first, .. } => Ok(Cell::Enum(*first)),
    }
}

/// The initial state of a plan.
pub(crate) fn first_state(alloc: Global, plan: &Plan) -> Result<State, NoMemory>
    ensures { IfOk result (λ s. s ≡ initial (script_plan plan.now)) }
{
    let mut cells = Vec::with_capacity(alloc, plan.cells.len())?;
    'cells: for cell in plan.cells.as_slice() {
        let cell = first_cell(alloc, cell)?;
        cells.push(cell)?;
    }
    Ok(State {
        cells: Cells::of(cells),
    })
}
