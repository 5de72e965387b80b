//! Numbers that are put into the cells of paths.
ghost use Rattle.std.specs.Prelude.{◌≡◌, None, OnOk};
ghost use Rattle.sym_int.specs.Lines.{form_cell};
ghost use Rattle.sym_check.specs.Plan.ScriptPlans.{script_plan};
ghost use Rattle.sym_path.specs.Changing.{GoesOn};
ghost use Rattle.sym_path.specs.Fitting.{PathFits};
ghost use Rattle.sym_explore.specs.Placing.{IsPut, PlaceFits, place_cell};
ghost use Rattle.sym_explore.specs.Ranging.{NumberFitsCell};
ghost use Rattle.sym_explore.specs.Sure.{IsSureEnd};

use crate::forms::{add_number, put_number};
use std::alloc::Global;
use sym_base::{Fault, NoMemory};
use sym_check::Plan;
use sym_int::{IntForm, Span, Wide};
use sym_path::Path;

/// Where a number is stored.
#[derive(Clone, Copy)]
pub enum Place {
    /// In the integer cell with this number.
    Cell(u16),
    /// At the end of the list of the cell with this number.
    End(u16),
}

/// Where a number is stored, and what becomes of one outside the range of the cell.
#[derive(Clone, Copy)]
pub struct Target {
    pub place: Place,
    /// The range of the cell.
    pub ends: Span,
    /// Whether the nearest end is stored in the place of a number outside the range.
    pub clamps: bool,
    /// The fault of such a number where the range doesn't clamp.
    pub fault: Fault,
}

/// A number over the span of a cell, and the target at which it is to be stored.
#[derive(Clone, Copy)]
pub(crate) struct TargetLine<'a> {
    pub plan: &'a Plan,
    /// The cell over whose span the number is.
    pub cell: u16,
    pub wide: &'a Wide,
    pub target: &'a Target,
}

impl Place {
    /// The number of the cell.
    pub(crate) fn cell(self) -> u16
        ensures { result ≡ place_cell self }
    {
        match self {
            Place::Cell(cell) | Place::End(cell) => cell,
        }
    }
}

/// Puts a number that fits the cell at a place of a path.
pub(crate) fn put(
    alloc: Global,
    _plan: &Plan,
    place: Place,
    form: IntForm,
    path: &mut Path,
) -> Result<(), NoMemory>
    requires place { PlaceFits (script_plan _plan.now) place }
    requires fits { PathFits (script_plan _plan.now) path.old }
    requires number { NumberFitsCell (script_plan _plan.now) (place_cell place) path.old form }
    ensures gives { OnOk result (IsPut (script_plan _plan.now) place form path.old path.new) }
    ensures fits { OnOk result (PathFits (script_plan _plan.now) path.new) }
    ensures next { OnOk result (GoesOn path.new.end) }
    ensures sure { form_cell form ≡ None → IsSureEnd path.old.end →
        OnOk result (IsSureEnd path.new.end) }
{
    match place {
        Place::Cell(cell) => {
            put_number(path, cell, form);
            Ok(())
        }
        Place::End(cell) => add_number(alloc, path, cell, form),
    }
}
