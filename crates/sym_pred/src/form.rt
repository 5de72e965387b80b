//! What a path makes of a hold cell.
ghost use Rattle.std.specs.Prelude.{◌≡◌, IfOk};
ghost use Rattle.sym_base.specs.declared.values.state.State.{State as OneState};
ghost use Rattle.sym_pred.specs.HoldForms.{parts_value, composed, Leads};

use std::alloc::Global;
use sym_base::{Cell, NoMemory, State, Values};

/// The parts of a hold cell in terms of the state at the start of a path.
#[derive(PartialEq, Eq, Drop)]
pub enum HoldForm {
    /// These parts, one value for each.
    Const(Values),
    /// The parts of the hold cell with this number, counted from 0.
    Copy(u16),
}

impl HoldForm {
    /// The parts that the form gives at `state`; none where the copied cell is no hold cell.
    pub fn value(&self, alloc: Global, state: &State) -> Result<Values, NoMemory>
        ensures { IfOk result (λ parts. parts ≡ parts_value self.now state.now) }
    {
        match self {
            HoldForm::Const(parts) => Ok(parts.copy(alloc)?),
            HoldForm::Copy(cell) => match state.cells.get(usize::from(*cell)) {
                Some(Cell::Hold(parts)) => Ok(parts.copy(alloc)?),
                _ => Ok(Values::new(alloc)),
            },
        }
    }

    /// This form after `inner`, the form of the copied cell: a copy becomes `inner`. After an
    /// `Err` both are as before.
    pub fn through(&self, alloc: Global, inner: &HoldForm) -> Result<HoldForm, NoMemory>
        ensures form { IfOk result (λ form. form ≡ composed self.now inner.now) }

        // What it gives at a state is what this form gives at any state in which the copied cell
        // holds what `inner` gives there.
        ensures parts { IfOk result (λ form. (first second : OneState) →
            Leads self.now inner.now first second →
            parts_value form first ≡ parts_value self.now second) }
    {
        self.copy(alloc)?.go_through(alloc, inner)
    }

    /// `through` of a form that is given away: its parts are moved. After an `Err` it is dropped.
    pub fn go_through(self, alloc: Global, inner: &HoldForm) -> Result<HoldForm, NoMemory>
        ensures form { IfOk result (λ form. form ≡ composed self inner.now) }
        ensures parts { IfOk result (λ form. (first second : OneState) →
            Leads self inner.now first second →
            parts_value form first ≡ parts_value self second) }
    {
        match self {
            HoldForm::Const(parts) => Ok(HoldForm::Const(parts)),
            HoldForm::Copy(_) => inner.copy(alloc),
        }
    }

    /// An equal form of its own.
    pub fn copy(&self, alloc: Global) -> Result<HoldForm, NoMemory>
        ensures { IfOk result (λ form. form ≡ self.now) }
    {
        match self {
            HoldForm::Const(parts) => Ok(HoldForm::Const(parts.copy(alloc)?)),
            HoldForm::Copy(cell) => Ok(HoldForm::Copy(*cell)),
        }
    }
}
