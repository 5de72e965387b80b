//! What an enum cell holds, as a form over an unknown state.
ghost use Rattle.std.specs.Prelude.{◌≡◌, ◌↔◌, IsTrue};
ghost use Rattle.sym_base.specs.declared.values.state.State.{State as OneState};
ghost use Rattle.sym_enum.specs.Labels.{has_label, label_value, IsConst, IsPulledBy, Pulls, Leads};

use crate::label_set::LabelSet;
use sym_base::State;

/// The label of an enum cell after some records, over the state before them.
#[derive(Clone, Copy, PartialEq, Eq)]
pub enum EnumForm {
    /// This label.
    Const(u8),
    /// The label that the cell with this number held.
    Copy(u16),
}

/// The states at which a form's label is in a set.
#[derive(Clone, Copy, PartialEq, Eq)]
pub enum PulledLabels {
    /// All states.
    All,
    /// No state.
    Never,
    /// The states in which the label of the cell with this number is in the set.
    In { cell: u16, set: LabelSet },
}

impl EnumForm {
    /// The form's label at a state; 0 where the copied cell is no enum cell.
    pub fn value(&self, state: &State) -> u8
        ensures { result ≡ label_value self.now state.now }
    {
        match self {
            EnumForm::Const(label) => *label,
            EnumForm::Copy(cell) => state.label_at(*cell),
        }
    }

    /// This form over the state before the records of an earlier path, where `inner` is the
    /// earlier path's form of the copied cell: a copy becomes `inner`.
    pub fn through(&self, inner: &EnumForm) -> EnumForm
        ensures constant { IsConst self.now → result ≡ self.now }
        ensures copied { (IsConst self.now → ⊥) → result ≡ inner.now }

        // Its label at a state is that of this form at any state in which the copied cell holds the
        // label of `inner` there.
        ensures label { (first second : OneState) → Leads self.now inner.now first second →
            label_value result first ≡ label_value self.now second }
    {
        match self {
            EnumForm::Const(_) => *self,
            EnumForm::Copy(_) => *inner,
        }
    }

    /// The states at which the form's label is in `set`. A constant gives `All` or `Never`, and
    /// a copy the same set of the cell that it copies.
    pub fn pull(set: &LabelSet, form: &EnumForm) -> PulledLabels
        ensures exact { (state : OneState) →
            Pulls result state ↔ IsTrue (has_label set.now (label_value form.now state)) }
        ensures shape { IsPulledBy set.now form.now result }
    {
        match form {
            EnumForm::Const(label) if set.has(*label) => PulledLabels::All,
            EnumForm::Const(_) => PulledLabels::Never,
            EnumForm::Copy(cell) => PulledLabels::In {
                cell: *cell,
                set: *set,
            },
        }
    }
}
