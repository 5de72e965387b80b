//! What a path makes of a state that it admits.
ghost use Rattle.std.specs.Prelude.{◌≡◌, ℤ, All, IfOk, OnOk, length, slice_get};
ghost use Rattle.sym_base.specs.declared.values.state.State.{State as OneState};
ghost use Rattle.sym_check.specs.Checking.CheckedScripts.{checked_plan};
ghost use Rattle.sym_check.specs.Meaning.Conditions.{test_truth};
ghost use Rattle.sym_check.specs.Plan.ScriptPlans.{script_plan};
ghost use Rattle.sym_base.specs.States.{cell_nums, cell_words};
ghost use Rattle.sym_check.specs.Meaning.Validity.{IsValid, IsValidOutcome};
ghost use Rattle.sym_check.specs.Plan.WellFormed.{IsWellFormed};
ghost use Rattle.sym_base.specs.Limits.{IsNumber};
ghost use Rattle.sym_int.specs.Lines.{form_value};
ghost use Rattle.sym_path.specs.Admitting.{Admits};
ghost use Rattle.sym_path.specs.Fitting.{PathFits};
ghost use Rattle.sym_path.specs.Following.{AdmitsOutcome, end_after};
ghost use Rattle.sym_path.specs.Giving.{cell_at, end_at, HasNumbers, nums_after, state_at, words_after};
ghost use Rattle.sym_path.specs.Leading.{IsListOut, SameButLists, is_list};
ghost use Rattle.sym_path.specs.Writing.{AreDrafts, draft_at};

use crate::drafts::finish_all;
use crate::form::Form;
use crate::path::{Path, PathEnd};
use std::alloc::Global;
use sym_base::{Cell, Cells, NoMemory, Nums, Outcome, Sequence, State, Text, Words};
use sym_check::{Checked, Plan};
use sym_int::IntForm;
use sym_vector::ListForm;

/// The numbers of a list cell after a path.
fn numbers_after(
    alloc: Global,
    added: &ListForm<IntForm>,
    state: &State,
    old: Cell,
) -> Result<Nums, NoMemory>
    requires { All (λ f. IsNumber (form_value f state.now)) added.now }
    ensures { IfOk result (λ xs. xs ≡ nums_after added.now state.now old) }
{
    let mut numbers = match old {
        Cell::Nums(numbers) => numbers,
        _ => Nums::new(alloc),
    };
    'added: for index in 0..added.len() {
        match added.at(index) {
            Some(form) => numbers.push(form.value(state))?,
            None => {}
        }
    }
    Ok(numbers)
}

/// The words of a list cell after a path.
fn words_of(alloc: Global, added: &ListForm<Text>, old: Cell) -> Result<Words, NoMemory>
    ensures { IfOk result (λ ts. ts ≡ words_after added.now old) }
{
    let mut words = match old {
        Cell::Words(words) => words,
        _ => Words::new(alloc),
    };
    'added: for index in 0..added.len() {
        match added.at(index) {
            Some(word) => words.push(word.copy(alloc)?)?,
            None => {}
        }
    }
    Ok(words)
}

impl Form {
    /// What a cell holds by the form at a state, in which it holds `old`.
    fn cell_at(&self, alloc: Global, state: &State, old: Cell) -> Result<Cell, NoMemory>
        requires { HasNumbers state.now self.now }
        ensures { IfOk result (λ c. c ≡ cell_at self.now state.now old) }
    {
        match self {
            Form::Enum(form) => Ok(Cell::Enum(form.value(state))),
            Form::Int(form) => Ok(Cell::Int(form.value(state))),
            Form::Hold(form) => Ok(Cell::Hold(form.value(alloc, state)?)),
            Form::Nums(added) => Ok(Cell::Nums(numbers_after(alloc, added, state, old)?)),
            Form::Words(added) => Ok(Cell::Words(words_of(alloc, added, old)?)),
        }
    }

    /// The draft of the cell with this number.
    fn draft_at(
        &self,
        alloc: Global,
        cell: usize,
        state: &State,
        old: Cell,
    ) -> Result<Cell, NoMemory>
        requires { HasNumbers state.now self.now }
        ensures { IfOk result (λ c. c ≡ draft_at cell self.now state.now old) }
    {
        if self.is_written_over(cell) {
            return Ok(Cell::Enum(0));
        }
        self.cell_at(alloc, state, old)
    }
}

/// Whether the cell with this number, counted from 0, is a list cell.
fn has_list(state: &State, index: usize) -> bool
    ensures { result ≡ is_list (slice_get state.now.cells index) }
{
    match state.cells.get(index) {
        Some(Cell::Nums(_)) => true,
        Some(Cell::Words(_)) => true,
        _ => false,
    }
}

/// A cell with the list of this one, which is moved out of the state. Forms read no list.
fn list_out(state: &mut State, index: usize) -> Cell
    ensures { IsListOut index state.old state.new result }
{
    if !has_list(state, index) {
        return Cell::Enum(0);
    }
    match state.cells.replace(index, Cell::Enum(0)) {
        Some(list) => list,
        None => unreachable!(),
    }
}

/// The drafts of the cells of a state, whose lists are moved out of it into them.
fn drafts_of(alloc: Global, forms: &[Form], state: &mut State) -> Result<Cells, NoMemory>
    requires numbers { All (HasNumbers state.old) forms.now }
    requires lengths { length forms.now ≡ length state.old.cells }
    ensures drafts { IfOk result (AreDrafts forms.now state.old (length forms.now)) }
    ensures same { OnOk result (SameButLists state.old state.new) }
    ensures cells { OnOk result (length state.new.cells ≡ length state.old.cells) }
{
    let mut drafts = Vec::with_capacity(alloc, forms.len())?;
    'cells: for index in 0..forms.len() {
        let old = list_out(state, index);
        drafts.push(forms[index].draft_at(alloc, index, state, old)?)?;
    }
    Ok(Sequence::of(drafts))
}

/// Makes the state what the forms make of it, where it lies.
fn change(alloc: Global, forms: &[Form], state: &mut State) -> Result<(), NoMemory>
    requires numbers { All (HasNumbers state.old) forms.now }
    requires lengths { length forms.now ≡ length state.old.cells }
    ensures { OnOk result (state.new ≡ state_at forms.now state.old) }
{
    let drafts = drafts_of(alloc, forms, state)?;
    finish_all(alloc, forms, drafts, state)
}

impl Path {
    /// What the path makes of a valid state that it admits: the group goes on with its forms'
    /// values there, or ends by its fault.
    pub fn gives(
        &self,
        alloc: Global,
        checked: &Checked,
        state: &State,
    ) -> Result<Outcome, NoMemory>
        requires fits { PathFits (checked_plan checked.now) self.now }
        requires valid { IsValid (checked_plan checked.now) state.now }
        requires admitted { Admits (test_truth (checked_plan checked.now).tests)
            self.now.when state.now }
        ensures value { IfOk result (λ o. o ≡ end_at self.now.end state.now) }
        ensures valid { IfOk result (IsValidOutcome (checked_plan checked.now)) }
    {
        let mut outcome = Outcome::Going(state.copy(alloc)?);
        self.lead(alloc, checked, &mut outcome)?;
        Ok(outcome)
    }

    /// Puts what the path makes of an outcome that it admits in its place: the cells of the state
    /// are changed where they lie, and lists are moved. After an `Err` the outcome is unspecified.
    pub fn lead(
        &self,
        alloc: Global,
        checked: &Checked,
        outcome: &mut Outcome,
    ) -> Result<(), NoMemory>
        requires fits { PathFits (checked_plan checked.now) self.now }
        requires valid { IsValidOutcome (checked_plan checked.now) outcome.old }
        requires admitted { AdmitsOutcome (test_truth (checked_plan checked.now).tests)
            self.now.when outcome.old }
        ensures value { OnOk result (outcome.new ≡ end_after self.now.end outcome.old) }
        ensures valid { OnOk result (IsValidOutcome (checked_plan checked.now) outcome.new) }
    {
        self.lead_by(alloc, checked.plan(), outcome)
    }

    /// The same by a plan alone.
    fn lead_by(&self, alloc: Global, _plan: &Plan, outcome: &mut Outcome) -> Result<(), NoMemory>
        requires known { IsWellFormed (script_plan _plan.now) }
        requires fits { PathFits (script_plan _plan.now) self.now }
        requires valid { IsValidOutcome (script_plan _plan.now) outcome.old }
        requires admitted { AdmitsOutcome (test_truth (script_plan _plan.now).tests)
            self.now.when outcome.old }
        ensures value { OnOk result (outcome.new ≡ end_after self.now.end outcome.old) }
        ensures valid { OnOk result (IsValidOutcome (script_plan _plan.now) outcome.new) }
    {
        match outcome {
            Outcome::Going(state) => match &self.end {
                PathEnd::Next(forms) => change(alloc, forms.as_slice(), state),
                PathEnd::Ended(fault) => {
                    *outcome = Outcome::Ended(*fault);
                    Ok(())
                }
            },
            Outcome::Ended(_) => unreachable!(),
        }
    }
}
