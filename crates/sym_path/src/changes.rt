//! A path's end changed in place: one form, or a fault in the place of its forms.
ghost use Rattle.std.specs.Prelude.{◌≡◌, map, IfOk, OnOk, IsTrue, ◌↔◌, slice_get, option_copied};
ghost use Rattle.sym_base.specs.declared.values.state.State.{State as OneState};
ghost use Rattle.sym_base.specs.Tests.{Truth};
ghost use Rattle.sym_check.specs.Meaning.Fitting.{FitsFault};
ghost use Rattle.sym_check.specs.Plan.ScriptPlans.{script_plan, ScriptPlan};
ghost use Rattle.sym_pred.specs.Literals.{atom_of};
ghost use Rattle.sym_path.specs.Changing.{GoesOn, form_of, with_form, with_fault, IsOpenOf, GivesWhereLiteral, SuitsCell};
ghost use Rattle.sym_path.specs.Fitting.{PathFits};

use crate::form::Form;
use crate::part::Part;
use crate::path::{Path, PathEnd};
use std::alloc::Global;
use sym_base::{Fault, NoMemory};
use sym_check::Plan;
use sym_pred::{Facts, Literal};

impl Path {
    /// Whether the path goes on.
    pub fn goes_on(&self) -> bool
        ensures { IsTrue result ↔ GoesOn self.now.end }
    {
        match self.end {
            PathEnd::Next(_) => true,
            PathEnd::Ended(_) => false,
        }
    }

    /// The form of the cell with this number; `None` where there is none, as after a fault.
    pub fn form(&self, cell: u16) -> Option<&Form>
        ensures { option_copied result ≡ form_of self.now.end cell }
    {
        match &self.end {
            PathEnd::Next(forms) => forms.get(usize::from(cell)),
            PathEnd::Ended(_) => None,
        }
    }

    /// Puts a form in the place of that of the cell with this number. Where there is none, as
    /// after a fault, the path is as before, and the form is dropped. It takes no memory.
    pub fn set_form(&mut self, cell: u16, form: Form)
        ensures new { self.new ≡ with_form self.old cell form }
    {
        match &mut self.end {
            PathEnd::Next(forms) => forms.set(usize::from(cell), form),
            PathEnd::Ended(_) => {}
        }
    }

    /// Ends the path by a fault; a path that has ended stays as it is. It takes no memory.
    pub fn fail(&mut self, fault: Fault)
        ensures { self.new ≡ with_fault self.old fault }
    {
        if self.goes_on() {
            self.end = PathEnd::Ended(fault);
        }
    }

    /// The path with an end by a fault, where it goes on, and else an equal path. The forms aren't
    /// copied.
    pub fn failed(&self, alloc: Global, fault: Fault) -> Result<Path, NoMemory>
        ensures { IfOk result (λ path. path ≡ with_fault self.now fault) }
    {
        let when = self.when.copy(alloc)?;
        let end = match self.end {
            PathEnd::Next(_) => PathEnd::Ended(fault),
            PathEnd::Ended(old) => PathEnd::Ended(old),
        };
        Ok(Path { when, end })
    }

    /// Adds a literal to the facts of a hold cell, which have none with its test and arguments.
    /// What the path gives stays the same where the cell gives the literal's outcome, and it gives
    /// nothing elsewhere. After an `Err` the path may be any.
    pub fn add_literal(&mut self, _plan: &Plan, cell: u16, literal: Literal) -> Result<(), NoMemory>
        requires fits { PathFits (script_plan _plan.now) self.old }
        requires suits { SuitsCell (script_plan _plan.now) cell literal }
        requires open { IsOpenOf (atom_of literal) (slice_get self.old.when cell) }
        ensures fits { OnOk result (PathFits (script_plan _plan.now) self.new) }
        ensures gives { OnOk result (GivesWhereLiteral self.old cell literal self.new) }
        ensures end { OnOk result (self.new.end ≡ self.old.end) }
    {
        if let Some(Part::Facts(facts)) = self.when.replace(usize::from(cell), Part::Free) {
            let longer: Facts = facts.with(literal)?;
            self.when.set(usize::from(cell), Part::Facts(longer));
        }
        Ok(())
    }
}
