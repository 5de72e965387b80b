//! The path that admits every valid state and leaves it as it is.
ghost use Rattle.std.specs.Prelude.{◌≡◌, ◌<◌, All, IfOk};
ghost use Rattle.sym_check.specs.Checking.CheckedScripts.{checked_plan};
ghost use Rattle.sym_check.specs.Plan.ScriptPlans.{script_plan};
ghost use Rattle.sym_check.specs.Meaning.Validity.{label_count};
ghost use Rattle.sym_check.specs.Plan.WellFormed.{IsCell, IsEnum, IsWellFormed};
ghost use Rattle.sym_path.specs.Fitting.{PathFits};
ghost use Rattle.sym_path.specs.Identity.{IsOwnLabel, IsOwnNumber, IsWholeEnum, IsWholeCell, IsWholePath, AdmitsAll, LeavesAll};

use crate::form::Form;
use crate::kinds::label_count;
use crate::part::Part;
use crate::path::{Path, PathEnd};
use std::alloc::Global;
use sym_base::{NoMemory, Sequence};
use sym_check::{CellPlan, Checked, Plan};
use sym_enum::{EnumForm, LabelSet};
use sym_int::{IntForm, Line, Number, Span};
use sym_pred::{Facts, HoldForm};
use sym_vector::ListForm;

/// The label of an enum cell itself.
fn own_label(cell: u16, set: &LabelSet) -> EnumForm
    ensures { IsOwnLabel cell set.now result }
{
    match set.only() {
        Some(label) => EnumForm::Const(label),
        None => EnumForm::Copy(cell),
    }
}

/// The number of an integer cell itself.
fn own_number(cell: u16, span: &Span) -> IntForm
    ensures { IsOwnNumber cell span.now result }
{
    if span.lo < span.hi {
        IntForm::Line(Line::of(cell, 1, 0))
    } else {
        IntForm::Const(Number { value: span.lo })
    }
}

/// All labels of an enum cell, and the label itself.
fn whole_enum(plan: &Plan, cell: u16, of: u16) -> (Part, Form)
    requires enums { All IsEnum (script_plan plan.now).enums }
    requires some { 0 < label_count (script_plan plan.now).enums of }
    ensures { IsWholeEnum (label_count (script_plan plan.now).enums of) cell result.0 result.1 }
{
    let set = LabelSet::full(label_count(plan.enums.as_slice(), of) as u8);
    (Part::Set(set), Form::Enum(own_label(cell, &set)))
}

/// All that the cell with this number may hold, and the form that leaves it as it is.
fn whole_cell(alloc: Global, plan: &Plan, cell: u16, kind: &CellPlan) -> (Part, Form)
    requires enums { All IsEnum (script_plan plan.now).enums }
    requires cell { IsCell (script_plan plan.now).enums kind.now }
    ensures { IsWholeCell (script_plan plan.now) cell kind.now result.0 result.1 }
{
    match kind {
        CellPlan::Enum { of, .. } => whole_enum(plan, cell, *of),
        CellPlan::Int { lo, hi, .. } => {
            let span = Span { lo: *lo, hi: *hi };
            (Part::Span(span), Form::Int(own_number(cell, &span)))
        }
        CellPlan::Hold { .. } => {
            (
                Part::Facts(Facts::none(alloc)),
                Form::Hold(HoldForm::Copy(cell)),
            )
        }
        CellPlan::Nums { .. } => (Part::Free, Form::Nums(ListForm::same(alloc))),
        CellPlan::Words => (Part::Free, Form::Words(ListForm::same(alloc))),
    }
}

impl Path {
    /// The path that admits every valid state and leaves it as it is.
    pub fn all(alloc: Global, checked: &Checked) -> Result<Path, NoMemory>
        ensures fits { IfOk result (PathFits (checked_plan checked.now)) }
        ensures admits { IfOk result (AdmitsAll (checked_plan checked.now)) }
        ensures leaves { IfOk result (LeavesAll (checked_plan checked.now)) }
        ensures whole { IfOk result (IsWholePath (checked_plan checked.now)) }
    {
        Path::all_of(alloc, checked.plan())
    }

    /// The same by a plan alone.
    fn all_of(alloc: Global, plan: &Plan) -> Result<Path, NoMemory>
        requires { IsWellFormed (script_plan plan.now) }
        ensures fits { IfOk result (PathFits (script_plan plan.now)) }
        ensures admits { IfOk result (AdmitsAll (script_plan plan.now)) }
        ensures leaves { IfOk result (LeavesAll (script_plan plan.now)) }
        ensures whole { IfOk result (IsWholePath (script_plan plan.now)) }
    {
        let cells = plan.cells.as_slice();
        let mut when = Vec::with_capacity(alloc, cells.len())?;
        let mut forms = Vec::with_capacity(alloc, cells.len())?;
        'cells: for index in 0..cells.len() {
            let (part, form) = whole_cell(alloc, plan, index as u16, &cells[index]);
            when.push(part)?;
            forms.push(form)?;
        }
        Ok(Path {
            when: Sequence::of(when),
            end: PathEnd::Next(Sequence::of(forms)),
        })
    }
}
