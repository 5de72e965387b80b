//! Whether an enum cell holds a label.
ghost use Rattle.std.specs.Prelude.{◌≡◌, ℕ, IfOk, OnOk};
ghost use Rattle.sym_check.specs.Plan.CellKinds.{IsEnumCell};
ghost use Rattle.sym_check.specs.Plan.ScriptPlans.{script_plan};
ghost use Rattle.sym_explore.specs.Branches.{answered, AreFewBranches, CanSplit, Splits};
ghost use Rattle.sym_explore.specs.Labels.{cell_has, label_form, set_of, WasSplit};

use crate::branch::Branch;
use std::alloc::Global;
use sym_base::NoMemory;
use sym_check::Plan;
use sym_enum::{EnumForm, LabelSet};
use sym_path::{Form, Part, Path};

/// The form of the enum cell with this number; `None` where the path has ended.
pub(crate) fn label_form(path: &Path, cell: u16) -> Option<EnumForm>
    ensures { result ≡ label_form path.now cell }
{
    match path.form(cell) {
        Some(Form::Enum(form)) => Some(*form),
        _ => None,
    }
}

/// The labels of the enum cell with this number.
fn set_of(path: &Path, cell: u16) -> Option<LabelSet>
    ensures { result ≡ set_of path.now cell }
{
    match path.when.get(usize::from(cell)) {
        Some(Part::Set(set)) => Some(*set),
        _ => None,
    }
}

/// Splits the path by whether the cell with this number held the label before it.
fn split_labels(
    alloc: Global,
    plan: &Plan,
    cell: u16,
    label: u8,
    path: &mut Path,
    out: &mut Vec<Branch>,
) -> Result<bool, NoMemory>
    requires enum_cell { (of : ℕ) × IsEnumCell (script_plan plan.now).cells cell of }
    requires split { CanSplit (script_plan plan.now) path.old out.old.items }
    ensures exact { IfOk result (WasSplit (script_plan plan.now) cell label
        path.old out.old.items path.new out.new.items) }
    ensures next { OnOk result (CanSplit (script_plan plan.now) path.new out.new.items) }
    ensures few { IfOk result (AreFewBranches (λ x. 1) out.old.items out.new.items) }
{
    let Some(set) = set_of(path, cell) else {
        unreachable!()
    };
    let (only, rest) = set.split(label);
    if only.is_empty() {
        return Ok(false);
    }
    if rest.is_empty() {
        return Ok(true);
    }
    let mut copy = path.copy(alloc)?;
    copy.narrow_labels(plan, cell, only);
    out.push(Branch {
        path: copy,
        truth: true,
    })?;
    path.narrow_labels(plan, cell, rest);
    Ok(false)
}

/// Tells whether the enum cell holds the label at the states of a path that goes on. The path is
/// split where it does in some and doesn't in others.
pub(crate) fn cell_is(
    alloc: Global,
    plan: &Plan,
    cell: u16,
    label: u8,
    path: &mut Path,
    out: &mut Vec<Branch>,
) -> Result<bool, NoMemory>
    requires enum_cell { (of : ℕ) × IsEnumCell (script_plan plan.now).cells cell of }
    requires split { CanSplit (script_plan plan.now) path.old out.old.items }
    ensures exact { (n : ℕ) → let meaning = answered n (cell_has cell label) in
        IfOk result (Splits (script_plan plan.now) meaning
        path.old out.old.items path.new out.new.items) }
    ensures next { OnOk result (CanSplit (script_plan plan.now) path.new out.new.items) }
    ensures few { IfOk result (AreFewBranches (λ x. 1) out.old.items out.new.items) }
{
    match label_form(path, cell) {
        None => unreachable!(),
        Some(EnumForm::Const(own)) => Ok(own == label),
        Some(EnumForm::Copy(from)) => split_labels(alloc, plan, from, label, path, out),
    }
}
