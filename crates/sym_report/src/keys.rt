//! What a row shows of its group's key.
ghost use Rattle.std.specs.Prelude.{◌≡◌, IfOk, map, option_copied, slice_get};
ghost use Rattle.sym_check.specs.Plan.ScriptPlans.{script_plan};
ghost use Rattle.sym_report.specs.ReportRows.{field_kind, key_columns, key_names};

use std::alloc::Global;
use sym_base::{Columns, Key, Names, NoMemory, Texts};
use sym_check::{KindPlan, Plan};
use sym_plain::{kind_labels, value_column};

/// The names of the fields of the group line.
pub(crate) fn key_names(alloc: Global, group: &Names) -> Result<Texts, NoMemory>
    ensures { IfOk result (λ n. n ≡ key_names group.now) }
{
    let mut names = Vec::with_capacity(alloc, group.len())?;
    'names: for name in group.as_slice() {
        names.push(name.text.copy(alloc)?)?;
    }
    Ok(Texts::of(names))
}

// The kind of the field with this number.
fn field_kind(plan: &Plan, field: u16) -> Option<&KindPlan>
    ensures { option_copied result ≡ field_kind (slice_get (script_plan plan.now).fields field) }
{
    match plan.fields.get(usize::from(field)) {
        Some(field) => Some(&field.kind),
        None => None,
    }
}

/// The values of a key, each as one of the field at its place in the group line; a label is shown
/// by its name.
pub(crate) fn key_columns(alloc: Global, plan: &Plan, key: &Key) -> Result<Columns, NoMemory>
    ensures { IfOk result (λ c. c ≡ key_columns (script_plan plan.now) key.now) }
{
    let mut columns = Vec::with_capacity(alloc, key.values.len())?;
    'values: for (field, value) in plan
        .group
        .as_slice()
        .iter()
        .zip(key.values.as_slice().iter())
    {
        let labels = kind_labels(plan, field_kind(plan, *field));
        columns.push(value_column(alloc, labels, Some(value))?)?;
    }
    Ok(Columns::of(columns))
}
