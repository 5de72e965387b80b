//! The keys of groups.
ghost use Rattle.std.specs.Prelude.{◌≡◌, ◌≤◌, ◌+◌, ◌++◌, ◌∷◌, [], IfOk, OnOk, length, map, option_copied, take};
ghost use Rattle.sym_check.specs.Meaning.Groups.{field_at, field_value, key_of};
ghost use Rattle.sym_check.specs.Plan.ScriptPlans.{script_plan};

use crate::slots::{put_copy, put_num};
use std::alloc::Global;
use sym_base::{Key, NoMemory, Record, Value, Values};
use sym_check::Plan;

// Puts the value of a field at this place of a key; those before it stay.
fn put_field(
    alloc: Global,
    values: &mut Values,
    index: usize,
    value: Option<&Value>,
) -> Result<(), NoMemory>
    requires { index ≤ length values.old }
    ensures values { let value = field_value (option_copied value.entry) in
        OnOk result (take (index + 1) values.new ≡ take index values.old ++ value ∷ []) }
    ensures length { OnOk result (index + 1 ≤ length values.new) }
{
    match value {
        Some(value) => put_copy(alloc, values, index, value),
        None => put_num(values, index, 0),
    }
}

// Makes the values those of these fields, over the memory that they have.
fn set_fields(
    alloc: Global,
    fields: &[u16],
    rec: &Record,
    values: &mut Values,
) -> Result<(), NoMemory>
    ensures { OnOk result (values.new ≡ map (field_at rec.now) fields.now) }
{
    'fields: for (index, field) in fields.iter().enumerate() {
        put_field(alloc, values, index, rec.fields.get(usize::from(*field)))?;
    }
    if fields.len() < values.len() {
        values.truncate(fields.len());
    }
    Ok(())
}

/// Makes the key that of the record's group, over the memory that it has. After an `Err` it is
/// unspecified.
pub(crate) fn set_key(
    alloc: Global,
    plan: &Plan,
    key: &mut Key,
    rec: &Record,
) -> Result<(), NoMemory>
    ensures { OnOk result (key.new ≡ key_of (script_plan plan.now) rec.now) }
{
    set_fields(alloc, plan.group.as_slice(), rec, &mut key.values)
}

/// The key with no values, over which others are made. It takes no memory.
pub(crate) fn no_key(alloc: Global) -> Key
    ensures { result.values ≡ [] }
{
    Key {
        values: Values::new(alloc),
    }
}

/// The key of a record's group.
pub(crate) fn record_key(alloc: Global, plan: &Plan, rec: &Record) -> Result<Key, NoMemory>
    ensures { IfOk result (λ k. k ≡ key_of (script_plan plan.now) rec.now) }
{
    let mut key = no_key(alloc);
    set_key(alloc, plan, &mut key, rec)?;
    Ok(key)
}
