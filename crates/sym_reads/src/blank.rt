//! Records that hold no value but such as take no memory.
ghost use Rattle.std.specs.Prelude.{◌≡◌, IfOk, map};
ghost use Rattle.sym_check.specs.Checking.CheckedScripts.{checked_plan};
ghost use Rattle.sym_check.specs.Meaning.Validity.{IsRecord};
ghost use Rattle.sym_reads.specs.Agreement.{kinds_of, blank_value, blank_record};

use std::alloc::Global;
use sym_base::{Fields, NoMemory, Record, Sequence, Text, Value};
use sym_check::{Checked, FieldPlan, KindPlan};

fn blank_value(alloc: Global, kind: KindPlan) -> Value
    ensures { result ≡ blank_value kind }
{
    match kind {
        KindPlan::Num => Value::Num(0),
        KindPlan::Word => Value::Word(Text::of(String::new(alloc))),
        KindPlan::Label(_) => Value::Label(0),
    }
}

fn blank_values(alloc: Global, fields: &[FieldPlan]) -> Result<Fields, NoMemory>
    ensures { IfOk result (λ values. values ≡ map blank_value (kinds_of fields.now)) }
{
    let mut values = Vec::with_capacity(alloc, fields.len())?;
    'fields: for field in fields {
        values.push(blank_value(alloc, field.kind))?;
    }
    Ok(Sequence::of(values))
}

/// The record with this number that holds in each field a value of its kind that takes no memory:
/// 0, the empty word, the first label of the enum. Only the list of the values takes memory.
pub fn blank_record(alloc: Global, checked: &Checked, no: u64) -> Result<Record, NoMemory>
    ensures blank { IfOk result (λ r. r ≡ blank_record (checked_plan checked.now) no) }
    ensures of_script { IfOk result (λ r. IsRecord (checked_plan checked.now) r) }
{
    let fields = blank_values(alloc, checked.plan().fields.as_slice())?;
    Ok(Record { no, fields })
}
