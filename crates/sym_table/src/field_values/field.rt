//! One field of a record.
ghost use Rattle.std.specs.Prelude.{◌≡◌, IfSome, option_copied, option_map};
ghost use Rattle.std.specs.List.{All};
ghost use Rattle.sym_check.specs.Plan.WellFormed.{IsEnum};
ghost use Rattle.sym_table.specs.Decoding.{Leaves};
ghost use Rattle.sym_table.specs.Fields.{SaysOf, text_of, default_for, value_in, read_field};

use crate::bad::BadCause;
use crate::field_values::blanks::without_blanks;
use crate::field_values::label::label_in;
use crate::field_values::number::number_in;
use crate::field_values::stop::Stop;
use std::alloc::Global;
use std::str;
use sym_base::Value;
use sym_check::{EnumPlan, FieldPlan, KindPlan, enum_labels};

fn text_of(kind: KindPlan, bytes: &[u8]) -> &[u8]
    ensures { result.now ≡ text_of kind bytes.now }
{
    match kind {
        KindPlan::Word => bytes,
        KindPlan::Num | KindPlan::Label(_) => without_blanks(bytes),
    }
}

// The value after `else`, where the text is empty.
fn default_for<'a>(field: &'a FieldPlan, bytes: &[u8]) -> Option<&'a Value>
    ensures { let text = text_of field.now.kind bytes.now in
        option_copied result ≡ default_for field.now.default text }
{
    match &field.default {
        Some(value) => {
            if text_of(field.kind, bytes).is_empty() {
                Some(value)
            } else {
                None
            }
        }
        None => None,
    }
}

// Makes the value the one that the text says.
fn set_said(
    alloc: Global,
    enums: &[EnumPlan],
    which: u16,
    kind: KindPlan,
    text: &str,
    value: &mut Value,
) -> Result<(), Stop>
    requires { All IsEnum enums.now }
    ensures { Leaves result value.new (value_in enums.now which kind (text_of kind text.now)) }
{
    match kind {
        KindPlan::Num => match number_in(without_blanks(text.as_bytes())) {
            Some(number) => value.set_num(number),
            None => return Err(Stop::Cause(BadCause::Number(which))),
        },
        KindPlan::Word => value.set_word(alloc, text)?,
        KindPlan::Label(of) => {
            match label_in(enum_labels(enums, of), without_blanks(text.as_bytes())) {
                Some(label) => *value = Value::Label(label),
                None => return Err(Stop::Cause(BadCause::Label(which))),
            }
        }
    }
    Ok(())
}

// The number of a field of numbers, where its bytes say one.
fn number_of(kind: KindPlan, bytes: &[u8]) -> Option<i64>
    ensures { IfSome result (λ x. SaysOf kind bytes.now x) }
{
    match kind {
        KindPlan::Num => number_in(without_blanks(bytes)),
        KindPlan::Word | KindPlan::Label(_) => None,
    }
}

// Reads a field, once its bytes are seen to be text.
fn read_text(
    alloc: Global,
    enums: &[EnumPlan],
    which: u16,
    field: &FieldPlan,
    bytes: &[u8],
    value: &mut Value,
) -> Result<(), Stop>
    requires { All IsEnum enums.now }
    ensures { Leaves result value.new (read_field enums.now which field.now bytes.now) }
{
    match str::from_utf8(bytes) {
        Ok(text) => match default_for(field, bytes) {
            Some(default) => {
                value.copy_from(alloc, default)?;
                Ok(())
            }
            None => set_said(alloc, enums, which, field.kind, text, value),
        },
        Err(_) => Err(Stop::Cause(BadCause::Utf8(which))),
    }
}

/// Makes the value that of the field with the number `which`, whose column holds these bytes, over
/// the memory that it has. Bytes that say a number are ASCII, so they aren't tested for UTF-8.
/// After an `Err` the value may be any.
pub fn read_field(
    alloc: Global,
    enums: &[EnumPlan],
    which: u16,
    field: &FieldPlan,
    bytes: &[u8],
    value: &mut Value,
) -> Result<(), Stop>
    requires { All IsEnum enums.now }
    ensures { Leaves result value.new (read_field enums.now which field.now bytes.now) }
{
    match number_of(field.kind, bytes) {
        Some(number) => {
            value.set_num(number);
            Ok(())
        }
        None => read_text(alloc, enums, which, field, bytes, value),
    }
}
