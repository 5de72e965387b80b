//! Rows as records.
ghost use Rattle.std.specs.Prelude.{◌≡◌, ◌<◌, IfOk, IfNone, OnOk, length, slice_index_or};
ghost use Rattle.sym_check.specs.Checking.CheckedScripts.{checked_plan};
ghost use Rattle.sym_check.specs.Meaning.Validity.{IsRecord};
ghost use Rattle.sym_table.specs.Decoding.{IfRecord, Leaves, Fills, numbered};
ghost use Rattle.sym_table.specs.Rows.{KeepsLimits, FitsHeader, column, read_fields, read_row};

use crate::bad::{Bad, BadCause, Decoded};
use crate::field_values::field::read_field;
use crate::field_values::stop::Stop;
use crate::header::Header;
use crate::row::RowView;
use std::alloc::Global;
use sym_base::{Fields, NoMemory, Record, Value};
use sym_check::{Checked, Plan};

// The bytes of the field with the number `which`.
fn column<'a>(header: &Header, row: &RowView<'a>, which: usize) -> &'a [u8]
    requires { which < length header.now.places }
    ensures { result.now ≡ column row.now (slice_index_or header.now.places which 0) }
{
    match header.places.get(which) {
        Some(place) => match row.get(*place as usize) {
            Some(bytes) => bytes,
            None => &[],
        },
        None => &[],
    }
}

// Makes the list one of `count` values, without memory where it is so already.
fn make_room(alloc: Global, values: &mut Fields, count: usize) -> Result<(), NoMemory>
    ensures { OnOk result (length values.new ≡ count) }
{
    if values.len() == count {
        return Ok(());
    }
    let mut room = Vec::with_capacity(alloc, count)?;
    'room: for _place in 0..count {
        room.push(Value::Num(0))?;
    }
    *values = Fields::of(room);
    Ok(())
}

// Reads the fields, each over the memory of the value that stands in its place.
fn read_fields(
    alloc: Global,
    plan: &Plan,
    header: &Header,
    row: &RowView<'_>,
    values: &mut Fields,
) -> Result<(), Stop>
    requires limits { KeepsLimits plan.now.enums plan.now.fields }
    requires places { length header.now.places ≡ length plan.now.fields }
    requires room { length values.old ≡ length plan.now.fields }
    ensures { let enums = plan.now.enums in
        let read = read_fields enums row.now 0 plan.now.fields header.now.places in
        Leaves result values.new read }
{
    'fields: for (which, field) in plan.fields.as_slice().iter().enumerate() {
        let bytes = column(header, row, which);
        let enums = plan.enums.as_slice();
        if let Some(value) = values.get_mut(which) {
            read_field(alloc, enums, which as u16, field, bytes, value)?;
        }
    }
    Ok(())
}

// Decodes a row by the plan of a script, over the memory of a record.
fn decode_by(
    alloc: Global,
    plan: &Plan,
    header: &Header,
    row: &RowView<'_>,
    no: u64,
    into: &mut Record,
) -> Result<Option<Bad>, NoMemory>
    requires limits { KeepsLimits plan.now.enums plan.now.fields }
    requires header { FitsHeader plan.now.fields header.now }
    ensures { let read = read_row plan.now.enums plan.now.fields header.now row.now in
        IfOk result (λ bad. Fills bad into.new (numbered no read)) }
{
    let width = row.len() as u64;
    if width != header.columns {
        let cause = BadCause::Fields(width);
        return Ok(Some(Bad { no, cause }));
    }
    into.no = no;
    make_room(alloc, &mut into.fields, plan.fields.len())?;
    match read_fields(alloc, plan, header, row, &mut into.fields) {
        Ok(()) => Ok(None),
        Err(Stop::Cause(cause)) => Ok(Some(Bad { no, cause })),
        Err(Stop::NoMemory) => Err(NoMemory),
    }
}

/// Decodes a row: the record with the number `no`, or the first rule that the row breaks. The
/// fields' values are made over the memory of those that `into` has. After an `Err`, and where the
/// row isn't a record, `into` may be any record.
pub fn decode_into(
    alloc: Global,
    checked: &Checked,
    header: &Header,
    row: &RowView<'_>,
    no: u64,
    into: &mut Record,
) -> Result<Option<Bad>, NoMemory>
    requires { FitsHeader (checked_plan checked.now).fields header.now }
    ensures read { let p = checked_plan checked.now in
        let read = read_row p.enums p.fields header.now row.now in
        IfOk result (λ bad. Fills bad into.new (numbered no read)) }
    ensures fits { let p = checked_plan checked.now in
        IfOk result (λ bad. IfNone bad (IsRecord p into.new)) }
{
    decode_by(alloc, checked.plan(), header, row, no, into)
}

/// Decodes a row: the record with the number `no`, or the first rule that the row breaks. For
/// callers who keep the record: the program decodes over one record, by `decode_into`.
pub fn decode(
    alloc: Global,
    checked: &Checked,
    header: &Header,
    row: &RowView<'_>,
    no: u64,
) -> Result<Decoded, NoMemory>
    requires { FitsHeader (checked_plan checked.now).fields header.now }
    ensures read { let p = checked_plan checked.now in
        let read = read_row p.enums p.fields header.now row.now in
        IfOk result (λ d. d ≡ numbered no read) }
    ensures fits { IfOk result (λ d. IfRecord d (IsRecord (checked_plan checked.now))) }
{
    let mut found = Record {
        no,
        fields: Fields::new(alloc),
    };
    match decode_into(alloc, checked, header, row, no, &mut found)? {
        Some(bad) => Ok(Decoded::Bad(bad)),
        None => Ok(Decoded::Is(found)),
    }
}
