//! The columns of a script's fields.
ghost use Rattle.std.specs.Prelude.{◌≡◌, ◌<◌, ◌≤◌, ◌+◌, ◌^◌, [], nat_eq, IfOk, IfSome, drop, length, slice_index_or};
ghost use Rattle.std.specs.Cmp.Lexicographic.{pointwise};
ghost use Rattle.std.specs.List.{All};
ghost use Rattle.sym_base.specs.Limits.{max_fields};
ghost use Rattle.sym_table.specs.Cutting.{Locates};
ghost use Rattle.sym_table.specs.Headers.{column_from, column_of, columns_of};

use crate::header::{HeadErr, HeadFault, Places};
use crate::row::Row;
use std::alloc::Global;
use sym_check::FieldPlan;

fn has_text(row: &Row, at: usize, text: &[u8]) -> bool
    requires { at < length row.now }
    ensures { result ≡ pointwise nat_eq (slice_index_or row.now at []) text.now }
{
    match row.get(at) {
        Some(bytes) => bytes == text,
        None => false,
    }
}

// The first column from `start` on that has the text.
fn column_from(row: &Row, start: usize, text: &[u8]) -> Option<usize>
    ensures found { result ≡ column_from start (drop start row.now) text.now }
    ensures within { IfSome result (λ place. place < length row.now) }
    ensures next { IfSome result (λ place. place + 1 < 2 ^ 64) }
{
    'columns: for at in start..row.len() {
        if has_text(row, at, text) {
            return Some(at);
        }
    }
    None
}

// The column of the field with the number `which`.
fn column_of(row: &Row, text: &[u8], which: u16) -> Result<u64, HeadFault>
    ensures found { result ≡ column_of row.now text.now which }
    ensures within { IfOk result (λ place. place < length row.now) }
{
    match column_from(row, 0, text) {
        Some(place) => match column_from(row, place + 1, text) {
            Some(_) => Err(HeadFault::Twice { which }),
            None => Ok(place as u64),
        },
        None => Err(HeadFault::NoField { which }),
    }
}

/// The column of each field, by the header row.
pub fn columns_of(alloc: Global, row: &Row, fields: &[FieldPlan]) -> Result<Places, HeadErr>
    requires { length fields.now ≤ max_fields }
    ensures found { Locates result (columns_of row.now 0 fields.now) }
    ensures count { IfOk result (λ places. length places ≡ length fields.now) }
    ensures within { IfOk result (λ places. All (λ place. place < length row.now) places) }
{
    let mut places = Places::new(alloc);
    'fields: for (which, field) in fields.iter().enumerate() {
        match column_of(row, field.header.as_bytes(), which as u16) {
            Ok(place) => places.push(place)?,
            Err(fault) => return Err(HeadErr::Fault(fault)),
        }
    }
    Ok(places)
}
