//! Values put at a place of a list; those before it stay. The place is one of the list's, or the next
//! after them. A number or a word is written over the value at the place, in its memory.
ghost use Rattle.std.specs.Prelude.{◌≡◌, ◌≤◌, ◌+◌, ◌++◌, ◌∷◌, [], OnOk, length, take};

use std::alloc::Global;
use sym_base::{NoMemory, Text, Value, Values};

/// Puts a value at this place.
#[inline(never)]
pub(crate) fn put_at(values: &mut Values, index: usize, value: Value) -> Result<(), NoMemory>
    requires { index ≤ length values.old }
    ensures values { let before = take index values.old in
        OnOk result (take (index + 1) values.new ≡ before ++ value ∷ []) }
    ensures length { OnOk result (index + 1 ≤ length values.new) }
{
    if index < values.len() {
        values.set(index, value);
    } else {
        values.push(value)?;
    }
    Ok(())
}

/// Puts a number at this place, over the memory of the value there.
pub(crate) fn put_num(values: &mut Values, index: usize, number: i64) -> Result<(), NoMemory>
    requires { index ≤ length values.old }
    ensures values { let before = take index values.old in
        OnOk result (take (index + 1) values.new ≡ before ++ Value.Num number ∷ []) }
    ensures length { OnOk result (index + 1 ≤ length values.new) }
{
    match values.get_mut(index) {
        Some(value) => value.set_num(number),
        None => values.push(Value::Num(number))?,
    }
    Ok(())
}

/// Puts a word at this place, over that of the value there.
#[inline(never)]
pub(crate) fn put_word(
    alloc: Global,
    values: &mut Values,
    index: usize,
    word: &str,
) -> Result<(), NoMemory>
    requires { index ≤ length values.old }
    ensures values { let before = take index values.old in
        OnOk result (take (index + 1) values.new ≡ before ++ Value.Word word.now ∷ []) }
    ensures length { OnOk result (index + 1 ≤ length values.new) }
{
    match values.get_mut(index) {
        Some(value) => value.set_word(alloc, word)?,
        None => values.push(Value::Word(Text::from_str(alloc, word)?))?,
    }
    Ok(())
}

/// Puts a copy of a value at this place, over the memory of the value there.
pub(crate) fn put_copy(
    alloc: Global,
    values: &mut Values,
    index: usize,
    value: &Value,
) -> Result<(), NoMemory>
    requires { index ≤ length values.old }
    ensures values { let before = take index values.old in
        OnOk result (take (index + 1) values.new ≡ before ++ value.now ∷ []) }
    ensures length { OnOk result (index + 1 ≤ length values.new) }
{
    match values.get_mut(index) {
        Some(held) => held.copy_from(alloc, value)?,
        None => values.push(value.copy(alloc)?)?,
    }
    Ok(())
}
