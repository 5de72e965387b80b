//! Records that are cut from one list of numbers and one list of values.
ghost use Rattle.std.specs.Prelude.{◌≡◌, ◌==◌, ◌<◌, ◌≤◌, ◌+◌, ◌*◌, ◌∷◌, ◌++◌, [], ℕ, List, Some, IfOk, OnOk, OnErr, length, map, take, drop, slice_get};
ghost use Rattle.sym_base.specs.declared.values.record.Record.{Record as OneRecord};
ghost use Rattle.sym_base.specs.declared.values.value.Value.{Value as OneValue};
ghost use Rattle.sym_run.specs.Keeping.{AreWide, with_empty, with_empty_in};

use std::alloc::Global;
use std::marker::Model;
use sym_base::{Fields, NoMemory, Record, Value};

/// Records in order: their numbers in one list and all of their values in another. Each has as many
/// values. A contract sees the list of the records.
pub(crate) struct Stored {
    /// How many values a record has.
    width: usize,
    /// The records' numbers.
    numbers: Vec<u64>,
    /// The values of the records, one record after the other. After a push that failed there may
    /// be some more.
    values: Vec<Value>,
}

// Written here so that the crates above don't prove it for each type inside.
impl Drop for Stored {
    fn drop(self) {
        let Stored {
            width: _,
            numbers: _numbers,
            values: _values,
        } = self;
    }
}

impl Model for Stored {
    ghost use Rattle.std.specs.Prelude.{List, ◌≤◌, ◌*◌, length};
    ghost use Rattle.std.specs.Coded.{coded_list};
    ghost use Rattle.sym_base.specs.declared.values.record.Record.{Record as OneRecord};
    ghost use Rattle.sym_base.specs.contracts.values.record.Record as one_record;
    ghost use Rattle.sym_run.specs.Keeping.{cut_records};

    ghost Value = { List OneRecord };

    ghost coded = { coded_list (one_record.the_row).coded };

    ghost view = { λ stored. cut_records stored.width stored.numbers.items stored.values.items };

    ghost invariant = { λ stored.
        length stored.numbers.items * stored.width ≤ length stored.values.items };
}

/// Puts copies of the values after those of a list. After an `Err` there may be some of them.
fn push_values(alloc: Global, values: &mut Vec<Value>, more: &[Value]) -> Result<(), NoMemory>
    ensures ok { OnOk result (values.new.items ≡ values.old.items ++ more.now) }
    ensures err { (some : List OneValue) × (values.new.items ≡ values.old.items ++ some) }
{
    'values: for value in more {
        values.push(value.copy(alloc)?)?;
    }
    Ok(())
}

/// Puts copies of two lists after the values of a list. After an `Err` there may be some of them.
fn push_pieces(
    alloc: Global,
    values: &mut Vec<Value>,
    first: &[Value],
    rest: &[Value],
) -> Result<(), NoMemory>
    ensures ok { OnOk result (values.new.items ≡ values.old.items ++ (first.now ++ rest.now)) }
    ensures err { (some : List OneValue) × (values.new.items ≡ values.old.items ++ some) }
{
    push_values(alloc, values, first)?;
    push_values(alloc, values, rest)
}

/// The values of the record at `index`, counted from 0, of which each has `width`.
fn values_at(values: &[Value], width: usize, index: usize) -> &[Value]
    requires { index * width + width ≤ length values.now }
    ensures { result.now ≡ take width (drop (index * width) values.now) }
{
    let start = index * width;
    &values[start..start + width]
}

/// A list of `count` values, without memory where it is so already.
fn make_room(alloc: Global, values: &mut Fields, count: usize) -> Result<(), NoMemory>
    ensures { OnOk result (length values.new ≡ count) }
{
    if values.len() == count {
        return Ok(());
    }
    let mut room = Vec::with_capacity(alloc, count)?;
    'room: for _place in 0..count {
        room.push(Value::Num(0))?;
    }
    *values = Fields::of(room);
    Ok(())
}

/// Makes the values of a list equal to those of another one, over the memory that they have.
fn copy_values(alloc: Global, from: &[Value], values: &mut Fields) -> Result<(), NoMemory>
    ensures { OnOk result (values.new ≡ from.now) }
{
    make_room(alloc, values, from.len())?;
    'values: for index in 0..from.len() {
        if let Some(value) = values.get_mut(index) {
            value.copy_from(alloc, &from[index])?;
        }
    }
    Ok(())
}

/// Makes a value that at `index` of a list of values and the empty word at `place` among them.
fn copy_beside(
    alloc: Global,
    from: &[Value],
    place: usize,
    index: usize,
    value: &mut Value,
) -> Result<(), NoMemory>
    requires place { place ≤ length from.now }
    requires index { index ≤ length from.now }
    ensures { OnOk result (slice_get (with_empty (Some place) from.now) index ≡ Some value.new) }
{
    if index == place {
        return value.set_word(alloc, "");
    }
    let before = if index < place { index } else { index - 1 };
    value.copy_from(alloc, &from[before])
}

/// Makes the values of a list equal to those of another one and the empty word at `place` among
/// them, over the memory that they have.
fn copy_around(
    alloc: Global,
    from: &[Value],
    place: usize,
    values: &mut Fields,
) -> Result<(), NoMemory>
    ensures { OnOk result (values.new ≡ with_empty (Some place) from.now) }
{
    let place = place.min(from.len());
    make_room(alloc, values, from.len() + 1)?;
    'values: for index in 0..from.len() + 1 {
        if let Some(value) = values.get_mut(index) {
            copy_beside(alloc, from, place, index, value)?;
        }
    }
    Ok(())
}

/// Makes the values of a list equal to those of another one, with the empty word among them at the
/// place if one is given, over the memory that they have.
fn copy_with(
    alloc: Global,
    from: &[Value],
    empty: Option<usize>,
    values: &mut Fields,
) -> Result<(), NoMemory>
    ensures { OnOk result (values.new ≡ with_empty empty from.now) }
{
    match empty {
        None => copy_values(alloc, from, values),
        Some(place) => copy_around(alloc, from, place, values),
    }
}

impl Stored {
    /// No records. It takes no memory.
    pub(crate) fn none(alloc: Global) -> Stored
        ensures { result ≡ [] }
    {
        Stored {
            width: 0,
            numbers: Vec::new(alloc),
            values: Vec::new(alloc),
        }
    }

    /// The number of records.
    pub(crate) fn len(&self) -> usize
        ensures { result ≡ length self.now }
    {
        self.numbers.len()
    }

    /// Stores a record after the others, which have as many values: its number, and its values in
    /// two pieces. After an `Err` the records are as before.
    pub(crate) fn push(
        &mut self,
        alloc: Global,
        no: u64,
        first: &[Value],
        rest: &[Value],
    ) -> Result<(), NoMemory>
        requires { AreWide (length first.now + length rest.now) self.old }
        ensures ok { let rec : OneRecord = record { no = no; fields = first.now ++ rest.now } in
            OnOk result (self.new ≡ self.old ++ rec ∷ []) }
        ensures err { OnErr result (self.new ≡ self.old) }
    {
        self.width = first.len() + rest.len();
        self.values.truncate(self.numbers.len() * self.width);
        push_pieces(alloc, &mut self.values, first, rest)?;
        self.numbers.push(no)?;
        Ok(())
    }

    /// Puts the records of another list after these. They are moved in one piece. After an `Err` the
    /// records are as before.
    pub(crate) fn append(&mut self, more: Stored) -> Result<(), NoMemory>
        requires { (count : ℕ) × AreWide count self.old × AreWide count more }
        ensures ok { OnOk result (self.new ≡ self.old ++ more) }
        ensures err { OnErr result (self.new ≡ self.old) }
    {
        if self.numbers.is_empty() {
            *self = more;
            return Ok(());
        }
        if more.numbers.is_empty() {
            return Ok(());
        }
        let Stored {
            width: _,
            numbers: mut others,
            values: mut next,
        } = more;
        let count = self.numbers.len();
        self.values.truncate(count * self.width);
        self.values.append(&mut next)?;
        self.numbers.append(&mut others)?;
        Ok(())
    }

    /// Makes `rec` the record at `index`, counted from 0, over the memory that it has, with the empty
    /// word more at `empty`. After an `Err` it is unspecified.
    pub(crate) fn read(
        &self,
        alloc: Global,
        index: usize,
        empty: Option<usize>,
        rec: &mut Record,
    ) -> Result<(), NoMemory>
        requires { index < length self.now }
        ensures { OnOk result
            (slice_get (map (with_empty_in empty) self.now) index ≡ Some rec.new) }
    {
        let values = values_at(self.values.as_slice(), self.width, index);
        copy_with(alloc, values, empty, &mut rec.fields)?;
        rec.no = self.numbers[index];
        Ok(())
    }

    /// Equal records of their own.
    pub(crate) fn copy(&self, alloc: Global) -> Result<Stored, NoMemory>
        ensures { IfOk result (λ stored. stored ≡ self.now) }
    {
        let mut values = Vec::with_capacity(alloc, self.values.len())?;
        push_values(alloc, &mut values, self.values.as_slice())?;
        Ok(Stored {
            width: self.width,
            numbers: Vec::from_slice(alloc, self.numbers.as_slice())?,
            values,
        })
    }
}
