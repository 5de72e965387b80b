//! Records of one group that are kept: no segment covers them yet.
ghost use Rattle.std.specs.Prelude.{◌≡◌, ◌==◌, ◌<◌, ◌∷◌, ◌++◌, ◌+◌, [], ℕ, IsTrue, Some, IfOk, OnOk, OnErr, length, map, take, drop, slice_get};
ghost use Rattle.sym_base.specs.declared.values.value.Value.TheVariants.{Word};
ghost use Rattle.sym_run.specs.Keeping.{AreAsWide, AreWide, HasEmpty, with_empty_in};

use crate::stored::Stored;
use std::alloc::Global;
use std::marker::Model;
use sym_base::{Fields, NoMemory, Record, Value};

/// Records of one group, in order. A field in which all of them have the empty word isn't stored.
/// A contract sees the list of the records.
pub(crate) struct Kept {
    /// The field that isn't stored, if there is one.
    empty: Option<usize>,
    /// The records without it.
    stored: Stored,
}

// Written here so that the crates above don't prove it for each type inside.
impl Drop for Kept {
    fn drop(self) {
        let Kept {
            empty: _,
            stored: _stored,
        } = self;
    }
}

impl Model for Kept {
    ghost use Rattle.std.specs.Prelude.{List, map};
    ghost use Rattle.std.specs.Coded.{coded_list};
    ghost use Rattle.sym_base.specs.declared.values.record.Record.{Record as OneRecord};
    ghost use Rattle.sym_base.specs.contracts.values.record.Record as one_record;
    ghost use Rattle.sym_run.specs.Keeping.{with_empty_in};

    ghost Value = { List OneRecord };

    ghost coded = { coded_list (one_record.the_row).coded };

    ghost view = { λ kept. map (with_empty_in kept.empty) kept.stored };
}

/// Whether a value is the empty word.
fn is_empty_word(value: &Value) -> bool
    ensures { IsTrue result → value.now ≡ Word [] }
{
    match value {
        Value::Word(text) => text.as_str().is_empty(),
        Value::Num(_) | Value::Label(_) => false,
    }
}

/// Whether there is the empty word at this place; true where no place is given.
fn has_empty(values: &Fields, place: Option<usize>) -> bool
    ensures { IsTrue result → HasEmpty place values.now }
{
    match place {
        None => true,
        Some(index) => match values.get(index) {
            Some(value) => is_empty_word(value),
            None => false,
        },
    }
}

/// The first place with the empty word, if there is one.
fn first_empty(values: &[Value]) -> Option<usize>
    ensures { HasEmpty result values.now }
{
    'values: for index in 0..values.len() {
        if is_empty_word(&values[index]) {
            return Some(index);
        }
    }
    None
}

/// The values before a place and after it.
fn beside(values: &[Value], place: usize) -> (&[Value], &[Value])
    requires { place < length values.now }
    ensures first { result.0.now ≡ take place values.now }
    ensures rest { result.1.now ≡ drop (place + 1) values.now }
{
    (&values[..place], &values[place + 1..])
}

/// Stored records with the field that isn't stored.
fn whole(alloc: Global, empty: Option<usize>, stored: &Stored) -> Result<Stored, NoMemory>
    requires { (count : ℕ) × AreWide count (map (with_empty_in empty) stored.now) }
    ensures { IfOk result (λ whole. whole ≡ map (with_empty_in empty) stored.now) }
{
    let mut rec = Record {
        no: 0,
        fields: Fields::new(alloc),
    };
    let mut whole = Stored::none(alloc);
    'records: for index in 0..stored.len() {
        stored.read(alloc, index, empty, &mut rec)?;
        whole.push(alloc, rec.no, rec.fields.as_slice(), &[])?;
    }
    Ok(whole)
}

/// Makes the field that isn't stored one that has the empty word in these values too. The records
/// are the same.
fn prepare(
    alloc: Global,
    empty: &mut Option<usize>,
    stored: &mut Stored,
    values: &Fields,
) -> Result<(), NoMemory>
    requires { (count : ℕ) × AreWide count (map (with_empty_in empty.old) stored.old) }
    ensures same { map (with_empty_in empty.new) stored.new
        ≡ map (with_empty_in empty.old) stored.old }
    ensures there { OnOk result (HasEmpty empty.new values.now) }
{
    if stored.len() == 0 {
        *empty = first_empty(values.as_slice());
    } else if !has_empty(values, *empty) {
        *stored = whole(alloc, *empty, stored)?;
        *empty = None;
    }
    Ok(())
}

impl Kept {
    /// No records. It takes no memory.
    pub(crate) fn none(alloc: Global) -> Kept
        ensures { result ≡ [] }
    {
        Kept {
            empty: None,
            stored: Stored::none(alloc),
        }
    }

    /// The number of records.
    pub(crate) fn len(&self) -> usize
        ensures { result ≡ length self.now }
    {
        self.stored.len()
    }

    /// Whether there are none.
    pub(crate) fn is_empty(&self) -> bool
        ensures { result ≡ (length self.now == 0) }
    {
        self.len() == 0
    }

    /// Keeps a record after the others, which have as many values. After an `Err` the records are
    /// as before.
    pub(crate) fn push(&mut self, alloc: Global, rec: &Record) -> Result<(), NoMemory>
        requires { AreAsWide rec.now self.old }
        ensures ok { OnOk result (self.new ≡ self.old ++ rec.now ∷ []) }
        ensures err { OnErr result (self.new ≡ self.old) }
    {
        prepare(alloc, &mut self.empty, &mut self.stored, &rec.fields)?;
        let values = rec.fields.as_slice();
        match self.empty {
            None => self.stored.push(alloc, rec.no, values, &[]),
            Some(place) => {
                let (first, rest) = beside(values, place);
                self.stored.push(alloc, rec.no, first, rest)
            }
        }
    }

    /// Puts the records of another list after these. Where both leave out the same field, they are
    /// moved in one piece. After an `Err` the records are as before.
    pub(crate) fn append(&mut self, alloc: Global, more: Kept) -> Result<(), NoMemory>
        requires { (count : ℕ) × AreWide count self.old × AreWide count more }
        ensures ok { OnOk result (self.new ≡ self.old ++ more) }
        ensures err { OnErr result (self.new ≡ self.old) }
    {
        if self.is_empty() {
            *self = more;
            return Ok(());
        }
        let Kept {
            empty,
            stored: next,
        } = more;
        if self.empty == empty {
            return self.stored.append(next);
        }
        let mut all = whole(alloc, self.empty, &self.stored)?;
        all.append(whole(alloc, empty, &next)?)?;
        self.stored = all;
        self.empty = None;
        Ok(())
    }

    /// Makes `rec` the record at `index`, counted from 0, over the memory that it has. After an
    /// `Err` it is unspecified.
    pub(crate) fn read(&self, alloc: Global, index: usize, rec: &mut Record) -> Result<(), NoMemory>
        requires { index < length self.now }
        ensures { OnOk result (slice_get self.now index ≡ Some rec.new) }
    {
        self.stored.read(alloc, index, self.empty, rec)
    }

    /// Equal records of their own.
    pub(crate) fn copy(&self, alloc: Global) -> Result<Kept, NoMemory>
        ensures { IfOk result (λ kept. kept ≡ self.now) }
    {
        Ok(Kept {
            empty: self.empty,
            stored: self.stored.copy(alloc)?,
        })
    }
}
