//! Values whose words lie in one text.
ghost use Rattle.std.specs.Prelude.{◌≡◌, ◌++◌, ◌∷◌, [], IfOk, OnOk, length, slice_index_or};
ghost use Rattle.csv.specs.Records.{fields_of};
ghost use Rattle.sym_shuffle.specs.Packing.{IsThere, unpacked_one, words_of};

use csv::StringRecord;
use std::alloc::Global;
use std::marker::Model;
use sym_base::{NoMemory, Value};

/// A value, of which a word stands elsewhere.
#[derive(Clone, Copy)]
pub(crate) enum Packed {
    Num(i64),
    /// The index of a word among the words.
    Word(usize),
    Label(u8),
}

/// A list of values. Their words lie in one text, so that none takes memory of its own. A contract
/// sees the list of the values.
pub(crate) struct PackedValues {
    items: Vec<Packed>,
    words: StringRecord,
}

impl Model for PackedValues {
    ghost use Rattle.std.specs.Prelude.{List};
    ghost use Rattle.csv.specs.Records.{fields_of};
    ghost use Rattle.sym_base.specs.declared.values.value.Value.{Value as OneValue};
    ghost use Rattle.sym_shuffle.specs.Packing.{AreThere, unpacked};

    ghost Value = { List OneValue };

    ghost view = { λ v. unpacked (fields_of v.words) v.items.items };

    ghost invariant = { λ v. AreThere (fields_of v.words) v.items.items };
}

// Written here so that what owns one doesn't prove it again.
impl Drop for PackedValues {
    fn drop(self) {
        let PackedValues {
            items: _items,
            words: _words,
        } = self;
    }
}

// A copy of a value, of which a word goes last among the words. After an `Err` these are
// unspecified.
fn packed_of(words: &mut StringRecord, value: &Value) -> Result<Packed, NoMemory>
    ensures value { IfOk result (λ packed.
        unpacked_one (fields_of words.new) packed ≡ value.now) }
    ensures is_there { IfOk result (IsThere (fields_of words.new)) }
    ensures words { OnOk result
        (fields_of words.new ≡ fields_of words.old ++ words_of value.now) }
{
    match value {
        Value::Num(number) => Ok(Packed::Num(*number)),
        Value::Word(word) => {
            let index = words.len();
            words.push_field(word.as_str())?;
            Ok(Packed::Word(index))
        }
        Value::Label(label) => Ok(Packed::Label(*label)),
    }
}

impl PackedValues {
    /// No values, and room for so many.
    pub(crate) fn with_room(alloc: Global, count: usize) -> Result<PackedValues, NoMemory>
        ensures { IfOk result (λ v. v ≡ []) }
    {
        Ok(PackedValues {
            items: Vec::with_capacity(alloc, count)?,
            words: StringRecord::new(alloc),
        })
    }

    /// The number of values.
    pub(crate) fn len(&self) -> usize
        ensures { result ≡ length self.now }
    {
        self.items.len()
    }

    /// Puts a copy of a value last. After an `Err` the list is as before or empty.
    pub(crate) fn push(&mut self, value: &Value) -> Result<(), NoMemory>
        ensures { OnOk result (self.new ≡ self.old ++ value.now ∷ []) }
    {
        match packed_of(&mut self.words, value) {
            Ok(packed) => {
                self.items.push(packed)?;
                Ok(())
            }
            Err(none) => {
                self.items.clear();
                Err(none)
            }
        }
    }

    /// Makes a value equal to the one at `index`, over the memory that it has. Where there are at
    /// most `index` values, it stays. After an `Err` it is unspecified.
    pub(crate) fn copy_to(
        &self,
        alloc: Global,
        index: usize,
        value: &mut Value,
    ) -> Result<(), NoMemory>
        ensures { OnOk result (value.new ≡ slice_index_or self.now index value.old) }
    {
        match self.items.get(index) {
            Some(Packed::Num(number)) => {
                value.set_num(*number);
                Ok(())
            }
            Some(Packed::Word(at)) => {
                let word = self.words.get(*at).unwrap_or("");
                value.set_word(alloc, word)
            }
            Some(Packed::Label(label)) => {
                *value = Value::Label(*label);
                Ok(())
            }
            None => Ok(()),
        }
    }
}
