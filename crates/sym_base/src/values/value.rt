//! Numbers, words and labels, which are what records and states hold.
ghost use Rattle.std.specs.Prelude.{◌≡◌, ◌⊎◌, [], IfOk, OnOk, OnErr};

use crate::values::memory::NoMemory;
use crate::values::sequence::{Plain, Sequence};
use crate::values::small_list::SmallList;
use crate::values::text::Text;
use std::alloc::Global;

/// A value of a field, of a part of a hold cell, or of an argument of a test. Values stand in
/// the order numbers by size, words by bytes, labels by number.
#[derive(Debug, PartialEq, Eq, PartialOrd, Ord, Hash)]
pub enum Value {
    /// A whole number in `-NUM_MAX` to `NUM_MAX`.
    Num(i64),
    /// A text.
    Word(Text),
    /// The number of a label of its enum, counted from 0.
    Label(u8),
}

impl Drop for Value {
    fn drop(self) {
        match self {
            Value::Num(_) => {}
            Value::Word(_held) => {}
            Value::Label(_) => {}
        }
    }
}

/// A list of values. One value alone, as most keys, arguments and hold cells have, lies inline.
pub type Values = SmallList<Value>;

/// The values of a record's fields, of which most records have several.
pub type Fields = Sequence<Value>;

/// The elements of a `nums` cell.
pub type Nums = Sequence<i64>;

/// What tells one group of records from another.
#[derive(PartialEq, Eq, Hash)]
pub struct Key {
    /// The values of the fields of the group line, in the line's order; none without a group line.
    pub values: Values,
}

impl Drop for Key {
    fn drop(self) {
        let Key { values: _values } = self;
    }
}

impl Value {
    /// An equal value of its own.
    pub fn copy(&self, alloc: Global) -> Result<Value, NoMemory>
        ensures { IfOk result (λ v. v ≡ self.now) }
    {
        match self {
            Value::Num(number) => Ok(Value::Num(*number)),
            Value::Word(text) => Ok(Value::Word(text.copy(alloc)?)),
            Value::Label(label) => Ok(Value::Label(*label)),
        }
    }
}

impl Value {
    /// Makes this a number, where it lies.
    pub fn set_num(&mut self, number: i64)
        ensures { self.new ≡ Value.Num number }
    {
        match self {
            Value::Num(held) => *held = number,
            Value::Word(_) | Value::Label(_) => *self = Value::Num(number),
        }
    }

    /// Makes this a word with these bytes, over the memory that it has. After an `Err` it is as
    /// before or an empty word.
    pub fn set_word(&mut self, alloc: Global, word: &str) -> Result<(), NoMemory>
        ensures ok { OnOk result (self.new ≡ Value.Word word.now) }
        ensures err { OnErr result ((self.new ≡ self.old) ⊎ (self.new ≡ Value.Word [])) }
    {
        match self {
            Value::Word(held) => held.set(word),
            Value::Num(_) | Value::Label(_) => {
                *self = Value::Word(Text::from_str(alloc, word)?);
                Ok(())
            }
        }
    }

    /// Makes this equal to `other`, over the memory that it has. After an `Err` it is as before or
    /// an empty word.
    pub fn copy_from(&mut self, alloc: Global, other: &Value) -> Result<(), NoMemory>
        ensures ok { OnOk result (self.new ≡ other.now) }
        ensures err { OnErr result ((self.new ≡ self.old) ⊎ (self.new ≡ Value.Word [])) }
    {
        match other {
            Value::Num(number) => {
                self.set_num(*number);
                Ok(())
            }
            Value::Word(word) => self.set_word(alloc, word.as_str()),
            Value::Label(label) => {
                *self = Value::Label(*label);
                Ok(())
            }
        }
    }
}

impl Plain for Value {
    fn copied(&self, alloc: Global) -> Result<Value, NoMemory> {
        self.copy(alloc)
    }
}

impl Key {
    /// An equal key of its own.
    pub fn copy(&self, alloc: Global) -> Result<Key, NoMemory>
        ensures { IfOk result (λ k. k ≡ self.now) }
    {
        Ok(Key {
            values: self.values.copy(alloc)?,
        })
    }
}

impl Plain for Key {
    fn copied(&self, alloc: Global) -> Result<Key, NoMemory> {
        self.copy(alloc)
    }
}
