//! Reading words and values.
ghost use Rattle.sym_file.specs.Reading.{Gives, apart, counted_at, value_at, values_at, word_at};

use crate::numbers::{after, below_8, nat, small};
use crate::saved_err::SavedErr;
use std::alloc::Global;
use std::str;
use sym_base::{Text, Value, Values};

/// Text after its number of bytes.
#[tactic(auto, unfolding(crate::specs::Reading::counted_at))]
fn counted(alloc: Global, bytes: &[u8]) -> Result<(Text, &[u8]), SavedErr>
    ensures { Gives (λ x. (x.0, x.1.now)) result (counted_at bytes.now) }
{
    let (count, rest) = nat(bytes)?;
    let rest = after(b":", rest)?;
    if (rest.len() as u128) < count {
        return Err(SavedErr::Malformed);
    }
    let (text, rest) = rest.split_at(count as usize);
    match str::from_utf8(text) {
        Ok(text) => Ok((Text::from_str(alloc, text)?, rest)),
        Err(_) => Err(SavedErr::Malformed),
    }
}

/// A word.
#[tactic(auto, unfolding(crate::specs::Reading::word_at))]
pub(crate) fn word(alloc: Global, bytes: &[u8]) -> Result<(Text, &[u8]), SavedErr>
    ensures { Gives (λ x. (x.0, x.1.now)) result (word_at bytes.now) }
{
    let rest = after(b"w", bytes)?;
    counted(alloc, rest)
}

/// A value.
#[tactic(auto, unfolding(crate::specs::Reading::value_at))]
fn value(alloc: Global, bytes: &[u8]) -> Result<(Value, &[u8]), SavedErr>
    ensures { Gives (λ x. (x.0, x.1.now)) result (value_at bytes.now) }
{
    match bytes {
        [b'n', rest @ ..] => {
            let (number, rest) = small(rest)?;
            Ok((Value::Num(number), rest))
        }
        [b'l', rest @ ..] => {
            let (label, rest) = below_8(rest)?;
            Ok((Value::Label(label), rest))
        }
        [b'w', rest @ ..] => {
            let (word, rest) = counted(alloc, rest)?;
            Ok((Value::Word(word), rest))
        }
        _ => Err(SavedErr::Malformed),
    }
}

/// A value after a space.
fn next_value(alloc: Global, bytes: &[u8]) -> Result<(Value, &[u8]), SavedErr>
    ensures { Gives (λ x. (x.0, x.1.now)) result (apart value_at bytes.now) }
{
    let rest = after(b" ", bytes)?;
    value(alloc, rest)
}

/// So many values, each after a space.
pub(crate) fn values(alloc: Global, count: usize, bytes: &[u8]) -> Result<(Values, &[u8]), SavedErr>
    ensures { Gives (λ x. (x.0, x.1.now)) result (values_at count bytes.now) }
{
    let mut values = Values::new(alloc);
    let mut rest = bytes;
    'values: for _ in 0..count {
        let (value, after) = next_value(alloc, rest)?;
        values.push(value)?;
        rest = after;
    }
    Ok((values, rest))
}
