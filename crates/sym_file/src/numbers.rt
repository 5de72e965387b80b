//! Reading texts and numbers. Each function gives what it read and the bytes after it.
ghost use Rattle.std.specs.Prelude.{◌≡◌, ◌<◌, ◌^◌, IfOk};
ghost use Rattle.std.specs.Option.{option_copied};
ghost use Rattle.sym_file.specs.Reading.{Gives, after, below_at, digits_at, int_at, nat_at, opposite_at, small_at, small_of};

use crate::saved_err::SavedErr;
use sym_base::NUM_MAX;

/// The most digits of a number: so many fit 127 bits.
const DIGITS_MAX: usize = 38;

/// The bytes after this text; `None` exactly where they don't begin with it. A text that is known
/// when this is compiled is compared without a loop.
#[inline(always)]
pub(crate) fn rest_after<'a>(text: &[u8], bytes: &'a [u8]) -> Option<&'a [u8]>
    ensures { option_copied result ≡ after text.now bytes.now }
{
    if bytes.len() < text.len() {
        return None;
    }
    let mut index = 0;
    'compared: while index < text.len() {
        if text[index] != bytes[index] {
            return None;
        }
        index += 1;
    }
    Some(&bytes[index..])
}

/// The bytes after this text, with which they have to begin.
#[inline(always)]
pub(crate) fn after<'a>(text: &[u8], bytes: &'a [u8]) -> Result<&'a [u8], SavedErr>
    ensures { Gives (λ rest. rest.now) result (after text.now bytes.now) }
{
    match rest_after(text, bytes) {
        Some(rest) => Ok(rest),
        None => Err(SavedErr::Malformed),
    }
}

/// A number that begins with this digit.
fn digits(first: u8, bytes: &[u8]) -> Result<(u128, &[u8]), SavedErr>
    requires { first < 10 }
    ensures read { Gives (λ x. (x.0, x.1.now)) result (digits_at 37 first bytes.now) }
    ensures below { IfOk result (λ x. x.0 < 10 ^ 38) }
{
    let mut number = first as u128;
    let mut index = 0;
    'digits: while index < bytes.len() && bytes[index].is_ascii_digit() {
        if index + 1 == DIGITS_MAX {
            return Err(SavedErr::Malformed);
        }
        number = 10 * number + (bytes[index] - b'0') as u128;
        index += 1;
    }
    Ok((number, &bytes[index..]))
}

/// A number without leading zeros.
#[tactic(auto, unfolding(crate::specs::Reading::nat_at))]
pub(crate) fn nat(bytes: &[u8]) -> Result<(u128, &[u8]), SavedErr>
    ensures read { Gives (λ x. (x.0, x.1.now)) result (nat_at bytes.now) }
    ensures below { IfOk result (λ x. x.0 < 10 ^ 38) }
{
    match bytes {
        [b'0', rest @ ..] => Ok((0, rest)),
        [first, rest @ ..] if first.is_ascii_digit() => digits(*first - b'0', rest),
        _ => Err(SavedErr::Malformed),
    }
}

/// A number after a `-`, which isn't 0.
fn negative(bytes: &[u8]) -> Result<(i128, &[u8]), SavedErr>
    ensures { Gives (λ x. (x.0, x.1.now)) result (opposite_at bytes.now) }
{
    let (number, rest) = nat(bytes)?;
    if number == 0 {
        return Err(SavedErr::Malformed);
    }
    Ok((-(number as i128), rest))
}

/// A number without leading zeros, or one that isn't 0 after a `-`.
#[tactic(auto, unfolding(crate::specs::Reading::int_at))]
pub(crate) fn int(bytes: &[u8]) -> Result<(i128, &[u8]), SavedErr>
    ensures { Gives (λ x. (x.0, x.1.now)) result (int_at bytes.now) }
{
    match bytes {
        [b'-', rest @ ..] => negative(rest),
        _ => {
            let (number, rest) = nat(bytes)?;
            Ok((number as i128, rest))
        }
    }
}

/// The number, where it is one of a script.
fn small_of(number: i128) -> Option<i64>
    ensures { result ≡ small_of number }
{
    if number.unsigned_abs() <= NUM_MAX.unsigned_abs() as u128 {
        Some(number as i64)
    } else {
        None
    }
}

/// A number of at most 10^12 in size.
#[tactic(auto, unfolding(crate::specs::Reading::small_at))]
pub(crate) fn small(bytes: &[u8]) -> Result<(i64, &[u8]), SavedErr>
    ensures { Gives (λ x. (x.0, x.1.now)) result (small_at bytes.now) }
{
    let (number, rest) = int(bytes)?;
    match small_of(number) {
        Some(number) => Ok((number, rest)),
        None => Err(SavedErr::Malformed),
    }
}

/// A number of 8 bits.
#[tactic(auto, unfolding(crate::specs::Reading::below_at))]
pub(crate) fn below_8(bytes: &[u8]) -> Result<(u8, &[u8]), SavedErr>
    ensures { Gives (λ x. (x.0, x.1.now)) result (below_at 256 bytes.now) }
{
    let (number, rest) = nat(bytes)?;
    if number < 1 << 8 {
        Ok((number as u8, rest))
    } else {
        Err(SavedErr::Malformed)
    }
}

/// A number of 16 bits.
#[tactic(auto, unfolding(crate::specs::Reading::below_at))]
pub(crate) fn below_16(bytes: &[u8]) -> Result<(u16, &[u8]), SavedErr>
    ensures { Gives (λ x. (x.0, x.1.now)) result (below_at (2 ^ 16) bytes.now) }
{
    let (number, rest) = nat(bytes)?;
    if number < 1 << 16 {
        Ok((number as u16, rest))
    } else {
        Err(SavedErr::Malformed)
    }
}

/// A number of 64 bits.
#[tactic(auto, unfolding(crate::specs::Reading::below_at))]
pub(crate) fn below_64(bytes: &[u8]) -> Result<(u64, &[u8]), SavedErr>
    ensures { Gives (λ x. (x.0, x.1.now)) result (below_at (2 ^ 64) bytes.now) }
{
    let (number, rest) = nat(bytes)?;
    if number < 1 << 64 {
        Ok((number as u64, rest))
    } else {
        Err(SavedErr::Malformed)
    }
}
