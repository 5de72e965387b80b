//! Numbers of records.
ghost use Rattle.std.specs.Prelude.{◌≡◌, pos, neg_ℤ, option_map, IfSome};
ghost use Rattle.std.specs.Char.{is_ascii_digit};
ghost use Rattle.sym_base.specs.Limits.{IsNumber};
ghost use Rattle.sym_table.specs.Texts.{digits_number, number_in};

use sym_base::NUM_MAX;

const NUMBER_MAX: u64 = NUM_MAX as u64;

// The number that the digits write, unless it is larger than the numbers of records.
fn digits_number(digits: &[u8]) -> Option<i64>
    ensures value { result ≡ option_map pos (digits_number digits.now) }
    ensures small { IfSome result IsNumber }
{
    if digits.is_empty() {
        return None;
    }
    let mut number = 0;
    'digits: for digit in digits {
        if !digit.is_ascii_digit() {
            return None;
        }
        number = number * 10 + u64::from(*digit - b'0');
        if number > NUMBER_MAX {
            return None;
        }
    }
    Some(number as i64)
}

fn negative(number: i64) -> i64
    requires { IsNumber number }
    ensures { result ≡ neg_ℤ number }
{
    -number
}

/// The number that the text says: digits after an optional sign.
pub fn number_in(text: &[u8]) -> Option<i64>
    ensures { result ≡ number_in text.now }
{
    match text {
        [] => None,
        [b'-', digits @ ..] => match digits_number(digits) {
            Some(number) => Some(negative(number)),
            None => None,
        },
        [b'+', digits @ ..] => digits_number(digits),
        _ => digits_number(text),
    }
}
