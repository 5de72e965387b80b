//! Numbers among the arguments.
ghost use Rattle.std.specs.Prelude.{◌≡◌, ◌≤◌, IfSome, option_map};
ghost use Rattle.std.specs.Char.{is_ascii_digit};
ghost use Rattle.std.specs.List.{list_all};
ghost use Rattle.sym_command.specs.Numbers.{is_numeral as is_numeral_of, number_of, number_in_range, option_number};

/// The most digits of a number.
pub const DIGITS_MAX: usize = 10;

/// The numbers that a word may say, from the least to the most.
#[derive(Clone, Copy)]
pub struct NumberRange {
    pub least: u64,
    pub most: u64,
}

/// An option that takes a number: the numbers that it may say, and the one that stands if it isn't
/// given.
#[derive(Clone, Copy)]
pub struct NumberOption {
    pub default: u64,
    pub range: NumberRange,
}

fn are_digits(text: &str) -> bool
    ensures { result ≡ list_all is_ascii_digit text.now }
{
    text.as_bytes().iter().all(|byte| byte.is_ascii_digit())
}

fn is_numeral(text: &str) -> bool
    ensures { result ≡ is_numeral_of text.now }
{
    1 <= text.len() && text.len() <= DIGITS_MAX && are_digits(text)
}

fn read_number(text: &str) -> Option<u64>
    ensures { result ≡ number_of text.now }
{
    if !is_numeral(text) {
        return None;
    }
    match text.parse::<u64>() {
        Ok(number) => Some(number),
        Err(_) => None,
    }
}

/// The number that the text says, where it lies in the range.
pub fn number_within(text: &str, range: NumberRange) -> Option<u64>
    ensures read { result ≡ number_in_range range text.now }
    ensures least { IfSome result (λ number. range.least ≤ number) }
    ensures most { IfSome result (λ number. number ≤ range.most) }
{
    let number = read_number(text)?;
    if range.least <= number && number <= range.most {
        Some(number)
    } else {
        None
    }
}

/// The number of an option with this value, or its default if it isn't given.
pub fn number_or_default(text: Option<&str>, option: NumberOption) -> Option<u64>
    requires least { option.range.least ≤ option.default }
    requires most { option.default ≤ option.range.most }
    ensures read { result ≡ option_number option (option_map (λ text. text.now) text.entry) }
    ensures least { IfSome result (λ number. option.range.least ≤ number) }
    ensures most { IfSome result (λ number. number ≤ option.range.most) }
{
    match text {
        Some(text) => number_within(text, option.range),
        None => Some(option.default),
    }
}
