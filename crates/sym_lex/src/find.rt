//! Finding the token with which a text begins.
ghost use Rattle.std.specs.Prelude.{◌≡◌, ◌≤◌, length, false, true, IfOk, IfSome, option_map};
ghost use Rattle.std.specs.List.{list_all};
ghost use Rattle.std.specs.Char.{is_ascii_digit};
ghost use Rattle.sym_lex.specs.Lexing.{body_of, found_at, name_at, number_at, number_of, symbol_at, text_from, Answers};
ghost use Rattle.sym_lex.specs.Views.{body_view};

use crate::error::{LexErr, LexFault};
use crate::found::{Body, Found};
use crate::keyword::Keyword;
use crate::scan::{digits_size, is_escaped, is_name_start, name_size, starts_name};
use crate::symbol::Symbol;
use crate::token::TokenKind;
use std::alloc::Global;
use sym_base::{NAME_MAX, NUM_MAX, NoMemory, Text};

const NUMBER_MAX: u64 = NUM_MAX as u64;

/// The number that the digits write, unless it is larger than a script's numbers.
fn number_of(digits: &[u8]) -> Option<i64>
    requires { list_all is_ascii_digit digits.now ≡ true }
    ensures { result ≡ number_of digits.now }
{
    let mut number = 0;
    'digits: for digit in digits {
        number = number * 10 + u64::from(*digit - b'0');
        if number > NUMBER_MAX {
            return None;
        }
    }
    Some(number as i64)
}

fn find_name(text: &[u8], at: u32) -> Result<Found, LexFault>
    ensures { result ≡ name_at at text.now }
{
    let size = name_size(text);
    if size > NAME_MAX {
        return Err(LexFault::LongName { at });
    }
    let kind = match Keyword::of(&text[..size]) {
        Some(keyword) => TokenKind::Word(keyword),
        None => TokenKind::Name,
    };
    Ok(Found { kind, size })
}

fn find_number(text: &[u8], at: u32) -> Result<Found, LexFault>
    ensures { result ≡ number_at at text.now }
{
    let size = digits_size(text);
    let number = match number_of(&text[..size]) {
        Some(number) => number,
        None => return Err(LexFault::BadNumber { at }),
    };
    if starts_name(&text[size..]) {
        return Err(LexFault::BadNumber { at });
    }
    Ok(Found {
        kind: TokenKind::Number(number),
        size,
    })
}

fn find_symbol(text: &[u8], at: u32) -> Result<Found, LexFault>
    ensures { result ≡ symbol_at at text.now }
{
    match Symbol::of(text) {
        Some(symbol) => Ok(Found {
            kind: TokenKind::Sign(symbol),
            size: symbol.text().len(),
        }),
        None => Err(LexFault::BadByte { at }),
    }
}

/// Reads from after an opening quote to the closing one, and decodes what stands between them.
/// `None` where the line or the text ends before the closing quote, or where there is another
/// escape.
fn read_body(alloc: Global, bytes: &[u8]) -> Result<Option<Body>, NoMemory>
    ensures read { IfOk result (λ o. option_map body_view o ≡ body_of false bytes.now) }
    ensures within { IfOk result (λ o. IfSome o (λ b. b.size ≤ length bytes.now)) }
{
    let mut text = Vec::new(alloc);
    let mut size = 0;
    let mut after_backslash = false;
    'body: for byte in bytes {
        size += 1;
        if after_backslash {
            if !is_escaped(*byte) {
                return Ok(None);
            }
            after_backslash = false;
        } else if *byte == b'"' {
            return Ok(Some(Body { text, size }));
        } else if *byte == b'\n' {
            return Ok(None);
        } else if *byte == b'\\' {
            after_backslash = true;
            continue;
        }
        text.push(*byte)?;
    }
    Ok(None)
}

/// The text between quotes whose opening quote stands at `at`, before `rest`.
fn find_text(alloc: Global, rest: &[u8], at: u32) -> Result<Found, LexErr>
    ensures { Answers (λ f. f) result (text_from at (body_of false rest.now)) }
{
    let Body { text, size } = match read_body(alloc, rest)? {
        Some(body) => body,
        None => return Err(LexErr::Fault(LexFault::BadText { at })),
    };
    match String::from_utf8(text) {
        Ok(text) => Ok(Found {
            kind: TokenKind::Str(Text::of(text)),
            size: 1 + size,
        }),
        Err(_) => Err(LexErr::Fault(LexFault::BadText { at })),
    }
}

/// The token with which the text begins, which stands at `at`.
pub fn find_token(alloc: Global, text: &[u8], at: u32) -> Result<Found, LexErr>
    ensures { Answers (λ f. f) result (found_at at text.now) }
{
    let found = match text {
        [] => Err(LexFault::BadByte { at }),
        [b'"', rest @ ..] => return find_text(alloc, rest, at),
        [first, ..] => {
            if is_name_start(*first) {
                find_name(text, at)
            } else if first.is_ascii_digit() {
                find_number(text, at)
            } else {
                find_symbol(text, at)
            }
        }
    };
    match found {
        Ok(found) => Ok(found),
        Err(fault) => Err(LexErr::Fault(fault)),
    }
}
