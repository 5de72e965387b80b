//! Bytes of a script's text, and how far runs of them reach.
ghost use Rattle.std.specs.Prelude.{◌≡◌, ◌≤◌, length};
ghost use Rattle.std.specs.List.{prefix_len};
ghost use Rattle.std.specs.Char.{is_ascii_digit};
ghost use Rattle.sym_base.specs.Names.{is_name_part, is_name_start, starts_name};
ghost use Rattle.sym_lex.specs.Letters.{is_blank, is_escaped, is_in_line};
ghost use Rattle.sym_lex.specs.Lexing.{gap_size};

fn is_blank(byte: u8) -> bool
    ensures { result ≡ is_blank byte }
{
    byte == b' ' || byte == b'\t' || byte == b'\r' || byte == b'\n'
}

pub fn is_name_start(byte: u8) -> bool
    ensures { result ≡ is_name_start byte }
{
    byte.is_ascii_alphabetic() || byte == b'_'
}

fn is_name_part(byte: u8) -> bool
    ensures { result ≡ is_name_part byte }
{
    byte.is_ascii_alphabetic() || byte == b'_' || byte.is_ascii_digit()
}

/// Whether this byte is written only after a `\` between quotes.
pub fn is_escaped(byte: u8) -> bool
    ensures { result ≡ is_escaped byte }
{
    byte == b'"' || byte == b'\\'
}

pub fn starts_name(text: &[u8]) -> bool
    ensures { result ≡ starts_name text.now }
{
    match text {
        [] => false,
        [first, ..] => is_name_start(*first),
    }
}

pub fn name_size(text: &[u8]) -> usize
    ensures size { result ≡ prefix_len is_name_part text.now }
    ensures within { result ≤ length text.now }
{
    text.iter().take_while(|byte| is_name_part(**byte)).count()
}

pub fn digits_size(text: &[u8]) -> usize
    ensures size { result ≡ prefix_len is_ascii_digit text.now }
    ensures within { result ≤ length text.now }
{
    text.iter().take_while(|byte| byte.is_ascii_digit()).count()
}

fn comment_size(text: &[u8]) -> usize
    ensures size { result ≡ prefix_len is_in_line text.now }
    ensures within { result ≤ length text.now }
{
    text.iter().take_while(|byte| **byte != b'\n').count()
}

/// The bytes of the blank or of the comment with which the text begins.
pub fn gap_size(text: &[u8]) -> usize
    ensures gap { result ≡ gap_size text.now }
    ensures within { result ≤ length text.now }
{
    match text {
        [] => 0,
        [first, rest @ ..] => {
            if is_blank(*first) {
                1
            } else if *first == b'#' {
                1 + comment_size(rest)
            } else {
                0
            }
        }
    }
}
