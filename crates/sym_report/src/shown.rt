//! The texts of values, which the forms share.
ghost use Rattle.std.specs.Prelude.{◌≡◌, ◌++◌, List, ℕ, false, map, codes, OnOk};
ghost use Rattle.std.specs.Fmt.{decimal, signed_decimal};
ghost use Rattle.std.specs.List.{flat_map};
ghost use Rattle.sym_report.specs.Appending.{lead, continued, word_in};
ghost use Rattle.sym_report.specs.Pairs.{escaped_byte, quoted_word};
ghost use Rattle.sym_report.specs.Tables.{shown_byte, shown_word};
ghost use Rattle.sym_report.specs.ValueTexts.{value_text, list_text, over_fault, arith_fault};

use itoa::Buffer;
use sym_base::{Column, NoMemory, ReportFault, Text};

/// How a form shows a word.
#[derive(Clone, Copy)]
pub(crate) enum WordStyle {
    /// Control characters as `?`.
    Shown,
    /// Its own bytes.
    Plain,
    /// Between quotes, with quotes and backslashes after a backslash.
    Quoted,
}

/// A value that a form shows.
pub(crate) trait Shown {
    ghost use Rattle.sym_report.specs.declared.shown.WordStyle.{WordStyle};

    ghost text: { WordStyle → Self → List ℕ };

    /// Appends the value's text, with words in this style.
    fn push_to(&self, style: WordStyle, into: &mut Vec<u8>) -> Result<(), NoMemory>
        ensures { OnOk result (into.new.items ≡ into.old.items ++ text style self.now) };
}

impl Shown for i128 {
    ghost text = { λ style. signed_decimal };

    fn push_to(&self, _style: WordStyle, into: &mut Vec<u8>) -> Result<(), NoMemory> {
        let mut buffer = Buffer::new();
        into.extend_from_slice(buffer.format(*self).as_bytes())?;
        Ok(())
    }
}

impl Shown for i64 {
    ghost text = { λ style. signed_decimal };

    fn push_to(&self, style: WordStyle, into: &mut Vec<u8>) -> Result<(), NoMemory> {
        i128::from(*self).push_to(style, into)
    }
}

impl Shown for Text {
    ghost text = { word_in };

    fn push_to(&self, style: WordStyle, into: &mut Vec<u8>) -> Result<(), NoMemory> {
        match style {
            WordStyle::Shown => push_shown(into, self.as_bytes()),
            WordStyle::Plain => push_text(into, self.as_bytes()),
            WordStyle::Quoted => push_quoted(into, self.as_bytes()),
        }
    }
}

impl Shown for Column {
    ghost text = { λ style. value_text (word_in style) };

    fn push_to(&self, style: WordStyle, into: &mut Vec<u8>) -> Result<(), NoMemory> {
        match self {
            Column::Num(number) => number.push_to(style, into),
            Column::Word(word) => word.push_to(style, into),
            Column::Nums(numbers) => push_list(into, style, numbers.as_slice()),
            Column::Words(words) => push_list(into, style, words.as_slice()),
            Column::Nothing => push_text(into, b"none"),
            Column::Bad(ReportFault::Overflow) => push_text(into, b"overflow"),
            Column::Bad(ReportFault::Zero) => push_text(into, b"zero divisor"),
        }
    }
}

// A byte of a word; a control character is shown as `?`.
fn shown_byte(byte: u8) -> u8
    ensures { result ≡ shown_byte byte }
{
    if byte < 32 || byte == 127 { b'?' } else { byte }
}

// Appends a word with its control characters as `?`.
fn push_shown(into: &mut Vec<u8>, word: &[u8]) -> Result<(), NoMemory>
    ensures { OnOk result (into.new.items ≡ into.old.items ++ shown_word word.now) }
{
    'bytes: for byte in word {
        into.push(shown_byte(*byte))?;
    }
    Ok(())
}

// Appends a byte that stands between quotes.
fn push_escaped(into: &mut Vec<u8>, byte: u8) -> Result<(), NoMemory>
    ensures { OnOk result (into.new.items ≡ into.old.items ++ escaped_byte byte) }
{
    if byte == b'"' || byte == b'\\' {
        into.push(b'\\')?;
    }
    into.push(byte)?;
    Ok(())
}

// Appends the bytes of a word that stands between quotes.
fn push_inside(into: &mut Vec<u8>, word: &[u8]) -> Result<(), NoMemory>
    ensures { OnOk result
        (into.new.items ≡ into.old.items ++ flat_map escaped_byte word.now) }
{
    'bytes: for byte in word {
        push_escaped(into, *byte)?;
    }
    Ok(())
}

/// Appends a word between quotes.
#[tactic(auto, using(std::proofs::Common::append_assoc))]
pub(crate) fn push_quoted(into: &mut Vec<u8>, word: &[u8]) -> Result<(), NoMemory>
    ensures { OnOk result (into.new.items ≡ into.old.items ++ quoted_word word.now) }
{
    push_text(into, b"\"")?;
    push_inside(into, word)?;
    push_text(into, b"\"")
}

/// Appends a text.
pub(crate) fn push_text(into: &mut Vec<u8>, text: &[u8]) -> Result<(), NoMemory>
    ensures { OnOk result (into.new.items ≡ into.old.items ++ text.now) }
{
    into.extend_from_slice(text)?;
    Ok(())
}

// Appends a list of values.
#[tactic(auto, using(std::proofs::Common::append_assoc, crate::proofs::Joining::joined_continued))]
fn push_list<T: Shown>(into: &mut Vec<u8>, style: WordStyle, items: &[T]) -> Result<(), NoMemory>
    ensures { OnOk result
        (into.new.items ≡ into.old.items ++ list_text (map (T.text style) items.now)) }
{
    push_text(into, b"[")?;
    push_joined(into, style, b" ", false, items)?;
    push_text(into, b"]")
}

/// Appends a separator where something stands before it.
pub(crate) fn push_lead(into: &mut Vec<u8>, separator: &[u8], started: bool) -> Result<(), NoMemory>
    ensures { OnOk result (into.new.items ≡ into.old.items ++ lead separator.now started) }
{
    if started {
        push_text(into, separator)?;
    }
    Ok(())
}

/// Appends the texts of values, each after a separator; the first one only where something stands
/// before it.
pub(crate) fn push_joined<T: Shown>(
    into: &mut Vec<u8>,
    style: WordStyle,
    separator: &[u8],
    started: bool,
    items: &[T],
) -> Result<(), NoMemory>
    ensures { let text = continued separator.now started (map (T.text style) items.now) in
        OnOk result (into.new.items ≡ into.old.items ++ text) }
{
    let mut started = started;
    'items: for item in items {
        push_lead(into, separator, started)?;
        item.push_to(style, into)?;
        started = true;
    }
    Ok(())
}

// Appends what stands before the number of a record, and this number.
fn push_record(into: &mut Vec<u8>, before: &[u8], no: u64) -> Result<(), NoMemory>
    ensures { OnOk result (into.new.items ≡ into.old.items ++ (before.now ++ decimal no)) }
{
    push_text(into, before)?;
    let mut buffer = Buffer::new();
    push_text(into, buffer.format(no).as_bytes())
}

/// Appends a fault of the cell of this name.
#[tactic(auto, using(std::proofs::Common::append_assoc))]
pub(crate) fn push_over(into: &mut Vec<u8>, cell: &Text, no: u64) -> Result<(), NoMemory>
    ensures { OnOk result (into.new.items ≡ into.old.items ++ over_fault cell.now no) }
{
    push_text(into, cell.as_bytes())?;
    push_record(into, b" overflows at record ", no)
}

/// Appends a fault of arithmetic.
pub(crate) fn push_arith(into: &mut Vec<u8>, no: u64) -> Result<(), NoMemory>
    ensures { OnOk result (into.new.items ≡ into.old.items ++ arith_fault no) }
{
    push_record(into, b"arithmetic at record ", no)
}
