//! Files read through a checked script, by example.
ghost use Rattle.std.specs.Prelude.{◌≡◌};
ghost use Rattle.sym_check.specs.Checking.CheckedScripts.{checked_plan};
ghost use Rattle.sym_table.specs.Rows.{FitsHeader};

use std::alloc::Global;
use std::slice;
use std::test::Fail;
use sym_base::{Fields, NoMemory, Record, Text, Value};
use sym_check::Checked;
use sym_given::{Row as TableRow, all_hold, bytes_differ, check_rows, difference, found_unless};
use sym_table::{
    Bad, BadCause, Chunk, Chunks, Cutter, Decoded, HeadErr, HeadFault, Header, Places, Row,
    RowCursor, RowView, Rows, Spare, decode, decode_into,
};

/// What a field reads.
#[derive(Clone, Copy, PartialEq, Eq)]
enum Want {
    Num(i64),
    Word(&'static str),
    Label(u8),
    Bad(BadCause),
}

/// The text of the one row below the header of a script's one field, and what the field reads. Each
/// `@` in the text is a byte that no UTF-8 has.
struct Field(&'static str, Want);

const NUMBER: &str = "enum colour { red, green } field f: num; \
    state k: int [0..9] = 0; update { } report { k = k; }";

const NUMBERS: [Field; 27] = [
    Field("5", Want::Num(5)),
    Field("-5", Want::Num(-5)),
    Field("+5", Want::Num(5)),
    Field("-0", Want::Num(0)),
    Field("007", Want::Num(7)),
    Field(" \t 5\t ", Want::Num(5)),
    Field("\"5\"", Want::Num(5)),
    Field("1000000000000", Want::Num(1_000_000_000_000)),
    Field("-1000000000000", Want::Num(-1_000_000_000_000)),
    Field("0000000000000000000000003", Want::Num(3)),
    Field("1000000000001", Want::Bad(BadCause::Number(0))),
    Field("-1000000000001", Want::Bad(BadCause::Number(0))),
    Field("99999999999999999999999999", Want::Bad(BadCause::Number(0))),
    Field("\"\"", Want::Bad(BadCause::Number(0))),
    Field("  ", Want::Bad(BadCause::Number(0))),
    Field("+", Want::Bad(BadCause::Number(0))),
    Field("-", Want::Bad(BadCause::Number(0))),
    Field("+-5", Want::Bad(BadCause::Number(0))),
    Field("- 5", Want::Bad(BadCause::Number(0))),
    Field("5 5", Want::Bad(BadCause::Number(0))),
    Field("5.0", Want::Bad(BadCause::Number(0))),
    Field("\"5\n\"", Want::Bad(BadCause::Number(0))),
    Field("\u{feff}5", Want::Bad(BadCause::Number(0))),
    Field("x@", Want::Bad(BadCause::Utf8(0))),
    Field("1,2", Want::Bad(BadCause::Fields(2))),
    Field("x,", Want::Bad(BadCause::Fields(2))),
    Field("@,@,@", Want::Bad(BadCause::Fields(3))),
];

const WORD: &str = "enum colour { red, green } field f: word; \
    state k: int [0..9] = 0; update { } report { k = k; }";

const WORDS: [Field; 4] = [
    Field("\"\"", Want::Word("")),
    Field(" a b\t", Want::Word(" a b\t")),
    Field("\u{e9}", Want::Word("\u{e9}")),
    Field("a@", Want::Bad(BadCause::Utf8(0))),
];

const LABEL: &str = "enum colour { red, green } field f: colour; \
    state k: int [0..9] = 0; update { } report { k = k; }";

const LABELS: [Field; 6] = [
    Field("red", Want::Label(0)),
    Field("\tgreen ", Want::Label(1)),
    Field("Red", Want::Bad(BadCause::Label(0))),
    Field("re d", Want::Bad(BadCause::Label(0))),
    Field("\"\"", Want::Bad(BadCause::Label(0))),
    Field("red@", Want::Bad(BadCause::Utf8(0))),
];

const NUMBER_ELSE_7: &str = "enum colour { red, green } field f: num else 7; \
    state k: int [0..9] = 0; update { } report { k = k; }";

const NUMBERS_ELSE_7: [Field; 4] = [
    Field("\"\"", Want::Num(7)),
    Field(" \t", Want::Num(7)),
    Field("0", Want::Num(0)),
    Field("x", Want::Bad(BadCause::Number(0))),
];

const WORD_ELSE_NONE: &str = "enum colour { red, green } field f: word else \"none\"; \
    state k: int [0..9] = 0; update { } report { k = k; }";

const WORDS_ELSE_NONE: [Field; 2] = [
    Field("\"\"", Want::Word("none")),
    Field(" ", Want::Word(" ")),
];

const LABEL_ELSE_GREEN: &str = "enum colour { red, green } field f: colour else green; \
    state k: int [0..9] = 0; update { } report { k = k; }";

const LABELS_ELSE_GREEN: [Field; 3] = [
    Field("\"\"", Want::Label(1)),
    Field("  ", Want::Label(1)),
    Field("blue", Want::Bad(BadCause::Label(0))),
];

// Adds the text, with a byte that no UTF-8 has in the place of each `@`.
fn push_bytes(bytes: &mut Vec<u8>, text: &str) -> Result<(), NoMemory> {
    'bytes: for byte in text.as_bytes() {
        bytes.push(if *byte == b'@' { 0xFF } else { *byte })?;
    }
    Ok(())
}

fn bytes_of(alloc: Global, first: &str, second: &str) -> Result<Vec<u8>, NoMemory> {
    let mut bytes = Vec::new(alloc);
    push_bytes(&mut bytes, first)?;
    push_bytes(&mut bytes, second)?;
    Ok(bytes)
}

// The value that is wanted, or the cause of the refusal.
fn wanted_of(alloc: Global, want: Want) -> Result<Result<Value, Bad>, NoMemory> {
    Ok(match want {
        Want::Num(number) => Ok(Value::Num(number)),
        Want::Word(word) => Ok(Value::Word(Text::from_str(alloc, word)?)),
        Want::Label(label) => Ok(Value::Label(label)),
        Want::Bad(cause) => Err(Bad { no: 9, cause }),
    })
}

// A first field beside the value that is wanted.
fn field_differs(
    alloc: Global,
    value: Option<&Value>,
    wanted: &Result<Value, Bad>,
) -> Result<Option<String>, NoMemory> {
    match (value, wanted) {
        (Some(found), Ok(wanted)) => difference(alloc, found, wanted),
        _ => Ok(Some(format!(in alloc; "found {value:?}, wanted {wanted:?}")?)),
    }
}

// The first field, or the answer for the whole row, beside what is wanted.
fn decoded_differs(
    alloc: Global,
    decoded: &Decoded,
    wanted: &Result<Value, Bad>,
) -> Result<Option<String>, NoMemory> {
    match (decoded, wanted) {
        (Decoded::Is(record), _) if record.no != 9 => difference(alloc, &record.no, &9),
        (Decoded::Is(record), _) => field_differs(alloc, record.fields.get(0), wanted),
        (Decoded::Bad(found), Err(wanted)) => difference(alloc, found, wanted),
        (Decoded::Bad(found), Ok(wanted)) => {
            Ok(Some(format!(in alloc; "found {found:?}, wanted {wanted:?}")?))
        }
    }
}

// The next row of a file beside what is wanted.
fn next_differs(
    alloc: Global,
    checked: &Checked,
    cutter: &mut Cutter<'_>,
    want: Want,
) -> Result<Option<String>, NoMemory>
    requires { FitsHeader (checked_plan checked.now).fields cutter.old.header }
{
    let mut row = Row::new(alloc);
    if !cutter.next_row(&mut row)? {
        return Ok(Some(String::from_str(alloc, "found no row, wanted one")?));
    }
    let decoded = decode(alloc, checked, cutter.header(), &row.view(), 9)?;
    decoded_differs(alloc, &decoded, &wanted_of(alloc, want)?)
}

// What is said of a file that isn't opened.
fn unopened(alloc: Global) -> Result<Option<String>, NoMemory> {
    Ok(Some(String::from_str(alloc, "found a file that is refused, wanted its rows")?))
}

// The first row of a file beside what is wanted.
fn first_differs(
    alloc: Global,
    checked: &Checked,
    bytes: &[u8],
    want: Want,
) -> Result<Option<String>, NoMemory> {
    if bytes.len() >= 1_000 {
        return unopened(alloc);
    }
    match Cutter::open(alloc, checked, bytes, 9, 1) {
        Ok(opened) => {
            let mut cutter = opened;
            next_differs(alloc, checked, &mut cutter, want)
        }
        Err(_) => unopened(alloc),
    }
}

impl TableRow for Field {
    fn differs(&self, alloc: Global, checked: &Checked) -> Result<Option<String>, NoMemory> {
        let bytes = bytes_of(alloc, "f\n", self.0)?;
        first_differs(alloc, checked, bytes.as_slice(), self.1)
    }
}

#[test]
fn numbers_read_their_texts(rt: HostRuntime) -> Result<(), Fail> {
    check_rows(rt.alloc(), NUMBER, &NUMBERS)
}

#[test]
fn words_read_their_texts(rt: HostRuntime) -> Result<(), Fail> {
    check_rows(rt.alloc(), WORD, &WORDS)
}

#[test]
fn labels_read_their_texts(rt: HostRuntime) -> Result<(), Fail> {
    check_rows(rt.alloc(), LABEL, &LABELS)
}

#[test]
fn numbers_with_a_default_read_their_texts(rt: HostRuntime) -> Result<(), Fail> {
    check_rows(rt.alloc(), NUMBER_ELSE_7, &NUMBERS_ELSE_7)
}

#[test]
fn words_with_a_default_read_their_texts(rt: HostRuntime) -> Result<(), Fail> {
    check_rows(rt.alloc(), WORD_ELSE_NONE, &WORDS_ELSE_NONE)
}

#[test]
fn labels_with_a_default_read_their_texts(rt: HostRuntime) -> Result<(), Fail> {
    check_rows(rt.alloc(), LABEL_ELSE_GREEN, &LABELS_ELSE_GREEN)
}

// The fields `n`, `w` and `c`.
const FIELDS: &str = "enum colour { red, green } field n: num; field w: word; field c: colour; \
    state k: int [0..9] = 0; update { } report { k = k; }";

/// A header of a file for the fields `n`, `w` and `c`, and what is wrong with it.
struct Headed(&'static str, HeadFault);

const HEADERS: [Headed; 7] = [
    Headed("w,c", HeadFault::NoField { which: 0 }),
    Headed("n,w", HeadFault::NoField { which: 2 }),
    Headed("n,w,C", HeadFault::NoField { which: 2 }),
    Headed("n, w,c", HeadFault::NoField { which: 1 }),
    Headed("n,n,n", HeadFault::Twice { which: 0 }),
    Headed("n,c,c", HeadFault::NoField { which: 1 }),
    Headed("n,w,c,w", HeadFault::Twice { which: 1 }),
];

// The fault of a file's header.
fn header_fault(alloc: Global, checked: &Checked, header: &str) -> Option<HeadFault> {
    if header.len() >= 100 {
        return None;
    }
    match Cutter::open(alloc, checked, header.as_bytes(), 1, 1) {
        Ok(_) | Err(HeadErr::NoMemory) => None,
        Err(HeadErr::Fault(fault)) => Some(fault),
    }
}

impl TableRow for Headed {
    fn differs(&self, alloc: Global, checked: &Checked) -> Result<Option<String>, NoMemory> {
        difference(alloc, &header_fault(alloc, checked, self.0), &Some(self.1))
    }
}

#[test]
fn headers_are_refused_at_their_first_fault(rt: HostRuntime) -> Result<(), Fail> {
    check_rows(rt.alloc(), FIELDS, &HEADERS)
}

/// A file for these fields, how many rows a chunk has, and the chunks: each with the number of its
/// first row, and a bar before each field.
struct File(&'static str, u32, &'static str);

const FILES: [File; 21] = [
    File("", 2, ""),
    File("\u{feff}", 2, ""),
    File("n,w,c", 2, ""),
    File("w,c,n\n1\n2\n3\n", 1, "1|1;2|2;3|3;"),
    File("w,c,n\n1\n2\n3\n", 2, "1|1;|2;3|3;"),
    File("w,c,n\n1\n2\n3", 1024, "1|1;|2;|3;"),
    File("w,c,n\n1\n2\n", 2, "1|1;|2;"),
    File("n,w,c\r\na,b\r\n\r\n ,\r\n", 9, "1|a|b;| |;"),
    File("\u{feff}n,w,c\n1", 9, "1|1;"),
    File("\u{feff}\u{feff}n,w,c\n1", 9, "1|1;"),
    File("n,w,c\n\"a,\"\"b\"\n\"c\nd", 9, "1|a,\"b;|c\nd;"),
    File("n,w,c\ra\rb", 1, "1|a;2|b;"),
    File("n,w,c\n\0@", 1, "1|\0@;"),
    File("n,w,c,x,x\n1", 9, "1|1;"),
    File("x,\"n\",w,c\n,1", 9, "1||1;"),
    File("n,w,c\n1\n\u{feff}2\n", 1, "1|1;2|\u{feff}2;"),
    File("n,w,c\n\n1\n\n\n2\n\n", 1, "1|1;2|2;"),
    File("n,w,c\n1,a\"b\n2", 1, "1|1|a\"b;2|2;"),
    File("n,w,c\n1\n2,\"b", 1, "1|1;2|2|b;"),
    File("n,w,c\n1\n2,\"b\"\n", 1, "1|1;2|2|b;"),
    File("n,w,c\n\"1\"\r2\r\n3,\"c\n\"\r4", 2, "1|1;|2;3|3|c\n;|4;"),
];

// A bar before each field, and a semicolon at the end.
fn push_row(text: &mut Vec<u8>, row: &RowView<'_>) -> Result<(), NoMemory> {
    'fields: for at in 0..row.len() {
        text.push(b'|')?;
        if let Some(field) = row.get(at) {
            text.extend_from_slice(field)?;
        }
    }
    text.push(b';')?;
    Ok(())
}

fn push_number(alloc: Global, text: &mut Vec<u8>, number: u64) -> Result<(), NoMemory> {
    let digits = format!(in alloc; "{number}")?;
    text.extend_from_slice(digits.as_bytes())?;
    Ok(())
}

// The number of the first row, and then the rows.
fn push_chunk(alloc: Global, text: &mut Vec<u8>, cut: &Chunk) -> Result<(), NoMemory> {
    push_number(alloc, text, cut.first_no)?;
    let mut cursor = RowCursor::over(alloc, slice::from_ref(cut))?;
    let mut row = Row::with_room(alloc)?;
    'rows: for _row in 0..cut.rows.len() {
        if cursor.read(&mut row)? {
            push_row(text, &row.view())?;
        }
    }
    Ok(())
}

// Adds the next chunk. Whether there was one.
fn push_next(alloc: Global, text: &mut Vec<u8>, cutter: &mut Cutter<'_>) -> Result<bool, NoMemory> {
    match cutter.next(alloc)? {
        Some(cut) => {
            push_chunk(alloc, text, &cut)?;
            Ok(true)
        }
        None => Ok(false),
    }
}

// Adds the chunks that are left, up to a hundred of them.
fn push_chunks(alloc: Global, text: &mut Vec<u8>, cutter: &mut Cutter<'_>) -> Result<(), NoMemory> {
    'chunks: for _ in 0..100 {
        if !push_next(alloc, text, cutter)? {
            return Ok(());
        }
    }
    Ok(())
}

fn chunks_differ(
    alloc: Global,
    cutter: &mut Cutter<'_>,
    wanted: &[u8],
) -> Result<Option<String>, NoMemory> {
    let mut text = Vec::new(alloc);
    push_chunks(alloc, &mut text, cutter)?;
    bytes_differ(alloc, text.as_slice(), wanted)
}

// The chunks of a file beside those that are wanted.
fn file_differs(
    alloc: Global,
    checked: &Checked,
    bytes: &[u8],
    chunk: u32,
    wanted: &[u8],
) -> Result<Option<String>, NoMemory> {
    if bytes.len() >= 20_000 || chunk < 1 || chunk > 1_024 {
        return unopened(alloc);
    }
    match Cutter::open(alloc, checked, bytes, 1, chunk) {
        Ok(opened) => {
            let mut cutter = opened;
            chunks_differ(alloc, &mut cutter, wanted)
        }
        Err(_) => unopened(alloc),
    }
}

impl TableRow for File {
    fn differs(&self, alloc: Global, checked: &Checked) -> Result<Option<String>, NoMemory> {
        let bytes = bytes_of(alloc, self.0, "")?;
        let wanted = bytes_of(alloc, self.2, "")?;
        file_differs(alloc, checked, bytes.as_slice(), self.1, wanted.as_slice())
    }
}

#[test]
fn files_are_cut_into_rows(rt: HostRuntime) -> Result<(), Fail> {
    check_rows(rt.alloc(), FIELDS, &FILES)
}

/// So many bytes in one field, and how many rows a chunk has.
struct Long(usize, u32);

const LONG: [Long; 3] = [Long(200, 1), Long(9_000, 1), Long(9_000, 9)];

// A text, so many bytes `a`, and another text.
fn around(alloc: Global, before: &[u8], count: usize, after: &[u8]) -> Result<Vec<u8>, NoMemory> {
    let mut bytes = Vec::new(alloc);
    bytes.extend_from_slice(before)?;
    'bytes: for _byte in 0..count {
        bytes.push(b'a')?;
    }
    bytes.extend_from_slice(after)?;
    Ok(bytes)
}

impl TableRow for Long {
    fn differs(&self, alloc: Global, checked: &Checked) -> Result<Option<String>, NoMemory> {
        let file = around(alloc, b"n,w,c\n1,", self.0, b",red\n2,b")?;
        let next: &[u8] = if self.1 == 1 {
            b"|red;2|2|b;"
        } else {
            b"|red;|2|b;"
        };
        let wanted = around(alloc, b"1|1|", self.0, next)?;
        file_differs(alloc, checked, file.as_slice(), self.1, wanted.as_slice())
    }
}

#[test]
fn long_fields_are_cut_into_rows(rt: HostRuntime) -> Result<(), Fail> {
    check_rows(rt.alloc(), FIELDS, &LONG)
}

/// How many rows of a file are read one by one before a chunk is cut, and the chunk, after which a
/// row was added to it.
struct Mixed(usize, &'static str);

const MIXED: [Mixed; 2] = [Mixed(0, "1|1;|2;|x;"), Mixed(1, "2|2;|3;|x;")];

// The next chunk of two rows, after so many rows, and a row that is added to it.
fn push_mixed(
    alloc: Global,
    text: &mut Vec<u8>,
    cutter: &mut Cutter<'_>,
    before: usize,
) -> Result<(), NoMemory> {
    let mut row = Row::new(alloc);
    'rows: for _row in 0..before {
        cutter.next_row(&mut row)?;
    }
    if let Some(cut) = cutter.next_over(alloc, &mut Spare::new(alloc))? {
        let mut cut = cut;
        cut.rows.push(&Row::from_fields(alloc, &[b"x"])?)?;
        push_chunk(alloc, text, &cut)?;
    }
    Ok(())
}

// What is read so of a file in chunks of two rows, beside what is wanted.
fn mixed_differs(
    alloc: Global,
    checked: &Checked,
    bytes: &[u8],
    before: usize,
    wanted: &[u8],
) -> Result<Option<String>, NoMemory> {
    if bytes.len() >= 20_000 {
        return unopened(alloc);
    }
    match Cutter::open(alloc, checked, bytes, 1, 2) {
        Ok(opened) => {
            let mut cutter = opened;
            let mut text = Vec::new(alloc);
            push_mixed(alloc, &mut text, &mut cutter, before)?;
            bytes_differ(alloc, text.as_slice(), wanted)
        }
        Err(_) => unopened(alloc),
    }
}

impl TableRow for Mixed {
    fn differs(&self, alloc: Global, checked: &Checked) -> Result<Option<String>, NoMemory> {
        let wanted = self.1.as_bytes();
        mixed_differs(alloc, checked, b"n,w,c\n1\n2\n3\n", self.0, wanted)
    }
}

#[test]
fn rows_that_are_added_are_read_last(rt: HostRuntime) -> Result<(), Fail> {
    check_rows(rt.alloc(), FIELDS, &MIXED)
}

// The record of a number, a word and a label.
fn record(alloc: Global, no: u64, number: i64, word: &str, label: u8) -> Result<Record, NoMemory> {
    let mut fields = Fields::new(alloc);
    fields.push(Value::Num(number))?;
    fields.push(Value::Word(Text::from_str(alloc, word)?))?;
    fields.push(Value::Label(label))?;
    Ok(Record { no, fields })
}

/// A record of a number, a word and a label.
struct Wanted {
    no: u64,
    number: i64,
    word: &'static str,
    label: u8,
}

const FIRST: Wanted = Wanted {
    no: 5,
    number: 1,
    word: "a longer word",
    label: 0,
};

const SECOND: Wanted = Wanted {
    no: 6,
    number: 2,
    word: "b",
    label: 1,
};

const THIRD: Bad = Bad {
    no: 7,
    cause: BadCause::Number(0),
};

// A record that was read beside the one that is wanted.
fn record_differs(
    alloc: Global,
    rec: &Record,
    wanted: &Wanted,
) -> Result<Option<String>, NoMemory> {
    let fields = [
        Value::Num(wanted.number),
        Value::Word(Text::from_str(alloc, wanted.word)?),
        Value::Label(wanted.label),
    ];
    let told = difference(alloc, &rec.no, &wanted.no)?;
    if told.is_some() {
        return Ok(told);
    }
    difference(alloc, &rec.fields.as_slice(), &fields.as_slice())
}

// Reads the next row over a row and a record that were used before. What is wrong with the row;
// `None` where there is no row.
fn read_next(
    alloc: Global,
    checked: &Checked,
    cutter: &mut Cutter<'_>,
    row: &mut Row,
    rec: &mut Record,
) -> Result<Option<Option<Bad>>, NoMemory>
    requires { FitsHeader (checked_plan checked.now).fields cutter.old.header }
    ensures { cutter.new.header ≡ cutter.old.header }
{
    let no = cutter.next_no();
    if !cutter.next_row(row)? {
        return Ok(None);
    }
    Ok(Some(decode_into(alloc, checked, cutter.header(), &row.view(), no, rec)?))
}

// No row is left, and stays so.
fn end_differs(
    alloc: Global,
    cutter: &mut Cutter<'_>,
    row: &mut Row,
) -> Result<Option<String>, NoMemory> {
    if cutter.next_row(row)? || cutter.next_row(row)? {
        return Ok(Some(String::from_str(alloc, "found a fourth row, wanted three")?));
    }
    difference(alloc, &cutter.next_no(), &8)
}

// The next row, which is this record, beside what is read.
fn next_record_differs(
    alloc: Global,
    checked: &Checked,
    cutter: &mut Cutter<'_>,
    row: &mut Row,
    rec: &mut Record,
    wanted: &Wanted,
) -> Result<Option<String>, NoMemory>
    requires { FitsHeader (checked_plan checked.now).fields cutter.old.header }
    ensures { cutter.new.header ≡ cutter.old.header }
{
    let told = difference(
        alloc,
        &read_next(alloc, checked, cutter, row, rec)?,
        &Some(None),
    )?;
    if told.is_some() {
        return Ok(told);
    }
    record_differs(alloc, rec, wanted)
}

// The rows after the header, two records and a row that is none, beside what is read.
fn three_differ(
    alloc: Global,
    checked: &Checked,
    cutter: &mut Cutter<'_>,
    row: &mut Row,
    rec: &mut Record,
) -> Result<Option<String>, NoMemory>
    requires { FitsHeader (checked_plan checked.now).fields cutter.old.header }
{
    let told = next_record_differs(alloc, checked, cutter, row, rec, &FIRST)?;
    if told.is_some() {
        return Ok(told);
    }
    let told = next_record_differs(alloc, checked, cutter, row, rec, &SECOND)?;
    if told.is_some() {
        return Ok(told);
    }
    let third = read_next(alloc, checked, cutter, row, rec)?;
    let told = difference(alloc, &third, &Some(Some(THIRD)))?;
    if told.is_some() {
        return Ok(told);
    }
    end_differs(alloc, cutter, row)
}

fn all_differ(
    alloc: Global,
    checked: &Checked,
    cutter: &mut Cutter<'_>,
) -> Result<Option<String>, NoMemory>
    requires { FitsHeader (checked_plan checked.now).fields cutter.old.header }
{
    let mut rec = record(alloc, 0, 0, "", 0)?;
    three_differ(alloc, checked, cutter, &mut Row::new(alloc), &mut rec)
}

/// A file of the three rows.
struct Three(&'static str);

const THREE: [Three; 1] = [Three("n,w,c\n1,a longer word,red\n2,b,green\nx,b,red\n")];

impl TableRow for Three {
    fn differs(&self, alloc: Global, checked: &Checked) -> Result<Option<String>, NoMemory> {
        let file = self.0;
        if file.len() >= 1_000 {
            return unopened(alloc);
        }
        match Cutter::open(alloc, checked, file.as_bytes(), 5, 1) {
            Ok(opened) => {
                let mut cutter = opened;
                all_differ(alloc, checked, &mut cutter)
            }
            Err(_) => unopened(alloc),
        }
    }
}

#[test]
fn a_row_and_a_record_are_used_again(rt: HostRuntime) -> Result<(), Fail> {
    check_rows(rt.alloc(), FIELDS, &THREE)
}

// A row of two fields, and one of none.
fn rows(alloc: Global) -> Result<Rows, NoMemory> {
    let mut rows = Rows::new(alloc);
    let fields = [b"5".as_slice(), b"a".as_slice()];
    rows.push(&Row::from_fields(alloc, fields.as_slice())?)?;
    rows.push(&Row::new(alloc))?;
    Ok(rows)
}

fn header(alloc: Global) -> Result<Header, NoMemory> {
    let mut places = Places::new(alloc);
    places.push(1)?;
    Ok(Header { places, columns: 2 })
}

fn chunk(alloc: Global) -> Result<Chunk, NoMemory> {
    let header = header(alloc)?;
    Ok(Chunk {
        first_no: 9,
        header,
        rows: rows(alloc)?,
    })
}

fn chunks(alloc: Global) -> Result<Chunks, NoMemory> {
    let mut chunks = Chunks::new(alloc);
    chunks.push(chunk(alloc)?)?;
    Ok(chunks)
}

// A chunk beside the one above.
fn chunk_differs(alloc: Global, cut: &Chunk) -> Result<Option<String>, NoMemory> {
    let mut text = Vec::new(alloc);
    push_chunk(alloc, &mut text, cut)?;
    if cut.header != header(alloc)? {
        return Ok(Some(String::from_str(alloc, "found another header, wanted that of the chunk")?));
    }
    bytes_differ(alloc, text.as_slice(), b"9|5|a;;")
}

fn copy_differs(alloc: Global, chunks: &Chunks) -> Result<Option<String>, NoMemory> {
    let copied = chunks.copy(alloc)?;
    match copied.as_slice() {
        [cut] => chunk_differs(alloc, cut),
        found => difference(alloc, &found.len(), &1),
    }
}

fn chunks_differ_copied(alloc: Global) -> Result<Option<String>, NoMemory> {
    copy_differs(alloc, &chunks(alloc)?)
}

#[test]
fn chunks_are_copied(rt: HostRuntime) -> Result<(), Fail> {
    all_hold(chunks_differ_copied(rt.alloc()))
}

fn answer_differs(alloc: Global, answer: &Decoded) -> Result<Option<String>, NoMemory> {
    let same = answer.copy(alloc)? == *answer;
    found_unless(alloc, same, "found another answer, wanted a copy")
}

fn record_differs_copied(alloc: Global) -> Result<Option<String>, NoMemory> {
    answer_differs(alloc, &Decoded::Is(record(alloc, 9, 5, "a", 1)?))
}

#[test]
fn answers_are_copied(rt: HostRuntime) -> Result<(), Fail> {
    all_hold(answer_differs(rt.alloc(), &Decoded::Bad(THIRD)))?;
    all_hold(record_differs_copied(rt.alloc()))
}

fn text_differs(alloc: Global, why: HeadErr, wanted: &str) -> Result<Option<String>, NoMemory> {
    difference(alloc, &format!(in alloc; "{why}")?.as_str(), &wanted)
}

#[test]
fn the_text_of_a_header_error_is_its_variant(rt: HostRuntime) -> Result<(), Fail> {
    let fault = HeadErr::Fault(HeadFault::NoField { which: 0 });
    all_hold(text_differs(rt.alloc(), fault, "Fault"))?;
    all_hold(text_differs(rt.alloc(), HeadErr::NoMemory, "NoMemory"))
}
