//! The fields that an update reads.
use crate::rows::{Frame, UPDATE};
use std::alloc::Global;
use std::process::Abort;
use std::test::Fail;
use sym_base::{Text, Value};
use sym_check::Checked;
use sym_given::accepted;
use sym_reads::{blank_record, read_fields};

/// Statements with the fields among x, y, who, what and sound that they read.
const STATEMENTS: [(&str, [bool; 5]); 24] = [
    ("", [false, false, false, false, false]),
    (
        "n = 1; n = k; phase = busy; phase = earlier; keep h from g; keep h(1); push ws \"a\";",
        [false, false, false, false, false],
    ),
    ("n = x;", [true, false, false, false, false]),
    ("n = -x % 7;", [true, false, false, false, false]),
    ("n = 7 / y;", [false, true, false, false, false]),
    ("n = n + y;", [false, true, false, false, false]),
    ("n = y - n;", [false, true, false, false, false]),
    ("n = x * n;", [true, false, false, false, false]),
    ("let z = y; capped = z;", [false, true, false, false, false]),
    (
        "let z = who; push ws z;",
        [false, false, true, false, false],
    ),
    ("phase = what;", [false, false, false, true, false]),
    ("keep w(who, what);", [false, false, true, true, false]),
    ("keep h(x + 1);", [true, false, false, false, false]),
    ("push xs y;", [false, true, false, false, false]),
    ("push caps n - x;", [true, false, false, false, false]),
    ("push ws who;", [false, false, true, false, false]),
    ("if x < y { }", [true, true, false, false, false]),
    ("if n < y { }", [false, true, false, false, false]),
    (
        "if who == \"a\" or not (phase is what and sound is high) { }",
        [false, false, true, true, true],
    ),
    ("if far(h, x) { }", [true, false, false, false, false]),
    (
        "if near(h, 1, what) { }",
        [false, false, false, true, false],
    ),
    ("if same(v) { n = 1; }", [false, false, false, false, false]),
    (
        "if n < 3 { push xs x; } else { push ws who; }",
        [true, false, true, false, false],
    ),
    (
        "n = 1; if n < 3 { } else { if k < 3 { n = 1; n = y; } } n = 2; keep h(x);",
        [true, true, false, false, false],
    ),
];

fn checked_text(rt: &impl Abort, alloc: Global, text: &str) -> Checked {
    match accepted(alloc, text) {
        Some(checked) => checked,
        None => panic!(rt; "found a text that is refused, wanted a script: {text}"),
    }
}

fn checked_row(rt: &impl Abort, alloc: Global, row: &str) -> Result<Checked, Fail> {
    let Frame { before, after } = UPDATE;
    let text = format!(in alloc; "{before}{row}{after}")?;
    Ok(checked_text(rt, alloc, &text))
}

#[test]
fn statements_read_fields(rt: HostRuntime) -> Result<(), Fail> {
    for (row, wanted) in &STATEMENTS {
        let checked = checked_row(&rt, rt.alloc(), row)?;
        let reads = read_fields(rt.alloc(), &checked)?;
        assert_eq!(rt; reads.as_slice(), wanted.as_slice(), "{row}");
    }
    Ok(())
}

#[test]
fn fields_of_the_group_line_are_not_read(rt: HostRuntime) -> Result<(), Fail> {
    let text = "field who: word; field ts: num; group who; state last: hold(num = 0); \
        update { keep last(ts); } report { t = part(last, 1); }";
    let checked = checked_text(&rt, rt.alloc(), text);
    let reads = read_fields(rt.alloc(), &checked)?;
    assert_eq!(rt; reads.as_slice(), [false, true].as_slice());
    Ok(())
}

#[test]
fn a_blank_record_has_a_value_of_each_kind(rt: HostRuntime) -> Result<(), Fail> {
    let checked = checked_row(&rt, rt.alloc(), "n = x;")?;
    let blank = blank_record(rt.alloc(), &checked, 7)?;
    assert_eq!(rt; (blank.no, blank.fields.len()), (7, 5));
    assert_eq!(rt; blank.fields.get(0), Some(&Value::Num(0)));
    let word = Value::Word(Text::from_str(rt.alloc(), "")?);
    assert_eq!(rt; blank.fields.get(2), Some(&word));
    assert_eq!(rt; blank.fields.get(4), Some(&Value::Label(0)));
    Ok(())
}
