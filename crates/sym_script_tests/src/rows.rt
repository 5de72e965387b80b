//! Rows of the tables: a script's text, and what the checker has to answer.
use std::alloc::{AllocError, Global};
use std::process::Abort;
use std::test::Fail;
use sym_check::{CheckErr, check};
use sym_parse::parse;

/// What a row wants. A fault's place is the `@` in the row's text, which isn't in the script.
#[derive(Clone, Copy)]
pub enum Wanted {
    /// The script is accepted, with this path bound.
    Paths(u32),
    Name,
    Twice,
    Kind,
    Range,
    NotLinear,
    Branchy(u32),
}

impl Wanted {
    fn answer(self, at: u32) -> Result<u32, CheckErr> {
        match self {
            Wanted::Paths(paths) => Ok(paths),
            Wanted::Name => Err(CheckErr::Name { at }),
            Wanted::Twice => Err(CheckErr::Twice { at }),
            Wanted::Kind => Err(CheckErr::Kind { at }),
            Wanted::Range => Err(CheckErr::Range { at }),
            Wanted::NotLinear => Err(CheckErr::NotLinear { at }),
            Wanted::Branchy(paths) => Err(CheckErr::Branchy { paths }),
        }
    }
}

/// The script around a row's text.
#[derive(Clone, Copy)]
pub struct Frame {
    pub before: &'static str,
    pub after: &'static str,
}

/// Statements of an update, with something of each kind declared before it.
pub const UPDATE: Frame = Frame {
    before: "enum mode { idle, busy } enum tone { low, high } \
        field x: num; field y: num; field who: word; field what: mode; field sound: tone; \
        state n: int [0..9] = 0; state k: int [0..9] = 0; \
        state phase: mode = idle; state earlier: mode = idle; state pitch: tone = low; \
        state h: hold(num = 0); state g: hold(num = 0); state v: hold(word = \"\"); \
        state w: hold(word = \"\", mode = idle); state xs: nums [0..9]; state ws: words; \
        state capped: int [0..9] = 0 clamp; state caps: nums [0..9] clamp; \
        test far(a: num, b: num) = b - a > 3; \
        test near(a: num, b: num, c: mode) = a == b and c is busy; \
        test calm(a: word, b: mode) = b is idle; test same(a: word) = a == \"a\"; \
        update { ",
    after: " } report { one = 1; }",
};

/// The path bound of a script, or its first broken rule.
pub fn answer_to(rt: &impl Abort, alloc: Global, text: &str) -> Result<u32, CheckErr> {
    assert!(rt;
        text.len() < 100_000,
        "found {} bytes, wanted a shorter text",
        text.len()
    );
    match parse(alloc, text.as_bytes()) {
        Ok(script) => Ok(check(alloc, script)?.path_bound()),
        Err(_) => panic!(rt; "found a text that isn't read, wanted a script: {text}"),
    }
}

/// Compares the answer to a text with what is wanted of it.
pub fn check_text(
    rt: &impl Abort,
    alloc: Global,
    marked: &str,
    wanted: Wanted,
) -> Result<(), Fail> {
    let (before, after) = marked.split_once('@').unwrap_or((marked, ""));
    let text = format!(in alloc; "{before}{after}")?;
    let at = u32::try_from(before.len()).ok().ok_or("long")?;
    assert_eq!(rt; answer_to(rt, alloc, &text), wanted.answer(at), "{marked}");
    Ok(())
}

/// Does so for each row.
pub fn check_rows(
    rt: &impl Abort,
    alloc: Global,
    frame: &Frame,
    rows: &[(&'static str, Wanted)],
) -> Result<(), Fail> {
    for (row, wanted) in rows {
        let marked = format!(in alloc; "{}{row}{}", frame.before, frame.after)?;
        check_text(rt, alloc, &marked, *wanted)?;
    }
    Ok(())
}
