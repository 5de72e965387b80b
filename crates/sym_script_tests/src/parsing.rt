use std::alloc::{AllocError, Global};
use std::process::Abort;
use std::test::Fail;
use sym_lex::LexFault;
use sym_parse::{LimitKind, ParseErr, parse};

/// Texts that no sentence of the grammar begins with, and the place up to which one does.
const UNEXPECTED: [(&str, u32); 43] = [
    ("", 0),
    ("field x num;", 8),
    ("field x: num;", 13),
    ("field x: num; # the end", 23),
    ("state n: words; update { } report { n = n; }", 0),
    (
        "enum e { a, } field x: num; state n: words; update { } report { n = n; }",
        12,
    ),
    (
        "field x: num = 0; state n: words; update { } report { n = n; }",
        13,
    ),
    (
        "field x from x: num; state n: words; update { } report { n = n; }",
        13,
    ),
    (
        "field x: num else ; state n: words; update { } report { n = n; }",
        18,
    ),
    ("field x: num; group x; update { } report { n = n; }", 23),
    (
        "field x: num; group ; state n: words; update { } report { n = n; }",
        20,
    ),
    (
        "field x: num; group x, ; state n: words; update { } report { n = n; }",
        23,
    ),
    (
        "field x: num; group x x; state n: words; update { } report { n = n; }",
        22,
    ),
    (
        "field x: num; state n: int [0..3] clamp = 0; update { } report { n = n; }",
        34,
    ),
    (
        "field x: num; state n: int [0..3] = 0 clamp clamp; update { } report { n = n; }",
        44,
    ),
    (
        "field x: num; state n: words clamp; update { } report { n = n; }",
        29,
    ),
    (
        "field x: num; state n: hold(num = 0) clamp; update { } report { n = n; }",
        37,
    ),
    (
        "field x: num; state n: hold(num = 0; update { } report { n = n; }",
        35,
    ),
    (
        "field x: num; state n: int [0 3] = 0; update { } report { n = n; }",
        30,
    ),
    (
        "field x: num; state n: words; test t() = 1 == 1; update { } report { n = n; }",
        37,
    ),
    ("field x: num; state n: words; update { } report { }", 50),
    ("field x: num; state n: words; report { n = n; }", 30),
    (
        "field x: num; state n: int [0..3] = 0; update { n 1; } report { n = n; }",
        50,
    ),
    (
        "field x: num; state n: int [0..3] = 0; update { n = ; } report { n = n; }",
        52,
    ),
    (
        "field x: num; state n: int [0..3] = 0; update { n = 1 } report { n = n; }",
        54,
    ),
    (
        "field x: num; state n: int [0..3] = 0; update { n = (1; } report { n = n; }",
        54,
    ),
    (
        "field x: num; state n: int [0..3] = 0; update { n = 1 + ; } report { n = n; }",
        56,
    ),
    (
        "field x: num; state n: int [0..3] = 0; update { n = - ; } report { n = n; }",
        54,
    ),
    (
        "field x: num; state n: int [0..3] = 0; update { n = a == b == c; } report { n = n; }",
        59,
    ),
    (
        "field x: num; state n: int [0..3] = 0; update { n = is b; } report { n = n; }",
        52,
    ),
    (
        "field x: num; state n: int [0..3] = 0; update { n = t(); } report { n = n; }",
        54,
    ),
    (
        "field x: num; state n: int [0..3] = 0; update { n = t(1, ); } report { n = n; }",
        57,
    ),
    (
        "field x: num; state n: int [0..3] = 0; update { if n == 1 n = 1; } report { n = n; }",
        58,
    ),
    (
        "field x: num; state n: int [0..3] = 0; update { if n == 1 { } else n = 1; } \
         report { n = n; }",
        67,
    ),
    (
        "field x: num; state n: int [0..3] = 0; update { else { } } report { n = n; }",
        48,
    ),
    (
        "field x: num; state n: int [0..3] = 0; update { keep n; } report { n = n; }",
        54,
    ),
    (
        "field x: num; state n: int [0..3] = 0; update { keep n(1, ); } report { n = n; }",
        58,
    ),
    (
        "field x: num; state n: int [0..3] = 0; update { keep n from 1; } report { n = n; }",
        60,
    ),
    (
        "field x: num; state n: int [0..3] = 0; update { push 1; } report { n = n; }",
        53,
    ),
    (
        "field x: num; state n: int [0..3] = 0; update { let 1 = 1; } report { n = n; }",
        52,
    ),
    (
        "field x: num; state n: int [0..3] = 0; update { let n 1; } report { n = n; }",
        54,
    ),
    (
        "field x: num; state n: int [0..3] = 0; update { clamp } report { n = n; }",
        48,
    ),
    (
        "field x: num; state n: int [0..3] = 0; update { n = 1; } report { n = n; } x",
        75,
    ),
];

/// A text of one thing of a kind after another.
struct Counted {
    which: LimitKind,
    before: &'static str,
    unit: &'static str,
    middle: &'static str,
    close: &'static str,
    after: &'static str,
    /// How many units still keep the number, and the place of the token that passes it.
    fits: u16,
    at: u32,
}

const COUNTED: [Counted; 20] = [
    Counted {
        which: LimitKind::Enums,
        before: "",
        unit: "enum e { a } ",
        middle: "",
        close: "",
        after: "field x: num; state n: words; update { } report { n = n; }",
        fits: 16,
        at: 208,
    },
    Counted {
        which: LimitKind::Labels,
        before: "enum e { a",
        unit: ", a",
        middle: "",
        close: "",
        after: " } field x: num; state n: words; update { } report { n = n; }",
        fits: 31,
        at: 105,
    },
    Counted {
        which: LimitKind::Fields,
        before: "field x: num; ",
        unit: "field x: num; ",
        middle: "",
        close: "",
        after: "state n: words; update { } report { n = n; }",
        fits: 31,
        at: 448,
    },
    Counted {
        which: LimitKind::Cells,
        before: "field x: num; state n: words; ",
        unit: "state n: words; ",
        middle: "",
        close: "",
        after: "update { } report { n = n; }",
        fits: 31,
        at: 526,
    },
    Counted {
        which: LimitKind::Tests,
        before: "field x: num; state n: words; ",
        unit: "test t(a: num) = 1 == 1; ",
        middle: "",
        close: "",
        after: "update { } report { n = n; }",
        fits: 32,
        at: 830,
    },
    Counted {
        which: LimitKind::Parameters,
        before: "field x: num; state n: words; test t(a: num",
        unit: ", a: num",
        middle: "",
        close: "",
        after: ") = 1 == 1; update { } report { n = n; }",
        fits: 7,
        at: 101,
    },
    Counted {
        which: LimitKind::Parts,
        before: "field x: num; state n: hold(num = 0",
        unit: ", num = 0",
        middle: "",
        close: "",
        after: "); update { } report { n = n; }",
        fits: 3,
        at: 64,
    },
    Counted {
        which: LimitKind::Statements,
        before: "field x: num; state n: int [0..3] = 0; update { ",
        unit: "n = 1;",
        middle: "",
        close: "",
        after: " } report { n = n; }",
        fits: 512,
        at: 3120,
    },
    Counted {
        which: LimitKind::Depth,
        before: "field x: num; state n: int [0..3] = 0; update { n = ",
        unit: "(",
        middle: "1",
        close: ")",
        after: "; } report { n = n; }",
        fits: 64,
        at: 116,
    },
    Counted {
        which: LimitKind::Depth,
        before: "field x: num; state n: int [0..3] = 0; update { n = ",
        unit: "t(",
        middle: "1",
        close: ")",
        after: "; } report { n = n; }",
        fits: 64,
        at: 181,
    },
    Counted {
        which: LimitKind::Depth,
        before: "field x: num; state n: int [0..3] = 0; update { n = ",
        unit: "- ",
        middle: "1",
        close: "",
        after: "; } report { n = n; }",
        fits: 64,
        at: 180,
    },
    Counted {
        which: LimitKind::Depth,
        before: "field x: num; state n: int [0..3] = 0; update { n = ",
        unit: "not ",
        middle: "1",
        close: "",
        after: "; } report { n = n; }",
        fits: 64,
        at: 308,
    },
    Counted {
        which: LimitKind::Depth,
        before: "field x: num; state n: int [0..3] = 0; update { ",
        unit: "if n == 1 { ",
        middle: "",
        close: "}",
        after: " } report { n = n; }",
        fits: 64,
        at: 816,
    },
    Counted {
        which: LimitKind::Depth,
        before: "field x: num; state n: int [0..3] = 0; update { ",
        unit: "if n == 1 { } else ",
        middle: "{ }",
        close: "",
        after: " } report { n = n; }",
        fits: 64,
        at: 1264,
    },
    Counted {
        which: LimitKind::Operands,
        before: "field x: num; state n: int [0..3] = 0; update { n = n",
        unit: " + n",
        middle: "",
        close: "",
        after: "; } report { n = n; }",
        fits: 255,
        at: 1076,
    },
    Counted {
        which: LimitKind::Operands,
        before: "field x: num; state n: int [0..3] = 0; update { n = t(n",
        unit: ", n",
        middle: "",
        close: "",
        after: "); } report { n = n; }",
        fits: 254,
        at: 819,
    },
    Counted {
        which: LimitKind::Operands,
        before: "field x: num; state n: int [0..3] = 0; update { n = 1",
        unit: " + 1",
        middle: "",
        close: "",
        after: "; } report { n = n; }",
        fits: 255,
        at: 1076,
    },
    Counted {
        which: LimitKind::Operands,
        before: "field x: num; state n: int [0..3] = 0; update { n = t(\"a\"",
        unit: ", \"a\"",
        middle: "",
        close: "",
        after: "); } report { n = n; }",
        fits: 254,
        at: 1329,
    },
    Counted {
        which: LimitKind::Columns,
        before: "field x: num; state n: words; update { } report { n = n; ",
        unit: "n = n; ",
        middle: "",
        close: "",
        after: "}",
        fits: 31,
        at: 274,
    },
    Counted {
        which: LimitKind::GroupFields,
        before: "field a: num; field b: num; field c: num; field d: num; group a, b, c",
        unit: ", d",
        middle: "",
        close: "",
        after: "; state n: words; update { } report { n = n; }",
        fits: 0,
        at: 71,
    },
];

fn answer_to(alloc: Global, rt: &impl Abort, text: &str) -> Option<ParseErr> {
    assert!(rt;
        text.len() < 100_000,
        "found {} bytes, wanted a shorter text",
        text.len()
    );
    match parse(alloc, text.as_bytes()) {
        Ok(_) => None,
        Err(err) => Some(err),
    }
}

fn assert_answer(alloc: Global, rt: &impl Abort, text: &str, wanted: Option<ParseErr>) {
    assert_eq!(rt; answer_to(alloc, rt, text), wanted, "{text}");
}

#[test]
fn stops_where_no_sentence_goes_on(rt: HostRuntime) {
    for (text, at) in UNEXPECTED {
        assert_answer(rt.alloc(), &rt, text, Some(ParseErr::Expected { at }));
    }
}

fn with_count(alloc: Global, row: &Counted, count: usize) -> Result<String, AllocError> {
    let mut text = String::from_str(alloc, row.before)?;
    for _ in 0..count {
        text.push_str(row.unit)?;
    }
    text.push_str(row.middle)?;
    for _ in 0..count {
        text.push_str(row.close)?;
    }
    text.push_str(row.after)?;
    Ok(text)
}

fn assert_fits(alloc: Global, rt: &impl Abort, row: &Counted) -> Result<(), Fail> {
    let text = with_count(alloc, row, usize::from(row.fits))?;
    assert_answer(alloc, rt, &text, None);
    Ok(())
}

fn assert_passed(alloc: Global, rt: &impl Abort, row: &Counted) -> Result<(), Fail> {
    let text = with_count(alloc, row, usize::from(row.fits) + 1)?;
    let passed = ParseErr::Limit {
        at: row.at,
        which: row.which,
    };
    assert_answer(alloc, rt, &text, Some(passed));
    Ok(())
}

#[test]
fn stops_where_a_number_is_passed(rt: HostRuntime) -> Result<(), Fail> {
    for row in &COUNTED {
        assert_fits(rt.alloc(), &rt, row)?;
        assert_passed(rt.alloc(), &rt, row)?;
    }
    Ok(())
}

/// Whether the kind's items stand between commas, so that one has to follow a comma.
fn is_separated(which: LimitKind) -> bool {
    matches!(
        which,
        LimitKind::Labels | LimitKind::Parameters | LimitKind::Parts | LimitKind::GroupFields
    )
}

/// As many items as there may be, and then a comma with no item after it.
fn with_comma(alloc: Global, row: &Counted) -> Result<String, AllocError> {
    let mut text = String::from_str(alloc, row.before)?;
    for _ in 0..row.fits {
        text.push_str(row.unit)?;
    }
    text.push_str(", ;")?;
    Ok(text)
}

fn assert_no_item(alloc: Global, rt: &impl Abort, row: &Counted) -> Result<(), Fail> {
    let text = with_comma(alloc, row)?;
    assert_answer(alloc, rt, &text, Some(ParseErr::Expected { at: row.at }));
    Ok(())
}

#[test]
fn what_begins_no_item_is_unexpected_after_the_last_one(rt: HostRuntime) -> Result<(), Fail> {
    for row in &COUNTED {
        if is_separated(row.which) {
            assert_no_item(rt.alloc(), &rt, row)?;
        }
    }
    Ok(())
}

/// The last `if` passes the number of statements, and the number of levels.
fn nested_ifs(alloc: Global) -> Result<String, AllocError> {
    let mut text = String::from_str(alloc, "field x: num; state n: int [0..3] = 0; update { ")?;
    for _ in 0..448 {
        text.push_str("n = 1;")?;
    }
    for _ in 0..65 {
        text.push_str("if n == 1 { ")?;
    }
    Ok(text)
}

#[test]
fn an_if_passes_the_number_of_statements_first(rt: HostRuntime) -> Result<(), Fail> {
    let text = nested_ifs(rt.alloc())?;
    let passed = ParseErr::Limit {
        at: 3504,
        which: LimitKind::Statements,
    };
    assert_answer(rt.alloc(), &rt, &text, Some(passed));
    Ok(())
}

#[test]
fn a_lexical_fault_comes_first(rt: HostRuntime) {
    let rows = [
        ("field x num; 12x", LexFault::BadNumber { at: 13 }),
        (
            "field x: num; state n: int [0..3] = 0; update { n = 1000000000001; } \
             report { n = n; }",
            LexFault::BadNumber { at: 52 },
        ),
        (
            "field x: num; state n: int [0..3] = 0; update { n = \"a; } report { n = n; }",
            LexFault::BadText { at: 52 },
        ),
        (
            "field x: num; state n: int [0..3] = 0; update { $ } report { n = n; }",
            LexFault::BadByte { at: 48 },
        ),
    ];
    for (text, fault) in rows {
        assert_answer(rt.alloc(), &rt, text, Some(ParseErr::Lex(fault)));
    }
}

fn assert_text(alloc: Global, rt: &impl Abort, err: &ParseErr, wanted: &str) -> Result<(), Fail> {
    let text = format!(in alloc; "{err}")?;
    assert_eq!(rt; text.as_str(), wanted);
    Ok(())
}

#[test]
fn the_text_of_an_error_is_its_variant(rt: HostRuntime) -> Result<(), Fail> {
    let alloc = rt.alloc();
    let fault = LexFault::BadByte { at: 0 };
    let which = LimitKind::Depth;
    assert_text(alloc, &rt, &ParseErr::Lex(fault), "Lex")?;
    assert_text(alloc, &rt, &ParseErr::Expected { at: 0 }, "Expected")?;
    assert_text(alloc, &rt, &ParseErr::Limit { at: 0, which }, "Limit")?;
    assert_text(alloc, &rt, &ParseErr::NoMemory, "NoMemory")
}
