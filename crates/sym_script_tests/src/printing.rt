use std::alloc::{AllocError, Global};
use std::process::Abort;
use std::test::Fail;
use sym_given::{all_hold, bytes_differ, told_by};
use sym_parse::{parse, print};

/// Expressions with more than operators of two operands, as they are read and as they are printed.
const EXPRESSIONS: [(&str, &str); 24] = [
    ("-(a + b)", "-(a + b)"),
    ("-(a * b)", "-(a * b)"),
    ("(-a) * b", "-a * b"),
    ("a * (-b)", "a * -b"),
    ("a - (-b)", "a - -b"),
    ("- ( - a )", "--a"),
    ("-(f(a))", "-f(a)"),
    ("-(not a)", "-(not a)"),
    ("not (-a)", "not -a"),
    ("not (not a)", "not not a"),
    ("not (a is b)", "not a is b"),
    ("(not a) is b", "(not a) is b"),
    ("a is (not b)", "a is (not b)"),
    ("not (a and b)", "not (a and b)"),
    ("(not a) and b", "not a and b"),
    ("a and (not b)", "a and not b"),
    ("a + (not b)", "a + (not b)"),
    ("(a + b) <= (c * d)", "a + b <= c * d"),
    ("(a > b) and (c >= d)", "a > b and c >= d"),
    ("f((a), b or c,((1)))", "f(a, b or c, 1)"),
    ("f(f(-1))", "f(f(-1))"),
    ("\"a \\\" \\\\ b\"", "\"a \\\" \\\\ b\""),
    ("\"\"", "\"\""),
    ("00012", "12"),
];

/// The operators of two operands, and how tightly each binds.
const OPERATORS: [(&str, u8); 14] = [
    ("or", 1),
    ("and", 2),
    ("==", 3),
    ("!=", 3),
    ("<", 3),
    ("<=", 3),
    (">", 3),
    (">=", 3),
    ("is", 3),
    ("+", 4),
    ("-", 4),
    ("*", 5),
    ("/", 5),
    ("%", 5),
];

/// How tightly a comparison binds. It takes no other comparison as an operand.
const COMPARISON: u8 = 3;

/// Scripts as they are read, and as they are printed.
const SCRIPTS: [(&str, &str); 12] = [
    (
        "field x: num; state n: int [0..3] = 0; update { n = n + 1; } report { n = n; }",
        "field x: num;\n\
         state n: int [0..3] = 0;\n\
         update {\n\
         \x20 n = n + 1;\n\
         }\n\
         report {\n\
         \x20 n = n;\n\
         }\n",
    ),
    (
        "field user: word; field day: word; field x: num; group user,day , x ;\n\
         state n: int [-3..3] = -0 clamp; state xs: nums [0..9]\nclamp ;\n\
         update { n = n + x; push xs x; } report { n = n; }",
        "field user: word;\n\
         field day: word;\n\
         field x: num;\n\
         group user, day, x;\n\
         state n: int [-3..3] = 0 clamp;\n\
         state xs: nums [0..9] clamp;\n\
         update {\n\
         \x20 n = n + x;\n\
         \x20 push xs x;\n\
         }\n\
         report {\n\
         \x20 n = n;\n\
         }\n",
    ),
    (
        "field ts: num;\n\
         field user: word;\n\
         group user;\n\
         state last: hold(num = 0);\n\
         state n: int [0..1000] = 0;\n\
         state done: nums [0..1000];\n\
         test gap(h: num, t: num) = t - h > 30;\n\
         update {\n\
         \x20 if gap(last, ts) { push done n; n = 1; } else { n = n + 1; }\n\
         \x20 keep last(ts);\n\
         }\n\
         report { sessions = count(done); open = n; longest = max(done); }\n",
        "field ts: num;\n\
         field user: word;\n\
         group user;\n\
         state last: hold(num = 0);\n\
         state n: int [0..1000] = 0;\n\
         state done: nums [0..1000];\n\
         test gap(h: num, t: num) = t - h > 30;\n\
         update {\n\
         \x20 if gap(last, ts) {\n\
         \x20   push done n;\n\
         \x20   n = 1;\n\
         \x20 } else {\n\
         \x20   n = n + 1;\n\
         \x20 }\n\
         \x20 keep last(ts);\n\
         }\n\
         report {\n\
         \x20 sessions = count(done);\n\
         \x20 open = n;\n\
         \x20 longest = max(done);\n\
         }\n",
    ),
    (
        "enum mode { idle, busy }\n\
         field x: num;\n\
         state phase: mode = idle;\n\
         update { if phase is idle { phase = busy; } else { phase = idle; } }\n\
         report { phase = phase; }\n",
        "enum mode { idle, busy }\n\
         field x: num;\n\
         state phase: mode = idle;\n\
         update {\n\
         \x20 if phase is idle {\n\
         \x20   phase = busy;\n\
         \x20 } else {\n\
         \x20   phase = idle;\n\
         \x20 }\n\
         }\n\
         report {\n\
         \x20 phase = phase;\n\
         }\n",
    ),
    (
        "enum case { k1, k2, k3, k4, k5, k6 }\n\
         field x: num;\n\
         state c: case = k1;\n\
         update { if c is k1 or c is k2 or c is k3 or c is k4 { c = k5; } }\n\
         report { c = c; }\n",
        "enum case { k1, k2, k3, k4, k5, k6 }\n\
         field x: num;\n\
         state c: case = k1;\n\
         update {\n\
         \x20 if c is k1 or c is k2 or c is k3 or c is k4 {\n\
         \x20   c = k5;\n\
         \x20 }\n\
         }\n\
         report {\n\
         \x20 c = c;\n\
         }\n",
    ),
    (
        "enum mode { idle, busy }\n\
         field x: num;\n\
         state phase: mode = idle;\n\
         state n: int [0..10] = 0;\n\
         update { if n < 5 and phase is idle { n = 0; } }\n\
         report { n = n; }\n",
        "enum mode { idle, busy }\n\
         field x: num;\n\
         state phase: mode = idle;\n\
         state n: int [0..10] = 0;\n\
         update {\n\
         \x20 if n < 5 and phase is idle {\n\
         \x20   n = 0;\n\
         \x20 }\n\
         }\n\
         report {\n\
         \x20 n = n;\n\
         }\n",
    ),
    (
        "enum action { view, cart, buy }\n\
         enum stage { fresh, carted }\n\
         field user from \"User ID\": word;\n\
         field what from \"Action\": action;\n\
         field cents from \"Amount\": num else 0;\n\
         group user;\n\
         state at: stage = fresh;\n\
         state buys: int [0..1000000] = 0;\n\
         state paid: nums [0..1000000000000];\n\
         update {\n\
         \x20 if what is cart { at = carted; }\n\
         \x20 else if what is buy and at is carted {\n\
         \x20   buys = buys + 1; push paid cents; at = fresh;\n\
         \x20 }\n\
         }\n\
         report { buys = buys; paid = sum(paid); biggest = max(paid); }\n",
        "enum action { view, cart, buy }\n\
         enum stage { fresh, carted }\n\
         field user from \"User ID\": word;\n\
         field what from \"Action\": action;\n\
         field cents from \"Amount\": num else 0;\n\
         group user;\n\
         state at: stage = fresh;\n\
         state buys: int [0..1000000] = 0;\n\
         state paid: nums [0..1000000000000];\n\
         update {\n\
         \x20 if what is cart {\n\
         \x20   at = carted;\n\
         \x20 } else if what is buy and at is carted {\n\
         \x20   buys = buys + 1;\n\
         \x20   push paid cents;\n\
         \x20   at = fresh;\n\
         \x20 }\n\
         }\n\
         report {\n\
         \x20 buys = buys;\n\
         \x20 paid = sum(paid);\n\
         \x20 biggest = max(paid);\n\
         }\n",
    ),
    (
        "field user: word;\n\
         group user;\n\
         state n: int [0..1000000] = 0;\n\
         update { n = n + 1; }\n\
         report { n = n; }\n",
        "field user: word;\n\
         group user;\n\
         state n: int [0..1000000] = 0;\n\
         update {\n\
         \x20 n = n + 1;\n\
         }\n\
         report {\n\
         \x20 n = n;\n\
         }\n",
    ),
    (
        "field user: word;\n\
         field x: num else 0;\n\
         group user;\n\
         state n: int [-1000000000000..1000000000000] = 0;\n\
         state xs: nums [-1000000000000..1000000000000];\n\
         update { n = n + x; push xs x; }\n\
         report { n = n; big = sum(xs) * 1000000000000; }\n",
        "field user: word;\n\
         field x: num else 0;\n\
         group user;\n\
         state n: int [-1000000000000..1000000000000] = 0;\n\
         state xs: nums [-1000000000000..1000000000000];\n\
         update {\n\
         \x20 n = n + x;\n\
         \x20 push xs x;\n\
         }\n\
         report {\n\
         \x20 n = n;\n\
         \x20 big = sum(xs) * 1000000000000;\n\
         }\n",
    ),
    (
        "field user: word;\n\
         group user;\n\
         state n: int [0..9] = 7;\n\
         state xs: nums [0..9];\n\
         update { }\n\
         report { q = n / 0; r = n / 2 - 10; m = min(xs); k = max(xs) + 1; }\n",
        "field user: word;\n\
         group user;\n\
         state n: int [0..9] = 7;\n\
         state xs: nums [0..9];\n\
         update {\n\
         }\n\
         report {\n\
         \x20 q = n / 0;\n\
         \x20 r = n / 2 - 10;\n\
         \x20 m = min(xs);\n\
         \x20 k = max(xs) + 1;\n\
         }\n",
    ),
    (
        "enum stage { fresh, carted }\n\
         field user from \"User \\\"ID\\\\\": word;\n\
         field what: stage else carted;\n\
         field cents: num else -007;\n\
         field note: word else \"\";\n\
         group user;\n\
         state buys: int [-3..1000000] = -0;\n\
         state seen: words;\n\
         state kept: hold(word = \"\", stage = fresh, num = -1);\n\
         update {\n\
         \x20 if what is carted { push seen \"a\\\"\"; }\n\
         \x20 else if cents > 1 { let a = -cents; }\n\
         \x20 else { if what is fresh { } let a = -cents; }\n\
         \x20 keep kept from kept;\n\
         \x20 keep kept ( note , what , (cents) ) ;\n\
         }\n\
         report { buys = (buys); }\n",
        "enum stage { fresh, carted }\n\
         field user from \"User \\\"ID\\\\\": word;\n\
         field what: stage else carted;\n\
         field cents: num else -7;\n\
         field note: word else \"\";\n\
         group user;\n\
         state buys: int [-3..1000000] = 0;\n\
         state seen: words;\n\
         state kept: hold(word = \"\", stage = fresh, num = -1);\n\
         update {\n\
         \x20 if what is carted {\n\
         \x20   push seen \"a\\\"\";\n\
         \x20 } else if cents > 1 {\n\
         \x20   let a = -cents;\n\
         \x20 } else {\n\
         \x20   if what is fresh {\n\
         \x20   }\n\
         \x20   let a = -cents;\n\
         \x20 }\n\
         \x20 keep kept from kept;\n\
         \x20 keep kept(note, what, cents);\n\
         }\n\
         report {\n\
         \x20 buys = buys;\n\
         }\n",
    ),
    (
        "field x: num;\n\
         state n: int [0..3] = 0;\n\
         update { if n == 0 { } else { if n == 1 { n = 0; } else { } } }\n\
         report { n = n; }\n",
        "field x: num;\n\
         state n: int [0..3] = 0;\n\
         update {\n\
         \x20 if n == 0 {\n\
         \x20 } else if n == 1 {\n\
         \x20   n = 0;\n\
         \x20 }\n\
         }\n\
         report {\n\
         \x20 n = n;\n\
         }\n",
    ),
];

/// What is printed of the script that is read.
fn printed(alloc: Global, rt: &impl Abort, text: &[u8]) -> Result<Vec<u8>, Fail> {
    assert!(rt;
        text.len() < 100_000,
        "found {} bytes, wanted a shorter text",
        text.len()
    );
    let script = parse(alloc, text)?;
    Ok(print(alloc, &script)?)
}

/// That a text is printed so.
fn assert_form(alloc: Global, rt: &impl Abort, read: &str, wanted: &str) -> Result<(), Fail> {
    let text = printed(alloc, rt, read.as_bytes())?;
    let told = bytes_differ(alloc, text.as_slice(), wanted.as_bytes())?;
    all_hold(told_by(alloc, &read, told))
}

/// A script with an expression, as it is read.
fn source(alloc: Global, expression: &str) -> Result<String, AllocError> {
    format!(in alloc;
        "field x: num; state n: int [0..3] = 0; update {{ n = {expression}; }} report {{ n = n; }}"
    )
}

/// The same as it is printed.
fn form(alloc: Global, expression: &str) -> Result<String, AllocError> {
    format!(in alloc;
        "field x: num;\n\
         state n: int [0..3] = 0;\n\
         update {{\n\
         \x20 n = {expression};\n\
         }}\n\
         report {{\n\
         \x20 n = n;\n\
         }}\n"
    )
}

/// That an expression is printed so within a script.
fn assert_printed(alloc: Global, rt: &impl Abort, read: &str, wanted: &str) -> Result<(), Fail> {
    let source = source(alloc, read)?;
    let form = form(alloc, wanted)?;
    assert_form(alloc, rt, &source, &form)
}

#[test]
fn expressions_are_printed_in_their_one_form(rt: HostRuntime) -> Result<(), Fail> {
    for (read, wanted) in EXPRESSIONS {
        assert_printed(rt.alloc(), &rt, read, wanted)?;
    }
    Ok(())
}

/// What stands around an operand: parentheses, or nothing.
fn brackets(bare: bool) -> (&'static str, &'static str) {
    if bare { ("", "") } else { ("(", ")") }
}

/// The inner operator to the left of the outer one.
fn on_the_left(alloc: Global, inner: &str, outer: &str, bare: bool) -> Result<String, AllocError> {
    let (open, close) = brackets(bare);
    format!(in alloc; "{open}a {inner} b{close} {outer} c")
}

/// And to its right.
fn on_the_right(alloc: Global, inner: &str, outer: &str, bare: bool) -> Result<String, AllocError> {
    let (open, close) = brackets(bare);
    format!(in alloc; "c {outer} {open}a {inner} b{close}")
}

fn assert_left(
    alloc: Global,
    rt: &impl Abort,
    inner: &str,
    outer: &str,
    bare: bool,
) -> Result<(), Fail> {
    let read = on_the_left(alloc, inner, outer, false)?;
    let wanted = on_the_left(alloc, inner, outer, bare)?;
    assert_printed(alloc, rt, &read, &wanted)
}

fn assert_right(
    alloc: Global,
    rt: &impl Abort,
    inner: &str,
    outer: &str,
    bare: bool,
) -> Result<(), Fail> {
    let read = on_the_right(alloc, inner, outer, false)?;
    let wanted = on_the_right(alloc, inner, outer, bare)?;
    assert_printed(alloc, rt, &read, &wanted)
}

/// That each operator is printed as it must be on both sides of this one.
fn assert_nested(alloc: Global, rt: &impl Abort, outer: &str, level: u8) -> Result<(), Fail> {
    for (inner, binds) in OPERATORS {
        let tighter = binds > level;
        let grouped = binds == level && level != COMPARISON;
        assert_left(alloc, rt, inner, outer, tighter || grouped)?;
        assert_right(alloc, rt, inner, outer, tighter)?;
    }
    Ok(())
}

#[test]
fn parentheses_are_printed_where_an_operator_needs_them(rt: HostRuntime) -> Result<(), Fail> {
    for (outer, level) in OPERATORS {
        assert_nested(rt.alloc(), &rt, outer, level)?;
    }
    Ok(())
}

#[test]
fn scripts_are_printed_in_their_one_form(rt: HostRuntime) -> Result<(), Fail> {
    for (read, wanted) in SCRIPTS {
        assert_form(rt.alloc(), &rt, read, wanted)?;
        assert_form(rt.alloc(), &rt, wanted, wanted)?;
    }
    Ok(())
}

/// A script whose `keep` has 16,000 values, as it is printed.
fn many_values(alloc: Global) -> Result<String, AllocError> {
    let mut text = String::from_str(
        alloc,
        "field x: num;\n\
         state h: hold(num = 0);\n\
         update {\n\
         \x20 keep h(1",
    )?;
    for _value in 1..16_000u32 {
        text.push_str(", 1")?;
    }
    text.push_str(
        ");\n\
         }\n\
         report {\n\
         \x20 n = x;\n\
         }\n",
    )?;
    Ok(text)
}

#[test]
fn a_keep_of_many_values_is_read_printed_and_freed(rt: HostRuntime) -> Result<(), Fail> {
    let text = many_values(rt.alloc())?;
    assert_form(rt.alloc(), &rt, &text, &text)
}
