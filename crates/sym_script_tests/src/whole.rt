//! Whole scripts: examples, refusals with their places, and the order of a script's parts.
use crate::rows::{Wanted, answer_to, check_text};
use std::test::Fail;
use sym_check::CheckErr;

/// Scripts that are accepted, with their path bounds.
const ACCEPTED: [(&str, u32); 12] = [
    (
        "field x: num; state n: int [0..3] = 0; update { n = n + 1; } report { n = n; }",
        3,
    ),
    (
        "field x: num; state n: int [0..3] = 0 clamp; update { n = n + 1; } report { n = n; }",
        3,
    ),
    (
        "field ts: num; field user: word; group user; state last: hold(num = 0); \
         state n: int [0..1000] = 0; state done: nums [0..1000]; \
         test gap(h: num, t: num) = t - h > 30; \
         update { if gap(last, ts) { push done n; n = 1; } else { n = n + 1; } keep last(ts); } \
         report { sessions = count(done); open = n; longest = max(done); }",
        8,
    ),
    (
        "enum mode { idle, busy } field x: num; state phase: mode = idle; \
         update { if phase is idle { phase = busy; } else { phase = idle; } } \
         report { phase = phase; }",
        2,
    ),
    (
        "enum case { k1, k2, k3, k4, k5, k6 } field x: num; state c: case = k1; \
         update { if c is k1 or c is k2 or c is k3 or c is k4 { c = k5; } } report { c = c; }",
        5,
    ),
    (
        "enum mode { idle, busy } field x: num; state phase: mode = idle; \
         state n: int [0..10] = 0; update { if n < 5 and phase is idle { n = 0; } } \
         report { n = n; }",
        5,
    ),
    (
        "enum action { view, cart, buy } enum stage { fresh, carted } \
         field user from \"User ID\": word; field what from \"Action\": action; \
         field cents from \"Amount\": num else 0; group user; state at: stage = fresh; \
         state buys: int [0..1000000] = 0; state paid: nums [0..1000000000000]; \
         update { if what is cart { at = carted; } \
         else if what is buy and at is carted { buys = buys + 1; push paid cents; at = fresh; } } \
         report { buys = buys; paid = sum(paid); biggest = max(paid); }",
        7,
    ),
    (
        "field user: word; group user; state n: int [0..1000000] = 0; update { n = n + 1; } \
         report { n = n; }",
        3,
    ),
    (
        "field user: word; field x: num else 0; group user; \
         state n: int [-1000000000000..1000000000000] = 0; \
         state xs: nums [-1000000000000..1000000000000]; update { n = n + x; push xs x; } \
         report { n = n; big = sum(xs) * 1000000000000; }",
        5,
    ),
    (
        "field user: word; group user; state n: int [0..9] = 7; state xs: nums [0..9]; \
         update { } report { q = n / 0; r = n / 2 - 10; m = min(xs); k = max(xs) + 1; }",
        1,
    ),
    // The names of report functions are names as others.
    (
        "field sum: num; state count: nums [0..9]; state part: hold(num = 0); \
         test max(first: num, last: num) = first < last; \
         update { let min = sum; if max(part, min) { push count 1; } } \
         report { count = count(count); part = part(part, 1); sum = sum(count); }",
        4,
    ),
    // Several fields may have one header.
    (
        "field a from \"x\": num; field x: word; state n: words; update { push n x; } \
         report { n = first(n); }",
        1,
    ),
];

#[test]
fn examples_are_accepted_with_their_bounds(rt: HostRuntime) {
    for (text, paths) in ACCEPTED {
        assert_eq!(rt; answer_to(&rt, rt.alloc(), text), Ok(paths), "{text}");
    }
}

/// Scripts that are refused, with places as numbers.
const REFUSED: [(&str, CheckErr); 9] = [
    (
        "field x: num; state n: int [0..3] = 0; update { n = n * n; } report { n = n; }",
        CheckErr::NotLinear { at: 54 },
    ),
    (
        "field x: num; state n: int [0..3] = 0; update { n = n + n; } report { n = n; }",
        CheckErr::NotLinear { at: 54 },
    ),
    (
        "field x: num; state n: int [0..3] = 0; update { n = m; } report { n = n; }",
        CheckErr::Name { at: 52 },
    ),
    (
        "field x: num; state n: int [0..3] = 0; update { n = \"a\"; } report { n = n; }",
        CheckErr::Kind { at: 52 },
    ),
    (
        "field x: num; state n: int [0..3] = 0; update { n = 1 + \"a\"; } report { n = n; }",
        CheckErr::Kind { at: 54 },
    ),
    (
        "field x: num; state n: int [0..3] = 0; update { let n = 1; } report { n = n; }",
        CheckErr::Twice { at: 52 },
    ),
    (
        "field x: num; state n: int [0..3] = 0; update { if n { } } report { n = n; }",
        CheckErr::Kind { at: 51 },
    ),
    (
        "field x: num; state n: int [3..0] = 0; update { n = n + 1; } report { n = n; }",
        CheckErr::Range { at: 20 },
    ),
    (
        "field a: num; group a, a; state n: words; update { } report { n = n; }",
        CheckErr::Twice { at: 23 },
    ),
];

#[test]
fn scripts_are_refused_at_their_places(rt: HostRuntime) {
    for (text, fault) in REFUSED {
        assert_eq!(rt; answer_to(&rt, rt.alloc(), text), Err(fault), "{text}");
    }
}

/// Scripts with two faults or more: the first in the text is the answer.
const ORDERED: [(&str, Wanted); 15] = [
    (
        "enum a { b, @b } field x: kind; state n: words; update { } report { n = n; }",
        Wanted::Twice,
    ),
    (
        "field x: @kind; group y; state n: words; update { } report { n = n; }",
        Wanted::Name,
    ),
    (
        "field x: num; group @y; state n: int [3..0] = 0; update { } report { n = n; }",
        Wanted::Name,
    ),
    (
        "field x: num; group x, @x; state n: int [3..0] = 0; update { } report { n = n; }",
        Wanted::Twice,
    ),
    (
        "field x: num; state @n: int [3..0] = 0; test t(x: num) = x; update { } report { n = n; }",
        Wanted::Range,
    ),
    (
        "field x: num; state n: words; test t(a: num) = @a; test t(a: num) = a > 0; update { } \
         report { n = n; }",
        Wanted::Kind,
    ),
    (
        "field x: num; state n: words; test t(a: num) = a > @b; update { n = m; } \
         report { n = n; }",
        Wanted::Name,
    ),
    (
        "field x: num; state n: words; update { push @m 1; } report { n = m; }",
        Wanted::Name,
    ),
    (
        "field x: num; state n: words; update { } report { n = @m; n = n; }",
        Wanted::Name,
    ),
    // A parameter's name is that of a later test, a local's that of a test.
    (
        "field x: num; state n: words; test t(@u: num) = u; test u(a: num) = b; update { } \
         report { n = n; }",
        Wanted::Twice,
    ),
    (
        "field x: num; state n: words; test t(a: num) = a > 0; update { let @t = m; } \
         report { n = n; }",
        Wanted::Twice,
    ),
    // Comments and line ends count as bytes of the text.
    (
        "# caf\u{e9}\nfield x: num;\r\nstate n: words;\nupdate { push @m 1; }\nreport { n = n; }\n",
        Wanted::Name,
    ),
    (
        "field x: word else \"\u{e9}\"; state n: words; update { push n x @+ 1; } \
         report { n = n; }",
        Wanted::Kind,
    ),
    (
        "field\tx: word; state n: words; update { push n x; push n @1; } report { n = n; }",
        Wanted::Kind,
    ),
    (
        "field x: word; state n: words; update { push n x; } report { n = n; }",
        Wanted::Paths(1),
    ),
];

#[test]
fn the_first_fault_of_the_text_is_answered(rt: HostRuntime) -> Result<(), Fail> {
    for (text, wanted) in ORDERED {
        check_text(&rt, rt.alloc(), text, wanted)?;
    }
    Ok(())
}

#[test]
fn the_text_of_an_error_is_its_variant(rt: HostRuntime) -> Result<(), Fail> {
    let texts = [
        (CheckErr::Name { at: 1 }, "Name"),
        (CheckErr::Twice { at: 2 }, "Twice"),
        (CheckErr::Kind { at: 3 }, "Kind"),
        (CheckErr::Range { at: 4 }, "Range"),
        (CheckErr::NotLinear { at: 5 }, "NotLinear"),
        (CheckErr::Branchy { paths: 2048 }, "Branchy"),
        (CheckErr::NoMemory, "NoMemory"),
    ];
    'texts: for (error, wanted) in texts {
        let text = format!(in rt.alloc(); "{}", error)?;
        assert_eq!(rt; text.as_str(), wanted);
    }
    Ok(())
}
