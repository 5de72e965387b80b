//! The path bound.
use crate::rows::{UPDATE, Wanted, check_rows};
use std::test::Fail;

/// Paths of statements: an assignment to an integer cell and a number pushed may overflow, and end
/// at either end of the range where the cell clamps.
const STATEMENTS: [(&str, Wanted); 31] = [
    ("", Wanted::Paths(1)),
    ("let z = 1;", Wanted::Paths(1)),
    ("phase = busy; phase = earlier;", Wanted::Paths(1)),
    ("keep h(x); keep h from g;", Wanted::Paths(1)),
    ("push ws who;", Wanted::Paths(1)),
    ("n = 1;", Wanted::Paths(3)),
    ("push xs 1;", Wanted::Paths(3)),
    ("n = 1; push xs 1;", Wanted::Paths(5)),
    ("n = 1; phase = busy; k = 1; n = 1;", Wanted::Paths(7)),
    ("if n < 3 { } if k < 3 { }", Wanted::Paths(4)),
    ("if n < 3 { } n = 1;", Wanted::Paths(6)),
    ("n = 1; if n < 3 { }", Wanted::Paths(4)),
    ("n = 1; if n < 3 { } n = 1;", Wanted::Paths(8)),
    ("if n < 3 { n = 1; }", Wanted::Paths(4)),
    ("if n < 3 { } else { n = 1; }", Wanted::Paths(4)),
    ("if n < 3 { n = 1; } else { n = 2; }", Wanted::Paths(6)),
    ("if n == 3 { n = 1; }", Wanted::Paths(5)),
    ("if n == 3 { } else { n = 1; }", Wanted::Paths(7)),
    ("if n == 3 { n = 1; } else { n = 2; }", Wanted::Paths(9)),
    ("if n != 3 { n = 1; }", Wanted::Paths(7)),
    (
        "if n < 3 { n = 1; } else if k < 3 { n = 2; } else { n = 3; }",
        Wanted::Paths(9),
    ),
    (
        "if n < 3 { if k < 3 { n = 1; } else { n = 2; } }",
        Wanted::Paths(7),
    ),
    ("capped = 1;", Wanted::Paths(3)),
    ("push caps 1;", Wanted::Paths(3)),
    ("capped = 1; push caps 1;", Wanted::Paths(9)),
    ("capped = 1; n = 1;", Wanted::Paths(9)),
    ("n = 1; capped = 1;", Wanted::Paths(5)),
    ("capped = 1; if n < 3 { }", Wanted::Paths(6)),
    ("if n < 3 { capped = 1; }", Wanted::Paths(4)),
    (
        "if n == 3 { capped = 1; } else { push caps 1; }",
        Wanted::Paths(9),
    ),
    (
        "capped = 1; capped = 1; capped = 1; capped = 1; capped = 1; capped = 1; capped = 1;",
        Wanted::Branchy(2187),
    ),
];

#[test]
fn statements_have_paths(rt: HostRuntime) -> Result<(), Fail> {
    check_rows(&rt, rt.alloc(), &UPDATE, &STATEMENTS)
}

/// Paths of conditions: a line equals a number on one path, and differs from it on two.
const CONDITIONS: [(&str, Wanted); 23] = [
    ("if not n < 3 { n = 1; n = 1; }", Wanted::Paths(6)),
    ("if not n == 3 { n = 1; }", Wanted::Paths(7)),
    ("if not n != 3 { n = 1; }", Wanted::Paths(5)),
    ("if n == 3 and k == 4 { }", Wanted::Paths(5)),
    ("if n == 3 or k == 4 { }", Wanted::Paths(7)),
    ("if n != 3 and k != 4 { }", Wanted::Paths(7)),
    ("if n != 3 or k != 4 { }", Wanted::Paths(5)),
    ("if n == 3 and k == 4 { n = 1; }", Wanted::Paths(7)),
    ("if n == 3 or k == 4 { n = 1; }", Wanted::Paths(13)),
    ("if n < 3 and k < 4 { n = 1; }", Wanted::Paths(5)),
    ("if n < 3 or k < 4 { n = 1; }", Wanted::Paths(7)),
    ("if phase is idle or phase is busy { }", Wanted::Paths(3)),
    ("if far(h, x) or calm(w) { n = 1; }", Wanted::Paths(7)),
    (
        "if not (far(h, x) and calm(w)) { n = 1; }",
        Wanted::Paths(7),
    ),
    // A condition that names no cell takes one side at every state.
    ("if x == 3 { n = 1; }", Wanted::Paths(3)),
    ("if x == 3 { n = 1; } else { n = 2; }", Wanted::Paths(3)),
    (
        "if x == 3 { n = 1; } else { n = 2; push xs 1; }",
        Wanted::Paths(5),
    ),
    (
        "if x == 3 { if n < 3 { } } else { n = 2; n = 3; }",
        Wanted::Paths(6),
    ),
    (
        "if who == \"a\" and what is idle or not x > 0 { n = 1; }",
        Wanted::Paths(3),
    ),
    ("if x == 3 and n < 3 { }", Wanted::Paths(3)),
    ("if n < 3 and x == 3 { n = 1; }", Wanted::Paths(5)),
    ("if x == 3 or n == 3 { }", Wanted::Paths(4)),
    (
        "if x > 0 { if n < 3 { } } if y > 0 { if k < 3 { } }",
        Wanted::Paths(4),
    ),
];

#[test]
fn conditions_have_paths(rt: HostRuntime) -> Result<(), Fail> {
    check_rows(&rt, rt.alloc(), &UPDATE, &CONDITIONS)
}
