//! Columns of the report.
use crate::rows::{Frame, Wanted, check_rows};
use std::test::Fail;

/// Columns, with a cell of each kind.
const REPORT: Frame = Frame {
    before: "enum mode { idle, busy } enum tone { low, high } field x: num; state n: int [0..9] \
        = 0; state phase: mode = idle; state h: hold(num = 0, word = \"\", mode = idle); \
        state xs: nums [0..9]; state ws: words; test far(a: num, b: num) = b - a > 3; \
        update { let z = 1; } report { ",
    after: " }",
};

/// A column has a name that no earlier column has, and shows a number, a word or a list.
const COLUMNS: [(&str, Wanted); 19] = [
    ("a = 1;", Wanted::Paths(1)),
    ("a = \"b\";", Wanted::Paths(1)),
    ("a = n;", Wanted::Paths(1)),
    ("a = phase;", Wanted::Paths(1)),
    ("a = xs; b = ws;", Wanted::Paths(1)),
    (
        "n = n; x = 1; idle = 2; mode = 3; far = 4; z = 5;",
        Wanted::Paths(1),
    ),
    ("a = 1; @a = 2;", Wanted::Twice),
    ("a = 1; b = 2; @a = 3;", Wanted::Twice),
    ("a = 1; @a = m;", Wanted::Twice),
    ("a = @x;", Wanted::Name),
    ("a = @idle;", Wanted::Name),
    ("a = @mode;", Wanted::Name),
    ("a = @far;", Wanted::Name),
    ("a = @z;", Wanted::Name),
    ("a = 1; b = @a;", Wanted::Name),
    ("a = @m;", Wanted::Name),
    ("a = @h;", Wanted::Kind),
    ("a = @m; b = h;", Wanted::Name),
    ("a = @h; b = m;", Wanted::Kind),
];

#[test]
fn columns_show_numbers_words_and_lists(rt: HostRuntime) -> Result<(), Fail> {
    check_rows(&rt, rt.alloc(), &REPORT, &COLUMNS)
}

/// A part of a hold cell, by its number from 1.
const PARTS: [(&str, Wanted); 23] = [
    ("a = part(h, 1);", Wanted::Paths(1)),
    ("a = part(h, 2);", Wanted::Paths(1)),
    ("a = part(h, 3);", Wanted::Paths(1)),
    ("a = part(h, @0);", Wanted::Range),
    ("a = part(h, @4);", Wanted::Range),
    ("a = part(h, @1000000000000);", Wanted::Range),
    ("a = @part(h);", Wanted::Kind),
    ("a = @part(h, 1, 2);", Wanted::Kind),
    ("a = @part(h, n);", Wanted::Kind),
    ("a = @part(h, -1);", Wanted::Kind),
    ("a = @part(h, 1 + 1);", Wanted::Kind),
    ("a = @part(h, \"a\");", Wanted::Kind),
    ("a = @part(h, h);", Wanted::Kind),
    ("a = @part(1, h);", Wanted::Kind),
    ("a = @part(n, 1);", Wanted::Kind),
    ("a = @part(n, 4);", Wanted::Kind),
    ("a = @part(phase, 0);", Wanted::Kind),
    ("a = @part(xs, 1);", Wanted::Kind),
    ("a = part(@m, 1);", Wanted::Name),
    ("a = part(@x, 1);", Wanted::Name),
    ("a = part(h, @m);", Wanted::Name),
    ("a = part(n, @m);", Wanted::Name),
    ("a = @part(n, part(h, 1));", Wanted::Kind),
];

#[test]
fn parts_are_counted_from_1(rt: HostRuntime) -> Result<(), Fail> {
    check_rows(&rt, rt.alloc(), &REPORT, &PARTS)
}

/// Functions of lists.
const LISTS: [(&str, Wanted); 26] = [
    ("a = count(xs); b = count(ws);", Wanted::Paths(1)),
    ("a = sum(xs);", Wanted::Paths(1)),
    ("a = min(xs); b = max(xs);", Wanted::Paths(1)),
    ("a = first(xs); b = last(xs);", Wanted::Paths(1)),
    ("a = first(ws); b = last(ws);", Wanted::Paths(1)),
    ("count = count(xs);", Wanted::Paths(1)),
    ("a = @sum(ws);", Wanted::Kind),
    ("a = @min(ws);", Wanted::Kind),
    ("a = @max(ws);", Wanted::Kind),
    ("a = @count(n);", Wanted::Kind),
    ("a = @count(phase);", Wanted::Kind),
    ("a = @count(h);", Wanted::Kind),
    ("a = @count(1);", Wanted::Kind),
    ("a = @count(\"a\");", Wanted::Kind),
    ("a = @count(count(xs));", Wanted::Kind),
    ("a = @count(xs, ws);", Wanted::Kind),
    ("a = @first(h);", Wanted::Kind),
    ("a = count(@x);", Wanted::Name),
    ("a = count(@m);", Wanted::Name),
    ("a = @length(xs);", Wanted::Name),
    ("a = @length(m);", Wanted::Name),
    ("a = @n(xs);", Wanted::Name),
    ("a = @far(h, 1);", Wanted::Name),
    ("a = @count;", Wanted::Name),
    ("a = count(@length(xs));", Wanted::Name),
    ("a = count(xs, @m);", Wanted::Name),
];

#[test]
fn functions_take_lists(rt: HostRuntime) -> Result<(), Fail> {
    check_rows(&rt, rt.alloc(), &REPORT, &LISTS)
}

/// Arithmetic of numbers, as wide as it comes; no comparisons and no conditions.
const NUMBERS: [(&str, Wanted); 42] = [
    ("a = n * n + n / n - n % 2;", Wanted::Paths(1)),
    ("a = -n;", Wanted::Paths(1)),
    ("a = 1 / 0;", Wanted::Paths(1)),
    ("a = sum(xs) / count(ws);", Wanted::Paths(1)),
    ("a = first(xs) + -max(xs);", Wanted::Paths(1)),
    ("a = -part(h, 1) * 2;", Wanted::Paths(1)),
    ("a = n @+ \"a\";", Wanted::Kind),
    ("a = \"a\" @- n;", Wanted::Kind),
    ("a = n @* phase;", Wanted::Kind),
    ("a = xs @/ 2;", Wanted::Kind),
    ("a = 2 @% ws;", Wanted::Kind),
    ("a = h @+ 1;", Wanted::Kind),
    ("a = 1 @+ h;", Wanted::Kind),
    ("a = part(h, 2) @+ 1;", Wanted::Kind),
    ("a = 1 @+ part(h, 3);", Wanted::Kind),
    ("a = first(ws) @+ 1;", Wanted::Kind),
    ("a = @-phase;", Wanted::Kind),
    ("a = @-xs;", Wanted::Kind),
    ("a = @-h;", Wanted::Kind),
    ("a = @-last(ws);", Wanted::Kind),
    // Comparisons and conditions.
    ("a = n @== 1;", Wanted::Kind),
    ("a = n @!= 1;", Wanted::Kind),
    ("a = n @< 1;", Wanted::Kind),
    ("a = n @<= 1;", Wanted::Kind),
    ("a = n @> 1;", Wanted::Kind),
    ("a = n @>= 1;", Wanted::Kind),
    ("a = phase @is phase;", Wanted::Kind),
    ("a = n @and n;", Wanted::Kind),
    ("a = n @or n;", Wanted::Kind),
    ("a = @not n;", Wanted::Kind),
    ("a = phase is @idle;", Wanted::Name),
    // Operands come first.
    ("a = h + @m;", Wanted::Name),
    ("a = @m + h;", Wanted::Name),
    ("a = \"a\" @+ 1 + m;", Wanted::Kind),
    ("a = -@m;", Wanted::Name),
    ("a = not @m;", Wanted::Name),
    ("a = not n @< 1;", Wanted::Kind),
    ("a = n @< 1 and n > 1;", Wanted::Kind),
    ("a = n or @m;", Wanted::Name),
    ("a = count(n @< 1);", Wanted::Kind),
    ("a = count(1 @+ xs, m);", Wanted::Kind),
    ("a = part(h, @0) + m;", Wanted::Range),
];

#[test]
fn report_arithmetic_takes_numbers(rt: HostRuntime) -> Result<(), Fail> {
    check_rows(&rt, rt.alloc(), &REPORT, &NUMBERS)
}
