//! Arithmetic in the update.
use crate::rows::{UPDATE, Wanted, check_rows};
use std::test::Fail;

/// Arithmetic takes numbers.
const FIXED: [(&str, Wanted); 30] = [
    ("n = 1 + 2;", Wanted::Paths(3)),
    ("n = x - y;", Wanted::Paths(3)),
    ("n = x * y;", Wanted::Paths(3)),
    ("n = x / y;", Wanted::Paths(3)),
    ("n = x % y;", Wanted::Paths(3)),
    ("n = -x;", Wanted::Paths(3)),
    ("n = 1000000000000;", Wanted::Paths(3)),
    ("n = 1 @+ \"a\";", Wanted::Kind),
    ("n = \"a\" @+ 1;", Wanted::Kind),
    ("n = x @- who;", Wanted::Kind),
    ("n = what @* x;", Wanted::Kind),
    ("n = x @/ idle;", Wanted::Kind),
    ("n = idle @% 2;", Wanted::Kind),
    ("n = 1 @+ (x > 0);", Wanted::Kind),
    ("n = 1 @+ far(h, x);", Wanted::Kind),
    ("n = @-who;", Wanted::Kind),
    ("n = @-idle;", Wanted::Kind),
    ("n = @-(x > 0);", Wanted::Kind),
    ("n = n @+ who;", Wanted::Kind),
    ("n = who @* n;", Wanted::Kind),
    ("n = n @* idle;", Wanted::Kind),
    // Operands come before their operator, from left to right.
    ("n = \"a\" + @m;", Wanted::Name),
    ("n = @m + \"a\";", Wanted::Name),
    ("n = @m + p;", Wanted::Name),
    ("n = -(1 @+ \"a\");", Wanted::Kind),
    ("n = \"a\" @+ 1 + m;", Wanted::Kind),
    ("n = n * (n @+ \"a\");", Wanted::Kind),
    ("n = n @* n + \"a\";", Wanted::NotLinear),
    ("n = \"a\" @+ n * 2;", Wanted::Kind),
    ("n = \"a\" + n @* n;", Wanted::NotLinear),
];

#[test]
fn arithmetic_takes_numbers(rt: HostRuntime) -> Result<(), Fail> {
    check_rows(&rt, rt.alloc(), &UPDATE, &FIXED)
}

/// A line names one integer cell, once.
const LINES: [(&str, Wanted); 28] = [
    ("n = n;", Wanted::Paths(3)),
    ("n = -n;", Wanted::Paths(3)),
    ("n = - -n;", Wanted::Paths(3)),
    ("n = n + 1;", Wanted::Paths(3)),
    ("n = 1 + n;", Wanted::Paths(3)),
    ("n = n - 1;", Wanted::Paths(3)),
    ("n = 1 - n;", Wanted::Paths(3)),
    ("n = n * 2;", Wanted::Paths(3)),
    ("n = 2 * n;", Wanted::Paths(3)),
    ("n = k + x / y;", Wanted::Paths(3)),
    ("n = x % 2 - (2 * (n - 1) + x) * -y;", Wanted::Paths(3)),
    ("n = n @* n;", Wanted::NotLinear),
    ("n = n @+ n;", Wanted::NotLinear),
    ("n = n @- n;", Wanted::NotLinear),
    ("n = n @+ k;", Wanted::NotLinear),
    ("n = n @- k;", Wanted::NotLinear),
    ("n = n @* k;", Wanted::NotLinear),
    ("n = n @/ 2;", Wanted::NotLinear),
    ("n = 2 @/ n;", Wanted::NotLinear),
    ("n = n @/ k;", Wanted::NotLinear),
    ("n = n @% 2;", Wanted::NotLinear),
    ("n = 2 @% n;", Wanted::NotLinear),
    ("n = n @% n;", Wanted::NotLinear),
    ("n = (n + 1) @* (k - 1);", Wanted::NotLinear),
    ("n = n * 0 @+ n;", Wanted::NotLinear),
    ("n = n @+ n * 0;", Wanted::NotLinear),
    ("n = -(n @- n);", Wanted::NotLinear),
    ("n = n @* n * n;", Wanted::NotLinear),
];

#[test]
fn lines_name_one_cell_once(rt: HostRuntime) -> Result<(), Fail> {
    check_rows(&rt, rt.alloc(), &UPDATE, &LINES)
}
