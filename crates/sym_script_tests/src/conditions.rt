//! Conditions in the update.
use crate::rows::{UPDATE, Wanted, check_rows};
use std::test::Fail;

/// Comparisons take two numbers, and `==` and `!=` two words as well.
const COMPARISONS: [(&str, Wanted); 33] = [
    ("if x < y { }", Wanted::Paths(1)),
    ("if x == 1 { }", Wanted::Paths(1)),
    ("if n < 1 { }", Wanted::Paths(2)),
    ("if n + 1 <= x { }", Wanted::Paths(2)),
    ("if 1 > n { }", Wanted::Paths(2)),
    ("if x >= 2 * n { }", Wanted::Paths(2)),
    ("if n == 1 { }", Wanted::Paths(3)),
    ("if 1 == n { }", Wanted::Paths(3)),
    ("if n != 1 { }", Wanted::Paths(3)),
    ("if x != n { }", Wanted::Paths(3)),
    ("if n @== k { }", Wanted::NotLinear),
    ("if n @!= n { }", Wanted::NotLinear),
    ("if n @< k { }", Wanted::NotLinear),
    ("if n @<= n + 1 { }", Wanted::NotLinear),
    ("if 2 * n @> k { }", Wanted::NotLinear),
    ("if n @>= -n { }", Wanted::NotLinear),
    ("if who == \"a\" { }", Wanted::Paths(1)),
    ("if \"a\" != who { }", Wanted::Paths(1)),
    ("if who @< \"a\" { }", Wanted::Kind),
    ("if who @<= \"a\" { }", Wanted::Kind),
    ("if \"a\" @> who { }", Wanted::Kind),
    ("if \"a\" @>= \"b\" { }", Wanted::Kind),
    ("if who @== 1 { }", Wanted::Kind),
    ("if x @!= \"a\" { }", Wanted::Kind),
    ("if n @== \"a\" { }", Wanted::Kind),
    ("if who @< n { }", Wanted::Kind),
    ("if what @== idle { }", Wanted::Kind),
    ("if idle @!= busy { }", Wanted::Kind),
    ("if x @< idle { }", Wanted::Kind),
    ("if (x > 0) @== (y > 0) { }", Wanted::Kind),
    ("if 1 @< (x > 0) { }", Wanted::Kind),
    ("if \"a\" < @m { }", Wanted::Name),
    ("if n @+ k < \"a\" { }", Wanted::NotLinear),
];

#[test]
fn comparisons_take_numbers_or_words(rt: HostRuntime) -> Result<(), Fail> {
    check_rows(&rt, rt.alloc(), &UPDATE, &COMPARISONS)
}

/// `is` takes two labels of one enum, and an enum cell to its left.
const LABELS: [(&str, Wanted); 24] = [
    ("if what is idle { }", Wanted::Paths(1)),
    ("if idle is what { }", Wanted::Paths(1)),
    ("if idle is busy { }", Wanted::Paths(1)),
    ("if phase is idle { }", Wanted::Paths(2)),
    ("if phase is what { }", Wanted::Paths(2)),
    ("if pitch is sound { }", Wanted::Paths(2)),
    ("if what @is low { }", Wanted::Kind),
    ("if what @is sound { }", Wanted::Kind),
    ("if phase @is low { }", Wanted::Kind),
    ("if pitch @is what { }", Wanted::Kind),
    ("if phase @is 1 { }", Wanted::Kind),
    ("if phase @is who { }", Wanted::Kind),
    ("if phase @is (x > 0) { }", Wanted::Kind),
    ("if x @is 1 { }", Wanted::Kind),
    ("if n @is 1 { }", Wanted::Kind),
    ("if who @is \"a\" { }", Wanted::Kind),
    ("if (x > 0) @is idle { }", Wanted::Kind),
    ("if phase is @earlier { }", Wanted::Kind),
    ("if idle is @phase { }", Wanted::Kind),
    ("if x is @phase { }", Wanted::Kind),
    ("if @h is idle { }", Wanted::Kind),
    ("if phase is @h { }", Wanted::Kind),
    ("if phase is @m { }", Wanted::Name),
    ("if @m is phase { }", Wanted::Name),
];

#[test]
fn labels_are_of_one_enum(rt: HostRuntime) -> Result<(), Fail> {
    check_rows(&rt, rt.alloc(), &UPDATE, &LABELS)
}

/// `and`, `or` and `not` take conditions, and so does `if`; nothing else does.
const JOINED: [(&str, Wanted); 33] = [
    ("if x > 0 and y > 0 { }", Wanted::Paths(1)),
    ("if x > 0 or y > 0 { }", Wanted::Paths(1)),
    ("if not x > 0 { }", Wanted::Paths(1)),
    ("if not not x > 0 { }", Wanted::Paths(1)),
    ("if x @and y > 0 { }", Wanted::Kind),
    ("if x > 0 @and y { }", Wanted::Kind),
    ("if x > 0 @or 1 { }", Wanted::Kind),
    ("if \"a\" @or x > 0 { }", Wanted::Kind),
    ("if x > 0 @and idle { }", Wanted::Kind),
    ("if n @and x > 0 { }", Wanted::Kind),
    ("if @not x { }", Wanted::Kind),
    ("if @not n { }", Wanted::Kind),
    ("if @not \"a\" { }", Wanted::Kind),
    ("if x and @m > 0 { }", Wanted::Name),
    // An `if`.
    ("if @x { }", Wanted::Kind),
    ("if @n { }", Wanted::Kind),
    ("if @1 { }", Wanted::Kind),
    ("if @\"a\" { }", Wanted::Kind),
    ("if @idle { }", Wanted::Kind),
    ("if x @+ 1 { }", Wanted::Kind),
    ("if @-x { }", Wanted::Kind),
    ("if x > 0 { } else if @y { }", Wanted::Kind),
    ("if @x { n = m; }", Wanted::Kind),
    // Elsewhere.
    ("n = x @> 0;", Wanted::Kind),
    ("n = @not x > 0;", Wanted::Kind),
    ("n = x > 0 @and y > 0;", Wanted::Kind),
    ("n = @far(h, x);", Wanted::Kind),
    ("phase = what @is idle;", Wanted::Kind),
    ("let z = x @> 0;", Wanted::Kind),
    ("let z = @calm(w);", Wanted::Kind),
    ("push xs x @> 0;", Wanted::Kind),
    ("push ws who @== \"a\";", Wanted::Kind),
    ("keep h(x @> 0);", Wanted::Kind),
];

#[test]
fn conditions_stand_where_they_are_wanted(rt: HostRuntime) -> Result<(), Fail> {
    check_rows(&rt, rt.alloc(), &UPDATE, &JOINED)
}

/// A cell without a number, or a test without a call, where none can stand.
const CELLS: [(&str, Wanted); 27] = [
    ("n = @h;", Wanted::Kind),
    ("n = @xs;", Wanted::Kind),
    ("n = @ws;", Wanted::Kind),
    ("n = @phase;", Wanted::Kind),
    ("n = @far;", Wanted::Kind),
    ("n = @h + 1;", Wanted::Kind),
    ("n = 1 + @xs;", Wanted::Kind),
    ("n = @phase * 2;", Wanted::Kind),
    ("n = -@h;", Wanted::Kind),
    ("n = -@phase;", Wanted::Kind),
    ("n = @far + 1;", Wanted::Kind),
    ("if @h { }", Wanted::Kind),
    ("if @phase { }", Wanted::Kind),
    ("if @far { }", Wanted::Kind),
    ("if not @phase { }", Wanted::Kind),
    ("if not @h { }", Wanted::Kind),
    ("if @phase and x > 0 { }", Wanted::Kind),
    ("if x > 0 or @h { }", Wanted::Kind),
    ("if @ws == \"a\" { }", Wanted::Kind),
    ("if @phase == idle { }", Wanted::Kind),
    ("if n < @xs { }", Wanted::Kind),
    ("if @w == \"a\" { }", Wanted::Kind),
    // At once, before what stands to the right.
    ("n = @phase + m;", Wanted::Kind),
    ("n = @h + m;", Wanted::Kind),
    ("n = @xs + m;", Wanted::Kind),
    ("if @phase == m { }", Wanted::Kind),
    ("n = @m + phase;", Wanted::Name),
];

#[test]
fn cells_stand_where_they_are_wanted(rt: HostRuntime) -> Result<(), Fail> {
    check_rows(&rt, rt.alloc(), &UPDATE, &CELLS)
}
