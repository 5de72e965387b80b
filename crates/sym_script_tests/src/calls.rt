//! Calls of tests.
use crate::rows::{UPDATE, Wanted, check_rows};
use std::test::Fail;

/// A test is called on a hold cell and on values of its other parameters.
const CALLS: [(&str, Wanted); 58] = [
    ("if far(h, x) { }", Wanted::Paths(2)),
    ("if far((g), x + 1) { }", Wanted::Paths(2)),
    ("if near(h, x, what) { }", Wanted::Paths(2)),
    ("if calm(w) { }", Wanted::Paths(2)),
    ("if calm(v, what) { }", Wanted::Paths(2)),
    ("if same(v) { }", Wanted::Paths(2)),
    ("if far(h, x) and calm(w) { }", Wanted::Paths(3)),
    // The first argument.
    ("if far(@x, x) { }", Wanted::Kind),
    ("if far(@1, x) { }", Wanted::Kind),
    ("if far(@n, x) { }", Wanted::Kind),
    ("if far(@idle, x) { }", Wanted::Kind),
    ("if far(x @+ 1, x) { }", Wanted::Kind),
    ("if far(x @> 1, x) { }", Wanted::Kind),
    ("if far(@far(h, x), x) { }", Wanted::Kind),
    ("if far(@phase, x) { }", Wanted::Kind),
    ("if far(@xs, x) { }", Wanted::Kind),
    ("if far(@far, x) { }", Wanted::Kind),
    ("if far(@h + 1, x) { }", Wanted::Kind),
    ("let z = 1; if far(@z, x) { }", Wanted::Kind),
    // The number of arguments.
    ("if @far(h) { }", Wanted::Kind),
    ("if @far(h, x, y) { }", Wanted::Kind),
    ("if @calm(w, what) { }", Wanted::Kind),
    ("if @calm(v) { }", Wanted::Kind),
    ("if @far(w, x) { }", Wanted::Kind),
    ("if @far(v) { }", Wanted::Kind),
    ("if @near(h, x) { }", Wanted::Kind),
    // The kinds of the parts.
    ("if far(@v, x) { }", Wanted::Kind),
    ("if far(@w) { }", Wanted::Kind),
    ("if calm(@h, what) { }", Wanted::Kind),
    ("if same(@h) { }", Wanted::Kind),
    ("if same(@w) { }", Wanted::Kind),
    // The other arguments.
    ("if far(h, @who) { }", Wanted::Kind),
    ("if far(h, @idle) { }", Wanted::Kind),
    ("if far(h, x @> 0) { }", Wanted::Kind),
    ("if far(h, @far(h, x)) { }", Wanted::Kind),
    ("if far(h, @n) { }", Wanted::Kind),
    ("if far(h, n @+ 1) { }", Wanted::Kind),
    ("if far(h, @h) { }", Wanted::Kind),
    ("if far(h, @phase) { }", Wanted::Kind),
    ("if far(h, @xs) { }", Wanted::Kind),
    ("if calm(v, @sound) { }", Wanted::Kind),
    ("if calm(v, @low) { }", Wanted::Kind),
    ("if calm(v, @phase) { }", Wanted::Kind),
    ("if near(h, x, @x) { }", Wanted::Kind),
    ("if near(h, @what, x) { }", Wanted::Kind),
    // The order: the name, what is inside the arguments, their number, the cell, the others.
    ("if @m(p, q) { }", Wanted::Name),
    ("if @x(p, q) { }", Wanted::Kind),
    ("if far(@m, p) { }", Wanted::Name),
    ("if far(h, @m, p) { }", Wanted::Name),
    ("if far(x, @m) { }", Wanted::Name),
    ("if far(1 @+ \"a\", m) { }", Wanted::Kind),
    ("if far(x, @phase) { }", Wanted::Kind),
    ("if far(@phase, m) { }", Wanted::Kind),
    ("if far(v, @h) { }", Wanted::Kind),
    ("if far(v, who, @m) { }", Wanted::Name),
    ("if @far(v, who, who) { }", Wanted::Kind),
    ("if far(@v, who) { }", Wanted::Kind),
    ("if far(@x, who) { }", Wanted::Kind),
];

#[test]
fn tests_are_called_on_a_hold_cell(rt: HostRuntime) -> Result<(), Fail> {
    check_rows(&rt, rt.alloc(), &UPDATE, &CALLS)
}
