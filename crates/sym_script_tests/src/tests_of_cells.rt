//! Declarations of tests.
use crate::rows::{Frame, Wanted, check_rows};
use std::test::Fail;

/// After a field and cells.
const TEST_FRAME: Frame = Frame {
    before: "enum mode { idle, busy } enum tone { low, high } field x: num; state n: int [0..9] \
        = 0; state h: hold(num = 0); ",
    after: " update { } report { one = 1; }",
};

/// A parameter has a name that nothing else in the script has, and a kind.
const PARAMETERS: [(&str, Wanted); 29] = [
    ("test t(a: num) = a > 0;", Wanted::Paths(1)),
    (
        "test t(a: num) = a > 0; test u(a: num) = a > 0;",
        Wanted::Paths(1),
    ),
    (
        "test t(a: num) = a > 0; test @t(a: num) = a > 0;",
        Wanted::Twice,
    ),
    ("test @x(a: num) = a > 0;", Wanted::Twice),
    ("test @n(a: num) = a > 0;", Wanted::Twice),
    ("test @mode(a: num) = a > 0;", Wanted::Twice),
    ("test @idle(a: num) = a > 0;", Wanted::Twice),
    ("test t(a: num, b: num) = a > b;", Wanted::Paths(1)),
    ("test t(a: num, @a: num) = a > 0;", Wanted::Twice),
    ("test t(@x: num) = x > 0;", Wanted::Twice),
    ("test t(@n: num) = n > 0;", Wanted::Twice),
    ("test t(@mode: num) = mode > 0;", Wanted::Twice),
    ("test t(@idle: num) = idle > 0;", Wanted::Twice),
    ("test t(@t: num) = t > 0;", Wanted::Twice),
    (
        "test t(a: num) = a > 0; test u(@t: num) = t > 0;",
        Wanted::Twice,
    ),
    (
        "test t(@u: num) = u > 0; test u(a: num) = a > 0;",
        Wanted::Twice,
    ),
    // The kind.
    ("test t(a: word) = a == \"a\";", Wanted::Paths(1)),
    ("test t(a: mode) = a is idle;", Wanted::Paths(1)),
    ("test t(a: @kind) = 1 == 1;", Wanted::Name),
    ("test t(a: @a) = 1 == 1;", Wanted::Name),
    ("test t(a: num, b: @a) = 1 == 1;", Wanted::Name),
    ("test t(a: @x) = 1 == 1;", Wanted::Kind),
    ("test t(a: @n) = 1 == 1;", Wanted::Kind),
    ("test t(a: @idle) = 1 == 1;", Wanted::Kind),
    ("test t(a: @t) = 1 == 1;", Wanted::Kind),
    // In the order of the text.
    ("test @x(x: kind) = y;", Wanted::Twice),
    ("test t(@x: kind) = y;", Wanted::Twice),
    ("test t(a: @kind, a: num) = y;", Wanted::Name),
    ("test t(a: num, @a: kind) = y;", Wanted::Twice),
];

#[test]
fn parameters_have_names_and_kinds(rt: HostRuntime) -> Result<(), Fail> {
    check_rows(&rt, rt.alloc(), &TEST_FRAME, &PARAMETERS)
}

/// In the body of a test its parameters and the labels are visible, and it is a condition.
const BODIES: [(&str, Wanted); 23] = [
    (
        "test t(a: num, b: mode) = a / 2 == 1 and b is busy;",
        Wanted::Paths(1),
    ),
    ("test t(a: num) = @x > 0;", Wanted::Name),
    ("test t(a: num) = a > @n;", Wanted::Name),
    ("test t(a: num) = a > @b;", Wanted::Name),
    ("test t(a: mode) = a is @mode;", Wanted::Name),
    (
        "test t(a: num) = a > 0; test u(b: num) = @a > 0;",
        Wanted::Name,
    ),
    (
        "test t(a: num) = a > 0; test u(b: num) = @t(h, b);",
        Wanted::Name,
    ),
    ("test t(a: num) = @t(h, a);", Wanted::Name),
    (
        "test t(a: num) = @u(h, a); test u(b: num) = b > 0;",
        Wanted::Name,
    ),
    ("test t(a: num) = @h;", Wanted::Name),
    // What a body is.
    ("test t(a: num) = @a;", Wanted::Kind),
    ("test t(a: num) = a @+ 1;", Wanted::Kind),
    ("test t(a: num) = @-a;", Wanted::Kind),
    ("test t(a: num) = @1;", Wanted::Kind),
    ("test t(a: word) = @\"a\";", Wanted::Kind),
    ("test t(a: mode) = @idle;", Wanted::Kind),
    ("test t(a: num) = @a(1);", Wanted::Kind),
    ("test t(a: num) = @idle(1);", Wanted::Kind),
    // Its kinds.
    ("test t(a: num, b: word) = a @== b;", Wanted::Kind),
    ("test t(a: mode) = a @is low;", Wanted::Kind),
    ("test t(a: word) = a @< \"a\";", Wanted::Kind),
    (
        "test t(a: num) = not a > 0 or a * a == 4;",
        Wanted::Paths(1),
    ),
    ("test t(a: num) = @not a;", Wanted::Kind),
];

#[test]
fn bodies_are_conditions_on_parameters(rt: HostRuntime) -> Result<(), Fail> {
    check_rows(&rt, rt.alloc(), &TEST_FRAME, &BODIES)
}
