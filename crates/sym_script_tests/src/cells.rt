//! Declarations of cells.
use crate::rows::{Frame, Wanted, check_rows};
use std::test::Fail;

/// After enums and fields.
const CELL_FRAME: Frame = Frame {
    before: "enum mode { idle, busy } enum tone { low, high } field x: num; field what: mode; ",
    after: " update { } report { one = 1; }",
};

/// A cell has a name of its own.
const NAMES: [(&str, Wanted); 6] = [
    ("state n: words; state k: words;", Wanted::Paths(1)),
    ("state n: words; state @n: words;", Wanted::Twice),
    ("state @x: words;", Wanted::Twice),
    ("state @mode: words;", Wanted::Twice),
    ("state @idle: words;", Wanted::Twice),
    ("state @x: int [3..0] = 0;", Wanted::Twice),
];

#[test]
fn cells_have_names_of_their_own(rt: HostRuntime) -> Result<(), Fail> {
    check_rows(&rt, rt.alloc(), &CELL_FRAME, &NAMES)
}

/// A range has numbers, and a first value lies in it.
const RANGES: [(&str, Wanted); 23] = [
    ("state n: int [0..3] = 0;", Wanted::Paths(1)),
    ("state n: int [0..3] = 3;", Wanted::Paths(1)),
    ("state n: int [3..3] = 3;", Wanted::Paths(1)),
    ("state n: int [-3..-1] = -2;", Wanted::Paths(1)),
    (
        "state n: int [-1000000000000..1000000000000] = -1000000000000;",
        Wanted::Paths(1),
    ),
    ("state @n: int [3..0] = 0;", Wanted::Range),
    ("state @n: int [3..0] = 3;", Wanted::Range),
    ("state @n: int [-1..-2] = -1;", Wanted::Range),
    ("state @n: int [1..3] = 0;", Wanted::Range),
    ("state @n: int [0..3] = 4;", Wanted::Range),
    ("state @n: int [-3..-1] = 1;", Wanted::Range),
    ("state n: nums [0..0];", Wanted::Paths(1)),
    ("state n: nums [-2..-1];", Wanted::Paths(1)),
    ("state @n: nums [1..0];", Wanted::Range),
    ("state @n: nums [-1..-2];", Wanted::Range),
    ("state n: words; state @k: int [3..0] = 0;", Wanted::Range),
    ("state @n: int [3..0] = 0; state n: words;", Wanted::Range),
    // The same of cells that clamp.
    ("state n: int [0..3] = 3 clamp;", Wanted::Paths(1)),
    ("state n: nums [0..0] clamp;", Wanted::Paths(1)),
    ("state @n: int [0..3] = 4 clamp;", Wanted::Range),
    ("state @n: int [1..3] = 0 clamp;", Wanted::Range),
    ("state @n: int [3..0] = 3 clamp;", Wanted::Range),
    ("state @n: nums [1..0] clamp;", Wanted::Range),
];

#[test]
fn ranges_have_numbers(rt: HostRuntime) -> Result<(), Fail> {
    check_rows(&rt, rt.alloc(), &CELL_FRAME, &RANGES)
}

/// An enum cell begins with a label of its enum.
const ENUM_CELLS: [(&str, Wanted); 15] = [
    ("state n: mode = idle;", Wanted::Paths(1)),
    ("state n: tone = high;", Wanted::Paths(1)),
    ("state n: @kind = idle;", Wanted::Name),
    ("state n: @x = idle;", Wanted::Kind),
    ("state n: @idle = idle;", Wanted::Kind),
    ("state n: @n = idle;", Wanted::Kind),
    ("state n: @n = calm;", Wanted::Kind),
    ("state n: words; state k: @n = idle;", Wanted::Kind),
    ("state n: @k = idle; state k: words;", Wanted::Name),
    ("state n: mode = @calm;", Wanted::Name),
    ("state n: mode = @low;", Wanted::Kind),
    ("state n: tone = @idle;", Wanted::Kind),
    ("state n: mode = @mode;", Wanted::Kind),
    ("state n: mode = @x;", Wanted::Kind),
    ("state n: mode = @n;", Wanted::Kind),
];

#[test]
fn enum_cells_begin_with_a_label(rt: HostRuntime) -> Result<(), Fail> {
    check_rows(&rt, rt.alloc(), &CELL_FRAME, &ENUM_CELLS)
}

/// The parts of a hold cell have kinds, and first values of them.
const HOLD_CELLS: [(&str, Wanted); 19] = [
    ("state n: hold(num = -1);", Wanted::Paths(1)),
    (
        "state n: hold(num = 0, word = \"a\", mode = busy, tone = low);",
        Wanted::Paths(1),
    ),
    ("state n: hold(num = @\"a\");", Wanted::Kind),
    ("state n: hold(num = @idle);", Wanted::Kind),
    ("state n: hold(word = @0);", Wanted::Kind),
    ("state n: hold(word = @-1);", Wanted::Kind),
    ("state n: hold(mode = @low);", Wanted::Kind),
    ("state n: hold(tone = @idle);", Wanted::Kind),
    ("state n: hold(mode = @0);", Wanted::Kind),
    ("state n: hold(mode = @mode);", Wanted::Kind),
    ("state n: hold(mode = @calm);", Wanted::Name),
    ("state n: hold(@kind = idle);", Wanted::Name),
    ("state n: hold(@x = 0);", Wanted::Kind),
    ("state n: hold(@idle = idle);", Wanted::Kind),
    ("state n: hold(@n = 0);", Wanted::Kind),
    ("state n: hold(num = 0, @kind = 0);", Wanted::Name),
    (
        "state n: hold(num = 0, word = \"\", mode = @low);",
        Wanted::Kind,
    ),
    ("state n: hold(num = @\"a\", kind = 0);", Wanted::Kind),
    ("state n: hold(@kind = 0, num = \"a\");", Wanted::Name),
];

#[test]
fn parts_have_kinds_and_first_values(rt: HostRuntime) -> Result<(), Fail> {
    check_rows(&rt, rt.alloc(), &CELL_FRAME, &HOLD_CELLS)
}
