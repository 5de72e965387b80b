//! Enums, fields and the group line.
use crate::rows::{Frame, Wanted, check_rows};
use std::test::Fail;

/// Before a field, a cell and a report.
const ENUM_FRAME: Frame = Frame {
    before: "",
    after: " field x: num; state n: words; update { } report { one = 1; }",
};

/// Between two enums and a cell.
const FIELD_FRAME: Frame = Frame {
    before: "enum mode { idle, busy } enum tone { low, high } ",
    after: " state n: words; update { } report { one = 1; }",
};

/// Enums and their labels share one space of names.
const ENUMS: [(&str, Wanted); 9] = [
    ("enum a { b }", Wanted::Paths(1)),
    ("enum a { b, c } enum d { e, f }", Wanted::Paths(1)),
    ("enum a { b } enum @a { c }", Wanted::Twice),
    ("enum a { b, @b }", Wanted::Twice),
    ("enum a { @a }", Wanted::Twice),
    ("enum a { b, c } enum d { @b }", Wanted::Twice),
    ("enum a { b } enum c { @a }", Wanted::Twice),
    ("enum a { b } enum @b { c }", Wanted::Twice),
    ("enum a { b, @b, b } enum a { c }", Wanted::Twice),
];

#[test]
fn enums_and_labels_have_names_of_their_own(rt: HostRuntime) -> Result<(), Fail> {
    check_rows(&rt, rt.alloc(), &ENUM_FRAME, &ENUMS)
}

/// A field has a name of its own, a kind, and a value of that kind where a text is empty.
const FIELDS: [(&str, Wanted); 35] = [
    ("field x: num;", Wanted::Paths(1)),
    ("field x: num; field y: num;", Wanted::Paths(1)),
    ("field x: num; field @x: word;", Wanted::Twice),
    ("field @mode: num;", Wanted::Twice),
    ("field @idle: num;", Wanted::Twice),
    (
        "field x from \"X\": num; field y from \"X\": num;",
        Wanted::Paths(1),
    ),
    // The kind.
    ("field x: word;", Wanted::Paths(1)),
    ("field x: mode;", Wanted::Paths(1)),
    ("field x: @kind;", Wanted::Name),
    ("field x: @idle;", Wanted::Kind),
    ("field x: num; field y: @x;", Wanted::Kind),
    ("field x: @x;", Wanted::Kind),
    ("field x: @y; field y: num;", Wanted::Name),
    ("field x: @n;", Wanted::Name),
    // The value.
    ("field x: num else 0;", Wanted::Paths(1)),
    ("field x: num else -1000000000000;", Wanted::Paths(1)),
    ("field x: num else @\"0\";", Wanted::Kind),
    ("field x: num else @idle;", Wanted::Kind),
    ("field x: num else @x;", Wanted::Kind),
    ("field x: word else \"\";", Wanted::Paths(1)),
    ("field x: word else @0;", Wanted::Kind),
    ("field x: word else @-1;", Wanted::Kind),
    ("field x: word else @idle;", Wanted::Kind),
    ("field x: mode else busy;", Wanted::Paths(1)),
    ("field x: mode else @low;", Wanted::Kind),
    ("field x: tone else high;", Wanted::Paths(1)),
    ("field x: tone else @idle;", Wanted::Kind),
    ("field x: mode else @mode;", Wanted::Kind),
    ("field x: mode else @\"idle\";", Wanted::Kind),
    ("field x: mode else @1;", Wanted::Kind),
    ("field x: mode else @calm;", Wanted::Name),
    ("field x: num else @calm;", Wanted::Name),
    // In the order of the text.
    ("field @idle: kind else calm;", Wanted::Twice),
    ("field x: @kind else calm;", Wanted::Name),
    ("field x: mode else @calm; field x: kind;", Wanted::Name),
];

#[test]
fn fields_have_names_kinds_and_values(rt: HostRuntime) -> Result<(), Fail> {
    check_rows(&rt, rt.alloc(), &FIELD_FRAME, &FIELDS)
}

/// The group line names fields, none of them twice.
const GROUPS: [(&str, Wanted); 16] = [
    ("field x: num; group x;", Wanted::Paths(1)),
    ("field x: num; field y: mode; group y;", Wanted::Paths(1)),
    ("field x: num; group @y;", Wanted::Name),
    ("field x: num; group @n;", Wanted::Name),
    ("field x: num; group @mode;", Wanted::Kind),
    ("field x: num; group @idle;", Wanted::Kind),
    (
        "field x: num; field y: mode; field z: word; group z, x, y;",
        Wanted::Paths(1),
    ),
    ("field x: num; field y: num; group x, y;", Wanted::Paths(1)),
    ("field x: num; group x, @x;", Wanted::Twice),
    ("field x: num; field y: num; group x, y, @x;", Wanted::Twice),
    ("field x: num; field y: num; group x, @x, y;", Wanted::Twice),
    ("field x: num; group x, @y;", Wanted::Name),
    ("field x: num; group x, @mode;", Wanted::Kind),
    // The first fault of the line.
    ("field x: num; group x, @x, y;", Wanted::Twice),
    ("field x: num; group @y, x, x;", Wanted::Name),
    ("field x: num; group @idle, idle;", Wanted::Kind),
];

#[test]
fn groups_are_fields(rt: HostRuntime) -> Result<(), Fail> {
    check_rows(&rt, rt.alloc(), &FIELD_FRAME, &GROUPS)
}
