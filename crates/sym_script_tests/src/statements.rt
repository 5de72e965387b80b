//! Statements of the update.
use crate::rows::{UPDATE, Wanted, check_rows};
use std::test::Fail;

/// What is assigned to a cell, pushed and named by `let`.
const ASSIGNMENTS: [(&str, Wanted); 54] = [
    ("n = x;", Wanted::Paths(3)),
    ("n = k + 1;", Wanted::Paths(3)),
    ("n = @\"a\";", Wanted::Kind),
    ("n = @who;", Wanted::Kind),
    ("n = @idle;", Wanted::Kind),
    ("n = @what;", Wanted::Kind),
    ("phase = idle;", Wanted::Paths(1)),
    ("phase = what;", Wanted::Paths(1)),
    ("phase = earlier;", Wanted::Paths(1)),
    ("phase = (earlier);", Wanted::Paths(1)),
    ("phase = @low;", Wanted::Kind),
    ("phase = @sound;", Wanted::Kind),
    ("phase = @phase;", Wanted::Kind),
    ("phase = @pitch;", Wanted::Kind),
    ("phase = @1;", Wanted::Kind),
    ("phase = @n;", Wanted::Kind),
    ("phase = @who;", Wanted::Kind),
    ("phase = @h;", Wanted::Kind),
    ("phase = @xs;", Wanted::Kind),
    ("phase = x @+ 1;", Wanted::Kind),
    ("phase = -@earlier;", Wanted::Kind),
    ("pitch = low;", Wanted::Paths(1)),
    ("pitch = sound;", Wanted::Paths(1)),
    ("pitch = @idle;", Wanted::Kind),
    ("pitch = @what;", Wanted::Kind),
    ("pitch = @phase;", Wanted::Kind),
    // Lists.
    ("push xs x;", Wanted::Paths(3)),
    ("push xs n + 1;", Wanted::Paths(3)),
    ("push xs @who;", Wanted::Kind),
    ("push xs @\"a\";", Wanted::Kind),
    ("push xs @idle;", Wanted::Kind),
    ("push xs @phase;", Wanted::Kind),
    ("push xs @xs;", Wanted::Kind),
    ("push xs @h;", Wanted::Kind),
    ("push xs n @* n;", Wanted::NotLinear),
    ("push ws who;", Wanted::Paths(1)),
    ("push ws \"a\";", Wanted::Paths(1)),
    ("push ws @x;", Wanted::Kind),
    ("push ws @n;", Wanted::Kind),
    ("push ws @idle;", Wanted::Kind),
    ("push ws @ws;", Wanted::Kind),
    ("push ws n @+ 1;", Wanted::Kind),
    // Locals.
    ("let z = x;", Wanted::Paths(1)),
    ("let z = -x * 2;", Wanted::Paths(1)),
    ("let z = \"a\";", Wanted::Paths(1)),
    ("let z = busy;", Wanted::Paths(1)),
    ("let z = @n;", Wanted::Kind),
    ("let z = n @+ 1;", Wanted::Kind),
    ("let z = @-n;", Wanted::Kind),
    ("let z = n @* n;", Wanted::NotLinear),
    ("let z = @phase;", Wanted::Kind),
    ("let z = @h;", Wanted::Kind),
    ("let z = @xs;", Wanted::Kind),
    ("let z = @far;", Wanted::Kind),
];

#[test]
fn values_are_of_the_wanted_kind(rt: HostRuntime) -> Result<(), Fail> {
    check_rows(&rt, rt.alloc(), &UPDATE, &ASSIGNMENTS)
}

/// What a hold cell keeps: as many values as it has parts, of their kinds, or another such cell.
const KEPT: [(&str, Wanted); 35] = [
    ("keep h(x);", Wanted::Paths(1)),
    ("keep h(-1 + x * 2);", Wanted::Paths(1)),
    ("keep w(who, what);", Wanted::Paths(1)),
    ("keep w(\"a\", idle);", Wanted::Paths(1)),
    ("keep @h(x, y);", Wanted::Kind),
    ("keep @w(who);", Wanted::Kind),
    ("keep @w(who, what, x);", Wanted::Kind),
    ("keep h(@who);", Wanted::Kind),
    ("keep h(@idle);", Wanted::Kind),
    ("keep h(@n);", Wanted::Kind),
    ("keep h(n @+ 1);", Wanted::Kind),
    ("keep h(@phase);", Wanted::Kind),
    ("keep h(@g);", Wanted::Kind),
    ("keep h(@xs);", Wanted::Kind),
    ("keep w(@x, what);", Wanted::Kind),
    ("keep w(@idle, idle);", Wanted::Kind),
    ("keep w(who, @who);", Wanted::Kind),
    ("keep w(who, @low);", Wanted::Kind),
    ("keep w(@what, who);", Wanted::Kind),
    // The order: the cell, what is inside the values, their number, and each one.
    ("keep @n(m);", Wanted::Kind),
    ("keep h(@m, x);", Wanted::Name),
    ("keep h(x, @m);", Wanted::Name),
    ("keep h(1 @+ \"a\", x);", Wanted::Kind),
    ("keep h(x, @phase);", Wanted::Kind),
    ("keep h(who, @m);", Wanted::Name),
    ("keep @h(who, x);", Wanted::Kind),
    ("keep @w(x);", Wanted::Kind),
    // From another cell.
    ("keep h from g;", Wanted::Paths(1)),
    ("keep h from @h;", Wanted::Kind),
    ("keep w from @w;", Wanted::Kind),
    ("keep h from @v;", Wanted::Kind),
    ("keep v from @h;", Wanted::Kind),
    ("keep h from @w;", Wanted::Kind),
    ("keep w from @v;", Wanted::Kind),
    ("keep @x from m;", Wanted::Kind),
];

#[test]
fn hold_cells_keep_parts_of_their_kinds(rt: HostRuntime) -> Result<(), Fail> {
    check_rows(&rt, rt.alloc(), &UPDATE, &KEPT)
}

/// The first broken rule of a block, in the order of its text.
const ORDER: [(&str, Wanted); 12] = [
    ("n = @m; n = \"a\";", Wanted::Name),
    ("n = @\"a\"; n = m;", Wanted::Kind),
    ("n = 1; k = @m;", Wanted::Name),
    ("if @m { n = \"a\"; }", Wanted::Name),
    ("if x > 0 { n = @\"a\"; } else { n = m; }", Wanted::Kind),
    (
        "if x > 0 { n = 1; } else { n = @m; } n = \"a\";",
        Wanted::Name,
    ),
    (
        "if x > 0 { if y > 0 { } else { n = @m; } } else { n = \"a\"; }",
        Wanted::Name,
    ),
    (
        "if x > 0 { } else if y > 0 { n = @m; } n = \"a\";",
        Wanted::Name,
    ),
    ("let z = 1; let y1 = @m; let z = 2;", Wanted::Name),
    ("@m = p;", Wanted::Name),
    ("@x = m;", Wanted::Kind),
    ("push @x m;", Wanted::Kind),
];

#[test]
fn blocks_are_tried_in_the_order_of_their_text(rt: HostRuntime) -> Result<(), Fail> {
    check_rows(&rt, rt.alloc(), &UPDATE, &ORDER)
}
