//! Names in the update.
use crate::rows::{UPDATE, Wanted, check_rows};
use std::test::Fail;

/// What is visible in the update.
const VISIBLE: [(&str, Wanted); 24] = [
    ("n = x;", Wanted::Paths(3)),
    ("n = k;", Wanted::Paths(3)),
    ("phase = busy;", Wanted::Paths(1)),
    ("if far(h, x) { }", Wanted::Paths(2)),
    ("n = @m;", Wanted::Name),
    ("n = 1 + @m;", Wanted::Name),
    ("n = -@m;", Wanted::Name),
    ("if not @m { }", Wanted::Name),
    ("phase = @calling;", Wanted::Name),
    ("if @mode is idle { }", Wanted::Name),
    ("n = @a;", Wanted::Name),
    ("n = @one;", Wanted::Name),
    ("if @m(h, x) { }", Wanted::Name),
    ("if far(@m, x) { }", Wanted::Name),
    ("if far(h, @m) { }", Wanted::Name),
    ("@m = 1;", Wanted::Name),
    ("@mode = idle;", Wanted::Name),
    ("push @m 1;", Wanted::Name),
    ("push xs @m;", Wanted::Name),
    ("keep @m(1);", Wanted::Name),
    ("keep h(@m);", Wanted::Name),
    ("keep w(who, @m);", Wanted::Name),
    ("keep @m from h;", Wanted::Name),
    ("keep h from @m;", Wanted::Name),
];

#[test]
fn names_are_visible_in_their_place(rt: HostRuntime) -> Result<(), Fail> {
    check_rows(&rt, rt.alloc(), &UPDATE, &VISIBLE)
}

/// A local has a name of its own, and is visible from its `;` to the end of its block.
const LOCALS: [(&str, Wanted); 33] = [
    ("let z = 1; n = z;", Wanted::Paths(3)),
    ("let z = 1; let @z = 2;", Wanted::Twice),
    ("let z = 1; let y1 = z;", Wanted::Paths(1)),
    ("let @x = 1;", Wanted::Twice),
    ("let @n = 1;", Wanted::Twice),
    ("let @h = 1;", Wanted::Twice),
    ("let @mode = 1;", Wanted::Twice),
    ("let @idle = 1;", Wanted::Twice),
    ("let @far = 1;", Wanted::Twice),
    ("let @x = m;", Wanted::Twice),
    ("let a = 1; n = a;", Wanted::Paths(3)),
    ("let one = 1; n = one;", Wanted::Paths(3)),
    // Where it is visible.
    ("let z = @z;", Wanted::Name),
    ("let z = 1 + @z;", Wanted::Name),
    ("n = @z; let z = 1;", Wanted::Name),
    ("let z = 1; if x > 0 { n = z; }", Wanted::Paths(3)),
    (
        "let z = 1; if n > 0 { if k > 0 { n = z; } }",
        Wanted::Paths(5),
    ),
    ("if x > 0 { let z = 1; n = z; }", Wanted::Paths(3)),
    ("if x > 0 { let z = 1; } n = @z;", Wanted::Name),
    ("if x > 0 { let z = 1; } else { n = @z; }", Wanted::Name),
    (
        "if x > 0 { let z = 1; } else { let z = 2; }",
        Wanted::Paths(1),
    ),
    ("if x > 0 { let z = 1; } let z = 2;", Wanted::Paths(1)),
    ("let z = 1; if x > 0 { let @z = 2; }", Wanted::Twice),
    (
        "let z = 1; if x > 0 { } else { let @z = 2; }",
        Wanted::Twice,
    ),
    (
        "if x > 0 { let z = 1; if y > 0 { let @z = 2; } }",
        Wanted::Twice,
    ),
    // What it stands for.
    ("let z = x * 2; n = n + z;", Wanted::Paths(3)),
    ("let z = who; push ws z;", Wanted::Paths(1)),
    ("let z = what; phase = z;", Wanted::Paths(1)),
    ("let z = idle; if phase is z { }", Wanted::Paths(2)),
    ("let z = x; push ws @z;", Wanted::Kind),
    ("let z = who; n = @z;", Wanted::Kind),
    ("let z = sound; phase = @z;", Wanted::Kind),
    ("let z = sound; if phase @is z { }", Wanted::Kind),
];

#[test]
fn locals_live_in_their_block(rt: HostRuntime) -> Result<(), Fail> {
    check_rows(&rt, rt.alloc(), &UPDATE, &LOCALS)
}

/// A name of the wrong sort.
const SORTS: [(&str, Wanted); 31] = [
    ("n = 1;", Wanted::Paths(3)),
    ("@x = 1;", Wanted::Kind),
    ("@idle = 1;", Wanted::Kind),
    ("@far = 1;", Wanted::Kind),
    ("@h = 1;", Wanted::Kind),
    ("@xs = 1;", Wanted::Kind),
    ("@ws = \"a\";", Wanted::Kind),
    ("let z = 1; @z = 2;", Wanted::Kind),
    ("push xs 1;", Wanted::Paths(3)),
    ("push @n 1;", Wanted::Kind),
    ("push @phase idle;", Wanted::Kind),
    ("push @h 1;", Wanted::Kind),
    ("push @x 1;", Wanted::Kind),
    ("push @idle 1;", Wanted::Kind),
    ("push @far 1;", Wanted::Kind),
    ("keep h(1);", Wanted::Paths(1)),
    ("keep @n(1);", Wanted::Kind),
    ("keep @phase(idle);", Wanted::Kind),
    ("keep @xs(1);", Wanted::Kind),
    ("keep @who(\"a\");", Wanted::Kind),
    ("keep h from g;", Wanted::Paths(1)),
    ("keep @n from h;", Wanted::Kind),
    ("keep @xs from m;", Wanted::Kind),
    ("keep h from @n;", Wanted::Kind),
    ("keep h from @xs;", Wanted::Kind),
    ("keep h from @x;", Wanted::Kind),
    ("if @x(h, 1) { }", Wanted::Kind),
    ("if @h(x) { }", Wanted::Kind),
    ("if @idle(h, x) { }", Wanted::Kind),
    ("if @n(m) { }", Wanted::Kind),
    ("let z = 1; if @z(h, x) { }", Wanted::Kind),
];

#[test]
fn names_are_of_the_wanted_sort(rt: HostRuntime) -> Result<(), Fail> {
    check_rows(&rt, rt.alloc(), &UPDATE, &SORTS)
}
