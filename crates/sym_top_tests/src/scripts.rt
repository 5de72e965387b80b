//! Scripts of whole runs.

/// The same, and stays at three.
pub(crate) const CLAMPED: &str =
    "field x: num; state n: int [0..3] = 0 clamp; update { n = n + 1; } report { n = n; }";

/// A sum that stays in a range of which neither end is 0.
pub(crate) const BETWEEN: &str =
    "field x: num; state n: int [-3..4] = 0 clamp; update { n = n + x; } report { n = n; }";

/// A group for each user and day.
pub(crate) const BY_DAY: &str = "field user: word; field day: word; group user, day; \
    state n: int [0..1000000] = 0; update { n = n + 1; } report { n = n; }";

/// A group for each value of all fields, in another order than theirs.
pub(crate) const BY_ALL: &str =
    "enum mode { idle, busy } field user: word; field day: num; field what: mode; \
    group what, user, day; state n: int [0..9] = 0; update { n = n + 1; } report { n = n; }";

/// The same with a list whose numbers stay in a range.
pub(crate) const CLAMPED_SUMS: &str = "field user: word; field x: num else 0; group user; \
    state n: int [-1000000000000..1000000000000] = 0; state xs: nums [0..9] clamp; \
    update { n = n + x; push xs x; } report { n = n; big = sum(xs); }";

pub(crate) const CALCULATED: &str =
    "field x: num; state xs: nums [0..9]; update { if x > 3 { push xs x; } } \
    report { zero = max(xs) / 0; last = last(xs); \
    fourth = 1000000000000 * 1000000000000 * 1000000000000 * 1000000000000; rest = -7 % -1; }";

pub(crate) const CLAMPED_QUOTIENT: &str =
    "field x: num; state n: int [0..9] = 0 clamp; update { n = n + x / x; } report { n = n; }";

/// Each comparison of a cell with a number on its left; the other way round each ends elsewhere.
pub(crate) const TURNED: &str =
    "field x: num; state a: int [0..9] = 0; state b: int [0..9] = 0; state c: int [0..9] = 0; \
    state d: int [0..9] = 0; update { if 2 < a { a = 0; } else { a = a + 1; } \
    if 2 <= b { b = 0; } else { b = b + 1; } if 2 > c { c = c + 1; } else { c = 0; } \
    if 2 >= d { d = d + 1; } else { d = 0; } } report { a = a; b = b; c = c; d = d; }";

pub(crate) const NO_SCRIPT: &str = "field x num;";

pub(crate) const NO_RANGE: &str =
    "field x: num; state n: int [3..0] = 0; update { } report { n = n; }";

/// Two fields that are numbers.
pub(crate) const TWO: &str =
    "field ts: num; field user from \"User ID\": num; state n: int [0..9] = 0; \
    update { n = n + 1; } report { n = n; }";
