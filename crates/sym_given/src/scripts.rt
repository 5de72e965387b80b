//! Scripts that several crates of tests run, and logs.

/// Counts records up to three.
pub const COUNTER: &str =
    "field x: num; state n: int [0..3] = 0; update { n = n + 1; } report { n = n; }";

// Sessions of each user: a gap of more than 30 ends one, also that from the time before the first.
// One has at most so many records.
macro_rules! sessions {
    ($before:literal, $most:literal) => {
        concat!(
            "field ts: num; field user: word; group user; state last: hold(num = ",
            $before,
            "); state n: int [0..",
            $most,
            "] = 0; state done: nums [0..",
            $most,
            "]; test gap(h: num, t: num) = t - h > 30; update { if gap(last, ts) { push done n; \
            n = 1; } else { n = n + 1; } keep last(ts); } report { sessions = count(done); \
            open = n; longest = max(done); }"
        )
    };
}

pub const SESSIONS: &str = sessions!("0", "1000");

/// The same with at most 12 records in a session.
pub const SHORT_SESSIONS: &str = sessions!("0", "12");

/// The same from a first time so early that its distance is no number.
pub const EARLY: &str = sessions!("-1000000000000", "1000");

pub const TOGGLE: &str = "enum mode { idle, busy } field x: num; state phase: mode = idle; \
    update { if phase is idle { phase = busy; } else { phase = idle; } } \
    report { phase = phase; }";

pub const BY_USER: &str =
    "field user: word; group user; state n: int [0..1000000] = 0; update { n = n + 1; } \
    report { n = n; }";

pub const SUMS: &str = "field user: word; field x: num else 0; group user; \
    state n: int [-1000000000000..1000000000000] = 0; \
    state xs: nums [-1000000000000..1000000000000]; update { n = n + x; push xs x; } \
    report { n = n; big = sum(xs) * 1000000000000; }";

/// The same in a range that small logs leave.
pub const SMALL_SUMS: &str = "field user: word; field x: num else 0; group user; \
    state n: int [-20..20] = 0; state xs: nums [-20..20]; update { n = n + x; push xs x; } \
    report { n = n; big = sum(xs); }";

pub const SHOWN: &str =
    "field user: word; group user; state n: int [0..9] = 7; state xs: nums [0..9]; update { } \
    report { q = n / 0; r = n / 2 - 10; m = min(xs); k = max(xs) + 1; }";

pub const MIRROR: &str =
    "field x: num; state n: int [0..10] = 0; update { n = -1 * n + 10; } report { n = n; }";

pub const DOUBLE: &str =
    "field x: num; state n: int [0..1000000000000] = 0; update { n = 2 * n; } report { n = n; }";

pub const QUOTIENT: &str =
    "field x: num; state n: int [0..9] = 0; update { n = n + x / x; } report { n = n; }";

/// Seventeen records of four users.
pub const VISITS: &str = "ts,user\n10,a\n20,a\n60,a\n5,b\n61,a\n62,c\n90,b\n100,b\n101,c\n\
    102,a\n140,a\n141,d\n150,b\n151,b\n200,c\n201,a\n";

/// Records of five users, of which one leaves the range of small sums.
pub const CHANGES: &str = "user,x\na,3\nb,-1\na,\nc,-4\na,2\nb,2\nd,\nd,5\na,1\nb,-2\nc,-9\n\
    c,\na,-3\nd,1\nb,-6\na,4\na,\nb,8\nd,-2\nc,-9\na,3\ne,20\ne,1\ne,2\n";

/// A file of 200 records.
pub const TWO_HUNDRED: &str = "x\n\
    1\n1\n1\n1\n1\n1\n1\n1\n1\n1\n1\n1\n1\n1\n1\n1\n1\n1\n1\n1\n1\n1\n1\n1\n1\n\
    1\n1\n1\n1\n1\n1\n1\n1\n1\n1\n1\n1\n1\n1\n1\n1\n1\n1\n1\n1\n1\n1\n1\n1\n1\n\
    1\n1\n1\n1\n1\n1\n1\n1\n1\n1\n1\n1\n1\n1\n1\n1\n1\n1\n1\n1\n1\n1\n1\n1\n1\n\
    1\n1\n1\n1\n1\n1\n1\n1\n1\n1\n1\n1\n1\n1\n1\n1\n1\n1\n1\n1\n1\n1\n1\n1\n1\n\
    1\n1\n1\n1\n1\n1\n1\n1\n1\n1\n1\n1\n1\n1\n1\n1\n1\n1\n1\n1\n1\n1\n1\n1\n1\n\
    1\n1\n1\n1\n1\n1\n1\n1\n1\n1\n1\n1\n1\n1\n1\n1\n1\n1\n1\n1\n1\n1\n1\n1\n1\n\
    1\n1\n1\n1\n1\n1\n1\n1\n1\n1\n1\n1\n1\n1\n1\n1\n1\n1\n1\n1\n1\n1\n1\n1\n1\n\
    1\n1\n1\n1\n1\n1\n1\n1\n1\n1\n1\n1\n1\n1\n1\n1\n1\n1\n1\n1\n1\n1\n1\n1\n1\n";
