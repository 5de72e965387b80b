//! Scripts and logs.

/// A number of each user that rises by one.
pub(crate) const RISING: &str = "field user: word; group user; state n: int [0..12] = 0; \
    update { n = n + 1; } report { n = n; }";

/// The words of each pair of a number and a mode.
pub(crate) const WORDS: &str = "enum mode { idle, busy } field x: num; field m: mode; \
    field w: word; group x, m; state ws: words; \
    update { push ws w; } report { c = count(ws); }";

pub(crate) const NUMBERS: &str = "x\n1\n1\n1\n1\n1\n1\n1\n1\n1\n";

pub(crate) const NAMES: &str = "x,m,w\n1,idle,a\n2,busy,\n1,idle,\u{e9}t\u{e9}\n1,busy,a b\n\
    -1,idle,\"two\nlines\"\n2,busy,w\n1,idle,a\n";
