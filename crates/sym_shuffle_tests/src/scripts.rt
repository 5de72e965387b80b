//! Scripts.

/// How many records a user has. The update reads no field.
pub(crate) const COUNTS: &str = "field user: word; group user; state n: int [0..100000] = 0; \
    update { n = n + 1; } report { n = n; }";

/// Quotients of each user, which may fail.
pub(crate) const QUOTIENTS: &str = "field x: num; field user: word; group user; \
    state quotients: nums [-99..99]; update { push quotients 10 / x; } \
    report { n = count(quotients); }";

/// Sessions of each user: a gap of more than 30 ends one.
pub(crate) const SESSIONS: &str = "field ts: num; field user: word; group user; \
    state last: hold(num = 0); state n: int [0..10000] = 0; state done: nums [0..10000]; \
    test gap(h: num, t: num) = t - h > 30; \
    update { if gap(last, ts) { push done n; n = 1; } else { n = n + 1; } keep last(ts); } \
    report { open = n; longest = max(done); }";

/// A key of a label and a word. The update reads a label and words, one of which is in the key.
pub(crate) const GAMES: &str = "enum ending { win, draw, loss } field team: word; \
    field end: ending; field note: word; group end, team; \
    state last: hold(ending = draw, word = \"none\"); state notes: words; \
    state best: ending = loss; \
    update { if end is win { best = end; push notes note; } keep last(end, team); } \
    report { n = count(notes); }";

/// A key that is a number, and words.
pub(crate) const BY_NUMBER: &str = "field x: num; field note: word; group x; state seen: words; \
    update { push seen note; } report { n = count(seen); }";

/// A key that is a label, and sums that are cut off at the ends of their range.
pub(crate) const BY_LABEL: &str = "enum ending { win, draw, loss } field end: ending; \
    field x: num else 0; group end; state n: int [-99..99] = 0 clamp; \
    update { n = n + x; } report { n = n; }";

/// The words of each user, and the last ones beside a number and a label.
pub(crate) const NOTES: &str = "enum ending { win, draw, loss } field user: word; \
    field first: word; field x: num else 0; field end: ending; field second: word; group user; \
    state seen: words; \
    state last: hold(word = \"none\", num = 0, ending = draw, word = \"none\"); \
    update { push seen first; push seen second; keep last(second, x, end, first); } \
    report { n = count(seen); }";

/// One group with a list of all numbers.
pub(crate) const ALL: &str = "field x: num; state xs: nums [-99..99]; update { push xs x; } \
    report { n = count(xs); }";
