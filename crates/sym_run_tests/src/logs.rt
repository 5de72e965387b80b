//! Scripts and logs.

/// What each user did, by name, and a note. Either may be the empty word.
pub(crate) const ACTIONS: &str =
    "field what: word; field user: word; field note: word; group user; \
    state n: int [0..100] = 0; state done: words; \
    update { if what != \"\" { n = n + 1; } push done what; push done note; } \
    report { n = n; done = count(done); }";

/// A group that toggles, and is idle after a record with a 0, whatever it was before.
pub(crate) const RESETS: &str = "enum mode { idle, busy } field x: num; state phase: mode = idle; \
    update { if x > 0 { if phase is idle { phase = busy; } else { phase = idle; } } \
    else { phase = idle; } } report { phase = phase; }";

/// A word for each record, which has one path.
pub(crate) const NOTES: &str = "field x: num; state notes: words; \
    update { push notes \"a\"; } report { notes = count(notes); }";

/// The greatest number so far.
pub(crate) const MAXES: &str = "field x: num; state n: int [0..9] = 0; \
    update { if n < x { n = x; } } report { n = n; }";

/// So many tests of a cell that each of them may be true or false of it: a record has 1,024 paths.
pub(crate) const ASKED: &str = "field x: num; state h: hold(num = 0); state w: words; \
    test t(p: num, k: num) = p % k == 0; \
    update { if t(h, 2) { push w \"a\"; } if t(h, 3) { push w \"b\"; } \
    if t(h, 4) { push w \"c\"; } if t(h, 5) { push w \"d\"; } \
    if t(h, 6) { push w \"e\"; } if t(h, 7) { push w \"f\"; } \
    if t(h, 8) { push w \"g\"; } if t(h, 9) { push w \"h\"; } \
    if t(h, 10) { push w \"i\"; } if t(h, 11) { push w \"j\"; } } \
    report { c = count(w); }";

/// The wins in a row of each user. A record that is no win makes all numbers and labels known.
pub(crate) const STREAKS: &str = "enum ending { win, draw, loss } field user: word; \
    field end: ending; group user; state streak: int [0..1000] = 0; \
    state lengths: nums [1..1000]; state last: ending = draw; \
    update { if end is win { streak = streak + 1; push lengths streak; } else { streak = 0; } \
    last = end; } report { streak = streak; longest = max(lengths); }";

/// A sum of each user that is cut off at the ends of its range, and a list of its doubles.
pub(crate) const BALANCES: &str = "field user: word; field x: num else 0; group user; \
    state n: int [-9..9] = 0 clamp; state seen: nums [-9..9] clamp; \
    update { n = n + x; push seen 2 * n; } report { n = n; most = max(seen); }";

/// What each user did, by name, with a word of the script's own where there is no name.
pub(crate) const NAMED: &str = "field user: word; field what: word; group user; \
    state n: int [0..1000] = 0; state done: words; \
    update { if what != \"\" { n = n + 1; push done what; } else { push done \"none\"; } } \
    report { n = n; done = count(done); }";

/// How often the number of a user rises. A number, a word and a label are held.
pub(crate) const HELD: &str = "enum ending { win, draw, loss } field user: word; \
    field x: num else 0; field what: word; field end: ending; group user; \
    state last: hold(num = 0, word = \"\", ending = loss); state n: int [0..1000] = 0; \
    state steps: nums [0..1000]; \
    test rises(h: num, w: word, e: ending, now: num) = \
    now > h and w != \"look\" and not e is draw; \
    update { if rises(last, x) { n = n + 1; push steps n; } keep last(x, what, end); } \
    report { n = n; steps = count(steps); }";

/// One group with a label that each record may change.
pub(crate) const MODES: &str = "enum ending { win, draw, loss } enum mode { idle, busy, away } \
    field end: ending; state phase: mode = idle; \
    update { if end is win { if phase is idle { phase = busy; } else { phase = away; } } \
    else { if phase is away { phase = idle; } } } report { phase = phase; }";

/// Quotients of each user from the 21st record on. A division by zero ends the group.
pub(crate) const QUOTIENTS: &str = "field user: word; field x: num else 0; group user; \
    state n: int [0..1000] = 0; state quotients: nums [-99..99]; \
    update { n = n + 1; if n > 20 { push quotients 10 / x; } } \
    report { n = n; quotients = count(quotients); }";

/// How many records a number has, up to 20, and who had them.
pub(crate) const BY_NUMBER: &str = "field user: word; field x: num else 0; group x; \
    state n: int [0..20] = 0; state users: words; \
    update { n = n + 1; push users user; } report { n = n; users = count(users); }";

/// A sum of each of 40 groups.
pub(crate) const MANY: &str = "field x: num else 0; field no: num; group no; \
    state n: int [-5..9] = 0; state xs: nums [-9..9]; \
    update { n = n + x; push xs x; } report { n = n; xs = count(xs); }";

pub(crate) const NUMBERS: &str = "x\n1\n1\n1\n1\n1\n1\n1\n1\n";

/// Actions and notes. In some chunks all records of a user lack the action, in some the note, and
/// in others neither.
pub(crate) const DEEDS: &str = "what,user,note\n,a,x\n,a,y\nbuy,b,\nsell,a,\n,b,z\nbuy,a,\n,a,x\n\
    ,b,\nbuy,b,x\n,a,\nlook,a,y\n,b,w\nbuy,a,\n,b,v\nsell,b,\nbuy,b,\n";

/// Rows of deals, most of them of one user.
pub(crate) const DEALS: [&str; 11] = [
    "a,3,buy,win",
    "b,-1,,loss",
    "a,2,sell,win",
    "a,,look,draw",
    "c,-4,,loss",
    "a,1,,win",
    "b,5,buy,win",
    "a,-2,sell,loss",
    "a,4,,win",
    "c,0,look,draw",
    "a,-3,buy,win",
];
