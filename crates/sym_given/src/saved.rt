//! Scripts, and files of saved runs of theirs.

/// A number that stays, in one group.
pub const KEPT: &str = "field x: num; state n: int [0..3] = 0; update { n = n; } report { n = n; }";

/// The same script, written otherwise.
pub const KEPT_OTHERWISE: &str = "# The number stays.\nfield x :num ;\n\n\
    state n:int[ 0 .. 3 ]=0;update{n=n;}\treport {n = n;} # the end";

/// Each user has 5 after a record.
pub const SET: &str = "field user: word; group user; state n: int [0..9] = 0; \
    update { n = 5; } report { n = n; }";

/// The words of each user.
pub const PUSHED: &str = "field user: word; group user; state ws: words; update { push ws user; } \
    report { c = count(ws); }";

// A run file of `KEPT`, with the script in its printed form.
macro_rules! kept {
    ($rest:literal) => {
        concat!(
            "symple run 1\nscript 79\nfield x: num;\nstate n: int [0..3] = 0;\nupdate {\n",
            "  n = n;\n}\nreport {\n  n = n;\n}\n",
            $rest
        )
    };
}

// The same of `SET`.
macro_rules! set {
    ($rest:literal) => {
        concat!(
            "symple run 1\nscript 95\nfield user: word;\ngroup user;\nstate n: int [0..9] = 0;\n",
            "update {\n  n = 5;\n}\nreport {\n  n = n;\n}\n",
            $rest
        )
    };
}

// The same of `PUSHED`.
macro_rules! pushed {
    ($rest:literal) => {
        concat!(
            "symple run 1\nscript 102\nfield user: word;\ngroup user;\nstate ws: words;\nupdate {\n",
            "  push ws user;\n}\nreport {\n  c = count(ws);\n}\n",
            $rest
        )
    };
}

/// Two records, numbered from 1 on.
pub const TWO: &str = kept!(
    "first 1\nnext 3\ngroups 1\nkey\nchain 1\nsegment 1\nwhen i0..3\nnext x0,1,0\nend\n"
);

/// Three records, numbered from 3 on.
pub const THREE: &str = kept!(
    "first 3\nnext 6\ngroups 1\nkey\nchain 1\nsegment 1\nwhen i0..3\nnext x0,1,0\nend\n"
);

/// Both, joined.
pub const FIVE: &str = kept!(
    "first 1\nnext 6\ngroups 1\nkey\nchain 1\nsegment 1\nwhen i0..3\nnext x0,1,0\nend\n"
);

/// The record after them too.
pub const SIX: &str = kept!(
    "first 1\nnext 7\ngroups 1\nkey\nchain 1\nsegment 1\nwhen i0..3\nnext x0,1,0\nend\n"
);

/// One record, of the number 6.
pub const SIXTH: &str = kept!(
    "first 6\nnext 7\ngroups 1\nkey\nchain 1\nsegment 1\nwhen i0..3\nnext x0,1,0\nend\n"
);

/// The first two records, by a path that the initial state isn't admitted by.
pub const FROM_ONE: &str = kept!(
    "first 1\nnext 3\ngroups 1\nkey\nchain 1\nsegment 1\nwhen i1..3\nnext x0,1,0\nend\n"
);

/// Three records from 3 on, by such a path.
pub const LATER_FROM_ONE: &str = kept!(
    "first 3\nnext 6\ngroups 1\nkey\nchain 1\nsegment 1\nwhen i1..3\nnext x0,1,0\nend\n"
);

/// The first two records, at the second of which the group ends.
pub const ENDS: &str = kept!(
    "first 1\nnext 3\ngroups 1\nkey\nchain 1\nsegment 1\nwhen i0..3\nover 0 2\nend\n"
);

/// No records.
pub const NONE: &str = kept!("first 1\nnext 1\ngroups 0\nend\n");

/// A run file without its last byte.
pub const CUT_OFF: &str = kept!(
    "first 1\nnext 3\ngroups 1\nkey\nchain 1\nsegment 1\nwhen i0..3\nnext x0,1,0\nend"
);

/// A run file whose last record comes before its first.
pub const TURNED: &str = kept!("first 3\nnext 1\ngroups 0\nend\n");

/// Four records of the users c, a, b and a.
pub const USERS: &str = set!(
    "first 1\nnext 5\ngroups 3\nkey w1:c\nchain 1\nsegment 1\nwhen i0..9\nnext n5\n\
    key w1:a\nchain 1\nsegment 1\nwhen i0..9\nnext n5\n\
    key w1:b\nchain 1\nsegment 1\nwhen i0..9\nnext n5\nend\n"
);

/// Two more of the users d and a.
pub const MORE_USERS: &str = set!(
    "first 5\nnext 7\ngroups 2\nkey w1:d\nchain 1\nsegment 1\nwhen i0..9\nnext n5\n\
    key w1:a\nchain 1\nsegment 1\nwhen i0..9\nnext n6\nend\n"
);

/// Both, joined.
pub const ALL_USERS: &str = set!(
    "first 1\nnext 7\ngroups 4\nkey w1:c\nchain 1\nsegment 1\nwhen i0..9\nnext n5\n\
    key w1:a\nchain 1\nsegment 1\nwhen i0..9\nnext n6\n\
    key w1:b\nchain 1\nsegment 1\nwhen i0..9\nnext n5\n\
    key w1:d\nchain 1\nsegment 1\nwhen i0..9\nnext n5\nend\n"
);

/// Two more, whose user a stands twice.
pub const A_TWICE: &str = set!(
    "first 5\nnext 7\ngroups 3\nkey w1:d\nchain 1\nsegment 1\nwhen i0..9\nnext n5\n\
    key w1:a\nchain 1\nsegment 1\nwhen i0..9\nnext n6\n\
    key w1:a\nchain 1\nsegment 1\nwhen i0..9\nnext n6\nend\n"
);

/// Two more, whose user d stands twice.
pub const D_TWICE: &str = set!(
    "first 5\nnext 7\ngroups 2\nkey w1:d\nchain 1\nsegment 1\nwhen i0..9\nnext n5\n\
    key w1:d\nchain 1\nsegment 1\nwhen i0..9\nnext n6\nend\n"
);

/// The same as the two more, without the last byte.
pub const MORE_CUT_OFF: &str = set!(
    "first 5\nnext 7\ngroups 2\nkey w1:d\nchain 1\nsegment 1\nwhen i0..9\nnext n5\n\
    key w1:a\nchain 1\nsegment 1\nwhen i0..9\nnext n6\nend"
);

/// The same as the two more, where the second group has no path for 5.
pub const NOT_FIVE: &str = set!(
    "first 5\nnext 7\ngroups 2\nkey w1:d\nchain 1\nsegment 1\nwhen i0..9\nnext n5\n\
    key w1:a\nchain 1\nsegment 1\nwhen i0..4\nnext n6\nend\n"
);

/// Two records of a user whose name has a line that begins as that of a key, and of the user b.
pub const LINES: &str = set!(
    "first 1\nnext 3\ngroups 2\nkey w10:a\nkey w1:b\nchain 1\nsegment 1\nwhen i0..9\nnext n5\n\
    key w1:b\nchain 1\nsegment 1\nwhen i0..9\nnext n5\nend\n"
);

/// Two more of the same users, in the other order.
pub const MORE_LINES: &str = set!(
    "first 3\nnext 5\ngroups 2\nkey w1:b\nchain 1\nsegment 1\nwhen i0..9\nnext n6\n\
    key w10:a\nkey w1:b\nchain 1\nsegment 1\nwhen i0..9\nnext n7\nend\n"
);

/// Both, joined.
pub const ALL_LINES: &str = set!(
    "first 1\nnext 5\ngroups 2\nkey w10:a\nkey w1:b\nchain 1\nsegment 1\nwhen i0..9\nnext n7\n\
    key w1:b\nchain 1\nsegment 1\nwhen i0..9\nnext n6\nend\n"
);

/// A record with a word that has a line which begins as that of a key.
pub const KEY_LINE: &str = pushed!(
    "first 1\nnext 2\ngroups 1\nkey w1:a\nchain 1\nsegment 1\nwhen v\nnext a1 w5:x\nkey\nend\n"
);

/// One more of the same user.
pub const AFTER_KEY_LINE: &str = pushed!(
    "first 2\nnext 3\ngroups 1\nkey w1:a\nchain 1\nsegment 1\nwhen v\nnext a1 w1:b\nend\n"
);

/// Both, joined.
pub const WITH_KEY_LINE: &str = pushed!(
    "first 1\nnext 3\ngroups 1\nkey w1:a\nchain 1\nsegment 1\nwhen v\n\
    next a2 w5:x\nkey w1:b\nend\n"
);
