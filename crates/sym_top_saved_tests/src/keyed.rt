//! Run files of keys of two and three fields: the one that `map` writes, and what `reduce` and
//! `join` make of several.
use crate::calls::Call;
use std::test::Fail;
use sym_given::check_threaded_rows;
use sym_top::Status;

/// Each user and day has 5 after a record.
const SET_BY_DAY: &str = "field user: word; field day: word; group user, day; \
    state n: int [0..9] = 0; update { n = 5; } report { n = n; }";

/// The same of a key of a label, a word and a number, in another order than that of the fields.
const SET_BY_ALL: &str =
    "enum mode { idle, busy } field user: word; field day: num; field what: mode; \
    group what, user, day; state n: int [0..9] = 0; update { n = 5; } report { n = n; }";

// A run file of `SET_BY_DAY`, with the script in its printed form.
macro_rules! by_day {
    ($rest:literal) => {
        concat!(
            "symple run 1\nscript 117\nfield user: word;\nfield day: word;\ngroup user, day;\n",
            "state n: int [0..9] = 0;\nupdate {\n  n = 5;\n}\nreport {\n  n = n;\n}\n",
            $rest
        )
    };
}

// The same of `SET_BY_ALL`.
macro_rules! by_all {
    ($rest:literal) => {
        concat!(
            "symple run 1\nscript 165\nenum mode { idle, busy }\nfield user: word;\n",
            "field day: num;\nfield what: mode;\ngroup what, user, day;\n",
            "state n: int [0..9] = 0;\nupdate {\n  n = 5;\n}\nreport {\n  n = n;\n}\n",
            $rest
        )
    };
}

/// Three records of two keys, whose values are the same text if they are put together.
const DAYS: &str = by_day!(
    "first 1\nnext 4\ngroups 2\nkey w3:a b w1:c\nchain 1\nsegment 1\nwhen i0..9\nnext n5\n\
    key w1:a w3:b c\nchain 1\nsegment 1\nwhen i0..9\nnext n5\nend\n"
);

/// Two more, of which the first has a key of its own.
const MORE_DAYS: &str = by_day!(
    "first 4\nnext 6\ngroups 2\nkey w1:a w1:c\nchain 1\nsegment 1\nwhen i0..9\nnext n7\n\
    key w1:a w3:b c\nchain 1\nsegment 1\nwhen i0..9\nnext n6\nend\n"
);

/// Both, joined.
const ALL_DAYS: &str = by_day!(
    "first 1\nnext 6\ngroups 3\nkey w3:a b w1:c\nchain 1\nsegment 1\nwhen i0..9\nnext n5\n\
    key w1:a w3:b c\nchain 1\nsegment 1\nwhen i0..9\nnext n6\n\
    key w1:a w1:c\nchain 1\nsegment 1\nwhen i0..9\nnext n7\nend\n"
);

/// Five records of four keys, each two of which differ in one value.
const MODES: &str = by_all!(
    "first 1\nnext 6\ngroups 4\nkey l1 w3:ann n3\nchain 1\nsegment 1\nwhen i0..9\nnext n5\n\
    key l1 w3:bob n3\nchain 1\nsegment 1\nwhen i0..9\nnext n5\n\
    key l0 w3:ann n3\nchain 1\nsegment 1\nwhen i0..9\nnext n5\n\
    key l1 w3:ann n-3\nchain 1\nsegment 1\nwhen i0..9\nnext n5\nend\n"
);

/// One more, of the third key.
const MORE_MODES: &str = by_all!(
    "first 6\nnext 7\ngroups 1\nkey l0 w3:ann n3\nchain 1\nsegment 1\nwhen i0..9\nnext n2\nend\n"
);

/// A run file whose key lacks its last value.
const SHORT_KEY: &str = by_day!(
    "first 1\nnext 2\ngroups 1\nkey w1:a\nchain 1\nsegment 1\nwhen i0..9\nnext n5\nend\n"
);

/// One whose values of a key are in the order of the fields.
const TURNED_KEY: &str = by_all!(
    "first 1\nnext 2\ngroups 1\nkey w3:ann n3 l1\nchain 1\nsegment 1\nwhen i0..9\nnext n5\nend\n"
);

const MAPPED: Call = Call {
    words: &["map", "s", "f"],
    script: SET_BY_DAY,
    files: &[("f", "user,day\na b,c\na,b c\na b,c\n")],
    read: 0,
    write: 0,
    status: Status::Done,
    out: DAYS,
    err: "",
    stops: false,
};

const MODES_MAPPED: Call = Call {
    script: SET_BY_ALL,
    files: &[(
        "f",
        "day,user,what\n3,ann,busy\n3,bob,busy\n3,ann,idle\n-3,ann,busy\n3,ann,busy\n",
    )],
    out: MODES,
    ..MAPPED
};

const REDUCED: Call = Call {
    words: &["reduce", "s", "a", "b"],
    files: &[("a", DAYS), ("b", MORE_DAYS)],
    out: "user | day | n\na b | c | 5\na | b c | 6\na | c | 7\n--\n",
    ..MAPPED
};

const MODES_REDUCED: Call = Call {
    words: &["reduce", "s", "a", "b"],
    script: SET_BY_ALL,
    files: &[("a", MODES), ("b", MORE_MODES)],
    out: "what | user | day | n\nbusy | ann | 3 | 5\nbusy | bob | 3 | 5\n\
        idle | ann | 3 | 2\nbusy | ann | -3 | 5\n--\n",
    ..MAPPED
};

/// Calls over keys of several fields.
const CALLS: [Call; 10] = [
    MAPPED,
    Call {
        words: &["map", "--chunk", "1", "--workers", "64", "s", "f"],
        ..MAPPED
    },
    MODES_MAPPED,
    Call {
        words: &["map", "--chunk", "1", "--limit", "1", "s", "f"],
        ..MODES_MAPPED
    },
    REDUCED,
    Call {
        words: &["join", "s", "a", "b"],
        out: ALL_DAYS,
        ..REDUCED
    },
    MODES_REDUCED,
    Call {
        words: &["reduce", "--form=pairs", "s", "a", "b"],
        out: "what=\"busy\" user=\"ann\" day=3 n=5\nwhat=\"busy\" user=\"bob\" day=3 n=5\n\
            what=\"idle\" user=\"ann\" day=3 n=2\nwhat=\"busy\" user=\"ann\" day=-3 n=5\n",
        ..MODES_REDUCED
    },
    Call {
        words: &["reduce", "s", "a"],
        files: &[("a", SHORT_KEY)],
        status: Status::Input,
        out: "",
        err: "symple: a: not a run file\n",
        ..MAPPED
    },
    Call {
        words: &["reduce", "s", "a"],
        script: SET_BY_ALL,
        files: &[("a", TURNED_KEY)],
        status: Status::Input,
        out: "",
        err: "symple: a: not a run file\n",
        ..MAPPED
    },
];

#[test]
fn keys_of_several_fields_are_mapped_and_reduced(rt: HostRuntime) -> Result<(), Fail> {
    check_threaded_rows(&rt, rt.alloc(), &CALLS)
}
