//! `map` over logs: the run file of a part, and why there is none.
use crate::calls::{Call, NO_SCRIPT};
use std::test::Fail;
use sym_given::check_threaded_rows;
use sym_given::saved::{KEPT, SET, USERS};
use sym_top::Status;

const MAP: &[&str] = &["map", "s", "f"];

const MAP_TWO: &[&str] = &["map", "--first", "3", "s", "f", "g"];

const MAPPED: Call = Call {
    words: MAP,
    script: KEPT,
    files: &[("f", "x\n5\n5\n")],
    read: 0,
    write: 0,
    status: Status::Done,
    out: "",
    err: "",
    stops: false,
};

// The run file of records of `KEPT` with one group, and of none.
macro_rules! kept {
    ($first:literal, $next:literal) => {
        concat!(
            "symple run 1\nscript 79\nfield x: num;\nstate n: int [0..3] = 0;\nupdate {\n",
            "  n = n;\n}\nreport {\n  n = n;\n}\nfirst ",
            $first,
            "\nnext ",
            $next,
            "\ngroups 1\nkey\nchain 1\nsegment 1\nwhen i0..3\nnext x0,1,0\nend\n"
        )
    };
}

macro_rules! kept_none {
    ($first:literal) => {
        concat!(
            "symple run 1\nscript 79\nfield x: num;\nstate n: int [0..3] = 0;\nupdate {\n",
            "  n = n;\n}\nreport {\n  n = n;\n}\nfirst ",
            $first,
            "\nnext ",
            $first,
            "\ngroups 0\nend\n"
        )
    };
}

/// Logs, and their run files.
const RUN_FILES: [Call; 12] = [
    Call {
        out: kept!("1", "3"),
        ..MAPPED
    },
    Call {
        words: &["map", "s", "f", "--first", "1"],
        out: kept!("1", "3"),
        ..MAPPED
    },
    Call {
        words: &["map", "--first=9999999999", "s", "f"],
        out: kept!("9999999999", "10000000001"),
        ..MAPPED
    },
    Call {
        words: &["map", "--first", "0000000003", "s", "f"],
        out: kept!("3", "5"),
        ..MAPPED
    },
    Call {
        words: MAP_TWO,
        files: &[("f", "x\n5\n"), ("g", "y,x\n1,5\n2,5\n")],
        out: kept!("3", "6"),
        ..MAPPED
    },
    Call {
        words: &["map", "--chunk", "1", "--limit", "1", "s", "f"],
        files: &[("f", "x\n1\n2\n3\n")],
        out: kept!("1", "4"),
        ..MAPPED
    },
    Call {
        words: &["map", "--workers=64", "--chunk=1", "s", "f"],
        files: &[("f", "x\n1\n2\n3\n")],
        out: kept!("1", "4"),
        ..MAPPED
    },
    Call {
        words: &["map", "--max-bytes", "6", "s", "f"],
        out: kept!("1", "3"),
        ..MAPPED
    },
    // No records.
    Call {
        files: &[("f", "x\n")],
        out: kept_none!("1"),
        ..MAPPED
    },
    Call {
        words: MAP_TWO,
        files: &[("f", ""), ("g", "x")],
        out: kept_none!("3"),
        ..MAPPED
    },
    Call {
        words: &["map", "--first", "9999999999", "s", "f"],
        files: &[("f", "x\n")],
        out: kept_none!("9999999999"),
        ..MAPPED
    },
    // Keys go by their first records.
    Call {
        script: SET,
        files: &[("f", "user\nc\na\nb\na\n")],
        out: USERS,
        ..MAPPED
    },
];

#[test]
fn a_part_has_a_run_file(rt: HostRuntime) -> Result<(), Fail> {
    check_threaded_rows(&rt, rt.alloc(), &RUN_FILES)
}

/// Logs that have no run file. The read after the last one that is made fails.
const REFUSED: [Call; 11] = [
    Call {
        words: &["map", "--first", "0", "s", "f"],
        read: 1,
        status: Status::Usage,
        err: "symple: usage\n",
        stops: true,
        ..MAPPED
    },
    Call {
        words: &["map", "--first", "10000000000", "s", "f"],
        read: 1,
        status: Status::Usage,
        err: "symple: usage\n",
        stops: true,
        ..MAPPED
    },
    Call {
        script: NO_SCRIPT,
        read: 3,
        status: Status::Script,
        err: "symple: script: unexpected token at byte 8\n",
        stops: true,
        ..MAPPED
    },
    Call {
        words: MAP_TWO,
        files: &[("f", "y\n5\n"), ("g", "x\n5\n")],
        read: 5,
        status: Status::Input,
        err: "symple: f: header: no field x\n",
        stops: true,
        ..MAPPED
    },
    Call {
        words: MAP_TWO,
        files: &[("f", "x\n5\n"), ("g", "x,x\n5,5\n")],
        read: 7,
        status: Status::Input,
        err: "symple: g: header: field x twice\n",
        stops: true,
        ..MAPPED
    },
    Call {
        files: &[("f", "x\n5\nz\n")],
        read: 5,
        status: Status::Input,
        err: "symple: f: record 2: field x is not a number\n",
        stops: true,
        ..MAPPED
    },
    // Records are numbered from the first one on.
    Call {
        words: MAP_TWO,
        files: &[("f", "x\n5\n"), ("g", "x\n5\n5,5\n")],
        read: 7,
        status: Status::Input,
        err: "symple: g: record 5: 2 fields\n",
        stops: true,
        ..MAPPED
    },
    Call {
        words: &["map", "--first", "9999999999", "s", "f"],
        files: &[("f", "x\n5\nz\n")],
        read: 5,
        status: Status::Input,
        err: "symple: f: record 10000000000: field x is not a number\n",
        stops: true,
        ..MAPPED
    },
    Call {
        words: &["map", "--max-bytes", "5", "s", "f"],
        status: Status::TooLarge,
        err: "symple: f: too large\n",
        ..MAPPED
    },
    Call {
        words: &["map", "s", "f", "absent"],
        status: Status::ReadFault,
        err: "symple: absent: read fault\n",
        ..MAPPED
    },
    Call {
        words: &["map", "absent", "f"],
        status: Status::ReadFault,
        err: "symple: absent: read fault\n",
        ..MAPPED
    },
];

#[test]
fn a_part_is_refused_as_a_run_is(rt: HostRuntime) -> Result<(), Fail> {
    check_threaded_rows(&rt, rt.alloc(), &REFUSED)
}

/// A part of two files.
const BOTH: Call = Call {
    words: MAP_TWO,
    files: &[("f", "x\n5\n"), ("g", "x\n5\n")],
    ..MAPPED
};

/// A read that fails, or a write, in such a part.
const FAILED: [Call; 9] = [
    Call {
        read: 1,
        status: Status::ReadFault,
        err: "symple: s: read fault\n",
        ..BOTH
    },
    Call {
        read: 2,
        status: Status::ReadFault,
        err: "symple: s: read fault\n",
        ..BOTH
    },
    Call {
        read: 3,
        status: Status::ReadFault,
        err: "symple: f: read fault\n",
        ..BOTH
    },
    Call {
        read: 4,
        status: Status::ReadFault,
        err: "symple: f: read fault\n",
        ..BOTH
    },
    Call {
        read: 5,
        status: Status::ReadFault,
        err: "symple: g: read fault\n",
        ..BOTH
    },
    Call {
        read: 6,
        status: Status::ReadFault,
        err: "symple: g: read fault\n",
        ..BOTH
    },
    Call {
        write: 1,
        status: Status::WriteFault,
        err: "symple: write fault\n",
        ..BOTH
    },
    Call {
        write: 2,
        status: Status::WriteFault,
        out: "symple run 1\nscr",
        err: "symple: write fault\n",
        ..BOTH
    },
    // 175 bytes are written in 11 pieces.
    Call {
        write: 12,
        out: kept!("3", "5"),
        ..BOTH
    },
];

#[test]
fn a_part_fails_where_a_read_or_a_write_does(rt: HostRuntime) -> Result<(), Fail> {
    check_threaded_rows(&rt, rt.alloc(), &FAILED)
}
