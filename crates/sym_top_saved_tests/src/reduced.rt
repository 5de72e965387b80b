//! `reduce` and `join` over run files: the report of all their records, or one run file of them, and
//! the first problem.
use crate::calls::{Call, File, NO_SCRIPT};
use std::test::Fail;
use sym_given::check_threaded_rows;
use sym_given::saved::{
    A_TWICE, ALL_USERS, CUT_OFF, D_TWICE, ENDS, FIVE, FROM_ONE, KEPT, KEPT_OTHERWISE,
    LATER_FROM_ONE, MORE_CUT_OFF, MORE_USERS, NONE, NOT_FIVE, SET, SIXTH, THREE, TURNED, TWO,
    USERS,
};
use sym_given::scripts::COUNTER;
use sym_top::Status;

const ONE_FILE: &[&str] = &["reduce", "s", "a"];

const TWO_FILES: &[&str] = &["reduce", "s", "a", "b"];

const THREE_FILES: &[&str] = &["reduce", "s", "a", "b", "c"];

const JOINED: &[&str] = &["join", "s", "a", "b", "c"];

const REDUCED: Call = Call {
    words: ONE_FILE,
    script: KEPT,
    files: &[("a", TWO)],
    read: 0,
    write: 0,
    status: Status::Done,
    out: "n\n0\n--\n",
    err: "",
    stops: false,
};

/// Run files, and the reports on them, or what they are joined to.
const REPORTS: [Call; 17] = [
    REDUCED,
    Call {
        words: TWO_FILES,
        files: &[("a", TWO), ("b", THREE)],
        ..REDUCED
    },
    Call {
        words: THREE_FILES,
        files: &[("a", TWO), ("b", THREE), ("c", SIXTH)],
        ..REDUCED
    },
    Call {
        words: THREE_FILES,
        files: &[("a", NONE), ("b", TWO), ("c", THREE)],
        ..REDUCED
    },
    Call {
        files: &[("a", NONE)],
        out: "n\n--\n",
        ..REDUCED
    },
    // The script is the same, printed otherwise.
    Call {
        script: KEPT_OTHERWISE,
        ..REDUCED
    },
    // A group that has ended stays so, though a later file has no path for it.
    Call {
        words: TWO_FILES,
        files: &[("a", ENDS), ("b", LATER_FROM_ONE)],
        status: Status::Faulted,
        out: "n\nfault: n overflows at record 2\n--\n",
        ..REDUCED
    },
    Call {
        script: SET,
        files: &[("a", USERS)],
        out: "user | n\nc | 5\na | 5\nb | 5\n--\n",
        ..REDUCED
    },
    // The first file's keys come first.
    Call {
        words: TWO_FILES,
        script: SET,
        files: &[("a", USERS), ("b", MORE_USERS)],
        out: "user | n\nc | 5\na | 6\nb | 5\nd | 5\n--\n",
        ..REDUCED
    },
    Call {
        words: &["reduce", "--form", "csv", "s", "a"],
        script: SET,
        files: &[("a", USERS)],
        out: "user,n,fault\nc,5,\na,5,\nb,5,\n",
        ..REDUCED
    },
    Call {
        words: &["reduce", "s", "a", "--form=pairs"],
        script: SET,
        files: &[("a", USERS)],
        out: "user=\"c\" n=5\nuser=\"a\" n=5\nuser=\"b\" n=5\n",
        ..REDUCED
    },
    // The run file has 175 bytes.
    Call {
        words: &["reduce", "--max-bytes", "175", "s", "a"],
        ..REDUCED
    },
    Call {
        words: &["join", "s", "a", "b"],
        files: &[("a", TWO), ("b", THREE)],
        out: FIVE,
        ..REDUCED
    },
    // The first file may begin anywhere.
    Call {
        words: &["join", "s", "a"],
        files: &[("a", THREE)],
        out: THREE,
        ..REDUCED
    },
    Call {
        words: &["join", "--limit", "1", "s", "a", "b", "c"],
        files: &[("a", NONE), ("b", TWO), ("c", THREE)],
        out: FIVE,
        ..REDUCED
    },
    // The first file's keys come first, and its records.
    Call {
        words: &["join", "s", "a", "b"],
        script: SET,
        files: &[("a", USERS), ("b", MORE_USERS)],
        out: ALL_USERS,
        ..REDUCED
    },
    // A name that stands twice is read twice.
    Call {
        words: &["reduce", "s", "a", "a"],
        files: &[("a", NONE)],
        out: "n\n--\n",
        ..REDUCED
    },
];

#[test]
fn run_files_are_reported_on(rt: HostRuntime) -> Result<(), Fail> {
    check_threaded_rows(&rt, rt.alloc(), &REPORTS)
}

/// A call that is refused at its first file, after which nothing is read.
const AT_FIRST: Call = Call {
    words: TWO_FILES,
    read: 5,
    status: Status::Input,
    out: "",
    stops: true,
    ..REDUCED
};

/// The second file, after a first one that is taken.
const AT_SECOND: Call = Call {
    words: THREE_FILES,
    read: 7,
    ..AT_FIRST
};

/// A join of three files, all of which are read before the first one is joined.
const AT_JOIN: Call = Call {
    words: JOINED,
    read: 8,
    ..AT_FIRST
};

// A second file that has a problem of its own.
const BROKEN: File = ("b", "");

/// Run files that aren't taken, by what is wrong with each.
const FAULTS: [Call; 18] = [
    Call {
        files: &[("a", THREE), BROKEN],
        err: "symple: a: records do not follow\n",
        ..AT_FIRST
    },
    Call {
        files: &[("a", CUT_OFF), BROKEN],
        err: "symple: a: not a run file\n",
        ..AT_FIRST
    },
    Call {
        files: &[("a", ""), BROKEN],
        err: "symple: a: not a run file\n",
        ..AT_FIRST
    },
    Call {
        files: &[("a", "x\n5\n5\n"), BROKEN],
        err: "symple: a: not a run file\n",
        ..AT_FIRST
    },
    Call {
        script: COUNTER,
        files: &[("a", TWO), BROKEN],
        err: "symple: a: run of another script\n",
        ..AT_FIRST
    },
    Call {
        files: &[("a", FROM_ONE), BROKEN],
        err: "symple: a: no path for group 1\n",
        ..AT_FIRST
    },
    Call {
        words: &["join", "s", "a", "b"],
        read: 6,
        files: &[("a", CUT_OFF), BROKEN],
        err: "symple: a: not a run file\n",
        ..AT_FIRST
    },
    // A file is missing, stands twice, or comes too late.
    Call {
        files: &[("a", TWO), ("b", SIXTH), ("c", "")],
        err: "symple: b: records do not follow\n",
        ..AT_JOIN
    },
    // Where it shows only after groups were joined.
    Call {
        script: SET,
        files: &[("a", USERS), ("b", A_TWICE), ("c", "")],
        err: "symple: b: not a run file\n",
        ..AT_JOIN
    },
    Call {
        script: SET,
        files: &[("a", USERS), ("b", D_TWICE), ("c", "")],
        err: "symple: b: not a run file\n",
        ..AT_JOIN
    },
    Call {
        script: SET,
        files: &[("a", USERS), ("b", MORE_CUT_OFF), ("c", "")],
        err: "symple: b: not a run file\n",
        ..AT_JOIN
    },
    Call {
        files: &[("a", TWO), ("b", USERS), ("c", "")],
        err: "symple: b: run of another script\n",
        ..AT_JOIN
    },
    Call {
        files: &[("a", TWO), ("b", SIXTH), ("c", "")],
        err: "symple: b: records do not follow\n",
        ..AT_SECOND
    },
    Call {
        files: &[("a", TWO), ("b", TWO), ("c", "")],
        err: "symple: b: records do not follow\n",
        ..AT_SECOND
    },
    Call {
        files: &[("a", NONE), ("b", THREE), ("c", TWO)],
        err: "symple: b: records do not follow\n",
        ..AT_SECOND
    },
    Call {
        files: &[("a", TWO), ("b", "symple run 1\n"), ("c", "")],
        err: "symple: b: not a run file\n",
        ..AT_SECOND
    },
    Call {
        files: &[("a", TWO), ("b", USERS), ("c", "")],
        err: "symple: b: run of another script\n",
        ..AT_SECOND
    },
    Call {
        script: SET,
        files: &[("a", USERS), ("b", NOT_FIVE), ("c", "")],
        err: "symple: b: no path for group 2\n",
        ..AT_SECOND
    },
];

#[test]
fn a_file_that_is_not_taken_is_told(rt: HostRuntime) -> Result<(), Fail> {
    check_threaded_rows(&rt, rt.alloc(), &FAULTS)
}

/// Files in which several things are wrong: the first one is told.
const FIRST_PROBLEMS: [Call; 9] = [
    // Its size, whatever it is.
    Call {
        words: &["reduce", "--max-bytes", "174", "s", "a"],
        files: &[("a", TWO)],
        status: Status::TooLarge,
        out: "",
        err: "symple: a: too large\n",
        ..REDUCED
    },
    Call {
        words: &["reduce", "--max-bytes", "9", "s", "a", "b"],
        files: &[("a", "ten bytes!"), BROKEN],
        status: Status::TooLarge,
        out: "",
        err: "symple: a: too large\n",
        ..REDUCED
    },
    Call {
        words: &["reduce", "--max-bytes", "175", "s", "a", "b"],
        script: SET,
        files: &[("a", ""), ("b", USERS)],
        err: "symple: a: not a run file\n",
        ..AT_FIRST
    },
    // The script before the numbers.
    Call {
        script: COUNTER,
        files: &[("a", THREE), BROKEN],
        err: "symple: a: run of another script\n",
        ..AT_FIRST
    },
    // The text before the numbers.
    Call {
        files: &[("a", TURNED), BROKEN],
        err: "symple: a: not a run file\n",
        ..AT_FIRST
    },
    // The numbers before the paths.
    Call {
        files: &[("a", LATER_FROM_ONE), BROKEN],
        err: "symple: a: records do not follow\n",
        ..AT_FIRST
    },
    // A file before the next one.
    Call {
        files: &[("a", FROM_ONE), ("b", USERS)],
        err: "symple: a: no path for group 1\n",
        ..AT_FIRST
    },
    Call {
        script: NO_SCRIPT,
        files: &[("a", THREE), BROKEN],
        read: 3,
        status: Status::Script,
        err: "symple: script: unexpected token at byte 8\n",
        ..AT_FIRST
    },
    Call {
        words: &["reduce", "--form", "html", "s", "a"],
        files: &[("a", THREE)],
        read: 1,
        status: Status::Usage,
        err: "symple: usage\n",
        ..AT_FIRST
    },
];

#[test]
fn the_first_problem_is_told(rt: HostRuntime) -> Result<(), Fail> {
    check_threaded_rows(&rt, rt.alloc(), &FIRST_PROBLEMS)
}

/// A report on two files.
const BOTH: Call = Call {
    words: TWO_FILES,
    files: &[("a", TWO), ("b", THREE)],
    ..REDUCED
};

/// A read of it that fails.
const UNREAD: Call = Call {
    status: Status::ReadFault,
    out: "",
    ..BOTH
};

const FAILED: [Call; 11] = [
    Call {
        read: 1,
        err: "symple: s: read fault\n",
        ..UNREAD
    },
    Call {
        read: 2,
        err: "symple: s: read fault\n",
        ..UNREAD
    },
    Call {
        read: 3,
        err: "symple: a: read fault\n",
        ..UNREAD
    },
    Call {
        read: 4,
        err: "symple: a: read fault\n",
        ..UNREAD
    },
    Call {
        read: 5,
        err: "symple: b: read fault\n",
        ..UNREAD
    },
    Call {
        read: 6,
        err: "symple: b: read fault\n",
        ..UNREAD
    },
    Call { read: 7, ..BOTH },
    Call {
        words: &["reduce", "s", "a", "absent", "b"],
        err: "symple: absent: read fault\n",
        ..UNREAD
    },
    // A file with a problem comes before one that isn't read.
    Call {
        words: &["reduce", "s", "a", "absent"],
        files: &[("a", CUT_OFF)],
        status: Status::Input,
        err: "symple: a: not a run file\n",
        ..UNREAD
    },
    Call {
        write: 1,
        status: Status::WriteFault,
        out: "",
        err: "symple: write fault\n",
        ..BOTH
    },
    Call {
        script: SET,
        words: ONE_FILE,
        files: &[("a", USERS)],
        write: 2,
        status: Status::WriteFault,
        out: "user | n\nc | 5\na",
        err: "symple: write fault\n",
        ..BOTH
    },
];

#[test]
fn a_report_fails_where_a_read_or_a_write_does(rt: HostRuntime) -> Result<(), Fail> {
    check_threaded_rows(&rt, rt.alloc(), &FAILED)
}
