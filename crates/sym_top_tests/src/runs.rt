//! Whole runs over stores and sinks in memory.
use crate::calls::{DONE, Run, THREE_FILES, TWO_FILES, USAGE};
use crate::scripts::{
    BETWEEN, BY_ALL, BY_DAY, CALCULATED, CLAMPED, CLAMPED_QUOTIENT, CLAMPED_SUMS, NO_RANGE,
    NO_SCRIPT, TURNED, TWO,
};
use std::alloc::Global;
use std::test::Fail;
use sym_base::{MemSink, NoMemory};
use sym_given::scripts::{
    BY_USER, COUNTER, DOUBLE, EARLY, MIRROR, QUOTIENT, SESSIONS, SHOWN, SUMS, TOGGLE, TWO_HUNDRED,
};
use sym_given::{all_hold, check_threaded_rows};
use sym_given_calls::{End, end_differs};
use sym_top::{StartErr, Status, refuse_start};

/// Scripts, the files that they are run over, and the reports.
const REPORTS: [Run; 25] = [
    Run {
        script: COUNTER,
        files: &["x\n5\n5\n5\n5\n5\n"],
        status: Status::Faulted,
        out: "n\nfault: n overflows at record 4\n--\n",
        ..DONE
    },
    Run {
        script: CLAMPED,
        files: &["x\n5\n5\n5\n5\n5\n"],
        out: "n\n3\n--\n",
        ..DONE
    },
    Run {
        script: BETWEEN,
        files: &["x\n-9\n1\n"],
        out: "n\n-2\n--\n",
        ..DONE
    },
    Run {
        script: CLAMPED_SUMS,
        files: &["user,x\na,12\na,-5\na,4\n"],
        out: "user | n | big\na | 11 | 13\n--\n",
        ..DONE
    },
    Run {
        script: CLAMPED_QUOTIENT,
        files: &["x\n3\n0\n5\n"],
        status: Status::Faulted,
        out: "n\nfault: arithmetic at record 2\n--\n",
        ..DONE
    },
    Run {
        script: BY_DAY,
        files: &["user,day\na,1\na,2\nb,1\na,1\n"],
        out: "user | day | n\na | 1 | 2\na | 2 | 1\nb | 1 | 1\n--\n",
        ..DONE
    },
    Run {
        script: BY_DAY,
        files: &["user,day\na b,c\na,b c\n"],
        out: "user | day | n\na b | c | 1\na | b c | 1\n--\n",
        ..DONE
    },
    // The group line's order is that of the names and values, whatever the file's.
    Run {
        script: BY_ALL,
        files: &["day,user,what\n3,ann,busy\n3,bob,busy\n3,ann,idle\n4,ann,busy\n3,ann,busy\n"],
        out: "what | user | day | n\nbusy | ann | 3 | 2\nbusy | bob | 3 | 1\n\
            idle | ann | 3 | 1\nbusy | ann | 4 | 1\n--\n",
        ..DONE
    },
    Run {
        script: SESSIONS,
        files: &["ts,user\n10,a\n20,a\n60,a\n5,b\n61,a\n"],
        out: "user | sessions | open | longest\na | 1 | 2 | 2\nb | 0 | 1 | none\n--\n",
        ..DONE
    },
    Run {
        script: BY_USER,
        files: &["user\n"],
        out: "user | n\n--\n",
        ..DONE
    },
    Run {
        words: TWO_FILES,
        script: BY_USER,
        files: &["", "user\nc\na\nb\na\n"],
        out: "user | n\nc | 1\na | 2\nb | 1\n--\n",
        ..DONE
    },
    Run {
        script: BY_USER,
        files: &["user\nc\na\nb\na\n"],
        out: "user | n\nc | 1\na | 2\nb | 1\n--\n",
        ..DONE
    },
    Run {
        words: THREE_FILES,
        script: BY_USER,
        files: &["user\na\n", "user\nb\n", "user\na\nc\n"],
        out: "user | n\na | 2\nb | 1\nc | 1\n--\n",
        ..DONE
    },
    Run {
        script: MIRROR,
        files: &["x\n1\n1\n1\n1\n1\n1\n1\n"],
        out: "n\n10\n--\n",
        ..DONE
    },
    Run {
        script: TOGGLE,
        files: &["x\n1\n1\n1\n"],
        out: "phase\nbusy\n--\n",
        ..DONE
    },
    Run {
        script: SUMS,
        files: &["user,x\na,5\na,\n"],
        out: "user | n | big\na | 5 | 5000000000000\n--\n",
        ..DONE
    },
    Run {
        script: SUMS,
        files: &["user,x\na,1000000000000\n"],
        out: "user | n | big\na | 1000000000000 | 1000000000000000000000000\n--\n",
        ..DONE
    },
    Run {
        script: SUMS,
        files: &["user,x\na,1000000000000\na,1\n"],
        status: Status::Faulted,
        out: "user | n | big\na | fault: n overflows at record 2\n--\n",
        ..DONE
    },
    Run {
        script: EARLY,
        files: &["ts,user\n1000000000000,a\n"],
        out: "user | sessions | open | longest\na | 0 | 1 | none\n--\n",
        ..DONE
    },
    Run {
        script: QUOTIENT,
        files: &["x\n3\n0\n5\n"],
        status: Status::Faulted,
        out: "n\nfault: arithmetic at record 2\n--\n",
        ..DONE
    },
    Run {
        script: SHOWN,
        files: &["user\na\n"],
        status: Status::Faulted,
        out: "user | q | r | m | k\na | zero divisor | -7 | none | none\n--\n",
        ..DONE
    },
    Run {
        script: CALCULATED,
        files: &["x\n3\n"],
        status: Status::Faulted,
        out: "zero | last | fourth | rest\nnone | none | overflow | 0\n--\n",
        ..DONE
    },
    Run {
        script: CALCULATED,
        files: &["x\n4\n9\n7\n"],
        status: Status::Faulted,
        out: "zero | last | fourth | rest\nzero divisor | 7 | overflow | 0\n--\n",
        ..DONE
    },
    Run {
        script: TURNED,
        files: &["x\n0\n0\n0\n0\n0\n"],
        out: "a | b | c | d\n1 | 2 | 2 | 1\n--\n",
        ..DONE
    },
    // 200 records are doubled.
    Run {
        script: DOUBLE,
        files: &[TWO_HUNDRED],
        out: "n\n0\n--\n",
        ..DONE
    },
];

#[test]
fn runs_write_their_reports(rt: HostRuntime) -> Result<(), Fail> {
    check_threaded_rows(&rt, rt.alloc(), &REPORTS)
}

/// Scripts, the files that they are run over, and the lines of the refusals.
const REFUSALS: [Run; 7] = [
    Run {
        script: SESSIONS,
        files: &["ts,user\n1,a\n2,a\n3,a\n4,a\n1,a,x\n6,a\nt,a\n8,a\n"],
        status: Status::Input,
        err: "symple: log.csv: record 5: 3 fields\n",
        ..DONE
    },
    Run {
        script: SUMS,
        files: &["user,x\na,1000000000001\n"],
        status: Status::Input,
        err: "symple: log.csv: record 1: field x is not a number\n",
        ..DONE
    },
    Run {
        words: TWO_FILES,
        script: SUMS,
        files: &["user,x\na,1\n", "user,x\nb,2\nb,+\n"],
        status: Status::Input,
        err: "symple: second.csv: record 3: field x is not a number\n",
        ..DONE
    },
    Run {
        script: BY_USER,
        files: &["name\na\n"],
        status: Status::Input,
        err: "symple: log.csv: header: no field user\n",
        ..DONE
    },
    Run {
        script: BY_USER,
        files: &["user,user\na,b\n"],
        status: Status::Input,
        err: "symple: log.csv: header: field user twice\n",
        ..DONE
    },
    Run {
        script: NO_SCRIPT,
        files: &["x\n"],
        status: Status::Script,
        err: "symple: script: unexpected token at byte 8\n",
        ..DONE
    },
    Run {
        script: NO_RANGE,
        files: &["x\n"],
        status: Status::Script,
        err: "symple: script: wrong range at byte 20\n",
        ..DONE
    },
];

#[test]
fn what_is_refused_is_told(rt: HostRuntime) -> Result<(), Fail> {
    check_threaded_rows(&rt, rt.alloc(), &REFUSALS)
}

/// A run over three files of users.
const USERS: Run = Run {
    words: THREE_FILES,
    files: &["user\na\n", "user\nb\n", "user\na\nc\n"],
    ..DONE
};

/// A read that fails in a run over these files, and the line of the refusal. A file takes two
/// reads, the second of which gives nothing.
const READS: [Run; 8] = [
    Run {
        read: 1,
        status: Status::ReadFault,
        err: "symple: count.symple: read fault\n",
        ..USERS
    },
    Run {
        read: 2,
        status: Status::ReadFault,
        err: "symple: count.symple: read fault\n",
        ..USERS
    },
    Run {
        read: 3,
        status: Status::ReadFault,
        err: "symple: log.csv: read fault\n",
        ..USERS
    },
    Run {
        read: 4,
        status: Status::ReadFault,
        err: "symple: log.csv: read fault\n",
        ..USERS
    },
    Run {
        read: 5,
        status: Status::ReadFault,
        err: "symple: second.csv: read fault\n",
        ..USERS
    },
    Run {
        read: 6,
        status: Status::ReadFault,
        err: "symple: second.csv: read fault\n",
        ..USERS
    },
    Run {
        read: 7,
        status: Status::ReadFault,
        err: "symple: third.csv: read fault\n",
        ..USERS
    },
    Run {
        read: 8,
        status: Status::ReadFault,
        err: "symple: third.csv: read fault\n",
        ..USERS
    },
];

#[test]
fn a_failed_read_names_its_file(rt: HostRuntime) -> Result<(), Fail> {
    check_threaded_rows(&rt, rt.alloc(), &READS)
}

/// A run over these files whose report is cut off.
const UNWRITTEN: Run = Run {
    status: Status::WriteFault,
    err: "symple: write fault\n",
    ..USERS
};

/// A write to `out` that fails in a run over these files, and what the writes before it took.
const WRITES: [Run; 8] = [
    Run {
        write: 1,
        out: "",
        ..UNWRITTEN
    },
    Run {
        write: 2,
        out: "user",
        ..UNWRITTEN
    },
    Run {
        write: 3,
        out: "user | n",
        ..UNWRITTEN
    },
    Run {
        write: 4,
        out: "user | n\na |",
        ..UNWRITTEN
    },
    Run {
        write: 5,
        out: "user | n\na | 2\nb",
        ..UNWRITTEN
    },
    Run {
        write: 6,
        out: "user | n\na | 2\nb | 1",
        ..UNWRITTEN
    },
    Run {
        write: 7,
        out: "user | n\na | 2\nb | 1\nc |",
        ..UNWRITTEN
    },
    Run {
        write: 8,
        out: "user | n\na | 2\nb | 1\nc | 1\n-",
        ..UNWRITTEN
    },
];

#[test]
fn a_failed_write_leaves_a_prefix(rt: HostRuntime) -> Result<(), Fail> {
    check_threaded_rows(&rt, rt.alloc(), &WRITES)
}

const WRITTEN: [Run; 1] = [Run {
    write: 9,
    out: "user | n\na | 2\nb | 1\nc | 1\n--\n",
    ..USERS
}];

#[test]
fn a_report_is_whole_where_a_later_write_would_fail(rt: HostRuntime) -> Result<(), Fail> {
    check_threaded_rows(&rt, rt.alloc(), &WRITTEN)
}

/// Words that are no command line.
const COMMANDS: [Run; 7] = [
    Run {
        words: &[],
        ..USAGE
    },
    Run {
        words: &["run"],
        ..USAGE
    },
    Run {
        words: &["run", "script"],
        ..USAGE
    },
    Run {
        words: &["run", "-s", "file"],
        ..USAGE
    },
    Run {
        words: &["run", "script", "file", "--form"],
        ..USAGE
    },
    Run {
        words: &["check", "script", "file"],
        ..USAGE
    },
    Run {
        words: &["-", "script", "file"],
        ..USAGE
    },
];

#[test]
fn other_words_are_refused_before_anything_is_read(rt: HostRuntime) -> Result<(), Fail> {
    check_threaded_rows(&rt, rt.alloc(), &COMMANDS)
}

/// Runs that are refused. The read that is to fail is the first one after the run.
const STOPPED: [Run; 7] = [
    Run {
        words: &["run", "count.symple"],
        files: &["user\na\n"],
        read: 1,
        status: Status::Usage,
        err: "symple: usage\n",
        stops: true,
        ..DONE
    },
    Run {
        words: &["run", "count.symple", "log.csv", "-x"],
        files: &["user\na\n"],
        read: 1,
        status: Status::Usage,
        err: "symple: usage\n",
        stops: true,
        ..DONE
    },
    Run {
        words: TWO_FILES,
        script: NO_SCRIPT,
        files: &["x\n", "x\n"],
        read: 3,
        status: Status::Script,
        err: "symple: script: unexpected token at byte 8\n",
        stops: true,
        ..DONE
    },
    Run {
        script: NO_RANGE,
        files: &["x\n"],
        read: 3,
        status: Status::Script,
        err: "symple: script: wrong range at byte 20\n",
        stops: true,
        ..DONE
    },
    Run {
        words: THREE_FILES,
        files: &["name\na\n", "user\na\n", "user\na\n"],
        read: 5,
        status: Status::Input,
        err: "symple: log.csv: header: no field user\n",
        stops: true,
        ..DONE
    },
    Run {
        words: THREE_FILES,
        files: &["user\na\n", "user\na,b\n", "user\na\n"],
        read: 7,
        status: Status::Input,
        err: "symple: second.csv: record 2: 2 fields\n",
        stops: true,
        ..DONE
    },
    Run {
        words: &["run", "count.symple", "absent.csv", "log.csv"],
        files: &["user\na\n"],
        read: 4,
        status: Status::ReadFault,
        err: "symple: absent.csv: read fault\n",
        stops: true,
        ..DONE
    },
];

#[test]
fn nothing_is_read_after_a_refusal(rt: HostRuntime) -> Result<(), Fail> {
    check_threaded_rows(&rt, rt.alloc(), &STOPPED)
}

/// A run over as many files as a run may have, without the script's field.
const MOST_FILES: [Run; 1] = [Run {
    more: 65_535,
    files: &["name\na\n"],
    status: Status::Input,
    err: "symple: log.csv: header: no field user\n",
    ..DONE
}];

#[test]
fn as_many_files_are_taken_as_a_run_may_have(rt: HostRuntime) -> Result<(), Fail> {
    check_threaded_rows(&rt, rt.alloc(), &MOST_FILES)
}

const ONE_FILE_MORE: [Run; 1] = [Run {
    more: 65_536,
    files: &["name\na\n"],
    read: 0,
    ..USAGE
}];

#[test]
fn one_file_more_is_refused(rt: HostRuntime) -> Result<(), Fail> {
    check_threaded_rows(&rt, rt.alloc(), &ONE_FILE_MORE)
}

/// A run that is refused, of which each write to `err` takes all it is given.
const REFUSED: Run = Run {
    words: TWO_FILES,
    script: TWO,
    files: &["ts,User ID\n1,1\n", "ts,User ID\n2,x\n"],
    tells_whole: true,
    status: Status::Input,
    ..DONE
};

/// A write to `err` that fails, and what the writes before it took.
const LINES: [Run; 8] = [
    Run {
        tell: 1,
        err: "",
        ..REFUSED
    },
    Run {
        tell: 2,
        err: "symple: ",
        ..REFUSED
    },
    Run {
        tell: 3,
        err: "symple: second.csv",
        ..REFUSED
    },
    Run {
        tell: 4,
        err: "symple: second.csv: record ",
        ..REFUSED
    },
    Run {
        tell: 5,
        err: "symple: second.csv: record 2",
        ..REFUSED
    },
    Run {
        tell: 6,
        err: "symple: second.csv: record 2: field ",
        ..REFUSED
    },
    Run {
        tell: 7,
        err: "symple: second.csv: record 2: field User ID",
        ..REFUSED
    },
    Run {
        tell: 8,
        err: "symple: second.csv: record 2: field User ID is not a number\n",
        ..REFUSED
    },
];

#[test]
fn a_failed_write_ends_the_line(rt: HostRuntime) -> Result<(), Fail> {
    check_threaded_rows(&rt, rt.alloc(), &LINES)
}

// How the end of a process that begins no run differs.
fn start_differs(alloc: Global, why: StartErr, wanted: &End) -> Result<Option<String>, NoMemory> {
    let mut err = MemSink::new(alloc, 100);
    let status = refuse_start(&mut err, why);
    end_differs(alloc, status, b"", err.bytes(), wanted)
}

#[test]
fn a_process_that_begins_no_run_has_a_line_and_a_status(rt: HostRuntime) -> Result<(), Fail> {
    let usage = End {
        status: Status::Usage,
        out: "",
        err: "symple: usage\n",
    };
    all_hold(start_differs(rt.alloc(), StartErr::NotUtf8, &usage))?;
    let full = End {
        status: Status::NoMemory,
        out: "",
        err: "symple: out of memory\n",
    };
    all_hold(start_differs(rt.alloc(), StartErr::NoMemory, &full))
}
