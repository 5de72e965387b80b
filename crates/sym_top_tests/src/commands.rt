//! Runs with options, checks and makings, with their ends.
use crate::calls::{DONE, Run, USAGE};
use crate::hostile::{ASKED, ASKED_MORE};
use crate::scripts::{BY_DAY, CLAMPED};
use std::test::Fail;
use sym_given::check_threaded_rows;
use sym_given::scripts::{COUNTER, DOUBLE, SESSIONS, TOGGLE, TWO_HUNDRED};
use sym_top::Status;

// What is bought after a cart, of each user.
const CARTS: &str = "enum action { view, cart, buy } enum stage { fresh, carted } \
    field user from \"User ID\": word; field what from \"Action\": action; \
    field cents from \"Amount\": num else 0; group user; state at: stage = fresh; \
    state buys: int [0..1000000] = 0; state paid: nums [0..1000000000000]; \
    update { if what is cart { at = carted; } else if what is buy and at is carted \
    { buys = buys + 1; push paid cents; at = fresh; } } \
    report { buys = buys; paid = sum(paid); biggest = max(paid); }";

// A file with a byte-order mark and CRLF line ends.
const SHOPPED: &str = "\u{feff}Time,\"User ID\",Action,Amount\r\n\
    2015-10-04T10:00,ann,cart,\r\n2015-10-04T10:01,\"Smith, Bob\",cart,\r\n\
    2015-10-04T10:02,ann,buy,1299\r\n2015-10-04T10:03,\"Smith, Bob\",view,\r\n\
    2015-10-04T10:04,ann,buy,500\r\n2015-10-04T10:05,\"Smith, Bob\",buy,250\r\n";

const SIX_LABELS: &str = "enum case { k1, k2, k3, k4, k5, k6 } field x: num; state c: case = k1; \
    update { if c is k1 or c is k2 or c is k3 or c is k4 { c = k5; } } report { c = c; }";

macro_rules! branches {
    ($($more:literal)*) => {
        concat!(
            "enum mode { idle, busy } field x: num; state phase: mode = idle; update { ",
            $($more,)*
            "} report { phase = phase; }"
        )
    };
}

// Ten statements that each branch, and eleven.
const TEN: &str = branches!(
    "if phase is idle { phase = busy; } " "if phase is idle { phase = busy; } "
    "if phase is idle { phase = busy; } " "if phase is idle { phase = busy; } "
    "if phase is idle { phase = busy; } " "if phase is idle { phase = busy; } "
    "if phase is idle { phase = busy; } " "if phase is idle { phase = busy; } "
    "if phase is idle { phase = busy; } " "if phase is idle { phase = busy; } "
);

const ELEVEN: &str = branches!(
    "if phase is idle { phase = busy; } " "if phase is idle { phase = busy; } "
    "if phase is idle { phase = busy; } " "if phase is idle { phase = busy; } "
    "if phase is idle { phase = busy; } " "if phase is idle { phase = busy; } "
    "if phase is idle { phase = busy; } " "if phase is idle { phase = busy; } "
    "if phase is idle { phase = busy; } " "if phase is idle { phase = busy; } "
    "if phase is idle { phase = busy; } "
);

/// No option but the form and the size limit changes what a run comes to.
const OPTIONS: [Run; 15] = [
    Run {
        words: &[
            "run",
            "--chunk",
            "2",
            "--workers",
            "3",
            "count.symple",
            "log.csv",
        ],
        script: COUNTER,
        files: &["x\n5\n5\n5\n5\n5\n"],
        status: Status::Faulted,
        out: "n\nfault: n overflows at record 4\n--\n",
        ..DONE
    },
    Run {
        words: &[
            "run",
            "count.symple",
            "log.csv",
            "--chunk=1",
            "--limit=1",
            "--workers=64",
        ],
        script: COUNTER,
        files: &["x\n5\n5\n5\n5\n5\n"],
        status: Status::Faulted,
        out: "n\nfault: n overflows at record 4\n--\n",
        ..DONE
    },
    Run {
        words: &["run", "--chunk", "1", "count.symple", "log.csv"],
        script: SESSIONS,
        files: &["ts,user\n10,a\n20,a\n60,a\n5,b\n61,a\n"],
        out: "user | sessions | open | longest\na | 1 | 2 | 2\nb | 0 | 1 | none\n--\n",
        ..DONE
    },
    Run {
        words: &[
            "run",
            "--limit",
            "1",
            "--chunk",
            "1",
            "count.symple",
            "log.csv",
        ],
        script: SESSIONS,
        files: &["ts,user\n10,a\n20,a\n60,a\n5,b\n61,a\n"],
        out: "user | sessions | open | longest\na | 1 | 2 | 2\nb | 0 | 1 | none\n--\n",
        ..DONE
    },
    Run {
        words: &[
            "run",
            "--chunk",
            "1",
            "--workers",
            "4",
            "count.symple",
            "log.csv",
        ],
        files: &["user\nc\na\nb\na\n"],
        out: "user | n\nc | 1\na | 2\nb | 1\n--\n",
        ..DONE
    },
    Run {
        words: &["run", "--limit", "64", "count.symple", "log.csv"],
        script: DOUBLE,
        files: &[TWO_HUNDRED],
        out: "n\n0\n--\n",
        ..DONE
    },
    Run {
        words: &["run", "--limit", "1", "count.symple", "log.csv"],
        script: TOGGLE,
        files: &["x\n1\n1\n1\n"],
        out: "phase\nbusy\n--\n",
        ..DONE
    },
    Run {
        words: &["run", "--limit", "2", "count.symple", "log.csv"],
        script: TOGGLE,
        files: &["x\n1\n1\n1\n"],
        out: "phase\nbusy\n--\n",
        ..DONE
    },
    Run {
        words: &[
            "run",
            "--chunk",
            "2",
            "--workers",
            "4",
            "count.symple",
            "log.csv",
        ],
        script: SESSIONS,
        files: &["ts,user\n1,a\n2,a\n3,a\n4,a\n1,a,x\n6,a\nt,a\n8,a\n"],
        status: Status::Input,
        err: "symple: log.csv: record 5: 3 fields\n",
        ..DONE
    },
    Run {
        words: &["run", "--max-bytes", "7", "count.symple", "log.csv"],
        files: &["user\na\n"],
        out: "user | n\na | 1\n--\n",
        ..DONE
    },
    Run {
        words: &["run", "--max-bytes", "6", "count.symple", "log.csv"],
        files: &["user\na\n"],
        status: Status::TooLarge,
        err: "symple: log.csv: too large\n",
        ..DONE
    },
    Run {
        words: &["run", "--form", "csv", "count.symple", "log.csv"],
        script: CARTS,
        files: &[SHOPPED],
        out: "user,buys,paid,biggest,fault\nann,1,1299,1299,\n\"Smith, Bob\",1,250,250,\n",
        ..DONE
    },
    Run {
        words: &["run", "--form", "pairs", "count.symple", "log.csv"],
        script: CARTS,
        files: &[SHOPPED],
        out: "user=\"ann\" buys=1 paid=1299 biggest=1299\n\
            user=\"Smith, Bob\" buys=1 paid=250 biggest=250\n",
        ..DONE
    },
    Run {
        words: &["run", "--form", "pairs", "count.symple", "log.csv"],
        script: BY_DAY,
        files: &["user,day\na,1\n"],
        out: "user=\"a\" day=\"1\" n=1\n",
        ..DONE
    },
    Run {
        words: &["run", "--form", "html", "count.symple", "log.csv"],
        ..USAGE
    },
];

#[test]
fn options_change_the_form_and_the_size_alone(rt: HostRuntime) -> Result<(), Fail> {
    check_threaded_rows(&rt, rt.alloc(), &OPTIONS)
}

/// A check of the script.
const CHECK: Run = Run {
    words: &["check", "count.symple"],
    ..DONE
};

/// Scripts, and what `check` says of them.
const CHECKS: [Run; 14] = [
    Run {
        script: COUNTER,
        out: "cells 1 tests 0 paths 3\n",
        ..CHECK
    },
    Run {
        script: CLAMPED,
        out: "cells 1 tests 0 paths 3\n",
        ..CHECK
    },
    Run {
        script: SESSIONS,
        out: "cells 3 tests 1 paths 8\n",
        ..CHECK
    },
    Run {
        script: SIX_LABELS,
        out: "cells 1 tests 0 paths 5\n",
        ..CHECK
    },
    Run {
        script: CARTS,
        out: "cells 3 tests 0 paths 7\n",
        ..CHECK
    },
    Run {
        script: TEN,
        out: "cells 1 tests 0 paths 1024\n",
        ..CHECK
    },
    Run {
        script: ELEVEN,
        status: Status::Script,
        err: "symple: script: 2048 paths\n",
        ..CHECK
    },
    Run {
        script: ASKED,
        out: "cells 2 tests 1 paths 1024\n",
        ..CHECK
    },
    Run {
        script: ASKED_MORE,
        status: Status::Script,
        err: "symple: script: 2048 paths\n",
        ..CHECK
    },
    Run {
        words: &["check", "--print", "count.symple"],
        script: COUNTER,
        out: "field x: num;\nstate n: int [0..3] = 0;\nupdate {\n  n = n + 1;\n}\n\
            report {\n  n = n;\n}\n",
        ..CHECK
    },
    Run {
        words: &["check", "--print", "count.symple"],
        script: "field x num;",
        status: Status::Script,
        err: "symple: script: unexpected token at byte 8\n",
        ..CHECK
    },
    Run {
        script: COUNTER,
        read: 2,
        status: Status::ReadFault,
        err: "symple: count.symple: read fault\n",
        ..CHECK
    },
    Run {
        script: COUNTER,
        write: 2,
        status: Status::WriteFault,
        out: "cell",
        err: "symple: write fault\n",
        ..CHECK
    },
    Run {
        words: &["check", "log.csv"],
        files: &["user\na\n"],
        status: Status::Script,
        err: "symple: script: unexpected token at byte 0\n",
        ..CHECK
    },
];

#[test]
fn a_check_says_what_a_script_has(rt: HostRuntime) -> Result<(), Fail> {
    check_threaded_rows(&rt, rt.alloc(), &CHECKS)
}

/// A making, over a store of which each read fails.
const MAKE: Run = Run {
    words: &["make", "5", "1"],
    read: 1,
    ..DONE
};

/// Logs that are made, and their summaries, as another program computes them.
const MAKES: [Run; 8] = [
    Run {
        out: "records 5\ngroups 3\nfaults 0\nsessions 0\n",
        ..MAKE
    },
    Run {
        words: &["make", "1", "0"],
        out: "records 1\ngroups 1\nfaults 0\nsessions 0\n",
        ..MAKE
    },
    Run {
        words: &["make", "1", "999999999"],
        out: "records 1\ngroups 1\nfaults 0\nsessions 0\n",
        ..MAKE
    },
    Run {
        words: &["make", "1000", "1"],
        out: "records 1000\ngroups 10\nfaults 0\nsessions 422\n",
        ..MAKE
    },
    Run {
        words: &["make", "--chunk", "1", "--limit", "1", "1000", "1"],
        out: "records 1000\ngroups 10\nfaults 0\nsessions 422\n",
        ..MAKE
    },
    Run {
        words: &["make", "--chunk", "7", "1000", "1"],
        out: "records 1000\ngroups 10\nfaults 0\nsessions 422\n",
        ..MAKE
    },
    Run {
        write: 1,
        status: Status::WriteFault,
        err: "symple: write fault\n",
        ..MAKE
    },
    Run {
        write: 3,
        status: Status::WriteFault,
        out: "records ",
        err: "symple: write fault\n",
        ..MAKE
    },
];

#[test]
fn a_making_sums_up_its_log(rt: HostRuntime) -> Result<(), Fail> {
    check_threaded_rows(&rt, rt.alloc(), &MAKES)
}
