//! Runs over a store that gives its bytes one at a time and fails at each read in turn, and over
//! scripts and logs near the limits.
use crate::calls::{DONE, Run, UNREAD, differs_over, store_of, words_of};
use std::alloc::Global;
use std::sync::Wait;
use std::test::Fail;
use std::thread::Threads;
use sym_base::{MemSink, MemStore, NoMemory};
use sym_given::scripts::{COUNTER, SESSIONS};
use sym_given::{ThreadedRow, all_hold, check_threaded_rows, difference};
use sym_given_calls::call;
use sym_top::Status;

// So many tests of a cell that each of them may be true or false of it: a record has 1,024 paths.
macro_rules! asked {
    ($more:literal) => {
        concat!(
            "field x: num; state h: hold(num = 0); state w: words; \
            test t(p: num, k: num) = p % k == 0; \
            update { if t(h, 2) { push w \"a\"; } if t(h, 3) { push w \"b\"; } \
            if t(h, 4) { push w \"c\"; } if t(h, 5) { push w \"d\"; } \
            if t(h, 6) { push w \"e\"; } if t(h, 7) { push w \"f\"; } \
            if t(h, 8) { push w \"g\"; } if t(h, 9) { push w \"h\"; } \
            if t(h, 10) { push w \"i\"; } if t(h, 11) { push w \"j\"; } ",
            $more,
            "} report { c = count(w); }"
        )
    };
}

pub(crate) const ASKED: &str = asked!("");

pub(crate) const ASKED_MORE: &str = asked!("if t(h, 12) { push w \"k\"; } ");

/// A run over the log of these bytes, of which a read gives one.
#[derive(Clone, Copy)]
struct Near {
    run: Run,
    log: &'static [u8],
}

fn byte_by_byte(alloc: Global, near: &Near) -> Result<MemStore, NoMemory> {
    let mut store = store_of(alloc, &near.run)?;
    store.add(alloc, "log.csv", near.log)?;
    store.set_piece(1);
    Ok(store)
}

impl ThreadedRow for Near {
    fn differs<T: Threads + Wait + Sync>(
        &self,
        rt: &T,
        alloc: Global,
    ) -> Result<Option<String>, NoMemory> {
        differs_over(rt, alloc, &mut byte_by_byte(alloc, self)?, &self.run)
    }
}

/// A group ends at its fourth record.
const FAULTED: Run = Run {
    script: COUNTER,
    status: Status::Faulted,
    out: "n\nfault: n overflows at record 4\n--\n",
    ..DONE
};

const FIVES: &[u8] = b"x\n5\n5\n5\n5\n5\n";

const NEAR_LIMITS: [Near; 9] = [
    Near {
        run: Run {
            script: SESSIONS,
            out: "user | sessions | open | longest\na | 1 | 2 | 2\nb | 0 | 1 | none\n--\n",
            ..DONE
        },
        log: b"ts,user\n10,a\n20,a\n60,a\n5,b\n61,a\n",
    },
    Near {
        run: Run {
            read: 1_000_000,
            ..FAULTED
        },
        log: FIVES,
    },
    Near {
        run: Run {
            out: "user | n\na | 1\n--\n",
            ..DONE
        },
        log: b"user\na",
    },
    Near {
        run: Run {
            script: SESSIONS,
            status: Status::Input,
            err: "symple: log.csv: record 1: 1 fields\n",
            ..DONE
        },
        log: b"ts,user\n10",
    },
    Near {
        run: Run {
            status: Status::Input,
            err: "symple: log.csv: record 1: field user is not UTF-8\n",
            ..DONE
        },
        log: b"user\n\xff",
    },
    // The two bytes of a letter, read apart.
    Near {
        run: Run {
            out: "user | n\n\u{e4} | 2\n--\n",
            ..DONE
        },
        log: b"user\n\xc3\xa4\n\xc3\xa4\n",
    },
    Near {
        run: Run {
            script: ASKED,
            out: "c\n20\n--\n",
            ..DONE
        },
        log: b"x\n1\n1\n",
    },
    Near {
        run: Run {
            script: ASKED_MORE,
            status: Status::Script,
            err: "symple: script: 2048 paths\n",
            ..DONE
        },
        log: b"x\n1\n1\n",
    },
    Near {
        run: Run {
            script: "",
            status: Status::Script,
            err: "symple: script: unexpected token at byte 0\n",
            ..DONE
        },
        log: b"x\n",
    },
];

#[test]
fn runs_near_the_limits_end_as_said(rt: HostRuntime) -> Result<(), Fail> {
    check_threaded_rows(&rt, rt.alloc(), &NEAR_LIMITS)
}

/// The reads of the script's 78 bytes, and one that gives nothing.
const SCRIPT_READS: u64 = 79;

/// The same with those of the log's 12 bytes.
const ALL_READS: u64 = 92;

// The run whose read of this number, counted from 1, fails; the whole one after the last read.
fn with_read(read: u64) -> Near {
    let unread = Run {
        script: COUNTER,
        read,
        ..UNREAD
    };
    let run = if read <= SCRIPT_READS {
        unread
    } else if read <= ALL_READS {
        Run {
            err: "symple: log.csv: read fault\n",
            ..unread
        }
    } else {
        Run { read, ..FAULTED }
    };
    Near { run, log: FIVES }
}

// What the first run that comes to something else comes to, by the read that fails.
fn read_differs<T: Threads + Wait + Sync>(
    rt: &T,
    alloc: Global,
) -> Result<Option<String>, NoMemory> {
    'reads: for read in 1..=93u64 {
        if let Some(told) = with_read(read).differs(rt, alloc)? {
            return Ok(Some(format!(in alloc; "read {read} fails: {told}")?));
        }
    }
    Ok(None)
}

#[test]
fn each_read_of_a_byte_fails_in_turn(rt: HostRuntime) -> Result<(), Fail> {
    all_hold(read_differs(&rt, rt.alloc()))
}

/// A report without rows, of which a write to `out` takes four bytes.
const HEADING: Run = Run {
    files: &["user\n"],
    status: Status::WriteFault,
    err: "symple: write fault\n",
    ..DONE
};

/// Each write of it fails in turn, until one isn't made; a read; and the only write of a line.
const FAILING: [Run; 6] = [
    Run {
        write: 1,
        ..HEADING
    },
    Run {
        write: 2,
        out: "user",
        ..HEADING
    },
    Run {
        write: 3,
        out: "user | n",
        ..HEADING
    },
    Run {
        files: &["user\n"],
        write: 4,
        out: "user | n\n--\n",
        ..DONE
    },
    Run {
        files: &["user\n"],
        read: 2,
        ..UNREAD
    },
    Run {
        words: &["run", "a"],
        tell: 1,
        status: Status::Usage,
        ..DONE
    },
];

#[test]
fn each_write_of_a_heading_fails_in_turn(rt: HostRuntime) -> Result<(), Fail> {
    check_threaded_rows(&rt, rt.alloc(), &FAILING)
}

/// A script that is too large, whatever it has.
const LARGE: Run = Run {
    status: Status::TooLarge,
    err: "symple: count.symple: too large\n",
    ..DONE
};

/// A script that is small enough, and has nothing but blanks.
const BLANK: Run = Run {
    status: Status::Script,
    err: "symple: script: unexpected token at byte 65536\n",
    ..DONE
};

// So many blanks.
fn blanks(alloc: Global, many: usize) -> Result<Vec<u8>, NoMemory> {
    let mut bytes = Vec::new(alloc);
    bytes.resize(many, b' ')?;
    Ok(bytes)
}

// A store with a script of so many blanks.
fn blank_script(alloc: Global, run: &Run, many: usize) -> Result<MemStore, NoMemory> {
    let mut store = store_of(alloc, run)?;
    store.add(alloc, "count.symple", blanks(alloc, many)?.as_slice())?;
    Ok(store)
}

#[test]
fn a_script_of_65536_bytes_is_read(rt: HostRuntime) -> Result<(), Fail> {
    let mut store = blank_script(rt.alloc(), &BLANK, 65_536)?;
    all_hold(differs_over(&rt, rt.alloc(), &mut store, &BLANK))
}

#[test]
fn a_script_of_65537_bytes_is_too_large(rt: HostRuntime) -> Result<(), Fail> {
    let mut store = blank_script(rt.alloc(), &LARGE, 65_537)?;
    all_hold(differs_over(&rt, rt.alloc(), &mut store, &LARGE))
}

// A log of so many users, of one record each.
fn users(alloc: Global, many: u32) -> Result<Vec<u8>, NoMemory> {
    let mut log = Vec::new(alloc);
    log.extend_from_slice(b"user\n")?;
    'users: for number in 0..many {
        log.extend_from_slice(format!(in alloc; "u{number}\n")?.as_bytes())?;
    }
    Ok(log)
}

// The heading has 9 bytes, the end 3, and the row of a user whose number has d digits 6 + d.
fn report_differs(alloc: Global, report: &[u8]) -> Result<Option<String>, NoMemory> {
    if !report.starts_with(b"user | n\nu0 | 1\nu1 | 1\n") {
        return Ok(Some(String::from_str(alloc, "found another first row, wanted user 0")?));
    }
    if !report.ends_with(b"\nu19998 | 1\nu19999 | 1\n--\n") {
        return Ok(Some(String::from_str(alloc, "found another last row, wanted user 19999")?));
    }
    difference(alloc, &report.len(), &208_902)
}

fn many_users(alloc: Global) -> Result<MemStore, NoMemory> {
    let mut store = store_of(alloc, &DONE)?;
    store.add(alloc, "log.csv", users(alloc, 20_000)?.as_slice())?;
    Ok(store)
}

fn report_of<T: Threads + Wait + Sync>(
    rt: &T,
    alloc: Global,
    store: &mut MemStore,
    out: &mut MemSink,
) -> Result<Status, NoMemory> {
    let mut err = MemSink::new(alloc, 100);
    call(rt, alloc, &words_of(alloc, &DONE)?, store, out, &mut err)
}

fn reports_differ<T: Threads + Wait + Sync>(
    rt: &T,
    alloc: Global,
    store: &mut MemStore,
) -> Result<Option<String>, NoMemory> {
    let mut out = MemSink::new(alloc, 4_096);
    let status = report_of(rt, alloc, store, &mut out)?;
    let told = difference(alloc, &status, &Status::Done)?;
    if told.is_some() {
        return Ok(told);
    }
    report_differs(alloc, out.bytes())
}

#[test]
fn a_report_may_have_many_rows(rt: HostRuntime) -> Result<(), Fail> {
    all_hold(reports_differ(&rt, rt.alloc(), &mut many_users(rt.alloc())?))
}
