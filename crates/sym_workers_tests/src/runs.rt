//! Whole runs through gates of the tests' own.
use crate::holds::{Holder, Until};
use crate::showing::ShowsB;
use std::alloc::Global;
use std::sync::atomic::{AtomicU64, Ordering};
use std::sync::{Arc, Wait};
use std::test::Fail;
use std::thread::Threads;
use sym_base::{Column, MemSink, MemStore, NoMemory};
use sym_engine::{Gate, OpenGate, Work};
use sym_given::saved::SET;
use sym_given::scripts::BY_USER;
use sym_given::{ThreadedRow, all_hold, check_threaded_rows, difference};
use sym_given_calls::{End, end_differs, no_observers, words_of};
use sym_report::{ReportForm, Row, RowBody, TableForm};
use sym_run::Run;
use sym_top::{Status, symple};
use sym_watch::{Observer, Partial};

/// For how many turns a worker is held at most.
const TURNS: u64 = 500_000_000;

/// For how many turns the only worker of a run is held.
const FEW_TURNS: u64 = 1_000;

// Comes to 1 for each user, whatever was held before, so that the state gets known.
const ONES: &str = "field user: word; group user; state n: int [0..1] = 0; \
    update { n = 1; } report { n = n; }";

/// Has all chunks worked on one thread, and else is as the program's gate.
#[derive(Drop)]
struct Alone {
    open: OpenGate<Holder>,
}

impl Gate for Alone {
    ghost shown = { λ _ row. row };

    fn enter(&self, _worker: u32, _chunk: u32) {}

    fn work_round<T: Threads + Wait + Sync>(
        &self,
        rt: &T,
        alloc: Global,
        work: &Work,
        _workers: u32,
    ) -> Result<Run, NoMemory> {
        self.open.work_round(rt, alloc, work, 1)
    }
}

/// The arguments of a call over the script `s` and the log `f`, and what it comes to.
#[derive(Clone, Copy)]
struct Call {
    script: &'static str,
    words: &'static [&'static str],
    log: &'static str,
    status: Status,
    out: &'static str,
    err: &'static str,
}

fn store_of(alloc: Global, call: &Call) -> Result<MemStore, NoMemory> {
    let mut store = MemStore::new(alloc);
    store.add(alloc, "s", call.script.as_bytes())?;
    store.add(alloc, "f", call.log.as_bytes())?;
    Ok(store)
}

// The top call, with the form `table`.
fn called<T: Threads + Wait + Sync, G: Gate + Sync>(
    rt: &T,
    alloc: Global,
    words: &Vec<String>,
    store: &mut MemStore,
    out: &mut MemSink,
    err: &mut MemSink,
    observers: &mut Vec<Box<dyn Observer + Send>>,
    gate: &G,
) -> Result<Status, NoMemory> {
    let table: Box<dyn ReportForm> = Box::new(alloc, TableForm::new(alloc))?;
    let forms = Vec::from_array(alloc, [table])?;
    Ok(symple(rt, alloc, words, store, out, err, forms, observers, gate))
}

// What a call with these words, over this store and through a gate, comes to in place of what is
// said of it.
fn differs_by<T: Threads + Wait + Sync, G: Gate + Sync>(
    rt: &T,
    alloc: Global,
    words: &Vec<String>,
    store: &mut MemStore,
    call: &Call,
    observers: &mut Vec<Box<dyn Observer + Send>>,
    gate: &G,
) -> Result<Option<String>, NoMemory> {
    let mut out = MemSink::new(alloc, 100);
    let mut err = MemSink::new(alloc, 100);
    let status = called(rt, alloc, words, store, &mut out, &mut err, observers, gate)?;
    let end = End {
        status: call.status,
        out: call.out,
        err: call.err,
    };
    end_differs(alloc, status, out.bytes(), err.bytes(), &end)
}

// The same of the call's own words and store, with no observers.
fn call_differs<T: Threads + Wait + Sync, G: Gate + Sync>(
    rt: &T,
    alloc: Global,
    call: &Call,
    gate: &G,
) -> Result<Option<String>, NoMemory> {
    let words = words_of(alloc, call.words)?;
    let mut observers = no_observers(alloc);
    let mut store = store_of(alloc, call)?;
    differs_by(rt, alloc, &words, &mut store, call, &mut observers, gate)
}

/// Two records, each of which is a chunk, and two workers, who share the records out by their
/// groups.
const TWO: Call = Call {
    script: BY_USER,
    words: &["run", "--chunk", "1", "--workers", "2", "s", "f"],
    log: "user\na\nb\n",
    status: Status::Done,
    out: "user | n\na | 1\nb | 1\n--\n",
    err: "",
};

/// The same of 64 records of one group.
const MANY: Call = Call {
    log: "user\na\na\na\na\na\na\na\na\na\na\na\na\na\na\na\na\n\
        a\na\na\na\na\na\na\na\na\na\na\na\na\na\na\na\n\
        a\na\na\na\na\na\na\na\na\na\na\na\na\na\na\na\n\
        a\na\na\na\na\na\na\na\na\na\na\na\na\na\na\na\n",
    out: "user | n\na | 64\n--\n",
    ..TWO
};

/// The same, but that the workers make runs.
const TWO_KNOWN: Call = Call {
    script: ONES,
    words: &["run", "--chunk", "1", "--workers", "2", "s", "f"],
    log: "user\na\nb\n",
    status: Status::Done,
    out: "user | n\na | 1\nb | 1\n--\n",
    err: "",
};

#[test]
fn two_workers_of_a_run_are_at_work_at_once(rt: HostRuntime) -> Result<(), Fail> {
    'calls: for call in [TWO, TWO_KNOWN] {
        let hold = Holder::new(Until::OtherWorker, TURNS);
        let gate = OpenGate { hold };
        all_hold(call_differs(&rt, rt.alloc(), &call, &gate))?;
        assert!(rt; gate.hold.claimed_once(2), "{}", call.script);
        assert!(rt; !gate.hold.gave_up(), "{}", call.script);
    }
    Ok(())
}

// What a call over 64 chunks comes to in place of what is said of it, where each chunk is claimed
// once, and the other worker claims all from this one on while the worker of the first stretch is
// held.
fn many_differ<T: Threads + Wait + Sync>(
    rt: &T,
    alloc: Global,
    call: &Call,
    from: u32,
) -> Result<Option<String>, NoMemory> {
    let hold = Holder::new(Until::Others(from, 64), TURNS);
    let gate = OpenGate { hold };
    let told = call_differs(rt, alloc, call, &gate)?;
    if told.is_some() {
        return Ok(told);
    }
    let found = (gate.hold.claimed_once(64), gate.hold.gave_up());
    difference(alloc, &found, &(true, false))
}

#[test]
fn the_other_worker_of_a_run_takes_all_later_stretches(rt: HostRuntime) -> Result<(), Fail> {
    let alloc = rt.alloc();
    all_hold(many_differ(&rt, alloc, &MANY, 8))?;
    let known = Call {
        script: ONES,
        out: "user | n\na | 1\n--\n",
        ..MANY
    };
    all_hold(many_differ(&rt, alloc, &known, 16))
}

#[test]
fn a_hold_on_the_only_worker_of_a_run_gives_up(rt: HostRuntime) -> Result<(), Fail> {
    let hold = Holder::new(Until::OtherWorker, FEW_TURNS);
    let gate = Alone {
        open: OpenGate { hold },
    };
    all_hold(call_differs(&rt, rt.alloc(), &TWO, &gate))?;
    assert!(rt; gate.open.hold.claimed_once(2));
    assert!(rt; gate.open.hold.gave_up());
    Ok(())
}

/// A run that is watched, over a log of which a row is no record.
const WATCHED: Call = Call {
    script: BY_USER,
    words: &["run", "--chunk", "1", "--workers", "2", "--watch", "s", "f"],
    log: "user\nc\na\nb\na,a\n",
    status: Status::Done,
    out: "user | n\nb | 4\n--\n",
    err: "",
};

/// Calls whose gate shows each row as the one field `b`.
const SHOWN: [Call; 10] = [
    Call {
        script: BY_USER,
        words: &["run", "s", "f"],
        log: "user\nc\na\nb\na\n",
        status: Status::Done,
        out: "user | n\nb | 4\n--\n",
        err: "",
    },
    Call {
        script: BY_USER,
        words: &["run", "--chunk", "1", "--workers", "4", "s", "f"],
        log: "user\nc\na\nb\na\n",
        status: Status::Done,
        out: "user | n\nb | 4\n--\n",
        err: "",
    },
    // A row is no record, but it is shown as one.
    Call {
        script: BY_USER,
        words: &["run", "--chunk", "1", "--limit", "1", "s", "f", "f"],
        log: "user\na\na,a\n",
        status: Status::Done,
        out: "user | n\nb | 4\n--\n",
        err: "",
    },
    // The header isn't shown, and a row of one field is no record by it.
    Call {
        script: BY_USER,
        words: &["run", "--chunk", "1", "s", "f"],
        log: "user,x\na,1\nb,2\n",
        status: Status::Input,
        out: "",
        err: "symple: f: record 1: 1 fields\n",
    },
    // The log that is made has two columns.
    Call {
        script: BY_USER,
        words: &["make", "5", "1"],
        log: "",
        status: Status::Input,
        out: "",
        err: "symple: made: record 1: 1 fields\n",
    },
    // Run files are of the rows that are shown, where rows of the file are records and where not.
    Call {
        script: SET,
        words: &["map", "--chunk", "1", "--workers", "2", "s", "f"],
        log: "user\nc\na\nb\na,a\n",
        status: Status::Done,
        out: "symple run 1\nscript 95\nfield user: word;\ngroup user;\nstate n: int [0..9] = 0;\n\
            update {\n  n = 5;\n}\nreport {\n  n = n;\n}\nfirst 1\nnext 5\ngroups 1\nkey w1:b\n\
            chain 1\nsegment 1\nwhen i0..9\nnext n5\nend\n",
        err: "",
    },
    Call {
        script: SET,
        words: &["map", "--first", "7", "s", "f"],
        log: "user,x\na,1\nb,2\n",
        status: Status::Input,
        out: "",
        err: "symple: f: record 7: 1 fields\n",
    },
    WATCHED,
    Call {
        script: BY_USER,
        words: &["run", "--chunk", "1", "--watch", "s", "f"],
        log: "user,x\na,1\nb,2\n",
        status: Status::Input,
        out: "",
        err: "symple: f: record 1: 1 fields\n",
    },
    Call {
        script: BY_USER,
        words: &["check", "s"],
        log: "",
        status: Status::Done,
        out: "cells 1 tests 0 paths 3\n",
        err: "",
    },
];

impl ThreadedRow for Call {
    fn differs<T: Threads + Wait + Sync>(
        &self,
        rt: &T,
        alloc: Global,
    ) -> Result<Option<String>, NoMemory> {
        call_differs(rt, alloc, self, &ShowsB)
    }
}

/// How many partials an observer was told of, and how many of them have the one row of the group `b`,
/// with as many records as the border says.
#[derive(Drop)]
struct Noted {
    told: AtomicU64,
    right: AtomicU64,
}

/// Notes the partials that it is told of.
#[derive(Drop)]
struct Counter {
    noted: Arc<Noted>,
    last: Option<u64>,
}

// Whether it is the row of the group `b` with so many records.
fn is_of_b(row: &Row, records: u64) -> bool {
    let is_b = match row.keys.as_slice() {
        [Column::Word(text)] => text.as_bytes() == b"b".as_slice(),
        _ => false,
    };
    match &row.body {
        RowBody::Columns(columns) => {
            is_b && columns.as_slice() == [Column::Num(i128::from(records))].as_slice()
        }
        RowBody::Over { .. } | RowBody::Arith { .. } => false,
    }
}

impl Observer for Counter {
    ghost use Rattle.std.specs.Prelude.{None};

    ghost log = { λ _. None };

    ghost last = { λ o. o.last };

    fn tell(&mut self, _alloc: Global, partial: &Partial) -> Result<(), NoMemory> {
        let _told = self.noted.told.fetch_add(1, Ordering::SeqCst);
        match partial.rows.as_slice() {
            [row] if is_of_b(row, partial.upto) => {
                let _right = self.noted.right.fetch_add(1, Ordering::SeqCst);
            }
            _ => {}
        }
        self.last = Some(partial.upto);
        Ok(())
    }

    fn last(&self) -> Option<u64> {
        self.last
    }
}

// What a call comes to in place of what is said of it, or what its observer was told of in place of
// one partial.
fn watched_differs<T: Threads + Wait + Sync>(
    rt: &T,
    alloc: Global,
    call: &Call,
) -> Result<Option<String>, NoMemory> {
    let noted = Arc::new(
        alloc,
        Noted {
            told: AtomicU64::new(0),
            right: AtomicU64::new(0),
        },
    )?;
    let observer: Box<dyn Observer + Send> = Box::new(
        alloc,
        Counter {
            noted: Arc::clone(&noted)?,
            last: None,
        },
    )?;
    let mut observers = Vec::from_array(alloc, [observer])?;
    let words = words_of(alloc, call.words)?;
    let mut store = store_of(alloc, call)?;
    let told = differs_by(rt, alloc, &words, &mut store, call, &mut observers, &ShowsB)?;
    if told.is_some() {
        return Ok(told);
    }
    let found = (
        noted.told.load(Ordering::SeqCst),
        noted.right.load(Ordering::SeqCst),
    );
    difference(alloc, &found, &(1, 1))
}

#[test]
fn partials_are_of_the_rows_that_the_gate_shows(rt: HostRuntime) -> Result<(), Fail> {
    all_hold(watched_differs(&rt, rt.alloc(), &WATCHED))
}

#[test]
fn reports_are_of_the_rows_that_the_gate_shows(rt: HostRuntime) -> Result<(), Fail> {
    check_threaded_rows(&rt, rt.alloc(), &SHOWN)
}
