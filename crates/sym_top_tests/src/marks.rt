//! Runs through forms of the tests' own.
ghost use Rattle.std.specs.Prelude.{◌≡◌, [], ◌∷◌, codes};

use std::alloc::Global;
use std::sync::Wait;
use std::test::Fail;
use std::thread::Threads;
use sym_base::{MemSink, MemStore, NoMemory};
use sym_engine::{Free, OpenGate};
use sym_given::scripts::BY_USER;
use sym_given::{ThreadedRow, check_threaded_rows};
use sym_given_calls::{End, end_differs, no_observers, words_of};
use sym_report::{Heads, ReportForm, Row};
use sym_top::{Status, symple};

/// A form that is called `marks`: `<` for the names, a mark for each row, `>` for the end. It finds
/// memory for so many rows.
#[derive(Drop)]
struct Marks {
    bytes: Vec<u8>,
    mark: u8,
    room: usize,
}

impl Marks {
    fn new(alloc: Global, mark: u8, room: usize) -> Marks
        ensures { result.bytes.items ≡ [] }
    {
        Marks {
            bytes: Vec::new(alloc),
            mark,
            room,
        }
    }
}

impl ReportForm for Marks {
    ghost called = { λ f. codes "marks" };

    ghost texts = { λ f. record {
      begin = λ heads. codes "<";
      row = λ heads row. f.mark ∷ [];
      end = λ heads. codes ">";
    } };

    ghost gathered = { λ f. f.bytes.items };

    fn name(&self) -> &str {
        "marks"
    }

    fn begin(&mut self, _alloc: Global, _heads: &Heads) -> Result<(), NoMemory> {
        self.bytes.push(b'<')?;
        Ok(())
    }

    fn row(&mut self, _alloc: Global, _heads: &Heads, _row: &Row) -> Result<(), NoMemory> {
        if self.room == 0 {
            return Err(NoMemory);
        }
        self.bytes.push(self.mark)?;
        self.room -= 1;
        Ok(())
    }

    fn end(&mut self, _alloc: Global, _heads: &Heads) -> Result<(), NoMemory> {
        self.bytes.push(b'>')?;
        Ok(())
    }

    fn bytes(&self) -> &[u8] {
        &self.bytes
    }
}

fn store_of(alloc: Global) -> Result<MemStore, NoMemory> {
    let mut store = MemStore::new(alloc);
    store.add(alloc, "s", BY_USER.as_bytes())?;
    store.add(alloc, "f", b"user\nc\na\nb\na\n")?;
    Ok(store)
}

// The top call with two forms of one name, the first of which finds memory for so many rows.
fn call_with<T: Threads + Wait + Sync>(
    rt: &T,
    alloc: Global,
    words: &Vec<String>,
    store: &mut MemStore,
    out: &mut MemSink,
    err: &mut MemSink,
    room: usize,
) -> Result<Status, NoMemory> {
    let first: Box<dyn ReportForm> = Box::new(alloc, Marks::new(alloc, b'.', room))?;
    let second: Box<dyn ReportForm> = Box::new(alloc, Marks::new(alloc, b'!', 9))?;
    let forms = Vec::from_array(alloc, [first, second])?;
    let mut observers = no_observers(alloc);
    let gate = OpenGate { hold: Free };
    Ok(symple(
        rt,
        alloc,
        words,
        store,
        out,
        err,
        forms,
        &mut observers,
        &gate,
    ))
}

/// Arguments, for how many rows the first form finds memory, and the end of the run.
#[derive(Clone, Copy)]
struct Marked {
    words: &'static [&'static str],
    room: usize,
    end: End,
}

fn end_differs_by<T: Threads + Wait + Sync>(
    rt: &T,
    alloc: Global,
    words: &Vec<String>,
    store: &mut MemStore,
    marked: &Marked,
) -> Result<Option<String>, NoMemory> {
    let mut out = MemSink::new(alloc, 100);
    let mut err = MemSink::new(alloc, 100);
    let status = call_with(rt, alloc, words, store, &mut out, &mut err, marked.room)?;
    end_differs(alloc, status, out.bytes(), err.bytes(), &marked.end)
}

impl ThreadedRow for Marked {
    fn differs<T: Threads + Wait + Sync>(
        &self,
        rt: &T,
        alloc: Global,
    ) -> Result<Option<String>, NoMemory> {
        let words = words_of(alloc, self.words)?;
        end_differs_by(rt, alloc, &words, &mut store_of(alloc)?, self)
    }
}

/// A run over three groups through the first form.
const MARKED: Marked = Marked {
    words: &["run", "--form", "marks", "s", "f"],
    room: 3,
    end: End {
        status: Status::Done,
        out: "<...>",
        err: "",
    },
};

#[test]
fn the_first_form_of_the_name_writes_the_report(rt: HostRuntime) -> Result<(), Fail> {
    check_threaded_rows(&rt, rt.alloc(), &[MARKED])
}

/// The same without memory for a row.
const FULL: Marked = Marked {
    room: 0,
    end: End {
        status: Status::NoMemory,
        out: "",
        err: "symple: out of memory\n",
    },
    ..MARKED
};

/// For the first row, for the second and for the third.
const FULL_AT: [Marked; 3] = [FULL, Marked { room: 1, ..FULL }, Marked { room: 2, ..FULL }];

#[test]
fn a_form_without_memory_ends_the_run(rt: HostRuntime) -> Result<(), Fail> {
    check_threaded_rows(&rt, rt.alloc(), &FULL_AT)
}

/// A run in the form `table`, and a check, which writes in no form.
const OTHERS: [Marked; 2] = [
    Marked {
        words: &["run", "s", "f"],
        end: End {
            status: Status::Usage,
            out: "",
            err: "symple: usage\n",
        },
        ..MARKED
    },
    Marked {
        words: &["check", "s"],
        end: End {
            status: Status::Done,
            out: "cells 1 tests 0 paths 3\n",
            err: "",
        },
        ..MARKED
    },
];

#[test]
fn a_form_that_is_not_handed_in_is_usage(rt: HostRuntime) -> Result<(), Fail> {
    check_threaded_rows(&rt, rt.alloc(), &OTHERS)
}
