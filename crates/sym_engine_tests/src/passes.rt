//! Passes over files, by example.
use crate::texts::passed_text;
use std::alloc::Global;
use std::sync::Wait;
use std::test::Fail;
use std::thread::Threads;
use sym_base::{Column, Key, MemStore, NoMemory, Outcome, State, Value};
use sym_check::Checked;
use sym_engine::{
    CHUNK_DEFAULT, Free, LIMIT_DEFAULT, OpenGate, Options, PassErr, WORKERS_DEFAULT, pass,
};
use sym_given::{ThreadedCase, all_hold, check_threaded_cases, difference, told_at};
use sym_plain::{Groups, columns};
use sym_table::{Bad, BadCause, HeadFault};

/// How the number of a group stands.
#[derive(Clone, Copy, Debug)]
pub(crate) enum Standing {
    Is(i64),
    /// It left its range at the record of this number.
    Left(u64),
}

use Standing::{Is, Left};

/// What a pass comes to: the word of each group and its number, or the first problem.
#[derive(Clone, Copy, Debug)]
enum Want {
    Groups(&'static [(&'static str, Standing)]),
    Stops(PassErr),
}

/// The names of three files, and what the pass over them comes to.
struct Run([&'static str; 3], Want);

/// The sum of each user's numbers, which is at most 8.
pub(crate) const SCRIPT: &str = "field u: word; field n: num; group u; state k: int [0..8] = 0; \
                      update { k = k + n; } report { k = k; }";

/// The rows of a chunk, on which the groups don't depend.
const CHUNKS: [u32; 3] = [1, 2, CHUNK_DEFAULT];

/// The files and their names. The last one has more than 16 bytes.
const FILES: [(&str, &str); 8] = [
    ("ab", "u,n\na,1\nb,2\n"),
    ("ba", "n,u,x\n1,b,\n1,a,\n"),
    ("none", ""),
    ("head", "u,n"),
    ("nine", "u,n\na,9\nc,9\n"),
    ("bad", "u,n\na,1\na,x\na\n"),
    ("no n", "u,m\na\n"),
    ("two u", "u,u\na,1\nlonger\n\n\n"),
];

const RUNS: [Run; 13] = [
    Run(
        ["ab", "ba", "ab"],
        Want::Groups(&[("a", Is(3)), ("b", Is(5))]),
    ),
    Run(
        ["ba", "none", "ab"],
        Want::Groups(&[("b", Is(3)), ("a", Is(2))]),
    ),
    Run(
        ["ab", "ab", "ab"],
        Want::Groups(&[("a", Is(3)), ("b", Is(6))]),
    ),
    Run(["none", "head", "none"], Want::Groups(&[])),
    Run(
        ["ab", "nine", "ab"],
        Want::Groups(&[("a", Left(3)), ("b", Is(4)), ("c", Left(4))]),
    ),
    Run(
        ["ab", "bad", "no n"],
        Want::Stops(PassErr::Bad {
            file: 1,
            bad: Bad {
                no: 4,
                cause: BadCause::Number(1),
            },
        }),
    ),
    Run(
        ["bad", "two u", "absent"],
        Want::Stops(PassErr::Bad {
            file: 0,
            bad: Bad {
                no: 2,
                cause: BadCause::Number(1),
            },
        }),
    ),
    Run(
        ["ab", "no n", "bad"],
        Want::Stops(PassErr::Head {
            file: 1,
            fault: HeadFault::NoField { which: 1 },
        }),
    ),
    Run(
        ["no n", "bad", "two u"],
        Want::Stops(PassErr::Head {
            file: 0,
            fault: HeadFault::NoField { which: 1 },
        }),
    ),
    Run(
        ["ab", "two u", "bad"],
        Want::Stops(PassErr::TooLarge { file: 1 }),
    ),
    Run(
        ["head", "none", "two u"],
        Want::Stops(PassErr::TooLarge { file: 2 }),
    ),
    Run(
        ["none", "absent", "two u"],
        Want::Stops(PassErr::Read { file: 1 }),
    ),
    Run(
        ["ab", "ab", "absent"],
        Want::Stops(PassErr::Read { file: 2 }),
    ),
];

// The files, in memory, of which the read of this number fails.
pub(crate) fn store(alloc: Global, failing: u64) -> Result<MemStore, NoMemory> {
    let mut store = MemStore::new(alloc);
    'files: for (name, text) in &FILES {
        store.add(alloc, name, text.as_bytes())?;
    }
    store.fail_at(alloc, failing)?;
    Ok(store)
}

pub(crate) fn names(alloc: Global, run: &[&'static str]) -> Result<Vec<String>, NoMemory> {
    let mut names = Vec::new(alloc);
    'names: for name in run {
        names.push(String::from_str(alloc, name)?)?;
    }
    Ok(names)
}

fn is_key(key: &Key, who: &str) -> bool {
    match key.values.as_slice() {
        [Value::Word(word)] => word.as_str() == who,
        _ => false,
    }
}

// Whether the one column of a state shows this number.
fn shows(alloc: Global, checked: &Checked, state: &State, number: i64) -> Result<bool, NoMemory> {
    match columns(alloc, checked, state)?.get(0) {
        Some(Column::Num(found)) => Ok(*found == i128::from(number)),
        _ => Ok(false),
    }
}

fn stands(
    alloc: Global,
    checked: &Checked,
    outcome: &Outcome,
    standing: Standing,
) -> Result<bool, NoMemory> {
    match (outcome, standing) {
        (Outcome::Going(state), Is(number)) => shows(alloc, checked, state, number),
        (Outcome::Ended(fault), Left(no)) => Ok(fault.no == no),
        _ => Ok(false),
    }
}

fn is_group(
    alloc: Global,
    checked: &Checked,
    groups: &Groups,
    place: usize,
    who: &str,
    standing: Standing,
) -> Result<bool, NoMemory> {
    match groups.at(place) {
        Some((key, outcome)) => {
            Ok(is_key(key, who) && stands(alloc, checked, outcome, standing)?)
        }
        None => Ok(false),
    }
}

pub(crate) fn are_groups(
    alloc: Global,
    checked: &Checked,
    groups: &Groups,
    wanted: &[(&'static str, Standing)],
) -> Result<bool, NoMemory> {
    'groups: for (place, (who, standing)) in wanted.iter().enumerate() {
        if !is_group(alloc, checked, groups, place, who, *standing)? {
            return Ok(false);
        }
    }
    Ok(groups.len() == wanted.len())
}

fn is_wanted(
    alloc: Global,
    checked: &Checked,
    passed: &Result<Groups, PassErr>,
    want: Want,
) -> Result<bool, NoMemory> {
    match (passed, want) {
        (Ok(groups), Want::Groups(wanted)) => are_groups(alloc, checked, groups, wanted),
        (Err(why), Want::Stops(wanted)) => Ok(*why == wanted),
        (Ok(_), Want::Stops(_)) | (Err(_), Want::Groups(_)) => Ok(false),
    }
}

fn passed_differs(
    alloc: Global,
    checked: &Checked,
    passed: &Result<Groups, PassErr>,
    want: Want,
) -> Result<Option<String>, NoMemory> {
    if is_wanted(alloc, checked, passed, want)? {
        return Ok(None);
    }
    let found = passed_text(alloc, passed)?;
    Ok(Some(format!(in alloc; "found {found}, wanted {want:?}")?))
}

// What the pass over the files of these names, of at most 16 bytes each, cut into chunks of so many
// rows, comes to in place of this.
fn pass_differs<T: Threads + Wait + Sync>(
    rt: &T,
    alloc: Global,
    checked: &Checked,
    files: &mut MemStore,
    names: &[String],
    chunk: u32,
    want: Want,
) -> Result<Option<String>, NoMemory> {
    if names.len() > 3 || chunk < 1 || chunk > CHUNK_DEFAULT {
        return Ok(Some(String::from_str(alloc, "found wrong options")?));
    }
    let options = Options {
        chunk,
        limit: LIMIT_DEFAULT,
        workers: WORKERS_DEFAULT,
        max_bytes: 16,
    };
    let gate = OpenGate { hold: Free };
    let passed = pass(rt, alloc, checked, files, names, &options, &gate);
    passed_differs(alloc, checked, &passed, want)
}

fn run_differs<T: Threads + Wait + Sync>(
    rt: &T,
    alloc: Global,
    checked: &Checked,
    files: &mut MemStore,
    run: &[&'static str],
    chunk: u32,
    want: Want,
) -> Result<Option<String>, NoMemory> {
    let names = names(alloc, run)?;
    pass_differs(rt, alloc, checked, files, names.as_slice(), chunk, want)
}

impl ThreadedCase for Run {
    fn script(&self) -> &str {
        SCRIPT
    }

    fn differs<T: Threads + Wait + Sync>(
        &self,
        rt: &T,
        alloc: Global,
        checked: &Checked,
    ) -> Result<Option<String>, NoMemory> {
        'chunks: for chunk in CHUNKS {
            let mut files = store(alloc, 0)?;
            let told = run_differs(rt, alloc, checked, &mut files, &self.0, chunk, self.1)?;
            if let Some(told) = told {
                return Ok(Some(format!(in alloc; "chunks of {chunk}: {told}")?));
            }
        }
        Ok(None)
    }
}

#[test]
fn files_are_passed_in_order_up_to_their_first_problem(rt: HostRuntime) -> Result<(), Fail> {
    check_threaded_cases(&rt, rt.alloc(), &RUNS)
}

/// The read that fails in a pass over three files, and the file that it is of. A file takes two
/// reads. The same pass goes through afterwards.
struct Read(u64, u64);

const READS: [Read; 6] = [
    Read(1, 0),
    Read(2, 0),
    Read(3, 1),
    Read(4, 1),
    Read(5, 2),
    Read(6, 2),
];

const WHOLE: Run = Run(
    ["ab", "ba", "ab"],
    Want::Groups(&[("a", Is(3)), ("b", Is(5))]),
);

// The pass fails at this file, and goes through afterwards.
fn failing_differs<T: Threads + Wait + Sync>(
    rt: &T,
    alloc: Global,
    checked: &Checked,
    files: &mut MemStore,
    file: u64,
) -> Result<Option<String>, NoMemory> {
    let Run(names, whole) = WHOLE;
    let fault = Want::Stops(PassErr::Read { file });
    let told = run_differs(rt, alloc, checked, files, &names, CHUNK_DEFAULT, fault)?;
    if told.is_some() {
        return Ok(told);
    }
    run_differs(rt, alloc, checked, files, &names, CHUNK_DEFAULT, whole)
}

impl ThreadedCase for Read {
    fn script(&self) -> &str {
        SCRIPT
    }

    fn differs<T: Threads + Wait + Sync>(
        &self,
        rt: &T,
        alloc: Global,
        checked: &Checked,
    ) -> Result<Option<String>, NoMemory> {
        failing_differs(rt, alloc, checked, &mut store(alloc, self.0)?, self.1)
    }
}

#[test]
fn a_read_may_fail_at_each_place(rt: HostRuntime) -> Result<(), Fail> {
    check_threaded_cases(&rt, rt.alloc(), &READS)
}

/// Errors and their texts.
const SHOWN: [(PassErr, &str); 5] = [
    (PassErr::Read { file: 1 }, "Read"),
    (PassErr::TooLarge { file: 1 }, "TooLarge"),
    (
        PassErr::Head {
            file: 1,
            fault: HeadFault::Twice { which: 0 },
        },
        "Head",
    ),
    (
        PassErr::Bad {
            file: 1,
            bad: Bad {
                no: 9,
                cause: BadCause::Fields(3),
            },
        },
        "Bad",
    ),
    (PassErr::NoMemory, "NoMemory"),
];

// The first text that isn't as wanted.
fn texts_differ(alloc: Global) -> Result<Option<String>, NoMemory> {
    'rows: for (place, (why, text)) in SHOWN.iter().enumerate() {
        let told = difference(alloc, &format!(in alloc; "{why}")?.as_str(), text)?;
        if told.is_some() {
            return told_at(alloc, place, told);
        }
    }
    Ok(None)
}

#[test]
fn the_text_of_an_error_is_its_variant(rt: HostRuntime) -> Result<(), Fail> {
    all_hold(texts_differ(rt.alloc()))
}
