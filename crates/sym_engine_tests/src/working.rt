//! The run of a round.
use crate::rounds::read_chunks;
use std::alloc::Global;
use std::sync::Wait;
use std::test::Fail;
use std::thread::Threads;
use sym_base::{FILE_MAX_DEFAULT, Key, MemStore, NoMemory, Value};
use sym_check::Checked;
use sym_engine::{
    CHUNK_DEFAULT, Free, LIMIT_DEFAULT, OpenGate, Options, PassErr, Rounds, Took, WORKERS_DEFAULT,
    Work, each_round, round,
};
use sym_given::{ThreadedCase, check_threaded_cases, difference};
use sym_run::Run;

/// What is seen of a run: its ends, the words of its keys, joined, and the number of its first row
/// that is no record.
#[derive(Debug, Drop)]
struct Seen {
    lo: u32,
    hi: u32,
    keys: String,
    bad: Option<u64>,
}

fn push_key(keys: &mut String, key: &Key) -> Result<(), NoMemory> {
    if let [Value::Word(word)] = key.values.as_slice() {
        keys.push_str(word.as_str())?;
    }
    Ok(())
}

fn keys_of(alloc: Global, run: &Run) -> Result<String, NoMemory> {
    let mut keys = String::new(alloc);
    'groups: for place in 0..run.groups.len() {
        if let Some((key, _chain)) = run.groups.at(place) {
            push_key(&mut keys, key)?;
        }
    }
    Ok(keys)
}

fn seen_of(alloc: Global, run: &Run) -> Result<Seen, NoMemory> {
    Ok(Seen {
        lo: run.lo,
        hi: run.hi,
        keys: keys_of(alloc, run)?,
        bad: match &run.bad {
            Some(bad) => Some(bad.no),
            None => None,
        },
    })
}

/// What is seen of the run of each round.
#[derive(Drop)]
struct Made {
    runs: Vec<Seen>,
}

impl Rounds for Made {
    ghost shown = { λ _ row. row };

    // It stands for any records.
    ghost stands = { λ _ _ _ _. Unit {0} };

    // It tells no one of rounds.
    ghost told = { λ _ _ _ _ _. Unit {0} };

    fn take<T: Threads + Wait + Sync>(
        &mut self,
        rt: &T,
        alloc: Global,
        work: &Work,
    ) -> Result<Took, NoMemory> {
        let gate = OpenGate { hold: Free };
        let run = round(rt, alloc, work, WORKERS_DEFAULT, &gate)?;
        self.runs.push(seen_of(alloc, &run)?)?;
        read_chunks(alloc, &work.checked, work.chunks.as_slice(), &None)
    }
}

/// A log of users and numbers, how many rows a chunk has, and each round's run: how many chunks it
/// has, its keys, and its first row that is no record.
struct Case(
    &'static str,
    u32,
    &'static [(u32, &'static str, Option<u64>)],
);

const SCRIPT: &str = "field user: word; field n: num; group user; state k: int [0..99] = 0; \
                      update { k = k + n; } report { k = k; }";

const CASES: [Case; 7] = [
    Case("user,n\nc,1\na,1\nb,1\na,1\n", 1, &[(4, "cab", None)]),
    Case("user,n\nc,1\na,1\nb,1\na,1\n", 3, &[(2, "cab", None)]),
    Case("user,n\nc,1\na,1\nb,1\na,1\n", 4, &[(1, "cab", None)]),
    Case("user,n\nb,1\nb,1\na,x\nc,y\n", 1, &[(4, "", Some(3))]),
    Case("user,n\nb,1\nb,1\na\nc,y\n", 2, &[(2, "", Some(3))]),
    Case("user,n\nb,1\nb,1\na,1\nc,y\n", 3, &[(2, "", Some(4))]),
    Case("user,n\n", 1, &[]),
];

// Whether the run has so many chunks, from the first one on, these keys, unless a row is no record,
// and that row.
fn is_seen(seen: &Seen, hi: u32, keys: &str, bad: Option<u64>) -> bool {
    seen.lo == 0
        && seen.hi == hi
        && seen.bad == bad
        && (bad.is_some() || seen.keys.as_str() == keys)
}

// The run of the first round that isn't as wanted.
fn made_differs(
    alloc: Global,
    made: &Made,
    runs: &[(u32, &'static str, Option<u64>)],
) -> Result<Option<String>, NoMemory> {
    'runs: for (seen, (hi, keys, bad)) in made.runs.iter().zip(runs) {
        if !is_seen(seen, *hi, keys, *bad) {
            let wanted = (hi, keys, bad);
            return Ok(Some(format!(in alloc; "found {seen:?}, wanted {wanted:?}")?));
        }
    }
    difference(alloc, &made.runs.len(), &runs.len())
}

fn store(alloc: Global, log: &str) -> Result<MemStore, NoMemory> {
    let mut store = MemStore::new(alloc);
    store.add(alloc, "log", log.as_bytes())?;
    Ok(store)
}

fn names(alloc: Global) -> Result<Vec<String>, NoMemory> {
    let mut names = Vec::new(alloc);
    names.push(String::from_str(alloc, "log")?)?;
    Ok(names)
}

// Takes the rounds of the file; `None` where the options aren't in their ranges.
fn taken<T: Threads + Wait + Sync>(
    rt: &T,
    alloc: Global,
    checked: &Checked,
    files: &mut MemStore,
    names: &[String],
    chunk: u32,
    made: &mut Made,
) -> Option<Result<u64, PassErr>> {
    if chunk < 1 || chunk > CHUNK_DEFAULT || names.len() > 3 {
        return None;
    }
    let options = Options {
        chunk,
        limit: LIMIT_DEFAULT,
        workers: WORKERS_DEFAULT,
        max_bytes: FILE_MAX_DEFAULT,
    };
    Some(each_round(rt, alloc, checked, files, names, &options, 1, made))
}

// Whether all was taken, or stopped at a row that is no record.
fn is_through(taken: Option<Result<u64, PassErr>>) -> bool {
    match taken {
        Some(Ok(_)) => true,
        Some(Err(PassErr::Bad { file, .. })) => file == 0,
        Some(Err(_)) | None => false,
    }
}

fn case_differs<T: Threads + Wait + Sync>(
    rt: &T,
    alloc: Global,
    checked: &Checked,
    files: &mut MemStore,
    case: &Case,
) -> Result<Option<String>, NoMemory> {
    let mut made = Made {
        runs: Vec::new(alloc),
    };
    let names = names(alloc)?;
    let taken = taken(
        rt,
        alloc,
        checked,
        files,
        names.as_slice(),
        case.1,
        &mut made,
    );
    if !is_through(taken) {
        return Ok(Some(format!(in alloc; "found {taken:?}, wanted all rounds")?));
    }
    made_differs(alloc, &made, case.2)
}

impl ThreadedCase for Case {
    fn script(&self) -> &str {
        SCRIPT
    }

    fn differs<T: Threads + Wait + Sync>(
        &self,
        rt: &T,
        alloc: Global,
        checked: &Checked,
    ) -> Result<Option<String>, NoMemory> {
        case_differs(rt, alloc, checked, &mut store(alloc, self.0)?, self)
    }
}

#[test]
fn a_round_has_the_run_of_all_its_chunks(rt: HostRuntime) -> Result<(), Fail> {
    check_threaded_cases(&rt, rt.alloc(), &CASES)
}
