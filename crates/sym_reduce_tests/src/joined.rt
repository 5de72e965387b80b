//! Run files joined under a checked script, in order: the text of what they come to, or the first
//! problem.
use crate::setting::{names_of, store_of};
use std::alloc::Global;
use std::sync::Wait;
use std::test::Fail;
use std::thread::Threads;
use sym_base::{MemStore, NoMemory};
use sym_check::Checked;
use sym_file::write_saved;
use sym_given::saved::{
    A_TWICE, AFTER_KEY_LINE, ALL_LINES, ALL_USERS, CUT_OFF, FIVE, KEPT, KEY_LINE, LINES,
    MORE_CUT_OFF, MORE_LINES, MORE_USERS, NONE, PUSHED, SET, SIX, SIXTH, THREE, TURNED, TWO, USERS,
    WITH_KEY_LINE,
};
use sym_given::{ThreadedCase, bytes_differ, check_threaded_cases, difference};
use sym_reduce::{ReduceErr, join_files};

/// What files come to: the text of their saved run, or why there is none.
#[derive(Clone, Copy, Debug)]
enum Want {
    Text(&'static str),
    Stops(ReduceErr),
}

/// A script, the names of files, the size that each may have, the read that fails, and what they come
/// to.
#[derive(Clone, Copy)]
struct Row(&'static str, &'static [&'static str], u64, u64, Want);

/// The files and their names.
const FILES: [(&str, &str); 15] = [
    ("two", TWO),
    ("three", THREE),
    ("sixth", SIXTH),
    ("none", NONE),
    ("cut off", CUT_OFF),
    ("turned", TURNED),
    ("users", USERS),
    ("more users", MORE_USERS),
    ("a twice", A_TWICE),
    ("more cut off", MORE_CUT_OFF),
    ("lines", LINES),
    ("more lines", MORE_LINES),
    ("key line", KEY_LINE),
    ("after key line", AFTER_KEY_LINE),
    ("empty", ""),
];

fn text_differs(alloc: Global, found: &[u8], wanted: Want) -> Result<Option<String>, NoMemory> {
    match wanted {
        Want::Text(text) => bytes_differ(alloc, found, text.as_bytes()),
        Want::Stops(why) => Ok(Some(format!(in alloc; "found a saved run, wanted {why:?}")?)),
    }
}

fn stop_differs(alloc: Global, found: ReduceErr, wanted: Want) -> Result<Option<String>, NoMemory> {
    match wanted {
        Want::Text(_) => Ok(Some(format!(in alloc; "found {found:?}, wanted a saved run")?)),
        Want::Stops(why) => difference(alloc, &found, &why),
    }
}

fn joined_differs<T: Threads + Sync>(
    rt: &T,
    alloc: Global,
    checked: &Checked,
    files: &mut MemStore,
    names: &[String],
    row: &Row,
) -> Result<Option<String>, NoMemory> {
    let Row(_, _, max_bytes, _, wanted) = row;
    if *max_bytes > 1_000 {
        return Ok(Some(format!(in alloc; "found the size {max_bytes}, wanted at most 1000")?));
    }
    match join_files(rt, alloc, checked, files, names, *max_bytes, 16) {
        Ok(saved) => {
            let text = write_saved(alloc, checked, &saved)?;
            text_differs(alloc, text.as_slice(), *wanted)
        }
        Err(why) => stop_differs(alloc, why, *wanted),
    }
}

impl ThreadedCase for Row {
    fn script(&self) -> &str {
        self.0
    }

    fn differs<T: Threads + Wait + Sync>(
        &self,
        rt: &T,
        alloc: Global,
        checked: &Checked,
    ) -> Result<Option<String>, NoMemory> {
        let names = names_of(alloc, self.1)?;
        let mut files = store_of(alloc, &FILES)?;
        files.fail_at(alloc, self.3)?;
        joined_differs(rt, alloc, checked, &mut files, names.as_slice(), self)
    }
}

const JOINS: [Row; 9] = [
    // No file, of which a join has no records.
    Row(KEPT, &[], 0, 1, Want::Text(NONE)),
    Row(KEPT, &["three"], 175, 0, Want::Text(THREE)),
    Row(KEPT, &["none", "none"], 1_000, 0, Want::Text(NONE)),
    Row(KEPT, &["two", "three"], 175, 0, Want::Text(FIVE)),
    // A read that isn't made, as there are two of each file.
    Row(KEPT, &["two", "three", "sixth"], 175, 7, Want::Text(SIX)),
    Row(
        KEPT,
        &["none", "two", "three", "sixth"],
        1_000,
        0,
        Want::Text(SIX),
    ),
    Row(
        SET,
        &["users", "more users"],
        1_000,
        0,
        Want::Text(ALL_USERS),
    ),
    // A word has a line that begins as that of a key: one of a key, and one that was pushed. Texts
    // with the latter have no answer by key, and are joined in turn.
    Row(
        SET,
        &["lines", "more lines"],
        1_000,
        0,
        Want::Text(ALL_LINES),
    ),
    Row(
        PUSHED,
        &["key line", "after key line"],
        1_000,
        0,
        Want::Text(WITH_KEY_LINE),
    ),
];

#[test]
fn files_in_order_are_joined(rt: HostRuntime) -> Result<(), Fail> {
    check_threaded_cases(&rt, rt.alloc(), &JOINS)
}

/// One file, and several with a fault at each place: the first one is answered.
const STOPS: [Row; 20] = [
    Row(
        KEPT,
        &["empty"],
        1_000,
        0,
        Want::Stops(ReduceErr::Malformed { file: 0 }),
    ),
    Row(
        KEPT,
        &["users"],
        1_000,
        0,
        Want::Stops(ReduceErr::OtherScript { file: 0 }),
    ),
    Row(
        KEPT,
        &["two"],
        174,
        0,
        Want::Stops(ReduceErr::TooLarge { file: 0 }),
    ),
    Row(
        KEPT,
        &["two"],
        1_000,
        2,
        Want::Stops(ReduceErr::Read { file: 0 }),
    ),
    Row(
        KEPT,
        &["cut off", "three"],
        1_000,
        0,
        Want::Stops(ReduceErr::Malformed { file: 0 }),
    ),
    Row(
        KEPT,
        &["users", "three"],
        1_000,
        0,
        Want::Stops(ReduceErr::OtherScript { file: 0 }),
    ),
    Row(
        KEPT,
        &["two", "cut off", "sixth"],
        1_000,
        0,
        Want::Stops(ReduceErr::Malformed { file: 1 }),
    ),
    Row(
        KEPT,
        &["two", "turned", "sixth"],
        1_000,
        0,
        Want::Stops(ReduceErr::Malformed { file: 1 }),
    ),
    Row(
        KEPT,
        &["two", "users", "sixth"],
        1_000,
        0,
        Want::Stops(ReduceErr::OtherScript { file: 1 }),
    ),
    Row(
        KEPT,
        &["two", "sixth", "three"],
        1_000,
        0,
        Want::Stops(ReduceErr::Apart { file: 1 }),
    ),
    Row(
        KEPT,
        &["two", "two", "three"],
        1_000,
        0,
        Want::Stops(ReduceErr::Apart { file: 1 }),
    ),
    Row(
        KEPT,
        &["two", "three", "two"],
        1_000,
        0,
        Want::Stops(ReduceErr::Apart { file: 2 }),
    ),
    Row(
        KEPT,
        &["two", "three", "empty"],
        1_000,
        0,
        Want::Stops(ReduceErr::Malformed { file: 2 }),
    ),
    Row(
        SET,
        &["users", "a twice"],
        1_000,
        0,
        Want::Stops(ReduceErr::Malformed { file: 1 }),
    ),
    Row(
        SET,
        &["users", "more cut off"],
        1_000,
        0,
        Want::Stops(ReduceErr::Malformed { file: 1 }),
    ),
    Row(
        PUSHED,
        &["key line", "key line"],
        1_000,
        0,
        Want::Stops(ReduceErr::Apart { file: 1 }),
    ),
    // A file that isn't read, after files that are joined.
    Row(
        KEPT,
        &["two", "absent", "three"],
        1_000,
        0,
        Want::Stops(ReduceErr::Read { file: 1 }),
    ),
    Row(
        KEPT,
        &["none", "none", "two"],
        174,
        0,
        Want::Stops(ReduceErr::TooLarge { file: 2 }),
    ),
    // A fault of a file before one that isn't read.
    Row(
        KEPT,
        &["two", "cut off", "absent"],
        1_000,
        0,
        Want::Stops(ReduceErr::Malformed { file: 1 }),
    ),
    Row(
        KEPT,
        &["two", "sixth", "three"],
        1_000,
        5,
        Want::Stops(ReduceErr::Apart { file: 1 }),
    ),
];

#[test]
fn the_first_problem_of_joined_files_is_answered(rt: HostRuntime) -> Result<(), Fail> {
    check_threaded_cases(&rt, rt.alloc(), &STOPS)
}
