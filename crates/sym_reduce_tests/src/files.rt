//! Files of saved runs under a checked script, in order.
use crate::setting::{names_of, store_of};
use std::alloc::Global;
use std::test::Fail;
use sym_base::{Cell, Key, MemStore, NoMemory, Outcome, Value};
use sym_check::Checked;
use sym_file::Totals;
use sym_given::saved::{
    CUT_OFF, ENDS, FROM_ONE, KEPT, LATER_FROM_ONE, MORE_USERS, NONE, NOT_FIVE, SET, SIXTH, THREE,
    TWO, USERS,
};
use sym_given::scripts::COUNTER;
use sym_given::{Case, check_cases, group_text};
use sym_reduce::{ReduceErr, reduce_files};

/// How a group stands.
#[derive(Clone, Copy, Debug)]
enum Standing {
    /// Its first cell has this number.
    Is(i64),
    /// It ended at the record of this number.
    Left(u64),
}

use Standing::{Is, Left};

/// What files come to: the first word of each group's key, empty where it has none, and how the
/// group stands; or why there are no totals.
#[derive(Clone, Copy, Debug)]
enum Want {
    Groups(&'static [(&'static str, Standing)]),
    Stops(ReduceErr),
}

/// A script, the names of files, the size that each may have, the read that fails, and what they come
/// to.
#[derive(Clone, Copy)]
struct Row(&'static str, &'static [&'static str], u64, u64, Want);

/// The files and their names.
const FILES: [(&str, &str); 12] = [
    ("two", TWO),
    ("three", THREE),
    ("sixth", SIXTH),
    ("none", NONE),
    ("ends", ENDS),
    ("from one", FROM_ONE),
    ("later from one", LATER_FROM_ONE),
    ("cut off", CUT_OFF),
    ("users", USERS),
    ("more users", MORE_USERS),
    ("not five", NOT_FIVE),
    ("empty", ""),
];

fn word_of(key: &Key) -> &str {
    match key.values.get(0) {
        Some(Value::Word(text)) => text.as_str(),
        _ => "",
    }
}

fn stands(outcome: &Outcome, wanted: Standing) -> bool {
    match (outcome, wanted) {
        (Outcome::Going(state), Is(number)) => match state.cells.get(0) {
            Some(Cell::Int(found)) => *found == number,
            _ => false,
        },
        (Outcome::Ended(fault), Left(record)) => fault.no == record,
        _ => false,
    }
}

fn group_is(totals: &Totals, place: usize, wanted: &(&'static str, Standing)) -> bool {
    match totals.at(place) {
        Some((key, outcome)) => word_of(key) == wanted.0 && stands(outcome, wanted.1),
        None => false,
    }
}

fn are_groups(totals: &Totals, wanted: &[(&'static str, Standing)]) -> bool {
    'groups: for (place, group) in wanted.iter().enumerate() {
        if !group_is(totals, place, group) {
            return false;
        }
    }
    totals.len() == wanted.len()
}

fn is_wanted(found: &Result<Totals, ReduceErr>, wanted: Want) -> bool {
    match (found, wanted) {
        (Ok(totals), Want::Groups(groups)) => are_groups(totals, groups),
        (Err(why), Want::Stops(stop)) => *why == stop,
        _ => false,
    }
}

fn totals_text(alloc: Global, totals: &Totals) -> Result<String, NoMemory> {
    let mut text = String::new(alloc);
    'groups: for place in 0..totals.len() {
        if let Some((key, outcome)) = totals.at(place) {
            text.push_str(group_text(alloc, key, outcome)?.as_str())?;
            text.push_str("; ")?;
        }
    }
    Ok(text)
}

fn reduced_differs(
    alloc: Global,
    found: &Result<Totals, ReduceErr>,
    wanted: Want,
) -> Result<Option<String>, NoMemory> {
    if is_wanted(found, wanted) {
        return Ok(None);
    }
    let found = match found {
        Ok(totals) => totals_text(alloc, totals)?,
        Err(why) => format!(in alloc; "{why:?}")?,
    };
    Ok(Some(format!(in alloc; "found {found}, wanted {wanted:?}")?))
}

fn files_differ(
    alloc: Global,
    checked: &Checked,
    files: &mut MemStore,
    names: &[String],
    row: &Row,
) -> Result<Option<String>, NoMemory> {
    let Row(_, _, max_bytes, _, wanted) = row;
    if *max_bytes > 1_000 {
        return Ok(Some(format!(in alloc; "found the size {max_bytes}, wanted at most 1000")?));
    }
    let found = reduce_files(alloc, checked, files, names, *max_bytes);
    reduced_differs(alloc, &found, *wanted)
}

impl Case for Row {
    fn script(&self) -> &str {
        self.0
    }

    fn differs(&self, alloc: Global, checked: &Checked) -> Result<Option<String>, NoMemory> {
        let names = names_of(alloc, self.1)?;
        let mut files = store_of(alloc, &FILES)?;
        files.fail_at(alloc, self.3)?;
        files_differ(alloc, checked, &mut files, names.as_slice(), self)
    }
}

const TAKEN: [Row; 8] = [
    Row(KEPT, &[], 0, 1, Want::Groups(&[])),
    Row(KEPT, &["none"], 1_000, 0, Want::Groups(&[])),
    Row(KEPT, &["two"], 175, 0, Want::Groups(&[("", Is(0))])),
    Row(
        KEPT,
        &["none", "two", "three", "sixth"],
        175,
        0,
        Want::Groups(&[("", Is(0))]),
    ),
    Row(
        KEPT,
        &["ends", "later from one", "sixth"],
        1_000,
        0,
        Want::Groups(&[("", Left(2))]),
    ),
    Row(
        SET,
        &["users"],
        1_000,
        0,
        Want::Groups(&[("c", Is(5)), ("a", Is(5)), ("b", Is(5))]),
    ),
    Row(
        SET,
        &["users", "more users"],
        1_000,
        0,
        Want::Groups(&[("c", Is(5)), ("a", Is(6)), ("b", Is(5)), ("d", Is(5))]),
    ),
    // A read that isn't made.
    Row(KEPT, &["two"], 175, 3, Want::Groups(&[("", Is(0))])),
];

#[test]
fn files_in_order_come_to_the_totals(rt: HostRuntime) -> Result<(), Fail> {
    check_cases(rt.alloc(), &TAKEN)
}

const STOPS: [Row; 18] = [
    Row(
        KEPT,
        &["two", "three"],
        1_000,
        1,
        Want::Stops(ReduceErr::Read { file: 0 }),
    ),
    Row(
        KEPT,
        &["two", "three"],
        1_000,
        2,
        Want::Stops(ReduceErr::Read { file: 0 }),
    ),
    Row(
        KEPT,
        &["two", "three"],
        1_000,
        3,
        Want::Stops(ReduceErr::Read { file: 1 }),
    ),
    Row(
        KEPT,
        &["two", "absent", "three"],
        1_000,
        0,
        Want::Stops(ReduceErr::Read { file: 1 }),
    ),
    Row(
        KEPT,
        &["two", "three"],
        174,
        0,
        Want::Stops(ReduceErr::TooLarge { file: 0 }),
    ),
    Row(
        KEPT,
        &["none", "two"],
        174,
        0,
        Want::Stops(ReduceErr::TooLarge { file: 1 }),
    ),
    Row(
        COUNTER,
        &["two"],
        1_000,
        0,
        Want::Stops(ReduceErr::OtherScript { file: 0 }),
    ),
    Row(
        KEPT,
        &["two", "more users"],
        1_000,
        0,
        Want::Stops(ReduceErr::OtherScript { file: 1 }),
    ),
    Row(
        KEPT,
        &["empty", "two"],
        1_000,
        0,
        Want::Stops(ReduceErr::Malformed { file: 0 }),
    ),
    Row(
        KEPT,
        &["two", "three", "cut off"],
        1_000,
        0,
        Want::Stops(ReduceErr::Malformed { file: 2 }),
    ),
    Row(
        KEPT,
        &["three"],
        1_000,
        0,
        Want::Stops(ReduceErr::Apart { file: 0 }),
    ),
    Row(
        KEPT,
        &["two", "sixth"],
        1_000,
        0,
        Want::Stops(ReduceErr::Apart { file: 1 }),
    ),
    Row(
        KEPT,
        &["two", "two"],
        1_000,
        0,
        Want::Stops(ReduceErr::Apart { file: 1 }),
    ),
    // The numbers before the paths, and a file before the next one.
    Row(
        KEPT,
        &["later from one", "cut off"],
        1_000,
        0,
        Want::Stops(ReduceErr::Apart { file: 0 }),
    ),
    Row(
        KEPT,
        &["from one", "absent"],
        1_000,
        0,
        Want::Stops(ReduceErr::Gap { file: 0, group: 1 }),
    ),
    Row(
        KEPT,
        &["two", "later from one"],
        1_000,
        0,
        Want::Stops(ReduceErr::Gap { file: 1, group: 1 }),
    ),
    Row(
        SET,
        &["users", "not five", "empty"],
        1_000,
        0,
        Want::Stops(ReduceErr::Gap { file: 1, group: 2 }),
    ),
    Row(
        SET,
        &["not five"],
        1_000,
        0,
        Want::Stops(ReduceErr::Apart { file: 0 }),
    ),
];

#[test]
fn the_first_problem_of_files_is_answered(rt: HostRuntime) -> Result<(), Fail> {
    check_cases(rt.alloc(), &STOPS)
}
