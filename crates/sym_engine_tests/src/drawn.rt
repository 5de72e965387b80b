//! Logs of records that are drawn by a fixed generator: runs of many sizes beside the sequential
//! pass.
use crate::agreement::{Wanted, runs_differ, sequence_of};
use crate::worked::{GUARDED, PURCHASES, SIX};
use std::alloc::Global;
use std::sync::Wait;
use std::test::Fail;
use std::thread::Threads;
use sym_base::NoMemory;
use sym_check::Checked;
use sym_engine::PassErr;
use sym_given::scripts::{BY_USER, COUNTER, SESSIONS, SHOWN, SUMS, TOGGLE};
use sym_given::{Draws, ThreadedCase, check_threaded_cases, difference, groups_differ};
use sym_plain::Groups;

/// The records of a log.
const RECORDS: usize = 300;

const USERS: [&str; 5] = ["ann", "bob", "cy", "dee", "eve"];

const ACTIONS: [&str; 3] = ["view", "cart", "buy"];

const AMOUNTS: [&str; 4] = ["", "0", "250", "1299"];

// Appends a record with the columns of all scripts.
fn push_record(alloc: Global, log: &mut String, ts: u32, drawn: u32) -> Result<(), NoMemory> {
    let user = USERS[drawn as usize % 5];
    let what = ACTIONS[drawn as usize / 5 % 3];
    let cents = AMOUNTS[drawn as usize / 15 % 4];
    let x = i64::from(drawn / 60 % 9) - 4;
    let line = format!(in alloc; "{ts},{user},{x},{user},{what},{cents}\n")?;
    log.push_str(line.as_str())?;
    Ok(())
}

// A log whose times grow by 0 to 60 from record to record.
fn log_of(alloc: Global, seed: u32) -> Result<String, NoMemory> {
    let mut draws = Draws::of(seed);
    let mut log = String::from_str(alloc, "ts,user,x,User ID,Action,Amount\n")?;
    let mut ts: u32 = 0;
    'records: for _number in 0..RECORDS {
        ts = ts.wrapping_add(draws.next() % 61);
        push_record(alloc, &mut log, ts, draws.next())?;
    }
    Ok(log)
}

/// Groups that are wanted.
#[derive(Drop)]
struct Given(Groups);

impl Wanted for Given {
    fn differs(
        &self,
        alloc: Global,
        _checked: &Checked,
        passed: &Result<Groups, PassErr>,
    ) -> Result<Option<String>, NoMemory> {
        match passed {
            Ok(groups) => groups_differ(alloc, groups, &self.0),
            Err(why) => Ok(Some(format!(in alloc; "found {why:?}, wanted groups")?)),
        }
    }
}

/// A script, the seed of a log, and how many groups it has.
struct Drawn(&'static str, u32, usize);

/// Scripts without a group line.
const ALONE: [Drawn; 4] = [
    Drawn(COUNTER, 1, 1),
    Drawn(TOGGLE, 2, 1),
    Drawn(SIX, 3, 1),
    Drawn(GUARDED, 4, 1),
];

/// Scripts whose states split.
const BY_STATE: [Drawn; 2] = [Drawn(SESSIONS, 5, 5), Drawn(PURCHASES, 6, 5)];

/// Scripts that count, add and show.
const IN_LINE: [Drawn; 3] = [Drawn(BY_USER, 7, 5), Drawn(SUMS, 8, 5), Drawn(SHOWN, 9, 5)];

// What the runs over the log give in place of these groups, of which there are so many.
fn given_differs<T: Threads + Wait + Sync>(
    rt: &T,
    alloc: Global,
    checked: &Checked,
    log: &str,
    wanted: Option<Groups>,
    count: usize,
) -> Result<Option<String>, NoMemory> {
    match wanted {
        Some(groups) if groups.len() == count => {
            runs_differ(rt, alloc, checked, log, &Given(groups))
        }
        Some(groups) => difference(alloc, &groups.len(), &count),
        None => Ok(Some(format!(in alloc; "found no groups, wanted {count}")?)),
    }
}

fn drawn_differs<T: Threads + Wait + Sync>(
    rt: &T,
    alloc: Global,
    checked: &Checked,
    log: &str,
    count: usize,
) -> Result<Option<String>, NoMemory> {
    let wanted = sequence_of(rt, alloc, checked, log)?;
    given_differs(rt, alloc, checked, log, wanted, count)
}

impl ThreadedCase for Drawn {
    fn script(&self) -> &str {
        self.0
    }

    fn differs<T: Threads + Wait + Sync>(
        &self,
        rt: &T,
        alloc: Global,
        checked: &Checked,
    ) -> Result<Option<String>, NoMemory> {
        let log = log_of(alloc, self.1)?;
        drawn_differs(rt, alloc, checked, log.as_str(), self.2)
    }
}

#[test]
fn runs_agree_on_one_group(rt: HostRuntime) -> Result<(), Fail> {
    check_threaded_cases(&rt, rt.alloc(), &ALONE)
}

#[test]
fn runs_agree_where_states_split(rt: HostRuntime) -> Result<(), Fail> {
    check_threaded_cases(&rt, rt.alloc(), &BY_STATE)
}

#[test]
fn runs_agree_on_counts_sums_and_reports(rt: HostRuntime) -> Result<(), Fail> {
    check_threaded_cases(&rt, rt.alloc(), &IN_LINE)
}
