//! Runs that are applied by several threads, against the same runs applied by one.
ghost use Rattle.std.specs.Prelude.{IfOk, IfSome};
ghost use Rattle.sym_check.specs.Checking.CheckedScripts.{checked_plan};
ghost use Rattle.sym_run.specs.Applying.{AreValid};
ghost use Rattle.sym_run.specs.Runs.{GroupsFit};

use crate::setting::applied_differs;
use std::alloc::Global;
use std::sync::Wait;
use std::test::Fail;
use std::thread::Threads;
use sym_base::NoMemory;
use sym_check::Checked;
use sym_given::scripts::SMALL_SUMS;
use sym_given::{ThreadedCase, check_threaded_cases, chunks_of, difference, found_unless};
use sym_plain::Groups;
use sym_run::{Applied, Run, of_chunks};

const WORKERS: [u32; 5] = [1, 2, 3, 8, 64];

/// The rows of a log: from this user on, so many users with so many rows each, all users in turn;
/// and whether it ends with a row that is no record.
#[derive(Clone, Copy)]
struct Rows(u32, u32, u32, bool);

/// Two logs, whose runs are applied one after the other, and how many groups there are then; none
/// where the second one has a bad row.
#[derive(Clone, Copy)]
struct Logs(Rows, Rows, Option<usize>);

const LOGS: [Logs; 5] = [
    Logs(Rows(0, 1, 3, false), Rows(0, 1, 2, false), Some(1)),
    Logs(Rows(0, 600, 1, false), Rows(0, 600, 1, false), Some(600)),
    Logs(
        Rows(0, 600, 1, false),
        Rows(300, 700, 2, false),
        Some(1_000),
    ),
    Logs(
        Rows(0, 100, 1, false),
        Rows(50, 2_100, 1, false),
        Some(2_150),
    ),
    Logs(Rows(0, 600, 1, false), Rows(0, 600, 1, true), None),
];

/// A row of a user. What is added differs by user and time, and takes some groups out of their
/// range.
fn push_row(alloc: Global, log: &mut String, user: u32, time: u32) -> Result<(), NoMemory> {
    let x = i64::from(user % 29) - 4 + i64::from(time % 5);
    let line = format!(in alloc; "u{user},{x}\n")?;
    log.push_str(line.as_str())?;
    Ok(())
}

fn log_of(alloc: Global, rows: Rows) -> Result<String, NoMemory> {
    let Rows(first, users, times, bad) = rows;
    let mut log = String::new(alloc);
    log.push_str("user,x\n")?;
    'rows: for place in 0..users.saturating_mul(times) {
        let user = first.saturating_add(place % users.max(1));
        push_row(alloc, &mut log, user, place / users.max(1))?;
    }
    if bad {
        log.push_str("u0,none\n")?;
    }
    Ok(log)
}

/// The run of a log; `None` where it has no row.
fn run_of(alloc: Global, checked: &Checked, rows: Rows) -> Result<Option<Run>, NoMemory>
    ensures { IfOk result (λ run. IfSome run (λ r.
        GroupsFit (checked_plan checked.now) r.groups)) }
{
    let log = log_of(alloc, rows)?;
    let chunks = chunks_of(alloc, checked, log.as_str(), 1_000, 64)?;
    if chunks.is_empty() || chunks.len() > 64 {
        return Ok(None);
    }
    Ok(Some(of_chunks(alloc, checked, &chunks, 16)?))
}

/// How many groups there are.
fn count_of(applied: &Applied) -> Option<usize> {
    match applied {
        Applied::Done(groups) => Some(groups.len()),
        Applied::Bad(_) => None,
    }
}

/// How what a run gives by so many workers differs from what one thread makes of it.
fn differs_by<T: Threads + Sync>(
    rt: &T,
    alloc: Global,
    checked: &Checked,
    run: &Run,
    groups: &Groups,
    workers: u32,
) -> Result<Option<String>, NoMemory>
    requires fits { GroupsFit (checked_plan checked.now) run.now.groups }
    requires valid { AreValid (checked_plan checked.now) groups.now }
{
    let alone = run.copy(alloc)?.apply(alloc, checked, groups.copy(alloc)?)?;
    let beside = run
        .copy(alloc)?
        .apply_by(rt, alloc, checked, groups.copy(alloc)?, workers)?;
    applied_differs(alloc, &beside, &alone)
}

/// The first number of workers by which it differs, and how.
fn first_other<T: Threads + Sync>(
    rt: &T,
    alloc: Global,
    checked: &Checked,
    run: &Run,
    groups: &Groups,
) -> Result<Option<String>, NoMemory>
    requires fits { GroupsFit (checked_plan checked.now) run.now.groups }
    requires valid { AreValid (checked_plan checked.now) groups.now }
{
    'workers: for workers in WORKERS {
        if let Some(told) = differs_by(rt, alloc, checked, run, groups, workers)? {
            return Ok(Some(format!(in alloc; "by {workers} workers: {told}")?));
        }
    }
    Ok(None)
}

/// How the run of the second log, applied to these groups, differs by some number of workers, or in
/// the number of groups that it gives.
fn next_differs<T: Threads + Sync>(
    rt: &T,
    alloc: Global,
    checked: &Checked,
    next: Run,
    groups: Groups,
    count: Option<usize>,
) -> Result<Option<String>, NoMemory>
    requires fits { GroupsFit (checked_plan checked.now) next.groups }
    requires valid { AreValid (checked_plan checked.now) groups }
{
    let told = first_other(rt, alloc, checked, &next, &groups)?;
    if told.is_some() {
        return Ok(told);
    }
    let last = next.apply(alloc, checked, groups)?;
    difference(alloc, &count_of(&last), &count)
}

/// The same with the groups of the first log.
fn runs_differ<T: Threads + Sync>(
    rt: &T,
    alloc: Global,
    checked: &Checked,
    run: Run,
    next: Run,
    count: Option<usize>,
) -> Result<Option<String>, NoMemory>
    requires first { GroupsFit (checked_plan checked.now) run.groups }
    requires next { GroupsFit (checked_plan checked.now) next.groups }
{
    match run.apply(alloc, checked, Groups::new(alloc))? {
        Applied::Done(groups) => next_differs(rt, alloc, checked, next, groups, count),
        Applied::Bad(bad) => Ok(Some(format!(in alloc; "found {bad:?} in the first log")?)),
    }
}

impl ThreadedCase for Logs {
    fn script(&self) -> &str {
        SMALL_SUMS
    }

    fn differs<T: Threads + Wait + Sync>(
        &self,
        rt: &T,
        alloc: Global,
        checked: &Checked,
    ) -> Result<Option<String>, NoMemory> {
        let Logs(first, then, count) = *self;
        let run = run_of(alloc, checked, first)?;
        let next = run_of(alloc, checked, then)?;
        match (run, next) {
            (Some(run), Some(next)) => runs_differ(rt, alloc, checked, run, next, count),
            _ => found_unless(alloc, false, "found a log of no chunk or of more than 64"),
        }
    }
}

#[test]
fn any_workers_make_of_groups_what_one_thread_does(rt: HostRuntime) -> Result<(), Fail> {
    check_threaded_cases(&rt, rt.alloc(), &LOGS)
}
