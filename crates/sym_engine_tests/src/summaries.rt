//! Files that are summarised by parts.
ghost use Rattle.std.specs.Prelude.{IfOk, IfSome};
ghost use Rattle.sym_check.specs.Checking.CheckedScripts.{checked_plan};
ghost use Rattle.sym_run.specs.Applying.{AreValid};

use crate::passes::{SCRIPT, Standing, are_groups, names, store};
use Standing::{Is, Left};
use std::alloc::Global;
use std::mem;
use std::sync::Wait;
use std::test::Fail;
use std::thread::Threads;
use sym_base::{MemStore, NoMemory};
use sym_check::Checked;
use sym_engine::{CHUNK_DEFAULT, Free, LIMIT_MAX, OpenGate, Options, PassErr, summarise};
use sym_given::{ThreadedCase, check_threaded_cases, difference, groups_text};
use sym_plain::Groups;
use sym_run::{Applied, Run, RunGroups, Saved};
use sym_table::{Bad, BadCause, HeadFault};

/// The rows of a chunk, the path limit and the workers. What a saved run makes of groups doesn't
/// depend on them.
#[derive(Clone, Copy, Debug)]
struct How(u32, u32, u32);

const HOWS: [How; 4] = [
    How(1, 16, 4),
    How(2, 1, 1),
    How(CHUNK_DEFAULT, 16, 2),
    How(1, LIMIT_MAX, 1),
];

/// The files of two parts, the number after the last record of each, and the groups after both.
struct Parts(
    &'static [&'static str],
    &'static [&'static str],
    u64,
    u64,
    &'static [(&'static str, Standing)],
);

const PARTS: [Parts; 7] = [
    Parts(&["ab"], &["ba", "ab"], 3, 7, &[("a", Is(3)), ("b", Is(5))]),
    Parts(
        &["ba"],
        &["none", "ab"],
        3,
        5,
        &[("b", Is(3)), ("a", Is(2))],
    ),
    Parts(&["ab", "ab"], &["ab"], 5, 7, &[("a", Is(3)), ("b", Is(6))]),
    Parts(&["none"], &["head"], 1, 1, &[]),
    Parts(
        &["ab"],
        &["nine", "ab"],
        3,
        7,
        &[("a", Left(3)), ("b", Is(4)), ("c", Left(4))],
    ),
    Parts(
        &["ab", "nine"],
        &["ab"],
        5,
        7,
        &[("a", Left(3)), ("b", Is(4)), ("c", Left(4))],
    ),
    Parts(
        &["ab", "ab", "ab"],
        &["ab", "ab"],
        7,
        11,
        &[("a", Is(5)), ("b", Left(10))],
    ),
];

// The saved run of the files of these names, of at most 16 bytes each, or why there is none; `None`
// where the numbers aren't in their ranges.
fn summary<T: Threads + Wait + Sync>(
    rt: &T,
    alloc: Global,
    checked: &Checked,
    names: &[String],
    first: u64,
    how: How,
) -> Result<Option<Result<Saved, PassErr>>, NoMemory> {
    let How(chunk, limit, workers) = how;
    if names.len() > 3 || first < 1 || first > 1_000 || chunk < 1 || chunk > CHUNK_DEFAULT {
        return Ok(None);
    }
    if limit < 1 || limit > LIMIT_MAX || workers < 1 || workers > 4 {
        return Ok(None);
    }
    let options = Options {
        chunk,
        limit,
        workers,
        max_bytes: 16,
    };
    let mut files = store(alloc, 0)?;
    let gate = OpenGate { hold: Free };
    Ok(Some(summarise(
        rt, alloc, checked, &mut files, names, &options, first, &gate,
    )))
}

// The groups after the records of a saved run; `None` where it isn't lawful, or has other numbers.
fn led(
    alloc: Global,
    checked: &Checked,
    mut saved: Saved,
    first: u64,
    next: u64,
    groups: Groups,
) -> Result<Option<Groups>, NoMemory>
    requires { AreValid (checked_plan checked.now) groups }
    ensures { IfOk result (λ led. IfSome led (AreValid (checked_plan checked.now))) }
{
    if !saved.is_lawful(checked) {
        return Ok(None);
    }
    if saved.first != first || saved.next != next {
        return Ok(None);
    }
    let run = Run {
        lo: 0,
        hi: 1,
        groups: mem::replace(&mut saved.groups, RunGroups::new(alloc)),
        bad: None,
    };
    match run.apply(alloc, checked, groups)? {
        Applied::Done(groups) => Ok(Some(groups)),
        Applied::Bad(_) => Ok(None),
    }
}

// The groups after the files of these names, where their records have these numbers.
fn after_files<T: Threads + Wait + Sync>(
    rt: &T,
    alloc: Global,
    checked: &Checked,
    files: &[&'static str],
    first: u64,
    next: u64,
    how: How,
    groups: Groups,
) -> Result<Option<Groups>, NoMemory>
    requires { AreValid (checked_plan checked.now) groups }
    ensures { IfOk result (λ led. IfSome led (AreValid (checked_plan checked.now))) }
{
    let names = names(alloc, files)?;
    match summary(rt, alloc, checked, names.as_slice(), first, how)? {
        Some(Ok(saved)) => led(alloc, checked, saved, first, next, groups),
        _ => Ok(None),
    }
}

// The groups after both parts, each of which is summarised apart.
fn after_parts<T: Threads + Wait + Sync>(
    rt: &T,
    alloc: Global,
    checked: &Checked,
    parts: &Parts,
    how: How,
) -> Result<Option<Groups>, NoMemory> {
    let Parts(earlier, later, middle, end, _) = parts;
    let none = Groups::new(alloc);
    match after_files(rt, alloc, checked, earlier, 1, *middle, how, none)? {
        Some(groups) => after_files(rt, alloc, checked, later, *middle, *end, how, groups),
        None => Ok(None),
    }
}

fn parts_differ<T: Threads + Wait + Sync>(
    rt: &T,
    alloc: Global,
    checked: &Checked,
    parts: &Parts,
    how: How,
) -> Result<Option<String>, NoMemory> {
    let wanted = parts.4;
    let found = match after_parts(rt, alloc, checked, parts, how)? {
        Some(groups) if are_groups(alloc, checked, &groups, wanted)? => return Ok(None),
        Some(groups) => groups_text(alloc, &groups)?,
        None => String::from_str(alloc, "no groups")?,
    };
    Ok(Some(format!(in alloc; "{how:?}: found {found}, wanted {wanted:?}")?))
}

impl ThreadedCase for Parts {
    fn script(&self) -> &str {
        SCRIPT
    }

    fn differs<T: Threads + Wait + Sync>(
        &self,
        rt: &T,
        alloc: Global,
        checked: &Checked,
    ) -> Result<Option<String>, NoMemory> {
        'hows: for how in HOWS {
            let told = parts_differ(rt, alloc, checked, self, how)?;
            if told.is_some() {
                return Ok(told);
            }
        }
        Ok(None)
    }
}

#[test]
fn parts_that_are_summarised_apart_come_to_the_groups_of_all(rt: HostRuntime) -> Result<(), Fail> {
    check_threaded_cases(&rt, rt.alloc(), &PARTS)
}

/// The files of a part, the number of its first record, and why it isn't summarised.
struct Stop(&'static [&'static str], u64, PassErr);

const STOPS: [Stop; 5] = [
    Stop(
        &["ab", "bad", "no n"],
        5,
        PassErr::Bad {
            file: 1,
            bad: Bad {
                no: 8,
                cause: BadCause::Number(1),
            },
        },
    ),
    Stop(
        &["bad", "two u", "absent"],
        100,
        PassErr::Bad {
            file: 0,
            bad: Bad {
                no: 101,
                cause: BadCause::Number(1),
            },
        },
    ),
    Stop(
        &["ab", "no n", "bad"],
        5,
        PassErr::Head {
            file: 1,
            fault: HeadFault::NoField { which: 1 },
        },
    ),
    Stop(&["ab", "two u", "bad"], 1, PassErr::TooLarge { file: 1 }),
    Stop(&["none", "absent"], 9, PassErr::Read { file: 1 }),
];

impl ThreadedCase for Stop {
    fn script(&self) -> &str {
        SCRIPT
    }

    fn differs<T: Threads + Wait + Sync>(
        &self,
        rt: &T,
        alloc: Global,
        checked: &Checked,
    ) -> Result<Option<String>, NoMemory> {
        let Stop(files, first, wanted) = self;
        let names = names(alloc, files)?;
        match summary(rt, alloc, checked, names.as_slice(), *first, HOWS[0])? {
            Some(Err(why)) => difference(alloc, &why, wanted),
            Some(Ok(_)) | None => Ok(Some(format!(in alloc; "found none, wanted {wanted:?}")?)),
        }
    }
}

#[test]
fn a_part_is_refused_at_its_first_problem(rt: HostRuntime) -> Result<(), Fail> {
    check_threaded_cases(&rt, rt.alloc(), &STOPS)
}
