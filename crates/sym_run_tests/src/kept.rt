//! What a stretch keeps of a key's first records, and the same run with what it keeps explored.
ghost use Rattle.std.specs.Prelude.{◌≡◌, None};
ghost use Rattle.sym_check.specs.Checking.CheckedScripts.{checked_plan};
ghost use Rattle.sym_table.specs.Rows.{FitsChunk};
ghost use Rattle.sym_run.specs.Runs.{AreTight, GroupsFit};

use crate::setting::{given_differs, not_one, stretched};
use Log::{Sums, Turns};
use std::alloc::Global;
use std::test::Fail;
use sym_base::NoMemory;
use sym_check::Checked;
use sym_given::scripts::{SMALL_SUMS, TOGGLE};
use sym_given::{Case, check_cases, chunks_of, difference, passed};
use sym_plain::Groups;
use sym_run::{Run, RunGroups};
use sym_table::Chunk;

/// A log of one group.
#[derive(Clone, Copy)]
enum Log {
    /// Each record turns the group's label.
    Turns,
    /// Each record adds 1 to a sum. The 21st takes it out of its range.
    Sums,
}

/// So many records of a log, the limit, and how many a stretch keeps before it explores them; and
/// how many it keeps of these.
#[derive(Clone, Copy)]
struct Kept(Log, u32, u32, u32, usize);

const CASES: [Kept; 21] = [
    Kept(Turns, 1, 16, 0, 0),
    Kept(Turns, 1, 16, 1, 1),
    Kept(Turns, 2, 16, 1, 0),
    Kept(Turns, 31, 16, 32, 31),
    Kept(Turns, 32, 16, 32, 32),
    Kept(Turns, 33, 16, 32, 0),
    Kept(Turns, 32, 16, 31, 0),
    Kept(Turns, 32, 16, 33, 32),
    Kept(Turns, 100, 16, u32::MAX, 100),
    // The segment of two records is over the limit: all stay kept. That of one isn't.
    Kept(Turns, 10, 1, 2, 10),
    Kept(Turns, 33, 1, 32, 33),
    Kept(Turns, 10, 1, 1, 0),
    Kept(Sums, 1, 16, 0, 0),
    Kept(Sums, 20, 16, 32, 20),
    Kept(Sums, 21, 16, 32, 21),
    Kept(Sums, 31, 16, 32, 31),
    Kept(Sums, 32, 16, 32, 32),
    Kept(Sums, 33, 256, 32, 0),
    Kept(Sums, 22, 256, 20, 0),
    // Each record may be the one that takes the sum out: as many paths, over the limit.
    Kept(Sums, 33, 16, 32, 33),
    Kept(Sums, 60, 16, 64, 60),
];

/// What is seen of the first of so many groups.
#[derive(Clone, Copy, Debug, PartialEq, Eq)]
struct Seen {
    groups: usize,
    kept: usize,
    is_closed: bool,
    has_segments: bool,
}

fn seen_of(groups: &RunGroups) -> Option<Seen> {
    match groups.at(0) {
        Some((_key, chain)) => Some(Seen {
            groups: groups.len(),
            kept: chain.kept(),
            is_closed: chain.is_closed(),
            has_segments: !chain.segments().is_empty(),
        }),
        None => None,
    }
}

/// How the groups differ from one that keeps so many records. Segments cover some exactly where
/// none are kept.
fn kept_differs(
    alloc: Global,
    groups: &RunGroups,
    kept: usize,
) -> Result<Option<String>, NoMemory> {
    let wanted = Seen {
        groups: 1,
        kept,
        is_closed: kept == 0,
        has_segments: kept == 0,
    };
    difference(alloc, &seen_of(groups), &Some(wanted))
}

/// How the run's groups, from none on, differ from these.
fn gives_others(
    alloc: Global,
    checked: &Checked,
    run: Run,
    wanted: &Groups,
) -> Result<Option<String>, NoMemory>
    requires { GroupsFit (checked_plan checked.now) run.groups }
{
    let applied = run.apply(alloc, checked, Groups::new(alloc))?;
    given_differs(alloc, &applied, wanted)
}

/// How the run that has these groups, which keep nothing, differs in what it gives.
fn explored_differs(
    alloc: Global,
    checked: &Checked,
    explored: Run,
    wanted: &Groups,
) -> Result<Option<String>, NoMemory>
    requires { GroupsFit (checked_plan checked.now) explored.groups }
{
    let told = kept_differs(alloc, &explored.groups, 0)?;
    if told.is_some() {
        return Ok(told);
    }
    gives_others(alloc, checked, explored, wanted)
}

/// How the run, once it is closed, differs from one that keeps nothing and gives these groups.
fn closed_differs(
    alloc: Global,
    checked: &Checked,
    run: Run,
    limit: u32,
    wanted: &Groups,
) -> Result<Option<String>, NoMemory>
    requires fits { GroupsFit (checked_plan checked.now) run.groups }
    requires tight { run.bad ≡ None → AreTight (checked_plan checked.now) limit run.groups }
{
    if run.bad.is_some() {
        let bad = run.bad;
        return Ok(Some(format!(in alloc; "found {bad:?}, wanted no bad row")?));
    }
    let groups = run.groups.copy(alloc)?.closed(alloc, checked, limit)?;
    let explored = Run {
        lo: run.lo,
        hi: run.hi,
        groups,
        bad: None,
    };
    explored_differs(alloc, checked, explored, wanted)
}

impl Kept {
    fn log(&self, alloc: Global) -> Result<String, NoMemory> {
        let Kept(log, records, _limit, _most, _kept) = *self;
        let (head, row) = match log {
            Turns => ("x\n", "1\n"),
            Sums => ("user,x\n", "a,1\n"),
        };
        let mut text = String::new(alloc);
        text.push_str(head)?;
        'rows: for _place in 0..records {
            text.push_str(row)?;
        }
        Ok(text)
    }

    fn run_differs(
        &self,
        alloc: Global,
        checked: &Checked,
        run: &Run,
        wanted: &Groups,
    ) -> Result<Option<String>, NoMemory>
        requires { GroupsFit (checked_plan checked.now) run.now.groups }
    {
        let told = kept_differs(alloc, &run.groups, self.4)?;
        if told.is_some() {
            return Ok(told);
        }
        gives_others(alloc, checked, run.copy(alloc)?, wanted)
    }

    fn chunk_differs(
        &self,
        alloc: Global,
        checked: &Checked,
        chunk: &Chunk,
        wanted: &Groups,
    ) -> Result<Option<String>, NoMemory>
        requires { FitsChunk (checked_plan checked.now).fields chunk.now }
    {
        let Kept(_log, _records, limit, most, _kept) = *self;
        let run = stretched(alloc, checked, chunk, 0, limit, most)?;
        let told = self.run_differs(alloc, checked, &run, wanted)?;
        if told.is_some() {
            return Ok(told);
        }
        closed_differs(alloc, checked, run, limit, wanted)
    }
}

impl Case for Kept {
    fn script(&self) -> &str {
        match self.0 {
            Turns => TOGGLE,
            Sums => SMALL_SUMS,
        }
    }

    fn differs(&self, alloc: Global, checked: &Checked) -> Result<Option<String>, NoMemory> {
        let log = self.log(alloc)?;
        let wanted = passed(alloc, checked, log.as_str())?;
        let chunks = chunks_of(alloc, checked, log.as_str(), 1_024, 2)?;
        match chunks.as_slice() {
            [chunk] => self.chunk_differs(alloc, checked, chunk, &wanted),
            others => not_one(alloc, others),
        }
    }
}

#[test]
fn a_stretch_keeps_first_records_and_closing_explores_them(rt: HostRuntime) -> Result<(), Fail> {
    check_cases(rt.alloc(), &CASES)
}
