//! Runs of two parts of a log, written, read back, and taken one after the other.
ghost use Rattle.std.specs.Prelude.{IfOk, IfSome};
ghost use Rattle.std.specs.List.{All};
ghost use Rattle.sym_check.specs.Checking.CheckedScripts.{checked_plan};
ghost use Rattle.sym_run.specs.Applying.{AreValid};
ghost use Rattle.sym_table.specs.Rows.{FitsChunk};

use crate::scripts::{NAMES, NUMBERS, WORDS};
use std::alloc::Global;
use std::test::Fail;
use sym_base::NoMemory;
use sym_check::Checked;
use sym_file::{SavedErr, Taken, Totals, read_saved, write_saved};
use sym_given::scripts::{CHANGES, COUNTER, SHORT_SESSIONS, SMALL_SUMS, TOGGLE, VISITS};
use sym_given::{Case, check_cases, chunks_of, found_unless, groups_differ, passed};
use sym_plain::Groups;
use sym_run::{Saved, of_chunk};
use sym_table::Chunk;

/// What the records of a chunk do to each group.
fn part_of(alloc: Global, checked: &Checked, chunk: &Chunk, limit: u32) -> Result<Saved, NoMemory>
    requires { FitsChunk (checked_plan checked.now).fields chunk.now }
{
    let run = of_chunk(alloc, checked, chunk, 0, limit)?;
    Ok(Saved {
        first: chunk.first_no,
        next: chunk.first_no.saturating_add(chunk.rows.len() as u64),
        groups: run.groups.copy(alloc)?,
    })
}

/// The saved run, written and read back; `None` where it isn't read.
fn sent(alloc: Global, checked: &Checked, saved: &Saved) -> Result<Option<Saved>, NoMemory> {
    let bytes = write_saved(alloc, checked, saved)?;
    if bytes.len() > 1_000_000 {
        return Ok(None);
    }
    match read_saved(alloc, checked, &bytes) {
        Ok(saved) => Ok(Some(saved)),
        Err(SavedErr::OtherScript | SavedErr::Malformed) => Ok(None),
        Err(SavedErr::NoMemory) => Err(NoMemory),
    }
}

/// The totals after a chunk, whose run is written and read back; `None` where it isn't taken.
fn take_part(
    alloc: Global,
    checked: &Checked,
    totals: Totals,
    chunk: &Chunk,
    limit: u32,
) -> Result<Option<Totals>, NoMemory>
    requires fits { FitsChunk (checked_plan checked.now).fields chunk.now }
    requires valid { AreValid (checked_plan checked.now) totals }
    ensures { IfOk result (λ taken. IfSome taken (AreValid (checked_plan checked.now))) }
{
    let part = part_of(alloc, checked, chunk, limit)?;
    let Some(saved) = sent(alloc, checked, &part)? else {
        return Ok(None);
    };
    if !saved.is_lawful(checked) {
        return Ok(None);
    }
    match totals.take(alloc, checked, &saved)? {
        Taken::Done(more) => Ok(Some(more)),
        Taken::Gap { group: _group } => Ok(None),
    }
}

/// The totals after these chunks; `None` where one isn't taken.
fn totals_of(
    alloc: Global,
    checked: &Checked,
    chunks: &[Chunk],
    limit: u32,
) -> Result<Option<Totals>, NoMemory>
    requires { All (FitsChunk (checked_plan checked.now).fields) chunks.now }
{
    let mut totals = Totals::new(alloc);
    'chunks: for index in 0..chunks.len() {
        match take_part(alloc, checked, totals, &chunks[index], limit)? {
            Some(more) => totals = more,
            None => return Ok(None),
        }
    }
    Ok(Some(totals))
}

/// How the totals differ from the groups that are wanted, of which there is one at least.
fn totals_differ(
    alloc: Global,
    totals: &Option<Totals>,
    wanted: &Groups,
) -> Result<Option<String>, NoMemory> {
    match totals {
        Some(totals) if wanted.len() > 0 => groups_differ(alloc, totals.groups(), wanted),
        Some(_) => found_unless(alloc, false, "found no groups of the pass"),
        None => found_unless(alloc, false, "found a part that isn't read or isn't taken"),
    }
}

/// A script and a log, cut into parts of so many rows.
#[derive(Clone, Copy)]
struct Trip {
    script: &'static str,
    log: &'static str,
    rows: u32,
    limit: u32,
}

impl Case for Trip {
    fn script(&self) -> &str {
        self.script
    }

    fn differs(&self, alloc: Global, checked: &Checked) -> Result<Option<String>, NoMemory> {
        let wanted = passed(alloc, checked, self.log)?;
        let chunks = chunks_of(alloc, checked, self.log, self.rows, 64)?;
        let totals = totals_of(alloc, checked, &chunks, self.limit)?;
        totals_differ(alloc, &totals, &wanted)
    }
}

#[test]
fn parts_that_are_sent_come_to_the_groups_of_the_pass(rt: HostRuntime) -> Result<(), Fail> {
    let logs = [
        (SMALL_SUMS, CHANGES),
        (SHORT_SESSIONS, VISITS),
        (TOGGLE, NUMBERS),
        (COUNTER, NUMBERS),
        (WORDS, NAMES),
    ];
    'logs: for (script, log) in logs {
        let trip = Trip {
            script,
            log,
            rows: 1,
            limit: 16,
        };
        let cases = [
            trip,
            Trip { rows: 2, ..trip },
            Trip {
                rows: 5,
                limit: 1,
                ..trip
            },
            Trip {
                rows: 1_024,
                ..trip
            },
        ];
        check_cases(rt.alloc(), &cases)?;
    }
    Ok(())
}
