//! Starts, and chunks that are replayed from them.
ghost use Rattle.std.specs.List.{All};
ghost use Rattle.sym_check.specs.Checking.CheckedScripts.{checked_plan};
ghost use Rattle.sym_table.specs.Rows.{FitsChunk};

use crate::logs::VISITS;
use crate::setting::round_of;
use crate::texts::{text_of, text_of_starts};
use std::alloc::Global;
use std::test::Fail;
use sym_base::NoMemory;
use sym_check::Checked;
use sym_given::scripts::{SHORT_SESSIONS, SMALL_SUMS};
use sym_given::{Case, bytes_differ, check_cases, difference, found_unless, told_by};
use sym_plain::Groups;
use sym_run::{Applied, of_chunk};
use sym_scan::{Replayed, Starts, TraceRows, replay};
use sym_table::{Chunk, Chunks};

/// A log of two chunks, the rows of a chunk, and then the starts of the second chunk, and its rows
/// from these and from no starts, all numbers being shown. Of a chunk with a row that is no record,
/// the number of the first.
#[derive(Drop)]
struct Second {
    script: &'static str,
    log: &'static str,
    rows: u32,
    starts: &'static str,
    replayed: Result<&'static str, u64>,
    alone: Result<&'static str, u64>,
}

/// The starts of the second chunk, where the first has no bad row.
fn starts_of(
    alloc: Global,
    checked: &Checked,
    first: &Chunk,
    second: &Chunk,
) -> Result<Option<Starts>, NoMemory>
    requires first { FitsChunk (checked_plan checked.now).fields first.now }
    requires second { FitsChunk (checked_plan checked.now).fields second.now }
{
    let run = of_chunk(alloc, checked, first, 0, 16)?;
    match run.apply(alloc, checked, Groups::new(alloc))? {
        Applied::Done(groups) => {
            let run = of_chunk(alloc, checked, second, 1, 16)?;
            Ok(Some(Starts::of(alloc, &run, &groups)?))
        }
        Applied::Bad(_) => Ok(None),
    }
}

fn rows_differ(
    alloc: Global,
    checked: &Checked,
    rows: &TraceRows,
    wanted: &str,
) -> Result<Option<String>, NoMemory> {
    let copied = rows.copy(alloc)?;
    let text = text_of(alloc, checked, copied.as_slice())?;
    match bytes_differ(alloc, text.as_bytes(), wanted.as_bytes())? {
        Some(told) => Ok(Some(told)),
        None => found_unless(alloc, copied == *rows, "found other rows, wanted a copy"),
    }
}

fn replay_differs(
    alloc: Global,
    checked: &Checked,
    replayed: &Replayed,
    wanted: Result<&'static str, u64>,
) -> Result<Option<String>, NoMemory> {
    match (replayed, wanted) {
        (Replayed::Rows(rows), Ok(wanted)) => rows_differ(alloc, checked, rows, wanted),
        (Replayed::Rows(_), Err(no)) => {
            Ok(Some(format!(in alloc; "found rows, wanted a bad row {no}")?))
        }
        (Replayed::Bad(bad), wanted) => difference(alloc, &Err(bad.no), &wanted),
    }
}

/// From where the rows of a chunk are replayed.
#[derive(Clone, Copy, Debug)]
enum Start {
    Starts,
    Nothing,
}

impl Second {
    fn rows_differ(
        &self,
        alloc: Global,
        checked: &Checked,
        chunk: &Chunk,
        starts: &Starts,
        start: Start,
    ) -> Result<Option<String>, NoMemory>
        requires { FitsChunk (checked_plan checked.now).fields chunk.now }
    {
        let replayed = replay(alloc, checked, chunk, 1, starts)?;
        let wanted = match start {
            Start::Starts => self.replayed,
            Start::Nothing => self.alone,
        };
        let told = replay_differs(alloc, checked, &replayed, wanted)?;
        told_by(alloc, &start, told)
    }

    fn replays_differ(
        &self,
        alloc: Global,
        checked: &Checked,
        chunk: &Chunk,
        starts: &Starts,
    ) -> Result<Option<String>, NoMemory>
        requires { FitsChunk (checked_plan checked.now).fields chunk.now }
    {
        let told = self.rows_differ(alloc, checked, chunk, starts, Start::Starts)?;
        if told.is_some() {
            return Ok(told);
        }
        let none = Starts::new(alloc);
        self.rows_differ(alloc, checked, chunk, &none, Start::Nothing)
    }

    fn starts_differ(
        &self,
        alloc: Global,
        checked: &Checked,
        chunk: &Chunk,
        starts: &Starts,
    ) -> Result<Option<String>, NoMemory>
        requires { FitsChunk (checked_plan checked.now).fields chunk.now }
    {
        let copied = starts.copy(alloc)?;
        let text = text_of_starts(alloc, checked, &copied)?;
        match bytes_differ(alloc, text.as_bytes(), self.starts.as_bytes())? {
            Some(told) => Ok(Some(told)),
            None => self.replays_differ(alloc, checked, chunk, &copied),
        }
    }

    fn chunks_differ(
        &self,
        alloc: Global,
        checked: &Checked,
        chunks: &Chunks,
    ) -> Result<Option<String>, NoMemory>
        requires { All (FitsChunk (checked_plan checked.now).fields) chunks.now }
    {
        let chunks = chunks.as_slice();
        if chunks.len() != 2 {
            return difference(alloc, &chunks.len(), &2);
        }
        match starts_of(alloc, checked, &chunks[0], &chunks[1])? {
            Some(starts) => self.starts_differ(alloc, checked, &chunks[1], &starts),
            None => found_unless(alloc, false, "found a bad row in the first chunk"),
        }
    }
}

impl Case for Second {
    fn script(&self) -> &str {
        self.script
    }

    fn differs(&self, alloc: Global, checked: &Checked) -> Result<Option<String>, NoMemory> {
        let chunks = round_of(alloc, checked, self.log, self.rows)?;
        self.chunks_differ(alloc, checked, &chunks)
    }
}

#[test]
fn a_chunk_begins_with_the_starts_of_its_own_keys(rt: HostRuntime) -> Result<(), Fail> {
    let cases = [
        Second {
            script: SMALL_SUMS,
            log: "user,x\na,1\nb,2\nc,3\nd,4\nc,1\ne,5\na,6\nc,7\n",
            rows: 4,
            starts: " c: 3 3\n a: 1 1\n",
            replayed: Ok("5 c: 4 4\n6 e: 5 5\n7 a: 7 7\n8 c: 11 11\n"),
            alone: Ok("5 c: 1 1\n6 e: 5 5\n7 a: 6 6\n8 c: 8 8\n"),
        },
        Second {
            script: SMALL_SUMS,
            log: "user,x\na,20\na,1\nb,1\nb,2\na,1\nb,3\n",
            rows: 3,
            starts: " b: 1 1\n a: over 0 at 2\n",
            replayed: Ok("4 b: 3 3\n5 a: over 0 at 2\n6 b: 6 6\n"),
            alone: Ok("4 b: 2 2\n5 a: 1 1\n6 b: 5 5\n"),
        },
        Second {
            script: SMALL_SUMS,
            log: "user,x\na,1\nb,2\nc,3\nd,4\n",
            rows: 2,
            starts: "",
            replayed: Ok("3 c: 3 3\n4 d: 4 4\n"),
            alone: Ok("3 c: 3 3\n4 d: 4 4\n"),
        },
        Second {
            script: SHORT_SESSIONS,
            log: VISITS,
            rows: 3,
            starts: " a: 1 1 2\n",
            replayed: Ok("4 b: 0 1 none\n5 a: 1 2 2\n"),
            alone: Ok("4 b: 0 1 none\n5 a: 1 1 0\n"),
        },
        Second {
            script: SMALL_SUMS,
            log: "user,x\na,1\nb,2\nc,3\na,z\nb\n",
            rows: 3,
            starts: "",
            replayed: Err(4),
            alone: Err(4),
        },
    ];
    check_cases(rt.alloc(), &cases)
}
