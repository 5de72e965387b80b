//! Rounds by several workers, beside the same records folded one by one.
ghost use Rattle.std.specs.Prelude.{◌≤◌, IfOk};
ghost use Rattle.std.specs.List.{All};
ghost use Rattle.sym_check.specs.Checking.CheckedScripts.{checked_plan};
ghost use Rattle.sym_shuffle.specs.Begun.{AreValid};
ghost use Rattle.sym_table.specs.Rows.{FitsChunk};

use crate::alone::text_alone;
use crate::logs::Log;
use crate::noted::Noted;
use crate::texts::{text_of_bad, text_of_groups};
use std::alloc::Global;
use std::sync::Wait;
use std::thread::Threads;
use sym_base::NoMemory;
use sym_check::Checked;
use sym_given::{ThreadedCase, chunks_of, told_by};
use sym_plain::Groups;
use sym_shuffle::{Free, folded, shuffled};
use sym_table::{Bad, Chunk};

/// The numbers of workers by which small logs are tried.
const WORKERS: [u32; 5] = [1, 2, 3, 4, 64];

/// The most chunks of a log.
const CHUNKS: usize = 200;

/// A script, a log whose groups are there before, a log, the rows of a chunk, and the text of what
/// is wanted; `None`: what folding record by record gives.
#[derive(Clone, Copy)]
pub(crate) struct Case(
    pub(crate) &'static str,
    pub(crate) Log,
    pub(crate) Log,
    pub(crate) u32,
    pub(crate) Option<&'static str>,
);

// How records are folded.
#[derive(Clone, Copy, Debug)]
enum Way {
    RecordByRecord,
    OnOneThread,
    Shuffled(u32),
}

// What is said of a text that isn't the one that is wanted: the first lines that differ.
fn lines_differ(alloc: Global, found: &str, wanted: &str) -> Result<Option<String>, NoMemory> {
    if found == wanted {
        return Ok(None);
    }
    let mut wanted_lines = wanted.lines();
    'lines: for line in found.lines() {
        let other = wanted_lines.next().unwrap_or("no more");
        if line != other {
            return Ok(Some(format!(in alloc; "found '{line}', wanted '{other}'")?));
        }
    }
    let other = wanted_lines.next().unwrap_or("no more");
    Ok(Some(format!(in alloc; "found no more, wanted '{other}'")?))
}

// What is said of claims of chunks. A round with a bad row may lack some.
fn claims(alloc: Global, noted: &Noted, may_lack: bool) -> Result<Option<String>, NoMemory> {
    if noted.is_strange() {
        let said = String::from_str(alloc, "found a chunk or a worker that there isn't")?;
        return Ok(Some(said));
    }
    match noted.first_wrong(may_lack) {
        Some((chunk, times)) => Ok(Some(format!(in alloc;
            "found {times} claims of chunk {chunk}, wanted 1"
        )?)),
        None => Ok(None),
    }
}

// What is said of a round of which a line of its text differs, or whose chunks aren't claimed as
// they have to be.
fn said_of(
    alloc: Global,
    led: &Result<Groups, Bad>,
    noted: &Noted,
    wanted: &str,
) -> Result<Option<String>, NoMemory> {
    let found = match led {
        Ok(groups) => text_of_groups(alloc, groups)?,
        Err(bad) => text_of_bad(alloc, bad)?,
    };
    match lines_differ(alloc, found.as_str(), wanted)? {
        Some(said) => Ok(Some(said)),
        None => claims(alloc, noted, led.is_err()),
    }
}

// What is wrong with a round by so many workers.
fn wrong_by<T: Threads + Sync>(
    rt: &T,
    alloc: Global,
    checked: &Checked,
    chunks: &[Chunk],
    before: Groups,
    wanted: &str,
    workers: u32,
) -> Result<Option<String>, NoMemory>
    requires fit { All (FitsChunk (checked_plan checked.now).fields) chunks.now }
    requires valid { AreValid (checked_plan checked.now) before }
    requires some { 1 ≤ workers }
{
    let noted = Noted::new(alloc, workers, chunks.len())?;
    let led = shuffled(rt, alloc, checked, chunks, before, workers, &noted)?;
    let said = said_of(alloc, &led, &noted, wanted)?;
    told_by(alloc, &Way::Shuffled(workers), said)
}

// What is wrong with a round on one thread.
fn wrong_alone(
    alloc: Global,
    checked: &Checked,
    chunks: &[Chunk],
    before: Groups,
    wanted: &str,
) -> Result<Option<String>, NoMemory>
    requires fit { All (FitsChunk (checked_plan checked.now).fields) chunks.now }
    requires valid { AreValid (checked_plan checked.now) before }
{
    let noted = Noted::new(alloc, 1, chunks.len())?;
    let led = folded(alloc, checked, chunks, before, &noted)?;
    let said = said_of(alloc, &led, &noted, wanted)?;
    told_by(alloc, &Way::OnOneThread, said)
}

// What is wrong with a round on one thread, or by one of these numbers of workers.
fn wrong_round<T: Threads + Sync>(
    rt: &T,
    alloc: Global,
    checked: &Checked,
    chunks: &[Chunk],
    before: &Groups,
    wanted: &str,
    tried: &[u32],
) -> Result<Option<String>, NoMemory>
    requires fit { All (FitsChunk (checked_plan checked.now).fields) chunks.now }
    requires valid { AreValid (checked_plan checked.now) before.now }
{
    let said = wrong_alone(alloc, checked, chunks, before.copy(alloc)?, wanted)?;
    if said.is_some() {
        return Ok(said);
    }
    'workers: for workers in tried {
        let before = before.copy(alloc)?;
        if *workers < 1 {
            return Ok(None);
        }
        let said = wrong_by(rt, alloc, checked, chunks, before, wanted, *workers)?;
        if said.is_some() {
            return Ok(said);
        }
    }
    Ok(None)
}

// The groups of a log; none where a row is no record.
fn groups_of(alloc: Global, checked: &Checked, log: &str) -> Result<Groups, NoMemory>
    ensures { IfOk result (AreValid (checked_plan checked.now)) }
{
    let chunks = chunks_of(alloc, checked, log, 1_024, CHUNKS)?;
    match folded(alloc, checked, chunks.as_slice(), Groups::new(alloc), &Free)? {
        Ok(groups) => Ok(groups),
        Err(_bad) => Ok(Groups::new(alloc)),
    }
}

// What is wrong with a log under its script.
fn wrong_log<T: Threads + Sync>(
    rt: &T,
    alloc: Global,
    checked: &Checked,
    case: &Case,
    tried: &[u32],
) -> Result<Option<String>, NoMemory> {
    let Case(_script, before, log, rows, wanted) = case;
    let before = groups_of(alloc, checked, before.text(alloc)?.as_str())?;
    let log = log.text(alloc)?;
    let alone = text_alone(alloc, checked, log.as_str(), before.copy(alloc)?)?;
    if let Some(wanted) = wanted {
        let said = lines_differ(alloc, alone.as_str(), wanted)?;
        if said.is_some() {
            return told_by(alloc, &Way::RecordByRecord, said);
        }
    }
    let chunks = chunks_of(alloc, checked, log.as_str(), *rows, CHUNKS)?;
    wrong_round(
        rt,
        alloc,
        checked,
        chunks.as_slice(),
        &before,
        alone.as_str(),
        tried,
    )
}

impl ThreadedCase for Case {
    fn script(&self) -> &str {
        self.0
    }

    fn differs<T: Threads + Wait + Sync>(
        &self,
        rt: &T,
        alloc: Global,
        checked: &Checked,
    ) -> Result<Option<String>, NoMemory> {
        wrong_log(rt, alloc, checked, self, &WORKERS)
    }
}

/// A case that is tried by 64 workers alone.
#[derive(Clone, Copy)]
pub(crate) struct ByMany(pub(crate) Case);

impl ThreadedCase for ByMany {
    fn script(&self) -> &str {
        self.0.0
    }

    fn differs<T: Threads + Wait + Sync>(
        &self,
        rt: &T,
        alloc: Global,
        checked: &Checked,
    ) -> Result<Option<String>, NoMemory> {
        wrong_log(rt, alloc, checked, &self.0, &[64])
    }
}
