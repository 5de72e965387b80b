//! Whole logs, traced round by round.
ghost use Rattle.std.specs.Prelude.{◌≡◌, [], OnOk};
ghost use Rattle.sym_check.specs.Checking.CheckedScripts.{checked_plan};
ghost use Rattle.sym_table.specs.Rows.{FitsChunk, FitsHeader};
ghost use Rattle.std.specs.List.{All};
ghost use Rattle.sym_run.specs.Applying.{AreValid};

use crate::setting::next_round;
use std::alloc::Global;
use std::mem;
use std::thread::Threads;
use sym_base::NoMemory;
use sym_check::Checked;
use sym_given::opened;
use sym_plain::Groups;
use sym_scan::{Scanned, TraceRow, scan_round};
use sym_table::{Chunks, Cutter};

/// The most rounds of a log in these tests.
const ROUNDS: usize = 8;

/// How a log is traced.
#[derive(Clone, Copy, Debug)]
pub(crate) struct Way {
    pub(crate) chunk: u32,
    pub(crate) workers: u32,
    pub(crate) limit: u32,
    pub(crate) every: u64,
}

/// The rows of the rounds so far, the groups after them, and the number of the first row that is no
/// record.
#[derive(Drop)]
pub(crate) struct Traced {
    pub(crate) rows: Vec<TraceRow>,
    pub(crate) groups: Groups,
    pub(crate) bad: Option<u64>,
}

impl Traced {
    fn new(alloc: Global) -> Traced
        ensures { result.groups ≡ [] }
    {
        Traced {
            rows: Vec::new(alloc),
            groups: Groups::new(alloc),
            bad: None,
        }
    }
}

/// Takes a round. Where there is nothing that a test asks for, it is noted as a bad row 0.
fn take_round<T: Threads + Sync>(
    rt: &T,
    alloc: Global,
    checked: &Checked,
    chunks: &Chunks,
    way: Way,
    traced: &mut Traced,
) -> Result<(), NoMemory>
    requires fit { All (FitsChunk (checked_plan checked.now).fields) chunks.now }
    requires valid { AreValid (checked_plan checked.now) traced.old.groups }
    ensures valid { OnOk result (AreValid (checked_plan checked.now) traced.new.groups) }
{
    let groups = mem::replace(&mut traced.groups, Groups::new(alloc));
    if chunks.len() > 64 || way.workers < 1 || way.every < 1 {
        traced.bad = Some(0);
        return Ok(());
    }
    let Way {
        workers,
        limit,
        every,
        ..
    } = way;
    match scan_round(rt, alloc, checked, chunks, workers, limit, every, groups)? {
        Scanned::Done { rows, groups } => {
            traced.groups = groups;
            traced.rows.append(&mut rows.into_vec())?;
        }
        Scanned::Bad(bad) => traced.bad = Some(bad.no),
    }
    Ok(())
}

fn trace_by<T: Threads + Sync>(
    rt: &T,
    alloc: Global,
    checked: &Checked,
    cutter: Cutter<'_>,
    way: Way,
) -> Result<Traced, NoMemory>
    requires { FitsHeader (checked_plan checked.now).fields cutter.header }
{
    let mut cutter = cutter;
    let mut traced = Traced::new(alloc);
    'rounds: for _round in 0..ROUNDS {
        let chunks = next_round(alloc, checked, &mut cutter)?;
        if chunks.is_empty() || traced.bad.is_some() {
            break;
        }
        take_round(rt, alloc, checked, &chunks, way, &mut traced)?;
    }
    Ok(traced)
}

/// The trace of a log, round by round; `None` where the log has no header of the script.
pub(crate) fn trace_log<T: Threads + Sync>(
    rt: &T,
    alloc: Global,
    checked: &Checked,
    log: &str,
    way: Way,
) -> Result<Option<Traced>, NoMemory> {
    match opened(alloc, checked, log, way.chunk) {
        Some(cutter) => Ok(Some(trace_by(rt, alloc, checked, cutter, way)?)),
        None => Ok(None),
    }
}
