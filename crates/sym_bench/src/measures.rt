//! Passes that are measured.
ghost use Rattle.std.specs.Prelude.{◌≤◌, length};
ghost use Rattle.sym_base.specs.declared.limits.TheConstants as limits;
ghost use Rattle.sym_check.specs.Checking.CheckedScripts.{checked_plan};
ghost use Rattle.sym_table.specs.Rows.{FitsHeader};

use crate::passes::{cut_rows, fold_rows, run_rows};
use crate::rounds::CHUNK;
use crate::shown::shown;
use crate::stop::Stop;
use std::alloc::{AllocError, Global};
use std::time::{CpuClock, Duration};
use sym_check::Checked;
use sym_plain::Groups;
use sym_table::Cutter;

/// What is done with a log.
#[derive(Clone, Copy)]
pub(crate) enum Way {
    /// It is made or read, and no more.
    Log,
    /// Its rows are cut.
    Rows,
    /// Its records are folded.
    Fold,
    /// The runs of its rounds are made, chunk after chunk, and applied.
    Runs,
    /// The runs of its chunks are made, joined to those of its rounds, and applied.
    Joins,
}

/// What was found in a line, and the processor time.
#[derive(Drop)]
pub(crate) struct Finding {
    pub(crate) text: String,
    pub(crate) time: Duration,
}

/// How many groups there are, and the first and the last one's outcome.
fn line_of(alloc: Global, groups: &Groups) -> Result<String, AllocError> {
    let mut text = String::new(alloc);
    let count = groups.len();
    write!(text, "{count} groups")?;
    if let Some((_, outcome)) = groups.at(0) {
        let first = shown(alloc, outcome)?;
        write!(text, "; first {first}")?;
    }
    if let Some((_, outcome)) = groups.at(count.saturating_sub(1)) {
        let last = shown(alloc, outcome)?;
        write!(text, "; last {last}")?;
    }
    Ok(text)
}

/// Goes over the rows that are left in one of the ways.
fn gone_over(
    alloc: Global,
    checked: &Checked,
    cutter: &mut Cutter<'_>,
    way: Way,
    limit: u32,
    most: u32,
) -> Result<String, Stop>
    requires { FitsHeader (checked_plan checked.now).fields cutter.old.header }
{
    match way {
        Way::Log => Ok(String::new(alloc)),
        Way::Rows => {
            let chunks = cut_rows(alloc, cutter)?;
            Ok(format!(in alloc; "{chunks} chunks")?)
        }
        Way::Fold => Ok(line_of(alloc, &fold_rows(alloc, checked, cutter)?)?),
        Way::Runs => Ok(line_of(
            alloc,
            &run_rows(alloc, checked, cutter, limit, most, false)?,
        )?),
        Way::Joins => Ok(line_of(alloc, &run_rows(alloc, checked, cutter, limit, most, true)?)?),
    }
}

/// Goes over a log in rounds of at most so many chunks.
pub(crate) fn measured<R: CpuClock>(
    rt: &R,
    alloc: Global,
    checked: &Checked,
    log: &[u8],
    way: Way,
    limit: u32,
    most: u32,
) -> Result<Finding, Stop>
    requires { length log.now ≤ limits.FILE_MAX }
{
    let start = rt.process_cpu_time()?;
    let Ok(opened) = Cutter::open(alloc, checked, log, 1, CHUNK) else {
        return Err(Stop::Input);
    };
    let mut cutter = opened;
    let text = gone_over(alloc, checked, &mut cutter, way, limit, most)?;
    let end = rt.process_cpu_time()?;
    Ok(Finding {
        text,
        time: end.saturating_sub(start),
    })
}
