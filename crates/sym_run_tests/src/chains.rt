//! The chains of runs: their segments by the limit, and copies.
ghost use Rattle.std.specs.Prelude.{◌↔◌};
ghost use Rattle.std.specs.Bool.{IsTrue};
ghost use Rattle.sym_check.specs.Checking.CheckedScripts.{checked_plan};
ghost use Rattle.sym_path.specs.Fitting.{SegmentFits};
ghost use Rattle.sym_table.specs.Rows.{FitsChunk};

use crate::logs::{ASKED, MAXES, NOTES, RESETS};
use crate::setting::{applied_differs, not_one};
use std::alloc::Global;
use std::test::Fail;
use sym_base::NoMemory;
use sym_check::Checked;
use sym_given::scripts::{SHORT_SESSIONS, TOGGLE};
use sym_given::{Case, check_cases, chunks_of, difference, found_unless};
use sym_path::{Segment, pairs};
use sym_plain::Groups;
use sym_run::{Applied, Chain, Run, RunGroups, Saved, of_chunk};
use sym_table::Chunk;

/// How many paths each segment has.
pub(crate) fn paths_of(alloc: Global, segments: &[Segment]) -> Result<Vec<usize>, NoMemory> {
    let mut paths = Vec::new(alloc);
    'segments: for segment in segments {
        paths.push(segment.paths().len())?;
    }
    Ok(paths)
}

/// The chain of the only group of a chunk.
#[derive(Drop)]
struct OneChain {
    script: &'static str,
    log: &'static str,
    limit: u32,
    /// How many paths each of its segments has.
    paths: &'static [usize],
    /// How many pairs its first two segments have, if there are two.
    pairs: Option<u64>,
}

/// Whether each of the segment's paths fits the script.
pub(crate) fn fits(checked: &Checked, segment: &Segment) -> bool
    ensures { IsTrue result ↔ SegmentFits (checked_plan checked.now) segment.now }
{
    segment.paths().iter().all(|path| path.fits(checked))
}

/// The pairs of two segments that fit the script and have few paths.
fn pairs_of(checked: &Checked, first: &Segment, second: &Segment) -> Option<u64> {
    if first.paths().len() > 1_024 || second.paths().len() > 1_024 {
        return None;
    }
    if fits(checked, first) && fits(checked, second) {
        Some(pairs(checked, first, second))
    } else {
        None
    }
}

/// The pairs of the first two segments, if there are two.
fn first_pairs(checked: &Checked, segments: &[Segment]) -> Option<u64> {
    match segments {
        [first, second, ..] => pairs_of(checked, first, second),
        _ => None,
    }
}

/// How the segments of a chain differ from those that are wanted.
fn segments_differ(
    alloc: Global,
    checked: &Checked,
    chain: &Chain,
    case: &OneChain,
) -> Result<Option<String>, NoMemory> {
    let paths = paths_of(alloc, chain.segments())?;
    let found = (paths.as_slice(), first_pairs(checked, chain.segments()));
    difference(alloc, &found, &(case.paths, case.pairs))
}

/// How the run differs from one that has the one chain.
fn chain_differs(
    alloc: Global,
    checked: &Checked,
    run: &Run,
    case: &OneChain,
) -> Result<Option<String>, NoMemory> {
    match run.groups.at(0) {
        Some((_key, chain)) if run.groups.len() == 1 && run.bad.is_none() => {
            segments_differ(alloc, checked, chain, case)
        }
        _ => {
            let (groups, bad) = (run.groups.len(), run.bad);
            Ok(Some(format!(in alloc; "found {groups} groups and {bad:?}, wanted one")?))
        }
    }
}

fn same_chain(left: &Chain, right: &Chain) -> bool {
    left.kept() == right.kept() && left.segments() == right.segments()
}

fn same_chains(left: &RunGroups, right: &RunGroups) -> bool {
    match (left.at(0), right.at(0)) {
        (Some((key, chain)), Some((other, copied))) => key == other && same_chain(chain, copied),
        _ => false,
    }
}

fn is_chain_copied(alloc: Global, groups: &RunGroups) -> Result<bool, NoMemory> {
    match groups.at(0) {
        Some((_key, chain)) => Ok(same_chain(&chain.copy(alloc)?, chain)),
        None => Ok(false),
    }
}

/// How a copy of a saved run of these groups differs from it.
fn saved_copy_differs(alloc: Global, groups: RunGroups) -> Result<Option<String>, NoMemory> {
    let saved = Saved {
        first: 5,
        next: 9,
        groups,
    };
    let copied = saved.copy(alloc)?;
    let told = difference(alloc, &(copied.first, copied.next), &(5, 9))?;
    if told.is_some() {
        return Ok(told);
    }
    let same = same_chains(&copied.groups, &saved.groups);
    found_unless(alloc, same, "found another saved run, wanted a copy")
}

/// How copies of the run, of its chain and of its groups as a saved run differ from these.
fn copies_differ(alloc: Global, run: &Run) -> Result<Option<String>, NoMemory> {
    let same = same_chains(&run.copy(alloc)?.groups, &run.groups);
    let told = found_unless(alloc, same, "found another run, wanted a copy")?;
    if told.is_some() {
        return Ok(told);
    }
    let same = is_chain_copied(alloc, &run.groups)?;
    let told = found_unless(alloc, same, "found another chain, wanted a copy")?;
    if told.is_some() {
        return Ok(told);
    }
    saved_copy_differs(alloc, run.groups.copy(alloc)?)
}

fn run_differs(
    alloc: Global,
    checked: &Checked,
    run: &Run,
    case: &OneChain,
) -> Result<Option<String>, NoMemory> {
    let told = chain_differs(alloc, checked, run, case)?;
    if told.is_some() {
        return Ok(told);
    }
    copies_differ(alloc, run)
}

fn applied_copy_differs(alloc: Global, applied: &Applied) -> Result<Option<String>, NoMemory> {
    applied_differs(alloc, &applied.copy(alloc)?, applied)
}

fn chunk_differs(
    alloc: Global,
    checked: &Checked,
    chunk: &Chunk,
    case: &OneChain,
) -> Result<Option<String>, NoMemory>
    requires { FitsChunk (checked_plan checked.now).fields chunk.now }
{
    let run = of_chunk(alloc, checked, chunk, 0, case.limit)?;
    let told = run_differs(alloc, checked, &run, case)?;
    if told.is_some() {
        return Ok(told);
    }
    let applied = run.apply(alloc, checked, Groups::new(alloc))?;
    applied_copy_differs(alloc, &applied)
}

impl Case for OneChain {
    fn script(&self) -> &str {
        self.script
    }

    fn differs(&self, alloc: Global, checked: &Checked) -> Result<Option<String>, NoMemory> {
        let chunks = chunks_of(alloc, checked, self.log, 1_024, 2)?;
        match chunks.as_slice() {
            [chunk] => chunk_differs(alloc, checked, chunk, self),
            others => not_one(alloc, others),
        }
    }
}

#[test]
fn segments_stay_apart_over_the_limit(rt: HostRuntime) -> Result<(), Fail> {
    let toggles = "x\n1\n1\n1\n";
    let visits = "ts,user\n60,a\n61,a\n";
    let cases = [
        OneChain {
            script: TOGGLE,
            log: toggles,
            limit: 1,
            paths: &[2, 2, 2],
            pairs: Some(2),
        },
        OneChain {
            script: TOGGLE,
            log: toggles,
            limit: 2,
            paths: &[2],
            pairs: None,
        },
        OneChain {
            script: SHORT_SESSIONS,
            log: visits,
            limit: 3,
            paths: &[3, 3],
            pairs: Some(4),
        },
        OneChain {
            script: SHORT_SESSIONS,
            log: visits,
            limit: 4,
            paths: &[4],
            pairs: None,
        },
    ];
    check_cases(rt.alloc(), &cases)
}

// The first record of a toggle has two paths, and the one after it that makes the group idle joins
// them: its extension has one path, though it and the first record's segment have two pairs.
#[test]
fn a_record_that_fits_is_in_the_last_segment(rt: HostRuntime) -> Result<(), Fail> {
    let notes = "x\n1\n1\n1\n";
    let resets = "x\n1\n0\n1\n";
    let cases = [
        OneChain {
            script: NOTES,
            log: notes,
            limit: 1,
            paths: &[1],
            pairs: None,
        },
        OneChain {
            script: NOTES,
            log: notes,
            limit: 0,
            paths: &[1, 1, 1],
            pairs: Some(1),
        },
        OneChain {
            script: RESETS,
            log: resets,
            limit: 1,
            paths: &[1],
            pairs: None,
        },
        OneChain {
            script: RESETS,
            log: resets,
            limit: 0,
            paths: &[2, 1, 2],
            pairs: Some(2),
        },
    ];
    check_cases(rt.alloc(), &cases)
}

// Where records rise, each has a pair more with the segment before it than its extension has paths.
#[test]
fn a_record_that_fits_is_in_the_last_segment_where_it_has_more_pairs(
    rt: HostRuntime,
) -> Result<(), Fail> {
    let log = "x\n5\n7\n3\n8\n";
    let cases = [
        OneChain {
            script: MAXES,
            log,
            limit: 2,
            paths: &[2],
            pairs: None,
        },
        OneChain {
            script: MAXES,
            log,
            limit: 1,
            paths: &[2, 2, 2, 2],
            pairs: Some(3),
        },
    ];
    check_cases(rt.alloc(), &cases)
}

/// The same where a record has as many paths as it may have. Copies of so many are left out.
#[derive(Drop)]
struct Asked(OneChain);

fn asked_differs(
    alloc: Global,
    checked: &Checked,
    chunk: &Chunk,
    case: &OneChain,
) -> Result<Option<String>, NoMemory>
    requires { FitsChunk (checked_plan checked.now).fields chunk.now }
{
    let run = of_chunk(alloc, checked, chunk, 0, case.limit)?;
    chain_differs(alloc, checked, &run, case)
}

impl Case for Asked {
    fn script(&self) -> &str {
        self.0.script
    }

    fn differs(&self, alloc: Global, checked: &Checked) -> Result<Option<String>, NoMemory> {
        let chunks = chunks_of(alloc, checked, self.0.log, 1_024, 2)?;
        match chunks.as_slice() {
            [chunk] => asked_differs(alloc, checked, chunk, &self.0),
            others => not_one(alloc, others),
        }
    }
}

#[test]
fn two_records_of_1024_paths_have_1024_pairs(rt: HostRuntime) -> Result<(), Fail> {
    let asked = OneChain {
        script: ASKED,
        log: "x\n1\n1\n",
        limit: 256,
        paths: &[1_024, 1_024],
        pairs: Some(1_024),
    };
    check_cases(rt.alloc(), &[Asked(asked)])
}
