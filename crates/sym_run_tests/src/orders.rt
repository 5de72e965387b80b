//! The runs of chunks, joined in every order and applied, against the sequential pass.
ghost use Rattle.std.specs.Prelude.{◌+◌, ◌≤◌, ◌<◌, IfOk, length};
ghost use Rattle.std.specs.List.{All};
ghost use Rattle.sym_check.specs.Checking.CheckedScripts.{checked_plan};
ghost use Rattle.sym_table.specs.Rows.{FitsChunk};
ghost use Rattle.sym_run.specs.Runs.{IsFromTo, StandsForChunks};

use crate::logs::{ACTIONS, DEEDS, NUMBERS};
use crate::setting::{given_differs, stretched};
use std::alloc::Global;
use std::test::Fail;
use sym_base::NoMemory;
use sym_check::Checked;
use sym_given::scripts::{CHANGES, SHORT_SESSIONS, SMALL_SUMS, TOGGLE, VISITS};
use sym_given::{Case, check_cases, chunks_of, difference, found_unless, passed};
use sym_plain::Groups;
use sym_run::{Applied, Run, of_chunk, of_chunks};
use sym_table::Chunk;

/// How many trees of joins there are over so many chunks.
const TREES: [usize; 9] = [0, 1, 1, 2, 5, 14, 42, 132, 429];

fn trees_over(chunks: usize) -> usize {
    if chunks < TREES.len() {
        TREES[chunks]
    } else {
        0
    }
}

/// How many chunks the left side of the tree with this number has, and the number of its sides.
fn split_of(chunks: usize, number: usize) -> (usize, usize)
    requires { 2 ≤ chunks }
    ensures some { 1 ≤ result.0 }
    ensures fewer { result.0 < chunks }
{
    let mut rest = number;
    'splits: for left in 1..chunks {
        let trees = trees_over(left).saturating_mul(trees_over(chunks - left));
        if rest < trees {
            return (left, rest);
        }
        rest -= trees;
    }
    (1, 0)
}

/// How many records of a key runs keep as they are: those at even and at odd depths to the right.
/// With 0 they are explored at once.
#[derive(Clone, Copy)]
struct Keeping {
    most: u32,
    other: u32,
}

const NOTHING: Keeping = Keeping { most: 0, other: 0 };

/// An order in which the runs of consecutive chunks are joined: the number of its tree of joins,
/// counted from 0, and how many records of a key its runs keep.
#[derive(Clone, Copy)]
struct Order {
    number: usize,
    keeping: Keeping,
}

const FIRST: Order = Order {
    number: 0,
    keeping: NOTHING,
};

/// The run of one chunk.
fn leaf(
    alloc: Global,
    checked: &Checked,
    chunks: &[Chunk],
    number: u32,
    most: u32,
    limit: u32,
) -> Result<Run, NoMemory>
    requires fit { All (FitsChunk (checked_plan checked.now).fields) chunks.now }
    requires few { length chunks.now ≤ 64 }
    requires within { number < length chunks.now }
    ensures chunks { IfOk result (IsFromTo number (number + 1)) }
    ensures stands { IfOk result (StandsForChunks (checked_plan checked.now) limit chunks.now) }
{
    let chunk = &chunks[number as usize];
    if most == 0 {
        of_chunk(alloc, checked, chunk, number, limit)
    } else {
        stretched(alloc, checked, chunk, number, limit, most)
    }
}

/// The run of the chunks from `lo` to the one before `hi`, joined in this order. Over more than
/// eight it is the one that joins each run with all later ones.
fn joined(
    alloc: Global,
    checked: &Checked,
    chunks: &[Chunk],
    lo: u32,
    hi: u32,
    order: Order,
    limit: u32,
) -> Result<Run, NoMemory>
    requires fit { All (FitsChunk (checked_plan checked.now).fields) chunks.now }
    requires few { length chunks.now ≤ 64 }
    requires some { lo < hi }
    requires within { hi ≤ length chunks.now }
    ensures chunks { IfOk result (IsFromTo lo hi) }
    ensures stands { IfOk result (StandsForChunks (checked_plan checked.now) limit chunks.now) }
{
    let count = (hi - lo) as usize;
    let Order { number, keeping } = order;
    if count == 1 {
        return leaf(alloc, checked, chunks, lo, keeping.most, limit);
    }
    let (left, rest) = split_of(count, number);
    let rights = trees_over(count - left).max(1);
    let mid = lo + left as u32;
    let order = Order {
        number: rest / rights,
        keeping,
    };
    let turned = Order {
        number: rest % rights,
        keeping: Keeping {
            most: keeping.other,
            other: keeping.most,
        },
    };
    let first = joined(alloc, checked, chunks, lo, mid, order, limit)?;
    let second = joined(alloc, checked, chunks, mid, hi, turned, limit)?;
    first.join(alloc, checked, second, limit)
}

/// What is said of chunks of which there is no run.
fn no_run(alloc: Global) -> Result<Option<String>, NoMemory> {
    found_unless(alloc, false, "found no chunk or more than 64")
}

/// What the run of the first chunk, extended by the others in turn, comes to on no groups. There is
/// none where there are no chunks, or more than 64.
fn extended(
    alloc: Global,
    checked: &Checked,
    chunks: &[Chunk],
    limit: u32,
) -> Result<Option<Applied>, NoMemory>
    requires fit { All (FitsChunk (checked_plan checked.now).fields) chunks.now }
{
    if chunks.is_empty() || chunks.len() > 64 {
        return Ok(None);
    }
    let run = of_chunks(alloc, checked, chunks, limit)?;
    Ok(Some(run.apply(alloc, checked, Groups::new(alloc))?))
}

/// How what it comes to differs from the groups.
fn extended_differs(
    alloc: Global,
    checked: &Checked,
    chunks: &[Chunk],
    wanted: &Groups,
    limit: u32,
) -> Result<Option<String>, NoMemory>
    requires fit { All (FitsChunk (checked_plan checked.now).fields) chunks.now }
{
    match extended(alloc, checked, chunks, limit)? {
        Some(applied) => given_differs(alloc, &applied, wanted),
        None => no_run(alloc),
    }
}

/// What the runs of the chunks, joined in this order, come to on no groups. There is none where
/// there are no chunks, or more than 64.
fn applied_in(
    alloc: Global,
    checked: &Checked,
    chunks: &[Chunk],
    order: Order,
    limit: u32,
) -> Result<Option<Applied>, NoMemory>
    requires fit { All (FitsChunk (checked_plan checked.now).fields) chunks.now }
{
    if chunks.is_empty() || chunks.len() > 64 {
        return Ok(None);
    }
    let run = joined(alloc, checked, chunks, 0, chunks.len() as u32, order, limit)?;
    Ok(Some(run.apply(alloc, checked, Groups::new(alloc))?))
}

/// How what the runs of the chunks, joined in this order, give differs from the groups.
fn order_differs(
    alloc: Global,
    checked: &Checked,
    chunks: &[Chunk],
    order: Order,
    wanted: &Groups,
    limit: u32,
) -> Result<Option<String>, NoMemory>
    requires fit { All (FitsChunk (checked_plan checked.now).fields) chunks.now }
{
    match applied_in(alloc, checked, chunks, order, limit)? {
        Some(applied) => given_differs(alloc, &applied, wanted),
        None => no_run(alloc),
    }
}

/// The first order that gives something else, and what.
fn orders_differ(
    alloc: Global,
    checked: &Checked,
    chunks: &[Chunk],
    wanted: &Groups,
    limit: u32,
    keeping: Keeping,
) -> Result<Option<String>, NoMemory>
    requires fit { All (FitsChunk (checked_plan checked.now).fields) chunks.now }
{
    'orders: for number in 0..trees_over(chunks.len()).max(1) {
        let order = Order { number, keeping };
        if let Some(told) = order_differs(alloc, checked, chunks, order, wanted, limit)? {
            return Ok(Some(format!(in alloc; "in order {number}: {told}")?));
        }
    }
    Ok(None)
}

/// A script and a log, cut into chunks of so many rows.
#[derive(Clone, Copy)]
struct Orders {
    script: &'static str,
    log: &'static str,
    rows: u32,
    limit: u32,
    keeping: Keeping,
}

impl Case for Orders {
    fn script(&self) -> &str {
        self.script
    }

    fn differs(&self, alloc: Global, checked: &Checked) -> Result<Option<String>, NoMemory> {
        let wanted = passed(alloc, checked, self.log)?;
        let chunks = chunks_of(alloc, checked, self.log, self.rows, 64)?;
        orders_differ(alloc, checked, &chunks, &wanted, self.limit, self.keeping)
    }
}

#[test]
fn each_order_of_eight_chunks_gives_the_groups_of_the_pass(rt: HostRuntime) -> Result<(), Fail> {
    let sums = Orders {
        script: SMALL_SUMS,
        log: CHANGES,
        rows: 3,
        limit: 1,
        keeping: NOTHING,
    };
    let sessions = Orders {
        script: SHORT_SESSIONS,
        log: VISITS,
        rows: 2,
        limit: 2,
        keeping: NOTHING,
    };
    let toggles = Orders {
        script: TOGGLE,
        log: NUMBERS,
        rows: 1,
        limit: 1,
        keeping: NOTHING,
    };
    let cases = [
        sums,
        Orders { limit: 16, ..sums },
        sessions,
        Orders {
            limit: 256,
            ..sessions
        },
        toggles,
    ];
    check_cases(rt.alloc(), &cases)
}

#[test]
fn each_order_of_runs_that_keep_records_gives_the_groups_of_the_pass(
    rt: HostRuntime,
) -> Result<(), Fail> {
    let kept = Orders {
        script: SMALL_SUMS,
        log: CHANGES,
        rows: 5,
        limit: 1,
        keeping: Keeping { most: 1, other: 1 },
    };
    let sessions = Orders {
        script: SHORT_SESSIONS,
        log: VISITS,
        rows: 4,
        limit: 16,
        keeping: Keeping { most: 2, other: 2 },
    };
    let cases = [
        kept,
        Orders {
            keeping: Keeping { most: 2, other: 0 },
            ..kept
        },
        Orders {
            keeping: Keeping { most: 0, other: 2 },
            ..kept
        },
        Orders {
            keeping: Keeping {
                most: u32::MAX,
                other: u32::MAX,
            },
            ..kept
        },
        sessions,
        Orders {
            keeping: Keeping { most: 3, other: 1 },
            ..sessions
        },
        Orders {
            keeping: Keeping { most: 0, other: 9 },
            ..sessions
        },
        Orders {
            limit: 1,
            ..sessions
        },
    ];
    check_cases(rt.alloc(), &cases)
}

#[test]
fn records_that_lack_different_words_are_kept_beside_each_other(
    rt: HostRuntime,
) -> Result<(), Fail> {
    let deeds = Orders {
        script: ACTIONS,
        log: DEEDS,
        rows: 2,
        limit: 16,
        keeping: Keeping { most: 9, other: 9 },
    };
    let cases = [
        deeds,
        Orders { rows: 4, ..deeds },
        Orders {
            keeping: Keeping { most: 2, other: 9 },
            ..deeds
        },
    ];
    check_cases(rt.alloc(), &cases)
}

/// A script and a log, cut into chunks of several sizes, with several limits.
#[derive(Drop)]
struct Sizes {
    script: &'static str,
    log: &'static str,
}

const LIMITS: [u32; 4] = [1, 2, 16, 256];

const ROWS: [u32; 5] = [1, 2, 3, 7, 1_024];

/// How what runs of the chunks give under this limit differs from the groups.
fn limit_differs(
    alloc: Global,
    checked: &Checked,
    chunks: &[Chunk],
    wanted: &Groups,
    limit: u32,
) -> Result<Option<String>, NoMemory>
    requires fit { All (FitsChunk (checked_plan checked.now).fields) chunks.now }
{
    let told = order_differs(alloc, checked, chunks, FIRST, wanted, limit)?;
    if told.is_some() {
        return Ok(told);
    }
    extended_differs(alloc, checked, chunks, wanted, limit)
}

impl Sizes {
    fn rows_differ(
        &self,
        alloc: Global,
        checked: &Checked,
        rows: u32,
    ) -> Result<Option<String>, NoMemory> {
        let wanted = passed(alloc, checked, self.log)?;
        let chunks = chunks_of(alloc, checked, self.log, rows, 64)?;
        'limits: for limit in LIMITS {
            if let Some(told) = limit_differs(alloc, checked, &chunks, &wanted, limit)? {
                return Ok(Some(format!(in alloc; "{rows} rows, limit {limit}: {told}")?));
            }
        }
        Ok(None)
    }
}

impl Case for Sizes {
    fn script(&self) -> &str {
        self.script
    }

    fn differs(&self, alloc: Global, checked: &Checked) -> Result<Option<String>, NoMemory> {
        'sizes: for rows in ROWS {
            let told = self.rows_differ(alloc, checked, rows)?;
            if told.is_some() {
                return Ok(told);
            }
        }
        Ok(None)
    }
}

#[test]
fn chunks_and_limits_of_all_sizes_give_the_groups_of_the_pass(rt: HostRuntime) -> Result<(), Fail> {
    let cases = [
        Sizes {
            script: SMALL_SUMS,
            log: CHANGES,
        },
        Sizes {
            script: SHORT_SESSIONS,
            log: VISITS,
        },
        Sizes {
            script: TOGGLE,
            log: NUMBERS,
        },
    ];
    check_cases(rt.alloc(), &cases)
}

/// A log with rows that are no records.
#[derive(Drop)]
struct BadRows {
    log: &'static str,
    rows: u32,
    /// The number of the first.
    first: u64,
}

/// The number of the bad row that a run found.
fn bad_row(applied: &Option<Applied>) -> Option<u64> {
    match applied {
        Some(Applied::Bad(bad)) => Some(bad.no),
        Some(Applied::Done(_)) | None => None,
    }
}

impl Case for BadRows {
    fn script(&self) -> &str {
        SMALL_SUMS
    }

    fn differs(&self, alloc: Global, checked: &Checked) -> Result<Option<String>, NoMemory> {
        let chunks = chunks_of(alloc, checked, self.log, self.rows, 64)?;
        let joined = bad_row(&applied_in(alloc, checked, &chunks, FIRST, 16)?);
        let extended = bad_row(&extended(alloc, checked, &chunks, 16)?);
        let first = Some(self.first);
        difference(alloc, &(joined, extended), &(first, first))
    }
}

#[test]
fn the_first_bad_row_is_found(rt: HostRuntime) -> Result<(), Fail> {
    let log = "user,x\na,1\nb,2\na,3\na,4\nb,x\na,5,6\nb,y\n";
    let cases = [
        BadRows {
            log,
            rows: 1,
            first: 5,
        },
        BadRows {
            log,
            rows: 2,
            first: 5,
        },
        BadRows {
            log,
            rows: 1_024,
            first: 5,
        },
    ];
    check_cases(rt.alloc(), &cases)
}
