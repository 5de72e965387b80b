//! Stretches of chunks: their runs lead groups on in turn, beside the same records folded one by
//! one.
ghost use Rattle.std.specs.Prelude.{◌≤◌, IfOk, IfSome, length};
ghost use Rattle.std.specs.List.{All};
ghost use Rattle.sym_check.specs.Checking.CheckedScripts.{checked_plan};
ghost use Rattle.sym_run.specs.Applying.{AreValid};
ghost use Rattle.sym_run.specs.Runs.{GroupsFit};
ghost use Rattle.sym_table.specs.Rows.{FitsChunk};

use crate::logs::{BALANCES, BY_NUMBER, DEALS, HELD, MANY, MODES, NAMED, QUOTIENTS, STREAKS};
use std::alloc::Global;
use std::slice;
use std::test::Fail;
use sym_base::{Fields, NoMemory, Outcome, Record};
use sym_check::Checked;
use sym_given::scripts::SMALL_SUMS;
use sym_given::{Case, check_cases, chunks_of, groups_differ, passed, told_by};
use sym_plain::{Groups, fold_into};
use sym_run::{Applied, Run, Stretch};
use sym_table::{Chunk, Row, RowCursor, decode_into};

/// A script, and how many groups there are after the log, and how many of these have ended.
#[derive(Clone, Copy)]
struct Deals(&'static str, usize, usize);

/// How a log is cut into stretches, and how these are made.
#[derive(Clone, Copy, Debug)]
struct Way {
    /// How many rows a chunk has.
    rows: u32,
    /// How many chunks a stretch has.
    chunks: usize,
    /// How many records of a key a stretch keeps before it explores them.
    most: u32,
    /// The path limit.
    limit: u32,
}

/// Rows of a chunk and chunks of a stretch. With one of each, a chain is closed after each record.
const CUTS: [(u32, usize); 4] = [(1, 1), (1, 2), (1, 64), (3, 64)];

const MOST: [u32; 5] = [0, 1, 2, 64, u32::MAX];

const LIMITS: [u32; 2] = [1, 16];

/// The log has 64 chunks of three rows.
const RECORDS: usize = 192;

fn log_of(alloc: Global) -> Result<String, NoMemory> {
    let mut log = String::from_str(alloc, "user,x,what,end,no\n")?;
    'rows: for place in 0..RECORDS {
        let (row, no) = (DEALS[place % DEALS.len()], place % 40);
        log.push_str(format!(in alloc; "{row},{no}\n")?.as_str())?;
    }
    Ok(log)
}

/// Folds the records of a chunk, up to the first row that is none.
fn fold_chunk(
    alloc: Global,
    checked: &Checked,
    chunk: &Chunk,
    groups: &mut Groups,
) -> Result<(), NoMemory>
    requires { FitsChunk (checked_plan checked.now).fields chunk.now }
{
    let mut cursor = RowCursor::over(alloc, slice::from_ref(chunk))?;
    let mut row = Row::new(alloc);
    let mut rec = Record {
        no: 0,
        fields: Fields::new(alloc),
    };
    'rows: for index in 0..chunk.rows.len() {
        if !cursor.read(&mut row)? {
            return Ok(());
        }
        let no = chunk.first_no.saturating_add(index as u64);
        let view = row.view();
        if decode_into(alloc, checked, &chunk.header, &view, no, &mut rec)?.is_some() {
            return Ok(());
        }
        fold_into(alloc, checked, groups, &rec)?;
    }
    Ok(())
}

/// The run of the chunks from `first` up to but without `end`.
fn run_of(
    alloc: Global,
    checked: &Checked,
    chunks: &[Chunk],
    first: u32,
    end: u32,
    way: Way,
) -> Result<Run, NoMemory>
    requires fit { All (FitsChunk (checked_plan checked.now).fields) chunks.now }
    requires some { first ≤ end }
    requires within { end ≤ length chunks.now }
    requires few { end ≤ 64 }
    ensures { IfOk result (λ run. GroupsFit (checked_plan checked.now) run.groups) }
{
    let mut stretch = Stretch::new(alloc, first, way.most);
    'chunks: for number in first..end {
        let chunk = &chunks[number as usize];
        let mut cursor = RowCursor::over(alloc, slice::from_ref(chunk))?;
        stretch.take(alloc, checked, &mut cursor, chunk, way.limit)?;
    }
    stretch.finish(alloc, checked, way.limit)
}

/// Groups that these chunks lead on; `None` where a row is no record.
fn led_on(
    alloc: Global,
    checked: &Checked,
    chunks: &[Chunk],
    first: u32,
    end: u32,
    way: Way,
    groups: Groups,
) -> Result<Option<Groups>, NoMemory>
    requires fit { All (FitsChunk (checked_plan checked.now).fields) chunks.now }
    requires some { first ≤ end }
    requires within { end ≤ length chunks.now }
    requires few { end ≤ 64 }
    requires valid { AreValid (checked_plan checked.now) groups }
    ensures { IfOk result (λ led. IfSome led (AreValid (checked_plan checked.now))) }
{
    let run = run_of(alloc, checked, chunks, first, end, way)?;
    match run.apply(alloc, checked, groups)? {
        Applied::Done(groups) => Ok(Some(groups)),
        Applied::Bad(_bad) => Ok(None),
    }
}

/// The groups after all stretches of the chunks, which lead them on in turn; or what is said of the
/// first stretch after which they aren't those of folding record by record.
fn led_over(
    alloc: Global,
    checked: &Checked,
    chunks: &[Chunk],
    way: Way,
    groups: Groups,
    folded: &mut Groups,
) -> Result<Result<Groups, String>, NoMemory>
    requires fit { All (FitsChunk (checked_plan checked.now).fields) chunks.now }
    requires few { length chunks.now ≤ 64 }
    requires valid { AreValid (checked_plan checked.now) groups }
    ensures { IfOk result (λ led. IfOk led (AreValid (checked_plan checked.now))) }
{
    let mut groups = groups;
    let mut first = 0;
    'chunks: for index in 0..chunks.len() {
        fold_chunk(alloc, checked, &chunks[index], folded)?;
        let end = index + 1;
        if end - first < way.chunks && end < chunks.len() {
            continue 'chunks;
        }
        match led_on(
            alloc,
            checked,
            chunks,
            first as u32,
            end as u32,
            way,
            groups,
        )? {
            Some(next) => groups = next,
            None => return Ok(Err(String::from_str(alloc, "found a bad row, wanted none")?)),
        }
        if let Some(said) = groups_differ(alloc, &groups, folded)? {
            return Ok(Err(format!(in alloc; "after {end} chunks: {said}")?));
        }
        first = end;
    }
    Ok(Ok(groups))
}

/// What is wrong where stretches lead on no groups, and then those to which they led.
fn wrong_way(
    alloc: Global,
    checked: &Checked,
    log: &str,
    way: Way,
) -> Result<Option<String>, NoMemory> {
    let chunks = chunks_of(alloc, checked, log, way.rows, 64)?;
    if chunks.len() != 64 {
        let count = chunks.len();
        return Ok(Some(format!(in alloc; "found {count} chunks, wanted 64")?));
    }
    let nothing = Groups::new(alloc);
    let mut folded = Groups::new(alloc);
    let groups = match led_over(alloc, checked, &chunks, way, nothing, &mut folded)? {
        Ok(groups) => groups,
        Err(said) => return Ok(Some(format!(in alloc; "from nothing, {said}")?)),
    };
    match led_over(alloc, checked, &chunks, way, groups, &mut folded)? {
        Ok(_groups) => Ok(None),
        Err(said) => Ok(Some(format!(in alloc; "from groups, {said}")?)),
    }
}

/// How many groups have ended.
fn ended(groups: &Groups) -> usize {
    let mut count = 0;
    'groups: for place in 0..groups.len() {
        if let Some((_key, Outcome::Ended(_))) = groups.at(place) {
            count += 1;
        }
    }
    count
}

/// What is wrong with the groups of the sequential pass.
fn wrong_pass(
    alloc: Global,
    checked: &Checked,
    log: &str,
    case: &Deals,
) -> Result<Option<String>, NoMemory> {
    let Deals(_script, groups, faulty) = case;
    let passed = passed(alloc, checked, log)?;
    let (found, over) = (passed.len(), ended(&passed));
    if found == *groups && over == *faulty {
        return Ok(None);
    }
    let said = format!(in alloc;
        "found {over} of {found} groups ended, wanted {faulty} of {groups}"
    )?;
    Ok(Some(said))
}

/// What is wrong with stretches of so many chunks with so many rows.
fn wrong_cut(
    alloc: Global,
    checked: &Checked,
    log: &str,
    rows: u32,
    chunks: usize,
) -> Result<Option<String>, NoMemory> {
    'most: for most in MOST {
        'limits: for limit in LIMITS {
            let way = Way {
                rows,
                chunks,
                most,
                limit,
            };
            let said = wrong_way(alloc, checked, log, way)?;
            if said.is_some() {
                return told_by(alloc, &way, said);
            }
        }
    }
    Ok(None)
}

impl Case for Deals {
    fn script(&self) -> &str {
        self.0
    }

    fn differs(&self, alloc: Global, checked: &Checked) -> Result<Option<String>, NoMemory> {
        let log = log_of(alloc)?;
        let said = wrong_pass(alloc, checked, log.as_str(), self)?;
        if said.is_some() {
            return Ok(said);
        }
        'ways: for (rows, chunks) in CUTS {
            let said = wrong_cut(alloc, checked, log.as_str(), rows, chunks)?;
            if said.is_some() {
                return Ok(said);
            }
        }
        Ok(None)
    }
}

#[test]
fn lists_and_labels_are_those_of_folding(rt: HostRuntime) -> Result<(), Fail> {
    let cases = [Deals(STREAKS, 3, 0), Deals(NAMED, 3, 0), Deals(MODES, 1, 0)];
    check_cases(rt.alloc(), &cases)
}

#[test]
fn clamped_numbers_and_holds_are_those_of_folding(rt: HostRuntime) -> Result<(), Fail> {
    check_cases(rt.alloc(), &[Deals(BALANCES, 3, 0), Deals(HELD, 3, 0)])
}

#[test]
fn groups_that_end_in_a_stretch_are_those_of_folding(rt: HostRuntime) -> Result<(), Fail> {
    check_cases(
        rt.alloc(),
        &[Deals(SMALL_SUMS, 3, 3), Deals(QUOTIENTS, 3, 2)],
    )
}

#[test]
fn several_groups_are_those_of_folding(rt: HostRuntime) -> Result<(), Fail> {
    check_cases(rt.alloc(), &[Deals(BY_NUMBER, 10, 1), Deals(MANY, 40, 3)])
}
