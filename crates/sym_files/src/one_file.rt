//! The rounds of one file.
ghost use Rattle.std.specs.Prelude.{◌≡◌, ◌≤◌, ◌^◌, List, Some, IfOk, IsSome, length, map};
ghost use Rattle.sym_base.specs.declared.limits.TheConstants as limit;
ghost use Rattle.sym_base.specs.declared.values.record.Record.{Record as OneRecord};
ghost use Rattle.sym_check.specs.Checking.CheckedScripts.{checked_plan};
ghost use Rattle.sym_table.specs.FileRows.{file_rows};
ghost use Rattle.sym_table.specs.Reading.{Row as OneRow};
ghost use Rattle.sym_table.specs.RowRecords.{records_or_bad};
ghost use Rattle.sym_table.specs.Rows.{FitsHeader};
ghost use Rattle.sym_files.specs.FileRecords.{row_records, shown_rows};
ghost use Rattle.sym_files.specs.Rounds.{IsLimit, stands_by};
ghost use Rattle.sym_files.specs.Taking.{OpensFile, TakesFile, TakesRows, full_round, rows_left};
ghost use Rattle.sym_files.specs.Telling.{Point, TellsFile, TellsRows, tells_by};

use crate::error::PassErr;
use crate::next_round::cut_round;
use crate::rounds::{Took, Work};
use crate::ways::Way;
use std::alloc::Global;
use sym_base::NoMemory;
use sym_check::Checked;
use sym_table::{Cutter, HeadErr, Spare};

/// Where the next file begins: its number, that of its first record, the rows of a full chunk, and
/// the memory of earlier rows.
#[derive(Drop)]
pub(crate) struct Course {
    pub(crate) file: u64,
    pub(crate) next_no: u64,
    pub(crate) chunk: u32,
    pub(crate) spare: Spare,
}

// Opens the file with the number `file`.
fn open_file<'a>(
    alloc: Global,
    checked: &Checked,
    bytes: &'a [u8],
    file: u64,
    first_no: u64,
    chunk: u32,
) -> Result<Cutter<'a>, PassErr>
    requires size { length bytes.now ≤ limit.FILE_MAX }
    requires first { first_no ≤ 2 ^ 62 }
    requires some { 1 ≤ chunk }
    requires most { chunk ≤ limit.CHUNK_MAX }
    ensures opens { (shown : OneRow → OneRow) →
        OpensFile (checked_plan checked.now) shown file first_no (file_rows bytes.now) result }
    ensures chunk { IfOk result (λ c. c.chunk ≡ chunk) }
{
    match Cutter::open(alloc, checked, bytes, first_no, chunk) {
        Ok(cutter) => Ok(cutter),
        Err(HeadErr::Fault(fault)) => Err(PassErr::Head { file, fault }),
        Err(HeadErr::NoMemory) => Err(PassErr::NoMemory),
    }
}

// Takes the rows that are left, round by round. The script and the path limit of the work stay.
fn take_rounds<R, W: Way<R>>(
    way: &W,
    alloc: Global,
    work: &mut Work,
    cutter: &mut Cutter<'_>,
    spare: &mut Spare,
    rounds: &mut R,
) -> Result<Took, NoMemory>
    requires ready { W.ready }
    requires left { IsSome cutter.old.left }
    requires fits { FitsHeader (checked_plan work.old.checked).fields cutter.old.header }
    requires limit { IsLimit work.old.limit }
    requires stands { let p = checked_plan work.old.checked in
        (records : List OneRecord) × W.stands rounds.old p work.old.limit records }
    ensures takes { let p = checked_plan work.old.checked in
        let first = cutter.old.next_no in
        let rows = map (W.shown rounds.old) (rows_left cutter.old) in
        let read = records_or_bad p cutter.old.header first rows in
        let stood = stands_by W.stands p work.old.limit in
        IfOk result (TakesRows stood read first cutter.new.next_no rounds.old rounds.new) }
    ensures tells { let p = checked_plan work.old.checked in
        let shown = W.shown rounds.old in
        let per = full_round cutter.old.chunk in
        let first = cutter.old.next_no in
        (start : R) (before : List (List OneRecord)) →
        W.told start rounds.old p Point.between before →
        TellsRows (tells_by W.told p start) p cutter.old.header shown per first
        (rows_left cutter.old) before rounds.new result }
    ensures shown { W.shown rounds.new ≡ W.shown rounds.old }
    ensures checked { checked_plan work.new.checked ≡ checked_plan work.old.checked }
    ensures same { work.new.limit ≡ work.old.limit }
{
    cut_round(alloc, work, cutter, spare)?;
    'rounds: while !work.chunks.is_empty() {
        match way.take_on(alloc, rounds, work, cutter, spare)? {
            Took::Done => {}
            Took::Bad(bad) => return Ok(Took::Bad(bad)),
        }
    }
    Ok(Took::Done)
}

/// Takes the records of the file whose number the course gives. Its first one has the number that
/// the course gives too, which becomes that of the first record after the file.
pub(crate) fn take_file<R, W: Way<R>>(
    way: &W,
    alloc: Global,
    work: &mut Work,
    bytes: &[u8],
    course: &mut Course,
    rounds: &mut R,
) -> Result<(), PassErr>
    requires ready { W.ready }
    requires size { length bytes.now ≤ limit.FILE_MAX }
    requires first { course.old.next_no ≤ 2 ^ 62 }
    requires some { 1 ≤ course.old.chunk }
    requires most { course.old.chunk ≤ limit.CHUNK_MAX }
    requires limit { IsLimit work.old.limit }
    requires stands { let p = checked_plan work.old.checked in
        (records : List OneRecord) × W.stands rounds.old p work.old.limit records }
    ensures takes { let p = checked_plan work.old.checked in
        let first = course.old.next_no in
        let rows = shown_rows (W.shown rounds.old) (file_rows bytes.now) in
        let read = row_records p course.old.file first rows in
        let stood = stands_by W.stands p work.old.limit in
        TakesFile stood read first course.new.next_no rounds.old rounds.new result }
    ensures tells { let p = checked_plan work.old.checked in
        let rows = shown_rows (W.shown rounds.old) (file_rows bytes.now) in
        let per = full_round course.old.chunk in
        (start : R) (before : List (List OneRecord)) →
        W.told start rounds.old p Point.between before →
        TellsFile (tells_by W.told p start) p per course.old.file course.old.next_no rows before
        rounds.new result }
    ensures shown { W.shown rounds.new ≡ W.shown rounds.old }
    ensures checked { checked_plan work.new.checked ≡ checked_plan work.old.checked }
    ensures same { work.new.limit ≡ work.old.limit }
    ensures chunk { course.new.chunk ≡ course.old.chunk }
{
    let mut cutter = open_file(
        alloc,
        &work.checked,
        bytes,
        course.file,
        course.next_no,
        course.chunk,
    )?;
    match take_rounds(way, alloc, work, &mut cutter, &mut course.spare, rounds)? {
        Took::Done => {
            course.next_no = cutter.next_no();
            Ok(())
        }
        Took::Bad(bad) => Err(PassErr::Bad {
            file: course.file,
            bad,
        }),
    }
}
