//! The loop over all files.
ghost use Rattle.std.specs.Prelude.{◌≡◌, ◌≤◌, ◌^◌, ℕ, List, [], IfOk, IfErr, OnOk, length, map};
ghost use Rattle.std.specs.String.{string_bytes};
ghost use Rattle.sym_base.specs.declared.limits.TheConstants as limit;
ghost use Rattle.sym_base.specs.declared.values.record.Record.{Record as OneRecord};
ghost use Rattle.sym_check.specs.Checking.CheckedScripts.{checked_plan};
ghost use Rattle.sym_files.specs.FileRecords.{plain_rules, rules_of};
ghost use Rattle.sym_files.specs.Options.{InRange};
ghost use Rattle.sym_files.specs.FileRounds.{OfFiles, UntilStop, named_files};
ghost use Rattle.sym_files.specs.Passing.{May, StopsFrom, TakenAll};
ghost use Rattle.sym_files.specs.Rounds.{stands_by, stands_in};
ghost use Rattle.sym_files.specs.Taking.{IsUnread};
ghost use Rattle.sym_files.specs.Telling.{Point, TellsAnywhere, tells_by};

use crate::error::PassErr;
use crate::one_file::{Course, take_file};
use crate::options::Options;
use crate::rounds::{Rounds, SequentialRounds, Work};
use crate::ways::{Alone, Threaded, Way};
use std::alloc::Global;
use std::sync::Wait;
use std::thread::Threads;
use sym_base::{ReadErr, Store, read_all};
use sym_check::Checked;
use sym_table::{Chunks, Spare};

/// Files that are taken as one log.
#[derive(Clone, Copy)]
pub struct Log<'a> {
    /// The names of the files, which are taken in this order.
    pub names: &'a [String],
    /// How they are cut and worked on.
    pub options: &'a Options,
    /// The number of the first record. The others follow it, over all files.
    pub first: u64,
}

// All bytes of the file with the number `file`.
fn read_file<F: Store>(
    alloc: Global,
    files: &mut F,
    name: &str,
    file: u64,
    max_bytes: u64,
) -> Result<Vec<u8>, PassErr>
    requires { max_bytes ≤ limit.FILE_MAX }
    ensures read { IfOk result (λ v. May (F.holds files.old name.now) v.items) }
    ensures fits { IfOk result (λ v. length v.items ≤ max_bytes) }
    ensures unread { let before = F.faults files.old name.now in
        let after = F.faults files.new name.now in
        IfErr result (IsUnread max_bytes file (F.holds files.old name.now) before after) }
    ensures same { F.holds files.new ≡ F.holds files.old }
    ensures later { (other : List ℕ) → F.faults files.old other ≤ F.faults files.new other }
{
    match read_all(alloc, files, name, max_bytes) {
        Ok(bytes) => Ok(bytes),
        Err(ReadErr::Failed) => Err(PassErr::Read { file }),
        Err(ReadErr::TooLarge) => Err(PassErr::TooLarge { file }),
        Err(ReadErr::NoMemory) => Err(PassErr::NoMemory),
    }
}

/// What `each_round` does, in whatever way rounds are taken.
pub(crate) fn take_files<F: Store, R, W: Way<R>>(
    way: &W,
    alloc: Global,
    checked: &Checked,
    files: &mut F,
    log: &Log<'_>,
    rounds: &mut R,
) -> Result<u64, PassErr>
    requires ready { W.ready }
    requires options { InRange log.now.options.now }
    requires few { length log.now.names.now ≤ limit.FILES_MAX }
    requires first { log.now.first ≤ 2 ^ 61 }
    requires stands { let p = checked_plan checked.now in
        (records : List OneRecord) × W.stands rounds.old p log.now.options.now.limit records }
    ensures taken { let p = checked_plan checked.now in
        let names = map string_bytes log.now.names.now in
        let rules = rules_of log.now.options.now.max_bytes (W.shown rounds.old) in
        let stood = stands_by W.stands p log.now.options.now.limit in
        let first = log.now.first in
        IfOk result (TakenAll stood p rules (F.holds files.old) names first rounds.old rounds.new) }
    ensures stopped { let p = checked_plan checked.now in
        let names = map string_bytes log.now.names.now in
        let rules = rules_of log.now.options.now.max_bytes (W.shown rounds.old) in
        let before = F.faults files.old in
        let after = F.faults files.new in
        IfErr result (StopsFrom log.now.first p rules (F.holds files.old) names before after) }
    ensures told { let p = checked_plan checked.now in
        let rules = rules_of log.now.options.now.max_bytes (W.shown rounds.old) in
        let names = map string_bytes log.now.names.now in
        let chunk = log.now.options.now.chunk in
        let named = named_files p rules chunk (F.holds files.old) names log.now.first in
        (start : R) → W.told start rounds.old p Point.between [] →
        OnOk result (OfFiles named (length names) (W.told start rounds.new p Point.between)) }
    ensures told_until { let p = checked_plan checked.now in
        let rules = rules_of log.now.options.now.max_bytes (W.shown rounds.old) in
        let names = map string_bytes log.now.names.now in
        let chunk = log.now.options.now.chunk in
        let named = named_files p rules chunk (F.holds files.old) names log.now.first in
        (start : R) → W.told start rounds.old p Point.between [] →
        IfErr result (UntilStop named (W.told start rounds.new p Point.between)
        (W.told start rounds.new p Point.at_bad)
        (TellsAnywhere (tells_by W.told p start) rounds.new)) }
    ensures shown { W.shown rounds.new ≡ W.shown rounds.old }
    ensures same { F.holds files.new ≡ F.holds files.old }
    ensures later { (other : List ℕ) → F.faults files.old other ≤ F.faults files.new other }
{
    let mut work = Work {
        checked: checked.copy(alloc)?,
        chunks: Chunks::new(alloc),
        limit: log.options.limit,
    };
    let mut course = Course {
        file: 0,
        next_no: log.first,
        chunk: log.options.chunk,
        spare: Spare::new(alloc),
    };
    let names = log.names;
    let max_bytes = log.options.max_bytes;
    'files: for (file, name) in names.iter().enumerate() {
        course.file = file as u64;
        let bytes = read_file(alloc, files, name.as_str(), course.file, max_bytes)?;
        let bytes = bytes.as_slice();
        take_file(way, alloc, &mut work, bytes, &mut course, rounds)?;
    }
    Ok(course.next_no)
}

/// Takes the records of the files of these names, in order, round by round. The first row of each
/// file is its header; records are numbered from `first` on, over all files, and the number after
/// the last one is returned. A round has up to `CHUNKS_MAX` chunks of one file, each of
/// `options.chunk` rows, or the fewer that are left of the file. One file is in memory at a time,
/// and a later one isn't read before the earlier one is done. Rows are read over the memory of
/// those of the round before.
///
/// # Errors
///
/// In the order of the files, and in each of them in this order:
///
/// - `Read` where a read of the file failed, and no file before it has a problem.
/// - `TooLarge` where it has more than `options.max_bytes` bytes.
/// - `Head` where a field of the script has no column or two: the first such field.
/// - `Bad` where a row is no record: the first one.
///
/// `NoMemory` where an allocation failed. After an error nothing is known of what `rounds` stands
/// for, only what it has told of the rounds that were done.
pub fn each_round<T: Threads + Wait + Sync, F: Store, R: Rounds>(
    rt: &T,
    alloc: Global,
    checked: &Checked,
    files: &mut F,
    names: &[String],
    options: &Options,
    first: u64,
    rounds: &mut R,
) -> Result<u64, PassErr>
    requires options { InRange options.now }
    requires few { length names.now ≤ limit.FILES_MAX }
    requires first { first ≤ 2 ^ 61 }
    requires stands { let p = checked_plan checked.now in
        (records : List OneRecord) × R.stands rounds.old p options.now.limit records }
    ensures taken { let p = checked_plan checked.now in
        let names = map string_bytes names.now in
        let rules = rules_of options.now.max_bytes (R.shown rounds.old) in
        let stood = stands_by R.stands p options.now.limit in
        IfOk result (TakenAll stood p rules (F.holds files.old) names first rounds.old rounds.new) }
    ensures stopped { let p = checked_plan checked.now in
        let names = map string_bytes names.now in
        let rules = rules_of options.now.max_bytes (R.shown rounds.old) in
        let before = F.faults files.old in
        let after = F.faults files.new in
        IfErr result (StopsFrom first p rules (F.holds files.old) names before after) }
    ensures told { let p = checked_plan checked.now in
        let rules = rules_of options.now.max_bytes (R.shown rounds.old) in
        let names = map string_bytes names.now in
        let named = named_files p rules options.now.chunk (F.holds files.old) names first in
        (start : R) → R.told start rounds.old p Point.between [] →
        OnOk result (OfFiles named (length names) (R.told start rounds.new p Point.between)) }
    ensures told_until { let p = checked_plan checked.now in
        let rules = rules_of options.now.max_bytes (R.shown rounds.old) in
        let names = map string_bytes names.now in
        let named = named_files p rules options.now.chunk (F.holds files.old) names first in
        (start : R) → R.told start rounds.old p Point.between [] →
        IfErr result (UntilStop named (R.told start rounds.new p Point.between)
        (R.told start rounds.new p Point.at_bad)
        (TellsAnywhere (tells_by R.told p start) rounds.new)) }
    ensures shown { R.shown rounds.new ≡ R.shown rounds.old }
    ensures same { F.holds files.new ≡ F.holds files.old }
    ensures later { (other : List ℕ) → F.faults files.old other ≤ F.faults files.new other }
{
    let way = Threaded {
        rt,
        workers: options.workers,
    };
    let log = Log {
        names,
        options,
        first,
    };
    take_files(&way, alloc, checked, files, &log, rounds)
}

/// Takes the records of a log's files as `each_round` does, on one thread, for a value that takes
/// rounds without a runtime. Each row is read as it is, and the workers and the path limit change
/// nothing.
///
/// # Errors
///
/// Those of `each_round`, in the same order. After an error nothing is known of `rounds`.
pub fn each_round_in_turn<F: Store, R: SequentialRounds>(
    alloc: Global,
    checked: &Checked,
    files: &mut F,
    log: &Log<'_>,
    rounds: &mut R,
) -> Result<u64, PassErr>
    requires options { InRange log.now.options.now }
    requires few { length log.now.names.now ≤ limit.FILES_MAX }
    requires first { log.now.first ≤ 2 ^ 61 }
    requires stands { (records : List OneRecord) ×
        R.stands rounds.old (checked_plan checked.now) records }
    ensures taken { let p = checked_plan checked.now in
        let names = map string_bytes log.now.names.now in
        let rules = plain_rules log.now.options.now.max_bytes in
        let stood = stands_in R.stands p in
        let first = log.now.first in
        IfOk result (TakenAll stood p rules (F.holds files.old) names first rounds.old rounds.new) }
    ensures stopped { let p = checked_plan checked.now in
        let names = map string_bytes log.now.names.now in
        let rules = plain_rules log.now.options.now.max_bytes in
        let before = F.faults files.old in
        let after = F.faults files.new in
        IfErr result (StopsFrom log.now.first p rules (F.holds files.old) names before after) }
    ensures same { F.holds files.new ≡ F.holds files.old }
    ensures later { (other : List ℕ) → F.faults files.old other ≤ F.faults files.new other }
{
    take_files(&Alone, alloc, checked, files, log, rounds)
}
