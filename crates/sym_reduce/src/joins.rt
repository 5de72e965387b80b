//! The join of the saved runs of files.
ghost use Rattle.std.specs.Prelude.{◌≡◌, ◌≤◌, ℕ, List, IfOk, IfErr, None, Some, length, map};
ghost use Rattle.std.specs.List.{All};
ghost use Rattle.std.specs.String.{string_bytes};
ghost use Rattle.sym_base.specs.declared.limits.TheConstants as limits;
ghost use Rattle.sym_check.specs.Checking.CheckedScripts.{checked_plan};
ghost use Rattle.sym_file.specs.SavedTexts.{printed};
ghost use Rattle.sym_reduce.specs.Joining.{AreFilesJoined, CanGoOn, IsJoining, JoinedAll, JoinsFile, StopsFiles, StopsJoin};
ghost use Rattle.sym_run.specs.ClosedJoins.{IsJoinable};

use crate::error::ReduceErr;
use crate::run_files::read_file;
use crate::window::{Window, read_first};
use std::alloc::Global;
use std::thread::Threads;
use sym_base::Store;
use sym_check::Checked;
use sym_file::{JoinedText, SavedErr, join_text, join_texts, read_saved};
use sym_files::WORKERS_DEFAULT;
use sym_run::{RunGroups, Saved};

/// The saved run of the first file, whose number is `file`.
fn first_run(alloc: Global, checked: &Checked, bytes: &[u8], file: u64) -> Result<Saved, ReduceErr>
    requires size { length bytes.now ≤ limits.FILE_MAX }
    ensures joins { let p = checked_plan checked.now in
        (limit : ℕ) → JoinsFile (printed checked.now) p limit None file bytes.now result }
    ensures joinable { IfOk result (IsJoinable (checked_plan checked.now)) }
{
    match read_saved(alloc, checked, bytes) {
        Ok(saved) => Ok(saved),
        Err(SavedErr::OtherScript) => Err(ReduceErr::OtherScript { file }),
        Err(SavedErr::Malformed) => Err(ReduceErr::Malformed { file }),
        Err(SavedErr::NoMemory) => Err(ReduceErr::NoMemory),
    }
}

/// The saved run of those before and of the next file, whose number is `file`.
fn next_run(
    alloc: Global,
    checked: &Checked,
    before: Saved,
    bytes: &[u8],
    file: u64,
    limit: u32,
) -> Result<Saved, ReduceErr>
    requires size { length bytes.now ≤ limits.FILE_MAX }
    requires before { IsJoinable (checked_plan checked.now) before }
    ensures joins { let p = checked_plan checked.now in
        JoinsFile (printed checked.now) p limit (Some before) file bytes.now result }
    ensures joinable { IfOk result (IsJoinable (checked_plan checked.now)) }
{
    match join_text(alloc, checked, before, bytes, limit) {
        Ok(JoinedText::Done(joined)) => Ok(joined),
        Ok(JoinedText::Apart) => Err(ReduceErr::Apart { file }),
        Err(SavedErr::OtherScript) => Err(ReduceErr::OtherScript { file }),
        Err(SavedErr::Malformed) => Err(ReduceErr::Malformed { file }),
        Err(SavedErr::NoMemory) => Err(ReduceErr::NoMemory),
    }
}

/// The saved run of those before, where there are some, and of a file, whose number is `file`.
fn join_file(
    alloc: Global,
    checked: &Checked,
    before: Option<Saved>,
    bytes: &[u8],
    file: u64,
    limit: u32,
) -> Result<Saved, ReduceErr>
    requires size { length bytes.now ≤ limits.FILE_MAX }
    requires before { CanGoOn (checked_plan checked.now) before }
    ensures joins { let p = checked_plan checked.now in
        JoinsFile (printed checked.now) p limit before file bytes.now result }
    ensures joinable { IfOk result (IsJoinable (checked_plan checked.now)) }
{
    match before {
        None => first_run(alloc, checked, bytes, file),
        Some(before) => next_run(alloc, checked, before, bytes, file, limit),
    }
}

/// The saved runs of the files of these texts, joined one after the other, in one, where there are
/// some.
fn join_turn(
    alloc: Global,
    checked: &Checked,
    texts: &[Vec<u8>],
    limit: u32,
) -> Result<Option<Saved>, ReduceErr>
    requires size { All (λ text. length text.items ≤ limits.FILE_MAX) texts.now }
    ensures joined { let script = printed checked.now in
        let p = checked_plan checked.now in
        let files = map (λ text. text.items) texts.now in
        (max : ℕ) → All (λ text. length text.items ≤ max) texts.now →
        IfOk result (AreFilesJoined script p max limit files) }
    ensures stopped { let script = printed checked.now in
        let p = checked_plan checked.now in
        let files = map (λ text. text.items) texts.now in
        (max : ℕ) → All (λ text. length text.items ≤ max) texts.now →
        IfErr result (StopsFiles script p max limit files) }
    ensures joinable { IfOk result (CanGoOn (checked_plan checked.now)) }
{
    let _plan = checked.plan();
    let mut joined = None;
    'texts: for (file, text) in texts.iter().enumerate() {
        let more = join_file(alloc, checked, joined, text.as_slice(), file as u64, limit)?;
        joined = Some(more);
    }
    Ok(joined)
}

/// The saved runs of the files of these texts in one, where there are some. Threads join several of
/// them; where one of these has a problem, they are joined in turn, which says which.
fn join_first<R: Threads + Sync>(
    rt: &R,
    alloc: Global,
    checked: &Checked,
    texts: &[Vec<u8>],
    limit: u32,
) -> Result<Option<Saved>, ReduceErr>
    requires size { All (λ text. length text.items ≤ limits.FILE_MAX) texts.now }
    ensures joined { let script = printed checked.now in
        let p = checked_plan checked.now in
        let files = map (λ text. text.items) texts.now in
        (max : ℕ) → All (λ text. length text.items ≤ max) texts.now →
        IfOk result (AreFilesJoined script p max limit files) }
    ensures stopped { let script = printed checked.now in
        let p = checked_plan checked.now in
        let files = map (λ text. text.items) texts.now in
        (max : ℕ) → All (λ text. length text.items ≤ max) texts.now →
        IfErr result (StopsFiles script p max limit files) }
    ensures joinable { IfOk result (CanGoOn (checked_plan checked.now)) }
{
    let _plan = checked.plan();
    if 1 < texts.len() {
        let threads = WORKERS_DEFAULT as usize;
        if let Some(joined) = join_texts(rt, alloc, checked, texts, limit, threads) {
            return Ok(Some(joined));
        }
    }
    join_turn(alloc, checked, texts, limit)
}

/// The first files, which are joined: how many, and their saved runs in one, where there are some.
#[derive(Drop)]
struct Joined {
    count: usize,
    run: Option<Saved>,
}

/// How files are joined: the most bytes of each, and the path limit.
#[derive(Clone, Copy)]
struct JoinOptions {
    max_bytes: u64,
    limit: u32,
}

/// The saved run of the files of these names in one, where the first ones are joined. The others
/// are read and joined one at a time.
fn join_rest<F: Store>(
    alloc: Global,
    checked: &Checked,
    files: &mut F,
    names: &[String],
    first: Joined,
    options: JoinOptions,
) -> Result<Saved, ReduceErr>
    requires size { options.max_bytes ≤ limits.FILE_MAX }
    requires joining { let script = printed checked.now in
        let p = checked_plan checked.now in
        let names = map string_bytes names.now in
        IsJoining script p options.max_bytes options.limit (F.holds files.old) names
        first.count first.run }
    requires joinable { CanGoOn (checked_plan checked.now) first.run }
    ensures joined { let script = printed checked.now in
        let p = checked_plan checked.now in
        let names = map string_bytes names.now in
        let JoinsAll = JoinedAll script p options.max_bytes options.limit in
        IfOk result (JoinsAll (F.holds files.old) names) }
    ensures stopped { let script = printed checked.now in
        let p = checked_plan checked.now in
        let names = map string_bytes names.now in
        let before = F.faults files.old in
        let after = F.faults files.new in
        let max_bytes = options.max_bytes in
        IfErr result (StopsJoin script p max_bytes (F.holds files.old) names before after) }
    ensures same { F.holds files.new ≡ F.holds files.old }
    ensures later { (other : List ℕ) → F.faults files.old other ≤ F.faults files.new other }
{
    let _plan = checked.plan();
    let Joined { count, run } = first;
    let JoinOptions { max_bytes, limit } = options;
    let mut joined = run;
    'files: for file in count..names.len() {
        let number = file as u64;
        let bytes = read_file(alloc, files, names[file].as_str(), number, max_bytes)?;
        let more = join_file(alloc, checked, joined, bytes.as_slice(), number, limit)?;
        joined = Some(more);
    }
    match joined {
        Some(saved) => Ok(saved),
        None => Ok(Saved {
            first: 1,
            next: 1,
            groups: RunGroups::new(alloc),
        }),
    }
}

/// The saved runs of the files of these names, in order, in one. The first record of the first one
/// may have any number, and that of each other one follows the last of the one before it. Segments
/// are composed by the limit, as `join_text` says. The first files, up to 256 MiB of them and the
/// one that goes beyond, are read one after the other and joined by threads; where one of them has a
/// problem, they are joined in turn, which says which. Files after these are read and joined one at
/// a time. Each file is read once.
///
/// # Errors
///
/// In the order of the files, and in each of them in this order:
///
/// - `Read` where a read of the file failed, and no file before it has a problem.
/// - `TooLarge` where it has more than `max_bytes` bytes.
/// - `OtherScript` or `Malformed` where it is that of no lawful saved run of the script.
/// - `Apart` where its first record isn't the one that follows.
///
/// `NoMemory` where an allocation failed. `Gap` is none of them.
pub fn join_files<R: Threads + Sync, F: Store>(
    rt: &R,
    alloc: Global,
    checked: &Checked,
    files: &mut F,
    names: &[String],
    max_bytes: u64,
    limit: u32,
) -> Result<Saved, ReduceErr>
    requires size { max_bytes ≤ limits.FILE_MAX }
    ensures joined { let script = printed checked.now in
        let p = checked_plan checked.now in
        let names = map string_bytes names.now in
        IfOk result (JoinedAll script p max_bytes limit (F.holds files.old) names) }
    ensures stopped { let script = printed checked.now in
        let p = checked_plan checked.now in
        let names = map string_bytes names.now in
        let before = F.faults files.old in
        let after = F.faults files.new in
        IfErr result (StopsJoin script p max_bytes (F.holds files.old) names before after) }
    ensures same { F.holds files.new ≡ F.holds files.old }
    ensures later { (other : List ℕ) → F.faults files.old other ≤ F.faults files.new other }
{
    let _plan = checked.plan();
    let Window { texts, stop } = read_first(alloc, files, names, max_bytes);
    let joined = join_first(rt, alloc, checked, texts.as_slice(), limit)?;
    if let Some(why) = stop {
        return Err(why);
    }
    let first = Joined {
        count: texts.len(),
        run: joined,
    };
    drop(texts);
    let options = JoinOptions { max_bytes, limit };
    join_rest(alloc, checked, files, names, first, options)
}
