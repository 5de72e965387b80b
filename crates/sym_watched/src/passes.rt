//! The pass over all files whose partials are told to observers.
ghost use Rattle.std.specs.Prelude.{◌≡◌, ◌≢◌, ◌≤◌, ℕ, List, [], Err, true, false, OnOk, IfOk, IfErr, length, map};
ghost use Rattle.std.specs.String.{string_bytes};
ghost use Rattle.sym_base.specs.declared.limits.TheConstants as limit;
ghost use Rattle.sym_check.specs.Checking.CheckedScripts.{checked_plan, checked_tree};
ghost use Rattle.sym_files.specs.declared.error.PassErr.TheVariants as pass_err;
ghost use Rattle.sym_files.specs.FileRecords.{rules_of};
ghost use Rattle.sym_files.specs.Options.{InRange};
ghost use Rattle.sym_watched.specs.Partials.{ToldAll, ToldUntil, watched_files};
ghost use Rattle.sym_passes.specs.Passed.{PassedAll};
ghost use Rattle.sym_files.specs.Passing.{StopsPass};
ghost use Rattle.sym_watched.specs.Watching.{IsWatched, ToldAt, start_of, watching};
ghost use Rattle.sym_files.specs.Telling.{Point};

use crate::news::News;
use crate::watched::{Task, Watched};
use std::alloc::Global;
use std::mem;
use std::sync::Wait;
use std::thread::Threads;
use sym_base::Store;
use sym_check::Checked;
use sym_files::{Options, PassErr, each_round};
use sym_plain::Groups;
use sym_watch::{Observer, Watch, watch};
use sym_workers::Gate;

// Whether an allocation failed.
fn is_out_of_memory(answer: &Result<u64, PassErr>) -> bool
    ensures out { result ≡ true → answer.now ≡ Err pass_err.NoMemory }
    ensures other { result ≡ false → answer.now ≢ Err pass_err.NoMemory }
{
    match answer {
        Err(PassErr::NoMemory) => true,
        Ok(_) => false,
        Err(PassErr::Read { .. }) => false,
        Err(PassErr::TooLarge { .. }) => false,
        Err(PassErr::Head { .. }) => false,
        Err(PassErr::Bad { .. }) => false,
    }
}

// Takes the records of all files, and tells the observers of what they aren't told yet, after the
// last round and before an error but that of memory.
fn watch_all<T: Threads + Wait + Sync, F: Store, G: Gate + Sync>(
    rt: &T,
    alloc: Global,
    files: &mut F,
    names: &[String],
    options: &Options,
    watched: &mut Watched<'_, G>,
) -> Result<(), PassErr>
    requires options { InRange options.now }
    requires few { length names.now ≤ limit.FILES_MAX }
    requires stands { let p = checked_plan watched.old.task.checked.now in
        IsWatched p p watched.old.groups watched.old.task.workers watched.old.border
        watched.old.news.publisher.list [] }
    requires begins { let p = checked_plan watched.old.task.checked.now in
        let logs = map (λ o. log o) watched.old.news.observers.items in
        let was = watching (checked_tree watched.old.task.checked.now) watched.old.groups
        watched.old.border watched.old.news.publisher.list watched.old.news.untold logs in
        ToldAt p (start_of (checked_tree watched.old.task.checked.now) logs) was Point.between [] }
    ensures passed { let p = checked_plan watched.old.task.checked.now in
        let names = map string_bytes names.now in
        let rules = rules_of options.now.max_bytes (G.shown watched.old.task.gate.now) in
        OnOk result (PassedAll p rules (F.holds files.old) names watched.new.groups) }
    ensures stopped { let p = checked_plan watched.old.task.checked.now in
        let names = map string_bytes names.now in
        let rules = rules_of options.now.max_bytes (G.shown watched.old.task.gate.now) in
        let before = F.faults files.old in
        let after = F.faults files.new in
        IfErr result (StopsPass p rules (F.holds files.old) names before after) }
    ensures told { let p = checked_plan watched.old.task.checked.now in
        let tree = checked_tree watched.old.task.checked.now in
        let names = map string_bytes names.now in
        let rules = rules_of options.now.max_bytes (G.shown watched.old.task.gate.now) in
        let watching = watched_files p rules options.now.chunk (F.holds files.old) names 1 in
        let olds = map (λ o. log o) watched.old.news.observers.items in
        let news = map (λ o. log o) watched.new.news.observers.items in
        OnOk result (ToldAll tree watching olds news) }
    ensures told_until { let p = checked_plan watched.old.task.checked.now in
        let tree = checked_tree watched.old.task.checked.now in
        let names = map string_bytes names.now in
        let rules = rules_of options.now.max_bytes (G.shown watched.old.task.gate.now) in
        let watching = watched_files p rules options.now.chunk (F.holds files.old) names 1 in
        let olds = map (λ o. log o) watched.old.news.observers.items in
        let news = map (λ o. log o) watched.new.news.observers.items in
        IfErr result (ToldUntil tree watching olds news) }
    ensures same { F.holds files.new ≡ F.holds files.old }
    ensures later { (other : List ℕ) → F.faults files.old other ≤ F.faults files.new other }
{
    let checked = watched.task.checked;
    let answer = each_round(rt, alloc, checked, files, names, options, 1, watched);
    if is_out_of_memory(&answer) {
        return Err(PassErr::NoMemory);
    }
    watched.news.tell_rest(alloc)?;
    answer?;
    Ok(())
}

/// The groups that `pass` gives, and under the same conditions. After each round a partial report is
/// published, and the observers are told of it, in order, while the next round is worked. Where a
/// pass gives no groups, they were told of the partials of all rounds that were done before.
///
/// # Errors
///
/// Those of `pass`. `NoMemory` also where an observer found no memory.
pub fn pass_watched<T: Threads + Wait + Sync, F: Store, G: Gate + Sync>(
    rt: &T,
    alloc: Global,
    checked: &Checked,
    files: &mut F,
    names: &[String],
    options: &Options,
    observers: &mut Vec<Box<dyn Observer + Send>>,
    gate: &G,
) -> Result<Groups, PassErr>
    requires options { InRange options.now }
    requires few { length names.now ≤ limit.FILES_MAX }
    ensures passed { let p = checked_plan checked.now in
        let names = map string_bytes names.now in
        let rules = rules_of options.now.max_bytes (G.shown gate.now) in
        IfOk result (λ g. PassedAll p rules (F.holds files.old) names g) }
    ensures stopped { let p = checked_plan checked.now in
        let names = map string_bytes names.now in
        let rules = rules_of options.now.max_bytes (G.shown gate.now) in
        let before = F.faults files.old in
        let after = F.faults files.new in
        IfErr result (StopsPass p rules (F.holds files.old) names before after) }
    ensures told { let p = checked_plan checked.now in
        let names = map string_bytes names.now in
        let rules = rules_of options.now.max_bytes (G.shown gate.now) in
        let watched = watched_files p rules options.now.chunk (F.holds files.old) names 1 in
        let olds = map (λ o. log o) observers.old.items in
        let news = map (λ o. log o) observers.new.items in
        OnOk result (ToldAll (checked_tree checked.now) watched olds news) }
    ensures told_until { let p = checked_plan checked.now in
        let names = map string_bytes names.now in
        let rules = rules_of options.now.max_bytes (G.shown gate.now) in
        let watched = watched_files p rules options.now.chunk (F.holds files.old) names 1 in
        let olds = map (λ o. log o) observers.old.items in
        let news = map (λ o. log o) observers.new.items in
        IfErr result (ToldUntil (checked_tree checked.now) watched olds news) }
    ensures same { F.holds files.new ≡ F.holds files.old }
    ensures later { (other : List ℕ) → F.faults files.old other ≤ F.faults files.new other }
{
    let Watch {
        publisher,
        mut watchers,
    } = watch(rt, alloc, 1)?;
    let Some(watcher) = watchers.pop() else {
        publisher.end(rt);
        return Err(PassErr::NoMemory);
    };
    let mut watched = Watched {
        task: Task {
            checked,
            gate,
            workers: options.workers,
        },
        groups: Groups::new(alloc),
        border: 0,
        news: News {
            publisher,
            watcher,
            untold: None,
            observers: mem::replace(observers, Vec::new(alloc)),
        },
    };
    let answer = watch_all(rt, alloc, files, names, options, &mut watched);
    let Watched {
        task: _task,
        groups,
        border: _,
        news,
    } = watched;
    let News {
        publisher,
        watcher: _watcher,
        untold: _untold,
        observers: told,
    } = news;
    *observers = told;
    publisher.end(rt);
    answer?;
    Ok(groups)
}
