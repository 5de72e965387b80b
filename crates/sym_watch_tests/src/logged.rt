//! A watched pass one of whose observers has a log that contracts see.
ghost use Rattle.std.specs.Prelude.{◌≡◌, ◌≤◌, IfOk, length, map};
ghost use Rattle.std.specs.String.{string_bytes};
ghost use Rattle.sym_base.specs.declared.limits.TheConstants as limit;
ghost use Rattle.sym_check.specs.Checking.CheckedScripts.{checked_plan, checked_tree};
ghost use Rattle.sym_files.specs.FileRecords.{rules_of};
ghost use Rattle.sym_files.specs.FileRounds.{OfFiles};
ghost use Rattle.sym_files.specs.Options.{InRange};
ghost use Rattle.sym_watched.specs.Partials.{watched_files};
ghost use Rattle.sym_watch_tests.specs.Logged.{IsLogged, untold};

use crate::comparer::Comparer;
use crate::logger::Logger;
use std::alloc::Global;
use std::sync::Wait;
use std::thread::Threads;
use sym_base::{NoMemory, Store};
use sym_check::Checked;
use sym_engine::{Free, OpenGate, Options, PassErr, pass_watched};
use sym_plain::Groups;
use sym_watch::Observer;

/// Two observers that were told of nothing: one whose log contracts see, and another one.
pub(crate) fn observers_of(
    alloc: Global,
    other: Comparer,
) -> Result<Vec<Box<dyn Observer + Send>>, NoMemory>
    ensures { IfOk result (λ observers. map (λ o. log o) observers.items ≡ untold) }
{
    let logger: Box<dyn Observer + Send> = Box::new(alloc, Logger::new())?;
    let other: Box<dyn Observer + Send> = Box::new(alloc, other)?;
    Ok(Vec::from_array(alloc, [logger, other])?)
}

/// The groups of a pass that is watched by these observers. The log of the first one is that of the
/// partials at the borders of all rounds of all files, the last of which is the report on the groups.
pub(crate) fn logged<T: Threads + Wait + Sync, F: Store>(
    rt: &T,
    alloc: Global,
    checked: &Checked,
    files: &mut F,
    names: &[String],
    options: &Options,
    observers: &mut Vec<Box<dyn Observer + Send>>,
) -> Result<Groups, PassErr>
    requires options { InRange options.now }
    requires few { length names.now ≤ limit.FILES_MAX }
    requires begun { map (λ o. log o) observers.old.items ≡ untold }
    ensures { let tree = checked_tree checked.now in
        let rules = rules_of options.now.max_bytes (λ row. row) in
        let names = map string_bytes names.now in
        let holds = F.holds files.old in
        let w = watched_files (checked_plan checked.now) rules options.now.chunk holds names 1 in
        let logs = map (λ o. log o) observers.new.items in
        IfOk result (λ groups. OfFiles w (length w.names) (IsLogged tree w logs groups)) }
{
    let gate = OpenGate { hold: Free };
    pass_watched(rt, alloc, checked, files, names, options, observers, &gate)
}
