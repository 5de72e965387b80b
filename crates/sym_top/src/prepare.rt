//! All of a command but the writing.
ghost use Rattle.std.specs.Prelude.{◌≡◌, ◌≤◌, ℕ, List, [], IfSome};
ghost use Rattle.std.specs.List.{All};
ghost use Rattle.std.specs.Option.{option_map};
ghost use Rattle.sym_command.specs.Commands.{command_in};
ghost use Rattle.sym_command.specs.Words.{IsInRange, command_seen};
ghost use Rattle.sym_top.specs.Loading.{IsPrepared};
ghost use Rattle.sym_top.specs.Observers.{IsObserved, logs_of};
ghost use Rattle.sym_top.specs.Promises.{call_with};

use crate::check::prepare_check;
use crate::join::prepare_join;
use crate::made::prepare_make;
use crate::map::prepare_map;
use crate::output::{Output, Stop, no_command};
use crate::reduce::prepare_reduce;
use crate::run::prepare_run;
use crate::trace::prepare_trace;
use std::alloc::Global;
use std::sync::Wait;
use std::thread::Threads;
use sym_base::Store;
use sym_command::Command;
use sym_engine::Gate;
use sym_message::Refusal;
use sym_report::ReportForm;
use sym_watch::Observer;

/// What the command comes to, if there is one. Its report is gathered in the form that it names,
/// and the observers are told of partials where a run is watched.
pub fn prepare<T: Threads + Wait + Sync, F: Store, G: Gate + Sync>(
    rt: &T,
    alloc: Global,
    command: &Option<Command<'_>>,
    files: &mut F,
    forms: Vec<Box<dyn ReportForm>>,
    observers: &mut Vec<Box<dyn Observer + Send>>,
    gate: &G,
) -> Result<Output<Box<dyn ReportForm>>, Stop>
    requires range { IfSome command.now IsInRange }
    requires empty { All (λ f. gathered f ≡ []) forms.items }
    ensures prepared { (words : List (List ℕ)) →
        command_in words ≡ option_map command_seen command.now →
        let call = call_with words (λ f. called f) (λ f. texts f) forms.items (G.shown gate.now)
        F.holds F.faults files.old files.new in
        IsPrepared call (λ f. gathered f) command.now files.old files.new result }
    ensures observed { (words : List (List ℕ)) →
        command_in words ≡ option_map command_seen command.now →
        let call = call_with words (λ f. called f) (λ f. texts f) forms.items (G.shown gate.now)
        F.holds F.faults files.old files.new in
        let logs = logs_of (λ o. log o) observers.old.items observers.new.items in
        IsObserved call logs observers.old observers.new result }
    ensures same { F.holds files.new ≡ F.holds files.old }
    ensures later { (other : List ℕ) → F.faults files.old other ≤ F.faults files.new other }
{
    let command = match command {
        Some(command) => command,
        None => return Err(no_command(Refusal::Usage)),
    };
    match command {
        Command::Run(run) => prepare_run(rt, alloc, run, files, forms, observers, gate),
        Command::Trace(trace) => prepare_trace(rt, alloc, trace, files, forms),
        Command::Check(check) => prepare_check(alloc, check, files),
        Command::Make(make) => prepare_make(rt, alloc, make, gate),
        Command::Map(part) => prepare_map(rt, alloc, part, files, gate),
        Command::Reduce(reduce) => prepare_reduce(alloc, reduce, files, forms),
        Command::Join(join) => prepare_join(rt, alloc, join, files),
    }
}
