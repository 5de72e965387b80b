//! The command `run`.
ghost use Rattle.std.specs.Prelude.{◌≡◌, ◌≤◌, ℕ, true, false, List, [], Some, map, IfOk, IfErr, OnOk};
ghost use Rattle.std.specs.List.{All};
ghost use Rattle.std.specs.String.{string_bytes};
ghost use Rattle.sym_files.specs.FileRecords.{rules_of};
ghost use Rattle.sym_files.specs.Passing.{StopsPass};
ghost use Rattle.sym_passes.specs.Passed.{PassedAll};
ghost use Rattle.sym_watched.specs.Partials.{ToldAll, ToldUntil};
ghost use Rattle.sym_command.specs.Commands.{Runs, command_in};
ghost use Rattle.sym_command.specs.Words.{run_seen, IsRun};
ghost use Rattle.sym_top.specs.Loading.{IsPrepared};
ghost use Rattle.sym_top.specs.Observers.{IsObserved, logs_of, watched_by};
ghost use Rattle.sym_top.specs.Programs.{checked_program};
ghost use Rattle.sym_top.specs.Promises.{call_with};

use crate::load::load_script;
use crate::output::{Output, Stop, Text, no_command};
use std::alloc::Global;
use std::sync::Wait;
use std::thread::Threads;
use sym_base::Store;
use sym_check::Checked;
use sym_command::{Command, Run};
use sym_engine::{Gate, PassErr, pass, pass_watched};
use sym_message::{Refusal, pass_refusal, report_status};
use sym_plain::Groups;
use sym_report::{ReportForm, choose, write_report};
use sym_watch::Observer;

// The groups of a script over the records of the run's files, in order, which are cut and worked on
// by its options, through the gate. The observers are told of partials where the run is watched.
fn pass_run<T: Threads + Wait + Sync, F: Store, G: Gate + Sync>(
    rt: &T,
    alloc: Global,
    checked: &Checked,
    run: &Run<'_>,
    files: &mut F,
    observers: &mut Vec<Box<dyn Observer + Send>>,
    gate: &G,
) -> Result<Groups, PassErr>
    requires run { IsRun run.now }
    ensures passed { let names = map string_bytes run.now.files.items in
        let program = checked_program checked.now in
        let rules = rules_of run.now.options.max_bytes (G.shown gate.now) in
        IfOk result (λ g. PassedAll program.plan rules (F.holds files.old) names g) }
    ensures stopped { let names = map string_bytes run.now.files.items in
        let program = checked_program checked.now in
        let rules = rules_of run.now.options.max_bytes (G.shown gate.now) in
        let before = F.faults files.old in
        let after = F.faults files.new in
        IfErr result (StopsPass program.plan rules (F.holds files.old) names before after) }
    ensures told { run.now.watch ≡ true →
        let program = checked_program checked.now in
        let watched = watched_by (G.shown gate.now) (F.holds files.old) run.now program in
        let logs = logs_of (λ o. log o) observers.old.items observers.new.items in
        OnOk result (ToldAll program.tree watched logs.before logs.after) }
    ensures told_until { run.now.watch ≡ true →
        let program = checked_program checked.now in
        let watched = watched_by (G.shown gate.now) (F.holds files.old) run.now program in
        let logs = logs_of (λ o. log o) observers.old.items observers.new.items in
        IfErr result (ToldUntil program.tree watched logs.before logs.after) }
    ensures unwatched { run.now.watch ≡ false → observers.new ≡ observers.old }
    ensures same { F.holds files.new ≡ F.holds files.old }
    ensures later { (other : List ℕ) → F.faults files.old other ≤ F.faults files.new other }
{
    let names = run.files.as_slice();
    let options = &run.options;
    if run.watch {
        pass_watched(rt, alloc, checked, files, names, options, observers, gate)
    } else {
        pass(rt, alloc, checked, files, names, options, gate)
    }
}

/// Gathers the report of a run, in the form that the command names. The files of records are worked
/// on through the gate, and the observers are told of partials where the run is watched.
pub fn prepare_run<T: Threads + Wait + Sync, F: Store, G: Gate + Sync>(
    rt: &T,
    alloc: Global,
    run: &Run<'_>,
    files: &mut F,
    forms: Vec<Box<dyn ReportForm>>,
    observers: &mut Vec<Box<dyn Observer + Send>>,
    gate: &G,
) -> Result<Output<Box<dyn ReportForm>>, Stop>
    requires run { IsRun run.now }
    requires empty { All (λ f. gathered f ≡ []) forms.items }
    ensures prepared { (words : List (List ℕ)) →
        command_in words ≡ Some (Runs (run_seen run.now)) →
        let call = call_with words (λ f. called f) (λ f. texts f) forms.items (G.shown gate.now)
        F.holds F.faults files.old files.new in
        let command = Some (Command.Run run.now) in
        IsPrepared call (λ f. gathered f) command files.old files.new result }
    ensures observed { (words : List (List ℕ)) →
        command_in words ≡ Some (Runs (run_seen run.now)) →
        let call = call_with words (λ f. called f) (λ f. texts f) forms.items (G.shown gate.now)
        F.holds F.faults files.old files.new in
        let logs = logs_of (λ o. log o) observers.old.items observers.new.items in
        IsObserved call logs observers.old observers.new result }
    ensures same { F.holds files.new ≡ F.holds files.old }
    ensures later { (other : List ℕ) → F.faults files.old other ≤ F.faults files.new other }
{
    let mut form = match choose(forms, run.form) {
        Some(form) => form,
        None => return Err(no_command(Refusal::Usage)),
    };
    let checked = match load_script(alloc, files, run.script) {
        Ok(checked) => checked,
        Err(stop) => return Err(stop),
    };
    let _plan = checked.plan();
    let groups = match pass_run(rt, alloc, &checked, run, files, observers, gate) {
        Ok(groups) => groups,
        Err(error) => {
            return Err(Stop {
                why: pass_refusal(error),
                checked: Some(checked),
            });
        }
    };
    match write_report(alloc, &checked, &groups, &mut form) {
        Ok(faulty) => Ok(Output {
            status: report_status(faulty),
            text: Text::Gathered(form),
        }),
        Err(_) => Err(Stop {
            why: Refusal::NoMemory,
            checked: Some(checked),
        }),
    }
}
