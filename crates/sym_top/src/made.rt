//! The command `make`.
ghost use Rattle.std.specs.Prelude.{◌≡◌, [], ◌∷◌, Some, map, IfOk, IfErr};
ghost use Rattle.std.specs.String.{string_bytes};
ghost use Rattle.sym_base.specs.InMemory.{visible_bytes};
ghost use Rattle.sym_files.specs.FileRecords.{rules_of};
ghost use Rattle.sym_files.specs.Options.{InRange};
ghost use Rattle.sym_command.specs.Commands.{Makes, command_of};
ghost use Rattle.sym_command.specs.Words.{make_seen};
ghost use Rattle.sym_top.specs.Loading.{ComesTo, Passed, StopsRecords};
ghost use Rattle.sym_top.specs.Making.{made_file as made_file_of};
ghost use Rattle.sym_top.specs.Programs.{checked_program};
ghost use Rattle.sym_top.specs.Promises.{Call, IsReported};

use crate::load::accept;
use crate::make::{made_file, made_script};
use crate::output::{Output, Stop, Text};
use std::alloc::Global;
use std::sync::Wait;
use std::thread::Threads;
use sym_base::{NoMemory, SureStore};
use sym_check::Checked;
use sym_command::{Command, MADE_NAME, Make};
use sym_engine::{Gate, pass};
use sym_message::{Refusal, pass_refusal, summary};
use sym_plain::Groups;
use sym_report::ReportForm;

// A store with the log.
fn made_store(alloc: Global, make: &Make) -> Result<SureStore, NoMemory>
    ensures { let log = made_file_of make.now.records make.now.seed in
        IfOk result (λ store. visible_bytes store MADE_NAME.now ≡ Some log) }
{
    let log = made_file(alloc, make.records, make.seed)?;
    let mut store = SureStore::new(alloc);
    store.add(alloc, MADE_NAME, log.as_slice())?;
    Ok(store)
}

// The name of the log, as the one file of records.
fn made_names(alloc: Global) -> Result<Vec<String>, NoMemory>
    ensures { IfOk result (λ names. map string_bytes names.items ≡ MADE_NAME.now ∷ []) }
{
    let mut names = Vec::new(alloc);
    names.push(String::from_str(alloc, MADE_NAME)?)?;
    Ok(names)
}

// The groups of a pass over the log, through the gate.
fn pass_made<T: Threads + Wait + Sync, G: Gate + Sync>(
    rt: &T,
    alloc: Global,
    checked: &Checked,
    make: &Make,
    gate: &G,
) -> Result<Groups, Refusal>
    requires { InRange make.now.options }
    ensures passed { let program = checked_program checked.now in
        let rules = rules_of make.now.options.max_bytes (G.shown gate.now) in
        let log = made_file_of make.now.records make.now.seed in
        IfOk result (Passed program rules (log ∷ [])) }
    ensures stopped { let program = checked_program checked.now in
        let rules = rules_of make.now.options.max_bytes (G.shown gate.now) in
        let log = made_file_of make.now.records make.now.seed in
        IfErr result (StopsRecords program rules (log ∷ [])) }
{
    let mut store = match made_store(alloc, make) {
        Ok(store) => store,
        Err(_) => return Err(Refusal::NoMemory),
    };
    let names = match made_names(alloc) {
        Ok(names) => names,
        Err(_) => return Err(Refusal::NoMemory),
    };
    match pass(
        rt,
        alloc,
        checked,
        &mut store,
        names.as_slice(),
        &make.options,
        gate,
    ) {
        Ok(groups) => Ok(groups),
        Err(error) => Err(pass_refusal(error)),
    }
}

/// The summary of a pass over the log of a making, through the gate.
pub fn prepare_make<T: Threads + Wait + Sync, G: Gate + Sync>(
    rt: &T,
    alloc: Global,
    make: &Make,
    gate: &G,
) -> Result<Output<Box<dyn ReportForm>>, Stop>
    requires { InRange make.now.options }
    ensures comes_to { (call : Call) → command_of call.asked ≡ Some (Makes (make_seen make.now)) →
        call.asked.shown ≡ G.shown gate.now →
        ComesTo call (λ f. gathered f) (Some (Command.Make make.now)) result }
    ensures reported { IfOk result (λ output. IsReported output.status) }
{
    let checked = match accept(alloc, made_script()) {
        Ok(checked) => checked,
        Err(stop) => return Err(stop),
    };
    let groups = match pass_made(rt, alloc, &checked, make, gate) {
        Ok(groups) => groups,
        Err(why) => {
            return Err(Stop {
                why,
                checked: Some(checked),
            });
        }
    };
    match summary(alloc, &checked, &groups, make.records) {
        Ok(report) => Ok(Output {
            status: report.status,
            text: Text::Plain(report.text),
        }),
        Err(_) => Err(Stop {
            why: Refusal::NoMemory,
            checked: Some(checked),
        }),
    }
}
