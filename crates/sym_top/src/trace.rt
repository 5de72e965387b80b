//! The command `trace`.
ghost use Rattle.std.specs.Prelude.{◌≡◌, ◌≤◌, ℕ, List, [], Some};
ghost use Rattle.std.specs.List.{All};
ghost use Rattle.sym_table.specs.Reading.{Row as FileRow};
ghost use Rattle.sym_command.specs.Commands.{Traces, command_in};
ghost use Rattle.sym_command.specs.Words.{trace_seen, IsTrace};
ghost use Rattle.sym_top.specs.Loading.{IsPrepared};
ghost use Rattle.sym_top.specs.Promises.{call_with};

use crate::load::load_script;
use crate::output::{Output, Stop, Text, no_command};
use std::alloc::Global;
use std::sync::Wait;
use std::thread::Threads;
use sym_base::Store;
use sym_command::{Command, Trace};
use sym_message::{Refusal, pass_refusal, report_status};
use sym_report::{ReportForm, choose};
use sym_trace::{TraceForm, trace_files};

/// Gathers the report of a trace, in the form that the command names.
pub fn prepare_trace<T: Threads + Wait + Sync, F: Store>(
    rt: &T,
    alloc: Global,
    trace: &Trace<'_>,
    files: &mut F,
    forms: Vec<Box<dyn ReportForm>>,
) -> Result<Output<Box<dyn ReportForm>>, Stop>
    requires trace { IsTrace trace.now }
    requires empty { All (λ f. gathered f ≡ []) forms.items }
    ensures prepared { (words : List (List ℕ)) (shown : FileRow → FileRow) →
        command_in words ≡ Some (Traces (trace_seen trace.now)) →
        let call = call_with words (λ f. called f) (λ f. texts f) forms.items shown
        F.holds F.faults files.old files.new in
        let command = Some (Command.Trace trace.now) in
        IsPrepared call (λ f. gathered f) command files.old files.new result }
    ensures same { F.holds files.new ≡ F.holds files.old }
    ensures later { (other : List ℕ) → F.faults files.old other ≤ F.faults files.new other }
{
    let form = match choose(forms, trace.form) {
        Some(form) => form,
        None => return Err(no_command(Refusal::Usage)),
    };
    let checked = match load_script(alloc, files, trace.script) {
        Ok(checked) => checked,
        Err(stop) => return Err(stop),
    };
    let shown = TraceForm {
        every: trace.every,
        form,
    };
    match trace_files(
        rt,
        alloc,
        &checked,
        files,
        trace.files.as_slice(),
        &trace.options,
        shown,
    ) {
        Ok(traced) => Ok(Output {
            status: report_status(traced.faulty),
            text: Text::Gathered(traced.form),
        }),
        Err(error) => Err(Stop {
            why: pass_refusal(error),
            checked: Some(checked),
        }),
    }
}
