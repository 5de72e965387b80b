//! The command `reduce`.
ghost use Rattle.std.specs.Prelude.{◌≡◌, ◌≤◌, ℕ, List, [], Some};
ghost use Rattle.std.specs.List.{All};
ghost use Rattle.sym_table.specs.Reading.{Row as FileRow};
ghost use Rattle.sym_command.specs.Commands.{Reduces, command_in};
ghost use Rattle.sym_command.specs.Words.{reduce_seen, IsReduce};
ghost use Rattle.sym_top.specs.Loading.{IsPrepared};
ghost use Rattle.sym_top.specs.Promises.{call_with};

use crate::load::load_script;
use crate::output::{Output, Stop, Text, no_command};
use crate::run_file_refusal::reduce_refusal;
use std::alloc::Global;
use sym_base::Store;
use sym_command::{Command, Reduce};
use sym_message::{Refusal, report_status};
use sym_reduce::reduce_files;
use sym_report::{ReportForm, choose, write_report};

/// Gathers the report on saved runs that a command asks for, in the form that it names.
pub fn prepare_reduce<F: Store>(
    alloc: Global,
    reduce: &Reduce<'_>,
    files: &mut F,
    forms: Vec<Box<dyn ReportForm>>,
) -> Result<Output<Box<dyn ReportForm>>, Stop>
    requires reduce { IsReduce reduce.now }
    requires empty { All (λ f. gathered f ≡ []) forms.items }
    ensures prepared { (words : List (List ℕ)) (shown : FileRow → FileRow) →
        command_in words ≡ Some (Reduces (reduce_seen reduce.now)) →
        let call = call_with words (λ f. called f) (λ f. texts f) forms.items shown
        F.holds F.faults files.old files.new in
        let command = Some (Command.Reduce reduce.now) in
        IsPrepared call (λ f. gathered f) command files.old files.new result }
    ensures same { F.holds files.new ≡ F.holds files.old }
    ensures later { (other : List ℕ) → F.faults files.old other ≤ F.faults files.new other }
{
    let mut form = match choose(forms, reduce.form) {
        Some(form) => form,
        None => return Err(no_command(Refusal::Usage)),
    };
    let checked = match load_script(alloc, files, reduce.script) {
        Ok(checked) => checked,
        Err(stop) => return Err(stop),
    };
    let names = reduce.files.as_slice();
    let totals = match reduce_files(alloc, &checked, files, names, reduce.max_bytes) {
        Ok(totals) => totals,
        Err(error) => {
            return Err(Stop {
                why: reduce_refusal(error),
                checked: Some(checked),
            });
        }
    };
    match write_report(alloc, &checked, totals.groups(), &mut form) {
        Ok(faulty) => Ok(Output {
            status: report_status(faulty),
            text: Text::Gathered(form),
        }),
        Err(_) => Err(Stop {
            why: Refusal::NoMemory,
            checked: Some(checked),
        }),
    }
}
