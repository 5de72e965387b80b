//! The command `check`.
ghost use Rattle.std.specs.Prelude.{◌≡◌, ◌≤◌, ℕ, List, Some, IfOk};
ghost use Rattle.sym_command.specs.Commands.{Asked, Checks, command_of};
ghost use Rattle.sym_command.specs.Words.{check_seen};
ghost use Rattle.sym_top.specs.Ends.{said_of};
ghost use Rattle.sym_top.specs.Loading.{ComesTo};
ghost use Rattle.sym_top.specs.Programs.{checked_program};
ghost use Rattle.sym_top.specs.Promises.{call_of};

use crate::load::load_script;
use crate::output::{Output, Stop, Text};
use std::alloc::Global;
use sym_base::{NoMemory, Store};
use sym_check::Checked;
use sym_command::{Check, Command};
use sym_message::{Refusal, Status, check_line};
use sym_parse::print;
use sym_report::ReportForm;

// What is said of a script: its line, or the script as it is printed.
fn say(alloc: Global, checked: &Checked, print_it: bool) -> Result<Vec<u8>, NoMemory>
    ensures { IfOk result (λ text. text.items ≡ said_of print_it (checked_program checked.now)) }
{
    if print_it {
        print(alloc, checked.script())
    } else {
        check_line(alloc, checked)
    }
}

/// What is said of the script of a check.
pub fn prepare_check<F: Store>(
    alloc: Global,
    check: &Check<'_>,
    files: &mut F,
) -> Result<Output<Box<dyn ReportForm>>, Stop>
    ensures comes_to { (asked : Asked) → command_of asked ≡ Some (Checks (check_seen check.now)) →
        let call = call_of F.holds F.faults asked files.old files.new in
        ComesTo call (λ f. gathered f) (Some (Command.Check check.now)) result }
    ensures same { F.holds files.new ≡ F.holds files.old }
    ensures later { (other : List ℕ) → F.faults files.old other ≤ F.faults files.new other }
{
    let checked = match load_script(alloc, files, check.script) {
        Ok(checked) => checked,
        Err(stop) => return Err(stop),
    };
    match say(alloc, &checked, check.print) {
        Ok(text) => Ok(Output {
            status: Status::Done,
            text: Text::Plain(text),
        }),
        Err(_) => Err(Stop {
            why: Refusal::NoMemory,
            checked: Some(checked),
        }),
    }
}
