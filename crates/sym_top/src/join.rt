//! The command `join`.
ghost use Rattle.std.specs.Prelude.{◌≡◌, ◌≤◌, ℕ, List, Some};
ghost use Rattle.sym_command.specs.Commands.{Asked, Joins, command_of};
ghost use Rattle.sym_command.specs.Words.{join_seen, IsJoin};
ghost use Rattle.sym_top.specs.Loading.{ComesTo};
ghost use Rattle.sym_top.specs.Promises.{call_of};

use crate::load::load_script;
use crate::output::{Output, Stop, Text};
use crate::run_file_refusal::reduce_refusal;
use std::alloc::Global;
use std::thread::Threads;
use sym_base::Store;
use sym_command::{Command, Join};
use sym_file::write_saved;
use sym_message::{Refusal, Status};
use sym_reduce::join_files;
use sym_report::ReportForm;

/// The text of the join that a command asks for.
pub fn prepare_join<T: Threads + Sync, F: Store>(
    rt: &T,
    alloc: Global,
    join: &Join<'_>,
    files: &mut F,
) -> Result<Output<Box<dyn ReportForm>>, Stop>
    requires { IsJoin join.now }
    ensures comes_to { (asked : Asked) → command_of asked ≡ Some (Joins (join_seen join.now)) →
        let call = call_of F.holds F.faults asked files.old files.new in
        ComesTo call (λ f. gathered f) (Some (Command.Join join.now)) result }
    ensures same { F.holds files.new ≡ F.holds files.old }
    ensures later { (other : List ℕ) → F.faults files.old other ≤ F.faults files.new other }
{
    let checked = match load_script(alloc, files, join.script) {
        Ok(checked) => checked,
        Err(stop) => return Err(stop),
    };
    let names = join.files.as_slice();
    let joined = match join_files(
        rt,
        alloc,
        &checked,
        files,
        names,
        join.max_bytes,
        join.limit,
    ) {
        Ok(joined) => joined,
        Err(error) => {
            return Err(Stop {
                why: reduce_refusal(error),
                checked: Some(checked),
            });
        }
    };
    match write_saved(alloc, &checked, &joined) {
        Ok(text) => Ok(Output {
            status: Status::Done,
            text: Text::Plain(text),
        }),
        Err(_) => Err(Stop {
            why: Refusal::NoMemory,
            checked: Some(checked),
        }),
    }
}
