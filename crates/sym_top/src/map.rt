//! The command `map`.
ghost use Rattle.std.specs.Prelude.{◌≡◌, ◌≤◌, ℕ, List, Some};
ghost use Rattle.sym_command.specs.Commands.{Asked, Maps, command_of};
ghost use Rattle.sym_command.specs.Words.{map_seen, IsMap};
ghost use Rattle.sym_top.specs.Loading.{ComesTo};
ghost use Rattle.sym_top.specs.Promises.{call_of};

use crate::load::load_script;
use crate::output::{Output, Stop, Text};
use std::alloc::Global;
use std::sync::Wait;
use std::thread::Threads;
use sym_base::Store;
use sym_command::{Command, Map};
use sym_engine::{Gate, summarise};
use sym_file::write_saved;
use sym_message::{Refusal, Status, pass_refusal};
use sym_report::ReportForm;

/// The text of the saved run that a command asks for. The files of records are worked on through
/// the gate.
pub fn prepare_map<T: Threads + Wait + Sync, F: Store, G: Gate + Sync>(
    rt: &T,
    alloc: Global,
    part: &Map<'_>,
    files: &mut F,
    gate: &G,
) -> Result<Output<Box<dyn ReportForm>>, Stop>
    requires { IsMap part.now }
    ensures comes_to { (asked : Asked) → command_of asked ≡ Some (Maps (map_seen part.now)) →
        asked.shown ≡ G.shown gate.now →
        let call = call_of F.holds F.faults asked files.old files.new in
        ComesTo call (λ f. gathered f) (Some (Command.Map part.now)) result }
    ensures same { F.holds files.new ≡ F.holds files.old }
    ensures later { (other : List ℕ) → F.faults files.old other ≤ F.faults files.new other }
{
    let checked = match load_script(alloc, files, part.script) {
        Ok(checked) => checked,
        Err(stop) => return Err(stop),
    };
    let names = part.files.as_slice();
    let options = &part.options;
    let saved = match summarise(rt, alloc, &checked, files, names, options, part.first, gate) {
        Ok(saved) => saved,
        Err(error) => {
            return Err(Stop {
                why: pass_refusal(error),
                checked: Some(checked),
            });
        }
    };
    match write_saved(alloc, &checked, &saved) {
        Ok(text) => Ok(Output {
            status: Status::Done,
            text: Text::Plain(text),
        }),
        Err(_) => Err(Stop {
            why: Refusal::NoMemory,
            checked: Some(checked),
        }),
    }
}
