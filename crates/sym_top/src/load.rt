//! Scripts, or why a call has none.
ghost use Rattle.std.specs.Prelude.{◌≡◌, ◌≤◌, ℕ, List, None, length, IfOk, IfErr};
ghost use Rattle.sym_base.specs.declared.limits.TheConstants as limit;
ghost use Rattle.sym_top.specs.Loading.{MayRefuse, Loads, Unloads};
ghost use Rattle.sym_top.specs.Programs.{IsProgram, checked_program};

use crate::output::Stop;
use std::alloc::Global;
use sym_base::{SCRIPT_MAX, Store, read_all};
use sym_check::{Checked, check};
use sym_command::Place;
use sym_message::{check_refusal, parse_refusal, read_refusal};
use sym_parse::parse;

/// The checked script of a text.
pub fn accept(alloc: Global, text: &[u8]) -> Result<Checked, Stop>
    requires { length text.now ≤ limit.SCRIPT_MAX }
    ensures accepted { IfOk result (λ checked. IsProgram text.now (checked_program checked)) }
    ensures refused { IfErr result (λ stop. MayRefuse text.now stop.why) }
    ensures none { IfErr result (λ stop. stop.checked ≡ None) }
{
    let script = match parse(alloc, text) {
        Ok(script) => script,
        Err(error) => {
            return Err(Stop {
                why: parse_refusal(error),
                checked: None,
            });
        }
    };
    match check(alloc, script) {
        Ok(checked) => Ok(checked),
        Err(error) => Err(Stop {
            why: check_refusal(error),
            checked: None,
        }),
    }
}

/// Reads, parses and checks the script of this name.
pub fn load_script<F: Store>(alloc: Global, files: &mut F, name: &str) -> Result<Checked, Stop>
    ensures loaded { IfOk result (λ checked.
        Loads (F.holds files.old name.now) (checked_program checked)) }
    ensures refused { let before = F.faults files.old name.now in
        let after = F.faults files.new name.now in
        IfErr result (λ stop. Unloads (F.holds files.old name.now) before after stop.why) }
    ensures none { IfErr result (λ stop. stop.checked ≡ None) }
    ensures same { F.holds files.new ≡ F.holds files.old }
    ensures later { (other : List ℕ) → F.faults files.old other ≤ F.faults files.new other }
{
    let text = match read_all(alloc, files, name, SCRIPT_MAX) {
        Ok(text) => text,
        Err(error) => {
            return Err(Stop {
                why: read_refusal(Place::Script, error),
                checked: None,
            });
        }
    };
    accept(alloc, text.as_slice())
}
