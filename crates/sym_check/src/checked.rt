//! Checking scripts.
ghost use Rattle.std.specs.Prelude.{◌≡◌, ◌≢◌, IfOk, IfErr, Ok, Err};
ghost use Rattle.sym_base.specs.Lawful.{IsLawful};
ghost use Rattle.sym_base.specs.Trees.{script_tree};
ghost use Rattle.sym_check.specs.Checking.CheckedScripts.{checked_tree, checked_plan};
ghost use Rattle.sym_check.specs.Plan.ScriptPlans.{ScriptPlan as Planned};
ghost use Rattle.sym_check.specs.Rules.Scripts.{IsAccepted, BreaksScript};
ghost use Rattle.sym_check.specs.Checking.TypedPlans.{Answers};
ghost use Rattle.sym_check.specs.declared.elaborate.error.CheckErr.{CheckErr as Fault};
ghost use Rattle.sym_check.specs.declared.elaborate.error.CheckErr.TheVariants as fault;

mod accepted;

pub use crate::elaborate::error::CheckErr;
use crate::elaborate::script::elaborate_script;
pub use accepted::Checked;
use std::alloc::Global;
use sym_base::Script;

/// Tries the rules in the order of the script's text. `Ok` has the plan of a script that breaks
/// none; else the first broken rule is returned, with its place. `Branchy` is returned where no
/// other rule is broken. The script is dropped after an `Err`.
pub fn check(alloc: Global, script: Script) -> Result<Checked, CheckErr>
    requires { IsLawful (script_tree script) }
    ensures script { IfOk result (λ c. checked_tree c ≡ script_tree script) }
    ensures means { IfOk result (λ c. IsAccepted (script_tree script) (checked_plan c)) }
    ensures breaks { IfErr result (λ f. f ≢ fault.NoMemory → BreaksScript (script_tree script) f) }
    ensures broken { (f : Fault) → BreaksScript (script_tree script) f →
        Answers checked_plan (Err f) result }
    ensures only { (p : Planned) → IsAccepted (script_tree script) p →
        Answers checked_plan (Ok p) result }
{
    let plan = elaborate_script(alloc, &script)?;
    Ok(Checked::of(script, plan))
}
