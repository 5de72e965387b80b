//! Scripts that break no rule.
ghost use Rattle.std.specs.Prelude.{◌≡◌};
ghost use Rattle.sym_base.specs.Lawful.{IsLawful};
ghost use Rattle.sym_base.specs.Trees.{script_tree};
ghost use Rattle.sym_check.specs.Meaning.PathBounds.{path_bound as paths_of};
ghost use Rattle.sym_check.specs.Checking.PlanSets.{IsPlanned, IsPlanned-prop};
ghost use Rattle.sym_check.specs.Plan.ScriptPlans.{script_plan};

use crate::path_bound::path_bound_of;
use crate::plan::script::Plan;
use std::alloc::Global;
use sym_base::{NoMemory, Script};

/// A script that breaks no rule, with its plan and its path bound.
pub struct Checked {
    script: Script,
    plan: Plan,
    path_bound: u32,
    pub ghost lawful: { IsLawful (script_tree script) },
    pub ghost planned: { IsPlanned script plan } by { IsPlanned-prop script plan },
    pub ghost bound: { path_bound ≡ paths_of (script_plan plan) },
}

// Written here so that the crates above don't prove it for each type inside.
impl Drop for Checked {
    fn drop(self) {
        let Checked {
            script: _script,
            plan: _plan,
            path_bound: _path_bound,
        } = self;
    }
}

impl Checked {
    ghost use Rattle.std.specs.Prelude.{◌≤◌, IfOk, IsTrue, length};
    ghost use Rattle.std.specs.List.{list_all};
    ghost use Rattle.sym_base.specs.Limits.{max_fields};
    ghost use Rattle.sym_base.specs.declared.limits.TheConstants as limit;
    ghost use Rattle.sym_check.specs.Checking.CheckedScripts.{checked_tree, checked_plan};
    ghost use Rattle.sym_check.specs.Meaning.Conditions.{has_fixed_body};
    ghost use Rattle.sym_check.specs.Rules.Scripts.{IsAccepted};
    ghost use Rattle.sym_check.specs.Plan.WellFormed.{IsWellFormed};

    // The script with its plan.
    pub(crate) fn of(script: Script, plan: Plan) -> Checked
        requires lawful { IsLawful (script_tree script) }
        requires planned { IsPlanned script plan }
        ensures script { checked_tree result ≡ script_tree script }
        ensures plan { checked_plan result ≡ script_plan plan }
    {
        let path_bound = path_bound_of(&plan);
        Checked {
            script,
            plan,
            path_bound,
        }
    }

    /// An equal checked script of its own.
    pub fn copy(&self, alloc: Global) -> Result<Checked, NoMemory>
        ensures script { IfOk result (λ c. checked_tree c ≡ checked_tree self.now) }
        ensures plan { IfOk result (λ c. checked_plan c ≡ checked_plan self.now) }
    {
        let script = self.script.copy(alloc)?;
        let plan = self.plan.copy(alloc)?;
        Ok(Checked::of(script, plan))
    }

    /// The script.
    pub fn script(&self) -> &Script
        ensures same { script_tree result.now ≡ checked_tree self.now }
        ensures lawful { IsLawful (script_tree result.now) }
    {
        &self.script
    }

    /// The script's plan: its names are numbers, and each number names what its place needs.
    pub fn plan(&self) -> &Plan
        ensures same { script_plan result.now ≡ checked_plan self.now }
        ensures accepted { IsAccepted (checked_tree self.now) (script_plan result.now) }
        ensures well_formed { IsWellFormed (script_plan result.now) }
        ensures fields { length (script_plan result.now).fields ≤ max_fields }
        ensures tests { IsTrue (list_all has_fixed_body (script_plan result.now).tests) }
    {
        &self.plan
    }

    /// How many paths the symbolic execution of one record can have at most.
    pub fn path_bound(&self) -> u32
        ensures bound { result ≡ paths_of (checked_plan self.now) }
        ensures few { result ≤ limit.PATHS_MAX }
    {
        self.path_bound
    }
}
