//! What paths make of valid states.
ghost use Rattle.sym_base.specs.declared.values.state.State.{State as OneState};
ghost use Rattle.sym_base.specs.Tests.{Truth};
ghost use Rattle.sym_check.specs.Plan.ScriptPlans.{ScriptPlan};
ghost use Rattle.sym_check.specs.Meaning.Validity.{IsValid, IsValidOutcome};
ghost use Rattle.sym_path.specs.declared.path.Path.{Path as OnePath};
ghost use Rattle.sym_path.specs.Admitting.{Admits};
ghost use Rattle.sym_path.specs.Fitting.{PathFits};
ghost use Rattle.sym_path.specs.Giving.{end_at};

/// A path that fits the script makes a valid state, or a fault, of each valid state that it admits,
/// whatever the tests answer.
pub fn paths_keep_states_valid()
    ensures { (p : ScriptPlan) (truth : Truth) (path : OnePath) (s : OneState) → PathFits p path →
        Admits truth path.when s → IsValid p s → IsValidOutcome p (end_at path.end s) }
{}
