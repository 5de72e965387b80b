//! Laws of the definitions on plans.
ghost use Rattle.std.specs.Prelude.{◌≡◌, ◌++◌, ◌∷◌, [], List, IsTrue};
ghost use Rattle.std.specs.List.{list_all};
ghost use Rattle.sym_base.specs.declared.values.record.Record.{Record as OneRecord};
ghost use Rattle.sym_base.specs.declared.values.state.Fault.{Fault as OneFault};
ghost use Rattle.sym_base.specs.declared.values.state.Outcome.{Outcome as OneOutcome};
ghost use Rattle.sym_base.specs.declared.values.state.Outcome.TheVariants.{Ended};
ghost use Rattle.sym_base.specs.declared.values.state.State.{State as OneState};
ghost use Rattle.sym_check.specs.Plan.ScriptPlans.{ScriptPlan};
ghost use Rattle.sym_check.specs.Meaning.Conditions.{has_fixed_body};
ghost use Rattle.sym_check.specs.Meaning.Fitting.{FitsState, FitsOutcome};
ghost use Rattle.sym_check.specs.Meaning.Groups.{key_of};
ghost use Rattle.sym_check.specs.Meaning.Updates.{initial, step, after};
ghost use Rattle.sym_check.specs.Meaning.Validity.{IsRecord, IsKey, IsValid, IsValidOutcome};
ghost use Rattle.sym_check.specs.Plan.WellFormed.{IsWellFormed};

/// One record more is one step more, and more records go on from where the first ones ended. A
/// group that has ended stays as it is.
pub fn records_run_on()
    ensures one { (p : ScriptPlan) (records : List OneRecord) (rec : OneRecord) (o : OneOutcome) →
        after p (records ++ rec ∷ []) o ≡ step p (after p records o) rec }
    ensures more { (p : ScriptPlan) (first rest : List OneRecord) (o : OneOutcome) →
        after p (first ++ rest) o ≡ after p rest (after p first o) }
    ensures ended { (p : ScriptPlan) (records : List OneRecord) (fault : OneFault) →
        after p records (Ended fault) ≡ Ended fault }
{}

/// A group begins with a valid state, and no record leads to one that isn't.
pub fn well_formed_plans_keep_states_valid()
    ensures first { (p : ScriptPlan) → IsWellFormed p → IsValid p (initial p) }
    ensures then { (p : ScriptPlan) (o : OneOutcome) (rec : OneRecord) →
        IsWellFormed p → IsRecord p rec → IsValidOutcome p o → IsValidOutcome p (step p o rec) }
{}

/// A record's key is of the script's kind, a valid state fits the script, and so does what a step
/// leads to: a fault by a number names a cell that has a range.
pub fn keys_states_and_steps_fit()
    ensures key { (p : ScriptPlan) (rec : OneRecord) → IsRecord p rec → IsKey p (key_of p rec) }
    ensures state { (p : ScriptPlan) (s : OneState) → IsValid p s → FitsState p s }
    ensures then { (p : ScriptPlan) (o : OneOutcome) (rec : OneRecord) →
        IsWellFormed p → IsValidOutcome p (step p o rec) → FitsOutcome p o →
        FitsOutcome p (step p o rec) }
{}

/// The bodies of tests name no cell and call no test.
pub fn well_formed_tests_are_fixed()
    ensures { (p : ScriptPlan) → IsWellFormed p → IsTrue (list_all has_fixed_body p.tests) }
{}
