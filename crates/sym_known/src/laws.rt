//! Laws of the definitions that contracts cite.
ghost use Rattle.std.specs.Prelude.{◌≡◌, List};
ghost use Rattle.sym_base.specs.declared.values.record.Record.{Record as OneRecord};
ghost use Rattle.sym_base.specs.declared.values.state.Cell.{Cell as OneCell};
ghost use Rattle.sym_base.specs.declared.values.state.Outcome.{Outcome as OneOutcome};
ghost use Rattle.sym_check.specs.Meaning.Updates.{step};
ghost use Rattle.sym_check.specs.Meaning.Validity.{IsValidOutcome};
ghost use Rattle.sym_check.specs.Plan.ScriptPlans.{ScriptPlan};
ghost use Rattle.sym_check.specs.Plan.WellFormed.{IsWellFormed};
ghost use Rattle.sym_known.specs.Fronts.{outcome_fronted};

/// A step leaves the lists alone that a state had before it: it does the same whatever they hold,
/// and what it pushes goes after them.
#[tactic(auto, using(crate::proofs::LeftAlone::step_fronted))]
pub fn steps_leave_lists_alone()
    ensures { (p : ScriptPlan) (olds : List OneCell) (o : OneOutcome) (rec : OneRecord) →
        IsWellFormed p → IsValidOutcome p o →
        step p (outcome_fronted olds o) rec ≡ outcome_fronted olds (step p o rec) }
{}
