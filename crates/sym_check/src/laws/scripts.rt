//! Laws of the rules on whole scripts.
ghost use Rattle.std.specs.Prelude.{◌≡◌, ◌↔◌, ◌⊎◌, Ok, Err};
ghost use Rattle.sym_base.specs.Lawful.{IsLawful};
ghost use Rattle.sym_base.specs.Trees.{ScriptTree};
ghost use Rattle.sym_check.specs.declared.elaborate.error.CheckErr.{CheckErr as Fault};
ghost use Rattle.sym_check.specs.Plan.ScriptPlans.{ScriptPlan};
ghost use Rattle.sym_check.specs.Rules.Scripts.{IsAccepted, BreaksScript, plan_of};
ghost use Rattle.sym_check.specs.Plan.WellFormed.{IsWellFormed};

/// The plan of a script, and its first broken rule, are what the function answers. So a script has
/// one plan or one first broken rule, and never both.
pub fn scripts_have_a_plan_or_a_fault()
    ensures plan { (t : ScriptTree) (p : ScriptPlan) → IsAccepted t p ↔ (plan_of t ≡ Ok p) }
    ensures fault { (t : ScriptTree) (f : Fault) → BreaksScript t f ↔ (plan_of t ≡ Err f) }
    ensures either { (t : ScriptTree) →
        ((p : ScriptPlan) × IsAccepted t p) ⊎ ((f : Fault) × BreaksScript t f) }
{}

/// In the plan of an accepted script each number names what its place needs.
pub fn accepted_plans_are_well_formed()
    ensures { (t : ScriptTree) (p : ScriptPlan) →
        IsLawful t → IsAccepted t p → IsWellFormed p }
{}
