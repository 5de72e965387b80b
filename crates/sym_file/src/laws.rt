//! Laws of the texts of saved runs, and of the scripts that they name.
ghost use Rattle.std.specs.Prelude.{◌≡◌, ◌<◌, ◌^◌, ℕ, List, length};
ghost use Rattle.sym_base.specs.Trees.{ScriptTree};
ghost use Rattle.sym_check.specs.declared.elaborate.error.CheckErr.{CheckErr as Fault};
ghost use Rattle.sym_check.specs.Plan.ScriptPlans.{ScriptPlan};
ghost use Rattle.sym_check.specs.Plan.WellFormed.{IsWellFormed};
ghost use Rattle.sym_check.specs.Rules.Scripts.{IsAccepted, BreaksScript};
ghost use Rattle.sym_file.specs.Layouts.{BreaksAlike};
ghost use Rattle.sym_file.specs.SavedTexts.{IsOfOtherScript, IsSaved};
ghost use Rattle.sym_file.specs.Stored.{IsStored};
ghost use Rattle.sym_parse.specs.Bare.{bare_script};
ghost use Rattle.sym_parse.specs.Printed.{script_text};
ghost use Rattle.sym_run.specs.declared.saved.Saved.{Saved as OneSaved};

/// A text has one saved run.
pub fn texts_have_one_saved_run()
    ensures { (script : List ℕ) (p : ScriptPlan) (bytes : List ℕ) (first second : OneSaved) →
        IsWellFormed p → length bytes < 2 ^ 64 →
        IsSaved script p bytes first → IsStored first →
        IsSaved script p bytes second → IsStored second → first ≡ second }
{}

/// A text of a script isn't of another.
pub fn texts_are_of_one_script()
    ensures { (script : List ℕ) (p : ScriptPlan) (bytes : List ℕ) (saved : OneSaved) →
        length bytes < 2 ^ 64 →
        IsSaved script p bytes saved → IsOfOtherScript script bytes → ⊥ }
{}

/// A script's layout and comments don't matter: scripts whose syntax trees are equal without places
/// have the same printed form, which a run file names. They have the same plan, or break the same
/// rule first, maybe at another place.
pub fn layouts_are_one_script()
    ensures printed { (script other : ScriptTree) → bare_script script ≡ bare_script other →
        script_text script ≡ script_text other }
    ensures plan { (script other : ScriptTree) (p : ScriptPlan) →
        bare_script script ≡ bare_script other → IsAccepted script p → IsAccepted other p }
    ensures fault { (script other : ScriptTree) (why : Fault) →
        bare_script script ≡ bare_script other →
        BreaksScript script why → BreaksAlike other why }
{}
