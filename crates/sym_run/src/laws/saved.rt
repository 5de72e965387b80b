//! What may be saved.
ghost use Rattle.std.specs.Prelude.{◌≤◌, ◌<◌, ℕ, All, List, length};
ghost use Rattle.std.specs.Map.{keys_of};
ghost use Rattle.sym_base.specs.declared.values.record.Record.{Record as OneRecord};
ghost use Rattle.sym_base.specs.declared.values.value.Key.{Key as OneKey};
ghost use Rattle.sym_check.specs.Meaning.Validity.{IsKey, IsRecord};
ghost use Rattle.sym_check.specs.Plan.ScriptPlans.{ScriptPlan};
ghost use Rattle.sym_check.specs.Plan.WellFormed.{IsWellFormed};
ghost use Rattle.sym_path.specs.declared.path.Path.{Path as OnePath};
ghost use Rattle.sym_path.specs.Standing.{StandsFor};
ghost use Rattle.sym_run.specs.Chained.{Chained};
ghost use Rattle.sym_run.specs.Chains.{ChainStandsFor, IsClosed};
ghost use Rattle.sym_run.specs.Runs.{AreClosed, GroupsStandFor};
ghost use Rattle.sym_run.specs.SavedRuns.{AreNumbered, IsLawfulChain, IsLawfulGroup, IsLawfulSaved, IsLawfulSegment, SavedStandsFor};
ghost use Rattle.sym_run.specs.declared.saved.Saved.{Saved as OneSaved};

/// What stands for records and keeps none of them is lawful, so what may be saved is read again: a
/// segment and a chain of records with numbers from `first` on, before `next`, groups whose keys
/// are of the script's kinds, and saved runs of these, or of records of the script.
pub fn what_stands_for_records_is_lawful()
    ensures segment { (p : ScriptPlan) (records : List OneRecord) (first next : ℕ)
        (paths : List OnePath) → IsWellFormed p →
        All (λ (rec : OneRecord). (first ≤ rec.no) × (rec.no < next)) records →
        StandsFor p records paths → IsLawfulSegment p first next paths }
    ensures chain { (p : ScriptPlan) (records : List OneRecord) (first next : ℕ)
        (chain : Chained) → IsWellFormed p → 1 ≤ length records →
        All (λ (rec : OneRecord). (first ≤ rec.no) × (rec.no < next)) records →
        IsClosed chain → ChainStandsFor p records chain → IsLawfulChain p first next chain }
    ensures groups { (p : ScriptPlan) (records : List OneRecord) (first next : ℕ)
        (groups : List (OneKey × Chained)) → IsWellFormed p → All (IsKey p) (keys_of groups) →
        AreNumbered first next records → AreClosed groups → GroupsStandFor p records groups →
        All (IsLawfulGroup p first next) groups }
    ensures saved { (p : ScriptPlan) (records : List OneRecord) (saved : OneSaved) →
        IsWellFormed p → All (IsKey p) (keys_of saved.groups) → 1 ≤ saved.first →
        AreClosed saved.groups → SavedStandsFor p records saved → IsLawfulSaved p saved }
    ensures of_records { (p : ScriptPlan) (records : List OneRecord) (saved : OneSaved) →
        IsWellFormed p → All (IsRecord p) records → 1 ≤ saved.first →
        AreClosed saved.groups → SavedStandsFor p records saved → IsLawfulSaved p saved }
{}
