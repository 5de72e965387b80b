//! What stands for records.
ghost use Rattle.std.specs.Prelude.{◌≡◌, ◌≤◌, ◌<◌, ℕ, All, List, length};
ghost use Rattle.sym_base.specs.declared.values.record.Record.{Record as OneRecord};
ghost use Rattle.sym_base.specs.declared.values.state.Fault.{Fault as OneFault};
ghost use Rattle.sym_check.specs.Plan.ScriptPlans.{ScriptPlan};
ghost use Rattle.sym_check.specs.Plan.WellFormed.{IsWellFormed};
ghost use Rattle.sym_path.specs.declared.path.Path.{Path as OnePath};
ghost use Rattle.sym_path.specs.declared.path.PathEnd.TheVariants as end;
ghost use Rattle.sym_path.specs.Standing.{StandsFor};

/// A segment that stands for records has one or more paths, and its faults came at numbers between
/// which those of the records lie. With their fit to the script this is what the segment of a saved
/// run is tried for where it is read.
pub fn standing_segments_are_lawful()
    ensures some { (p : ScriptPlan) (records : List OneRecord) (paths : List OnePath) →
        IsWellFormed p → StandsFor p records paths → 1 ≤ length paths }
    ensures faults { (p : ScriptPlan) (records : List OneRecord) (paths : List OnePath)
        (first next : ℕ) → StandsFor p records paths →
        All (λ (rec : OneRecord). (first ≤ rec.no) × (rec.no < next)) records →
        All (λ (path : OnePath). (fault : OneFault) → path.end ≡ end.Ended fault →
        (first ≤ fault.no) × (fault.no < next)) paths }
{}
