//! What settling keeps.
ghost use Rattle.std.specs.Prelude.{List};
ghost use Rattle.sym_base.specs.declared.values.record.Record.{Record as OneRecord};
ghost use Rattle.sym_check.specs.Plan.ScriptPlans.{ScriptPlan};
ghost use Rattle.sym_path.specs.declared.path.Path.{Path as OnePath};
ghost use Rattle.sym_path.specs.Settling.{AreRight, IsSettling};
ghost use Rattle.sym_path.specs.Standing.{StandsFor};

/// What paths come to when they are settled stands for the records for which they stand. So it does
/// where the paths fit the script, their faults came at the records, each gives the right outcome
/// of the valid states that it admits, and each valid state is admitted by exactly one.
pub fn settled_paths_stand_for_their_records()
    ensures stands { (p : ScriptPlan) (records : List OneRecord) (paths segment : List OnePath) →
        StandsFor p records paths → IsSettling paths segment → StandsFor p records segment }
    ensures right { (p : ScriptPlan) (records : List OneRecord) (paths segment : List OnePath) →
        AreRight p records paths → IsSettling paths segment → StandsFor p records segment }
{}
