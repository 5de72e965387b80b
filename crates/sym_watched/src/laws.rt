//! Laws of partials.
ghost use Rattle.std.specs.Prelude.{◌≡◌, ◌≤◌, ℕ, List, Some, length, map};
ghost use Rattle.sym_base.specs.Trees.{ScriptTree};
ghost use Rattle.sym_base.specs.declared.values.record.Record.{Record as OneRecord};
ghost use Rattle.sym_base.specs.declared.values.state.Outcome.{Outcome as OneOutcome};
ghost use Rattle.sym_base.specs.declared.values.value.Key.{Key as OneKey};
ghost use Rattle.sym_check.specs.Plan.ScriptPlans.{ScriptPlan};
ghost use Rattle.sym_files.specs.FileRounds.{DoneFiles, rounds_records};
ghost use Rattle.sym_passes.specs.Passed.{PassedAll};
ghost use Rattle.sym_plain.specs.Shown.{last};
ghost use Rattle.sym_report.specs.ReportRows.{row_of};
ghost use Rattle.sym_watched.specs.Partials.{WatchedFiles, partial_after, partials_of};

/// The partial at the last border is the report on all records. Where contracts see what the files
/// hold, its rows are those of the groups that the pass gives, so they are the final report's.
pub fn last_partials_are_reports()
    ensures last { (tree : ScriptTree) (p : ScriptPlan) (rounds : List (List OneRecord)) →
        1 ≤ length rounds →
        last (partials_of tree p rounds) ≡ Some (partial_after tree p (rounds_records rounds)) }
    ensures report { (tree : ScriptTree) (w : WatchedFiles) (files : List (List ℕ))
        (rounds : List (List OneRecord)) (groups : List (OneKey × OneOutcome)) →
        w.first ≡ 1 → map w.holds w.names ≡ map Some files →
        DoneFiles w (length w.names) rounds → 1 ≤ length rounds →
        PassedAll w.plan w.rules w.holds w.names groups →
        last (partials_of tree w.plan rounds) ≡ Some (record {
          upto = length (rounds_records rounds);
          rows = map (row_of tree w.plan) groups;
        }) }
{}
