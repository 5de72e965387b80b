//! Laws of traces.
ghost use Rattle.std.specs.Prelude.{◌≡◌, ◌++◌, [], ℕ, List};
ghost use Rattle.std.specs.Map.{lookup};
ghost use Rattle.sym_base.specs.declared.values.record.Record.{Record as OneRecord};
ghost use Rattle.sym_base.specs.declared.values.value.Key.{Key as OneKey};
ghost use Rattle.sym_check.specs.Plan.ScriptPlans.{ScriptPlan};
ghost use Rattle.sym_check.specs.Meaning.Groups.{is_key, pass};
ghost use Rattle.sym_scan.specs.Traces.{from_groups, last_outcome, rows_after, trace, trace_after};

/// The trace of records and more is the trace of the first ones, and then the part that belongs to
/// the others. That part is what is shown of the others where each group begins as the pass over the
/// first ones leaves it.
pub fn traces_run_on()
    ensures more { (p : ScriptPlan) (every : ℕ) (first rest : List OneRecord) →
        trace p every (first ++ rest) ≡ trace p every first ++ trace_after p every first rest }
    ensures part { (p : ScriptPlan) (every : ℕ) (first rest : List OneRecord) →
        trace_after p every first rest ≡
        rows_after p every (from_groups p (pass p first)) [] rest }
{}

/// In a trace that shows each record, the last row of a key is how its group stands after the pass
/// over the records, and a key without a row has no group.
pub fn last_rows_are_outcomes()
    ensures { (p : ScriptPlan) (records : List OneRecord) (key : OneKey) →
        last_outcome key (trace p 1 records) ≡ lookup (is_key key) (pass p records) }
{}
