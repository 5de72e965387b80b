//! Laws of the definitions: many records, the groups of each key apart, and valid groups.
ghost use Rattle.std.specs.Prelude.{◌≡◌, ◌++◌, List};
ghost use Rattle.std.specs.List.{All};
ghost use Rattle.sym_base.specs.declared.values.record.Record.{Record as OneRecord};
ghost use Rattle.sym_base.specs.declared.values.state.Outcome.{Outcome as OneOutcome};
ghost use Rattle.sym_base.specs.declared.values.value.Key.{Key as OneKey};
ghost use Rattle.sym_check.specs.Meaning.Groups.{keys, pass};
ghost use Rattle.sym_check.specs.Meaning.Validity.{IsRecord, IsValidOutcome};
ghost use Rattle.sym_check.specs.Plan.ScriptPlans.{ScriptPlan};
ghost use Rattle.sym_check.specs.Plan.WellFormed.{IsWellFormed};
ghost use Rattle.sym_plain.specs.Pairs.{after_keys, after_record, after_records};

/// Groups go apart: after many records the group of each of their keys has made the steps of its
/// own records, in order of the keys' first appearance. Records may be cut in two: the groups after
/// both parts are those that the second part makes of those after the first one. Of the pass over
/// some records this is the pass over these and the others.
pub fn groups_go_apart()
    ensures apart { (p : ScriptPlan) (records : List OneRecord)
        (groups : List (OneKey × OneOutcome)) →
        after_records p records groups ≡ after_keys p records (keys p records) groups }
    ensures more { (p : ScriptPlan) (first rest : List OneRecord)
        (groups : List (OneKey × OneOutcome)) →
        after_records p rest (after_records p first groups)
        ≡ after_records p (first ++ rest) groups }
    ensures pass { (p : ScriptPlan) (first rest : List OneRecord) →
        after_records p rest (pass p first) ≡ pass p (first ++ rest) }
{}

/// Groups that go on with valid states do so after records of the script's kinds too, and those
/// that begin.
pub fn records_keep_groups_valid()
    ensures one { (p : ScriptPlan) (rec : OneRecord) (groups : List (OneKey × OneOutcome)) →
        IsWellFormed p → IsRecord p rec → All (λ group. IsValidOutcome p group.1) groups →
        All (λ group. IsValidOutcome p group.1) (after_record p rec groups) }
    ensures many { (p : ScriptPlan) (records : List OneRecord)
        (groups : List (OneKey × OneOutcome)) →
        IsWellFormed p → All (IsRecord p) records →
        All (λ group. IsValidOutcome p group.1) groups →
        All (λ group. IsValidOutcome p group.1) (after_records p records groups) }
{}
