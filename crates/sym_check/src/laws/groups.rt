//! Laws of groups: keys, the records of each, and the pass over all.
ghost use Rattle.std.specs.Prelude.{◌≡◌, ◌↔◌, ◌++◌, ◌∷◌, [], List, IsTrue, false, if◌then◌else◌};
ghost use Rattle.std.specs.List.{All, IsDistinct};
ghost use Rattle.sym_base.specs.declared.values.record.Record.{Record as OneRecord};
ghost use Rattle.sym_base.specs.declared.values.value.Key.{Key as OneKey};
ghost use Rattle.sym_base.specs.declared.values.value.Value.{Value as OneValue};
ghost use Rattle.sym_check.specs.Plan.ScriptPlans.{ScriptPlan};
ghost use Rattle.sym_check.specs.Meaning.Groups.{is_key, is_value, is_among, not_among, key_of, keys, records_of, pass};
ghost use Rattle.sym_check.specs.Meaning.Validity.{IsRecord, IsKey, IsValidOutcome};
ghost use Rattle.sym_check.specs.Plan.WellFormed.{IsWellFormed};

/// Keys are told apart exactly where they differ, and so are values: one group is one key.
pub fn keys_and_values_are_told_apart()
    ensures keys { (k other : OneKey) → IsTrue (is_key k other) ↔ (k ≡ other) }
    ensures values { (v other : OneValue) → IsTrue (is_value v other) ↔ (v ≡ other) }
{}

/// No key of some records comes twice. The key of a record more goes last, unless it is there; the
/// keys of more records go after the others, without those that are there.
pub fn keys_stand_in_order_of_appearance()
    ensures distinct { (p : ScriptPlan) (records : List OneRecord) →
        IsDistinct is_key (keys p records) }
    ensures one { (p : ScriptPlan) (records : List OneRecord) (rec : OneRecord) →
        keys p (records ++ rec ∷ []) ≡
        (if is_among (key_of p rec) (keys p records) then keys p records
        else keys p records ++ key_of p rec ∷ []) }
    ensures more { (p : ScriptPlan) (first rest : List OneRecord) →
        keys p (first ++ rest) ≡ keys p first ++ not_among (keys p first) (keys p rest) }
{}

/// The records of a key among some and more are those among the first and then those among the
/// others. A key that is none of the records' keys has no record.
pub fn records_of_keys_run_on()
    ensures more { (p : ScriptPlan) (k : OneKey) (first rest : List OneRecord) →
        records_of p k (first ++ rest) ≡ records_of p k first ++ records_of p k rest }
    ensures none { (p : ScriptPlan) (k : OneKey) (records : List OneRecord) →
        is_among k (keys p records) ≡ false → records_of p k records ≡ [] }
{}

/// The pass over records of the script's kinds has keys of the script's kind and valid outcomes.
pub fn passes_are_valid()
    ensures keys { (p : ScriptPlan) (records : List OneRecord) →
        All (IsRecord p) records → All (λ pair. IsKey p pair.0) (pass p records) }
    ensures outcomes { (p : ScriptPlan) (records : List OneRecord) →
        IsWellFormed p → All (IsRecord p) records →
        All (λ pair. IsValidOutcome p pair.1) (pass p records) }
{}
