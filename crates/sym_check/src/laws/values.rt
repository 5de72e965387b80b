//! What the expressions of a well-formed plan come to.
ghost use Rattle.std.specs.Prelude.{◌≡◌, ◌<◌, ℕ, ℤ, List, [], Ok};
ghost use Rattle.std.specs.List.{AllZip};
ghost use Rattle.sym_base.specs.declared.values.record.Record.{Record as OneRecord};
ghost use Rattle.sym_base.specs.declared.values.value.Value.{Value as OneValue};
ghost use Rattle.sym_base.specs.Limits.{IsNumber};
ghost use Rattle.sym_check.specs.declared.evaluate.pairs.Pair.{Pair as OnePair};
ghost use Rattle.sym_check.specs.declared.plan.expression.LabelOf.{LabelOf as OneLabel};
ghost use Rattle.sym_check.specs.declared.plan.script.EnumPlan.{EnumPlan as OneEnum};
ghost use Rattle.sym_check.specs.declared.plan.script.CellPlan.{CellPlan as OneCell};
ghost use Rattle.sym_check.specs.declared.plan.script.KindPlan.{KindPlan as OneKind};
ghost use Rattle.sym_check.specs.Plan.CellKinds.{IsIntCell};
ghost use Rattle.sym_check.specs.Plan.FixedPlans.{FixedPlan, NumPlan};
ghost use Rattle.sym_check.specs.Meaning.FixedValues.{Environment, number, label_of, fixed_value, fixed_values};
ghost use Rattle.sym_check.specs.Plan.LinePlans.{LinePlan};
ghost use Rattle.sym_check.specs.Meaning.LineValues.{pair};
ghost use Rattle.sym_check.specs.Plan.ScriptPlans.{ScriptPlan};
ghost use Rattle.sym_check.specs.Meaning.Updates.{environment, with_local};
ghost use Rattle.sym_check.specs.Meaning.Validity.{label_count, AreOfKinds, IsRecord};
ghost use Rattle.sym_check.specs.Plan.WellFormed.{Kinds, IsKnown, IsNum, IsLabel, IsFixed, IsLine, known_kinds, with_kind};

/// Where what is known is of its kinds, the number of an expression is one of a script, a label is
/// one of its enum, and values are of their expressions' kinds.
pub fn values_are_of_their_kinds()
    ensures number { (enums : List OneEnum) (k : Kinds) (v : Environment) (n : NumPlan) (x : ℤ) →
        IsKnown enums k v → IsNum k n → number v n ≡ Ok x → IsNumber x }
    ensures label { (enums : List OneEnum) (k : Kinds) (v : Environment) (of : ℕ) (l : OneLabel) →
        IsKnown enums k v → IsLabel enums k of l → label_of v l < label_count enums of }
    ensures values { (enums : List OneEnum) (k : Kinds) (v : Environment) (kinds : List OneKind)
        (es : List FixedPlan) (xs : List OneValue) →
        IsKnown enums k v → AllZip (IsFixed enums k) kinds es → fixed_values v es ≡ Ok xs →
        AreOfKinds enums kinds xs }
{}

/// The pair of a line is over an integer cell, and its numbers are those of a script.
pub fn pairs_are_of_their_cells()
    ensures { (enums : List OneEnum) (cells : List OneCell) (k : Kinds) (v : Environment)
        (l : LinePlan) (p : OnePair) →
        IsKnown enums k v → IsLine cells k l → pair v l ≡ Ok p →
        IsIntCell cells p.cell × IsNumber p.a × IsNumber p.b }
{}

/// The fields of a record are of their kinds, and so is a local that is named.
pub fn locals_are_of_their_kinds()
    ensures fields { (p : ScriptPlan) (rec : OneRecord) →
        IsRecord p rec → IsKnown p.enums (known_kinds p) (environment rec []) }
    ensures local { (enums : List OneEnum) (k : Kinds) (v : Environment) (n : ℕ) (last : OneKind)
        (e : FixedPlan) (x : OneValue) →
        IsKnown enums k v → IsFixed enums k last e → fixed_value v e ≡ Ok x →
        IsKnown enums (with_kind k n last) (with_local v n x) }
{}
