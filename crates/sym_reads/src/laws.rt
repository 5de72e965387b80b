//! What an update makes of records that agree in the fields that it names.
ghost use Rattle.std.specs.Prelude.{◌≡◌, ◌<◌, ℕ, Bool, List, length};
ghost use Rattle.std.specs.List.{AllZip};
ghost use Rattle.sym_base.specs.declared.values.record.Record.{Record as OneRecord};
ghost use Rattle.sym_base.specs.declared.values.state.Outcome.{Outcome as OneOutcome};
ghost use Rattle.sym_check.specs.Plan.ScriptPlans.{ScriptPlan};
ghost use Rattle.sym_check.specs.Plan.WellFormed.{IsWellFormed};
ghost use Rattle.sym_check.specs.Meaning.Updates.{step, after};
ghost use Rattle.sym_check.specs.Meaning.Validity.{IsRecord};
ghost use Rattle.sym_reads.specs.Agreement.{AgreeOnRead, AreAlike, HasReadMarked, blank_record, with_marked_of};
ghost use Rattle.sym_reads.specs.Naming.{NamesField};

/// A step depends on the record's number and on the fields that the update names, and on nothing
/// else of a record; so do many. The fields that a well formed plan names are there.
pub fn steps_depend_on_fields_that_are_read()
    ensures one { (p : ScriptPlan) (rec other : OneRecord) (o : OneOutcome) →
        rec.no ≡ other.no → AgreeOnRead p rec other → step p o rec ≡ step p o other }
    ensures many { (p : ScriptPlan) (records others : List OneRecord) (o : OneOutcome) →
        AllZip (AreAlike p) records others → after p records o ≡ after p others o }
    ensures declared { (p : ScriptPlan) (i : ℕ) →
        IsWellFormed p → NamesField p i → i < length p.fields }
{}

/// A blank record is one of the script. A record of the script in which the fields that are marked
/// have the values of another one is one of the script; where each field that the update names is
/// marked, it agrees with the other one in what is read. So a blank record with these values does
/// what the record does.
pub fn read_values_make_a_record()
    ensures blank { (p : ScriptPlan) (number : ℕ) →
        IsWellFormed p → IsRecord p (blank_record p number) }
    ensures of_script { (p : ScriptPlan) (from rec : OneRecord) (marks : List Bool) →
        IsRecord p from → IsRecord p rec → IsRecord p (with_marked_of from marks rec) }
    ensures agrees { (p : ScriptPlan) (from rec : OneRecord) (marks : List Bool) →
        IsRecord p from → IsRecord p rec → HasReadMarked p marks →
        AgreeOnRead p (with_marked_of from marks rec) from }
    ensures steps { (p : ScriptPlan) (rec : OneRecord) (marks : List Bool) (o : OneOutcome) →
        IsWellFormed p → IsRecord p rec → HasReadMarked p marks →
        step p o (with_marked_of rec marks (blank_record p rec.no)) ≡ step p o rec }
{}
