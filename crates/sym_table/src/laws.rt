//! Laws of the definitions: each relation and the function beside it agree.
ghost use Rattle.std.specs.Prelude.{◌≡◌, ◌↔◌, ◌+◌, ◌++◌, ℕ, List, Ok, Err, length};
ghost use Rattle.std.specs.List.{All};
ghost use Rattle.sym_base.specs.declared.values.record.Record.{Record as OneRecord};
ghost use Rattle.sym_base.specs.declared.values.value.Value.{Value as OneValue};
ghost use Rattle.sym_check.specs.declared.plan.script.EnumPlan.{EnumPlan as OneEnum};
ghost use Rattle.sym_check.specs.declared.plan.script.FieldPlan.{FieldPlan as OneField};
ghost use Rattle.sym_check.specs.Plan.ScriptPlans.{ScriptPlan};
ghost use Rattle.sym_check.specs.Meaning.Validity.{IsRecord};
ghost use Rattle.sym_check.specs.Plan.WellFormed.{IsWellFormed};
ghost use Rattle.sym_table.specs.declared.bad.Bad.{Bad as BadRow};
ghost use Rattle.sym_table.specs.declared.bad.BadCause.{BadCause as Cause};
ghost use Rattle.sym_table.specs.declared.header.Header.{Header as OneHeader};
ghost use Rattle.sym_table.specs.declared.header.HeadFault.{HeadFault as HeaderFault};
ghost use Rattle.sym_table.specs.Headers.{AreColumns, FirstHeadFault, columns_of};
ghost use Rattle.sym_table.specs.RowRecords.{HaveRecords, FirstBadRow, records_or_bad, in_turn};
ghost use Rattle.sym_table.specs.Rows.{HasValues, BreaksRow, read_row};

/// The values of a row's fields, and the first rule that the row breaks, are what the function
/// answers. So a row has one list of values or one first broken rule, and never both.
pub fn rows_have_values_or_a_fault()
    ensures values { (enums : List OneEnum) (fields : List OneField) (header : OneHeader)
        (row : List (List ℕ)) (values : List OneValue) →
        length header.places ≡ length fields →
        HasValues enums fields header row values ↔ (read_row enums fields header row ≡ Ok values) }
    ensures fault { (enums : List OneEnum) (fields : List OneField) (header : OneHeader)
        (row : List (List ℕ)) (why : Cause) →
        length header.places ≡ length fields →
        BreaksRow enums fields header row why ↔ (read_row enums fields header row ≡ Err why) }
{}

/// The columns of the fields, and the first field that has none or two, are what the function
/// answers. So a header has one list of columns or one first fault, and never both.
pub fn headers_have_columns_or_a_fault()
    ensures columns { (fields : List OneField) (row : List (List ℕ)) (places : List ℕ) →
        AreColumns row fields places ↔ (columns_of row 0 fields ≡ Ok places) }
    ensures fault { (fields : List OneField) (row : List (List ℕ)) (why : HeaderFault) →
        FirstHeadFault row 0 fields why ↔ (columns_of row 0 fields ≡ Err why) }
{}

/// The records of rows, and the first row that is none, are what the function answers. So rows have
/// one list of records or one first row that is none, and never both.
pub fn rows_have_records_or_a_bad_row()
    ensures records { (p : ScriptPlan) (header : OneHeader) (n : ℕ) (rows : List (List (List ℕ)))
        (records : List OneRecord) →
        length header.places ≡ length p.fields →
        HaveRecords p header n rows records ↔ (records_or_bad p header n rows ≡ Ok records) }
    ensures bad { (p : ScriptPlan) (header : OneHeader) (n : ℕ) (rows : List (List (List ℕ)))
        (why : BadRow) →
        length header.places ≡ length p.fields →
        FirstBadRow p header n rows why ↔ (records_or_bad p header n rows ≡ Err why) }
{}

/// The records of rows and more are those of the rows and then the others', numbered on.
pub fn rows_run_on()
    ensures { (p : ScriptPlan) (header : OneHeader) (n : ℕ) (first rest : List (List (List ℕ))) →
        records_or_bad p header n (first ++ rest) ≡
        in_turn (records_or_bad p header n first)
        (records_or_bad p header (n + length first) rest) }
{}

/// The values of a row are of the kinds of the script's fields, and so are the records of rows.
pub fn rows_are_of_the_fields_kinds()
    ensures row { (p : ScriptPlan) (header : OneHeader) (row : List (List ℕ)) (n : ℕ)
        (values : List OneValue) →
        IsWellFormed p → HasValues p.enums p.fields header row values →
        IsRecord p (record { no = n; fields = values }) }
    ensures rows { (p : ScriptPlan) (header : OneHeader) (n : ℕ) (rows : List (List (List ℕ)))
        (records : List OneRecord) →
        IsWellFormed p → HaveRecords p header n rows records → All (IsRecord p) records }
{}
