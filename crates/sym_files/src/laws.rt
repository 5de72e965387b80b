//! Laws of the definitions: the relations and the function beside them agree.
ghost use Rattle.std.specs.Prelude.{◌≡◌, ◌↔◌, ◌≤◌, ◌⊎◌, ◌+◌, ◌++◌, [], ℕ, List, Some, Ok, Err, length, map};
ghost use mathlib.Core.List.{IsPrefix};
ghost use Rattle.sym_base.specs.declared.values.record.Record.{Record as OneRecord};
ghost use Rattle.sym_check.specs.Plan.ScriptPlans.{ScriptPlan};
ghost use Rattle.sym_table.specs.Reading.{Row as OneRow};
ghost use Rattle.sym_files.specs.declared.error.PassErr.{PassErr as Problem};
ghost use Rattle.sym_files.specs.Cuts.{AreCutTo};
ghost use Rattle.sym_files.specs.FileRecords.{FileRules};
ghost use Rattle.sym_files.specs.FileRounds.{AreFilesRounds, AreFull, DoneFiles, DoneRounds};
ghost use Rattle.sym_files.specs.FileRounds.{IsWithin, NamedFiles, rounds_records};
ghost use Rattle.sym_files.specs.FirstProblems.{AllFine, FirstProblem, records_in};

/// The records of files, and their first problem, are what the function answers. So any files have
/// one list of records or one first problem, and never both.
pub fn files_have_records_or_a_problem()
    ensures records { (p : ScriptPlan) (rules : FileRules) (file first : ℕ) (files : List (List ℕ))
        (records : List OneRecord) →
        AllFine p rules first files records ↔ (records_in p rules file first files ≡ Ok records) }
    ensures problem { (p : ScriptPlan) (rules : FileRules) (file first : ℕ) (files : List (List ℕ))
        (why : Problem) →
        FirstProblem p rules file first files why
        ↔ (records_in p rules file first files ≡ Err why) }
{}

/// A file may be cut between any two records, into any number of files that each have its header:
/// the records of all files, and their numbers, are the same.
pub fn files_are_cut_anywhere()
    ensures { (p : ScriptPlan) (rules : FileRules) (first : ℕ) (header : OneRow)
        (rows : List OneRow) (before files other after : List (List ℕ))
        (records : List OneRecord) →
        AreCutTo rules header rows files → AreCutTo rules header rows other →
        AllFine p rules first (before ++ (files ++ after)) records
        ↔ AllFine p rules first (before ++ (other ++ after)) records }
{}

/// Files have one list of rounds, by how they are read and how many records a full round has, and
/// its records are those of the files. Where contracts see what named files hold, and none has a
/// problem, the rounds that were done are the first of it, whichever file they end in.
pub fn files_have_one_list_of_rounds()
    ensures one { (p : ScriptPlan) (rules : FileRules) (per first : ℕ) (files : List (List ℕ))
        (rounds others : List (List OneRecord)) →
        1 ≤ per → AreFilesRounds p rules per first files rounds →
        AreFilesRounds p rules per first files others → rounds ≡ others }
    ensures records { (p : ScriptPlan) (rules : FileRules) (per first : ℕ) (files : List (List ℕ))
        (rounds : List (List OneRecord)) → AreFilesRounds p rules per first files rounds →
        AllFine p rules first files (rounds_records rounds) }
    ensures done { (w : NamedFiles) (files : List (List ℕ)) (all : List (List OneRecord)) (file : ℕ)
        (rounds others : List (List OneRecord)) →
        1 ≤ w.per → map w.holds w.names ≡ map Some files →
        AreFilesRounds w.plan w.rules w.per w.first files all → DoneFiles w file rounds →
        (others ≡ []) ⊎ DoneRounds w file (w.first + length (rounds_records rounds)) others →
        IsPrefix (rounds ++ others) all }
{}

/// Full rounds before the round that would hold a row are so many, by the number of their first
/// record, how many records a full round has, and the number of the row. So it is clear how many
/// rounds were done before a row that is no record.
pub fn rounds_before_a_row_are_so_many()
    ensures { (first per number : ℕ) (rounds others : List (List OneRecord)) →
        AreFull per rounds → AreFull per others →
        IsWithin (first + length (rounds_records rounds)) per number →
        IsWithin (first + length (rounds_records others)) per number →
        length rounds ≡ length others }
{}
