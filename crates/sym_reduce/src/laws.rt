//! Laws of the definitions that contracts cite.
ghost use Rattle.std.specs.Prelude.{◌≡◌, ◌<◌, ◌⊎◌, ◌^◌, ◌++◌, [], ℕ, List};
ghost use Rattle.std.specs.List.{All};
ghost use Rattle.sym_base.specs.declared.values.record.Record.{Record as OneRecord};
ghost use Rattle.sym_check.specs.Meaning.Groups.{pass};
ghost use Rattle.sym_check.specs.Meaning.Validity.{IsRecord};
ghost use Rattle.sym_check.specs.Plan.ScriptPlans.{ScriptPlan};
ghost use Rattle.sym_check.specs.Plan.WellFormed.{IsWellFormed};
ghost use Rattle.sym_run.specs.declared.saved.Saved.{Saved as OneSaved};
ghost use Rattle.sym_reduce.specs.Joining.{AreRunFiles, FirstJoinProblem};
ghost use Rattle.sym_file.specs.TakenTexts.{Pairs};
ghost use Rattle.sym_reduce.specs.Reducing.{AreReduced, FirstRunProblem};
ghost use Rattle.sym_reduce.specs.Standing.{StandInOrder};
ghost use Rattle.sym_reduce.specs.declared.error.ReduceErr.{ReduceErr as OneErr};

/// Files of saved runs have one list of totals, and one number of the record after their last, or
/// one first problem, and never both.
pub fn files_have_totals_or_a_problem()
    ensures some { (script : List ℕ) (p : ScriptPlan) (max_bytes file next : ℕ)
        (totals : Pairs) (files : List (List ℕ)) →
        IsWellFormed p → max_bytes < 2 ^ 64 →
        ((end : ℕ) × (all : Pairs) × AreReduced script p max_bytes next totals files end all)
        ⊎ ((why : OneErr) × FirstRunProblem script p max_bytes file next totals files why) }
    ensures totals { (script : List ℕ) (p : ScriptPlan) (max_bytes next : ℕ) (totals : Pairs)
        (files : List (List ℕ)) (end last : ℕ) (all more : Pairs) →
        IsWellFormed p → max_bytes < 2 ^ 64 →
        AreReduced script p max_bytes next totals files end all →
        AreReduced script p max_bytes next totals files last more → all ≡ more }
    ensures ends { (script : List ℕ) (p : ScriptPlan) (max_bytes next : ℕ) (totals : Pairs)
        (files : List (List ℕ)) (end last : ℕ) (all more : Pairs) →
        IsWellFormed p → max_bytes < 2 ^ 64 →
        AreReduced script p max_bytes next totals files end all →
        AreReduced script p max_bytes next totals files last more → end ≡ last }
    ensures problem { (script : List ℕ) (p : ScriptPlan) (max_bytes file next : ℕ)
        (totals : Pairs) (files : List (List ℕ)) (why other : OneErr) →
        IsWellFormed p → max_bytes < 2 ^ 64 →
        FirstRunProblem script p max_bytes file next totals files why →
        FirstRunProblem script p max_bytes file next totals files other → why ≡ other }
    ensures never { (script : List ℕ) (p : ScriptPlan) (max_bytes file next : ℕ)
        (totals : Pairs) (files : List (List ℕ)) (end : ℕ) (all : Pairs) (why : OneErr) →
        IsWellFormed p → max_bytes < 2 ^ 64 →
        AreReduced script p max_bytes next totals files end all →
        FirstRunProblem script p max_bytes file next totals files why → ⊥ }
{}

/// Files of saved runs can be joined, and then have one list of saved runs, or they have one first
/// problem, and never both.
pub fn files_have_runs_or_a_problem()
    ensures some { (script : List ℕ) (p : ScriptPlan) (max_bytes : ℕ) (files : List (List ℕ)) →
        IsWellFormed p → max_bytes < 2 ^ 64 →
        ((runs : List OneSaved) × AreRunFiles script p max_bytes files runs)
        ⊎ ((why : OneErr) × FirstJoinProblem script p max_bytes files why) }
    ensures runs { (script : List ℕ) (p : ScriptPlan) (max_bytes : ℕ) (files : List (List ℕ))
        (runs others : List OneSaved) →
        IsWellFormed p → max_bytes < 2 ^ 64 →
        AreRunFiles script p max_bytes files runs →
        AreRunFiles script p max_bytes files others → runs ≡ others }
    ensures problem { (script : List ℕ) (p : ScriptPlan) (max_bytes : ℕ) (files : List (List ℕ))
        (why other : OneErr) →
        IsWellFormed p → max_bytes < 2 ^ 64 →
        FirstJoinProblem script p max_bytes files why →
        FirstJoinProblem script p max_bytes files other → why ≡ other }
    ensures never { (script : List ℕ) (p : ScriptPlan) (max_bytes : ℕ) (files : List (List ℕ))
        (runs : List OneSaved) (why : OneErr) →
        IsWellFormed p → max_bytes < 2 ^ 64 →
        AreRunFiles script p max_bytes files runs →
        FirstJoinProblem script p max_bytes files why → ⊥ }
{}

/// Run files in order are one pass: where each is the file of a saved run that stands for its own
/// records, the totals after all files are the groups of one sequential pass over all records, and
/// no others. From the pass over some records they lead to that over these and all theirs.
pub fn run_files_are_one_pass()
    ensures pass { (script : List ℕ) (p : ScriptPlan) (max_bytes next : ℕ) (files : List (List ℕ))
        (end : ℕ) (records : List OneRecord) →
        IsWellFormed p → StandInOrder script p max_bytes next files end records →
        AreReduced script p max_bytes next [] files end (pass p records) }
    ensures only { (script : List ℕ) (p : ScriptPlan) (max_bytes next : ℕ) (files : List (List ℕ))
        (end last : ℕ) (records : List OneRecord) (totals : Pairs) →
        IsWellFormed p → max_bytes < 2 ^ 64 →
        StandInOrder script p max_bytes next files end records →
        AreReduced script p max_bytes next [] files last totals → totals ≡ pass p records }
    ensures more { (script : List ℕ) (p : ScriptPlan) (max_bytes next : ℕ) (files : List (List ℕ))
        (end : ℕ) (before records : List OneRecord) →
        IsWellFormed p → All (IsRecord p) before →
        StandInOrder script p max_bytes next files end records →
        AreReduced script p max_bytes next (pass p before) files end (pass p (before ++ records)) }
{}
