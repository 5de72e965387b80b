//! Laws of the definitions that contracts cite.
ghost use Rattle.std.specs.Prelude.{◌≡◌, ◌<◌, ◌≤◌, ◌+◌, ℕ, Bool, List, min};
ghost use Rattle.sym_base.specs.declared.limits.TheConstants as limit;
ghost use Rattle.sym_check.specs.Plan.CondPlans.{CondPlan};
ghost use Rattle.sym_check.specs.Plan.DoPlans.{DosPlan};
ghost use Rattle.sym_check.specs.Meaning.PathBounds.{path_bound};
ghost use Rattle.sym_check.specs.Plan.ScriptPlans.{ScriptPlan};
ghost use Rattle.sym_check.specs.declared.plan.script.CellPlan.{CellPlan};
ghost use Rattle.sym_explore.specs.Counting.{branches_of, dos_going, made_paths};

/// The path bound of a script is its count of paths, or a million where that is more. So the two
/// are equal where the bound is below a million, as in each accepted script.
pub fn path_bounds_count_paths()
    ensures bound { (p : ScriptPlan) →
        path_bound p ≡ min (made_paths p) limit.PATHS_COUNTED }
    ensures equal { (p : ScriptPlan) →
        path_bound p < limit.PATHS_COUNTED → made_paths p ≡ path_bound p }
{}

/// No count of branches is 0, and no count of paths that go on.
pub fn counts_are_at_least_one()
    ensures branches { (c : CondPlan) (x : Bool) → 1 ≤ branches_of c x }
    ensures going { (cells : List CellPlan) (update : DosPlan) → 1 ≤ dos_going cells update }
{}
