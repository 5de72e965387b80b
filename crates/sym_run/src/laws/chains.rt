//! Tight chains.
ghost use Rattle.std.specs.Prelude.{◌≡◌, ◌≤◌, ◌<◌, ◌+◌, ◌++◌, ◌∷◌, [], ℕ, max, List, Some, length, slice_get};
ghost use Rattle.sym_check.specs.Meaning.Conditions.{test_truth};
ghost use Rattle.sym_check.specs.Meaning.PathBounds.{path_bound};
ghost use Rattle.sym_check.specs.Plan.ScriptPlans.{ScriptPlan};
ghost use Rattle.sym_path.specs.declared.path.Path.{Path as OnePath};
ghost use Rattle.sym_path.specs.Pairs.{ArePairs};
ghost use Rattle.sym_run.specs.Chained.{Chained};
ghost use Rattle.sym_run.specs.Chains.{IsTight, SegmentsAreTight};
ghost use Rattle.sym_run.specs.Pushing.{IsPushed};

/// In a chain that is tight for a limit, each two neighbours have more pairs than the limit, and no
/// segment has more paths than the limit, or than the script's path bound where that is greater.
pub fn tight_neighbours_have_more_pairs()
    ensures apart { (p : ScriptPlan) (limit k n : ℕ) (chain : Chained)
        (left right : List OnePath) → IsTight p limit chain →
        slice_get chain.segments k ≡ Some left → slice_get chain.segments (k + 1) ≡ Some right →
        ArePairs (test_truth p.tests) left right n → limit < n }
    ensures few { (p : ScriptPlan) (limit k : ℕ) (chain : Chained) (segment : List OnePath) →
        IsTight p limit chain → slice_get chain.segments k ≡ Some segment →
        length segment ≤ max limit (path_bound p) }
{}

/// A segment that is pushed is composed with the last one only if the two have at most as many
/// pairs as the limit says: where they have more, it goes after it as it is (`over`). Where they
/// have no more and the segments come out tight, it is composed: no segment is added (`within`).
pub fn pushing_composes_within_the_limit()
    ensures over { (p : ScriptPlan) (limit n : ℕ) (front pushed : List (List OnePath))
        (left segment : List OnePath) → IsPushed p limit (front ++ left ∷ []) segment pushed →
        ArePairs (test_truth p.tests) left segment n → limit < n →
        pushed ≡ (front ++ left ∷ []) ++ segment ∷ [] }
    ensures within { (p : ScriptPlan) (limit n : ℕ) (front pushed : List (List OnePath))
        (left segment : List OnePath) → IsPushed p limit (front ++ left ∷ []) segment pushed →
        SegmentsAreTight p limit pushed →
        ArePairs (test_truth p.tests) left segment n → n ≤ limit →
        length pushed ≤ length (front ++ left ∷ []) }
{}
