//! Numbers of pairs.
ghost use Rattle.std.specs.Prelude.{◌≡◌, ◌≤◌, ◌<◌, ◌↔◌, ℕ, List};
ghost use Rattle.sym_base.specs.Tests.{Truth};
ghost use Rattle.sym_check.specs.Meaning.Conditions.{test_truth};
ghost use Rattle.sym_check.specs.Plan.ScriptPlans.{ScriptPlan};
ghost use Rattle.sym_path.specs.declared.path.Path.{Path as OnePath};
ghost use Rattle.sym_path.specs.declared.within.Composition.{Composition as OneComposition};
ghost use Rattle.sym_path.specs.declared.within.Composition.TheVariants as composition;
ghost use Rattle.sym_path.specs.Pairs.{AreAllPossible, ArePairs, most_pairs};
ghost use Rattle.sym_path.specs.Within.{HaveFewPairs, HaveMorePairs, HavePairs};
ghost use Rattle.sym_path.specs.Within.{IsComposedWithin};

/// Two segments have one number of pairs.
pub fn pairs_are_one_number()
    ensures { (truth : Truth) (left right : List OnePath) (m n : ℕ) →
        ArePairs truth left right m → ArePairs truth left right n → m ≡ n }
{}

/// There are no more pairs than paths of the left that have ended, and pairs of a path of the left
/// that goes on and a path of the right. There are as many exactly where each path of the right can
/// come after each path of the left that goes on.
pub fn pairs_are_few()
    ensures most { (truth : Truth) (left right : List OnePath) (n : ℕ) →
        ArePairs truth left right n → n ≤ most_pairs left right }
    ensures all { (truth : Truth) (left right : List OnePath) (n : ℕ) →
        ArePairs truth left right n →
        (n ≡ most_pairs left right) ↔ AreAllPossible truth left right }
{}

/// Two segments have at least some pairs exactly where their number is at least that.
pub fn pairs_are_at_least_those_found()
    ensures { (truth : Truth) (left right : List OnePath) (least n : ℕ) →
        ArePairs truth left right n → HavePairs truth left right least ↔ (least ≤ n) }
{}

/// Two segments have few pairs exactly where their number is within the limit, and more exactly
/// where it is over the limit, and never both. What `compose_within` returns is one segment exactly
/// where the number is within the limit.
pub fn few_pairs_are_composed()
    ensures few { (truth : Truth) (left right : List OnePath) (limit n : ℕ) →
        ArePairs truth left right n → HaveFewPairs truth left right limit ↔ (n ≤ limit) }
    ensures more { (truth : Truth) (left right : List OnePath) (limit n : ℕ) →
        ArePairs truth left right n → HaveMorePairs truth left right limit ↔ (limit < n) }
    ensures never { (truth : Truth) (left right : List OnePath) (limit : ℕ) →
        HaveFewPairs truth left right limit → HaveMorePairs truth left right limit → ⊥ }
    ensures composed { (p : ScriptPlan) (left right : List OnePath) (limit n : ℕ)
        (made : OneComposition) → ArePairs (test_truth p.tests) left right n →
        IsComposedWithin p left right limit made →
        ((segment : List OnePath) × (made ≡ composition.One segment)) ↔ (n ≤ limit) }
{}
