//! Laws of composing.
ghost use Rattle.std.specs.Prelude.{◌≡◌, ◌≤◌, ◌∷◌, [], List, length};
ghost use Rattle.sym_base.specs.declared.values.state.State.{State as OneState};
ghost use Rattle.sym_check.specs.Meaning.Conditions.{test_truth};
ghost use Rattle.sym_check.specs.Meaning.Validity.{IsValid};
ghost use Rattle.sym_check.specs.Plan.ScriptPlans.{ScriptPlan};
ghost use Rattle.sym_path.specs.declared.path.Path.{Path as OnePath};
ghost use Rattle.sym_path.specs.Composing.{AreComposedBothWays, IsComposition};
ghost use Rattle.sym_path.specs.Composing.{given_by_both, given_by_three};
ghost use Rattle.sym_path.specs.Fitting.{PathFits, SegmentFits};
ghost use Rattle.sym_path.specs.Giving.{AgreeAt, outcomes};
ghost use Rattle.sym_path.specs.Identity.{AdmitsAll, IsWholePath, LeavesAll};
ghost use Rattle.sym_path.specs.Standing.{StandsFor};

/// Three segments come to the same from the left and from the right: at each state both give the
/// same outcomes, whatever the segments stand for, and however many paths admit the state. Where
/// the first two give at most one outcome in turn, and so do the three, both give the same list.
pub fn composition_is_associative()
    ensures agree { (p : ScriptPlan) (first second third from_left from_right : List OnePath)
        (s : OneState) →
        AreComposedBothWays p first second third from_left from_right →
        AgreeAt (test_truth p.tests) from_left from_right s }
    ensures same { (p : ScriptPlan) (first second third from_left from_right : List OnePath)
        (s : OneState) →
        AreComposedBothWays p first second third from_left from_right →
        length (given_by_both (test_truth p.tests) first second s) ≤ 1 →
        length (given_by_three (test_truth p.tests) first second third s) ≤ 1 →
        outcomes (test_truth p.tests) from_left s ≡ outcomes (test_truth p.tests) from_right s }
{}

/// What two segments give decides what their composition gives: segments that agree with them at
/// each state may be composed in their place.
pub fn agreeing_segments_are_composed_alike()
    ensures { (p : ScriptPlan) (left right others_left others_right both others : List OnePath) →
        ((s : OneState) → AgreeAt (test_truth p.tests) left others_left s) →
        ((s : OneState) → AgreeAt (test_truth p.tests) right others_right s) →
        IsComposition p left right both → IsComposition p others_left others_right others →
        (s : OneState) → AgreeAt (test_truth p.tests) both others s }
{}

/// A path that admits each valid state and leaves it as it is, as `Path::all` does, is neutral:
/// composed with a segment, before it or after it, it comes to what the segment gives of each valid
/// state. Alone it stands for no records.
pub fn path_of_all_is_neutral()
    ensures before { (p : ScriptPlan) (all : OnePath) (paths segment : List OnePath)
        (s : OneState) → AdmitsAll p all → LeavesAll p all →
        IsComposition p (all ∷ []) paths segment → IsValid p s →
        AgreeAt (test_truth p.tests) segment paths s }
    ensures after { (p : ScriptPlan) (all : OnePath) (paths segment : List OnePath)
        (s : OneState) → AdmitsAll p all → LeavesAll p all → SegmentFits p paths →
        IsComposition p paths (all ∷ []) segment → IsValid p s →
        AgreeAt (test_truth p.tests) segment paths s }
    ensures same_before { (p : ScriptPlan) (all : OnePath) (paths segment : List OnePath)
        (s : OneState) → AdmitsAll p all → LeavesAll p all →
        IsComposition p (all ∷ []) paths segment → IsValid p s →
        length (outcomes (test_truth p.tests) paths s) ≤ 1 →
        outcomes (test_truth p.tests) segment s ≡ outcomes (test_truth p.tests) paths s }
    ensures same_after { (p : ScriptPlan) (all : OnePath) (paths segment : List OnePath)
        (s : OneState) → AdmitsAll p all → LeavesAll p all → SegmentFits p paths →
        IsComposition p paths (all ∷ []) segment → IsValid p s →
        length (outcomes (test_truth p.tests) paths s) ≤ 1 →
        outcomes (test_truth p.tests) segment s ≡ outcomes (test_truth p.tests) paths s }
    ensures stands { (p : ScriptPlan) (all : OnePath) → PathFits p all → AdmitsAll p all →
        LeavesAll p all → IsWholePath p all → StandsFor p [] (all ∷ []) }
{}
