//! Laws of the definitions that contracts cite.
ghost use Rattle.std.specs.Prelude.{◌≡◌, ◌↔◌, ◌∷◌, [], All, List, IsTrue};
ghost use Rattle.std.specs.List.{Any};
ghost use Rattle.sym_base.specs.declared.values.record.Record.{Record as OneRecord};
ghost use Rattle.sym_base.specs.declared.values.state.State.{State as OneState};
ghost use Rattle.sym_base.specs.declared.values.state.Outcome.{Outcome as OneOutcome};
ghost use Rattle.sym_check.specs.Plan.ScriptPlans.{ScriptPlan};
ghost use Rattle.sym_base.specs.Tests.{Truth};
ghost use Rattle.sym_path.specs.declared.part.Part.{Part as OnePart};
ghost use Rattle.sym_path.specs.declared.path.Path.{Path as OnePath};
ghost use Rattle.sym_path.specs.Admitting.{Admits, admits};
ghost use Rattle.sym_path.specs.Fitting.{SegmentFits};
ghost use Rattle.sym_path.specs.Giving.{AgreeAt, IsOnlyOutcome, outcomes};
ghost use Rattle.sym_path.specs.Standing.{EndsAmong, StandsFor, GivesExactly};

pub mod changes;
pub mod composition;
pub mod given_outcomes;
pub mod pairs;
pub mod settled;
pub mod standing;
pub mod succession;

/// The test that computes says whether a constraint admits a state.
#[tactic(auto, using(crate::proofs::Decided::admits_decided))]
pub fn admitting_is_decided()
    ensures { (truth : Truth) (when : List OnePart) (s : OneState) →
        IsTrue (admits truth when s.cells) ↔ Admits truth when s }
{}

/// What the paths that admit a state give is one outcome exactly where one path admits it and
/// gives this outcome, and no other path admits it.
pub fn only_outcomes_are_equations()
    ensures { (truth : Truth) (paths : List OnePath) (s : OneState) (o : OneOutcome) →
        (outcomes truth paths s ≡ o ∷ []) ↔ IsOnlyOutcome truth paths s o }
{}

/// Lists of paths that agree at a state admit it alike: a path of one admits it exactly where a path
/// of the other does.
pub fn agreeing_paths_admit_alike()
    ensures { (truth : Truth) (paths others : List OnePath) (s : OneState) →
        AgreeAt truth paths others s →
        Any (λ (path : OnePath). Admits truth path.when s) paths
        ↔ Any (λ (path : OnePath). Admits truth path.when s) others }
{}

/// A segment stands for records exactly where it fits the script, its faults came at them, and what
/// its paths give at each valid state is the one outcome of the records from it.
pub fn standing_is_giving_exactly()
    ensures { (p : ScriptPlan) (records : List OneRecord) (paths : List OnePath) →
        StandsFor p records paths ↔ (SegmentFits p paths
        × All (λ (path : OnePath). EndsAmong records path.end) paths
        × GivesExactly p records paths) }
{}
