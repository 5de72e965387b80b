//! Which paths can come after others.
ghost use Rattle.sym_base.specs.declared.values.state.State.{State as OneState};
ghost use Rattle.sym_base.specs.Tests.{Truth};
ghost use Rattle.sym_path.specs.declared.path.Path.{Path as OnePath};
ghost use Rattle.sym_path.specs.Admitting.{Admits};
ghost use Rattle.sym_path.specs.Following.{AdmitsOutcome};
ghost use Rattle.sym_path.specs.Giving.{end_at};
ghost use Rattle.sym_path.specs.Possible.{IsPossiblePair};

/// Where the first path admits some state, and the second one what the first makes of it, the
/// second can come after the first, whatever the tests answer.
pub fn paths_in_turn_are_possible()
    ensures { (truth : Truth) (p q : OnePath) (s : OneState) → Admits truth p.when s →
        AdmitsOutcome truth q.when (end_at p.end s) → IsPossiblePair truth p q }
{}
