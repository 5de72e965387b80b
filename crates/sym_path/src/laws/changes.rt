//! What paths keep whose ends are changed.
ghost use Rattle.std.specs.Prelude.{◌≡◌, ℕ, map};
ghost use Rattle.sym_base.specs.declared.values.state.Fault.{Fault as OneFault};
ghost use Rattle.sym_base.specs.declared.values.state.State.{State as OneState};
ghost use Rattle.sym_base.specs.Tests.{Truth};
ghost use Rattle.sym_check.specs.Meaning.Fitting.{FitsFault};
ghost use Rattle.sym_check.specs.Plan.ScriptPlans.{ScriptPlan};
ghost use Rattle.sym_path.specs.declared.form.Form.{Form as OneForm};
ghost use Rattle.sym_path.specs.declared.path.Path.{Path as OnePath};
ghost use Rattle.sym_path.specs.Changing.{FormFitsCell, changed, ended_by, formed, with_fault, with_form};
ghost use Rattle.sym_path.specs.Fitting.{PathFits};
ghost use Rattle.sym_path.specs.Giving.{given};

/// A path in which a cell has another form gives the states in which this cell is as the form says,
/// and fits the script where the form fits the cell and is taken on the constraint. The later of two
/// forms of one cell counts.
pub fn forms_can_be_replaced()
    ensures gives { (truth : Truth) (s : OneState) (path : OnePath) (c : ℕ) (f : OneForm) →
        given truth (with_form path c f) s ≡ map (changed (formed c f s)) (given truth path s) }
    ensures fits { (p : ScriptPlan) (path : OnePath) (c : ℕ) (f : OneForm) →
        PathFits p path → FormFitsCell p path.when c f → PathFits p (with_form path c f) }
    ensures later { (path : OnePath) (c : ℕ) (f g : OneForm) →
        with_form (with_form path c f) c g ≡ with_form path c g }
{}

/// A path that ends by a fault gives this fault, and fits the script where the fault does.
pub fn paths_can_fail()
    ensures gives { (truth : Truth) (s : OneState) (path : OnePath) (fault : OneFault) →
        given truth (with_fault path fault) s ≡ map (ended_by fault) (given truth path s) }
    ensures fits { (p : ScriptPlan) (path : OnePath) (fault : OneFault) →
        PathFits p path → FitsFault p fault.kind → PathFits p (with_fault path fault) }
{}
