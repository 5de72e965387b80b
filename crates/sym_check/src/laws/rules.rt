//! Laws of the rules on expressions and statements.
ghost use Rattle.std.specs.Prelude.{◌≡◌, ◌↔◌, ℕ, Ok, Err};
ghost use Rattle.sym_base.specs.Trees.{ExprTree, StmtsTree};
ghost use Rattle.sym_check.specs.declared.elaborate.error.CheckErr.{CheckErr as Fault};
ghost use Rattle.sym_check.specs.Plan.DoPlans.{DosPlan};
ghost use Rattle.sym_check.specs.Rules.Scopes.{Scope as Names};
ghost use Rattle.sym_check.specs.Rules.Typing.{Typed as Meaning, Means};
ghost use Rattle.sym_check.specs.Breaks.Expressions.{Breaks};
ghost use Rattle.sym_check.specs.Elaborate.Expressions.{infer};
ghost use Rattle.sym_check.specs.Rules.Statements.{IsBlock};
ghost use Rattle.sym_check.specs.Breaks.Statements.{BreaksBlock};
ghost use Rattle.sym_check.specs.Elaborate.Statements.{block};

/// What an expression stands for, and the first broken rule in it, are what the function answers.
/// So it has one meaning or one first broken rule, and never both.
pub fn expressions_have_a_meaning_or_a_fault()
    ensures meaning { (s : Names) (e : ExprTree) (t : Meaning) → Means s e t ↔ (infer s e ≡ Ok t) }
    ensures fault { (s : Names) (e : ExprTree) (f : Fault) → Breaks s e f ↔ (infer s e ≡ Err f) }
{}

/// The plan of a block, and the first broken rule in it, are what the function answers. So it has
/// one plan or one first broken rule, and never both. `out` are the names that are taken but not
/// visible, and the numbers are those of the next local before the block and after it.
pub fn blocks_have_a_plan_or_a_fault()
    ensures plan { (out s : Names) (n m : ℕ) (b : StmtsTree) (p : DosPlan) →
        IsBlock out s n b p m ↔ (block out s n b ≡ Ok (record { plan = p; next = m })) }
    ensures fault { (out s : Names) (n : ℕ) (b : StmtsTree) (f : Fault) →
        BreaksBlock out s n b f ↔ (block out s n b ≡ Err f) }
{}
