//! Tests.
ghost use Rattle.std.specs.Prelude.{◌≡◌, ◌<◌, ◌++◌, IfOk, IfErr, OnOk, OnErr, true, false, length, map};
ghost use Rattle.std.specs.List.{list_all, list_any};
ghost use Rattle.sym_base.specs.Lawful.{is_lawful_test};
ghost use Rattle.sym_base.specs.Trees.{expr_tree, test_tree};
ghost use Rattle.sym_check.specs.Plan.CondPlans.{cond_plan};
ghost use Rattle.sym_check.specs.Meaning.Conditions.{same_word};
ghost use Rattle.sym_check.specs.Rules.Declarations.{unfinished};
ghost use Rattle.sym_check.specs.Checking.Declaring.{Declares, body_of};
ghost use Rattle.sym_check.specs.Elaborate.Declarations.{param_decl, test_decl};
ghost use Rattle.sym_check.specs.Rules.InOrder.{each};
ghost use Rattle.sym_check.specs.Rules.Scopes.{in_tests};
ghost use Rattle.sym_check.specs.Plan.ScriptPlans.{test_plan};
ghost use Rattle.sym_check.specs.Checking.TypedPlans.{Answers, itself};
ghost use Rattle.sym_check.specs.declared.elaborate.error.CheckErr.TheVariants as rule_err;

use crate::elaborate::error::CheckErr;
use crate::elaborate::expression::{infer, place};
use crate::elaborate::literal::kind_of;
use crate::elaborate::name_uses::{declare, free};
use crate::elaborate::scope::{Meaning, Scope, Variable, View, seen};
use crate::plan::condition::Cond;
use crate::plan::script::{KindPlan, KindPlans, TestPlan, TestPlans};
use std::alloc::Global;
use sym_base::{Expr, Name, NoMemory, Param, Params, TestDecl, TestDecls, Texts};

// Whether none of the names is this one; it is `Twice` where one is.
fn unnamed(names: &Texts, name: &Name) -> Result<(), CheckErr>
    ensures free { OnOk result (list_any (same_word name.now.text) names.now ≡ false) }
    ensures at { IfErr result (λ e. e ≡ rule_err.Twice name.now.at) }
    ensures taken { OnErr result (list_any (same_word name.now.text) names.now ≡ true) }
{
    'names: for text in names.as_slice() {
        if name.text.as_str() == text.as_str() {
            return Err(CheckErr::Twice { at: name.at });
        }
    }
    Ok(())
}

// A parameter of the test `own`.
fn param_decl(
    alloc: Global,
    names: &Texts,
    scope: &Scope,
    own: &Name,
    params: &mut Scope,
    number: u16,
    decl: &Param,
) -> Result<KindPlan, CheckErr>
    ensures { let seen = unfinished scope.now own.now in
        Declares itself (param_decl names.now seen params.old number decl.now) result params.new }
{
    unnamed(names, &decl.name)?;
    free(params, &decl.name)?;
    let kind = kind_of(scope, own, &decl.kind)?;
    let meaning = Meaning::Value(kind, Variable::Param(number));
    declare(alloc, params, &decl.name, meaning)?;
    Ok(kind)
}

fn param_decls(
    alloc: Global,
    names: &Texts,
    scope: &Scope,
    own: &Name,
    params: &mut Scope,
    decls: &Params,
) -> Result<KindPlans, CheckErr>
    requires { length decls.now < 65536 }
    ensures { let one = param_decl names.now (unfinished scope.now own.now) in
        Declares itself (each one params.old 0 decls.now) result params.new }
{
    let mut kinds = KindPlans::new(alloc);
    'params: for (number, decl) in decls.as_slice().iter().enumerate() {
        let kind = param_decl(alloc, names, scope, own, params, number as u16, decl)?;
        kinds.push(kind)?;
    }
    Ok(kinds)
}

// The names of the first scope that the bodies of tests see, and then those of the second.
fn in_body(alloc: Global, scope: &Scope, params: Scope) -> Result<Scope, NoMemory>
    ensures { IfOk result (λ s. s ≡ in_tests scope.now ++ params) }
{
    let mut names = seen(alloc, View::Tests, scope)?;
    names.append(alloc, params)?;
    Ok(names)
}

// The condition of a test's body.
fn body_of(alloc: Global, scope: &Scope, params: Scope, body: &Expr) -> Result<Cond, CheckErr>
    ensures { Answers cond_plan (body_of scope.now params (expr_tree body.now)) result }
{
    let seen = in_body(alloc, scope, params)?;
    let typed = infer(alloc, &seen, body)?;
    typed.condition(place(body))
}

fn test_decl(
    alloc: Global,
    names: &Texts,
    scope: &mut Scope,
    number: u16,
    decl: &TestDecl,
) -> Result<TestPlan, CheckErr>
    requires { length decl.now.params < 65536 }
    ensures { let tree = test_tree decl.now in
        Declares test_plan (test_decl names.now scope.old number tree) result scope.new }
{
    free(scope, &decl.name)?;
    let mut inner = Scope::new(alloc);
    let params = param_decls(alloc, names, scope, &decl.name, &mut inner, &decl.params)?;
    let body = body_of(alloc, scope, inner, &decl.body)?;
    let meaning = Meaning::Test(number, params.copy(alloc)?);
    declare(alloc, scope, &decl.name, meaning)?;
    Ok(TestPlan { params, body })
}

/// The plans of tests, and the scope after them. `names` are all of the script.
pub(crate) fn test_decls(
    alloc: Global,
    names: &Texts,
    scope: &mut Scope,
    decls: &TestDecls,
) -> Result<TestPlans, CheckErr>
    requires few { length decls.now < 65536 }
    requires lawful { list_all is_lawful_test (map test_tree decls.now) ≡ true }
    ensures { let outcome = each (test_decl names.now) scope.old 0 (map test_tree decls.now) in
        Declares (map test_plan) outcome result scope.new }
{
    let mut tests = TestPlans::new(alloc);
    'tests: for (number, decl) in decls.as_slice().iter().enumerate() {
        let test = test_decl(alloc, names, scope, number as u16, decl)?;
        tests.push(test)?;
    }
    Ok(tests)
}
