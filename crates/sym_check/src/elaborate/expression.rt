//! What expressions stand for.
ghost use Rattle.std.specs.Prelude.{◌≡◌, Some, map};
ghost use Rattle.sym_base.specs.Trees.{Call, expr_tree, exprs_tree};
ghost use Rattle.sym_check.specs.Breaks.Expressions.{place};
ghost use Rattle.sym_check.specs.Elaborate.Expressions as spec;
ghost use Rattle.sym_check.specs.Elaborate.Expressions.{named, infer, arguments, operands};
ghost use Rattle.sym_check.specs.Plan.FixedPlans.{num_plan};
ghost use Rattle.sym_check.specs.Rules.Scopes.{find};
ghost use Rattle.sym_check.specs.Checking.TypedPlans.{typed_plan, located_plan, arguments_plan, Answers};
ghost use Rattle.sym_check.specs.Rules.Typing.{num_variable, word_variable, label_variable};

use crate::elaborate::call::{called_on, test_named};
use crate::elaborate::error::CheckErr;
use crate::elaborate::operators::{inverted, joined, negated};
use crate::elaborate::scope::{Meaning, Scope, Variable, found};
use crate::elaborate::typed::{Arguments, Located, Typed};
use crate::plan::expression::{LabelOf, Line, Num, Term, WordOf};
use crate::plan::script::KindPlan;
use std::alloc::Global;
use sym_base::{Expr, Exprs, Name};

/// The place of an expression: that of a leaf, of an operator, or of a call's name.
pub(crate) fn place(expr: &Expr) -> u32
    ensures { result ≡ place (expr_tree expr.now) }
{
    match expr {
        Expr::Num(_, at)
        | Expr::Text(_, at)
        | Expr::Neg(_, at)
        | Expr::Not(_, at)
        | Expr::Bin(_, _, _, at) => *at,
        Expr::Named(name) | Expr::Call(name, _) => name.at,
    }
}

fn num_variable(variable: Variable) -> Num
    ensures { num_plan result ≡ num_variable variable }
{
    match variable {
        Variable::Field(field) => Num::Field(field),
        Variable::Local(local) => Num::Local(local),
        Variable::Param(param) => Num::Param(param),
    }
}

fn word_variable(variable: Variable) -> WordOf
    ensures { result ≡ word_variable variable }
{
    match variable {
        Variable::Field(field) => WordOf::Field(field),
        Variable::Local(local) => WordOf::Local(local),
        Variable::Param(param) => WordOf::Param(param),
    }
}

fn label_variable(variable: Variable) -> LabelOf
    ensures { result ≡ label_variable variable }
{
    match variable {
        Variable::Field(field) => LabelOf::Field(field),
        Variable::Local(local) => LabelOf::Local(local),
        Variable::Param(param) => LabelOf::Param(param),
    }
}

fn typed_variable(kind: KindPlan, variable: Variable) -> Typed
    ensures { typed_plan result ≡ spec.variable kind variable }
{
    match kind {
        KindPlan::Num => Typed::Number(Term::Fixed(num_variable(variable))),
        KindPlan::Word => Typed::Word(word_variable(variable)),
        KindPlan::Label(of) => Typed::Label(of, label_variable(variable)),
    }
}

fn meant(alloc: Global, at: u32, meaning: &Meaning) -> Result<Typed, CheckErr>
    ensures { Answers typed_plan (named at (Some meaning.now)) result }
{
    match meaning {
        Meaning::Label(of, label) => Ok(Typed::Label(*of, LabelOf::Lit(*label))),
        Meaning::Value(kind, variable) => Ok(typed_variable(*kind, *variable)),
        Meaning::IntCell(cell) => Ok(Typed::Number(Term::Line(Line::Cell(*cell)))),
        Meaning::EnumCell(cell, of) => Ok(Typed::EnumCell(*cell, *of)),
        Meaning::HoldCell(cell, kinds) => Ok(Typed::HoldCell(*cell, kinds.copy(alloc)?)),
        Meaning::Unfinished
        | Meaning::Enum(_)
        | Meaning::NumsCell(_)
        | Meaning::WordsCell(_)
        | Meaning::Test(..) => Err(CheckErr::Kind { at }),
    }
}

fn named(alloc: Global, scope: &Scope, name: &Name) -> Result<Typed, CheckErr>
    ensures { Answers typed_plan (named name.now.at (find scope.now name.now.text)) result }
{
    match found(scope, name.text.as_str()) {
        None => Err(CheckErr::Name { at: name.at }),
        Some(meaning) => meant(alloc, name.at, meaning),
    }
}

/// What an expression stands for.
#[cycle(infer)]
pub(crate) fn infer(alloc: Global, scope: &Scope, expr: &Expr) -> Result<Typed, CheckErr>
    ensures { Answers typed_plan (infer scope.now (expr_tree expr.now)) result }
{
    match expr {
        Expr::Num(number, _) => Ok(Typed::Number(Term::Fixed(Num::Lit(*number)))),
        Expr::Text(text, _) => Ok(Typed::Word(WordOf::Lit(text.copy(alloc)?))),
        Expr::Named(name) => named(alloc, scope, name),
        Expr::Call(name, values) => call(alloc, scope, name, values),
        Expr::Neg(operand, at) => {
            let typed = infer(alloc, scope, operand)?;
            let typed = typed.no_cell(place(operand))?;
            negated(alloc, *at, typed)
        }
        Expr::Not(operand, at) => {
            let typed = infer(alloc, scope, operand)?;
            let typed = typed.no_cell(place(operand))?;
            inverted(alloc, *at, typed)
        }
        Expr::Bin(operator, left, right, at) => {
            let first = infer(alloc, scope, left)?;
            let first = first.left_of(*operator, place(left))?;
            let second = infer(alloc, scope, right)?;
            let second = second.no_cell(place(right))?;
            joined(alloc, *operator, *at, first, second)
        }
    }
}

#[cycle(infer)]
fn call(alloc: Global, scope: &Scope, name: &Name, values: &Exprs) -> Result<Typed, CheckErr>
    ensures { Answers typed_plan (infer scope.now (Call name.now (exprs_tree values.now))) result }
{
    let test = test_named(scope, name)?;
    let arguments = arguments(alloc, scope, name.at, values)?;
    called_on(alloc, name.at, test, arguments)
}

// The arguments of a call; there is at least one.
#[cycle(infer)]
fn arguments(alloc: Global, scope: &Scope, at: u32, values: &Exprs) -> Result<Arguments, CheckErr>
    ensures { Answers arguments_plan (arguments scope.now at (exprs_tree values.now)) result }
{
    match values {
        Exprs::End => Err(CheckErr::Kind { at }),
        Exprs::More(first, rest) => {
            let at = place(first);
            let typed = infer(alloc, scope, first)?;
            let typed = typed.first_of(at)?;
            let others = operands(alloc, scope, rest)?;
            Ok(Arguments {
                first: Located { at, typed },
                others,
            })
        }
    }
}

/// What operands stand for, one after the other. There may be any number of them.
#[cycle(infer)]
pub(crate) fn operands(
    alloc: Global,
    scope: &Scope,
    values: &Exprs,
) -> Result<Vec<Located>, CheckErr>
    ensures { Answers (λ v. map located_plan v.items)
        (operands scope.now (exprs_tree values.now)) result }
{
    let mut located = Vec::new(alloc);
    let mut rest = values;
    'values: while let Exprs::More(value, others) = rest {
        let at = place(value);
        let typed = infer(alloc, scope, value)?;
        let typed = typed.no_cell(at)?;
        located.push(Located { at, typed })?;
        rest = others;
    }
    Ok(located)
}
