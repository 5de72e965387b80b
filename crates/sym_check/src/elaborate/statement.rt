//! Statements of the update, in their order. A scope grows by the locals of its block.
ghost use Rattle.std.specs.Prelude.{◌≡◌, ◌+◌, ◌<◌, ◌≤◌, IfOk, OnOk, length, take};
ghost use Rattle.sym_base.specs.Sizes.{stmt_count, stmts_count};
ghost use Rattle.sym_base.specs.Trees.{Let, Set, Push, Keep, KeepFrom, expr_tree, exprs_tree, stmt_tree, stmts_tree};
ghost use Rattle.sym_check.specs.Checking.BlockPlans.{Plans, local_plan, planned_do, planned_dos};
ghost use Rattle.sym_check.specs.Plan.DoPlans.{Then, do_plan, dos_plan};
ghost use Rattle.sym_check.specs.Elaborate.Statements as spec;
ghost use Rattle.sym_check.specs.Elaborate.Statements.{let_value, statement, block};
ghost use Rattle.sym_check.specs.Checking.TypedPlans.{typed_plan, Answers};

use crate::elaborate::error::CheckErr;
use crate::elaborate::expression::{infer, operands, place};
use crate::elaborate::holds::{kept, kept_from, kept_values};
use crate::elaborate::name_uses::{declare, free};
use crate::elaborate::scope::{Meaning, Scope, Variable};
use crate::elaborate::target::{assigned, placed_in, pushed};
use crate::elaborate::typed::Typed;
use crate::plan::expression::{Fixed, Term};
use crate::plan::script::KindPlan;
use crate::plan::statement::{Do, Dos};
use std::alloc::Global;
use sym_base::{Expr, Exprs, Name, NoMemory, Stmt, Stmts};

/// A value that a local may have, and its kind.
#[derive(Drop)]
pub(crate) struct LocalValue {
    pub kind: KindPlan,
    pub value: Fixed,
}

fn let_value(at: u32, typed: Typed) -> Result<LocalValue, CheckErr>
    ensures { Answers local_plan (let_value at (typed_plan typed)) result }
{
    match typed {
        Typed::Number(Term::Fixed(number)) => Ok(LocalValue {
            kind: KindPlan::Num,
            value: Fixed::Num(number),
        }),
        Typed::Word(word) => Ok(LocalValue {
            kind: KindPlan::Word,
            value: Fixed::Word(word),
        }),
        Typed::Label(of, label) => Ok(LocalValue {
            kind: KindPlan::Label(of),
            value: Fixed::Label(label),
        }),
        Typed::Number(Term::Line(_))
        | Typed::EnumCell(..)
        | Typed::HoldCell(..)
        | Typed::Truth(_) => Err(CheckErr::Kind { at }),
    }
}

fn local(
    alloc: Global,
    hidden: &Scope,
    scope: &mut Scope,
    next: &mut u16,
    name: &Name,
    value: &Expr,
) -> Result<Do, CheckErr>
    requires { next.old + 1 < 65536 }
    ensures plan { Answers (planned_do scope.new next.new)
        (statement hidden.now scope.old next.old (Let name.now (expr_tree value.now))) result }
    ensures scope { OnOk result (take (length scope.old) scope.new ≡ scope.old) }
    ensures few { OnOk result (next.new ≤ next.old + 1) }
{
    free(hidden, name)?;
    free(scope, name)?;
    let typed = infer(alloc, scope, value)?;
    let local = let_value(place(value), typed)?;
    let number = *next;
    let meaning = Meaning::Value(local.kind, Variable::Local(number));
    declare(alloc, scope, name, meaning)?;
    *next = number + 1;
    Ok(Do::Let(number, local.value))
}

fn set(alloc: Global, scope: &Scope, name: &Name, value: &Expr) -> Result<Do, CheckErr>
    ensures { Plans scope.now (Set name.now (expr_tree value.now)) result }
{
    let target = assigned(scope, name)?;
    let typed = infer(alloc, scope, value)?;
    placed_in(place(value), target, typed)
}

fn push(alloc: Global, scope: &Scope, name: &Name, value: &Expr) -> Result<Do, CheckErr>
    ensures { Plans scope.now (Push name.now (expr_tree value.now)) result }
{
    let target = pushed(scope, name)?;
    let typed = infer(alloc, scope, value)?;
    placed_in(place(value), target, typed)
}

fn keep(alloc: Global, scope: &Scope, name: &Name, values: &Exprs) -> Result<Do, CheckErr>
    ensures { Plans scope.now (Keep name.now (exprs_tree values.now)) result }
{
    let cell = kept(scope, name)?;
    let values = operands(alloc, scope, values)?;
    kept_values(alloc, name.at, cell, values)
}

fn keep_from(scope: &Scope, name: &Name, source: &Name) -> Result<Do, CheckErr>
    ensures { Plans scope.now (KeepFrom name.now source.now) result }
{
    let cell = kept(scope, name)?;
    let from = kept(scope, source)?;
    kept_from(source.at, cell, from)
}

fn followed(alloc: Global, first: Do, rest: Dos) -> Result<Dos, NoMemory>
    ensures { IfOk result (λ ds. dos_plan ds ≡ Then (do_plan first) (dos_plan rest)) }
{
    let first = Box::new(alloc, first)?;
    Ok(Dos::More(first, Box::new(alloc, rest)?))
}

#[cycle(block)]
fn statement(
    alloc: Global,
    hidden: &Scope,
    scope: &mut Scope,
    next: &mut u16,
    statement: &Stmt,
) -> Result<Do, CheckErr>
    requires { next.old + stmt_count (stmt_tree statement.now) < 65536 }
    ensures plan { Answers (planned_do scope.new next.new)
        (spec.statement hidden.now scope.old next.old (stmt_tree statement.now)) result }
    ensures scope { OnOk result (take (length scope.old) scope.new ≡ scope.old) }
    ensures few { OnOk result (next.new ≤ next.old + stmt_count (stmt_tree statement.now)) }
{
    match statement {
        Stmt::Let(name, value) => local(alloc, hidden, scope, next, name, value),
        Stmt::Set(name, value) => set(alloc, scope, name, value),
        Stmt::Push(name, value) => push(alloc, scope, name, value),
        Stmt::Keep(name, values) => keep(alloc, scope, name, values),
        Stmt::KeepFrom(name, source) => keep_from(scope, name, source),
        Stmt::If(condition, then, otherwise) => {
            let typed = infer(alloc, scope, condition)?;
            let condition = typed.condition(place(condition))?;
            let then = block(alloc, hidden, scope, next, then)?;
            let otherwise = block(alloc, hidden, scope, next, otherwise)?;
            Ok(Do::If(condition, then, otherwise))
        }
    }
}

/// The plan of statements. `hidden` has the names of the script that the update doesn't see, and
/// `next` is the number of the next local. The scope is as before after an `Ok`.
#[cycle(block)]
pub(crate) fn block(
    alloc: Global,
    hidden: &Scope,
    scope: &mut Scope,
    next: &mut u16,
    statements: &Stmts,
) -> Result<Dos, CheckErr>
    requires { next.old + stmts_count (stmts_tree statements.now) < 65536 }
    ensures plan { Answers (planned_dos next.new)
        (block hidden.now scope.old next.old (stmts_tree statements.now)) result }
    ensures scope { OnOk result (scope.new ≡ scope.old) }
    ensures few { OnOk result (next.new ≤ next.old + stmts_count (stmts_tree statements.now)) }
{
    match statements {
        Stmts::End => Ok(Dos::End),
        Stmts::More(first, rest) => {
            let count = scope.len();
            let first = statement(alloc, hidden, scope, next, first)?;
            let rest = block(alloc, hidden, scope, next, rest)?;
            scope.truncate(count);
            Ok(followed(alloc, first, rest)?)
        }
    }
}
