//! Columns of the report.
ghost use Rattle.std.specs.Prelude.{◌≡◌, ◌<◌, IfOk, IsTrue, Some, length, map};
ghost use Rattle.sym_base.specs.Trees.{Call, column_tree, expr_tree, exprs_tree};
ghost use Rattle.sym_check.specs.Checking.Declaring.{Declares};
ghost use Rattle.sym_check.specs.Elaborate.Reports.{Parts, seen, see, see_all, column_decl};
ghost use Rattle.sym_check.specs.Rules.InOrder.{each};
ghost use Rattle.sym_check.specs.Plan.ScriptPlans.{column_plan};
ghost use Rattle.sym_check.specs.Rules.Scopes.{find};
ghost use Rattle.sym_check.specs.Checking.Showing.{seen_plan, has_few_parts, HaveFewParts};
ghost use Rattle.sym_check.specs.Checking.TypedPlans.{Answers};

use crate::elaborate::error::CheckErr;
use crate::elaborate::expression::place;
use crate::elaborate::name_uses::{declare, free};
use crate::elaborate::scope::{Meaning, Scope, found};
use crate::elaborate::seen::{HoldParts, Seen};
use crate::elaborate::shown::{applied, calculated, is_part, list_function, negative, shown};
use crate::plan::script::{ColumnPlan, ColumnPlans, KindPlans};
use crate::plan::show::Show;
use std::alloc::Global;
use sym_base::{ColumnDecl, ColumnDecls, Expr, Exprs, Name, NoMemory, Sequence};

fn parts_seen(alloc: Global, cell: u16, kinds: &KindPlans) -> Result<Seen, NoMemory>
    requires { length kinds.now < 65536 }
    ensures { IfOk result (λ s. seen_plan s ≡ Parts cell kinds.now) }
{
    let kinds = kinds.copy(alloc)?;
    Ok(Seen::Parts(HoldParts { cell, kinds }))
}

fn meaning_seen(alloc: Global, at: u32, meaning: &Meaning) -> Result<Seen, CheckErr>
    requires { IsTrue (has_few_parts meaning.now) }
    ensures { Answers seen_plan (seen at (Some meaning.now)) result }
{
    match meaning {
        Meaning::IntCell(cell) => Ok(Seen::Number(Show::Cell(*cell))),
        Meaning::EnumCell(cell, _) => Ok(Seen::Word(Show::Cell(*cell))),
        Meaning::HoldCell(cell, kinds) => Ok(parts_seen(alloc, *cell, kinds)?),
        Meaning::NumsCell(cell) => Ok(Seen::NumList(*cell)),
        Meaning::WordsCell(cell) => Ok(Seen::WordList(*cell)),
        Meaning::Unfinished
        | Meaning::Enum(_)
        | Meaning::Label(..)
        | Meaning::Value(..)
        | Meaning::Test(..) => Err(CheckErr::Kind { at }),
    }
}

#[tactic(auto, using(crate::proofs::FewParts::found_few))]
fn name_seen(alloc: Global, scope: &Scope, name: &Name) -> Result<Seen, CheckErr>
    requires { HaveFewParts scope.now }
    ensures { Answers seen_plan (seen name.now.at (find scope.now name.now.text)) result }
{
    match found(scope, name.text.as_str()) {
        Some(meaning) => meaning_seen(alloc, name.at, meaning),
        None => Err(CheckErr::Name { at: name.at }),
    }
}

#[cycle(see)]
fn see(alloc: Global, scope: &Scope, expr: &Expr) -> Result<Seen, CheckErr>
    requires { HaveFewParts scope.now }
    ensures { Answers seen_plan (see scope.now (expr_tree expr.now)) result }
{
    match expr {
        Expr::Num(number, at) => Ok(Seen::Numeral(*number, *at)),
        Expr::Text(text, _) => Ok(Seen::Word(Show::Text(text.copy(alloc)?))),
        Expr::Named(name) => name_seen(alloc, scope, name),
        Expr::Call(name, values) => call_seen(alloc, scope, name, values),
        Expr::Neg(operand, at) => {
            let operand = see(alloc, scope, operand)?;
            negative(alloc, *at, operand)
        }
        Expr::Not(operand, at) => {
            let _operand = see(alloc, scope, operand)?;
            Err(CheckErr::Kind { at: *at })
        }
        Expr::Bin(operator, left, right, at) => {
            let left = see(alloc, scope, left)?;
            let right = see(alloc, scope, right)?;
            calculated(alloc, *operator, *at, left, right)
        }
    }
}

#[cycle(see)]
fn call_seen(alloc: Global, scope: &Scope, name: &Name, values: &Exprs) -> Result<Seen, CheckErr>
    requires { HaveFewParts scope.now }
    ensures { Answers seen_plan (see scope.now (Call name.now (exprs_tree values.now))) result }
{
    let function = list_function(name.text.as_str());
    if function.is_none() && !is_part(name.text.as_str()) {
        return Err(CheckErr::Name { at: name.at });
    }
    let found = see_all(alloc, scope, values)?;
    applied(name.at, function, found.as_slice())
}

#[cycle(see)]
fn see_all(alloc: Global, scope: &Scope, values: &Exprs) -> Result<Sequence<Seen>, CheckErr>
    requires { HaveFewParts scope.now }
    ensures { Answers (map seen_plan) (see_all scope.now (exprs_tree values.now)) result }
{
    let mut found = Sequence::new(alloc);
    let mut rest = values;
    'values: while let Exprs::More(first, others) = rest {
        let seen = see(alloc, scope, first)?;
        found.push(seen)?;
        rest = others;
    }
    Ok(found)
}

fn column_decl(
    alloc: Global,
    scope: &Scope,
    columns: &mut Scope,
    number: u16,
    decl: &ColumnDecl,
) -> Result<ColumnPlan, CheckErr>
    requires { HaveFewParts scope.now }
    ensures { let column = column_decl scope.now columns.old number (column_tree decl.now) in
        Declares column_plan column result columns.new }
{
    free(columns, &decl.name)?;
    let seen = see(alloc, scope, &decl.value)?;
    let value = shown(place(&decl.value), seen)?;
    declare(alloc, columns, &decl.name, Meaning::Unfinished)?;
    let name = decl.name.text.copy(alloc)?;
    Ok(ColumnPlan { name, value })
}

/// The plans of columns, whose names are added to `names`. The scope is that of the report.
pub(crate) fn column_decls(
    alloc: Global,
    scope: &Scope,
    names: &mut Scope,
    decls: &ColumnDecls,
) -> Result<ColumnPlans, CheckErr>
    requires count { length decls.now < 65536 }
    requires parts { HaveFewParts scope.now }
    ensures { let outcome = each (column_decl scope.now) names.old 0 (map column_tree decls.now) in
        Declares (map column_plan) outcome result names.new }
{
    let mut columns = ColumnPlans::new(alloc);
    'columns: for (number, decl) in decls.as_slice().iter().enumerate() {
        let column = column_decl(alloc, scope, names, number as u16, decl)?;
        columns.push(column)?;
    }
    Ok(columns)
}
