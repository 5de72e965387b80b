//! Whole scripts.
ghost use Rattle.std.specs.Prelude.{◌≡◌, ◌<◌, [], length, map, pos};
ghost use Rattle.sym_base.specs.Lawful.{IsLawful};
ghost use Rattle.sym_base.specs.Sizes.{stmts_count};
ghost use Rattle.sym_base.specs.Trees.{column_tree, script_tree, stmts_tree};
ghost use Rattle.sym_check.specs.Plan.DoPlans.{dos_plan};
ghost use Rattle.sym_check.specs.Plan.ScriptPlans.{column_plan, script_plan};
ghost use Rattle.sym_check.specs.Rules.Scripts.{bounded, plan_of};
ghost use Rattle.sym_check.specs.Checking.Showing.{HaveFewParts};
ghost use Rattle.sym_check.specs.Checking.TypedPlans.{Answers};
ghost use Rattle.sym_check.specs.Checking.WholeScripts.{update_plan, column_plans};

use crate::elaborate::error::CheckErr;
use crate::elaborate::field::{field_decls, group_of};
use crate::elaborate::label::enum_decls;
use crate::elaborate::names::names_of;
use crate::elaborate::report::column_decls;
use crate::elaborate::scope::{Scope, View, seen};
use crate::elaborate::state::state_decls;
use crate::elaborate::statement::block;
use crate::elaborate::test::test_decls;
use crate::path_bound::path_bound_of;
use crate::plan::script::{ColumnPlans, Plan};
use crate::plan::statement::Dos;
use std::alloc::Global;
use sym_base::{ColumnDecls, PATHS_MAX, Script, Stmts};

// The plan of an update, in the scope of all declarations.
fn update_of(alloc: Global, scope: &Scope, update: &Stmts) -> Result<Dos, CheckErr>
    requires { stmts_count (stmts_tree update.now) < 65536 }
    ensures { Answers dos_plan (update_plan scope.now (stmts_tree update.now)) result }
{
    let hidden = seen(alloc, View::Hidden, scope)?;
    let mut scope = seen(alloc, View::Update, scope)?;
    let mut next = 0;
    block(alloc, &hidden, &mut scope, &mut next, update)
}

// The plans of the report's columns, in the scope of all declarations.
#[tactic(auto, using(crate::proofs::FewParts::visible_few))]
fn columns_of(alloc: Global, scope: &Scope, columns: &ColumnDecls) -> Result<ColumnPlans, CheckErr>
    requires count { length columns.now < 65536 }
    requires parts { HaveFewParts scope.now }
    ensures { let trees = map column_tree columns.now in
        Answers (map column_plan) (column_plans scope.now trees) result }
{
    let scope = seen(alloc, View::Report, scope)?;
    let mut names = Scope::new(alloc);
    column_decls(alloc, &scope, &mut names, columns)
}

// The last rule: few paths.
fn bounded(plan: Plan) -> Result<Plan, CheckErr>
    ensures { Answers script_plan (bounded (script_plan plan)) result }
{
    let paths = path_bound_of(&plan);
    if paths <= PATHS_MAX {
        Ok(plan)
    } else {
        Err(CheckErr::Branchy { paths })
    }
}

/// The plan of a script, or its first broken rule.
pub(crate) fn elaborate_script(alloc: Global, script: &Script) -> Result<Plan, CheckErr>
    requires { IsLawful (script_tree script.now) }
    ensures { Answers script_plan (plan_of (script_tree script.now)) result }
{
    let mut scope = Scope::new(alloc);
    let enums = enum_decls(alloc, &mut scope, &script.enums)?;
    let fields = field_decls(alloc, &mut scope, &script.fields)?;
    let group = group_of(alloc, &scope, &script.group)?;
    let cells = state_decls(alloc, &mut scope, &script.states)?;
    let names = names_of(alloc, script)?;
    let tests = test_decls(alloc, &names, &mut scope, &script.tests)?;
    let update = update_of(alloc, &scope, &script.update)?;
    let columns = columns_of(alloc, &scope, &script.columns)?;
    bounded(Plan {
        enums,
        fields,
        group,
        cells,
        tests,
        update,
        columns,
    })
}
