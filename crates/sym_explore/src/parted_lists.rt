//! Lists of paths, parted by a condition whose expressions without cells were evaluated.
ghost use Rattle.std.specs.Prelude.{◌≡◌, ◌≤◌, ◌++◌, ℕ, [], IfOk, OnOk, IsTrue, drop, if◌then◌else◌, length, take};
ghost use Rattle.sym_check.specs.Plan.ScriptPlans.{script_plan};
ghost use Rattle.sym_check.specs.Plan.WellFormed.{IsWellFormed};
ghost use Rattle.sym_explore.specs.Evaluating.{AreFewSplit, CellConditionFits, EvaluatedFits, SplitsEach, tried_on_cell, is_known, cell_branches};
ghost use Rattle.sym_explore.specs.Branches.{AreFewBranches, AreGoing, BranchesGo, CanSplit, Splits};
ghost use Rattle.sym_explore.specs.Parting.{AreFewParts, AreOfOneTruth, AreParts};
ghost use Rattle.sym_explore.specs.Running.{CanRun};
ghost use Rattle.sym_explore.specs.Trying.{EvaluatedWasTried};

use crate::branch::{Branch, put_all};
use crate::comparisons::{Bound, compare_ready};
use crate::context::Context;
use crate::ended_paths::{arith, fail_all};
use crate::hold_tests::{TestCall, call};
use crate::labels::cell_is;
use crate::moves::{move_all, move_from};
use crate::path_lists::PathLists;
use crate::terms::Ready;
use std::alloc::Global;
use sym_base::{NoMemory, Values};
use sym_check::Plan;
use sym_path::Path;

/// A condition on one cell, with its other expressions evaluated.
#[derive(Clone, Copy)]
pub enum CellCondition {
    /// The term compares so with the number.
    Compare(Ready, Bound),
    /// The enum cell holds the label.
    Label(u16, u8),
    /// The test answers true for the parts of the hold cell, which stands after it, and arguments.
    Call(u16, u16),
}

/// What a condition without `not`, `and` and `or` comes to, with its expressions evaluated.
#[derive(Clone, Copy)]
pub enum Evaluated {
    /// One truth at every state.
    Known(bool),
    /// Arithmetic that fails.
    Failed,
    /// A truth that depends on a cell.
    Open(CellCondition),
}

/// Splits a path that goes on by a condition on a cell. The path becomes the last of its branches,
/// whose truth is the answer, and the others are put into `out`.
fn split(
    alloc: Global,
    plan: &Plan,
    condition: &CellCondition,
    args: &Values,
    path: &mut Path,
    out: &mut Vec<Branch>,
) -> Result<bool, NoMemory>
    requires known { IsWellFormed (script_plan plan.now) }
    requires condition { CellConditionFits (script_plan plan.now) args.now condition.now }
    requires split { CanSplit (script_plan plan.now) path.old out.old.items }
    ensures exact { (n : ℕ) →
        let meaning = tried_on_cell (script_plan plan.now) args.now condition.now n in
        IfOk result (Splits (script_plan plan.now) meaning
        path.old out.old.items path.new out.new.items) }
    ensures next { OnOk result (CanSplit (script_plan plan.now) path.new out.new.items) }
    ensures few { IfOk result (AreFewBranches (cell_branches condition.now)
        out.old.items out.new.items) }
{
    match condition {
        CellCondition::Compare(ready, bound) => compare_ready(alloc, plan, ready, bound, path, out),
        CellCondition::Label(cell, label) => cell_is(alloc, plan, *cell, *label, path, out),
        CellCondition::Call(test, cell) => {
            let called = TestCall {
                test: *test,
                cell: *cell,
                args,
            };
            call(alloc, plan, &called, path, out)
        }
    }
}

/// Splits paths where they lie. Those on which the condition is true become the first ones, and
/// their number is the answer. The pieces that a split adds are put into `pieces`.
fn split_each(
    alloc: Global,
    plan: &Plan,
    condition: &CellCondition,
    args: &Values,
    paths: &mut Vec<Path>,
    pieces: &mut Vec<Branch>,
) -> Result<usize, NoMemory>
    requires known { IsWellFormed (script_plan plan.now) }
    requires condition { CellConditionFits (script_plan plan.now) args.now condition.now }
    requires going { AreGoing (script_plan plan.now) paths.old.items }
    requires pieces { BranchesGo (script_plan plan.now) pieces.old.items }
    ensures within { IfOk result (λ count. count ≤ length paths.new.items) }
    ensures exact { (n : ℕ) →
        let meaning = tried_on_cell (script_plan plan.now) args.now condition.now n in
        IfOk result (λ count. SplitsEach (script_plan plan.now) meaning
        paths.old.items pieces.old.items
        (take count paths.new.items) (drop count paths.new.items) pieces.new.items) }
    ensures few { IfOk result (λ count. AreFewSplit (cell_branches condition.now)
        paths.old.items pieces.old.items
        (take count paths.new.items) (drop count paths.new.items) pieces.new.items) }
    ensures going { OnOk result (AreGoing (script_plan plan.now) paths.new.items) }
    ensures pieces { OnOk result (BranchesGo (script_plan plan.now) pieces.new.items) }
{
    let mut count = 0;
    let mut index = 0;
    'paths: while index < paths.len() {
        if split(alloc, plan, condition, args, &mut paths[index], pieces)? {
            paths.swap(count, index);
            count += 1;
        }
        index += 1;
    }
    Ok(count)
}

/// Parts paths by a condition on a cell: their branches on which it is true take their place, and
/// the others are put into `falses`. Where `falses` is empty, paths that aren't split and on which
/// it has one truth take no memory.
fn part_each(
    alloc: Global,
    plan: &Plan,
    condition: &CellCondition,
    args: &Values,
    lists: &mut PathLists,
    falses: &mut Vec<Path>,
) -> Result<(), NoMemory>
    requires known { IsWellFormed (script_plan plan.now) }
    requires condition { CellConditionFits (script_plan plan.now) args.now condition.now }
    requires going { AreGoing (script_plan plan.now) lists.old.paths.items }
    requires falses { AreGoing (script_plan plan.now) falses.old.items }
    ensures exact { (n : ℕ) →
        let meaning = tried_on_cell (script_plan plan.now) args.now condition.now n in
        OnOk result (AreParts (script_plan plan.now) meaning
        lists.old.paths.items lists.new.paths.items falses.old.items falses.new.items [] []) }
    ensures few { OnOk result (AreFewParts (cell_branches condition.now)
        lists.old.paths.items lists.new.paths.items falses.old.items falses.new.items [] []) }
    ensures going { OnOk result (AreGoing (script_plan plan.now) lists.new.paths.items) }
    ensures falses { OnOk result (AreGoing (script_plan plan.now) falses.new.items) }
    ensures ended { lists.new.ended.items ≡ lists.old.ended.items }
{
    lists.pieces.clear();
    let count = split_each(
        alloc,
        plan,
        condition,
        args,
        &mut lists.paths,
        &mut lists.pieces,
    )?;
    move_from(&mut lists.paths, count, falses)?;
    put_all(&mut lists.pieces, &mut lists.paths, falses)
}

/// Parts paths by one truth.
fn part_known(truth: bool, paths: &mut Vec<Path>, falses: &mut Vec<Path>) -> Result<(), NoMemory>
    ensures trues { OnOk result (
        paths.new.items ≡ (if truth then paths.old.items else [])) }
    ensures falses { OnOk result (
        falses.new.items ≡ falses.old.items ++ (if truth then [] else paths.old.items)) }
{
    if truth {
        Ok(())
    } else {
        move_all(paths, falses)
    }
}

/// Parts paths by a condition with its expressions evaluated.
pub(crate) fn part_evaluated(
    alloc: Global,
    context: &Context,
    evaluated: &Evaluated,
    args: &Values,
    lists: &mut PathLists,
    falses: &mut Vec<Path>,
) -> Result<(), NoMemory>
    requires known { IsWellFormed (script_plan context.now.plan.now) }
    requires evaluated { EvaluatedFits (script_plan context.now.plan.now) args.now evaluated.now }
    requires paths { CanRun (script_plan context.now.plan.now)
        lists.old.paths.items lists.old.ended.items }
    requires falses { CanRun (script_plan context.now.plan.now)
        falses.old.items lists.old.ended.items }
    ensures tried { OnOk result (EvaluatedWasTried (script_plan context.now.plan.now)
        args.now context.now.no evaluated.now
        lists.old.paths.items lists.new.paths.items falses.old.items falses.new.items
        lists.old.ended.items lists.new.ended.items) }
    ensures fixed { IsTrue (is_known evaluated.now) → OnOk result (AreOfOneTruth
        lists.old.paths.items lists.new.paths.items falses.old.items falses.new.items
        lists.old.ended.items lists.new.ended.items) }
{
    match evaluated {
        Evaluated::Known(truth) => part_known(*truth, &mut lists.paths, falses),
        Evaluated::Failed => fail_all(arith(context.no), &mut lists.paths, &mut lists.ended),
        Evaluated::Open(condition) => {
            part_each(alloc, context.plan, condition, args, lists, falses)
        }
    }
}
