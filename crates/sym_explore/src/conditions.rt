//! Conditions on paths: the paths are parted by whether the condition is true, false, or fails.
ghost use Rattle.std.specs.Prelude.{◌≡◌, [], List, IfOk, OnOk, IsTrue, map};
ghost use Rattle.sym_base.specs.declared.values.value.Value.{Value as OneValue};
ghost use Rattle.sym_check.specs.Plan.CondPlans.{cond_plan, Compared, Test};
ghost use Rattle.sym_check.specs.Meaning.Conditions.{is_fixed, same_word};
ghost use Rattle.sym_check.specs.Plan.FixedPlans.{fixed_plan, num_plan};
ghost use Rattle.sym_check.specs.Meaning.FixedValues.{word_of};
ghost use Rattle.sym_check.specs.Checking.KnownValues.{known_values};
ghost use Rattle.sym_check.specs.Plan.LinePlans.{term_plan};
ghost use Rattle.sym_check.specs.Plan.ScriptPlans.{ScriptPlan, script_plan};
ghost use Rattle.sym_check.specs.Plan.WellFormed.{IsWellFormed};
ghost use Rattle.sym_explore.specs.Evaluating.{IsEvaluated, IsUnconnected};
ghost use Rattle.sym_explore.specs.Knowing.{CondIsKnown};
ghost use Rattle.sym_explore.specs.Parting.{AreOfOneTruth};
ghost use Rattle.sym_explore.specs.Running.{CanRun};
ghost use Rattle.sym_explore.specs.Trying.{CondWasTried};

use crate::comparisons::Bound;
use crate::context::Context;
use crate::moves::move_all;
use crate::parted_lists::{CellCondition, Evaluated, part_evaluated};
use crate::path_lists::PathLists;
use crate::terms::{Ready, ready_of};
use std::alloc::Global;
use std::mem;
use sym_base::{Compare, NoMemory, Values};
use sym_check::{Cond, FixedList, Known, Num, Plan, Term, WordOf, number_of};
use sym_path::Path;
use sym_plain::{Stop, set_values};

/// Whether two words are equal.
fn same_words(known: &Known, left: &WordOf, right: &WordOf) -> bool
    ensures { result ≡ same_word (word_of (known_values known.now) left.now)
        (word_of (known_values known.now) right.now) }
{
    known.word(left) == known.word(right)
}

/// Evaluates a comparison: of a term that names no cell, its truth.
fn compared(_plan: &Plan, known: &Known, compare: Compare, term: &Term, right: &Num) -> Evaluated
    requires cond { CondIsKnown (script_plan _plan.now) (known_values known.now)
        (Compared compare (term_plan term.now) (num_plan right.now)) }
    ensures { let c = Compared compare (term_plan term.now) (num_plan right.now) in
        (args : List OneValue) →
        IsEvaluated (script_plan _plan.now) (known_values known.now) c args result }
{
    let (Ok(number), Ok(ready)) = (number_of(known, right), ready_of(known, term)) else {
        return Evaluated::Failed;
    };
    match ready {
        Ready::Number(left) => Evaluated::Known(compare.holds(
            i128::from(left),
            i128::from(number),
        )),
        Ready::Line(_) => Evaluated::Open(CellCondition::Compare(ready, Bound { compare, number })),
    }
}

/// Evaluates the arguments of a test, over the memory of `args`.
fn called(
    alloc: Global,
    known: &Known,
    test: u16,
    cell: u16,
    expressions: &FixedList,
    args: &mut Values,
) -> Result<Evaluated, NoMemory>
    ensures { (p : ScriptPlan) →
        let k = known_values known.now in
        let c = Test test cell (map fixed_plan expressions.now) in
        CondIsKnown p k c → IfOk result (IsEvaluated p k c args.new) }
{
    match set_values(alloc, known, expressions, args) {
        Ok(()) => Ok(Evaluated::Open(CellCondition::Call(test, cell))),
        Err(Stop::Fault(_)) => Ok(Evaluated::Failed),
        Err(Stop::NoMemory) => Err(NoMemory),
    }
}

/// Evaluates the expressions of a condition that isn't connected.
pub(crate) fn evaluate(
    alloc: Global,
    plan: &Plan,
    known: &Known,
    condition: &Cond,
    args: &mut Values,
) -> Result<Evaluated, NoMemory>
    requires cond { CondIsKnown (script_plan plan.now) (known_values known.now)
        (cond_plan condition.now) }
    requires single { IsUnconnected (cond_plan condition.now) }
    ensures { let c = cond_plan condition.now in
        IfOk result (IsEvaluated (script_plan plan.now) (known_values known.now) c args.new) }
{
    match condition {
        Cond::Compare(compare, term, right) => { Ok(compared(plan, known, *compare, term, right)) }
        Cond::Words(left, right) => Ok(Evaluated::Known(same_words(known, left, right))),
        Cond::CellIs(cell, label) => Ok(Evaluated::Open(CellCondition::Label(
            *cell,
            known.label(label),
        ))),
        Cond::LabelIs(left, right) => Ok(Evaluated::Known(known.label(left) == known.label(right))),
        Cond::Test {
            test,
            cell,
            args: expressions,
        } => called(alloc, known, *test, *cell, expressions, args),
        _ => unreachable!(),
    }
}

/// Parts paths by a condition. Those on which it is true stay in `lists.paths`; those on which it
/// is false are put into `falses`, and those on which its arithmetic fails, ended, into
/// `lists.ended`. Each expression without cells is evaluated once. `args` is memory for the
/// arguments of tests.
#[cycle(parting)]
pub(crate) fn part(
    alloc: Global,
    context: &Context,
    condition: &Cond,
    args: &mut Values,
    lists: &mut PathLists,
    falses: &mut Vec<Path>,
) -> Result<(), NoMemory>
    requires known { IsWellFormed (script_plan context.now.plan.now) }
    requires cond { let c = context.now in
        CondIsKnown (script_plan c.plan.now) (known_values c.known.now)
        (cond_plan condition.now) }
    requires paths { CanRun (script_plan context.now.plan.now)
        lists.old.paths.items lists.old.ended.items }
    requires falses { CanRun (script_plan context.now.plan.now)
        falses.old.items lists.old.ended.items }
    ensures tried { let c = context.now in
        let d = cond_plan condition.now in
        OnOk result (CondWasTried (script_plan c.plan.now) (known_values c.known.now) c.no d
        lists.old.paths.items lists.new.paths.items falses.old.items falses.new.items
        lists.old.ended.items lists.new.ended.items) }
    ensures fixed { IsTrue (is_fixed (cond_plan condition.now)) → OnOk result (AreOfOneTruth
        lists.old.paths.items lists.new.paths.items falses.old.items falses.new.items
        lists.old.ended.items lists.new.ended.items) }
    ensures none { lists.old.paths.items ≡ [] →
        OnOk result (falses.new.items ≡ falses.old.items) }
{
    if lists.paths.is_empty() {
        return Ok(());
    }
    match condition {
        Cond::Not(condition) => {
            let mut rest = Vec::new(alloc);
            part(alloc, context, condition, args, lists, &mut rest)?;
            mem::swap(&mut lists.paths, &mut rest);
            move_all(&mut rest, falses)
        }
        Cond::And(left, right) => {
            part(alloc, context, left, args, lists, falses)?;
            part(alloc, context, right, args, lists, falses)
        }
        Cond::Or(left, right) => {
            let mut rest = Vec::new(alloc);
            part(alloc, context, left, args, lists, &mut rest)?;
            mem::swap(&mut lists.paths, &mut rest);
            part(alloc, context, right, args, lists, falses)?;
            mem::swap(&mut lists.paths, &mut rest);
            move_all(&mut rest, &mut lists.paths)
        }
        _ => {
            let evaluated = evaluate(alloc, context.plan, context.known, condition, args)?;
            part_evaluated(alloc, context, &evaluated, args, lists, falses)
        }
    }
}
