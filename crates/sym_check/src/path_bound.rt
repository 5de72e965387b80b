//! The path bound of a plan: how many paths the symbolic execution of one record can have at
//! most.
ghost use Rattle.std.specs.Prelude.{◌≡◌};
ghost use Rattle.sym_check.specs.Plan.CondPlans.{cond_plan};
ghost use Rattle.sym_check.specs.Meaning.Conditions.{is_fixed_term, is_fixed};
ghost use Rattle.sym_check.specs.Plan.DoPlans.{do_plan, dos_plan};
ghost use Rattle.sym_check.specs.Plan.LinePlans.{term_plan};
ghost use Rattle.sym_check.specs.Plan.ScriptPlans.{script_plan};
ghost use Rattle.sym_check.specs.Meaning.PathBounds.{plus, times, compare_counts, term_counts, and_counts, or_counts, counts, if_ways, store_ways, do_ways, then_ways, dos_ways, path_bound};

use crate::plan::condition::Cond;
use crate::plan::expression::Term;
use crate::plan::script::Plan;
use crate::plan::statement::{Do, Dos};
use sym_base::{Compare, PATHS_COUNTED};

/// How many paths a condition makes of one: where it is true, and where it is false.
#[derive(Clone, Copy)]
pub struct Counts {
    pub true_paths: u32,
    pub false_paths: u32,
}

/// How many paths statements make of one that goes on: those that go on, and those that end.
#[derive(Clone, Copy)]
pub struct Ways {
    pub going: u32,
    pub ended: u32,
}

fn plus(a: u32, b: u32) -> u32
    ensures { result ≡ plus a b }
{
    (u64::from(a) + u64::from(b)).min(u64::from(PATHS_COUNTED)) as u32
}

fn times(a: u32, b: u32) -> u32
    ensures { result ≡ times a b }
{
    (u64::from(a) * u64::from(b)).min(u64::from(PATHS_COUNTED)) as u32
}

fn compare_counts(compare: Compare) -> Counts
    ensures { result ≡ compare_counts compare }
{
    let (true_paths, false_paths) = match compare {
        Compare::Eq => (1, 2),
        Compare::Ne => (2, 1),
        Compare::Lt | Compare::Le | Compare::Gt | Compare::Ge => (1, 1),
    };
    Counts {
        true_paths,
        false_paths,
    }
}

fn term_counts(compare: Compare, term: &Term) -> Counts
    ensures { result ≡ term_counts compare (term_plan term.now) }
{
    match term {
        Term::Fixed(_) => Counts {
            true_paths: 1,
            false_paths: 1,
        },
        Term::Line(_) => compare_counts(compare),
    }
}

fn and_counts(left: Counts, right: Counts) -> Counts
    ensures { result ≡ and_counts left right }
{
    let false_paths = times(left.true_paths, right.false_paths);
    Counts {
        true_paths: times(left.true_paths, right.true_paths),
        false_paths: plus(left.false_paths, false_paths),
    }
}

fn or_counts(left: Counts, right: Counts) -> Counts
    ensures { result ≡ or_counts left right }
{
    let true_paths = times(left.false_paths, right.true_paths);
    Counts {
        true_paths: plus(left.true_paths, true_paths),
        false_paths: times(left.false_paths, right.false_paths),
    }
}

fn counts_of(condition: &Cond) -> Counts
    ensures { result ≡ counts (cond_plan condition.now) }
{
    match condition {
        Cond::Compare(compare, term, _) => term_counts(*compare, term),
        Cond::Words(..) | Cond::CellIs(..) | Cond::LabelIs(..) | Cond::Test { .. } => Counts {
            true_paths: 1,
            false_paths: 1,
        },
        Cond::Not(condition) => {
            let counts = counts_of(condition);
            Counts {
                true_paths: counts.false_paths,
                false_paths: counts.true_paths,
            }
        }
        Cond::And(left, right) => and_counts(counts_of(left), counts_of(right)),
        Cond::Or(left, right) => or_counts(counts_of(left), counts_of(right)),
    }
}

fn is_fixed_term(term: &Term) -> bool
    ensures { result ≡ is_fixed_term (term_plan term.now) }
{
    match term {
        Term::Fixed(_) => true,
        Term::Line(_) => false,
    }
}

fn is_fixed(condition: &Cond) -> bool
    ensures { result ≡ is_fixed (cond_plan condition.now) }
{
    match condition {
        Cond::Compare(_, term, _) => is_fixed_term(term),
        Cond::Words(..) | Cond::LabelIs(..) => true,
        Cond::CellIs(..) | Cond::Test { .. } => false,
        Cond::Not(condition) => is_fixed(condition),
        Cond::And(left, right) | Cond::Or(left, right) => is_fixed(left) && is_fixed(right),
    }
}

fn if_ways(condition: &Cond, then: Ways, otherwise: Ways) -> Ways
    ensures { result ≡ if_ways (cond_plan condition.now) then otherwise }
{
    if is_fixed(condition) {
        return Ways {
            going: then.going.max(otherwise.going),
            ended: then.ended.max(otherwise.ended),
        };
    }
    let counts = counts_of(condition);
    Ways {
        going: plus(
            times(counts.true_paths, then.going),
            times(counts.false_paths, otherwise.going),
        ),
        ended: plus(
            times(counts.true_paths, then.ended),
            times(counts.false_paths, otherwise.ended),
        ),
    }
}

fn then_ways(first: Ways, rest: Ways) -> Ways
    ensures { result ≡ then_ways first rest }
{
    Ways {
        going: times(first.going, rest.going),
        ended: plus(first.ended, times(first.going, rest.ended)),
    }
}

fn store_ways(plan: &Plan, cell: u16) -> Ways
    ensures { result ≡ store_ways (script_plan plan.now).cells cell }
{
    if plan.is_clamped(cell) {
        Ways { going: 3, ended: 0 }
    } else {
        Ways { going: 1, ended: 2 }
    }
}

#[cycle(path_ways)]
fn do_ways(plan: &Plan, statement: &Do) -> Ways
    ensures { result ≡ do_ways (script_plan plan.now).cells (do_plan statement.now) }
{
    match statement {
        Do::SetInt(cell, _) | Do::PushNum(cell, _) => store_ways(plan, *cell),
        Do::Let(..)
        | Do::SetEnum(..)
        | Do::CopyEnum(..)
        | Do::Keep(..)
        | Do::KeepFrom(..)
        | Do::PushWord(..) => Ways { going: 1, ended: 0 },
        Do::If(condition, then, otherwise) => {
            if_ways(condition, dos_ways(plan, then), dos_ways(plan, otherwise))
        }
    }
}

#[cycle(path_ways)]
fn dos_ways(plan: &Plan, statements: &Dos) -> Ways
    ensures { result ≡ dos_ways (script_plan plan.now).cells (dos_plan statements.now) }
{
    match statements {
        Dos::End => Ways { going: 1, ended: 0 },
        Dos::More(first, rest) => then_ways(do_ways(plan, first), dos_ways(plan, rest)),
    }
}

/// The path bound of a plan, or 1,000,000 where it is more. It takes no memory.
pub(crate) fn path_bound_of(plan: &Plan) -> u32
    ensures { result ≡ path_bound (script_plan plan.now) }
{
    let ways = dos_ways(plan, &plan.update);
    plus(ways.going, ways.ended)
}
