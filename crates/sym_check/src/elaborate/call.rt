//! Calls of tests, and values of given kinds.
ghost use Rattle.std.specs.Prelude.{◌≡◌, map};
ghost use Rattle.sym_check.specs.declared.plan.script.KindPlan.TheVariants as kind;
ghost use Rattle.sym_check.specs.Checking.CalledTests.{called_test};
ghost use Rattle.sym_check.specs.Elaborate.Expressions.{test_named, called_on, value_of, values_of};
ghost use Rattle.sym_check.specs.Plan.FixedPlans.{fixed_plan};
ghost use Rattle.sym_check.specs.Rules.Scopes.{find};
ghost use Rattle.sym_check.specs.Checking.TypedPlans.{typed_plan, located_plan, arguments_plan, Answers};

use crate::elaborate::error::CheckErr;
use crate::elaborate::scope::{Meaning, Scope, found};
use crate::elaborate::typed::{Arguments, Located, Typed};
use crate::plan::condition::Cond;
use crate::plan::expression::{Fixed, FixedList, Term};
use crate::plan::script::KindPlan;
use std::alloc::Global;
use sym_base::{Name, Sequence};

/// The test that a call names: its number, and the kinds of its parameters.
#[derive(Clone, Copy)]
pub(crate) struct CalledTest<'a> {
    pub number: u16,
    pub params: &'a [KindPlan],
}

/// The test that a call names.
pub(crate) fn test_named<'a>(scope: &'a Scope, name: &Name) -> Result<CalledTest<'a>, CheckErr>
    ensures { Answers called_test (test_named name.now.at (find scope.now name.now.text)) result }
{
    match found(scope, name.text.as_str()) {
        None => Err(CheckErr::Name { at: name.at }),
        Some(Meaning::Test(test, params)) => Ok(CalledTest {
            number: *test,
            params: params.as_slice(),
        }),
        Some(
            Meaning::Unfinished
            | Meaning::Enum(_)
            | Meaning::Label(..)
            | Meaning::Value(..)
            | Meaning::IntCell(_)
            | Meaning::EnumCell(..)
            | Meaning::HoldCell(..)
            | Meaning::NumsCell(_)
            | Meaning::WordsCell(_),
        ) => Err(CheckErr::Kind { at: name.at }),
    }
}

fn fixed_number(value: Located) -> Result<Fixed, CheckErr>
    ensures { Answers fixed_plan (value_of kind.Num (located_plan value)) result }
{
    let at = value.at;
    match value.typed {
        Typed::Number(Term::Fixed(number)) => Ok(Fixed::Num(number)),
        Typed::Number(Term::Line(_))
        | Typed::Word(_)
        | Typed::Label(..)
        | Typed::EnumCell(..)
        | Typed::HoldCell(..)
        | Typed::Truth(_) => Err(CheckErr::Kind { at }),
    }
}

fn fixed_word(value: Located) -> Result<Fixed, CheckErr>
    ensures { Answers fixed_plan (value_of kind.Word (located_plan value)) result }
{
    let at = value.at;
    match value.typed {
        Typed::Word(word) => Ok(Fixed::Word(word)),
        Typed::Number(_)
        | Typed::Label(..)
        | Typed::EnumCell(..)
        | Typed::HoldCell(..)
        | Typed::Truth(_) => Err(CheckErr::Kind { at }),
    }
}

fn fixed_label(of: u16, value: Located) -> Result<Fixed, CheckErr>
    ensures { Answers fixed_plan (value_of (kind.Label of) (located_plan value)) result }
{
    let at = value.at;
    match value.typed {
        Typed::Label(other, label) if of == other => Ok(Fixed::Label(label)),
        Typed::Label(..)
        | Typed::Number(_)
        | Typed::Word(_)
        | Typed::EnumCell(..)
        | Typed::HoldCell(..)
        | Typed::Truth(_) => Err(CheckErr::Kind { at }),
    }
}

fn value_of(wanted: KindPlan, value: Located) -> Result<Fixed, CheckErr>
    ensures { Answers fixed_plan (value_of wanted (located_plan value)) result }
{
    match wanted {
        KindPlan::Num => fixed_number(value),
        KindPlan::Word => fixed_word(value),
        KindPlan::Label(of) => fixed_label(of, value),
    }
}

/// The values, where each is of its kind and names no cell.
pub(crate) fn values_of(
    alloc: Global,
    kinds: &[KindPlan],
    located: Vec<Located>,
) -> Result<FixedList, CheckErr>
    ensures { Answers (λ v. map fixed_plan v)
        (values_of kinds.now (map located_plan located.items)) result }
{
    let mut values = Vec::new(alloc);
    let mut rest = located.into_iter();
    'kinds: for kind in kinds {
        let Some(value) = rest.next() else {
            return Ok(Sequence::of(values));
        };
        values.push(value_of(*kind, value)?)?;
    }
    Ok(Sequence::of(values))
}

fn called_with(
    alloc: Global,
    at: u32,
    test: CalledTest<'_>,
    first: &Located,
    others: Vec<Located>,
) -> Result<Typed, CheckErr>
    ensures { Answers typed_plan (called_on at (called_test test.entry)
        (record { first = located_plan first.now; others = map located_plan others.items })
        (typed_plan first.now.typed)) result }
{
    let Typed::HoldCell(cell, kinds) = &first.typed else {
        return Err(CheckErr::Kind { at: first.at });
    };
    if others.len() != test.params.len().saturating_sub(kinds.len()) {
        return Err(CheckErr::Kind { at });
    }
    if !test.params.starts_with(kinds.as_slice()) {
        return Err(CheckErr::Kind { at: first.at });
    }
    let args = values_of(alloc, &test.params[kinds.len()..], others)?;
    Ok(Typed::Truth(Cond::Test {
        test: test.number,
        cell: *cell,
        args,
    }))
}

/// What a call whose arguments are right by themselves stands for.
pub(crate) fn called_on(
    alloc: Global,
    at: u32,
    test: CalledTest<'_>,
    arguments: Arguments,
) -> Result<Typed, CheckErr>
    ensures { Answers typed_plan (called_on at (called_test test.entry)
        (arguments_plan arguments) (typed_plan arguments.first.typed)) result }
{
    let Arguments { first, others } = arguments;
    called_with(alloc, at, test, &first, others)
}
