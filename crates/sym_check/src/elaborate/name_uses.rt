//! Names that declarations give and use.
ghost use Rattle.std.specs.Prelude.{◌≡◌, ◌++◌, ◌∷◌, [], IfErr, OnOk, OnErr, None, Some, Err, IsSome, option_copied};
ghost use Rattle.sym_check.specs.Rules.Declarations.{unfinished};
ghost use Rattle.sym_base.specs.declared.values.value.Value.{Value as OneValue};
ghost use Rattle.sym_check.specs.Checking.Declaring.{unseen_by};
ghost use Rattle.sym_check.specs.Elaborate.Declarations.{enum_named, label_named, no_label, field_named};
ghost use Rattle.sym_check.specs.Rules.Scopes.{entry, find};
ghost use Rattle.sym_check.specs.Checking.TypedPlans.{Answers, itself};
ghost use Rattle.sym_check.specs.declared.elaborate.error.CheckErr.TheVariants as rule_err;

use crate::elaborate::error::CheckErr;
use crate::elaborate::scope::{Entry, Meaning, Scope, Variable, found};
use std::alloc::Global;
use sym_base::{Name, NoMemory};

/// Whether a name may be declared: it is `Twice` where it stands for something.
pub(crate) fn free(scope: &Scope, name: &Name) -> Result<(), CheckErr>
    ensures free { OnOk result (find scope.now name.now.text ≡ None) }
    ensures at { IfErr result (λ e. e ≡ rule_err.Twice name.now.at) }
    ensures taken { OnErr result (IsSome (find scope.now name.now.text)) }
{
    match found(scope, name.text.as_str()) {
        None => Ok(()),
        Some(_) => Err(CheckErr::Twice { at: name.at }),
    }
}

/// Adds a name with what it stands for.
pub(crate) fn declare(
    alloc: Global,
    scope: &mut Scope,
    name: &Name,
    meaning: Meaning,
) -> Result<(), NoMemory>
    ensures { OnOk result (scope.new ≡ scope.old ++ entry name.now meaning ∷ []) }
{
    let name = name.text.copy(alloc)?;
    scope.push(alloc, Entry { name, meaning })
}

// Why a name that nothing declared earlier has can't be used in the declaration of `own`.
fn unseen(own: &Name, name: &Name) -> CheckErr
    ensures { result ≡ unseen_by own.now name.now }
{
    if own.text.as_str() == name.text.as_str() {
        CheckErr::Kind { at: name.at }
    } else {
        CheckErr::Name { at: name.at }
    }
}

fn enum_in(at: u32, meaning: &Meaning) -> Result<u16, CheckErr>
    ensures { Answers itself (enum_named at (Some meaning.now)) result }
{
    match meaning {
        Meaning::Enum(of) => Ok(*of),
        Meaning::Unfinished
        | Meaning::Label(..)
        | Meaning::Value(..)
        | Meaning::IntCell(..)
        | Meaning::EnumCell(..)
        | Meaning::HoldCell(..)
        | Meaning::NumsCell(..)
        | Meaning::WordsCell(..)
        | Meaning::Test(..) => Err(CheckErr::Kind { at }),
    }
}

/// The enum that a name stands for in the declaration of `own`.
#[tactic(auto, using(crate::proofs::ScopeLaws::enum_beside))]
pub(crate) fn enum_named(scope: &Scope, own: &Name, name: &Name) -> Result<u16, CheckErr>
    ensures { let meaning = find (unfinished scope.now own.now) name.now.text in
        Answers itself (enum_named name.now.at meaning) result }
{
    match found(scope, name.text.as_str()) {
        Some(meaning) => enum_in(name.at, meaning),
        None => Err(unseen(own, name)),
    }
}

fn label_in(wanted: u16, at: u32, meaning: &Meaning) -> Result<u8, CheckErr>
    ensures { Answers itself (label_named wanted at (Some meaning.now)) result }
{
    match meaning {
        Meaning::Label(of, label) if *of == wanted => Ok(*label),
        Meaning::Label(..)
        | Meaning::Unfinished
        | Meaning::Enum(..)
        | Meaning::Value(..)
        | Meaning::IntCell(..)
        | Meaning::EnumCell(..)
        | Meaning::HoldCell(..)
        | Meaning::NumsCell(..)
        | Meaning::WordsCell(..)
        | Meaning::Test(..) => Err(CheckErr::Kind { at }),
    }
}

/// The label of the enum that a name stands for in the declaration of `own`.
#[tactic(auto, using(crate::proofs::ScopeLaws::label_beside))]
pub(crate) fn label_named(
    scope: &Scope,
    own: &Name,
    wanted: u16,
    name: &Name,
) -> Result<u8, CheckErr>
    ensures { let meaning = find (unfinished scope.now own.now) name.now.text in
        Answers itself (label_named wanted name.now.at meaning) result }
{
    match found(scope, name.text.as_str()) {
        Some(meaning) => label_in(wanted, name.at, meaning),
        None => Err(unseen(own, name)),
    }
}

/// Why a name is no literal of a kind that has no labels, in the declaration of `own`.
#[tactic(auto, using(crate::proofs::ScopeLaws::none_beside))]
pub(crate) fn no_label(scope: &Scope, own: &Name, name: &Name) -> CheckErr
    ensures { let meaning = find (unfinished scope.now own.now) name.now.text in
        no_label {A = OneValue} name.now.at meaning ≡ Err result }
{
    match found(scope, name.text.as_str()) {
        Some(_) => CheckErr::Kind { at: name.at },
        None => unseen(own, name),
    }
}

/// The field that a name stands for.
pub(crate) fn field_named(at: u32, found: Option<&Meaning>) -> Result<u16, CheckErr>
    ensures { Answers itself (field_named at (option_copied found.entry)) result }
{
    let Some(meaning) = found else {
        return Err(CheckErr::Name { at });
    };
    match meaning {
        Meaning::Value(_, Variable::Field(field)) => Ok(*field),
        Meaning::Value(_, Variable::Local(_) | Variable::Param(_))
        | Meaning::Unfinished
        | Meaning::Enum(..)
        | Meaning::Label(..)
        | Meaning::IntCell(..)
        | Meaning::EnumCell(..)
        | Meaning::HoldCell(..)
        | Meaning::NumsCell(..)
        | Meaning::WordsCell(..)
        | Meaning::Test(..) => Err(CheckErr::Kind { at }),
    }
}
