//! What statements assign or push to.
ghost use Rattle.std.specs.Prelude.{◌≡◌};
ghost use Rattle.sym_check.specs.Checking.BlockPlans.{target_plan};
ghost use Rattle.sym_check.specs.Plan.DoPlans.{do_plan};
ghost use Rattle.sym_check.specs.Elaborate.Statements.{ToInt, ToEnum, ToNums, ToWords, assigned, pushed, placed_in};
ghost use Rattle.sym_check.specs.Rules.Scopes.{find};
ghost use Rattle.sym_check.specs.Checking.TypedPlans.{typed_plan, Answers};

use crate::elaborate::error::CheckErr;
use crate::elaborate::scope::{Meaning, Scope, found};
use crate::elaborate::typed::Typed;
use crate::plan::statement::Do;
use sym_base::Name;

/// A cell that a statement assigns or pushes to.
#[derive(Clone, Copy)]
pub(crate) enum Target {
    Int(u16),
    /// An enum cell and its enum.
    Enum(u16, u16),
    Nums(u16),
    Words(u16),
}

/// The cell that an assignment names.
pub(crate) fn assigned(scope: &Scope, name: &Name) -> Result<Target, CheckErr>
    ensures { Answers target_plan (assigned name.now.at (find scope.now name.now.text)) result }
{
    match found(scope, name.text.as_str()) {
        None => Err(CheckErr::Name { at: name.at }),
        Some(Meaning::IntCell(cell)) => Ok(Target::Int(*cell)),
        Some(Meaning::EnumCell(cell, of)) => Ok(Target::Enum(*cell, *of)),
        Some(
            Meaning::Unfinished
            | Meaning::Enum(_)
            | Meaning::Label(..)
            | Meaning::Value(..)
            | Meaning::HoldCell(..)
            | Meaning::NumsCell(_)
            | Meaning::WordsCell(_)
            | Meaning::Test(..),
        ) => Err(CheckErr::Kind { at: name.at }),
    }
}

/// The cell that a push names.
pub(crate) fn pushed(scope: &Scope, name: &Name) -> Result<Target, CheckErr>
    ensures { Answers target_plan (pushed name.now.at (find scope.now name.now.text)) result }
{
    match found(scope, name.text.as_str()) {
        None => Err(CheckErr::Name { at: name.at }),
        Some(Meaning::NumsCell(cell)) => Ok(Target::Nums(*cell)),
        Some(Meaning::WordsCell(cell)) => Ok(Target::Words(*cell)),
        Some(
            Meaning::Unfinished
            | Meaning::Enum(_)
            | Meaning::Label(..)
            | Meaning::Value(..)
            | Meaning::IntCell(_)
            | Meaning::EnumCell(..)
            | Meaning::HoldCell(..)
            | Meaning::Test(..),
        ) => Err(CheckErr::Kind { at: name.at }),
    }
}

fn set_int(at: u32, cell: u16, typed: Typed) -> Result<Do, CheckErr>
    ensures { Answers do_plan (placed_in at (ToInt cell) (typed_plan typed)) result }
{
    match typed {
        Typed::Number(term) => Ok(Do::SetInt(cell, term)),
        Typed::Word(_)
        | Typed::Label(..)
        | Typed::EnumCell(..)
        | Typed::HoldCell(..)
        | Typed::Truth(_) => Err(CheckErr::Kind { at }),
    }
}

fn set_enum(at: u32, cell: u16, of: u16, typed: &Typed) -> Result<Do, CheckErr>
    ensures { Answers do_plan (placed_in at (ToEnum cell of) (typed_plan typed.now)) result }
{
    match typed {
        Typed::Label(other, label) if of == *other => Ok(Do::SetEnum(cell, *label)),
        Typed::EnumCell(from, other) if of == *other && cell != *from => {
            Ok(Do::CopyEnum(cell, *from))
        }
        Typed::Label(..)
        | Typed::EnumCell(..)
        | Typed::Number(_)
        | Typed::Word(_)
        | Typed::HoldCell(..)
        | Typed::Truth(_) => Err(CheckErr::Kind { at }),
    }
}

fn push_num(at: u32, cell: u16, typed: Typed) -> Result<Do, CheckErr>
    ensures { Answers do_plan (placed_in at (ToNums cell) (typed_plan typed)) result }
{
    match typed {
        Typed::Number(term) => Ok(Do::PushNum(cell, term)),
        Typed::Word(_)
        | Typed::Label(..)
        | Typed::EnumCell(..)
        | Typed::HoldCell(..)
        | Typed::Truth(_) => Err(CheckErr::Kind { at }),
    }
}

fn push_word(at: u32, cell: u16, typed: Typed) -> Result<Do, CheckErr>
    ensures { Answers do_plan (placed_in at (ToWords cell) (typed_plan typed)) result }
{
    match typed {
        Typed::Word(word) => Ok(Do::PushWord(cell, word)),
        Typed::Number(_)
        | Typed::Label(..)
        | Typed::EnumCell(..)
        | Typed::HoldCell(..)
        | Typed::Truth(_) => Err(CheckErr::Kind { at }),
    }
}

/// What is stored in the target; another enum cell is copied.
pub(crate) fn placed_in(at: u32, target: Target, typed: Typed) -> Result<Do, CheckErr>
    ensures { Answers do_plan (placed_in at (target_plan target) (typed_plan typed)) result }
{
    match target {
        Target::Int(cell) => set_int(at, cell, typed),
        Target::Enum(cell, of) => set_enum(at, cell, of, &typed),
        Target::Nums(cell) => push_num(at, cell, typed),
        Target::Words(cell) => push_word(at, cell, typed),
    }
}
