//! Hold cells that are given new values.
ghost use Rattle.std.specs.Prelude.{◌≡◌, map};
ghost use Rattle.sym_check.specs.Checking.BlockPlans.{kept_plan};
ghost use Rattle.sym_check.specs.Plan.DoPlans.{do_plan};
ghost use Rattle.sym_check.specs.Elaborate.Statements.{kept, kept_values, kept_from};
ghost use Rattle.sym_check.specs.Rules.Scopes.{find};
ghost use Rattle.sym_check.specs.Checking.TypedPlans.{located_plan, Answers};

use crate::elaborate::call::values_of;
use crate::elaborate::error::CheckErr;
use crate::elaborate::scope::{Meaning, Scope, found};
use crate::elaborate::typed::Located;
use crate::plan::script::KindPlan;
use crate::plan::statement::Do;
use std::alloc::Global;
use sym_base::Name;

/// A hold cell that a `keep` names, and the kinds of its parts.
#[derive(Clone, Copy)]
pub(crate) struct KeptCell<'a> {
    pub cell: u16,
    pub kinds: &'a [KindPlan],
}

/// The hold cell that a `keep` names.
pub(crate) fn kept<'a>(scope: &'a Scope, name: &Name) -> Result<KeptCell<'a>, CheckErr>
    ensures { Answers kept_plan (kept name.now.at (find scope.now name.now.text)) result }
{
    match found(scope, name.text.as_str()) {
        None => Err(CheckErr::Name { at: name.at }),
        Some(Meaning::HoldCell(cell, kinds)) => Ok(KeptCell {
            cell: *cell,
            kinds: kinds.as_slice(),
        }),
        Some(
            Meaning::Unfinished
            | Meaning::Enum(_)
            | Meaning::Label(..)
            | Meaning::Value(..)
            | Meaning::IntCell(_)
            | Meaning::EnumCell(..)
            | Meaning::NumsCell(_)
            | Meaning::WordsCell(_)
            | Meaning::Test(..),
        ) => Err(CheckErr::Kind { at: name.at }),
    }
}

/// The cell with these values, of which there have to be as many as parts.
pub(crate) fn kept_values(
    alloc: Global,
    at: u32,
    kept: KeptCell<'_>,
    values: Vec<Located>,
) -> Result<Do, CheckErr>
    ensures { Answers do_plan
        (kept_values at (kept_plan kept.entry) (map located_plan values.items)) result }
{
    if values.len() == kept.kinds.len() {
        let values = values_of(alloc, kept.kinds, values)?;
        Ok(Do::Keep(kept.cell, values))
    } else {
        Err(CheckErr::Kind { at })
    }
}

/// The cell with the parts of another one, which has the same kinds.
pub(crate) fn kept_from(at: u32, kept: KeptCell<'_>, from: KeptCell<'_>) -> Result<Do, CheckErr>
    ensures { Answers do_plan (kept_from at (kept_plan kept.entry) (kept_plan from.entry)) result }
{
    if kept.kinds == from.kinds && kept.cell != from.cell {
        Ok(Do::KeepFrom(kept.cell, from.cell))
    } else {
        Err(CheckErr::Kind { at })
    }
}
