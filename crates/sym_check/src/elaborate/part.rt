//! The parts of hold cells.
ghost use Rattle.std.specs.Prelude.{◌≡◌};
ghost use Rattle.sym_check.specs.Rules.Declarations.{unfinished};
ghost use Rattle.sym_check.specs.Checking.Declaring.{part_plans};
ghost use Rattle.sym_check.specs.Elaborate.Declarations.{parts_of};
ghost use Rattle.sym_check.specs.Checking.TypedPlans.{Answers};

use crate::elaborate::error::CheckErr;
use crate::elaborate::literal::{kind_of, literal_of};
use crate::elaborate::scope::Scope;
use crate::plan::script::KindPlans;
use std::alloc::Global;
use sym_base::{Name, Parts, Values};

/// The kinds and the first values of a hold cell's parts.
#[derive(Drop)]
pub struct PartPlans {
    pub kinds: KindPlans,
    pub firsts: Values,
}

/// The parts in the declaration of `own`.
pub(crate) fn parts_of(
    alloc: Global,
    scope: &Scope,
    own: &Name,
    parts: &Parts,
) -> Result<PartPlans, CheckErr>
    ensures { let seen = unfinished scope.now own.now in
        Answers part_plans (parts_of seen parts.now) result }
{
    let mut kinds = KindPlans::new(alloc);
    let mut firsts = Values::new(alloc);
    'parts: for part in parts.as_slice() {
        let kind = kind_of(scope, own, &part.kind)?;
        let first = literal_of(alloc, scope, own, kind, &part.first)?;
        kinds.push(kind)?;
        firsts.push(first)?;
    }
    Ok(PartPlans { kinds, firsts })
}
