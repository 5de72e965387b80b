//! Cells of the state.
ghost use Rattle.std.specs.Prelude.{◌≡◌, ◌<◌, length};
ghost use Rattle.sym_base.specs.declared.tree.declaration.CellDecl.TheVariants as cell;
ghost use Rattle.sym_check.specs.Rules.Declarations.{unfinished};
ghost use Rattle.sym_check.specs.Checking.Declaring.{Declares, named_cell};
ghost use Rattle.sym_check.specs.Elaborate.Declarations.{cell_of, state_decl};
ghost use Rattle.sym_check.specs.Rules.InOrder.{each};
ghost use Rattle.sym_check.specs.Checking.TypedPlans.{Answers, itself};

use crate::elaborate::error::CheckErr;
use crate::elaborate::name_uses::{declare, enum_named, free, label_named};
use crate::elaborate::part::{PartPlans, parts_of};
use crate::elaborate::scope::{Meaning, Scope};
use crate::plan::script::{CellPlan, CellPlans};
use std::alloc::Global;
use sym_base::{CellDecl, Name, Parts, StateDecl, StateDecls};

/// What a cell holds, and what its name stands for.
#[derive(Drop)]
pub struct NamedCell {
    pub plan: CellPlan,
    pub meaning: Meaning,
}

fn hold_cell(
    alloc: Global,
    scope: &Scope,
    own: &Name,
    number: u16,
    parts: &Parts,
) -> Result<NamedCell, CheckErr>
    ensures { let seen = unfinished scope.now own.now in
        Answers named_cell (cell_of seen number own.now.at (cell.Hold parts.now)) result }
{
    let PartPlans { kinds, firsts } = parts_of(alloc, scope, own, parts)?;
    let meaning = Meaning::HoldCell(number, kinds.copy(alloc)?);
    let plan = CellPlan::Hold {
        kinds,
        first: firsts,
    };
    Ok(NamedCell { plan, meaning })
}

fn enum_cell(
    scope: &Scope,
    own: &Name,
    number: u16,
    of: &Name,
    first: &Name,
) -> Result<NamedCell, CheckErr>
    ensures { let seen = unfinished scope.now own.now in
        Answers named_cell (cell_of seen number own.now.at (cell.Enum of.now first.now)) result }
{
    let of = enum_named(scope, own, of)?;
    let first = label_named(scope, own, of, first)?;
    Ok(NamedCell {
        plan: CellPlan::Enum { of, first },
        meaning: Meaning::EnumCell(number, of),
    })
}

fn cell_of(
    alloc: Global,
    scope: &Scope,
    own: &Name,
    number: u16,
    decl: &CellDecl,
) -> Result<NamedCell, CheckErr>
    ensures { let seen = unfinished scope.now own.now in
        Answers named_cell (cell_of seen number own.now.at decl.now) result }
{
    match decl {
        CellDecl::Int {
            lo,
            hi,
            first,
            clamp,
        } if *lo <= *first && *first <= *hi => Ok(NamedCell {
            plan: CellPlan::Int {
                lo: *lo,
                hi: *hi,
                first: *first,
                clamp: *clamp,
            },
            meaning: Meaning::IntCell(number),
        }),
        CellDecl::Nums { lo, hi, clamp } if *lo <= *hi => Ok(NamedCell {
            plan: CellPlan::Nums {
                lo: *lo,
                hi: *hi,
                clamp: *clamp,
            },
            meaning: Meaning::NumsCell(number),
        }),
        CellDecl::Int { .. } | CellDecl::Nums { .. } => Err(CheckErr::Range { at: own.at }),
        CellDecl::Words => Ok(NamedCell {
            plan: CellPlan::Words,
            meaning: Meaning::WordsCell(number),
        }),
        CellDecl::Hold(parts) => hold_cell(alloc, scope, own, number, parts),
        CellDecl::Enum { of, first } => enum_cell(scope, own, number, of, first),
    }
}

fn state_decl(
    alloc: Global,
    scope: &mut Scope,
    number: u16,
    decl: &StateDecl,
) -> Result<CellPlan, CheckErr>
    ensures { Declares itself (state_decl scope.old number decl.now) result scope.new }
{
    free(scope, &decl.name)?;
    let NamedCell { plan, meaning } = cell_of(alloc, scope, &decl.name, number, &decl.cell)?;
    declare(alloc, scope, &decl.name, meaning)?;
    Ok(plan)
}

/// The plans of cells, and the scope after them.
pub(crate) fn state_decls(
    alloc: Global,
    scope: &mut Scope,
    decls: &StateDecls,
) -> Result<CellPlans, CheckErr>
    requires { length decls.now < 65536 }
    ensures { Declares itself (each state_decl scope.old 0 decls.now) result scope.new }
{
    let mut cells = CellPlans::new(alloc);
    'cells: for (number, decl) in decls.as_slice().iter().enumerate() {
        let cell = state_decl(alloc, scope, number as u16, decl)?;
        cells.push(cell)?;
    }
    Ok(cells)
}
