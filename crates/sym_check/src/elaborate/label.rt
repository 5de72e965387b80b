//! Enums and their labels.
ghost use Rattle.std.specs.Prelude.{◌≡◌, ◌<◌, length, true};
ghost use Rattle.std.specs.List.{list_all};
ghost use Rattle.sym_base.specs.Lawful.{is_lawful_enum};
ghost use Rattle.sym_check.specs.Checking.Declaring.{Declares};
ghost use Rattle.sym_check.specs.Elaborate.Declarations.{label_decl, enum_decl};
ghost use Rattle.sym_check.specs.Rules.InOrder.{each};
ghost use Rattle.sym_check.specs.Checking.TypedPlans.{itself};

use crate::elaborate::error::CheckErr;
use crate::elaborate::name_uses::{declare, free};
use crate::elaborate::scope::{Meaning, Scope};
use crate::plan::script::{EnumPlan, EnumPlans};
use std::alloc::Global;
use sym_base::{EnumDecl, EnumDecls, Name, Names, Text, Texts};

fn label_decl(
    alloc: Global,
    scope: &mut Scope,
    of: u16,
    number: u8,
    name: &Name,
) -> Result<Text, CheckErr>
    ensures { Declares itself (label_decl of scope.old number name.now) result scope.new }
{
    free(scope, name)?;
    declare(alloc, scope, name, Meaning::Label(of, number))?;
    Ok(name.text.copy(alloc)?)
}

fn label_decls(alloc: Global, scope: &mut Scope, of: u16, names: &Names) -> Result<Texts, CheckErr>
    requires { length names.now < 256 }
    ensures { Declares itself (each (label_decl of) scope.old 0 names.now) result scope.new }
{
    let mut labels = Texts::new(alloc);
    'labels: for (number, name) in names.as_slice().iter().enumerate() {
        let label = label_decl(alloc, scope, of, number as u8, name)?;
        labels.push(label)?;
    }
    Ok(labels)
}

fn enum_decl(
    alloc: Global,
    scope: &mut Scope,
    number: u16,
    decl: &EnumDecl,
) -> Result<EnumPlan, CheckErr>
    requires { length decl.now.labels < 256 }
    ensures { Declares itself (enum_decl scope.old number decl.now) result scope.new }
{
    free(scope, &decl.name)?;
    declare(alloc, scope, &decl.name, Meaning::Enum(number))?;
    let labels = label_decls(alloc, scope, number, &decl.labels)?;
    Ok(EnumPlan { labels })
}

/// The plans of enums, and the scope after them.
pub(crate) fn enum_decls(
    alloc: Global,
    scope: &mut Scope,
    decls: &EnumDecls,
) -> Result<EnumPlans, CheckErr>
    requires few { length decls.now < 65536 }
    requires labels { list_all is_lawful_enum decls.now ≡ true }
    ensures { Declares itself (each enum_decl scope.old 0 decls.now) result scope.new }
{
    let mut enums = EnumPlans::new(alloc);
    'enums: for (number, decl) in decls.as_slice().iter().enumerate() {
        let plan = enum_decl(alloc, scope, number as u16, decl)?;
        enums.push(plan)?;
    }
    Ok(enums)
}
