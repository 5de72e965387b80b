//! Fields and the group line.
ghost use Rattle.std.specs.Prelude.{◌≡◌, ◌<◌, IfOk, length};
ghost use Rattle.std.specs.Option.{unwrap_or};
ghost use Rattle.sym_check.specs.Checking.Declaring.{Declares};
ghost use Rattle.sym_check.specs.Elaborate.Declarations.{field_decl, group_field, group_of};
ghost use Rattle.sym_check.specs.Rules.InOrder.{each};
ghost use Rattle.sym_check.specs.Checking.TypedPlans.{Answers, itself};

use crate::elaborate::error::CheckErr;
use crate::elaborate::literal::{default_of, kind_of};
use crate::elaborate::name_uses::{declare, field_named, free};
use crate::elaborate::scope::{Meaning, Scope, Variable, found};
use crate::plan::script::{FieldNos, FieldPlan, FieldPlans};
use std::alloc::Global;
use sym_base::{FieldDecl, FieldDecls, Name, Names, NoMemory, Text};

// The text of a field's column in a header: the one that is given, or its name.
fn header_of(alloc: Global, decl: &FieldDecl) -> Result<Text, NoMemory>
    ensures { IfOk result (λ t. t ≡ unwrap_or decl.now.header decl.now.name.text) }
{
    match &decl.header {
        Some(text) => text.copy(alloc),
        None => decl.name.text.copy(alloc),
    }
}

fn field_decl(
    alloc: Global,
    scope: &mut Scope,
    number: u16,
    decl: &FieldDecl,
) -> Result<FieldPlan, CheckErr>
    ensures { Declares itself (field_decl scope.old number decl.now) result scope.new }
{
    free(scope, &decl.name)?;
    let kind = kind_of(scope, &decl.name, &decl.kind)?;
    let default = default_of(alloc, scope, &decl.name, kind, &decl.default)?;
    let meaning = Meaning::Value(kind, Variable::Field(number));
    declare(alloc, scope, &decl.name, meaning)?;
    let header = header_of(alloc, decl)?;
    Ok(FieldPlan {
        header,
        kind,
        default,
    })
}

/// The plans of fields, and the scope after them.
pub(crate) fn field_decls(
    alloc: Global,
    scope: &mut Scope,
    decls: &FieldDecls,
) -> Result<FieldPlans, CheckErr>
    requires { length decls.now < 65536 }
    ensures { Declares itself (each field_decl scope.old 0 decls.now) result scope.new }
{
    let mut fields = FieldPlans::new(alloc);
    'fields: for (number, decl) in decls.as_slice().iter().enumerate() {
        let field = field_decl(alloc, scope, number as u16, decl)?;
        fields.push(field)?;
    }
    Ok(fields)
}

// A field of the group line, whose name is added to those before it.
fn group_field(
    alloc: Global,
    scope: &Scope,
    named: &mut Scope,
    name: &Name,
) -> Result<u16, CheckErr>
    ensures { Declares itself (group_field scope.now named.old 0 name.now) result named.new }
{
    free(named, name)?;
    let field = field_named(name.at, found(scope, name.text.as_str()))?;
    declare(alloc, named, name, Meaning::Unfinished)?;
    Ok(field)
}

/// The fields that the group line names, in the line's order.
pub(crate) fn group_of(alloc: Global, scope: &Scope, group: &Names) -> Result<FieldNos, CheckErr>
    ensures { Answers itself (group_of scope.now group.now) result }
{
    let mut named = Scope::new(alloc);
    let mut fields = FieldNos::new(alloc);
    'names: for name in group.as_slice() {
        let field = group_field(alloc, scope, &mut named, name)?;
        fields.push(field)?;
    }
    Ok(fields)
}
