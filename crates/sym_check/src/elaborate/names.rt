//! All names that a script declares.
ghost use Rattle.std.specs.Prelude.{◌≡◌, ◌++◌, IfOk, OnOk, map};
ghost use Rattle.std.specs.List.{flat_map};
ghost use Rattle.sym_base.specs.Trees.{TestTree, test_tree, script_tree};
ghost use Rattle.sym_base.specs.declared.tree.declaration.FieldDecl.{FieldDecl as OneField};
ghost use Rattle.sym_base.specs.declared.tree.declaration.StateDecl.{StateDecl as OneState};
ghost use Rattle.sym_base.specs.declared.tree.name.Name.{Name as OneName};
ghost use Rattle.sym_check.specs.Rules.Scripts.{enum_names, names};

use std::alloc::Global;
use sym_base::{
    EnumDecl, EnumDecls, FieldDecls, Names, NoMemory, Script, StateDecls, TestDecls, Texts,
};

fn add_labels(alloc: Global, names: &mut Texts, labels: &Names) -> Result<(), NoMemory>
    ensures { OnOk result (names.new ≡ names.old ++ map (λ (x : OneName). x.text) labels.now) }
{
    'labels: for label in labels.as_slice() {
        names.push(label.text.copy(alloc)?)?;
    }
    Ok(())
}

fn add_enum(alloc: Global, names: &mut Texts, decl: &EnumDecl) -> Result<(), NoMemory>
    ensures { OnOk result (names.new ≡ names.old ++ enum_names decl.now) }
{
    names.push(decl.name.text.copy(alloc)?)?;
    add_labels(alloc, names, &decl.labels)
}

fn add_enums(alloc: Global, names: &mut Texts, enums: &EnumDecls) -> Result<(), NoMemory>
    ensures { OnOk result (names.new ≡ names.old ++ flat_map enum_names enums.now) }
{
    'enums: for decl in enums.as_slice() {
        add_enum(alloc, names, decl)?;
    }
    Ok(())
}

fn add_fields(alloc: Global, names: &mut Texts, fields: &FieldDecls) -> Result<(), NoMemory>
    ensures { let texts = map (λ (d : OneField). d.name.text) fields.now in
        OnOk result (names.new ≡ names.old ++ texts) }
{
    'fields: for decl in fields.as_slice() {
        names.push(decl.name.text.copy(alloc)?)?;
    }
    Ok(())
}

fn add_states(alloc: Global, names: &mut Texts, states: &StateDecls) -> Result<(), NoMemory>
    ensures { let texts = map (λ (d : OneState). d.name.text) states.now in
        OnOk result (names.new ≡ names.old ++ texts) }
{
    'states: for decl in states.as_slice() {
        names.push(decl.name.text.copy(alloc)?)?;
    }
    Ok(())
}

fn add_tests(alloc: Global, names: &mut Texts, tests: &TestDecls) -> Result<(), NoMemory>
    ensures { let texts = map (λ (d : TestTree). d.name.text) (map test_tree tests.now) in
        OnOk result (names.new ≡ names.old ++ texts) }
{
    'tests: for decl in tests.as_slice() {
        names.push(decl.name.text.copy(alloc)?)?;
    }
    Ok(())
}

/// The names of a script's enums, labels, fields, cells and tests, wherever they stand.
pub(crate) fn names_of(alloc: Global, script: &Script) -> Result<Texts, NoMemory>
    ensures { IfOk result (λ texts. texts ≡ names (script_tree script.now)) }
{
    let mut names = Texts::new(alloc);
    add_enums(alloc, &mut names, &script.enums)?;
    add_fields(alloc, &mut names, &script.fields)?;
    add_states(alloc, &mut names, &script.states)?;
    add_tests(alloc, &mut names, &script.tests)?;
    Ok(names)
}
