//! Whole scripts.
ghost use Rattle.std.specs.Prelude.{◌≡◌, ◌-◌, ◌<◌, ◌≤◌, length, map, OnOk};
ghost use Rattle.sym_base.specs.Trees.{column_tree, script_tree, test_tree};
ghost use Rattle.sym_lex.specs.declared.keyword.Keyword.TheVariants as keyword;
ghost use Rattle.sym_parse.specs.declared.error.LimitKind.TheVariants as limit;
ghost use Rattle.sym_parse.specs.Limits.{most};
ghost use Rattle.sym_parse.specs.Parsing.Declarations as declarations;
ghost use Rattle.sym_parse.specs.Parsing.Scripts as spec;
ghost use Rattle.sym_parse.specs.Steps.{Parses, repeated, sees_name, sees_word};
ghost use Rattle.sym_parse.specs.Views.{input};

use crate::declaration::{column, enum_decl, field, group, state, test_decl};
use crate::error::LimitKind;
use crate::state::Cursor;
use crate::statement::update;
use crate::stop::Stop;
use std::alloc::Global;
use sym_base::{
    CELLS_MAX, COLUMNS_MAX, ColumnDecl, ENUMS_MAX, EnumDecl, FIELDS_MAX, FieldDecl, Script,
    Sequence, StateDecl, TESTS_MAX, TestDecl,
};
use sym_lex::{Keyword, Symbol};

/// Further enums, as long as the next token begins one.
#[tactic(auto, using(crate::proofs::Lists::repeated_goes))]
fn enums_from(
    alloc: Global,
    cursor: &mut Cursor<'_>,
    mut found: Vec<EnumDecl>,
) -> Result<Vec<EnumDecl>, Stop>
    ensures reads { Parses (λ v. v.items)
        (repeated limit.Enums (sees_word keyword.Enum) (declarations.enum_decl most)
        (ENUMS_MAX - length found.items) found.items (input cursor.old)) result (input cursor.new) }
    ensures shorter { OnOk result (length cursor.new.rest.now ≤ length cursor.old.rest.now) }
{
    if !cursor.is_word(Keyword::Enum) {
        return Ok(found);
    }
    cursor.one_more(found.len(), ENUMS_MAX, LimitKind::Enums, true)?;
    let enum_decl = enum_decl(alloc, cursor)?;
    found.push(enum_decl)?;
    enums_from(alloc, cursor, found)
}

#[tactic(auto, unfolding(crate::specs::Parsing::Scripts::enums))]
fn enums(alloc: Global, cursor: &mut Cursor<'_>) -> Result<Vec<EnumDecl>, Stop>
    ensures reads { Parses (λ v. v.items) (spec.enums most (input cursor.old))
        result (input cursor.new) }
    ensures shorter { OnOk result (length cursor.new.rest.now ≤ length cursor.old.rest.now) }
{
    enums_from(alloc, cursor, Vec::new(alloc))
}

/// Further fields, as long as the next token begins one.
#[tactic(auto, using(crate::proofs::Lists::repeated_goes))]
fn fields_from(
    alloc: Global,
    cursor: &mut Cursor<'_>,
    mut found: Vec<FieldDecl>,
) -> Result<Vec<FieldDecl>, Stop>
    ensures reads { Parses (λ v. v.items)
        (repeated limit.Fields (sees_word keyword.Field) declarations.field
        (FIELDS_MAX - length found.items) found.items (input cursor.old))
        result (input cursor.new) }
    ensures shorter { OnOk result (length cursor.new.rest.now ≤ length cursor.old.rest.now) }
{
    if !cursor.is_word(Keyword::Field) {
        return Ok(found);
    }
    cursor.one_more(found.len(), FIELDS_MAX, LimitKind::Fields, true)?;
    let field_decl = field(alloc, cursor)?;
    found.push(field_decl)?;
    fields_from(alloc, cursor, found)
}

#[tactic(auto, unfolding(crate::specs::Parsing::Scripts::fields))]
fn fields(alloc: Global, cursor: &mut Cursor<'_>) -> Result<Vec<FieldDecl>, Stop>
    ensures reads { Parses (λ v. v.items) (spec.fields most (input cursor.old))
        result (input cursor.new) }
    ensures shorter { OnOk result (length cursor.new.rest.now < length cursor.old.rest.now) }
{
    let mut found = Vec::new(alloc);
    let first = field(alloc, cursor)?;
    found.push(first)?;
    fields_from(alloc, cursor, found)
}

/// Further states, as long as the next token begins one.
#[tactic(auto, using(crate::proofs::Lists::repeated_goes))]
fn states_from(
    alloc: Global,
    cursor: &mut Cursor<'_>,
    mut found: Vec<StateDecl>,
) -> Result<Vec<StateDecl>, Stop>
    ensures reads { Parses (λ v. v.items)
        (repeated limit.Cells (sees_word keyword.State) (declarations.state most)
        (CELLS_MAX - length found.items) found.items (input cursor.old)) result (input cursor.new) }
    ensures shorter { OnOk result (length cursor.new.rest.now ≤ length cursor.old.rest.now) }
{
    if !cursor.is_word(Keyword::State) {
        return Ok(found);
    }
    cursor.one_more(found.len(), CELLS_MAX, LimitKind::Cells, true)?;
    let state_decl = state(alloc, cursor)?;
    found.push(state_decl)?;
    states_from(alloc, cursor, found)
}

#[tactic(auto, unfolding(crate::specs::Parsing::Scripts::states))]
fn states(alloc: Global, cursor: &mut Cursor<'_>) -> Result<Vec<StateDecl>, Stop>
    ensures reads { Parses (λ v. v.items) (spec.states most (input cursor.old))
        result (input cursor.new) }
    ensures shorter { OnOk result (length cursor.new.rest.now < length cursor.old.rest.now) }
{
    let mut found = Vec::new(alloc);
    let first = state(alloc, cursor)?;
    found.push(first)?;
    states_from(alloc, cursor, found)
}

/// Further tests, as long as the next token begins one.
#[tactic(auto, using(crate::proofs::Lists::mapped))]
fn tests_from(
    alloc: Global,
    cursor: &mut Cursor<'_>,
    mut found: Vec<TestDecl>,
) -> Result<Vec<TestDecl>, Stop>
    ensures reads { Parses (λ v. map test_tree v.items)
        (repeated limit.Tests (sees_word keyword.Test) (declarations.test_decl most)
        (TESTS_MAX - length (map test_tree found.items)) (map test_tree found.items)
        (input cursor.old)) result (input cursor.new) }
    ensures shorter { OnOk result (length cursor.new.rest.now ≤ length cursor.old.rest.now) }
{
    if !cursor.is_word(Keyword::Test) {
        return Ok(found);
    }
    cursor.one_more(found.len(), TESTS_MAX, LimitKind::Tests, true)?;
    let test_decl = test_decl(alloc, cursor)?;
    found.push(test_decl)?;
    tests_from(alloc, cursor, found)
}

#[tactic(auto, unfolding(crate::specs::Parsing::Scripts::tests))]
fn tests(alloc: Global, cursor: &mut Cursor<'_>) -> Result<Vec<TestDecl>, Stop>
    ensures reads { Parses (λ v. map test_tree v.items) (spec.tests most (input cursor.old))
        result (input cursor.new) }
    ensures shorter { OnOk result (length cursor.new.rest.now ≤ length cursor.old.rest.now) }
{
    tests_from(alloc, cursor, Vec::new(alloc))
}

/// Further columns, as long as the next token begins one.
#[tactic(auto, using(crate::proofs::Lists::mapped))]
fn columns_from(
    alloc: Global,
    cursor: &mut Cursor<'_>,
    mut found: Vec<ColumnDecl>,
) -> Result<Vec<ColumnDecl>, Stop>
    ensures reads { Parses (λ v. map column_tree v.items)
        (repeated limit.Columns sees_name (declarations.column most)
        (COLUMNS_MAX - length (map column_tree found.items)) (map column_tree found.items)
        (input cursor.old)) result (input cursor.new) }
    ensures shorter { OnOk result (length cursor.new.rest.now ≤ length cursor.old.rest.now) }
{
    if !cursor.is_name() {
        return Ok(found);
    }
    cursor.one_more(found.len(), COLUMNS_MAX, LimitKind::Columns, true)?;
    let column_decl = column(alloc, cursor)?;
    found.push(column_decl)?;
    columns_from(alloc, cursor, found)
}

#[tactic(auto, unfolding(crate::specs::Parsing::Scripts::columns))]
fn columns(alloc: Global, cursor: &mut Cursor<'_>) -> Result<Vec<ColumnDecl>, Stop>
    ensures reads { Parses (λ v. map column_tree v.items) (spec.columns most (input cursor.old))
        result (input cursor.new) }
    ensures shorter { OnOk result (length cursor.new.rest.now < length cursor.old.rest.now) }
{
    let mut found = Vec::new(alloc);
    let first = column(alloc, cursor)?;
    found.push(first)?;
    columns_from(alloc, cursor, found)
}

/// `report { column {column} }`
#[tactic(auto, unfolding(crate::specs::Parsing::Scripts::report))]
fn report(alloc: Global, cursor: &mut Cursor<'_>) -> Result<Vec<ColumnDecl>, Stop>
    ensures reads { Parses (λ v. map column_tree v.items) (spec.report most (input cursor.old))
        result (input cursor.new) }
    ensures shorter { OnOk result (length cursor.new.rest.now < length cursor.old.rest.now) }
{
    cursor.word(Keyword::Report)?;
    cursor.sign(Symbol::OpenBrace)?;
    let columns = columns(alloc, cursor)?;
    cursor.sign(Symbol::CloseBrace)?;
    Ok(columns)
}

/// The script that the tokens are, to the last one.
#[tactic(auto, unfolding(crate::specs::Parsing::Scripts::script))]
pub fn script(alloc: Global, cursor: &mut Cursor<'_>) -> Result<Script, Stop>
    ensures { Parses script_tree (spec.script most (input cursor.old)) result (input cursor.new) }
{
    let enums = Sequence::of(enums(alloc, cursor)?);
    let fields = Sequence::of(fields(alloc, cursor)?);
    let group = group(alloc, cursor)?;
    let states = Sequence::of(states(alloc, cursor)?);
    let tests = Sequence::of(tests(alloc, cursor)?);
    let update = update(alloc, cursor)?;
    let columns = Sequence::of(report(alloc, cursor)?);
    cursor.done()?;
    Ok(Script {
        enums,
        fields,
        group,
        states,
        tests,
        update,
        columns,
    })
}
