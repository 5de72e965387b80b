//! Statements. `room` is the number of levels that are free.
ghost use Rattle.std.specs.Prelude.{◌≡◌, ℕ, ◌+◌, ◌<◌, ◌≤◌, length, OnOk};
ghost use Rattle.std.specs.Bool.{OnTrue};
ghost use Rattle.sym_base.specs.Trees.{stmt_tree, stmts_tree};
ghost use Rattle.sym_parse.specs.Limits.{most};
ghost use Rattle.sym_parse.specs.Parsing.Statements as spec;
ghost use Rattle.sym_parse.specs.Steps.{Parses};
ghost use Rattle.sym_parse.specs.Views.{input};

use crate::build::before_stmts;
use crate::expression::expression;
use crate::kept::values;
use crate::state::Cursor;
use crate::stop::Stop;
use std::alloc::Global;
use sym_base::{DEPTH_MAX, Name, Stmt, Stmts};
use sym_lex::{Keyword, Symbol};

#[tactic(auto, unfolding(crate::specs::Parsing::Statements::begins_statement))]
fn begins_statement(cursor: &Cursor<'_>) -> bool
    ensures is { result ≡ spec.begins_statement (input cursor.now) }
    ensures some { OnTrue result (0 < length cursor.now.rest.now) }
{
    cursor.is_name()
        || cursor.is_word(Keyword::Let)
        || cursor.is_word(Keyword::Push)
        || cursor.is_word(Keyword::Keep)
        || cursor.is_word(Keyword::If)
}

/// `let NAME = expr ;`
#[tactic(auto, unfolding(crate::specs::Parsing::Statements::binding))]
fn binding(alloc: Global, cursor: &mut Cursor<'_>, room: usize) -> Result<Stmt, Stop>
    ensures reads { Parses stmt_tree
        (spec.binding most room (spec.if_statement most room) (input cursor.old))
        result (input cursor.new) }
    ensures shorter { OnOk result (length cursor.new.rest.now < length cursor.old.rest.now) }
{
    cursor.word(Keyword::Let)?;
    let name = cursor.name(alloc)?;
    cursor.sign(Symbol::Assign)?;
    let value = expression(alloc, cursor, room)?;
    cursor.sign(Symbol::Semicolon)?;
    Ok(Stmt::Let(name, value))
}

/// `NAME = expr ;`
#[tactic(auto, unfolding(crate::specs::Parsing::Statements::assignment))]
fn assignment(alloc: Global, cursor: &mut Cursor<'_>, room: usize) -> Result<Stmt, Stop>
    ensures reads { Parses stmt_tree
        (spec.assignment most room (spec.if_statement most room) (input cursor.old))
        result (input cursor.new) }
    ensures shorter { OnOk result (length cursor.new.rest.now < length cursor.old.rest.now) }
{
    let name = cursor.name(alloc)?;
    cursor.sign(Symbol::Assign)?;
    let value = expression(alloc, cursor, room)?;
    cursor.sign(Symbol::Semicolon)?;
    Ok(Stmt::Set(name, value))
}

/// `push NAME expr ;`
#[tactic(auto, unfolding(crate::specs::Parsing::Statements::push))]
fn push(alloc: Global, cursor: &mut Cursor<'_>, room: usize) -> Result<Stmt, Stop>
    ensures reads { Parses stmt_tree
        (spec.push most room (spec.if_statement most room) (input cursor.old))
        result (input cursor.new) }
    ensures shorter { OnOk result (length cursor.new.rest.now < length cursor.old.rest.now) }
{
    cursor.word(Keyword::Push)?;
    let name = cursor.name(alloc)?;
    let value = expression(alloc, cursor, room)?;
    cursor.sign(Symbol::Semicolon)?;
    Ok(Stmt::Push(name, value))
}

/// `( expr {, expr} ) ;`
#[tactic(auto, unfolding(crate::specs::Parsing::Statements::kept_values))]
fn kept_values(
    alloc: Global,
    cursor: &mut Cursor<'_>,
    room: usize,
    name: Name,
) -> Result<Stmt, Stop>
    ensures reads { Parses stmt_tree
        (spec.kept_values most room (spec.if_statement most room) name (input cursor.old))
        result (input cursor.new) }
    ensures shorter { OnOk result (length cursor.new.rest.now < length cursor.old.rest.now) }
{
    cursor.sign(Symbol::OpenParen)?;
    let values = values(alloc, cursor, room)?;
    cursor.sign(Symbol::CloseParen)?;
    cursor.sign(Symbol::Semicolon)?;
    Ok(Stmt::Keep(name, values))
}

/// `from NAME ;`
#[tactic(auto, unfolding(crate::specs::Parsing::Statements::kept_cell))]
fn kept_cell(alloc: Global, cursor: &mut Cursor<'_>, name: Name) -> Result<Stmt, Stop>
    ensures reads { Parses stmt_tree (spec.kept_cell name (input cursor.old))
        result (input cursor.new) }
    ensures shorter { OnOk result (length cursor.new.rest.now < length cursor.old.rest.now) }
{
    cursor.word(Keyword::From)?;
    let source = cursor.name(alloc)?;
    cursor.sign(Symbol::Semicolon)?;
    Ok(Stmt::KeepFrom(name, source))
}

/// `keep NAME ( expr {, expr} ) ;` or `keep NAME from NAME ;`
#[tactic(auto, unfolding(crate::specs::Parsing::Statements::keep))]
fn keep(alloc: Global, cursor: &mut Cursor<'_>, room: usize) -> Result<Stmt, Stop>
    ensures reads { Parses stmt_tree
        (spec.keep most room (spec.if_statement most room) (input cursor.old))
        result (input cursor.new) }
    ensures shorter { OnOk result (length cursor.new.rest.now < length cursor.old.rest.now) }
{
    cursor.word(Keyword::Keep)?;
    let name = cursor.name(alloc)?;
    if cursor.is_sign(Symbol::OpenParen) {
        return kept_values(alloc, cursor, room, name);
    }
    kept_cell(alloc, cursor, name)
}

/// A statement that is no `if`.
#[tactic(auto, unfolding(crate::specs::Parsing::Statements::simple))]
fn simple(alloc: Global, cursor: &mut Cursor<'_>, room: usize) -> Result<Stmt, Stop>
    ensures reads { Parses stmt_tree
        (spec.simple most room (spec.if_statement most room) (input cursor.old))
        result (input cursor.new) }
    ensures shorter { OnOk result (length cursor.new.rest.now < length cursor.old.rest.now) }
{
    if cursor.is_word(Keyword::Let) {
        return binding(alloc, cursor, room);
    }
    if cursor.is_word(Keyword::Push) {
        return push(alloc, cursor, room);
    }
    if cursor.is_word(Keyword::Keep) {
        return keep(alloc, cursor, room);
    }
    assignment(alloc, cursor, room)
}

#[cycle(statement)]
#[tactic(auto, unfolding(crate::specs::Parsing::Statements::statement))]
fn statement(alloc: Global, cursor: &mut Cursor<'_>, room: usize) -> Result<Stmt, Stop>
    requires { 0 < length cursor.old.rest.now }
    ensures reads { Parses stmt_tree
        (spec.statement most room (spec.if_statement most room) (input cursor.old))
        result (input cursor.new) }
    ensures shorter { OnOk result (length cursor.new.rest.now < length cursor.old.rest.now) }
{
    if cursor.is_word(Keyword::If) {
        return if_statement(alloc, cursor, room);
    }
    cursor.count_statement()?;
    simple(alloc, cursor, room)
}

/// Statements, as long as the next token begins one.
#[cycle(statement)]
#[tactic(auto, using(crate::proofs::Statements::goes))]
fn statements_from(alloc: Global, cursor: &mut Cursor<'_>, room: usize) -> Result<Stmts, Stop>
    ensures reads { (n : ℕ) → length cursor.old.rest.now < n →
        Parses stmts_tree
        (spec.statements_from most room (spec.if_statement most room) n (input cursor.old))
        result (input cursor.new) }
    ensures shorter { OnOk result (length cursor.new.rest.now ≤ length cursor.old.rest.now) }
{
    if !begins_statement(cursor) {
        return Ok(Stmts::End);
    }
    let first = statement(alloc, cursor, room)?;
    let rest = statements_from(alloc, cursor, room)?;
    Ok(before_stmts(alloc, first, rest)?)
}

#[cycle(statement)]
#[tactic(auto, unfolding(crate::specs::Parsing::Statements::statements))]
fn statements(alloc: Global, cursor: &mut Cursor<'_>, room: usize) -> Result<Stmts, Stop>
    ensures reads { Parses stmts_tree
        (spec.statements most room (spec.if_statement most room) (input cursor.old))
        result (input cursor.new) }
    ensures shorter { OnOk result (length cursor.new.rest.now ≤ length cursor.old.rest.now) }
{
    statements_from(alloc, cursor, room)
}

/// `{ {stmt} }`
#[cycle(statement)]
#[tactic(auto, unfolding(crate::specs::Parsing::Statements::block))]
fn block(alloc: Global, cursor: &mut Cursor<'_>, room: usize) -> Result<Stmts, Stop>
    ensures reads { Parses stmts_tree
        (spec.block most room (spec.if_statement most room) (input cursor.old))
        result (input cursor.new) }
    ensures shorter { OnOk result (length cursor.new.rest.now < length cursor.old.rest.now) }
{
    cursor.sign(Symbol::OpenBrace)?;
    let statements = statements(alloc, cursor, room)?;
    cursor.sign(Symbol::CloseBrace)?;
    Ok(statements)
}

/// What follows an `else`: a block, or another `if`.
#[cycle(statement)]
#[tactic(auto, unfolding(crate::specs::Parsing::Statements::otherwise))]
fn otherwise(alloc: Global, cursor: &mut Cursor<'_>, room: usize) -> Result<Stmts, Stop>
    ensures reads { Parses stmts_tree
        (spec.otherwise most room (spec.if_statement most room) (input cursor.old))
        result (input cursor.new) }
    ensures shorter { OnOk result (length cursor.new.rest.now < length cursor.old.rest.now) }
{
    if !cursor.is_word(Keyword::If) {
        return block(alloc, cursor, room);
    }
    let inner = if_statement(alloc, cursor, room)?;
    Ok(before_stmts(alloc, inner, Stmts::End)?)
}

#[cycle(statement)]
#[tactic(auto, unfolding(crate::specs::Parsing::Statements::else_part))]
fn else_part(alloc: Global, cursor: &mut Cursor<'_>, room: usize) -> Result<Stmts, Stop>
    ensures reads { Parses stmts_tree
        (spec.else_part most room (spec.if_statement most room) (input cursor.old))
        result (input cursor.new) }
    ensures shorter { OnOk result (length cursor.new.rest.now ≤ length cursor.old.rest.now) }
{
    if !cursor.is_word(Keyword::Else) {
        return Ok(Stmts::End);
    }
    cursor.bump();
    otherwise(alloc, cursor, room)
}

/// What follows an `if`, within the level that it opens.
#[cycle(statement)]
#[tactic(auto, unfolding(crate::specs::Parsing::Statements::branches))]
fn branches(alloc: Global, cursor: &mut Cursor<'_>, room: usize) -> Result<Stmt, Stop>
    ensures reads { Parses stmt_tree
        (spec.branches most room (spec.if_statement most room) (input cursor.old))
        result (input cursor.new) }
    ensures shorter { OnOk result (length cursor.new.rest.now < length cursor.old.rest.now) }
{
    let condition = expression(alloc, cursor, room)?;
    let then = block(alloc, cursor, room)?;
    let otherwise = else_part(alloc, cursor, room)?;
    Ok(Stmt::If(condition, then, otherwise))
}

/// An `if` statement, which opens a level. Its word stands next.
#[cycle(statement)]
#[tactic(auto, using(crate::proofs::Statements::ifs))]
fn if_statement(alloc: Global, cursor: &mut Cursor<'_>, room: usize) -> Result<Stmt, Stop>
    requires { 0 < length cursor.old.rest.now }
    ensures reads { Parses stmt_tree (spec.if_statement most room (input cursor.old))
        result (input cursor.new) }
    ensures shorter { OnOk result (length cursor.new.rest.now < length cursor.old.rest.now) }
{
    cursor.count_statement()?;
    cursor.open(room)?;
    branches(alloc, cursor, room - 1)
}

/// `update { {stmt} }`
#[tactic(auto, unfolding(crate::specs::Parsing::Statements::update))]
pub fn update(alloc: Global, cursor: &mut Cursor<'_>) -> Result<Stmts, Stop>
    ensures reads { Parses stmts_tree (spec.update most (input cursor.old))
        result (input cursor.new) }
    ensures shorter { OnOk result (length cursor.new.rest.now < length cursor.old.rest.now) }
{
    cursor.word(Keyword::Update)?;
    cursor.reset_statements();
    block(alloc, cursor, DEPTH_MAX)
}
