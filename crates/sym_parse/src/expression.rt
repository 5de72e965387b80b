//! Expressions: one function per line of the grammar. `room` is the number of levels that are free.
ghost use Rattle.std.specs.Prelude.{◌≡◌, ℕ, ◌+◌, ◌-◌, ◌<◌, ◌≤◌, length, OnOk};
ghost use Rattle.sym_base.specs.Trees.{expr_tree, exprs_tree};
ghost use Rattle.sym_parse.specs.Limits.{most};
ghost use Rattle.sym_parse.specs.Parsing.Expressions as spec;
ghost use Rattle.sym_parse.specs.Parsing.Levels.{chain_at, item_at};
ghost use Rattle.sym_parse.specs.Steps.{Parses};
ghost use Rattle.sym_parse.specs.Syntax.Expressions.{Whole};
ghost use Rattle.sym_parse.specs.Views.{input};

use crate::build::{before_exprs, binary, minus_of, not_of};
use crate::operators::Level;
use crate::state::Cursor;
use crate::stop::Stop;
use std::alloc::Global;
use sym_base::{Expr, Exprs, Name};
use sym_lex::{Keyword, Symbol};

#[tactic(auto, unfolding(crate::specs::Parsing::Expressions::number_leaf))]
fn number_leaf(cursor: &mut Cursor<'_>) -> Result<Expr, Stop>
    ensures reads { (room : ℕ) →
        Parses expr_tree (spec.number_leaf most room (spec.lines most room) (input cursor.old))
        result (input cursor.new) }
    ensures shorter { OnOk result (length cursor.new.rest.now < length cursor.old.rest.now) }
{
    cursor.count_operand()?;
    let at = cursor.place();
    let number = cursor.number()?;
    Ok(Expr::Num(number, at))
}

#[tactic(auto, unfolding(crate::specs::Parsing::Expressions::text_leaf))]
fn text_leaf(alloc: Global, cursor: &mut Cursor<'_>) -> Result<Expr, Stop>
    ensures reads { (room : ℕ) →
        Parses expr_tree (spec.text_leaf most room (spec.lines most room) (input cursor.old))
        result (input cursor.new) }
    ensures shorter { OnOk result (length cursor.new.rest.now < length cursor.old.rest.now) }
{
    cursor.count_operand()?;
    let at = cursor.place();
    let text = cursor.text(alloc)?;
    Ok(Expr::Text(text, at))
}

/// Arguments of a call: one, and one more after each comma.
#[cycle(expression)]
#[tactic(auto, using(crate::proofs::Turns::turns))]
fn arguments(alloc: Global, cursor: &mut Cursor<'_>, room: usize) -> Result<Exprs, Stop>
    requires { 0 < room }
    ensures reads { (n : ℕ) → length cursor.old.rest.now < n →
        Parses exprs_tree (spec.values_from (spec.lines most room Whole) n (input cursor.old))
        result (input cursor.new) }
    ensures shorter { OnOk result (length cursor.new.rest.now < length cursor.old.rest.now) }
{
    let first = expr(alloc, cursor, room - 1)?;
    let rest = more_arguments(alloc, cursor, room)?;
    Ok(before_exprs(alloc, first, rest)?)
}

#[cycle(expression)]
#[tactic(auto, using(crate::proofs::Turns::turns))]
fn more_arguments(alloc: Global, cursor: &mut Cursor<'_>, room: usize) -> Result<Exprs, Stop>
    requires { 0 < room }
    ensures reads { (n : ℕ) → length cursor.old.rest.now ≤ n →
        Parses exprs_tree
        (spec.further (spec.lines most room Whole) (spec.values_from (spec.lines most room Whole) n)
        (input cursor.old)) result (input cursor.new) }
    ensures shorter { OnOk result (length cursor.new.rest.now ≤ length cursor.old.rest.now) }
{
    if !cursor.is_sign(Symbol::Comma) {
        return Ok(Exprs::End);
    }
    cursor.bump();
    arguments(alloc, cursor, room)
}

/// The arguments of a call.
#[cycle(expression)]
#[tactic(auto, unfolding(crate::specs::Parsing::Expressions::values))]
fn values(alloc: Global, cursor: &mut Cursor<'_>, room: usize) -> Result<Exprs, Stop>
    requires { 0 < room }
    ensures reads { Parses exprs_tree (spec.values (spec.lines most room Whole) (input cursor.old))
        result (input cursor.new) }
    ensures shorter { OnOk result (length cursor.new.rest.now < length cursor.old.rest.now) }
{
    arguments(alloc, cursor, room)
}

/// A call of this name, after which a parenthesis stands.
#[cycle(expression)]
#[tactic(auto, unfolding(crate::specs::Parsing::Expressions::call))]
fn call(alloc: Global, cursor: &mut Cursor<'_>, room: usize, name: Name) -> Result<Expr, Stop>
    requires { 0 < length cursor.old.rest.now }
    ensures reads { Parses expr_tree
        (spec.call most room (spec.lines most room) name (input cursor.old))
        result (input cursor.new) }
    ensures shorter { OnOk result (length cursor.new.rest.now < length cursor.old.rest.now) }
{
    cursor.open(room)?;
    let values = values(alloc, cursor, room)?;
    cursor.sign(Symbol::CloseParen)?;
    Ok(Expr::Call(name, values))
}

/// A name, or a call where a parenthesis follows it.
#[cycle(expression)]
#[tactic(auto, unfolding(crate::specs::Parsing::Expressions::named, crate::specs::Parsing::Expressions::call_or_name,))]
fn named(alloc: Global, cursor: &mut Cursor<'_>, room: usize) -> Result<Expr, Stop>
    ensures reads { Parses expr_tree
        (spec.named most room (spec.lines most room) (input cursor.old)) result (input cursor.new) }
    ensures shorter { OnOk result (length cursor.new.rest.now < length cursor.old.rest.now) }
{
    cursor.count_operand()?;
    let name = cursor.name(alloc)?;
    if cursor.is_sign(Symbol::OpenParen) {
        return call(alloc, cursor, room, name);
    }
    Ok(Expr::Named(name))
}

/// An expression in parentheses.
#[cycle(expression)]
#[tactic(auto, using(crate::proofs::Turns::turns), unfolding(crate::specs::Parsing::Expressions::parens))]
fn parens(alloc: Global, cursor: &mut Cursor<'_>, room: usize) -> Result<Expr, Stop>
    requires { 0 < length cursor.old.rest.now }
    ensures reads { Parses expr_tree
        (spec.parens most room (spec.lines most room) (input cursor.old))
        result (input cursor.new) }
    ensures shorter { OnOk result (length cursor.new.rest.now < length cursor.old.rest.now) }
{
    cursor.open(room)?;
    let inner = expr(alloc, cursor, room - 1)?;
    cursor.sign(Symbol::CloseParen)?;
    Ok(inner)
}

#[cycle(expression)]
#[tactic(auto, unfolding(crate::specs::Parsing::Expressions::primary))]
fn primary(alloc: Global, cursor: &mut Cursor<'_>, room: usize) -> Result<Expr, Stop>
    ensures reads { Parses expr_tree
        (spec.primary most room (spec.lines most room) (input cursor.old))
        result (input cursor.new) }
    ensures shorter { OnOk result (length cursor.new.rest.now < length cursor.old.rest.now) }
{
    if cursor.is_number() {
        return number_leaf(cursor);
    }
    if cursor.is_text() {
        return text_leaf(alloc, cursor);
    }
    if cursor.is_name() {
        return named(alloc, cursor, room);
    }
    if cursor.is_sign(Symbol::OpenParen) {
        return parens(alloc, cursor, room);
    }
    Err(cursor.refusal())
}

#[cycle(expression)]
#[tactic(auto, using(crate::proofs::Turns::turns), unfolding(crate::specs::Parsing::Expressions::unary, crate::specs::Parsing::Expressions::minus,))]
fn unary(alloc: Global, cursor: &mut Cursor<'_>, room: usize) -> Result<Expr, Stop>
    ensures reads { Parses expr_tree
        (spec.unary most room (spec.lines most room) (input cursor.old)) result (input cursor.new) }
    ensures shorter { OnOk result (length cursor.new.rest.now < length cursor.old.rest.now) }
{
    if !cursor.is_sign(Symbol::Minus) {
        return primary(alloc, cursor, room);
    }
    let at = cursor.place();
    cursor.open(room)?;
    let operand = unary(alloc, cursor, room - 1)?;
    Ok(minus_of(alloc, operand, at)?)
}

/// What stands between the operators of a level.
#[cycle(expression)]
#[tactic(auto, unfolding(crate::specs::Parsing::Levels::item_at, crate::specs::Parsing::Levels::chain_at))]
fn item(alloc: Global, cursor: &mut Cursor<'_>, room: usize, level: Level) -> Result<Expr, Stop>
    ensures reads { Parses expr_tree
        (item_at most room (spec.lines most room) level (input cursor.old))
        result (input cursor.new) }
    ensures shorter { OnOk result (length cursor.new.rest.now < length cursor.old.rest.now) }
{
    match level {
        Level::Or => chain(alloc, cursor, room, Level::And),
        Level::And => negation(alloc, cursor, room),
        Level::Sum => chain(alloc, cursor, room, Level::Product),
        Level::Product => unary(alloc, cursor, room),
    }
}

/// The line of a level: items with its operators between them, grouped to the left.
#[cycle(expression)]
fn chain(alloc: Global, cursor: &mut Cursor<'_>, room: usize, level: Level) -> Result<Expr, Stop>
    ensures reads { Parses expr_tree
        (chain_at most room (spec.lines most room) level (input cursor.old))
        result (input cursor.new) }
    ensures shorter { OnOk result (length cursor.new.rest.now < length cursor.old.rest.now) }
{
    let mut left = item(alloc, cursor, room, level)?;
    'operators: while let Some(operator) = cursor.operator(level) {
        let at = cursor.place();
        cursor.bump();
        let right = item(alloc, cursor, room, level)?;
        left = binary(alloc, operator, left, right, at)?;
    }
    Ok(left)
}

#[cycle(expression)]
#[tactic(auto, unfolding(crate::specs::Parsing::Expressions::relation, crate::specs::Parsing::Levels::chain_at,))]
fn relation(alloc: Global, cursor: &mut Cursor<'_>, room: usize) -> Result<Expr, Stop>
    ensures reads { Parses expr_tree
        (spec.relation most room (spec.lines most room) (input cursor.old))
        result (input cursor.new) }
    ensures shorter { OnOk result (length cursor.new.rest.now < length cursor.old.rest.now) }
{
    let left = chain(alloc, cursor, room, Level::Sum)?;
    let Some(comparison) = cursor.comparison() else {
        return Ok(left);
    };
    let at = cursor.place();
    cursor.bump();
    let right = chain(alloc, cursor, room, Level::Sum)?;
    Ok(binary(alloc, comparison, left, right, at)?)
}

#[cycle(expression)]
#[tactic(auto, using(crate::proofs::Turns::turns), unfolding(crate::specs::Parsing::Expressions::negation, crate::specs::Parsing::Expressions::not_line,))]
fn negation(alloc: Global, cursor: &mut Cursor<'_>, room: usize) -> Result<Expr, Stop>
    ensures reads { Parses expr_tree
        (spec.negation most room (spec.lines most room) (input cursor.old))
        result (input cursor.new) }
    ensures shorter { OnOk result (length cursor.new.rest.now < length cursor.old.rest.now) }
{
    if !cursor.is_word(Keyword::Not) {
        return relation(alloc, cursor, room);
    }
    let at = cursor.place();
    cursor.open(room)?;
    let operand = negation(alloc, cursor, room - 1)?;
    Ok(not_of(alloc, operand, at)?)
}

#[cycle(expression)]
#[tactic(auto, unfolding(crate::specs::Parsing::Levels::chain_at))]
fn expr(alloc: Global, cursor: &mut Cursor<'_>, room: usize) -> Result<Expr, Stop>
    ensures reads { Parses expr_tree (spec.expr most room (spec.lines most room) (input cursor.old))
        result (input cursor.new) }
    ensures shorter { OnOk result (length cursor.new.rest.now < length cursor.old.rest.now) }
{
    chain(alloc, cursor, room, Level::Or)
}

/// A whole expression. Its operands are counted from 0, and none counts after it.
#[tactic(auto, unfolding(crate::specs::Parsing::Expressions::expression))]
pub fn expression(alloc: Global, cursor: &mut Cursor<'_>, room: usize) -> Result<Expr, Stop>
    ensures reads { Parses expr_tree (spec.expression most room (input cursor.old))
        result (input cursor.new) }
    ensures shorter { OnOk result (length cursor.new.rest.now < length cursor.old.rest.now) }
{
    cursor.reset_operands();
    let value = expr(alloc, cursor, room)?;
    cursor.reset_operands();
    Ok(value)
}
