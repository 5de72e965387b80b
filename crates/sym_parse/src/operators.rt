//! Operators of two operands.
ghost use Rattle.std.specs.Prelude.{◌≡◌, ◌<◌, length, OnSome};
ghost use Rattle.sym_parse.specs.Lexemes.{Sign, Word};
ghost use Rattle.sym_parse.specs.Parsing.Expressions.{op_in};
ghost use Rattle.sym_parse.specs.Parsing.Levels.{op_at};
ghost use Rattle.sym_parse.specs.Steps.{next};
ghost use Rattle.sym_parse.specs.Syntax.Expressions.{and_op, compare_op, or_op, product_op, sum_op};
ghost use Rattle.sym_parse.specs.Views.{input};

use crate::state::Cursor;
use sym_base::BinOp;
use sym_lex::{Keyword, Symbol, TokenKind};

/// The lines of the grammar whose operators group to the left, from the loosest on.
#[derive(Clone, Copy)]
pub enum Level {
    Or,
    And,
    Sum,
    Product,
}

fn or_word(keyword: Keyword) -> Option<BinOp>
    ensures { result ≡ or_op (Word keyword) }
{
    match keyword {
        Keyword::Or => Some(BinOp::Or),
        _ => None,
    }
}

fn and_word(keyword: Keyword) -> Option<BinOp>
    ensures { result ≡ and_op (Word keyword) }
{
    match keyword {
        Keyword::And => Some(BinOp::And),
        _ => None,
    }
}

fn compare_word(keyword: Keyword) -> Option<BinOp>
    ensures { result ≡ compare_op (Word keyword) }
{
    match keyword {
        Keyword::Is => Some(BinOp::Is),
        _ => None,
    }
}

fn compare_sign(symbol: Symbol) -> Option<BinOp>
    ensures { result ≡ compare_op (Sign symbol) }
{
    match symbol {
        Symbol::Equal => Some(BinOp::Eq),
        Symbol::NotEqual => Some(BinOp::Ne),
        Symbol::Less => Some(BinOp::Lt),
        Symbol::LessEqual => Some(BinOp::Le),
        Symbol::Greater => Some(BinOp::Gt),
        Symbol::GreaterEqual => Some(BinOp::Ge),
        _ => None,
    }
}

fn sum_sign(symbol: Symbol) -> Option<BinOp>
    ensures { result ≡ sum_op (Sign symbol) }
{
    match symbol {
        Symbol::Plus => Some(BinOp::Add),
        Symbol::Minus => Some(BinOp::Sub),
        _ => None,
    }
}

fn product_sign(symbol: Symbol) -> Option<BinOp>
    ensures { result ≡ product_op (Sign symbol) }
{
    match symbol {
        Symbol::Star => Some(BinOp::Mul),
        Symbol::Slash => Some(BinOp::Div),
        Symbol::Percent => Some(BinOp::Rem),
        _ => None,
    }
}

fn word_operator(level: Level, keyword: Keyword) -> Option<BinOp>
    ensures { result ≡ op_at level (Word keyword) }
{
    match level {
        Level::Or => or_word(keyword),
        Level::And => and_word(keyword),
        Level::Sum | Level::Product => None,
    }
}

fn sign_operator(level: Level, symbol: Symbol) -> Option<BinOp>
    ensures { result ≡ op_at level (Sign symbol) }
{
    match level {
        Level::Or | Level::And => None,
        Level::Sum => sum_sign(symbol),
        Level::Product => product_sign(symbol),
    }
}

impl Cursor<'_> {
    /// The operator that stands next, if it is one of the level.
    pub fn operator(&self, level: Level) -> Option<BinOp>
        ensures is { result ≡ op_in (op_at level) (next (input self.now)) }
        ensures some { OnSome result (0 < length self.now.rest.now) }
    {
        if let Some(keyword) = self.keyword() {
            return word_operator(level, keyword);
        }
        match self.symbol() {
            Some(symbol) => sign_operator(level, symbol),
            None => None,
        }
    }

    /// The comparison that stands next, if one does.
    pub fn comparison(&self) -> Option<BinOp>
        ensures is { result ≡ op_in compare_op (next (input self.now)) }
        ensures some { OnSome result (0 < length self.now.rest.now) }
    {
        if let Some(keyword) = self.keyword() {
            return compare_word(keyword);
        }
        match self.symbol() {
            Some(symbol) => compare_sign(symbol),
            None => None,
        }
    }
}
