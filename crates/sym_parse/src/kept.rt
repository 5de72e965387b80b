//! The values that a hold cell keeps. There may be any number of them, so they are read in a loop.
ghost use Rattle.std.specs.Prelude.{◌≡◌, ◌<◌, length, map, OnOk};
ghost use Rattle.sym_base.specs.Trees.{End, expr_tree, exprs_tree, exprs_before};
ghost use Rattle.sym_parse.specs.Limits.{most};
ghost use Rattle.sym_parse.specs.Parsing.Expressions as spec;
ghost use Rattle.sym_parse.specs.Steps.{Parses};
ghost use Rattle.sym_parse.specs.Views.{input};

use crate::expression::expression;
use crate::state::Cursor;
use crate::stop::Stop;
use std::alloc::Global;
use sym_base::{Expr, Exprs};
use sym_lex::Symbol;

/// `expr {, expr}`
fn gathered(alloc: Global, cursor: &mut Cursor<'_>, room: usize) -> Result<Vec<Expr>, Stop>
    ensures reads { Parses (λ v. exprs_before (map expr_tree v.items) End)
        (spec.values (spec.expression most room) (input cursor.old)) result (input cursor.new) }
    ensures shorter { OnOk result (length cursor.new.rest.now < length cursor.old.rest.now) }
{
    let mut found = Vec::new(alloc);
    let first = expression(alloc, cursor, room)?;
    found.push(first)?;
    'values: while cursor.is_sign(Symbol::Comma) {
        cursor.bump();
        let value = expression(alloc, cursor, room)?;
        found.push(value)?;
    }
    Ok(found)
}

/// The values that are kept: one, and one more after each comma.
pub fn values(alloc: Global, cursor: &mut Cursor<'_>, room: usize) -> Result<Exprs, Stop>
    ensures reads { Parses exprs_tree (spec.values (spec.expression most room) (input cursor.old))
        result (input cursor.new) }
    ensures shorter { OnOk result (length cursor.new.rest.now < length cursor.old.rest.now) }
{
    let found = gathered(alloc, cursor, room)?;
    Ok(Exprs::of(alloc, found)?)
}
