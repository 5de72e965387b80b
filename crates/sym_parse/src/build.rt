//! Nodes of the syntax tree.
ghost use Rattle.std.specs.Prelude.{◌≡◌, IfOk};
ghost use Rattle.sym_base.specs.Trees.{Bin, More, Neg, Not, Then, expr_tree, exprs_tree, stmt_tree, stmts_tree};

use std::alloc::{AllocError, Global};
use sym_base::{BinOp, Expr, Exprs, Stmt, Stmts};

/// An operator between its operands.
pub fn binary(
    alloc: Global,
    operator: BinOp,
    left: Expr,
    right: Expr,
    at: u32,
) -> Result<Expr, AllocError>
    ensures { IfOk result (λ e. expr_tree e ≡ Bin operator (expr_tree left) (expr_tree right) at) }
{
    let left = Box::new(alloc, left)?;
    Ok(Expr::Bin(operator, left, Box::new(alloc, right)?, at))
}

/// A unary `-` before its operand.
pub fn minus_of(alloc: Global, operand: Expr, at: u32) -> Result<Expr, AllocError>
    ensures { IfOk result (λ e. expr_tree e ≡ Neg (expr_tree operand) at) }
{
    Ok(Expr::Neg(Box::new(alloc, operand)?, at))
}

/// A `not` before its operand.
pub fn not_of(alloc: Global, operand: Expr, at: u32) -> Result<Expr, AllocError>
    ensures { IfOk result (λ e. expr_tree e ≡ Not (expr_tree operand) at) }
{
    Ok(Expr::Not(Box::new(alloc, operand)?, at))
}

/// An expression before others.
pub fn before_exprs(alloc: Global, first: Expr, rest: Exprs) -> Result<Exprs, AllocError>
    ensures { IfOk result (λ es. exprs_tree es ≡ More (expr_tree first) (exprs_tree rest)) }
{
    let first = Box::new(alloc, first)?;
    Ok(Exprs::More(first, Box::new(alloc, rest)?))
}

/// A statement before others.
pub fn before_stmts(alloc: Global, first: Stmt, rest: Stmts) -> Result<Stmts, AllocError>
    ensures { IfOk result (λ ss. stmts_tree ss ≡ Then (stmt_tree first) (stmts_tree rest)) }
{
    let first = Box::new(alloc, first)?;
    Ok(Stmts::More(first, Box::new(alloc, rest)?))
}
