//! Expressions.
#![tactic(auto, using(crate::proofs::Printout::Appended::text_append))]

ghost use Rattle.std.specs.Prelude.{◌≡◌, ◌++◌, [], OnOk, codes, if◌then◌else◌};
ghost use Rattle.sym_base.specs.Trees.{expr_tree, exprs_tree};
ghost use Rattle.sym_base.specs.Precedence.{expr_level, op_level, needs_parentheses, left_level as left_level_of, right_level as right_level_of};
ghost use Rattle.sym_parse.specs.Printed.{op_text, expr as expr_pieces, exprs as exprs_pieces, further_exprs, operand as operand_pieces, text};

use crate::printer::token::{put, put_number, put_text};
use sym_base::{BinOp, Expr, Exprs, NoMemory};

// How tightly expressions bind: `or` binds loosest.
const OR: u8 = 0;

const AND: u8 = 1;

const NOT: u8 = 2;

const RELATION: u8 = 3;

const SUM: u8 = 4;

const PRODUCT: u8 = 5;

const SIGN: u8 = 6;

const PRIMARY: u8 = 7;

// How tightly an operator binds.
fn level_of_op(op: BinOp) -> u8
    ensures { result ≡ op_level op }
{
    match op {
        BinOp::Or => OR,
        BinOp::And => AND,
        BinOp::Eq | BinOp::Ne | BinOp::Lt | BinOp::Le | BinOp::Gt | BinOp::Ge | BinOp::Is =>
            RELATION,
        BinOp::Add | BinOp::Sub => SUM,
        BinOp::Mul | BinOp::Div | BinOp::Rem => PRODUCT,
    }
}

// The loosest level that may stand to the operator's left without parentheses.
fn left_level(op: BinOp) -> u8
    ensures { result ≡ left_level_of op }
{
    match op {
        BinOp::Or => OR,
        BinOp::And => AND,
        BinOp::Eq | BinOp::Ne | BinOp::Lt | BinOp::Le | BinOp::Gt | BinOp::Ge | BinOp::Is => SUM,
        BinOp::Add | BinOp::Sub => SUM,
        BinOp::Mul | BinOp::Div | BinOp::Rem => PRODUCT,
    }
}

// And to its right.
fn right_level(op: BinOp) -> u8
    ensures { result ≡ right_level_of op }
{
    match op {
        BinOp::Or => AND,
        BinOp::And => NOT,
        BinOp::Eq | BinOp::Ne | BinOp::Lt | BinOp::Le | BinOp::Gt | BinOp::Ge | BinOp::Is => SUM,
        BinOp::Add | BinOp::Sub => PRODUCT,
        BinOp::Mul | BinOp::Div | BinOp::Rem => SIGN,
    }
}

// How tightly an expression binds.
fn level(expr: &Expr) -> u8
    ensures { result ≡ expr_level (expr_tree expr.now) }
{
    match expr {
        Expr::Num(_, _) | Expr::Text(_, _) | Expr::Named(_) | Expr::Call(_, _) => PRIMARY,
        Expr::Neg(_, _) => SIGN,
        Expr::Not(_, _) => NOT,
        Expr::Bin(op, _, _, _) => level_of_op(*op),
    }
}

// An operator with the space on each side.
#[tactic(auto, unfolding(crate::specs::Printed::op_text))]
fn spelled(op: BinOp) -> &'static str
    ensures { result.now ≡ op_text op }
{
    match op {
        BinOp::Or => " or ",
        BinOp::And => " and ",
        BinOp::Eq => " == ",
        BinOp::Ne => " != ",
        BinOp::Lt => " < ",
        BinOp::Le => " <= ",
        BinOp::Gt => " > ",
        BinOp::Ge => " >= ",
        BinOp::Is => " is ",
        BinOp::Add => " + ",
        BinOp::Sub => " - ",
        BinOp::Mul => " * ",
        BinOp::Div => " / ",
        BinOp::Rem => " % ",
    }
}

fn open(out: &mut Vec<u8>, needed: bool) -> Result<(), NoMemory>
    ensures { OnOk result
        (out.new.items ≡ out.old.items ++ (if needed then codes "(" else [])) }
{
    if needed { put(out, b"(") } else { Ok(()) }
}

fn close(out: &mut Vec<u8>, needed: bool) -> Result<(), NoMemory>
    ensures { OnOk result
        (out.new.items ≡ out.old.items ++ (if needed then codes ")" else [])) }
{
    if needed { put(out, b")") } else { Ok(()) }
}

// Whether an operand needs parentheses where this level is wanted.
fn needs(wanted: u8, operand: &Expr) -> bool
    ensures { result ≡ needs_parentheses wanted (expr_tree operand.now) }
{
    level(operand) < wanted
}

// Appends an operand where this level is wanted.
#[cycle(print_expression)]
#[tactic(auto, using(crate::proofs::Printout::Appended::enclosed_text))]
fn print_operand(out: &mut Vec<u8>, operand: &Expr, wanted: u8) -> Result<(), NoMemory>
    ensures { let e = expr_tree operand.now in OnOk result
        (out.new.items ≡ out.old.items ++ text (operand_pieces wanted e (expr_pieces e))) }
{
    let around = needs(wanted, operand);
    open(out, around)?;
    print_expr(out, operand)?;
    close(out, around)
}

/// Appends an expression that needs no parentheses.
#[cycle(print_expression)]
#[tactic(auto, using(crate::proofs::Printout::Appended::text_append), unfolding(crate::specs::Printed::op_text))]
pub fn print_expr(out: &mut Vec<u8>, expr: &Expr) -> Result<(), NoMemory>
    ensures { OnOk result
        (out.new.items ≡ out.old.items ++ text (expr_pieces (expr_tree expr.now))) }
{
    match expr {
        Expr::Num(number, _) => put_number(out, *number),
        Expr::Text(text, _) => put_text(out, text),
        Expr::Named(name) => put(out, name.text.as_bytes()),
        Expr::Call(name, arguments) => {
            put(out, name.text.as_bytes())?;
            put(out, b"(")?;
            print_exprs(out, arguments)?;
            put(out, b")")
        }
        Expr::Neg(operand, _) => {
            put(out, b"-")?;
            print_operand(out, operand, SIGN)
        }
        Expr::Not(operand, _) => {
            put(out, b"not ")?;
            print_operand(out, operand, NOT)
        }
        Expr::Bin(op, left, right, _) => {
            print_operand(out, left, left_level(*op))?;
            put(out, spelled(*op).as_bytes())?;
            print_operand(out, right, right_level(*op))
        }
    }
}

/// Appends expressions with `, ` between them.
#[cycle(print_expression)]
pub fn print_exprs(out: &mut Vec<u8>, exprs: &Exprs) -> Result<(), NoMemory>
    ensures { OnOk result
        (out.new.items ≡ out.old.items ++ text (exprs_pieces (exprs_tree exprs.now))) }
{
    match exprs {
        Exprs::End => Ok(()),
        Exprs::More(first, rest) => {
            print_expr(out, first)?;
            print_further(out, rest)
        }
    }
}

// Appends expressions, each after a `, `. There may be any number of them.
#[cycle(print_expression)]
fn print_further(out: &mut Vec<u8>, exprs: &Exprs) -> Result<(), NoMemory>
    ensures { OnOk result
        (out.new.items ≡ out.old.items ++ text (further_exprs (exprs_tree exprs.now))) }
{
    let mut left = exprs;
    'expressions: while let Exprs::More(first, rest) = left {
        put(out, b", ")?;
        print_expr(out, first)?;
        left = rest;
    }
    Ok(())
}
