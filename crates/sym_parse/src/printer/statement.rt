//! Statements.
#![tactic(auto, using(crate::proofs::Printout::Appended::text_append))]

ghost use Rattle.std.specs.Prelude.{◌≡◌, ◌≤◌, ◌+◌, ◌++◌, OnOk, ◌&&◌};
ghost use Rattle.sym_base.specs.Limits.{max_depth};
ghost use Rattle.sym_base.specs.Sizes.{stmt_depth, stmts_depth};
ghost use Rattle.sym_base.specs.Trees.{stmt_tree, stmts_tree};
ghost use Rattle.sym_parse.specs.Printed.{block, else_of, is_empty as is_empty_list, is_if as is_branch, stmt as stmt_pieces, stmts as stmts_pieces, text};

use crate::printer::expression::{print_expr, print_exprs};
use crate::printer::item::Item;
use crate::printer::token::{put, put_indent};
use sym_base::{NoMemory, Stmt, Stmts};

fn is_if(stmt: &Stmt) -> bool
    ensures { result ≡ is_branch (stmt_tree stmt.now) }
{
    matches!(stmt, Stmt::If(_, _, _))
}

fn is_empty(stmts: &Stmts) -> bool
    ensures { result ≡ is_empty_list (stmts_tree stmts.now) }
{
    matches!(stmts, Stmts::End)
}

// Appends a statement inside so many blocks.
#[cycle(print_statement)]
fn print_stmt(out: &mut Vec<u8>, stmt: &Stmt, blocks: usize) -> Result<(), NoMemory>
    requires { blocks + stmt_depth (stmt_tree stmt.now) ≤ max_depth + 1 }
    ensures { OnOk result
        (out.new.items ≡ out.old.items ++ text (stmt_pieces blocks (stmt_tree stmt.now))) }
{
    match stmt {
        Stmt::Let(name, value) => {
            put(out, b"let ")?;
            name.print(out)?;
            put(out, b" = ")?;
            print_expr(out, value)?;
            put(out, b";")
        }
        Stmt::Set(name, value) => {
            name.print(out)?;
            put(out, b" = ")?;
            print_expr(out, value)?;
            put(out, b";")
        }
        Stmt::Push(name, value) => {
            put(out, b"push ")?;
            name.print(out)?;
            put(out, b" ")?;
            print_expr(out, value)?;
            put(out, b";")
        }
        Stmt::Keep(name, values) => {
            put(out, b"keep ")?;
            name.print(out)?;
            put(out, b"(")?;
            print_exprs(out, values)?;
            put(out, b");")
        }
        Stmt::KeepFrom(name, source) => {
            put(out, b"keep ")?;
            name.print(out)?;
            put(out, b" from ")?;
            source.print(out)?;
            put(out, b";")
        }
        Stmt::If(condition, then, otherwise) => {
            put(out, b"if ")?;
            print_expr(out, condition)?;
            put(out, b" ")?;
            print_block(out, then, blocks)?;
            print_else(out, otherwise, blocks)
        }
    }
}

// Appends a block whose brackets stand inside so many blocks.
#[cycle(print_statement)]
fn print_block(out: &mut Vec<u8>, stmts: &Stmts, blocks: usize) -> Result<(), NoMemory>
    requires { blocks + stmts_depth (stmts_tree stmts.now) ≤ max_depth }
    ensures { OnOk result
        (out.new.items ≡ out.old.items
        ++ text (block blocks (stmts_pieces (blocks + 1) (stmts_tree stmts.now)))) }
{
    put(out, b"{\n")?;
    print_stmts(out, stmts, blocks + 1)?;
    put_indent(out, blocks)?;
    put(out, b"}")
}

// Appends what stands after an `if`'s first block.
#[cycle(print_statement)]
fn print_else(out: &mut Vec<u8>, stmts: &Stmts, blocks: usize) -> Result<(), NoMemory>
    requires { blocks + stmts_depth (stmts_tree stmts.now) ≤ max_depth }
    ensures { OnOk result
        (out.new.items ≡ out.old.items ++ text (else_of blocks (stmts_tree stmts.now))) }
{
    match stmts {
        Stmts::End => Ok(()),
        Stmts::More(first, rest) => {
            put(out, b" else ")?;
            if is_if(first) && is_empty(rest) {
                return print_stmt(out, first, blocks);
            }
            print_block(out, stmts, blocks)
        }
    }
}

/// Appends a line for each statement, inside so many blocks.
#[cycle(print_statement)]
pub fn print_stmts(out: &mut Vec<u8>, stmts: &Stmts, blocks: usize) -> Result<(), NoMemory>
    requires { blocks + stmts_depth (stmts_tree stmts.now) ≤ max_depth + 1 }
    ensures { OnOk result
        (out.new.items ≡ out.old.items ++ text (stmts_pieces blocks (stmts_tree stmts.now))) }
{
    match stmts {
        Stmts::End => Ok(()),
        Stmts::More(first, rest) => {
            put_indent(out, blocks)?;
            print_stmt(out, first, blocks)?;
            put(out, b"\n")?;
            print_stmts(out, rest, blocks)
        }
    }
}
