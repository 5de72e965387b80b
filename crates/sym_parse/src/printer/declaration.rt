//! Declarations and columns.
#![tactic(auto, using(crate::proofs::Printout::Appended::text_append, crate::proofs::Printout::Appended::num_text))]

ghost use Rattle.std.specs.Prelude.{◌≡◌, ◌++◌, OnOk};
ghost use Rattle.sym_base.specs.Trees.{test_tree, column_tree};
ghost use Rattle.sym_parse.specs.Printed.{cell_of, clamp_of, column_of, default_of, enum_of, field_of, group_of, header_of, kind_of, literal_of, num, param_of, part_of, range, state_of, test_of, text};

use crate::printer::expression::print_expr;
use crate::printer::item::{Item, print_listed};
use crate::printer::token::{put, put_number, put_text};
use sym_base::{
    CellDecl, ColumnDecl, EnumDecl, FieldDecl, KindRef, Literal, Name, NoMemory, Param, Part,
    StateDecl, TestDecl, Text,
};

fn print_kind(out: &mut Vec<u8>, kind: &KindRef) -> Result<(), NoMemory>
    ensures { OnOk result (out.new.items ≡ out.old.items ++ text (kind_of kind.now)) }
{
    match kind {
        KindRef::Num => put(out, b"num"),
        KindRef::Word => put(out, b"word"),
        KindRef::Named(name) => name.print(out),
    }
}

fn print_literal(out: &mut Vec<u8>, literal: &Literal) -> Result<(), NoMemory>
    ensures { OnOk result (out.new.items ≡ out.old.items ++ text (literal_of literal.now)) }
{
    match literal {
        Literal::Num { value, at: _ } => put_number(out, *value),
        Literal::Text { text, at: _ } => put_text(out, text),
        Literal::Named(name) => name.print(out),
    }
}

impl Item for EnumDecl {
    ghost pieces = { enum_of };

    fn print(&self, out: &mut Vec<u8>) -> Result<(), NoMemory> {
        put(out, b"enum ")?;
        self.name.print(out)?;
        put(out, b" { ")?;
        print_listed(out, self.labels.as_slice())?;
        put(out, b" }\n")
    }
}

fn print_header(out: &mut Vec<u8>, header: &Option<Text>) -> Result<(), NoMemory>
    ensures { OnOk result (out.new.items ≡ out.old.items ++ text (header_of header.now)) }
{
    match header {
        None => Ok(()),
        Some(text) => {
            put(out, b" from ")?;
            put_text(out, text)
        }
    }
}

fn print_default(out: &mut Vec<u8>, default: &Option<Literal>) -> Result<(), NoMemory>
    ensures { OnOk result (out.new.items ≡ out.old.items ++ text (default_of default.now)) }
{
    match default {
        None => Ok(()),
        Some(literal) => {
            put(out, b" else ")?;
            print_literal(out, literal)
        }
    }
}

impl Item for FieldDecl {
    ghost pieces = { field_of };

    fn print(&self, out: &mut Vec<u8>) -> Result<(), NoMemory> {
        put(out, b"field ")?;
        self.name.print(out)?;
        print_header(out, &self.header)?;
        put(out, b": ")?;
        print_kind(out, &self.kind)?;
        print_default(out, &self.default)?;
        put(out, b";\n")
    }
}

/// Appends the line of the fields whose values tell groups apart, where there are some.
pub fn print_group(out: &mut Vec<u8>, group: &[Name]) -> Result<(), NoMemory>
    ensures { OnOk result (out.new.items ≡ out.old.items ++ text (group_of group.now)) }
{
    match group {
        [] => Ok(()),
        [_, ..] => {
            put(out, b"group ")?;
            print_listed(out, group)?;
            put(out, b";\n")
        }
    }
}

#[tactic(auto, using(crate::proofs::Printout::Appended::text_append, crate::proofs::Printout::Appended::num_text), unfolding(crate::specs::Printed::range))]
fn print_range(out: &mut Vec<u8>, lo: i64, hi: i64) -> Result<(), NoMemory>
    ensures { OnOk result (out.new.items ≡ out.old.items ++ text (range lo hi)) }
{
    put(out, b"[")?;
    put_number(out, lo)?;
    put(out, b"..")?;
    put_number(out, hi)?;
    put(out, b"]")
}

#[tactic(auto, unfolding(crate::specs::Printed::clamp_of))]
fn print_clamp(out: &mut Vec<u8>, clamp: bool) -> Result<(), NoMemory>
    ensures { OnOk result (out.new.items ≡ out.old.items ++ text (clamp_of clamp)) }
{
    if clamp { put(out, b" clamp") } else { Ok(()) }
}

// Appends an integer cell's first value and its mark.
fn print_first(out: &mut Vec<u8>, first: i64, clamp: bool) -> Result<(), NoMemory>
    ensures { OnOk result (out.new.items ≡ out.old.items ++ text (num first ++ clamp_of clamp)) }
{
    put_number(out, first)?;
    print_clamp(out, clamp)
}

impl Item for Part {
    ghost pieces = { part_of };

    fn print(&self, out: &mut Vec<u8>) -> Result<(), NoMemory> {
        print_kind(out, &self.kind)?;
        put(out, b" = ")?;
        print_literal(out, &self.first)
    }
}

fn print_cell(out: &mut Vec<u8>, cell: &CellDecl) -> Result<(), NoMemory>
    ensures { OnOk result (out.new.items ≡ out.old.items ++ text (cell_of cell.now)) }
{
    match cell {
        CellDecl::Int {
            lo,
            hi,
            first,
            clamp,
        } => {
            put(out, b"int ")?;
            print_range(out, *lo, *hi)?;
            put(out, b" = ")?;
            print_first(out, *first, *clamp)
        }
        CellDecl::Nums { lo, hi, clamp } => {
            put(out, b"nums ")?;
            print_range(out, *lo, *hi)?;
            print_clamp(out, *clamp)
        }
        CellDecl::Words => put(out, b"words"),
        CellDecl::Hold(parts) => {
            put(out, b"hold(")?;
            print_listed(out, parts.as_slice())?;
            put(out, b")")
        }
        CellDecl::Enum { of, first } => {
            of.print(out)?;
            put(out, b" = ")?;
            first.print(out)
        }
    }
}

impl Item for StateDecl {
    ghost pieces = { state_of };

    fn print(&self, out: &mut Vec<u8>) -> Result<(), NoMemory> {
        put(out, b"state ")?;
        self.name.print(out)?;
        put(out, b": ")?;
        print_cell(out, &self.cell)?;
        put(out, b";\n")
    }
}

impl Item for Param {
    ghost pieces = { param_of };

    fn print(&self, out: &mut Vec<u8>) -> Result<(), NoMemory> {
        self.name.print(out)?;
        put(out, b": ")?;
        print_kind(out, &self.kind)
    }
}

impl Item for TestDecl {
    ghost pieces = { λ d. test_of (test_tree d) };

    fn print(&self, out: &mut Vec<u8>) -> Result<(), NoMemory> {
        put(out, b"test ")?;
        self.name.print(out)?;
        put(out, b"(")?;
        print_listed(out, self.params.as_slice())?;
        put(out, b") = ")?;
        print_expr(out, &self.body)?;
        put(out, b";\n")
    }
}

impl Item for ColumnDecl {
    ghost pieces = { λ d. column_of (column_tree d) };

    fn print(&self, out: &mut Vec<u8>) -> Result<(), NoMemory> {
        put(out, b"  ")?;
        self.name.print(out)?;
        put(out, b" = ")?;
        print_expr(out, &self.value)?;
        put(out, b";\n")
    }
}
