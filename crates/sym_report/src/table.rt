//! The form `table`.
ghost use Rattle.std.specs.Prelude.{◌≡◌, ◌++◌, List, ℕ, [], codes, OnOk, OnErr};
ghost use Rattle.sym_report.specs.Appending.{continued};
ghost use Rattle.sym_report.specs.Tables.{head_text, row_text, fault_text, body_texts, table_form};
ghost use Rattle.sym_report.specs.ValueTexts.{over_fault, arith_fault};

use crate::form::ReportForm;
use crate::rows::{Heads, Row, RowBody};
use crate::shown::{WordStyle, push_arith, push_joined, push_lead, push_over, push_text};
use std::alloc::Global;
use std::marker::Model;
use sym_base::{NoMemory, Text};

/// A report's text in the form `table`, which grows line by line. A contract sees the bytes so far.
#[derive(Drop)]
pub struct TableForm {
    bytes: Vec<u8>,
    // A line is made here, over the memory of the line before it, so that the bytes stay as they
    // are where memory runs out within a line.
    line: Vec<u8>,
}

impl Model for TableForm {
    ghost use Rattle.std.specs.Prelude.{List, ℕ};

    ghost Value = { List ℕ };

    ghost view = { λ f. f.bytes.items };
}

impl TableForm {
    /// The form with no bytes. It takes no memory.
    pub fn new(alloc: Global) -> TableForm
        ensures { result ≡ [] }
    {
        TableForm {
            bytes: Vec::new(alloc),
            line: Vec::new(alloc),
        }
    }

    /// The bytes. It takes no memory.
    pub fn into_bytes(self) -> Vec<u8>
        ensures { result.items ≡ self }
    {
        self.bytes
    }
}

impl ReportForm for TableForm {
    ghost called = { λ f. codes "table" };

    ghost texts = { λ f. table_form };

    ghost gathered = { λ f. f };

    fn name(&self) -> &str {
        "table"
    }

    fn begin(&mut self, _alloc: Global, heads: &Heads) -> Result<(), NoMemory> {
        self.line.clear();
        push_heads(&mut self.line, heads)?;
        self.bytes.extend_from_slice(&self.line)?;
        Ok(())
    }

    /// Appends the line of any row, whatever the names. After an `Err` the bytes are as before.
    fn row(&mut self, _alloc: Global, _heads: &Heads, row: &Row) -> Result<(), NoMemory>
        ensures ok { OnOk result (self.new ≡ self.old ++ row_text row.now) }
        ensures err { OnErr result (self.new ≡ self.old) }
        ensures texts { table_form ≡ table_form }
        ensures called { codes "table" ≡ codes "table" }
    {
        self.line.clear();
        push_row(&mut self.line, row)?;
        self.bytes.extend_from_slice(&self.line)?;
        Ok(())
    }

    fn end(&mut self, _alloc: Global, _heads: &Heads) -> Result<(), NoMemory> {
        self.bytes.extend_from_slice(b"--\n")?;
        Ok(())
    }

    fn bytes(&self) -> &[u8] {
        &self.bytes
    }
}

// Appends names, each after a separator; the first one only where something stands before it.
fn push_names(into: &mut Vec<u8>, started: bool, names: &[Text]) -> Result<(), NoMemory>
    ensures { OnOk result
        (into.new.items ≡ into.old.items ++ continued (codes " | ") started names.now) }
{
    let mut started = started;
    'names: for name in names {
        push_lead(into, b" | ", started)?;
        push_text(into, name.as_bytes())?;
        started = true;
    }
    Ok(())
}

// Appends the line of names.
#[tactic(auto, using(std::proofs::Common::append_assoc, crate::proofs::Joining::joined_names))]
fn push_heads(into: &mut Vec<u8>, heads: &Heads) -> Result<(), NoMemory>
    ensures { OnOk result (into.new.items ≡ into.old.items ++ head_text heads.now) }
{
    push_names(into, false, heads.keys.as_slice())?;
    push_names(into, !heads.keys.is_empty(), heads.columns.as_slice())?;
    push_text(into, b"\n")
}

// Appends a fault of the cell of this name.
#[tactic(auto, using(std::proofs::Common::append_assoc))]
fn push_over_fault(into: &mut Vec<u8>, cell: &Text, no: u64) -> Result<(), NoMemory>
    ensures { OnOk result
        (into.new.items ≡ into.old.items ++ fault_text (over_fault cell.now no)) }
{
    push_text(into, b"fault: ")?;
    push_over(into, cell, no)
}

// Appends a fault of arithmetic.
#[tactic(auto, using(std::proofs::Common::append_assoc))]
fn push_arith_fault(into: &mut Vec<u8>, no: u64) -> Result<(), NoMemory>
    ensures { OnOk result
        (into.new.items ≡ into.old.items ++ fault_text (arith_fault no)) }
{
    push_text(into, b"fault: ")?;
    push_arith(into, no)
}

// Appends what a row shows after its keys, after a separator where there are some.
fn push_body(into: &mut Vec<u8>, started: bool, body: &RowBody) -> Result<(), NoMemory>
    ensures { OnOk result
        (into.new.items ≡ into.old.items ++ continued (codes " | ") started (body_texts body.now)) }
{
    match body {
        RowBody::Columns(columns) => {
            push_joined(into, WordStyle::Shown, b" | ", started, columns.as_slice())?;
        }
        RowBody::Over { cell, no } => {
            push_lead(into, b" | ", started)?;
            push_over_fault(into, cell, *no)?;
        }
        RowBody::Arith { no } => {
            push_lead(into, b" | ", started)?;
            push_arith_fault(into, *no)?;
        }
    }
    Ok(())
}

// Appends the line of a row.
#[tactic(auto, using(std::proofs::Common::append_assoc, crate::proofs::Joining::joined_values))]
fn push_row(into: &mut Vec<u8>, row: &Row) -> Result<(), NoMemory>
    ensures { OnOk result (into.new.items ≡ into.old.items ++ row_text row.now) }
{
    push_joined(into, WordStyle::Shown, b" | ", false, row.keys.as_slice())?;
    push_body(into, !row.keys.is_empty(), &row.body)?;
    push_text(into, b"\n")
}
