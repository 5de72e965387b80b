//! The form `pairs`.
ghost use Rattle.std.specs.Prelude.{◌≡◌, ◌++◌, ◌==◌, List, ℕ, [], not, codes, length, map, OnOk};
ghost use Rattle.std.specs.List.{zip};
ghost use Rattle.sym_report.specs.Appending.{continued};
ghost use Rattle.sym_report.specs.Pairs.{pair_text, pair_texts, fault_pair, body_pairs};
ghost use Rattle.sym_report.specs.Pairs.{pairs_line, pairs_form};
ghost use Rattle.sym_report.specs.ValueTexts.{over_fault, arith_fault};

use crate::form::ReportForm;
use crate::rows::{Heads, Row, RowBody};
use crate::shown::{Shown, WordStyle, push_arith, push_lead, push_over, push_quoted, push_text};
use std::alloc::Global;
use std::marker::Model;
use sym_base::{Column, NoMemory, Text};

/// A report's text in the form `pairs`, which grows line by line. A contract sees the bytes so far.
#[derive(Drop)]
pub struct PairsForm {
    bytes: Vec<u8>,
    // A line is made here, over the memory of the line before it, so that the bytes stay as they
    // are where memory runs out within a line.
    line: Vec<u8>,
    // The text of a fault, before it is put between quotes.
    fault: Vec<u8>,
}

impl Model for PairsForm {
    ghost use Rattle.std.specs.Prelude.{List, ℕ};

    ghost Value = { List ℕ };

    ghost view = { λ f. f.bytes.items };
}

impl PairsForm {
    /// The form with no bytes. It takes no memory.
    pub fn new(alloc: Global) -> PairsForm
        ensures { result ≡ [] }
    {
        PairsForm {
            bytes: Vec::new(alloc),
            line: Vec::new(alloc),
            fault: Vec::new(alloc),
        }
    }
}

impl ReportForm for PairsForm {
    ghost called = { λ f. codes "pairs" };

    ghost texts = { λ f. pairs_form };

    ghost gathered = { λ f. f };

    fn name(&self) -> &str {
        "pairs"
    }

    fn begin(&mut self, _alloc: Global, _heads: &Heads) -> Result<(), NoMemory> {
        Ok(())
    }

    fn row(&mut self, _alloc: Global, heads: &Heads, row: &Row) -> Result<(), NoMemory> {
        self.line.clear();
        push_row(&mut self.line, &mut self.fault, heads, row)?;
        self.bytes.extend_from_slice(&self.line)?;
        Ok(())
    }

    fn end(&mut self, _alloc: Global, _heads: &Heads) -> Result<(), NoMemory> {
        Ok(())
    }

    fn bytes(&self) -> &[u8] {
        &self.bytes
    }
}

// Appends a name and its value.
#[tactic(auto, using(std::proofs::Common::append_assoc))]
fn push_pair(into: &mut Vec<u8>, name: &Text, value: &Column) -> Result<(), NoMemory>
    ensures { OnOk result (into.new.items ≡ into.old.items ++ pair_text (name.now, value.now)) }
{
    push_text(into, name.as_bytes())?;
    push_text(into, b"=")?;
    value.push_to(WordStyle::Quoted, into)
}

// Appends names, each with the value at its place, each pair after a space; the first one only
// where something stands before it.
fn push_pairs(
    into: &mut Vec<u8>,
    started: bool,
    names: &[Text],
    values: &[Column],
) -> Result<(), NoMemory>
    ensures { let text = continued (codes " ") started (pair_texts names.now values.now) in
        OnOk result (into.new.items ≡ into.old.items ++ text) }
{
    let mut started = started;
    'pairs: for (name, value) in names.iter().zip(values.iter()) {
        push_lead(into, b" ", started)?;
        push_pair(into, name, value)?;
        started = true;
    }
    Ok(())
}

// Whether there is a pair of these.
fn have_pairs(names: &[Text], values: &[Column]) -> bool
    ensures { result ≡ not (length (zip names.now values.now) == 0) }
{
    !names.is_empty() && !values.is_empty()
}

// Appends a fault, whose text is made in `fault`.
#[tactic(auto, using(std::proofs::Common::append_assoc))]
fn push_over_fault(
    into: &mut Vec<u8>,
    fault: &mut Vec<u8>,
    cell: &Text,
    no: u64,
) -> Result<(), NoMemory>
    ensures { OnOk result
        (into.new.items ≡ into.old.items ++ fault_pair (over_fault cell.now no)) }
{
    fault.clear();
    push_over(fault, cell, no)?;
    push_text(into, b"fault=")?;
    push_quoted(into, fault)
}

// Appends a fault of arithmetic, whose text is made in `fault`.
#[tactic(auto, using(std::proofs::Common::append_assoc))]
fn push_arith_fault(into: &mut Vec<u8>, fault: &mut Vec<u8>, no: u64) -> Result<(), NoMemory>
    ensures { OnOk result
        (into.new.items ≡ into.old.items ++ fault_pair (arith_fault no)) }
{
    fault.clear();
    push_arith(fault, no)?;
    push_text(into, b"fault=")?;
    push_quoted(into, fault)
}

// Appends what a row shows after its keys, after a space where there are some.
fn push_body(
    into: &mut Vec<u8>,
    fault: &mut Vec<u8>,
    started: bool,
    names: &[Text],
    body: &RowBody,
) -> Result<(), NoMemory>
    ensures { let text = continued (codes " ") started (body_pairs names.now body.now) in
        OnOk result (into.new.items ≡ into.old.items ++ text) }
{
    match body {
        RowBody::Columns(columns) => push_pairs(into, started, names, columns.as_slice())?,
        RowBody::Over { cell, no } => {
            push_lead(into, b" ", started)?;
            push_over_fault(into, fault, cell, *no)?;
        }
        RowBody::Arith { no } => {
            push_lead(into, b" ", started)?;
            push_arith_fault(into, fault, *no)?;
        }
    }
    Ok(())
}

// Appends the line of a row.
#[tactic(auto, using(std::proofs::Common::append_assoc, crate::proofs::Joining::joined_values))]
fn push_row(
    into: &mut Vec<u8>,
    fault: &mut Vec<u8>,
    heads: &Heads,
    row: &Row,
) -> Result<(), NoMemory>
    ensures { OnOk result (into.new.items ≡ into.old.items ++ pairs_line heads.now row.now) }
{
    let (names, keys) = (heads.keys.as_slice(), row.keys.as_slice());
    push_pairs(into, false, names, keys)?;
    let started = have_pairs(names, keys);
    push_body(into, fault, started, heads.columns.as_slice(), &row.body)?;
    push_text(into, b"\n")
}
