//! The form `csv`.
ghost use Rattle.std.specs.Prelude.{◌≡◌, ◌++◌, ◌∷◌, [], codes, OnOk, OnErr};
ghost use Rattle.sym_report.specs.Csvs.{csv_form, csv_line, empty_fields};
ghost use Rattle.sym_report.specs.Csvs.{body_fields, head_fields, row_fields};
ghost use Rattle.sym_report.specs.ValueTexts.{over_fault, arith_fault};

use crate::fields::{Fields, add_empty, add_names, add_values};
use crate::form::ReportForm;
use crate::page::Page;
use crate::rows::{Heads, Row, RowBody};
use crate::shown::{push_arith, push_over};
use std::alloc::Global;
use std::marker::Model;
use sym_base::{NoMemory, Text};

/// A report's text in the form `csv`, which grows row by row. A contract sees the bytes so far.
#[derive(Drop)]
pub struct CsvForm {
    bytes: Vec<u8>,
    // A row is written here, so that the bytes stay as they are where memory runs out within a row.
    page: Page,
    fields: Fields,
    // The text of a field is made here.
    text: Vec<u8>,
}

impl Model for CsvForm {
    ghost use Rattle.std.specs.Prelude.{List, ℕ};

    ghost Value = { List ℕ };

    ghost view = { λ f. f.bytes.items };
}

impl CsvForm {
    /// The form with no bytes. It takes no memory.
    pub fn new(alloc: Global) -> CsvForm
        ensures { result ≡ [] }
    {
        CsvForm {
            bytes: Vec::new(alloc),
            page: Page::new(alloc),
            fields: Fields::new(alloc),
            text: Vec::new(alloc),
        }
    }
}

impl ReportForm for CsvForm {
    ghost called = { λ f. codes "csv" };

    ghost texts = { λ f. csv_form };

    ghost gathered = { λ f. f };

    fn name(&self) -> &str {
        "csv"
    }

    fn begin(&mut self, alloc: Global, heads: &Heads) -> Result<(), NoMemory> {
        add_heads(&mut self.fields, heads)?;
        append_line(alloc, &mut self.bytes, &mut self.page, &self.fields)
    }

    fn row(&mut self, alloc: Global, heads: &Heads, row: &Row) -> Result<(), NoMemory> {
        add_row(&mut self.fields, &mut self.text, heads, row)?;
        append_line(alloc, &mut self.bytes, &mut self.page, &self.fields)
    }

    fn end(&mut self, _alloc: Global, _heads: &Heads) -> Result<(), NoMemory> {
        Ok(())
    }

    fn bytes(&self) -> &[u8] {
        &self.bytes
    }
}

// Appends what `csv` writes of the fields. After an `Err` the bytes are as before.
fn append_line(
    alloc: Global,
    bytes: &mut Vec<u8>,
    page: &mut Page,
    fields: &Fields,
) -> Result<(), NoMemory>
    ensures ok { OnOk result (bytes.new.items ≡ bytes.old.items ++ csv_line fields.now) }
    ensures err { OnErr result (bytes.new.items ≡ bytes.old.items) }
{
    page.turn(alloc);
    let start = page.bytes().len();
    page.add(alloc, fields.record())?;
    bytes.extend_from_slice(&page.bytes()[start..])?;
    Ok(())
}

// Makes the fields those of the row of names.
#[tactic(auto, using(std::proofs::Common::append_assoc))]
fn add_heads(fields: &mut Fields, heads: &Heads) -> Result<(), NoMemory>
    ensures { OnOk result (fields.new ≡ head_fields heads.now) }
{
    fields.clear();
    add_names(fields, heads.keys.as_slice())?;
    add_names(fields, heads.columns.as_slice())?;
    fields.add(b"fault")
}

// Adds an empty field for each name, and a field of the fault whose text was made.
#[tactic(auto, using(std::proofs::Common::append_assoc))]
fn add_fault(fields: &mut Fields, names: &[Text], fault: &[u8]) -> Result<(), NoMemory>
    ensures { OnOk result (fields.new ≡ fields.old ++ (empty_fields names.now ++ fault.now ∷ [])) }
{
    add_empty(fields, names)?;
    fields.add(fault)
}

// Adds the fields after a row's keys; their texts are made in `text`.
#[tactic(auto, using(std::proofs::Common::append_assoc))]
fn add_body(
    fields: &mut Fields,
    text: &mut Vec<u8>,
    names: &[Text],
    body: &RowBody,
) -> Result<(), NoMemory>
    ensures { OnOk result (fields.new ≡ fields.old ++ body_fields names.now body.now) }
{
    text.clear();
    match body {
        RowBody::Columns(columns) => {
            add_values(fields, text, columns.as_slice())?;
            fields.add(b"")
        }
        RowBody::Over { cell, no } => {
            push_over(text, cell, *no)?;
            add_fault(fields, names, text)
        }
        RowBody::Arith { no } => {
            push_arith(text, *no)?;
            add_fault(fields, names, text)
        }
    }
}

// Makes the fields those of a row; their texts are made in `text`.
fn add_row(
    fields: &mut Fields,
    text: &mut Vec<u8>,
    heads: &Heads,
    row: &Row,
) -> Result<(), NoMemory>
    ensures { OnOk result (fields.new ≡ row_fields heads.now row.now) }
{
    fields.clear();
    add_values(fields, text, row.keys.as_slice())?;
    add_body(fields, text, heads.columns.as_slice(), &row.body)
}
