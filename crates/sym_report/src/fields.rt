//! The fields of a row of CSV.
ghost use Rattle.std.specs.Prelude.{◌≡◌, ◌++◌, ◌∷◌, [], map, OnOk};
ghost use Rattle.csv.specs.Records.{fields_of};
ghost use Rattle.sym_report.specs.Csvs.{plain_word, empty_fields};
ghost use Rattle.sym_report.specs.ValueTexts.{value_text};

use crate::shown::{Shown, WordStyle};
use csv::ByteRecord;
use std::alloc::Global;
use std::marker::Model;
use sym_base::{Column, NoMemory, Text};

/// The fields of one row, made over the memory of earlier rows. A contract sees the fields.
#[derive(Drop)]
pub(crate) struct Fields {
    record: ByteRecord,
}

impl Model for Fields {
    ghost use Rattle.std.specs.Prelude.{List, ℕ, ◌≡◌, []};
    ghost use Rattle.csv.specs.Records.{fields_of, partial_of};

    ghost Value = { List (List ℕ) };

    ghost view = { λ f. fields_of f.record };

    ghost invariant = { λ f. partial_of f.record ≡ [] };
}

impl Fields {
    /// No fields. It takes no memory.
    pub(crate) fn new(alloc: Global) -> Fields
        ensures { result ≡ [] }
    {
        Fields {
            record: ByteRecord::new(alloc),
        }
    }

    /// Lets all fields go.
    pub(crate) fn clear(&mut self)
        ensures { self.new ≡ [] }
    {
        self.record.clear();
    }

    /// Adds a field of these bytes.
    pub(crate) fn add(&mut self, field: &[u8]) -> Result<(), NoMemory>
        ensures { OnOk result (self.new ≡ self.old ++ (field.now ∷ [])) }
    {
        match self.record.push_field(field) {
            Ok(()) => Ok(()),
            Err(_) => {
                self.record.clear();
                Err(NoMemory)
            }
        }
    }

    /// The fields as a record of `csv`.
    pub(crate) fn record(&self) -> &ByteRecord
        ensures { fields_of result.now ≡ self.now }
    {
        &self.record
    }
}

/// Adds a field for each name.
pub(crate) fn add_names(fields: &mut Fields, names: &[Text]) -> Result<(), NoMemory>
    ensures { OnOk result (fields.new ≡ fields.old ++ names.now) }
{
    'names: for name in names {
        fields.add(name.as_bytes())?;
    }
    Ok(())
}

/// Adds an empty field for each name.
pub(crate) fn add_empty(fields: &mut Fields, names: &[Text]) -> Result<(), NoMemory>
    ensures { OnOk result (fields.new ≡ fields.old ++ empty_fields names.now) }
{
    'names: for _name in names {
        fields.add(b"")?;
    }
    Ok(())
}

// Adds the field of a value, whose text is made in `text`.
fn add_value(fields: &mut Fields, text: &mut Vec<u8>, value: &Column) -> Result<(), NoMemory>
    ensures { OnOk result (fields.new ≡ fields.old ++ (value_text plain_word value.now ∷ [])) }
{
    text.clear();
    value.push_to(WordStyle::Plain, text)?;
    fields.add(text)
}

/// Adds the field of each value; their texts are made in `text`.
pub(crate) fn add_values(
    fields: &mut Fields,
    text: &mut Vec<u8>,
    values: &[Column],
) -> Result<(), NoMemory>
    ensures { OnOk result
        (fields.new ≡ fields.old ++ map (value_text plain_word) values.now) }
{
    'values: for value in values {
        add_value(fields, text, value)?;
    }
    Ok(())
}
