//! The rows of a file.
ghost use Rattle.std.specs.Prelude.{◌≡◌, IfOk, [], length, map, slice_get, option_map};
ghost use Rattle.csv.specs.Records.{fields_of};

use csv::ByteRecord;
use std::alloc::Global;
use std::marker::Model;
use sym_base::{NoMemory, Plain};

/// A row: the bytes of each field. A contract sees a list of byte strings.
#[derive(Drop)]
pub struct Row {
    pub(crate) fields: ByteRecord,
}

impl Model for Row {
    ghost use Rattle.std.specs.Prelude.{List, ℕ};
    ghost use Rattle.csv.specs.Records.{fields_of};

    ghost Value = { List (List ℕ) };

    ghost view = { λ r. fields_of r.fields };
}

impl Row {
    /// The row of no fields. It takes no memory.
    pub fn new(alloc: Global) -> Row
        ensures { result ≡ [] }
    {
        Row {
            fields: ByteRecord::new(alloc),
        }
    }

    /// The row of no fields, with room for fields of 512 bytes in all. A row that is read again and
    /// again is read in one go while it has room.
    pub fn with_room(alloc: Global) -> Result<Row, NoMemory>
        ensures { IfOk result (λ r. r ≡ []) }
    {
        let fields = ByteRecord::with_capacity(alloc, 512, 16)?;
        Ok(Row { fields })
    }

    /// The row of these fields.
    pub fn from_fields(alloc: Global, fields: &[&[u8]]) -> Result<Row, NoMemory>
        ensures { IfOk result (λ r. r ≡ map (λ f. f.now) fields.now) }
    {
        let fields = ByteRecord::from_fields(alloc, fields)?;
        Ok(Row { fields })
    }

    /// An equal row of its own.
    pub fn copy(&self, _alloc: Global) -> Result<Row, NoMemory>
        ensures { IfOk result (λ r. r ≡ self.now) }
    {
        let fields = self.fields.clone()?;
        Ok(Row { fields })
    }

    /// The number of fields.
    pub fn len(&self) -> usize
        ensures { result ≡ length self.now }
    {
        self.fields.len()
    }

    /// The field at `index`, counted from 0; `None` where there are at most `index` fields.
    pub fn get(&self, index: usize) -> Option<&[u8]>
        ensures { option_map (λ f. f.now) result ≡ slice_get self.now index }
    {
        self.fields.get(index)
    }

    /// The row as it is read.
    pub fn view(&self) -> RowView<'_>
        ensures { result ≡ self.now }
    {
        RowView {
            fields: &self.fields,
        }
    }
}

impl Plain for Row {
    fn copied(&self, alloc: Global) -> Result<Row, NoMemory> {
        self.copy(alloc)
    }
}

/// A row that is read where it lies. A contract sees the list of its fields' bytes.
#[derive(Drop)]
pub struct RowView<'a> {
    fields: &'a ByteRecord,
}

impl<'a> Model for RowView<'a> {
    ghost use Rattle.std.specs.Prelude.{List, ℕ};
    ghost use Rattle.csv.specs.Records.{fields_of};

    ghost Value = { List (List ℕ) };

    ghost view = { λ r. fields_of r.fields.now };
}

impl<'a> RowView<'a> {
    /// The number of fields.
    pub fn len(&self) -> usize
        ensures { result ≡ length self.now }
    {
        self.fields.len()
    }

    /// The field at `index`, counted from 0; `None` where there are at most `index` fields.
    pub fn get(&self, index: usize) -> Option<&'a [u8]>
        ensures { option_map (λ f. f.now) result ≡ slice_get self.now index }
    {
        self.fields.get(index)
    }
}
