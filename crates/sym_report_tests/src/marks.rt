//! A form of the test's own: `<` for the names, `.` for each row, `>` for the end. It finds memory for
//! so many rows.
ghost use Rattle.std.specs.Prelude.{codes};

use std::alloc::Global;
use sym_base::NoMemory;
use sym_report::{Heads, ReportForm, Row};

/// A report in marks.
#[derive(Drop)]
pub(crate) struct Marks {
    bytes: Vec<u8>,
    room: usize,
}

impl Marks {
    pub(crate) fn new(alloc: Global, room: usize) -> Marks {
        Marks {
            bytes: Vec::new(alloc),
            room,
        }
    }
}

impl ReportForm for Marks {
    ghost called = { λ f. codes "marks" };

    ghost texts = { λ f. record {
      begin = λ heads. codes "<";
      row = λ heads row. codes ".";
      end = λ heads. codes ">";
    } };

    ghost gathered = { λ f. f.bytes.items };

    fn name(&self) -> &str {
        "marks"
    }

    fn begin(&mut self, _alloc: Global, _heads: &Heads) -> Result<(), NoMemory> {
        self.bytes.push(b'<')?;
        Ok(())
    }

    fn row(&mut self, _alloc: Global, _heads: &Heads, _row: &Row) -> Result<(), NoMemory> {
        if self.room == 0 {
            return Err(NoMemory);
        }
        self.bytes.push(b'.')?;
        self.room -= 1;
        Ok(())
    }

    fn end(&mut self, _alloc: Global, _heads: &Heads) -> Result<(), NoMemory> {
        self.bytes.push(b'>')?;
        Ok(())
    }

    fn bytes(&self) -> &[u8] {
        &self.bytes
    }
}
