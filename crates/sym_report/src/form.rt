//! What a form of a report is.
ghost use Rattle.std.specs.Prelude.{◌≡◌, ◌++◌, OnOk, OnErr};
ghost use Rattle.sym_report.specs.Forms.{IsUnder};

use crate::rows::{Heads, Row};
use std::alloc::Global;
use sym_base::NoMemory;

/// A form of reports, which gathers the text of one: `begin`, then `row` for each row, in order,
/// then `end`. It takes all its memory in these three calls, which give an `Err` only where memory
/// ran out.
pub trait ReportForm: Drop {
    ghost use Rattle.std.specs.Prelude.{List, ℕ};
    ghost use Rattle.sym_report.specs.Forms.{FormTexts};

    // What the form is called.
    ghost called: { Self → List ℕ };

    // Its three texts: of names, of a row under them, and of the end.
    ghost texts: { Self → FormTexts };

    // The bytes so far.
    ghost gathered: { Self → List ℕ };

    /// What the form is called.
    fn name(&self) -> &str
        ensures { result.now ≡ called self.now };

    /// Appends the text of the names above the rows. After an `Err` the bytes are as before.
    fn begin(&mut self, alloc: Global, heads: &Heads) -> Result<(), NoMemory>
        ensures ok { OnOk result
            (gathered self.new ≡ gathered self.old ++ (texts self.old).begin heads.now) }
        ensures err { OnErr result (gathered self.new ≡ gathered self.old) }
        ensures texts { texts self.new ≡ texts self.old }
        ensures called { called self.new ≡ called self.old };

    /// Appends the text of a row, which has as many keys as the names have, and as many columns
    /// unless it shows a fault. After an `Err` the bytes are as before.
    fn row(&mut self, alloc: Global, heads: &Heads, row: &Row) -> Result<(), NoMemory>
        requires { IsUnder heads.now row.now }
        ensures ok { OnOk result
            (gathered self.new ≡ gathered self.old ++ (texts self.old).row heads.now row.now) }
        ensures err { OnErr result (gathered self.new ≡ gathered self.old) }
        ensures texts { texts self.new ≡ texts self.old }
        ensures called { called self.new ≡ called self.old };

    /// Appends the text of the report's end. After an `Err` the bytes are as before.
    fn end(&mut self, alloc: Global, heads: &Heads) -> Result<(), NoMemory>
        ensures ok { OnOk result
            (gathered self.new ≡ gathered self.old ++ (texts self.old).end heads.now) }
        ensures err { OnErr result (gathered self.new ≡ gathered self.old) }
        ensures texts { texts self.new ≡ texts self.old }
        ensures called { called self.new ≡ called self.old };

    /// The bytes so far.
    fn bytes(&self) -> &[u8]
        ensures { result.now ≡ gathered self.now };
}
