//! The calls of a form, whatever it is. Each has a function, since a loop that calls a box itself
//! has goals that no answer may cite.
ghost use Rattle.std.specs.Prelude.{◌≡◌, ◌++◌, OnOk};
ghost use Rattle.sym_report.specs.Forms.{IsUnder};

use std::alloc::Global;
use sym_base::NoMemory;
use sym_report::{Heads, ReportForm, Row};

/// Appends the text of the names above the rows.
pub(crate) fn begin_report(
    alloc: Global,
    form: &mut Box<dyn ReportForm>,
    heads: &Heads,
) -> Result<(), NoMemory>
    ensures ok { OnOk result
        (gathered form.new ≡ gathered form.old ++ (texts form.old).begin heads.now) }
    ensures texts { texts form.new ≡ texts form.old }
{
    form.begin(alloc, heads)
}

/// Appends the text of a row that belongs under these names.
pub(crate) fn add_row(
    alloc: Global,
    form: &mut Box<dyn ReportForm>,
    heads: &Heads,
    row: &Row,
) -> Result<(), NoMemory>
    requires { IsUnder heads.now row.now }
    ensures ok { OnOk result
        (gathered form.new ≡ gathered form.old ++ (texts form.old).row heads.now row.now) }
    ensures texts { texts form.new ≡ texts form.old }
{
    form.row(alloc, heads, row)
}

/// Appends the text of the report's end.
pub(crate) fn end_report(
    alloc: Global,
    form: &mut Box<dyn ReportForm>,
    heads: &Heads,
) -> Result<(), NoMemory>
    ensures ok { OnOk result
        (gathered form.new ≡ gathered form.old ++ (texts form.old).end heads.now) }
    ensures texts { texts form.new ≡ texts form.old }
{
    form.end(alloc, heads)
}
