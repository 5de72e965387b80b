//! The form that is chosen from some, and the calls of a form, whatever it is. Each call has a
//! function, since a loop that calls a box itself has goals that no answer may cite. A crate above
//! writes such functions of its own: where one of another crate is lent a box, the check can't tell
//! that it keeps it.
ghost use Rattle.std.specs.Prelude.{◌≡◌, ◌++◌, OnOk, OnErr};
ghost use Rattle.std.specs.Str.{bytes_eq};
ghost use Rattle.sym_report.specs.Forms.{IsUnder, form_named};

use crate::form::ReportForm;
use crate::rows::{Heads, Row};
use std::alloc::Global;
use sym_base::NoMemory;

/// Whether the form is called by this name.
pub fn is_named(form: &Box<dyn ReportForm>, name: &str) -> bool
    ensures { result ≡ bytes_eq (called form.now) name.now }
{
    form.name() == name
}

/// The first of the forms that is called by this name, if one is.
pub fn choose(forms: Vec<Box<dyn ReportForm>>, name: &str) -> Option<Box<dyn ReportForm>>
    ensures { result ≡ form_named (λ f. called f) name.now forms.items }
{
    let mut forms = forms;
    'forms: for index in 0..forms.len() {
        if is_named(&forms[index], name) {
            return Some(forms.swap_remove(index));
        }
    }
    None
}

/// Appends the text of the names above the rows. After an `Err` the bytes are as before.
pub(crate) fn begin_report(
    alloc: Global,
    form: &mut Box<dyn ReportForm>,
    heads: &Heads,
) -> Result<(), NoMemory>
    ensures ok { OnOk result
        (gathered form.new ≡ gathered form.old ++ (texts form.old).begin heads.now) }
    ensures err { OnErr result (gathered form.new ≡ gathered form.old) }
    ensures texts { texts form.new ≡ texts form.old }
    ensures called { called form.new ≡ called form.old }
{
    form.begin(alloc, heads)
}

/// Appends the text of a row that belongs under these names. After an `Err` the bytes are as
/// before.
pub(crate) fn add_row(
    alloc: Global,
    form: &mut Box<dyn ReportForm>,
    heads: &Heads,
    row: &Row,
) -> Result<(), NoMemory>
    requires { IsUnder heads.now row.now }
    ensures ok { OnOk result
        (gathered form.new ≡ gathered form.old ++ (texts form.old).row heads.now row.now) }
    ensures err { OnErr result (gathered form.new ≡ gathered form.old) }
    ensures texts { texts form.new ≡ texts form.old }
    ensures called { called form.new ≡ called form.old }
{
    form.row(alloc, heads, row)
}

/// Appends the text of the report's end. After an `Err` the bytes are as before.
pub(crate) fn end_report(
    alloc: Global,
    form: &mut Box<dyn ReportForm>,
    heads: &Heads,
) -> Result<(), NoMemory>
    ensures ok { OnOk result
        (gathered form.new ≡ gathered form.old ++ (texts form.old).end heads.now) }
    ensures err { OnErr result (gathered form.new ≡ gathered form.old) }
    ensures texts { texts form.new ≡ texts form.old }
    ensures called { called form.new ≡ called form.old }
{
    form.end(alloc, heads)
}

/// The bytes so far.
pub fn report_bytes(form: &Box<dyn ReportForm>) -> &[u8]
    ensures { result.now ≡ gathered form.now }
{
    form.bytes()
}
