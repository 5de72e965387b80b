//! Records without the words that an update doesn't read.
ghost use Rattle.std.specs.Prelude.{◌≡◌, OnOk};
ghost use Rattle.sym_check.specs.Checking.CheckedScripts.{checked_plan};
ghost use Rattle.sym_check.specs.Meaning.Validity.{IsRecord};
ghost use Rattle.sym_reads.specs.Agreement.{HasReadMarked};
ghost use Rattle.sym_run.specs.Keeping.{IsKeptAs};
ghost use Rattle.sym_run.specs.Unread.{read_alone, without_text};

use sym_base::{Fields, NoMemory, Record, Value};
use sym_check::Checked;

/// Makes a word the empty one, over the memory that it has. Other values stay.
fn empty_word(value: &mut Value) -> Result<(), NoMemory>
    ensures { OnOk result (value.new ≡ without_text value.old) }
{
    match value {
        Value::Word(text) => text.set(""),
        Value::Num(_) | Value::Label(_) => Ok(()),
    }
}

/// Empties the words that have no mark.
fn empty_words(values: &mut Fields, marks: &[bool]) -> Result<(), NoMemory>
    ensures { OnOk result (values.new ≡ read_alone marks.now values.old) }
{
    'values: for index in 0..marks.len() {
        if marks[index] {
            continue 'values;
        }
        if let Some(value) = values.get_mut(index) {
            empty_word(value)?;
        }
    }
    Ok(())
}

/// Empties the words of a record in the fields that the update doesn't read, so that whoever keeps
/// the record copies no text of them. The record is as good: the update does the same to it. After
/// an `Err` it is unspecified.
pub(crate) fn empty_unread(
    _checked: &Checked,
    rec: &mut Record,
    reads: &[bool],
) -> Result<(), NoMemory>
    requires rec { IsRecord (checked_plan _checked.now) rec.old }
    requires reads { HasReadMarked (checked_plan _checked.now) reads.now }
    ensures of_script { OnOk result (IsRecord (checked_plan _checked.now) rec.new) }
    ensures as_good { OnOk result (IsKeptAs (checked_plan _checked.now) rec.old rec.new) }
{
    empty_words(&mut rec.fields, reads)
}
