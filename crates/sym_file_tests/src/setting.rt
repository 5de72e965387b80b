//! Files of saved runs, and what reading them answers.
ghost use Rattle.std.specs.Prelude.{◌≤◌, length};
ghost use Rattle.sym_base.specs.declared.limits.TheConstants as limit;
ghost use Rattle.sym_check.specs.Checking.CheckedScripts.{checked_plan};
ghost use Rattle.sym_run.specs.SavedRuns.{IsLawfulSaved};

use itoa::Buffer;
use std::alloc::Global;
use sym_base::NoMemory;
use sym_check::Checked;
use sym_file::{SavedErr, Taken, TakenText, Totals, read_saved, write_saved};
use sym_given::groups_differ;
use sym_parse::print;
use sym_run::Saved;

/// The file of the script that goes on with these bytes.
pub(crate) fn file_of(alloc: Global, checked: &Checked, body: &[u8]) -> Result<Vec<u8>, NoMemory> {
    let own = print(alloc, checked.script())?;
    let mut text = Vec::new(alloc);
    text.extend_from_slice(b"symple run 1\nscript ")?;
    let mut buffer = Buffer::new();
    text.extend_from_slice(buffer.format(own.len()).as_bytes())?;
    text.extend_from_slice(b"\n")?;
    text.extend_from_slice(&own)?;
    text.extend_from_slice(body)?;
    Ok(text)
}

/// What reading comes to.
#[derive(Clone, Copy, Debug, PartialEq, Eq)]
pub(crate) enum Answer {
    /// A lawful saved run, whose text these bytes are.
    Read,
    /// Another saved run.
    Wrong,
    OtherScript,
    Malformed,
}

/// Whether taking a text comes to what taking its saved run comes to.
fn is_taken_alike(
    alloc: Global,
    checked: &Checked,
    bytes: &[u8],
    saved: &Saved,
) -> Result<bool, NoMemory>
    requires size { length bytes.now ≤ limit.FILE_MAX }
    requires lawful { IsLawfulSaved (checked_plan checked.now) saved.now }
{
    let run = Totals::new(alloc).take(alloc, checked, saved)?;
    let text = Totals::new(alloc).take_text(alloc, checked, bytes, saved.first);
    match (run, text) {
        (Taken::Done(one), Ok(TakenText::Done { totals, next })) => {
            let other = groups_differ(alloc, totals.groups(), one.groups())?;
            Ok(next == saved.next && other.is_none())
        }
        (Taken::Gap { group: one }, Ok(TakenText::Gap { group })) => Ok(one == group),
        _ => Ok(false),
    }
}

/// How reading these bytes is refused; `Wrong` where taking them isn't refused so.
fn refused(
    alloc: Global,
    checked: &Checked,
    bytes: &[u8],
    answer: Answer,
) -> Result<Answer, NoMemory>
    requires { length bytes.now ≤ limit.FILE_MAX }
{
    let taken = match Totals::new(alloc).take_text(alloc, checked, bytes, 1) {
        Ok(_) => Answer::Wrong,
        Err(SavedErr::OtherScript) => Answer::OtherScript,
        Err(SavedErr::Malformed) => Answer::Malformed,
        Err(SavedErr::NoMemory) => return Err(NoMemory),
    };
    if taken == answer {
        Ok(answer)
    } else {
        Ok(Answer::Wrong)
    }
}

fn answer_to(
    alloc: Global,
    checked: &Checked,
    bytes: &[u8],
    saved: &Saved,
) -> Result<Answer, NoMemory>
    requires size { length bytes.now ≤ limit.FILE_MAX }
    requires lawful { IsLawfulSaved (checked_plan checked.now) saved.now }
{
    let again = write_saved(alloc, checked, saved)?;
    let alike = is_taken_alike(alloc, checked, bytes, saved)?;
    if alike && again.as_slice() == bytes {
        Ok(Answer::Read)
    } else {
        Ok(Answer::Wrong)
    }
}

/// What reading these bytes comes to; `Wrong` where taking them comes to something else.
pub(crate) fn answer_of(
    alloc: Global,
    checked: &Checked,
    bytes: &[u8],
) -> Result<Answer, NoMemory> {
    if bytes.len() > 100_000 {
        return Ok(Answer::Wrong);
    }
    match read_saved(alloc, checked, bytes) {
        Ok(saved) => {
            if saved.is_lawful(checked) {
                answer_to(alloc, checked, bytes, &saved)
            } else {
                Ok(Answer::Wrong)
            }
        }
        Err(SavedErr::OtherScript) => refused(alloc, checked, bytes, Answer::OtherScript),
        Err(SavedErr::Malformed) => refused(alloc, checked, bytes, Answer::Malformed),
        Err(SavedErr::NoMemory) => Err(NoMemory),
    }
}

/// The saved run of the script's file that goes on with these bytes; `None` where it is refused.
pub(crate) fn saved_of(
    alloc: Global,
    checked: &Checked,
    body: &[u8],
) -> Result<Option<Saved>, NoMemory> {
    let bytes = file_of(alloc, checked, body)?;
    if bytes.len() > 100_000 {
        return Ok(None);
    }
    match read_saved(alloc, checked, &bytes) {
        Ok(saved) => Ok(Some(saved)),
        Err(SavedErr::OtherScript | SavedErr::Malformed) => Ok(None),
        Err(SavedErr::NoMemory) => Err(NoMemory),
    }
}
