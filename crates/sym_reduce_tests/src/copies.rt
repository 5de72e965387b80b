//! Copies of totals, and of what taking a saved run comes to.
ghost use Rattle.std.specs.Prelude.{◌≤◌, length};
ghost use Rattle.sym_base.specs.declared.limits.TheConstants as limit;

use std::alloc::Global;
use std::test::Fail;
use sym_base::NoMemory;
use sym_check::Checked;
use sym_file::{SavedErr, Taken, TakenText, Totals, read_saved};
use sym_given::saved::{FROM_ONE, KEPT, NONE, THREE, TWO};
use sym_given::{Row, check_rows, difference, group_text};

/// A text of a saved run of `KEPT`, and what copies say of taking it to no totals: as it is, where its
/// first record has to have the number 1, and once it is read.
struct Copied(&'static str, &'static str);

// The groups, as a text.
fn totals_text(alloc: Global, totals: &Totals) -> Result<String, NoMemory> {
    let mut text = String::new(alloc);
    'groups: for place in 0..totals.len() {
        if let Some((key, outcome)) = totals.at(place) {
            text.push_str(group_text(alloc, key, outcome)?.as_str())?;
            text.push_str("; ")?;
        }
    }
    Ok(text)
}

fn run_text(alloc: Global, taken: &Taken) -> Result<String, NoMemory> {
    match taken {
        Taken::Done(totals) => totals_text(alloc, &totals.copy(alloc)?),
        Taken::Gap { group } => Ok(format!(in alloc; "no path for {group}")?),
    }
}

fn taken_text(alloc: Global, taken: &TakenText) -> Result<String, NoMemory> {
    match taken {
        TakenText::Done { totals, next } => {
            let groups = totals_text(alloc, &totals.copy(alloc)?)?;
            Ok(format!(in alloc; "{groups}next {next}")?)
        }
        TakenText::Apart => Ok(String::from_str(alloc, "apart")?),
        TakenText::Gap { group } => Ok(format!(in alloc; "no path for {group}")?),
    }
}

// What a copy of taking a text as it is says, and one of taking the run that is read of it.
fn copies_said(alloc: Global, checked: &Checked, bytes: &[u8]) -> Result<String, SavedErr>
    requires { length bytes.now ≤ limit.FILE_MAX }
{
    let taken = Totals::new(alloc).take_text(alloc, checked, bytes, 1)?;
    let text = taken_text(alloc, &taken.copy(alloc)?)?;
    let saved = read_saved(alloc, checked, bytes)?;
    let taken = Totals::new(alloc).take(alloc, checked, &saved)?;
    let run = run_text(alloc, &taken.copy(alloc)?)?;
    Ok(format!(in alloc; "{text}, {run}")?)
}

impl Row for Copied {
    fn differs(&self, alloc: Global, checked: &Checked) -> Result<Option<String>, NoMemory> {
        let bytes = self.0.as_bytes();
        if bytes.len() > 1_000 {
            return difference(alloc, &bytes.len(), &1_000);
        }
        match copies_said(alloc, checked, bytes) {
            Ok(said) => difference(alloc, &said.as_str(), &self.1),
            Err(why) => Ok(Some(format!(in alloc; "found {why:?}, wanted {}", self.1)?)),
        }
    }
}

const COPIES: [Copied; 4] = [
    Copied(TWO, "[]: 0; next 3, []: 0; "),
    Copied(NONE, "next 1, "),
    Copied(THREE, "apart, []: 0; "),
    Copied(FROM_ONE, "no path for 0, no path for 0"),
];

#[test]
fn copies_say_the_same(rt: HostRuntime) -> Result<(), Fail> {
    check_rows(rt.alloc(), KEPT, &COPIES)
}
