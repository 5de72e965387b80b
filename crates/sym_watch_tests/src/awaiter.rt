//! An observer that compares partials with reports that it is given.
use crate::comparer::{Noted, text_of};
use std::alloc::{AllocError, Global};
use std::sync::Arc;
use sym_base::NoMemory;
use sym_watch::{Observer, Partial};

/// Notes whether each partial that it is told of has the border that is wanted at its place, and the
/// rows of the report that is wanted there, in the form `table`.
#[derive(Drop)]
pub(crate) struct Awaiter {
    borders: Vec<u64>,
    reports: Vec<Vec<u8>>,
    told: usize,
    last: Option<u64>,
    noted: Arc<Noted>,
}

/// An observer that was told of nothing, and wants these borders, each with a report.
pub(crate) fn awaiter_of(
    borders: Vec<u64>,
    reports: Vec<Vec<u8>>,
    noted: &Arc<Noted>,
) -> Result<Awaiter, AllocError> {
    Ok(Awaiter {
        borders,
        reports,
        told: 0,
        last: None,
        noted: Arc::clone(noted)?,
    })
}

// What follows the first line of a report: its rows, and its last line.
fn after_names(report: &[u8]) -> &[u8] {
    'bytes: for (place, byte) in report.iter().enumerate() {
        if *byte == b'\n' {
            return report.get(place.saturating_add(1)..).unwrap_or(&[]);
        }
    }
    &[]
}

// Whether the partial has this border and the rows of this report.
fn is_wanted(
    alloc: Global,
    border: Option<&u64>,
    report: Option<&Vec<u8>>,
    partial: &Partial,
) -> Result<bool, NoMemory> {
    match (border, report) {
        (Some(border), Some(report)) => {
            let mut text = text_of(alloc, partial.rows.as_slice())?;
            text.extend_from_slice(b"--\n")?;
            Ok(partial.upto == *border && text.as_slice() == after_names(report.as_slice()))
        }
        _ => Ok(false),
    }
}

impl Observer for Awaiter {
    ghost use Rattle.std.specs.Prelude.{None};

    ghost log = { λ _. None };

    ghost last = { λ a. a.last };

    fn tell(&mut self, alloc: Global, partial: &Partial) -> Result<(), NoMemory> {
        let border = self.borders.get(self.told);
        let report = self.reports.get(self.told);
        let is_right = is_wanted(alloc, border, report, partial)?;
        self.noted.note(is_right);
        self.told = self.told.wrapping_add(1);
        self.last = Some(partial.upto);
        Ok(())
    }

    fn last(&self) -> Option<u64> {
        self.last
    }
}
