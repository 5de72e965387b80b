//! An observer that compares the rows of each partial with those that are wanted.
use crate::groups::wanted_at;
use std::alloc::{AllocError, Global};
use std::sync::Arc;
use std::sync::atomic::{AtomicU64, Ordering};
use sym_base::{NoMemory, Texts};
use sym_report::{Heads, ReportForm, Row, TableForm};
use sym_watch::{Observer, Partial};

/// A partial that is wanted: its border, and its rows in the form `table`.
#[derive(Clone, Copy)]
pub(crate) struct Told(pub(crate) u64, pub(crate) &'static str);

/// How many partials an observer was told of, and how many of them were those that were wanted.
#[derive(Drop)]
pub(crate) struct Noted {
    told: AtomicU64,
    right: AtomicU64,
}

impl Noted {
    /// Nothing is noted.
    pub(crate) fn new() -> Noted {
        Noted {
            told: AtomicU64::new(0),
            right: AtomicU64::new(0),
        }
    }

    /// How many there were, and how many of them were right.
    pub(crate) fn seen(&self) -> (u64, u64) {
        (
            self.told.load(Ordering::SeqCst),
            self.right.load(Ordering::SeqCst),
        )
    }

    /// One more, which is right or isn't.
    pub(crate) fn note(&self, is_right: bool) {
        let _told = self.told.fetch_add(1, Ordering::SeqCst);
        if is_right {
            let _right = self.right.fetch_add(1, Ordering::SeqCst);
        }
    }
}

/// Notes whether each partial that it is told of is the one that is wanted at its place, of the case
/// with this number. It keeps none: the prover can't see that a type which holds a report row, or
/// borrows, is made a `dyn`.
#[derive(Drop)]
pub(crate) struct Comparer {
    case: usize,
    told: usize,
    last: Option<u64>,
    noted: Arc<Noted>,
}

/// An observer that was told of nothing.
pub(crate) fn comparer_of(case: usize, noted: &Arc<Noted>) -> Result<Comparer, AllocError> {
    Ok(Comparer {
        case,
        told: 0,
        last: None,
        noted: Arc::clone(noted)?,
    })
}

/// The rows in the form `table`, without names and end.
pub(crate) fn text_of(alloc: Global, rows: &[Row]) -> Result<Vec<u8>, NoMemory> {
    let heads = Heads {
        keys: Texts::new(alloc),
        columns: Texts::new(alloc),
    };
    let mut form = TableForm::new(alloc);
    'rows: for row in rows {
        form.row(alloc, &heads, row)?;
    }
    Ok(form.into_bytes())
}

// Whether it is the partial that is wanted, if one is.
fn is_wanted(alloc: Global, wanted: Option<&Told>, partial: &Partial) -> Result<bool, NoMemory> {
    match wanted {
        Some(Told(upto, rows)) => {
            let text = text_of(alloc, partial.rows.as_slice())?;
            Ok(partial.upto == *upto && text.as_slice() == rows.as_bytes())
        }
        None => Ok(false),
    }
}

impl Observer for Comparer {
    ghost use Rattle.std.specs.Prelude.{None};

    ghost log = { λ _. None };

    ghost last = { λ k. k.last };

    fn tell(&mut self, alloc: Global, partial: &Partial) -> Result<(), NoMemory> {
        let is_right = is_wanted(alloc, wanted_at(self.case, self.told), partial)?;
        self.noted.note(is_right);
        self.told = self.told.wrapping_add(1);
        self.last = Some(partial.upto);
        Ok(())
    }

    fn last(&self) -> Option<u64> {
        self.last
    }
}
