//! An observer that notes what it is told of.
use std::alloc::{AllocError, Global};
use std::sync::Arc;
use std::sync::atomic::{AtomicU64, AtomicUsize, Ordering};
use sym_base::{Column, NoMemory};
use sym_report::{Row, RowBody};
use sym_watch::{Observer, Partial};

/// What is noted in place of the border of a partial that hasn't the rows of so many records.
const WRONG: u64 = u64::MAX;

/// The first six borders that an observer was told of, in order.
#[derive(Drop)]
pub(crate) struct Borders {
    count: AtomicUsize,
    noted: [AtomicU64; 6],
}

impl Borders {
    /// None.
    pub(crate) fn none() -> Borders {
        Borders {
            count: AtomicUsize::new(0),
            noted: [
                AtomicU64::new(0),
                AtomicU64::new(0),
                AtomicU64::new(0),
                AtomicU64::new(0),
                AtomicU64::new(0),
                AtomicU64::new(0),
            ],
        }
    }

    /// The borders, and 0 after the last one.
    pub(crate) fn told(&self) -> [u64; 6] {
        let mut told = [0; 6];
        'places: for place in 0..6 {
            told[place] = self.noted[place].load(Ordering::SeqCst);
        }
        told
    }

    // One more.
    fn note(&self, border: u64) {
        let place = self.count.fetch_add(1, Ordering::SeqCst);
        if place < 6 {
            self.noted[place].store(border, Ordering::SeqCst);
        }
    }
}

/// Notes the borders that it is told of, and refuses those from one on.
#[derive(Drop)]
pub(crate) struct Noter {
    told: Arc<Borders>,
    last: Option<u64>,
    refused: u64,
}

// Whether it is the key of the group `a`.
fn is_a(keys: &[Column]) -> bool {
    match keys {
        [Column::Word(text)] => text.as_bytes() == b"a".as_slice(),
        _ => false,
    }
}

// Whether they are so many records.
fn is_body(body: &RowBody, count: u64) -> bool {
    match body {
        RowBody::Columns(columns) => columns.as_slice()
            == [Column::Num(i128::from(count))].as_slice(),
        RowBody::Over { .. } | RowBody::Arith { .. } => false,
    }
}

// Whether it is the one row of the group `a`, of so many records.
fn is_count(rows: &[Row], count: u64) -> bool {
    match rows {
        [row] => is_a(row.keys.as_slice()) && is_body(&row.body, count),
        _ => false,
    }
}

impl Observer for Noter {
    ghost use Rattle.std.specs.Prelude.{None};

    ghost log = { λ _. None };

    ghost last = { λ o. o.last };

    fn tell(&mut self, _alloc: Global, partial: &Partial) -> Result<(), NoMemory> {
        if partial.upto >= self.refused {
            return Err(NoMemory);
        }
        if is_count(partial.rows.as_slice(), partial.upto) {
            self.told.note(partial.upto);
        } else {
            self.told.note(WRONG);
        }
        self.last = Some(partial.upto);
        Ok(())
    }

    fn last(&self) -> Option<u64> {
        self.last
    }
}

/// An observer that notes here.
pub(crate) fn noter_into(told: &Arc<Borders>, refused: u64) -> Result<Noter, AllocError> {
    Ok(Noter {
        told: Arc::clone(told)?,
        last: None,
        refused,
    })
}
