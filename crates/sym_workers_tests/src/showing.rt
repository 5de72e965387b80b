//! Gates that have the run of each round made and then applied: one that shows every row as the one
//! field `b`, and one that shows each row as it is.
ghost use Rattle.std.specs.Prelude.{◌≡◌, IfOk, replicate};
ghost use Rattle.sym_files.specs.Rounds.{shown_chunk, shown_chunks};
ghost use Rattle.sym_workers_tests.specs.Showing.{row_b, shows_b};

use std::alloc::Global;
use std::sync::Wait;
use std::thread::Threads;
use sym_base::NoMemory;
use sym_engine::{Free, Gate, OpenGate, Work, round};
use sym_run::Run;
use sym_table::{Chunk, Chunks, Row, Rows};

/// Shows every row as the one field `b`.
pub(crate) struct ShowsB;

// So many rows.
fn rows_b(alloc: Global, count: usize) -> Result<Rows, NoMemory>
    ensures { IfOk result (λ rows. rows ≡ replicate count row_b) }
{
    let row = Row::from_fields(alloc, &[b"b"])?;
    let mut rows = Rows::new(alloc);
    'rows: for _row in 0..count {
        rows.push(&row)?;
    }
    Ok(rows)
}

// The chunk as it is shown.
fn chunk_b(alloc: Global, chunk: &Chunk) -> Result<Chunk, NoMemory>
    ensures { IfOk result (λ shown. shown ≡ shown_chunk shows_b chunk.now) }
{
    Ok(Chunk {
        first_no: chunk.first_no,
        header: chunk.header.copy(alloc)?,
        rows: rows_b(alloc, chunk.rows.len())?,
    })
}

// The chunks as they are shown.
fn chunks_b(alloc: Global, chunks: &[Chunk]) -> Result<Chunks, NoMemory>
    ensures { IfOk result (λ shown. shown ≡ shown_chunks shows_b chunks.now) }
{
    let mut shown = Chunks::new(alloc);
    'chunks: for chunk in chunks {
        let next = chunk_b(alloc, chunk)?;
        shown.push(next)?;
    }
    Ok(shown)
}

impl Gate for ShowsB {
    ghost shown = { λ _. shows_b };

    fn enter(&self, _worker: u32, _chunk: u32) {}

    fn work_round<T: Threads + Wait + Sync>(
        &self,
        rt: &T,
        alloc: Global,
        work: &Work,
        workers: u32,
    ) -> Result<Run, NoMemory> {
        let shown = Work {
            checked: work.checked.copy(alloc)?,
            chunks: chunks_b(alloc, work.chunks.as_slice())?,
            limit: work.limit,
        };
        round(rt, alloc, &shown, workers, &OpenGate { hold: Free })
    }
}

/// The program's gate, but that the run of each round is made and then applied.
pub(crate) struct Joins;

impl Gate for Joins {
    ghost shown = { λ _ row. row };

    fn enter(&self, _worker: u32, _chunk: u32) {}

    fn work_round<T: Threads + Wait + Sync>(
        &self,
        rt: &T,
        alloc: Global,
        work: &Work,
        workers: u32,
    ) -> Result<Run, NoMemory> {
        let open = OpenGate { hold: Free };
        open.work_round(rt, alloc, work, workers)
    }
}
