//! Where groups are cut for several threads, so that each has about as many records.

use crate::batch::Batch;
use std::alloc::Global;
use sym_base::NoMemory;

// So many places of a batch are looked at.
const SAMPLE: usize = 64;

// With fewer records for each thread, starting one costs more than it gains.
const RECORDS_A_THREAD: usize = 512;

// Some places of each batch, in order of size.
fn sampled(alloc: Global, batches: &[Batch]) -> Result<Vec<usize>, NoMemory> {
    let mut sample = Vec::new(alloc);
    'batches: for batch in batches {
        let count = batch.places.len();
        let apart = count / SAMPLE + 1;
        'places: for index in 0..SAMPLE {
            if let Some(place) = batch.places.get(index.saturating_mul(apart)) {
                sample.push(*place)?;
            }
        }
    }
    sample.sort_unstable();
    Ok(sample)
}

// How many records batches have.
fn records_of(batches: &[Batch]) -> usize {
    let mut records: usize = 0;
    'batches: for batch in batches {
        records = records.saturating_add(batch.places.len());
    }
    records
}

/// Where the groups are cut for at most so many threads: one place less than there are threads. About
/// as many records belong between any two, but a group with more has a thread of its own. What the
/// records make of the groups doesn't depend on it.
pub(crate) fn bounds_of(
    alloc: Global,
    batches: &[Batch],
    workers: u32,
) -> Result<Vec<usize>, NoMemory> {
    let enough = records_of(batches) / RECORDS_A_THREAD;
    let threads = (workers as usize).min(enough);
    let sample = sampled(alloc, batches)?;
    let mut bounds = Vec::new(alloc);
    let mut least: usize = 0;
    'bounds: for number in 1..threads {
        if let Some(place) = sample.get(number.saturating_mul(sample.len()) / threads) {
            let bound = least.max(*place);
            bounds.push(bound)?;
            least = bound.saturating_add(1);
        }
    }
    Ok(bounds)
}
