//! What workers tell of the chunks that they claim.
use std::alloc::Global;
use std::sync::atomic::{AtomicBool, AtomicU64, Ordering};
use sym_base::NoMemory;
use sym_shuffle::Enter;

/// Of each chunk how many times it was claimed.
#[derive(Drop)]
pub(crate) struct Noted {
    workers: u32,
    claims: Vec<AtomicU64>,
    // Whether there is no such chunk or no such worker.
    is_strange: AtomicBool,
}

impl Noted {
    /// No claims of so many chunks by so many workers.
    pub(crate) fn new(alloc: Global, workers: u32, chunks: usize) -> Result<Noted, NoMemory> {
        let mut claims = Vec::new(alloc);
        'chunks: for _chunk in 0..chunks {
            claims.push(AtomicU64::new(0))?;
        }
        Ok(Noted {
            workers,
            claims,
            is_strange: AtomicBool::new(false),
        })
    }

    /// The first chunk that wasn't claimed once, with its claims. Where some may be left out, no
    /// chunk is claimed twice.
    pub(crate) fn first_wrong(&self, may_lack: bool) -> Option<(usize, u64)> {
        'chunks: for (chunk, claim) in self.claims.iter().enumerate() {
            let times = claim.load(Ordering::SeqCst);
            if times == 0 && may_lack {
                continue;
            }
            if times != 1 {
                return Some((chunk, times));
            }
        }
        None
    }

    /// Whether a chunk or a worker was told of that there isn't.
    pub(crate) fn is_strange(&self) -> bool {
        self.is_strange.load(Ordering::SeqCst)
    }
}

impl Enter for Noted {
    fn enter(&self, worker: u32, chunk: u32) {
        match self.claims.get(chunk as usize) {
            Some(claim) if worker < self.workers => {
                claim.fetch_add(1, Ordering::SeqCst);
            }
            _ => self.is_strange.store(true, Ordering::SeqCst),
        }
    }
}
