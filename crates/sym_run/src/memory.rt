//! Memory that is used again for each row.

use crate::covers::Exploring;
use std::alloc::Global;
use sym_base::{Fields, Key, Record, Values};
use sym_plain::Buffers;

/// What the records that are taken use again.
#[derive(Drop)]
pub(crate) struct Taking {
    pub(crate) exploring: Exploring,
    pub(crate) buffers: Buffers,
    /// How many keys there were whose kept records had no segment that was worth it.
    pub(crate) failed: u32,
    /// How many groups there are.
    pub(crate) groups: usize,
}

impl Taking {
    /// Nothing yet. It takes no memory.
    pub(crate) fn new(alloc: Global) -> Taking {
        Taking {
            exploring: Exploring::new(alloc),
            buffers: Buffers::new(alloc),
            failed: 0,
            groups: 0,
        }
    }
}

/// Memory that is used again for each row.
#[derive(Drop)]
pub(crate) struct Memory {
    pub(crate) key: Key,
    pub(crate) rec: Record,
    pub(crate) taking: Taking,
}

impl Memory {
    /// None of it. It takes no memory.
    pub(crate) fn new(alloc: Global) -> Memory {
        Memory {
            key: Key {
                values: Values::new(alloc),
            },
            rec: Record {
                no: 0,
                fields: Fields::new(alloc),
            },
            taking: Taking::new(alloc),
        }
    }
}
