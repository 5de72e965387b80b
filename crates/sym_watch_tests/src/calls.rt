//! The top call with observers, over logs of one user.
use std::alloc::Global;
use std::sync::Wait;
use std::thread::Threads;
use sym_base::{MemSink, MemStore, NoMemory};
use sym_engine::Gate;
use sym_report::{ReportForm, TableForm};
use sym_top::{Status, symple};
use sym_watch::Observer;

/// A log of so many records of the user `a`, of which one, counted from 0, has two fields.
pub(crate) fn log_of(
    alloc: Global,
    records: usize,
    bad: Option<usize>,
) -> Result<String, NoMemory> {
    let mut log = String::from_str(alloc, "user\n")?;
    'records: for record in 0..records {
        let row = if bad == Some(record) { "a,b\n" } else { "a\n" };
        log.push_str(row)?;
    }
    Ok(log)
}

/// What a call came to.
#[derive(Drop)]
pub(crate) struct Ended {
    pub(crate) status: Status,
    pub(crate) out: MemSink,
    pub(crate) err: MemSink,
}

/// The top call, with the form `table`. No other function makes it, since proofs beside its long
/// contract are slow.
pub(crate) fn call<T: Threads + Wait + Sync, G: Gate + Sync>(
    rt: &T,
    alloc: Global,
    words: &Vec<String>,
    store: &mut MemStore,
    observers: &mut Vec<Box<dyn Observer + Send>>,
    gate: &G,
) -> Result<Ended, NoMemory> {
    let table: Box<dyn ReportForm> = Box::new(alloc, TableForm::new(alloc))?;
    let forms = Vec::from_array(alloc, [table])?;
    let mut out = MemSink::new(alloc, 100);
    let mut err = MemSink::new(alloc, 100);
    let status = symple(
        rt, alloc, words, store, &mut out, &mut err, forms, observers, gate,
    );
    Ok(Ended { status, out, err })
}
