//! The top call as the program makes it.
use std::alloc::Global;
use std::sync::Wait;
use std::thread::Threads;
use sym_base::{MemSink, MemStore, NoMemory};
use sym_engine::{Free, OpenGate};
use sym_report::{CsvForm, PairsForm, ReportForm, TableForm};
use sym_top::{Status, symple};
use sym_watch::Observer;

/// No observers.
pub fn no_observers(alloc: Global) -> Vec<Box<dyn Observer + Send>> {
    Vec::new(alloc)
}

/// The top call, with the forms and the gate of the program, and no observers. It has no clause,
/// since proofs beside the long contract of the top call are slow.
pub fn call<T: Threads + Wait + Sync>(
    rt: &T,
    alloc: Global,
    words: &Vec<String>,
    store: &mut MemStore,
    out: &mut MemSink,
    err: &mut MemSink,
) -> Result<Status, NoMemory> {
    let table: Box<dyn ReportForm> = Box::new(alloc, TableForm::new(alloc))?;
    let csv: Box<dyn ReportForm> = Box::new(alloc, CsvForm::new(alloc))?;
    let pairs: Box<dyn ReportForm> = Box::new(alloc, PairsForm::new(alloc))?;
    let forms = Vec::from_array(alloc, [table, csv, pairs])?;
    let mut observers = no_observers(alloc);
    let gate = OpenGate { hold: Free };
    Ok(symple(
        rt,
        alloc,
        words,
        store,
        out,
        err,
        forms,
        &mut observers,
        &gate,
    ))
}
