//! The program `symple`: one command, from its words to its report on standard output.
#![tactic(auto)]

ghost use Rattle.std.specs.Prelude.{◌≡◌, ◌⊎◌, [], IfOk, OnErr};
ghost use Rattle.std.specs.List.{All, AllZip};
ghost use Rattle.std.specs.Process.{exit_status};
ghost use Rattle.sym_message.specs.Statuses.{exit_number};
ghost use Rattle.sym_top.specs.Observers.{IsUnwatched};
ghost use Rattle.sym_top.specs.Promises.{IsRefused, IsReported, IsUnwritten};
ghost use Rattle.sym_top.specs.TopCall.{IsCarriedOut};
ghost use Rattle.symple.specs.Program.{LeavesAll, NotBegun, RefusesSome, WroteSome, called_with, program_forms, streamed};

mod disk;
mod interrupts;
mod progress;
mod stream;

use crate::disk::DiskStore;
use crate::progress::Progress;
use crate::stream::StreamSink;
use std::alloc::{AllocError, Global};
use std::env;
use std::io::{ErrorKind, Write};
use std::process::ExitCode;
use std::rt::{Env, Files};
use std::sync::Wait;
use std::thread::Threads;
use sym_base::NoMemory;
use sym_engine::{Free, OpenGate};
use sym_report::{CsvForm, PairsForm, ReportForm, TableForm};
use sym_top::{StartErr, Status, refuse_start, symple};
use sym_watch::Observer;

// Bytes of a large piece of memory: as large as the C library still learns from.
const LARGE_PIECE: usize = (32 << 20) - (64 << 10);

fn main(rt: HostRuntime) -> ExitCode {
    keep_freed_memory(rt.alloc());
    let mut err = StreamSink::new(rt.stderr());
    let Ok(mut files) = DiskStore::new(rt.alloc(), &rt) else {
        return exit_code(refuse_start(&mut err, StartErr::NoMemory));
    };
    let mut out = StreamSink::new(rt.stdout());
    let progress = Progress::new(rt.stderr());
    exit_code(run(&rt, &mut files, &mut out, &mut err, progress))
}

// What the process ends with.
fn exit_code(status: Status) -> ExitCode
    ensures { exit_status result ≡ exit_number status }
{
    ExitCode::from(status.number())
}

// Takes a large piece of memory and gives it back, untouched. The C library then hands back to the
// system only what is larger than that, so that a round finds the memory of the one before it, and the
// system needn't clear it again.
fn keep_freed_memory(alloc: Global) {
    let large: Result<Vec<u8>, AllocError> = Vec::with_capacity(alloc, LARGE_PIECE);
    drop(large);
}

// Carries out the command of this process's arguments, of which contracts know nothing: so there
// are arguments by which the report was written, or the command refused.
fn run<R, O, E>(
    rt: &R,
    files: &mut DiskStore<'_, R>,
    out: &mut StreamSink<O>,
    err: &mut StreamSink<E>,
    progress: Progress,
) -> Status
where
    R: Files + Env + Threads + Wait + AllocGlobal + Sync,
    O: Write,
    E: Write,
    ensures reported { IsReported result →
        WroteSome files.old files.new (streamed out.old out.new) result }
    ensures refused { let err = streamed err.old err.new in
        IsRefused result → NotBegun err result
        ⊎ RefusesSome files.old files.new (streamed out.old out.new) err result }
    ensures unread { result ≡ Status.Usage → files.new ≡ files.old }
    ensures unwritten { IsUnwritten result → out.new ≡ out.old }
    ensures memory { result ≡ Status.NoMemory → out.new ≡ out.old }
    ensures quiet { IsReported result → err.new ≡ err.old }
{
    let words = match words_of(rt) {
        Ok(words) => words,
        Err(why) => return refuse_start(err, why),
    };
    match carry_out(rt, rt.alloc(), &words, files, out, err, progress) {
        Ok(status) => status,
        Err(_) => refuse_start(err, StartErr::NoMemory),
    }
}

// Carries out the command of these arguments, with the forms `table`, `csv` and `pairs`, in this
// order, and one observer, which shows how far a run has come. After an `Err`, for which an
// allocation has failed, nothing was read, written or told.
fn carry_out<T, R, O, E>(
    rt: &T,
    alloc: Global,
    words: &Vec<String>,
    files: &mut DiskStore<'_, R>,
    out: &mut StreamSink<O>,
    err: &mut StreamSink<E>,
    progress: Progress,
) -> Result<Status, NoMemory>
where
    T: Threads + Wait + Sync,
    R: Files,
    O: Write,
    E: Write,
    ensures carried { let call = called_with words.now.items files.old files.new in
        let out = streamed out.old out.new in
        let err = streamed err.old err.new in
        IfOk result (IsCarriedOut call out err) }
    ensures leaves { let call = called_with words.now.items files.old files.new in
        IfOk result (LeavesAll call files.old files.new out.old out.new err.old err.new) }
    ensures unread_err { OnErr result (files.new ≡ files.old) }
    ensures unwritten_err { OnErr result (out.new ≡ out.old) }
    ensures quiet_err { OnErr result (err.new ≡ err.old) }
{
    let table: Box<dyn ReportForm> = Box::new(alloc, TableForm::new(alloc))?;
    let csv: Box<dyn ReportForm> = Box::new(alloc, CsvForm::new(alloc))?;
    let pairs: Box<dyn ReportForm> = Box::new(alloc, PairsForm::new(alloc))?;
    let forms = Vec::from_array(alloc, [table, csv, pairs])?;
    let observer: Box<dyn Observer + Send> = Box::new(alloc, progress)?;
    let mut observers = Vec::from_array(alloc, [observer])?;
    Ok(carry_out_with(rt, alloc, words, files, out, err, forms, &mut observers))
}

// Carries out the command of these arguments with these forms, which are the program's, and a gate
// that shows each row as it is and holds no worker up.
fn carry_out_with<T, R, O, E>(
    rt: &T,
    alloc: Global,
    words: &Vec<String>,
    files: &mut DiskStore<'_, R>,
    out: &mut StreamSink<O>,
    err: &mut StreamSink<E>,
    forms: Vec<Box<dyn ReportForm>>,
    observers: &mut Vec<Box<dyn Observer + Send>>,
) -> Status
where
    T: Threads + Wait + Sync,
    R: Files,
    O: Write,
    E: Write,
    requires forms { AllZip (λ f form. (called f ≡ form.name) × (texts f ≡ form.texts))
        forms.items program_forms }
    requires empty { All (λ f. gathered f ≡ []) forms.items }
    ensures carried { let call = called_with words.now.items files.old files.new in
        let out = streamed out.old out.new in
        let err = streamed err.old err.new in
        IsCarriedOut call out err result }
    ensures leaves { let call = called_with words.now.items files.old files.new in
        LeavesAll call files.old files.new out.old out.new err.old err.new result }
    ensures unwatched { let call = called_with words.now.items files.old files.new in
        IsUnwatched call → observers.new ≡ observers.old }
{
    let gate = OpenGate { hold: Free };
    symple(rt, alloc, words, files, out, err, forms, observers, &gate)
}

// The arguments after the program's name. Where one of them isn't UTF-8 there is no such command.
fn words_of<R: Env + AllocGlobal>(rt: &R) -> Result<Vec<String>, StartErr> {
    let words = match env::args(rt) {
        Ok(words) => words,
        Err(error) if error.kind() == ErrorKind::OutOfMemory => return Err(StartErr::NoMemory),
        Err(_) => return Err(StartErr::NotUtf8),
    };
    match words.skip(1).collect(rt.alloc()) {
        Ok(words) => Ok(words),
        Err(_) => Err(StartErr::NoMemory),
    }
}
