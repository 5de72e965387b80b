//! The top call.
ghost use Rattle.std.specs.Prelude.{◌≡◌, ◌≤◌, ℕ, List, [], map};
ghost use Rattle.std.specs.List.{All};
ghost use Rattle.std.specs.String.{string_bytes};
ghost use Rattle.sym_command.specs.Commands.{texts_of};
ghost use Rattle.sym_message.specs.Telling.{Later, sunk};
ghost use Rattle.sym_top.specs.Headline.{FineRun, IsOnePass};
ghost use Rattle.sym_top.specs.Observers.{AreTold, logs_of};
ghost use Rattle.sym_top.specs.Promises.{Unless, call_with};
ghost use Rattle.sym_top.specs.TopCall.{IsCarriedOut, Leaves};

use crate::ends::{finish, refuse};
use crate::output::no_command;
use crate::prepare::prepare;
use std::alloc::Global;
use std::sync::Wait;
use std::thread::Threads;
use sym_base::{Sink, Store};
use sym_command::read_words;
use sym_engine::Gate;
use sym_message::{Refusal, Status};
use sym_report::ReportForm;
use sym_watch::Observer;

/// Runs the program on these arguments, `words`, which are those after its name.
///
/// `run [--form NAME] [--chunk N] [--limit N] [--workers N] [--max-bytes N] [--watch] SCRIPT
/// FILE...` runs the script over the records of the files, in order, and writes the report to `out`.
/// The script has at most 65,536 bytes, and there are at most 65,536 files. What is refused is told
/// on `err`, in one line. With `--watch` the observers are told, after each round of records, of the
/// report rows over all records so far; without it, and by all other commands, of nothing.
///
/// `trace [--every N]`, with the options, the script and the files of `run`, writes how the group
/// of a record stands after that record, for each record whose number N divides: a row as a report
/// has it, with the record's number before it, under the name `record`. Its rows go to the form
/// round by round.
///
/// `map [--first N] [--chunk N] [--limit N] [--workers N] [--max-bytes N] SCRIPT FILE...` writes what
/// the records of the files do to each group, as a text; they are numbered from N on, by default from
/// 1. `reduce [--form NAME] [--max-bytes N] SCRIPT FILE...` takes files of such texts, whose records
/// follow each other from 1 on, and writes the report of all of them. `join [--limit N]
/// [--max-bytes N] SCRIPT FILE...` takes files of such texts, whose records follow each other from
/// any number on, and writes one such text of all of them.
///
/// Options may stand anywhere, each at most once. The form is `table`. A number is 1 to 10 digits:
///
/// - `--every`, which records have a row: 1 to 1,000,000, by default 1;
/// - `--first`, the number of the first record: 1 to 9,999,999,999, by default 1;
/// - `--chunk`, the rows of a chunk: 1 to 65,536, by default 3,072;
/// - `--limit`, the path limit: 1 to 256, by default 16;
/// - `--workers`, the workers of a round: 1 to 64, by default 4;
/// - `--max-bytes`, the most bytes of each file: 1 to 268,435,456, by default 67,108,864.
///
/// No report depends on the chunk, the limit or the workers. The records of files, and of the log
/// that `make` makes, are worked on round by round by `gate`, which may start threads of `rt`, and
/// each row but the header is read as the gate shows it. A trace starts threads of `rt` itself, and
/// reads rows as they are.
///
/// The order is: arguments, the script's reading, its size, the script, then of each file its
/// reading, its size, its header and its first row that is no record, then the writing. A read that
/// fails stops the run. Nothing is written to `out` before the whole report is made. A failure of
/// `err` leaves the status as it is.
pub fn symple<T: Threads + Wait + Sync, F: Store, O: Sink, E: Sink, G: Gate + Sync>(
    rt: &T,
    alloc: Global,
    words: &Vec<String>,
    files: &mut F,
    out: &mut O,
    err: &mut E,
    forms: Vec<Box<dyn ReportForm>>,
    observers: &mut Vec<Box<dyn Observer + Send>>,
    gate: &G,
) -> Status
    requires { All (λ f. gathered f ≡ []) forms.items }
    ensures headline { let call = call_with (map string_bytes words.now.items) (λ f. called f)
        (λ f. texts f) forms.items (G.shown gate.now) F.holds F.faults files.old files.new in
        let out = sunk O.written O.faults O.short out.old out.new in
        let err = sunk E.written E.faults E.short err.old err.new in
        (fine : FineRun call) → let form = texts_of call.asked.forms fine.run.form in
        Unless result (IsOnePass form fine.program fine.records out err result) }
    ensures carried { let call = call_with (map string_bytes words.now.items) (λ f. called f)
        (λ f. texts f) forms.items (G.shown gate.now) F.holds F.faults files.old files.new in
        let out = sunk O.written O.faults O.short out.old out.new in
        let err = sunk E.written E.faults E.short err.old err.new in
        IsCarriedOut call out err result }
    ensures leaves { let call = call_with (map string_bytes words.now.items) (λ f. called f)
        (λ f. texts f) forms.items (G.shown gate.now) F.holds F.faults files.old files.new in
        let sunk_out = sunk O.written O.faults O.short out.old out.new in
        Leaves call sunk_out files.old files.new out.old out.new err.old err.new
        observers.old observers.new result }
    ensures logs { let call = call_with (map string_bytes words.now.items) (λ f. called f)
        (λ f. texts f) forms.items (G.shown gate.now) F.holds F.faults files.old files.new in
        AreTold call (logs_of (λ o. log o) observers.old.items observers.new.items) result }
    ensures files { F.holds files.new ≡ F.holds files.old }
    ensures later { (name : List ℕ) → F.faults files.old name ≤ F.faults files.new name }
    ensures later_out { Later (sunk O.written O.faults O.short out.old out.new) }
    ensures later_err { Later (sunk E.written E.faults E.short err.old err.new) }
{
    let command = match read_words(alloc, words) {
        Ok(command) => command,
        Err(_) => return refuse(err, &None, &no_command(Refusal::NoMemory)),
    };
    let made = prepare(rt, alloc, &command, files, forms, observers, gate);
    finish(out, err, &command, made)
}
