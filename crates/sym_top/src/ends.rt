//! The end of a command: its text is written, or a line tells why there is none.
ghost use Rattle.std.specs.Prelude.{◌≡◌, ◌⊎◌, IfOk, OnOk, IfErr};
ghost use Rattle.sym_message.specs.Messages.{headers_of};
ghost use Rattle.sym_message.specs.Refusals.{status_of_refusal};
ghost use Rattle.sym_message.specs.Telling.{Has, Later, Short, Tells, sunk};
ghost use Rattle.sym_top.specs.Loading.{ComesTo, MayEnd, Says, known_headers, stop_line, text_bytes};
ghost use Rattle.sym_top.specs.Promises.{Call, WriteFails, IsReported, IsUnwritten};

use crate::output::{Output, Stop, Text};
use sym_base::{Sink, write_all};
use sym_check::{Checked, FieldPlan};
use sym_command::{Command, shown_names};
use sym_message::{Refusal, Status, tell, write_refusal};
use sym_report::{ReportForm, report_bytes};

// The bytes of a text.
fn bytes_of(text: &Text<Box<dyn ReportForm>>) -> &[u8]
    ensures { result.now ≡ text_bytes (λ f. gathered f) text.now }
{
    match text {
        Text::Plain(bytes) => bytes.as_slice(),
        Text::Gathered(form) => report_bytes(form),
    }
}

// Writes a text.
fn write_report<O: Sink>(out: &mut O, text: &[u8]) -> Result<(), Refusal>
    ensures whole { OnOk result (Has (sunk O.written O.faults O.short out.old out.new) text.now) }
    ensures part { let out = sunk O.written O.faults O.short out.old out.new in
        IfErr result (WriteFails out text.now) }
    ensures later { Later (sunk O.written O.faults O.short out.old out.new) }
{
    match write_all(out, text) {
        Ok(()) => Ok(()),
        Err(error) => Err(write_refusal(error)),
    }
}

// The fields of a script, where one was accepted.
fn known_fields(checked: &Option<Checked>) -> &[FieldPlan]
    ensures { headers_of result.now ≡ known_headers checked.now }
{
    match checked {
        Some(checked) => checked.plan().fields.as_slice(),
        None => &[],
    }
}

/// Tells why a call stopped before it wrote, and gives its status.
pub fn refuse<E: Sink>(err: &mut E, command: &Option<Command<'_>>, stop: &Stop) -> Status
    ensures status { result ≡ status_of_refusal stop.now.why }
    ensures told { let err = sunk E.written E.faults E.short err.old err.new in
        Tells err (stop_line command.now stop.now) }
    ensures later { Later (sunk E.written E.faults E.short err.old err.new) }
{
    let fields = known_fields(&stop.checked);
    tell(err, &shown_names(command), fields, stop.why);
    stop.why.status()
}

/// Writes the text of a command, or tells why there is none.
pub fn finish<O: Sink, E: Sink>(
    out: &mut O,
    err: &mut E,
    command: &Option<Command<'_>>,
    made: Result<Output<Box<dyn ReportForm>>, Stop>,
) -> Status
    requires { IfOk made (λ output. IsReported output.status) }
    ensures says { (call : Call) → ComesTo call (λ f. gathered f) command.now made →
        let out = sunk O.written O.faults O.short out.old out.new in
        let err = sunk E.written E.faults E.short err.old err.new in
        Says call out err result }
    ensures status { MayEnd made result }
    ensures unwritten { IsUnwritten result → out.new ≡ out.old }
    ensures memory { result ≡ Status.NoMemory →
        (out.new ≡ out.old) ⊎ Short (sunk O.written O.faults O.short out.old out.new) }
    ensures quiet { IsReported result → err.new ≡ err.old }
    ensures later_out { Later (sunk O.written O.faults O.short out.old out.new) }
    ensures later_err { Later (sunk E.written E.faults E.short err.old err.new) }
{
    let output = match made {
        Ok(output) => output,
        Err(stop) => return refuse(err, command, &stop),
    };
    match write_report(out, bytes_of(&output.text)) {
        Ok(()) => output.status,
        Err(why) => {
            tell(err, &shown_names(command), &[], why);
            why.status()
        }
    }
}
