//! The line of a refusal, on the sink for errors.
ghost use Rattle.std.specs.Prelude.{◌≡◌, ◌++◌, List, [], None, codes, decimal, slice_index_or};
ghost use Rattle.std.specs.List.{flat_map};
ghost use Rattle.sym_command.specs.Commands.{shown_names as shown_names_of, file_name as file_name_in};
ghost use Rattle.sym_command.specs.Words.{names_seen};
ghost use Rattle.sym_message.specs.Messages.{headers_of, header_text as header_text_of, fault_text as fault_text_of, limit_text as limit_text_of, head_fault_text, cause_text, line_of};
ghost use Rattle.sym_message.specs.Refusals.{start_refusal as refusal_of_start, status_of_refusal};
ghost use Rattle.sym_message.specs.Telling.{Later, Tells, sunk};

use crate::refusal::{Refusal, ScriptFault, StartErr, start_refusal};
use crate::status::Status;
use itoa::Buffer;
use sym_base::{Sink, SinkErr, write_all};
use sym_check::FieldPlan;
use sym_command::{FileNames, Place, file_name, shown_names};
use sym_parse::LimitKind;
use sym_table::{Bad, BadCause, HeadFault};

// Appends the pieces of a text, one after another, up to the first write that fails.
fn write_pieces<E: Sink>(err: &mut E, pieces: &[&str])
    ensures told { Tells (sunk E.written E.faults E.short err.old err.new)
        (flat_map (λ piece. piece.now) pieces.now) }
    ensures later { Later (sunk E.written E.faults E.short err.old err.new) }
{
    'pieces: for piece in pieces {
        match write_all(err, piece.as_bytes()) {
            Ok(()) => {}
            Err(SinkErr::Failed) => return,
            Err(SinkErr::NoMemory) => return,
        }
    }
}

// The header text of a field, empty where there is none of this number.
fn header_text(fields: &[FieldPlan], which: u16) -> &str
    ensures { result.now ≡ header_text_of (headers_of fields.now) which }
{
    match fields.get(usize::from(which)) {
        Some(field) => field.header.as_str(),
        None => "",
    }
}

fn limit_text(kind: LimitKind) -> &'static str
    ensures { result.now ≡ codes "limit of " ++ limit_text_of kind }
{
    match kind {
        LimitKind::Enums => "limit of enums",
        LimitKind::Labels => "limit of labels",
        LimitKind::Fields => "limit of fields",
        LimitKind::Cells => "limit of cells",
        LimitKind::Tests => "limit of tests",
        LimitKind::Parameters => "limit of parameters",
        LimitKind::Parts => "limit of parts",
        LimitKind::Statements => "limit of statements",
        LimitKind::Depth => "limit of depth",
        LimitKind::Operands => "limit of operands",
        LimitKind::Columns => "limit of columns",
        LimitKind::GroupFields => "limit of group fields",
    }
}

fn fault_text(fault: ScriptFault) -> &'static str
    ensures { result.now ≡ fault_text_of fault }
{
    match fault {
        ScriptFault::BadByte => "bad byte",
        ScriptFault::BadNumber => "bad number",
        ScriptFault::LongName => "long name",
        ScriptFault::BadText => "bad text",
        ScriptFault::Unexpected => "unexpected token",
        ScriptFault::Limit(kind) => limit_text(kind),
        ScriptFault::UnknownName => "unknown name",
        ScriptFault::NameTaken => "name taken",
        ScriptFault::WrongKind => "wrong kind",
        ScriptFault::WrongRange => "wrong range",
        ScriptFault::NotLinear => "not linear",
    }
}

// The line of a script that isn't accepted, its paths aside.
fn tell_script<E: Sink>(err: &mut E, fault: ScriptFault, at: u32)
    ensures told { Tells (sunk E.written E.faults E.short err.old err.new)
        (line_of (shown_names_of None) [] (Refusal.Script fault at)) }
    ensures later { Later (sunk E.written E.faults E.short err.old err.new) }
{
    let mut buffer = Buffer::new();
    let place = buffer.format(at);
    write_pieces(
        err,
        &[
            "symple: script: ",
            fault_text(fault),
            " at byte ",
            place,
            "\n",
        ],
    );
}

// The line of a script that has too many paths.
fn tell_paths<E: Sink>(err: &mut E, paths: u32)
    ensures told { Tells (sunk E.written E.faults E.short err.old err.new)
        (line_of (shown_names_of None) [] (Refusal.Branchy paths)) }
    ensures later { Later (sunk E.written E.faults E.short err.old err.new) }
{
    let mut buffer = Buffer::new();
    let count = buffer.format(paths);
    write_pieces(err, &["symple: script: ", count, " paths\n"]);
}

// The line of a file that isn't read whole, by what is wrong with it.
fn tell_file<E: Sink>(err: &mut E, file: &str, what: &str)
    ensures told { Tells (sunk E.written E.faults E.short err.old err.new)
        (codes "symple: " ++ (file.now ++ what.now) ++ codes "\n") }
    ensures later { Later (sunk E.written E.faults E.short err.old err.new) }
{
    write_pieces(err, &["symple: ", file, what, "\n"]);
}

// The line of a file's header.
fn tell_header<E: Sink>(err: &mut E, file: &str, fields: &[FieldPlan], fault: HeadFault)
    ensures told { Tells (sunk E.written E.faults E.short err.old err.new)
        (codes "symple: " ++ (file.now ++ codes ": header: "
        ++ head_fault_text (headers_of fields.now) fault) ++ codes "\n") }
    ensures later { Later (sunk E.written E.faults E.short err.old err.new) }
{
    match fault {
        HeadFault::NoField { which } => {
            let name = header_text(fields, which);
            tell_column(err, file, ": header: no field ", name, "\n");
        }
        HeadFault::Twice { which } => {
            let name = header_text(fields, which);
            tell_column(err, file, ": header: field ", name, " twice\n");
        }
    }
}

// The line of a file's header: what stands before and after the field's name.
fn tell_column<'a, E: Sink>(
    err: &mut E,
    file: &'a str,
    before: &'a str,
    name: &'a str,
    after: &'a str,
)
    ensures told { Tells (sunk E.written E.faults E.short err.old err.new)
        (codes "symple: " ++ (file.now ++ (before.now ++ (name.now ++ after.now)))) }
    ensures later { Later (sunk E.written E.faults E.short err.old err.new) }
{
    write_pieces(err, &["symple: ", file, before, name, after]);
}

// The line of a row that isn't a record.
fn tell_row<E: Sink>(err: &mut E, file: &str, fields: &[FieldPlan], bad: Bad)
    ensures told { Tells (sunk E.written E.faults E.short err.old err.new)
        (codes "symple: " ++ (file.now ++ codes ": record " ++ decimal bad.no ++ codes ": "
        ++ cause_text (headers_of fields.now) bad.cause) ++ codes "\n") }
    ensures later { Later (sunk E.written E.faults E.short err.old err.new) }
{
    match bad.cause {
        BadCause::Fields(count) => tell_width(err, file, bad.no, count),
        BadCause::Number(which) => {
            let name = header_text(fields, which);
            tell_field(err, file, bad.no, name, " is not a number\n");
        }
        BadCause::Label(which) => {
            let name = header_text(fields, which);
            tell_field(err, file, bad.no, name, " is not a label\n");
        }
        BadCause::Utf8(which) => {
            let name = header_text(fields, which);
            tell_field(err, file, bad.no, name, " is not UTF-8\n");
        }
    }
}

// The line of a row with another number of fields than the header.
fn tell_width<E: Sink>(err: &mut E, file: &str, no: u64, count: u64)
    ensures told { Tells (sunk E.written E.faults E.short err.old err.new)
        (codes "symple: " ++ (file.now ++ (codes ": record " ++ (decimal no
        ++ (codes ": " ++ (decimal count ++ codes " fields\n")))))) }
    ensures later { Later (sunk E.written E.faults E.short err.old err.new) }
{
    let mut buffer = Buffer::new();
    let record = buffer.format(no);
    let mut other = Buffer::new();
    let width = other.format(count);
    write_pieces(
        err,
        &[
            "symple: ",
            file,
            ": record ",
            record,
            ": ",
            width,
            " fields\n",
        ],
    );
}

// The line of a row with a field that isn't read: what stands after the field's name.
fn tell_field<'a, E: Sink>(err: &mut E, file: &'a str, no: u64, name: &'a str, after: &'a str)
    ensures told { Tells (sunk E.written E.faults E.short err.old err.new)
        (codes "symple: " ++ (file.now ++ (codes ": record " ++ (decimal no
        ++ (codes ": field " ++ (name.now ++ after.now)))))) }
    ensures later { Later (sunk E.written E.faults E.short err.old err.new) }
{
    let mut buffer = Buffer::new();
    let record = buffer.format(no);
    write_pieces(
        err,
        &[
            "symple: ",
            file,
            ": record ",
            record,
            ": field ",
            name,
            after,
        ],
    );
}

// The line of a saved run with a group that has no path.
fn tell_gap<E: Sink>(err: &mut E, file: &str, group: u64)
    ensures told { Tells (sunk E.written E.faults E.short err.old err.new)
        (codes "symple: " ++ (file.now ++ codes ": no path for group " ++ decimal group)
        ++ codes "\n") }
    ensures later { Later (sunk E.written E.faults E.short err.old err.new) }
{
    let mut buffer = Buffer::new();
    let number = buffer.format(group);
    write_pieces(
        err,
        &["symple: ", file, ": no path for group ", number, "\n"],
    );
}

/// Writes the line of a refusal to `err`: of a command that reads the files of these names, and of
/// a script with these fields, of which there are none where no script was accepted. It takes no
/// memory, and a failure of `err` ends the line.
pub fn tell<E: Sink>(err: &mut E, names: &FileNames<'_>, fields: &[FieldPlan], why: Refusal)
    ensures told { Tells (sunk E.written E.faults E.short err.old err.new)
        (line_of (names_seen names.now) (headers_of fields.now) why) }
    ensures later { Later (sunk E.written E.faults E.short err.old err.new) }
{
    match why {
        Refusal::Usage => write_pieces(err, &["symple: usage\n"]),
        Refusal::Script { fault, at } => tell_script(err, fault, at),
        Refusal::Branchy { paths } => tell_paths(err, paths),
        Refusal::Head { file, fault } => {
            tell_header(err, file_name(names, Place::File(file)), fields, fault);
        }
        Refusal::Bad { file, bad } => {
            tell_row(err, file_name(names, Place::File(file)), fields, bad);
        }
        Refusal::OtherScript { file } => {
            tell_file(
                err,
                file_name(names, Place::File(file)),
                ": run of another script",
            );
        }
        Refusal::Malformed { file } => {
            tell_file(err, file_name(names, Place::File(file)), ": not a run file");
        }
        Refusal::Apart { file } => {
            tell_file(
                err,
                file_name(names, Place::File(file)),
                ": records do not follow",
            );
        }
        Refusal::Gap { file, group } => {
            tell_gap(err, file_name(names, Place::File(file)), group);
        }
        Refusal::Read(place) => tell_file(err, file_name(names, place), ": read fault"),
        Refusal::Write => write_pieces(err, &["symple: write fault\n"]),
        Refusal::TooLarge(place) => tell_file(err, file_name(names, place), ": too large"),
        Refusal::NoMemory => write_pieces(err, &["symple: out of memory\n"]),
    }
}

/// Writes the line of a process that begins no run, and gives its status: that of a faulty command
/// line for an argument that isn't UTF-8. It takes no memory.
pub fn refuse_start<E: Sink>(err: &mut E, why: StartErr) -> Status
    ensures status { result ≡ status_of_refusal (refusal_of_start why) }
    ensures told { Tells (sunk E.written E.faults E.short err.old err.new)
        (line_of (shown_names_of None) [] (refusal_of_start why)) }
    ensures later { Later (sunk E.written E.faults E.short err.old err.new) }
{
    let refusal = start_refusal(why);
    tell(err, &shown_names(&None), &[], refusal);
    refusal.status()
}
