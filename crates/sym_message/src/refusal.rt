//! Why a run writes no report.
ghost use Rattle.std.specs.Prelude.{◌≡◌};
ghost use Rattle.sym_message.specs.Refusals.{start_refusal as refusal_of_start, parse_refusal as refusal_of_parse, check_refusal as refusal_of_check, read_refusal as refusal_of_read, pass_refusal as refusal_of_pass, write_refusal as refusal_of_write};

use crate::status::Status;
use sym_base::{ReadErr, SinkErr};
use sym_check::CheckErr;
use sym_command::Place;
use sym_files::PassErr;
use sym_lex::LexFault;
use sym_parse::{LimitKind, ParseErr};
use sym_table::{Bad, HeadFault};

/// What is wrong with a script at one place.
#[derive(Clone, Copy, Debug, PartialEq, Eq)]
pub enum ScriptFault {
    /// A byte that begins no token.
    BadByte,
    /// A number that is too large, or that a letter or `_` follows at once.
    BadNumber,
    /// A name that is too long.
    LongName,
    /// A text without its end, with another escape, or that isn't UTF-8.
    BadText,
    /// A token with which no sentence of the grammar goes on, or the end of the text.
    Unexpected,
    /// A thing that passes its number.
    Limit(LimitKind),
    /// A name that isn't visible.
    UnknownName,
    /// A name that is taken.
    NameTaken,
    /// Something of a wrong kind.
    WrongKind,
    /// A range, or the number of a part.
    WrongRange,
    /// An operator over integer cells that gives no line.
    NotLinear,
}

/// Why a run writes no report, or only a prefix of it.
#[derive(Clone, Copy, Debug, PartialEq, Eq)]
pub enum Refusal {
    /// The arguments aren't those of a command.
    Usage,
    /// The script isn't accepted. The place counts its bytes from 0.
    Script { fault: ScriptFault, at: u32 },
    /// The script keeps all rules but the bound on its paths, of which it has this many.
    Branchy { paths: u32 },
    /// A file's header doesn't have each field's column once. Files are counted from 0.
    Head { file: u64, fault: HeadFault },
    /// A row of a file isn't a record. Files are counted from 0.
    Bad { file: u64, bad: Bad },
    /// A file is that of a saved run of another script. Files are counted from 0.
    OtherScript { file: u64 },
    /// A file isn't that of a saved run.
    Malformed { file: u64 },
    /// The records of a saved run don't follow those before it.
    Apart { file: u64 },
    /// A group of a saved run, counted from 1, has no path for how the group stands before it.
    Gap { file: u64, group: u64 },
    /// A read failed.
    Read(Place),
    /// A write failed.
    Write,
    /// A file has too many bytes.
    TooLarge(Place),
    /// An allocation failed.
    NoMemory,
}

impl Refusal {
    ghost use Rattle.sym_message.specs.Refusals.{start_refusal as refusal_of_start, status_of_refusal};

    /// The status with which the run ends.
    pub fn status(self) -> Status
        ensures { result ≡ status_of_refusal self }
    {
        match self {
            Refusal::Usage => Status::Usage,
            Refusal::Script { .. } => Status::Script,
            Refusal::Branchy { .. } => Status::Script,
            Refusal::Head { .. } => Status::Input,
            Refusal::Bad { .. } => Status::Input,
            Refusal::OtherScript { .. } => Status::Input,
            Refusal::Malformed { .. } => Status::Input,
            Refusal::Apart { .. } => Status::Input,
            Refusal::Gap { .. } => Status::Input,
            Refusal::Read(_) => Status::ReadFault,
            Refusal::Write => Status::WriteFault,
            Refusal::TooLarge(_) => Status::TooLarge,
            Refusal::NoMemory => Status::NoMemory,
        }
    }
}

/// Why a process begins no run.
#[derive(Clone, Copy, Debug, PartialEq, Eq)]
pub enum StartErr {
    /// An argument isn't UTF-8.
    NotUtf8,
    /// An allocation failed.
    NoMemory,
}

/// The refusal of a process that begins no run.
pub fn start_refusal(why: StartErr) -> Refusal
    ensures { result ≡ refusal_of_start why }
{
    match why {
        StartErr::NotUtf8 => Refusal::Usage,
        StartErr::NoMemory => Refusal::NoMemory,
    }
}

// The first place of a text at which no token can stand.
fn lex_refusal(fault: LexFault) -> Refusal
    ensures { result ≡ refusal_of_parse (ParseErr.Lex fault) }
{
    match fault {
        LexFault::BadByte { at } => script_refusal(ScriptFault::BadByte, at),
        LexFault::BadNumber { at } => script_refusal(ScriptFault::BadNumber, at),
        LexFault::LongName { at } => script_refusal(ScriptFault::LongName, at),
        LexFault::BadText { at } => script_refusal(ScriptFault::BadText, at),
    }
}

// A fault of the script at a place.
fn script_refusal(fault: ScriptFault, at: u32) -> Refusal
    ensures { result ≡ Refusal.Script fault at }
{
    Refusal::Script { fault, at }
}

/// Why a text that isn't parsed is refused.
pub fn parse_refusal(error: ParseErr) -> Refusal
    ensures { result ≡ refusal_of_parse error }
{
    match error {
        ParseErr::Lex(fault) => lex_refusal(fault),
        ParseErr::Expected { at } => script_refusal(ScriptFault::Unexpected, at),
        ParseErr::Limit { at, which } => script_refusal(ScriptFault::Limit(which), at),
        ParseErr::NoMemory => Refusal::NoMemory,
    }
}

/// Why a script that breaks a rule is refused.
pub fn check_refusal(error: CheckErr) -> Refusal
    ensures { result ≡ refusal_of_check error }
{
    match error {
        CheckErr::Name { at } => script_refusal(ScriptFault::UnknownName, at),
        CheckErr::Twice { at } => script_refusal(ScriptFault::NameTaken, at),
        CheckErr::Kind { at } => script_refusal(ScriptFault::WrongKind, at),
        CheckErr::Range { at } => script_refusal(ScriptFault::WrongRange, at),
        CheckErr::NotLinear { at } => script_refusal(ScriptFault::NotLinear, at),
        CheckErr::Branchy { paths } => Refusal::Branchy { paths },
        CheckErr::NoMemory => Refusal::NoMemory,
    }
}

/// Why a run is refused whose file at this place wasn't read whole.
pub fn read_refusal(place: Place, error: ReadErr) -> Refusal
    ensures { result ≡ refusal_of_read place error }
{
    match error {
        ReadErr::Failed => Refusal::Read(place),
        ReadErr::TooLarge => Refusal::TooLarge(place),
        ReadErr::NoMemory => Refusal::NoMemory,
    }
}

/// Why a run is refused whose files have no groups.
pub fn pass_refusal(error: PassErr) -> Refusal
    ensures { result ≡ refusal_of_pass error }
{
    match error {
        PassErr::Read { file } => Refusal::Read(Place::File(file)),
        PassErr::TooLarge { file } => Refusal::TooLarge(Place::File(file)),
        PassErr::Head { file, fault } => Refusal::Head { file, fault },
        PassErr::Bad { file, bad } => Refusal::Bad { file, bad },
        PassErr::NoMemory => Refusal::NoMemory,
    }
}

/// Why a run is refused whose report wasn't written whole.
pub fn write_refusal(error: SinkErr) -> Refusal
    ensures { result ≡ refusal_of_write error }
{
    match error {
        SinkErr::Failed => Refusal::Write,
        SinkErr::NoMemory => Refusal::NoMemory,
    }
}
