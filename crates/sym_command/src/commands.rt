//! Commands, and the files that they name.
ghost use Rattle.std.specs.Prelude.{◌≡◌, [], slice_get};
ghost use Rattle.std.specs.Option.{option_map, unwrap_or};
ghost use Rattle.sym_command.specs.Commands.{file_name as file_name_in, shown_names as shown_names_of};
ghost use Rattle.sym_command.specs.Words.{command_seen, files_seen, names_seen};

use crate::arguments::MADE_NAME;
use crate::place::Place;
use sym_files::Options;

/// `run`: the form of the report, how files are cut and worked on, whether observers are told of
/// partial reports, and the names of the script and of the files of records.
#[derive(Drop)]
pub struct Run<'a> {
    pub form: &'a str,
    pub options: Options,
    pub watch: bool,
    pub script: &'a str,
    pub files: Vec<String>,
}

/// `trace`: the form of the report, which records' rows are shown, those whose numbers `every`
/// divides, how files are cut and worked on, and the names of the script and of the files of
/// records.
#[derive(Drop)]
pub struct Trace<'a> {
    pub form: &'a str,
    pub every: u64,
    pub options: Options,
    pub script: &'a str,
    pub files: Vec<String>,
}

/// `check`: the name of the script, and whether it is printed.
#[derive(Clone, Copy)]
pub struct Check<'a> {
    pub script: &'a str,
    pub print: bool,
}

/// `make`: how the log is cut and worked on, how many records it has, and what it is drawn from.
#[derive(Clone, Copy)]
pub struct Make {
    pub options: Options,
    pub records: u32,
    pub seed: u32,
}

/// `map`: the number of the first record, how files are cut and worked on, and the names of the
/// script and of the files of records.
#[derive(Drop)]
pub struct Map<'a> {
    pub first: u64,
    pub options: Options,
    pub script: &'a str,
    pub files: Vec<String>,
}

/// `reduce`: the form of the report, the most bytes of each file, and the names of the script and of
/// the files of saved runs.
#[derive(Drop)]
pub struct Reduce<'a> {
    pub form: &'a str,
    pub max_bytes: u64,
    pub script: &'a str,
    pub files: Vec<String>,
}

/// `join`: the path limit, the most bytes of each file, and the names of the script and of the
/// files of saved runs.
#[derive(Drop)]
pub struct Join<'a> {
    pub limit: u32,
    pub max_bytes: u64,
    pub script: &'a str,
    pub files: Vec<String>,
}

/// What is asked for.
#[derive(Drop)]
pub enum Command<'a> {
    Run(Run<'a>),
    Trace(Trace<'a>),
    Check(Check<'a>),
    Make(Make),
    Map(Map<'a>),
    Reduce(Reduce<'a>),
    Join(Join<'a>),
}

/// The files of records, or of saved runs, of a command: none, those that the arguments name, or the
/// log that is made.
#[derive(Clone, Copy)]
pub enum NamedFiles<'a> {
    None,
    Given(&'a [String]),
    Made,
}

/// The names by which a line speaks of the files of a command.
#[derive(Clone, Copy)]
pub struct FileNames<'a> {
    pub script: Option<&'a str>,
    pub files: NamedFiles<'a>,
}

/// The names by which a line speaks of the files of a command; none if there is no command.
pub fn shown_names<'m>(command: &'m Option<Command<'_>>) -> FileNames<'m>
    ensures { names_seen result ≡ shown_names_of (option_map command_seen command.now) }
{
    match command {
        Some(Command::Run(run)) => FileNames {
            script: Some(run.script),
            files: NamedFiles::Given(run.files.as_slice()),
        },
        Some(Command::Trace(trace)) => FileNames {
            script: Some(trace.script),
            files: NamedFiles::Given(trace.files.as_slice()),
        },
        Some(Command::Check(check)) => FileNames {
            script: Some(check.script),
            files: NamedFiles::None,
        },
        Some(Command::Make(_)) => FileNames {
            script: None,
            files: NamedFiles::Made,
        },
        Some(Command::Map(part)) => FileNames {
            script: Some(part.script),
            files: NamedFiles::Given(part.files.as_slice()),
        },
        Some(Command::Reduce(reduce)) => FileNames {
            script: Some(reduce.script),
            files: NamedFiles::Given(reduce.files.as_slice()),
        },
        Some(Command::Join(join)) => FileNames {
            script: Some(join.script),
            files: NamedFiles::Given(join.files.as_slice()),
        },
        None => FileNames {
            script: None,
            files: NamedFiles::None,
        },
    }
}

// The name of the file of records of this number, empty if there is none.
fn record_name<'a>(files: NamedFiles<'a>, number: u64) -> &'a str
    ensures { result.now ≡ unwrap_or (slice_get (files_seen files.entry) number) [] }
{
    match files {
        NamedFiles::None => "",
        NamedFiles::Given(names) => match names.get(number as usize) {
            Some(name) => name.as_str(),
            None => "",
        },
        NamedFiles::Made => { if number == 0 { MADE_NAME } else { "" } }
    }
}

/// The name of the file at this place, empty if there is none.
pub fn file_name<'a>(names: &FileNames<'a>, place: Place) -> &'a str
    ensures { result.now ≡ file_name_in (names_seen names.now) place }
{
    match place {
        Place::Script => match names.script {
            Some(name) => name,
            None => "",
        },
        Place::File(number) => record_name(names.files, number),
    }
}
