//! The command lines, as `clap` reads them.
ghost use Rattle.std.specs.Prelude.{◌≡◌, IfOk};
ghost use Rattle.clap.specs.Words.{app_of, with_rule};
ghost use Rattle.sym_command.specs.CommandLines.{option_rule, flag_rule, word_rule, words_rule, bare_app, with_pass_options, run_app, trace_app, check_app, make_app, map_app, reduce_app, join_app};

use crate::arguments::{
    CHECK_NAME, CHUNK_NAME, EVERY_NAME, FILES_NAME, FIRST_NAME, FORM_NAME, JOIN_NAME, LIMIT_NAME,
    MAKE_NAME, MAP_NAME, MAX_BYTES_NAME, PRINT_NAME, RECORDS_NAME, REDUCE_NAME, RUN_NAME,
    SCRIPT_NAME, SEED_NAME, TRACE_NAME, WATCH_NAME, WORKERS_NAME,
};
use clap::{Arg, ArgAction, Command};
use std::alloc::{AllocError, Global};

// Adds `--NAME VALUE`.
fn with_option<'a>(
    alloc: Global,
    command: Command<'a>,
    name: &'a str,
) -> Result<Command<'a>, AllocError>
    ensures { IfOk result (λ c.
        app_of c ≡ with_rule (app_of command.entry) (option_rule name.entry.now)) }
{
    command.arg(Arg::new(alloc, name).long(name).action(ArgAction::Set))
}

// Adds `--NAME`.
fn with_flag<'a>(
    alloc: Global,
    command: Command<'a>,
    name: &'a str,
) -> Result<Command<'a>, AllocError>
    ensures { IfOk result (λ c.
        app_of c ≡ with_rule (app_of command.entry) (flag_rule name.entry.now)) }
{
    command.arg(Arg::new(alloc, name).long(name).action(ArgAction::SetTrue))
}

// Adds one word.
fn with_word<'a>(
    alloc: Global,
    command: Command<'a>,
    name: &'a str,
) -> Result<Command<'a>, AllocError>
    ensures { IfOk result (λ c.
        app_of c ≡ with_rule (app_of command.entry) (word_rule name.entry.now)) }
{
    command.arg(Arg::new(alloc, name).action(ArgAction::Set).required(true))
}

// Adds one word or more.
fn with_words<'a>(
    alloc: Global,
    command: Command<'a>,
    name: &'a str,
) -> Result<Command<'a>, AllocError>
    ensures { IfOk result (λ c.
        app_of c ≡ with_rule (app_of command.entry) (words_rule name.entry.now)) }
{
    command.arg(
        Arg::new(alloc, name)
            .action(ArgAction::Append)
            .required(true),
    )
}

// A command without arguments.
fn bare_command<'a>(alloc: Global, name: &'a str) -> Command<'a>
    ensures { app_of result ≡ bare_app name.entry.now }
{
    Command::new(alloc, name)
        .disable_help_flag(true)
        .disable_version_flag(true)
}

// Adds `[--chunk N] [--limit N] [--workers N]`.
fn with_pass_options<'a>(alloc: Global, command: Command<'a>) -> Result<Command<'a>, AllocError>
    ensures { IfOk result (λ c. app_of c ≡ with_pass_options (app_of command.entry)) }
{
    let chunked = with_option(alloc, command, CHUNK_NAME)?;
    let limited = with_option(alloc, chunked, LIMIT_NAME)?;
    with_option(alloc, limited, WORKERS_NAME)
}

/// `run [--form NAME] [--chunk N] [--limit N] [--workers N] [--max-bytes N] [--watch] SCRIPT
/// FILE...`
pub fn run_command<'a>(alloc: Global) -> Result<Command<'a>, AllocError>
    ensures { IfOk result (λ c. app_of c ≡ run_app) }
{
    let formed = with_option(alloc, bare_command(alloc, RUN_NAME), FORM_NAME)?;
    let optional = with_pass_options(alloc, formed)?;
    let sized = with_option(alloc, optional, MAX_BYTES_NAME)?;
    let watched = with_flag(alloc, sized, WATCH_NAME)?;
    let scripted = with_word(alloc, watched, SCRIPT_NAME)?;
    with_words(alloc, scripted, FILES_NAME)
}

/// `trace [--form NAME] [--every N] [--chunk N] [--limit N] [--workers N] [--max-bytes N] SCRIPT
/// FILE...`
pub fn trace_command<'a>(alloc: Global) -> Result<Command<'a>, AllocError>
    ensures { IfOk result (λ c. app_of c ≡ trace_app) }
{
    let formed = with_option(alloc, bare_command(alloc, TRACE_NAME), FORM_NAME)?;
    let numbered = with_option(alloc, formed, EVERY_NAME)?;
    let optional = with_pass_options(alloc, numbered)?;
    let sized = with_option(alloc, optional, MAX_BYTES_NAME)?;
    let scripted = with_word(alloc, sized, SCRIPT_NAME)?;
    with_words(alloc, scripted, FILES_NAME)
}

/// `check [--print] SCRIPT`
pub fn check_command<'a>(alloc: Global) -> Result<Command<'a>, AllocError>
    ensures { IfOk result (λ c. app_of c ≡ check_app) }
{
    let printed = with_flag(alloc, bare_command(alloc, CHECK_NAME), PRINT_NAME)?;
    with_word(alloc, printed, SCRIPT_NAME)
}

/// `make [--chunk N] [--limit N] [--workers N] N SEED`
pub fn make_command<'a>(alloc: Global) -> Result<Command<'a>, AllocError>
    ensures { IfOk result (λ c. app_of c ≡ make_app) }
{
    let optional = with_pass_options(alloc, bare_command(alloc, MAKE_NAME))?;
    let counted = with_word(alloc, optional, RECORDS_NAME)?;
    with_word(alloc, counted, SEED_NAME)
}

/// `map [--first N] [--chunk N] [--limit N] [--workers N] [--max-bytes N] SCRIPT FILE...`
pub fn map_command<'a>(alloc: Global) -> Result<Command<'a>, AllocError>
    ensures { IfOk result (λ c. app_of c ≡ map_app) }
{
    let numbered = with_option(alloc, bare_command(alloc, MAP_NAME), FIRST_NAME)?;
    let optional = with_pass_options(alloc, numbered)?;
    let sized = with_option(alloc, optional, MAX_BYTES_NAME)?;
    let scripted = with_word(alloc, sized, SCRIPT_NAME)?;
    with_words(alloc, scripted, FILES_NAME)
}

/// `reduce [--form NAME] [--max-bytes N] SCRIPT FILE...`
pub fn reduce_command<'a>(alloc: Global) -> Result<Command<'a>, AllocError>
    ensures { IfOk result (λ c. app_of c ≡ reduce_app) }
{
    let formed = with_option(alloc, bare_command(alloc, REDUCE_NAME), FORM_NAME)?;
    let sized = with_option(alloc, formed, MAX_BYTES_NAME)?;
    let scripted = with_word(alloc, sized, SCRIPT_NAME)?;
    with_words(alloc, scripted, FILES_NAME)
}

/// `join [--limit N] [--max-bytes N] SCRIPT FILE...`
pub fn join_command<'a>(alloc: Global) -> Result<Command<'a>, AllocError>
    ensures { IfOk result (λ c. app_of c ≡ join_app) }
{
    let limited = with_option(alloc, bare_command(alloc, JOIN_NAME), LIMIT_NAME)?;
    let sized = with_option(alloc, limited, MAX_BYTES_NAME)?;
    let scripted = with_word(alloc, sized, SCRIPT_NAME)?;
    with_words(alloc, scripted, FILES_NAME)
}
