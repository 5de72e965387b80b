//! The arguments after the program's name.
ghost use Rattle.std.specs.Prelude.{◌≡◌, ◌≤◌, true, map, length, IfOk, IfSome};
ghost use Rattle.std.specs.Option.{option_map};
ghost use Rattle.std.specs.String.{string_bytes};
ghost use Rattle.clap.specs.Words.{app_of, found_of, rows_of};
ghost use Rattle.clap.specs.Faults.{is_simple_and_free};
ghost use Rattle.sym_files.specs.Options.{InRange};
ghost use Rattle.sym_command.specs.CommandLines.{matched};
ghost use Rattle.sym_command.specs.Commands.{run_of, trace_of, check_of, make_of, map_of, reduce_of, join_of, command_by, command_in};
ghost use Rattle.sym_command.specs.Words.{run_seen, trace_seen, check_seen, make_seen, map_seen, reduce_seen, join_seen, command_seen, IsRun, IsTrace, IsMap, IsReduce, IsJoin, IsInRange};

use crate::arguments::{
    CHECK_NAME, JOIN_NAME, MAKE_NAME, MAP_NAME, REDUCE_NAME, RUN_NAME, TRACE_NAME,
};
use crate::command_lines::{
    check_command, join_command, make_command, map_command, reduce_command, run_command,
    trace_command,
};
use crate::commands::{Check, Command, Join, Make, Map, Reduce, Run, Trace};
use crate::matches::{
    read_check, read_join, read_make, read_map, read_reduce, read_run, read_trace,
};
use clap::ArgMatches;
use clap::error::ErrorKind;
use std::alloc::Global;
use sym_base::NoMemory;

// What `clap` finds for each argument of a command line; `None` if it refuses the words.
fn find_matches<'a>(
    command: clap::Command<'a>,
    words: &'a [String],
) -> Result<Option<ArgMatches<'a>>, NoMemory>
    requires { is_simple_and_free (app_of command) ≡ true }
    ensures { IfOk result (λ found. option_map (λ m. rows_of (found_of m)) found
        ≡ matched (app_of command.entry) (map string_bytes words.now)) }
{
    match command.try_get_matches_from(words) {
        Ok(matches) => Ok(Some(matches)),
        Err(error) => match error.kind() {
            ErrorKind::OutOfMemory => Err(NoMemory),
            _ => Ok(None),
        },
    }
}

// The run that words ask for, the first of which is `run`.
#[tactic(auto, unfolding(crate::specs::Commands::run_of))]
fn read_run_words<'a>(alloc: Global, words: &'a [String]) -> Result<Option<Run<'a>>, NoMemory>
    ensures read { IfOk result (λ run.
        option_map run_seen run ≡ run_of (map string_bytes words.now)) }
    ensures range { IfOk result (λ run. IfSome run IsRun) }
{
    let command = run_command(alloc)?;
    match find_matches(command, words)? {
        Some(matches) => read_run(alloc, &matches),
        None => Ok(None),
    }
}

// The trace that words ask for, the first of which is `trace`.
#[tactic(auto, unfolding(crate::specs::Commands::trace_of))]
fn read_trace_words<'a>(alloc: Global, words: &'a [String]) -> Result<Option<Trace<'a>>, NoMemory>
    ensures read { IfOk result (λ trace.
        option_map trace_seen trace ≡ trace_of (map string_bytes words.now)) }
    ensures range { IfOk result (λ trace. IfSome trace IsTrace) }
{
    let command = trace_command(alloc)?;
    match find_matches(command, words)? {
        Some(matches) => read_trace(alloc, &matches),
        None => Ok(None),
    }
}

// The check that words ask for, the first of which is `check`.
#[tactic(auto, unfolding(crate::specs::Commands::check_of))]
fn read_check_words<'a>(alloc: Global, words: &'a [String]) -> Result<Option<Check<'a>>, NoMemory>
    ensures { IfOk result (λ check.
        option_map check_seen check ≡ check_of (map string_bytes words.now)) }
{
    let command = check_command(alloc)?;
    match find_matches(command, words)? {
        Some(matches) => Ok(read_check(&matches)),
        None => Ok(None),
    }
}

// The making that words ask for, the first of which is `make`.
#[tactic(auto, unfolding(crate::specs::Commands::make_of))]
fn read_make_words(alloc: Global, words: &[String]) -> Result<Option<Make>, NoMemory>
    ensures read { IfOk result (λ make.
        option_map make_seen make ≡ make_of (map string_bytes words.now)) }
    ensures range { IfOk result (λ make. IfSome make (λ make. InRange make.options)) }
{
    let command = make_command(alloc)?;
    match find_matches(command, words)? {
        Some(matches) => Ok(read_make(&matches)),
        None => Ok(None),
    }
}

// The summary that words ask for, the first of which is `map`.
#[tactic(auto, unfolding(crate::specs::Commands::map_of))]
fn read_map_words<'a>(alloc: Global, words: &'a [String]) -> Result<Option<Map<'a>>, NoMemory>
    ensures read { IfOk result (λ part.
        option_map map_seen part ≡ map_of (map string_bytes words.now)) }
    ensures range { IfOk result (λ part. IfSome part IsMap) }
{
    let command = map_command(alloc)?;
    match find_matches(command, words)? {
        Some(matches) => read_map(alloc, &matches),
        None => Ok(None),
    }
}

// The report on saved runs that words ask for, the first of which is `reduce`.
#[tactic(auto, unfolding(crate::specs::Commands::reduce_of))]
fn read_reduce_words<'a>(alloc: Global, words: &'a [String]) -> Result<Option<Reduce<'a>>, NoMemory>
    ensures read { IfOk result (λ reduce.
        option_map reduce_seen reduce ≡ reduce_of (map string_bytes words.now)) }
    ensures range { IfOk result (λ reduce. IfSome reduce IsReduce) }
{
    let command = reduce_command(alloc)?;
    match find_matches(command, words)? {
        Some(matches) => read_reduce(alloc, &matches),
        None => Ok(None),
    }
}

// The join of saved runs that words ask for, the first of which is `join`.
#[tactic(auto, unfolding(crate::specs::Commands::join_of))]
fn read_join_words<'a>(alloc: Global, words: &'a [String]) -> Result<Option<Join<'a>>, NoMemory>
    ensures read { IfOk result (λ join.
        option_map join_seen join ≡ join_of (map string_bytes words.now)) }
    ensures range { IfOk result (λ join. IfSome join IsJoin) }
{
    let command = join_command(alloc)?;
    match find_matches(command, words)? {
        Some(matches) => read_join(alloc, &matches),
        None => Ok(None),
    }
}

// The command of this name that words ask for.
fn read_command<'a>(
    alloc: Global,
    name: &str,
    words: &'a [String],
) -> Result<Option<Command<'a>>, NoMemory>
    ensures read { IfOk result (λ command.
        option_map command_seen command ≡ command_by name.now (map string_bytes words.now)) }
    ensures range { IfOk result (λ command. IfSome command IsInRange) }
{
    if name == RUN_NAME {
        return match read_run_words(alloc, words)? {
            Some(run) => Ok(Some(Command::Run(run))),
            None => Ok(None),
        };
    }
    if name == TRACE_NAME {
        return match read_trace_words(alloc, words)? {
            Some(trace) => Ok(Some(Command::Trace(trace))),
            None => Ok(None),
        };
    }
    if name == CHECK_NAME {
        return match read_check_words(alloc, words)? {
            Some(check) => Ok(Some(Command::Check(check))),
            None => Ok(None),
        };
    }
    if name == MAKE_NAME {
        return match read_make_words(alloc, words)? {
            Some(make) => Ok(Some(Command::Make(make))),
            None => Ok(None),
        };
    }
    if name == MAP_NAME {
        return match read_map_words(alloc, words)? {
            Some(part) => Ok(Some(Command::Map(part))),
            None => Ok(None),
        };
    }
    if name == REDUCE_NAME {
        return match read_reduce_words(alloc, words)? {
            Some(reduce) => Ok(Some(Command::Reduce(reduce))),
            None => Ok(None),
        };
    }
    if name == JOIN_NAME {
        return match read_join_words(alloc, words)? {
            Some(join) => Ok(Some(Command::Join(join))),
            None => Ok(None),
        };
    }
    Ok(None)
}

/// The command that the arguments ask for; `None` if they are those of none.
pub fn read_words<'a>(
    alloc: Global,
    words: &'a Vec<String>,
) -> Result<Option<Command<'a>>, NoMemory>
    ensures read { IfOk result (λ command.
        option_map command_seen command ≡ command_in (map string_bytes words.now.items)) }
    ensures range { IfOk result (λ command. IfSome command IsInRange) }
{
    let arguments = words.as_slice();
    match arguments {
        [] => Ok(None),
        [name, ..] => read_command(alloc, name.as_str(), arguments),
    }
}
