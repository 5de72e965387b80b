//! What was found for each argument of a command line.
ghost use Rattle.std.specs.Prelude.{◌≡◌, ◌≤◌, map, length, IfOk, IfSome};
ghost use Rattle.std.specs.Option.{option_map};
ghost use Rattle.std.specs.String.{string_bytes};
ghost use Rattle.clap.specs.Words.{found_of, rows_of, first_of, all_of};
ghost use Rattle.sym_base.specs.declared.limits.TheConstants as limit;
ghost use Rattle.sym_files.specs.Options.{InRange};
ghost use Rattle.sym_command.specs.Commands.{number_found, word_number, flag_found, options_found, run_options as run_options_of, form_found, files_found, run_found, trace_found, check_found, make_found, map_found, reduce_found, join_found};
ghost use Rattle.sym_command.specs.Words.{run_seen, trace_seen, check_seen, make_seen, map_seen, reduce_seen, join_seen, IsRun, IsTrace, IsMap, IsReduce, IsJoin};

use crate::arguments::{
    CHUNK_NAME, CHUNKS, EVERY, EVERY_NAME, FILES_NAME, FIRST_NAME, FIRSTS, FORM_DEFAULT, FORM_NAME,
    GIVEN, LIMIT_NAME, LIMITS, MAX_BYTES, MAX_BYTES_NAME, PRINT_NAME, RECORDS, RECORDS_NAME,
    SCRIPT_NAME, SEED_NAME, SEEDS, WATCH_NAME, WORKERS, WORKERS_NAME,
};
use crate::commands::{Check, Join, Make, Map, Reduce, Run, Trace};
use crate::numbers::{NumberOption, NumberRange, number_or_default, number_within};
use clap::ArgMatches;
use std::alloc::Global;
use sym_base::{FILE_MAX_DEFAULT, FILES_MAX, NoMemory};
use sym_files::Options;

// The first text that was found for an argument.
fn text_of<'a>(matches: &ArgMatches<'a>, name: &str) -> Option<&'a str>
    ensures { option_map (λ text. text.now) result
        ≡ first_of name.now (rows_of (found_of matches.now)) }
{
    matches.get_str(name)
}

// The texts that were found for an argument.
fn texts_of<'m>(matches: &'m ArgMatches<'_>, name: &str) -> Option<&'m [&'m str]>
    ensures { option_map (λ texts. map (λ text. text.now) texts.now) result
        ≡ all_of name.now (rows_of (found_of matches.now)) }
{
    matches.get_raw(name)
}

// The number of an option.
fn read_option(matches: &ArgMatches<'_>, name: &str, option: NumberOption) -> Option<u64>
    requires least { option.range.least ≤ option.default }
    requires most { option.default ≤ option.range.most }
    ensures read { result ≡ number_found option name.now (rows_of (found_of matches.now)) }
    ensures least { IfSome result (λ number. option.range.least ≤ number) }
    ensures most { IfSome result (λ number. number ≤ option.range.most) }
{
    number_or_default(text_of(matches, name), option)
}

// The number of a word.
fn read_word(matches: &ArgMatches<'_>, name: &str, range: NumberRange) -> Option<u64>
    ensures read { result ≡ word_number range name.now (rows_of (found_of matches.now)) }
    ensures most { IfSome result (λ number. number ≤ range.most) }
{
    let text = text_of(matches, name)?;
    number_within(text, range)
}

// Whether a flag is given.
fn read_flag(matches: &ArgMatches<'_>, name: &str) -> bool
    ensures { result ≡ flag_found name.now (rows_of (found_of matches.now)) }
{
    match text_of(matches, name) {
        Some(text) => text == GIVEN,
        None => false,
    }
}

// How files are cut and worked on, each with at most `max_bytes` bytes.
#[tactic(auto, unfolding(crate::specs::Commands::options_found))]
fn read_options(matches: &ArgMatches<'_>, max_bytes: u64) -> Option<Options>
    requires { max_bytes ≤ limit.FILE_MAX }
    ensures read { result ≡ options_found (rows_of (found_of matches.now)) max_bytes }
    ensures range { IfSome result InRange }
{
    let chunk = read_option(matches, CHUNK_NAME, CHUNKS)?;
    let limit = read_option(matches, LIMIT_NAME, LIMITS)?;
    let workers = read_option(matches, WORKERS_NAME, WORKERS)?;
    Some(Options {
        chunk: chunk as u32,
        limit: limit as u32,
        workers: workers as u32,
        max_bytes,
    })
}

#[tactic(auto, unfolding(crate::specs::Commands::run_options))]
fn read_run_options(matches: &ArgMatches<'_>) -> Option<Options>
    ensures read { result ≡ run_options_of (rows_of (found_of matches.now)) }
    ensures range { IfSome result InRange }
{
    let max_bytes = read_option(matches, MAX_BYTES_NAME, MAX_BYTES)?;
    read_options(matches, max_bytes)
}

// The form of the report.
fn read_form<'a>(matches: &ArgMatches<'a>) -> &'a str
    ensures { result.now ≡ form_found (rows_of (found_of matches.now)) }
{
    match text_of(matches, FORM_NAME) {
        Some(form) => form,
        None => FORM_DEFAULT,
    }
}

// The names of the files of records, where they aren't too many.
#[tactic(auto, unfolding(crate::specs::Commands::files_found))]
fn read_files<'m>(matches: &'m ArgMatches<'_>) -> Option<&'m [&'m str]>
    ensures read { option_map (λ files. map (λ file. file.now) files.now) result
        ≡ files_found (rows_of (found_of matches.now)) }
    ensures few { IfSome result (λ files. length files.now ≤ limit.FILES_MAX) }
{
    let files = texts_of(matches, FILES_NAME)?;
    if files.len() <= FILES_MAX {
        Some(files)
    } else {
        None
    }
}

// Copies names.
fn copy_names(alloc: Global, names: &[&str]) -> Result<Vec<String>, NoMemory>
    ensures { IfOk result (λ copy. map string_bytes copy.items ≡ map (λ name. name.now) names.now) }
{
    let mut copy = Vec::new(alloc);
    'names: for name in names {
        copy.push(String::from_str(alloc, name)?)?;
    }
    Ok(copy)
}

/// The run that was found for the arguments of its command line, where each is as it must be.
#[tactic(auto, unfolding(crate::specs::Commands::run_found))]
pub fn read_run<'a>(alloc: Global, matches: &ArgMatches<'a>) -> Result<Option<Run<'a>>, NoMemory>
    ensures read { IfOk result (λ run.
        option_map run_seen run ≡ run_found (rows_of (found_of matches.now))) }
    ensures range { IfOk result (λ run. IfSome run IsRun) }
{
    let Some(options) = read_run_options(matches) else {
        return Ok(None);
    };
    let Some(script) = text_of(matches, SCRIPT_NAME) else {
        return Ok(None);
    };
    let Some(names) = read_files(matches) else {
        return Ok(None);
    };
    Ok(Some(Run {
        form: read_form(matches),
        options,
        watch: read_flag(matches, WATCH_NAME),
        script,
        files: copy_names(alloc, names)?,
    }))
}

/// The trace that was found.
#[tactic(auto, unfolding(crate::specs::Commands::trace_found))]
pub fn read_trace<'a>(
    alloc: Global,
    matches: &ArgMatches<'a>,
) -> Result<Option<Trace<'a>>, NoMemory>
    ensures read { IfOk result (λ trace.
        option_map trace_seen trace ≡ trace_found (rows_of (found_of matches.now))) }
    ensures range { IfOk result (λ trace. IfSome trace IsTrace) }
{
    let Some(options) = read_run_options(matches) else {
        return Ok(None);
    };
    let Some(every) = read_option(matches, EVERY_NAME, EVERY) else {
        return Ok(None);
    };
    let Some(script) = text_of(matches, SCRIPT_NAME) else {
        return Ok(None);
    };
    let Some(names) = read_files(matches) else {
        return Ok(None);
    };
    Ok(Some(Trace {
        form: read_form(matches),
        every,
        options,
        script,
        files: copy_names(alloc, names)?,
    }))
}

/// The check that was found.
#[tactic(auto, unfolding(crate::specs::Commands::check_found))]
pub fn read_check<'a>(matches: &ArgMatches<'a>) -> Option<Check<'a>>
    ensures { option_map check_seen result ≡ check_found (rows_of (found_of matches.now)) }
{
    let script = text_of(matches, SCRIPT_NAME)?;
    Some(Check {
        script,
        print: read_flag(matches, PRINT_NAME),
    })
}

/// The making that was found.
#[tactic(auto, unfolding(crate::specs::Commands::make_found))]
pub fn read_make(matches: &ArgMatches<'_>) -> Option<Make>
    ensures read { option_map make_seen result ≡ make_found (rows_of (found_of matches.now)) }
    ensures range { IfSome result (λ make. InRange make.options) }
{
    let options = read_options(matches, FILE_MAX_DEFAULT)?;
    let records = read_word(matches, RECORDS_NAME, RECORDS)?;
    let seed = read_word(matches, SEED_NAME, SEEDS)?;
    Some(Make {
        options,
        records: records as u32,
        seed: seed as u32,
    })
}

/// The summary of a part that was found.
#[tactic(auto, unfolding(crate::specs::Commands::map_found))]
pub fn read_map<'a>(alloc: Global, matches: &ArgMatches<'a>) -> Result<Option<Map<'a>>, NoMemory>
    ensures read { IfOk result (λ part.
        option_map map_seen part ≡ map_found (rows_of (found_of matches.now))) }
    ensures range { IfOk result (λ part. IfSome part IsMap) }
{
    let Some(first) = read_option(matches, FIRST_NAME, FIRSTS) else {
        return Ok(None);
    };
    let Some(options) = read_run_options(matches) else {
        return Ok(None);
    };
    let Some(script) = text_of(matches, SCRIPT_NAME) else {
        return Ok(None);
    };
    let Some(names) = read_files(matches) else {
        return Ok(None);
    };
    Ok(Some(Map {
        first,
        options,
        script,
        files: copy_names(alloc, names)?,
    }))
}

/// The report on saved runs that was found.
#[tactic(auto, unfolding(crate::specs::Commands::reduce_found))]
pub fn read_reduce<'a>(
    alloc: Global,
    matches: &ArgMatches<'a>,
) -> Result<Option<Reduce<'a>>, NoMemory>
    ensures read { IfOk result (λ reduce.
        option_map reduce_seen reduce ≡ reduce_found (rows_of (found_of matches.now))) }
    ensures range { IfOk result (λ reduce. IfSome reduce IsReduce) }
{
    let Some(max_bytes) = read_option(matches, MAX_BYTES_NAME, MAX_BYTES) else {
        return Ok(None);
    };
    let Some(script) = text_of(matches, SCRIPT_NAME) else {
        return Ok(None);
    };
    let Some(names) = read_files(matches) else {
        return Ok(None);
    };
    Ok(Some(Reduce {
        form: read_form(matches),
        max_bytes,
        script,
        files: copy_names(alloc, names)?,
    }))
}

/// The join of saved runs that was found.
#[tactic(auto, unfolding(crate::specs::Commands::join_found))]
pub fn read_join<'a>(alloc: Global, matches: &ArgMatches<'a>) -> Result<Option<Join<'a>>, NoMemory>
    ensures read { IfOk result (λ join.
        option_map join_seen join ≡ join_found (rows_of (found_of matches.now))) }
    ensures range { IfOk result (λ join. IfSome join IsJoin) }
{
    let Some(limit) = read_option(matches, LIMIT_NAME, LIMITS) else {
        return Ok(None);
    };
    let Some(max_bytes) = read_option(matches, MAX_BYTES_NAME, MAX_BYTES) else {
        return Ok(None);
    };
    let Some(script) = text_of(matches, SCRIPT_NAME) else {
        return Ok(None);
    };
    let Some(names) = read_files(matches) else {
        return Ok(None);
    };
    Ok(Some(Join {
        limit: limit as u32,
        max_bytes,
        script,
        files: copy_names(alloc, names)?,
    }))
}
