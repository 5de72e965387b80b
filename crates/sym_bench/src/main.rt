//! The program `sym_bench`: how long exploring takes beside the sequential step, how long paths
//! take to follow one another and to be settled, and how long a pass takes record by record and by
//! runs, over a log that is made or read. What it finds is written on standard output, and the
//! processor time on standard error.
#![tactic(auto)]

ghost use Rattle.std.specs.Prelude.{◌≤◌, length};
ghost use Rattle.sym_base.specs.declared.limits.TheConstants as limits;

mod chain;
mod comparison;
mod files;
mod log;
mod measures;
mod passes;
mod paths;
mod rounds;
mod scripts;
mod shown;
mod stop;
mod workloads;

use crate::comparison::compare;
use crate::files::bytes_of;
use crate::log::records_of;
use crate::measures::{Way, measured};
use crate::paths::{Kind, Timed, follow_in_turn, settle_in_turn};
use crate::rounds::CHUNKS;
use crate::scripts::{LISTS, checked_script, text_of};
use crate::shown::shown;
use crate::stop::Stop;
use crate::workloads::{log_of, workload_of};
use std::env;
use std::process::ExitCode;
use std::rt::{Env, Files};
use std::time::CpuClock;
use sym_check::Checked;

fn main(rt: HostRuntime) -> ExitCode {
    match run(&rt) {
        Ok(()) => ExitCode::SUCCESS,
        Err(stop) => ExitCode::from(stop.number()),
    }
}

/// The words after the program's name.
fn words_of<R: Env + AllocGlobal>(rt: &R) -> Result<Vec<String>, Stop> {
    let words = env::args(rt)?;
    Ok(words.skip(1).collect(rt.alloc())?)
}

fn word_at(words: &[String], index: usize) -> Result<&str, Stop> {
    match words.get(index) {
        Some(word) => Ok(word.as_str()),
        None => Err(Stop::Usage),
    }
}

fn number_at(words: &[String], index: usize) -> Result<u32, Stop> {
    match word_at(words, index)?.parse::<u32>() {
        Ok(number) => Ok(number),
        Err(_) => Err(Stop::Usage),
    }
}

/// `explore SCRIPT ROUNDS LIMIT`, `settle apart|touching|equal PATHS LENGTH TURNS`,
/// `follow moved|copied LENGTH TURNS`, `pass WAY WORKLOAD RECORDS LIMIT [CHUNKS]` or
/// `file WAY SCRIPT FILE LIMIT [CHUNKS]`, where WAY is `log`, `rows`, `fold`, `runs` or `joins`.
fn run<R: Env + Files + AllocGlobal + CpuClock + Print + Eprint>(rt: &R) -> Result<(), Stop> {
    let words = words_of(rt)?;
    let command = word_at(&words, 0)?;
    if command == "explore" {
        explore(rt, &words)
    } else if command == "settle" {
        settle(rt, &words)
    } else if command == "follow" {
        follow(rt, &words)
    } else if command == "pass" {
        pass(rt, &words)
    } else if command == "file" {
        file(rt, &words)
    } else {
        Err(Stop::Usage)
    }
}

/// Compares exploring with the sequential step.
fn explore<R: AllocGlobal + CpuClock + Print + Eprint>(
    rt: &R,
    words: &[String],
) -> Result<(), Stop> {
    let name = word_at(words, 1)?;
    let rounds = number_at(words, 2)?;
    let limit = number_at(words, 3)?;
    let checked = checked_script(rt.alloc(), text_of(name)?.as_bytes())?;
    explore_script(rt, &checked, name, rounds, limit)
}

fn explore_script<R: AllocGlobal + CpuClock + Print + Eprint>(
    rt: &R,
    checked: &Checked,
    name: &str,
    rounds: u32,
    limit: u32,
) -> Result<(), Stop> {
    let alloc = rt.alloc();
    let mut records = records_of(alloc, checked)?;
    let found = compare(rt, alloc, checked, &mut records, rounds, limit)?;
    let segments = found.segments;
    let paths = found.paths;
    let steps = shown(alloc, &found.stepped)?;
    let ends = shown(alloc, &found.explored)?;
    println!(rt; "{name}: {segments} segments, {paths} paths; steps {steps}, explored {ends}")?;
    let step = found.step_time.as_nanos();
    let explore = found.explore_time.as_nanos();
    eprintln!(rt; "step {step} explore {explore}")?;
    Ok(())
}

fn tell<R: Print + Eprint>(rt: &R, command: &str, timed: Timed) -> Result<(), Stop> {
    let count = timed.count;
    println!(rt; "{command}: {count}")?;
    let time = timed.time.as_nanos();
    eprintln!(rt; "{command} {time}")?;
    Ok(())
}

fn kind_of(word: &str) -> Result<Kind, Stop> {
    if word == "apart" {
        Ok(Kind::Apart)
    } else if word == "touching" {
        Ok(Kind::Touching)
    } else if word == "equal" {
        Ok(Kind::Equal)
    } else {
        Err(Stop::Usage)
    }
}

/// Settles lists of paths.
fn settle<R: AllocGlobal + CpuClock + Print + Eprint>(
    rt: &R,
    words: &[String],
) -> Result<(), Stop> {
    let kind = kind_of(word_at(words, 1)?)?;
    let size = (number_at(words, 2)?, number_at(words, 3)?);
    let turns = number_at(words, 4)?;
    let checked = checked_script(rt.alloc(), LISTS.as_bytes())?;
    settle_lists(rt, &checked, kind, size, turns)
}

fn settle_lists<R: AllocGlobal + CpuClock + Print + Eprint>(
    rt: &R,
    checked: &Checked,
    kind: Kind,
    size: (u32, u32),
    turns: u32,
) -> Result<(), Stop> {
    let timed = settle_in_turn(rt, rt.alloc(), checked, kind, size, turns)?;
    tell(rt, "settle", timed)
}

fn is_moved(word: &str) -> Result<bool, Stop> {
    if word == "moved" {
        Ok(true)
    } else if word == "copied" {
        Ok(false)
    } else {
        Err(Stop::Usage)
    }
}

/// Follows paths by paths.
fn follow<R: AllocGlobal + CpuClock + Print + Eprint>(
    rt: &R,
    words: &[String],
) -> Result<(), Stop> {
    let is_moved = is_moved(word_at(words, 1)?)?;
    let length = number_at(words, 2)?;
    let turns = number_at(words, 3)?;
    let checked = checked_script(rt.alloc(), LISTS.as_bytes())?;
    follow_paths(rt, &checked, is_moved, length, turns)
}

fn follow_paths<R: AllocGlobal + CpuClock + Print + Eprint>(
    rt: &R,
    checked: &Checked,
    is_moved: bool,
    length: u32,
    turns: u32,
) -> Result<(), Stop> {
    let timed = follow_in_turn(rt, rt.alloc(), checked, is_moved, length, turns)?;
    tell(rt, "follow", timed)
}

fn way_of(word: &str) -> Result<Way, Stop> {
    if word == "log" {
        Ok(Way::Log)
    } else if word == "rows" {
        Ok(Way::Rows)
    } else if word == "fold" {
        Ok(Way::Fold)
    } else if word == "runs" {
        Ok(Way::Runs)
    } else if word == "joins" {
        Ok(Way::Joins)
    } else {
        Err(Stop::Usage)
    }
}

/// How many chunks a round has at most; all that it may have where the word is missing.
fn chunks_at(words: &[String], index: usize) -> Result<u32, Stop> {
    if words.len() <= index {
        return Ok(CHUNKS);
    }
    number_at(words, index)
}

/// Takes a pass over a log that is made.
fn pass<R: AllocGlobal + CpuClock + Print + Eprint>(rt: &R, words: &[String]) -> Result<(), Stop> {
    let workload = workload_of(word_at(words, 2)?)?;
    let log = log_of(rt.alloc(), workload, number_at(words, 3)?)?;
    pass_over(rt, words, workload.script.as_bytes(), log.as_bytes())
}

/// Takes a pass over the log of a file, by the script of another one.
fn file<R: Files + AllocGlobal + CpuClock + Print + Eprint>(
    rt: &R,
    words: &[String],
) -> Result<(), Stop> {
    let script = bytes_of(rt, word_at(words, 2)?)?;
    let log = bytes_of(rt, word_at(words, 3)?)?;
    pass_over(rt, words, script.as_slice(), log.as_slice())
}

/// Takes the pass that the words ask for over a log.
fn pass_over<R: AllocGlobal + CpuClock + Print + Eprint>(
    rt: &R,
    words: &[String],
    script: &[u8],
    log: &[u8],
) -> Result<(), Stop>
    requires { length log.now ≤ limits.FILE_MAX }
{
    let way = way_of(word_at(words, 1)?)?;
    let limit = number_at(words, 4)?;
    let most = chunks_at(words, 5)?;
    let checked = checked_script(rt.alloc(), script)?;
    let found = measured(rt, rt.alloc(), &checked, log, way, limit, most)?;
    let text = found.text;
    println!(rt; "{text}")?;
    let time = found.time.as_nanos();
    eprintln!(rt; "pass {time}")?;
    Ok(())
}
