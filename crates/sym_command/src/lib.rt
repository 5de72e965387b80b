//! From the arguments of a call to the command that they ask for, and the files that it names.
#![tactic(auto)]

mod arguments;
mod command_lines;
mod commands;
mod matches;
mod numbers;
mod place;
mod words;

pub use arguments::{FIRST_MAX, MADE_NAME};
pub use commands::{
    Check, Command, FileNames, Join, Make, Map, NamedFiles, Reduce, Run, Trace, file_name,
    shown_names,
};
pub use place::Place;
pub use words::read_words;
