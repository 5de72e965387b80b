//! The end of a call, beside the one that is wanted.
use std::alloc::Global;
use sym_base::NoMemory;
use sym_given::{bytes_differ, difference};
use sym_top::Status;

/// What a call has to come to: its status, and what it writes to `out` and `err`.
#[derive(Clone, Copy)]
pub struct End {
    pub status: Status,
    pub out: &'static str,
    pub err: &'static str,
}

// What is said of one part of an end goes last.
fn push_told(text: &mut String, part: &str, told: Option<String>) -> Result<(), NoMemory> {
    if let Some(told) = told {
        text.push_str(part)?;
        text.push_str(told.as_str())?;
    }
    Ok(())
}

/// What is found and what is wanted of each part of an end that differs.
pub fn end_differs(
    alloc: Global,
    status: Status,
    out: &[u8],
    err: &[u8],
    wanted: &End,
) -> Result<Option<String>, NoMemory> {
    let mut text = String::new(alloc);
    push_told(
        &mut text,
        "status: ",
        difference(alloc, &status, &wanted.status)?,
    )?;
    push_told(
        &mut text,
        " out: ",
        bytes_differ(alloc, out, wanted.out.as_bytes())?,
    )?;
    push_told(
        &mut text,
        " err: ",
        bytes_differ(alloc, err, wanted.err.as_bytes())?,
    )?;
    if text.is_empty() {
        Ok(None)
    } else {
        Ok(Some(text))
    }
}
