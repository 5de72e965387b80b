//! The script of a text.
use std::alloc::Global;
use sym_check::{Checked, check};
use sym_parse::parse;

/// The script of a text; `None` if the text is refused.
pub fn accepted(alloc: Global, text: &str) -> Option<Checked> {
    if text.len() >= 10_000 {
        return None;
    }
    match parse(alloc, text.as_bytes()) {
        Ok(script) => check(alloc, script).ok(),
        Err(_) => None,
    }
}
