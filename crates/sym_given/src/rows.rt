//! Rows of tables, each tried under a checked script.
use crate::acceptance::accepted;
use crate::told::{all_hold, refused, told_at};
use std::alloc::Global;
use std::test::Fail;
use sym_base::NoMemory;
use sym_check::Checked;

/// A row of a table that is tried under one script.
pub trait Row {
    /// What is found in place of what is wanted; `None` if the row holds.
    fn differs(&self, alloc: Global, checked: &Checked) -> Result<Option<String>, NoMemory>;
}

/// A row of a table that has a script of its own.
pub trait Case {
    fn script(&self) -> &str;

    /// What is found under the script in place of what is wanted; `None` if the case holds.
    fn differs(&self, alloc: Global, checked: &Checked) -> Result<Option<String>, NoMemory>;
}

// What is said of the first row that doesn't hold.
fn first_of<R: Row>(
    alloc: Global,
    checked: &Checked,
    rows: &[R],
) -> Result<Option<String>, NoMemory> {
    'rows: for (place, row) in rows.iter().enumerate() {
        let told = row.differs(alloc, checked)?;
        if told.is_some() {
            return told_at(alloc, place, told);
        }
    }
    Ok(None)
}

fn first_under<R: Row>(alloc: Global, text: &str, rows: &[R]) -> Result<Option<String>, NoMemory> {
    match accepted(alloc, text) {
        Some(checked) => first_of(alloc, &checked, rows),
        None => refused(alloc, text),
    }
}

/// Fails the test at the first row that doesn't hold under the script of the text.
pub fn check_rows<R: Row>(alloc: Global, text: &str, rows: &[R]) -> Result<(), Fail> {
    all_hold(first_under(alloc, text, rows))
}

fn case_differs<C: Case>(alloc: Global, case: &C) -> Result<Option<String>, NoMemory> {
    match accepted(alloc, case.script()) {
        Some(checked) => case.differs(alloc, &checked),
        None => refused(alloc, case.script()),
    }
}

fn first_case<C: Case>(alloc: Global, cases: &[C]) -> Result<Option<String>, NoMemory> {
    'cases: for (place, case) in cases.iter().enumerate() {
        let told = case_differs(alloc, case)?;
        if told.is_some() {
            return told_at(alloc, place, told);
        }
    }
    Ok(None)
}

/// Fails the test at the first case that doesn't hold under its own script.
pub fn check_cases<C: Case>(alloc: Global, cases: &[C]) -> Result<(), Fail> {
    all_hold(first_case(alloc, cases))
}
