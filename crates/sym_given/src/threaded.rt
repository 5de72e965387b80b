//! Rows of tables, each tried with the threads of a runtime.
ghost use Rattle.std.specs.Thread.{IsSync};

use crate::acceptance::accepted;
use crate::told::{all_hold, refused, told_at};
use std::alloc::Global;
use std::sync::Wait;
use std::test::Fail;
use std::thread::Threads;
use sym_base::NoMemory;
use sym_check::Checked;

/// A row of a table that is tried with threads.
pub trait ThreadedRow {
    /// What is found in place of what is wanted; `None` if the row holds.
    fn differs<T: Threads + Wait + Sync>(
        &self,
        rt: &T,
        alloc: Global,
    ) -> Result<Option<String>, NoMemory>
        requires { IsSync T.row };
}

/// A row of a table that has a script of its own and is tried with threads.
pub trait ThreadedCase {
    fn script(&self) -> &str;

    /// What is found under the script in place of what is wanted; `None` if the case holds.
    fn differs<T: Threads + Wait + Sync>(
        &self,
        rt: &T,
        alloc: Global,
        checked: &Checked,
    ) -> Result<Option<String>, NoMemory>
        requires { IsSync T.row };
}

// What is said of the first row that doesn't hold.
fn first_row<T: Threads + Wait + Sync, R: ThreadedRow>(
    rt: &T,
    alloc: Global,
    rows: &[R],
) -> Result<Option<String>, NoMemory> {
    'rows: for (place, row) in rows.iter().enumerate() {
        let told = row.differs(rt, alloc)?;
        if told.is_some() {
            return told_at(alloc, place, told);
        }
    }
    Ok(None)
}

/// Fails the test at the first row that doesn't hold.
pub fn check_threaded_rows<T: Threads + Wait + Sync, R: ThreadedRow>(
    rt: &T,
    alloc: Global,
    rows: &[R],
) -> Result<(), Fail> {
    all_hold(first_row(rt, alloc, rows))
}

fn case_differs<T: Threads + Wait + Sync, C: ThreadedCase>(
    rt: &T,
    alloc: Global,
    case: &C,
) -> Result<Option<String>, NoMemory> {
    match accepted(alloc, case.script()) {
        Some(checked) => case.differs(rt, alloc, &checked),
        None => refused(alloc, case.script()),
    }
}

fn first_case<T: Threads + Wait + Sync, C: ThreadedCase>(
    rt: &T,
    alloc: Global,
    cases: &[C],
) -> Result<Option<String>, NoMemory> {
    'cases: for (place, case) in cases.iter().enumerate() {
        let told = case_differs(rt, alloc, case)?;
        if told.is_some() {
            return told_at(alloc, place, told);
        }
    }
    Ok(None)
}

/// Fails the test at the first case that doesn't hold under its own script.
pub fn check_threaded_cases<T: Threads + Wait + Sync, C: ThreadedCase>(
    rt: &T,
    alloc: Global,
    cases: &[C],
) -> Result<(), Fail> {
    all_hold(first_case(rt, alloc, cases))
}
