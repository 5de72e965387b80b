//! Small logs, worked by hand, in chunks of several sizes and by several workers.
use crate::logs::{FIVES, VISITS};
use crate::scanned::{Traced, Way, trace_log};
use crate::texts::text_of;
use std::alloc::Global;
use std::sync::Wait;
use std::test::Fail;
use std::thread::Threads;
use sym_base::NoMemory;
use sym_check::Checked;
use sym_given::scripts::{COUNTER, SHORT_SESSIONS, SMALL_SUMS};
use sym_given::{
    ThreadedCase, bytes_differ, check_threaded_cases, difference, found_unless, told_by,
};

/// A log, and its trace as a text of a line for each row: the number, the key, and then the columns
/// or the fault. Of a log with a row that is no record, the number of the first.
#[derive(Drop)]
struct Log(&'static str, &'static str, u64, Result<&'static str, u64>);

const CHUNKS: [u32; 3] = [1, 2, 1_024];

const WORKERS: [u32; 3] = [1, 4, 64];

impl Log {
    fn trace_differs(
        &self,
        alloc: Global,
        checked: &Checked,
        traced: &Traced,
    ) -> Result<Option<String>, NoMemory> {
        match (self.3, traced.bad) {
            (Ok(wanted), None) => {
                let text = text_of(alloc, checked, &traced.rows)?;
                bytes_differ(alloc, text.as_bytes(), wanted.as_bytes())
            }
            (Ok(_), Some(no)) => {
                Ok(Some(format!(in alloc; "found a bad row {no}, wanted none")?))
            }
            (Err(wanted), found) => difference(alloc, &found, &Some(wanted)),
        }
    }

    fn way_differs<T: Threads + Sync>(
        &self,
        rt: &T,
        alloc: Global,
        checked: &Checked,
        way: Way,
    ) -> Result<Option<String>, NoMemory> {
        match trace_log(rt, alloc, checked, self.1, way)? {
            Some(traced) => self.trace_differs(alloc, checked, &traced),
            None => found_unless(alloc, false, "found no header of the script"),
        }
    }

    fn workers_differ<T: Threads + Sync>(
        &self,
        rt: &T,
        alloc: Global,
        checked: &Checked,
        chunk: u32,
    ) -> Result<Option<String>, NoMemory> {
        'workers: for workers in WORKERS {
            let way = Way {
                chunk,
                workers,
                limit: 16,
                every: self.2,
            };
            let told = self.way_differs(rt, alloc, checked, way)?;
            if told.is_some() {
                return told_by(alloc, &way, told);
            }
        }
        Ok(None)
    }
}

impl ThreadedCase for Log {
    fn script(&self) -> &str {
        self.0
    }

    fn differs<T: Threads + Wait + Sync>(
        &self,
        rt: &T,
        alloc: Global,
        checked: &Checked,
    ) -> Result<Option<String>, NoMemory> {
        'chunks: for chunk in CHUNKS {
            let told = self.workers_differ(rt, alloc, checked, chunk)?;
            if told.is_some() {
                return Ok(told);
            }
        }
        Ok(None)
    }
}

#[test]
fn the_rows_of_small_logs_are_as_worked_by_hand(rt: HostRuntime) -> Result<(), Fail> {
    let cases = [
        Log(
            COUNTER,
            FIVES,
            1,
            Ok("1: 1\n2: 2\n3: 3\n4: over 0 at 4\n5: over 0 at 4\n"),
        ),
        Log(COUNTER, FIVES, 2, Ok("2: 2\n4: over 0 at 4\n")),
        Log(COUNTER, FIVES, 9, Ok("")),
        Log(COUNTER, "x\n", 1, Ok("")),
        Log(
            SHORT_SESSIONS,
            VISITS,
            1,
            Ok("1 a: 0 1 none\n2 a: 0 2 none\n3 a: 1 1 2\n4 b: 0 1 none\n5 a: 1 2 2\n"),
        ),
        Log(SHORT_SESSIONS, VISITS, 5, Ok("5 a: 1 2 2\n")),
        Log(
            SMALL_SUMS,
            "user,x\na,20\nb,-3\na,1\nb,4\na,-9\nb,\n",
            1,
            Ok("1 a: 20 20\n2 b: -3 -3\n3 a: over 0 at 3\n4 b: 1 1\n5 a: over 0 at 3\n6 b: 1 1\n"),
        ),
        Log(
            SMALL_SUMS,
            "user,x\na,20\nb,-3\na,1\nb,4\na,-9\nb,\n",
            3,
            Ok("3 a: over 0 at 3\n6 b: 1 1\n"),
        ),
    ];
    check_threaded_cases(&rt, rt.alloc(), &cases)
}

#[test]
fn the_first_row_that_is_no_record_is_found(rt: HostRuntime) -> Result<(), Fail> {
    let cases = [
        Log(SMALL_SUMS, "user,x\na,z\n", 1, Err(1)),
        Log(SMALL_SUMS, "user,x\na,1\na,1\nb,2\nb\nc,z\n", 1, Err(4)),
        Log(SMALL_SUMS, "user,x\na,1\na,1\nb,2\nb,2\nc,z\n", 9, Err(5)),
    ];
    check_threaded_cases(&rt, rt.alloc(), &cases)
}
