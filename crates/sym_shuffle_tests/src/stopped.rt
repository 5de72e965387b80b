//! Logs with rows that are no records: the first one counts.
use crate::comparing::Case;
use crate::logs::{Draw, Log};
use crate::scripts::{BY_LABEL, GAMES};
use std::test::Fail;
use sym_given::check_threaded_cases;
use sym_given::scripts::SMALL_SUMS;

const NONE: Log = Log::Text("");

#[test]
fn the_first_bad_row_is_found_in_any_stretch(rt: HostRuntime) -> Result<(), Fail> {
    let before = Log::Text("user,x\na,1\nd,2\n");
    let first = Log::Text("user,x\na,z\nb,1\nc,1\nd,1\ne,1\n");
    let middle = Log::Text("user,x\na,1\nb,1\nc,z\nd,1\ne,1\n");
    let last = Log::Text("user,x\na,1\nb,1\nc,1\nd,1\ne\n");
    let two = Log::Text("user,x\na,1\nb,z\nc,1\nd\ne,1\n");
    let ends = Log::Text("user,x\na\nb,1\nc,1\nd,1\ne,z\n");
    let each = Log::Text("user,x\na,1,1\nb,z\nc\nd,z\ne\n");
    let labels = Log::Text("x,end\n1,win\n2,won\n");
    let cases = [
        Case(SMALL_SUMS, NONE, first, 1, Some("row 1: Number(1)\n")),
        Case(SMALL_SUMS, before, first, 2, Some("row 1: Number(1)\n")),
        Case(SMALL_SUMS, NONE, middle, 1, Some("row 3: Number(1)\n")),
        Case(SMALL_SUMS, before, middle, 2, Some("row 3: Number(1)\n")),
        Case(SMALL_SUMS, NONE, last, 1, Some("row 5: Fields(1)\n")),
        Case(SMALL_SUMS, before, last, 2, Some("row 5: Fields(1)\n")),
        Case(SMALL_SUMS, NONE, two, 1, Some("row 2: Number(1)\n")),
        Case(SMALL_SUMS, before, two, 2, Some("row 2: Number(1)\n")),
        Case(SMALL_SUMS, NONE, ends, 1, Some("row 1: Fields(1)\n")),
        Case(SMALL_SUMS, before, ends, 1_024, Some("row 1: Fields(1)\n")),
        Case(SMALL_SUMS, before, each, 1, Some("row 1: Fields(3)\n")),
        Case(BY_LABEL, NONE, labels, 1, Some("row 2: Label(0)\n")),
    ];
    check_threaded_cases(&rt, rt.alloc(), &cases)
}

// A log of which two rows are no records.
const fn log(bad: [u32; 2]) -> Log {
    Log::Drawn(Draw {
        seed: 9,
        records: 3_000,
        users: 90,
        is_skewed: false,
        bad,
    })
}

#[test]
fn the_first_bad_row_of_many_is_found(rt: HostRuntime) -> Result<(), Fail> {
    let before = log([0, 0]);
    let cases = [
        Case(
            SMALL_SUMS,
            before,
            log([1, 3_000]),
            50,
            Some("row 1: Number(1)\n"),
        ),
        Case(
            SMALL_SUMS,
            before,
            log([1_500, 1_501]),
            50,
            Some("row 1500: Number(1)\n"),
        ),
        Case(
            SMALL_SUMS,
            NONE,
            log([2_951, 1_999]),
            50,
            Some("row 1999: Number(1)\n"),
        ),
        Case(
            SMALL_SUMS,
            NONE,
            log([3_000, 0]),
            50,
            Some("row 3000: Number(1)\n"),
        ),
        // The script doesn't read the column.
        Case(GAMES, NONE, log([3_000, 1]), 50, None),
    ];
    check_threaded_cases(&rt, rt.alloc(), &cases)
}
