//! Logs of records that a fixed generator draws, beside folding record by record.
use crate::comparing::{ByMany, Case};
use crate::logs::{Draw, Log};
use crate::scripts::{ALL, BY_LABEL, BY_NUMBER, COUNTS, GAMES, QUOTIENTS, SESSIONS};
use std::test::Fail;
use sym_given::check_threaded_cases;
use sym_given::scripts::SMALL_SUMS;

const NONE: Log = Log::Text("");

// A log of records of so many users.
const fn drawn(seed: u32, records: u32, users: u32, is_skewed: bool) -> Log {
    Log::Drawn(Draw {
        seed,
        records,
        users,
        is_skewed,
        bad: [0, 0],
    })
}

#[test]
fn several_threads_step_what_one_does(rt: HostRuntime) -> Result<(), Fail> {
    let few = drawn(1, 500, 30, false);
    let cases = [
        Case(SMALL_SUMS, NONE, drawn(2, 3_000, 400, false), 50, None),
        Case(SMALL_SUMS, few, drawn(3, 3_000, 60, false), 1_024, None),
        Case(SESSIONS, few, drawn(4, 3_000, 900, false), 47, None),
        Case(GAMES, few, drawn(5, 3_000, 90, false), 48, None),
        Case(BY_NUMBER, few, drawn(6, 2_000, 90, false), 32, None),
        Case(BY_LABEL, NONE, drawn(7, 2_000, 90, false), 32, None),
        Case(QUOTIENTS, few, drawn(8, 3_000, 1_500, false), 64, None),
        Case(ALL, few, drawn(9, 2_000, 90, false), 100, None),
    ];
    check_threaded_cases(&rt, rt.alloc(), &cases)
}

#[test]
fn one_group_may_have_most_records(rt: HostRuntime) -> Result<(), Fail> {
    let some = drawn(11, 400, 200, true);
    let cases = [
        Case(SESSIONS, NONE, drawn(12, 4_000, 300, true), 64, None),
        Case(SESSIONS, some, drawn(13, 4_000, 2, true), 64, None),
        Case(COUNTS, some, drawn(14, 4_000, 1, true), 64, None),
        Case(COUNTS, NONE, drawn(15, 4_000, 4_000, true), 20, None),
    ];
    check_threaded_cases(&rt, rt.alloc(), &cases)
}

#[test]
fn sixty_four_threads_step_what_one_does(rt: HostRuntime) -> Result<(), Fail> {
    let some = drawn(21, 900, 700, false);
    let most = Case(SESSIONS, some, drawn(22, 33_000, 1_000, false), 600, None);
    check_threaded_cases(&rt, rt.alloc(), &[ByMany(most)])
}
