//! Records explored from an unknown state, against the sequential step at states.
ghost use Rattle.sym_check.specs.Checking.CheckedScripts.{checked_plan};
ghost use Rattle.sym_check.specs.Meaning.Validity.{IsRecord};

use crate::comparing::{Case, first_of, record};
use crate::setting::{Stop, holds, none_told, told_of};
use std::alloc::Global;
use std::test::Fail;
use sym_base::{Fault, FaultKind, NoMemory, Record};
use sym_check::Checked;
use sym_explore::{Grown, extend, fresh, grow};
use sym_given::scripts::SESSIONS;
use sym_given::{Row, all_hold, check_rows, difference};
use sym_path::{PathEnd, Segment};

/// No number of the cell makes the sides equal.
const ONE: Case = Case {
    script: "field x: num; state n: int [0..10] = 0; \
        update { if 2 * n + 1 == 4 { n = 0; } } report { n = n; }",
    header: "x",
    lines: "1",
    limit: 64,
    segments: 1,
    paths: 1,
    numbers: (0, 11),
    labels: 1,
    parts: &[0],
    faults: 0,
    pushed: 0,
};

/// A number doubles 200 times.
const DOUBLES: Case = Case {
    script: "field x: num; state n: int [0..1000000000000] = 0; \
        update { n = 2 * n; } report { n = n; }",
    lines: "1 1 1 1 1 1 1 1 1 1 1 1 1 1 1 1 1 1 1 1 1 1 1 1 1 1 1 1 1 1 1 1 1 1 1 1 1 1 1 1 \
        1 1 1 1 1 1 1 1 1 1 1 1 1 1 1 1 1 1 1 1 1 1 1 1 1 1 1 1 1 1 1 1 1 1 1 1 1 1 1 1 \
        1 1 1 1 1 1 1 1 1 1 1 1 1 1 1 1 1 1 1 1 1 1 1 1 1 1 1 1 1 1 1 1 1 1 1 1 1 1 1 1 \
        1 1 1 1 1 1 1 1 1 1 1 1 1 1 1 1 1 1 1 1 1 1 1 1 1 1 1 1 1 1 1 1 1 1 1 1 1 1 1 1 \
        1 1 1 1 1 1 1 1 1 1 1 1 1 1 1 1 1 1 1 1 1 1 1 1 1 1 1 1 1 1 1 1 1 1 1 1 1 1 1 1",
    paths: 41,
    numbers: (0, 20),
    faults: 19,
    ..ONE
};

/// Cells of all kinds are copied, kept and pushed to.
const KINDS: Case = Case {
    script: "enum mode { idle, busy } field x: num; field w: word; state a: mode = idle; \
        state b: mode = busy; state h: hold(num = 0); state g: hold(num = 1); \
        state n: int [0..9] = 0; state xs: nums [0..9]; state ws: words; \
        test far(p: num, q: num) = q - p > 2; \
        update { if far(h, x) or n >= 7 { a = b; keep g from h; push ws w; } \
            else { b = idle; push xs 9 - n; keep h(x + 1); } n = x; } report { n = n; }",
    header: "x,w",
    lines: "3,u 9,v",
    paths: 5,
    numbers: (5, 10),
    labels: 2,
    parts: &[0, 1, 3],
    pushed: 60,
    ..ONE
};

const CASES: [Case; 19] = [
    ONE,
    // Each record may leave the range.
    Case {
        script: "field x: num; state n: int [0..3] = 0; update { n = n + 1; } report { n = n; }",
        lines: "1 1",
        paths: 3,
        numbers: (0, 4),
        faults: 2,
        ..ONE
    },
    Case {
        script: "field x: num; state n: int [0..10] = 0; \
            update { n = -1 * n + 10; } report { n = n; }",
        lines: "1 1 1 1 1 1 1",
        ..ONE
    },
    Case {
        script: "enum mode { idle, busy } field x: num; state phase: mode = idle; \
            update { if phase is idle { phase = busy; } else { phase = idle; } } \
            report { phase = phase; }",
        lines: "1 1 1",
        paths: 2,
        numbers: (0, 1),
        labels: 2,
        ..ONE
    },
    Case {
        script: "enum case { k1, k2, k3, k4, k5, k6 } field x: num; state c: case = k1; \
            update { if c is k1 or c is k2 or c is k3 or c is k4 { c = k5; } } report { c = c; }",
        paths: 2,
        numbers: (0, 1),
        labels: 6,
        ..ONE
    },
    Case {
        script: "enum mode { idle, busy } field x: num; state phase: mode = idle; \
            state n: int [0..10] = 0; \
            update { if n < 5 and phase is idle { n = 0; } } report { n = n; }",
        paths: 3,
        labels: 2,
        ..ONE
    },
    Case {
        script: SESSIONS,
        header: "ts,user",
        lines: "60,a",
        paths: 3,
        numbers: (0, 4),
        parts: &[0, 29, 30, 60],
        pushed: 8,
        ..ONE
    },
    Case {
        script: SESSIONS,
        header: "ts,user",
        lines: "61,a",
        paths: 3,
        numbers: (997, 1001),
        parts: &[30, 31],
        faults: 1,
        pushed: 4,
        ..ONE
    },
    Case {
        script: SESSIONS,
        header: "ts,user",
        lines: "60,a 61,a",
        paths: 4,
        numbers: (997, 1001),
        parts: &[0, 29, 30, 60],
        faults: 4,
        pushed: 8,
        ..ONE
    },
    // A test whose subtraction leaves the range of numbers is false.
    Case {
        script: SESSIONS,
        header: "ts,user",
        lines: "1000000000000,a",
        paths: 3,
        numbers: (0, 4),
        parts: &[-1_000_000_000_000, 999_999_999_969, 999_999_999_970],
        pushed: 4,
        ..ONE
    },
    // Arithmetic that fails ends the group, whatever the cells hold.
    Case {
        script: "field x: num; state n: int [0..9] = 0; \
            update { n = n + 1; n = n + 3 / x; } report { n = n; }",
        lines: "3 0 5",
        paths: 3,
        numbers: (0, 10),
        faults: 10,
        ..ONE
    },
    // A fixed condition takes one side, and a local is known to the end of its block.
    Case {
        script: "field x: num; state n: int [-5..5] = 0; \
            update { let y = x - 2; if y > 0 { let z = y * 2; n = z - n; } else { n = n + y; } } \
            report { n = n; }",
        lines: "4 1",
        paths: 2,
        numbers: (-5, 6),
        faults: 4,
        ..ONE
    },
    KINDS,
    // The second record finds cells that differ and are unknown.
    Case {
        limit: 4,
        segments: 2,
        paths: 3,
        ..KINDS
    },
    Case {
        script: "field x: num; state n: int [0..20] = 0; \
            update { if n != 4 { if not (n > 9) { n = n + 2; } } else { n = 20; } } \
            report { n = n; }",
        lines: "1 1",
        paths: 7,
        numbers: (0, 21),
        ..ONE
    },
    // A segment over the limit isn't taken, and the next one begins at its record.
    Case {
        script: "enum mode { idle, busy } field x: num; state phase: mode = idle; \
            update { if phase is idle { phase = busy; } else { phase = idle; } } \
            report { phase = phase; }",
        lines: "1 1 1",
        limit: 1,
        segments: 3,
        paths: 2,
        numbers: (0, 1),
        labels: 2,
        ..ONE
    },
    // Numbers become the nearest end of a range, where they are assigned and where they are pushed.
    Case {
        script: "field x: num; state n: int [0..9] = 0 clamp; state xs: nums [-3..3] clamp; \
            update { push xs n - 4; n = 2 * n - x; } report { n = n; }",
        lines: "3 -4",
        paths: 5,
        numbers: (0, 10),
        pushed: 20,
        ..ONE
    },
    DOUBLES,
    Case {
        numbers: (999_999_999_998, 1_000_000_000_001),
        faults: 3,
        ..DOUBLES
    },
];

#[test]
fn segments_give_what_the_steps_give(rt: HostRuntime) -> Result<(), Fail> {
    all_hold(first_of(rt.alloc(), &CASES))
}

/// Whether some state ends at the record of this number, since its number of records overflows.
fn ends_at(segment: &Segment, no: u64) -> bool {
    let end = PathEnd::Ended(Fault {
        kind: FaultKind::Over(1),
        no,
    });
    segment.paths().iter().any(|path| path.end == end)
}

/// How many paths a segment has, and which of the records 3 and 5 can overflow.
#[derive(Clone, Copy, Debug, PartialEq, Eq)]
struct Ends {
    paths: usize,
    third: bool,
    fifth: bool,
}

/// Stops where the segment doesn't have the paths of two records, both of which can overflow.
pub(crate) fn has_both(alloc: Global, segment: &Segment) -> Result<(), Stop> {
    let found = Ends {
        paths: segment.paths().len(),
        third: ends_at(segment, 3),
        fifth: ends_at(segment, 5),
    };
    let wanted = Ends {
        paths: 4,
        third: true,
        fifth: true,
    };
    none_told(difference(alloc, &found, &wanted))
}

fn has_grown(alloc: Global, grown: &Grown, fits: bool) -> Result<(), Stop> {
    let (segment, found) = match grown {
        Grown::Fits(segment) => (segment, true),
        Grown::Over(segment) => (segment, false),
    };
    none_told(difference(alloc, &found, &fits))?;
    has_both(alloc, segment)
}

fn is_copied(alloc: Global, grown: &Grown) -> Result<(), Stop> {
    let same = grown.copy(alloc)? == *grown;
    holds(alloc, same, "found another segment, wanted a copy")
}

/// Stops where the segment of two records doesn't fit a limit as it should, by both calls.
fn grows(
    alloc: Global,
    checked: &Checked,
    first: &Record,
    second: &Record,
    limit: &Limit,
) -> Result<(), Stop>
    requires first { IsRecord (checked_plan checked.now) first.now }
    requires second { IsRecord (checked_plan checked.now) second.now }
{
    let segment = fresh(alloc, checked, first)?;
    let grown = extend(alloc, checked, &segment, second, limit.0)?;
    has_grown(alloc, &grown, limit.1)?;
    is_copied(alloc, &grown)?;
    let same = grow(alloc, checked, segment, second, limit.0)? == grown;
    holds(alloc, same, "found another segment by grow than by extend")
}

fn limit_holds(alloc: Global, checked: &Checked, limit: &Limit) -> Result<(), Stop> {
    let first = record(alloc, checked, "ts,user", "60,a", 3)?;
    let second = record(alloc, checked, "ts,user", "61,a", 5)?;
    grows(alloc, checked, &first, &second, limit)
}

/// A limit, and whether four paths fit it.
struct Limit(u32, bool);

const LIMITS: [Limit; 2] = [Limit(4, true), Limit(3, false)];

impl Row for Limit {
    fn differs(&self, alloc: Global, checked: &Checked) -> Result<Option<String>, NoMemory> {
        told_of(limit_holds(alloc, checked, self))
    }
}

#[test]
fn a_limit_is_the_most_paths_that_fit(rt: HostRuntime) -> Result<(), Fail> {
    check_rows(rt.alloc(), SESSIONS, &LIMITS)
}
