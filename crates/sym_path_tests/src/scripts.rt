//! Scripts over fifty records, from all states of a small range.
use crate::comparing::{Case, first_of};
use std::alloc::Global;
use std::test::Fail;
use sym_base::NoMemory;
use sym_given::scripts::SHORT_SESSIONS;
use sym_given::{all_hold, difference, told_at};

const NUMBERS: &str = "1 2 3 4 5 6 7 8 9 10 11 12 13 14 15 16 17 18 19 20 21 22 23 24 25 26 27 \
    28 29 30 31 32 33 34 35 36 37 38 39 40 41 42 43 44 45 46 47 48 49 50";

/// Visits, some of which begin a new session.
const VISITS: &str = "60,a 63,a 63,a 72,a 102,a 133,a 135,a 140,a 184,a 185,a 186,a 193,a 205,a \
    235,a 239,a 245,a 335,a 366,a 401,a 403,a 405,a 407,a 409,a 411,a 419,a 449,a 510,a 520,a \
    523,a 555,a 585,a 615,a 645,a 646,a 646,a 646,a 648,a 653,a 656,a 689,a 690,a 692,a 695,a \
    795,a 815,a 845,a 851,a 882,a 883,a 885,a";

/// What a user does in a shop. The negative amounts overflow where they are paid.
const PURCHASES: &str = "a,buy,-1 a,view, a,view,5 a,cart, a,buy,1299 a,buy,50 a,view, a,cart, \
    a,cart, a,buy, a,view, a,buy,7 a,cart,3 a,view, a,buy,1000000000000 a,cart, a,view, a,view, \
    a,view, a,buy,250 a,view, a,buy,1 a,view, a,cart, a,buy,99 a,view,2 a,view, a,cart, a,cart, \
    a,cart, a,view, a,buy,12 a,buy,12 a,buy,12 a,view, a,view, a,cart, a,buy,0 a,view, a,buy,-5 \
    a,view, a,cart, a,buy,8 a,view, a,view, a,buy,-2 a,cart, a,view, a,view, a,cart,";

/// Numbers to add, where no text is 0.
const CHANGES: &str = "a,3 a,-1 a, a,-4 a,2 a,2 a, a,5 a,1 a,-2 a,-9 a, a,-3 a,1 a,-6 a,4 a, a,8 \
    a,-2 a,3 a,-5 a,-7 a,6 a, a,2 a,9 a, a,-1 a,-4 a,-8 a,3 a,5 a, a,-6 a,-7 a,1 a, a,4 a,11 \
    a,-3 a, a,7 a,-2 a,-1 a, a,-5 a,2 a,2 a,-13 a,6";

const SESSIONS: Case = Case {
    script: SHORT_SESSIONS,
    header: "ts,user",
    lines: VISITS,
    limit: 64,
    segments: 1,
    paths: 7,
    numbers: (0, 13),
    labels: 1,
    parts: &[29, 30, 60],
    faults: 10,
    pushed: 303,
};

const SHOP: Case = Case {
    script: "enum action { view, cart, buy } enum stage { fresh, carted } \
        field user from \"User ID\": word; field what from \"Action\": action; \
        field cents from \"Amount\": num else 0; group user; \
        state at: stage = fresh; state buys: int [0..12] = 0; \
        state paid: nums [0..1000000000000]; \
        update { if what is cart { at = carted; } \
            else if what is buy and at is carted \
                { buys = buys + 1; push paid cents; at = fresh; } } \
        report { buys = buys; paid = sum(paid); biggest = max(paid); }",
    header: "User ID,Action,Amount",
    lines: PURCHASES,
    limit: 64,
    segments: 1,
    paths: 11,
    numbers: (0, 13),
    labels: 2,
    parts: &[0],
    faults: 21,
    pushed: 40,
};

const SUM: Case = Case {
    script: "field user: word; field x: num else 0; group user; \
        state n: int [-20..20] = 0; state xs: nums [-20..20]; \
        update { n = n + x; push xs x; } report { n = n; big = sum(xs) * 1000000000000; }",
    header: "user,x",
    lines: CHANGES,
    limit: 64,
    segments: 1,
    paths: 9,
    numbers: (-20, 21),
    labels: 1,
    parts: &[0],
    faults: 20,
    pushed: 1050,
};

/// A script whose number or label each record changes alike.
const PLAIN: Case = Case {
    script: "field x: num; state n: int [0..3] = 0; update { n = n + 1; } report { n = n; }",
    header: "x",
    lines: NUMBERS,
    limit: 64,
    segments: 1,
    paths: 4,
    numbers: (0, 4),
    labels: 1,
    parts: &[0],
    faults: 4,
    pushed: 0,
};

const CASES: [Case; 12] = [
    PLAIN,
    SESSIONS,
    // A segment begins where the lists have elements and the parts of the cell are known.
    Case {
        limit: 4,
        segments: 3,
        paths: 3,
        ..SESSIONS
    },
    Case {
        script: "enum mode { idle, busy } field x: num; state phase: mode = idle; \
            update { if phase is idle { phase = busy; } else { phase = idle; } } \
            report { phase = phase; }",
        paths: 2,
        numbers: (0, 1),
        labels: 2,
        faults: 0,
        ..PLAIN
    },
    Case {
        script: "enum case { k1, k2, k3, k4, k5, k6 } field x: num; state c: case = k1; \
            update { if c is k1 or c is k2 or c is k3 or c is k4 { c = k5; } } report { c = c; }",
        paths: 2,
        numbers: (0, 1),
        labels: 6,
        faults: 0,
        ..PLAIN
    },
    Case {
        script: "enum mode { idle, busy } field x: num; state phase: mode = idle; \
            state n: int [0..10] = 0; \
            update { if n < 5 and phase is idle { n = 0; } } report { n = n; }",
        paths: 3,
        numbers: (0, 11),
        labels: 2,
        faults: 0,
        ..PLAIN
    },
    SHOP,
    Case {
        limit: 6,
        segments: 4,
        paths: 3,
        ..SHOP
    },
    Case {
        script: "field user: word; group user; state n: int [0..60] = 0; \
            update { n = n + 1; } report { n = n; }",
        header: "user",
        paths: 51,
        numbers: (0, 61),
        faults: 50,
        ..PLAIN
    },
    SUM,
    Case {
        limit: 6,
        segments: 3,
        paths: 4,
        ..SUM
    },
    Case {
        script: "field user: word; group user; state n: int [0..9] = 7; state xs: nums [0..9]; \
            update { } report { q = n / 0; r = n / 2 - 10; m = min(xs); k = max(xs) + 1; }",
        header: "user",
        paths: 1,
        numbers: (0, 10),
        faults: 0,
        ..PLAIN
    },
];

// What is said of the first case that doesn't have fifty records.
fn first_short(alloc: Global, cases: &[Case]) -> Result<Option<String>, NoMemory> {
    'cases: for (place, case) in cases.iter().enumerate() {
        let told = difference(alloc, &case.lines.split_whitespace().count(), &50)?;
        if told.is_some() {
            return told_at(alloc, place, told);
        }
    }
    Ok(None)
}

#[test]
fn fifty_records_give_what_their_steps_give(rt: HostRuntime) -> Result<(), Fail> {
    all_hold(first_short(rt.alloc(), &CASES))?;
    all_hold(first_of(rt.alloc(), &CASES))
}

/// Each of the tests may be true or false of the parts, and a word says which were true.
const TESTS: Case = Case {
    script: "field x: num; state h: hold(num = 0); state w: words; \
        test t(p: num, k: num) = p % k == 0; \
        update { if t(h, 2) { push w \"a\"; } if t(h, 3) { push w \"b\"; } \
            if t(h, 4) { push w \"c\"; } if t(h, 5) { push w \"d\"; } \
            if t(h, 6) { push w \"e\"; } if t(h, 7) { push w \"f\"; } \
            if t(h, 8) { push w \"g\"; } if t(h, 9) { push w \"h\"; } \
            if t(h, 10) { push w \"i\"; } if t(h, 11) { push w \"j\"; } } \
        report { c = count(w); }",
    header: "x",
    lines: "1",
    limit: 256,
    segments: 1,
    paths: 1_024,
    numbers: (0, 1),
    labels: 1,
    parts: &[0, 1, 2, 7, 11, 12, 30, -6, 2_520, 27_720],
    faults: 0,
    pushed: 44,
};

#[test]
fn ten_tests_of_a_cell_make_all_their_paths(rt: HostRuntime) -> Result<(), Fail> {
    all_hold(first_of(rt.alloc(), &[TESTS]))
}
