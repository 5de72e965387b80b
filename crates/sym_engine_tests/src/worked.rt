//! Worked logs: the groups of each, by runs of many sizes and by the sequential pass.
use crate::agreement::{Wanted, passes_differ};
use crate::texts::passed_text;
use std::alloc::Global;
use std::sync::Wait;
use std::test::Fail;
use std::thread::Threads;
use sym_base::{Column, Columns, Key, NoMemory, Outcome, ReportFault, State, Value};
use sym_check::Checked;
use sym_engine::PassErr;
use sym_given::scripts::{
    BY_USER, COUNTER, DOUBLE, EARLY, MIRROR, QUOTIENT, SESSIONS, SHOWN, SUMS, TOGGLE, TWO_HUNDRED,
};
use sym_given::{ThreadedCase, check_threaded_cases, difference, groups_text};
use sym_plain::{Groups, columns};
use sym_table::{Bad, BadCause};

/// One of six labels, the first four of which become the fifth.
pub(crate) const SIX: &str = "enum case { k1, k2, k3, k4, k5, k6 } field x: num; \
    state c: case = k1; \
    update { if c is k1 or c is k2 or c is k3 or c is k4 { c = k5; } } report { c = c; }";

/// A condition on two cells.
pub(crate) const GUARDED: &str = "enum mode { idle, busy } field x: num; \
    state phase: mode = idle; state n: int [0..10] = 0; \
    update { if n < 5 and phase is idle { n = 0; } } report { n = n; }";

/// Purchases after a cart.
pub(crate) const PURCHASES: &str = "enum action { view, cart, buy } enum stage { fresh, carted } \
    field user from \"User ID\": word; field what from \"Action\": action; \
    field cents from \"Amount\": num else 0; group user; state at: stage = fresh; \
    state buys: int [0..1000000] = 0; state paid: nums [0..1000000000000]; \
    update { if what is cart { at = carted; } \
    else if what is buy and at is carted { buys = buys + 1; push paid cents; at = fresh; } } \
    report { buys = buys; paid = sum(paid); biggest = max(paid); }";

/// What a column shows.
#[derive(Clone, Copy, Debug)]
enum Shown {
    Num(i128),
    Word(&'static str),
    Nothing,
    Bad(ReportFault),
}

use Shown::{Nothing, Num, Word};

/// How a group stands: its columns, or the number of the record at which it ended.
#[derive(Clone, Copy, Debug)]
enum Standing {
    Shows(&'static [Shown]),
    Ended(u64),
}

use Standing::{Ended, Shows};

/// A script, a log, and its groups: the word of the key, which is empty where there is no group
/// line, and how the group stands.
#[derive(Clone, Copy)]
struct Worked(
    &'static str,
    &'static str,
    &'static [(&'static str, Standing)],
);

const WORKED: [Worked; 19] = [
    Worked(COUNTER, "x\n5\n5\n5\n5\n5\n", &[("", Ended(4))]),
    Worked(
        SESSIONS,
        "ts,user\n10,a\n20,a\n60,a\n5,b\n61,a\n",
        &[
            ("a", Shows(&[Num(1), Num(2), Num(2)])),
            ("b", Shows(&[Num(0), Num(1), Nothing])),
        ],
    ),
    Worked(BY_USER, "user\n", &[]),
    Worked(BY_USER, "", &[]),
    Worked(
        BY_USER,
        "user\nc\na\nb\na\n",
        &[
            ("c", Shows(&[Num(1)])),
            ("a", Shows(&[Num(2)])),
            ("b", Shows(&[Num(1)])),
        ],
    ),
    Worked(
        MIRROR,
        "x\n1\n1\n1\n1\n1\n1\n1\n",
        &[("", Shows(&[Num(10)]))],
    ),
    Worked(DOUBLE, TWO_HUNDRED, &[("", Shows(&[Num(0)]))]),
    Worked(TOGGLE, "x\n1\n1\n1\n", &[("", Shows(&[Word("busy")]))]),
    Worked(SIX, "x\n1\n1\n", &[("", Shows(&[Word("k5")]))]),
    Worked(GUARDED, "x\n1\n1\n", &[("", Shows(&[Num(0)]))]),
    Worked(
        SUMS,
        "user,x\na,5\na,\n",
        &[("a", Shows(&[Num(5), Num(5_000_000_000_000)]))],
    ),
    Worked(
        SUMS,
        "user,x\na,1000000000000\n",
        &[(
            "a",
            Shows(&[
                Num(1_000_000_000_000),
                Num(1_000_000_000_000_000_000_000_000),
            ]),
        )],
    ),
    Worked(SUMS, "user,x\na,1000000000000\na,1\n", &[("a", Ended(2))]),
    Worked(
        SUMS,
        "user,x\na,1000000000000\nb,1\na,1\nb,2\na,-9\n",
        &[
            ("a", Ended(3)),
            ("b", Shows(&[Num(3), Num(3_000_000_000_000)])),
        ],
    ),
    Worked(
        PURCHASES,
        "\u{feff}Time,\"User ID\",Action,Amount\r\n2015-10-04T10:00,ann,cart,\r\n\
        2015-10-04T10:01,\"Smith, Bob\",cart,\r\n2015-10-04T10:02,ann,buy,1299\r\n\
        2015-10-04T10:03,\"Smith, Bob\",view,\r\n2015-10-04T10:04,ann,buy,500\r\n\
        2015-10-04T10:05,\"Smith, Bob\",buy,250\r\n",
        &[
            ("ann", Shows(&[Num(1), Num(1_299), Num(1_299)])),
            ("Smith, Bob", Shows(&[Num(1), Num(250), Num(250)])),
        ],
    ),
    Worked(
        EARLY,
        "ts,user\n1000000000000,a\n",
        &[("a", Shows(&[Num(0), Num(1), Nothing]))],
    ),
    Worked(QUOTIENT, "x\n3\n0\n5\n", &[("", Ended(2))]),
    Worked(QUOTIENT, "x\n3\n5\n5\n", &[("", Shows(&[Num(3)]))]),
    Worked(
        SHOWN,
        "user\na\n",
        &[(
            "a",
            Shows(&[Shown::Bad(ReportFault::Zero), Num(-7), Nothing, Nothing]),
        )],
    ),
];

fn is_key(key: &Key, who: &str) -> bool {
    match key.values.as_slice() {
        [] => who.is_empty(),
        [Value::Word(word)] => word.as_str() == who,
        _ => false,
    }
}

fn is_column(column: &Column, wanted: Shown) -> bool {
    match (column, wanted) {
        (Column::Num(found), Num(number)) => *found == number,
        (Column::Word(found), Word(word)) => found.as_str() == word,
        (Column::Nothing, Nothing) => true,
        (Column::Bad(found), Shown::Bad(why)) => *found == why,
        _ => false,
    }
}

fn are_columns(columns: &Columns, wanted: &[Shown]) -> bool {
    if columns.len() != wanted.len() {
        return false;
    }
    'columns: for (column, shown) in columns.as_slice().iter().zip(wanted) {
        if !is_column(column, *shown) {
            return false;
        }
    }
    true
}

fn shows(
    alloc: Global,
    checked: &Checked,
    state: &State,
    wanted: &[Shown],
) -> Result<bool, NoMemory> {
    Ok(are_columns(&columns(alloc, checked, state)?, wanted))
}

fn stands(
    alloc: Global,
    checked: &Checked,
    outcome: &Outcome,
    standing: Standing,
) -> Result<bool, NoMemory> {
    match (outcome, standing) {
        (Outcome::Going(state), Shows(wanted)) => shows(alloc, checked, state, wanted),
        (Outcome::Ended(fault), Ended(no)) => Ok(fault.no == no),
        _ => Ok(false),
    }
}

fn are_groups(
    alloc: Global,
    checked: &Checked,
    groups: &Groups,
    wanted: &[(&'static str, Standing)],
) -> Result<bool, NoMemory> {
    'groups: for (place, (who, standing)) in wanted.iter().enumerate() {
        match groups.at(place) {
            Some((key, outcome))
                if is_key(key, who) && stands(alloc, checked, outcome, *standing)? => {}
            _ => return Ok(false),
        }
    }
    Ok(groups.len() == wanted.len())
}

impl Wanted for Worked {
    fn differs(
        &self,
        alloc: Global,
        checked: &Checked,
        passed: &Result<Groups, PassErr>,
    ) -> Result<Option<String>, NoMemory> {
        let wanted = self.2;
        match passed {
            Ok(groups) if are_groups(alloc, checked, groups, wanted)? => Ok(None),
            _ => {
                let found = passed_text(alloc, passed)?;
                Ok(Some(format!(in alloc; "found {found}, wanted {wanted:?}")?))
            }
        }
    }
}

impl ThreadedCase for Worked {
    fn script(&self) -> &str {
        self.0
    }

    fn differs<T: Threads + Wait + Sync>(
        &self,
        rt: &T,
        alloc: Global,
        checked: &Checked,
    ) -> Result<Option<String>, NoMemory> {
        passes_differ(rt, alloc, checked, self.1, self)
    }
}

#[test]
fn runs_of_all_sizes_give_the_worked_groups(rt: HostRuntime) -> Result<(), Fail> {
    check_threaded_cases(&rt, rt.alloc(), &WORKED)
}

/// A script, a log, and its first row that is no record.
#[derive(Clone, Copy)]
struct Refused(&'static str, &'static str, Bad);

const REFUSED: [Refused; 3] = [
    Refused(
        SESSIONS,
        "ts,user\n1,a\n2,a\n3,a\n4,a\n1,a,x\n6,a\nt,a\n8,a\n",
        Bad {
            no: 5,
            cause: BadCause::Fields(3),
        },
    ),
    Refused(
        SUMS,
        "user,x\na,1000000000001\n",
        Bad {
            no: 1,
            cause: BadCause::Number(1),
        },
    ),
    // The group has ended before the row.
    Refused(
        SUMS,
        "user,x\na,1000000000000\na,1\na,2\na,y\nb\n",
        Bad {
            no: 4,
            cause: BadCause::Number(1),
        },
    ),
];

impl Wanted for Refused {
    fn differs(
        &self,
        alloc: Global,
        _checked: &Checked,
        passed: &Result<Groups, PassErr>,
    ) -> Result<Option<String>, NoMemory> {
        let wanted = PassErr::Bad {
            file: 0,
            bad: self.2,
        };
        match passed {
            Err(why) => difference(alloc, why, &wanted),
            Ok(groups) => {
                let found = groups_text(alloc, groups)?;
                Ok(Some(format!(in alloc; "found {found}, wanted {wanted:?}")?))
            }
        }
    }
}

impl ThreadedCase for Refused {
    fn script(&self) -> &str {
        self.0
    }

    fn differs<T: Threads + Wait + Sync>(
        &self,
        rt: &T,
        alloc: Global,
        checked: &Checked,
    ) -> Result<Option<String>, NoMemory> {
        passes_differ(rt, alloc, checked, self.1, self)
    }
}

#[test]
fn runs_of_all_sizes_find_the_first_row_that_is_no_record(rt: HostRuntime) -> Result<(), Fail> {
    check_threaded_cases(&rt, rt.alloc(), &REFUSED)
}
