//! Rows: which belong under which names, and copies.
use crate::given::{After, Given, GivenReport, GivenRow, heads_of, row_of};
use std::alloc::Global;
use std::test::Fail;
use sym_base::{NoMemory, ReportFault};
use sym_given::{all_hold, difference, found_unless, told_at};

const NAMES: GivenReport = GivenReport {
    keys: &["user"],
    columns: &["n", "m"],
    rows: &[],
};

/// Rows, and whether each belongs under the names.
const ROWS: [(GivenRow, bool); 6] = [
    (
        GivenRow {
            keys: &[Given::Word("a")],
            after: After::Columns(&[Given::Num(1), Given::Nums(&[2, 3])]),
        },
        true,
    ),
    (
        GivenRow {
            keys: &[Given::Word("a")],
            after: After::Over("n", 4),
        },
        true,
    ),
    (
        GivenRow {
            keys: &[Given::Num(5)],
            after: After::Arith(2),
        },
        true,
    ),
    (
        GivenRow {
            keys: &[Given::Word("a")],
            after: After::Columns(&[Given::Words(&["b", ""])]),
        },
        false,
    ),
    (
        GivenRow {
            keys: &[],
            after: After::Columns(&[Given::Nothing, Given::Bad(ReportFault::Zero)]),
        },
        false,
    ),
    (
        GivenRow {
            keys: &[Given::Word("a"), Given::Word("b")],
            after: After::Arith(2),
        },
        false,
    ),
];

fn belongs(alloc: Global, given: GivenRow) -> Result<bool, NoMemory> {
    let heads = heads_of(alloc, NAMES)?;
    Ok(row_of(alloc, given)?.is_under(&heads))
}

// Whether a copy is equal.
fn is_copied(alloc: Global, given: GivenRow) -> Result<bool, NoMemory> {
    let row = row_of(alloc, given)?;
    Ok(row.copy(alloc)? == row)
}

fn names_are_copied(alloc: Global) -> Result<bool, NoMemory> {
    let heads = heads_of(alloc, NAMES)?;
    Ok(heads.copy(alloc)? == heads)
}

fn row_differs(alloc: Global, given: GivenRow, under: bool) -> Result<Option<String>, NoMemory> {
    match difference(alloc, &belongs(alloc, given)?, &under)? {
        Some(told) => Ok(Some(told)),
        None => found_unless(
            alloc,
            is_copied(alloc, given)?,
            "found another row, wanted a copy",
        ),
    }
}

#[test]
fn rows_belong_under_names_and_are_copied(rt: HostRuntime) -> Result<(), Fail> {
    'rows: for (place, (row, under)) in ROWS.iter().enumerate() {
        let told = row_differs(rt.alloc(), *row, *under)?;
        all_hold(told_at(rt.alloc(), place, told))?;
    }
    let same = names_are_copied(rt.alloc())?;
    all_hold(found_unless(rt.alloc(), same, "found other names, wanted a copy"))
}
