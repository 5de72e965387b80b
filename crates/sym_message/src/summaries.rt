//! The summary of a pass over a log that `make` made.
ghost use Rattle.std.specs.Prelude.{◌≡◌, ◌++◌, ◌+◌, ◌≤◌, ◌<◌, ◌^◌, [], ◌∷◌, map, if◌then◌else◌, IfOk, OnOk, slice_get};
ghost use Rattle.sym_check.specs.Checking.CheckedScripts.{checked_tree, checked_plan};
ghost use Rattle.sym_report.specs.ReportRows.{row_of, some_faulty};
ghost use Rattle.sym_message.specs.Summaries.{listed, count_line, counted, faults_in, sessions_in, sessions_of, summary_text, text_of_counts};

use crate::number_texts::push_number;
use crate::report::{Report, report_status};
use crate::status::Status;
use std::alloc::Global;
use sym_base::{Column, NoMemory};
use sym_check::Checked;
use sym_plain::Groups;
use sym_report::{Row, RowBody, report_row};

/// What is counted of the rows of a report.
#[derive(Clone, Copy)]
pub struct Totals {
    pub faults: u64,
    pub sessions: u128,
}

// What a column counts; 0 where it counts nothing.
fn counted(column: &Column) -> u64
    ensures { result ≡ counted column.now }
{
    match column {
        Column::Num(number) => u64::try_from(*number).unwrap_or(0),
        Column::Word(_) => 0,
        Column::Nums(_) => 0,
        Column::Words(_) => 0,
        Column::Nothing => 0,
        Column::Bad(_) => 0,
    }
}

// The sessions of a group.
fn sessions_of(body: &RowBody) -> u64
    ensures { result ≡ sessions_of body.now }
{
    match body {
        RowBody::Columns(columns) => match columns.as_slice() {
            [first, ..] => counted(first),
            [] => 0,
        },
        RowBody::Over { .. } => 0,
        RowBody::Arith { .. } => 0,
    }
}

// The totals with one row more.
fn with_row(totals: Totals, row: &Row) -> Totals
    requires few { totals.faults + 1 < 2 ^ 64 }
    requires small { totals.sessions + 2 ^ 64 < 2 ^ 128 }
    ensures faults { result.faults ≡ totals.faults + faults_in (row.now ∷ []) }
    ensures sessions { result.sessions ≡ totals.sessions + sessions_in (row.now ∷ []) }
    ensures few { result.faults ≤ totals.faults + 1 }
    ensures small { result.sessions < totals.sessions + 2 ^ 64 }
{
    if row.body.is_faulty() {
        Totals {
            faults: totals.faults + 1,
            sessions: totals.sessions,
        }
    } else {
        Totals {
            faults: totals.faults,
            sessions: totals.sessions + u128::from(sessions_of(&row.body)),
        }
    }
}

// The totals with the group at an index, where there is one.
fn with_group(
    alloc: Global,
    checked: &Checked,
    groups: &Groups,
    index: usize,
    totals: Totals,
) -> Result<Totals, NoMemory>
    requires few { totals.faults + 1 < 2 ^ 64 }
    requires small { totals.sessions + 2 ^ 64 < 2 ^ 128 }
    ensures faults { let row = row_of (checked_tree checked.now) (checked_plan checked.now) in
        let rows = map row (listed (slice_get groups.now index)) in
        IfOk result (λ more. more.faults ≡ totals.faults + faults_in rows) }
    ensures sessions { let row = row_of (checked_tree checked.now) (checked_plan checked.now) in
        let rows = map row (listed (slice_get groups.now index)) in
        IfOk result (λ more. more.sessions ≡ totals.sessions + sessions_in rows) }
    ensures few { IfOk result (λ more. more.faults ≤ totals.faults + 1) }
    ensures small { IfOk result (λ more. more.sessions < totals.sessions + 2 ^ 64) }
{
    match groups.at(index) {
        Some((key, outcome)) => {
            let row = report_row(alloc, checked, key, outcome)?;
            Ok(with_row(totals, &row))
        }
        None => Ok(totals),
    }
}

// The totals of all groups.
fn group_totals(alloc: Global, checked: &Checked, groups: &Groups) -> Result<Totals, NoMemory>
    ensures faults { let row = row_of (checked_tree checked.now) (checked_plan checked.now) in
        IfOk result (λ totals. totals.faults ≡ faults_in (map row groups.now)) }
    ensures sessions { let row = row_of (checked_tree checked.now) (checked_plan checked.now) in
        IfOk result (λ totals. totals.sessions ≡ sessions_in (map row groups.now)) }
{
    let mut totals = Totals {
        faults: 0,
        sessions: 0,
    };
    'groups: for index in 0..groups.len() {
        totals = with_group(alloc, checked, groups, index, totals)?;
    }
    Ok(totals)
}

// Appends a line of the summary.
#[tactic(auto, using(std::proofs::Common::append_assoc))]
fn push_count(into: &mut Vec<u8>, what: &str, count: u128) -> Result<(), NoMemory>
    ensures { OnOk result (into.new.items ≡ into.old.items ++ count_line what.now count) }
{
    push_number(into, what, count)?;
    into.extend_from_slice(b"\n")?;
    Ok(())
}

// The four lines.
fn text_of(alloc: Global, records: u32, groups: usize, totals: Totals) -> Result<Vec<u8>, NoMemory>
    ensures { IfOk result (λ text.
        text.items ≡ text_of_counts records groups totals.faults totals.sessions) }
{
    let mut text = Vec::new(alloc);
    push_count(&mut text, "records ", u128::from(records))?;
    push_count(&mut text, "groups ", groups as u128)?;
    push_count(&mut text, "faults ", u128::from(totals.faults))?;
    push_count(&mut text, "sessions ", totals.sessions)?;
    Ok(text)
}

/// The summary of a pass over a log of so many records, of which these are the groups, with its
/// status: Faulted where a row is faulty.
pub fn summary(
    alloc: Global,
    checked: &Checked,
    groups: &Groups,
    records: u32,
) -> Result<Report, NoMemory>
    ensures text { let row = row_of (checked_tree checked.now) (checked_plan checked.now) in
        IfOk result (λ report.
        report.text.items ≡ summary_text records (map row groups.now)) }
    ensures status { let row = row_of (checked_tree checked.now) (checked_plan checked.now) in
        IfOk result (λ report. report.status
        ≡ (if some_faulty (map row groups.now) then Status.Faulted else Status.Done)) }
{
    let totals = group_totals(alloc, checked, groups)?;
    let text = text_of(alloc, records, groups.len(), totals)?;
    Ok(Report {
        text,
        status: report_status(totals.faults > 0),
    })
}
