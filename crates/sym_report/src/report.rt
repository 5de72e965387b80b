//! The report of groups, through any form.
ghost use Rattle.std.specs.Prelude.{◌≡◌, ◌++◌, map, slice_get, OnOk, IfOk};
ghost use Rattle.std.specs.List.{All};
ghost use Rattle.sym_check.specs.Checking.CheckedScripts.{checked_tree, checked_plan};
ghost use Rattle.sym_check.specs.Meaning.Validity.{IsKey};
ghost use Rattle.sym_report.specs.Appending.{listed};
ghost use Rattle.sym_report.specs.Forms.{IsUnder, report_text, rows_text};
ghost use Rattle.sym_report.specs.ReportRows.{heads_of, row_of, is_faulty, some_faulty};

use crate::calls::{heads, report_row};
use crate::chosen::{add_row, begin_report, end_report};
use crate::form::ReportForm;
use crate::rows::Heads;
use std::alloc::Global;
use sym_base::{Key, NoMemory, Outcome};
use sym_check::Checked;
use sym_plain::Groups;

// Appends the row of a group; whether it is faulty.
fn write_row(
    alloc: Global,
    checked: &Checked,
    heads: &Heads,
    key: &Key,
    outcome: &Outcome,
    form: &mut Box<dyn ReportForm>,
) -> Result<bool, NoMemory>
    requires { let row = row_of (checked_tree checked.now) (checked_plan checked.now) in
        IsUnder heads.now (row (key.now, outcome.now)) }
    ensures text { let row = row_of (checked_tree checked.now) (checked_plan checked.now) in
        let shown = (texts form.old).row heads.now (row (key.now, outcome.now)) in
        OnOk result (gathered form.new ≡ gathered form.old ++ shown) }
    ensures faulty { let row = row_of (checked_tree checked.now) (checked_plan checked.now) in
        IfOk result (λ faulty. faulty ≡ is_faulty (row (key.now, outcome.now)).body) }
    ensures texts { texts form.new ≡ texts form.old }
    ensures called { called form.new ≡ called form.old }
{
    let row = report_row(alloc, checked, key, outcome)?;
    add_row(alloc, form, heads, &row)?;
    Ok(row.body.is_faulty())
}

// Appends the row of the group at an index, if there is one; whether it is faulty.
fn write_group(
    alloc: Global,
    checked: &Checked,
    heads: &Heads,
    groups: &Groups,
    index: usize,
    form: &mut Box<dyn ReportForm>,
) -> Result<bool, NoMemory>
    requires { let row = row_of (checked_tree checked.now) (checked_plan checked.now) in
        All (λ pair. IsUnder heads.now (row pair)) groups.now }
    ensures text { let row = row_of (checked_tree checked.now) (checked_plan checked.now) in
        let rows = map row (listed (slice_get groups.now index)) in
        let shown = rows_text (texts form.old) heads.now rows in
        OnOk result (gathered form.new ≡ gathered form.old ++ shown) }
    ensures faulty { let row = row_of (checked_tree checked.now) (checked_plan checked.now) in
        let rows = map row (listed (slice_get groups.now index)) in
        IfOk result (λ faulty. faulty ≡ some_faulty rows) }
    ensures texts { texts form.new ≡ texts form.old }
    ensures called { called form.new ≡ called form.old }
{
    match groups.at(index) {
        Some((key, outcome)) => write_row(alloc, checked, heads, key, outcome, form),
        None => Ok(false),
    }
}

// Appends the rows of the groups, in order; whether one of them is faulty.
fn write_rows(
    alloc: Global,
    checked: &Checked,
    heads: &Heads,
    groups: &Groups,
    form: &mut Box<dyn ReportForm>,
) -> Result<bool, NoMemory>
    requires { let row = row_of (checked_tree checked.now) (checked_plan checked.now) in
        All (λ pair. IsUnder heads.now (row pair)) groups.now }
    ensures text { let row = row_of (checked_tree checked.now) (checked_plan checked.now) in
        let shown = rows_text (texts form.old) heads.now (map row groups.now) in
        OnOk result (gathered form.new ≡ gathered form.old ++ shown) }
    ensures faulty { let row = row_of (checked_tree checked.now) (checked_plan checked.now) in
        IfOk result (λ faulty. faulty ≡ some_faulty (map row groups.now)) }
    ensures texts { texts form.new ≡ texts form.old }
    ensures called { called form.new ≡ called form.old }
{
    let mut faulty = false;
    'groups: for index in 0..groups.len() {
        let found = write_group(alloc, checked, heads, groups, index, form)?;
        faulty |= found;
    }
    Ok(faulty)
}

/// Appends the report of groups whose keys are of the script's kinds: whether a row is faulty. Each
/// row is made when it is written, over no memory of the rows before it. After an `Err` the form
/// may have a part of the report.
pub fn write_report(
    alloc: Global,
    checked: &Checked,
    groups: &Groups,
    form: &mut Box<dyn ReportForm>,
) -> Result<bool, NoMemory>
    requires { All (λ pair. IsKey (checked_plan checked.now) pair.0) groups.now }
    ensures text { let tree = checked_tree checked.now in let plan = checked_plan checked.now in
        let rows = map (row_of tree plan) groups.now in
        let report = report_text (texts form.old) (heads_of tree plan) rows in
        OnOk result (gathered form.new ≡ gathered form.old ++ report) }
    ensures faulty { let row = row_of (checked_tree checked.now) (checked_plan checked.now) in
        IfOk result (λ faulty. faulty ≡ some_faulty (map row groups.now)) }
    ensures texts { texts form.new ≡ texts form.old }
    ensures called { called form.new ≡ called form.old }
{
    let _plan = checked.plan();
    let heads = heads(alloc, checked)?;
    begin_report(alloc, form, &heads)?;
    let faulty = write_rows(alloc, checked, &heads, groups, form)?;
    end_report(alloc, form, &heads)?;
    Ok(faulty)
}
