//! Whether a saved run is lawful.
ghost use Rattle.std.specs.Prelude.{◌≡◌, ◌↔◌, All, IsTrue};
ghost use Rattle.sym_check.specs.Checking.CheckedScripts.{checked_plan};
ghost use Rattle.sym_check.specs.Meaning.Validity.{IsKey, IsOfField, IsOfKind, label_count};
ghost use Rattle.sym_check.specs.Plan.ScriptPlans.{script_plan};
ghost use Rattle.sym_plain.specs.Pairs.{HaveDistinctKeys};
ghost use Rattle.sym_run.specs.SavedRuns.{EndsWithin, IsLawfulChain, IsLawfulGroup, IsLawfulPath, IsLawfulSegment};

use crate::chains::Chain;
use crate::run_groups::RunGroups;
use sym_base::{Key, NUM_MAX, Value};
use sym_check::{Checked, KindPlan, Plan, enum_labels};
use sym_path::{Path, PathEnd, Segment};

/// Whether the value is of the kind.
fn is_of_kind(plan: &Plan, kind: &KindPlan, value: &Value) -> bool
    ensures { IsTrue result ↔ IsOfKind (script_plan plan.now).enums kind.now value.now }
{
    match (kind, value) {
        (KindPlan::Num, Value::Num(x)) => -NUM_MAX <= *x && *x <= NUM_MAX,
        (KindPlan::Word, Value::Word(_)) => true,
        (KindPlan::Label(of), Value::Label(label)) => {
            usize::from(*label) < enum_labels(plan.enums.as_slice(), *of).len()
        }
        _ => false,
    }
}

/// Whether the value is of the kind of the field with this number.
fn is_of_field(plan: &Plan, field: u16, value: &Value) -> bool
    ensures { IsTrue result ↔ IsOfField (script_plan plan.now) field value.now }
{
    match plan.fields.get(usize::from(field)) {
        Some(field) => is_of_kind(plan, &field.kind, value),
        None => true,
    }
}

/// Whether the key has one value for each field of the group line, of the field's kind.
fn is_key(plan: &Plan, key: &Key) -> bool
    ensures { IsTrue result ↔ IsKey (script_plan plan.now) key.now }
{
    let (fields, values) = (plan.group.as_slice(), key.values.as_slice());
    if fields.len() != values.len() {
        return false;
    }
    'values: for index in 0..fields.len() {
        if !is_of_field(plan, fields[index], &values[index]) {
            return false;
        }
    }
    true
}

/// Whether a fault came at a record from `first` on, before `next`.
fn ends_within(first: u64, next: u64, end: &PathEnd) -> bool
    ensures { IsTrue result ↔ EndsWithin first next end.now }
{
    match end {
        PathEnd::Next(_) => true,
        PathEnd::Ended(fault) => first <= fault.no && fault.no < next,
    }
}

fn is_lawful_path(checked: &Checked, first: u64, next: u64, path: &Path) -> bool
    ensures { IsTrue result ↔ IsLawfulPath (checked_plan checked.now) first next path.now }
{
    path.fits(checked) && ends_within(first, next, &path.end)
}

fn is_lawful_segment(checked: &Checked, first: u64, next: u64, segment: &Segment) -> bool
    ensures { IsTrue result ↔ IsLawfulSegment (checked_plan checked.now) first next segment.now }
{
    let paths = segment.paths();
    !paths.is_empty()
        && paths
            .iter()
            .all(|path| is_lawful_path(checked, first, next, path))
}

fn is_lawful_chain(checked: &Checked, first: u64, next: u64, chain: &Chain) -> bool
    ensures { IsTrue result ↔ IsLawfulChain (checked_plan checked.now) first next chain.now }
{
    chain.is_closed()
        && chain
            .segments()
            .iter()
            .all(|segment| is_lawful_segment(checked, first, next, segment))
}

/// Whether a group may be one of a saved run of the records numbered from `first` on, before `next`:
/// its key is of the script's kinds, its chain keeps no records, no segment is empty, each path fits
/// the script, and each fault came at one of these records. It takes no memory.
pub fn is_lawful_group(checked: &Checked, first: u64, next: u64, key: &Key, chain: &Chain) -> bool
    ensures { IsTrue result ↔
        IsLawfulGroup (checked_plan checked.now) first next (key.now, chain.now) }
{
    is_key(checked.plan(), key) && is_lawful_chain(checked, first, next, chain)
}

/// Whether each group is lawful: its key and its chain.
pub(crate) fn are_lawful(checked: &Checked, first: u64, next: u64, groups: &RunGroups) -> bool
    ensures each { IsTrue result ↔
        All (IsLawfulGroup (checked_plan checked.now) first next) groups.now }
    ensures distinct { HaveDistinctKeys groups.now }
{
    'groups: for index in 0..groups.len() {
        if let Some((key, chain)) = groups.at(index) {
            if !is_lawful_group(checked, first, next, key, chain) {
                return false;
            }
        }
    }
    true
}
