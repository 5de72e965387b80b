//! The calls over checked scripts.
ghost use Rattle.std.specs.Prelude.{◌≡◌, ◌++◌, ◌∷◌, [], List, IfOk, OnOk};
ghost use Rattle.sym_base.specs.declared.values.record.Record.{Record as OneRecord};
ghost use Rattle.sym_base.specs.declared.values.state.Outcome.TheVariants.{Going};
ghost use Rattle.sym_check.specs.Checking.CheckedScripts.{checked_plan};
ghost use Rattle.sym_check.specs.Meaning.Groups.{key_of, pass};
ghost use Rattle.sym_check.specs.Meaning.Updates.{initial, step};
ghost use Rattle.sym_plain.specs.Pairs.{after_record};
ghost use Rattle.sym_plain.specs.Shown.{columns};

use crate::groups::Groups;
use crate::keys::{record_key, set_key};
use crate::report::shown::shown_columns;
use crate::states::first_state;
use crate::steps::{advance as take_step, step_of};
use crate::update::buffers::Buffers;
use std::alloc::Global;
use sym_base::{Columns, Key, NoMemory, Outcome, Record, State};
use sym_check::Checked;

/// The declared initial state, with empty lists.
pub fn initial(alloc: Global, checked: &Checked) -> Result<State, NoMemory>
    ensures { IfOk result (λ s. s ≡ initial (checked_plan checked.now)) }
{
    first_state(alloc, checked.plan())
}

/// The step that a group with this state makes at a record. The state is changed where it lies:
/// nothing that stays is copied.
pub fn step(
    alloc: Global,
    checked: &Checked,
    state: State,
    rec: &Record,
) -> Result<Outcome, NoMemory>
    ensures { IfOk result (λ o. o ≡ step (checked_plan checked.now) (Going state) rec.now) }
{
    step_of(alloc, checked.plan(), state, rec)
}

/// Makes the step that a group with this outcome makes at a record, where the outcome lies, over
/// the memory that the step before left in the buffers: `step` for callers who step many groups, or
/// one many times. A group that has ended stays as it is. After an `Err` the outcome is
/// unspecified.
pub fn advance(
    alloc: Global,
    checked: &Checked,
    outcome: &mut Outcome,
    rec: &Record,
    buffers: &mut Buffers,
) -> Result<(), NoMemory>
    ensures { OnOk result (outcome.new ≡ step (checked_plan checked.now) outcome.old rec.now) }
{
    take_step(alloc, checked.plan(), outcome, rec, buffers)
}

/// The columns of the report for a state, in order.
pub fn columns(alloc: Global, checked: &Checked, state: &State) -> Result<Columns, NoMemory>
    ensures { IfOk result (λ c. c ≡ columns (checked_plan checked.now) state.now) }
{
    shown_columns(alloc, checked.plan(), state)
}

/// The key of a record's group: the values of the group line's fields in the line's order, and an
/// empty list without a group line. For callers who look a group up: folding finds the key itself.
pub fn key_of(alloc: Global, checked: &Checked, rec: &Record) -> Result<Key, NoMemory>
    ensures { IfOk result (λ k. k ≡ key_of (checked_plan checked.now) rec.now) }
{
    record_key(alloc, checked.plan(), rec)
}

/// Makes the key that of the record's group, over the memory that it has. After an `Err` it is
/// unspecified. For callers who look many groups up: nothing is allocated where the key's values
/// fit.
pub fn key_into(
    alloc: Global,
    checked: &Checked,
    rec: &Record,
    key: &mut Key,
) -> Result<(), NoMemory>
    ensures { OnOk result (key.new ≡ key_of (checked_plan checked.now) rec.now) }
{
    set_key(alloc, checked.plan(), key, rec)
}

/// The groups after one record more: the record's group makes its next step, a new group goes last
/// with one step from the initial state, and all others stay. A group that has ended stays as it
/// is. The record's key is written over the one that was looked up last, a new group gets a copy of
/// it, and the state of a group that is there is changed where it lies. For callers who give groups
/// away: the program folds where they lie, by `fold_into`.
pub fn fold(
    alloc: Global,
    checked: &Checked,
    groups: Groups,
    rec: &Record,
) -> Result<Groups, NoMemory>
    ensures groups { IfOk result (λ g. g ≡ after_record (checked_plan checked.now) rec.now groups) }
    ensures pass { let p = checked_plan checked.now in
        IfOk result (λ g. (records : List OneRecord) →
        groups ≡ pass p records → g ≡ pass p (records ++ rec.now ∷ [])) }
{
    let mut groups = groups;
    groups.take(alloc, checked.plan(), rec)?;
    Ok(groups)
}

/// Makes the groups those after one record more, as `fold` does, where they stand. After an `Err`
/// they are unspecified.
pub fn fold_into(
    alloc: Global,
    checked: &Checked,
    groups: &mut Groups,
    rec: &Record,
) -> Result<(), NoMemory>
    ensures groups { let p = checked_plan checked.now in
        OnOk result (groups.new ≡ after_record p rec.now groups.old) }
    ensures pass { let p = checked_plan checked.now in
        OnOk result ((records : List OneRecord) →
        groups.old ≡ pass p records → groups.new ≡ pass p (records ++ rec.now ∷ [])) }
{
    groups.take(alloc, checked.plan(), rec)?;
    Ok(())
}
