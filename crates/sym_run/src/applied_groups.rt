//! The groups of a run, applied to groups.
ghost use Rattle.std.specs.Prelude.{◌≡◌, List, IfOk, OnOk};
ghost use Rattle.std.specs.Map.{lookup};
ghost use Rattle.sym_base.specs.declared.values.record.Record.{Record as OneRecord};
ghost use Rattle.sym_check.specs.Checking.CheckedScripts.{checked_plan};
ghost use Rattle.sym_check.specs.Meaning.Groups.{is_key};
ghost use Rattle.sym_plain.specs.Pairs.{after_records};
ghost use Rattle.sym_run.specs.Applying.{AreValid, LeadsOn, StaysUnless, led_on};
ghost use Rattle.sym_run.specs.Chains.{ChainFits, ChainStandsFor};
ghost use Rattle.sym_run.specs.Runs.{GroupsFit, GroupsStandFor};

use crate::chains::Chain;
use crate::run_groups::RunGroups;
use crate::steps::Stepper;
use std::alloc::Global;
use sym_base::{Key, NoMemory, Outcome};
use sym_check::Checked;
use sym_check::laws::plans::well_formed_plans_keep_states_valid;
use sym_plain::{Groups, initial};

/// Whether there is a group with this key, which the chain then leads on in place.
fn lead_on(
    alloc: Global,
    checked: &Checked,
    groups: &mut Groups,
    key: &Key,
    chain: &Chain,
    stepper: &mut Stepper,
) -> Result<bool, NoMemory>
    requires fits { ChainFits (checked_plan checked.now) chain.now }
    requires valid { AreValid (checked_plan checked.now) groups.old }
    ensures valid { IfOk result (λ there. AreValid (checked_plan checked.now) groups.new) }
    ensures leads { (records : List OneRecord) →
        ChainStandsFor (checked_plan checked.now) records chain.now →
        IfOk result (λ there. LeadsOn (checked_plan checked.now) records key.now
        groups.old there groups.new) }
    ensures stays { IfOk result (λ there. StaysUnless key.now groups.old there groups.new) }
{
    match groups.outcome_mut(key) {
        Some(outcome) => {
            chain.lead_with(alloc, checked, outcome, stepper)?;
            Ok(true)
        }
        None => Ok(false),
    }
}

/// A new group begins with the initial state, which the chain leads on. The key is copied.
fn begin(
    alloc: Global,
    checked: &Checked,
    groups: &mut Groups,
    key: &Key,
    chain: &Chain,
    stepper: &mut Stepper,
) -> Result<(), NoMemory>
    requires fits { ChainFits (checked_plan checked.now) chain.now }
    requires valid { AreValid (checked_plan checked.now) groups.old }
    requires new { lookup (is_key key.now) groups.old ≡ None }
    ensures valid { OnOk result (AreValid (checked_plan checked.now) groups.new) }
    ensures leads { (records : List OneRecord) →
        ChainStandsFor (checked_plan checked.now) records chain.now →
        OnOk result (groups.new ≡ led_on (checked_plan checked.now) records key.now groups.old) }
{
    well_formed_plans_keep_states_valid();
    let _plan = checked.plan();
    let mut outcome = Outcome::Going(initial(alloc, checked)?);
    chain.lead_with(alloc, checked, &mut outcome, stepper)?;
    groups.begin(alloc, key.copy(alloc)?, outcome)
}

/// The group with this key is led on by the chain, or begins so.
fn apply_group(
    alloc: Global,
    checked: &Checked,
    groups: &mut Groups,
    key: &Key,
    chain: &Chain,
    stepper: &mut Stepper,
) -> Result<(), NoMemory>
    requires fits { ChainFits (checked_plan checked.now) chain.now }
    requires valid { AreValid (checked_plan checked.now) groups.old }
    ensures valid { OnOk result (AreValid (checked_plan checked.now) groups.new) }
    ensures leads { (records : List OneRecord) →
        ChainStandsFor (checked_plan checked.now) records chain.now →
        OnOk result (groups.new ≡ led_on (checked_plan checked.now) records key.now groups.old) }
{
    if lead_on(alloc, checked, groups, key, chain, stepper)? {
        return Ok(());
    }
    begin(alloc, checked, groups, key, chain, stepper)
}

/// Leads the groups on by the chains of a run. They are let go together after it, with their keys:
/// a group that took its memory from among theirs would scatter that of the runs to come.
pub(crate) fn apply_all(
    alloc: Global,
    checked: &Checked,
    chains: &RunGroups,
    groups: &mut Groups,
) -> Result<(), NoMemory>
    requires fits { GroupsFit (checked_plan checked.now) chains.now }
    requires valid { AreValid (checked_plan checked.now) groups.old }
    ensures valid { OnOk result (AreValid (checked_plan checked.now) groups.new) }
    ensures groups { (records : List OneRecord) →
        GroupsStandFor (checked_plan checked.now) records chains.now →
        OnOk result (groups.new ≡ after_records (checked_plan checked.now) records groups.old) }
{
    let mut stepper = Stepper::new(alloc);
    'groups: for (key, chain) in chains.map.iter() {
        apply_group(alloc, checked, groups, key, chain, &mut stepper)?;
    }
    Ok(())
}
