//! Groups whose chains are open.
ghost use Rattle.std.specs.Prelude.{◌≡◌, List, IfOk, map as each};
ghost use Rattle.std.specs.List.{AllZip};
ghost use Rattle.sym_base.specs.declared.values.record.Record.{Record as OneRecord};
ghost use Rattle.sym_check.specs.Checking.CheckedScripts.{checked_plan};
ghost use Rattle.sym_plain.specs.Pairs.{HaveDistinctKeys};
ghost use Rattle.sym_run.specs.Opened.{IsClosingOpen, OpenGroupsAreExtended, OpenGroupsAreTight, OpenGroupsFit, OpenGroupsKeepNone, OpenGroupsStandFor, opened_group};
ghost use Rattle.sym_run.specs.Runs.{AreClosed, AreTight, GroupsAreExtended, GroupsFit, GroupsStandFor};

use crate::opened::Open;
use crate::run_groups::RunGroups;
use indexmap::IndexMap;
use std::alloc::Global;
use sym_base::{Key, NoMemory};
use sym_check::Checked;

/// The groups, each with its chain as it stands. Keys and chains are moved.
pub(crate) fn open_all(alloc: Global, groups: RunGroups) -> Result<IndexMap<Key, Open>, NoMemory>
    ensures groups { IfOk result (λ opened. opened.entries ≡ each opened_group groups) }
    ensures distinct { IfOk result (λ opened. HaveDistinctKeys opened.entries) }
{
    let map = groups.into_map();
    let mut opened = IndexMap::with_capacity(alloc, map.len())?;
    'groups: for (key, chain) in map {
        drop(opened.insert(key, Open::Chain(chain))?);
    }
    Ok(opened)
}

/// The groups with their chains closed. Keys and chains are moved.
pub(crate) fn close_all(
    alloc: Global,
    checked: &Checked,
    map: IndexMap<Key, Open>,
    limit: u32,
) -> Result<RunGroups, NoMemory>
    requires fits { OpenGroupsFit (checked_plan checked.now) map.entries }
    requires tight { OpenGroupsAreTight (checked_plan checked.now) limit map.entries }
    requires distinct { HaveDistinctKeys map.entries }
    ensures fits { IfOk result (GroupsFit (checked_plan checked.now)) }
    ensures tight { IfOk result (AreTight (checked_plan checked.now) limit) }
    ensures each { IfOk result (AllZip (IsClosingOpen (checked_plan checked.now)) map.entries) }
    ensures closed { OpenGroupsKeepNone map.entries → IfOk result AreClosed }
    ensures stands { (records : List OneRecord) →
        OpenGroupsStandFor (checked_plan checked.now) records map.entries →
        IfOk result (GroupsStandFor (checked_plan checked.now) records) }
    ensures extends { (records : List OneRecord) →
        OpenGroupsAreExtended (checked_plan checked.now) limit records map.entries →
        IfOk result (GroupsAreExtended (checked_plan checked.now) limit records) }
{
    let mut closed = IndexMap::with_capacity(alloc, map.len())?;
    'groups: for (key, chain) in map {
        drop(closed.insert(key, chain.close(alloc, checked, limit)?)?);
    }
    Ok(RunGroups::of_map(closed))
}
