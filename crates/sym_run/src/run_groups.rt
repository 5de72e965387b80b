//! The chains of a run, by group.
ghost use Rattle.std.specs.Prelude.{◌≡◌, ◌++◌, ◌∷◌, [], List, IfOk, IfSome, None, OnErr, OnOk, Some, is_some, length, slice_get};
ghost use Rattle.std.specs.List.{AllZip};
ghost use Rattle.std.specs.Map.{keys_of, lookup};
ghost use Rattle.std.specs.Map.Iter.{deref_pair};
ghost use Rattle.std.specs.Option.{option_map};
ghost use Rattle.sym_plain.specs.Pairs.{HaveDistinctKeys};
ghost use Rattle.sym_base.specs.declared.values.record.Record.{Record as OneRecord};
ghost use Rattle.sym_check.specs.Checking.CheckedScripts.{checked_plan};
ghost use Rattle.sym_check.specs.Meaning.Groups.{is_key};
ghost use Rattle.sym_run.specs.Runs.{added, AreClosed, AreTight, GroupsFit, GroupsStandFor, IsClosing};

use crate::chains::Chain;
use indexmap::IndexMap;
use std::alloc::Global;
use std::marker::Model;
use sym_base::{Key, NoMemory};
use sym_check::Checked;

// The entries are inserted in order, each with the hash of its key.
fn copy_map(alloc: Global, map: &IndexMap<Key, Chain>) -> Result<IndexMap<Key, Chain>, NoMemory>
    ensures { IfOk result (λ copied. copied.entries ≡ map.now.entries) }
{
    let mut copied = IndexMap::with_capacity(alloc, map.len())?;
    'entries: for (key, chain) in map.iter() {
        drop(copied.insert(key.copy(alloc)?, chain.copy(alloc)?)?);
    }
    Ok(copied)
}

/// Each key of some records with the chain of its records. A contract sees a list of pairs with
/// distinct keys.
pub struct RunGroups {
    pub(crate) map: IndexMap<Key, Chain>,
}

// Written here so that the crates above don't prove it for each type inside.
impl Drop for RunGroups {
    fn drop(self) {
        let RunGroups { map: _map } = self;
    }
}

impl Model for RunGroups {
    ghost use Rattle.std.specs.Prelude.{List};
    ghost use Rattle.sym_base.specs.declared.values.value.Key.{Key as OneKey};
    ghost use Rattle.sym_base.specs.contracts.values.value.Key as key;
    ghost use Rattle.std.specs.Coded.{coded_list, coded×};
    ghost use Rattle.sym_run.specs.Chained.{Chained, chained_code};
    ghost use Rattle.sym_plain.specs.Pairs.{HaveDistinctKeys};

    ghost Value = { List (OneKey × Chained) };

    ghost coded = { coded_list (coded× (key.the_row).coded chained_code) };

    ghost view = { λ groups. groups.map.entries };

    ghost invariant = { λ groups. HaveDistinctKeys groups.map.entries };
}

impl RunGroups {
    /// No groups. It takes no memory.
    pub fn new(alloc: Global) -> RunGroups
        ensures { result ≡ [] }
    {
        RunGroups {
            map: IndexMap::new(alloc),
        }
    }

    /// The groups of a map. It takes no memory.
    pub(crate) fn of_map(map: IndexMap<Key, Chain>) -> RunGroups
        requires { HaveDistinctKeys map.entries }
        ensures { result ≡ map.entries }
    {
        RunGroups { map }
    }

    /// The map of the groups. It takes no memory.
    pub(crate) fn into_map(self) -> IndexMap<Key, Chain>
        ensures same { result.entries ≡ self }
        ensures distinct { HaveDistinctKeys result.entries }
    {
        let RunGroups { map } = self;
        map
    }

    /// The number of groups.
    pub fn len(&self) -> usize
        ensures len { result ≡ length self.now }
        ensures distinct { HaveDistinctKeys self.now }
    {
        self.map.len()
    }

    /// The group at `index`, counted from 0; `None` exactly where `index >= len`.
    pub fn at(&self, index: usize) -> Option<(&Key, &Chain)>
        ensures { option_map deref_pair result ≡ slice_get self.now index }
    {
        self.map.get_index(index)
    }

    /// The index of the group with this key, counted from 0; `None` exactly where there is no such
    /// group. It stays the index of that group, since groups keep their order.
    pub fn index_of(&self, key: &Key) -> Option<usize>
        ensures index { IfSome result (λ i. slice_get (keys_of self.now) i ≡ Some key.now) }
        ensures found { is_some result ≡ is_some (lookup (is_key key.now) self.now) }
        ensures distinct { HaveDistinctKeys self.now }
    {
        self.map.get_index_of(key)
    }

    /// A group more, which goes last. `index_of` tells whether its key is new. After an `Err` the
    /// groups are as before, and the key and the chain are dropped.
    pub fn begin(&mut self, _alloc: Global, key: Key, chain: Chain) -> Result<(), NoMemory>
        requires new { lookup (is_key key) self.old ≡ None }
        ensures ok { OnOk result (self.new ≡ self.old ++ (key, chain) ∷ []) }
        ensures err { OnErr result (self.new ≡ self.old) }
    {
        self.map.insert(key, chain)?;
        Ok(())
    }

    /// The groups and one more, which goes last; `None` exactly where its key is there. Then, and
    /// after an `Err`, all are dropped.
    pub fn add(self, _alloc: Global, key: Key, chain: Chain) -> Result<Option<RunGroups>, NoMemory>
        ensures { IfOk result (λ groups. groups ≡ added self key chain) }
    {
        let mut map = self.into_map();
        let old = map.insert(key, chain)?;
        if old.is_some() {
            return Ok(None);
        }
        Ok(Some(RunGroups::of_map(map)))
    }

    /// The groups with what their chains keep explored, so that segments cover all records
    /// (`Chain::closed`). Keys and chains are moved.
    pub fn closed(self, alloc: Global, checked: &Checked, limit: u32) -> Result<RunGroups, NoMemory>
        requires fits { GroupsFit (checked_plan checked.now) self }
        requires tight { AreTight (checked_plan checked.now) limit self }
        ensures closed { IfOk result AreClosed }
        ensures fits { IfOk result (GroupsFit (checked_plan checked.now)) }
        ensures tight { IfOk result (AreTight (checked_plan checked.now) limit) }
        ensures each { IfOk result (AllZip (IsClosing (checked_plan checked.now)) self) }
        ensures stands { (records : List OneRecord) →
            GroupsStandFor (checked_plan checked.now) records self →
            IfOk result (GroupsStandFor (checked_plan checked.now) records) }
    {
        let map = self.into_map();
        let mut closed = IndexMap::with_capacity(alloc, map.len())?;
        'groups: for (key, chain) in map {
            drop(closed.insert(key, chain.closed(alloc, checked, limit)?)?);
        }
        Ok(RunGroups::of_map(closed))
    }

    /// Equal groups of their own.
    pub fn copy(&self, alloc: Global) -> Result<RunGroups, NoMemory>
        ensures { IfOk result (λ groups. groups ≡ self.now) }
    {
        Ok(RunGroups {
            map: copy_map(alloc, &self.map)?,
        })
    }
}
