//! How groups stand, in order of their keys' first appearance.
ghost use Rattle.std.specs.Prelude.{◌≡◌, false, ◌++◌, ◌∷◌, [], None, Some, IsTrue, IfOk, IfSome, OnOk, OnErr, is_some, length, slice_get};
ghost use Rattle.std.specs.List.{IsDistinct, list_all, position_or_len, zip};
ghost use Rattle.std.specs.Map.{keys_of, lookup, values_of};
ghost use Rattle.std.specs.Map.Iter.{deref_pair};
ghost use Rattle.std.specs.Option.{option_map, option_copied, option_copied_mut};
ghost use Rattle.indexmap.specs.IndexSet.{contains};
ghost use Rattle.sym_check.specs.Meaning.Conditions.{has_fixed_body};
ghost use Rattle.sym_check.specs.Meaning.Groups.{is_key};
ghost use Rattle.sym_check.specs.Plan.ScriptPlans.{script_plan};
ghost use Rattle.sym_plain.specs.Pairs.{HaveDistinctKeys, Steps, after_record, put, stepped};

use crate::keys::{no_key, set_key};
use crate::states::first_state;
use crate::steps::advance;
use crate::update::buffers::Buffers;
use indexmap::IndexSet;
use std::alloc::Global;
use std::marker::Model;
use sym_base::{Key, NoMemory, Outcome, Record};
use sym_check::Plan;

// The keys are inserted in order.
fn copy_keys(alloc: Global, keys: &IndexSet<Key>) -> Result<IndexSet<Key>, NoMemory>
    ensures { IfOk result (λ copied. copied.keys ≡ keys.now.keys) }
{
    let mut copied = IndexSet::with_capacity(alloc, keys.len())?;
    'keys: for key in keys.iter() {
        copied.insert(key.copy(alloc)?)?;
    }
    Ok(copied)
}

// Equal outcomes.
fn copy_outcomes(alloc: Global, outcomes: &[Outcome]) -> Result<Vec<Outcome>, NoMemory>
    ensures { IfOk result (λ copied. copied.items ≡ outcomes.now) }
{
    let mut copied = Vec::with_capacity(alloc, outcomes.len())?;
    'outcomes: for outcome in outcomes {
        copied.push(outcome.copy(alloc)?)?;
    }
    Ok(copied)
}

// A new key goes last, and its outcome too. After an `Err` all are as before.
fn push(
    keys: &mut IndexSet<Key>,
    outcomes: &mut Vec<Outcome>,
    key: Key,
    outcome: Outcome,
) -> Result<(), NoMemory>
    requires new { contains is_key keys.old key ≡ false }
    requires distinct { IsDistinct is_key keys.old.keys }
    ensures keys { OnOk result (keys.new.keys ≡ keys.old.keys ++ key ∷ []) }
    ensures outcomes { OnOk result (outcomes.new.items ≡ outcomes.old.items ++ outcome ∷ []) }
    ensures err_keys { OnErr result (keys.new.keys ≡ keys.old.keys) }
    ensures err_outcomes { OnErr result (outcomes.new.items ≡ outcomes.old.items) }
    ensures distinct { IsDistinct is_key keys.new.keys }
{
    outcomes.reserve(1)?;
    keys.insert(key)?;
    outcomes.push_reserved(outcome);
    Ok(())
}

// Whether there is a group with this key, which then makes its step.
fn go_on(
    alloc: Global,
    plan: &Plan,
    keys: &IndexSet<Key>,
    outcomes: &mut Vec<Outcome>,
    key: &Key,
    rec: &Record,
    buffers: &mut Buffers,
) -> Result<bool, NoMemory>
    requires tests { IsTrue (list_all has_fixed_body (script_plan plan.now).tests) }
    requires distinct { IsDistinct is_key keys.now.keys }
    requires len { length outcomes.old.items ≡ length keys.now.keys }
    ensures steps { let p = script_plan plan.now in
        let old = zip keys.now.keys outcomes.old.items in
        let new = zip keys.now.keys outcomes.new.items in
        IfOk result (λ there. Steps p key.now rec.now old there new) }
    ensures len { length outcomes.new.items ≡ length outcomes.old.items }
{
    match keys.get_index_of(key) {
        Some(index) => {
            advance(alloc, plan, &mut outcomes[index], rec, buffers)?;
            Ok(true)
        }
        None => Ok(false),
    }
}

// A new group makes its first step.
fn begin(
    alloc: Global,
    plan: &Plan,
    keys: &mut IndexSet<Key>,
    outcomes: &mut Vec<Outcome>,
    key: &Key,
    rec: &Record,
    buffers: &mut Buffers,
) -> Result<(), NoMemory>
    requires tests { IsTrue (list_all has_fixed_body (script_plan plan.now).tests) }
    requires new { lookup (is_key key.now) (zip keys.old.keys outcomes.old.items) ≡ None }
    requires distinct { IsDistinct is_key keys.old.keys }
    requires len { length outcomes.old.items ≡ length keys.old.keys }
    ensures steps { let p = script_plan plan.now in
        let old = zip keys.old.keys outcomes.old.items in
        let new = zip keys.new.keys outcomes.new.items in
        OnOk result (new ≡ stepped p key.now rec.now old) }
    ensures distinct { IsDistinct is_key keys.new.keys }
    ensures len { length outcomes.new.items ≡ length keys.new.keys }
{
    let key = key.copy(alloc)?;
    let mut outcome = Outcome::Going(first_state(alloc, plan)?);
    advance(alloc, plan, &mut outcome, rec, buffers)?;
    push(keys, outcomes, key, outcome)
}

// Makes the step of the group with this key. After an `Err` the groups are unspecified.
fn step_group(
    alloc: Global,
    plan: &Plan,
    keys: &mut IndexSet<Key>,
    outcomes: &mut Vec<Outcome>,
    key: &Key,
    rec: &Record,
    buffers: &mut Buffers,
) -> Result<(), NoMemory>
    requires tests { IsTrue (list_all has_fixed_body (script_plan plan.now).tests) }
    requires distinct { IsDistinct is_key keys.old.keys }
    requires len { length outcomes.old.items ≡ length keys.old.keys }
    ensures steps { let p = script_plan plan.now in
        let old = zip keys.old.keys outcomes.old.items in
        let new = zip keys.new.keys outcomes.new.items in
        OnOk result (new ≡ stepped p key.now rec.now old) }
    ensures distinct { IsDistinct is_key keys.new.keys }
    ensures len { length outcomes.new.items ≡ length keys.new.keys }
{
    if go_on(alloc, plan, keys, outcomes, key, rec, buffers)? {
        Ok(())
    } else {
        begin(alloc, plan, keys, outcomes, key, rec, buffers)
    }
}

/// Each key with how its group stands. A contract sees a list of pairs with distinct keys.
pub struct Groups {
    keys: IndexSet<Key>,
    // How each group stands, in the order of their keys.
    outcomes: Vec<Outcome>,
    // The key that was looked up last; the next one is made over its memory.
    key: Key,
    buffers: Buffers,
}

// Written here so that the crates above don't prove it for each type inside.
impl Drop for Groups {
    fn drop(self) {
        let Groups {
            keys: _keys,
            outcomes: _outcomes,
            key: _key,
            buffers: _buffers,
        } = self;
    }
}

impl Model for Groups {
    ghost use Rattle.std.specs.Prelude.{◌≡◌, List, length};
    ghost use Rattle.std.specs.List.{IsDistinct, zip};
    ghost use Rattle.sym_base.specs.declared.values.value.Key.{Key as OneKey};
    ghost use Rattle.sym_base.specs.declared.values.state.Outcome.{Outcome as OneOutcome};
    ghost use Rattle.sym_check.specs.Meaning.Groups.{is_key};

    ghost Value = { List (OneKey × OneOutcome) };

    ghost view = { λ g. zip g.keys.keys g.outcomes.items };

    ghost invariant = { λ g.
        IsDistinct is_key g.keys.keys × (length g.outcomes.items ≡ length g.keys.keys) };
}

impl Groups {
    ghost use Rattle.std.specs.Borrow.{sem};
    ghost use Rattle.sym_plain.specs.Lending.{lends_outcome, lends_outcome_at, lends_outcomes};

    /// No groups. It takes no memory.
    pub fn new(alloc: Global) -> Groups
        ensures { result ≡ [] }
    {
        Groups {
            keys: IndexSet::new(alloc),
            outcomes: Vec::new(alloc),
            key: no_key(alloc),
            buffers: Buffers::new(alloc),
        }
    }

    /// The number of groups.
    pub fn len(&self) -> usize
        ensures len { result ≡ length self.now }
        ensures distinct { HaveDistinctKeys self.now }
    {
        self.keys.len()
    }

    /// The group at `index`, counted from 0; `None` exactly where `index >= len`.
    pub fn at(&self, index: usize) -> Option<(&Key, &Outcome)>
        ensures { option_map deref_pair result ≡ slice_get self.now index }
    {
        Some((self.keys.get_index(index)?, self.outcomes.get(index)?))
    }

    /// The groups with this outcome for the key: it takes the place of the key's outcome, and a
    /// new key goes last. After an `Err` the groups, the key and the outcome are dropped. For
    /// callers who have an outcome from elsewhere: the program's groups come from records.
    pub fn put(self, alloc: Global, key: Key, outcome: Outcome) -> Result<Groups, NoMemory>
        ensures { IfOk result (λ g. g ≡ put self key outcome) }
    {
        let mut groups = self;
        match groups.outcome_mut(&key) {
            Some(held) => {
                *held = outcome;
                Ok(groups)
            }
            None => {
                groups.begin(alloc, key, outcome)?;
                Ok(groups)
            }
        }
    }

    // The index of the group with this key; the number of groups where there is none.
    fn place_of(&self, key: &Key) -> usize
        ensures index { result ≡ position_or_len (is_key key.now) (keys_of self.now) }
        ensures distinct { HaveDistinctKeys self.now }
    {
        self.keys.get_index_of(key).unwrap_or(self.keys.len())
    }

    /// How the group with this key stands; `None` exactly where there is no such group.
    pub fn find(&self, key: &Key) -> Option<&Outcome>
        ensures { option_copied result ≡ lookup (is_key key.now) self.now }
    {
        self.outcomes.get(self.place_of(key))
    }

    /// The outcome of the group with this key, which can be written; `None` exactly where there is
    /// no such group.
    pub fn outcome_mut(&mut self, key: &Key) -> Option<&mut Outcome>
        ensures* writes_back { sem 𝓛 (lends_outcome self.entry key.now result) }
        ensures outcome { option_copied_mut result ≡ lookup (is_key key.now) self.old }
    {
        let index = self.place_of(key);
        self.outcome_at_mut(index)
    }

    /// A group more, which goes last. `outcome_mut` tells whether its key is new. After an `Err`
    /// the groups are as before, and the key and the outcome are dropped.
    pub fn begin(&mut self, _alloc: Global, key: Key, outcome: Outcome) -> Result<(), NoMemory>
        requires new { lookup (is_key key) self.old ≡ None }
        ensures ok { OnOk result (self.new ≡ self.old ++ (key, outcome) ∷ []) }
        ensures err { OnErr result (self.new ≡ self.old) }
    {
        push(&mut self.keys, &mut self.outcomes, key, outcome)
    }

    /// The index of the group with this key, counted from 0; `None` exactly where there is no such
    /// group. It stays the index of that group, since groups keep their order.
    pub fn index_of(&self, key: &Key) -> Option<usize>
        ensures index { IfSome result (λ i. slice_get (keys_of self.now) i ≡ Some key.now) }
        ensures found { is_some result ≡ is_some (lookup (is_key key.now) self.now) }
        ensures distinct { HaveDistinctKeys self.now }
    {
        self.keys.get_index_of(key)
    }

    /// The outcome of the group at `index`, counted from 0, which can be written; `None` exactly
    /// where `index >= len`.
    pub fn outcome_at_mut(&mut self, index: usize) -> Option<&mut Outcome>
        ensures* writes_back { sem 𝓛 (lends_outcome_at self.entry index result) }
        ensures outcome { option_copied_mut result ≡ slice_get (values_of self.old) index }
    {
        self.outcomes.get_mut(index)
    }

    /// The outcomes of all groups, in order, which can be written.
    pub fn outcomes_mut(&mut self) -> &mut [Outcome]
        ensures* writes_back { sem 𝓛 (lends_outcomes self.entry result) }
        ensures outcomes { result.now ≡ values_of self.old }
        ensures distinct { HaveDistinctKeys self.old }
    {
        self.outcomes.as_mut_slice()
    }

    /// Equal groups of their own.
    pub fn copy(&self, alloc: Global) -> Result<Groups, NoMemory>
        ensures { IfOk result (λ groups. groups ≡ self.now) }
    {
        Ok(Groups {
            keys: copy_keys(alloc, &self.keys)?,
            outcomes: copy_outcomes(alloc, self.outcomes.as_slice())?,
            key: no_key(alloc),
            buffers: Buffers::new(alloc),
        })
    }

    /// Makes the step of the record's group. After an `Err` the groups are unspecified.
    pub(crate) fn take(&mut self, alloc: Global, plan: &Plan, rec: &Record) -> Result<(), NoMemory>
        requires { IsTrue (list_all has_fixed_body (script_plan plan.now).tests) }
        ensures { OnOk result (self.new ≡ after_record (script_plan plan.now) rec.now self.old) }
    {
        set_key(alloc, plan, &mut self.key, rec)?;
        step_group(
            alloc,
            plan,
            &mut self.keys,
            &mut self.outcomes,
            &self.key,
            rec,
            &mut self.buffers,
        )
    }
}
