//! How groups stand before a part of a round.
ghost use Rattle.std.specs.Prelude.{◌≡◌, ◌++◌, [], None, IfOk, OnOk, length, slice_get};
ghost use Rattle.std.specs.Map.{keys_of, lookup};
ghost use Rattle.std.specs.Map.Iter.{deref_pair};
ghost use Rattle.std.specs.Option.{option_map};
ghost use Rattle.sym_check.specs.Meaning.Groups.{is_key};
ghost use Rattle.sym_scan.specs.Replays.{start_of, starts_of};

use std::alloc::Global;
use std::marker::Model;
use sym_base::{Key, NoMemory, Outcome};
use sym_plain::Groups;
use sym_run::Run;

/// Keys with how their groups stand before the records that are replayed. A contract sees a list of
/// pairs with distinct keys.
pub struct Starts {
    groups: Groups,
}

// Written here so that the crates above don't prove it for each type inside.
impl Drop for Starts {
    fn drop(self) {
        let Starts { groups: _groups } = self;
    }
}

impl Model for Starts {
    ghost use Rattle.std.specs.Prelude.{List};
    ghost use Rattle.sym_base.specs.declared.values.value.Key.{Key as OneKey};
    ghost use Rattle.sym_base.specs.declared.values.state.Outcome.{Outcome as OneOutcome};

    ghost Value = { List (OneKey × OneOutcome) };

    ghost view = { λ starts. starts.groups };
}

// The start of a key more, if its group is there. Both are copied.
fn add_start(alloc: Global, groups: &Groups, key: &Key, starts: &mut Groups) -> Result<(), NoMemory>
    requires new { lookup (is_key key.now) starts.old ≡ None }
    ensures { let start = start_of key.now (lookup (is_key key.now) groups.now) in
        OnOk result (starts.new ≡ starts.old ++ start) }
{
    if let Some(outcome) = groups.find(key) {
        starts.begin(alloc, key.copy(alloc)?, outcome.copy(alloc)?)?;
    }
    Ok(())
}

impl Starts {
    /// No starts: each group begins with the initial state. It takes no memory.
    pub fn new(alloc: Global) -> Starts
        ensures { result ≡ [] }
    {
        Starts {
            groups: Groups::new(alloc),
        }
    }

    /// Those of the run's keys that stand in the groups, in order, as they stand there. No other
    /// group is copied.
    pub fn of(alloc: Global, run: &Run, groups: &Groups) -> Result<Starts, NoMemory>
        ensures { IfOk result (λ starts. starts ≡ starts_of groups.now (keys_of run.now.groups)) }
    {
        let mut starts = Groups::new(alloc);
        'keys: for index in 0..run.groups.len() {
            if let Some((key, _chain)) = run.groups.at(index) {
                add_start(alloc, groups, key, &mut starts)?;
            }
        }
        Ok(Starts { groups: starts })
    }

    /// The number of starts.
    pub fn len(&self) -> usize
        ensures { result ≡ length self.now }
    {
        self.groups.len()
    }

    /// The start at `index`, counted from 0; `None` exactly where `index >= len`.
    pub fn at(&self, index: usize) -> Option<(&Key, &Outcome)>
        ensures { option_map deref_pair result ≡ slice_get self.now index }
    {
        self.groups.at(index)
    }

    /// Equal starts of their own.
    pub fn copy(&self, alloc: Global) -> Result<Starts, NoMemory>
        ensures { IfOk result (λ starts. starts ≡ self.now) }
    {
        Ok(Starts {
            groups: self.groups.copy(alloc)?,
        })
    }

    /// The groups as they stand. It takes no memory.
    pub(crate) fn into_groups(self) -> Groups
        ensures { result ≡ self }
    {
        let Starts { groups } = self;
        groups
    }
}
