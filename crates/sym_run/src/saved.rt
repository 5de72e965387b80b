//! Runs that are kept: what records of consecutive numbers do to each group.
ghost use Rattle.std.specs.Prelude.{◌≡◌, ◌↔◌, IfOk, IsTrue};
ghost use Rattle.sym_check.specs.Checking.CheckedScripts.{checked_plan};
ghost use Rattle.sym_run.specs.SavedRuns.{IsLawfulSaved};

use crate::lawful::are_lawful;
use crate::run_groups::RunGroups;
use std::alloc::Global;
use sym_base::NoMemory;
use sym_check::Checked;

/// What consecutive records do to each group. It has no meaning apart from its script.
pub struct Saved {
    /// The number of the first record, counted from 1.
    pub first: u64,
    /// The number of the record after the last.
    pub next: u64,
    /// The chains by group.
    pub groups: RunGroups,
}

// Written here so that the crates above don't prove it for each type inside.
impl Drop for Saved {
    fn drop(self) {
        let Saved {
            first: _first,
            next: _next,
            groups: _groups,
        } = self;
    }
}

impl Saved {
    /// An equal saved run of its own.
    pub fn copy(&self, alloc: Global) -> Result<Saved, NoMemory>
        ensures { IfOk result (λ saved. saved ≡ self.now) }
    {
        Ok(Saved {
            first: self.first,
            next: self.next,
            groups: self.groups.copy(alloc)?,
        })
    }

    /// Whether the saved run is lawful: its numbers are in order, from 1 or more on, its keys are of
    /// the script's kinds, no chain or segment is empty, no chain keeps records, each path fits the
    /// script, and each fault came at a record of its own. It takes no memory.
    pub fn is_lawful(&self, checked: &Checked) -> bool
        ensures { IsTrue result ↔ IsLawfulSaved (checked_plan checked.now) self.now }
    {
        1 <= self.first
            && self.first <= self.next
            && are_lawful(checked, self.first, self.next, &self.groups)
    }

    /// The chains by group. It takes no memory.
    pub fn into_groups(self) -> RunGroups
        ensures { result ≡ self.groups }
    {
        let Saved {
            first: _first,
            next: _next,
            groups,
        } = self;
        groups
    }
}
