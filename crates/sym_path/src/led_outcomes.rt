//! What a segment makes of an outcome.
ghost use Rattle.std.specs.Prelude.{◌≡◌, List, MatchOption, OnOk};
ghost use Rattle.sym_base.specs.declared.values.record.Record.{Record as OneRecord};
ghost use Rattle.sym_check.specs.Checking.CheckedScripts.{checked_plan};
ghost use Rattle.sym_check.specs.Meaning.Conditions.{test_truth};
ghost use Rattle.sym_check.specs.Meaning.Updates.{after};
ghost use Rattle.sym_check.specs.Meaning.Validity.{IsValidOutcome};
ghost use Rattle.sym_path.specs.Fitting.{SegmentFits};
ghost use Rattle.sym_path.specs.Leading.{IsFirstFor, LeadsTo, NoneAdmits};
ghost use Rattle.sym_path.specs.Standing.{StandsFor};

use crate::segment::Segment;
use std::alloc::Global;
use sym_base::{NoMemory, Outcome, State};
use sym_check::Checked;

impl Segment {
    /// The index of the first path that admits the state, counted from 0; `None` where none does.
    /// It takes no memory.
    pub fn path_for(&self, checked: &Checked, state: &State) -> Option<usize>
        ensures { MatchOption result
            (NoneAdmits (test_truth (checked_plan checked.now).tests) self.now state.now)
            (IsFirstFor (test_truth (checked_plan checked.now).tests) self.now state.now) }
    {
        let paths = self.paths();
        'paths: for index in 0..paths.len() {
            if paths[index].admits(checked, state) {
                return Some(index);
            }
        }
        None
    }

    /// Puts what the segment's records make of an outcome in its place: what the first path that
    /// admits a state makes of it, whose lists are moved. A group that has ended stays so, and so
    /// does a state that no path admits. After an `Err` the outcome is unspecified.
    pub fn lead(
        &self,
        alloc: Global,
        checked: &Checked,
        outcome: &mut Outcome,
    ) -> Result<(), NoMemory>
        requires fits { SegmentFits (checked_plan checked.now) self.now }
        requires valid { IsValidOutcome (checked_plan checked.now) outcome.old }
        ensures valid { OnOk result (IsValidOutcome (checked_plan checked.now) outcome.new) }
        ensures leads { OnOk result (LeadsTo (test_truth (checked_plan checked.now).tests)
            self.now outcome.old outcome.new) }
        ensures value { (records : List OneRecord) →
            StandsFor (checked_plan checked.now) records self.now →
            OnOk result (outcome.new ≡ after (checked_plan checked.now) records outcome.old) }
    {
        match &*outcome {
            Outcome::Going(state) => match self.path_for(checked, state) {
                Some(index) => self.paths()[index].lead(alloc, checked, outcome),
                None => Ok(()),
            },
            Outcome::Ended(_fault) => Ok(()),
        }
    }
}
