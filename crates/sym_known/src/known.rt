//! A segment with known cells that steps as a group does.
ghost use Rattle.std.specs.Prelude.{◌≡◌, ◌≤◌, ◌++◌, ◌∷◌, [], IfOk, List, OnOk, length, map};
ghost use Rattle.std.specs.List.{AllZip};
ghost use Rattle.sym_base.specs.declared.values.record.Record.{Record as OneRecord};
ghost use Rattle.sym_base.specs.declared.values.state.Outcome.{Outcome as OneOutcome};
ghost use Rattle.sym_check.specs.Checking.CheckedScripts.{checked_plan};
ghost use Rattle.sym_check.specs.Meaning.Updates.{step};
ghost use Rattle.sym_check.specs.Meaning.Validity.{IsRecord};
ghost use Rattle.sym_path.specs.Fitting.{SegmentFits};
ghost use Rattle.sym_path.specs.Joining.{IsSettled};
ghost use Rattle.sym_path.specs.Standing.{StandsFor};
ghost use Rattle.sym_known.specs.Holding.{AllFit, KnownStandsFor, known_path, stepped};
ghost use Rattle.sym_known.specs.Knowing.{AreKnown};

use crate::placed::{Placed, place_all};
use crate::plain_paths::close_all;
use std::alloc::Global;
use std::marker::Model;
use sym_base::{NoMemory, Outcome, Record};
use sym_check::Checked;
use sym_check::laws::plans::keys_states_and_steps_fit;
use sym_path::{Segment, settle};
use sym_plain::{Buffers, advance};

/// The paths of a segment whose cells are known, and how groups stand by now that began with these
/// cells. Paths with equal known cells share one such group, whose lists began empty. A contract
/// sees each path with its outcome.
pub struct Known {
    placed: Vec<Placed>,
    outcomes: Vec<Outcome>,
}

impl Drop for Known {
    fn drop(self) {
        let Known {
            placed: _placed,
            outcomes: _outcomes,
        } = self;
    }
}

impl Model for Known {
    ghost use Rattle.std.specs.Prelude.{List, length, map};
    ghost use Rattle.std.specs.Coded.{coded_list};
    ghost use Rattle.sym_known.specs.Holding.{KnownPath, known_code};
    ghost use Rattle.sym_known.specs.Placing.{AllPlaced, known_in};

    ghost Value = { List KnownPath };

    ghost coded = { coded_list known_code };

    ghost view = { λ known. map (known_in known.outcomes.items) known.placed.items };

    ghost invariant = { λ known. AllPlaced (length known.outcomes.items) known.placed.items };
}

/// Makes the step of the record on each outcome.
fn step_each(
    alloc: Global,
    checked: &Checked,
    rec: &Record,
    buffers: &mut Buffers,
    outcomes: &mut [Outcome],
) -> Result<(), NoMemory>
    ensures steps { OnOk result (AllZip (λ (old new : OneOutcome).
        new ≡ step (checked_plan checked.now) old rec.now) outcomes.old outcomes.new) }
    ensures count { length outcomes.new ≡ length outcomes.old }
{
    'outcomes: for outcome in outcomes.iter_mut() {
        advance(alloc, checked, outcome, rec, buffers)?;
    }
    Ok(())
}

impl Known {
    /// A segment, each path of which has ended or has known cells. The paths are moved.
    pub fn of(alloc: Global, checked: &Checked, segment: Segment) -> Result<Known, NoMemory>
        requires fits { SegmentFits (checked_plan checked.now) segment }
        requires known { AreKnown segment }
        ensures paths { IfOk result (λ known. known ≡ map known_path segment) }
        ensures fits { IfOk result (AllFit (checked_plan checked.now)) }
        ensures stands { let p = checked_plan checked.now in
            IfOk result (λ known. (records : List OneRecord) →
            StandsFor p records segment → KnownStandsFor p records known) }
    {
        keys_states_and_steps_fit();
        let _plan = checked.plan();
        let mut outcomes = Vec::new(alloc);
        let placed = place_all(alloc, segment.into_vec(), &mut outcomes)?;
        Ok(Known { placed, outcomes })
    }

    /// One record more: each group that goes on makes its step. The number of paths stays, and
    /// nothing is copied that grows. After an `Err` it is unspecified.
    pub fn step(
        &mut self,
        alloc: Global,
        checked: &Checked,
        rec: &Record,
        buffers: &mut Buffers,
    ) -> Result<(), NoMemory>
        requires fits { AllFit (checked_plan checked.now) self.old }
        requires rec { IsRecord (checked_plan checked.now) rec.now }
        ensures paths { let p = checked_plan checked.now in
            OnOk result (self.new ≡ map (stepped p rec.now) self.old) }
        ensures fits { OnOk result (AllFit (checked_plan checked.now) self.new) }
        ensures stands { let p = checked_plan checked.now in
            OnOk result ((records : List OneRecord) →
            KnownStandsFor p records self.old →
            KnownStandsFor p (records ++ rec.now ∷ []) self.new) }
    {
        keys_states_and_steps_fit();
        let _plan = checked.plan();
        step_each(alloc, checked, rec, buffers, &mut self.outcomes)?;
        Ok(())
    }

    /// The segment into which it turns back: each path with the forms of its cells, and its fault
    /// where its group has ended. Lists are moved, and what was pushed goes after their elements.
    /// It is settled, and has at most as many paths as there were.
    pub fn close(self, alloc: Global, checked: &Checked) -> Result<Segment, NoMemory>
        requires fits { AllFit (checked_plan checked.now) self }
        ensures stands { let p = checked_plan checked.now in
            IfOk result (λ segment. (records : List OneRecord) →
            KnownStandsFor p records self → StandsFor p records segment) }
        ensures fits { IfOk result (SegmentFits (checked_plan checked.now)) }
        ensures settled { IfOk result IsSettled }
        ensures few { IfOk result (λ segment. length segment ≤ length self) }
    {
        let _plan = checked.plan();
        let Known { placed, outcomes } = self;
        let paths = close_all(alloc, placed, outcomes.as_slice())?;
        settle(alloc, paths)
    }
}
