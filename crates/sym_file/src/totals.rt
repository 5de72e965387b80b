//! The groups of saved runs, taken one after the other.
ghost use Rattle.std.specs.Prelude.{◌≡◌, ◌≤◌, [], List, IfOk, None, Some, length, slice_get};
ghost use Rattle.std.specs.Map.{keys_of, lookup};
ghost use Rattle.std.specs.Map.Iter.{deref_pair};
ghost use Rattle.std.specs.Option.{option_map};
ghost use Rattle.sym_base.specs.declared.limits.TheConstants as limit;
ghost use Rattle.sym_base.specs.declared.values.record.Record.{Record as OneRecord};
ghost use Rattle.sym_base.specs.declared.values.value.Key.{Key as OneKey};
ghost use Rattle.sym_check.specs.Checking.CheckedScripts.{checked_plan};
ghost use Rattle.sym_check.specs.Meaning.Conditions.{test_truth};
ghost use Rattle.sym_check.specs.Meaning.Groups.{is_key};
ghost use Rattle.sym_check.specs.Meaning.Validity.{IsValidOutcome};
ghost use Rattle.sym_path.specs.Fitting.{SegmentFits};
ghost use Rattle.sym_plain.specs.Pairs.{HaveDistinctKeys, after_records, standing};
ghost use Rattle.sym_run.specs.Applying.{AreValid};
ghost use Rattle.sym_run.specs.Chains.{ChainFits};
ghost use Rattle.sym_run.specs.SavedRuns.{IsLawfulSaved, SavedStandsFor};
ghost use Rattle.sym_file.specs.SavedTexts.{printed};
ghost use Rattle.sym_file.specs.TakenTexts.{IfTextDone, TakesText};
ghost use Rattle.sym_file.specs.Totals.{IfDone, IsLed, IsTaken, led_by, led_through, taken, taken_to};
ghost use Rattle.sym_file.specs.declared.totals.Taken.TheVariants.{Done};

use crate::led_groups::{Led, lead_text};
use crate::reader::read_own;
use crate::saved_err::SavedErr;
use std::alloc::Global;
use std::marker::Model;
use sym_base::{Key, NoMemory, Outcome};
use sym_check::Checked;
use sym_check::laws::plans::well_formed_plans_keep_states_valid;
use sym_parse::print;
use sym_path::Segment;
use sym_plain::{Groups, initial};
use sym_run::{Chain, Saved};

/// How each group stands after the saved runs that were taken. A contract sees a list of pairs with
/// distinct keys.
pub struct Totals {
    groups: Groups,
}

// Written here so that the crates above don't prove it for each type inside.
impl Drop for Totals {
    fn drop(self) {
        let Totals { groups: _groups } = self;
    }
}

impl Model for Totals {
    ghost use Rattle.std.specs.Prelude.{List};
    ghost use Rattle.sym_base.specs.declared.values.value.Key.{Key as OneKey};
    ghost use Rattle.sym_base.specs.declared.values.state.Outcome.{Outcome as OneOutcome};

    ghost Value = { List (OneKey × OneOutcome) };

    ghost view = { λ totals. totals.groups };
}

/// What taking a saved run comes to.
#[derive(Drop)]
pub enum Taken {
    /// The totals after the saved run.
    Done(Totals),
    /// The chain of this group, counted from 0, has no path for how the group stands.
    Gap { group: u64 },
}

/// What taking the saved run of a text comes to.
#[derive(Drop)]
pub enum TakenText {
    /// The totals after the saved run, and the number of the record after its last.
    Done { totals: Totals, next: u64 },
    /// Its first record has another number.
    Apart,
    /// The chain of this group, counted from 0, has no path for how the group stands.
    Gap { group: u64 },
}

impl Taken {
    /// An equal answer.
    pub fn copy(&self, alloc: Global) -> Result<Taken, NoMemory>
        ensures { IfOk result (λ copy. copy ≡ self.now) }
    {
        match self {
            Taken::Done(totals) => Ok(Taken::Done(totals.copy(alloc)?)),
            Taken::Gap { group } => Ok(Taken::Gap { group: *group }),
        }
    }
}

impl TakenText {
    /// An equal answer.
    pub fn copy(&self, alloc: Global) -> Result<TakenText, NoMemory>
        ensures { IfOk result (λ copy. copy ≡ self.now) }
    {
        match self {
            TakenText::Done { totals, next } => Ok(TakenText::Done {
                totals: totals.copy(alloc)?,
                next: *next,
            }),
            TakenText::Apart => Ok(TakenText::Apart),
            TakenText::Gap { group } => Ok(TakenText::Gap { group: *group }),
        }
    }
}

/// Puts what the first path that admits it makes of a state in its place; whether there is such a
/// path. A group that has ended stays so.
fn lead(
    alloc: Global,
    checked: &Checked,
    segment: &Segment,
    outcome: &mut Outcome,
) -> Result<bool, NoMemory>
    requires fits { SegmentFits (checked_plan checked.now) segment.now }
    requires valid { IsValidOutcome (checked_plan checked.now) outcome.old }
    ensures valid { IfOk result (λ led. IsValidOutcome (checked_plan checked.now) outcome.new) }
    ensures led { IfOk result (λ led. IsLed led outcome.new
        (led_by (test_truth (checked_plan checked.now).tests) segment.now outcome.old)) }
{
    match &*outcome {
        Outcome::Going(state) => match segment.path_for(checked, state) {
            Some(index) => {
                segment.paths()[index].lead(alloc, checked, outcome)?;
                Ok(true)
            }
            None => Ok(false),
        },
        Outcome::Ended(_fault) => Ok(true),
    }
}

/// Leads the outcome through the segments of a chain in turn; whether each has a path for it.
fn lead_through(
    alloc: Global,
    checked: &Checked,
    chain: &Chain,
    outcome: &mut Outcome,
) -> Result<bool, NoMemory>
    requires fits { ChainFits (checked_plan checked.now) chain.now }
    requires valid { IsValidOutcome (checked_plan checked.now) outcome.old }
    ensures valid { IfOk result (λ led. IsValidOutcome (checked_plan checked.now) outcome.new) }
    ensures led { IfOk result (λ led. IsLed led outcome.new
        (led_through (test_truth (checked_plan checked.now).tests) chain.now outcome.old)) }
{
    'segments: for segment in chain.segments() {
        let led = lead(alloc, checked, segment, outcome)?;
        if !led {
            return Ok(false);
        }
    }
    Ok(true)
}

/// Leads the group at this index through the chain; whether each segment has a path for it.
pub(crate) fn take_at(
    alloc: Global,
    checked: &Checked,
    groups: &mut Groups,
    index: usize,
    chain: &Chain,
) -> Result<bool, NoMemory>
    requires fits { ChainFits (checked_plan checked.now) chain.now }
    requires valid { AreValid (checked_plan checked.now) groups.old }
    requires distinct { HaveDistinctKeys groups.old }
    ensures valid { IfOk result (λ led. AreValid (checked_plan checked.now) groups.new) }
    ensures taken { (key : OneKey) → slice_get (keys_of groups.old) index ≡ Some key →
        IfOk result (λ led. IsTaken key groups.old
        (led_through (test_truth (checked_plan checked.now).tests) chain.now
        (standing (checked_plan checked.now) (lookup (is_key key) groups.old)))
        led groups.new) }
{
    match groups.outcome_at_mut(index) {
        Some(outcome) => lead_through(alloc, checked, chain, outcome),
        None => Ok(false),
    }
}

/// A new group: the initial state, led through the chain; whether each segment has a path for it.
pub(crate) fn begin(
    alloc: Global,
    checked: &Checked,
    groups: &mut Groups,
    key: Key,
    chain: &Chain,
) -> Result<bool, NoMemory>
    requires fits { ChainFits (checked_plan checked.now) chain.now }
    requires valid { AreValid (checked_plan checked.now) groups.old }
    requires new { lookup (is_key key) groups.old ≡ None }
    ensures valid { IfOk result (λ led. AreValid (checked_plan checked.now) groups.new) }
    ensures taken { IfOk result (λ led. IsTaken key groups.old
        (led_through (test_truth (checked_plan checked.now).tests) chain.now
        (standing (checked_plan checked.now) None)) led groups.new) }
{
    well_formed_plans_keep_states_valid();
    let _plan = checked.plan();
    let mut outcome = Outcome::Going(initial(alloc, checked)?);
    let led = lead_through(alloc, checked, chain, &mut outcome)?;
    if !led {
        return Ok(false);
    }
    groups.begin(alloc, key, outcome)?;
    Ok(true)
}

/// Takes a group; whether each segment of its chain has a path for how it stands.
fn take_group(
    alloc: Global,
    checked: &Checked,
    groups: &mut Groups,
    key: &Key,
    chain: &Chain,
) -> Result<bool, NoMemory>
    requires fits { ChainFits (checked_plan checked.now) chain.now }
    requires valid { AreValid (checked_plan checked.now) groups.old }
    ensures valid { IfOk result (λ led. AreValid (checked_plan checked.now) groups.new) }
    ensures taken { IfOk result (λ led. IsTaken key.now groups.old
        (led_through (test_truth (checked_plan checked.now).tests) chain.now
        (standing (checked_plan checked.now) (lookup (is_key key.now) groups.old)))
        led groups.new) }
{
    match groups.index_of(key) {
        Some(index) => take_at(alloc, checked, groups, index, chain),
        None => begin(alloc, checked, groups, key.copy(alloc)?, chain),
    }
}

/// Takes all groups of a saved run; the number of the first that is a gap, counted from 0.
fn take_all(
    alloc: Global,
    checked: &Checked,
    groups: &mut Groups,
    saved: &Saved,
) -> Result<Option<usize>, NoMemory>
    requires lawful { IsLawfulSaved (checked_plan checked.now) saved.now }
    requires valid { AreValid (checked_plan checked.now) groups.old }
    ensures valid { IfOk result (λ gap. AreValid (checked_plan checked.now) groups.new) }
    ensures taken { IfOk result (λ gap.
        taken (checked_plan checked.now) 0 saved.now.groups groups.old
        ≡ taken_to gap groups.new) }
{
    'groups: for index in 0..saved.groups.len() {
        if let Some((key, chain)) = saved.groups.at(index) {
            let taken = take_group(alloc, checked, groups, key, chain)?;
            if !taken {
                return Ok(Some(index));
            }
        }
    }
    Ok(None)
}

impl Totals {
    /// No groups. It takes no memory.
    pub fn new(alloc: Global) -> Totals
        ensures { result ≡ [] }
    {
        Totals {
            groups: Groups::new(alloc),
        }
    }

    /// The number of groups.
    pub fn len(&self) -> usize
        ensures len { result ≡ length self.now }
        ensures distinct { HaveDistinctKeys self.now }
    {
        self.groups.len()
    }

    /// The group at `index`, counted from 0; `None` exactly where `index >= len`.
    pub fn at(&self, index: usize) -> Option<(&Key, &Outcome)>
        ensures { option_map deref_pair result ≡ slice_get self.now index }
    {
        self.groups.at(index)
    }

    /// The groups, as a report takes them.
    pub fn groups(&self) -> &Groups
        ensures { result.now ≡ self.now }
    {
        &self.groups
    }

    /// Equal totals.
    pub fn copy(&self, alloc: Global) -> Result<Totals, NoMemory>
        ensures { IfOk result (λ copy. copy ≡ self.now) }
    {
        Ok(Totals {
            groups: self.groups.copy(alloc)?,
        })
    }

    /// The totals after a saved run: each of its groups is led through its chain, a state by the
    /// first path of each segment that admits it; a group that has ended stays so, a new key goes
    /// last, from the initial state, and all other groups stay. `Gap` exactly where a segment of a
    /// chain has no path that admits the state it meets; it is the first such group. After an `Err`
    /// and after `Gap` the totals are dropped.
    pub fn take(self, alloc: Global, checked: &Checked, saved: &Saved) -> Result<Taken, NoMemory>
        requires lawful { IsLawfulSaved (checked_plan checked.now) saved.now }
        requires valid { AreValid (checked_plan checked.now) self }
        ensures taken { IfOk result (λ answer.
            answer ≡ taken (checked_plan checked.now) 0 saved.now.groups self) }
        ensures valid { IfOk result (λ answer.
            IfDone answer (AreValid (checked_plan checked.now))) }

        // Where the saved run stands for records, there is no gap, and these are the totals after
        // the records.
        ensures stands { (records : List OneRecord) →
            SavedStandsFor (checked_plan checked.now) records saved.now →
            IfOk result (λ answer.
            answer ≡ Done (after_records (checked_plan checked.now) records self)) }
    {
        well_formed_plans_keep_states_valid();
        let _plan = checked.plan();
        let Totals { mut groups } = self;
        match take_all(alloc, checked, &mut groups, saved)? {
            Some(index) => Ok(Taken::Gap {
                group: index as u64,
            }),
            None => Ok(Taken::Done(Totals { groups })),
        }
    }

    /// `read_saved` and `take` at once, of a saved run whose first record has the number `first`:
    /// each group is taken as it is read, and no saved run is made. After an `Err`, `Apart` and
    /// `Gap` the totals are dropped.
    pub fn take_text(
        self,
        alloc: Global,
        checked: &Checked,
        bytes: &[u8],
        first: u64,
    ) -> Result<TakenText, SavedErr>
        requires size { length bytes.now ≤ limit.FILE_MAX }
        requires valid { AreValid (checked_plan checked.now) self }
        ensures taken { TakesText (printed checked.now) (checked_plan checked.now) bytes.now first
            self result }
        ensures valid { IfOk result (λ answer.
            IfTextDone answer (AreValid (checked_plan checked.now))) }
    {
        let own = print(alloc, checked.script())?;
        let Totals { mut groups } = self;
        match lead_text(alloc, checked, &own, bytes, first, &mut groups) {
            Ok(Led::Done(next)) => Ok(TakenText::Done {
                totals: Totals { groups },
                next,
            }),
            Ok(Led::Gap(group)) => {
                let _saved = read_own(alloc, checked, &own, bytes)?;
                Ok(TakenText::Gap { group })
            }
            Err(SavedErr::NoMemory) => Err(SavedErr::NoMemory),
            Err(_) => {
                let _saved = read_own(alloc, checked, &own, bytes)?;
                Ok(TakenText::Apart)
            }
        }
    }
}
