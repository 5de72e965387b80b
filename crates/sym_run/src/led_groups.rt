//! The groups of a run, led by several threads. They are found in the groups beside each other. How
//! they stand is taken out, led on beside each other, and put back.
ghost use Rattle.std.specs.Prelude.{◌≡◌, ◌<◌, ◌≤◌, ◌+◌, ◌^◌, ℕ, List, Option, [], ◌∷◌, None, Some, Ok, OnOk, IfOk, length, slice_get, slice_index_or};
ghost use Rattle.std.specs.List.{All, AllZip};
ghost use Rattle.std.specs.Map.{keys_of, lookup};
ghost use Rattle.std.specs.Thread.{IsSync};
ghost use Rattle.sym_base.specs.declared.values.record.Record.{Record as OneRecord};
ghost use Rattle.sym_base.specs.declared.values.state.Outcome.{Outcome as OneOutcome};
ghost use Rattle.sym_base.specs.declared.values.value.Key.{Key as OneKey};
ghost use Rattle.sym_check.specs.Checking.CheckedScripts.{checked_plan};
ghost use Rattle.sym_check.specs.Meaning.Groups.{is_key};
ghost use Rattle.sym_check.specs.Meaning.Validity.{IsValidOutcome};
ghost use Rattle.sym_plain.specs.Pairs.{HaveDistinctKeys, after_records, put};
ghost use Rattle.sym_run.specs.Applying.{AreValid};
ghost use Rattle.sym_run.specs.Leading.{AreAlikeBut, AreFound, AreLedBy, ArePlaces, AreReady, AreTaken, IsAt, IsFound, IsLedBy, IsTaken, WasLed, put_each, while_out};
ghost use Rattle.sym_run.specs.Runs.{GroupsFit, GroupsStandFor};

use crate::run_groups::RunGroups;
use crate::steps::Stepper;
use std::alloc::Global;
use std::thread::{Threads, join_mut};
use std::{mem, thread};
use sym_base::{Fault, FaultKind, Key, NoMemory, Outcome};
use sym_check::Checked;
use sym_check::laws::plans::well_formed_plans_keep_states_valid;
use sym_plain::{Groups, initial};

/// How a group stands while it is out of the groups: its index in them, or none where it is new,
/// and what leading it came to.
#[derive(Drop)]
pub(crate) struct Taken {
    place: Option<usize>,
    outcome: Outcome,
    led: Result<(), NoMemory>,
}

// A thread has at least so much to lead: with less, starting it costs more than it gains.
const WORK_A_THREAD: usize = 1024;

// So many kept records are stepped while one group more is found, taken out and put back.
const WORK_A_GROUP: usize = 16;

// A value that lends a checked script and the chains of a run. Threads share it by its bound: that
// both may be shared is then shown once, where they are handed in.
trait LendsChains {
    ghost use Rattle.sym_check.specs.declared.checked.accepted.Checked.{Checked as OneChecked};
    ghost use Rattle.sym_run.specs.Chained.{Chained};

    ghost by: { Self → OneChecked };

    ghost lent: { Self → List (OneKey × Chained) };

    fn script(&self) -> &Checked
        ensures { result.now ≡ by self.now };

    fn chains(&self) -> &RunGroups
        ensures { result.now ≡ lent self.now };
}

// The script and the chains of a run.
#[derive(Clone, Copy)]
struct Lent<'a> {
    checked: &'a Checked,
    chains: &'a RunGroups,
}

impl<'a> LendsChains for Lent<'a> {
    ghost by = { λ l. l.checked.now };

    ghost lent = { λ l. l.chains.now };

    fn script(&self) -> &Checked {
        self.checked
    }

    fn chains(&self) -> &RunGroups {
        self.chains
    }
}

// A value that lends the chains of a run and the groups in which their keys are looked up.
trait LendsGroups {
    ghost use Rattle.sym_run.specs.Chained.{Chained};

    ghost sought: { Self → List (OneKey × Chained) };

    ghost among: { Self → List (OneKey × OneOutcome) };

    fn chains(&self) -> &RunGroups
        ensures { result.now ≡ sought self.now };

    fn groups(&self) -> &Groups
        ensures { result.now ≡ among self.now };
}

// The chains of a run and groups.
#[derive(Clone, Copy)]
struct Sought<'a> {
    chains: &'a RunGroups,
    groups: &'a Groups,
}

impl<'a> LendsGroups for Sought<'a> {
    ghost sought = { λ l. l.chains.now };

    ghost among = { λ l. l.groups.now };

    fn chains(&self) -> &RunGroups {
        self.chains
    }

    fn groups(&self) -> &Groups {
        self.groups
    }
}

// How much there is to lead of the group at an index.
fn work_of(chains: &RunGroups, index: usize) -> usize {
    match chains.at(index) {
        Some((_key, chain)) => WORK_A_GROUP.saturating_add(chain.kept()),
        None => 0,
    }
}

/// How many threads are to lead the groups of a run: at most as many as there are workers, and as
/// have enough to lead.
pub(crate) fn threads_for(chains: &RunGroups, workers: u32) -> usize
    ensures { result ≤ workers }
{
    let most = workers as usize;
    let enough = WORK_A_THREAD.saturating_mul(most);
    let mut work: usize = 0;
    'groups: for index in 0..chains.len() {
        work = work.saturating_add(work_of(chains, index));
        if work >= enough {
            return most;
        }
    }
    (work / WORK_A_THREAD).min(most)
}

// The index of a group of a run in the groups, or none where it is new.
fn place_of(chains: &RunGroups, groups: &Groups, index: usize) -> Option<usize>
    ensures { IsFound groups.now (slice_get chains.now index) result }
{
    match chains.at(index) {
        Some((key, _chain)) => groups.index_of(key),
        None => None,
    }
}

// Finds each group of a run in the groups. So many threads, at most, find about as many each.
fn find_each<T: Threads + Sync, S: LendsGroups + Sync>(
    rt: &T,
    lender: &S,
    places: &mut [Option<usize>],
    threads: usize,
)
    requires threads { 0 < threads }
    ensures len { length places.new ≡ length places.old }
    ensures found { (i : ℕ) (d : Option ℕ) → i < length places.old →
        IsFound (S.among lender.now) (slice_get (S.sought lender.now) i)
        (slice_index_or places.new i d) }
{
    thread::for_each_mut(
        rt,
        places,
        threads,
        &|index: usize, place: &mut Option<usize>|
            ensures { IsFound (S.among lender.entry.now)
                (slice_get (S.sought lender.entry.now) index) place.new }
        { *place = place_of(lender.chains(), lender.groups(), index) },
    );
}

// Where the groups of a run are in the groups, in the order of its keys.
fn find_all<T: Threads + Sync>(
    rt: &T,
    alloc: Global,
    chains: &RunGroups,
    groups: &Groups,
    threads: usize,
) -> Result<Vec<Option<usize>>, NoMemory>
    requires { 0 < threads }
    ensures { IfOk result (λ places. AreFound groups.now chains.now places.items) }
{
    let mut places = Vec::from_elem(alloc, None, chains.len())?;
    find_each(
        rt,
        &Sought { chains, groups },
        places.as_mut_slice(),
        threads,
    );
    Ok(places)
}

// Takes out how the group at an index stands. Until it is put back, an ended group is there.
fn take_at(groups: &mut Groups, index: usize) -> Outcome
    requires { HaveDistinctKeys groups.old }
    ensures outcome { (key : OneKey) → slice_get (keys_of groups.old) index ≡ Some key →
        lookup (is_key key) groups.old ≡ Some result }
    ensures groups { (key : OneKey) → slice_get (keys_of groups.old) index ≡ Some key →
        groups.new ≡ put groups.old key while_out }
{
    let ended = Outcome::Ended(Fault {
        kind: FaultKind::Arith,
        no: 0,
    });
    match groups.outcome_at_mut(index) {
        Some(outcome) => mem::replace(outcome, ended),
        None => ended,
    }
}

// Takes out how the group at this place stands. A new one stands at the initial state, and isn't in
// the groups yet.
fn take_group(
    alloc: Global,
    checked: &Checked,
    groups: &mut Groups,
    place: Option<usize>,
) -> Result<Taken, NoMemory>
    requires { AreValid (checked_plan checked.now) groups.old }
    ensures valid { (key : OneKey) → IsAt groups.old key place →
        OnOk result (AreValid (checked_plan checked.now) groups.new) }
    ensures alike { (key : OneKey) → IsAt groups.old key place →
        OnOk result (AreAlikeBut (key ∷ []) groups.old groups.new) }
    ensures taken { (key : OneKey) → IsAt groups.old key place →
        IfOk result (IsTaken (checked_plan checked.now) groups.old key) }
{
    well_formed_plans_keep_states_valid();
    let _plan = checked.plan();
    // Its clause says that no key stands twice.
    let _count = groups.len();
    match place {
        Some(index) => Ok(Taken {
            place: Some(index),
            outcome: take_at(groups, index),
            led: Ok(()),
        }),
        None => Ok(Taken {
            place: None,
            outcome: Outcome::Going(initial(alloc, checked)?),
            led: Ok(()),
        }),
    }
}

// Takes out how the groups of a run stand, in the order of its keys, from the places where they
// were found.
fn take_all(
    alloc: Global,
    checked: &Checked,
    chains: &RunGroups,
    groups: &mut Groups,
    places: Vec<Option<usize>>,
) -> Result<Vec<Taken>, NoMemory>
    requires valid { AreValid (checked_plan checked.now) groups.old }
    requires found { AreFound groups.old chains.now places.items }
    ensures valid { OnOk result (AreValid (checked_plan checked.now) groups.new) }
    ensures alike { OnOk result (AreAlikeBut (keys_of chains.now) groups.old groups.new) }
    ensures taken { let p = checked_plan checked.now in
        IfOk result (λ taken. AreTaken p groups.old chains.now taken.items) }
    ensures ready { let p = checked_plan checked.now in
        IfOk result (λ taken. AreReady p taken.items) }
{
    let mut taken = Vec::with_capacity(alloc, chains.len())?;
    'groups: for place in places {
        taken.push(take_group(alloc, checked, groups, place)?)?;
    }
    Ok(taken)
}

// Leads a group on by the chain of its key, which is the one at this index.
fn lead_at(
    alloc: Global,
    checked: &Checked,
    chains: &RunGroups,
    index: usize,
    taken: &mut Taken,
    stepper: &mut Stepper,
)
    requires fits { GroupsFit (checked_plan checked.now) chains.now }
    requires valid { IsValidOutcome (checked_plan checked.now) taken.old.outcome }
    ensures { let group = slice_get chains.now index in
        IsLedBy (checked_plan checked.now) group taken.old taken.new }
{
    if let Some((_key, chain)) = chains.at(index) {
        taken.led = chain.lead_with(alloc, checked, &mut taken.outcome, stepper);
    }
}

// Leads groups on by the chains of their keys, of which the first is at this index, with one
// stepper.
fn lead_part(
    alloc: Global,
    checked: &Checked,
    chains: &RunGroups,
    start: usize,
    taken: &mut [Taken],
)
    requires room { start + length taken.old < 2 ^ 64 }
    requires fits { GroupsFit (checked_plan checked.now) chains.now }
    requires valid { AreReady (checked_plan checked.now) taken.old }
    ensures { AreLedBy (checked_plan checked.now) chains.now start taken.old taken.new }
{
    let mut stepper = Stepper::new(alloc);
    'groups: for k in 0..taken.len() {
        lead_at(
            alloc,
            checked,
            chains,
            start + k,
            &mut taken[k],
            &mut stepper,
        );
    }
}

// How many of so many groups, of which the first is at this index, go to `low` threads, so that
// these have about as much to lead each as `high` others have of the rest.
fn middle_of(chains: &RunGroups, start: usize, count: usize, low: usize, high: usize) -> usize
    requires { start + count < 2 ^ 64 }
    ensures { result ≤ count }
{
    let mut front = 0;
    let mut back = count;
    let mut before: usize = 0;
    let mut after: usize = 0;
    'groups: for _step in 0..count {
        if front >= back {
            return front;
        }
        if before.saturating_mul(high) <= after.saturating_mul(low) {
            before = before.saturating_add(work_of(chains, start + front));
            front += 1;
        } else {
            back -= 1;
            after = after.saturating_add(work_of(chains, start + back));
        }
    }
    front
}

// A part of the groups of a run: how many threads lead it, and the index of its first group.
#[derive(Clone, Copy)]
struct Part {
    threads: usize,
    start: usize,
}

// Leads each group on by the chain of its key, of which the first is at this index. So many
// threads, at most, have about as much to lead each: the groups are halved at each step, and one
// half goes to other threads. The slice is the last parameter, since a closure lends it last.
#[cycle(halves)]
fn lead_all<T: Threads + Sync, S: LendsChains + Sync>(
    rt: &T,
    alloc: Global,
    lender: &S,
    threads: usize,
    start: usize,
    taken: &mut [Taken],
)
    requires room { start + length taken.old < 2 ^ 64 }
    requires fits { GroupsFit (checked_plan (S.by lender.now)) (S.lent lender.now) }
    requires valid { AreReady (checked_plan (S.by lender.now)) taken.old }
    ensures { let p = checked_plan (S.by lender.now) in
        AreLedBy p (S.lent lender.now) start taken.old taken.new }
{
    if threads < 2 {
        lead_part(alloc, lender.script(), lender.chains(), start, taken);
        return;
    }
    let low = threads / 2;
    let high = threads - low;
    let middle = middle_of(lender.chains(), start, taken.len(), low, high);
    let (front, back) = taken.split_at_mut(middle);
    let low = Part {
        threads: low,
        start,
    };
    let high = Part {
        threads: high,
        start: start + middle,
    };
    lead_both(rt, alloc, lender, low, front, high, back);
}

// A function beside `lead_all`, so that what the closures need is what this one is given.
#[cycle(halves)]
fn lead_both<T: Threads + Sync, S: LendsChains + Sync>(
    rt: &T,
    alloc: Global,
    lender: &S,
    low: Part,
    front: &mut [Taken],
    high: Part,
    back: &mut [Taken],
)
    requires low { 0 < low.threads }
    requires high { 0 < high.threads }
    requires front_room { low.start + length front.old < 2 ^ 64 }
    requires back_room { high.start + length back.old < 2 ^ 64 }
    requires fits { GroupsFit (checked_plan (S.by lender.now)) (S.lent lender.now) }
    requires front_valid { AreReady (checked_plan (S.by lender.now)) front.old }
    requires back_valid { AreReady (checked_plan (S.by lender.now)) back.old }
    ensures front { let p = checked_plan (S.by lender.now) in
        AreLedBy p (S.lent lender.now) low.start front.old front.new }
    ensures back { let p = checked_plan (S.by lender.now) in
        AreLedBy p (S.lent lender.now) high.start back.old back.new }
{
    let mut first = ||
        requires { let p = checked_plan (S.by lender.now) in IsSync T.row × IsSync S.row
            × (low.start + length front.now < 2 ^ 64) × GroupsFit p (S.lent lender.now)
            × AreReady p front.now }
        ensures { let p = checked_plan (S.by lender.entry.now) in
            AreLedBy p (S.lent lender.entry.now) low.start front.entry.now front.exit.now }
    { lead_all(rt, alloc, lender, low.threads, low.start, front) };
    let mut second = ||
        requires { let p = checked_plan (S.by lender.now) in IsSync T.row × IsSync S.row
            × (high.start + length back.now < 2 ^ 64) × GroupsFit p (S.lent lender.now)
            × AreReady p back.now }
        ensures { let p = checked_plan (S.by lender.entry.now) in
            AreLedBy p (S.lent lender.entry.now) high.start back.entry.now back.exit.now }
    { lead_all(rt, alloc, lender, high.threads, high.start, back) };
    join_mut(rt, &mut first, &mut second);
}

// Puts how a group stands in its place.
fn set_at(groups: &mut Groups, index: usize, outcome: Outcome)
    ensures { (key : OneKey) → slice_get (keys_of groups.old) index ≡ Some key →
        groups.new ≡ put groups.old key outcome }
{
    // Its clause says that no key stands twice.
    let _count = groups.len();
    match groups.outcome_at_mut(index) {
        Some(held) => *held = outcome,
        None => {}
    }
}

// Puts a group back at its index; a new one goes last, with a copy of its key.
fn put_back(alloc: Global, groups: &mut Groups, key: &Key, taken: Taken) -> Result<(), NoMemory>
    requires { IsAt groups.old key.now taken.place }
    ensures led { OnOk result (WasLed taken) }
    ensures groups { OnOk result (groups.new ≡ put groups.old key.now taken.outcome) }
{
    let Taken {
        place,
        outcome,
        led,
    } = taken;
    led?;
    match place {
        Some(index) => {
            set_at(groups, index, outcome);
            Ok(())
        }
        None => groups.begin(alloc, key.copy(alloc)?, outcome),
    }
}

// Puts the groups of a run back, in the order of its keys.
fn put_all(
    alloc: Global,
    chains: &RunGroups,
    groups: &mut Groups,
    taken: Vec<Taken>,
) -> Result<(), NoMemory>
    requires { ArePlaces groups.old chains.now taken.items }
    ensures led { OnOk result (All WasLed taken.items) }
    ensures groups { OnOk result (groups.new ≡ put_each chains.now taken.items groups.old) }
{
    let mut rest = taken.into_iter();
    'groups: for (key, _chain) in chains.map.iter() {
        match rest.next() {
            Some(one) => put_back(alloc, groups, key, one)?,
            None => return Ok(()),
        }
    }
    Ok(())
}

/// `apply_all` by so many threads, at most: the groups of the run are found and led beside each
/// other, each once.
pub(crate) fn apply_beside<T: Threads + Sync>(
    rt: &T,
    alloc: Global,
    checked: &Checked,
    chains: &RunGroups,
    groups: &mut Groups,
    threads: usize,
) -> Result<(), NoMemory>
    requires threads { 0 < threads }
    requires distinct { HaveDistinctKeys chains.now }
    requires fits { GroupsFit (checked_plan checked.now) chains.now }
    requires valid { AreValid (checked_plan checked.now) groups.old }
    ensures valid { OnOk result (AreValid (checked_plan checked.now) groups.new) }
    ensures groups { (records : List OneRecord) →
        GroupsStandFor (checked_plan checked.now) records chains.now →
        OnOk result (groups.new ≡ after_records (checked_plan checked.now) records groups.old) }
{
    let places = find_all(rt, alloc, chains, &*groups, threads)?;
    let mut taken = take_all(alloc, checked, chains, groups, places)?;
    lead_all(
        rt,
        alloc,
        &Lent { checked, chains },
        threads,
        0,
        taken.as_mut_slice(),
    );
    put_all(alloc, chains, groups, taken)?;
    // Its clause says that no key stands twice.
    let _count = groups.len();
    Ok(())
}
