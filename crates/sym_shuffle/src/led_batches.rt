//! The steps of batches, made by several threads, each of which has groups of its own.
ghost use Rattle.std.specs.Prelude.{◌≡◌, ◌+◌, ◌<◌, ◌^◌, List, OnOk, drop, length, take};
ghost use Rattle.std.specs.Thread.{IsSync};
ghost use Rattle.sym_base.specs.declared.values.record.Record.{Record as OneRecord};
ghost use Rattle.sym_base.specs.declared.values.value.Key.{Key as OneKey};
ghost use Rattle.sym_check.specs.Checking.CheckedScripts.{checked_plan};
ghost use Rattle.sym_check.specs.Meaning.Updates.{step};
ghost use Rattle.sym_check.specs.Meaning.Validity.{IsRecord};
ghost use Rattle.sym_shuffle.specs.Settled.{AreLed, Holds};
ghost use Rattle.sym_shuffle.specs.Shuffling.{AreBlankBeside, AreReadMarks, led, marked, stepped_from, width_of};

use crate::batch::Batch;
use crate::marked_script::MarkedScript;
use crate::marks::{set_marked, width_of};
use crate::packed::PackedValues;
use std::alloc::Global;
use std::thread::{Threads, join_mut};
use sym_base::{NoMemory, Outcome, Record};
use sym_check::Checked;
use sym_plain::{Buffers, advance};
use sym_reads::blank_record;

/// Memory that is used again for each record that makes its step.
#[derive(Drop)]
struct Stepper {
    rec: Record,
    buffers: Buffers,
}

// A value that lends what the threads share. They share it by its bound: that all of it may be
// shared is then shown once, where it is handed in.
pub(crate) trait LendsBatches {
    ghost use Rattle.std.specs.Prelude.{Bool};
    ghost use Rattle.sym_check.specs.declared.checked.accepted.Checked.{Checked as OneChecked};
    ghost use Rattle.sym_shuffle.specs.declared.batch.Batch.{Batch as OneBatch};

    ghost by: { Self → OneChecked };

    ghost read: { Self → List Bool };

    ghost lent: { Self → List OneBatch };

    fn script(&self) -> &Checked
        ensures { result.now ≡ by self.now };

    fn marks(&self) -> &[bool]
        ensures { result.now ≡ read self.now };

    fn batches(&self) -> &[Batch]
        ensures { result.now ≡ lent self.now };
}

/// A script, the marks of the fields that its update reads, and the batches of a round, in order.
#[derive(Clone, Copy)]
pub(crate) struct Lent<'a> {
    pub(crate) checked: &'a Checked,
    pub(crate) marks: &'a [bool],
    pub(crate) batches: &'a [Batch],
}

impl<'a> LendsBatches for Lent<'a> {
    ghost by = { λ l. l.checked.now };

    ghost read = { λ l. l.marks.now };

    ghost lent = { λ l. l.batches.now };

    fn script(&self) -> &Checked {
        self.checked
    }

    fn marks(&self) -> &[bool] {
        self.marks
    }

    fn batches(&self) -> &[Batch] {
        self.batches
    }
}

// A record of a batch: the place of its group, its number, and the list in which the values of the
// fields that have a mark are, from `first` on.
#[derive(Clone, Copy)]
struct HeldRecord<'a> {
    place: usize,
    no: u64,
    values: &'a PackedValues,
    first: usize,
}

// Makes the step of a held record at its group's outcome.
fn step_with(
    alloc: Global,
    script: &MarkedScript<'_>,
    held: &HeldRecord<'_>,
    outcome: &mut Outcome,
    stepper: &mut Stepper,
) -> Result<(), NoMemory>
    requires { AreReadMarks (checked_plan script.now.checked.now) script.now.marks.now }
    ensures blank { let p = checked_plan script.now.checked.now in
        let marks = script.now.marks.now in
        (rec : OneRecord) → IsRecord p rec →
        take (width_of marks) (drop held.now.first held.now.values.now) ≡ marked marks rec.fields →
        AreBlankBeside p marks stepper.old.rec.fields →
        OnOk result (AreBlankBeside p marks stepper.new.rec.fields) }
    ensures steps { let p = checked_plan script.now.checked.now in
        let marks = script.now.marks.now in
        (rec : OneRecord) → IsRecord p rec →
        take (width_of marks) (drop held.now.first held.now.values.now) ≡ marked marks rec.fields →
        AreBlankBeside p marks stepper.old.rec.fields → held.now.no ≡ rec.no →
        OnOk result (outcome.new ≡ step p outcome.old rec) }
{
    let _plan = script.checked.plan();
    set_marked(
        alloc,
        &mut stepper.rec.fields,
        script.marks,
        held.values,
        held.first,
    )?;
    stepper.rec.no = held.no;
    advance(
        alloc,
        script.checked,
        outcome,
        &stepper.rec,
        &mut stepper.buffers,
    )
}

// Makes the step of a held record at its place, where that is one of these outcomes, of which the
// first is at `start`.
fn step_one(
    alloc: Global,
    script: &MarkedScript<'_>,
    held: &HeldRecord<'_>,
    start: usize,
    outcomes: &mut [Outcome],
    stepper: &mut Stepper,
) -> Result<(), NoMemory>
    requires { AreReadMarks (checked_plan script.now.checked.now) script.now.marks.now }
    ensures blank { let p = checked_plan script.now.checked.now in
        let marks = script.now.marks.now in
        (rec : OneRecord) → IsRecord p rec →
        take (width_of marks) (drop held.now.first held.now.values.now) ≡ marked marks rec.fields →
        AreBlankBeside p marks stepper.old.rec.fields →
        OnOk result (AreBlankBeside p marks stepper.new.rec.fields) }
    ensures led { let p = checked_plan script.now.checked.now in
        let marks = script.now.marks.now in
        (rec : OneRecord) → IsRecord p rec →
        take (width_of marks) (drop held.now.first held.now.values.now) ≡ marked marks rec.fields →
        AreBlankBeside p marks stepper.old.rec.fields → held.now.no ≡ rec.no →
        OnOk result (outcomes.new ≡ stepped_from p start held.now.place rec outcomes.old) }
{
    if held.place < start {
        return Ok(());
    }
    let index = held.place - start;
    if index >= outcomes.len() {
        return Ok(());
    }
    let outcome = &mut outcomes[index];
    step_with(alloc, script, held, outcome, stepper)
}

// Makes the steps of a batch at those of its places that are among these outcomes, of which the
// first is at `start`.
fn lead_batch(
    alloc: Global,
    script: &MarkedScript<'_>,
    batch: &Batch,
    start: usize,
    outcomes: &mut [Outcome],
    stepper: &mut Stepper,
) -> Result<(), NoMemory>
    requires { AreReadMarks (checked_plan script.now.checked.now) script.now.marks.now }
    ensures blank { let p = checked_plan script.now.checked.now in
        let marks = script.now.marks.now in
        (keys : List OneKey) (records : List OneRecord) →
        Holds p marks keys records batch.now →
        AreBlankBeside p marks stepper.old.rec.fields →
        OnOk result (AreBlankBeside p marks stepper.new.rec.fields) }
    ensures led { let p = checked_plan script.now.checked.now in
        let marks = script.now.marks.now in
        (keys : List OneKey) (records : List OneRecord) →
        Holds p marks keys records batch.now →
        AreBlankBeside p marks stepper.old.rec.fields →
        OnOk result (outcomes.new ≡ led p start batch.now.places.items records outcomes.old) }
{
    let width = width_of(script.marks);
    let values = &batch.values;
    // There are fewer than a `usize` counts.
    let _count = values.len();
    let mut next: usize = 0;
    'records: for index in 0..batch.places.len() {
        let first = next;
        next = first.saturating_add(width);
        let place = batch.places[index];
        match batch.numbers.get(index) {
            Some(no) => {
                let held = HeldRecord {
                    place,
                    no: *no,
                    values,
                    first,
                };
                step_one(alloc, script, &held, start, outcomes, stepper)?;
            }
            None => return Ok(()),
        }
    }
    Ok(())
}

// Makes the steps of batches, in order, at those of their places that are among these outcomes, of
// which the first is at `start`.
fn lead_part(
    alloc: Global,
    script: &MarkedScript<'_>,
    batches: &[Batch],
    start: usize,
    outcomes: &mut [Outcome],
) -> Result<(), NoMemory>
    requires { AreReadMarks (checked_plan script.now.checked.now) script.now.marks.now }
    ensures { let p = checked_plan script.now.checked.now in
        let marks = script.now.marks.now in
        AreLed p marks batches.now start outcomes.old outcomes.new result }
{
    let mut stepper = Stepper {
        rec: blank_record(alloc, script.checked, 0)?,
        buffers: Buffers::new(alloc),
    };
    'batches: for batch in batches {
        lead_batch(alloc, script, batch, start, outcomes, &mut stepper)?;
    }
    Ok(())
}

// Makes the steps of lent batches as `lead_part` does. What it came to is `led`.
fn lead_here<S: LendsBatches>(
    alloc: Global,
    lender: &S,
    start: usize,
    outcomes: &mut [Outcome],
    led: &mut Result<(), NoMemory>,
)
    requires { AreReadMarks (checked_plan (S.by lender.now)) (S.read lender.now) }
    ensures { let p = checked_plan (S.by lender.now) in
        AreLed p (S.read lender.now) (S.lent lender.now) start outcomes.old outcomes.new led.new }
{
    let script = MarkedScript {
        checked: lender.script(),
        marks: lender.marks(),
    };
    *led = lead_part(alloc, &script, lender.batches(), start, outcomes);
}

// Makes them on a thread of its own, for which this one waits.
fn lead_apart<T: Threads + Sync, S: LendsBatches + Sync>(
    rt: &T,
    alloc: Global,
    lender: &S,
    start: usize,
    outcomes: &mut [Outcome],
    led: &mut Result<(), NoMemory>,
)
    requires { AreReadMarks (checked_plan (S.by lender.now)) (S.read lender.now) }
    ensures { let p = checked_plan (S.by lender.now) in
        AreLed p (S.read lender.now) (S.lent lender.now) start outcomes.old outcomes.new led.new }
{
    let mut apart = ||
        requires { IsSync S.row
            × AreReadMarks (checked_plan (S.by lender.now)) (S.read lender.now) }
        ensures { let p = checked_plan (S.by lender.entry.now) in
            AreLed p (S.read lender.entry.now) (S.lent lender.entry.now) start
            outcomes.entry.now outcomes.exit.now led.exit.now }
    { lead_here(alloc, lender, start, outcomes, led) };
    join_mut(rt, &mut apart, &mut || {});
}

/// Makes the steps of batches at those of their places that are among these outcomes, of which the
/// first is at `start`. The outcomes are cut at the bounds, each part has a thread of its own, and
/// this one waits for them: where it worked too, the system might leave another thread waiting for
/// its processor. With no bound no thread is made. What it came to is `led`. The slice and it are
/// the last parameters, since a closure lends them last.
pub(crate) fn lead_all<T: Threads + Sync, S: LendsBatches + Sync>(
    rt: &T,
    alloc: Global,
    lender: &S,
    bounds: &[usize],
    start: usize,
    outcomes: &mut [Outcome],
    led: &mut Result<(), NoMemory>,
)
    requires room { start + length outcomes.old < 2 ^ 64 }
    requires marks { AreReadMarks (checked_plan (S.by lender.now)) (S.read lender.now) }
    ensures { let p = checked_plan (S.by lender.now) in
        AreLed p (S.read lender.now) (S.lent lender.now) start outcomes.old outcomes.new led.new }
{
    if bounds.is_empty() {
        lead_here(alloc, lender, start, outcomes, led);
    } else {
        lead_each(rt, alloc, lender, bounds, start, outcomes, led);
    }
}

// Where outcomes are cut in two, and what makes their steps: the groups before the cut begin at
// `start`, and those from it on at `next`, where they are cut at bounds again.
#[derive(Drop)]
struct Cut<'a, S> {
    lender: &'a S,
    start: usize,
    next: usize,
    bounds: &'a [usize],
}

// Makes the steps of each part of the outcomes on a thread of its own.
#[cycle(parts)]
fn lead_each<T: Threads + Sync, S: LendsBatches + Sync>(
    rt: &T,
    alloc: Global,
    lender: &S,
    bounds: &[usize],
    start: usize,
    outcomes: &mut [Outcome],
    led: &mut Result<(), NoMemory>,
)
    requires room { start + length outcomes.old < 2 ^ 64 }
    requires marks { AreReadMarks (checked_plan (S.by lender.now)) (S.read lender.now) }
    ensures { let p = checked_plan (S.by lender.now) in
        AreLed p (S.read lender.now) (S.lent lender.now) start outcomes.old outcomes.new led.new }
{
    if bounds.is_empty() {
        lead_apart(rt, alloc, lender, start, outcomes, led);
        return;
    }
    let middle = bounds[0].saturating_sub(start).min(outcomes.len());
    let (front, back) = outcomes.split_at_mut(middle);
    let cut = Cut {
        lender,
        start,
        next: start + middle,
        bounds: &bounds[1..],
    };
    let mut later: Result<(), NoMemory> = Ok(());
    lead_both(rt, alloc, &cut, front, led, back, &mut later);
    if later.is_err() {
        *led = later;
    }
}

// A function beside `lead_each`, so that what the closures need is what this one is given.
#[cycle(parts)]
fn lead_both<T: Threads + Sync, S: LendsBatches + Sync>(
    rt: &T,
    alloc: Global,
    cut: &Cut<'_, S>,
    front: &mut [Outcome],
    front_led: &mut Result<(), NoMemory>,
    back: &mut [Outcome],
    back_led: &mut Result<(), NoMemory>,
)
    requires room { cut.now.next + length back.old < 2 ^ 64 }
    requires marks { let s = cut.now.lender.now in
        AreReadMarks (checked_plan (S.by s)) (S.read s) }
    ensures front { let s = cut.now.lender.now in let p = checked_plan (S.by s) in
        AreLed p (S.read s) (S.lent s) cut.now.start front.old front.new front_led.new }
    ensures back { let s = cut.now.lender.now in let p = checked_plan (S.by s) in
        AreLed p (S.read s) (S.lent s) cut.now.next back.old back.new back_led.new }
{
    let lender = cut.lender;
    let start = cut.start;
    let next = cut.next;
    let bounds = cut.bounds;
    let mut first = ||
        requires { IsSync S.row
            × AreReadMarks (checked_plan (S.by lender.now)) (S.read lender.now) }
        ensures { let p = checked_plan (S.by lender.entry.now) in
            AreLed p (S.read lender.entry.now) (S.lent lender.entry.now) start
            front.entry.now front.exit.now front_led.exit.now }
    { lead_here(alloc, lender, start, front, front_led) };
    let mut second = ||
        requires { IsSync T.row × IsSync S.row × (next + length back.now < 2 ^ 64)
            × AreReadMarks (checked_plan (S.by lender.now)) (S.read lender.now) }
        ensures { let p = checked_plan (S.by lender.entry.now) in
            AreLed p (S.read lender.entry.now) (S.lent lender.entry.now) next
            back.entry.now back.exit.now back_led.exit.now }
    { lead_each(rt, alloc, lender, bounds, next, back, back_led) };
    join_mut(rt, &mut first, &mut second);
}
