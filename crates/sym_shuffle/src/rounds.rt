//! A round by several threads: some read its records, and others step them.
ghost use Rattle.std.specs.Prelude.{◌≡◌, ◌≤◌, ◌<◌, ◌+◌, ◌*◌, Bool, List, Err, IfOk, MatchResult, OnOk, drop, length, take};
ghost use Rattle.std.specs.List.{All};
ghost use Rattle.sym_check.specs.Checking.CheckedScripts.{checked_plan};
ghost use Rattle.sym_shuffle.specs.Begun.{AreValid, groups_after};
ghost use Rattle.sym_shuffle.specs.Parts.{AreDealt};
ghost use Rattle.sym_shuffle.specs.Settled.{AreLed, AreSettled, HasDealt};
ghost use Rattle.sym_shuffle.specs.Shuffling.{AreReadMarks};
ghost use Rattle.sym_table.specs.ChunkRecords.{all_records};
ghost use Rattle.sym_table.specs.Rows.{FitsChunk};
ghost use Rattle.sym_table.specs.declared.chunk.Chunk.{Chunk as OneChunk};

use crate::batch::Batch;
use crate::bounds::bounds_of;
use crate::dealt::{Dealer, Dealt, deal};
use crate::entry::Enter;
use crate::led_batches::{Lent, lead_all};
use crate::marked_script::MarkedScript;
use crate::settled::settle;
use std::alloc::Global;
use std::thread::Threads;
use sym_base::{NoMemory, Outcome};
use sym_check::Checked;
use sym_fork::map_claimed;
use sym_plain::Groups;
use sym_plain::laws::records_keep_groups_valid;
use sym_reads::read_fields;
use sym_table::{Bad, Chunk};

// Into how many parts a round is cut for each worker: with several, one that gets on more slowly
// reads fewer.
const PARTS: usize = 4;

// A value that lends what the readers share. They share it by its bound: that all of it may be
// shared is then shown once, where it is handed in.
trait LendsGroups {
    ghost use Rattle.std.specs.Prelude.{Bool};
    ghost use Rattle.sym_base.specs.declared.values.state.Outcome.{Outcome as OneOutcome};
    ghost use Rattle.sym_base.specs.declared.values.value.Key.{Key as OneKey};
    ghost use Rattle.sym_check.specs.declared.checked.accepted.Checked.{Checked as OneChecked};

    ghost by: { Self → OneChecked };

    ghost read: { Self → List Bool };

    ghost among: { Self → List (OneKey × OneOutcome) };

    fn script(&self) -> &Checked
        ensures { result.now ≡ by self.now };

    fn marks(&self) -> &[bool]
        ensures { result.now ≡ read self.now };

    fn groups(&self) -> &Groups
        ensures { result.now ≡ among self.now };
}

impl<'a> LendsGroups for Dealer<'a> {
    ghost by = { λ d. d.checked.now };

    ghost read = { λ d. d.marks.now };

    ghost among = { λ d. d.groups.now };

    fn script(&self) -> &Checked {
        self.checked
    }

    fn marks(&self) -> &[bool] {
        self.marks
    }

    fn groups(&self) -> &Groups {
        self.groups
    }
}

// The number of a worker or a chunk; the greatest, where it is greater.
fn as_number(index: usize) -> u32 {
    index.min(u32::MAX as usize) as u32
}

// The chunks of a round, cut into parts of `each` neighbouring ones. The last may have fewer.
#[derive(Clone, Copy)]
struct Parts<'a> {
    chunks: &'a [Chunk],
    each: usize,
}

// The part of a round with this number. Parts have `each` chunks, and the last one may have fewer.
fn part_of(chunks: &[Chunk], each: usize, number: usize) -> &[Chunk]
    requires { number * each ≤ length chunks.now }
    ensures { result.now ≡ take each (drop (number * each) chunks.now) }
{
    let (_, rest) = chunks.split_at(number * each);
    let (part, _) = rest.split_at(each.min(rest.len()));
    part
}

// What the rows of the part of a round with this number were read to.
fn deal_part<S: LendsGroups, E: Enter>(
    alloc: Global,
    lender: &S,
    parts: &Parts<'_>,
    thread: usize,
    number: usize,
    hold: &E,
) -> Result<Dealt, NoMemory>
    requires within { number * parts.now.each ≤ length parts.now.chunks.now }
    requires fit { All (FitsChunk (checked_plan (S.by lender.now)).fields) parts.now.chunks.now }
    ensures { let s = lender.now in let p = checked_plan (S.by s) in
        let part = take parts.now.each (drop (number * parts.now.each) parts.now.chunks.now) in
        let read = all_records p part in
        IfOk result (HasDealt p (S.read s) (S.among s) read) }
{
    let part = part_of(parts.chunks, parts.each, number);
    let dealer = Dealer {
        checked: lender.script(),
        marks: lender.marks(),
        groups: lender.groups(),
    };
    deal(
        alloc,
        &dealer,
        part,
        as_number(thread),
        as_number(number * parts.each),
        hold,
    )
}

// What the rows of all parts of a round were read to, by so many threads.
fn deal_all<T: Threads + Sync, S: LendsGroups + Sync, E: Enter + Sync>(
    rt: &T,
    alloc: Global,
    lender: &S,
    chunks: &[Chunk],
    each: usize,
    workers: u32,
    hold: &E,
) -> Result<Vec<Result<Dealt, NoMemory>>, NoMemory>
    requires each { 0 < each }
    requires fit { All (FitsChunk (checked_plan (S.by lender.now)).fields) chunks.now }
    ensures { let s = lender.now in let p = checked_plan (S.by s) in
        IfOk result (λ dealt. AreDealt p (S.read s) (S.among s) chunks.now dealt.items) }
{
    let count = chunks.len().div_ceil(each);
    let dealt = map_claimed(
        rt,
        alloc,
        count,
        workers as usize,
        &|thread: usize, number: usize| -> Result<Dealt, NoMemory>
            requires { let fields = (checked_plan (S.by lender.now)).fields in
                (number * each ≤ length chunks.now) × All (FitsChunk fields) chunks.now }
            ensures { let s = lender.entry.now in let p = checked_plan (S.by s) in
                let read = all_records p (take each (drop (number * each) chunks.entry.now)) in
                IfOk result (HasDealt p (S.read s) (S.among s) read) }
        { deal_part(alloc, lender, &Parts { chunks, each }, thread, number, hold) },
    )?;
    Ok(dealt)
}

// Begins the groups that are new, in order, or gives the first row that is no record.
fn settle_all(
    alloc: Global,
    checked: &Checked,
    groups: &mut Groups,
    dealt: Vec<Result<Dealt, NoMemory>>,
) -> Result<Result<Vec<Batch>, Bad>, NoMemory>
    ensures { let p = checked_plan checked.now in (marks : List Bool) (chunks : List OneChunk) →
        AreDealt p marks groups.old chunks dealt.items →
        IfOk result (λ settled. MatchResult settled
        (λ batches. AreSettled p marks chunks groups.old groups.new batches.items)
        (λ bad. all_records p chunks ≡ Err bad)) }
{
    let count = groups.len();
    let mut batches = Vec::with_capacity(alloc, dealt.len())?;
    'dealt: for one in dealt {
        let Dealt { batch, new, bad } = one?;
        if let Some(bad) = bad {
            return Ok(Err(bad));
        }
        batches.push(settle(alloc, checked, groups, count, batch, new)?)?;
    }
    Ok(Ok(batches))
}

// Reads the rows of a round into batches, by workers beside one another, and begins the groups that
// are new.
fn settle_round<T: Threads + Sync, E: Enter + Sync>(
    rt: &T,
    alloc: Global,
    script: &MarkedScript<'_>,
    chunks: &[Chunk],
    groups: &mut Groups,
    workers: u32,
    hold: &E,
) -> Result<Result<Vec<Batch>, Bad>, NoMemory>
    requires fit { All (FitsChunk (checked_plan script.now.checked.now).fields) chunks.now }
    requires workers { 1 ≤ workers }
    ensures { let p = checked_plan script.now.checked.now in
        let marks = script.now.marks.now in
        IfOk result (λ settled. MatchResult settled
        (λ batches. AreSettled p marks chunks.now groups.old groups.new batches.items)
        (λ bad. all_records p chunks.now ≡ Err bad)) }
{
    let parts = (workers as usize).saturating_mul(PARTS);
    let each = chunks.len().div_ceil(parts).max(1);
    let dealer = Dealer {
        checked: script.checked,
        marks: script.marks,
        groups: &*groups,
    };
    let dealt = deal_all(rt, alloc, &dealer, chunks, each, workers, hold)?;
    settle_all(alloc, script.checked, groups, dealt)
}

// Makes the steps of the batches of a round at the outcomes of all groups, by at most so many
// threads.
fn lead_round<T: Threads + Sync>(
    rt: &T,
    alloc: Global,
    script: &MarkedScript<'_>,
    batches: &[Batch],
    outcomes: &mut [Outcome],
    workers: u32,
) -> Result<(), NoMemory>
    requires { AreReadMarks (checked_plan script.now.checked.now) script.now.marks.now }
    ensures { let p = checked_plan script.now.checked.now in
        AreLed p script.now.marks.now batches.now 0 outcomes.old outcomes.new result }
{
    let bounds = bounds_of(alloc, batches, workers)?;
    let lent = Lent {
        checked: script.checked,
        marks: script.marks,
        batches,
    };
    let mut led: Result<(), NoMemory> = Ok(());
    lead_all(rt, alloc, &lent, bounds.as_slice(), 0, outcomes, &mut led);
    led
}

/// The groups after the records of chunks, or the first of their rows that is no record. Workers
/// take parts of neighbouring chunks, read them beside one another, and tell `hold` of each chunk.
/// Then each of at most as many threads makes the steps of the groups that it has, in order. No
/// record is explored: with many groups, these are what is done at once. The result doesn't depend
/// on the number of workers.
///
/// `NoMemory` where an allocation failed.
pub fn shuffled<T: Threads + Sync, E: Enter + Sync>(
    rt: &T,
    alloc: Global,
    checked: &Checked,
    chunks: &[Chunk],
    groups: Groups,
    workers: u32,
    hold: &E,
) -> Result<Result<Groups, Bad>, NoMemory>
    requires fit { All (FitsChunk (checked_plan checked.now).fields) chunks.now }
    requires workers { 1 ≤ workers }
    requires valid { AreValid (checked_plan checked.now) groups }
    ensures groups { let p = checked_plan checked.now in
        let read = all_records p chunks.now in
        IfOk result (λ led. led ≡ groups_after p read groups) }
    ensures valid { IfOk result (λ led. IfOk led (AreValid (checked_plan checked.now))) }
{
    records_keep_groups_valid();
    let _plan = checked.plan();
    let mut groups = groups;
    let marks = read_fields(alloc, checked)?;
    let marks = marks.as_slice();
    let script = MarkedScript { checked, marks };
    match settle_round(rt, alloc, &script, chunks, &mut groups, workers, hold)? {
        Ok(batches) => {
            let batches = batches.as_slice();
            let outcomes = groups.outcomes_mut();
            lead_round(rt, alloc, &script, batches, outcomes, workers)?;
            Ok(Ok(groups))
        }
        Err(bad) => Ok(Err(bad)),
    }
}
