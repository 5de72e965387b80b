//! Records that are taken into the chains of their keys.
ghost use Rattle.std.specs.Prelude.{◌≡◌, ◌≤◌, ◌∷◌, [], None, IfOk, IfSome, IsTrue, OnOk, length};
ghost use Rattle.std.specs.Map.{lookup};
ghost use Rattle.sym_check.specs.Checking.CheckedScripts.{checked_plan};
ghost use Rattle.sym_check.specs.Meaning.Groups.{is_key, key_of};
ghost use Rattle.sym_check.specs.Meaning.Validity.{IsRecord};
ghost use Rattle.sym_plain.specs.Pairs.{HaveDistinctKeys};
ghost use Rattle.sym_reads.specs.Agreement.{HasReadMarked};
ghost use Rattle.sym_run.specs.Chains.{ChainFits, ChainStandsFor, IsClosed, IsTight};
ghost use Rattle.sym_run.specs.Covering.{Covers};
ghost use Rattle.sym_run.specs.Extended.{ChainIsExtended};
ghost use Rattle.sym_run.specs.Growing.{ExtendsByOne, GrowsByOne, GrowsIf, TakesOne, placed};
ghost use Rattle.sym_run.specs.Opened.{OpenFits, OpenGroupsAreTight, OpenGroupsFit, OpenIsTight};
ghost use Rattle.sym_run.specs.declared.opened.Open.TheVariants as opened;

use crate::chains::Chain;
use crate::covers::{cover, take_on};
use crate::memory::{Memory, Taking};
use crate::opened::{Open, open_last};
use crate::pushed::push_segment;
use crate::settings::Settings;
use crate::unread::empty_unread;
use indexmap::IndexMap;
use std::alloc::Global;
use std::mem;
use sym_base::{Key, NoMemory, Record};
use sym_explore::fresh_with;
use sym_known::are_known;
use sym_path::Segment;
use sym_plain::key_into;

/// After so many keys whose kept records had no segment that was worth it, no other key's are
/// explored.
const FAILED_MOST: u32 = 4;

/// So many groups can be led by several threads. Stepping what they keep then costs less than
/// exploring it.
const GROUPS_MANY: usize = 32;

/// The chain of the records of a chain, of which one segment covers those that were kept, and one
/// record more.
fn take_covered(
    alloc: Global,
    settings: &Settings<'_>,
    chain: Chain,
    segment: Segment,
    rec: &Record,
    taking: &mut Taking,
) -> Result<Open, NoMemory>
    requires rec { IsRecord (checked_plan settings.now.checked.now) rec.now }
    requires fits { ChainFits (checked_plan settings.now.checked.now) chain }
    requires tight { IsTight (checked_plan settings.now.checked.now) settings.now.limit chain }
    requires some { 1 ≤ length chain.kept }
    requires covers { Covers (checked_plan settings.now.checked.now) settings.now.limit
        chain.kept segment }
    ensures { IfOk result
        (TakesOne (checked_plan settings.now.checked.now) settings.now.limit rec.now
        (opened.Chain chain)) }
{
    let (segments, _kept) = chain.into_parts();
    let scratch = &mut taking.exploring.scratch;
    let segments = push_segment(alloc, settings.checked, segments, segment, settings.limit)?;
    let segments = take_on(alloc, settings, segments, rec, scratch)?;
    open_last(alloc, settings.checked, segments, settings.limit)
}

/// The chain of a closed chain's records and one more.
fn take_explored(
    alloc: Global,
    settings: &Settings<'_>,
    chain: Chain,
    rec: &Record,
    taking: &mut Taking,
) -> Result<Open, NoMemory>
    requires rec { IsRecord (checked_plan settings.now.checked.now) rec.now }
    requires fits { ChainFits (checked_plan settings.now.checked.now) chain }
    requires tight { IsTight (checked_plan settings.now.checked.now) settings.now.limit chain }
    requires closed { IsClosed chain }
    ensures { IfOk result
        (TakesOne (checked_plan settings.now.checked.now) settings.now.limit rec.now
        (opened.Chain chain)) }
{
    let (segments, _none) = chain.into_parts();
    let scratch = &mut taking.exploring.scratch;
    let segments = take_on(alloc, settings, segments, rec, scratch)?;
    open_last(alloc, settings.checked, segments, settings.limit)
}

/// A segment of the records that a chain keeps, where they are to be explored now and it is worth
/// it: as many as may be kept are, few other keys had no such segment, and the segment's cells are
/// known or there are few groups.
fn covering(
    alloc: Global,
    settings: &Settings<'_>,
    chain: &Chain,
    taking: &mut Taking,
) -> Result<Option<Segment>, NoMemory>
    requires fits { ChainFits (checked_plan settings.now.checked.now) chain.now }
    requires some { 1 ≤ length chain.now.kept }
    ensures { IfOk result (λ segment.
        IfSome segment
        (Covers (checked_plan settings.now.checked.now) settings.now.limit chain.now.kept)) }
{
    if chain.kept() != settings.most as usize || FAILED_MOST <= taking.failed {
        return Ok(None);
    }
    let kept = chain.kept_records();
    if let Some(segment) = cover(alloc, settings, kept, &mut taking.exploring)? {
        if taking.groups < GROUPS_MANY || are_known(&segment) {
            return Ok(Some(segment));
        }
    }
    taking.failed += 1;
    Ok(None)
}

/// Takes a record into a chain that keeps some: it is kept after them, or all are explored. The
/// chain that takes this one's place, or none where this one takes the record.
fn take_kept(
    alloc: Global,
    settings: &Settings<'_>,
    chain: &mut Chain,
    rec: &Record,
    taking: &mut Taking,
) -> Result<Option<Open>, NoMemory>
    requires rec { IsRecord (checked_plan settings.now.checked.now) rec.now }
    requires fits { ChainFits (checked_plan settings.now.checked.now) chain.old }
    requires tight { IsTight (checked_plan settings.now.checked.now) settings.now.limit chain.old }
    requires some { 1 ≤ length chain.old.kept }
    ensures { IfOk result (λ next.
        TakesOne (checked_plan settings.now.checked.now) settings.now.limit rec.now
        (opened.Chain chain.old) (placed next (opened.Chain chain.new))) }
{
    match covering(alloc, settings, chain, taking)? {
        Some(segment) => {
            let none = Chain::of_one(alloc, Segment::of(Vec::new(alloc)));
            let old = mem::replace(chain, none);
            let next = take_covered(alloc, settings, old, segment, rec, taking)?;
            Ok(Some(next))
        }
        None => {
            chain.keep(alloc, rec)?;
            Ok(None)
        }
    }
}

/// Takes a record into a chain: it is kept after the others that are kept, where there are some, or
/// explored. The chain that takes this one's place, or none where this one takes the record.
fn take_into_chain(
    alloc: Global,
    settings: &Settings<'_>,
    chain: &mut Chain,
    rec: &Record,
    taking: &mut Taking,
) -> Result<Option<Open>, NoMemory>
    requires rec { IsRecord (checked_plan settings.now.checked.now) rec.now }
    requires fits { ChainFits (checked_plan settings.now.checked.now) chain.old }
    requires tight { IsTight (checked_plan settings.now.checked.now) settings.now.limit chain.old }
    ensures { IfOk result (λ next.
        TakesOne (checked_plan settings.now.checked.now) settings.now.limit rec.now
        (opened.Chain chain.old) (placed next (opened.Chain chain.new))) }
{
    if !chain.is_closed() {
        return take_kept(alloc, settings, chain, rec, taking);
    }
    let none = Chain::of_one(alloc, Segment::of(Vec::new(alloc)));
    let old = mem::replace(chain, none);
    let next = take_explored(alloc, settings, old, rec, taking)?;
    Ok(Some(next))
}

/// Takes a record into an open chain: its states make their steps, or the chain takes it. The chain
/// that takes this one's place, or none where this one takes the record.
fn take_open(
    alloc: Global,
    settings: &Settings<'_>,
    chain: &mut Open,
    rec: &Record,
    taking: &mut Taking,
) -> Result<Option<Open>, NoMemory>
    requires rec { IsRecord (checked_plan settings.now.checked.now) rec.now }
    requires fits { OpenFits (checked_plan settings.now.checked.now) chain.old }
    requires tight { OpenIsTight (checked_plan settings.now.checked.now) settings.now.limit
        chain.old }
    ensures { IfOk result (λ next.
        TakesOne (checked_plan settings.now.checked.now) settings.now.limit rec.now
        chain.old (placed next chain.new)) }
{
    match chain {
        Open::Known(_, known) => {
            known.step(alloc, settings.checked, rec, &mut taking.buffers)?;
            Ok(None)
        }
        Open::Chain(chain) => take_into_chain(alloc, settings, chain, rec, taking),
    }
}

/// Takes a record into an open chain. After an `Err` it is unspecified.
fn take_into(
    alloc: Global,
    settings: &Settings<'_>,
    chain: &mut Open,
    rec: &Record,
    taking: &mut Taking,
) -> Result<(), NoMemory>
    requires rec { IsRecord (checked_plan settings.now.checked.now) rec.now }
    requires fits { OpenFits (checked_plan settings.now.checked.now) chain.old }
    requires tight { OpenIsTight (checked_plan settings.now.checked.now) settings.now.limit
        chain.old }
    ensures { OnOk result
        (TakesOne (checked_plan settings.now.checked.now) settings.now.limit rec.now
        chain.old chain.new) }
{
    if let Some(next) = take_open(alloc, settings, chain, rec, taking)? {
        *chain = next;
    }
    Ok(())
}

/// Whether there is a group with this key, whose chain then takes on the record.
fn lengthen(
    alloc: Global,
    settings: &Settings<'_>,
    map: &mut IndexMap<Key, Open>,
    key: &Key,
    rec: &Record,
    taking: &mut Taking,
) -> Result<bool, NoMemory>
    requires rec { IsRecord (checked_plan settings.now.checked.now) rec.now }
    requires fits { OpenGroupsFit (checked_plan settings.now.checked.now) map.old.entries }
    requires tight { OpenGroupsAreTight (checked_plan settings.now.checked.now) settings.now.limit
        map.old.entries }
    ensures grows { IfOk result (λ there.
        GrowsIf (checked_plan settings.now.checked.now) settings.now.limit settings.now.most
        key.now rec.now map.old.entries there map.new.entries) }
    ensures extends { IfOk result (λ there. IsTrue there →
        ExtendsByOne (checked_plan settings.now.checked.now) settings.now.limit settings.now.most
        key.now rec.now map.old.entries map.new.entries) }
    ensures distinct { HaveDistinctKeys map.new.entries }
{
    taking.groups = map.len();
    match map.get_mut(key) {
        Some(chain) => {
            take_into(alloc, settings, chain, rec, taking)?;
            Ok(true)
        }
        None => Ok(false),
    }
}

/// The chain of one record, which is kept if any may be, and else explored.
fn first_chain(
    alloc: Global,
    settings: &Settings<'_>,
    rec: &Record,
    taking: &mut Taking,
) -> Result<Chain, NoMemory>
    requires rec { IsRecord (checked_plan settings.now.checked.now) rec.now }
    ensures fits { IfOk result (ChainFits (checked_plan settings.now.checked.now)) }
    ensures tight { IfOk result
        (IsTight (checked_plan settings.now.checked.now) settings.now.limit) }
    ensures stands { IfOk result
        (ChainStandsFor (checked_plan settings.now.checked.now) (rec.now ∷ [])) }
    ensures closed { settings.now.most ≡ 0 → IfOk result IsClosed }
    ensures extends { settings.now.most ≡ 0 → IfOk result
        (ChainIsExtended (checked_plan settings.now.checked.now) settings.now.limit
        (rec.now ∷ [])) }
{
    if settings.most != 0 {
        return Chain::of_record(alloc, rec);
    }
    let own = fresh_with(alloc, settings.checked, rec, &mut taking.exploring.scratch)?;
    Ok(Chain::of_one(alloc, own))
}

/// A new group with the record's chain, which goes last. The key is copied.
fn begin(
    alloc: Global,
    settings: &Settings<'_>,
    map: &mut IndexMap<Key, Open>,
    key: &Key,
    rec: &Record,
    taking: &mut Taking,
) -> Result<(), NoMemory>
    requires rec { IsRecord (checked_plan settings.now.checked.now) rec.now }
    requires new { lookup (is_key key.now) map.old.entries ≡ None }
    requires distinct { HaveDistinctKeys map.old.entries }
    ensures grows { OnOk result
        (GrowsByOne (checked_plan settings.now.checked.now) settings.now.limit settings.now.most
        key.now rec.now map.old.entries map.new.entries) }
    ensures extends { settings.now.most ≡ 0 → OnOk result
        (ExtendsByOne (checked_plan settings.now.checked.now) settings.now.limit settings.now.most
        key.now rec.now map.old.entries map.new.entries) }
    ensures distinct { HaveDistinctKeys map.new.entries }
{
    let chain = first_chain(alloc, settings, rec, taking)?;
    map.insert(key.copy(alloc)?, Open::Chain(chain))?;
    Ok(())
}

/// Takes the record in the memory into the chain of its key, without the words that the update
/// doesn't read. A key's first records are kept as they are, as many as the settings say; the next
/// one has all of them explored, where their segment stays within the limit. The record's key is
/// written over the one in the memory, and the record there is unspecified afterwards.
pub(crate) fn take_record(
    alloc: Global,
    settings: &Settings<'_>,
    map: &mut IndexMap<Key, Open>,
    reads: &[bool],
    memory: &mut Memory,
) -> Result<(), NoMemory>
    requires rec { IsRecord (checked_plan settings.now.checked.now) memory.old.rec }
    requires reads { HasReadMarked (checked_plan settings.now.checked.now) reads.now }
    requires fits { OpenGroupsFit (checked_plan settings.now.checked.now) map.old.entries }
    requires tight { OpenGroupsAreTight (checked_plan settings.now.checked.now) settings.now.limit
        map.old.entries }
    requires distinct { HaveDistinctKeys map.old.entries }
    ensures grows { let p = checked_plan settings.now.checked.now in
        OnOk result (GrowsByOne p settings.now.limit settings.now.most (key_of p memory.old.rec)
        memory.old.rec map.old.entries map.new.entries) }
    ensures extends { let p = checked_plan settings.now.checked.now in settings.now.most ≡ 0 →
        OnOk result (ExtendsByOne p settings.now.limit settings.now.most
        (key_of p memory.old.rec) memory.old.rec map.old.entries map.new.entries) }
    ensures distinct { HaveDistinctKeys map.new.entries }
{
    let Memory { key, rec, taking } = memory;
    key_into(alloc, settings.checked, rec, key)?;
    empty_unread(settings.checked, rec, reads)?;
    if lengthen(alloc, settings, map, key, rec, taking)? {
        return Ok(());
    }
    begin(alloc, settings, map, key, rec, taking)
}
