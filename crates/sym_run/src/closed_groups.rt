//! The groups of a run, joined to those before it and closed, by several threads. The chains that
//! its keys have before it are taken out, joined and closed beside each other, and put back.
ghost use Rattle.std.specs.Prelude.{◌≡◌, ◌∷◌, ◌≤◌, ◌<◌, ◌+◌, ◌++◌, [], ℕ, List, IfOk, OnOk, length, slice_index_or};
ghost use Rattle.std.specs.List.{All, AllZip};
ghost use Rattle.std.specs.Map.{keys_of, lookup};
ghost use Rattle.std.specs.Thread.{IsSync};
ghost use Rattle.sym_base.specs.declared.values.record.Record.{Record as OneRecord};
ghost use Rattle.sym_check.specs.Checking.CheckedScripts.{checked_plan};
ghost use Rattle.sym_check.specs.Meaning.Groups.{is_key};
ghost use Rattle.sym_plain.specs.Pairs.{HaveDistinctKeys};
ghost use Rattle.sym_run.specs.Chains.{ChainFits, ChainStandsFor, IsClosed, IsTight};
ghost use Rattle.sym_run.specs.Closing.{AreJoinedTo, CanJoin, CanJoinFound, IsJoinedTo, IsTakenOut, WasJoined, put_joined};
ghost use Rattle.sym_run.specs.Growing.{AreBoth, FoundStandsFor};
ghost use Rattle.sym_run.specs.Leading.{AreAlikeBut};
ghost use Rattle.sym_run.specs.Runs.{AreClosed, AreTight, GroupsFit, GroupsStandFor};

use crate::chains::Chain;
use crate::joined_groups::join_chain;
use crate::led_groups::threads_for;
use crate::run_groups::RunGroups;
use indexmap::IndexMap;
use std::alloc::Global;
use std::mem;
use std::thread::{Threads, join_mut};
use sym_base::{Key, NoMemory};
use sym_check::Checked;
use sym_path::Segment;

/// A group of a run: the chain that its key has before the run, if there is one, and its own, in
/// whose place the two are joined. Then, whether an allocation failed in that.
#[derive(Drop)]
pub(crate) struct Joining {
    key: Key,
    before: Option<Chain>,
    chain: Chain,
    joined: Result<(), NoMemory>,
}

// A value that lends a checked script. Threads share it by its bound: that a script may be shared is
// then shown once, where it is handed in.
trait LendsScript {
    ghost use Rattle.sym_check.specs.declared.checked.accepted.Checked.{Checked as OneChecked};

    ghost by: { Self → OneChecked };

    fn script(&self) -> &Checked
        ensures { result.now ≡ by self.now };
}

impl LendsScript for Checked {
    ghost by = { λ checked. checked };

    fn script(&self) -> &Checked {
        self
    }
}

// What is in the place of a chain that is out.
fn while_out(alloc: Global) -> Chain {
    Chain::of_one(alloc, Segment::of(Vec::new(alloc)))
}

// Takes out the chain of a key, if there is one.
fn take_out(alloc: Global, map: &mut IndexMap<Key, Chain>, key: &Key) -> Option<Chain>
    ensures found { result ≡ lookup (is_key key.now) map.old.entries }
    ensures alike { AreAlikeBut (key.now ∷ []) map.old.entries map.new.entries }
    ensures distinct { HaveDistinctKeys map.new.entries }
{
    match map.get_mut(key) {
        Some(chain) => Some(mem::replace(chain, while_out(alloc))),
        None => None,
    }
}

// The groups of a run, and the chains that their keys have before it, which are taken out.
fn take_all_out(
    alloc: Global,
    map: &mut IndexMap<Key, Chain>,
    right: RunGroups,
) -> Result<Vec<Joining>, NoMemory>
    requires { HaveDistinctKeys map.old.entries }
    ensures out { IfOk result (λ joining.
        AllZip (IsTakenOut map.old.entries) right joining.items) }
    ensures alike { OnOk result (AreAlikeBut (keys_of right) map.old.entries map.new.entries) }
    ensures distinct { OnOk result (HaveDistinctKeys map.new.entries) }
{
    let mut joining = Vec::with_capacity(alloc, right.len())?;
    'groups: for (key, chain) in right.into_map() {
        let before = take_out(alloc, map, &key);
        joining.push(Joining {
            key,
            before,
            chain,
            joined: Ok(()),
        })?;
    }
    Ok(joining)
}

// The chain of what was found for a key and then of another chain, with what it keeps explored.
fn join_one(
    alloc: Global,
    checked: &Checked,
    before: Option<Chain>,
    right: Chain,
    limit: u32,
) -> Result<Chain, NoMemory>
    requires before { CanJoinFound (checked_plan checked.now) limit before }
    requires fits { ChainFits (checked_plan checked.now) right }
    requires tight { IsTight (checked_plan checked.now) limit right }
    ensures fits { IfOk result (ChainFits (checked_plan checked.now)) }
    ensures tight { IfOk result (IsTight (checked_plan checked.now) limit) }
    ensures closed { IfOk result IsClosed }
    ensures stands { (first rest : List OneRecord) →
        FoundStandsFor (checked_plan checked.now) first before →
        ChainStandsFor (checked_plan checked.now) rest right →
        IfOk result (ChainStandsFor (checked_plan checked.now) (first ++ rest)) }
{
    match before {
        Some(before) => {
            let mut both = before;
            join_chain(alloc, checked, &mut both, right, limit)?;
            both.closed(alloc, checked, limit)
        }
        None => right.closed(alloc, checked, limit),
    }
}

// Joins a group to what its key has before it, in its place.
fn join_in_place(alloc: Global, checked: &Checked, one: &mut Joining, limit: u32)
    requires { CanJoin (checked_plan checked.now) limit one.old }
    ensures { IsJoinedTo (checked_plan checked.now) limit one.old one.new }
{
    let before = mem::replace(&mut one.before, None);
    let right = mem::replace(&mut one.chain, while_out(alloc));
    match join_one(alloc, checked, before, right, limit) {
        Ok(chain) => one.chain = chain,
        Err(NoMemory) => one.joined = Err(NoMemory),
    }
}

// Joins groups, one after the other.
fn join_part(alloc: Global, checked: &Checked, limit: u32, joining: &mut [Joining])
    requires { All (CanJoin (checked_plan checked.now) limit) joining.old }
    ensures { AreJoinedTo (checked_plan checked.now) limit joining.old joining.new }
{
    'groups: for k in 0..joining.len() {
        join_in_place(alloc, checked, &mut joining[k], limit);
    }
}

// How many threads join the first half of some groups, and how many the second one.
#[derive(Clone, Copy)]
struct Halves {
    low: usize,
    high: usize,
}

// Joins groups by so many threads, at most, about as many by each: they are halved at each step, and
// one half goes to other threads. The slice is the last parameter, since a closure lends it last.
#[cycle(halves)]
fn join_each<T: Threads + Sync, S: LendsScript + Sync>(
    rt: &T,
    alloc: Global,
    lender: &S,
    threads: usize,
    limit: u32,
    joining: &mut [Joining],
)
    requires { All (CanJoin (checked_plan (S.by lender.now)) limit) joining.old }
    ensures { AreJoinedTo (checked_plan (S.by lender.now)) limit joining.old joining.new }
{
    if threads < 2 {
        join_part(alloc, lender.script(), limit, joining);
        return;
    }
    let low = threads / 2;
    let high = threads - low;
    let middle = joining.len() / threads * low;
    let (front, back) = joining.split_at_mut(middle);
    let halves = Halves { low, high };
    join_both(rt, alloc, lender, halves, limit, front, back);
}

// A function beside `join_each`, so that what the closures need is what this one is given.
#[cycle(halves)]
fn join_both<T: Threads + Sync, S: LendsScript + Sync>(
    rt: &T,
    alloc: Global,
    lender: &S,
    threads: Halves,
    limit: u32,
    front: &mut [Joining],
    back: &mut [Joining],
)
    requires low { 0 < threads.low }
    requires high { 0 < threads.high }
    requires front { All (CanJoin (checked_plan (S.by lender.now)) limit) front.old }
    requires back { All (CanJoin (checked_plan (S.by lender.now)) limit) back.old }
    ensures front { AreJoinedTo (checked_plan (S.by lender.now)) limit front.old front.new }
    ensures back { AreJoinedTo (checked_plan (S.by lender.now)) limit back.old back.new }
{
    let mut first = ||
        requires { IsSync T.row × IsSync S.row
            × All (CanJoin (checked_plan (S.by lender.now)) limit) front.now }
        ensures { AreJoinedTo (checked_plan (S.by lender.entry.now)) limit
            front.entry.now front.exit.now }
    { join_each(rt, alloc, lender, threads.low, limit, front) };
    let mut second = ||
        requires { IsSync T.row × IsSync S.row
            × All (CanJoin (checked_plan (S.by lender.now)) limit) back.now }
        ensures { AreJoinedTo (checked_plan (S.by lender.entry.now)) limit
            back.entry.now back.exit.now }
    { join_each(rt, alloc, lender, threads.high, limit, back) };
    join_mut(rt, &mut first, &mut second);
}

// Puts the joined chains in their places; those of new keys go last.
fn put_all(map: &mut IndexMap<Key, Chain>, joining: Vec<Joining>) -> Result<(), NoMemory>
    requires { HaveDistinctKeys map.old.entries }
    ensures joined { OnOk result (All WasJoined joining.items) }
    ensures groups { OnOk result (map.new.entries ≡ put_joined joining.items map.old.entries) }
    ensures distinct { OnOk result (HaveDistinctKeys map.new.entries) }
{
    'groups: for one in joining {
        let Joining {
            key,
            before: _before,
            chain,
            joined,
        } = one;
        joined?;
        drop(map.insert(key, chain)?);
    }
    Ok(())
}

/// The groups of the left ones' records and then the right ones', as `join_groups` has them, with
/// what the chains of the right's keys keep explored. As many threads as there are workers, at most,
/// join and explore. The left ones keep no records, so that none keeps any afterwards. Keys and
/// chains are moved.
pub fn join_and_close<T: Threads + Sync>(
    rt: &T,
    alloc: Global,
    checked: &Checked,
    left: RunGroups,
    right: RunGroups,
    limit: u32,
    workers: u32,
) -> Result<RunGroups, NoMemory>
    requires left { GroupsFit (checked_plan checked.now) left }
    requires right { GroupsFit (checked_plan checked.now) right }
    requires tight_left { AreTight (checked_plan checked.now) limit left }
    requires tight_right { AreTight (checked_plan checked.now) limit right }
    requires closed_left { AreClosed left }
    ensures fits { IfOk result (GroupsFit (checked_plan checked.now)) }
    ensures tight { IfOk result (AreTight (checked_plan checked.now) limit) }
    ensures closed { IfOk result AreClosed }
    ensures both { IfOk result (AreBoth (checked_plan checked.now) left right) }
    ensures stands { (first rest : List OneRecord) →
        GroupsStandFor (checked_plan checked.now) first left →
        GroupsStandFor (checked_plan checked.now) rest right →
        IfOk result (GroupsStandFor (checked_plan checked.now) (first ++ rest)) }
{
    let threads = threads_for(&right, workers);
    // Its clause says that no key stands twice.
    let _count = right.len();
    let mut map = left.into_map();
    let mut joining = take_all_out(alloc, &mut map, right)?;
    join_each(rt, alloc, checked, threads, limit, joining.as_mut_slice());
    put_all(&mut map, joining)?;
    Ok(RunGroups::of_map(map))
}
