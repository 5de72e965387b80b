//! Texts of saved runs in one, by key: the places of all chains are scanned first, and then threads
//! join the chains of a key each.
ghost use Rattle.std.specs.Prelude.{◌≡◌, ◌≤◌, ◌<◌, ℕ, [], List, Result, IfOk, IfSome, length, map, vec_len};
ghost use Rattle.std.specs.List.{All, AllZip};
ghost use Rattle.sym_base.specs.declared.limits.TheConstants as limits;
ghost use Rattle.sym_check.specs.Checking.CheckedScripts.{checked_plan};
ghost use Rattle.sym_check.specs.Plan.ScriptPlans.{ScriptPlan};
ghost use Rattle.sym_file.specs.PlacedTexts.{AreJoinedOf, IsJoinedAt, IsJoinedByKey, Placed};
ghost use Rattle.sym_file.specs.Places.{AreJoinedByKey, AreTextsJoined, IsJoinOfPlaces, Span as OneSpan};
ghost use Rattle.sym_file.specs.SavedTexts.{printed};
ghost use Rattle.sym_run.specs.ClosedJoins.{IsJoinable};

use crate::joins::join_places;
use crate::places::{KeyPlaces, Span};
use crate::saved_err::SavedErr;
use crate::scan::{are_in_order, place_texts};
use std::alloc::Global;
use std::thread::Threads;
use sym_check::Checked;
use sym_fork::map_claimed;
use sym_parse::print;
use sym_run::{Chain, RunGroups, Saved};

// A value that joins the chains of a key where they stand. Threads share it by its bound: that what
// it reads may be shared is then shown once, where that is handed in.
trait JoinsPlaces {
    ghost use Rattle.std.specs.Prelude.{List, ℕ, IfOk};
    ghost use Rattle.sym_check.specs.Plan.ScriptPlans.{ScriptPlan};
    ghost use Rattle.sym_file.specs.PlacedTexts.{IsJoinedAt, Placed};
    ghost use Rattle.sym_file.specs.Places.{Span as OneSpan};

    ghost plan: { Self → ScriptPlan };

    ghost spans: { Self → List OneSpan };

    ghost groups: { Self → Placed };

    // The chains of the key at this index in one.
    fn join_at(&self, alloc: Global, index: usize, limit: u32) -> Result<Chain, SavedErr>
        ensures { IfOk result (IsJoinedAt (plan self.now) limit (spans self.now)
            (groups self.now) index) };
}

// The script, the numbers of each text's records, and the places of each key's chains.
#[derive(Clone, Copy)]
struct Lent<'a> {
    checked: &'a Checked,
    spans: &'a [Span],
    groups: &'a KeyPlaces<'a>,
}

impl<'a> JoinsPlaces for Lent<'a> {
    ghost use Rattle.sym_check.specs.Checking.CheckedScripts.{checked_plan};

    ghost plan = { λ l. checked_plan l.checked.now };

    ghost spans = { λ l. l.spans.now };

    ghost groups = { λ l. l.groups.now };

    fn join_at(&self, alloc: Global, index: usize, limit: u32) -> Result<Chain, SavedErr> {
        match self.groups.at(index) {
            Some((key, places)) => {
                join_places(alloc, self.checked, self.spans, key, places, limit)
            }
            None => Err(SavedErr::Malformed),
        }
    }
}

// The chains of each key in one, made by so many threads.
fn join_each<R: Threads + Sync, S: JoinsPlaces + Sync>(
    rt: &R,
    alloc: Global,
    lender: &S,
    count: usize,
    limit: u32,
    threads: usize,
) -> Result<Vec<Result<Chain, SavedErr>>, SavedErr>
    ensures count { IfOk result (λ made. vec_len made ≡ count) }
    ensures each { let s = lender.now in IfOk result (λ made.
        AreJoinedOf (S.plan s) limit (S.spans s) (S.groups s) made.items) }
{
    let made = map_claimed(
        rt,
        alloc,
        count,
        threads,
        &|_thread: usize, index: usize| -> Result<Chain, SavedErr>
            ensures { let s = lender.entry.now in IfOk result (
                IsJoinedAt (S.plan s) limit (S.spans s) (S.groups s) index) }
        { lender.join_at(alloc, index, limit) },
    )?;
    Ok(made)
}

// Puts the chains to their keys.
fn put_chains(
    alloc: Global,
    groups: KeyPlaces<'_>,
    made: Vec<Result<Chain, SavedErr>>,
) -> Result<RunGroups, SavedErr>
    requires { vec_len made ≡ length groups }
    ensures { (p : ScriptPlan) (limit : ℕ) (spans : List OneSpan) →
        AreJoinedOf p limit spans groups.entry made.items →
        IfOk result (AllZip (IsJoinOfPlaces p limit spans) groups.entry) }
{
    let mut keys = groups.into_map().into_iter();
    let mut joined = RunGroups::new(alloc);
    'chains: for chain in made {
        let Some((key, _places)) = keys.next() else {
            return Err(SavedErr::Malformed);
        };
        match joined.add(alloc, key, chain?)? {
            Some(more) => joined = more,
            None => return Err(SavedErr::Malformed),
        }
    }
    Ok(joined)
}

// The chains of each key in one, put to the keys.
fn join_groups<R: Threads + Sync>(
    rt: &R,
    alloc: Global,
    checked: &Checked,
    spans: &[Span],
    groups: KeyPlaces<'_>,
    limit: u32,
    threads: usize,
) -> Result<RunGroups, SavedErr>
    ensures { let p = checked_plan checked.now in
        IfOk result (AllZip (IsJoinOfPlaces p limit spans.now) groups.entry) }
{
    let count = groups.len();
    let made = join_each(
        rt,
        alloc,
        &Lent {
            checked,
            spans,
            groups: &groups,
        },
        count,
        limit,
        threads,
    )?;
    put_chains(alloc, groups, made)
}

// `join_texts`, where `own` is the script in its printed form.
fn join_own<R: Threads + Sync>(
    rt: &R,
    alloc: Global,
    checked: &Checked,
    own: &[u8],
    texts: &[Vec<u8>],
    limit: u32,
    threads: usize,
) -> Result<Saved, SavedErr>
    ensures { IfOk result (IsJoinedByKey own.now (checked_plan checked.now) limit
        (map (λ text. text.items) texts.now)) }
{
    let mut places = KeyPlaces::new(alloc);
    let spans = place_texts(alloc, checked.plan(), own, texts, &mut places)?;
    let in_order = are_in_order(spans.as_slice());
    if spans.is_empty() || !in_order {
        return Err(SavedErr::Malformed);
    }
    let (begins, ends) = (&spans[0], &spans[spans.len() - 1]);
    let (first, next) = (begins.first, ends.next);
    let groups = join_groups(rt, alloc, checked, spans.as_slice(), places, limit, threads)?;
    Ok(Saved {
        first,
        next,
        groups,
    })
}

// `join_texts`, with a cause where nothing is made.
fn join_printed<R: Threads + Sync>(
    rt: &R,
    alloc: Global,
    checked: &Checked,
    texts: &[Vec<u8>],
    limit: u32,
    threads: usize,
) -> Result<Saved, SavedErr>
    requires size { All (λ text. length text.items ≤ limits.FILE_MAX) texts.now }
    ensures joined { IfOk result (AreTextsJoined (printed checked.now) (checked_plan checked.now)
        limit (map (λ text. text.items) texts.now)) }
    ensures joinable { IfOk result (IsJoinable (checked_plan checked.now)) }
{
    let _plan = checked.plan();
    let own = print(alloc, checked.script())?;
    join_own(rt, alloc, checked, &own, texts, limit, threads)
}

/// The saved run of the records of several saved runs, of which these are the texts, in order: each
/// is that of the script, and its records follow those of the one before it. One thread scans where
/// the chains of each key stand, and so many threads, at most, read those of a key each, and join
/// them, as `join_text` does. No saved run is made of a text. `None` where something is wrong, or an
/// allocation failed: `join_text` of one text after the other says what.
pub fn join_texts<R: Threads + Sync>(
    rt: &R,
    alloc: Global,
    checked: &Checked,
    texts: &[Vec<u8>],
    limit: u32,
    threads: usize,
) -> Option<Saved>
    requires size { All (λ text. length text.items ≤ limits.FILE_MAX) texts.now }
    ensures joined { IfSome result (AreTextsJoined (printed checked.now) (checked_plan checked.now)
        limit (map (λ text. text.items) texts.now)) }
    ensures joinable { IfSome result (IsJoinable (checked_plan checked.now)) }
{
    join_printed(rt, alloc, checked, texts, limit, threads).ok()
}
