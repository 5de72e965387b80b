//! Scanning texts of saved runs: where the chains of their groups stand. The chains aren't read.
ghost use Rattle.std.specs.Prelude.{◌≡◌, ◌≤◌, List, IfOk, IsTrue, OnOk, length, map};
ghost use Rattle.sym_base.specs.declared.values.value.Key.{Key as OneKey};
ghost use Rattle.sym_check.specs.Plan.ScriptPlans.{script_plan};
ghost use Rattle.sym_file.specs.Marks.{AreMarks};
ghost use Rattle.sym_file.specs.PlacedTexts.{AreEntriesPlaced, AreTextsPlaced, IsPlacedOnce, IsTextPlaced};
ghost use Rattle.sym_file.specs.Places.{AreInOrder};

use crate::places::{KeyPlaces, Place, Span};
use crate::reader::{head, key, script};
use crate::saved_err::SavedErr;
use std::alloc::Global;
use sym_base::Key;
use sym_check::Plan;

// The last line of a text, of which nothing else is a part.
const END: usize = 4;

/// How many bytes come after a chain: those from the next line on that begins with the first letter
/// of `key`, or, where there is none, the last line. A word may have such a line, too: whether the
/// chain ends there is for its reader to tell.
fn rest_after_chain(bytes: &[u8]) -> usize
    ensures { result ≤ length bytes.now }
{
    'bytes: for at in 1..bytes.len() {
        if bytes[at - 1] == b'\n' && bytes[at] == b'k' {
            return bytes.len() - at;
        }
    }
    END.min(bytes.len())
}

/// Puts an entry of a text to the places. `Malformed` where the text named the key before: the key
/// at each index is marked where it did. Else the one of the entry is marked, too.
fn place_once<'a>(
    alloc: Global,
    groups: &mut KeyPlaces<'a>,
    marks: &mut Vec<bool>,
    key: Key,
    place: Place<'a>,
) -> Result<(), SavedErr>
    requires marks { length marks.old.items ≡ length groups.old }
    ensures { (seen : List OneKey) → AreMarks seen groups.old marks.old.items →
        OnOk result (IsPlacedOnce seen key place.entry groups.old groups.new marks.new.items) }
{
    match groups.index_of(&key) {
        Some(index) => {
            if marks[index] {
                return Err(SavedErr::Malformed);
            }
            marks[index] = true;
            groups.push_at(index, place)?;
        }
        None => {
            marks.push(true)?;
            groups.begin(alloc, key, place)?;
        }
    }
    Ok(())
}

/// Puts so many entries of a text to the places, whose keys have to be distinct; the bytes after
/// them.
fn place_entries<'a>(
    alloc: Global,
    plan: &Plan,
    text: usize,
    count: u128,
    bytes: &'a [u8],
    groups: &mut KeyPlaces<'a>,
) -> Result<&'a [u8], SavedErr>
    ensures { IfOk result (λ rest. AreEntriesPlaced (script_plan plan.now) text count bytes.now
        groups.old groups.new rest.now) }
{
    let mut marks = vec![in alloc; false; groups.len()]?;
    let mut rest = bytes;
    'entries: for _ in 0..count {
        let (key, at) = key(alloc, plan, rest)?;
        let place = Place {
            text,
            at,
            rest: rest_after_chain(at),
        };
        rest = &at[at.len() - place.rest..];
        place_once(alloc, groups, &mut marks, key, place)?;
    }
    Ok(rest)
}

/// Puts the entries of a text with this number to the places; the numbers of its records. `own` is
/// the script in its printed form.
fn place_text<'a>(
    alloc: Global,
    plan: &Plan,
    own: &[u8],
    text: usize,
    bytes: &'a [u8],
    groups: &mut KeyPlaces<'a>,
) -> Result<Span, SavedErr>
    ensures { IfOk result (IsTextPlaced own.now (script_plan plan.now) text bytes.now
        groups.old groups.new) }
{
    let (found, rest) = script(bytes)?;
    let same = found == own;
    if !same {
        return Err(SavedErr::OtherScript);
    }
    let ((first, next, count), rest) = head(rest)?;
    let rest = place_entries(alloc, plan, text, count, rest, groups)?;
    let ended = rest == b"end\n".as_slice();
    if !ended {
        return Err(SavedErr::Malformed);
    }
    Ok(Span { first, next })
}

/// Puts the entries of texts to the places, in order; the numbers of the records of each.
pub(crate) fn place_texts<'a>(
    alloc: Global,
    plan: &Plan,
    own: &[u8],
    texts: &'a [Vec<u8>],
    groups: &mut KeyPlaces<'a>,
) -> Result<Vec<Span>, SavedErr>
    ensures { IfOk result (λ spans. AreTextsPlaced own.now (script_plan plan.now)
        (map (λ text. text.items) texts.now) groups.old groups.new spans.items) }
{
    let mut spans = Vec::with_capacity(alloc, texts.len())?;
    'texts: for text in 0..texts.len() {
        spans.push(place_text(alloc, plan, own, text, texts[text].as_slice(), groups)?)?;
    }
    Ok(spans)
}

/// Whether numbers of records are in order, from 1 on, and each text but the first goes on after
/// the one before it.
pub(crate) fn are_in_order(spans: &[Span]) -> bool
    ensures { IsTrue result → AreInOrder spans.now }
{
    'spans: for at in 0..spans.len() {
        let span = &spans[at];
        if span.first < 1 || span.next < span.first {
            return false;
        }
        if at > 0 {
            let before = &spans[at - 1];
            if before.next != span.first {
                return false;
            }
        }
    }
    true
}
