//! The chains of a key in one: each is read where it stands, and joined to those before it.
ghost use Rattle.std.specs.Prelude.{IfOk};
ghost use Rattle.sym_check.specs.Checking.CheckedScripts.{checked_plan};
ghost use Rattle.sym_file.specs.Places.{IsChainThere, IsJoinOfPlaces};

use crate::paths::chain;
use crate::places::{Place, Places, Span};
use crate::saved_err::SavedErr;
use std::alloc::Global;
use sym_base::Key;
use sym_check::Checked;
use sym_run::{Chain, is_lawful_group, join_chain};

/// The chain at a place, which has to end where its text was scanned on, and to be lawful in the
/// saved run of the text.
fn chain_there(
    alloc: Global,
    checked: &Checked,
    spans: &[Span],
    key: &Key,
    place: &Place<'_>,
) -> Result<Chain, SavedErr>
    ensures { IfOk result (IsChainThere (checked_plan checked.now) spans.now key.now place.now) }
{
    let (chain, after) = chain(alloc, checked.plan(), place.at)?;
    if after.len() != place.rest || place.text >= spans.len() {
        return Err(SavedErr::Malformed);
    }
    let span = &spans[place.text];
    if !is_lawful_group(checked, span.first, span.next, key, &chain) {
        return Err(SavedErr::Malformed);
    }
    Ok(chain)
}

/// The chains of a key in one. Where a segment and the next one have pairs, and at most `limit` of
/// them, they are composed.
pub(crate) fn join_places(
    alloc: Global,
    checked: &Checked,
    spans: &[Span],
    key: &Key,
    places: &Places<'_>,
    limit: u32,
) -> Result<Chain, SavedErr>
    ensures { IfOk result (λ chain. IsJoinOfPlaces (checked_plan checked.now) limit spans.now
        (key.now, places.now) (key.now, chain)) }
{
    if places.items.is_empty() {
        return Err(SavedErr::Malformed);
    }
    let mut joined = chain_there(alloc, checked, spans, key, &places.items[0])?;
    'places: for at in 1..places.items.len() {
        let chain = chain_there(alloc, checked, spans, key, &places.items[at])?;
        join_chain(alloc, checked, &mut joined, chain, limit)?;
    }
    Ok(joined)
}
