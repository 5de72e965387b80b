//! The sequential pass, record by record, against a plain walk over a list of records.
ghost use Rattle.std.specs.Prelude.{◌≡◌, false, None, IfOk};
ghost use Rattle.std.specs.Map.{lookup};
ghost use Rattle.sym_check.specs.Meaning.Groups.{is_key};

use std::alloc::Global;
use std::test::Fail;
use sym_base::{Fault, FaultKind, Fields, Key, NoMemory, Outcome, Record, Text, Value, Values};
use sym_check::Checked;
use sym_given::{Row, all_hold, check_rows, difference, group_text_at, told_at};
use sym_plain::{Groups, fold, fold_into, initial, key_into, key_of, step};

// A sum for each name, in a range.
const SUMS: &str = "field x: num; field who: word; group who; state n: int [0..9] = 1; \
    update { n = n + x; } report { n = n; }";

/// By how much each record moves whose sum. One leaves the range at its upper end, one at its lower
/// end, and one stays in it; what has ended is moved again.
const MOVES: [(i64, &str); 11] = [
    (2, "bob"),
    (3, "ann"),
    (-1, "bob"),
    (8, ""),
    (6, "ann"),
    (-4, "ann"),
    (7, "bob"),
    (-10, ""),
    (1, "a longer name"),
    (0, "bob"),
    (-2, "a longer name"),
];

/// How a sum stands.
#[derive(Clone, Copy, Debug, PartialEq, Eq)]
enum Standing {
    Is(i64),
    /// It left the range at the record of this number.
    Left(u64),
}

fn moved(standing: Standing, x: i64, no: u64) -> Standing {
    match standing {
        Standing::Is(sum) => {
            let next = sum.saturating_add(x);
            if next < 0 || next > 9 {
                Standing::Left(no)
            } else {
                Standing::Is(next)
            }
        }
        Standing::Left(_) => standing,
    }
}

// How the sum of a name stands after these records.
fn walk(moves: &[(i64, &'static str)], who: &str) -> Standing {
    let mut standing = Standing::Is(1);
    let mut no = 0u64;
    'moves: for (x, name) in moves {
        no = no.wrapping_add(1);
        if *name == who {
            standing = moved(standing, *x, no);
        }
    }
    standing
}

// Whether a name stands in none of these records.
fn is_new(moves: &[(i64, &'static str)], who: &str) -> bool {
    'moves: for (_, name) in moves {
        if *name == who {
            return false;
        }
    }
    true
}

fn is_key(key: &Key, who: &str) -> bool {
    match key.values.as_slice() {
        [Value::Word(word)] => word.as_str() == who,
        _ => false,
    }
}

fn stands(outcome: &Outcome, standing: Standing) -> bool {
    match outcome {
        Outcome::Going(state) => standing == Standing::Is(state.number_at(0)),
        Outcome::Ended(fault) => {
            fault.kind == FaultKind::Over(0) && standing == Standing::Left(fault.no)
        }
    }
}

fn is_group(groups: &Groups, place: usize, who: &str, standing: Standing) -> bool {
    match groups.at(place) {
        Some((key, outcome)) => is_key(key, who) && stands(outcome, standing),
        None => false,
    }
}

// How the group at this place differs from the one that is wanted.
fn group_differs(
    alloc: Global,
    groups: &Groups,
    place: usize,
    who: &str,
    standing: Standing,
) -> Result<Option<String>, NoMemory> {
    if is_group(groups, place, who, standing) {
        return Ok(None);
    }
    let found = group_text_at(alloc, groups, place)?;
    Ok(Some(format!(in alloc; "group {place}: found {found}, wanted {who:?}: {standing:?}")?))
}

// How the groups differ from those of a plain walk: the names in order of their first record.
fn walk_differs(
    alloc: Global,
    groups: &Groups,
    moves: &[(i64, &'static str)],
) -> Result<Option<String>, NoMemory> {
    let mut place = 0usize;
    'moves: for (at, (_, who)) in moves.iter().enumerate() {
        if is_new(&moves[..at], who) {
            let told = group_differs(alloc, groups, place, who, walk(moves, who))?;
            if told.is_some() {
                return Ok(told);
            }
            place = place.wrapping_add(1);
        }
    }
    difference(alloc, &groups.len(), &place)
}

fn record(alloc: Global, no: u64, x: i64, who: &str) -> Result<Record, NoMemory> {
    let mut fields = Fields::new(alloc);
    fields.push(Value::Num(x))?;
    fields.push(Value::Word(Text::from_str(alloc, who)?))?;
    Ok(Record { no, fields })
}

/// How a record is folded into groups of which there is a copy.
#[derive(Clone, Copy)]
enum Way {
    /// The groups are given away.
    Given,
    /// The groups change where they stand.
    InPlace,
    /// The copy changes where it stands, and the groups stay.
    InCopy,
    /// The group is looked up by its key, and makes its step outside.
    ByKey,
}

/// The groups before a record and after it.
#[derive(Drop)]
struct Folded {
    before: Groups,
    after: Groups,
}

fn fold_in_place(
    alloc: Global,
    checked: &Checked,
    mut groups: Groups,
    rec: &Record,
) -> Result<Groups, NoMemory> {
    fold_into(alloc, checked, &mut groups, rec)?;
    Ok(groups)
}

// The state's next step is written over it.
fn step_on(
    alloc: Global,
    checked: &Checked,
    outcome: &mut Outcome,
    rec: &Record,
) -> Result<(), NoMemory> {
    if let Outcome::Going(state) = outcome {
        let next = step(alloc, checked, state.copy(alloc)?, rec)?;
        *outcome = next;
    }
    Ok(())
}

fn first_step(alloc: Global, checked: &Checked, rec: &Record) -> Result<Outcome, NoMemory> {
    step(alloc, checked, initial(alloc, checked)?, rec)
}

// Whether there is a group with this key, which then makes its step.
fn go_on(
    alloc: Global,
    checked: &Checked,
    groups: &mut Groups,
    key: &Key,
    rec: &Record,
) -> Result<bool, NoMemory>
    ensures { IfOk result (λ there. there ≡ false → lookup (is_key key.now) groups.new ≡ None) }
{
    match groups.outcome_mut(key) {
        Some(outcome) => {
            step_on(alloc, checked, outcome, rec)?;
            Ok(true)
        }
        None => Ok(false),
    }
}

fn step_group(
    alloc: Global,
    checked: &Checked,
    groups: &mut Groups,
    key: Key,
    rec: &Record,
) -> Result<(), NoMemory> {
    if !go_on(alloc, checked, groups, &key, rec)? {
        groups.begin(alloc, key, first_step(alloc, checked, rec)?)?;
    }
    Ok(())
}

// The key is made over another record's.
fn fold_by_key(
    alloc: Global,
    checked: &Checked,
    mut groups: Groups,
    rec: &Record,
) -> Result<Groups, NoMemory> {
    let mut key = key_of(alloc, checked, &record(alloc, 1, 2, "zoe")?)?;
    key_into(alloc, checked, rec, &mut key)?;
    step_group(alloc, checked, &mut groups, key, rec)?;
    Ok(groups)
}

fn fold_by(
    alloc: Global,
    checked: &Checked,
    way: Way,
    groups: Groups,
    rec: &Record,
) -> Result<Groups, NoMemory> {
    match way {
        Way::Given => fold(alloc, checked, groups, rec),
        Way::InPlace | Way::InCopy => fold_in_place(alloc, checked, groups, rec),
        Way::ByKey => fold_by_key(alloc, checked, groups, rec),
    }
}

fn fold_copied(
    alloc: Global,
    checked: &Checked,
    way: Way,
    groups: Groups,
    rec: &Record,
) -> Result<Folded, NoMemory> {
    let copied = groups.copy(alloc)?;
    let (before, old) = match way {
        Way::Given | Way::InPlace | Way::ByKey => (copied, groups),
        Way::InCopy => (groups, copied),
    };
    let after = fold_by(alloc, checked, way, old, rec)?;
    Ok(Folded { before, after })
}

// How the groups before a record or after it differ from those of a plain walk.
fn folded_differs(
    alloc: Global,
    folded: &Folded,
    earlier: &[(i64, &'static str)],
    moves: &[(i64, &'static str)],
) -> Result<Option<String>, NoMemory> {
    let told = walk_differs(alloc, &folded.before, earlier)?;
    if told.is_some() {
        return Ok(told);
    }
    walk_differs(alloc, &folded.after, moves)
}

// The groups after the last of these records, which are those of a plain walk, as those before it
// are; or how they differ.
fn next(
    alloc: Global,
    checked: &Checked,
    way: Way,
    groups: Groups,
    moves: &[(i64, &'static str)],
) -> Result<Result<Groups, String>, NoMemory> {
    let Some(((x, who), earlier)) = moves.split_last() else {
        return Ok(Ok(groups));
    };
    let rec = record(alloc, moves.len() as u64, *x, who)?;
    let folded = fold_copied(alloc, checked, way, groups, &rec)?;
    match folded_differs(alloc, &folded, earlier, moves)? {
        Some(told) => Ok(Err(told)),
        None => Ok(Ok(folded.after)),
    }
}

impl Row for Way {
    // The groups are those of a plain walk after each record.
    fn differs(&self, alloc: Global, checked: &Checked) -> Result<Option<String>, NoMemory> {
        let mut groups = Groups::new(alloc);
        'moves: for at in 0..MOVES.len() {
            match next(alloc, checked, *self, groups, &MOVES[..at + 1])? {
                Ok(more) => groups = more,
                Err(told) => return Ok(Some(told)),
            }
        }
        Ok(None)
    }
}

#[test]
fn fold_is_a_plain_walk(rt: HostRuntime) -> Result<(), Fail> {
    check_rows(rt.alloc(), SUMS, &[Way::Given])
}

#[test]
fn fold_into_is_a_plain_walk_and_a_copy_stays(rt: HostRuntime) -> Result<(), Fail> {
    check_rows(rt.alloc(), SUMS, &[Way::InPlace])
}

#[test]
fn a_copy_of_groups_goes_on(rt: HostRuntime) -> Result<(), Fail> {
    check_rows(rt.alloc(), SUMS, &[Way::InCopy])
}

#[test]
fn groups_that_are_looked_up_make_the_same_steps(rt: HostRuntime) -> Result<(), Fail> {
    check_rows(rt.alloc(), SUMS, &[Way::ByKey])
}

/// A name, which is a record's key.
struct Named(&'static str);

impl Row for Named {
    fn differs(&self, alloc: Global, checked: &Checked) -> Result<Option<String>, NoMemory> {
        let rec = record(alloc, 1, 2, self.0)?;
        let key = key_of(alloc, checked, &rec)?;
        let wanted = [Value::Word(Text::from_str(alloc, self.0)?)];
        difference(alloc, &key.values.as_slice(), &wanted.as_slice())
    }
}

#[test]
fn a_record_has_the_key_of_its_name(rt: HostRuntime) -> Result<(), Fail> {
    check_rows(rt.alloc(), SUMS, &[Named("ann")])
}

/// The number that is a key, and the record at which its group ended, in the order of putting.
const PUT: [(i64, u64); 3] = [(7, 1), (8, 2), (7, 3)];

/// The same of the groups, in their order.
const FOUND: [(i64, u64); 2] = [(7, 3), (8, 2)];

fn number_key(alloc: Global, number: i64) -> Result<Key, NoMemory> {
    let mut values = Values::new(alloc);
    values.push(Value::Num(number))?;
    Ok(Key { values })
}

// Puts a group that ended.
fn put_ended(alloc: Global, groups: Groups, number: i64, no: u64) -> Result<Groups, NoMemory> {
    let kind = FaultKind::Over(0);
    let outcome = Outcome::Ended(Fault { kind, no });
    groups.put(alloc, number_key(alloc, number)?, outcome)
}

fn put_all(alloc: Global, rows: &[(i64, u64)]) -> Result<Groups, NoMemory> {
    let mut groups = Groups::new(alloc);
    for (number, no) in rows {
        groups = put_ended(alloc, groups, *number, *no)?;
    }
    Ok(groups)
}

fn is_number_key(key: &Key, number: i64) -> bool {
    match key.values.as_slice() {
        [Value::Num(found)] => *found == number,
        _ => false,
    }
}

// Whether the group at a place has this key, and ended at this record.
fn has_ended(groups: &Groups, place: usize, number: i64, no: u64) -> bool {
    match groups.at(place) {
        Some((key, outcome)) => {
            is_number_key(key, number) && stands(outcome, Standing::Left(no))
        }
        None => false,
    }
}

// How the first group that isn't as wanted differs.
fn groups_differ(
    alloc: Global,
    groups: &Groups,
    rows: &[(i64, u64)],
) -> Result<Option<String>, NoMemory> {
    'rows: for (place, (number, no)) in rows.iter().enumerate() {
        if !has_ended(groups, place, *number, *no) {
            let found = group_text_at(alloc, groups, place)?;
            let told = format!(in alloc; "found {found}, wanted {number} that ended at {no}")?;
            return told_at(alloc, place, Some(told));
        }
    }
    difference(alloc, &groups.len(), &rows.len())
}

/// A number, and the record at which the group with this key ended; `None` where there is no such
/// group.
const SOUGHT: [(i64, Option<u64>); 3] = [(7, Some(3)), (9, None), (8, Some(2))];

// The record at which the group with this key ended.
fn ended_at(groups: &Groups, key: &Key) -> Option<u64> {
    match groups.find(key) {
        Some(Outcome::Ended(fault)) => Some(fault.no),
        Some(Outcome::Going(_)) | None => None,
    }
}

// How the first row that isn't found as wanted differs.
fn find_differs(alloc: Global, groups: &Groups) -> Result<Option<String>, NoMemory> {
    'rows: for (place, (number, no)) in SOUGHT.iter().enumerate() {
        let found = ended_at(groups, &number_key(alloc, *number)?);
        let told = difference(alloc, &found, no)?;
        if told.is_some() {
            return told_at(alloc, place, told);
        }
    }
    Ok(None)
}

#[test]
fn an_outcome_is_found_by_its_key(rt: HostRuntime) -> Result<(), Fail> {
    all_hold(find_differs(rt.alloc(), &put_all(rt.alloc(), &PUT)?))
}

fn put_differs(alloc: Global) -> Result<Option<String>, NoMemory> {
    groups_differ(alloc, &put_all(alloc, &PUT)?, &FOUND)
}

#[test]
fn an_outcome_is_put_in_the_place_of_its_keys(rt: HostRuntime) -> Result<(), Fail> {
    all_hold(put_differs(rt.alloc()))
}
