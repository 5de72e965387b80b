//! What segments give at states, against what the sequential steps give there.
ghost use Rattle.std.specs.Prelude.{◌↔◌, IfOk, IfSome, IsTrue};
ghost use Rattle.sym_check.specs.Checking.CheckedScripts.{checked_plan};
ghost use Rattle.sym_check.specs.Meaning.Validity.{IsRecord, IsValid, IsValidOutcome};
ghost use Rattle.sym_path.specs.Fitting.{SegmentFits};
ghost use Rattle.sym_table.specs.Rows.{FitsHeader};

use crate::setting::{Stop, holds, none_told, number, state_by, told_of};
use std::alloc::Global;
use sym_base::{
    Cell, Fault, FaultKind, NoMemory, Outcome, Record, Sequence, State, Text, Value, Values,
};
use sym_check::Checked;
use sym_enum::EnumForm;
use sym_explore::{
    Extension, Grown, Scratch, extend, extend_within, fresh, fresh_with, grow, grow_with,
};
use sym_given::{accepted, difference, next_decoded, opened, outcome_text, refused, told_at};
use sym_path::{Form, Path, PathEnd, Segment};
use sym_plain::step;
use sym_pred::HoldForm;
use sym_table::{Cutter, Decoded};
use sym_vector::ListForm;

/// A script with records and states, and what comes of them.
#[derive(Clone, Copy)]
pub(crate) struct Case {
    pub script: &'static str,
    pub header: &'static str,
    /// The lines of the records, with blanks between them.
    pub lines: &'static str,
    /// The most paths that a segment is extended to; a new one begins at the next record.
    pub limit: u32,
    /// How many segments the records make.
    pub segments: usize,
    /// How many paths the last segment has.
    pub paths: usize,
    /// The states: from the first of these numbers to before the last, with each of so many labels
    /// and each of these parts.
    pub numbers: (i64, i64),
    pub labels: u8,
    pub parts: &'static [i64],
    /// How many of the states end with a fault.
    pub faults: usize,
    /// How many elements the lists of the other states have in the end.
    pub pushed: usize,
}

/// What was found at the states so far.
#[derive(Clone, Copy, Debug, PartialEq, Eq)]
struct Tally {
    faults: usize,
    pushed: usize,
}

/// The record of the first row of a file.
fn first_record(
    alloc: Global,
    checked: &Checked,
    cutter: Cutter<'_>,
    no: u64,
) -> Result<Option<Record>, NoMemory>
    requires { FitsHeader (checked_plan checked.now).fields cutter.header }
    ensures { IfOk result (λ found. IfSome found (IsRecord (checked_plan checked.now))) }
{
    let mut cutter = cutter;
    match next_decoded(alloc, checked, &mut cutter, no)? {
        Some(Decoded::Is(rec)) => Ok(Some(rec)),
        Some(Decoded::Bad(_)) | None => Ok(None),
    }
}

fn record_of(
    alloc: Global,
    checked: &Checked,
    file: &str,
    no: u64,
) -> Result<Option<Record>, NoMemory>
    ensures { IfOk result (λ found. IfSome found (IsRecord (checked_plan checked.now))) }
{
    match opened(alloc, checked, file, 1) {
        Some(cutter) => first_record(alloc, checked, cutter, no),
        None => Ok(None),
    }
}

/// The record of a line under this header.
pub(crate) fn record(
    alloc: Global,
    checked: &Checked,
    header: &str,
    line: &str,
    no: u64,
) -> Result<Record, Stop>
    ensures { IfOk result (IsRecord (checked_plan checked.now)) }
{
    let file = format!(in alloc; "{header}\n{line}")?;
    match record_of(alloc, checked, file.as_str(), no)? {
        Some(rec) => Ok(rec),
        None => Err(Stop::Differs(format!(in alloc; "found {line}, wanted a record")?)),
    }
}

/// Whether each of the segment's paths fits the script.
pub(crate) fn fits(checked: &Checked, segment: &Segment) -> bool
    ensures { IsTrue result ↔ SegmentFits (checked_plan checked.now) segment.now }
{
    segment.paths().iter().all(|path| path.fits(checked))
}

/// The segment of one record, which is the same over memory that other records and scripts have
/// used.
fn first(
    alloc: Global,
    checked: &Checked,
    rec: &Record,
    used: &mut Scratch,
) -> Result<Segment, Stop>
    requires { IsRecord (checked_plan checked.now) rec.now }
{
    let segment = fresh(alloc, checked, rec)?;
    let same = fresh_with(alloc, checked, rec, used)? == segment;
    holds(
        alloc,
        same,
        "found another segment by fresh_with than by fresh",
    )?;
    Ok(segment)
}

/// Whether the call that gives a segment back if the longer one has too many paths does so.
fn is_extended(
    alloc: Global,
    checked: &Checked,
    segment: &Segment,
    rec: &Record,
    limit: u32,
    used: &mut Scratch,
    grown: &Grown,
) -> Result<bool, NoMemory>
    requires segment { SegmentFits (checked_plan checked.now) segment.now }
    requires rec { IsRecord (checked_plan checked.now) rec.now }
{
    match extend_within(alloc, checked, segment.copy(alloc)?, rec, limit, used)? {
        Extension::Fits(longer) => Ok(Grown::Fits(longer) == *grown),
        Extension::Over(same) => match grown {
            Grown::Fits(_) => Ok(false),
            Grown::Over(_) => Ok(same == *segment),
        },
    }
}

/// Stops where the calls that take a segment of their own give something else.
fn is_grown(
    alloc: Global,
    checked: &Checked,
    segment: &Segment,
    rec: &Record,
    limit: u32,
    used: &mut Scratch,
    grown: &Grown,
) -> Result<(), Stop>
    requires segment { SegmentFits (checked_plan checked.now) segment.now }
    requires rec { IsRecord (checked_plan checked.now) rec.now }
{
    let same = grow(alloc, checked, segment.copy(alloc)?, rec, limit)? == *grown;
    holds(alloc, same, "found another segment by grow than by extend")?;
    let same = grow_with(alloc, checked, segment.copy(alloc)?, rec, limit, used)? == *grown;
    holds(
        alloc,
        same,
        "found another segment by grow_with than by extend",
    )?;
    let same = is_extended(alloc, checked, segment, rec, limit, used, grown)?;
    holds(
        alloc,
        same,
        "found another segment by extend_within than by extend",
    )
}

/// The segment of one record more.
fn longer(
    alloc: Global,
    checked: &Checked,
    segment: &Segment,
    rec: &Record,
    limit: u32,
    used: &mut Scratch,
) -> Result<Grown, Stop>
    requires { IsRecord (checked_plan checked.now) rec.now }
{
    if !fits(checked, segment) {
        return Err(Stop::Differs(String::from_str(
            alloc,
            "found a segment that doesn't fit the script",
        )?));
    }
    let grown = extend(alloc, checked, segment, rec, limit)?;
    is_grown(alloc, checked, segment, rec, limit, used, &grown)?;
    Ok(grown)
}

/// Adds a segment for the record.
fn begin(
    alloc: Global,
    checked: &Checked,
    segments: &mut Vec<Segment>,
    rec: &Record,
    used: &mut Scratch,
) -> Result<(), Stop>
    requires { IsRecord (checked_plan checked.now) rec.now }
{
    segments.push(first(alloc, checked, rec, used)?)?;
    Ok(())
}

/// Takes the longer segment in the place of the last one, or adds one for the record where the
/// longer one has too many paths.
fn go_on(
    alloc: Global,
    checked: &Checked,
    segments: &mut Vec<Segment>,
    grown: Grown,
    rec: &Record,
    used: &mut Scratch,
) -> Result<(), Stop>
    requires { IsRecord (checked_plan checked.now) rec.now }
{
    match grown {
        Grown::Fits(segment) => {
            let _last = segments.pop();
            segments.push(segment)?;
            Ok(())
        }
        Grown::Over(_found) => begin(alloc, checked, segments, rec, used),
    }
}

/// Adds a record to the last of the segments, or a segment for it where that one would have too
/// many paths.
fn add(
    alloc: Global,
    checked: &Checked,
    segments: &mut Vec<Segment>,
    rec: &Record,
    limit: u32,
    used: &mut Scratch,
) -> Result<(), Stop>
    requires { IsRecord (checked_plan checked.now) rec.now }
{
    let Some(last) = segments.last() else {
        return begin(alloc, checked, segments, rec, used);
    };
    let grown = longer(alloc, checked, last, rec, limit, used)?;
    go_on(alloc, checked, segments, grown, rec, used)
}

/// The records of a script, and the segments that they make.
#[derive(Drop)]
struct Exploration {
    records: Vec<Record>,
    segments: Vec<Segment>,
}

fn add_line(
    alloc: Global,
    checked: &Checked,
    case: &Case,
    line: &str,
    no: u64,
    used: &mut Scratch,
    explored: &mut Exploration,
) -> Result<(), Stop> {
    let rec = record(alloc, checked, case.header, line, no)?;
    add(
        alloc,
        checked,
        &mut explored.segments,
        &rec,
        case.limit,
        used,
    )?;
    explored.records.push(rec)?;
    Ok(())
}

/// Adds the records, which are numbered from 1, and their segments.
fn add_lines(
    alloc: Global,
    checked: &Checked,
    case: &Case,
    used: &mut Scratch,
    explored: &mut Exploration,
) -> Result<(), Stop> {
    let mut no = 0u64;
    'lines: for line in case.lines.split_whitespace() {
        no = no.saturating_add(1);
        add_line(alloc, checked, case, line, no, used, explored)?;
    }
    Ok(())
}

/// What a state comes to by the records, one after the other.
fn stepped(
    alloc: Global,
    checked: &Checked,
    records: &[Record],
    state: State,
) -> Result<Outcome, NoMemory> {
    let mut outcome = Outcome::Going(state);
    'records: for rec in records {
        outcome = match outcome {
            Outcome::Going(state) => step(alloc, checked, state, rec)?,
            Outcome::Ended(fault) => Outcome::Ended(fault),
        };
    }
    Ok(outcome)
}

/// The only path that admits the state.
fn only_path<'a>(checked: &Checked, segment: &'a Segment, state: &State) -> Option<&'a Path> {
    let mut found = None;
    'paths: for path in segment.paths() {
        if path.admits(checked, state) {
            if found.is_some() {
                return None;
            }
            found = Some(path);
        }
    }
    found
}

/// What the only path that admits the state gives there.
fn given(
    alloc: Global,
    checked: &Checked,
    segment: &Segment,
    state: &State,
) -> Result<Outcome, Stop>
    requires { IsValid (checked_plan checked.now) state.now }
    ensures { IfOk result (IsValidOutcome (checked_plan checked.now)) }
{
    match only_path(checked, segment, state) {
        Some(path) if path.fits(checked) && path.admits(checked, state) => {
            Ok(path.gives(alloc, checked, state)?)
        }
        _ => Err(Stop::Differs(String::from_str(
            alloc,
            "found no path or several of a segment, wanted one for a state",
        )?)),
    }
}

/// What the segment's records make of a state that is given away.
fn led(alloc: Global, checked: &Checked, segment: &Segment, state: State) -> Result<Outcome, Stop>
    requires { IsValid (checked_plan checked.now) state }
    ensures { IfOk result (IsValidOutcome (checked_plan checked.now)) }
{
    if !fits(checked, segment) {
        return Err(Stop::Differs(String::from_str(
            alloc,
            "found a segment that doesn't fit the script",
        )?));
    }
    let mut outcome = Outcome::Going(state);
    segment.lead(alloc, checked, &mut outcome)?;
    Ok(outcome)
}

/// Stops where the outcome isn't the wanted one.
fn same_outcomes(alloc: Global, found: &Outcome, wanted: &Outcome) -> Result<(), Stop> {
    if found == wanted {
        return Ok(());
    }
    let found = outcome_text(alloc, found)?;
    let wanted = outcome_text(alloc, wanted)?;
    Err(Stop::Differs(format!(in alloc; "found{found}, wanted{wanted}")?))
}

/// What a state comes to by the segment, by each of the calls.
fn given_of(
    alloc: Global,
    checked: &Checked,
    segment: &Segment,
    state: State,
) -> Result<Outcome, Stop>
    requires { IsValid (checked_plan checked.now) state }
    ensures { IfOk result (IsValidOutcome (checked_plan checked.now)) }
{
    let wanted = given(alloc, checked, segment, &state)?;
    same_outcomes(alloc, &led(alloc, checked, segment, state)?, &wanted)?;
    Ok(wanted)
}

/// What an outcome comes to by the segment.
fn given_next(
    alloc: Global,
    checked: &Checked,
    segment: &Segment,
    outcome: Outcome,
) -> Result<Outcome, Stop>
    requires { IsValidOutcome (checked_plan checked.now) outcome }
    ensures { IfOk result (IsValidOutcome (checked_plan checked.now)) }
{
    match outcome {
        Outcome::Going(state) => given_of(alloc, checked, segment, state),
        Outcome::Ended(fault) => Ok(Outcome::Ended(fault)),
    }
}

/// What a state comes to by the segments, one after the other.
fn given_by_all(
    alloc: Global,
    checked: &Checked,
    segments: &[Segment],
    state: State,
) -> Result<Outcome, Stop>
    requires { IsValid (checked_plan checked.now) state }
{
    let mut outcome = Outcome::Going(state);
    'segments: for segment in segments {
        outcome = given_next(alloc, checked, segment, outcome)?;
    }
    Ok(outcome)
}

/// A state's number, label and part; a cell of each kind that the script has holds one of them.
#[derive(Clone, Copy, Debug)]
struct Held {
    number: i64,
    label: u8,
    part: i64,
}

fn number_parts(alloc: Global, part: i64) -> Result<Values, NoMemory> {
    let mut parts = Values::new(alloc);
    parts.push(Value::Num(part))?;
    Ok(parts)
}

/// A form that gives a cell what is held, in the place of one of its kind.
fn constant(alloc: Global, form: &Form, held: Held) -> Result<Form, Stop> {
    match form {
        Form::Enum(_) => Ok(Form::Enum(EnumForm::Const(held.label))),
        Form::Int(_) => Ok(Form::Int(number(alloc, 0, 0, held.number)?)),
        Form::Hold(_) => Ok(Form::Hold(HoldForm::Const(number_parts(alloc, held.part)?))),
        Form::Nums(_) => Ok(Form::Nums(ListForm::same(alloc))),
        Form::Words(_) => Ok(Form::Words(ListForm::same(alloc))),
    }
}

fn constants(alloc: Global, forms: &[Form], held: Held) -> Result<Vec<Form>, Stop> {
    let mut constants = Vec::new(alloc);
    'forms: for form in forms {
        constants.push(constant(alloc, form, held)?)?;
    }
    Ok(constants)
}

fn constant_end(alloc: Global, end: &PathEnd, held: Held) -> Result<PathEnd, Stop> {
    match end {
        PathEnd::Next(forms) => {
            let constants = constants(alloc, forms.as_slice(), held)?;
            Ok(PathEnd::Next(Sequence::of(constants)))
        }
        PathEnd::Ended(fault) => Ok(PathEnd::Ended(*fault)),
    }
}

/// The path for every state after which each cell holds what is held.
fn holding(alloc: Global, checked: &Checked, held: Held) -> Result<Path, Stop> {
    let mut path = Path::all(alloc, checked)?;
    path.end = constant_end(alloc, &path.end, held)?;
    Ok(path)
}

/// How many elements the lists of a state have.
fn elements(state: &State) -> usize {
    let mut count = 0usize;
    'cells: for cell in state.cells.as_slice() {
        let more = match cell {
            Cell::Nums(numbers) => numbers.len(),
            Cell::Words(words) => words.len(),
            Cell::Enum(_) | Cell::Int(_) | Cell::Hold(_) => 0,
        };
        count = count.wrapping_add(more);
    }
    count
}

/// What is found so far, and this outcome.
fn counted(tally: Tally, outcome: &Outcome) -> Tally {
    match outcome {
        Outcome::Going(state) => Tally {
            faults: tally.faults,
            pushed: tally.pushed.wrapping_add(elements(state)),
        },
        Outcome::Ended(_) => Tally {
            faults: tally.faults.wrapping_add(1),
            pushed: tally.pushed,
        },
    }
}

/// Adds what a state comes to, by the segments as by the steps.
fn tally_state(
    alloc: Global,
    checked: &Checked,
    explored: &Exploration,
    state: State,
    tally: Tally,
) -> Result<Tally, Stop>
    requires { IsValid (checked_plan checked.now) state }
{
    let wanted = stepped(
        alloc,
        checked,
        explored.records.as_slice(),
        state.copy(alloc)?,
    )?;
    let found = given_by_all(alloc, checked, explored.segments.as_slice(), state)?;
    same_outcomes(alloc, &found, &wanted)?;
    Ok(counted(tally, &found))
}

fn tally_held(
    alloc: Global,
    checked: &Checked,
    explored: &Exploration,
    held: Held,
    tally: Tally,
) -> Result<Tally, Stop> {
    let path = holding(alloc, checked, held)?;
    match state_by(alloc, checked, &path)? {
        Some(state) => tally_state(alloc, checked, explored, state, tally),
        None => Err(Stop::Differs(format!(in alloc; "found {held:?}, wanted a state")?)),
    }
}

fn tally_labels(
    alloc: Global,
    case: &Case,
    checked: &Checked,
    explored: &Exploration,
    held: Held,
    tally: Tally,
) -> Result<Tally, Stop> {
    let mut tally = tally;
    'labels: for label in 0..case.labels {
        let held = Held { label, ..held };
        tally = tally_held(alloc, checked, explored, held, tally)?;
    }
    Ok(tally)
}

fn tally_numbers(
    alloc: Global,
    case: &Case,
    checked: &Checked,
    explored: &Exploration,
    part: i64,
    tally: Tally,
) -> Result<Tally, Stop> {
    let mut tally = tally;
    let (first, last) = case.numbers;
    'numbers: for number in first..last {
        let held = Held {
            number,
            label: 0,
            part,
        };
        tally = tally_labels(alloc, case, checked, explored, held, tally)?;
    }
    Ok(tally)
}

fn tally_parts(
    alloc: Global,
    case: &Case,
    checked: &Checked,
    explored: &Exploration,
) -> Result<Tally, Stop> {
    let mut tally = Tally {
        faults: 0,
        pushed: 0,
    };
    'parts: for part in case.parts {
        tally = tally_numbers(alloc, case, checked, explored, *part, tally)?;
    }
    Ok(tally)
}

/// How many segments there are, and how many paths the last one has.
#[derive(Clone, Copy, Debug, PartialEq, Eq)]
struct Sizes {
    segments: usize,
    paths: usize,
}

fn sizes_of(segments: &[Segment]) -> Sizes {
    let paths = match segments.last() {
        Some(last) => last.paths().len(),
        None => 0,
    };
    Sizes {
        segments: segments.len(),
        paths,
    }
}

fn is_explored(
    alloc: Global,
    case: &Case,
    checked: &Checked,
    explored: &Exploration,
) -> Result<(), Stop> {
    let sizes = Sizes {
        segments: case.segments,
        paths: case.paths,
    };
    let found = sizes_of(explored.segments.as_slice());
    none_told(difference(alloc, &found, &sizes))?;
    let tally = Tally {
        faults: case.faults,
        pushed: case.pushed,
    };
    let found = tally_parts(alloc, case, checked, explored)?;
    none_told(difference(alloc, &found, &tally))
}

fn case_holds(
    alloc: Global,
    case: &Case,
    checked: &Checked,
    used: &mut Scratch,
) -> Result<(), Stop> {
    let mut explored = Exploration {
        records: Vec::new(alloc),
        segments: Vec::new(alloc),
    };
    add_lines(alloc, checked, case, used, &mut explored)?;
    is_explored(alloc, case, checked, &explored)
}

fn case_differs(
    alloc: Global,
    case: &Case,
    used: &mut Scratch,
) -> Result<Option<String>, NoMemory> {
    match accepted(alloc, case.script) {
        Some(checked) => told_of(case_holds(alloc, case, &checked, used)),
        None => refused(alloc, case.script),
    }
}

/// Memory with values and a path in it that no script has put there.
fn used_scratch(alloc: Global) -> Result<Scratch, NoMemory> {
    let mut used = Scratch::new(alloc);
    used.locals
        .push(Value::Word(Text::from_str(alloc, "old")?))?;
    used.locals.push(Value::Num(7))?;
    used.args.push(Value::Label(3))?;
    let fault = Fault {
        kind: FaultKind::Arith,
        no: 7,
    };
    used.going.push(Path {
        when: Sequence::new(alloc),
        end: PathEnd::Ended(fault),
    })?;
    Ok(used)
}

/// What is said of the first case whose segments don't give what the steps give, or whose numbers
/// are others. One case after the other uses the same memory.
pub(crate) fn first_of(alloc: Global, cases: &[Case]) -> Result<Option<String>, NoMemory> {
    let mut used = used_scratch(alloc)?;
    'cases: for (place, case) in cases.iter().enumerate() {
        let told = case_differs(alloc, case, &mut used)?;
        if told.is_some() {
            return told_at(alloc, place, told);
        }
    }
    Ok(None)
}
