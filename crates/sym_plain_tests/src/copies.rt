//! A copy of a checked script, against the script.
use std::alloc::Global;
use std::test::Fail;
use sym_base::{Fields, NoMemory, Outcome, Record, State, Text, Value};
use sym_check::Checked;
use sym_given::{Row, bytes_differ, check_rows, difference, outcome_text};
use sym_parse::print;
use sym_plain::{columns, initial, step};

// Each form of declaration, statement, condition and column.
const SCRIPT: &str = "enum mode { idle, busy } enum tone { low, high } \
    field x from \"X\": num; field y: num else 7; field who: word; \
    field nick: word else \"none\"; field what: mode; field sound: tone else high; group who; \
    state n: int [-99..99] = 1; state phase: mode = idle; state earlier: mode = busy; \
    state pitch: tone = low; state h: hold(num = 1, word = \"a\", mode = idle); \
    state g: hold(num = -1, word = \"\", mode = busy); state xs: nums [-99..99]; \
    state ws: words; test far(a: num, b: word, c: mode, t: num, w: word, m: mode) = \
    a - -t * 2 > 3 and not (b == w) or c is m; \
    update { let z = -x * 2 + y / 3 - x % 2; let name = who; let text = \"t\"; \
    let label = what; let quiet = low; n = -(2 * n) + z; \
    if n == 1 or n < x and not n >= 3 { phase = busy; } \
    else if far(h, x, who, what) { phase = what; } else { earlier = phase; } \
    if what is label and who == text or x != y { pitch = quiet; } \
    if phase is label { pitch = high; keep h(z, name, label); } else { keep g from h; } \
    if n <= 5 { } push xs n + 1; push xs x; push ws name; push ws \"p\"; } \
    report { one = 1; text = \"b\"; n = n; phase = phase; earlier = earlier; pitch = pitch; \
    xs = xs; ws = ws; a = part(h, 1); b = part(h, 2); c = part(g, 3); count = count(ws); \
    sum = sum(xs); least = min(xs); most = max(xs); oldest = first(ws); newest = last(xs); \
    calculated = -n * 2 + 9 / 4 - 9 % 4; }";

fn record(alloc: Global, x: i64) -> Result<Record, NoMemory> {
    let mut fields = Fields::new(alloc);
    fields.push(Value::Num(x))?;
    fields.push(Value::Num(7))?;
    fields.push(Value::Word(Text::from_str(alloc, "ann")?))?;
    fields.push(Value::Word(Text::from_str(alloc, "none")?))?;
    fields.push(Value::Label(1))?;
    fields.push(Value::Label(0))?;
    Ok(Record { no: 1, fields })
}

// The outcome after a record of this number.
fn after(alloc: Global, checked: &Checked, x: i64) -> Result<Outcome, NoMemory> {
    let rec = record(alloc, x)?;
    step(alloc, checked, initial(alloc, checked)?, &rec)
}

// How the columns of the copy's state differ.
fn columns_differ(
    alloc: Global,
    checked: &Checked,
    copied: &Checked,
    state: &State,
    other: &State,
) -> Result<Option<String>, NoMemory> {
    let wanted = columns(alloc, checked, state)?;
    if columns(alloc, copied, other)? != wanted {
        return Ok(Some(String::from_str(
            alloc,
            "found other columns, wanted those of the script",
        )?));
    }
    Ok(None)
}

// How the copy's outcome differs, or what is shown of it.
fn outcome_differs(
    alloc: Global,
    checked: &Checked,
    copied: &Checked,
    wanted: &Outcome,
    found: &Outcome,
) -> Result<Option<String>, NoMemory> {
    let wanted_text = outcome_text(alloc, wanted)?;
    let told = difference(alloc, &outcome_text(alloc, found)?, &wanted_text)?;
    match (wanted, found) {
        (Outcome::Going(state), Outcome::Going(same)) if told.is_none() => {
            columns_differ(alloc, checked, copied, state, same)
        }
        _ => Ok(told),
    }
}

fn state_differs(
    alloc: Global,
    checked: &Checked,
    copied: &Checked,
    x: i64,
) -> Result<Option<String>, NoMemory> {
    let outcome = after(alloc, checked, x)?;
    outcome_differs(alloc, checked, copied, &outcome, &after(alloc, copied, x)?)
}

fn text_differs(
    alloc: Global,
    checked: &Checked,
    copied: &Checked,
) -> Result<Option<String>, NoMemory> {
    let told = difference(alloc, &copied.path_bound(), &checked.path_bound())?;
    if told.is_some() {
        return Ok(told);
    }
    let text = print(alloc, checked.script())?;
    bytes_differ(
        alloc,
        print(alloc, copied.script())?.as_slice(),
        text.as_slice(),
    )
}

/// What is the same of a script and of its copy.
enum Same {
    /// The script's text, and its path bound.
    Text,
    /// The state after a record of this number, and its columns.
    State(i64),
}

impl Row for Same {
    fn differs(&self, alloc: Global, checked: &Checked) -> Result<Option<String>, NoMemory> {
        let copied = checked.copy(alloc)?;
        match self {
            Same::Text => text_differs(alloc, checked, &copied),
            Same::State(x) => state_differs(alloc, checked, &copied, *x),
        }
    }
}

#[test]
fn a_copied_script_is_printed_and_bounded_as_the_script(rt: HostRuntime) -> Result<(), Fail> {
    check_rows(rt.alloc(), SCRIPT, &[Same::Text])
}

const STATES: [Same; 3] = [Same::State(-3), Same::State(-1), Same::State(2)];

#[test]
fn a_copied_script_runs_as_the_script(rt: HostRuntime) -> Result<(), Fail> {
    check_rows(rt.alloc(), SCRIPT, &STATES)
}
