//! The scripts that are measured.
use crate::stop::Stop;
use std::alloc::Global;
use sym_base::SCRIPT_MAX;
use sym_check::Checked;
use sym_uses::sizes::checked_text;

/// Sessions of a user: of every state two paths go on, until the first session ends one more ends
/// at each record, and then each path is that of one state.
pub(crate) const SESSIONS: &str = "field ts: num; field user: word; group user; \
    state last: hold(num = 0); state n: int [0..1000] = 0; state done: nums [0..1000]; \
    test gap(h: num, t: num) = t - h > 30; \
    update { if gap(last, ts) { push done n; n = 1; } else { n = n + 1; } keep last(ts); } \
    report { sessions = count(done); open = n; longest = max(done); }";

/// A mode that changes with each record: two paths, one for each mode.
const MODES: &str = "enum mode { idle, busy } field x: num; state phase: mode = idle; \
    update { if phase is idle { phase = busy; } else { phase = idle; } } \
    report { phase = phase; }";

/// A counter that leaves its range: after four records four paths, which all have ended.
const COUNTER: &str = "field x: num; state n: int [0..3] = 0; update { n = n + 1; } \
    report { n = n; }";

/// A number that is mirrored and kept in a list: one path, whose number stays unknown.
const MIRROR: &str = "field x: num; state n: int [0..10] = 3; state xs: nums [0..10]; \
    update { push xs n; n = 10 - n; } report { n = n; last = last(xs); }";

/// A number and a list, for paths that are made by hand.
pub(crate) const LISTS: &str = "field x: num; state n: int [0..1000000] = 0; \
    state xs: nums [0..1000000]; update { push xs x; } report { n = n; }";

/// The script of a name.
pub(crate) fn text_of(name: &str) -> Result<&'static str, Stop> {
    if name == "sessions" {
        Ok(SESSIONS)
    } else if name == "modes" {
        Ok(MODES)
    } else if name == "counter" {
        Ok(COUNTER)
    } else if name == "mirror" {
        Ok(MIRROR)
    } else {
        Err(Stop::Usage)
    }
}

/// The plan of a script's text.
pub(crate) fn checked_script(alloc: Global, text: &[u8]) -> Result<Checked, Stop> {
    if text.len() as u64 > SCRIPT_MAX {
        return Err(Stop::Input);
    }
    match checked_text(alloc, text) {
        Ok(checked) => Ok(checked),
        Err(_) => Err(Stop::Input),
    }
}
