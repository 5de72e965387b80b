//! The passes that are measured: their scripts, and the logs that they read.
ghost use Rattle.std.specs.Prelude.{◌≤◌, IfOk, length};
ghost use Rattle.std.specs.String.{string_bytes};
ghost use Rattle.sym_base.specs.declared.limits.TheConstants as limits;

use crate::scripts::SESSIONS;
use crate::stop::Stop;
use std::alloc::{AllocError, Global};
use sym_base::FILE_MAX;

/// The number of records of each user. Each one adds a path that ends.
const COUNT: &str = "field user: word; group user; state n: int [0..1000000000] = 0; \
    update { n = n + 1; } report { n = n; }";

/// What a user bought after putting something into the cart.
const FUNNEL: &str = "enum action { v, c, b } enum stage { outside, carted } \
    field ts: num; field user: word; field what: action; group user; \
    state at: stage = outside; state bought: nums [0..1000000000]; \
    update { if what is c { at = carted; } \
    else if what is b and at is carted { push bought ts; at = outside; } } \
    report { at = at; purchases = count(bought); last = last(bought); }";

/// One group, with a list of every record.
const LIST: &str = "field ts: num; state all: nums [0..1000000000]; \
    update { push all ts; } report { records = count(all); last = last(all); }";

/// A script, and the log that its pass reads.
#[derive(Clone, Copy)]
pub(crate) struct Workload {
    pub(crate) script: &'static str,
    /// How many users the log has.
    users: u64,
    /// Whether it has a column of actions.
    acts: bool,
}

/// The workload of a name.
pub(crate) fn workload_of(name: &str) -> Result<Workload, Stop> {
    let (script, users, acts) = if name == "sessions" {
        (SESSIONS, 10, false)
    } else if name == "users" {
        (SESSIONS, 98_304, false)
    } else if name == "count" {
        (COUNT, 10, false)
    } else if name == "funnel" {
        (FUNNEL, 1_000, true)
    } else if name == "list" {
        (LIST, 10, false)
    } else {
        return Err(Stop::Usage);
    };
    Ok(Workload {
        script,
        users,
        acts,
    })
}

/// An action by a number: of eight, one puts into the cart and one buys.
fn action_of(number: u64) -> &'static str {
    match number % 8 {
        0 => "c",
        1 => "b",
        _ => "v",
    }
}

/// The log of a workload, of so many records: time goes on by 0 to 7 seconds a record, and the user
/// is drawn, as in bench/visits.awk.
fn log_text(alloc: Global, workload: Workload, records: u32) -> Result<String, AllocError> {
    let head = if workload.acts {
        "ts,user,what\n"
    } else {
        "ts,user\n"
    };
    let mut text = String::from_str(alloc, head)?;
    let mut number = 1u64;
    let mut time = 0u64;
    'records: for _ in 0..records {
        number = number.wrapping_mul(16_807) % 2_147_483_647;
        time = time.wrapping_add(number % 8);
        let user = number / 8 % workload.users.max(1);
        write!(text, "{time},u{user}")?;
        if workload.acts {
            text.push_str(",")?;
            text.push_str(action_of(number / 65_536))?;
        }
        text.push_str("\n")?;
    }
    Ok(text)
}

/// The log of a workload; an error where it has more bytes than a file may have.
pub(crate) fn log_of(alloc: Global, workload: Workload, records: u32) -> Result<String, Stop>
    ensures { IfOk result (λ log. length (string_bytes log) ≤ limits.FILE_MAX) }
{
    let text = log_text(alloc, workload, records)?;
    if text.len() as u64 > FILE_MAX {
        return Err(Stop::Input);
    }
    Ok(text)
}
