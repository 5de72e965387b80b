//! From a script's text to its plan: how large the script is, and how many paths a record has.
ghost use Rattle.std.specs.Prelude.{◌≡◌, ◌≢◌, ◌<◌, ◌≤◌, ◌^◌, length, IfOk, IsErrOf};
ghost use Rattle.sym_base.specs.declared.limits.TheConstants as limit;
ghost use Rattle.sym_check.specs.Checking.CheckedScripts.{checked_plan};
ghost use Rattle.sym_check.specs.declared.elaborate.error.CheckErr.{CheckErr as Fault};
ghost use Rattle.sym_check.specs.declared.elaborate.error.CheckErr.TheVariants as fault;
ghost use Rattle.sym_uses.specs.Checking.{IsPlanOf, IsSizeOf, Breaks};

use std::alloc::Global;
use sym_check::{CheckErr, Checked, check};
use sym_parse::{ParseErr, parse};

/// Why a text has no plan.
#[derive(Debug, PartialEq, Eq, Drop)]
pub enum Refused {
    /// It is no script.
    Text(ParseErr),
    /// Its script breaks a rule.
    Rule(CheckErr),
}

/// How large a script is.
#[derive(Clone, Copy, Debug, PartialEq, Eq)]
pub struct Size {
    pub cells: usize,
    pub tests: usize,
    /// How many paths the symbolic execution of one record can have at most.
    pub paths: u32,
}

/// The script of a text, with its plan.
pub fn checked_text(alloc: Global, text: &[u8]) -> Result<Checked, Refused>
    requires { length text.now < 2 ^ 32 }
    ensures plan { IfOk result (λ checked. IsPlanOf text.now (checked_plan checked)) }
    ensures rule { (f : Fault) → IsErrOf result (Refused.Rule f) → f ≢ fault.NoMemory →
        Breaks text.now f }
{
    let script = match parse(alloc, text) {
        Ok(script) => script,
        Err(error) => return Err(Refused::Text(error)),
    };
    match check(alloc, script) {
        Ok(checked) => Ok(checked),
        Err(broken) => Err(Refused::Rule(broken)),
    }
}

/// The size of a text's script.
pub fn size_of_text(alloc: Global, text: &[u8]) -> Result<Size, Refused>
    requires { length text.now < 2 ^ 32 }
    ensures size { IfOk result (λ size. IsSizeOf text.now size) }
    ensures few { IfOk result (λ size. size.paths ≤ limit.PATHS_MAX) }
{
    let checked = checked_text(alloc, text)?;
    let plan = checked.plan();
    Ok(Size {
        cells: plan.cells.len(),
        tests: plan.tests.len(),
        paths: checked.path_bound(),
    })
}

#[cfg(test)]
mod tests {
    use super::*;

    #[test]
    fn a_text_is_read_checked_and_measured(rt: HostRuntime) {
        let text = "field ts: num; state last: hold(num = 0); state n: int [0..1000] = 0; \
                    test gap(h: num, t: num) = t - h > 30; \
                    update { if gap(last, ts) { n = n + 1; } keep last(ts); } report { n = n; }";
        let size = Size {
            cells: 2,
            tests: 1,
            paths: 4,
        };
        assert_eq!(rt; size_of_text(rt.alloc(), text.as_bytes()), Ok(size));
    }

    #[test]
    fn a_number_that_clamps_has_three_paths(rt: HostRuntime) {
        let text = "field x: num; state n: int [0..3] = 0 clamp; \
                    update { n = n + 1; } report { n = n; }";
        let size = Size {
            cells: 1,
            tests: 0,
            paths: 3,
        };
        assert_eq!(rt; size_of_text(rt.alloc(), text.as_bytes()), Ok(size));
    }

    #[test]
    fn a_text_is_refused_where_it_stops_or_breaks_a_rule(rt: HostRuntime) {
        let unread = size_of_text(rt.alloc(), "field x num;".as_bytes());
        assert_eq!(rt; unread, Err(Refused::Text(ParseErr::Expected { at: 8 })));
        let text = "field x: num; state n: int [0..3] = 0; update { n = m; } report { n = n; }";
        let broken = size_of_text(rt.alloc(), text.as_bytes());
        assert_eq!(rt; broken, Err(Refused::Rule(CheckErr::Name { at: 52 })));
    }
}
