//! Saved runs that are taken, and those that no group can be led through.
ghost use Rattle.std.specs.Prelude.{IfOk, IfSome};
ghost use Rattle.sym_check.specs.Checking.CheckedScripts.{checked_plan};
ghost use Rattle.sym_file.specs.Totals.{IfDone};
ghost use Rattle.sym_run.specs.Applying.{AreValid};

use crate::setting::saved_of;
use std::alloc::Global;
use std::test::Fail;
use sym_base::{Cell, NoMemory, Outcome};
use sym_check::Checked;
use sym_file::{Taken, Totals};
use sym_given::saved::KEPT;
use sym_given::scripts::SHORT_SESSIONS;
use sym_given::{Case, check_cases, difference, found_unless};

/// What the totals say of the first group.
#[derive(Clone, Copy, Debug, PartialEq, Eq)]
enum Stands {
    /// Its first cell has this number.
    Number(i64),
    /// It ended at this record.
    Ended(u64),
    /// This group was a gap.
    Gap(u64),
    /// None of these.
    Otherwise,
}

/// What the texts of saved runs come to, taken in turn.
#[derive(Drop)]
struct Taking<'a> {
    script: &'static str,
    parts: &'a [&'static str],
    wanted: Stands,
}

/// What taking the saved run of this text comes to; `None` where the text has none.
fn take_next(
    alloc: Global,
    checked: &Checked,
    totals: Totals,
    text: &str,
) -> Result<Option<Taken>, NoMemory>
    requires { AreValid (checked_plan checked.now) totals }
    ensures { IfOk result (λ found.
        IfSome found (λ taken. IfDone taken (AreValid (checked_plan checked.now)))) }
{
    let Some(saved) = saved_of(alloc, checked, text.as_bytes())? else {
        return Ok(None);
    };
    if !saved.is_lawful(checked) {
        return Ok(None);
    }
    Ok(Some(totals.take(alloc, checked, &saved)?))
}

fn take_all(alloc: Global, checked: &Checked, parts: &[&str]) -> Result<Option<Taken>, NoMemory> {
    let mut totals = Totals::new(alloc);
    'parts: for part in parts {
        match take_next(alloc, checked, totals, part)? {
            Some(Taken::Done(more)) => totals = more,
            Some(Taken::Gap { group }) => return Ok(Some(Taken::Gap { group })),
            None => return Ok(None),
        }
    }
    Ok(Some(Taken::Done(totals)))
}

fn stands_in(outcome: &Outcome) -> Stands {
    match outcome {
        Outcome::Going(state) => match state.cells.get(0) {
            Some(Cell::Int(number)) => Stands::Number(*number),
            _ => Stands::Otherwise,
        },
        Outcome::Ended(fault) => Stands::Ended(fault.no),
    }
}

fn first_of(taken: &Taken) -> Stands {
    match taken {
        Taken::Done(totals) => match totals.at(0) {
            Some((_key, outcome)) => stands_in(outcome),
            None => Stands::Otherwise,
        },
        Taken::Gap { group } => Stands::Gap(*group),
    }
}

impl<'a> Case for Taking<'a> {
    fn script(&self) -> &str {
        self.script
    }

    fn differs(&self, alloc: Global, checked: &Checked) -> Result<Option<String>, NoMemory> {
        match take_all(alloc, checked, self.parts)? {
            Some(taken) => difference(alloc, &first_of(&taken), &self.wanted),
            None => found_unless(alloc, false, "found a text without a lawful saved run"),
        }
    }
}

const STAYS: &str = "first 1\nnext 3\ngroups 1\nkey\nchain 1\nsegment 1\n\
    when i0..3\nnext x0,1,0\nend\n";

const FROM_ONE: &str = "first 1\nnext 3\ngroups 1\nkey\nchain 1\nsegment 1\n\
    when i1..3\nnext x0,1,0\nend\n";

const TO_TWO: &str = "first 1\nnext 3\ngroups 1\nkey\nchain 1\nsegment 2\n\
    when i0..2\nnext n2\nwhen i0..3\nnext n1\nend\n";

const ONE_THEN_THREE: &str = "first 1\nnext 3\ngroups 1\nkey\nchain 2\n\
    segment 1\nwhen i0..3\nnext n1\nsegment 1\nwhen i1..1\nnext n3\nend\n";

const ONE_THEN_NONE: &str = "first 1\nnext 3\ngroups 1\nkey\nchain 2\n\
    segment 1\nwhen i0..3\nnext n1\nsegment 1\nwhen i2..3\nnext n3\nend\n";

const ENDS: &str = "first 1\nnext 3\ngroups 1\nkey\nchain 1\nsegment 1\n\
    when i0..3\nover 0 2\nend\n";

#[test]
fn a_state_is_led_by_the_first_path_that_admits_it(rt: HostRuntime) -> Result<(), Fail> {
    let of = |parts, wanted| Taking {
        script: KEPT,
        parts,
        wanted,
    };
    let cases = [
        of(&[STAYS], Stands::Number(0)),
        of(&[STAYS, STAYS], Stands::Number(0)),
        of(&[TO_TWO], Stands::Number(2)),
        of(&[TO_TWO, FROM_ONE], Stands::Number(2)),
        of(&[ONE_THEN_THREE], Stands::Number(3)),
        of(&[ONE_THEN_THREE, TO_TWO], Stands::Number(1)),
    ];
    check_cases(rt.alloc(), &cases)
}

#[test]
fn a_state_that_no_path_admits_is_a_gap(rt: HostRuntime) -> Result<(), Fail> {
    let of = |parts, wanted| Taking {
        script: KEPT,
        parts,
        wanted,
    };
    let cases = [
        of(&[FROM_ONE], Stands::Gap(0)),
        of(&[STAYS, FROM_ONE], Stands::Gap(0)),
        of(&[ONE_THEN_NONE], Stands::Gap(0)),
        of(&[ENDS, FROM_ONE], Stands::Ended(2)),
        of(&[ENDS, ONE_THEN_NONE], Stands::Ended(2)),
    ];
    check_cases(rt.alloc(), &cases)
}

const SECOND_GAP: &str = "first 1\nnext 3\ngroups 3\n\
    key w1:a\nchain 1\nsegment 1\nwhen f0 i0..12 v\nnext k0 x1,1,0 a0\n\
    key w1:b\nchain 1\nsegment 1\nwhen f0 i1..12 v\nnext k0 x1,1,0 a0\n\
    key w1:c\nchain 1\nsegment 1\nwhen f0 i1..12 v\nnext k0 x1,1,0 a0\nend\n";

#[test]
fn the_first_gap_is_told(rt: HostRuntime) -> Result<(), Fail> {
    let cases = [Taking {
        script: SHORT_SESSIONS,
        parts: &[SECOND_GAP],
        wanted: Stands::Gap(1),
    }];
    check_cases(rt.alloc(), &cases)
}
