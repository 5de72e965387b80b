//! What operators and functions of the report make of their operands.
ghost use Rattle.std.specs.Prelude.{◌≡◌, IfOk, map};
ghost use Rattle.sym_check.specs.Elaborate.Reports.{shown_number, shown, calculated_by, part_seen, part_at, part_by, of_word_list, of_list, of_parts, applied};
ghost use Rattle.sym_check.specs.Rules.Reports.{list_function, is_part};
ghost use Rattle.sym_check.specs.Checking.Showing.{seen_plan, negative, of_one_list, of_numeral, of_hold};
ghost use Rattle.sym_check.specs.Plan.ShowPlans as plan;
ghost use Rattle.sym_check.specs.Plan.ShowPlans.{show_plan};
ghost use Rattle.sym_check.specs.Checking.TypedPlans.{Answers};
ghost use Rattle.sym_check.specs.Rules.Typing.{arith_of};

use crate::elaborate::error::CheckErr;
use crate::elaborate::seen::{HoldParts, Seen};
use crate::plan::expression::ArithOp;
use crate::plan::script::KindPlan;
use crate::plan::show::{Show, ShowFn};
use std::alloc::Global;
use sym_base::{BinOp, NoMemory};

/// The number, where this is one.
pub(crate) fn shown_number(at: u32, seen: Seen) -> Result<Show, CheckErr>
    ensures { Answers show_plan (shown_number at (seen_plan seen)) result }
{
    match seen {
        Seen::Numeral(number, _) => Ok(Show::Num(number)),
        Seen::Number(show) => Ok(show),
        Seen::Word(_) | Seen::NumList(_) | Seen::WordList(_) | Seen::Parts(_) => {
            Err(CheckErr::Kind { at })
        }
    }
}

/// The value of a column whose expression stands at this place.
pub(crate) fn shown(at: u32, seen: Seen) -> Result<Show, CheckErr>
    ensures { Answers show_plan (shown at (seen_plan seen)) result }
{
    match seen {
        Seen::Numeral(number, _) => Ok(Show::Num(number)),
        Seen::Number(show) | Seen::Word(show) => Ok(show),
        Seen::NumList(cell) | Seen::WordList(cell) => Ok(Show::Cell(cell)),
        Seen::Parts(_) => Err(CheckErr::Kind { at }),
    }
}

fn opposite(alloc: Global, show: Show) -> Result<Show, NoMemory>
    ensures { IfOk result (λ s. show_plan s ≡ plan.Neg (show_plan show)) }
{
    Ok(Show::Neg(Box::new(alloc, show)?))
}

/// What unary `-` makes of its operand.
pub(crate) fn negative(alloc: Global, at: u32, seen: Seen) -> Result<Seen, CheckErr>
    ensures { Answers seen_plan (negative at (seen_plan seen)) result }
{
    let show = shown_number(at, seen)?;
    Ok(Seen::Number(opposite(alloc, show)?))
}

fn arith_of(operator: BinOp) -> Option<ArithOp>
    ensures { result ≡ arith_of operator }
{
    match operator {
        BinOp::Add => Some(ArithOp::Add),
        BinOp::Sub => Some(ArithOp::Sub),
        BinOp::Mul => Some(ArithOp::Mul),
        BinOp::Div => Some(ArithOp::Div),
        BinOp::Rem => Some(ArithOp::Rem),
        BinOp::Or
        | BinOp::And
        | BinOp::Eq
        | BinOp::Ne
        | BinOp::Lt
        | BinOp::Le
        | BinOp::Gt
        | BinOp::Ge
        | BinOp::Is => None,
    }
}

fn calculation(alloc: Global, operator: ArithOp, left: Show, right: Show) -> Result<Show, NoMemory>
    ensures { let whole = plan.Bin operator (show_plan left) (show_plan right) in
        IfOk result (λ s. show_plan s ≡ whole) }
{
    let left = Box::new(alloc, left)?;
    Ok(Show::Bin(operator, left, Box::new(alloc, right)?))
}

/// What an operator makes of its operands.
pub(crate) fn calculated(
    alloc: Global,
    operator: BinOp,
    at: u32,
    left: Seen,
    right: Seen,
) -> Result<Seen, CheckErr>
    ensures { let whole = calculated_by at (arith_of operator) (seen_plan left) (seen_plan right) in
        Answers seen_plan whole result }
{
    let Some(operator) = arith_of(operator) else {
        return Err(CheckErr::Kind { at });
    };
    let left = shown_number(at, left)?;
    let right = shown_number(at, right)?;
    Ok(Seen::Number(calculation(alloc, operator, left, right)?))
}

fn part_seen(kind: KindPlan, show: Show) -> Seen
    ensures { seen_plan result ≡ part_seen kind (show_plan show) }
{
    match kind {
        KindPlan::Num => Seen::Number(show),
        KindPlan::Word | KindPlan::Label(_) => Seen::Word(show),
    }
}

// The part with this number, counted from 1; the place is the number's.
fn part_at(place: u32, parts: &HoldParts, number: u16) -> Result<Seen, CheckErr>
    ensures { Answers seen_plan (part_at place parts.now.cell parts.now.kinds number) result }
{
    if number == 0 {
        return Err(CheckErr::Range { at: place });
    }
    match parts.kinds.get(usize::from(number) - 1) {
        Some(kind) => Ok(part_seen(*kind, Show::Part(parts.cell, number))),
        None => Err(CheckErr::Range { at: place }),
    }
}

fn part_by(at: u32, place: u32, parts: &HoldParts, number: i64) -> Result<Seen, CheckErr>
    ensures { let part = part_by at place parts.now.cell parts.now.kinds number in
        Answers seen_plan part result }
{
    if number < 0 {
        return Err(CheckErr::Kind { at });
    }
    match u16::try_from(number) {
        Ok(number) => part_at(place, parts, number),
        Err(_) => Err(CheckErr::Range { at: place }),
    }
}

fn of_word_list(at: u32, function: ShowFn, cell: u16) -> Result<Seen, CheckErr>
    ensures { Answers seen_plan (of_word_list at function cell) result }
{
    match function {
        ShowFn::Count => Ok(Seen::Number(Show::Call(function, cell))),
        ShowFn::First | ShowFn::Last => Ok(Seen::Word(Show::Call(function, cell))),
        ShowFn::Sum | ShowFn::Min | ShowFn::Max => Err(CheckErr::Kind { at }),
    }
}

fn of_one_list(at: u32, function: ShowFn, list: &Seen) -> Result<Seen, CheckErr>
    ensures { Answers seen_plan (of_one_list at function (seen_plan list.now)) result }
{
    match list {
        Seen::NumList(cell) => Ok(Seen::Number(Show::Call(function, *cell))),
        Seen::WordList(cell) => of_word_list(at, function, *cell),
        Seen::Numeral(..) | Seen::Number(_) | Seen::Word(_) | Seen::Parts(_) => {
            Err(CheckErr::Kind { at })
        }
    }
}

fn of_list(at: u32, function: ShowFn, found: &[Seen]) -> Result<Seen, CheckErr>
    ensures { Answers seen_plan (of_list at function (map seen_plan found.now)) result }
{
    match found {
        [list] => of_one_list(at, function, list),
        _ => Err(CheckErr::Kind { at }),
    }
}

fn of_numeral(at: u32, parts: &HoldParts, number: &Seen) -> Result<Seen, CheckErr>
    ensures { let part = of_numeral at parts.now.cell parts.now.kinds (seen_plan number.now) in
        Answers seen_plan part result }
{
    match number {
        Seen::Numeral(number, place) => part_by(at, *place, parts, *number),
        Seen::Number(_) | Seen::Word(_) | Seen::NumList(_) | Seen::WordList(_) | Seen::Parts(_) =>
            Err(CheckErr::Kind { at }),
    }
}

fn of_hold(at: u32, hold: &Seen, number: &Seen) -> Result<Seen, CheckErr>
    ensures { let part = of_hold at (seen_plan hold.now) (seen_plan number.now) in
        Answers seen_plan part result }
{
    match hold {
        Seen::Parts(parts) => of_numeral(at, parts, number),
        Seen::Numeral(..)
        | Seen::Number(_)
        | Seen::Word(_)
        | Seen::NumList(_)
        | Seen::WordList(_) => Err(CheckErr::Kind { at }),
    }
}

fn of_parts(at: u32, found: &[Seen]) -> Result<Seen, CheckErr>
    ensures { Answers seen_plan (of_parts at (map seen_plan found.now)) result }
{
    match found {
        [hold, number] => of_hold(at, hold, number),
        _ => Err(CheckErr::Kind { at }),
    }
}

/// What the function of a call gives for what its arguments come to; `part` where it is none of
/// a list.
pub(crate) fn applied(at: u32, function: Option<ShowFn>, found: &[Seen]) -> Result<Seen, CheckErr>
    ensures { Answers seen_plan (applied at function (map seen_plan found.now)) result }
{
    match function {
        Some(function) => of_list(at, function, found),
        None => of_parts(at, found),
    }
}

/// The function of lists that has this name.
pub(crate) fn list_function(name: &str) -> Option<ShowFn>
    ensures { result ≡ list_function name.now }
{
    match name {
        "count" => Some(ShowFn::Count),
        "sum" => Some(ShowFn::Sum),
        "min" => Some(ShowFn::Min),
        "max" => Some(ShowFn::Max),
        "first" => Some(ShowFn::First),
        "last" => Some(ShowFn::Last),
        _ => None,
    }
}

/// Whether this is the name of the function of hold cells.
pub(crate) fn is_part(name: &str) -> bool
    ensures { result ≡ is_part name.now }
{
    name == "part"
}
