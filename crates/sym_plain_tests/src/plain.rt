//! What expressions and tests stand for, and the plain step, over a script that was read and
//! checked.
use std::alloc::Global;
use std::test::Fail;
use sym_base::{Fields, NUM_MAX, NoMemory, Outcome, Record, Text, Value, Values};
use sym_check::{
    ArithOp, Checked, Fixed, FixedValue, Line, Num, Pair, WordOf, fixed, number, pair, test,
};
use sym_given::{Row, check_rows, difference};
use sym_plain::{initial, step};

// A sum for each name, in a range.
const SUMS: &str = "field x: num; field who: word; group who; state n: int [0..9] = 1; \
    update { n = n + x; } report { n = n; }";

fn record(alloc: Global, x: i64) -> Result<Record, NoMemory> {
    let mut fields = Fields::new(alloc);
    fields.push(Value::Num(x))?;
    fields.push(Value::Word(Text::from_str(alloc, "ann")?))?;
    Ok(Record { no: 1, fields })
}

// The value of an expression at a record whose number is -7.
fn value(alloc: Global, checked: &Checked, expression: &Fixed) -> Result<FixedValue, NoMemory> {
    let rec = record(alloc, -7)?;
    fixed(alloc, checked, expression, &rec, &Values::new(alloc))
}

// The field divided by a number.
fn quotient(alloc: Global, divisor: i64) -> Result<Fixed, NoMemory> {
    let field = Box::new(alloc, Num::Field(0))?;
    let divisor = Box::new(alloc, Num::Lit(divisor))?;
    Ok(Fixed::Num(Num::Bin(ArithOp::Div, field, divisor)))
}

// A value beside the one that is wanted; with `None` none, since its arithmetic fails.
fn value_differs(
    alloc: Global,
    found: FixedValue,
    wanted: Option<Value>,
) -> Result<Option<String>, NoMemory> {
    let found = match found {
        FixedValue::Is(value) => Some(value),
        FixedValue::Arith => None,
    };
    difference(alloc, &found, &wanted)
}

fn number_value(wanted: Option<i64>) -> Option<Value> {
    match wanted {
        Some(number) => Some(Value::Num(number)),
        None => None,
    }
}

// The number of a state's cell; `None` if the group ended.
fn sum(outcome: &Outcome) -> Option<i64> {
    match outcome {
        Outcome::Going(state) => Some(state.number_at(0)),
        Outcome::Ended(_) => None,
    }
}

fn sum_after(alloc: Global, checked: &Checked, x: i64) -> Result<Option<i64>, NoMemory> {
    let rec = record(alloc, x)?;
    Ok(sum(&step(alloc, checked, initial(alloc, checked)?, &rec)?))
}

/// What is asked of the script of sums.
enum Asked {
    /// The field that is a word has this one.
    Word(&'static str),
    /// The quotient of -7 by a number; `None` where there is none.
    Quotient(i64, Option<i64>),
    /// The sum after a record of a number; `None` where the group ended.
    Step(i64, Option<i64>),
}

fn word_differs(alloc: Global, checked: &Checked, word: &str) -> Result<Option<String>, NoMemory> {
    let found = value(alloc, checked, &Fixed::Word(WordOf::Field(1)))?;
    let wanted = Value::Word(Text::from_str(alloc, word)?);
    value_differs(alloc, found, Some(wanted))
}

fn quotient_differs(
    alloc: Global,
    checked: &Checked,
    divisor: i64,
    wanted: Option<i64>,
) -> Result<Option<String>, NoMemory> {
    let expression = quotient(alloc, divisor)?;
    let found = value(alloc, checked, &expression)?;
    value_differs(alloc, found, number_value(wanted))
}

impl Row for Asked {
    fn differs(&self, alloc: Global, checked: &Checked) -> Result<Option<String>, NoMemory> {
        match self {
            Asked::Word(word) => word_differs(alloc, checked, word),
            Asked::Quotient(divisor, wanted) => {
                quotient_differs(alloc, checked, *divisor, *wanted)
            }
            Asked::Step(x, wanted) => difference(alloc, &sum_after(alloc, checked, *x)?, wanted),
        }
    }
}

#[test]
fn a_fixed_word_has_its_field(rt: HostRuntime) -> Result<(), Fail> {
    check_rows(rt.alloc(), SUMS, &[Asked::Word("ann")])
}

#[test]
fn a_quotient_is_rounded_towards_zero(rt: HostRuntime) -> Result<(), Fail> {
    check_rows(rt.alloc(), SUMS, &[Asked::Quotient(2, Some(-3))])
}

#[test]
fn a_zero_divisor_has_no_value(rt: HostRuntime) -> Result<(), Fail> {
    check_rows(rt.alloc(), SUMS, &[Asked::Quotient(0, None)])
}

const STEPS: [Asked; 2] = [Asked::Step(2, Some(3)), Asked::Step(9, None)];

#[test]
fn a_step_changes_the_state_or_ends_the_group(rt: HostRuntime) -> Result<(), Fail> {
    check_rows(rt.alloc(), SUMS, &STEPS)
}

// Two fields that are numbers, and tests of two numbers.
const CALLED: &str = "field x: num; field y: num; state last: hold(num = 0); \
    test quotient(h: num, t: num) = h / t != 1; \
    test remainder(h: num, t: num) = not (h % t == 1); \
    test total(h: num, t: num) = h + t != 0; update { keep last(x); } report { one = 1; }";

/// What an operator gives for two numbers; `None` where it fails.
struct Operation(ArithOp, i64, i64, Option<i64>);

const CALCULATED: [Operation; 14] = [
    Operation(ArithOp::Add, NUM_MAX, 0, Some(NUM_MAX)),
    Operation(ArithOp::Add, NUM_MAX, 1, None),
    Operation(ArithOp::Sub, -NUM_MAX, 0, Some(-NUM_MAX)),
    Operation(ArithOp::Sub, -NUM_MAX, 1, None),
    Operation(ArithOp::Mul, NUM_MAX, -1, Some(-NUM_MAX)),
    Operation(ArithOp::Mul, 1_000_001, -1_000_000, None),
    Operation(ArithOp::Div, -7, 2, Some(-3)),
    Operation(ArithOp::Div, 1, 0, None),
    Operation(ArithOp::Div, -1, 0, None),
    Operation(ArithOp::Rem, -7, 2, Some(-1)),
    Operation(ArithOp::Rem, 7, -2, Some(1)),
    Operation(ArithOp::Rem, -7, -2, Some(-1)),
    Operation(ArithOp::Rem, 1, 0, None),
    Operation(ArithOp::Rem, -1, 0, None),
];

// A value that is a number.
fn one(alloc: Global, x: i64) -> Result<Values, NoMemory> {
    let mut values = Values::new(alloc);
    values.push(Value::Num(x))?;
    Ok(values)
}

// A record of two numbers.
fn two(alloc: Global, x: i64, y: i64) -> Result<Record, NoMemory> {
    let mut fields = Fields::new(alloc);
    fields.push(Value::Num(x))?;
    fields.push(Value::Num(y))?;
    Ok(Record { no: 1, fields })
}

// An operator on the two fields.
fn calculated(alloc: Global, operator: ArithOp) -> Result<Num, NoMemory> {
    let left = Box::new(alloc, Num::Field(0))?;
    let right = Box::new(alloc, Num::Field(1))?;
    Ok(Num::Bin(operator, left, right))
}

// The cell 4 times what the operator gives, plus the same.
fn line(alloc: Global, operator: ArithOp) -> Result<Line, NoMemory> {
    let cell = Box::new(alloc, Line::Cell(4))?;
    let scaled = Box::new(alloc, Line::Scale(calculated(alloc, operator)?, cell))?;
    Ok(Line::Add(scaled, calculated(alloc, operator)?))
}

fn number_at(
    alloc: Global,
    checked: &Checked,
    operator: ArithOp,
    rec: &Record,
) -> Result<Option<i64>, NoMemory> {
    let expression = calculated(alloc, operator)?;
    Ok(number(checked, &expression, rec, &Values::new(alloc)).ok())
}

fn fixed_differs(
    alloc: Global,
    checked: &Checked,
    operator: ArithOp,
    rec: &Record,
    wanted: Option<i64>,
) -> Result<Option<String>, NoMemory> {
    let expression = Fixed::Num(calculated(alloc, operator)?);
    let found = fixed(alloc, checked, &expression, rec, &Values::new(alloc))?;
    value_differs(alloc, found, number_value(wanted))
}

fn pair_at(
    alloc: Global,
    checked: &Checked,
    operator: ArithOp,
    rec: &Record,
) -> Result<Option<Pair>, NoMemory> {
    let line = line(alloc, operator)?;
    Ok(pair(checked, &line, rec, &Values::new(alloc)).ok())
}

// The pair of the cell 4 that has this number twice.
fn twice(wanted: Option<i64>) -> Option<Pair> {
    match wanted {
        Some(number) => Some(Pair {
            cell: 4,
            a: number,
            b: number,
        }),
        None => None,
    }
}

// The number, the value and the pair of an expression, by the three calls: the first that isn't as
// wanted.
fn first_differs(
    alloc: Global,
    checked: &Checked,
    operator: ArithOp,
    rec: &Record,
    wanted: Option<i64>,
) -> Result<Option<String>, NoMemory> {
    let told = difference(alloc, &number_at(alloc, checked, operator, rec)?, &wanted)?;
    if told.is_some() {
        return Ok(told);
    }
    let told = fixed_differs(alloc, checked, operator, rec, wanted)?;
    if told.is_some() {
        return Ok(told);
    }
    difference(
        alloc,
        &pair_at(alloc, checked, operator, rec)?,
        &twice(wanted),
    )
}

impl Row for Operation {
    fn differs(&self, alloc: Global, checked: &Checked) -> Result<Option<String>, NoMemory> {
        let Operation(operator, x, y, wanted) = self;
        first_differs(alloc, checked, *operator, &two(alloc, *x, *y)?, *wanted)
    }
}

#[test]
fn numbers_values_and_pairs_keep_the_range(rt: HostRuntime) -> Result<(), Fail> {
    check_rows(rt.alloc(), CALLED, &CALCULATED)
}

/// The number of a test, the part of a hold cell, the argument, and the answer.
struct Answer(u16, i64, i64, bool);

const ANSWERS: [Answer; 12] = [
    Answer(0, 7, 2, true),
    Answer(0, 1, 1, false),
    Answer(0, 1, 0, false),
    Answer(0, -1, 0, false),
    Answer(1, -7, 2, true),
    Answer(1, 7, -2, false),
    Answer(1, -7, -2, true),
    Answer(1, 7, 0, false),
    Answer(1, -7, 0, false),
    Answer(2, NUM_MAX, 0, true),
    Answer(2, NUM_MAX, 1, false),
    Answer(3, 7, 2, false),
];

impl Row for Answer {
    fn differs(&self, alloc: Global, checked: &Checked) -> Result<Option<String>, NoMemory> {
        let Answer(id, part, argument, wanted) = self;
        let parts = one(alloc, *part)?;
        let found = test(checked, *id, &parts, &one(alloc, *argument)?);
        difference(alloc, &found, wanted)
    }
}

#[test]
fn a_test_is_false_where_its_arithmetic_fails(rt: HostRuntime) -> Result<(), Fail> {
    check_rows(rt.alloc(), CALLED, &ANSWERS)
}
