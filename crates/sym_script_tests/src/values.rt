//! Values at the ends of the range of numbers and at zero divisors.
ghost use Rattle.std.specs.Prelude.{map, IfOk, IsTrue};
ghost use Rattle.std.specs.List.{list_all};
ghost use Rattle.sym_check.specs.Meaning.Conditions.{has_fixed_body};
ghost use Rattle.sym_check.specs.Plan.ScriptPlans.{test_plan};

use std::alloc::Global;
use std::process::Abort;
use std::test::Fail;
use sym_base::{Compare, NUM_MAX, NoMemory, Text, Value};
use sym_check::{
    Arith, ArithOp, Cond, Fixed, FixedValue, KindPlan, KindPlans, Known, LabelOf, Line, Num, Pair,
    Term, TestPlan, TestPlans, WordOf, answer_at, number_of, pair_of, value_of,
};

#[test]
fn arithmetic_fails_past_the_ends_and_by_zero(rt: HostRuntime) -> Result<(), Fail> {
    let rows = [
        (ArithOp::Add, NUM_MAX, 0, Ok(NUM_MAX)),
        (ArithOp::Add, NUM_MAX, -NUM_MAX, Ok(0)),
        (ArithOp::Add, NUM_MAX, 1, Err(Arith)),
        (ArithOp::Add, NUM_MAX, NUM_MAX, Err(Arith)),
        (ArithOp::Add, -NUM_MAX, 0, Ok(-NUM_MAX)),
        (ArithOp::Add, -NUM_MAX, -1, Err(Arith)),
        (ArithOp::Add, -NUM_MAX, -NUM_MAX, Err(Arith)),
        (ArithOp::Sub, NUM_MAX, NUM_MAX, Ok(0)),
        (ArithOp::Sub, NUM_MAX, -1, Err(Arith)),
        (ArithOp::Sub, -NUM_MAX, 0, Ok(-NUM_MAX)),
        (ArithOp::Sub, -NUM_MAX, 1, Err(Arith)),
        (ArithOp::Sub, -NUM_MAX, NUM_MAX, Err(Arith)),
        (ArithOp::Mul, 1_000_000, 1_000_000, Ok(NUM_MAX)),
        (ArithOp::Mul, 1_000_000, -1_000_000, Ok(-NUM_MAX)),
        (ArithOp::Mul, -1, -NUM_MAX, Ok(NUM_MAX)),
        (ArithOp::Mul, 1_000_001, 1_000_000, Err(Arith)),
        (ArithOp::Mul, -1_000_000, 1_000_001, Err(Arith)),
        (ArithOp::Mul, NUM_MAX, NUM_MAX, Err(Arith)),
        (ArithOp::Mul, NUM_MAX, -NUM_MAX, Err(Arith)),
        (ArithOp::Mul, -NUM_MAX, -NUM_MAX, Err(Arith)),
        (ArithOp::Div, 7, 2, Ok(3)),
        (ArithOp::Div, -7, 2, Ok(-3)),
        (ArithOp::Div, 7, -2, Ok(-3)),
        (ArithOp::Div, -7, -2, Ok(3)),
        (ArithOp::Div, NUM_MAX, -1, Ok(-NUM_MAX)),
        (ArithOp::Div, -NUM_MAX, -1, Ok(NUM_MAX)),
        (ArithOp::Div, -1, NUM_MAX, Ok(0)),
        (ArithOp::Div, 1, 0, Err(Arith)),
        (ArithOp::Div, -1, 0, Err(Arith)),
        (ArithOp::Div, 0, 0, Err(Arith)),
        (ArithOp::Div, NUM_MAX, 0, Err(Arith)),
        (ArithOp::Div, -NUM_MAX, 0, Err(Arith)),
        (ArithOp::Rem, 7, 2, Ok(1)),
        (ArithOp::Rem, -7, 2, Ok(-1)),
        (ArithOp::Rem, 7, -2, Ok(1)),
        (ArithOp::Rem, -7, -2, Ok(-1)),
        (ArithOp::Rem, NUM_MAX, -7, Ok(1)),
        (ArithOp::Rem, -NUM_MAX, 7, Ok(-1)),
        (ArithOp::Rem, -NUM_MAX, -1, Ok(0)),
        (ArithOp::Rem, -1, NUM_MAX, Ok(-1)),
        (ArithOp::Rem, 1, 0, Err(Arith)),
        (ArithOp::Rem, -1, 0, Err(Arith)),
        (ArithOp::Rem, 0, 0, Err(Arith)),
        (ArithOp::Rem, NUM_MAX, 0, Err(Arith)),
        (ArithOp::Rem, -NUM_MAX, 0, Err(Arith)),
    ];
    for (operator, x, y, wanted) in rows {
        let number = bin(rt.alloc(), operator, Num::Lit(x), Num::Lit(y))?;
        assert_eq!(rt; number_of(&known(&[], &[]), &number), wanted);
    }
    Ok(())
}

fn known<'a>(fields: &'a [Value], locals: &'a [Value]) -> Known<'a> {
    Known {
        fields,
        locals,
        parts: &[],
        args: &[],
    }
}

fn bin(alloc: Global, operator: ArithOp, left: Num, right: Num) -> Result<Num, NoMemory> {
    let left = Box::new(alloc, left)?;
    Ok(Num::Bin(operator, left, Box::new(alloc, right)?))
}

// -(field 0 - 9)
fn past_nine(alloc: Global) -> Result<Num, NoMemory> {
    let difference = bin(alloc, ArithOp::Sub, Num::Field(0), Num::Lit(9))?;
    Ok(Num::Neg(Box::new(alloc, difference)?))
}

#[test]
fn a_fixed_number_is_calculated_from_a_field(rt: HostRuntime) -> Result<(), Fail> {
    let number = past_nine(rt.alloc())?;
    assert_eq!(rt; number_of(&known(&[Value::Num(7)], &[]), &number), Ok(2));
    Ok(())
}

// What a fixed expression comes to; `None` where a step of it failed.
fn value_in(value: &FixedValue) -> Option<&Value> {
    match value {
        FixedValue::Is(value) => Some(value),
        FixedValue::Arith => None,
    }
}

fn assert_value(
    alloc: Global,
    rt: &impl Abort,
    known: &Known<'_>,
    fixed: &Fixed,
    wanted: &FixedValue,
) -> Result<(), Fail> {
    let value = value_of(alloc, known, fixed)?;
    assert_eq!(rt; value_in(&value), value_in(wanted));
    Ok(())
}

fn ann(alloc: Global) -> Result<Value, NoMemory> {
    Ok(Value::Word(Text::from_str(alloc, "ann")?))
}

#[test]
fn a_fixed_word_is_a_fields(rt: HostRuntime) -> Result<(), Fail> {
    let fields = [Value::Num(7), ann(rt.alloc())?];
    let wanted = FixedValue::Is(ann(rt.alloc())?);
    assert_value(
        rt.alloc(),
        &rt,
        &known(&fields, &[]),
        &Fixed::Word(WordOf::Field(1)),
        &wanted,
    )
}

#[test]
fn a_fixed_label_is_a_locals(rt: HostRuntime) -> Result<(), Fail> {
    assert_value(
        rt.alloc(),
        &rt,
        &known(&[], &[Value::Label(3)]),
        &Fixed::Label(LabelOf::Local(0)),
        &FixedValue::Is(Value::Label(3)),
    )
}

// 1 % 0
fn broken(alloc: Global) -> Result<Fixed, NoMemory> {
    Ok(Fixed::Num(bin(alloc, ArithOp::Rem, Num::Lit(1), Num::Lit(0))?))
}

#[test]
fn a_fixed_number_fails_by_zero(rt: HostRuntime) -> Result<(), Fail> {
    let broken = broken(rt.alloc())?;
    assert_value(
        rt.alloc(),
        &rt,
        &known(&[], &[]),
        &broken,
        &FixedValue::Arith,
    )
}

#[test]
fn each_step_keeps_the_range(rt: HostRuntime) -> Result<(), Fail> {
    let rows = [
        (ArithOp::Add, 1, ArithOp::Sub, 1, Err(Arith)),
        (ArithOp::Add, 0, ArithOp::Sub, NUM_MAX, Ok(0)),
        (ArithOp::Mul, -2, ArithOp::Mul, 0, Err(Arith)),
        (ArithOp::Mul, -1, ArithOp::Sub, 0, Ok(-NUM_MAX)),
        (ArithOp::Mul, -1, ArithOp::Sub, 1, Err(Arith)),
        (ArithOp::Rem, 0, ArithOp::Mul, 0, Err(Arith)),
        (ArithOp::Div, -NUM_MAX, ArithOp::Div, 0, Err(Arith)),
        (ArithOp::Div, -NUM_MAX, ArithOp::Div, -1, Ok(1)),
    ];
    for (operator, x, later, y, wanted) in rows {
        let first = bin(rt.alloc(), operator, Num::Lit(NUM_MAX), Num::Lit(x))?;
        let number = bin(rt.alloc(), later, first, Num::Lit(y))?;
        assert_eq!(rt; number_of(&known(&[], &[]), &number), wanted);
    }
    Ok(())
}

// -(cell 4) * field 0 + 10
fn falling(alloc: Global) -> Result<Line, NoMemory> {
    let negated = Line::Neg(Box::new(alloc, Line::Cell(4))?);
    let scaled = Line::Scale(Num::Field(0), Box::new(alloc, negated)?);
    Ok(Line::Add(Box::new(alloc, scaled)?, Num::Lit(10)))
}

#[test]
fn lines_have_pairs(rt: HostRuntime) -> Result<(), Fail> {
    let line = falling(rt.alloc())?;
    let rows = [
        (
            3,
            Ok(Pair {
                cell: 4,
                a: -3,
                b: 10,
            }),
        ),
        (
            0,
            Ok(Pair {
                cell: 4,
                a: 0,
                b: 10,
            }),
        ),
        (
            NUM_MAX,
            Ok(Pair {
                cell: 4,
                a: -NUM_MAX,
                b: 10,
            }),
        ),
        (
            -NUM_MAX,
            Ok(Pair {
                cell: 4,
                a: NUM_MAX,
                b: 10,
            }),
        ),
        (NUM_MAX + 1, Err(Arith)),
        (-NUM_MAX - 1, Err(Arith)),
    ];
    for (by, wanted) in rows {
        let fields = [Value::Num(by)];
        assert_eq!(rt; pair_of(&known(&fields, &[]), &line), wanted);
    }
    Ok(())
}

// (cell 4 + 6 / field 0 * 1_000_000) * field 1
fn scaled_sum(alloc: Global) -> Result<Line, NoMemory> {
    let quotient = bin(alloc, ArithOp::Div, Num::Lit(6), Num::Field(0))?;
    let number = bin(alloc, ArithOp::Mul, quotient, Num::Lit(1_000_000))?;
    let sum = Line::Add(Box::new(alloc, Line::Cell(4))?, number);
    Ok(Line::Scale(Num::Field(1), Box::new(alloc, sum)?))
}

#[test]
fn both_numbers_of_a_pair_keep_the_range(rt: HostRuntime) -> Result<(), Fail> {
    let line = scaled_sum(rt.alloc())?;
    let rows = [
        (6, 1_000_000, Ok((1_000_000, NUM_MAX))),
        (-6, 1_000_000, Ok((1_000_000, -NUM_MAX))),
        (6, -1_000_000, Ok((-1_000_000, -NUM_MAX))),
        (-6, -1_000_000, Ok((-1_000_000, NUM_MAX))),
        (6, 1_000_001, Err(Arith)),
        (-6, 1_000_001, Err(Arith)),
        (6, -1_000_001, Err(Arith)),
        (7, NUM_MAX, Ok((NUM_MAX, 0))),
        (-7, -NUM_MAX, Ok((-NUM_MAX, 0))),
        (7, NUM_MAX + 1, Err(Arith)),
        (6, 0, Ok((0, 0))),
        (0, 0, Err(Arith)),
        (0, 1, Err(Arith)),
    ];
    for (divisor, by, wanted) in rows {
        let fields = [Value::Num(divisor), Value::Num(by)];
        let pair = match pair_of(&known(&fields, &[]), &line) {
            Ok(Pair { cell: _, a, b }) => Ok((a, b)),
            Err(failed) => Err(failed),
        };
        assert_eq!(rt; pair, wanted);
    }
    Ok(())
}

// This test alone.
fn alone(alloc: Global, test: TestPlan) -> Result<TestPlans, NoMemory>
    requires { IsTrue (has_fixed_body (test_plan test)) }
    ensures { IfOk result (λ tests. IsTrue (list_all has_fixed_body (map test_plan tests))) }
{
    let mut tests = TestPlans::new(alloc);
    tests.push(test)?;
    Ok(tests)
}

// Whether the second parameter is more than 30 past the first.
fn gap(alloc: Global) -> Result<TestPlan, NoMemory>
    ensures { IfOk result (λ t. IsTrue (has_fixed_body (test_plan t))) }
{
    let mut params = KindPlans::new(alloc);
    params.push(KindPlan::Num)?;
    params.push(KindPlan::Num)?;
    let past = bin(alloc, ArithOp::Sub, Num::Param(1), Num::Param(0))?;
    let body = Cond::Compare(Compare::Gt, Term::Fixed(past), Num::Lit(30));
    Ok(TestPlan { params, body })
}

// That the first test answers so, with its hold cell's part and its argument given.
fn assert_answers(rt: &impl Abort, tests: &TestPlans, rows: &[(i64, i64, bool)])
    requires { IsTrue (list_all has_fixed_body (map test_plan tests.now)) }
{
    for (part, argument, wanted) in rows {
        let (parts, args) = ([Value::Num(*part)], [Value::Num(*argument)]);
        let found = answer_at(tests, 0, &parts, &args);
        assert_eq!(rt; found, *wanted, "{part} and {argument}");
    }
}

#[test]
fn tests_answer_by_their_bodies(rt: HostRuntime) -> Result<(), Fail> {
    let tests = alone(rt.alloc(), gap(rt.alloc())?)?;
    assert_answers(
        &rt,
        &tests,
        &[
            (0, 30, false),
            (0, 31, true),
            (-NUM_MAX, 0, true),
            (-NUM_MAX, 1, false),
        ],
    );
    Ok(())
}

// Whether the second parameter over the first is more than 1, or the first is 0; this is looked at
// first where `guarded`.
fn ratio(alloc: Global, guarded: bool) -> Result<TestPlan, NoMemory>
    ensures { IfOk result (λ t. IsTrue (has_fixed_body (test_plan t))) }
{
    let mut params = KindPlans::new(alloc);
    params.push(KindPlan::Num)?;
    params.push(KindPlan::Num)?;
    let quotient = bin(alloc, ArithOp::Div, Num::Param(1), Num::Param(0))?;
    let large = Cond::Compare(Compare::Gt, Term::Fixed(quotient), Num::Lit(1));
    let zero = Cond::Compare(Compare::Eq, Term::Fixed(Num::Param(0)), Num::Lit(0));
    let large = Box::new(alloc, large)?;
    let zero = Box::new(alloc, zero)?;
    let body = if guarded {
        Cond::Or(zero, large)
    } else {
        Cond::Or(large, zero)
    };
    Ok(TestPlan { params, body })
}

// Whether it isn't so that the second parameter by the first leaves more than 1, and the first isn't
// 0. The remainder is looked at first.
fn remains_small(alloc: Global) -> Result<TestPlan, NoMemory>
    ensures { IfOk result (λ t. IsTrue (has_fixed_body (test_plan t))) }
{
    let mut params = KindPlans::new(alloc);
    params.push(KindPlan::Num)?;
    params.push(KindPlan::Num)?;
    let quotient = bin(alloc, ArithOp::Rem, Num::Param(1), Num::Param(0))?;
    let large = Cond::Compare(Compare::Gt, Term::Fixed(quotient), Num::Lit(1));
    let other = Cond::Compare(Compare::Ne, Term::Fixed(Num::Param(0)), Num::Lit(0));
    let large = Box::new(alloc, large)?;
    let both = Cond::And(large, Box::new(alloc, other)?);
    let body = Cond::Not(Box::new(alloc, both)?);
    Ok(TestPlan { params, body })
}

#[test]
fn failed_arithmetic_is_no_matter_where_it_is_not_looked_at(rt: HostRuntime) -> Result<(), Fail> {
    let tests = alone(rt.alloc(), ratio(rt.alloc(), true)?)?;
    assert_answers(
        &rt,
        &tests,
        &[
            (2, 5, true),
            (-2, -5, true),
            (2, 3, false),
            (3, 5, false),
            (0, 5, true),
            (0, -5, true),
            (0, 0, true),
        ],
    );
    Ok(())
}

#[test]
fn failed_arithmetic_makes_a_test_false_where_it_is_looked_at(rt: HostRuntime) -> Result<(), Fail> {
    let tests = alone(rt.alloc(), ratio(rt.alloc(), false)?)?;
    assert_answers(
        &rt,
        &tests,
        &[
            (2, 5, true),
            (-2, -5, true),
            (2, 3, false),
            (3, 5, false),
            (0, 5, false),
            (0, -5, false),
            (0, 0, false),
        ],
    );
    Ok(())
}

#[test]
fn failed_arithmetic_makes_a_test_false_and_not_its_parts(rt: HostRuntime) -> Result<(), Fail> {
    let tests = alone(rt.alloc(), remains_small(rt.alloc())?)?;
    assert_answers(
        &rt,
        &tests,
        &[
            (2, 5, true),
            (-2, -5, true),
            (2, 3, true),
            (3, 5, false),
            (0, 5, false),
            (0, -5, false),
            (0, 0, false),
        ],
    );
    Ok(())
}
