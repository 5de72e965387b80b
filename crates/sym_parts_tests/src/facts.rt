//! Worked rows of facts.
use std::alloc::Global;
use std::test::Fail;
use sym_base::{NoMemory, Text, Value, Values};
use sym_pred::{Added, Facts, Literal};

fn literal(alloc: Global, test: u16, value: Value, outcome: bool) -> Result<Literal, NoMemory> {
    let mut args = Values::new(alloc);
    args.push(value)?;
    Ok(Literal {
        test,
        args,
        outcome,
    })
}

fn longer(alloc: Global, facts: Facts, added: Literal) -> Result<Facts, NoMemory> {
    match facts.add(alloc, added)? {
        Added::Longer(more) => Ok(more),
        _ => Ok(facts),
    }
}

fn known(alloc: Global, literals: &[Row]) -> Result<Facts, NoMemory> {
    let mut facts = Facts::none(alloc);
    for &(test, value, outcome) in literals {
        facts = longer(
            alloc,
            facts,
            literal(alloc, test, Value::Num(value), outcome)?,
        )?;
    }
    Ok(facts)
}

/// The test of a literal, the number on which it is, and its outcome.
type Row = (u16, i64, bool);

// The only number of a literal; the least one of 64 bits if it has other arguments.
fn number_in(args: &Values) -> i64 {
    match args.as_slice() {
        [Value::Num(number)] => *number,
        _ => i64::MIN,
    }
}

// The literals of facts, in their order.
fn rows_of(alloc: Global, facts: &Facts) -> Result<Vec<Row>, NoMemory> {
    let mut rows = Vec::new(alloc);
    'literals: for place in 0..facts.len() {
        if let Some(literal) = facts.at(place) {
            rows.push((literal.test, number_in(&literal.args), literal.outcome))?;
        }
    }
    Ok(rows)
}

// The same, if there are facts.
fn rows_in(alloc: Global, facts: &Option<Facts>) -> Result<Option<Vec<Row>>, NoMemory> {
    match facts {
        Some(facts) => Ok(Some(rows_of(alloc, facts)?)),
        None => Ok(None),
    }
}

// These literals, in the order of facts.
fn wanted_rows(alloc: Global, literals: &[Row]) -> Result<Vec<Row>, NoMemory> {
    rows_of(alloc, &known(alloc, literals)?)
}

// The same, if any are wanted.
fn wanted_in(alloc: Global, literals: Option<&[Row]>) -> Result<Option<Vec<Row>>, NoMemory> {
    match literals {
        Some(literals) => Ok(Some(wanted_rows(alloc, literals)?)),
        None => Ok(None),
    }
}

// What it comes to that test 0 has this outcome on a number.
fn added(alloc: Global, facts: &Facts, value: i64, outcome: bool) -> Result<Added, NoMemory> {
    facts.add(alloc, literal(alloc, 0, Value::Num(value), outcome)?)
}

#[test]
fn a_literal_that_stands_is_the_same_or_against(rt: HostRuntime) -> Result<(), Fail> {
    let facts = known(rt.alloc(), &[(0, 5, true)])?;
    let same = added(rt.alloc(), &facts, 5, true)?;
    assert!(rt;
        matches!(&same, Added::Same),
        "found other facts, wanted the same"
    );
    let against = added(rt.alloc(), &facts, 5, false)?;
    assert!(rt;
        matches!(&against, Added::Against),
        "found facts, wanted a clash"
    );
    Ok(())
}

// The literals of the facts that became longer.
fn longer_rows(alloc: Global, added: &Added) -> Result<Vec<Row>, NoMemory> {
    match added {
        Added::Longer(facts) => rows_of(alloc, facts),
        Added::Same | Added::Against => Ok(Vec::new(alloc)),
    }
}

#[test]
fn another_literal_makes_the_facts_longer(rt: HostRuntime) -> Result<(), Fail> {
    let facts = known(rt.alloc(), &[(0, 5, true)])?;
    let added = added(rt.alloc(), &facts, 6, false)?;
    let wanted = wanted_rows(rt.alloc(), &[(0, 6, false), (0, 5, true)])?;
    assert_eq!(rt; longer_rows(rt.alloc(), &added)?, wanted);
    Ok(())
}

fn met(alloc: Global, left: &Facts, right: &Facts) -> Result<Option<Vec<Row>>, NoMemory> {
    let met = left.meet(alloc, right)?;
    rows_in(alloc, &met)
}

fn met_in_place(alloc: Global, left: Facts, right: &Facts) -> Result<Option<Vec<Row>>, NoMemory> {
    let met = left.met_with(alloc, right)?;
    rows_in(alloc, &met)
}

/// Two rows of literals, and what their facts come to, or `None`.
type Meeting = (&'static [Row], &'static [Row], Option<&'static [Row]>);

const MEETS: [Meeting; 3] = [
    (
        &[(0, 5, true)],
        &[(0, 6, false)],
        Some(&[(0, 5, true), (0, 6, false)]),
    ),
    (&[(0, 5, true)], &[(0, 5, false)], None),
    (
        &[(0, 5, true), (0, 6, false)],
        &[(0, 6, false)],
        Some(&[(0, 5, true), (0, 6, false)]),
    ),
];

#[test]
fn facts_meet_unless_a_literal_clashes(rt: HostRuntime) -> Result<(), Fail> {
    for (left, right, wanted) in MEETS {
        let (first, second) = (known(rt.alloc(), left)?, known(rt.alloc(), right)?);
        let wanted = wanted_in(rt.alloc(), wanted)?;
        let found = met(rt.alloc(), &first, &second)?;
        assert_eq!(rt; found, wanted, "{left:?} and {right:?}");
        let found = met_in_place(rt.alloc(), first, &second)?;
        assert_eq!(rt; found, wanted, "{left:?} and {right:?} in place");
    }
    Ok(())
}

fn united(alloc: Global, left: &Facts, right: &Facts) -> Result<Option<Vec<Row>>, NoMemory> {
    let union = left.unite(alloc, right)?;
    rows_in(alloc, &union)
}

fn united_in_place(
    alloc: Global,
    left: Facts,
    right: &Facts,
) -> Result<Option<Vec<Row>>, NoMemory> {
    let union = left.united_with(right);
    rows_in(alloc, &union)
}

const UNIONS: [Meeting; 5] = [
    (
        &[(0, 5, true), (1, 2, false)],
        &[(0, 5, false), (1, 2, false)],
        Some(&[(1, 2, false)]),
    ),
    (
        &[(0, 5, true), (1, 2, false)],
        &[(0, 5, true), (1, 2, true)],
        Some(&[(0, 5, true)]),
    ),
    (&[(0, 5, true)], &[(0, 5, true)], Some(&[(0, 5, true)])),
    (&[(0, 5, true)], &[(0, 6, false)], None),
    (
        &[(0, 5, true), (1, 2, true)],
        &[(0, 5, false), (1, 2, false)],
        None,
    ),
];

#[test]
fn facts_unite_where_one_outcome_differs(rt: HostRuntime) -> Result<(), Fail> {
    for (left, right, wanted) in UNIONS {
        let (first, second) = (known(rt.alloc(), left)?, known(rt.alloc(), right)?);
        let wanted = wanted_in(rt.alloc(), wanted)?;
        let unites = first.unites(&second);
        assert_eq!(rt; unites, wanted.is_some(), "{left:?} and {right:?}");
        let found = united(rt.alloc(), &first, &second)?;
        assert_eq!(rt; found, wanted, "{left:?} and {right:?}");
        let found = united_in_place(rt.alloc(), first, &second)?;
        assert_eq!(rt; found, wanted, "{left:?} and {right:?} in place");
    }
    Ok(())
}

// Literals of two tests, added out of order.
fn mixed(alloc: Global) -> Result<Facts, NoMemory> {
    let mut facts = Facts::none(alloc);
    facts = longer(alloc, facts, literal(alloc, 1, Value::Label(1), true)?)?;
    let word = Value::Word(Text::from_str(alloc, "b")?);
    facts = longer(alloc, facts, literal(alloc, 1, word, true)?)?;
    facts = longer(alloc, facts, literal(alloc, 1, Value::Num(-2), true)?)?;
    longer(alloc, facts, literal(alloc, 0, Value::Num(9), true)?)
}

// The test and the first argument of the literal at this place.
fn first_at(facts: &Facts, place: usize) -> Option<(u16, Option<&Value>)> {
    match facts.at(place) {
        Some(literal) => Some((literal.test, literal.args.get(0))),
        None => None,
    }
}

#[test]
fn literals_stand_by_test_then_numbers_words_and_labels(rt: HostRuntime) -> Result<(), Fail> {
    let facts = mixed(rt.alloc())?;
    let word = Value::Word(Text::from_str(rt.alloc(), "b")?);
    assert_eq!(rt; facts.len(), 4);
    assert_eq!(rt; first_at(&facts, 0), Some((0, Some(&Value::Num(9)))));
    assert_eq!(rt; first_at(&facts, 1), Some((1, Some(&Value::Num(-2)))));
    assert_eq!(rt; first_at(&facts, 2), Some((1, Some(&word))));
    assert_eq!(rt; first_at(&facts, 3), Some((1, Some(&Value::Label(1)))));
    assert_eq!(rt; first_at(&facts, 4), None);
    Ok(())
}

// What the facts say of a test on a number.
fn say(alloc: Global, facts: &Facts, test: u16, value: i64) -> Result<Option<bool>, NoMemory> {
    let literal = literal(alloc, test, Value::Num(value), true)?;
    Ok(facts.says(test, &literal.args))
}

fn copied_rows(alloc: Global, facts: &Facts) -> Result<Vec<Row>, NoMemory> {
    let copied = facts.copy(alloc)?;
    rows_of(alloc, &copied)
}

#[test]
fn facts_say_what_stands_and_a_copy_is_equal(rt: HostRuntime) -> Result<(), Fail> {
    let facts = known(rt.alloc(), &[(0, 5, true), (0, 6, false)])?;
    assert_eq!(rt; say(rt.alloc(), &facts, 0, 6)?, Some(false));
    assert_eq!(rt; say(rt.alloc(), &facts, 1, 6)?, None);
    assert_eq!(rt;
        copied_rows(rt.alloc(), &facts)?,
        rows_of(rt.alloc(), &facts)?
    );
    Ok(())
}

// Two literals of a number.
fn pair(alloc: Global, first: Row, second: Row) -> Result<Vec<Literal>, NoMemory> {
    let mut pair = Vec::new(alloc);
    pair.push(literal(alloc, first.0, Value::Num(first.1), first.2)?)?;
    pair.push(literal(alloc, second.0, Value::Num(second.1), second.2)?)?;
    Ok(pair)
}

#[test]
fn facts_are_made_of_literals_in_order(rt: HostRuntime) -> Result<(), Fail> {
    let facts = Facts::of(pair(rt.alloc(), (0, 5, true), (1, 2, false))?).ok_or("in order")?;
    let wanted = wanted_rows(rt.alloc(), &[(1, 2, false), (0, 5, true)])?;
    assert_eq!(rt; rows_of(rt.alloc(), &facts)?, wanted);
    assert_eq!(rt; facts.into_list().len(), 2);
    let twice = Facts::of(pair(rt.alloc(), (0, 5, true), (0, 5, false))?);
    assert!(rt;
        twice.is_none(),
        "found facts of a literal and its contrary, wanted none"
    );
    Ok(())
}

fn clash(alloc: Global, facts: &Facts, other: &[Row]) -> Result<bool, NoMemory> {
    let other = known(alloc, other)?;
    Ok(facts.clashes(&other))
}

fn are_against(alloc: Global, facts: &Facts, value: i64) -> Result<bool, NoMemory> {
    let literal = literal(alloc, 0, Value::Num(value), true)?;
    Ok(facts.is_against(&literal))
}

#[test]
fn facts_clash_where_one_outcome_is_the_other(rt: HostRuntime) -> Result<(), Fail> {
    let facts = known(rt.alloc(), &[(0, 5, true), (0, 6, false)])?;
    assert_eq!(rt;
        clash(rt.alloc(), &facts, &[(0, 6, true), (1, 2, true)])?,
        true
    );
    assert_eq!(rt; clash(rt.alloc(), &facts, &[(0, 5, false)])?, true);
    assert_eq!(rt;
        clash(rt.alloc(), &facts, &[(0, 5, true), (1, 6, true)])?,
        false
    );
    assert_eq!(rt; are_against(rt.alloc(), &facts, 6)?, true);
    Ok(())
}

// The facts of one literal, which is given away.
fn one(alloc: Global) -> Result<Facts, NoMemory> {
    let five = literal(alloc, 0, Value::Num(5), true)?;
    let none = Facts::none(alloc);
    match none.says(five.test, &five.args) {
        None => none.with(five),
        Some(_) => Ok(none),
    }
}

fn longer_copied(alloc: Global, added: &Added) -> Result<Vec<Row>, NoMemory> {
    let copied = added.copy(alloc)?;
    longer_rows(alloc, &copied)
}

#[test]
fn facts_that_are_given_away_take_a_literal(rt: HostRuntime) -> Result<(), Fail> {
    let wanted = wanted_rows(rt.alloc(), &[(0, 5, true)])?;
    let facts = one(rt.alloc())?;
    assert_eq!(rt; rows_of(rt.alloc(), &facts)?, wanted);
    assert_eq!(rt; longer_copied(rt.alloc(), &Added::Longer(facts))?, wanted);
    Ok(())
}
