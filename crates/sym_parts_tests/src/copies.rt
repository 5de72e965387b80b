//! With ample memory each type of plain values gives its copy.
use std::alloc::{AllocError, Global};
use std::process::Abort;
use std::test::Fail;
use sym_base::{
    BinOp, Cell, CellDecl, Cells, Column, ColumnDecl, ColumnDecls, Columns, Compare, EnumDecl,
    EnumDecls, Expr, Exprs, FieldDecl, FieldDecls, Fields, Key, KindRef, Literal, NUM_MAX, Name,
    Names, NoMemory, Nums, Outcome, Param, Params, Part, Parts, Record, ReportFault, Script, State,
    StateDecl, StateDecls, Stmt, Stmts, TestDecl, TestDecls, Text, Value, Values, Words,
};

fn word(alloc: Global) -> Result<Text, NoMemory> {
    Text::from_str(alloc, "ann")
}

fn name(alloc: Global) -> Result<Name, NoMemory> {
    Ok(Name {
        text: word(alloc)?,
        at: 7,
    })
}

fn words(alloc: Global) -> Result<Words, NoMemory> {
    let mut words = Words::new(alloc);
    words.push(word(alloc)?)?;
    words.push(Text::from_str(alloc, "")?)?;
    Ok(words)
}

fn values(alloc: Global) -> Result<Values, NoMemory> {
    let mut values = Values::new(alloc);
    values.push(Value::Num(-5))?;
    values.push(Value::Word(word(alloc)?))?;
    values.push(Value::Label(3))?;
    Ok(values)
}

fn fields(alloc: Global) -> Result<Fields, NoMemory> {
    let mut fields = Fields::new(alloc);
    fields.push(Value::Num(-5))?;
    fields.push(Value::Word(word(alloc)?))?;
    fields.push(Value::Label(3))?;
    Ok(fields)
}

fn nums(alloc: Global) -> Result<Nums, NoMemory> {
    let mut nums = Nums::new(alloc);
    nums.push(-1)?;
    nums.push(NUM_MAX)?;
    Ok(nums)
}

// A state with a cell of each kind.
fn state(alloc: Global) -> Result<State, NoMemory> {
    let mut cells = Cells::new(alloc);
    cells.push(Cell::Enum(2))?;
    cells.push(Cell::Int(-4))?;
    cells.push(Cell::Hold(values(alloc)?))?;
    cells.push(Cell::Nums(nums(alloc)?))?;
    cells.push(Cell::Words(words(alloc)?))?;
    Ok(State { cells })
}

fn columns(alloc: Global) -> Result<Columns, NoMemory> {
    let mut columns = Columns::new(alloc);
    columns.push(Column::Num(-7))?;
    columns.push(Column::Word(word(alloc)?))?;
    columns.push(Column::Nums(nums(alloc)?))?;
    columns.push(Column::Words(words(alloc)?))?;
    columns.push(Column::Nothing)?;
    columns.push(Column::Bad(ReportFault::Zero))?;
    Ok(columns)
}

fn key_is_copied(alloc: Global, key: &Key) -> Result<bool, NoMemory> {
    let copy = key.copy(alloc)?;
    Ok(copy == *key)
}

fn record_is_copied(alloc: Global, record: &Record) -> Result<bool, NoMemory> {
    let copy = record.copy(alloc)?;
    Ok(copy == *record)
}

fn outcome_is_copied(alloc: Global, outcome: &Outcome) -> Result<bool, NoMemory> {
    let copy = outcome.copy(alloc)?;
    Ok(copy == *outcome)
}

fn columns_are_copied(alloc: Global, columns: &Columns) -> Result<bool, NoMemory> {
    let copy = columns.copy(alloc)?;
    Ok(copy == *columns)
}

#[test]
fn keys_are_copied(rt: HostRuntime) -> Result<(), Fail> {
    let key = Key {
        values: values(rt.alloc())?,
    };
    assert!(rt;
        key_is_copied(rt.alloc(), &key)?,
        "found another key, wanted a copy"
    );
    Ok(())
}

#[test]
fn records_are_copied(rt: HostRuntime) -> Result<(), Fail> {
    let record = Record {
        no: 3,
        fields: fields(rt.alloc())?,
    };
    let same = record_is_copied(rt.alloc(), &record)?;
    assert!(rt; same, "found another record, wanted a copy");
    Ok(())
}

#[test]
fn outcomes_are_copied(rt: HostRuntime) -> Result<(), Fail> {
    let going = Outcome::Going(state(rt.alloc())?);
    let same = outcome_is_copied(rt.alloc(), &going)?;
    assert!(rt; same, "found another outcome, wanted a copy");
    Ok(())
}

#[test]
fn columns_of_reports_are_copied(rt: HostRuntime) -> Result<(), Fail> {
    let columns = columns(rt.alloc())?;
    let same = columns_are_copied(rt.alloc(), &columns)?;
    assert!(rt; same, "found other columns, wanted a copy");
    Ok(())
}

fn names(alloc: Global) -> Result<Names, NoMemory> {
    let mut names = Names::new(alloc);
    names.push(name(alloc)?)?;
    Ok(names)
}

// A part of each kind.
fn parts(alloc: Global) -> Result<Parts, NoMemory> {
    let mut parts = Parts::new(alloc);
    parts.push(Part {
        kind: KindRef::Num,
        first: Literal::Num { value: -2, at: 1 },
    })?;
    parts.push(Part {
        kind: KindRef::Word,
        first: Literal::Text {
            text: word(alloc)?,
            at: 2,
        },
    })?;
    parts.push(Part {
        kind: KindRef::Named(name(alloc)?),
        first: Literal::Named(name(alloc)?),
    })?;
    Ok(parts)
}

// A cell of each kind.
fn states(alloc: Global) -> Result<StateDecls, NoMemory> {
    let mut states = StateDecls::new(alloc);
    let cells = [
        CellDecl::Int {
            lo: -1,
            hi: 1,
            first: 0,
            clamp: true,
        },
        CellDecl::Nums {
            lo: 0,
            hi: 9,
            clamp: false,
        },
        CellDecl::Words,
        CellDecl::Hold(parts(alloc)?),
        CellDecl::Enum {
            of: name(alloc)?,
            first: name(alloc)?,
        },
    ];
    for cell in cells {
        states.push(StateDecl {
            name: name(alloc)?,
            cell,
        })?;
    }
    Ok(states)
}

fn boxed(alloc: Global, expr: Expr) -> Result<Box<Expr>, NoMemory> {
    Ok(Box::new(alloc, expr)?)
}

// ann(-1, not ("ann" + ann))
fn call(alloc: Global) -> Result<Expr, NoMemory> {
    let minus = Expr::Neg(boxed(alloc, Expr::Num(1, 3))?, 2);
    let left = boxed(alloc, Expr::Text(word(alloc)?, 5))?;
    let right = boxed(alloc, Expr::Named(name(alloc)?))?;
    let sum = Expr::Bin(BinOp::Add, left, right, 6);
    let denied = Expr::Not(boxed(alloc, sum)?, 4);
    let last = Exprs::More(boxed(alloc, denied)?, Box::new(alloc, Exprs::End)?);
    let arguments = Exprs::More(boxed(alloc, minus)?, Box::new(alloc, last)?);
    Ok(Expr::Call(name(alloc)?, arguments))
}

// The statement, and then the others.
fn then(alloc: Global, first: Stmt, rest: Stmts) -> Result<Stmts, NoMemory> {
    let first = Box::new(alloc, first)?;
    Ok(Stmts::More(first, Box::new(alloc, rest)?))
}

// One statement of each sort.
fn update(alloc: Global) -> Result<Stmts, NoMemory> {
    let kept = Stmt::KeepFrom(name(alloc)?, name(alloc)?);
    let inner = then(alloc, kept, Stmts::End)?;
    let choice = Stmt::If(call(alloc)?, inner, Stmts::End);
    let stmts = then(alloc, choice, Stmts::End)?;
    let stmts = then(alloc, Stmt::Keep(name(alloc)?, Exprs::End), stmts)?;
    let stmts = then(alloc, Stmt::Push(name(alloc)?, call(alloc)?), stmts)?;
    let stmts = then(alloc, Stmt::Set(name(alloc)?, call(alloc)?), stmts)?;
    then(alloc, Stmt::Let(name(alloc)?, call(alloc)?), stmts)
}

// A script with one declaration of each sort.
fn script(alloc: Global) -> Result<Script, NoMemory> {
    let mut enums = EnumDecls::new(alloc);
    enums.push(EnumDecl {
        name: name(alloc)?,
        labels: names(alloc)?,
    })?;
    let mut fields = FieldDecls::new(alloc);
    fields.push(FieldDecl {
        name: name(alloc)?,
        header: Some(word(alloc)?),
        kind: KindRef::Word,
        default: Some(Literal::Num { value: 0, at: 5 }),
    })?;
    let mut params = Params::new(alloc);
    params.push(Param {
        name: name(alloc)?,
        kind: KindRef::Num,
    })?;
    let mut tests = TestDecls::new(alloc);
    tests.push(TestDecl {
        name: name(alloc)?,
        params,
        body: call(alloc)?,
    })?;
    let mut columns = ColumnDecls::new(alloc);
    columns.push(ColumnDecl {
        name: name(alloc)?,
        value: call(alloc)?,
    })?;
    Ok(Script {
        enums,
        fields,
        group: names(alloc)?,
        states: states(alloc)?,
        tests,
        update: update(alloc)?,
        columns,
    })
}

// The number of statements, at most ten, without those in others.
fn count(mut stmts: &Stmts) -> u32 {
    'statements: for passed in 0..10u32 {
        match stmts {
            Stmts::More(_, rest) => stmts = rest,
            Stmts::End => return passed,
        }
    }
    10
}

fn is_copy(copy: &Script, script: &Script) -> bool {
    copy.enums == script.enums
        && copy.fields == script.fields
        && copy.group == script.group
        && copy.states == script.states
        && copy.tests.len() == 1
        && copy.columns.len() == 1
        && count(&copy.update) == 5
}

fn script_is_copied(alloc: Global, script: &Script) -> Result<bool, NoMemory> {
    let copy = script.copy(alloc)?;
    Ok(is_copy(&copy, script))
}

#[test]
fn a_script_is_copied(rt: HostRuntime) -> Result<(), Fail> {
    let script = script(rt.alloc())?;
    let same = script_is_copied(rt.alloc(), &script)?;
    assert!(rt; same, "found another script, wanted a copy");
    Ok(())
}

// The places of the numbers in a list, at most this many of them.
fn places(alloc: Global, mut exprs: &Exprs, most: u32) -> Result<Vec<u32>, AllocError> {
    let mut places = Vec::new(alloc);
    'expressions: for _passed in 0..most {
        match exprs {
            Exprs::More(first, rest) => {
                if let Expr::Num(_, at) = **first {
                    places.push(at)?;
                }
                exprs = rest;
            }
            Exprs::End => return Ok(places),
        }
    }
    Ok(places)
}

// The first place that isn't the one that is wanted, and that one.
fn first_other(found: &[u32], wanted: &[u32]) -> Option<(u32, u32)> {
    'places: for (at, place) in found.iter().zip(wanted.iter()) {
        if at != place {
            return Some((*at, *place));
        }
    }
    None
}

#[test]
fn a_list_of_many_expressions_is_made_copied_and_freed(rt: HostRuntime) -> Result<(), Fail> {
    let mut items = Vec::new(rt.alloc());
    let mut wanted = Vec::new(rt.alloc());
    for at in 0..20_000u32 {
        items.push(Expr::Num(5, at))?;
        wanted.push(at)?;
    }
    let list = Exprs::of(rt.alloc(), items)?;
    let copy = list.copy(rt.alloc())?;
    drop(list);
    let found = places(rt.alloc(), &copy, 30_000)?;
    assert_eq!(rt; found.len(), wanted.len());
    let other = found
        .iter()
        .zip(wanted.iter())
        .find(|(at, place)| at != place);
    assert_eq!(rt; other, None);
    Ok(())
}

#[test]
fn numbers_compare(rt: HostRuntime) -> Result<(), Fail> {
    let answers = [
        (Compare::Eq, [false, true, false]),
        (Compare::Ne, [true, false, true]),
        (Compare::Lt, [true, false, false]),
        (Compare::Le, [true, true, false]),
        (Compare::Gt, [false, false, true]),
        (Compare::Ge, [false, true, true]),
    ];
    for (place, (compare, wanted)) in answers.iter().enumerate() {
        let found = [
            compare.holds(-2, -1),
            compare.holds(7, 7),
            compare.holds(i128::MAX, i128::MIN),
        ];
        assert_eq!(rt; found, *wanted, "row {place}");
    }
    Ok(())
}

#[test]
fn a_value_of_a_list_is_replaced(rt: HostRuntime) -> Result<(), Fail> {
    let mut values = values(rt.alloc())?;
    assert_eq!(rt; values.replace(0, Value::Num(6)), Some(Value::Num(-5)));
    assert_eq!(rt; values.replace(3, Value::Num(6)), None);
    assert_eq!(rt; (values.len(), values.get(0)), (3, Some(&Value::Num(6))));
    Ok(())
}
