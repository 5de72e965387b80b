//! Reports as a table of tests gives them.
use std::alloc::Global;
use sym_base::{Column, Columns, NoMemory, Nums, ReportFault, Text, Texts};
use sym_report::{Heads, Row, RowBody};

/// A value of a row.
#[derive(Clone, Copy)]
pub(crate) enum Given {
    Num(i128),
    Word(&'static str),
    Nums(&'static [i64]),
    Words(&'static [&'static str]),
    Nothing,
    Bad(ReportFault),
}

/// What a row shows after its keys.
#[derive(Clone, Copy)]
pub(crate) enum After {
    Columns(&'static [Given]),
    Over(&'static str, u64),
    Arith(u64),
}

/// A row: its keys, and what it shows after them.
#[derive(Clone, Copy)]
pub(crate) struct GivenRow {
    pub(crate) keys: &'static [Given],
    pub(crate) after: After,
}

/// The names above a report's rows, and its rows.
#[derive(Clone, Copy)]
pub(crate) struct GivenReport {
    pub(crate) keys: &'static [&'static str],
    pub(crate) columns: &'static [&'static str],
    pub(crate) rows: &'static [GivenRow],
}

pub(crate) fn texts(alloc: Global, names: &[&str]) -> Result<Texts, NoMemory> {
    let mut texts = Texts::new(alloc);
    'names: for name in names {
        texts.push(Text::from_str(alloc, name)?)?;
    }
    Ok(texts)
}

fn numbers(alloc: Global, given: &[i64]) -> Result<Nums, NoMemory> {
    let mut numbers = Nums::new(alloc);
    'given: for number in given {
        numbers.push(*number)?;
    }
    Ok(numbers)
}

fn column(alloc: Global, given: Given) -> Result<Column, NoMemory> {
    match given {
        Given::Num(number) => Ok(Column::Num(number)),
        Given::Word(word) => Ok(Column::Word(Text::from_str(alloc, word)?)),
        Given::Nums(given) => Ok(Column::Nums(numbers(alloc, given)?)),
        Given::Words(words) => Ok(Column::Words(texts(alloc, words)?)),
        Given::Nothing => Ok(Column::Nothing),
        Given::Bad(fault) => Ok(Column::Bad(fault)),
    }
}

fn columns(alloc: Global, given: &[Given]) -> Result<Columns, NoMemory> {
    let mut columns = Columns::new(alloc);
    'given: for value in given {
        columns.push(column(alloc, *value)?)?;
    }
    Ok(columns)
}

fn body(alloc: Global, after: After) -> Result<RowBody, NoMemory> {
    match after {
        After::Columns(given) => Ok(RowBody::Columns(columns(alloc, given)?)),
        After::Over(cell, no) => {
            let cell = Text::from_str(alloc, cell)?;
            Ok(RowBody::Over { cell, no })
        }
        After::Arith(no) => Ok(RowBody::Arith { no }),
    }
}

pub(crate) fn row_of(alloc: Global, given: GivenRow) -> Result<Row, NoMemory> {
    let keys = columns(alloc, given.keys)?;
    let body = body(alloc, given.after)?;
    Ok(Row { keys, body })
}

pub(crate) fn heads_of(alloc: Global, report: GivenReport) -> Result<Heads, NoMemory> {
    let keys = texts(alloc, report.keys)?;
    let columns = texts(alloc, report.columns)?;
    Ok(Heads { keys, columns })
}
