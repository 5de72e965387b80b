//! One path after another, and two paths joined, over cells of every kind.
use crate::setting::{
    Stop, facts_of, follows, join_to, number as number_of, path_of, span, told_of,
};
use std::alloc::Global;
use std::test::Fail;
use sym_base::{Element, NoMemory, Text, Value, Values};
use sym_check::Checked;
use sym_enum::{EnumForm, LabelSet};
use sym_given::{Row, check_rows};
use sym_int::IntForm;
use sym_path::{Form, Part, Path};
use sym_pred::{Facts, HoldForm, Literal};
use sym_vector::ListForm;

const KINDS: &str =
    "enum mode { low, mid, high } field x: num; state m: mode = low; state n: int [0..10] = 0; \
                     state h: hold(num = 1); state xs: nums [0..30]; state ws: words; \
                     test far(a: num, b: num) = b - a > 3; update { } report { n = n; }";

/// Whether b is far from what is held.
fn far(alloc: Global, b: i64, outcome: bool) -> Result<Literal, NoMemory> {
    let mut args = Values::new(alloc);
    args.push(Value::Num(b))?;
    Ok(Literal {
        test: 0,
        args,
        outcome,
    })
}

/// Which numbers are far from what is held, and which are not, in order.
fn facts(alloc: Global, numbers: &[(i64, bool)]) -> Result<Facts, Stop> {
    let mut literals = Vec::new(alloc);
    for (b, outcome) in numbers {
        literals.push(far(alloc, *b, *outcome)?)?;
    }
    facts_of(alloc, literals)
}

/// The labels, the numbers of n, and the facts of h.
fn parts(alloc: Global, set: LabelSet, lo: i64, hi: i64, known: Facts) -> Result<Vec<Part>, Stop> {
    let mut parts = Vec::new(alloc);
    parts.push(Part::Set(set))?;
    parts.push(Part::Span(span(alloc, lo, hi)?))?;
    parts.push(Part::Facts(known))?;
    parts.push(Part::Free)?;
    parts.push(Part::Free)?;
    Ok(parts)
}

/// The number `a * n + b`, which is the constant `b` where `a` is 0.
fn number(alloc: Global, a: i128, b: i64) -> Result<IntForm, Stop> {
    number_of(alloc, 1, a, b)
}

fn held(alloc: Global, x: i64) -> Result<HoldForm, NoMemory> {
    let mut parts = Values::new(alloc);
    parts.push(Value::Num(x))?;
    Ok(HoldForm::Const(parts))
}

fn numbers(alloc: Global, added: &[IntForm]) -> Result<ListForm<IntForm>, NoMemory> {
    let mut form = ListForm::same(alloc);
    for number in added {
        form = form.push(alloc, *number)?;
    }
    Ok(form)
}

fn words(alloc: Global, added: &[&'static str]) -> Result<ListForm<Text>, NoMemory> {
    let mut form = ListForm::same(alloc);
    for word in added {
        form = form.push(alloc, Text::from_str(alloc, word)?)?;
    }
    Ok(form)
}

/// What the cells hold.
fn forms(
    alloc: Global,
    label: EnumForm,
    number: IntForm,
    hold: HoldForm,
    added: &[IntForm],
    texts: &[&'static str],
) -> Result<Vec<Form>, NoMemory> {
    let mut forms = Vec::new(alloc);
    forms.push(Form::Enum(label))?;
    forms.push(Form::Int(number))?;
    forms.push(Form::Hold(hold))?;
    forms.push(Form::Nums(numbers(alloc, added)?))?;
    forms.push(Form::Words(words(alloc, texts)?))?;
    Ok(forms)
}

/// Copies of the label and of what is held; n is one more, and is pushed twice as large and one
/// more, and so is a word.
fn copies(alloc: Global) -> Result<Path, Stop> {
    let when = parts(alloc, LabelSet::full(2), 0, 9, facts(alloc, &[(9, true)])?)?;
    let forms = forms(
        alloc,
        EnumForm::Copy(0),
        number(alloc, 1, 1)?,
        HoldForm::Copy(2),
        &[number(alloc, 2, 1)?],
        &["a"],
    )?;
    Ok(path_of(when, forms))
}

/// Constants in the place of the label, of n and of what is held.
fn constants(alloc: Global) -> Result<Path, Stop> {
    let when = parts(alloc, LabelSet::full(3), 2, 7, facts(alloc, &[(5, false)])?)?;
    let forms = forms(
        alloc,
        EnumForm::Const(1),
        number(alloc, 0, 4)?,
        held(alloc, 6)?,
        &[number(alloc, 0, 8)?],
        &["b", "c"],
    )?;
    Ok(path_of(when, forms))
}

/// Needs a label above the first and n in 3 to 6; n becomes `9 - n`, and n and 5 are pushed.
fn later(alloc: Global) -> Result<Path, Stop> {
    let (_, upper) = LabelSet::full(3).split(0);
    let when = parts(alloc, upper, 3, 6, facts(alloc, &[(5, false)])?)?;
    let forms = forms(
        alloc,
        EnumForm::Copy(0),
        number(alloc, -1, 9)?,
        HoldForm::Copy(2),
        &[number(alloc, 1, 0)?, number(alloc, 0, 5)?],
        &["b"],
    )?;
    Ok(path_of(when, forms))
}

/// The path of copies and then the later one: the label 1 is left of both sets, n lies in 2 to 5,
/// and both facts are known.
fn copies_and_later(alloc: Global) -> Result<Path, Stop> {
    let known = facts(alloc, &[(5, false), (9, true)])?;
    let when = parts(alloc, LabelSet::one(1), 2, 5, known)?;
    let forms = forms(
        alloc,
        EnumForm::Const(1),
        number(alloc, -1, 8)?,
        HoldForm::Copy(2),
        &[
            number(alloc, 2, 1)?,
            number(alloc, 1, 1)?,
            number(alloc, 0, 5)?,
        ],
        &["a", "b"],
    )?;
    Ok(path_of(when, forms))
}

/// The constants after the copies, which leave n in this span and push this number.
fn copies_and_constants(alloc: Global, lo: i64, hi: i64, pushed: IntForm) -> Result<Path, Stop> {
    let known = facts(alloc, &[(5, false), (9, true)])?;
    let when = parts(alloc, LabelSet::full(2), lo, hi, known)?;
    let forms = forms(
        alloc,
        EnumForm::Const(1),
        number(alloc, 0, 4)?,
        held(alloc, 6)?,
        &[pushed, number(alloc, 0, 8)?],
        &["a", "b", "c"],
    )?;
    Ok(path_of(when, forms))
}

/// The constants and then copies that add to them.
fn constants_and_copies(alloc: Global) -> Result<Path, Stop> {
    let when = parts(alloc, LabelSet::full(3), 2, 7, facts(alloc, &[(5, false)])?)?;
    let forms = forms(
        alloc,
        EnumForm::Const(1),
        number(alloc, 0, 5)?,
        held(alloc, 6)?,
        &[number(alloc, 0, 8)?, number(alloc, 0, 9)?],
        &["b", "c", "a"],
    )?;
    Ok(path_of(when, forms))
}

/// The path with another part of this cell.
fn with_part(path: Path, cell: usize, part: Part) -> Path {
    let mut path = path;
    path.when.set(cell, part);
    path
}

/// Copies for what is as far from these numbers as they say.
fn copies_where(alloc: Global, numbers: &[(i64, bool)]) -> Result<Path, Stop> {
    let known = facts(alloc, numbers)?;
    Ok(with_part(copies(alloc)?, 2, Part::Facts(known)))
}

fn copies_from(alloc: Global, lo: i64, hi: i64) -> Result<Path, Stop> {
    let part = Part::Span(span(alloc, lo, hi)?);
    Ok(with_part(copies(alloc)?, 1, part))
}

fn constants_at(alloc: Global, x: i64) -> Result<Path, Stop> {
    let part = Part::Span(span(alloc, x, x)?);
    Ok(with_part(constants(alloc)?, 1, part))
}

/// What the copies are for, with what the constants make of it.
fn replaced(alloc: Global) -> Result<Path, Stop> {
    let mut path = copies(alloc)?;
    path.end = constants(alloc)?.end.copy(alloc)?;
    Ok(path)
}

/// A path of the tables.
#[derive(Clone, Copy)]
enum Named {
    Copies,
    CopiesFrom(i64, i64),
    CopiesOfAllLabels,
    /// With no fact.
    CopiesOfAllFacts,
    /// Where 9 isn't far.
    CopiesAgainst,
    /// Where 9 isn't far and 10 is.
    CopiesUpTo9,
    Constants,
    ConstantsAt(i64),
    ConstantsOfHigh,
    Later,
    Replaced,
    CopiesAndLater,
    CopiesAndConstants(i64, i64, i128, i64),
    ConstantsAndCopies,
}

fn path(alloc: Global, named: Named) -> Result<Path, Stop> {
    match named {
        Named::Copies => copies(alloc),
        Named::CopiesFrom(lo, hi) => copies_from(alloc, lo, hi),
        Named::CopiesOfAllLabels => {
            Ok(with_part(copies(alloc)?, 0, Part::Set(LabelSet::full(3))))
        }
        Named::CopiesOfAllFacts => copies_where(alloc, &[]),
        Named::CopiesAgainst => copies_where(alloc, &[(9, false)]),
        Named::CopiesUpTo9 => copies_where(alloc, &[(9, false), (10, true)]),
        Named::Constants => constants(alloc),
        Named::ConstantsAt(x) => constants_at(alloc, x),
        Named::ConstantsOfHigh => {
            Ok(with_part(constants(alloc)?, 0, Part::Set(LabelSet::one(2))))
        }
        Named::Later => later(alloc),
        Named::Replaced => replaced(alloc),
        Named::CopiesAndLater => copies_and_later(alloc),
        Named::CopiesAndConstants(lo, hi, a, b) => {
            copies_and_constants(alloc, lo, hi, number(alloc, a, b)?)
        }
        Named::ConstantsAndCopies => constants_and_copies(alloc),
    }
}

/// The path of the table that is wanted.
fn wanted_path(alloc: Global, named: Option<Named>) -> Result<Option<Path>, Stop> {
    match named {
        Some(named) => Ok(Some(path(alloc, named)?)),
        None => Ok(None),
    }
}

/// Two paths, and the path of one and then the other; `None` where the second can't come.
struct Follows(Named, Named, Option<Named>);

const FOLLOWED: [Follows; 9] = [
    Follows(Named::Copies, Named::Later, Some(Named::CopiesAndLater)),
    Follows(
        Named::Copies,
        Named::Constants,
        Some(Named::CopiesAndConstants(1, 6, 2, 1)),
    ),
    Follows(
        Named::Constants,
        Named::CopiesUpTo9,
        Some(Named::ConstantsAndCopies),
    ),
    // An only number stands in the pushed numbers.
    Follows(
        Named::Copies,
        Named::ConstantsAt(10),
        Some(Named::CopiesAndConstants(9, 9, 0, 19)),
    ),
    Follows(
        Named::Copies,
        Named::ConstantsAt(5),
        Some(Named::CopiesAndConstants(4, 4, 0, 9)),
    ),
    // 9 isn't far from the 6 that the constants hold.
    Follows(Named::Constants, Named::Copies, None),
    Follows(Named::Copies, Named::CopiesAgainst, None),
    Follows(Named::Copies, Named::ConstantsOfHigh, None),
    Follows(Named::Constants, Named::ConstantsOfHigh, None),
];

fn comes_to(
    alloc: Global,
    checked: &Checked,
    row: &Follows,
    wanted: &Option<Path>,
) -> Result<(), Stop> {
    let first = path(alloc, row.0)?;
    follows(alloc, checked, &first, &path(alloc, row.1)?, wanted)
}

fn row_holds(alloc: Global, checked: &Checked, row: &Follows) -> Result<(), Stop> {
    comes_to(alloc, checked, row, &wanted_path(alloc, row.2)?)
}

impl Row for Follows {
    fn differs(&self, alloc: Global, checked: &Checked) -> Result<Option<String>, NoMemory> {
        told_of(row_holds(alloc, checked, self))
    }
}

#[test]
fn paths_follow_over_cells_of_each_kind(rt: HostRuntime) -> Result<(), Fail> {
    check_rows(rt.alloc(), KINDS, &FOLLOWED)
}

/// Two paths, and the path that they join to.
struct Joins(Named, Named, Option<Named>);

const JOINED: [Joins; 6] = [
    Joins(
        Named::CopiesFrom(0, 5),
        Named::CopiesFrom(6, 9),
        Some(Named::Copies),
    ),
    Joins(
        Named::Copies,
        Named::CopiesAgainst,
        Some(Named::CopiesOfAllFacts),
    ),
    Joins(
        Named::Copies,
        Named::CopiesOfAllLabels,
        Some(Named::CopiesOfAllLabels),
    ),
    // Two cells that differ keep paths apart, and so do other numbers and words.
    Joins(Named::CopiesFrom(0, 5), Named::CopiesAgainst, None),
    Joins(Named::CopiesOfAllLabels, Named::CopiesFrom(6, 9), None),
    Joins(Named::Copies, Named::Replaced, None),
];

fn are_joined(alloc: Global, row: &Joins, wanted: &Option<Path>) -> Result<(), Stop> {
    let first = path(alloc, row.0)?;
    join_to(alloc, &first, &path(alloc, row.1)?, wanted)
}

fn row_joins(alloc: Global, row: &Joins) -> Result<(), Stop> {
    are_joined(alloc, row, &wanted_path(alloc, row.2)?)
}

impl Row for Joins {
    fn differs(&self, alloc: Global, _checked: &Checked) -> Result<Option<String>, NoMemory> {
        told_of(row_joins(alloc, self))
    }
}

#[test]
fn paths_join_in_a_cell_of_each_kind(rt: HostRuntime) -> Result<(), Fail> {
    check_rows(rt.alloc(), KINDS, &JOINED)
}
