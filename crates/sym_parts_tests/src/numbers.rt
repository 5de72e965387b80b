//! Worked rows of spans, lines and forms.
use std::alloc::Global;
use std::test::Fail;
use sym_base::{Cell, Cells, Compare, Element, NUM_MAX, Sequence, State};
use sym_int::{
    Cut, Fitted, IntForm, IntForms, Line, Number, Pieces, Pulled, Span, Wide, WideLine, cut, fit,
    pull,
};

/// `a * x + b` over the number x of cell 3; a constant where `a` is 0.
fn form_of(a: i64, b: i64) -> Option<IntForm> {
    if a == 0 {
        return Number::new(b).map(IntForm::Const);
    }
    Line::new(3, a as i128, b as i128).map(IntForm::Line)
}

fn wide_of(a: i128, b: i64) -> Option<Wide> {
    let form = IntForm::Line(Line::new(3, a, 0)?);
    if b < -NUM_MAX || b > NUM_MAX {
        return None;
    }
    Some(form.scaled(1, b))
}

/// What a form is: its cell, if it is a line, and `a` and `b` of `a * x + b`.
#[derive(Clone, Copy, Debug, PartialEq, Eq)]
struct Said {
    cell: Option<u16>,
    a: i128,
    b: i128,
}

fn line(cell: u16, a: i128, b: i128) -> Said {
    let cell = Some(cell);
    Said { cell, a, b }
}

fn constant(b: i128) -> Said {
    Said {
        cell: None,
        a: 0,
        b,
    }
}

fn shown(form: &IntForm) -> Said {
    match form {
        IntForm::Const(number) => constant(i128::from(number.value)),
        IntForm::Line(over) => line(over.cell, i128::from(over.a), over.offset()),
    }
}

fn shown_wide(form: &Wide) -> Said {
    match form {
        Wide::Const(number) => constant(number.value),
        Wide::Line(over) => line(over.cell, over.a, over.b),
    }
}

fn ends(span: Span) -> (i64, i64) {
    (span.lo, span.hi)
}

/// The ends of a piece, and its truth.
type Piece = (i64, i64, bool);

fn piece_of(cut: Cut) -> Piece {
    (cut.span.lo, cut.span.hi, cut.truth)
}

fn pieces_of(pieces: &Pieces) -> [Option<Piece>; 3] {
    [
        Some(piece_of(pieces.first)),
        pieces.second.map(piece_of),
        pieces.third.map(piece_of),
    ]
}

/// The line over 0 to 10, the comparison and its bound; the pieces as ends and truths.
#[test]
fn worked_rows_of_cut(rt: HostRuntime) -> Result<(), Fail> {
    let span = Span::new(0, 10).ok_or("span")?;
    let rows = [
        (2, 1, Compare::Eq, 4, [Some((0, 10, false)), None, None]),
        (
            2,
            0,
            Compare::Eq,
            6,
            [
                Some((0, 2, false)),
                Some((3, 3, true)),
                Some((4, 10, false)),
            ],
        ),
        (
            2,
            0,
            Compare::Ne,
            6,
            [Some((0, 2, true)), Some((3, 3, false)), Some((4, 10, true))],
        ),
        (
            -3,
            10,
            Compare::Lt,
            4,
            [Some((0, 2, false)), Some((3, 10, true)), None],
        ),
        (
            1,
            0,
            Compare::Le,
            9,
            [Some((0, 9, true)), Some((10, 10, false)), None],
        ),
        (-1, 0, Compare::Gt, 0, [Some((0, 10, false)), None, None]),
        (
            -1,
            0,
            Compare::Ge,
            0,
            [Some((0, 0, true)), Some((1, 10, false)), None],
        ),
    ];
    'rows: for (a, b, compare, bound, wanted) in rows {
        let wide = wide_of(a, b).ok_or("line")?;
        let found = pieces_of(&cut(&span, &wide, compare, bound));
        assert_eq!(rt; found, wanted, "{a} * x + {b}");
    }
    Ok(())
}

/// The cell of which numbers are pulled, and the ends of their span.
#[derive(Clone, Copy, Debug, PartialEq, Eq)]
enum Pull {
    All,
    Never,
    In(u16, i64, i64),
}

/// What this form pulls of the numbers from `lo` to `hi`.
fn pulled(lo: i64, hi: i64, a: i64, b: i64) -> Option<Pull> {
    match pull(&Span::new(lo, hi)?, &form_of(a, b)?) {
        Pulled::All => Some(Pull::All),
        Pulled::Never => Some(Pull::Never),
        Pulled::In { cell, span } => Some(Pull::In(cell, span.lo, span.hi)),
    }
}

#[test]
fn worked_rows_of_pull(rt: HostRuntime) {
    let rows = [
        (0, 3, -2, 7, Pull::In(3, 2, 3)),
        (0, 3, -2, -1, Pull::In(3, -2, -1)),
        (-5, 5, 1, 3, Pull::In(3, -8, 2)),
        (4, 4, 2, 1, Pull::Never),
        (4, 4, 0, 4, Pull::All),
        (4, 4, 0, 5, Pull::Never),
    ];
    'rows: for (lo, hi, a, b, wanted) in rows {
        let found = pulled(lo, hi, a, b);
        assert_eq!(rt; found, Some(wanted), "{a} * x + {b} in {lo} to {hi}");
    }
}

/// The ends of the points below, in and above a range, and the form on those in it.
type Fit = (
    Option<(i64, i64)>,
    Option<((i64, i64), Said)>,
    Option<(i64, i64)>,
);

fn fit_of(fitted: &Fitted) -> Fit {
    let inside = match &fitted.inside {
        Some(inside) => Some((ends(inside.span), shown(&inside.form))),
        None => None,
    };
    (fitted.below.map(ends), inside, fitted.above.map(ends))
}

#[test]
fn worked_rows_of_fit(rt: HostRuntime) -> Result<(), Fail> {
    let span = Span::new(0, 3).ok_or("span")?;
    let range = Span::new(0, 6).ok_or("span")?;
    let falling = fit(&span, &wide_of(-1, 2).ok_or("line")?, &span);
    let wanted = (Some((3, 3)), Some(((0, 2), line(3, -1, 2))), None);
    assert_eq!(rt; fit_of(&falling), wanted);
    let outside = fit(&span, &wide_of(1, 7).ok_or("line")?, &range);
    assert_eq!(rt; fit_of(&outside), (None, None, Some((0, 3))));
    Ok(())
}

/// `5x + 1` is the constant 11 on the one point 2, and itself on 0 to 2.
#[test]
fn a_form_on_a_span_is_a_constant_on_one_point(rt: HostRuntime) -> Result<(), Fail> {
    let wide = wide_of(5, 1).ok_or("line")?;
    let range = Span::new(0, 20).ok_or("span")?;
    let two = Span::new(2, 2).ok_or("span")?;
    let three = Span::new(0, 2).ok_or("span")?;
    let one = fit(&two, &wide, &range).inside.ok_or("inside")?;
    assert_eq!(rt; shown(&one.form), constant(11));
    let more = fit(&three, &wide, &range).inside.ok_or("inside")?;
    assert_eq!(rt; shown(&more.form), line(3, 5, 1));
    let over = Wide::Line(WideLine {
        cell: 3,
        a: 5,
        b: 1,
    });
    assert_eq!(rt; shown(&over.taken(&Span { lo: 2, hi: 2 })), constant(11));
    assert_eq!(rt; shown(&over.taken(&Span { lo: 0, hi: 2 })), line(3, 5, 1));
    Ok(())
}

#[test]
fn spans_meet_unite_and_have_numbers(rt: HostRuntime) -> Result<(), Fail> {
    let rows = [
        (0, 5, 3, 9, Some((3, 5)), Some((0, 9))),
        (0, 5, 6, 9, None, Some((0, 9))),
        (0, 5, 7, 9, None, None),
        (7, 9, 0, 5, None, None),
        (2, 3, 0, 9, Some((2, 3)), Some((0, 9))),
        (
            -NUM_MAX,
            0,
            0,
            NUM_MAX,
            Some((0, 0)),
            Some((-NUM_MAX, NUM_MAX)),
        ),
    ];
    'rows: for (a, b, c, d, meet, unite) in rows {
        let left = Span::new(a, b).ok_or("span")?;
        let right = Span::new(c, d).ok_or("span")?;
        let met = (left.meet(&right).map(ends), right.meet(&left).map(ends));
        assert_eq!(rt; met, (meet, meet), "{a} to {b}, {c} to {d} meet");
        let united = (left.unite(&right).map(ends), right.unite(&left).map(ends));
        assert_eq!(rt; united, (unite, unite), "{a} to {b}, {c} to {d} unite");
        let has = (left.has(a), left.has(b), left.only());
        assert_eq!(rt; has, (true, true, None), "{a} to {b}");
    }
    assert_eq!(rt; Span::new(4, 4).ok_or("span")?.only(), Some(4));
    Ok(())
}

#[test]
fn spans_and_numbers_are_made_within_their_bounds(rt: HostRuntime) {
    let past = NUM_MAX + 1;
    let spans = [(1, 0), (0, past), (-past, 0)];
    'spans: for (lo, hi) in spans {
        assert_eq!(rt; Span::new(lo, hi).map(ends), None, "{lo} to {hi}");
    }
    let numbers = [
        (-NUM_MAX, true),
        (-past, false),
        (NUM_MAX, true),
        (past, false),
    ];
    'numbers: for (number, wanted) in numbers {
        assert_eq!(rt; Number::new(number).is_some(), wanted, "{number}");
    }
}

#[test]
fn lines_are_made_within_their_bounds(rt: HostRuntime) {
    let slope: i128 = 2_000_000_000_000;
    let offset: i128 = 2_000_000_000_001_000_000_000_000;
    let lines = [
        (slope, offset, true),
        (-slope, -offset, true),
        (slope + 1, 0, false),
        (-slope - 1, 0, false),
        (1, offset + 1, false),
        (-1, -offset - 1, false),
        (0, 0, false),
    ];
    'lines: for (a, b, wanted) in lines {
        assert_eq!(rt; Line::new(0, a, b).is_some(), wanted, "{a} * x + {b}");
    }
}

/// Cell 0 becomes `3 * x0 + 2`, where it was 0 to 10.
fn context_of(alloc: Global) -> Result<IntForms, Fail> {
    let mut forms = Sequence::new(alloc);
    forms.push(IntForm::Line(Line::new(0, 3, 2).ok_or("line")?))?;
    let mut spans = Sequence::new(alloc);
    spans.push(Span::new(0, 10).ok_or("span")?)?;
    Ok(IntForms { forms, spans })
}

#[test]
fn an_element_goes_through_a_context_and_takes_a_number(rt: HostRuntime) -> Result<(), Fail> {
    let context = context_of(rt.alloc())?;
    let same = context.copy(rt.alloc())? == context;
    assert!(rt; same, "found another context, wanted a copy");
    let mut spans = Sequence::new(rt.alloc());
    spans.push(Span { lo: 0, hi: 10 })?;
    let mut forms = Sequence::new(rt.alloc());
    forms.push(IntForm::Line(Line::of(0, 3, 2)))?;
    let context = IntForms { forms, spans };
    let form = IntForm::Line(Line::of(0, 2, -7));
    let through = Element::through(&form, rt.alloc(), &context)?;
    assert_eq!(rt; shown(&through), line(0, 6, -3));
    let fixed = form.fixed(rt.alloc(), 0, 5)?;
    assert_eq!(rt; shown(&fixed), constant(3));
    let other = form.fixed(rt.alloc(), 1, 5)?;
    assert_eq!(rt; shown(&other), line(0, 2, -7));
    let copied = Element::copy(&form, rt.alloc())?;
    assert_eq!(rt; shown(&copied), line(0, 2, -7));
    Ok(())
}

#[test]
fn a_form_has_a_number_at_a_state_and_over_another_form(rt: HostRuntime) -> Result<(), Fail> {
    let outer = IntForm::Line(Line::of(0, 2, -7));
    let inner = IntForm::Line(Line::of(0, 3, 2));
    assert_eq!(rt; shown_wide(&outer.through(&inner)), line(0, 6, -3));
    let mut cells = Cells::new(rt.alloc());
    cells.push(Cell::Int(4))?;
    let state = State { cells };
    assert_eq!(rt; outer.value(&state), 1);
    Ok(())
}
