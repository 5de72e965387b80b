//! Whole reports in each form, by their bytes.
use crate::given::{After, Given, GivenReport, GivenRow, heads_of, row_of};
use crate::marks::Marks;
use std::alloc::Global;
use std::test::Fail;
use sym_base::{NoMemory, ReportFault};
use sym_given::{all_hold, bytes_differ, told_by};
use sym_report::{CsvForm, Heads, PairsForm, ReportForm, TableForm, choose, report_bytes};

/// A report, and its text in each form.
#[derive(Clone, Copy)]
struct Shown {
    report: GivenReport,
    table: &'static str,
    csv: &'static str,
    pairs: &'static str,
    marks: &'static str,
}

const REPORTS: [Shown; 8] = [
    // Without rows.
    Shown {
        report: GivenReport {
            keys: &["user"],
            columns: &["n"],
            rows: &[],
        },
        table: "user | n\n--\n",
        csv: "user,n,fault\n",
        pairs: "",
        marks: "<>",
    },
    // Without keys.
    Shown {
        report: GivenReport {
            keys: &[],
            columns: &["n"],
            rows: &[GivenRow {
                keys: &[],
                after: After::Columns(&[Given::Num(10)]),
            }],
        },
        table: "n\n10\n--\n",
        csv: "n,fault\n10,\n",
        pairs: "n=10\n",
        marks: "<.>",
    },
    // Purchases after a cart.
    Shown {
        report: GivenReport {
            keys: &["user"],
            columns: &["buys", "paid", "biggest"],
            rows: &[
                GivenRow {
                    keys: &[Given::Word("ann")],
                    after: After::Columns(&[Given::Num(1), Given::Num(1299), Given::Num(1299)]),
                },
                GivenRow {
                    keys: &[Given::Word("Smith, Bob")],
                    after: After::Columns(&[Given::Num(1), Given::Num(250), Given::Num(250)]),
                },
            ],
        },
        table: "user | buys | paid | biggest\nann | 1 | 1299 | 1299\n\
                Smith, Bob | 1 | 250 | 250\n--\n",
        csv: "user,buys,paid,biggest,fault\nann,1,1299,1299,\n\"Smith, Bob\",1,250,250,\n",
        pairs: "user=\"ann\" buys=1 paid=1299 biggest=1299\n\
                user=\"Smith, Bob\" buys=1 paid=250 biggest=250\n",
        marks: "<..>",
    },
    // Faults under two keys and two columns.
    Shown {
        report: GivenReport {
            keys: &["user", "day"],
            columns: &["n", "big"],
            rows: &[
                GivenRow {
                    keys: &[Given::Word("a"), Given::Num(-7)],
                    after: After::Over("n", 2),
                },
                GivenRow {
                    keys: &[Given::Word(""), Given::Num(3)],
                    after: After::Arith(18446744073709551615),
                },
            ],
        },
        table: "user | day | n | big\na | -7 | fault: n overflows at record 2\n\
                \x20| 3 | fault: arithmetic at record 18446744073709551615\n--\n",
        csv: "user,day,n,big,fault\na,-7,,,n overflows at record 2\n\
              ,3,,,arithmetic at record 18446744073709551615\n",
        pairs: "user=\"a\" day=-7 fault=\"n overflows at record 2\"\n\
                user=\"\" day=3 fault=\"arithmetic at record 18446744073709551615\"\n",
        marks: "<..>",
    },
    // A fault without keys.
    Shown {
        report: GivenReport {
            keys: &[],
            columns: &["n"],
            rows: &[GivenRow {
                keys: &[],
                after: After::Over("n", 4),
            }],
        },
        table: "n\nfault: n overflows at record 4\n--\n",
        csv: "n,fault\n,n overflows at record 4\n",
        pairs: "fault=\"n overflows at record 4\"\n",
        marks: "<.>",
    },
    // Numbers, nothing, and columns that couldn't be computed.
    Shown {
        report: GivenReport {
            keys: &[],
            columns: &["least", "most", "none", "over", "zero"],
            rows: &[GivenRow {
                keys: &[],
                after: After::Columns(&[
                    Given::Num(i128::MIN),
                    Given::Num(i128::MAX),
                    Given::Nothing,
                    Given::Bad(ReportFault::Overflow),
                    Given::Bad(ReportFault::Zero),
                ]),
            }],
        },
        table: "least | most | none | over | zero\n\
                -170141183460469231731687303715884105728 | \
                170141183460469231731687303715884105727 | \
                none | overflow | zero divisor\n--\n",
        csv: "least,most,none,over,zero,fault\n\
              -170141183460469231731687303715884105728,\
              170141183460469231731687303715884105727,none,overflow,zero divisor,\n",
        pairs: "least=-170141183460469231731687303715884105728 \
                most=170141183460469231731687303715884105727 \
                none=none over=overflow zero=zero divisor\n",
        marks: "<.>",
    },
    // Words with what the forms escape: control characters, quotes, backslashes, commas, ends of
    // lines, blanks at both ends, letters of other scripts, and no bytes.
    Shown {
        report: GivenReport {
            keys: &["user"],
            columns: &["quoted", "lines", "blanks", "empty"],
            rows: &[GivenRow {
                keys: &[Given::Word("\0x\ty\u{1f}\u{e9}\u{4e2d}~\u{7f}")],
                after: After::Columns(&[
                    Given::Word("a \"b\", \\c"),
                    Given::Word("d\r\ne | f"),
                    Given::Word(" g "),
                    Given::Word(""),
                ]),
            }],
        },
        table: "user | quoted | lines | blanks | empty\n\
                ?x?y?\u{e9}\u{4e2d}~? | a \"b\", \\c | d??e | f |  g  | \n--\n",
        csv: "user,quoted,lines,blanks,empty,fault\n\
              \0x\ty\u{1f}\u{e9}\u{4e2d}~\u{7f},\"a \"\"b\"\", \\c\",\"d\r\ne | f\", g ,,\n",
        pairs: "user=\"\0x\ty\u{1f}\u{e9}\u{4e2d}~\u{7f}\" quoted=\"a \\\"b\\\", \\\\c\" \
                lines=\"d\r\ne | f\" blanks=\" g \" empty=\"\"\n",
        marks: "<.>",
    },
    // Lists.
    Shown {
        report: GivenReport {
            keys: &[],
            columns: &["none", "nums", "one", "words"],
            rows: &[GivenRow {
                keys: &[],
                after: After::Columns(&[
                    Given::Nums(&[]),
                    Given::Nums(&[-3, 0, 12]),
                    Given::Words(&["a"]),
                    Given::Words(&["a", "b\nc\u{7f}d", "", "e \"f\",\\"]),
                ]),
            }],
        },
        table: "none | nums | one | words\n[] | [-3 0 12] | [a] | [a b?c?d  e \"f\",\\]\n--\n",
        csv: "none,nums,one,words,fault\n\
              [],[-3 0 12],[a],\"[a b\nc\u{7f}d  e \"\"f\"\",\\]\",\n",
        pairs: "none=[] nums=[-3 0 12] one=[\"a\"] \
                words=[\"a\" \"b\nc\u{7f}d\" \"\" \"e \\\"f\\\",\\\\\"]\n",
        marks: "<.>",
    },
];

fn add_given(
    alloc: Global,
    form: &mut Box<dyn ReportForm>,
    heads: &Heads,
    given: GivenRow,
) -> Result<(), NoMemory> {
    let row = row_of(alloc, given)?;
    if row.is_under(heads) {
        form.row(alloc, heads, &row)?;
    }
    Ok(())
}

fn add_all(
    alloc: Global,
    form: &mut Box<dyn ReportForm>,
    heads: &Heads,
    rows: &[GivenRow],
) -> Result<(), NoMemory> {
    'rows: for row in rows {
        add_given(alloc, form, heads, *row)?;
    }
    Ok(())
}

// Writes a report, and copies its bytes.
fn bytes_of(
    alloc: Global,
    form: &mut Box<dyn ReportForm>,
    heads: &Heads,
    rows: &[GivenRow],
) -> Result<Vec<u8>, NoMemory> {
    form.begin(alloc, heads)?;
    add_all(alloc, form, heads, rows)?;
    form.end(alloc, heads)?;
    let mut bytes = Vec::new(alloc);
    bytes.extend_from_slice(report_bytes(form))?;
    Ok(bytes)
}

// The bytes of a report in the first form of this name; none if no form is called so.
fn report_in(alloc: Global, name: &str, report: GivenReport) -> Result<Vec<u8>, NoMemory> {
    let heads = heads_of(alloc, report)?;
    let mut forms: Vec<Box<dyn ReportForm>> = Vec::new(alloc);
    forms.push(Box::new(alloc, TableForm::new(alloc))?)?;
    forms.push(Box::new(alloc, CsvForm::new(alloc))?)?;
    forms.push(Box::new(alloc, PairsForm::new(alloc))?)?;
    forms.push(Box::new(alloc, Marks::new(alloc, 9))?)?;
    match choose(forms, name) {
        Some(mut form) => bytes_of(alloc, &mut form, &heads, report.rows),
        None => Ok(Vec::new(alloc)),
    }
}

fn check_report(alloc: Global, name: &str, report: GivenReport, text: &str) -> Result<(), Fail> {
    let bytes = report_in(alloc, name, report)?;
    let told = bytes_differ(alloc, bytes.as_slice(), text.as_bytes())?;
    all_hold(told_by(alloc, &name, told))
}

fn check_shown(alloc: Global, shown: Shown) -> Result<(), Fail> {
    check_report(alloc, "table", shown.report, shown.table)?;
    check_report(alloc, "csv", shown.report, shown.csv)?;
    check_report(alloc, "pairs", shown.report, shown.pairs)?;
    check_report(alloc, "marks", shown.report, shown.marks)
}

#[test]
fn reports_have_their_bytes_in_each_form(rt: HostRuntime) -> Result<(), Fail> {
    'reports: for shown in &REPORTS {
        check_shown(rt.alloc(), *shown)?;
    }
    Ok(())
}

#[test]
fn no_form_has_another_name(rt: HostRuntime) -> Result<(), Fail> {
    'names: for name in ["", "cs", "csv ", "CSV", "html"] {
        check_report(rt.alloc(), name, REPORTS[1].report, "")?;
    }
    Ok(())
}

// The form with memory for one row, after two rows of a report.
fn after_two(alloc: Global) -> Result<Marks, NoMemory> {
    let heads = heads_of(alloc, REPORTS[2].report)?;
    let row = row_of(alloc, REPORTS[2].report.rows[0])?;
    let mut marks = Marks::new(alloc, 1);
    marks.begin(alloc, &heads)?;
    if row.is_under(&heads) {
        marks.row(alloc, &heads, &row)?;
        let _second = marks.row(alloc, &heads, &row);
    }
    Ok(marks)
}

#[test]
fn a_row_without_memory_leaves_the_bytes(rt: HostRuntime) -> Result<(), Fail> {
    let marks = after_two(rt.alloc())?;
    all_hold(bytes_differ(rt.alloc(), marks.bytes(), b"<."))
}
