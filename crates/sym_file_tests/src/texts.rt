//! Texts of saved runs, and texts that are none: of each text a part is replaced.
use crate::scripts::WORDS;
use crate::setting::{Answer, answer_of, file_of};
use std::alloc::Global;
use std::test::Fail;
use sym_base::NoMemory;
use sym_check::Checked;
use sym_given::saved::KEPT;
use sym_given::scripts::{SHORT_SESSIONS, TOGGLE};
use sym_given::{Row, check_rows, difference, found_unless, told_by};

/// A part of a text that stands there once, what takes its place, and whether that is read.
struct Edit(&'static str, &'static str, bool);

fn answer_wanted(read: bool) -> Answer {
    if read {
        Answer::Read
    } else {
        Answer::Malformed
    }
}

/// How the answer to the text after the script differs with the edit.
fn edit_differs(
    alloc: Global,
    checked: &Checked,
    text: &str,
    edit: &Edit,
) -> Result<Option<String>, NoMemory> {
    let Some((before, after)) = text.split_once(edit.0) else {
        return found_unless(alloc, false, "found no such part");
    };
    let mut body = Vec::new(alloc);
    body.extend_from_slice(before.as_bytes())?;
    body.extend_from_slice(edit.1.as_bytes())?;
    body.extend_from_slice(after.as_bytes())?;
    let bytes = file_of(alloc, checked, &body)?;
    difference(
        alloc,
        &answer_of(alloc, checked, &bytes)?,
        &answer_wanted(edit.2),
    )
}

/// A text, and edits of it.
#[derive(Drop)]
struct Edits<'a> {
    text: &'a str,
    edits: &'a [Edit],
}

impl<'a> Row for Edits<'a> {
    fn differs(&self, alloc: Global, checked: &Checked) -> Result<Option<String>, NoMemory> {
        'edits: for edit in self.edits {
            let told = edit_differs(alloc, checked, self.text, edit)?;
            if told.is_some() {
                return told_by(alloc, &(edit.0, edit.1), told);
            }
        }
        Ok(None)
    }
}

/// Fails the test at the first edit of the text that is answered otherwise.
fn check_edits(alloc: Global, script: &str, text: &str, edits: &[Edit]) -> Result<(), Fail> {
    check_rows(alloc, script, &[Edits { text, edits }])
}

const NUMBERS: &str = "first 1\nnext 3\ngroups 1\nkey\nchain 1\nsegment 1\n\
    when i0..3\nnext x0,1,0\nend\n";

const NUMBER_EDITS: [Edit; 66] = [
    Edit("first 1", "first +1", false),
    Edit("first 1", "first 01", false),
    Edit("first 1", "first  1", false),
    Edit("first 1", "first 1 ", false),
    Edit("first 1\n", "first 1\r\n", false),
    Edit("first 1", "first 0", false),
    Edit("first 1", "first -1", false),
    Edit("first 1", "first 4", false),
    Edit("first 1", "first 3", true),
    Edit("first 1\n", "", false),
    Edit("first 1", "First 1", false),
    Edit("next 3\n", "next 18446744073709551615\n", true),
    Edit("next 3\n", "next 18446744073709551616\n", false),
    Edit(
        "next 3\n",
        "next 100000000000000000000000000000000000000000\n",
        false,
    ),
    Edit("next 3\n", "next \n", false),
    Edit("groups 1", "groups 2", false),
    Edit("groups 1", "groups 0", false),
    Edit(
        "groups 1",
        "groups 99999999999999999999999999999999999999",
        false,
    ),
    Edit("key\n", "key \n", false),
    Edit("key\n", "key n1\n", false),
    Edit("chain 1", "chain 0", false),
    Edit("chain 1", "chain 2", false),
    Edit("segment 1", "segment 0", false),
    Edit("segment 1", "segment 2", false),
    Edit("i0..3", "i0..4", false),
    Edit("i0..3", "i-1..3", false),
    Edit("i0..3", "i3..0", false),
    Edit("i0..3", "i0.3", false),
    Edit("i0..3", "i0...3", false),
    Edit("i0..3", "i-0..3", false),
    Edit("i0..3", "i00..3", false),
    Edit("i0..3", " i0..3", false),
    Edit("i0..3", "i0..3 ", false),
    Edit("i0..3", "i0..3 v", false),
    Edit(" i0..3", "", false),
    Edit("i0..3", "e3", false),
    Edit("x0,1,0", "x0,-1,3", true),
    Edit("x0,1,0", "x0,2,0", false),
    Edit("x0,1,0", "x1,1,0", false),
    Edit("x0,1,0", "x0,0,1", false),
    Edit("x0,1,0", "n3", true),
    Edit("x0,1,0", "n4", false),
    Edit("x0,1,0", "n-0", false),
    Edit("x0,1,0", "x0,1,+0", false),
    Edit("x0,1,0", "x0, 1,0", false),
    Edit("x0,1,0", "n1 n1", false),
    Edit(" x0,1,0", "", false),
    Edit("next x0,1,0", "over 0 1", true),
    Edit("next x0,1,0", "over 0 2", true),
    Edit("next x0,1,0", "over 0 0", false),
    Edit("next x0,1,0", "over 0 3", false),
    Edit("next x0,1,0", "over 1 1", false),
    Edit("next x0,1,0", "over 0 01", false),
    Edit("next x0,1,0", "over 0  1", false),
    Edit("next x0,1,0", "arith 2", true),
    Edit("next x0,1,0", "arith 3", false),
    Edit("next x0,1,0", "arith 0", false),
    Edit("next x0,1,0", "arith", false),
    Edit("next x0,1,0", "over 0", false),
    Edit("end\n", "end", false),
    Edit("end\n", "end\n\n", false),
    Edit("end\n", "", false),
    Edit("end\n", "END\n", false),
    Edit(
        "1\nwhen i0..3\nnext x0,1,0\n",
        "2\nwhen i0..2\nnext n0\nwhen i1..3\nnext n1\n",
        true,
    ),
    Edit(
        "chain 1\n",
        "chain 2\nsegment 1\nwhen i1..1\nnext n1\n",
        true,
    ),
    Edit(
        "groups 1\nkey\n",
        "groups 2\nkey\nchain 1\nsegment 1\nwhen i0..3\nnext n1\nkey\n",
        false,
    ),
];

#[test]
fn lines_and_numbers_have_one_spelling(rt: HostRuntime) -> Result<(), Fail> {
    check_edits(rt.alloc(), KEPT, NUMBERS, &NUMBER_EDITS)
}

const HOLDS: &str = "first 1\nnext 9\ngroups 2\n\
    key w1:a\nchain 1\nsegment 1\nwhen f1 t0 yes n31 i0..12 v\nnext h n40 n1 a1 x1,1,0\n\
    key w2:\u{e9}\nchain 1\nsegment 2\nwhen f0 i0..11 v\nnext k0 x1,1,1 a0\n\
    when f0 i12..12 v\nover 1 8\nend\n";

const HOLD_EDITS: [Edit; 43] = [
    Edit("key w1:a", "key w2:\u{e9}", false),
    Edit("key w1:a", "key w01:a", false),
    Edit("key w1:a", "key w2:a", false),
    Edit("key w1:a", "key w0:", true),
    Edit("key w1:a", "key n1", false),
    Edit("key w1:a", "key l0", false),
    Edit("key w1:a", "key", false),
    Edit("key w1:a", "key w1:a w1:a", false),
    Edit("key w1:a", "key  w1:a", false),
    Edit("key w1:a", "key w3:a\nb", true),
    Edit("key w1:a", "key w 1:a", false),
    Edit("key w1:a", "key w1 a", false),
    Edit("f1 t0 yes n31", "f0", true),
    Edit("f1 t0 yes n31", "f1", false),
    Edit("f1 t0 yes n31", "f2 t0 yes n31", false),
    Edit("f1 t0 yes n31", "f1 t1 yes n31", false),
    Edit("f1 t0 yes n31", "f1 t0 maybe n31", false),
    Edit("f1 t0 yes n31", "f1 t0 yes", false),
    Edit("f1 t0 yes n31", "f1 t0 yes w1:a", false),
    Edit("f1 t0 yes n31", "f1 t0 yes n31 n32", false),
    Edit("f1 t0 yes n31", "f2 t0 no n30 t0 yes n31", true),
    Edit("f1 t0 yes n31", "f2 t0 yes n31 t0 no n30", false),
    Edit("f1 t0 yes n31", "f2 t0 yes n31 t0 yes n31", false),
    Edit("f1 t0 yes n31", "f2 t0 yes n31 t0 no n31", false),
    Edit("f1 t0 yes n31", "v", false),
    Edit("v\nnext h", "f0\nnext h", false),
    Edit("h n40", "h", false),
    Edit("h n40", "h w1:a", false),
    Edit("h n40", "h n40 n41", false),
    Edit("h n40", "h n1000000000000", true),
    Edit("h n40", "h n1000000000001", false),
    Edit("h n40", "k1", false),
    Edit("a1 x1,1,0", "a0", true),
    Edit("a1 x1,1,0", "a1", false),
    Edit("a1 x1,1,0", "a2 x1,1,0", false),
    Edit("a1 x1,1,0", "a1 n13", false),
    Edit("a1 x1,1,0", "a2 n12 n0", true),
    Edit("a1 x1,1,0", "a1 w1:a", false),
    Edit("a1 x1,1,0", "x1,1,0", false),
    Edit("x1,1,1", "x1,1,2", false),
    Edit("over 1 8", "over 0 8", false),
    Edit("over 1 8", "over 1 9", false),
    Edit("over 1 8", "over 2 8", true),
];

#[test]
fn keys_facts_and_forms_are_those_of_the_script(rt: HostRuntime) -> Result<(), Fail> {
    check_edits(rt.alloc(), SHORT_SESSIONS, HOLDS, &HOLD_EDITS)
}

const LABELS: &str = "first 1\nnext 2\ngroups 1\nkey\nchain 1\nsegment 2\n\
    when e1\nnext c1\nwhen e2\nnext c0\nend\n";

const LABEL_EDITS: [Edit; 11] = [
    Edit("e1", "e3", true),
    Edit("e1", "e0", false),
    Edit("e1", "e4", false),
    Edit("e1", "e4294967296", false),
    Edit("e1", "e01", false),
    Edit("c1", "c2", false),
    Edit("c1", "c256", false),
    Edit("c1", "k0", false),
    Edit("c1", "k1", false),
    Edit("e1\nnext c1", "e3\nnext k0", true),
    Edit("e1", "i0..1", false),
];

#[test]
fn labels_are_those_of_the_enum(rt: HostRuntime) -> Result<(), Fail> {
    check_edits(rt.alloc(), TOGGLE, LABELS, &LABEL_EDITS)
}

const ADDED: &str = "first 1\nnext 5\ngroups 1\nkey n-1 l1\nchain 1\nsegment 1\n\
    when v\nnext a3 w1:a w0: w4:a b\n\nend\n";

const ADDED_EDITS: [Edit; 12] = [
    Edit("n-1 l1", "n-1 l0", true),
    Edit("n-1 l1", "n-1 l2", false),
    Edit("n-1 l1", "n-1 l256", false),
    Edit("n-1 l1", "l1 n-1", false),
    Edit("n-1 l1", "n--1 l1", false),
    Edit("a3", "a2", false),
    Edit("a3", "a4", false),
    Edit("w4:a b\n", "w3:a b\n", false),
    Edit("a3 w1:a w0: w4:a b\n", "a0", true),
    Edit("w1:a", "n1", false),
    Edit("w1:a", "w1:", false),
    Edit("when v", "when f0", false),
];

#[test]
fn words_have_their_length_and_keys_their_kinds(rt: HostRuntime) -> Result<(), Fail> {
    check_edits(rt.alloc(), WORDS, ADDED, &ADDED_EDITS)
}

/// A text with a word of one byte, and whether that is UTF-8.
struct Byte(&'static [u8], bool);

const BYTES: [Byte; 3] = [
    Byte(
        b"first 1\nnext 2\ngroups 1\nkey n1 l0\nchain 1\nsegment 1\nwhen v\nnext a1 w1:\x7f\nend\n",
        true,
    ),
    Byte(
        b"first 1\nnext 2\ngroups 1\nkey n1 l0\nchain 1\nsegment 1\nwhen v\nnext a1 w1:\xff\nend\n",
        false,
    ),
    Byte(
        b"first 1\nnext 2\ngroups 1\nkey n1 l0\nchain 1\nsegment 1\nwhen v\nnext a1 w1:\xc3\nend\n",
        false,
    ),
];

impl Row for Byte {
    fn differs(&self, alloc: Global, checked: &Checked) -> Result<Option<String>, NoMemory> {
        let bytes = file_of(alloc, checked, self.0)?;
        difference(
            alloc,
            &answer_of(alloc, checked, &bytes)?,
            &answer_wanted(self.1),
        )
    }
}

#[test]
fn words_are_utf_8(rt: HostRuntime) -> Result<(), Fail> {
    check_rows(rt.alloc(), WORDS, &BYTES)
}
