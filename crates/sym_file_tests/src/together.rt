//! Texts of saved runs in one, by key and by threads.
ghost use Rattle.std.specs.Prelude.{◌≤◌, IfOk, IfSome, length};
ghost use Rattle.std.specs.List.{All};
ghost use Rattle.sym_base.specs.declared.limits.TheConstants as limit;

use crate::scripts::{RISING, WORDS};
use crate::setting::file_of;
use std::alloc::Global;
use std::sync::Wait;
use std::test::Fail;
use std::thread::Threads;
use sym_base::NoMemory;
use sym_check::Checked;
use sym_file::{join_texts, write_saved};
use sym_given::{ThreadedCase, bytes_differ, check_threaded_cases, found_unless};

/// Texts, after the script, and what they come to.
#[derive(Drop)]
struct Joining<'a> {
    script: &'static str,
    parts: &'a [&'static str],
    wanted: Option<&'static str>,
}

const THREADS: [usize; 4] = [0, 1, 2, 5];

fn texts_of(
    alloc: Global,
    checked: &Checked,
    parts: &[&str],
) -> Result<Option<Vec<Vec<u8>>>, NoMemory>
    ensures { IfOk result (λ found. IfSome found (λ texts.
        All (λ text. length text.items ≤ limit.FILE_MAX) texts.items)) }
{
    let mut texts = Vec::new(alloc);
    'parts: for part in parts {
        let text = file_of(alloc, checked, part.as_bytes())?;
        if text.len() > 1_000_000 {
            return Ok(None);
        }
        texts.push(text)?;
    }
    Ok(Some(texts))
}

/// The text that they come to by so many threads.
fn joined_by<T: Threads + Sync>(
    rt: &T,
    alloc: Global,
    checked: &Checked,
    parts: &[&str],
    threads: usize,
) -> Result<Option<Vec<u8>>, NoMemory> {
    let Some(texts) = texts_of(alloc, checked, parts)? else {
        return Ok(None);
    };
    match join_texts(rt, alloc, checked, texts.as_slice(), 16, threads) {
        Some(saved) => Ok(Some(write_saved(alloc, checked, &saved)?)),
        None => Ok(None),
    }
}

/// How the text that they come to differs from the one that is wanted.
fn joined_differs(
    alloc: Global,
    checked: &Checked,
    joined: &Option<Vec<u8>>,
    wanted: Option<&'static str>,
) -> Result<Option<String>, NoMemory> {
    match (joined, wanted) {
        (Some(bytes), Some(wanted)) => {
            let text = file_of(alloc, checked, wanted.as_bytes())?;
            bytes_differ(alloc, bytes.as_slice(), text.as_slice())
        }
        (Some(_), None) => found_unless(alloc, false, "found a saved run, wanted none"),
        (None, Some(_)) => found_unless(alloc, false, "found none, wanted a saved run"),
        (None, None) => Ok(None),
    }
}

impl<'a> ThreadedCase for Joining<'a> {
    fn script(&self) -> &str {
        self.script
    }

    fn differs<T: Threads + Wait + Sync>(
        &self,
        rt: &T,
        alloc: Global,
        checked: &Checked,
    ) -> Result<Option<String>, NoMemory> {
        'threads: for threads in THREADS {
            let joined = joined_by(rt, alloc, checked, self.parts, threads)?;
            if let Some(told) = joined_differs(alloc, checked, &joined, self.wanted)? {
                return Ok(Some(format!(in alloc; "by {threads} threads: {told}")?));
            }
        }
        Ok(None)
    }
}

// The records of `a`, `b` and `a`; then of `c` and `a`; then of `b`, `d`, `c` and `d`.
const FIRST: &str =
    "first 1\nnext 4\ngroups 2\nkey w1:a\nchain 1\nsegment 3\nwhen i12..12\nover 0 1\n\
    when i11..11\nover 0 3\nwhen i0..10\nnext x0,1,2\nkey w1:b\nchain 1\nsegment 2\n\
    when i12..12\nover 0 2\nwhen i0..11\nnext x0,1,1\nend\n";

const SECOND: &str =
    "first 4\nnext 6\ngroups 2\nkey w1:c\nchain 1\nsegment 2\nwhen i12..12\nover 0 4\n\
    when i0..11\nnext x0,1,1\nkey w1:a\nchain 1\nsegment 2\nwhen i12..12\nover 0 5\n\
    when i0..11\nnext x0,1,1\nend\n";

const THIRD: &str =
    "first 6\nnext 10\ngroups 3\nkey w1:b\nchain 1\nsegment 2\nwhen i12..12\nover 0 6\n\
    when i0..11\nnext x0,1,1\nkey w1:d\nchain 1\nsegment 3\nwhen i12..12\nover 0 7\n\
    when i11..11\nover 0 9\nwhen i0..10\nnext x0,1,2\nkey w1:c\nchain 1\nsegment 2\n\
    when i12..12\nover 0 8\nwhen i0..11\nnext x0,1,1\nend\n";

// All of them.
const ALL: &str =
    "first 1\nnext 10\ngroups 4\nkey w1:a\nchain 1\nsegment 4\nwhen i12..12\nover 0 1\n\
    when i11..11\nover 0 3\nwhen i10..10\nover 0 5\nwhen i0..9\nnext x0,1,3\nkey w1:b\n\
    chain 1\nsegment 3\nwhen i12..12\nover 0 2\nwhen i11..11\nover 0 6\nwhen i0..10\n\
    next x0,1,2\nkey w1:c\nchain 1\nsegment 3\nwhen i12..12\nover 0 4\nwhen i11..11\n\
    over 0 8\nwhen i0..10\nnext x0,1,2\nkey w1:d\nchain 1\nsegment 3\nwhen i12..12\n\
    over 0 7\nwhen i11..11\nover 0 9\nwhen i0..10\nnext x0,1,2\nend\n";

// A text that names `b` twice.
const TWICE: &str = "first 4\nnext 6\ngroups 2\nkey w1:b\nchain 1\nsegment 1\nwhen i0..12\n\
    next x0,1,0\nkey w1:b\nchain 1\nsegment 1\nwhen i0..12\nnext x0,1,0\nend\n";

#[test]
fn texts_come_to_what_they_come_to_in_order(rt: HostRuntime) -> Result<(), Fail> {
    let of = |parts, wanted| Joining {
        script: RISING,
        parts,
        wanted,
    };
    let cases = [
        of(&[FIRST], Some(FIRST)),
        of(&[FIRST, SECOND, THIRD], Some(ALL)),
        of(&[], None),
        of(&[FIRST, THIRD], None),
        of(&[SECOND, FIRST], None),
        of(&[FIRST, TWICE], None),
    ];
    check_threaded_cases(&rt, rt.alloc(), &cases)
}

// A chain with a word that has a line which begins as that of a key does, and one without.
const LINE: &str = "first 1\nnext 2\ngroups 1\nkey n1 l0\nchain 1\nsegment 1\nwhen v\n\
    next a1 w5:x\nkey\nend\n";

const NO_LINE: &str = "first 1\nnext 2\ngroups 1\nkey n1 l0\nchain 1\nsegment 1\nwhen v\n\
    next a1 w5:x\ndey\nend\n";

// What is none here may be one in order.
#[test]
fn a_chain_that_seems_to_end_is_left_to_the_order(rt: HostRuntime) -> Result<(), Fail> {
    let of = |parts, wanted| Joining {
        script: WORDS,
        parts,
        wanted,
    };
    let cases = [of(&[NO_LINE], Some(NO_LINE)), of(&[LINE], None)];
    check_threaded_cases(&rt, rt.alloc(), &cases)
}
