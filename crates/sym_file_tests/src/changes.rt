//! A file whose bits are changed one by one, and one that is cut off. The numbers of answers were
//! counted by a program apart, which reads such a file by regular expressions.
use crate::setting::{Answer, answer_of};
use std::alloc::Global;
use std::test::Fail;
use sym_base::NoMemory;
use sym_check::Checked;
use sym_given::saved::{KEPT, KEPT_OTHERWISE, TWO as FILE};
use sym_given::scripts::{COUNTER, TOGGLE};
use sym_given::{Case, check_cases, difference};

/// How many of some bytes are read, and how they are refused.
#[derive(Clone, Copy, Debug, PartialEq, Eq)]
struct Answers {
    read: u32,
    wrong: u32,
    other_script: u32,
    malformed: u32,
}

const NONE: Answers = Answers {
    read: 0,
    wrong: 0,
    other_script: 0,
    malformed: 0,
};

impl Answers {
    fn count(&mut self, answer: Answer) {
        match answer {
            Answer::Read => self.read = self.read.saturating_add(1),
            Answer::Wrong => self.wrong = self.wrong.saturating_add(1),
            Answer::OtherScript => self.other_script = self.other_script.saturating_add(1),
            Answer::Malformed => self.malformed = self.malformed.saturating_add(1),
        }
    }
}

/// Counts the answers to the file with each of the eight bits of this byte changed.
fn count_changes(
    alloc: Global,
    checked: &Checked,
    bytes: &mut Vec<u8>,
    index: usize,
    answers: &mut Answers,
) -> Result<(), NoMemory> {
    if index >= bytes.len() {
        return Ok(());
    }
    let own = bytes[index];
    'bits: for bit in 0..8u32 {
        if index >= bytes.len() {
            break;
        }
        bytes[index] = own ^ (1 << bit);
        answers.count(answer_of(alloc, checked, bytes)?);
    }
    if index < bytes.len() {
        bytes[index] = own;
    }
    Ok(())
}

fn changes_of(alloc: Global, checked: &Checked) -> Result<Answers, NoMemory> {
    let mut bytes = Vec::new(alloc);
    bytes.extend_from_slice(FILE.as_bytes())?;
    let mut answers = NONE;
    'bytes: for index in 0..FILE.len() {
        count_changes(alloc, checked, &mut bytes, index, &mut answers)?;
    }
    Ok(answers)
}

/// The file with a bit changed is refused, or it is read as the run that it says.
#[derive(Drop)]
struct Changes;

impl Case for Changes {
    fn script(&self) -> &str {
        KEPT
    }

    fn differs(&self, alloc: Global, checked: &Checked) -> Result<Option<String>, NoMemory> {
        let wanted = Answers {
            read: 8,
            wrong: 0,
            other_script: 637,
            malformed: 755,
        };
        difference(alloc, &changes_of(alloc, checked)?, &wanted)
    }
}

#[test]
fn each_bit_of_a_file_is_told(rt: HostRuntime) -> Result<(), Fail> {
    check_cases(rt.alloc(), &[Changes])
}

/// How the answer to these bytes differs.
fn answer_differs(
    alloc: Global,
    checked: &Checked,
    bytes: &[u8],
    wanted: Answer,
) -> Result<Option<String>, NoMemory> {
    let (count, found) = (bytes.len(), answer_of(alloc, checked, bytes)?);
    match difference(alloc, &found, &wanted)? {
        Some(told) => Ok(Some(format!(in alloc; "{count} bytes: {told}")?)),
        None => Ok(None),
    }
}

/// The file without its last bytes is no run.
#[derive(Drop)]
struct Cuts;

impl Case for Cuts {
    fn script(&self) -> &str {
        KEPT
    }

    fn differs(&self, alloc: Global, checked: &Checked) -> Result<Option<String>, NoMemory> {
        let bytes = FILE.as_bytes();
        'ends: for end in 0..bytes.len() {
            let told = answer_differs(alloc, checked, &bytes[..end], Answer::Malformed)?;
            if told.is_some() {
                return Ok(told);
            }
        }
        answer_differs(alloc, checked, bytes, Answer::Read)
    }
}

#[test]
fn a_file_that_is_cut_off_is_none(rt: HostRuntime) -> Result<(), Fail> {
    check_cases(rt.alloc(), &[Cuts])
}

/// The file is one of the script, however that is written, and of no other script.
#[derive(Drop)]
struct Written {
    script: &'static str,
    answer: Answer,
}

impl Case for Written {
    fn script(&self) -> &str {
        self.script
    }

    fn differs(&self, alloc: Global, checked: &Checked) -> Result<Option<String>, NoMemory> {
        difference(
            alloc,
            &answer_of(alloc, checked, FILE.as_bytes())?,
            &self.answer,
        )
    }
}

#[test]
fn a_file_is_of_its_script_however_that_is_written(rt: HostRuntime) -> Result<(), Fail> {
    let cases = [
        Written {
            script: KEPT,
            answer: Answer::Read,
        },
        Written {
            script: KEPT_OTHERWISE,
            answer: Answer::Read,
        },
        Written {
            script: COUNTER,
            answer: Answer::OtherScript,
        },
        Written {
            script: TOGGLE,
            answer: Answer::OtherScript,
        },
    ];
    check_cases(rt.alloc(), &cases)
}
