//! Paths as texts: the part of each cell, and then its form or the fault.
use std::alloc::Global;
use sym_base::{NoMemory, Text};
use sym_enum::{EnumForm, LabelSet};
use sym_int::IntForm;
use sym_path::{Form, Part, Path, PathEnd, Segment};
use sym_pred::{Facts, HoldForm};
use sym_vector::ListForm;

fn push_labels(alloc: Global, text: &mut String, set: &LabelSet) -> Result<(), NoMemory> {
    text.push_str(" {")?;
    'labels: for label in 0..32 {
        if set.has(label) {
            text.push_str(format!(in alloc; " {label}")?.as_str())?;
        }
    }
    text.push_str(" }")?;
    Ok(())
}

fn push_facts(alloc: Global, text: &mut String, facts: &Facts) -> Result<(), NoMemory> {
    text.push_str(" (")?;
    'literals: for place in 0..facts.len() {
        if let Some(literal) = facts.at(place) {
            let (test, outcome) = (literal.test, literal.outcome);
            let args = literal.args.as_slice();
            let said = format!(in alloc; " t{test}{args:?}={outcome}")?;
            text.push_str(said.as_str())?;
        }
    }
    text.push_str(" )")?;
    Ok(())
}

fn push_part(alloc: Global, text: &mut String, part: &Part) -> Result<(), NoMemory> {
    match part {
        Part::Set(set) => push_labels(alloc, text, set)?,
        Part::Span(span) => {
            let (lo, hi) = (span.lo, span.hi);
            text.push_str(format!(in alloc; " {lo}..{hi}")?.as_str())?;
        }
        Part::Facts(facts) => push_facts(alloc, text, facts)?,
        Part::Free => text.push_str(" any")?,
    }
    Ok(())
}

fn push_number(alloc: Global, text: &mut String, form: &IntForm) -> Result<(), NoMemory> {
    let said = match form {
        IntForm::Const(number) => {
            let value = number.value;
            format!(in alloc; " {value}")?
        }
        IntForm::Line(line) => {
            let (a, cell, b) = (line.a, line.cell, line.offset());
            format!(in alloc; " {a}*x{cell}+{b}")?
        }
    };
    text.push_str(said.as_str())?;
    Ok(())
}

fn push_numbers(
    alloc: Global,
    text: &mut String,
    added: &ListForm<IntForm>,
) -> Result<(), NoMemory> {
    text.push_str(" [")?;
    'numbers: for place in 0..added.len() {
        if let Some(number) = added.at(place) {
            push_number(alloc, text, number)?;
        }
    }
    text.push_str(" ]")?;
    Ok(())
}

fn push_words(text: &mut String, added: &ListForm<Text>) -> Result<(), NoMemory> {
    text.push_str(" [")?;
    'words: for place in 0..added.len() {
        if let Some(word) = added.at(place) {
            text.push_str(" ")?;
            text.push_str(word.as_str())?;
        }
    }
    text.push_str(" ]")?;
    Ok(())
}

fn push_form(alloc: Global, text: &mut String, form: &Form) -> Result<(), NoMemory> {
    let said = match form {
        Form::Enum(EnumForm::Const(label)) => format!(in alloc; " #{label}")?,
        Form::Enum(EnumForm::Copy(cell)) | Form::Hold(HoldForm::Copy(cell)) => {
            format!(in alloc; " x{cell}")?
        }
        Form::Hold(HoldForm::Const(parts)) => {
            let parts = parts.as_slice();
            format!(in alloc; " {parts:?}")?
        }
        Form::Int(number) => return push_number(alloc, text, number),
        Form::Nums(added) => return push_numbers(alloc, text, added),
        Form::Words(added) => return push_words(text, added),
    };
    text.push_str(said.as_str())?;
    Ok(())
}

fn push_end(alloc: Global, text: &mut String, end: &PathEnd) -> Result<(), NoMemory> {
    match end {
        PathEnd::Next(forms) => {
            'forms: for form in forms.as_slice() {
                push_form(alloc, text, form)?;
            }
        }
        PathEnd::Ended(fault) => text.push_str(format!(in alloc; " {fault:?}")?.as_str())?,
    }
    Ok(())
}

fn push_path(alloc: Global, text: &mut String, path: &Path) -> Result<(), NoMemory> {
    'parts: for part in path.when.as_slice() {
        push_part(alloc, text, part)?;
    }
    text.push_str(" =>")?;
    push_end(alloc, text, &path.end)
}

/// The text of a path, if there is one.
pub(crate) fn path_text(alloc: Global, path: Option<&Path>) -> Result<String, NoMemory> {
    let mut text = String::new(alloc);
    match path {
        Some(path) => push_path(alloc, &mut text, path)?,
        None => text.push_str(" no path")?,
    }
    Ok(text)
}

/// The text of the paths of a segment.
pub(crate) fn segment_text(alloc: Global, segment: &Segment) -> Result<String, NoMemory> {
    let mut text = String::new(alloc);
    'paths: for path in segment.paths() {
        push_path(alloc, &mut text, path)?;
        text.push_str(";")?;
    }
    Ok(text)
}

/// What is found and what is wanted, if they differ.
pub(crate) fn paths_differ(
    alloc: Global,
    found: &Option<Path>,
    wanted: &Option<Path>,
) -> Result<Option<String>, NoMemory> {
    if found == wanted {
        return Ok(None);
    }
    let found = path_text(alloc, found.as_ref())?;
    let wanted = path_text(alloc, wanted.as_ref())?;
    Ok(Some(format!(in alloc; "found{found}, wanted{wanted}")?))
}
