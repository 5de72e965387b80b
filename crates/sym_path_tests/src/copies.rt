//! Copies of forms, paths and segments.
use crate::setting::{Stop, facts_of, holds, none_told, number, span, told_of};
use std::alloc::Global;
use std::test::Fail;
use sym_base::{Fault, FaultKind, NoMemory, Sequence, Text, Value, Values};
use sym_enum::{EnumForm, LabelSet};
use sym_explore::Extension;
use sym_given::{all_hold, difference};
use sym_int::IntForm;
use sym_path::{Composition, Form, Forms, Part, Path, PathEnd, Segment};
use sym_pred::{HoldForm, Literal};
use sym_vector::ListForm;

fn literal(alloc: Global) -> Result<Literal, NoMemory> {
    let mut args = Values::new(alloc);
    args.push(Value::Num(60))?;
    Ok(Literal {
        test: 0,
        args,
        outcome: true,
    })
}

fn parts(alloc: Global) -> Result<Sequence<Part>, Stop> {
    let mut parts = Sequence::new(alloc);
    parts.push(Part::Set(LabelSet::full(3)))?;
    parts.push(Part::Span(span(alloc, 0, 9)?))?;
    let mut literals = Vec::new(alloc);
    literals.push(literal(alloc)?)?;
    parts.push(Part::Facts(facts_of(alloc, literals)?))?;
    parts.push(Part::Free)?;
    Ok(parts)
}

fn forms(alloc: Global, line: IntForm) -> Result<Forms, NoMemory> {
    let mut forms = Sequence::new(alloc);
    forms.push(Form::Enum(EnumForm::Copy(0)))?;
    forms.push(Form::Int(line))?;
    forms.push(Form::Hold(HoldForm::Copy(2)))?;
    let numbers = ListForm::same(alloc).push(alloc, line)?;
    forms.push(Form::Nums(numbers))?;
    let words = ListForm::same(alloc).push(alloc, Text::from_str(alloc, "a")?)?;
    forms.push(Form::Words(words))?;
    Ok(forms)
}

fn next(alloc: Global) -> Result<PathEnd, Stop> {
    Ok(PathEnd::Next(forms(alloc, number(alloc, 1, 1, 1)?)?))
}

fn path(alloc: Global, end: PathEnd) -> Result<Path, Stop> {
    let when = parts(alloc)?;
    Ok(Path { when, end })
}

fn are_parts_copied(alloc: Global, parts: &[Part]) -> Result<(), Stop> {
    'parts: for part in parts {
        let same = part.copy(alloc)? == *part;
        holds(alloc, same, "found another part, wanted a copy")?;
    }
    Ok(())
}

fn are_forms_copied(alloc: Global, end: &PathEnd) -> Result<(), Stop> {
    let PathEnd::Next(forms) = end else {
        return holds(alloc, false, "found a fault, wanted forms");
    };
    'forms: for form in forms.as_slice() {
        let same = form.copy(alloc)? == *form;
        holds(alloc, same, "found another form, wanted a copy")?;
    }
    Ok(())
}

fn parts_and_forms_are_copied(alloc: Global) -> Result<(), Stop> {
    are_parts_copied(alloc, parts(alloc)?.as_slice())?;
    are_forms_copied(alloc, &next(alloc)?)
}

#[test]
fn copies_of_parts_and_forms_are_equal(rt: HostRuntime) -> Result<(), Fail> {
    all_hold(told_of(parts_and_forms_are_copied(rt.alloc())))
}

fn is_path_copied(alloc: Global, path: &Path) -> Result<(), Stop> {
    let same = path.copy(alloc)? == *path && path.end.copy(alloc)? == path.end;
    holds(alloc, same, "found another path, wanted a copy")
}

fn segment(alloc: Global) -> Result<Segment, Stop> {
    let mut paths = Vec::new(alloc);
    paths.push(path(alloc, next(alloc)?)?)?;
    let fault = Fault {
        kind: FaultKind::Over(1),
        no: 5,
    };
    paths.push(path(alloc, PathEnd::Ended(fault))?)?;
    Ok(Segment::of(paths))
}

fn are_paths_copied(alloc: Global, segment: &Segment) -> Result<(), Stop> {
    'paths: for path in segment.paths() {
        is_path_copied(alloc, path)?;
    }
    none_told(difference(alloc, &segment.paths().len(), &2))
}

fn is_segment_copied(alloc: Global, segment: &Segment) -> Result<(), Stop> {
    let copied = segment.copy(alloc)?;
    let same = copied == *segment;
    holds(alloc, same, "found another segment, wanted a copy")?;
    none_told(difference(alloc, &copied.into_vec().len(), &2))
}

fn is_composition_copied(alloc: Global, segment: &Segment) -> Result<(), Stop> {
    let one = Composition::One(segment.copy(alloc)?);
    let apart = Composition::Apart(segment.copy(alloc)?, segment.copy(alloc)?);
    let same = one.copy(alloc)? == one && apart.copy(alloc)? == apart;
    holds(alloc, same, "found another composition, wanted a copy")
}

fn is_extension_copied(alloc: Global, segment: &Segment) -> Result<(), Stop> {
    let fits = Extension::Fits(segment.copy(alloc)?);
    let over = Extension::Over(segment.copy(alloc)?);
    let same = fits.copy(alloc)? == fits && over.copy(alloc)? == over;
    holds(alloc, same, "found another extension, wanted a copy")
}

fn are_copied(alloc: Global, segment: &Segment) -> Result<(), Stop> {
    are_paths_copied(alloc, segment)?;
    is_segment_copied(alloc, segment)?;
    is_composition_copied(alloc, segment)?;
    is_extension_copied(alloc, segment)
}

fn segments_are_copied(alloc: Global) -> Result<(), Stop> {
    are_copied(alloc, &segment(alloc)?)
}

#[test]
fn copies_of_paths_and_segments_are_equal(rt: HostRuntime) -> Result<(), Fail> {
    all_hold(told_of(segments_are_copied(rt.alloc())))
}
