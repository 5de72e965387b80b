//! Several segments in one: in whichever order they are composed, they come to the same.
ghost use Rattle.std.specs.Prelude.{All, IfOk, IfSome};
ghost use Rattle.sym_check.specs.Checking.CheckedScripts.{checked_plan};
ghost use Rattle.sym_path.specs.Fitting.{SegmentFits};
ghost use Rattle.sym_uses.specs.Segments.{IsAlsoFromLeft, StandsInOrder};

use std::alloc::Global;
use sym_base::NoMemory;
use sym_check::Checked;
use sym_path::laws::composition::{composition_is_associative, path_of_all_is_neutral};
use sym_path::{Path, Segment, compose};

/// The segment of three, composed from the right. What is composed of them from the left gives the
/// same outcomes of each state.
pub fn three_in_one(
    alloc: Global,
    checked: &Checked,
    first: &Segment,
    second: &Segment,
    third: &Segment,
) -> Result<Segment, NoMemory>
    requires first { SegmentFits (checked_plan checked.now) first.now }
    requires second { SegmentFits (checked_plan checked.now) second.now }
    requires third { SegmentFits (checked_plan checked.now) third.now }
    ensures fits { IfOk result (SegmentFits (checked_plan checked.now)) }
    ensures either_way { IfOk result (IsAlsoFromLeft (checked_plan checked.now)
        first.now second.now third.now) }
{
    composition_is_associative();
    let rest = compose(alloc, checked, second, third)?;
    compose(alloc, checked, first, &rest)
}

/// The segment of all of these in order; of none, the path alone that leaves each state as it is.
pub fn all_in_one(
    alloc: Global,
    checked: &Checked,
    segments: &[Segment],
) -> Result<Segment, NoMemory>
    requires { All (SegmentFits (checked_plan checked.now)) segments.now }
    ensures fits { IfOk result (SegmentFits (checked_plan checked.now)) }
    ensures stands { IfOk result (StandsInOrder (checked_plan checked.now) segments.now) }
{
    path_of_all_is_neutral();
    let mut paths = Vec::with_capacity(alloc, 1)?;
    paths.push(Path::all(alloc, checked)?)?;
    let mut whole = Segment::of(paths);
    'segments: for next in segments {
        whole = whole.composed_with(alloc, checked, next)?;
    }
    Ok(whole)
}

#[cfg(test)]
mod tests {
    use super::*;
    use crate::sizes::checked_text;
    use std::test::Fail;
    use sym_base::{Fault, FaultKind, Sequence};
    use sym_int::{IntForm, Line, Span};
    use sym_path::{Form, Part, PathEnd};

    fn path(alloc: Global, lo: i64, hi: i64, end: PathEnd) -> Result<Option<Path>, NoMemory> {
        let mut when = Sequence::new(alloc);
        match Span::new(lo, hi) {
            Some(span) => when.push(Part::Span(span))?,
            None => return Ok(None),
        }
        Ok(Some(Path { when, end }))
    }

    /// The two paths, where they fit the script.
    fn fitting(
        alloc: Global,
        checked: &Checked,
        first: Path,
        second: Path,
    ) -> Result<Option<Segment>, NoMemory>
        ensures { IfOk result (λ made. IfSome made (SegmentFits (checked_plan checked.now))) }
    {
        if !first.fits(checked) || !second.fits(checked) {
            return Ok(None);
        }
        let mut paths = Vec::new(alloc);
        paths.push(first)?;
        paths.push(second)?;
        Ok(Some(Segment::of(paths)))
    }

    /// A number below 3 becomes the next one, and 3 ends the group.
    fn next(alloc: Global, checked: &Checked) -> Result<Option<Segment>, NoMemory>
        ensures { IfOk result (λ made. IfSome made (SegmentFits (checked_plan checked.now))) }
    {
        let mut forms = Sequence::new(alloc);
        forms.push(Form::Int(IntForm::Line(Line::of(0, 1, 1))))?;
        let over = Fault {
            kind: FaultKind::Over(0),
            no: 1,
        };
        let first = path(alloc, 0, 2, PathEnd::Next(forms))?;
        let second = path(alloc, 3, 3, PathEnd::Ended(over))?;
        match (first, second) {
            (Some(first), Some(second)) => fitting(alloc, checked, first, second),
            _ => Ok(None),
        }
    }

    fn from_left(alloc: Global, checked: &Checked, segment: &Segment) -> Result<Segment, NoMemory>
        requires { SegmentFits (checked_plan checked.now) segment.now }
    {
        compose(alloc, checked, segment, segment)?.composed_with(alloc, checked, segment)
    }

    #[test]
    fn three_segments_come_to_the_same_from_both_sides(rt: HostRuntime) -> Result<(), Fail> {
        let alloc = rt.alloc();
        let text = "field x: num; state n: int [0..3] = 0; \
                    update { n = n + 1; } report { n = n; }";
        let checked = checked_text(alloc, text.as_bytes()).ok().ok_or("script")?;
        let segment = next(alloc, &checked)?.ok_or("paths")?;
        let whole = three_in_one(alloc, &checked, &segment, &segment, &segment)?;
        assert!(rt; whole.paths().len() == 2);
        assert!(rt; whole == from_left(alloc, &checked, &segment)?);
        Ok(())
    }

    #[test]
    fn no_segments_come_to_the_path_of_all(rt: HostRuntime) -> Result<(), Fail> {
        let alloc = rt.alloc();
        let text = "field x: num; state n: int [0..3] = 0; \
                    update { n = n + 1; } report { n = n; }";
        let checked = checked_text(alloc, text.as_bytes()).ok().ok_or("script")?;
        let none = all_in_one(alloc, &checked, &[])?;
        assert!(rt; none.paths().len() == 1);
        let whole = none.composed_with(alloc, &checked, &next(alloc, &checked)?.ok_or("paths")?)?;
        assert!(rt; whole == next(alloc, &checked)?.ok_or("paths")?);
        Ok(())
    }
}
