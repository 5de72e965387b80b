//! Paths that follow one another, and paths that are settled.
ghost use Rattle.std.specs.Prelude.{IfOk};
ghost use Rattle.sym_check.specs.Checking.CheckedScripts.{checked_plan};
ghost use Rattle.sym_path.specs.Fitting.{PathFits, SegmentFits};

use crate::stop::Stop;
use std::alloc::Global;
use std::time::{CpuClock, Duration};
use sym_base::Sequence;
use sym_check::Checked;
use sym_int::{IntForm, Number, Span};
use sym_path::{Form, Part, Path, PathEnd, Segment, follow, settle};
use sym_vector::ListForm;

/// How the spans and the lists of paths lie to one another.
#[derive(Clone, Copy, Debug, PartialEq, Eq)]
pub(crate) enum Kind {
    /// No two spans touch.
    Apart,
    /// The spans touch, and the lists differ.
    Touching,
    /// The spans touch, and all else is equal: the paths become one.
    Equal,
}

fn constant(value: i64) -> Result<IntForm, Stop> {
    match Number::new(value) {
        Some(number) => Ok(IntForm::Const(number)),
        None => Err(Stop::Input),
    }
}

/// A list with so many numbers added, of which this is the first.
fn list(alloc: Global, first: u32, length: u32) -> Result<ListForm<IntForm>, Stop> {
    let mut form = ListForm::same(alloc);
    'numbers: for at in 0..length {
        let value = if at == 0 { first } else { at };
        form = form.push(alloc, constant(i64::from(value))?)?;
    }
    Ok(form)
}

/// The path for the numbers of this span after which the number is 5 and the list has these more.
/// It fits the script.
fn path_over(
    alloc: Global,
    checked: &Checked,
    span: (u32, u32),
    first: u32,
    length: u32,
) -> Result<Path, Stop>
    ensures { IfOk result (PathFits (checked_plan checked.now)) }
{
    let Some(span) = Span::new(i64::from(span.0), i64::from(span.1)) else {
        return Err(Stop::Input);
    };
    let when = vec![in alloc; Part::Span(span), Part::Free]?;
    let number = Form::Int(constant(5)?);
    let forms = vec![in alloc; number, Form::Nums(list(alloc, first, length)?)]?;
    let path = Path {
        when: Sequence::of(when),
        end: PathEnd::Next(Sequence::of(forms)),
    };
    if path.fits(checked) {
        Ok(path)
    } else {
        Err(Stop::Input)
    }
}

/// So many paths of this kind, in order of their spans.
fn paths_of(
    alloc: Global,
    checked: &Checked,
    kind: Kind,
    paths: u32,
    length: u32,
) -> Result<Vec<Path>, Stop> {
    let mut made = Vec::new(alloc);
    'paths: for at in 0..paths {
        let lo = at.saturating_mul(4);
        let hi = lo.saturating_add(if kind == Kind::Apart { 2 } else { 3 });
        let first = if kind == Kind::Touching { at } else { 0 };
        made.push(path_over(alloc, checked, (lo, hi), first, length)?)?;
    }
    Ok(made)
}

/// What settling or following comes to, and its processor time.
#[derive(Clone, Copy, Debug)]
pub(crate) struct Timed {
    /// How many paths are left, or how many numbers the lists have.
    pub(crate) count: usize,
    pub(crate) time: Duration,
}

fn settle_all(alloc: Global, batches: Vec<Vec<Path>>) -> Result<Vec<Segment>, Stop> {
    let mut settled = Vec::with_capacity(alloc, batches.len())?;
    'batches: for batch in batches {
        settled.push(settle(alloc, batch)?)?;
    }
    Ok(settled)
}

fn count_of(segments: &[Segment]) -> usize {
    let mut count = 0usize;
    'segments: for segment in segments {
        count = count.wrapping_add(segment.paths().len());
    }
    count
}

/// Settles as many lists of paths as there are turns.
pub(crate) fn settle_in_turn<R: CpuClock>(
    rt: &R,
    alloc: Global,
    checked: &Checked,
    kind: Kind,
    size: (u32, u32),
    turns: u32,
) -> Result<Timed, Stop> {
    let (paths, length) = size;
    let mut batches = Vec::new(alloc);
    'batches: for _ in 0..turns {
        batches.push(paths_of(alloc, checked, kind, paths, length)?)?;
    }
    let start = rt.process_cpu_time()?;
    let settled = settle_all(alloc, batches)?;
    let end = rt.process_cpu_time()?;
    Ok(Timed {
        count: count_of(&settled),
        time: end.saturating_sub(start),
    })
}

/// Each of the paths followed by the next one, to which it is given away.
fn follow_all(
    alloc: Global,
    checked: &Checked,
    paths: Vec<Path>,
    next: &Path,
) -> Result<Vec<Path>, Stop>
    requires first { SegmentFits (checked_plan checked.now) paths.items }
    requires second { PathFits (checked_plan checked.now) next.now }
    ensures { IfOk result (λ both. SegmentFits (checked_plan checked.now) both.items) }
{
    let mut both = Vec::with_capacity(alloc, paths.len())?;
    'paths: for path in paths {
        match path.followed_by(alloc, checked, next)? {
            Some(path) => both.push(path)?,
            None => return Err(Stop::Input),
        }
    }
    Ok(both)
}

/// The same of paths that are lent: each is copied.
fn follow_copies(
    alloc: Global,
    checked: &Checked,
    paths: &[Path],
    next: &Path,
) -> Result<Vec<Path>, Stop>
    requires first { SegmentFits (checked_plan checked.now) paths.now }
    requires second { PathFits (checked_plan checked.now) next.now }
    ensures { IfOk result (λ both. SegmentFits (checked_plan checked.now) both.items) }
{
    let mut both = Vec::with_capacity(alloc, paths.len())?;
    'paths: for path in paths {
        match follow(alloc, checked, path, next)? {
            Some(path) => both.push(path)?,
            None => return Err(Stop::Input),
        }
    }
    Ok(both)
}

/// How many numbers the paths add to their lists.
fn added_by(paths: &[Path]) -> usize {
    let mut count = 0usize;
    'paths: for path in paths {
        if let Some(Form::Nums(added)) = path.form(1) {
            count = count.wrapping_add(added.len());
        }
    }
    count
}

/// Follows as many paths with lists of this length as there are turns by a path that adds a number.
/// They are given away where they may be moved, else lent. Counts the numbers of the lists.
pub(crate) fn follow_in_turn<R: CpuClock>(
    rt: &R,
    alloc: Global,
    checked: &Checked,
    is_moved: bool,
    length: u32,
    turns: u32,
) -> Result<Timed, Stop> {
    let next = path_over(alloc, checked, (0, 1_000_000), 0, 1)?;
    let mut paths = Vec::new(alloc);
    'turns: for _ in 0..turns {
        paths.push(path_over(alloc, checked, (0, 1_000_000), 0, length)?)?;
    }
    let start = rt.process_cpu_time()?;
    let both = if is_moved {
        follow_all(alloc, checked, paths, &next)?
    } else {
        follow_copies(alloc, checked, &paths, &next)?
    };
    let end = rt.process_cpu_time()?;
    Ok(Timed {
        count: added_by(&both),
        time: end.saturating_sub(start),
    })
}
