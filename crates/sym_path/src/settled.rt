//! Lists of paths of which no two can be joined.
ghost use Rattle.std.specs.Prelude.{◌<◌, ◌≤◌, ◌↔◌, ℕ, IfOk, IsTrue, MatchOption, OnOk, length};
ghost use Rattle.sym_path.specs.Settling.{AreEndedInTurn, CanJoin, CannotJoin, EndsBefore};
ghost use Rattle.sym_path.specs.Settling.{IsPairJoined, IsSettling};

use crate::joins::joinable;
use crate::path::{Path, PathEnd};
use crate::segment::Segment;
use std::alloc::Global;
use sym_base::NoMemory;

/// Whether both paths have ended, and the second one at a later record.
fn ends_before(p: &Path, q: &Path) -> bool
    ensures { IsTrue result ↔ EndsBefore p.now q.now }
{
    match (&p.end, &q.end) {
        (PathEnd::Ended(fault), PathEnd::Ended(other)) => fault.no < other.no,
        _ => false,
    }
}

/// The number of paths at the beginning that have ended, each at a later record than the one
/// before it. No two of them can be joined.
fn ended_in_turn(paths: &[Path]) -> usize
    ensures within { result ≤ length paths.now }
    ensures ended { AreEndedInTurn paths.now result }
{
    if paths.is_empty() || paths[0].goes_on() {
        return 0;
    }
    'paths: for index in 1..paths.len() {
        if !ends_before(&paths[index - 1], &paths[index]) {
            return index;
        }
    }
    paths.len()
}

/// A number of first paths that can't be joined with the one at this index, since they ended in
/// turn, and it goes on or ended at a later record. Of those that ended in turn it looks at the
/// last one alone.
fn passed_over(paths: &[Path], index: usize, ended: usize) -> usize
    requires index { index < length paths.now }
    requires before { ended ≤ index }
    requires ended { AreEndedInTurn paths.now ended }
    ensures { (i : ℕ) → i < result → CannotJoin paths.now i index }
{
    if paths[index].goes_on() {
        ended
    } else if ended == 0 || ends_before(&paths[index], &paths[ended - 1]) {
        0
    } else {
        ended - 1
    }
}

/// The first of the paths before this one that can be joined with it; `None` where there is none.
/// The first `ended` paths have ended in turn. It takes no memory.
fn partner(paths: &[Path], index: usize, ended: usize) -> Option<usize>
    requires index { index < length paths.now }
    requires before { ended ≤ index }
    requires ended { AreEndedInTurn paths.now ended }
    ensures { MatchOption result ((i : ℕ) → i < index → CannotJoin paths.now i index)
        (λ i. (i < index) × CanJoin paths.now i index) }
{
    let start = passed_over(paths, index, ended);
    'paths: for earlier in start..index {
        if joinable(&paths[earlier], &paths[index]) {
            return Some(earlier);
        }
    }
    None
}

/// Joins two of the paths. The joined path stands before the place of the second one, and the
/// others keep their order. After an `Err` the two are dropped.
fn join_pair(paths: &mut Vec<Path>, first: usize, second: usize) -> Result<(), NoMemory>
    requires earlier { first < second }
    requires within { second < length paths.old.items }
    requires joinable { CanJoin paths.old.items first second }
    ensures { OnOk result (IsPairJoined paths.old.items first second paths.new.items) }
{
    let q = paths.remove(second);
    let p = paths.remove(first);
    paths.insert(second - 1, p.join(q))?;
    Ok(())
}

/// A segment that admits and gives what the paths do wherever at most one of them admits the
/// state, and of which no two paths can be joined. Paths are moved, and nothing is copied.
pub fn settle(_alloc: Global, paths: Vec<Path>) -> Result<Segment, NoMemory>
    ensures { IfOk result (IsSettling paths.items) }
{
    let mut paths = paths;
    let mut ended = ended_in_turn(&paths);
    let mut settled = ended;
    'paths: while settled < paths.len() {
        match partner(&paths, settled, ended) {
            Some(index) => {
                join_pair(&mut paths, index, settled)?;
                ended = ended.min(index);
                settled -= 1;
            }
            None => settled += 1,
        }
    }
    Ok(Segment::of(paths))
}
