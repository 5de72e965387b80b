//! Paths that end, and move out of a list of paths.
ghost use Rattle.std.specs.Prelude.{◌≡◌, ◌≤◌, ◌++◌, [], IfOk, OnOk, drop, length, take};
ghost use Rattle.std.specs.List.{All};
ghost use Rattle.std.specs.List.Sorted.{IsPermutation};
ghost use Rattle.sym_path.specs.Changing.{GoesOn};
ghost use Rattle.sym_path.specs.declared.path.Path.{Path as OnePath};
ghost use Rattle.sym_explore.specs.Ending.{AreMoved};
ghost use Rattle.sym_explore.specs.Parting.{AllGoOn};
ghost use Rattle.sym_explore.specs.Running.{failed_paths};

use crate::moves::{move_all, move_from};
use std::alloc::Global;
use sym_base::{Fault, FaultKind, NoMemory};
use sym_path::Path;

/// The fault of arithmetic that fails at the record with this number.
pub(crate) fn arith(no: u64) -> Fault
    ensures kind { result.kind ≡ FaultKind.Arith }
    ensures no { result.no ≡ no }
{
    Fault {
        kind: FaultKind::Arith,
        no,
    }
}

/// Ends each of the paths by a fault.
fn fail_each(paths: &mut [Path], fault: Fault)
    ensures { paths.new ≡ failed_paths fault paths.old }
{
    'paths: for path in paths.iter_mut() {
        path.fail(fault);
    }
}

/// Moves the paths that have ended to the end of another list. The others may change their order.
pub(crate) fn move_ended(paths: &mut Vec<Path>, ended: &mut Vec<Path>) -> Result<(), NoMemory>
    ensures moved { OnOk result (AreMoved paths.old.items paths.new.items
        ended.old.items ended.new.items) }
    ensures going { OnOk result (AllGoOn paths.new.items) }
{
    let mut index = 0;
    'paths: while index < paths.len() {
        if paths[index].goes_on() {
            index += 1;
        } else {
            let path = paths.swap_remove(index);
            ended.push(path)?;
        }
    }
    Ok(())
}

/// The number of paths at the beginning that have ended.
fn first_ended(paths: &[Path]) -> usize
    ensures within { result ≤ length paths.now }
    ensures ended { All (λ (path : OnePath). ¬ (GoesOn path.end)) (take result paths.now) }
{
    let mut count = 0;
    'paths: for path in paths {
        if path.goes_on() {
            return count;
        }
        count += 1;
    }
    count
}

/// Puts those of the paths that have ended first. The answer is their number. Those that are first
/// already stay where they are.
fn put_ended_first(paths: &mut Vec<Path>) -> usize
    ensures within { result ≤ length paths.new.items }
    ensures same { IsPermutation paths.old.items paths.new.items }
    ensures ended { All (λ (path : OnePath). ¬ (GoesOn path.end)) (take result paths.new.items) }
    ensures going { AllGoOn (drop result paths.new.items) }
{
    let mut count = first_ended(paths);
    let mut index = count;
    'paths: while index < paths.len() {
        if !paths[index].goes_on() {
            paths.swap(count, index);
            count += 1;
        }
        index += 1;
    }
    count
}

/// Moves those that go on out of a list of paths into an empty one. It takes no memory where none
/// or all have ended, or the other one has room.
pub(crate) fn take_going(paths: &mut Vec<Path>, going: &mut Vec<Path>) -> Result<(), NoMemory>
    requires { going.old.items ≡ [] }
    ensures moved { OnOk result (AreMoved paths.old.items going.new.items
        [] paths.new.items) }
    ensures going { OnOk result (AllGoOn going.new.items) }
{
    let ended = put_ended_first(paths);
    move_from(paths, ended, going)?;
    Ok(())
}

/// Ends all of the paths by the fault, and puts them after those that have ended.
pub(crate) fn fail_all(
    fault: Fault,
    paths: &mut Vec<Path>,
    ended: &mut Vec<Path>,
) -> Result<(), NoMemory>
    ensures paths { OnOk result (paths.new.items ≡ []) }
    ensures ended { OnOk result
        (ended.new.items ≡ ended.old.items ++ failed_paths fault paths.old.items) }
{
    fail_each(paths, fault);
    move_all(paths, ended)
}
