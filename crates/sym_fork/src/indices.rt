//! A call for each index, each on a thread of its own.
ghost use Rattle.std.specs.Prelude.{◌≡◌, ℕ, ◌<◌, IfOk, vec_len};
ghost use Rattle.std.specs.Fn.{FnReturns};
ghost use Rattle.std.specs.Fork.{GivesEach};
ghost use Rattle.std.specs.Thread.{IsSync, IsSend};

use std::alloc::{AllocError, Global};
use std::thread::{Threads, join};

/// What `call` returns at 0 to `count - 1`, in order. Each call has a thread of its own, and this
/// one waits for them: where it worked too, the system might leave another thread waiting for its
/// processor. With one call no thread is made. `Err` says that an allocation failed.
pub fn map_indices<R: Threads + Sync, X: Send + Drop, F: Fn(usize) -> X + Sync>(
    rt: &R,
    alloc: Global,
    count: usize,
    call: &F,
) -> Result<Vec<X>, AllocError>
    requires { (i : ℕ) → i < count → F.pre call.now i }
    ensures len { IfOk result (λ results. vec_len results ≡ count) }
    ensures each { IfOk result (λ results. GivesEach F.Fn call.now count results.items) }
{
    if count == 1 {
        let mut results = Vec::new(alloc);
        results.push(call(0))?;
        return Ok(results);
    }
    calls_below(rt, alloc, count, call)
}

// What `call` returns below `count`, each on a thread of its own, of which the last begins first.
#[cycle(calls)]
fn calls_below<R: Threads + Sync, X: Send + Drop, F: Fn(usize) -> X + Sync>(
    rt: &R,
    alloc: Global,
    count: usize,
    call: &F,
) -> Result<Vec<X>, AllocError>
    requires { (i : ℕ) → i < count → F.pre call.now i }
    ensures len { IfOk result (λ results. vec_len results ≡ count) }
    ensures each { IfOk result (λ results. GivesEach F.Fn call.now count results.items) }
{
    if count == 0 {
        return Ok(Vec::new(alloc));
    }
    let last = count - 1;
    let one = move || -> X
        requires { IsSync F.row × IsSend X.row × F.pre call.now last }
        ensures { FnReturns F.Fn call.entry.now (last, tt) result }
    { call(last) };
    let below = move || -> Result<Vec<X>, AllocError>
        requires { IsSync R.row × IsSync F.row × IsSend X.row × ((i : ℕ) → i < last → F.pre call.now i) }
        ensures len { IfOk result (λ results. vec_len results ≡ last) }
        ensures each { IfOk result (λ results. GivesEach F.Fn call.entry.now last results.items) }
    { calls_below(rt, alloc, last, call) };
    let (result, below) = join(rt, one, below);
    let mut results = below?;
    results.push(result)?;
    Ok(results)
}
