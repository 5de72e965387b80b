//! A call for each job, each on a thread of its own.
ghost use Rattle.std.specs.Prelude.{◌≡◌, IfOk, vec_len};
ghost use Rattle.std.specs.Fn.{FnReturns};
ghost use Rattle.std.specs.Fork.{AcceptsJobs, GivesJobs};
ghost use Rattle.std.specs.Thread.{IsSync, IsSend};

use std::alloc::{AllocError, Global};
use std::thread::{Threads, join};

/// What `call` returns at each of `jobs`, in order, as `map_indices` makes its calls.
pub fn map_vec<R: Threads + Sync, J: Send + Drop, X: Send + Drop, F: Fn(J) -> X + Sync>(
    rt: &R,
    alloc: Global,
    jobs: Vec<J>,
    call: &F,
) -> Result<Vec<X>, AllocError>
    requires { AcceptsJobs F.Fn call.now jobs.items }
    ensures len { IfOk result (λ results. vec_len results ≡ vec_len jobs) }
    ensures each { IfOk result (λ results. GivesJobs F.Fn call.now jobs.items results.items) }
{
    let mut jobs = jobs;
    if jobs.len() > 1 {
        return jobs_done(rt, alloc, jobs, call);
    }
    let mut results = Vec::new(alloc);
    if let Some(job) = jobs.pop() {
        results.push(call(job))?;
    }
    Ok(results)
}

// What `call` returns at each of `jobs`, each on a thread of its own, of which the last begins
// first.
#[cycle(jobs)]
fn jobs_done<R: Threads + Sync, J: Send + Drop, X: Send + Drop, F: Fn(J) -> X + Sync>(
    rt: &R,
    alloc: Global,
    jobs: Vec<J>,
    call: &F,
) -> Result<Vec<X>, AllocError>
    requires { AcceptsJobs F.Fn call.now jobs.items }
    ensures len { IfOk result (λ results. vec_len results ≡ vec_len jobs) }
    ensures each { IfOk result (λ results. GivesJobs F.Fn call.now jobs.items results.items) }
{
    let mut jobs = jobs;
    let Some(job) = jobs.pop() else {
        return Ok(Vec::new(alloc));
    };
    let one = move || -> X
        requires { IsSync F.row × IsSend J.row × IsSend X.row × F.pre call.now job }
        ensures { FnReturns F.Fn call.entry.now (job, tt) result }
    { call(job) };
    let before = move || -> Result<Vec<X>, AllocError>
        requires { IsSync R.row × IsSync F.row × IsSend J.row × IsSend X.row
            × AcceptsJobs F.Fn call.now jobs.items }
        ensures len { IfOk result (λ results. vec_len results ≡ vec_len jobs) }
        ensures each { IfOk result (λ results. GivesJobs F.Fn call.entry.now jobs.items results.items) }
    { jobs_done(rt, alloc, jobs, call) };
    let (result, before) = join(rt, one, before);
    let mut results = before?;
    results.push(result)?;
    Ok(results)
}
