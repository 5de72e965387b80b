//! Calls that wait for one another, which only calls on several threads can do.
use std::sync::atomic::{AtomicUsize, Ordering};
use std::test::Fail;
use std::thread::yield_now;
use sym_fork::{map_claimed, map_indices, map_vec};

// A call looks so often whether the others have begun.
const LOOKS: usize = 50_000_000;

// Whether as many calls have begun, this one among them.
fn met(begun: &AtomicUsize, count: usize) -> bool {
    let _before = begun.fetch_add(1, Ordering::SeqCst);
    for _ in 0..LOOKS {
        if begun.load(Ordering::SeqCst) >= count {
            return true;
        }
        yield_now();
    }
    false
}

#[test]
fn calls_at_indices_are_made_at_once(rt: HostRuntime) -> Result<(), Fail> {
    let begun = AtomicUsize::new(0);
    let results = map_indices(
        &rt,
        rt.alloc(),
        5,
        &|_index: usize| -> bool { met(&begun, 5) },
    )?;
    assert_eq!(rt; results.as_slice(), [true; 5].as_slice());
    Ok(())
}

#[test]
fn calls_at_jobs_are_made_at_once(rt: HostRuntime) -> Result<(), Fail> {
    let begun = AtomicUsize::new(0);
    let mut jobs = Vec::new(rt.alloc());
    for job in 0..5usize {
        jobs.push(job)?;
    }
    let results = map_vec(
        &rt,
        rt.alloc(),
        jobs,
        &|_job: usize| -> bool { met(&begun, 5) },
    )?;
    assert_eq!(rt; results.as_slice(), [true; 5].as_slice());
    Ok(())
}

#[test]
fn each_thread_takes_an_index(rt: HostRuntime) -> Result<(), Fail> {
    let begun = AtomicUsize::new(0);
    let results = map_claimed(
        &rt,
        rt.alloc(),
        5,
        5,
        &|thread: usize, _index: usize| -> usize { if met(&begun, 5) { thread } else { 5 } },
    )?;
    let mut seen = [false; 6];
    for thread in results.iter() {
        seen[(*thread).min(5)] = true;
    }
    assert_eq!(rt; seen, [true, true, true, true, true, false]);
    Ok(())
}
