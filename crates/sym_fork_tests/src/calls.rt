//! What calls return, in order, and how often each is made.
use std::sync::atomic::{AtomicUsize, Ordering};
use std::test::Fail;
use sym_fork::{map_claimed, map_indices, map_vec};

// So many threads, or so many indices.
const COUNTS: [usize; 6] = [0, 1, 2, 5, 64, 1_000];

const THREADS: [usize; 5] = [0, 1, 2, 5, 64];

fn tripled(index: usize) -> usize {
    index.wrapping_mul(3)
}

/// A result that isn't what is tripled of its index.
#[derive(Clone, Copy, Debug, PartialEq, Eq)]
struct Mistake {
    index: usize,
    found: usize,
    wanted: usize,
}

// The first result that isn't what is tripled of its index.
fn first_mistake(results: &[usize]) -> Option<Mistake> {
    'results: for (index, found) in results.iter().enumerate() {
        let (found, wanted) = (*found, tripled(index));
        if found != wanted {
            return Some(Mistake {
                index,
                found,
                wanted,
            });
        }
    }
    None
}

#[test]
fn what_calls_return_at_indices_is_in_order(rt: HostRuntime) -> Result<(), Fail> {
    for count in [0, 1, 2, 5, 64] {
        let made = AtomicUsize::new(0);
        let results = map_indices(
            &rt,
            rt.alloc(),
            count,
            &|index: usize| -> usize {
                let _before = made.fetch_add(1, Ordering::SeqCst);
                tripled(index)
            },
        )?;
        assert_eq!(rt; results.len(), count);
        assert_eq!(rt; first_mistake(results.as_slice()), None, "{count} calls");
        assert_eq!(rt; made.load(Ordering::SeqCst), count);
    }
    Ok(())
}

#[test]
fn what_calls_return_at_jobs_is_in_order(rt: HostRuntime) -> Result<(), Fail> {
    for count in [0, 1, 2, 5, 64] {
        let mut jobs = Vec::new(rt.alloc());
        for job in 0..count {
            jobs.push(job)?;
        }
        let results = map_vec(
            &rt,
            rt.alloc(),
            jobs,
            &|job: usize| -> usize { tripled(job) },
        )?;
        assert_eq!(rt; results.len(), count);
        assert_eq!(rt; first_mistake(results.as_slice()), None, "{count} calls");
    }
    Ok(())
}

#[test]
fn each_index_is_taken_once(rt: HostRuntime) -> Result<(), Fail> {
    for count in COUNTS {
        for threads in THREADS {
            let made = AtomicUsize::new(0);
            let others = AtomicUsize::new(0);
            let results = map_claimed(
                &rt,
                rt.alloc(),
                count,
                threads,
                &|thread: usize, index: usize| -> usize {
                    let _before = made.fetch_add(1, Ordering::SeqCst);
                    if thread >= threads.max(1) {
                        let _others = others.fetch_add(1, Ordering::SeqCst);
                    }
                    tripled(index)
                },
            )?;
            let mistake = first_mistake(results.as_slice());
            assert_eq!(rt; results.len(), count, "by {threads} threads");
            assert_eq!(rt; mistake, None, "{count} calls by {threads} threads");
            let calls = (made.load(Ordering::SeqCst), others.load(Ordering::SeqCst));
            assert_eq!(rt; calls, (count, 0), "calls, and those of other threads");
        }
    }
    Ok(())
}
